//! The undo records of the newest moves.

ghost use Rattle.std.specs.Prelude.{◌≡◌, ◌+◌, ◌-◌, ◌≤◌, ◌<◌, ◌^◌, [], ◌∷◌, ◌++◌, length, IfNone, option_to_list};
ghost use Rattle.circular_buffer.specs.Buffer.{buffer, keep_last};
ghost use Rattle.qil_undo_log.specs.Kept.{HasAdded};

use circular_buffer::HeapCircularBuffer;
use qil_machine::{Frame, UndoKind, UndoRecord, UndoSink};
use std::alloc::Allocator;
use std::mem::forget;

/// The undo records of the newest moves, the latest last, and how many older ones went. A step puts its undo record here itself, so that it
/// is made in the place where it stays. The frame that the oldest one kept, as it went, waits here for the machine.
#[derive(Drop)]
pub struct Newest<A: Allocator> {
    pub(crate) records: HeapCircularBuffer<UndoRecord<A>, A>,
    pub(crate) forgotten: u64,
    pub(crate) spare: Option<Frame<A>>,
}

/// Lets an undo record go. What it owns is dropped by itself, but for a frame, in whose memory a call may begin; and an undo record that owns
/// nothing is forgotten: to drop a whole one it would be put into memory, part by part, and read there at once, which the
/// processor waits for.
#[inline(always)]
fn recycle<A: Allocator>(undo_record: UndoRecord<A>, spare: &mut Option<Frame<A>>) {
    match undo_record.into_kind() {
        UndoKind::Returned { frame, .. } => *spare = Some(frame),
        UndoKind::LeftShort { kept, .. } => drop(kept),
        UndoKind::LeftMany { kept, .. } => drop(kept),
        UndoKind::Grew(grown) => drop(grown),
        UndoKind::Copied(copied) => drop(copied),
        owns_nothing => forget(owns_nothing),
    }
}

/// Lets the undo record go for which there was no place, if there was none.
#[inline(always)]
fn let_refused_go<A: Allocator>(kept: Result<(), UndoRecord<A>>, spare: &mut Option<Frame<A>>) {
    if let Err(undo_record) = kept {
        recycle(undo_record, spare);
    }
}

/// Makes room for one more, if there is any: where all places are taken the oldest undo record goes, and is counted.
#[inline(always)]
fn make_room<A: Allocator>(
    records: &mut HeapCircularBuffer<UndoRecord<A>, A>,
    forgotten: &mut u64,
    spare: &mut Option<Frame<A>>,
)
    requires few { length records.old.items ≤ records.old.capacity }
    requires small { forgotten.old < 2 ^ 63 }
    ensures records { records.new ≡ buffer (keep_last (records.old.capacity - 1) records.old.items) records.old.capacity }
    ensures forgotten { forgotten.new ≡ forgotten.old + (length records.old.items + 1 - records.old.capacity) }
{
    if records.is_full() {
        if let Some(oldest) = records.pop_front() {
            recycle(oldest, spare);
        }
        *forgotten += 1;
    }
}

/// Takes the latest item away.
#[inline(always)]
pub(crate) fn take_latest<T, A: Allocator>(items: &mut HeapCircularBuffer<T, A>) -> Option<T>
    ensures items { items.old.items ≡ items.new.items ++ option_to_list result }
    ensures none { IfNone result (items.old.items ≡ []) }
    ensures capacity { items.new.capacity ≡ items.old.capacity }
{
    items.pop_back()
}

impl<A: Allocator> UndoSink<UndoRecord<A>> for Newest<A> {
    ghost takes = { λ n m d. HasAdded n.records n.forgotten d m.records m.forgotten };

    ghost has_room = { λ n. (length n.records.items ≤ n.records.capacity) × (n.forgotten < 2 ^ 63) };

    #[inline(always)]
    fn keep(&mut self, item: UndoRecord<A>) {
        make_room(&mut self.records, &mut self.forgotten, &mut self.spare);
        let kept = self.records.try_push_back(item);
        let_refused_go(kept, &mut self.spare);
    }
}
