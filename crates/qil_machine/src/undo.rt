//! The way back: what a move kept is put back, by its kind. No call here takes memory.

ghost use Rattle.std.specs.Prelude.{◌≡◌, ◌≤◌, []};
ghost use Rattle.qil_layout.specs.Layout.{low_bytes};
ghost use Rattle.qil_code.specs.Numbered.{block_at};
ghost use Rattle.qil_code.specs.Ranges.{IsShort};
ghost use Rattle.qil_frames.specs.Frames.{on_innermost};
ghost use Rattle.qil_frames.specs.Kept.{kept_slots};
ghost use Rattle.qil_state.specs.State.{ReceiverFits};
ghost use Rattle.qil_machine.specs.Moves.{at, end_of, inst_count, undone, Fits};
ghost use Rattle.qil_machine.specs.Kinds.{slots_move, one, bytes_move, called_move, returned_move, grown_move, copied_move, wrote_move, ended_move, poked_slot_move, poked_bytes_move, with_received, value_of};

use crate::machine::Machine;
use crate::undo_record::{Copied, Grown, UndoKind, UndoRecord};
use qil_code::{BlockId, Code, Receiver, Slot};
use qil_frames::{Frame, Frames, KeptSlots, PhiSaved};
use qil_layout::FuncId;
use qil_state::Status;
use std::alloc::Allocator;

impl<'c, A: Allocator + Copy> Machine<'c, A> {
    /// Puts back what a move kept. `UndoRecord::fits` is the test of its condition.
    #[inline(always)]
    pub fn undo(&mut self, undo_record: UndoRecord<A>)
        requires { Fits undo_record self.old }
        ensures { self.new ≡ undone undo_record self.old }
    {
        let UndoRecord { kind } = undo_record;
        match kind {
            UndoKind::Assigned { slot, index, old } => self.undo_assigned(slot, old, index),
            UndoKind::Stored {
                count,
                index,
                address,
                number,
            } => {
                self.undo_stored(count, index, address, number);
            }
            UndoKind::Left { block } => self.undo_left(block, KeptSlots::None),
            UndoKind::LeftOne { block, slot, old } => {
                self.undo_left(block, KeptSlots::One(slot, old));
            }
            UndoKind::LeftTwo {
                block,
                first,
                second,
                first_old,
                second_old,
            } => {
                self.undo_left(block, KeptSlots::Two(first, second, first_old, second_old));
            }
            UndoKind::LeftShort { block, kept } => self.undo_left(block, KeptSlots::Short(kept)),
            UndoKind::LeftMany { block, kept } => self.undo_left(block, KeptSlots::Many(kept)),
            UndoKind::Called { index } => self.undo_called(index),
            UndoKind::Returned {
                was_set,
                top,
                old,
                frame,
            } => {
                self.undo_returned(frame, top, value_of(was_set, old));
            }
            UndoKind::Grew(grown) => self.undo_boxed_grew(grown),
            UndoKind::Copied(copied) => self.undo_boxed_copied(copied),
            UndoKind::Wrote { index, count } => self.undo_wrote(index, count),
            UndoKind::WroteTo {
                was_set,
                slot,
                index,
                count,
                old,
            } => {
                self.undo_wrote_to(slot, value_of(was_set, old), index, count);
            }
            UndoKind::Ended => self.undo_ended(),
            UndoKind::PokedSlot { was_set, slot, old } => {
                self.undo_poked_slot(slot, value_of(was_set, old));
            }
            UndoKind::PokedBytes {
                count,
                address,
                number,
            } => {
                self.undo_poked_bytes(count, address, number);
            }
        }
    }
}

/// The kinds, each from what it keeps.
impl<'c, A: Allocator + Copy> Machine<'c, A> {
    #[inline(always)]
    fn undo_assigned(&mut self, slot: Slot, value: Option<u64>, index: u32)
        requires { Fits (slots_move (at index) (one slot value)) self.old }
        ensures { self.new ≡ undone (slots_move (at index) (one slot value)) self.old }
    {
        let _ = self.frames.assign(slot, value, index);
        run_again(&mut self.status);
    }

    #[inline(always)]
    fn undo_stored(&mut self, count: u8, index: u32, address: u32, number: u64)
        requires few { count ≤ 8 }
        requires fits { Fits (bytes_move index address (low_bytes count number)) self.old }
        ensures { self.new ≡ undone (bytes_move index address (low_bytes count number)) self.old }
    {
        self.memory
            .put_back(u64::from(address), u64::from(count), number);
        self.frames.set_index(index);
        run_again(&mut self.status);
    }

    #[inline(always)]
    fn undo_left(&mut self, block: u16, slots: KeptSlots<A>)
        requires fits { Fits (slots_move (end_of block) (kept_slots slots)) self.old }
        requires short { IsShort (kept_slots slots) }
        ensures { self.new ≡ undone (slots_move (end_of block) (kept_slots slots)) self.old }
    {
        let block = BlockId { index: block };
        let end = end_of(self.code, self.frames.innermost().func(), block);
        self.frames
            .undo_enter(PhiSaved::from_parts(block, end, slots));
        run_again(&mut self.status);
    }

    #[inline(always)]
    fn undo_called(&mut self, index: u32)
        requires { Fits (called_move index) self.old }
        ensures { self.new ≡ undone (called_move index) self.old }
    {
        let _ = self.frames.pop();
        self.frames.set_index(index);
        run_again(&mut self.status);
    }

    #[inline(always)]
    fn undo_returned(&mut self, frame: Frame<A>, top: u32, value: Option<u64>)
        requires { Fits (returned_move frame top value) self.old }
        ensures { self.new ≡ undone (returned_move frame top value) self.old }
    {
        self.memory.set_top(u64::from(top));
        put_received(&mut self.frames, frame.result(), value);
        self.frames.push(frame);
        run_again(&mut self.status);
    }

    /// The rare kinds are taken out of their boxes in calls of their own, so that the way of the others has no room for them.
    #[inline(never)]
    fn undo_boxed_grew(&mut self, grown: Box<Grown<A>, A>)
        requires { Fits (grown_move grown.value.index grown.value.slot grown.value.value grown.value.saved) self.old }
        ensures { self.new ≡ undone (grown_move grown.value.index grown.value.slot grown.value.value grown.value.saved) self.old }
    {
        self.undo_grew(Box::into_inner(grown));
    }

    #[inline(always)]
    fn undo_grew(&mut self, grown: Grown<A>)
        requires { Fits (grown_move grown.index grown.slot grown.value grown.saved) self.old }
        ensures { self.new ≡ undone (grown_move grown.index grown.slot grown.value grown.saved) self.old }
    {
        let Grown {
            index,
            slot,
            value,
            saved,
        } = grown;
        // Reading the top makes known what the memory keeps.
        let _ = self.memory.top();
        self.memory.undo(saved);
        let _ = self.frames.set(slot, value);
        self.frames.set_index(index);
        run_again(&mut self.status);
    }

    #[inline(never)]
    fn undo_boxed_copied(&mut self, copied: Box<Copied<A>, A>)
        requires { Fits (copied_move copied.value.index copied.value.saved) self.old }
        ensures { self.new ≡ undone (copied_move copied.value.index copied.value.saved) self.old }
    {
        self.undo_copied(Box::into_inner(copied));
    }

    #[inline(always)]
    fn undo_copied(&mut self, copied: Copied<A>)
        requires { Fits (copied_move copied.index copied.saved) self.old }
        ensures { self.new ≡ undone (copied_move copied.index copied.saved) self.old }
    {
        let Copied { index, saved } = copied;
        // Reading the top makes known what the memory keeps.
        let _ = self.memory.top();
        self.memory.undo(saved);
        self.frames.set_index(index);
        run_again(&mut self.status);
    }

    fn undo_wrote(&mut self, index: u32, count: u32)
        requires { Fits (wrote_move index count []) self.old }
        ensures { self.new ≡ undone (wrote_move index count []) self.old }
    {
        let length = count as usize;
        self.output.truncate(length);
        self.frames.set_index(index);
        run_again(&mut self.status);
    }

    fn undo_wrote_to(&mut self, slot: Slot, value: Option<u64>, index: u32, count: u32)
        requires { Fits (wrote_move index count (one slot value)) self.old }
        ensures { self.new ≡ undone (wrote_move index count (one slot value)) self.old }
    {
        self.output.truncate(count as usize);
        let _ = self.frames.set(slot, value);
        self.frames.set_index(index);
        run_again(&mut self.status);
    }

    fn undo_ended(&mut self)
        requires { Fits ended_move self.old }
        ensures { self.new ≡ undone ended_move self.old }
    {
        run_again(&mut self.status);
    }

    fn undo_poked_slot(&mut self, slot: Slot, value: Option<u64>)
        requires { Fits (poked_slot_move slot value) self.old }
        ensures { self.new ≡ undone (poked_slot_move slot value) self.old }
    {
        let _ = self.frames.set(slot, value);
    }

    fn undo_poked_bytes(&mut self, count: u8, address: u32, number: u64)
        requires few { count ≤ 8 }
        requires fits { Fits (poked_bytes_move address (low_bytes count number)) self.old }
        ensures { self.new ≡ undone (poked_bytes_move address (low_bytes count number)) self.old }
    {
        self.memory
            .put_back(u64::from(address), u64::from(count), number);
    }
}

/// Makes a status that of a run that goes on. Nearly each move is undone while it does: then nothing is written.
#[inline(always)]
fn run_again(status: &mut Status)
    ensures { status.new ≡ Status.Running }
{
    match status {
        Status::Running => {}
        Status::Done(_) | Status::Exited(_) | Status::Faulted(_) => *status = Status::Running,
    }
}

/// What a slot held, by the two fields in which an undo record keeps it.
#[inline(always)]
pub fn value_of(set: bool, value: u64) -> Option<u64>
    ensures { result ≡ value_of set value }
{
    if set { Some(value) } else { None }
}

/// How many instructions a block has.
#[inline(always)]
fn end_of<A: Allocator + Copy>(code: &Code<'_, A>, func: FuncId, block: BlockId) -> u32
    ensures { result ≡ inst_count (block_at code.now func.index block.index) }
{
    match code.block(func, block) {
        Some(found) => found.insts.as_slice().len() as u32,
        None => 0,
    }
}

/// Puts a value into the slot that takes a result, if there is one.
#[inline(always)]
fn put_received<A: Allocator>(
    frames: &mut Frames<A>,
    receiver: Option<Receiver>,
    value: Option<u64>,
)
    requires { ReceiverFits frames.old receiver }
    ensures { frames.new ≡ on_innermost (with_received receiver value) frames.old }
{
    if let Some(to) = receiver {
        let _ = frames.set(to.slot, value);
    }
}
