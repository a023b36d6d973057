//! Whether what a move kept fits a machine. Only what the move puts back is looked at, and the frames that it touches.

ghost use Rattle.std.specs.Prelude.{◌≡◌, ◌↔◌, [], ◌∷◌, IsTrue, Some, true, option_copied, slice_get};
ghost use Rattle.qil_layout.specs.Layout.{low_bytes};
ghost use Rattle.qil_memory.specs.Places.{HasPlaces};
ghost use Rattle.qil_code.specs.Numbered.{block_at};
ghost use Rattle.qil_frames.specs.Enter.{AreSlots};
ghost use Rattle.qil_frames.specs.Frames.{HasSlot};
ghost use Rattle.qil_state.specs.State.{PlaceFits, FrameFits, ReceiverFits, IsMachine};
ghost use Rattle.qil_machine.specs.UndoRecords.{move_of};
ghost use Rattle.qil_machine.specs.Moves.{at, end_of, without, Fits};
ghost use Rattle.qil_machine.specs.Kinds.{slots_move, one, bytes_move, called_move, returned_move, grown_move, copied_move, wrote_move, ended_move, poked_slot_move, poked_bytes_move};
ghost use Rattle.qil_fitting.specs.Fitting.{HasIndex, HasBlock, HasSlots, HasFloor, FloorFits, MayReturn};

use qil_code::{BlockId, Code, Receiver, Slot};
use qil_frames::{Frame, Frames, SavedSlot};
use qil_machine::{Grown, Machine, UndoKind, UndoRecord, value_of};
use qil_memory::{CAPACITY, Memory, STACK_BASE, Saved};
use std::alloc::Allocator;

/// Whether `Machine::undo` may put this back into the machine: all places that it names are there, and the machine
/// would be one that the type allows. What a move of a machine gives fits that machine.
pub fn fits<'s, 'c, A: Allocator + Copy>(
    undo_record: &'s UndoRecord<A>,
    machine: &'s Machine<'c, A>,
) -> bool
    ensures { IsTrue result ↔ Fits undo_record.now machine.now }
{
    fits_kind(machine, undo_record.kind())
}

// The machine comes before the kind, as it comes first in what this calls, so that its lifetimes have the same places in all
// of their signatures. With the kind first, each call had to take the whole type of a machine at other places: the check took
// five times as long.
fn fits_kind<A: Allocator + Copy>(machine: &Machine<'_, A>, kind: &UndoKind<A>) -> bool
    ensures { IsTrue result ↔ Fits (move_of kind.now) machine.now }
{
    match kind {
        UndoKind::Assigned { slot, index, old } => fits_assigned(machine, *slot, *old, *index),
        UndoKind::Stored {
            count,
            index,
            address,
            number,
        } => { fits_stored(machine, *count, *index, *address, *number) }
        UndoKind::Left { block } => fits_left(machine, *block, &[]),
        UndoKind::LeftOne { block, slot, old } => fits_left_one(machine, *block, *slot, *old),
        UndoKind::LeftTwo {
            block,
            first,
            second,
            first_old,
            second_old,
        } => fits_left_two(machine, *block, *first, *second, *first_old, *second_old),
        UndoKind::LeftShort { block, kept } => fits_left(machine, *block, kept.as_slice()),
        UndoKind::LeftMany { block, kept } => fits_left(machine, *block, kept.as_slice()),
        UndoKind::Called { index } => fits_called(machine, *index),
        UndoKind::Returned {
            was_set,
            top,
            old,
            frame,
        } => { fits_returned(machine, frame, *top, value_of(*was_set, *old)) }
        UndoKind::Grew(grown) => fits_grew(machine, grown),
        UndoKind::Copied(copied) => fits_copied(machine, copied.index, &copied.saved),
        UndoKind::Wrote { index, count } => fits_wrote(machine, *index, *count),
        UndoKind::WroteTo {
            was_set,
            slot,
            index,
            count,
            old,
        } => { fits_wrote_to(machine, *slot, value_of(*was_set, *old), *index, *count) }
        UndoKind::Ended => fits_ended(machine),
        UndoKind::PokedSlot { was_set, slot, old } => {
            fits_poked_slot(machine, *slot, value_of(*was_set, *old))
        }
        UndoKind::PokedBytes {
            count,
            address,
            number,
        } => { fits_poked_bytes(machine, *count, *address, *number) }
    }
}

// The kinds, each from what it keeps. Where slots are put back, it fits if the slots are there and the rest of it fits.

fn fits_assigned<A: Allocator + Copy>(
    machine: &Machine<'_, A>,
    slot: Slot,
    value: Option<u64>,
    index: u32,
) -> bool
    ensures { IsTrue result ↔ Fits (slots_move (at index) (one slot value)) machine.now }
{
    let is_slot = is_slot_there(machine, slot);
    let is_index = fits_index(machine, index);
    is_slot && is_index
}

fn fits_index<A: Allocator + Copy>(machine: &Machine<'_, A>, index: u32) -> bool
    ensures { IsTrue result ↔ Fits (slots_move (at index) []) machine.now }
{
    has_index(machine.code(), machine.calls(), index)
}

fn fits_stored<A: Allocator + Copy>(
    machine: &Machine<'_, A>,
    count: u8,
    index: u32,
    address: u32,
    number: u64,
) -> bool
    ensures { IsTrue result ↔ Fits (bytes_move index address (low_bytes count number)) machine.now }
{
    let is_index = has_index(machine.code(), machine.calls(), index);
    let are_places = has_places(machine.memory(), count, address, number);
    is_index && are_places
}

fn fits_left<A: Allocator + Copy>(machine: &Machine<'_, A>, block: u16, kept: &[SavedSlot]) -> bool
    ensures { IsTrue result ↔ Fits (slots_move (end_of block) kept.now) machine.now }
{
    let are_slots = are_slots_there(machine, kept);
    let is_block = fits_end(machine, block);
    are_slots && is_block
}

fn fits_left_one<A: Allocator + Copy>(
    machine: &Machine<'_, A>,
    block: u16,
    slot: Slot,
    value: Option<u64>,
) -> bool
    ensures { IsTrue result ↔ Fits (slots_move (end_of block) (one slot value)) machine.now }
{
    fits_left(machine, block, &[SavedSlot { slot, value }])
}

/// Where two phis of the block wrote, and both slots had been set.
fn fits_left_two<A: Allocator + Copy>(
    machine: &Machine<'_, A>,
    block: u16,
    a: Slot,
    b: Slot,
    x: u64,
    y: u64,
) -> bool
    ensures { IsTrue result ↔ Fits (slots_move (end_of block) (record { slot = a; value = Some x } ∷ record { slot = b; value = Some y } ∷ [])) machine.now }
{
    let first = SavedSlot {
        slot: a,
        value: Some(x),
    };
    let second = SavedSlot {
        slot: b,
        value: Some(y),
    };
    fits_left(machine, block, &[first, second])
}

fn fits_end<A: Allocator + Copy>(machine: &Machine<'_, A>, block: u16) -> bool
    ensures { IsTrue result ↔ Fits (slots_move (end_of block) []) machine.now }
{
    has_block(machine.code(), machine.calls(), BlockId { index: block })
}

fn fits_called<A: Allocator + Copy>(machine: &Machine<'_, A>, index: u32) -> bool
    ensures { IsTrue result ↔ Fits (called_move index) machine.now }
{
    caller_has_index(machine.code(), machine.calls(), index)
}

fn fits_returned<A: Allocator + Copy>(
    machine: &Machine<'_, A>,
    frame: &Frame<A>,
    top: u32,
    value: Option<u64>,
) -> bool
    ensures { IsTrue result ↔ Fits (returned_move frame.now top value) machine.now }
{
    may_return(machine.code(), machine.calls(), frame, u64::from(top))
}

fn fits_grew<A: Allocator + Copy>(machine: &Machine<'_, A>, grown: &Grown<A>) -> bool
    ensures { IsTrue result ↔ Fits (grown_move grown.now.index grown.now.slot grown.now.value grown.now.saved) machine.now }
{
    let is_slot = is_slot_there(machine, grown.slot);
    let is_saved = fits_copied(machine, grown.index, &grown.saved);
    is_slot && is_saved
}

fn fits_copied<A: Allocator + Copy>(machine: &Machine<'_, A>, index: u32, saved: &Saved<A>) -> bool
    ensures { IsTrue result ↔ Fits (copied_move index saved.now) machine.now }
{
    let is_memory = saved.fits(machine.memory());
    let is_floor = has_floor(machine.calls(), saved.top());
    let is_index = has_index(machine.code(), machine.calls(), index);
    // Reading the top makes known what the memory keeps.
    let _ = machine.memory().top();
    is_memory && is_floor && is_index
}

fn fits_wrote<A: Allocator + Copy>(machine: &Machine<'_, A>, index: u32, count: u32) -> bool
    ensures { IsTrue result ↔ Fits (wrote_move index count []) machine.now }
{
    let is_index = has_index(machine.code(), machine.calls(), index);
    let is_count = count as usize <= machine.output().len();
    is_index && is_count
}

fn fits_wrote_to<A: Allocator + Copy>(
    machine: &Machine<'_, A>,
    slot: Slot,
    value: Option<u64>,
    index: u32,
    count: u32,
) -> bool
    ensures { IsTrue result ↔ Fits (wrote_move index count (one slot value)) machine.now }
{
    let is_slot = is_slot_there(machine, slot);
    let is_count = fits_wrote(machine, index, count);
    is_slot && is_count
}

fn fits_ended<A: Allocator + Copy>(machine: &Machine<'_, A>) -> bool
    ensures { IsTrue result ↔ Fits ended_move machine.now }
{
    machine.calls().depth() > 0
}

fn fits_poked_slot<A: Allocator + Copy>(
    machine: &Machine<'_, A>,
    slot: Slot,
    value: Option<u64>,
) -> bool
    ensures { IsTrue result ↔ Fits (poked_slot_move slot value) machine.now }
{
    is_slot_there(machine, slot)
}

fn fits_poked_bytes<A: Allocator + Copy>(
    machine: &Machine<'_, A>,
    count: u8,
    address: u32,
    number: u64,
) -> bool
    ensures { IsTrue result ↔ Fits (poked_bytes_move address (low_bytes count number)) machine.now }
{
    // That it is a machine is known from here on.
    let _ = machine.calls();
    has_places(machine.memory(), count, address, number)
}

fn is_slot_there<A: Allocator + Copy>(machine: &Machine<'_, A>, slot: Slot) -> bool
    ensures slot { IsTrue result ↔ HasSlot machine.now.frames slot }
    ensures machine { IsMachine machine.now }
{
    has_slot(machine.calls(), slot)
}

fn are_slots_there<A: Allocator + Copy>(machine: &Machine<'_, A>, kept: &[SavedSlot]) -> bool
    ensures { IsTrue result ↔ HasSlots machine.now.frames kept.now }
{
    has_slots(machine.calls(), kept)
}

fn has_slots<A: Allocator>(frames: &Frames<A>, kept: &[SavedSlot]) -> bool
    ensures { IsTrue result ↔ HasSlots frames.now kept.now }
{
    frames.depth() > 0 && are_within(kept, frames.innermost().slots().len())
}

fn has_slot<A: Allocator>(frames: &Frames<A>, slot: Slot) -> bool
    ensures { IsTrue result ↔ HasSlot frames.now slot }
{
    frames.depth() > 0 && usize::from(slot.index) < frames.innermost().slots().len()
}

/// Whether each slot is one of the first `count`.
fn are_within(kept: &[SavedSlot], count: usize) -> bool
    ensures { IsTrue result ↔ AreSlots kept.now count }
{
    kept.iter().all(|kept| usize::from(kept.slot.index) < count)
}

/// Whether a block has an instruction at the index, or ends there.
fn is_place<A: Allocator + Copy>(code: &Code<'_, A>, frame: &Frame<A>, index: u32) -> bool
    ensures { IsTrue result ↔ PlaceFits (block_at code.now frame.now.func frame.now.block) index }
{
    match code.source(frame.func(), frame.block()) {
        Some(block) => index as usize <= block.insts.as_slice().len(),
        None => false,
    }
}

fn has_index<A: Allocator + Copy>(code: &Code<'_, A>, frames: &Frames<A>, index: u32) -> bool
    ensures { IsTrue result ↔ HasIndex code.now frames.now index }
{
    frames.depth() > 0 && is_place(code, frames.innermost(), index)
}

fn has_block<A: Allocator + Copy>(code: &Code<'_, A>, frames: &Frames<A>, block: BlockId) -> bool
    ensures { IsTrue result ↔ HasBlock code.now frames.now block.index }
{
    frames.depth() > 0 && code.source(frames.innermost().func(), block).is_some()
}

/// The frame under the innermost.
fn caller<A: Allocator>(frames: &Frames<A>) -> Option<&Frame<A>>
    ensures { option_copied result ≡ slice_get (without true frames.now) 0 }
{
    match frames.frames().split_last() {
        Some((_, callers)) => callers.last(),
        None => None,
    }
}

fn caller_has_index<A: Allocator + Copy>(code: &Code<'_, A>, frames: &Frames<A>, index: u32) -> bool
    ensures { IsTrue result ↔ HasIndex code.now (without true frames.now) index }
{
    match caller(frames) {
        Some(frame) => is_place(code, frame, index),
        None => false,
    }
}

fn has_places<A: Allocator + Copy>(memory: &Memory<A>, count: u8, address: u32, number: u64) -> bool
    ensures { IsTrue result ↔ HasPlaces memory.now address (low_bytes count number) }
{
    let inside = memory.has_bytes(u64::from(address), usize::from(count));
    count == 0 || inside
}

fn has_floor<A: Allocator>(frames: &Frames<A>, top: u64) -> bool
    ensures { IsTrue result ↔ HasFloor frames.now top }
{
    frames.depth() > 0 && frames.innermost().floor() <= top
}

/// Whether a floor isn't under that of the caller, nor under the stack.
fn is_floor<A: Allocator>(frames: &Frames<A>, floor: u64) -> bool
    ensures { IsTrue result ↔ FloorFits frames.now floor }
{
    if frames.depth() == 0 {
        STACK_BASE <= floor
    } else {
        frames.innermost().floor() <= floor
    }
}

/// Whether the caller has the slot that takes a result.
fn is_receiver<A: Allocator>(frames: &Frames<A>, receiver: Option<Receiver>) -> bool
    ensures { IsTrue result ↔ ReceiverFits frames.now receiver }
{
    match receiver {
        None => true,
        Some(to) => has_slot(frames, to.slot),
    }
}

/// Whether a frame is one of the code.
fn is_frame<A: Allocator + Copy>(code: &Code<'_, A>, frame: &Frame<A>) -> bool
    ensures { IsTrue result ↔ FrameFits code.now frame.now }
{
    let are_slots = code.slot_count(frame.func()) == frame.slots().len();
    let stands = is_place(code, frame, frame.index());
    are_slots && stands
}

/// Whether a frame may come back, with this top of the stack.
fn may_return<A: Allocator + Copy>(
    code: &Code<'_, A>,
    frames: &Frames<A>,
    frame: &Frame<A>,
    top: u64,
) -> bool
    ensures { IsTrue result ↔ MayReturn code.now frames.now frame.now top }
{
    let few = frames.depth() < 1_000;
    let high = top <= STACK_BASE + CAPACITY;
    let floor = frame.floor() <= top;
    let low = is_floor(frames, frame.floor());
    let is_frame = is_frame(code, frame);
    let receiver = is_receiver(frames, frame.result());
    few && high && floor && low && is_frame && receiver
}
