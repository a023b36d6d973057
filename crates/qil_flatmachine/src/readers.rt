//! What a machine says of itself. Nothing here takes memory.

ghost use Rattle.std.specs.Prelude.{◌≡◌, ◌+◌, ◌==◌, ◌&&◌, ◌<◌, ◌≤◌, ℕ, List, Some, None, false, length, option_map, reverse, slice_get};
ghost use Rattle.qil_tree.specs.declared.tree.Block.{Block};
ghost use Rattle.qil_tree.specs.declared.tree.Func.{Func};
ghost use Rattle.qil_layout.specs.Layout.{low_bytes};
ghost use Rattle.qil_memory.specs.Bytes.{number};
ghost use Rattle.qil_memory.specs.Calls.{IsWidth};
ghost use Rattle.qil_memory.specs.Live.{live, read};
ghost use Rattle.qil_semantics.specs.Stops.{is_at, reading, temp_in, value_reading};
ghost use Rattle.qil_code.specs.Numbered.{func_at, block_at, names_of};
ghost use Rattle.qil_frames.specs.Frames.{SlotFrame, HasSlot, held};
ghost use Rattle.qil_flat.specs.Shown.{active_call, slot_frame};
ghost use Rattle.qil_state.specs.State.{FrameFits, IsMachine, state_of, head_names};
ghost use Rattle.qil_machine.specs.Readings.{frame_of, stands_at, temp_here};
ghost use Rattle.qil_flatmachine.specs.Seen.{place_in};

use crate::machine::FlatMachine;
use qil_code::{BlockId, Code, Slot};
use qil_flat::{FlatPlace, ShownCall};
use qil_history::FrameView;
use qil_layout::FuncId;
use qil_state::Status;
use std::alloc::Allocator;

impl<'c, A: Allocator + Copy> FlatMachine<'c, A> {
    /// The call with so many callers.
    fn view_at(&self, outside: usize) -> FrameView<'_>
        requires { outside < length self.now.whole.frames }
        ensures frame { slice_get (reverse self.now.whole.frames) outside ≡ Some result }
        ensures machine { IsMachine self.now.whole }
    {
        let call = self.calls.call_at(outside);
        self.view_of(call)
    }

    /// A call as a frame, by the place that it is at.
    fn view_of<'s>(&self, call: ShownCall<'s>) -> FrameView<'s>
        requires there { call.ip < length self.now.base.flat.places }
        requires fits { FrameFits self.now.whole.program (slot_frame (place_in self.now.base.flat.places) (active_call call)) }
        ensures { result ≡ slot_frame (place_in self.now.base.flat.places) (active_call call.entry) }
    {
        let code = self.code;
        let numbered = code.code();
        match code.place(call.ip) {
            // A function has at most 65,535 slots, which only its numbered code says.
            Some(place) => match numbered.func(place.func) {
                Some(_) => FrameView::new(
                    place.func,
                    place.block,
                    place.index,
                    call.slots,
                    call.floor,
                    call.result,
                ),
                None => unreachable!(),
            },
            None => unreachable!(),
        }
    }

    /// What a watch reads of memory: the number in 1, 2, 4 or 8 bytes from an address on, if all are live.
    #[inline(always)]
    pub fn memory_reading(&self, address: u64, width: u64) -> Option<u64>
        requires { IsWidth width }
        ensures number { result ≡ option_map number (read (live self.now.whole.memory) address width) }
        ensures bytes { option_map (low_bytes width) result ≡ read (live self.now.whole.memory) address width }
    {
        self.memory.number_at(address, width)
    }

    /// What a watch reads of a temporary: its value in the innermost frame of the function. Nothing where it is unset, and
    /// where the function has no frame.
    #[inline(never)]
    pub fn temp_reading(&self, func: FuncId, slot: Slot) -> Option<u64>
        ensures named { (source : Func A) (name : List ℕ) → func_at self.now.whole.program func.index ≡ Some source → slice_get (names_of self.now.whole.program func.index) slot.index ≡ Some name
            → value_reading result ≡ reading (temp_in source.name name) (state_of self.now.whole) }
        ensures unknown { slice_get (names_of self.now.whole.program func.index) slot.index ≡ None → result ≡ None }
    {
        match self.code.code().class_of(func, slot) {
            Some(_) => match self.innermost_of(func) {
                Some(slots) => slots[usize::from(slot.index)],
                None => None,
            },
            None => None,
        }
    }

    /// The slots of the innermost call of a function.
    fn innermost_of(&self, func: FuncId) -> Option<&[Option<u64>]>
        ensures { option_map (λ vs. vs.now) result ≡ option_map (λ f. f.slots) (frame_of func.index self.now.whole.frames) }
    {
        let mut left = self.calls.depth();
        while left > 0 {
            left -= 1;
            let call = self.calls.call_at(left);
            let place = match self.code.place(call.ip) {
                Some(place) => place,
                None => unreachable!(),
            };
            if place.func.index == func.index {
                return Some(call.slots);
            }
        }
        None
    }

    /// Whether the run goes on, and its innermost frame is in a block with so many instructions done.
    // A function of its own, as `temp_reading`: what a watch of memory reads then needs few registers in the loop of a run.
    #[inline(never)]
    pub fn is_at(&self, func: FuncId, block: BlockId, index: u64) -> bool
        ensures named { (source : Func A) (target : Block A) → func_at self.now.whole.program func.index ≡ Some source → block_at self.now.whole.program func.index block.index ≡ Some target
            → result ≡ is_at (record { func = source.name; label = target.label; index = index }) (state_of self.now.whole) }
        ensures unknown { block_at self.now.whole.program func.index block.index ≡ None → result ≡ false }
    {
        self.code.code().names_are_distinct();
        match self.status {
            Status::Running => self.stands_at(func, block, index),
            _ => false,
        }
    }

    /// Whether the innermost call is in a block of a function, with so many instructions done.
    #[inline(always)]
    fn stands_at(&self, func: FuncId, block: BlockId, index: u64) -> bool
        requires { 0 < length self.now.whole.frames }
        ensures { (f : SlotFrame) → slice_get self.now.whole.frames 0 ≡ Some f → result ≡ stands_at func.index block.index index f }
    {
        // Reading a field makes known what its type keeps.
        let _ = self.code.code();
        match self.code.place(self.calls.ip()) {
            Some(place) => is_place(place, func, block, index),
            None => unreachable!(),
        }
    }
}

/// Whether a place is in a block of a function, behind so many instructions.
#[inline(always)]
fn is_place(place: FlatPlace, func: FuncId, block: BlockId, index: u64) -> bool
    ensures { result ≡ ((place.func.index == func.index) && ((place.block.index == block.index) && place.index == index)) }
{
    place.func.index == func.index
        && place.block.index == block.index
        && u64::from(place.index) == index
}

/// The readers of a machine. They are no `impl` of `Readers`: what is generic in these is given a machine with copies.
impl<'c, A: Allocator + Copy> FlatMachine<'c, A> {
    /// The code that it runs.
    pub fn code(&self) -> &Code<'c, A>
        ensures { result.now ≡ self.now.whole.program }
    {
        self.code.code()
    }

    /// How the run stands.
    pub fn status(&self) -> Status
        ensures { result ≡ self.now.whole.status }
    {
        self.status
    }

    /// How many calls are not over.
    pub fn depth(&self) -> usize
        ensures { result ≡ length self.now.whole.frames }
    {
        self.calls.depth()
    }

    /// A call that is not over, counted from the innermost one.
    pub fn frame(&self, inner: usize) -> Option<FrameView<'_>>
        ensures frame { result ≡ slice_get self.now.whole.frames inner }
        ensures machine { IsMachine self.now.whole }
    {
        let outside = self.calls.depth().checked_sub(inner)?.checked_sub(1)?;
        Some(self.view_at(outside))
    }

    /// The bytes that were written.
    pub fn output(&self) -> &[u8]
        ensures { result.now ≡ self.now.whole.output }
    {
        self.output.as_slice()
    }

    /// The first dead address of the stack.
    pub fn top(&self) -> u64
        ensures { result ≡ self.now.whole.memory.top }
    {
        self.memory.top()
    }

    /// The byte so far after an address, if it is live. After the last address there is none.
    pub fn byte_after(&self, address: u64, offset: u64) -> Option<u8>
        ensures { result ≡ live self.now.whole.memory (address + offset) }
    {
        let _top = self.memory.top();
        match address.checked_add(offset) {
            Some(at) => self.memory.byte(at),
            None => None,
        }
    }

    /// What a slot of the innermost frame holds, if it is set.
    pub fn value(&self, slot: Slot) -> Option<u64>
        requires { HasSlot self.now.whole.frames slot }
        ensures held { result ≡ held self.now.whole.frames slot }
        ensures named { (name : List ℕ) → slice_get (head_names self.now.whole.program self.now.whole.frames) slot.index ≡ Some name → result ≡ temp_here (state_of self.now.whole).frames name }
    {
        self.calls.get(slot)
    }
}
