//! What a machine says of itself: its parts, what lies in memory, what temporaries hold. Nothing here takes memory.

ghost use Rattle.std.specs.Prelude.{◌≡◌, ◌≢◌, ◌↔◌, ℕ, List, Some, None, IsTrue, slice_get, reverse};
ghost use Rattle.std.specs.Option.{option_copied};
ghost use Rattle.qil_tree.specs.declared.tree.Func.{Func};
ghost use Rattle.qil_memory.specs.Calls.{IsWidth, loaded};
ghost use Rattle.qil_memory.specs.Live.{live};
ghost use Rattle.qil_semantics.specs.Stops.{reading, temp_in, value_reading};
ghost use Rattle.qil_code.specs.Numbered.{func_at, names_of};
ghost use Rattle.qil_frames.specs.Frames.{HasSlot, held};
ghost use Rattle.qil_state.specs.declared.status.Status.{Status};
ghost use Rattle.qil_state.specs.State.{IsMachine, state_of, head_names};
ghost use Rattle.qil_machine.specs.Readings.{frame_of, temp_here};

use crate::machine::Machine;
use qil_code::{Code, Slot};
use qil_frames::{Frame, Frames};
use qil_layout::FuncId;
use qil_memory::{Dead, Memory};
use qil_state::Status;
use std::alloc::Allocator;

impl<'c, A: Allocator + Copy> Machine<'c, A> {
    /// The code that it runs.
    pub fn code(&self) -> &'c Code<'c, A>
        ensures { result.now ≡ self.now.program }
    {
        self.code
    }

    /// How the run stands.
    pub fn status(&self) -> Status
        ensures { result ≡ self.now.status }
    {
        self.status
    }

    /// Whether the run is over.
    pub fn is_final(&self) -> bool
        ensures { IsTrue result ↔ (self.now.status ≢ Status.Running) }
    {
        self.status != Status::Running
    }

    /// The calls that are not over, the outermost first.
    pub fn frames(&self) -> &[Frame<A>]
        ensures value { result.now ≡ reverse self.now.frames }
        ensures machine { IsMachine self.now }
    {
        self.frames.frames()
    }

    /// The same with the slots and floors of each, as undoing has them.
    pub fn calls(&self) -> &Frames<A>
        ensures value { result.now ≡ self.now.frames }
        ensures machine { IsMachine self.now }
    {
        &self.frames
    }

    /// The memory.
    pub fn memory(&self) -> &Memory<A>
        ensures { result.now ≡ self.now.memory }
    {
        &self.memory
    }

    /// The bytes that were written.
    pub fn output(&self) -> &[u8]
        ensures { result.now ≡ self.now.output }
    {
        self.output.as_slice()
    }

    /// The first dead address of the stack.
    pub fn top(&self) -> u64
        ensures { result ≡ self.now.memory.top }
    {
        self.memory.top()
    }

    /// The byte at an address, if it is live.
    pub fn byte(&self, address: u64) -> Option<u8>
        ensures { result ≡ live self.now.memory address }
    {
        self.memory.byte(address)
    }

    /// The number in 1, 2, 4 or 8 bytes from an address on.
    ///
    /// # Errors
    ///
    /// `Dead` where not all of them are live.
    pub fn bytes(&self, address: u64, width: u64) -> Result<u64, Dead>
        requires { IsWidth width }
        ensures { result ≡ loaded (live self.now.memory) address width }
    {
        self.memory.load(address, width)
    }

    /// What a slot of the innermost frame holds, if it is set.
    pub fn value(&self, slot: Slot) -> Option<u64>
        requires { HasSlot self.now.frames slot }
        ensures held { result ≡ held self.now.frames slot }
        ensures named { (name : List ℕ) → slice_get (head_names self.now.program self.now.frames) slot.index ≡ Some name → result ≡ temp_here (state_of self.now).frames name }
    {
        self.frames.get(slot)
    }

    /// What a watch reads of a temporary: its value in the innermost frame of the function. Nothing where it is unset, and
    /// where the function has no frame.
    pub fn temp_reading(&self, func: FuncId, slot: Slot) -> Option<u64>
        ensures named { (source : Func A) (name : List ℕ) → func_at self.now.program func.index ≡ Some source → slice_get (names_of self.now.program func.index) slot.index ≡ Some name
            → value_reading result ≡ reading (temp_in source.name name) (state_of self.now) }
        ensures unknown { slice_get (names_of self.now.program func.index) slot.index ≡ None → result ≡ None }
    {
        match self.code.class_of(func, slot) {
            Some(_) => match innermost_of(self.frames.frames(), func) {
                Some(frame) => frame.get(slot),
                None => None,
            },
            None => None,
        }
    }
}

/// The innermost frame of a function, which stands last among its frames.
fn innermost_of<A: Allocator>(frames: &[Frame<A>], func: FuncId) -> Option<&Frame<A>>
    ensures { option_copied result ≡ frame_of func.index (reverse frames.now) }
{
    let mut left = frames.len();
    while left > 0 {
        left -= 1;
        let frame = &frames[left];
        if frame.func().index == func.index {
            return Some(frame);
        }
    }
    None
}
