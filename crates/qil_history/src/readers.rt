//! What is read of a machine, whichever way it keeps its state.

ghost use Rattle.std.specs.Prelude.{◌≡◌, ◌≢◌, ◌+◌, ◌↔◌, ℕ, List, Some, IsTrue, length, slice_get};
ghost use Rattle.qil_tree.specs.declared.tree.Program.{Program};
ghost use Rattle.qil_memory.specs.Live.{live};
ghost use Rattle.qil_machine.specs.qil_frames.Frames.{HasSlot, held};
ghost use Rattle.qil_machine.specs.qil_state.State.{Whole, IsMachine, state_of, head_names};
ghost use Rattle.qil_machine.specs.Readings.{temp_here};

use crate::frame_view::FrameView;
use qil_machine::{Code, Frame, Machine, Slot, Status};
use std::alloc::Allocator;

/// What a code is of, seen whole: the clauses of a trait can't name the code itself.
pub trait HasProgram<A: Allocator> {
    ghost program: { Self → Program A };
}

impl<'c, A: Allocator> HasProgram<A> for Code<'c, A> {
    ghost program = { λ code. code };
}

/// The readers of a machine: what it runs, how the run stands, the calls that are not over, memory, and the output. Nothing
/// here takes memory.
///
/// A user is generic in `M: Readers<A, Code<'c, A>>`, under `A: Allocator + 'c`.
pub trait Readers<A: Allocator, C: HasProgram<A>> {
    ghost whole: { Self → Whole A };

    /// The code that it runs.
    fn code(&self) -> &C
        ensures { C.program result.now ≡ (whole self.now).program };

    /// How the run stands.
    fn status(&self) -> Status
        ensures { result ≡ (whole self.now).status };

    /// How many calls are not over.
    fn depth(&self) -> usize
        ensures { result ≡ length (whole self.now).frames };

    /// A call that is not over, counted from the innermost one.
    fn frame(&self, inner: usize) -> Option<FrameView<'_>>
        ensures frame { result ≡ slice_get (whole self.now).frames inner }
        ensures machine { IsMachine (whole self.now) };

    /// The bytes that were written.
    fn output(&self) -> &[u8]
        ensures { result.now ≡ (whole self.now).output };

    /// The byte so far after an address, if it is live. After the last address there is none.
    fn byte_after(&self, address: u64, offset: u64) -> Option<u8>
        ensures { result ≡ live (whole self.now).memory (address + offset) };

    /// What a slot of the innermost frame holds, if it is set.
    fn value(&self, slot: Slot) -> Option<u64>
        requires { HasSlot (whole self.now).frames slot }
        ensures held { result ≡ held (whole self.now).frames slot }
        ensures named { (name : List ℕ) → slice_get (head_names (whole self.now).program (whole self.now).frames) slot.index ≡ Some name → result ≡ temp_here (state_of (whole self.now)).frames name };
}

impl<'c, A: Allocator + Copy> Readers<A, Code<'c, A>> for Machine<'c, A> {
    ghost whole = { λ machine. machine };

    fn code(&self) -> &Code<'c, A> {
        Machine::code(self)
    }

    fn status(&self) -> Status {
        Machine::status(self)
    }

    fn depth(&self) -> usize {
        self.frames().len()
    }

    fn frame(&self, inner: usize) -> Option<FrameView<'_>> {
        let frames = self.frames();
        let outside = frames.len().checked_sub(inner)?.checked_sub(1)?;
        Some(view_of(&frames[outside]))
    }

    fn output(&self) -> &[u8] {
        Machine::output(self)
    }

    fn byte_after(&self, address: u64, offset: u64) -> Option<u8> {
        let _top = self.top();
        match address.checked_add(offset) {
            Some(at) => Machine::byte(self, at),
            None => None,
        }
    }

    fn value(&self, slot: Slot) -> Option<u64> {
        Machine::value(self, slot)
    }
}

/// The code that a machine runs. What shows a machine asks for it by this and not by the trait's call, which makes the check of each
/// function dear that has it.
#[inline(always)]
pub fn code_of<'c, 'm, A: Allocator + Copy + 'c, M: Readers<A, Code<'c, A>>>(
    machine: &'m M,
) -> &'m Code<'c, A>
    ensures { result.now ≡ (M.whole machine.now).program }
{
    machine.code()
}

/// Whether the run is over.
#[inline(always)]
pub fn is_final<A: Allocator, C: HasProgram<A>, M: Readers<A, C>>(machine: &M) -> bool
    ensures { IsTrue result ↔ ((M.whole machine.now).status ≢ Status.Running) }
{
    machine.status() != Status::Running
}

/// A frame, as a reader sees it.
fn view_of<A: Allocator>(frame: &Frame<A>) -> FrameView<'_>
    ensures { result ≡ frame.now }
{
    FrameView::new(
        frame.func(),
        frame.block(),
        frame.index(),
        frame.slots(),
        frame.floor(),
        frame.result(),
    )
}
