//! What is read of a machine. Nothing here takes memory.

ghost use Rattle.std.specs.Prelude.{◌≡◌, ◌≤◌, length, slice_get};
ghost use Rattle.qil_state.specs.State.{state_of};
ghost use Rattle.qil_spans.specs.Spans.{number_of};
ghost use Rattle.qil_spans.specs.Table.{IsInnermost};

use qil_code::Code;
use qil_history::{Readers, code_of};
use qil_layout::FuncId;
use std::alloc::Allocator;

/// How many frames there are, and the function of the innermost.
#[derive(Clone, Copy)]
pub struct Inner {
    pub depth: u64,
    pub func: FuncId,
}

/// How many frames a machine has.
#[inline(always)]
pub fn depth_of<'m, 'c, A: Allocator + Copy + 'c, M: Readers<A, Code<'c, A>>>(machine: &'m M) -> u64
    ensures { result ≡ length (state_of (M.whole machine.now)).frames }
{
    machine.depth() as u64
}

/// The function of a frame, counted from the innermost one. If there is none, it is the first.
#[inline(always)]
pub fn func_of<'m, 'c, A: Allocator + Copy + 'c, M: Readers<A, Code<'c, A>>>(
    machine: &'m M,
    inner: usize,
) -> FuncId
    ensures number { result.index ≡ number_of (M.whole machine.now).program (slice_get (state_of (M.whole machine.now)).frames inner) }
    ensures few { length (state_of (M.whole machine.now)).frames ≤ 1000 }
{
    match machine.frame(inner) {
        Some(frame) => {
            code_of(machine).names_are_distinct();
            frame.func()
        }
        None => FuncId { index: 0 },
    }
}

/// What the next move may end.
#[inline(always)]
pub fn look<'m, 'c, A: Allocator + Copy + 'c, M: Readers<A, Code<'c, A>>>(machine: &'m M) -> Inner
    ensures depth { result.depth ≡ length (state_of (M.whole machine.now)).frames }
    ensures few { result.depth ≤ 1000 }
    ensures func { IsInnermost (M.whole machine.now).program (state_of (M.whole machine.now)) result.func }
{
    Inner {
        depth: depth_of(machine),
        func: func_of(machine, 0),
    }
}
