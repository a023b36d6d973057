//! Where a machine stands. Nothing here takes memory.

ghost use Rattle.std.specs.Prelude.{◌≡◌, false};
ghost use Rattle.qil_semantics.specs.State.{is_final};
ghost use Rattle.qil_state.specs.State.{state_of};
ghost use Rattle.qil_counts.specs.Counts.{IsHere};

use crate::count::CodePlace;
use qil_code::Code;
use qil_history::{Readers, code_of};
use std::alloc::Allocator;

/// Where a run stands that goes on.
#[inline(always)]
pub fn place_here<'m, 'c, A: Allocator + Copy + 'c, M: Readers<A, Code<'c, A>>>(
    machine: &'m M,
) -> Option<CodePlace>
    ensures { is_final (state_of (M.whole machine.now)).status ≡ false → IsHere (M.whole machine.now).program (state_of (M.whole machine.now)) result }
{
    let Some(frame) = machine.frame(0) else {
        return None;
    };
    code_of(machine).names_are_distinct();
    Some(CodePlace {
        func: frame.func(),
        block: frame.block(),
        index: u64::from(frame.index()),
    })
}
