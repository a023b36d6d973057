//! Several moves along a history.

ghost use Rattle.std.specs.Prelude.{◌≡◌, ◌+◌, ◌<◌, ◌≤◌, ◌^◌, false, MatchResult};
ghost use Rattle.qil_semantics.specs.Timeline.{position, at_end};
ghost use Rattle.qil_semantics.specs.Moves.{forward_by, back_by as gone_by};

use qil_stops::{History, Machine, MoveError};
use std::alloc::Allocator;

/// Moves forward up to so many times, and not past the end. Where memory runs out, answers how many moves were made.
#[inline(never)]
pub(crate) fn forward_by<'c, A: Allocator + Copy + 'c, H: History<A, Machine<'c, A>>>(
    history: &mut H,
    count: u32,
) -> Result<(), u32>
    requires { position (H.timeline history.old) + count ≤ 2 ^ 62 }
    ensures program { H.program history.new ≡ H.program history.old }
    ensures near { position (H.timeline history.new) ≤ position (H.timeline history.old) + count }
    ensures moved { MatchResult result
        (λ _. H.timeline history.new ≡ forward_by (H.program history.old) count (H.timeline history.old))
        (λ k. (k < count) × (H.timeline history.new ≡ forward_by (H.program history.old) k (H.timeline history.old)) × (at_end (H.timeline history.new) ≡ false)) }
{
    for made in 0..count {
        match history.forward() {
            Ok(()) => {}
            Err(MoveError::AtEnd) => return Ok(()),
            Err(MoveError::OutOfMemory) => return Err(made),
        }
    }
    Ok(())
}

/// Moves back up to so many times, and not past the oldest state that is kept.
#[inline(never)]
pub(crate) fn back_by<'c, A: Allocator + Copy + 'c, H: History<A, Machine<'c, A>>>(
    history: &mut H,
    count: u32,
)
    ensures program { H.program history.new ≡ H.program history.old }
    ensures near { position (H.timeline history.new) ≤ position (H.timeline history.old) }
    ensures moved { H.timeline history.new ≡ gone_by count (H.timeline history.old) }
{
    for taken in 0..count {
        match history.back() {
            Ok(()) => {}
            Err(_) => return,
        }
    }
}
