//! Runs forward and back to a depth of calls.

ghost use Rattle.std.specs.Prelude.{◌≡◌, ◌+◌, ◌≤◌, ◌^◌, length, cond};
ghost use Rattle.qil_semantics.specs.Timeline.{position, at_end};
ghost use Rattle.qil_semantics.specs.declared.reason.Reason.TheVariants.{End};
ghost use Rattle.qil_semantics.specs.Runs.{bottom};
ghost use Rattle.qil_stops.specs.Listed.{AreReadable};
ghost use Rattle.qil_stops.specs.Named.{named_stops};
ghost use Rattle.qil_stops.specs.Depths.{RunsToDepth, RunsBackToDepth, bottom_or_depth};

use crate::depth_end::DepthEnd;
use crate::{
    BackError, History, Machine, MoveError, NumberedStop, Stops, bottom_or_limit, end_or, is_over,
    machine_of, readings_here, stopped_here,
};
use qil_semantics::Reason;
use std::alloc::Allocator;

/// How many calls are open.
fn depth<'c, A: Allocator + Copy + 'c, H: History<A, Machine<'c, A>>>(history: &H) -> usize
    ensures { result ≡ length (H.timeline history.now).now.frames }
{
    machine_of(history).frames().len()
}

/// Why a run ends where no more calls are open than were asked for: at the end of the run that comes first.
fn shallow_end<'c, A: Allocator + Copy + 'c, H: History<A, Machine<'c, A>>>(history: &H) -> DepthEnd
    ensures { result ≡ cond (at_end (H.timeline history.now)) (DepthEnd.Stopped End) DepthEnd.Depth }
{
    if is_over(machine_of(history)) {
        DepthEnd::Stopped(Reason::End)
    } else {
        DepthEnd::Depth
    }
}

/// Why a run back ends there: at the oldest state that is kept that comes first.
fn shallow_bottom<'c, A: Allocator + Copy + 'c, H: History<A, Machine<'c, A>>>(
    history: &H,
) -> DepthEnd
    ensures { result ≡ bottom_or_depth (bottom (H.timeline history.now) 0) }
{
    match bottom_or_limit(history) {
        Reason::Limit => DepthEnd::Depth,
        reason => DepthEnd::Stopped(reason),
    }
}

/// Moves forward to the first place, after a move, where at most `most` calls are open, or where there is a reason to stop:
/// at the end of the run, where a stop holds after a move, or after `limit` moves; or where there is no memory for a move.
/// Gives why, and how many moves were made.
pub fn run_to_depth<'c, A: Allocator + Copy + 'c, H: History<A, Machine<'c, A>>>(
    history: &mut H,
    stops: &Stops<A>,
    most: usize,
    limit: u64,
) -> (DepthEnd, u64)
    requires { position (H.timeline history.old) + limit ≤ 2 ^ 62 }
    ensures program { H.program history.new ≡ H.program history.old }
    ensures run { RunsToDepth (H.program history.old) (named_stops (H.program history.old) stops.now.kept) most limit (H.timeline history.old) result.0 result.1 (H.timeline history.new) }
{
    forward_to_depth(history, stops.list(), most, limit)
}

#[inline(never)]
fn forward_to_depth<'c, A: Allocator + Copy + 'c, H: History<A, Machine<'c, A>>>(
    history: &mut H,
    list: &[NumberedStop],
    most: usize,
    limit: u64,
) -> (DepthEnd, u64)
    requires near { position (H.timeline history.old) + limit ≤ 2 ^ 62 }
    requires few { length list.now ≤ 64 }
    requires readable { AreReadable list.now }
    ensures program { H.program history.new ≡ H.program history.old }
    ensures run { RunsToDepth (H.program history.old) (named_stops (H.program history.old) list.now) most limit (H.timeline history.old) result.0 result.1 (H.timeline history.new) }
{
    let before = readings_here(history, list);
    for moves in 0..limit {
        match history.forward() {
            Ok(()) => {}
            Err(MoveError::AtEnd) => return (DepthEnd::Stopped(Reason::End), moves),
            Err(MoveError::OutOfMemory) => return (DepthEnd::Stopped(Reason::Memory), moves),
        }
        let read = before.as_slice();
        if let Some(reason) = stopped_here(history, list, read) {
            return (DepthEnd::Stopped(end_or(history, reason)), moves + 1);
        }
        if depth(history) <= most {
            return (shallow_end(history), moves + 1);
        }
    }
    (DepthEnd::Stopped(end_or(history, Reason::Limit)), limit)
}

/// Moves back to the first place, after a move, where at most `most` calls are open, or where there is a reason to stop: at
/// the oldest state that is kept, where a stop holds after a move, or after `limit` moves. Gives why, and how many moves were
/// undone. Takes no memory.
pub fn run_back_to_depth<'c, A: Allocator + Copy + 'c, H: History<A, Machine<'c, A>>>(
    history: &mut H,
    stops: &Stops<A>,
    most: usize,
    limit: u64,
) -> (DepthEnd, u64)
    ensures program { H.program history.new ≡ H.program history.old }
    ensures run { RunsBackToDepth (named_stops (H.program history.old) stops.now.kept) most limit (H.timeline history.old) result.0 result.1 (H.timeline history.new) }
{
    back_to_depth(history, stops.list(), most, limit)
}

#[inline(never)]
fn back_to_depth<'c, A: Allocator + Copy + 'c, H: History<A, Machine<'c, A>>>(
    history: &mut H,
    list: &[NumberedStop],
    most: usize,
    limit: u64,
) -> (DepthEnd, u64)
    requires few { length list.now ≤ 64 }
    requires readable { AreReadable list.now }
    ensures program { H.program history.new ≡ H.program history.old }
    ensures run { RunsBackToDepth (named_stops (H.program history.old) list.now) most limit (H.timeline history.old) result.0 result.1 (H.timeline history.new) }
{
    let before = readings_here(history, list);
    for taken in 0..limit {
        match history.back() {
            Ok(()) => {}
            Err(BackError::AtStart) => return (DepthEnd::Stopped(Reason::Start), taken),
            Err(BackError::Oldest) => return (DepthEnd::Stopped(Reason::Oldest), taken),
        }
        let read = before.as_slice();
        if let Some(reason) = stopped_here(history, list, read) {
            return (DepthEnd::Stopped(reason), taken + 1);
        }
        if depth(history) <= most {
            return (shallow_bottom(history), taken + 1);
        }
    }
    (DepthEnd::Stopped(bottom_or_limit(history)), limit)
}
