//! Runs to the first place where there is a reason to stop.

ghost use Rattle.std.specs.Prelude.{◌≡◌, ◌+◌, ◌<◌, ◌≤◌, ◌^◌, ◌↔◌, true, [], cond, length, unwrap_or};
ghost use Rattle.qil_semantics.specs.State.{State};
ghost use Rattle.qil_semantics.specs.Stops.{stopped};
ghost use Rattle.qil_semantics.specs.Timeline.{position, oldest, at_end};
ghost use Rattle.qil_semantics.specs.Runs.{bottom, RunsOn, RunsBack};
ghost use Rattle.qil_stops.specs.Listed.{AreReadable};
ghost use Rattle.qil_stops.specs.Named.{named_stops};
ghost use Rattle.qil_stops.specs.Readings.{AllTell};

use crate::found::{is_over, readings, stopped};
use crate::stop::NumberedStop;
use arrayvec::ArrayVec;
use qil_history::{BackError, History, Machine, MoveError, machine_of};
use qil_semantics::Reason;
use std::alloc::Allocator;

/// Moves forward to the first place where there is a reason to stop, and gives the reason and how many moves were made: at
/// the end of the run, where a stop holds after a move, or after `limit` moves; or where there is no memory for a move.
pub fn run<'c, A: Allocator + Copy + 'c, H: History<A, Machine<'c, A>>>(
    history: &mut H,
    stops: &[NumberedStop],
    limit: u64,
) -> (Reason, u64)
    requires near { position (H.timeline history.old) + limit ≤ 2 ^ 62 }
    requires few { length stops.now ≤ 64 }
    requires readable { AreReadable stops.now }
    ensures program { H.program history.new ≡ H.program history.old }
    ensures run { RunsOn (H.program history.old) (named_stops (H.program history.old) stops.now) limit (H.timeline history.old) result.0 result.1 (H.timeline history.new) }
    ensures near { position (H.timeline history.new) ≤ position (H.timeline history.old) + limit }

    // Without a move a run ends at a final status, and nowhere else.
    ensures end { ((result.0 ≡ Reason.End) × (result.1 ≡ 0)) ↔ (at_end (H.timeline history.old) ≡ true) }
{
    if stops.is_empty() {
        run_freely(history, limit)
    } else {
        run_watching(history, stops, limit)
    }
}

/// Moves forward where there are no stops.
#[inline(never)]
fn run_freely<'c, A: Allocator + Copy + 'c, H: History<A, Machine<'c, A>>>(
    history: &mut H,
    limit: u64,
) -> (Reason, u64)
    requires { position (H.timeline history.old) + limit ≤ 2 ^ 62 }
    ensures program { H.program history.new ≡ H.program history.old }
    ensures run { RunsOn (H.program history.old) [] limit (H.timeline history.old) result.0 result.1 (H.timeline history.new) }
{
    for made in 0..limit {
        match history.forward() {
            Ok(()) => {}
            Err(MoveError::AtEnd) => return (Reason::End, made),
            Err(MoveError::OutOfMemory) => return (Reason::Memory, made),
        }
    }
    (end_or(history, Reason::Limit), limit)
}

/// Moves forward, and looks for a stop after each move.
#[inline(never)]
fn run_watching<'c, A: Allocator + Copy + 'c, H: History<A, Machine<'c, A>>>(
    history: &mut H,
    list: &[NumberedStop],
    limit: u64,
) -> (Reason, u64)
    requires near { position (H.timeline history.old) + limit ≤ 2 ^ 62 }
    requires few { length list.now ≤ 64 }
    requires readable { AreReadable list.now }
    ensures program { H.program history.new ≡ H.program history.old }
    ensures run { RunsOn (H.program history.old) (named_stops (H.program history.old) list.now) limit (H.timeline history.old) result.0 result.1 (H.timeline history.new) }
{
    let before = readings_here(history, list);
    for moves in 0..limit {
        match history.forward() {
            Ok(()) => {}
            Err(MoveError::AtEnd) => return (Reason::End, moves),
            Err(MoveError::OutOfMemory) => return (Reason::Memory, moves),
        }
        let read = before.as_slice();
        if let Some(reason) = stopped_here(history, list, read) {
            return (end_or(history, reason), moves + 1);
        }
    }
    (end_or(history, Reason::Limit), limit)
}

/// What each stop reads where the history stands.
pub fn readings_here<'s, 'c, A: Allocator + Copy + 'c, H: History<A, Machine<'c, A>>>(
    history: &'s H,
    list: &'s [NumberedStop],
) -> ArrayVec<Option<u64>, 64>
    requires few { length list.now ≤ 64 }
    requires readable { AreReadable list.now }
    ensures count { length result.items ≡ length list.now }
    ensures reported { AllTell (H.program history.now) (H.timeline history.now).now list.now result.items }
{
    let machine = machine_of(history);
    readings(list, machine)
}

/// The stop that holds where the history stands, after a move from a state that is reported by what was read there.
#[inline(always)]
pub fn stopped_here<'s, 'c, A: Allocator + Copy + 'c, H: History<A, Machine<'c, A>>>(
    history: &'s H,
    list: &'s [NumberedStop],
    before: &'s [Option<u64>],
) -> Option<Reason>
    requires count { length before.now ≡ length list.now }
    requires readable { AreReadable list.now }
    ensures { (old : State) → AllTell (H.program history.now) old list.now before.now → result ≡ stopped (named_stops (H.program history.now) list.now) old (H.timeline history.now).now }
{
    let machine = machine_of(history);
    stopped(list, before, machine)
}

/// Why a run stops after a move: the end comes before each other reason.
pub fn end_or<'c, A: Allocator + Copy + 'c, H: History<A, Machine<'c, A>>>(
    history: &H,
    other: Reason,
) -> Reason
    ensures { result ≡ cond (at_end (H.timeline history.now)) Reason.End other }
{
    if is_over(machine_of(history)) {
        Reason::End
    } else {
        other
    }
}

/// Moves back to the first place where there is a reason to stop, and gives the reason and how many moves were made: at the
/// oldest state that is kept, where a stop holds after a move, or after `limit` moves. Takes no memory.
pub fn run_back<'c, A: Allocator + Copy + 'c, H: History<A, Machine<'c, A>>>(
    history: &mut H,
    stops: &[NumberedStop],
    limit: u64,
) -> (Reason, u64)
    requires few { length stops.now ≤ 64 }
    requires readable { AreReadable stops.now }
    ensures program { H.program history.new ≡ H.program history.old }
    ensures run { RunsBack (named_stops (H.program history.old) stops.now) limit (H.timeline history.old) result.0 result.1 (H.timeline history.new) }
    ensures near { position (H.timeline history.new) ≤ position (H.timeline history.old) }

    // Without a move it stops at the start or at the oldest state that is kept, and nowhere else.
    ensures start { ((result.0 ≡ Reason.Start) × (result.1 ≡ 0)) ↔ (position (H.timeline history.old) ≡ 0) }
    ensures oldest { ((result.0 ≡ Reason.Oldest) × (result.1 ≡ 0)) ↔ ((position (H.timeline history.old) ≡ oldest (H.timeline history.old)) × (0 < position (H.timeline history.old))) }
{
    if stops.is_empty() {
        back_freely(history, limit)
    } else {
        back_watching(history, stops, limit)
    }
}

/// Moves back where there are no stops.
#[inline(never)]
fn back_freely<'c, A: Allocator + Copy + 'c, H: History<A, Machine<'c, A>>>(
    history: &mut H,
    limit: u64,
) -> (Reason, u64)
    ensures program { H.program history.new ≡ H.program history.old }
    ensures run { RunsBack [] limit (H.timeline history.old) result.0 result.1 (H.timeline history.new) }
{
    for gone in 0..limit {
        match history.back() {
            Ok(()) => {}
            Err(BackError::AtStart) => return (Reason::Start, gone),
            Err(BackError::Oldest) => return (Reason::Oldest, gone),
        }
    }
    (bottom_or_limit(history), limit)
}

/// Moves back, and looks for a stop after each move.
#[inline(never)]
fn back_watching<'c, A: Allocator + Copy + 'c, H: History<A, Machine<'c, A>>>(
    history: &mut H,
    list: &[NumberedStop],
    limit: u64,
) -> (Reason, u64)
    requires few { length list.now ≤ 64 }
    requires readable { AreReadable list.now }
    ensures program { H.program history.new ≡ H.program history.old }
    ensures run { RunsBack (named_stops (H.program history.old) list.now) limit (H.timeline history.old) result.0 result.1 (H.timeline history.new) }
{
    let before = readings_here(history, list);
    for taken in 0..limit {
        match history.back() {
            Ok(()) => {}
            Err(BackError::AtStart) => return (Reason::Start, taken),
            Err(BackError::Oldest) => return (Reason::Oldest, taken),
        }
        let read = before.as_slice();
        if let Some(reason) = stopped_here(history, list, read) {
            return (reason, taken + 1);
        }
    }
    (bottom_or_limit(history), limit)
}

/// Why a run back stops after its last move, where no stop holds.
pub fn bottom_or_limit<'c, A: Allocator + Copy + 'c, H: History<A, Machine<'c, A>>>(
    history: &H,
) -> Reason
    ensures { result ≡ unwrap_or (bottom (H.timeline history.now) 0) Reason.Limit }
{
    let position = history.position();
    if position == 0 {
        Reason::Start
    } else if position == history.oldest() {
        Reason::Oldest
    } else {
        Reason::Limit
    }
}
