//! Looks at the state that a machine is in: what stops read there, and which of them hold.

ghost use Rattle.std.specs.Prelude.{◌≡◌, ◌<◌, ◌≤◌, false, None, length};
ghost use Rattle.qil_semantics.specs.State.{State, is_final};
ghost use Rattle.qil_semantics.specs.Stops.{is_held, first_watch, first_break, stopped};
ghost use Rattle.qil_state.specs.State.{state_of};
ghost use Rattle.qil_stops.specs.Listed.{HasWidth, IsReadable, AreReadable};
ghost use Rattle.qil_stops.specs.Named.{named_kind, named_stops, passes};
ghost use Rattle.qil_stops.specs.Readings.{TellsWatched, Tells, AllTell};

use crate::restorable::Restorable;
use crate::watchable::Watchable;
use crate::{NumberedStop, Place, StopKind, Watched};
use arrayvec::ArrayVec;
use qil_history::HasProgram;
use qil_semantics::Reason;
use std::alloc::Allocator;

/// Whether the run is over.
#[inline(always)]
pub fn is_over<A: Allocator + Copy, C: HasProgram<A>, M: Restorable<A, C>>(machine: &M) -> bool
    ensures { result ≡ is_final (state_of (M.present machine.now)).status }
{
    machine.is_read();
    qil_history::is_final(machine)
}

/// What a watch reads: the number in the bytes, or the value of the temporary. Nothing where the bytes are dead, or the
/// temporary is unset or isn't there.
#[inline(always)]
fn watched_reading<A: Allocator + Copy, C: HasProgram<A>, M: Watchable<A, C>>(
    watched: Watched,
    machine: &M,
) -> Option<u64>
    requires { HasWidth watched }
    ensures { TellsWatched (M.present machine.now).program (state_of (M.present machine.now)) watched result }
{
    match watched {
        Watched::Bytes { address, width } => machine.memory_reading(address, width),
        Watched::Temp { func, slot } => machine.temp_reading(func, slot),
    }
}

/// What a stop reads; a breakpoint reads nothing.
#[inline(always)]
fn reading<A: Allocator + Copy, C: HasProgram<A>, M: Watchable<A, C>>(
    kind: StopKind,
    machine: &M,
) -> Option<u64>
    requires { IsReadable kind }
    ensures { Tells (M.present machine.now).program (state_of (M.present machine.now)) kind result }
{
    match kind {
        StopKind::Break(_) => None,
        StopKind::Watch(watched) => watched_reading(watched, machine),
    }
}

/// Whether a stop is a breakpoint, and the run stands there.
#[inline(always)]
fn is_held<A: Allocator + Copy, C: HasProgram<A>, M: Watchable<A, C>>(
    kind: StopKind,
    machine: &M,
) -> bool
    ensures { result ≡ passes (is_held (state_of (M.present machine.now))) (named_kind (M.present machine.now).program kind) }
{
    match kind {
        StopKind::Break(place) => machine.is_at(place.func, place.block, place.index),
        StopKind::Watch(_) => false,
    }
}

/// What each stop reads now.
pub fn readings<A: Allocator + Copy, C: HasProgram<A>, M: Watchable<A, C>>(
    stops: &[NumberedStop],
    machine: &M,
) -> ArrayVec<Option<u64>, 64>
    requires few { length stops.now ≤ 64 }
    requires readable { AreReadable stops.now }
    ensures count { length result.items ≡ length stops.now }
    ensures reported { AllTell (M.present machine.now).program (state_of (M.present machine.now)) stops.now result.items }
{
    let mut all = ArrayVec::new();
    for stop in stops {
        all.push(reading(stop.kind, machine));
    }
    all
}

/// Whether the first of the stops may hold: where there is no other, whether any may. Without a loop, it costs little in the
/// loop of a run.
#[inline(always)]
fn may_stop_alone<A: Allocator + Copy, C: HasProgram<A>, M: Watchable<A, C>>(
    stops: &[NumberedStop],
    before: &[Option<u64>],
    machine: &M,
) -> bool
    requires some { 0 < length stops.now }
    requires count { length before.now ≡ length stops.now }
    requires readable { AreReadable stops.now }
    ensures quiet { result ≡ false → length stops.now ≡ 1 → AllTell (M.present machine.now).program (state_of (M.present machine.now)) stops.now before.now }
    ensures unbroken { result ≡ false → length stops.now ≡ 1 → first_break (state_of (M.present machine.now)) (named_stops (M.present machine.now).program stops.now) ≡ None }
{
    may_be_met(stops[0].kind, before[0], machine)
}

/// The number of the first watch that reads otherwise than before. If none does, what was read before is what is read now.
#[inline(always)]
pub fn first_watch<A: Allocator + Copy, C: HasProgram<A>, M: Watchable<A, C>>(
    stops: &[NumberedStop],
    before: &[Option<u64>],
    machine: &M,
) -> Option<u64>
    requires count { length before.now ≡ length stops.now }
    requires readable { AreReadable stops.now }
    ensures first { (old : State) → AllTell (M.present machine.now).program old stops.now before.now → result ≡ first_watch old (state_of (M.present machine.now)) (named_stops (M.present machine.now).program stops.now) }
    ensures same { result ≡ None → AllTell (M.present machine.now).program (state_of (M.present machine.now)) stops.now before.now }
{
    for (index, stop) in stops.iter().enumerate() {
        if reading(stop.kind, machine) != before[index] {
            return Some(stop.number);
        }
    }
    None
}

/// The number of the first breakpoint that holds.
#[inline(always)]
pub fn first_break<A: Allocator + Copy, C: HasProgram<A>, M: Watchable<A, C>>(
    stops: &[NumberedStop],
    machine: &M,
) -> Option<u64>
    ensures { result ≡ first_break (state_of (M.present machine.now)) (named_stops (M.present machine.now).program stops.now) }
{
    for stop in stops {
        if is_held(stop.kind, machine) {
            return Some(stop.number);
        }
    }
    None
}

/// Which stop holds now, after a move from a state that is reported by what was read there: a watch before a breakpoint, and
/// of each kind the one with the lowest number.
#[inline(always)]
pub fn stopped<A: Allocator + Copy, C: HasProgram<A>, M: Watchable<A, C>>(
    stops: &[NumberedStop],
    before: &[Option<u64>],
    machine: &M,
) -> Option<Reason>
    requires count { length before.now ≡ length stops.now }
    requires readable { AreReadable stops.now }
    ensures { (old : State) → AllTell (M.present machine.now).program old stops.now before.now → result ≡ stopped (named_stops (M.present machine.now).program stops.now) old (state_of (M.present machine.now)) }
{
    if let Some(number) = first_watch(stops, before, machine) {
        return Some(Reason::Watch(number));
    }
    if let Some(number) = first_break(stops, machine) {
        return Some(Reason::Break(number));
    }
    None
}

/// Whether a breakpoint is there.
#[inline(always)]
fn may_break<A: Allocator + Copy, C: HasProgram<A>, M: Watchable<A, C>>(
    place: Place,
    before: Option<u64>,
    machine: &M,
) -> bool
    ensures quiet { result ≡ false → before ≡ None }
    ensures unbroken { result ≡ false → passes (is_held (state_of (M.present machine.now))) (named_kind (M.present machine.now).program (StopKind.Break place)) ≡ false }
{
    if before.is_some() {
        return true;
    }
    is_held(StopKind::Break(place), machine)
}

/// Whether a stop may hold: it is a breakpoint that is there, or a watch that reads otherwise than before.
#[inline(always)]
fn may_be_met<A: Allocator + Copy, C: HasProgram<A>, M: Watchable<A, C>>(
    kind: StopKind,
    before: Option<u64>,
    machine: &M,
) -> bool
    requires { IsReadable kind }
    ensures quiet { result ≡ false → Tells (M.present machine.now).program (state_of (M.present machine.now)) kind before }
    ensures unbroken { result ≡ false → passes (is_held (state_of (M.present machine.now))) (named_kind (M.present machine.now).program kind) ≡ false }
{
    match kind {
        StopKind::Break(place) => may_break(place, before, machine),
        StopKind::Watch(watched) => watched_reading(watched, machine) != before,
    }
}

/// Whether any stop may hold. Where none may, what was read before is what is read now, and no breakpoint is there. It looks at
/// each stop once.
// A function of its own: its loop would take the processor's registers from that of a run.
#[inline(never)]
fn may_stop<A: Allocator + Copy, C: HasProgram<A>, M: Watchable<A, C>>(
    stops: &[NumberedStop],
    before: &[Option<u64>],
    machine: &M,
) -> bool
    requires count { length before.now ≡ length stops.now }
    requires readable { AreReadable stops.now }
    ensures quiet { result ≡ false → AllTell (M.present machine.now).program (state_of (M.present machine.now)) stops.now before.now }
    ensures unbroken { result ≡ false → first_break (state_of (M.present machine.now)) (named_stops (M.present machine.now).program stops.now) ≡ None }
    ensures none { length stops.now ≡ 0 → result ≡ false }
{
    for (index, stop) in stops.iter().enumerate() {
        if may_be_met(stop.kind, before[index], machine) {
            return true;
        }
    }
    false
}

/// The same, as a run asks it behind each step: without stops, and with one, there is no call.
#[inline(always)]
pub fn may_hold<A: Allocator + Copy, C: HasProgram<A>, M: Watchable<A, C>>(
    stops: &[NumberedStop],
    before: &[Option<u64>],
    machine: &M,
) -> bool
    requires count { length before.now ≡ length stops.now }
    requires readable { AreReadable stops.now }
    ensures quiet { result ≡ false → AllTell (M.present machine.now).program (state_of (M.present machine.now)) stops.now before.now }
    ensures unbroken { result ≡ false → first_break (state_of (M.present machine.now)) (named_stops (M.present machine.now).program stops.now) ≡ None }
    ensures none { length stops.now ≡ 0 → result ≡ false }
{
    if stops.is_empty() {
        return false;
    }
    if stops.len() > 1 {
        return may_stop(stops, before, machine);
    }
    may_stop_alone(stops, before, machine)
}

/// The number of the first watch that reads otherwise than before. What was read before is then what is read now.
#[inline(always)]
pub fn read_again<A: Allocator + Copy, C: HasProgram<A>, M: Watchable<A, C>>(
    stops: &[NumberedStop],
    before: &mut ArrayVec<Option<u64>, 64>,
    machine: &M,
) -> Option<u64>
    requires count { length before.old.items ≡ length stops.now }
    requires few { length stops.now ≤ 64 }
    requires readable { AreReadable stops.now }
    ensures count { length before.new.items ≡ length stops.now }
    ensures first { (old : State) → AllTell (M.present machine.now).program old stops.now before.old.items → result ≡ first_watch old (state_of (M.present machine.now)) (named_stops (M.present machine.now).program stops.now) }
    ensures reported { AllTell (M.present machine.now).program (state_of (M.present machine.now)) stops.now before.new.items }
{
    let found = first_watch(stops, before.as_slice(), machine);
    if found.is_some() {
        *before = readings(stops, machine);
    }
    found
}
