//! Looks for a stop at the machine's state, after a move.

ghost use Rattle.std.specs.Prelude.{◌≡◌, ◌≤◌, [], ◌∷◌, length};
ghost use Rattle.qil_semantics.specs.State.{State, is_final};
ghost use Rattle.qil_semantics.specs.Stops.{first_watch, first_break, stopped};
ghost use Rattle.qil_history.specs.qil_state.State.{state_of};
ghost use Rattle.qil_stops.specs.Listed.{IsReadable, AreReadable};
ghost use Rattle.qil_stops.specs.Named.{named_stops};
ghost use Rattle.qil_stops.specs.Readings.{Tells, AllTell};

use crate::stop::NumberedStop;
use arrayvec::ArrayVec;
use qil_history::Machine;
use qil_semantics::Reason;
use std::alloc::Allocator;

/// Whether the run is over.
#[inline(always)]
pub fn is_over<'c, A: Allocator + Copy>(machine: &Machine<'c, A>) -> bool
    ensures { result ≡ is_final (state_of machine.now).status }
{
    machine.is_final()
}

/// What each stop reads now.
pub fn readings<'s, 'c, A: Allocator + Copy>(
    stops: &'s [NumberedStop],
    machine: &'s Machine<'c, A>,
) -> ArrayVec<Option<u64>, 64>
    requires few { length stops.now ≤ 64 }
    requires readable { AreReadable stops.now }
    ensures count { length result.items ≡ length stops.now }
    ensures reported { AllTell machine.now.program (state_of machine.now) stops.now result.items }
{
    let mut all = ArrayVec::new();
    for stop in stops {
        all.push(stop.kind.read(machine));
    }
    all
}

/// The number of the first watch that reads otherwise than before.
#[inline(always)]
fn first_watch<'s, 'c, A: Allocator + Copy>(
    stops: &'s [NumberedStop],
    before: &'s [Option<u64>],
    machine: &'s Machine<'c, A>,
) -> Option<u64>
    requires count { length before.now ≡ length stops.now }
    requires readable { AreReadable stops.now }
    ensures { (old : State) → AllTell machine.now.program old stops.now before.now → result ≡ first_watch old (state_of machine.now) (named_stops machine.now.program stops.now) }
{
    for (index, stop) in stops.iter().enumerate() {
        if stop.kind.read(machine) != before[index] {
            return Some(stop.number);
        }
    }
    None
}

/// The number of the first breakpoint that holds.
#[inline(always)]
fn first_break<'s, 'c, A: Allocator + Copy>(
    stops: &'s [NumberedStop],
    machine: &'s Machine<'c, A>,
) -> Option<u64>
    ensures { result ≡ first_break (state_of machine.now) (named_stops machine.now.program stops.now) }
{
    for stop in stops {
        if stop.kind.is_held(machine) {
            return Some(stop.number);
        }
    }
    None
}

/// The same of one stop alone, without a loop: most runs have one.
#[inline(always)]
fn only_stopped<'s, 'c, A: Allocator + Copy>(
    stop: &'s NumberedStop,
    before: Option<u64>,
    machine: &'s Machine<'c, A>,
) -> Option<Reason>
    requires { IsReadable stop.now.kind }
    ensures { (old : State) → Tells machine.now.program old stop.now.kind before → result ≡ stopped (named_stops machine.now.program (stop.now ∷ [])) old (state_of machine.now) }
{
    if stop.kind.read(machine) != before {
        return Some(Reason::Watch(stop.number));
    }
    if stop.kind.is_held(machine) {
        return Some(Reason::Break(stop.number));
    }
    None
}

/// Which stop holds now, after a move from a state that is reported by what was read there: a watch before a breakpoint, and of
/// each kind the one with the lowest number.
#[inline(always)]
pub fn stopped<'s, 'c, A: Allocator + Copy>(
    stops: &'s [NumberedStop],
    before: &'s [Option<u64>],
    machine: &'s Machine<'c, A>,
) -> Option<Reason>
    requires count { length before.now ≡ length stops.now }
    requires readable { AreReadable stops.now }
    ensures { (old : State) → AllTell machine.now.program old stops.now before.now → result ≡ stopped (named_stops machine.now.program stops.now) old (state_of machine.now) }
{
    if stops.len() == 1 {
        return only_stopped(&stops[0], before[0], machine);
    }
    if let Some(number) = first_watch(stops, before, machine) {
        return Some(Reason::Watch(number));
    }
    if let Some(number) = first_break(stops, machine) {
        return Some(Reason::Break(number));
    }
    None
}
