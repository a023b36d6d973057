//! Looks through the walk backwards for the last position at which a stop holds: part after part from the newest on, each of which
//! is run through forward once.

ghost use Rattle.std.specs.Prelude.{◌≡◌, ◌≤◌, ◌<◌, ◌+◌, ◌-◌, ℕ, List, None, length, option_map};
ghost use Rattle.qil_semantics.specs.State.{State};
ghost use Rattle.qil_state.specs.State.{state_of};
ghost use Rattle.qil_stops.specs.Listed.{AreReadable};
ghost use Rattle.qil_stops.specs.Named.{named_stops};
ghost use Rattle.qil_stops.specs.Readings.{AllTell};
ghost use Rattle.qil_checkpoints.specs.declared.poked.Poked.{Poked};
ghost use Rattle.qil_checkpoints.specs.Walk.{poke_at, ArePoked, IsPart, walk, AreMoves};
ghost use Rattle.qil_checkpoints.specs.Held.{first_of, FromStart, Reaches};
ghost use Rattle.qil_checkpoints.specs.Hits.{stop_at, IsLastHit, IsNextStand, IsQuiet, hit_or_lowest, later_hit};

use crate::hit::Hit;
use crate::poked::{KeptPoke, Poked};
use crate::replaying::{jump, latest_copy, part_of, poke_again};
use qil_history::HasProgram;
use qil_semantics::Reason;
use qil_stops::looking::{first_break, read_again, readings};
use qil_stops::{NumberedStop, Restorable};
use std::alloc::Allocator;

/// The poke that was made at a position, if one was, by those that were made from there on.
#[inline(always)]
fn poke_now(rest: &[Poked], at: u64) -> Option<KeptPoke>
    ensures { (to : ℕ) → ArePoked at rest.now to → result ≡ poke_at rest.now at }
{
    let made = match rest.first() {
        Some(made) => made,
        None => return None,
    };
    if made.position != at {
        return None;
    }
    Some(made.poke)
}

/// Where the steps from a position end: at the next poke, or at the end of the part.
fn next_stand(rest: &[Poked], to: u64) -> u64
    ensures { (at : ℕ) → ArePoked at rest.now to → poke_at rest.now at ≡ None → at < to → IsNextStand rest.now at to result }
{
    match rest.first() {
        Some(made) => made.position,
        None => to,
    }
}

/// Makes moves of a part again from a position on, of which these are the pokes from there on: the poke that was made there;
/// or steps, up to the next poke, and no further than where a stop may hold. Gives how many moves, and the pokes that are left.
fn go_on<'p, A: Allocator + Copy, C: HasProgram<A>, M: Restorable<A, C>>(
    machine: &mut M,
    stops: &[NumberedStop],
    before: &[Option<u64>],
    rest: &'p [Poked],
    at: u64,
    to: u64,
) -> (u64, &'p [Poked])
    requires order { at < to }
    requires count { length before.now ≡ length stops.now }
    requires readable { AreReadable stops.now }
    requires poked { ArePoked at rest.now to }
    ensures program { (M.present machine.new).program ≡ (M.present machine.old).program }
    ensures kept { M.kept machine.new ≡ M.kept machine.old }
    ensures some { 0 < result.0 }
    ensures within { at + result.0 ≤ to }
    ensures poked { ArePoked (at + result.0) result.1.now to }
    ensures part { (pokes : List Poked) → IsPart pokes rest.now at to → IsPart pokes result.1.now (at + result.0) to }
    ensures state { (s : State) (pokes : List Poked) → IsPart pokes rest.now at to → AreMoves (M.present machine.old).program s pokes to
        → state_of (M.present machine.old) ≡ walk (M.present machine.old).program s pokes at → state_of (M.present machine.new) ≡ walk (M.present machine.old).program s pokes (at + result.0) }
    ensures quiet { (s : State) (pokes : List Poked) → IsPart pokes rest.now at to → AreMoves (M.present machine.old).program s pokes to
        → state_of (M.present machine.old) ≡ walk (M.present machine.old).program s pokes at → AllTell (M.present machine.old).program (state_of (M.present machine.old)) stops.now before.now
        → IsQuiet (M.present machine.old).program (walk (M.present machine.old).program s pokes) stops.now before.now at result.0 }
{
    match poke_now(rest, at) {
        Some(made) => {
            poke_again(machine, made);
            (1, &rest[1..])
        }
        None => {
            let made = machine.run_quietly(stops, before, next_stand(rest, to) - at);
            // The steps up to there were made before, so there is one.
            (made.max(1), rest)
        }
    }
}

/// The hit of a breakpoint that holds at a position, or else the one before.
#[inline(always)]
fn later_break(last: Option<Hit>, position: u64, number: Option<u64>) -> Option<Hit>
    ensures { result ≡ later_hit last position (option_map Reason.Break number) }
{
    let number = match number {
        Some(number) => number,
        None => return last,
    };
    Some(Hit {
        position,
        reason: Reason::Break(number),
    })
}

/// The hit of a watch that reads otherwise at a position than behind it, or else the one before.
#[inline(always)]
fn later_watch(last: Option<Hit>, position: u64, number: Option<u64>) -> Option<Hit>
    ensures { result ≡ later_hit last position (option_map Reason.Watch number) }
{
    let number = match number {
        Some(number) => number,
        None => return last,
    };
    Some(Hit {
        position,
        reason: Reason::Watch(number),
    })
}

/// The last position of a part of the walk at which a stop holds in going back, from the machine's state on. These are the part's
/// pokes.
fn last_hit<A: Allocator + Copy, C: HasProgram<A>, M: Restorable<A, C>>(
    machine: &mut M,
    stops: &[NumberedStop],
    part: &[Poked],
    from: u64,
    to: u64,
) -> Option<Hit>
    requires few { length stops.now ≤ 64 }
    requires readable { AreReadable stops.now }
    requires poked { ArePoked from part.now to }
    ensures program { (M.present machine.new).program ≡ (M.present machine.old).program }
    ensures kept { M.kept machine.new ≡ M.kept machine.old }
    ensures hit { (s : State) (pokes : List Poked) → IsPart pokes part.now from to → AreMoves (M.present machine.old).program s pokes to
        → state_of (M.present machine.old) ≡ walk (M.present machine.old).program s pokes from
        → IsLastHit (stop_at (M.present machine.old).program (named_stops (M.present machine.old).program stops.now) s pokes) from to result }
{
    let mut rest = part;
    let mut last = None;
    let mut before = readings(stops, machine);
    let mut at = from;
    while at < to {
        last = later_break(last, at, first_break(stops, machine));
        let (made, left) = go_on(machine, stops, before.as_slice(), rest, at, to);
        at += made;
        rest = left;
        last = later_watch(last, at - 1, read_again(stops, &mut before, machine));
    }
    last
}

/// Where the part before a position begins that is looked through: at the last copy before it, or at the lowest position that
/// is looked at.
pub(crate) fn part_start(positions: &[u64], lowest: u64, end: u64) -> u64
    requires some { lowest < end }
    requires start { FromStart positions.now }
    ensures low { lowest ≤ result }
    ensures high { result < end }
{
    let copied = latest_copy(positions, end - 1).position;
    if copied < lowest { lowest } else { copied }
}

/// The last position before one, and not before a lowest one, at which a stop holds in going back. The machine is then
/// anywhere.
pub(crate) fn search_back<A: Allocator + Copy, C: HasProgram<A>, M: Restorable<A, C>>(
    machine: &mut M,
    positions: &[u64],
    pokes: &[Poked],
    stops: &[NumberedStop],
    lowest: u64,
    now: u64,
) -> Option<Hit>
    requires few { length stops.now ≤ 64 }
    requires readable { AreReadable stops.now }
    requires kept { Reaches (M.present machine.old).program (M.kept machine.old) positions.now pokes.now now }
    ensures program { (M.present machine.new).program ≡ (M.present machine.old).program }
    ensures kept { M.kept machine.new ≡ M.kept machine.old }
    ensures hit { IsLastHit (stop_at (M.present machine.old).program (named_stops (M.present machine.old).program stops.now) (first_of (M.kept machine.old)) pokes.now) lowest now result }
{
    if stops.is_empty() {
        return None;
    }
    let mut end = now;
    while end > lowest {
        let from = part_start(positions, lowest, end);
        jump(machine, positions, pokes, from);
        let found = last_hit(machine, stops, part_of(pokes, from, end), from, end);
        if found.is_some() {
            return found;
        }
        end = from;
    }
    None
}

/// The position that is gone to: that of a hit, or else the lowest, at the start or at the limit.
pub(crate) fn hit_or_lowest(found: Option<Hit>, lowest: u64) -> Hit
    ensures { result ≡ hit_or_lowest lowest found }
{
    match found {
        Some(hit) => hit,
        None => Hit {
            position: lowest,
            reason: if lowest == 0 {
                Reason::Start
            } else {
                Reason::Limit
            },
        },
    }
}
