//! Looks through the walk backwards for the last position at which no more calls are open than a number says: part after part from
//! the newest on, each of which is gone through forward once, move by move.

ghost use Rattle.std.specs.Prelude.{◌≡◌, ◌-◌, ◌≤◌, ◌<◌, ℕ, List, None, length, not, nat_lt, option_map};
ghost use Rattle.qil_semantics.specs.State.{State};
ghost use Rattle.qil_semantics.specs.Runs.{if_holds};
ghost use Rattle.qil_state.specs.State.{state_of};
ghost use Rattle.qil_checkpoints.specs.Walk.{ArePoked, walk, AreMoves};
ghost use Rattle.qil_checkpoints.specs.Held.{first_of, Reaches};
ghost use Rattle.qil_checkpoints.specs.Hits.{IsLastHit, later_hit};
ghost use Rattle.qil_checkpoints.specs.CallDepths.{shallow_in, shallow_at};

use crate::hit::Hit;
use crate::poked::Poked;
use crate::replaying::{jump, run_through};
use crate::searching::part_start;
use qil_history::HasProgram;
use qil_semantics::Reason;
use qil_stops::Restorable;
use std::alloc::Allocator;

/// The limit of a run back over calls, if a machine is at one: no more than `most` calls are open.
fn shallow_now<A: Allocator + Copy, C: HasProgram<A>, M: Restorable<A, C>>(
    machine: &M,
    most: usize,
) -> Option<Reason>
    ensures { result ≡ shallow_in most (state_of (M.present machine.now)) }
{
    machine.is_read();
    if machine.depth() <= most {
        Some(Reason::Limit)
    } else {
        None
    }
}

/// The hit of a position, if there is one, or else the one before.
#[inline(always)]
fn later_hit(last: Option<Hit>, position: u64, reason: Option<Reason>) -> Option<Hit>
    ensures { result ≡ later_hit last position reason }
{
    match reason {
        Some(reason) => Some(Hit { position, reason }),
        None => last,
    }
}

/// The last position of a part of the walk at which no more than `most` calls are open, from the machine's state on.
fn last_shallow<A: Allocator + Copy, C: HasProgram<A>, M: Restorable<A, C>>(
    machine: &mut M,
    pokes: &[Poked],
    most: usize,
    from: u64,
    to: u64,
) -> Option<Hit>
    requires order { from ≤ to }
    requires poked { (n : ℕ) × (to ≤ n) × ArePoked 0 pokes.now n }
    ensures program { (M.present machine.new).program ≡ (M.present machine.old).program }
    ensures kept { M.kept machine.new ≡ M.kept machine.old }
    ensures hit { (s : State) → AreMoves (M.present machine.old).program s pokes.now to
        → state_of (M.present machine.old) ≡ walk (M.present machine.old).program s pokes.now from
        → IsLastHit (shallow_at (M.present machine.old).program most s pokes.now) from to result }
{
    let mut last = None;
    for at in from..to {
        last = later_hit(last, at, shallow_now(machine, most));
        run_through(machine, pokes, at, at + 1);
    }
    last
}

/// The last position before one, and not before a lowest one, at which no more than `most` calls are open. The machine is then
/// anywhere.
pub(crate) fn search_shallow<A: Allocator + Copy, C: HasProgram<A>, M: Restorable<A, C>>(
    machine: &mut M,
    positions: &[u64],
    pokes: &[Poked],
    most: usize,
    lowest: u64,
    now: u64,
) -> Option<Hit>
    requires { Reaches (M.present machine.old).program (M.kept machine.old) positions.now pokes.now now }
    ensures program { (M.present machine.new).program ≡ (M.present machine.old).program }
    ensures kept { M.kept machine.new ≡ M.kept machine.old }
    ensures hit { IsLastHit (shallow_at (M.present machine.old).program most (first_of (M.kept machine.old)) pokes.now) lowest now result }
{
    let mut end = now;
    while end > lowest {
        let from = part_start(positions, lowest, end);
        jump(machine, positions, pokes, from);
        let found = last_shallow(machine, pokes, most, from, end);
        if found.is_some() {
            return found;
        }
        end = from;
    }
    None
}

/// How many moves back a hit is.
pub(crate) fn moves_back(found: Option<Hit>, now: u64) -> Option<u64>
    ensures { result ≡ option_map (λ hit. now - hit.position) found }
{
    match found {
        Some(hit) => Some(now.saturating_sub(hit.position)),
        None => None,
    }
}
