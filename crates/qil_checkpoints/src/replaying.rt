//! Brings a machine to a position of a walk: from the last copy before it, by the same steps and pokes again.

ghost use Rattle.std.specs.Prelude.{◌≡◌, ◌≢◌, ◌≤◌, ◌<◌, ◌+◌, ◌^◌, ◌⊎◌, ℕ, List, Some, None, Ok, Err, OnOk, OnErr, IfErr, IfSome, length, take, slice_get};
ghost use Rattle.qil_semantics.specs.State.{State};
ghost use Rattle.qil_semantics.specs.Timeline.{gone};
ghost use Rattle.qil_state.specs.State.{state_of};
ghost use Rattle.qil_history.specs.Pokes.{Explains};
ghost use Rattle.qil_checkpoints.specs.declared.poked.Poked.{Poked};
ghost use Rattle.qil_checkpoints.specs.Walk.{after_poke, HasWidth, poke_at, ArePoked, AreRising, is_before, count_before, part_of, IsPart, walk, timeline_at, AreMoves};
ghost use Rattle.qil_checkpoints.specs.Held.{first_of, FromStart, IsKept, Holds, StillKept, Reaches};

use crate::keeping::{forget_later, keep_copy};
use crate::poked::{KeptPoke, Poked};
use crate::spacing::Spacing;
use qil_history::HasProgram;
use qil_machine::PokeError;
use qil_stops::Restorable;
use std::alloc::Allocator;

/// How many of the pokes were made before a position. It takes some twenty looks at most, whatever their number.
pub(crate) fn count_before(pokes: &[Poked], position: u64) -> usize
    requires { AreRising pokes.now }
    ensures count { result ≡ count_before position pokes.now }
    ensures within { result ≤ length pokes.now }
{
    pokes.partition_point(
        |made: &Poked| -> bool
            ensures { result ≡ is_before position made.now }
        { made.position < position },
    )
}

/// The pokes that were made from one position on and before another.
pub(crate) fn part_of(pokes: &[Poked], from: u64, to: u64) -> &[Poked]
    requires { AreRising pokes.now }
    ensures { result.now ≡ part_of pokes.now from to }
{
    let rest = &pokes[count_before(pokes, from)..];
    &rest[..count_before(rest, to)]
}

/// Where a copy is found, and the position of its state.
#[derive(Clone, Copy)]
pub(crate) struct FoundCopy {
    pub index: usize,
    pub position: u64,
}

/// The later of two copies: the one that was found, and one at an index and a position, if its state isn't after the last position.
#[inline(always)]
fn later_copy(found: FoundCopy, index: usize, position: u64, last: u64) -> FoundCopy
    requires { found.position ≤ last }
    ensures one { (result ≡ found) ⊎ ((result.index ≡ index) × (result.position ≡ position)) }
    ensures last { result.position ≤ last }
{
    if position <= last && position >= found.position {
        FoundCopy { index, position }
    } else {
        found
    }
}

/// The copy of the latest state that isn't after a position. That it is the latest is no promise.
pub(crate) fn latest_copy(positions: &[u64], last: u64) -> FoundCopy
    requires { FromStart positions.now }
    ensures there { slice_get positions.now result.index ≡ Some result.position }
    ensures last { result.position ≤ last }
{
    let mut found = FoundCopy {
        index: 0,
        position: 0,
    };
    for index in 0..positions.len() {
        found = later_copy(found, index, positions[index], last);
    }
    found
}

/// The copy of the latest state among the next so many behind a position, if there is one that spares more moves than it costs.
pub(crate) fn copy_ahead(
    positions: &[u64],
    position: u64,
    count: u64,
    spacing: &Spacing,
) -> Option<FoundCopy>
    requires start { FromStart positions.now }
    requires near { position + count ≤ 2 ^ 62 }
    ensures there { IfSome result (λ copy. slice_get positions.now copy.index ≡ Some copy.position) }
    ensures later { IfSome result (λ copy. position ≤ copy.position) }
    ensures within { IfSome result (λ copy. copy.position ≤ position + count) }
{
    if !spacing.is_far(count) {
        return None;
    }
    let copy = latest_copy(positions, position + count);
    if copy.position < position || !spacing.is_far(copy.position - position) {
        return None;
    }
    Some(copy)
}

/// Pokes a machine.
pub(crate) fn poke<A: Allocator + Copy, C: HasProgram<A>, M: Restorable<A, C>>(
    machine: &mut M,
    poke: KeptPoke,
) -> Result<(), PokeError>
    requires { HasWidth poke }
    ensures program { (M.present machine.new).program ≡ (M.present machine.old).program }
    ensures kept { M.kept machine.new ≡ M.kept machine.old }
    ensures ok { OnOk result (after_poke (M.present machine.old).program (state_of (M.present machine.old)) poke ≡ Ok (state_of (M.present machine.new))) }
    ensures why { IfErr result (Explains (after_poke (M.present machine.old).program (state_of (M.present machine.old)) poke)) }
    ensures memory { result ≢ Err PokeError.OutOfMemory }
    ensures err { OnErr result (M.present machine.new ≡ M.present machine.old) }
{
    match poke {
        KeptPoke::Slot(slot, value) => machine.poke_slot(slot, value),
        KeptPoke::Bytes(address, width, number) => machine.poke_memory(address, width, number),
    }
}

/// Makes a poke again: where it was made before it isn't refused.
pub(crate) fn poke_again<A: Allocator + Copy, C: HasProgram<A>, M: Restorable<A, C>>(
    machine: &mut M,
    made: KeptPoke,
)
    requires { HasWidth made }
    ensures program { (M.present machine.new).program ≡ (M.present machine.old).program }
    ensures kept { M.kept machine.new ≡ M.kept machine.old }
    ensures state { (next : State) → after_poke (M.present machine.old).program (state_of (M.present machine.old)) made ≡ Ok next → state_of (M.present machine.new) ≡ next }
{
    let _ = poke(machine, made);
}

/// Makes steps from a position to a later one, between which no poke was made.
pub(crate) fn run_again<A: Allocator + Copy, C: HasProgram<A>, M: Restorable<A, C>>(
    machine: &mut M,
    from: u64,
    to: u64,
)
    requires { from ≤ to }
    ensures program { (M.present machine.new).program ≡ (M.present machine.old).program }
    ensures kept { M.kept machine.new ≡ M.kept machine.old }
    ensures state { (s : State) (pokes : List Poked) → ((j : ℕ) → from ≤ j → j < to → poke_at pokes j ≡ None) → AreMoves (M.present machine.old).program s pokes to
        → state_of (M.present machine.old) ≡ walk (M.present machine.old).program s pokes from → state_of (M.present machine.new) ≡ walk (M.present machine.old).program s pokes to }
{
    let _ = machine.run(to - from);
}

/// Makes the steps from a position up to a poke, and the poke. Gives the position after it.
fn go_through<A: Allocator + Copy, C: HasProgram<A>, M: Restorable<A, C>>(
    machine: &mut M,
    from: u64,
    made: Poked,
) -> u64
    requires order { from ≤ made.position }
    requires below { made.position + 1 < 2 ^ 64 }
    requires width { HasWidth made.poke }
    ensures program { (M.present machine.new).program ≡ (M.present machine.old).program }
    ensures kept { M.kept machine.new ≡ M.kept machine.old }
    ensures position { result ≡ made.position + 1 }
    ensures state { (s : State) (pokes : List Poked) → ((j : ℕ) → from ≤ j → j < made.position → poke_at pokes j ≡ None) → poke_at pokes made.position ≡ Some made.poke
        → AreMoves (M.present machine.old).program s pokes (made.position + 1)
        → state_of (M.present machine.old) ≡ walk (M.present machine.old).program s pokes from → state_of (M.present machine.new) ≡ walk (M.present machine.old).program s pokes (made.position + 1) }
{
    run_again(machine, from, made.position);
    poke_again(machine, made.poke);
    made.position + 1
}

/// Makes the moves from a position to a later one again, of which these are the pokes.
pub(crate) fn replay<A: Allocator + Copy, C: HasProgram<A>, M: Restorable<A, C>>(
    machine: &mut M,
    part: &[Poked],
    from: u64,
    to: u64,
)
    requires { ArePoked from part.now to }
    ensures program { (M.present machine.new).program ≡ (M.present machine.old).program }
    ensures kept { M.kept machine.new ≡ M.kept machine.old }
    ensures state { (s : State) (pokes : List Poked) → IsPart pokes part.now from to → AreMoves (M.present machine.old).program s pokes to
        → state_of (M.present machine.old) ≡ walk (M.present machine.old).program s pokes from → state_of (M.present machine.new) ≡ walk (M.present machine.old).program s pokes to }
{
    let mut at = from;
    for made in part {
        at = go_through(machine, at, *made);
    }
    run_again(machine, at, to);
}

/// Makes the moves from a position to a later one again, of which these are all pokes.
pub(crate) fn run_through<A: Allocator + Copy, C: HasProgram<A>, M: Restorable<A, C>>(
    machine: &mut M,
    pokes: &[Poked],
    from: u64,
    to: u64,
)
    requires order { from ≤ to }
    requires poked { (n : ℕ) × (to ≤ n) × ArePoked 0 pokes.now n }
    ensures program { (M.present machine.new).program ≡ (M.present machine.old).program }
    ensures kept { M.kept machine.new ≡ M.kept machine.old }
    ensures state { (s : State) → AreMoves (M.present machine.old).program s pokes.now to
        → state_of (M.present machine.old) ≡ walk (M.present machine.old).program s pokes.now from → state_of (M.present machine.new) ≡ walk (M.present machine.old).program s pokes.now to }
{
    replay(machine, part_of(pokes, from, to), from, to);
}

/// Brings a machine to the state of a position: back to the latest copy of a state not after it, and on from there.
pub(crate) fn jump<A: Allocator + Copy, C: HasProgram<A>, M: Restorable<A, C>>(
    machine: &mut M,
    positions: &[u64],
    pokes: &[Poked],
    position: u64,
)
    requires { Reaches (M.present machine.old).program (M.kept machine.old) positions.now pokes.now position }
    ensures program { (M.present machine.new).program ≡ (M.present machine.old).program }
    ensures kept { M.kept machine.new ≡ M.kept machine.old }
    ensures state { state_of (M.present machine.new) ≡ walk (M.present machine.old).program (first_of (M.kept machine.old)) pokes.now position }
{
    let copy = latest_copy(positions, position);
    machine.restore(copy.index);
    run_through(machine, pokes, copy.position, position);
}

/// The same, and lays copies on the way, the denser the nearer.
fn come_to<A: Allocator + Copy, C: HasProgram<A>, M: Restorable<A, C>>(
    machine: &mut M,
    positions: &mut Vec<u64, A>,
    pokes: &[Poked],
    position: u64,
    spacing: &mut Spacing,
)
    requires { Reaches (M.present machine.old).program (M.kept machine.old) positions.old.items pokes.now position }
    ensures length { length (M.kept machine.new) ≡ length positions.new.items }
    ensures program { (M.present machine.new).program ≡ (M.present machine.old).program }
    ensures state { state_of (M.present machine.new) ≡ walk (M.present machine.old).program (first_of (M.kept machine.old)) pokes.now position }
    ensures kept { (n : ℕ) → position ≤ n → IsKept (M.present machine.old).program (M.kept machine.old) positions.old.items pokes.now n
        → StillKept (M.present machine.old).program (M.kept machine.old) (M.kept machine.new) positions.new.items pokes.now n }
{
    let copy = latest_copy(positions.as_slice(), position);
    machine.restore(copy.index);
    let mut at = copy.position;
    while at < position {
        let next = spacing.next_mark(at, position);
        run_through(machine, pokes, at, next);
        lay_copy(machine, positions, next, position, spacing);
        at = next;
    }
}

/// Keeps a copy on the way to a position, but none there.
fn lay_copy<A: Allocator + Copy, C: HasProgram<A>, M: Restorable<A, C>>(
    machine: &mut M,
    positions: &mut Vec<u64, A>,
    at: u64,
    position: u64,
    spacing: &mut Spacing,
)
    requires { length (M.kept machine.old) ≡ length positions.old.items }
    ensures length { length (M.kept machine.new) ≡ length positions.new.items }
    ensures whole { M.present machine.new ≡ M.present machine.old }
    ensures kept { (pokes : List Poked) (n : ℕ) → IsKept (M.present machine.old).program (M.kept machine.old) positions.old.items pokes n → at ≤ n
        → state_of (M.present machine.old) ≡ walk (M.present machine.old).program (first_of (M.kept machine.old)) pokes at
        → StillKept (M.present machine.old).program (M.kept machine.old) (M.kept machine.new) positions.new.items pokes n }
{
    if at < position {
        keep_copy(machine, positions, at, position, spacing);
    }
}

/// Lets the pokes go that were made from a position on, and the copies of states behind such a poke.
fn cut<A: Allocator + Copy, C: HasProgram<A>, M: Restorable<A, C>>(
    machine: &mut M,
    positions: &mut Vec<u64, A>,
    pokes: &mut Vec<Poked, A>,
    position: u64,
)
    requires length { length (M.kept machine.old) ≡ length positions.old.items }
    requires rising { AreRising pokes.old.items }
    ensures length { length (M.kept machine.new) ≡ length positions.new.items }
    ensures whole { M.present machine.new ≡ M.present machine.old }
    ensures pokes { pokes.new.items ≡ take (count_before position pokes.old.items) pokes.old.items }
    ensures kept { (n : ℕ) → IsKept (M.present machine.old).program (M.kept machine.old) positions.old.items pokes.old.items n → position ≤ n
        → StillKept (M.present machine.old).program (M.kept machine.old) (M.kept machine.new) positions.new.items pokes.new.items position }
{
    let count = count_before(pokes.as_slice(), position);
    if count < pokes.len() {
        let first = pokes[count].position;
        forget_later(machine, positions, first);
        pokes.truncate(count);
    }
}

/// Goes back to a position: the pokes behind it are let go, and the copies that they lead to.
pub(crate) fn go_back<A: Allocator + Copy, C: HasProgram<A>, M: Restorable<A, C>>(
    machine: &mut M,
    positions: &mut Vec<u64, A>,
    pokes: &mut Vec<Poked, A>,
    position: u64,
    spacing: &mut Spacing,
)
    requires { Reaches (M.present machine.old).program (M.kept machine.old) positions.old.items pokes.old.items position }
    ensures program { (M.present machine.new).program ≡ (M.present machine.old).program }
    ensures holds { Holds (M.present machine.new) (M.kept machine.new) positions.new.items pokes.new.items position }
    ensures gone { (n k : ℕ) → IsKept (M.present machine.old).program (M.kept machine.old) positions.old.items pokes.old.items n → k + position ≡ n
        → timeline_at (M.present machine.new).program (first_of (M.kept machine.new)) pokes.new.items position ≡ gone k (timeline_at (M.present machine.old).program (first_of (M.kept machine.old)) pokes.old.items n) }
{
    come_to(machine, positions, pokes.as_slice(), position, spacing);
    cut(machine, positions, pokes, position);
}
