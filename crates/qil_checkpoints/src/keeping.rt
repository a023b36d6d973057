//! Which states copies are kept of. No promise rests on it: each choice that keeps the first is right.

ghost use Rattle.std.specs.Prelude.{◌≡◌, ◌≤◌, ◌<◌, ℕ, List, true, length, drop, remove};
ghost use Rattle.qil_state.specs.State.{state_of};
ghost use Rattle.qil_checkpoints.specs.declared.poked.Poked.{Poked};
ghost use Rattle.qil_checkpoints.specs.Walk.{walk};
ghost use Rattle.qil_checkpoints.specs.Held.{first_of, AreUpTo, IsKept, StillKept};

use crate::spacing::Spacing;
use qil_history::HasProgram;
use qil_stops::Restorable;
use std::alloc::Allocator;

/// Keeps a copy of the state of a machine at a position, if there is memory for one. Copies that are needed least as seen from
/// `now` are let go where all together are too many or too large.
pub(crate) fn keep_copy<A: Allocator + Copy, C: HasProgram<A>, M: Restorable<A, C>>(
    machine: &mut M,
    positions: &mut Vec<u64, A>,
    position: u64,
    now: u64,
    spacing: &mut Spacing,
)
    requires { length (M.kept machine.old) ≡ length positions.old.items }
    ensures length { length (M.kept machine.new) ≡ length positions.new.items }
    ensures whole { M.present machine.new ≡ M.present machine.old }
    ensures kept { (pokes : List Poked) (n : ℕ) → IsKept (M.present machine.old).program (M.kept machine.old) positions.old.items pokes n → position ≤ n
        → state_of (M.present machine.old) ≡ walk (M.present machine.old).program (first_of (M.kept machine.old)) pokes position
        → StillKept (M.present machine.old).program (M.kept machine.old) (M.kept machine.new) positions.new.items pokes n }
{
    add_copy(machine, positions, position);
    let bytes = machine.kept_bytes();
    spacing.fit(positions.len(), bytes);
    if spacing.is_crowded(positions.len(), bytes) {
        thin(machine, positions, now, spacing);
    }
}

/// Adds a copy of the state of a machine at a position, if there is memory for one.
fn add_copy<A: Allocator + Copy, C: HasProgram<A>, M: Restorable<A, C>>(
    machine: &mut M,
    positions: &mut Vec<u64, A>,
    position: u64,
)
    requires { length (M.kept machine.old) ≡ length positions.old.items }
    ensures length { length (M.kept machine.new) ≡ length positions.new.items }
    ensures whole { M.present machine.new ≡ M.present machine.old }
    ensures kept { (pokes : List Poked) (n : ℕ) → IsKept (M.present machine.old).program (M.kept machine.old) positions.old.items pokes n → position ≤ n
        → state_of (M.present machine.old) ≡ walk (M.present machine.old).program (first_of (M.kept machine.old)) pokes position
        → StillKept (M.present machine.old).program (M.kept machine.old) (M.kept machine.new) positions.new.items pokes n }
{
    if positions.reserve(1).is_err() {
        return;
    }
    if machine.keep().is_err() {
        return;
    }
    positions.push_reserved(position);
}

/// Lets copies go that are needed least as seen from now, until there is room for more, or only the first is left.
fn thin<A: Allocator + Copy, C: HasProgram<A>, M: Restorable<A, C>>(
    machine: &mut M,
    positions: &mut Vec<u64, A>,
    now: u64,
    spacing: &mut Spacing,
)
    requires { length (M.kept machine.old) ≡ length positions.old.items }
    ensures length { length (M.kept machine.new) ≡ length positions.new.items }
    ensures whole { M.present machine.new ≡ M.present machine.old }
    ensures kept { (pokes : List Poked) (n : ℕ) → IsKept (M.present machine.old).program (M.kept machine.old) positions.old.items pokes n
        → StillKept (M.present machine.old).program (M.kept machine.old) (M.kept machine.new) positions.new.items pokes n }
{
    for _ in 0..192 {
        let rule = Staying {
            last: u64::MAX,
            seen: Some((now, *spacing)),
        };
        sift(machine, positions, &rule);
        let bytes = machine.kept_bytes();
        if spacing.has_room(positions.len(), bytes) {
            spacing.narrow(positions.len(), bytes);
            break;
        }
        spacing.widen(positions.len(), now);
    }
    spacing.settle(positions.len(), machine.kept_bytes());
}

/// Lets all copies go of states after a position.
pub(crate) fn forget_later<A: Allocator + Copy, C: HasProgram<A>, M: Restorable<A, C>>(
    machine: &mut M,
    positions: &mut Vec<u64, A>,
    last: u64,
)
    requires { length (M.kept machine.old) ≡ length positions.old.items }
    ensures length { length (M.kept machine.new) ≡ length positions.new.items }
    ensures whole { M.present machine.new ≡ M.present machine.old }
    ensures last { AreUpTo last (drop 1 positions.new.items) }
    ensures kept { (pokes : List Poked) (n : ℕ) → IsKept (M.present machine.old).program (M.kept machine.old) positions.old.items pokes n
        → StillKept (M.present machine.old).program (M.kept machine.old) (M.kept machine.new) positions.new.items pokes n }
{
    let rule = Staying { last, seen: None };
    sift(machine, positions, &rule);
}

/// Which copies stay: none of a state after the last position, and of the others those that a spacing keeps as seen from now, if
/// there is one.
#[derive(Clone, Copy)]
struct Staying {
    last: u64,
    seen: Option<(u64, Spacing)>,
}

impl Staying {
    fn keeps(&self, position: u64) -> bool
        ensures { result ≡ true → position ≤ self.now.last }
    {
        if position > self.last {
            return false;
        }
        match &self.seen {
            Some((now, spacing)) => spacing.stays(position, *now),
            None => true,
        }
    }
}

/// Lets all copies go that don't stay, but not the first.
fn sift<A: Allocator + Copy, C: HasProgram<A>, M: Restorable<A, C>>(
    machine: &mut M,
    positions: &mut Vec<u64, A>,
    rule: &Staying,
)
    requires { length (M.kept machine.old) ≡ length positions.old.items }
    ensures length { length (M.kept machine.new) ≡ length positions.new.items }
    ensures whole { M.present machine.new ≡ M.present machine.old }
    ensures last { AreUpTo rule.now.last (drop 1 positions.new.items) }
    ensures kept { (pokes : List Poked) (n : ℕ) → IsKept (M.present machine.old).program (M.kept machine.old) positions.old.items pokes n
        → StillKept (M.present machine.old).program (M.kept machine.old) (M.kept machine.new) positions.new.items pokes n }
{
    let mut index = positions.len();
    while index > 1 {
        index -= 1;
        if !rule.keeps(positions[index]) {
            recycle(machine, positions, index);
        }
    }
}

/// Lets a copy go that isn't the first.
fn recycle<A: Allocator + Copy, C: HasProgram<A>, M: Restorable<A, C>>(
    machine: &mut M,
    positions: &mut Vec<u64, A>,
    index: usize,
)
    requires length { length (M.kept machine.old) ≡ length positions.old.items }
    requires later { 0 < index }
    requires inside { index < length positions.old.items }
    ensures length { length (M.kept machine.new) ≡ length positions.new.items }
    ensures whole { M.present machine.new ≡ M.present machine.old }
    ensures items { positions.new.items ≡ remove positions.old.items index }
    ensures kept { (pokes : List Poked) (n : ℕ) → IsKept (M.present machine.old).program (M.kept machine.old) positions.old.items pokes n
        → StillKept (M.present machine.old).program (M.kept machine.old) (M.kept machine.new) positions.new.items pokes n }
{
    machine.forget(index);
    let _ = positions.remove(index);
}
