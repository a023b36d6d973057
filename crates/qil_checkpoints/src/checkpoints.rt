//! A machine with copies of some of its states, and the pokes that were made.

ghost use Rattle.std.specs.Prelude.{◌≡◌, ◌≤◌, ◌<◌, ◌+◌, ◌^◌, ◌⊎◌, ℕ, true, false, cond, length, None, Ok, IfOk, OnOk, OnErr, IfErr};
ghost use Rattle.qil_semantics.specs.State.{State};
ghost use Rattle.qil_semantics.specs.Poke.{poke_temp};
ghost use Rattle.qil_semantics.specs.Stops.{stopped};
ghost use Rattle.qil_semantics.specs.Timeline.{begun, position, moved, gone, at_end, poked};
ghost use Rattle.qil_semantics.specs.Runs.{RunsBack};
ghost use Rattle.qil_state.specs.State.{state_of};
ghost use Rattle.qil_machine.specs.Pokes.{poke_slot};
ghost use Rattle.qil_history.specs.Pokes.{Explains};
ghost use Rattle.qil_stops.specs.Listed.{AreReadable};
ghost use Rattle.qil_stops.specs.Named.{named_stops};
ghost use Rattle.qil_stops.specs.Readings.{AllTell};
ghost use Rattle.qil_checkpoints.specs.Walk.{after_poke, HasWidth, IsWalk};
ghost use Rattle.qil_checkpoints.specs.Held.{first_of, Holds, held_timeline};
ghost use Rattle.qil_checkpoints.specs.Hits.{IsQuiet};
ghost use Rattle.qil_checkpoints.specs.CallDepths.{IsFirstShallow};

use crate::keeping::{forget_later, keep_copy};
use crate::poked::{KeptPoke, Poked};
use crate::replaying::{copy_ahead, go_back, jump, poke};
use crate::searching::{hit_or_lowest, search_back};
use crate::shallow::{moves_back, search_shallow};
use crate::spacing::Spacing;
use arrayvec::ArrayVec;
use qil_code::Slot;
use qil_history::HasProgram;
use qil_machine::PokeError;
use qil_semantics::Reason;
use qil_stops::looking::{is_over, readings, stopped};
use qil_stops::{DepthEnd, HasCopies, NumberedStop, Restorable};
use std::alloc::{AllocError, Allocator};
use std::marker::Model;

/// A machine that keeps copies of some states of its run, and what was done in that run beside steps. It goes back to a
/// position by a copy from before it and by running again. Nothing is ever forgotten.
#[derive(Drop)]
pub struct Checkpoints<A: Allocator, M: HasCopies<A>> {
    machine: M,
    /// The positions of the states that the copies are of.
    positions: Vec<u64, A>,
    pokes: Vec<Poked, A>,
    /// How many moves were made: steps and pokes.
    position: u64,
    pub(crate) spacing: Spacing,
}

impl<A: Allocator, M: HasCopies<A>> Model for Checkpoints<A, M> {
    ghost use Rattle.qil_checkpoints.specs.Held.{Held, Holds};

    ghost Value = { Held M };

    ghost view = { λ c. record { machine = c.machine; pokes = c.pokes.items; position = c.position } };

    ghost invariant = { λ c. Holds (M.present c.machine) (M.kept c.machine) c.positions.items c.pokes.items c.position };
}

impl<A: Allocator + Copy, M: HasCopies<A>> Checkpoints<A, M> {
    /// A history that begins at a machine, whose copies may take about so many bytes. Copies that it had are let go.
    ///
    /// # Errors
    ///
    /// Where there is no memory for the first copy.
    pub fn new<C: HasProgram<A>>(
        alloc: A,
        machine: M,
        budget: usize,
    ) -> Result<Checkpoints<A, M>, AllocError>
    where
        M: Restorable<A, C> + Drop,
        ensures program { IfOk result (λ c. (M.present c.machine).program ≡ (M.present machine).program) }
        ensures begun { IfOk result (λ c. held_timeline M.present M.kept c ≡ begun None (state_of (M.present machine))) }
    {
        let mut machine = machine;
        let mut positions = Vec::new(alloc);
        positions.reserve(1)?;
        machine.forget_after(0);
        machine.keep()?;
        positions.push_reserved(0);
        Ok(Checkpoints {
            machine,
            positions,
            pokes: Vec::new(alloc),
            position: 0,
            spacing: Spacing::new(budget),
        })
    }

    /// Makes up to so many steps, and fewer only where the run is over. Gives how many.
    pub(crate) fn run_part<C: HasProgram<A>>(&mut self, count: u64) -> u64
    where
        M: Restorable<A, C>,
        requires { self.old.position + count ≤ 2 ^ 62 }
        ensures program { (M.present self.new.machine).program ≡ (M.present self.old.machine).program }
        ensures position { self.new.position ≡ self.old.position + result }
        ensures few { result ≤ count }
        ensures moved { held_timeline M.present M.kept self.new ≡ moved (M.present self.old.machine).program result (held_timeline M.present M.kept self.old) }
        ensures running { (j : ℕ) → j < result → at_end (moved (M.present self.old.machine).program j (held_timeline M.present M.kept self.old)) ≡ false }
        ensures over { (result ≡ count) ⊎ (at_end (held_timeline M.present M.kept self.new) ≡ true) }
    {
        let made = self.machine.run(count);
        self.position += made;
        made
    }

    /// Makes up to so many steps, and fewer only where the run is over or after a step behind which a stop may hold: none holds
    /// behind those before it. Gives how many. `before` is what each stop reads.
    pub(crate) fn run_part_quietly<C: HasProgram<A>>(
        &mut self,
        stops: &[NumberedStop],
        before: &[Option<u64>],
        count: u64,
    ) -> u64
    where
        M: Restorable<A, C>,
        requires near { self.old.position + count ≤ 2 ^ 62 }
        requires count { length before.now ≡ length stops.now }
        requires readable { AreReadable stops.now }
        ensures program { (M.present self.new.machine).program ≡ (M.present self.old.machine).program }
        ensures position { self.new.position ≡ self.old.position + result }
        ensures few { result ≤ count }
        ensures moved { held_timeline M.present M.kept self.new ≡ moved (M.present self.old.machine).program result (held_timeline M.present M.kept self.old) }
        ensures running { (j : ℕ) → j < result → at_end (moved (M.present self.old.machine).program j (held_timeline M.present M.kept self.old)) ≡ false }
        ensures some { result ≡ 0 → (count ≡ 0) ⊎ (at_end (held_timeline M.present M.kept self.new) ≡ true) }
        ensures quiet { AllTell (M.present self.old.machine).program (held_timeline M.present M.kept self.old).now stops.now before.now
            → IsQuiet (M.present self.old.machine).program (λ j. (moved (M.present self.old.machine).program j (held_timeline M.present M.kept self.old)).now) stops.now before.now 0 result }
    {
        let made = self.machine.run_quietly(stops, before, count);
        self.position += made;
        made
    }

    /// Goes on to the latest copy that is kept of the next so many moves, if that spares some. Gives how many moves that is.
    pub(crate) fn skip<C: HasProgram<A>>(&mut self, count: u64) -> u64
    where
        M: Restorable<A, C>,
        requires { self.old.position + count ≤ 2 ^ 62 }
        ensures program { (M.present self.new.machine).program ≡ (M.present self.old.machine).program }
        ensures position { self.new.position ≡ self.old.position + result }
        ensures few { result ≤ count }
        ensures moved { held_timeline M.present M.kept self.new ≡ moved (M.present self.old.machine).program result (held_timeline M.present M.kept self.old) }
        ensures running { (j : ℕ) → j < result → at_end (moved (M.present self.old.machine).program j (held_timeline M.present M.kept self.old)) ≡ false }
    {
        let positions = self.positions.as_slice();
        let copy = match copy_ahead(positions, self.position, count, &self.spacing) {
            Some(copy) => copy,
            None => return 0,
        };
        self.machine.restore(copy.index);
        let skipped = copy.position - self.position;
        self.position = copy.position;
        skipped
    }

    /// Keeps a copy of the state, if there is none yet, where the budget allows it and there is memory.
    pub(crate) fn keep_copy<C: HasProgram<A>>(&mut self)
    where
        M: Restorable<A, C>,
        ensures program { (M.present self.new.machine).program ≡ (M.present self.old.machine).program }
        ensures position { self.new.position ≡ self.old.position }
        ensures same { held_timeline M.present M.kept self.new ≡ held_timeline M.present M.kept self.old }
    {
        if self.positions.contains(&self.position) {
            return;
        }
        keep_copy(
            &mut self.machine,
            &mut self.positions,
            self.position,
            self.position,
            &mut self.spacing,
        );
    }

    /// Goes back to a position. The pokes behind it are let go.
    pub(crate) fn go_to<C: HasProgram<A>>(&mut self, position: u64)
    where
        M: Restorable<A, C>,
        requires { position ≤ self.old.position }
        ensures program { (M.present self.new.machine).program ≡ (M.present self.old.machine).program }
        ensures position { self.new.position ≡ position }
        ensures gone { (k : ℕ) → k + position ≡ self.old.position → held_timeline M.present M.kept self.new ≡ gone k (held_timeline M.present M.kept self.old) }
    {
        go_back(
            &mut self.machine,
            &mut self.positions,
            &mut self.pokes,
            position,
            &mut self.spacing,
        );
        self.position = position;
    }

    /// Goes back to the first place where there is a reason to stop, and gives the reason and how many moves that is.
    pub(crate) fn back_to_stop<C: HasProgram<A>>(
        &mut self,
        stops: &[NumberedStop],
        limit: u64,
    ) -> (Reason, u64)
    where
        M: Restorable<A, C>,
        requires few { length stops.now ≤ 64 }
        requires readable { AreReadable stops.now }
        ensures program { (M.present self.new.machine).program ≡ (M.present self.old.machine).program }
        ensures run { RunsBack (named_stops (M.present self.old.machine).program stops.now) limit (held_timeline M.present M.kept self.old) result.0 result.1 (held_timeline M.present M.kept self.new) }
        ensures near { self.new.position ≤ self.old.position }
        ensures few { result.1 ≤ self.old.position }
    {
        let now = self.position;
        let lowest = now.saturating_sub(limit);
        let found = search_back(
            &mut self.machine,
            self.positions.as_slice(),
            self.pokes.as_slice(),
            stops,
            lowest,
            now,
        );
        let hit = hit_or_lowest(found, lowest);
        go_back(
            &mut self.machine,
            &mut self.positions,
            &mut self.pokes,
            hit.position,
            &mut self.spacing,
        );
        self.position = hit.position;
        (hit.reason, now - hit.position)
    }

    /// How many moves back the first place is, after a move, where at most `most` calls are open, if up to so many moves lead to one.
    pub(crate) fn moves_to_depth<C: HasProgram<A>>(
        &mut self,
        most: usize,
        limit: u64,
    ) -> Option<u64>
    where
        M: Restorable<A, C>,
        ensures program { (M.present self.new.machine).program ≡ (M.present self.old.machine).program }
        ensures position { self.new.position ≡ self.old.position }
        ensures same { held_timeline M.present M.kept self.new ≡ held_timeline M.present M.kept self.old }
        ensures first { IsFirstShallow (held_timeline M.present M.kept self.old) most limit result }
    {
        let now = self.position;
        let lowest = now.saturating_sub(limit);
        let (positions, pokes) = (self.positions.as_slice(), self.pokes.as_slice());
        let found = search_shallow(&mut self.machine, positions, pokes, most, lowest, now);
        jump(&mut self.machine, positions, pokes, now);
        moves_back(found, now)
    }

    /// Pokes, and keeps that as a move. Where there is no memory for that, a poke that wasn't refused is undone.
    pub(crate) fn poke<C: HasProgram<A>>(&mut self, made: KeptPoke) -> Result<(), PokeError>
    where
        M: Restorable<A, C>,
        requires before { self.old.position < 2 ^ 62 }
        requires width { HasWidth made }
        ensures program { (M.present self.new.machine).program ≡ (M.present self.old.machine).program }
        ensures ok { OnOk result (poked (held_timeline M.present M.kept self.old) (after_poke (M.present self.old.machine).program (held_timeline M.present M.kept self.old).now made) ≡ Ok (held_timeline M.present M.kept self.new)) }
        ensures why { IfErr result (Explains (after_poke (M.present self.old.machine).program (held_timeline M.present M.kept self.old).now made)) }
        ensures err { OnErr result (held_timeline M.present M.kept self.new ≡ held_timeline M.present M.kept self.old) }
    {
        if self.pokes.reserve(1).is_err() {
            let (positions, pokes) = (self.positions.as_slice(), self.pokes.as_slice());
            return Err(refusal(&mut self.machine, positions, pokes, self.position, made));
        }
        if let Err(error) = poke(&mut self.machine, made) {
            return Err(error);
        }
        forget_later(&mut self.machine, &mut self.positions, self.position);
        self.pokes.push_reserved(Poked {
            position: self.position,
            poke: made,
        });
        self.position += 1;
        Ok(())
    }

    /// Pokes a temporary of the innermost frame, and keeps that as a move.
    pub(crate) fn poke_temp<C: HasProgram<A>>(
        &mut self,
        name: &[u8],
        value: u64,
    ) -> Result<(), PokeError>
    where
        M: Restorable<A, C>,
        requires { self.old.position < 2 ^ 62 }
        ensures program { (M.present self.new.machine).program ≡ (M.present self.old.machine).program }
        ensures ok { OnOk result (poked (held_timeline M.present M.kept self.old) (poke_temp (M.present self.old.machine).program (held_timeline M.present M.kept self.old).now name.now value) ≡ Ok (held_timeline M.present M.kept self.new)) }
        ensures why { IfErr result (Explains (poke_temp (M.present self.old.machine).program (held_timeline M.present M.kept self.old).now name.now value)) }
        ensures err { OnErr result (held_timeline M.present M.kept self.new ≡ held_timeline M.present M.kept self.old) }
    {
        let slot = match self.slot_named(name) {
            Ok(slot) => slot,
            Err(error) => return Err(error),
        };
        self.poke(KeptPoke::Slot(slot, value))
    }

    /// What each stop reads now.
    pub(crate) fn readings<C: HasProgram<A>>(
        &self,
        stops: &[NumberedStop],
    ) -> ArrayVec<Option<u64>, 64>
    where
        M: Restorable<A, C>,
        requires few { length stops.now ≤ 64 }
        requires readable { AreReadable stops.now }
        ensures count { length result.items ≡ length stops.now }
        ensures reported { AllTell (M.present self.now.machine).program (held_timeline M.present M.kept self.now).now stops.now result.items }
    {
        readings(stops, &self.machine)
    }

    /// The stop that holds now, after a move from a state that is reported by what was read there.
    pub(crate) fn stopped_here<C: HasProgram<A>>(
        &self,
        stops: &[NumberedStop],
        before: &[Option<u64>],
    ) -> Option<Reason>
    where
        M: Restorable<A, C>,
        requires count { length before.now ≡ length stops.now }
        requires readable { AreReadable stops.now }
        ensures { (old : State) → AllTell (M.present self.now.machine).program old stops.now before.now
            → result ≡ stopped (named_stops (M.present self.now.machine).program stops.now) old (held_timeline M.present M.kept self.now).now }
    {
        stopped(stops, before, &self.machine)
    }

    /// Why a run stops: the end comes before each other reason.
    pub(crate) fn end_or<C: HasProgram<A>>(&self, other: Reason) -> Reason
    where
        M: Restorable<A, C>,
        ensures { result ≡ cond (at_end (held_timeline M.present M.kept self.now)) Reason.End other }
    {
        if is_over(&self.machine) {
            Reason::End
        } else {
            other
        }
    }

    /// Why a run ends where no more calls are open than were asked for: at the end of the run that comes first.
    pub(crate) fn shallow_end<C: HasProgram<A>>(&self) -> DepthEnd
    where
        M: Restorable<A, C>,
        ensures { result ≡ cond (at_end (held_timeline M.present M.kept self.now)) (DepthEnd.Stopped Reason.End) DepthEnd.Depth }
    {
        if is_over(&self.machine) {
            DepthEnd::Stopped(Reason::End)
        } else {
            DepthEnd::Depth
        }
    }

    /// How many moves were made: steps and pokes.
    pub fn moves<C: HasProgram<A>>(&self) -> u64
    where
        M: Restorable<A, C>,
        ensures position { result ≡ self.now.position }
        ensures timeline { result ≡ position (held_timeline M.present M.kept self.now) }
        ensures walk { IsWalk (M.present self.now.machine).program (first_of (M.kept self.now.machine)) self.now.pokes result (held_timeline M.present M.kept self.now) }
    {
        self.position
    }

    /// What is read.
    pub fn reader<C: HasProgram<A>>(&self) -> &M
    where
        M: Restorable<A, C>,
        ensures same { result.now ≡ self.now.machine }
        ensures now { state_of (M.whole result.now) ≡ (held_timeline M.present M.kept self.now).now }
        ensures program { (M.whole result.now).program ≡ (M.present self.now.machine).program }
    {
        self.machine.is_read();
        &self.machine
    }

    /// The slot of a temporary of the innermost frame.
    fn slot_named<C: HasProgram<A>>(&self, name: &[u8]) -> Result<Slot, PokeError>
    where
        M: Restorable<A, C>,
        ensures ok { (value : ℕ) → IfOk result (λ slot. poke_slot (M.present self.now.machine).program (held_timeline M.present M.kept self.now).now slot value
            ≡ poke_temp (M.present self.now.machine).program (held_timeline M.present M.kept self.now).now name.now value) }
        ensures why { (value : ℕ) → IfErr result (Explains (poke_temp (M.present self.now.machine).program (held_timeline M.present M.kept self.now).now name.now value)) }
    {
        self.machine.slot_named(name)
    }
}

/// Why a poke isn't kept as a move where there is no memory for that: what refuses it, or out of memory. The machine, which is
/// at this position, comes back to it.
fn refusal<A: Allocator + Copy, C: HasProgram<A>, M: Restorable<A, C>>(
    machine: &mut M,
    positions: &[u64],
    pokes: &[Poked],
    position: u64,
    made: KeptPoke,
) -> PokeError
    requires holds { Holds (M.present machine.old) (M.kept machine.old) positions.now pokes.now position }
    requires width { HasWidth made }
    ensures program { (M.present machine.new).program ≡ (M.present machine.old).program }
    ensures holds { Holds (M.present machine.new) (M.kept machine.new) positions.now pokes.now position }
    ensures kept { M.kept machine.new ≡ M.kept machine.old }
    ensures why { Explains (after_poke (M.present machine.old).program (state_of (M.present machine.old)) made) result }
{
    match poke(machine, made) {
        Ok(()) => {
            jump(machine, positions, pokes, position);
            PokeError::OutOfMemory
        }
        Err(error) => error,
    }
}
