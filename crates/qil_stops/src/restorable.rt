//! A machine that keeps copies of its state, and is brought back to them.

ghost use Rattle.std.specs.Prelude.{◌≡◌, ◌+◌, ◌<◌, ◌≤◌, ◌⊎◌, ◌∷◌, ◌++◌, ℕ, [], true, false, length, take, drop, slice_get, Some, Ok, Err, IfOk, IfErr, OnOk, OnErr, None};
ghost use Rattle.qil_memory.specs.Calls.{IsWidth};
ghost use Rattle.qil_semantics.specs.State.{is_final};
ghost use Rattle.qil_semantics.specs.Poke.{poke_temp, poke_memory, dead_bytes};
ghost use Rattle.qil_semantics.specs.Stops.{first_break};
ghost use Rattle.qil_semantics.specs.Targets.{after};
ghost use Rattle.qil_state.specs.State.{state_of};
ghost use Rattle.qil_history.specs.qil_machine.Pokes.{poke_slot, RefusesName, RefusesSlot};
ghost use Rattle.qil_stops.specs.Listed.{AreReadable};
ghost use Rattle.qil_stops.specs.Named.{named_stops};
ghost use Rattle.qil_stops.specs.Readings.{AllTell};

use crate::watchable::Watchable;
use crate::{NumberedStop, PokeError};
use qil_code::Slot;
use qil_history::{HasProgram, Readers};
use std::alloc::{AllocError, Allocator};

/// A machine with copies of some of its states, each of which it can be brought back to. Only `keep` takes memory: a run is
/// never out of memory, and neither is the way back.
///
/// A user is generic in `C: HasProgram<A>` and `M: Restorable<A, C>`: so it names no lifetime.
pub trait Restorable<A: Allocator, C: HasProgram<A>>: Watchable<A, C> + Readers<A, C> {
    /// Does nothing. Its clause says that what is read is the state that it has.
    fn is_read(&self)
        ensures { Self.whole self.now ≡ Self.present self.now };

    /// Makes so many steps, and fewer only where the run is over. Gives how many.
    fn run(&mut self, count: u64) -> u64
        ensures program { (Self.present self.new).program ≡ (Self.present self.old).program }
        ensures kept { Self.kept self.new ≡ Self.kept self.old }
        ensures few { result ≤ count }
        ensures steps { state_of (Self.present self.new) ≡ after (Self.present self.old).program (state_of (Self.present self.old)) result }
        ensures running { (j : ℕ) → j < result → is_final (after (Self.present self.old).program (state_of (Self.present self.old)) j).status ≡ false }
        ensures over { (result ≡ count) ⊎ (is_final (state_of (Self.present self.new)).status ≡ true) };

    /// Makes so many steps, and fewer only where the run is over or after a step behind which a stop may hold: none holds behind
    /// those before it. Gives how many. `before` is what each stop reads at the start.
    fn run_quietly(&mut self, stops: &[NumberedStop], before: &[Option<u64>], count: u64) -> u64
        requires count { length before.now ≡ length stops.now }
        requires readable { AreReadable stops.now }
        ensures program { (Self.present self.new).program ≡ (Self.present self.old).program }
        ensures kept { Self.kept self.new ≡ Self.kept self.old }
        ensures few { result ≤ count }
        ensures some { result ≡ 0 → (count ≡ 0) ⊎ (is_final (state_of (Self.present self.new)).status ≡ true) }
        ensures steps { state_of (Self.present self.new) ≡ after (Self.present self.old).program (state_of (Self.present self.old)) result }
        ensures running { (j : ℕ) → j < result → is_final (after (Self.present self.old).program (state_of (Self.present self.old)) j).status ≡ false }
        ensures quiet { AllTell (Self.present self.old).program (state_of (Self.present self.old)) stops.now before.now
            → (j : ℕ) → j < result → AllTell (Self.present self.old).program (after (Self.present self.old).program (state_of (Self.present self.old)) j) stops.now before.now }
        ensures unbroken { (j : ℕ) → 0 < j → j < result
            → first_break (after (Self.present self.old).program (state_of (Self.present self.old)) j) (named_stops (Self.present self.old).program stops.now) ≡ None };

    /// The slot of a temporary of the innermost frame, whose name is without its sigil: a poke of the slot is one of the
    /// temporary.
    ///
    /// # Errors
    ///
    /// Those of a poke by name: `NoFrame`, and `UnknownTemporary`.
    fn slot_named(&self, name: &[u8]) -> Result<Slot, PokeError>
        ensures ok { (value : ℕ) → IfOk result (λ slot. poke_slot (Self.present self.now).program (state_of (Self.present self.now)) slot value ≡ poke_temp (Self.present self.now).program (state_of (Self.present self.now)) name.now value) }
        ensures why { (value : ℕ) → IfErr result (RefusesName (Self.present self.now) name.now value) };

    /// Sets a slot of the innermost frame to a number, cut to its class. It is no step.
    ///
    /// # Errors
    ///
    /// `NoFrame` where the run is done, `UnknownTemporary` where the innermost function has no such slot.
    fn poke_slot(&mut self, slot: Slot, value: u64) -> Result<(), PokeError>
        ensures program { (Self.present self.new).program ≡ (Self.present self.old).program }
        ensures kept { Self.kept self.new ≡ Self.kept self.old }
        ensures ok { OnOk result (poke_slot (Self.present self.old).program (state_of (Self.present self.old)) slot value ≡ Ok (state_of (Self.present self.new))) }
        ensures why { IfErr result (RefusesSlot (Self.present self.old) slot value) }
        ensures err { OnErr result (Self.present self.new ≡ Self.present self.old) };

    /// Sets 1, 2, 4 or 8 bytes of memory to the low bytes of a number. It is no step.
    ///
    /// # Errors
    ///
    /// `DeadAddress` where not all of them are live.
    fn poke_memory(&mut self, address: u64, width: u64, number: u64) -> Result<(), PokeError>
        requires { IsWidth width }
        ensures program { (Self.present self.new).program ≡ (Self.present self.old).program }
        ensures kept { Self.kept self.new ≡ Self.kept self.old }
        ensures ok { OnOk result (poke_memory (state_of (Self.present self.old)) address width number ≡ Ok (state_of (Self.present self.new))) }
        ensures why { IfErr result (λ e. (e ≡ PokeError.DeadAddress) × (poke_memory (state_of (Self.present self.old)) address width number ≡ Err dead_bytes)) }
        ensures err { OnErr result (Self.present self.new ≡ Self.present self.old) };

    /// About how many bytes all copies take. No promise rests on it.
    fn kept_bytes(&self) -> usize;

    /// Keeps a copy of the state.
    ///
    /// # Errors
    ///
    /// Only out of memory: then nothing has changed.
    fn keep(&mut self) -> Result<(), AllocError>
        ensures whole { Self.present self.new ≡ Self.present self.old }
        ensures ok { OnOk result (Self.kept self.new ≡ Self.kept self.old ++ state_of (Self.present self.old) ∷ []) }
        ensures err { OnErr result (Self.kept self.new ≡ Self.kept self.old) };

    /// Goes to the state that a copy is of. It takes no memory.
    fn restore(&mut self, index: usize)
        requires { index < length (Self.kept self.old) }
        ensures program { (Self.present self.new).program ≡ (Self.present self.old).program }
        ensures kept { Self.kept self.new ≡ Self.kept self.old }
        ensures state { slice_get (Self.kept self.old) index ≡ Some (state_of (Self.present self.new)) };

    /// Lets a copy go. Those behind it move up.
    fn forget(&mut self, index: usize)
        requires { index < length (Self.kept self.old) }
        ensures whole { Self.present self.new ≡ Self.present self.old }
        ensures kept { Self.kept self.new ≡ take index (Self.kept self.old) ++ drop (index + 1) (Self.kept self.old) };

    /// Lets all copies go but the first so many.
    fn forget_after(&mut self, count: usize)
        ensures whole { Self.present self.new ≡ Self.present self.old }
        ensures kept { Self.kept self.new ≡ take count (Self.kept self.old) };
}
