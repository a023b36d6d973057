//! Few calls of a machine with copies, and all that checkpoints ask by them.

ghost use Rattle.std.specs.Prelude.{◌≡◌, ◌+◌, ◌<◌, ◌≤◌, ◌⊎◌, ◌∷◌, ◌++◌, ℕ, [], true, false, length, take, drop, slice_get, Some, Ok, Err, IfOk, IfErr, OnOk, OnErr, None};
ghost use Rattle.qil_memory.specs.Calls.{IsWidth};
ghost use Rattle.qil_semantics.specs.State.{is_final};
ghost use Rattle.qil_semantics.specs.Poke.{poke_memory, dead_bytes};
ghost use Rattle.qil_semantics.specs.Stops.{first_break};
ghost use Rattle.qil_semantics.specs.Targets.{after};
ghost use Rattle.qil_state.specs.State.{IsMachine, state_of};
ghost use Rattle.qil_machine.specs.Pokes.{poke_slot, RefusesSlot};
ghost use Rattle.qil_stops.specs.Listed.{AreReadable};
ghost use Rattle.qil_stops.specs.Named.{named_stops};
ghost use Rattle.qil_stops.specs.Readings.{AllTell};

use crate::machine::FlatMachine;
use qil_code::{BlockId, Code, Slot};
use qil_history::{FrameView, Readers};
use qil_layout::FuncId;
use qil_machine::PokeError;
use qil_state::Status;
use qil_stops::{HasCopies, NumberedStop, Restorable, Watchable};
use std::alloc::{AllocError, Allocator};

/// A machine of the type F with copies of some of its states, by few calls.
///
/// What is generic in a machine and given this type is checked at once for every call of every trait that it is asked for, and
/// with some dozens of them that is past a limit of the prover. So the machine is given by these few, and all that checkpoints
/// ask comes of them in `Replaying`, which is generic in it.
pub trait CopiedMachine<A: Allocator, F: HasCopies<A>>: HasCopies<A> {
    /// The machine as it is now.
    fn machine(&self) -> &F
        ensures { F.present result.now ≡ Self.present self.now };

    /// A call that is not over, counted from the innermost one.
    fn frame(&self, inner: usize) -> Option<FrameView<'_>>
        ensures frame { result ≡ slice_get (Self.present self.now).frames inner }
        ensures machine { IsMachine (Self.present self.now) };

    /// The bytes that were written.
    fn output(&self) -> &[u8]
        ensures { result.now ≡ (Self.present self.now).output };

    /// Makes so many steps, and fewer only where the run is over or, with stops, after a step behind which one may hold: none holds
    /// behind those before it. Gives how many. `before` is what each stop reads at the start.
    fn run_quietly(&mut self, stops: &[NumberedStop], before: &[Option<u64>], count: u64) -> u64
        requires count { length before.now ≡ length stops.now }
        requires readable { AreReadable stops.now }
        ensures program { (Self.present self.new).program ≡ (Self.present self.old).program }
        ensures kept { Self.kept self.new ≡ Self.kept self.old }
        ensures few { result ≤ count }
        ensures some { result ≡ 0 → (count ≡ 0) ⊎ (is_final (state_of (Self.present self.new)).status ≡ true) }
        ensures over { length stops.now ≡ 0 → (result ≡ count) ⊎ (is_final (state_of (Self.present self.new)).status ≡ true) }
        ensures steps { state_of (Self.present self.new) ≡ after (Self.present self.old).program (state_of (Self.present self.old)) result }
        ensures running { (j : ℕ) → j < result → is_final (after (Self.present self.old).program (state_of (Self.present self.old)) j).status ≡ false }
        ensures quiet { AllTell (Self.present self.old).program (state_of (Self.present self.old)) stops.now before.now
            → (j : ℕ) → j < result → AllTell (Self.present self.old).program (after (Self.present self.old).program (state_of (Self.present self.old)) j) stops.now before.now }
        ensures unbroken { (j : ℕ) → 0 < j → j < result
            → first_break (after (Self.present self.old).program (state_of (Self.present self.old)) j) (named_stops (Self.present self.old).program stops.now) ≡ None };

    /// Sets a slot of the innermost frame to a number, cut to its class. It is no step.
    ///
    /// # Errors
    ///
    /// `NoFrame` where the run is done, `UnknownTemporary` where the innermost function has no such slot.
    fn poke_slot(&mut self, slot: Slot, value: u64) -> Result<(), PokeError>
        ensures program { (Self.present self.new).program ≡ (Self.present self.old).program }
        ensures kept { Self.kept self.new ≡ Self.kept self.old }
        ensures ok { OnOk result (poke_slot (Self.present self.old).program (state_of (Self.present self.old)) slot value ≡ Ok (state_of (Self.present self.new))) }
        ensures why { IfErr result (RefusesSlot (Self.present self.old) slot value) }
        ensures err { OnErr result (Self.present self.new ≡ Self.present self.old) };

    /// Sets 1, 2, 4 or 8 bytes of memory to the low bytes of a number. It is no step.
    ///
    /// # Errors
    ///
    /// `DeadAddress` where not all of them are live.
    fn poke_memory(&mut self, address: u64, width: u64, number: u64) -> Result<(), PokeError>
        requires { IsWidth width }
        ensures program { (Self.present self.new).program ≡ (Self.present self.old).program }
        ensures kept { Self.kept self.new ≡ Self.kept self.old }
        ensures ok { OnOk result (poke_memory (state_of (Self.present self.old)) address width number ≡ Ok (state_of (Self.present self.new))) }
        ensures why { IfErr result (λ e. (e ≡ PokeError.DeadAddress) × (poke_memory (state_of (Self.present self.old)) address width number ≡ Err dead_bytes)) }
        ensures err { OnErr result (Self.present self.new ≡ Self.present self.old) };

    /// About how many bytes all copies take. No promise rests on it.
    fn kept_bytes(&self) -> usize;

    /// Keeps a copy of the state.
    ///
    /// # Errors
    ///
    /// Only out of memory: then nothing has changed.
    fn keep(&mut self) -> Result<(), AllocError>
        ensures whole { Self.present self.new ≡ Self.present self.old }
        ensures ok { OnOk result (Self.kept self.new ≡ Self.kept self.old ++ state_of (Self.present self.old) ∷ []) }
        ensures err { OnErr result (Self.kept self.new ≡ Self.kept self.old) };

    /// Goes to the state that a copy is of. It takes no memory.
    fn restore(&mut self, index: usize)
        requires { index < length (Self.kept self.old) }
        ensures program { (Self.present self.new).program ≡ (Self.present self.old).program }
        ensures kept { Self.kept self.new ≡ Self.kept self.old }
        ensures state { slice_get (Self.kept self.old) index ≡ Some (state_of (Self.present self.new)) };

    /// Lets a copy go. Those behind it move up.
    fn forget(&mut self, index: usize)
        requires { index < length (Self.kept self.old) }
        ensures whole { Self.present self.new ≡ Self.present self.old }
        ensures kept { Self.kept self.new ≡ take index (Self.kept self.old) ++ drop (index + 1) (Self.kept self.old) };

    /// Lets all copies go but the first so many.
    fn forget_after(&mut self, count: usize)
        ensures whole { Self.present self.new ≡ Self.present self.old }
        ensures kept { Self.kept self.new ≡ take count (Self.kept self.old) };
}

/// A machine with copies, as checkpoints ask for it, by the few calls of `CopiedMachine`.
#[derive(Drop)]
pub struct Replaying<M> {
    pub machine: M,
}

impl<A: Allocator, M: HasCopies<A>> HasCopies<A> for Replaying<M> {
    ghost present = { λ r. M.present r.machine };

    ghost kept = { λ r. M.kept r.machine };
}

/// The machine as it is now.
// Here alone what the trait asks is compared for flat machines, some four seconds of a check, and not in each of its users.
#[inline(always)]
fn machine_of<'s, 'c, A: Allocator + Copy + 'c, M: CopiedMachine<A, FlatMachine<'c, A>>>(
    machine: &'s M,
) -> &'s FlatMachine<'c, A>
    ensures { result.now.whole ≡ M.present machine.now }
{
    machine.machine()
}

impl<'c, A: Allocator + Copy + 'c, M: CopiedMachine<A, FlatMachine<'c, A>>> Readers<A, Code<'c, A>>
    for Replaying<M> {
    ghost whole = { λ r. M.present r.machine };

    fn code(&self) -> &Code<'c, A> {
        machine_of(&self.machine).code()
    }

    fn status(&self) -> Status {
        machine_of(&self.machine).status()
    }

    fn depth(&self) -> usize {
        machine_of(&self.machine).depth()
    }

    fn frame(&self, inner: usize) -> Option<FrameView<'_>> {
        self.machine.frame(inner)
    }

    fn output(&self) -> &[u8] {
        self.machine.output()
    }

    fn byte_after(&self, address: u64, offset: u64) -> Option<u8> {
        machine_of(&self.machine).byte_after(address, offset)
    }

    fn value(&self, slot: Slot) -> Option<u64> {
        machine_of(&self.machine).value(slot)
    }
}

impl<'c, A: Allocator + Copy + 'c, M: CopiedMachine<A, FlatMachine<'c, A>>> Watchable<
    A,
    Code<'c, A>,
> for Replaying<M> {
    fn memory_reading(&self, address: u64, width: u64) -> Option<u64> {
        FlatMachine::memory_reading(machine_of(&self.machine), address, width)
    }

    fn temp_reading(&self, func: FuncId, slot: Slot) -> Option<u64> {
        FlatMachine::temp_reading(machine_of(&self.machine), func, slot)
    }

    fn is_at(&self, func: FuncId, block: BlockId, index: u64) -> bool {
        FlatMachine::is_at(machine_of(&self.machine), func, block, index)
    }
}

impl<'c, A: Allocator + Copy + 'c, M: CopiedMachine<A, FlatMachine<'c, A>>> Restorable<
    A,
    Code<'c, A>,
> for Replaying<M> {
    fn is_read(&self) {}

    fn run(&mut self, count: u64) -> u64 {
        self.machine.run_quietly(&[], &[], count)
    }

    fn run_quietly(&mut self, stops: &[NumberedStop], before: &[Option<u64>], count: u64) -> u64 {
        self.machine.run_quietly(stops, before, count)
    }

    fn slot_named(&self, name: &[u8]) -> Result<Slot, PokeError> {
        machine_of(&self.machine).slot_named(name)
    }

    fn poke_slot(&mut self, slot: Slot, value: u64) -> Result<(), PokeError> {
        self.machine.poke_slot(slot, value)
    }

    fn poke_memory(&mut self, address: u64, width: u64, number: u64) -> Result<(), PokeError> {
        self.machine.poke_memory(address, width, number)
    }

    fn kept_bytes(&self) -> usize {
        self.machine.kept_bytes()
    }

    fn keep(&mut self) -> Result<(), AllocError> {
        self.machine.keep()
    }

    fn restore(&mut self, index: usize) {
        self.machine.restore(index)
    }

    fn forget(&mut self, index: usize) {
        self.machine.forget(index)
    }

    fn forget_after(&mut self, count: usize) {
        self.machine.forget_after(count)
    }
}
