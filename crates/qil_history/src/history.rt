//! What a history of a machine is: one contract, on the timeline of its whole states.

ghost use Rattle.std.specs.Prelude.{◌≡◌, ◌≢◌, ◌<◌, ◌^◌, ◌↔◌, true, [], ℕ, Some, Ok, Err, OnOk, OnErr};
ghost use Rattle.qil_tree.specs.declared.tree.Program.{Program};
ghost use Rattle.qil_memory.specs.Calls.{IsWidth};
ghost use Rattle.qil_semantics.specs.Poke.{poke_temp, poke_memory, no_frame, unknown_temporary, dead_bytes};
ghost use Rattle.qil_semantics.specs.Timeline.{Timeline, position, oldest, at_end, forward, poked, back};
ghost use Rattle.qil_machine.specs.qil_state.State.{Whole, state_of};
ghost use Rattle.qil_machine.specs.Pokes.{poke_slot};

use qil_machine::{Machine, MoveError, PokeError, Slot};
use std::alloc::Allocator;
use thiserror::Error;

/// Why no move was undone. The history is as it was.
#[derive(Clone, Copy, Debug, Error)]
pub enum BackError {
    /// No move was made.
    #[error("at start")]
    AtStart,
    /// The moves before now are forgotten.
    #[error("at the oldest state")]
    Oldest,
}

/// What a history keeps, seen whole: the clauses of a trait can't name the machine itself.
pub trait HasState<A: Allocator> {
    ghost whole: { Self → Whole A };
}

impl<'c, A: Allocator> HasState<A> for Machine<'c, A> {
    ghost whole = { λ m. m };
}

/// The states of a run, kept in some way: that of the machine now, and those before it, all or the newest. A step and a
/// poke are one move each.
///
/// A user is generic in `H: History<A, Machine<'c, A>>`, under `A: Allocator + 'c`.
pub trait History<A: Allocator, M: HasState<A>> {
    /// What is run. No move changes it.
    ghost program: { Self → Program A };

    ghost timeline: { Self → Timeline };

    /// Makes the step of the state now.
    ///
    /// # Errors
    ///
    /// `AtEnd` where the run is over, and `OutOfMemory`. The history is as it was.
    fn forward(&mut self) -> Result<(), MoveError>
        requires { position (timeline self.old) < 2 ^ 62 }
        ensures program { program self.new ≡ program self.old }
        ensures ok { OnOk result (timeline self.new ≡ forward (program self.old) (timeline self.old)) }
        ensures end { (result ≡ Err MoveError.AtEnd) ↔ (at_end (timeline self.old) ≡ true) }
        ensures err { OnErr result (timeline self.new ≡ timeline self.old) };

    /// Takes the last move back, whichever kind it was. It takes no memory.
    ///
    /// # Errors
    ///
    /// `AtStart` at position 0, and `Oldest` at a later position before which nothing is kept. The history is as it was.
    fn back(&mut self) -> Result<(), BackError>
        ensures program { program self.new ≡ program self.old }
        ensures ok { OnOk result (back (timeline self.old) ≡ Some (timeline self.new)) }
        ensures start { (result ≡ Err BackError.AtStart) ↔ (position (timeline self.old) ≡ 0) }
        ensures oldest { (result ≡ Err BackError.Oldest) ↔ (((timeline self.old).past ≡ []) × (position (timeline self.old) ≢ 0)) }
        ensures err { OnErr result (timeline self.new ≡ timeline self.old) };

    /// Sets a temporary of the innermost frame, whose name is without its sigil, to a number, cut to its class.
    ///
    /// # Errors
    ///
    /// `NoFrame` where the run is done, `UnknownTemporary` where the innermost function has no such temporary, and
    /// `OutOfMemory`. The history is as it was.
    fn poke_named(&mut self, name: &[u8], value: u64) -> Result<(), PokeError>
        requires { position (timeline self.old) < 2 ^ 62 }
        ensures program { program self.new ≡ program self.old }
        ensures ok { OnOk result (poked (timeline self.old) (poke_temp (program self.old) (timeline self.old).now name.now value) ≡ Ok (timeline self.new)) }
        ensures frame { (result ≡ Err PokeError.NoFrame) ↔ (poke_temp (program self.old) (timeline self.old).now name.now value ≡ Err no_frame) }
        ensures unknown { (result ≡ Err PokeError.UnknownTemporary) ↔ (poke_temp (program self.old) (timeline self.old).now name.now value ≡ Err unknown_temporary) }
        ensures live { result ≢ Err PokeError.DeadAddress }
        ensures err { OnErr result (timeline self.new ≡ timeline self.old) };

    /// Sets 1, 2, 4 or 8 bytes of memory to the low bytes of a number.
    ///
    /// # Errors
    ///
    /// `DeadAddress` where not all of them are live, and `OutOfMemory`. The history is as it was.
    fn poke_memory(&mut self, address: u64, width: u64, number: u64) -> Result<(), PokeError>
        requires before { position (timeline self.old) < 2 ^ 62 }
        requires width { IsWidth width }
        ensures program { program self.new ≡ program self.old }
        ensures ok { OnOk result (poked (timeline self.old) (poke_memory (timeline self.old).now address width number) ≡ Ok (timeline self.new)) }
        ensures dead { (result ≡ Err PokeError.DeadAddress) ↔ (poke_memory (timeline self.old).now address width number ≡ Err dead_bytes) }
        ensures frame { result ≢ Err PokeError.NoFrame }
        ensures known { result ≢ Err PokeError.UnknownTemporary }
        ensures err { OnErr result (timeline self.new ≡ timeline self.old) };

    /// How many moves were made since the start.
    fn position(&self) -> u64
        ensures { result ≡ position (timeline self.now) };

    /// The position of the oldest state that is kept.
    fn oldest(&self) -> u64
        ensures { result ≡ oldest (timeline self.now) };

    /// The machine now.
    fn machine(&self) -> &M
        ensures now { state_of (M.whole result.now) ≡ (timeline self.now).now }
        ensures program { (M.whole result.now).program ≡ program self.now };
}

/// What a history of machines offers beside its moves. Nothing that is generic in a history calls it, and so it stands apart: where
/// a history becomes known, all that its bounds promise is compared.
pub trait SlotHistory<A: Allocator, M: HasState<A>>: History<A, M> {
    /// Sets a temporary of the innermost frame to a number, cut to its class.
    ///
    /// # Errors
    ///
    /// `NoFrame` where the run is done, `UnknownTemporary` where the innermost function has no such slot, and
    /// `OutOfMemory`. The history is as it was.
    fn poke_temp(&mut self, slot: Slot, value: u64) -> Result<(), PokeError>
        requires { position (Self.timeline self.old) < 2 ^ 62 }
        ensures program { Self.program self.new ≡ Self.program self.old }
        ensures ok { OnOk result (poked (Self.timeline self.old) (poke_slot (Self.program self.old) (Self.timeline self.old).now slot value) ≡ Ok (Self.timeline self.new)) }
        ensures frame { (result ≡ Err PokeError.NoFrame) ↔ (poke_slot (Self.program self.old) (Self.timeline self.old).now slot value ≡ Err no_frame) }
        ensures unknown { (result ≡ Err PokeError.UnknownTemporary) ↔ (poke_slot (Self.program self.old) (Self.timeline self.old).now slot value ≡ Err unknown_temporary) }
        ensures live { result ≢ Err PokeError.DeadAddress }
        ensures err { OnErr result (Self.timeline self.new ≡ Self.timeline self.old) };

    /// How many moves are kept at most, if there is a bound.
    fn keeps(&self) -> Option<u64>
        ensures { result ≡ (Self.timeline self.now).keeps };
}

/// The machine of a history. Runs ask for it by this and not by the trait's call, which makes the check of each function dear that
/// has it.
#[inline(always)]
pub fn machine_of<'c, A: Allocator + Copy + 'c, H: History<A, Machine<'c, A>>>(
    history: &H,
) -> &Machine<'c, A>
    ensures now { state_of result.now ≡ (H.timeline history.now).now }
    ensures program { result.now.program ≡ H.program history.now }
{
    history.machine()
}
