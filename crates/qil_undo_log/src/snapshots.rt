//! A machine, and a clone of it from before each of its moves.

ghost use Rattle.std.specs.Prelude.{◌≡◌, ◌≢◌, ◌-◌, ◌^◌, ◌<◌, ◌↔◌, [], ◌∷◌, ◌++◌, length, take, Ok, Err, OnOk, OnErr, IfErr, None};
ghost use Rattle.qil_semantics.specs.Step.{step_of};
ghost use Rattle.qil_semantics.specs.Timeline.{begun, position, poked};
ghost use Rattle.qil_state.specs.State.{state_of};
ghost use Rattle.qil_state.specs.declared.status.Status.{Status};
ghost use Rattle.qil_undo_log.specs.Cloned.{cloned_timeline};
ghost use Rattle.qil_history.specs.Pokes.{HasWidth, poke_of, Explains};

use qil_code::Slot;
use qil_history::{BackError, History, Poke, SlotHistory, apply_poke, poke_refusal};
use qil_machine::{Machine, MoveError, PokeError, UndoSink};
use std::alloc::{AllocError, Allocator};
use std::marker::Model;

/// A machine, and a clone of it from before each move, the latest last. It is slow and large, and simple: other histories
/// are compared with it.
#[derive(Drop)]
pub struct Snapshots<'c, A: Allocator> {
    machine: Machine<'c, A>,
    clones: Vec<Machine<'c, A>, A>,
}

impl<'c, A: Allocator> Model for Snapshots<'c, A> {
    ghost use Rattle.std.specs.Prelude.{reverse};
    ghost use Rattle.qil_undo_log.specs.Cloned.{Cloned, AllRun};

    ghost Value = { Cloned A };

    ghost view = { λ h. record { machine = h.machine; clones = h.clones.items } };

    ghost invariant = { λ h. AllRun (reverse h.clones.items) h.machine.program };
}

/// Adds a clone of a machine as the latest, if there is memory for it.
fn keep_clone<'c, A: Allocator + Copy>(
    machine: &Machine<'c, A>,
    clones: &mut Vec<Machine<'c, A>, A>,
) -> Result<(), AllocError>
    ensures kept { OnOk result (clones.new.items ≡ clones.old.items ++ machine.now ∷ []) }
    ensures same { OnErr result (clones.new.items ≡ clones.old.items) }
{
    clones.reserve(1)?;
    let clone = machine.try_clone()?;
    clones.keep(clone);
    Ok(())
}

/// Takes the latest clone away.
fn forget_latest<'c, A: Allocator + Copy>(clones: &mut Vec<Machine<'c, A>, A>)
    ensures { clones.new.items ≡ take (length clones.old.items - 1) clones.old.items }
{
    let _ = clones.pop();
}

/// Puts the latest clone in the place of a machine, if there is one.
fn take_latest<'c, A: Allocator + Copy>(
    machine: &mut Machine<'c, A>,
    clones: &mut Vec<Machine<'c, A>, A>,
) -> Result<(), BackError>
    ensures ok { OnOk result (clones.old.items ≡ clones.new.items ++ machine.new ∷ []) }
    ensures start { OnErr result (result ≡ Err BackError.AtStart) }
    ensures none { OnErr result (clones.old.items ≡ []) }
    ensures clones { OnErr result (clones.new.items ≡ clones.old.items) }
    ensures machine { OnErr result (machine.new ≡ machine.old) }
{
    match clones.pop() {
        None => Err(BackError::AtStart),
        Some(clone) => {
            *machine = clone;
            Ok(())
        }
    }
}

/// Makes a step, and keeps nothing of it.
fn step<A: Allocator + Copy>(machine: &mut Machine<'_, A>) -> Result<(), MoveError>
    ensures program { machine.new.program ≡ machine.old.program }
    ensures step { OnOk result (state_of machine.new ≡ step_of machine.old.program (state_of machine.old)) }
    ensures end { (result ≡ Err MoveError.AtEnd) ↔ (machine.old.status ≢ Status.Running) }
    ensures err { OnErr result (machine.new ≡ machine.old) }
{
    match machine.advance() {
        Ok(_) => Ok(()),
        Err(error) => Err(error),
    }
}

/// Pokes, and keeps nothing of it.
fn poke_alone<'c, A: Allocator + Copy>(
    machine: &mut Machine<'c, A>,
    poke: Poke<'_>,
) -> Result<(), PokeError>
    requires { HasWidth poke }
    ensures program { machine.new.program ≡ machine.old.program }
    ensures poke { OnOk result (poke_of machine.old.program (state_of machine.old) poke.entry ≡ Ok (state_of machine.new)) }
    ensures why { IfErr result (Explains (poke_of machine.old.program (state_of machine.old) poke.entry)) }
    ensures err { OnErr result (machine.new ≡ machine.old) }
{
    match apply_poke(machine, poke) {
        Ok(_) => Ok(()),
        Err(error) => Err(error),
    }
}

/// Pokes a machine whose clone is the latest. Where the poke is refused, the clone goes.
fn poke_cloned<'c, A: Allocator + Copy>(
    machine: &mut Machine<'c, A>,
    clones: &mut Vec<Machine<'c, A>, A>,
    poke: Poke<'_>,
) -> Result<(), PokeError>
    requires { HasWidth poke }
    ensures program { machine.new.program ≡ machine.old.program }
    ensures poke { OnOk result (poke_of machine.old.program (state_of machine.old) poke.entry ≡ Ok (state_of machine.new)) }
    ensures kept { OnOk result (clones.new.items ≡ clones.old.items) }
    ensures why { IfErr result (Explains (poke_of machine.old.program (state_of machine.old) poke.entry)) }
    ensures forgotten { OnErr result (clones.new.items ≡ take (length clones.old.items - 1) clones.old.items) }
    ensures err { OnErr result (machine.new ≡ machine.old) }
{
    if let Err(error) = poke_alone(machine, poke) {
        forget_latest(clones);
        return Err(error);
    }
    Ok(())
}

impl<'c, A: Allocator + Copy> Snapshots<'c, A> {
    /// A history that begins at a machine. It takes no memory.
    pub fn new(alloc: A, machine: Machine<'c, A>) -> Snapshots<'c, A>
        ensures program { result.machine.program ≡ machine.entry.program }
        ensures begun { cloned_timeline result ≡ begun None (state_of machine.entry) }
    {
        Snapshots {
            machine,
            clones: Vec::new(alloc),
        }
    }

    /// Pokes, and keeps that as a move. Where there is no memory for a clone, a poke that wasn't refused is undone.
    fn poke(&mut self, poke: Poke<'_>) -> Result<(), PokeError>
        requires before { position (cloned_timeline self.old) < 2 ^ 62 }
        requires width { HasWidth poke }
        ensures program { self.new.machine.program ≡ self.old.machine.program }
        ensures ok { OnOk result (poked (cloned_timeline self.old) (poke_of self.old.machine.program (state_of self.old.machine) poke.entry) ≡ Ok (cloned_timeline self.new)) }
        ensures why { IfErr result (Explains (poke_of self.old.machine.program (state_of self.old.machine) poke.entry)) }
        ensures err { OnErr result (cloned_timeline self.new ≡ cloned_timeline self.old) }
    {
        if keep_clone(&self.machine, &mut self.clones).is_err() {
            return Err(poke_refusal(&mut self.machine, poke));
        }
        poke_cloned(&mut self.machine, &mut self.clones, poke)
    }
}

impl<'c, A: Allocator + Copy> History<A, Machine<'c, A>> for Snapshots<'c, A> {
    ghost program = { λ h. h.machine.program };

    ghost timeline = { cloned_timeline };

    fn forward(&mut self) -> Result<(), MoveError> {
        if self.machine.is_final() {
            return Err(MoveError::AtEnd);
        }
        if keep_clone(&self.machine, &mut self.clones).is_err() {
            return Err(MoveError::OutOfMemory);
        }
        let made = step(&mut self.machine);
        if made.is_err() {
            forget_latest(&mut self.clones);
        }
        made
    }

    fn back(&mut self) -> Result<(), BackError> {
        take_latest(&mut self.machine, &mut self.clones)
    }

    #[tactic(auto, using(qil_history::proofs::PokeLemmas::temp_never_dead))]
    fn poke_named(&mut self, name: &[u8], value: u64) -> Result<(), PokeError> {
        self.poke(Poke::Named(name, value))
    }

    #[tactic(auto, using(qil_history::proofs::PokeLemmas::memory_never_frameless, qil_history::proofs::PokeLemmas::memory_never_unknown))]
    fn poke_memory(&mut self, address: u64, width: u64, number: u64) -> Result<(), PokeError> {
        self.poke(Poke::Bytes(address, width, number))
    }

    #[tactic(auto, using(crate::proofs::CloneLemmas::length_clones))]
    fn position(&self) -> u64 {
        self.clones.len() as u64
    }

    fn oldest(&self) -> u64 {
        0
    }

    fn machine(&self) -> &Machine<'c, A> {
        &self.machine
    }
}

impl<'c, A: Allocator + Copy> SlotHistory<A, Machine<'c, A>> for Snapshots<'c, A> {
    #[tactic(auto, using(qil_history::proofs::PokeLemmas::slot_never_dead))]
    fn poke_temp(&mut self, slot: Slot, value: u64) -> Result<(), PokeError> {
        self.poke(Poke::Slot(slot, value))
    }

    fn keeps(&self) -> Option<u64> {
        None
    }
}
