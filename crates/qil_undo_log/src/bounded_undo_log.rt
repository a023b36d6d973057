//! A machine, and the undo records of its newest moves.

ghost use Rattle.std.specs.Prelude.{◌≡◌, ◌≢◌, ◌+◌, ◌≤◌, ◌^◌, ◌<◌, ◌↔◌, true, [], Ok, Err, IfOk, IfErr, OnOk, OnErr, Some};
ghost use Rattle.qil_memory.specs.Calls.{IsWidth};
ghost use Rattle.qil_semantics.specs.Cost.{cost_of, temp_poke_cost, bytes_poke_cost};
ghost use Rattle.qil_semantics.specs.Poke.{poke_temp, poke_memory, no_frame, unknown_temporary, dead_bytes};
ghost use Rattle.qil_semantics.specs.Timeline.{begun, position, at_end, forward, poked, back};
ghost use Rattle.qil_state.specs.State.{state_of};
ghost use Rattle.qil_machine.specs.Moves.{undone, Fits};
ghost use Rattle.qil_machine.specs.Pokes.{poke_slot};
ghost use Rattle.qil_machine.specs.Steps.{StepTakes};
ghost use Rattle.qil_undo_log.specs.Kept.{recent_timeline};
ghost use Rattle.qil_history.specs.Pokes.{HasWidth, poke_of, poke_cost, Explains};
ghost use Rattle.qil_undo_log.specs.Weights.{total, TakesLatestOff};

use crate::newest::{Newest, take_latest};
use circular_buffer::HeapCircularBuffer;
use qil_code::Slot;
use qil_history::{BackError, History, Poke, SlotHistory, apply_poke};
use qil_machine::{Frame, Machine, MoveError, PokeError, UndoRecord, UndoSink};
use std::alloc::{AllocError, Allocator};
use std::marker::Model;

/// A machine, and the undo records of its newest moves, the latest last. Their block is taken when the history is made: a step may
/// be out of memory where the machine's own may, a poke and a move back never.
#[derive(Drop)]
pub struct BoundedUndoLog<'c, A: Allocator> {
    machine: Machine<'c, A>,
    newest: Newest<A>,
}

impl<'c, A: Allocator> Model for BoundedUndoLog<'c, A> {
    ghost use Rattle.qil_undo_log.specs.Kept.{Recent, recent, IsRecent};

    ghost Value = { Recent A };

    ghost view = { λ h. recent h.machine h.newest.records.items h.newest.forgotten h.newest.records.capacity };

    ghost invariant = { λ h. IsRecent (recent h.machine h.newest.records.items h.newest.forgotten h.newest.records.capacity) };
}

/// Puts back what the latest move kept.
#[inline(always)]
fn undo_latest<A: Allocator + Copy>(machine: &mut Machine<'_, A>, latest: UndoRecord<A>)
    requires { Fits latest machine.old }
    ensures { machine.new ≡ undone latest machine.old }
{
    machine.undo(latest);
}

/// Gives the machine the frame that went, if one did.
#[inline(always)]
fn give_back<A: Allocator + Copy>(machine: &mut Machine<'_, A>, spare: &mut Option<Frame<A>>)
    ensures { machine.new ≡ machine.old }
{
    if let Some(frame) = spare.take() {
        machine.recycle(frame);
    }
}

impl<'c, A: Allocator + Copy> BoundedUndoLog<'c, A> {
    /// A history that begins at a machine and keeps so many moves, in a block that it takes here. It may keep none.
    ///
    /// # Errors
    ///
    /// The machine, where there is no memory for the block.
    pub fn new(
        alloc: A,
        machine: Machine<'c, A>,
        bound: u64,
    ) -> Result<BoundedUndoLog<'c, A>, (Machine<'c, A>, AllocError)>
        requires { bound ≤ 1000000 }
        ensures program { IfOk result (λ h. h.machine.program ≡ machine.entry.program) }
        ensures begun { IfOk result (λ h. recent_timeline h ≡ begun (Some bound) (state_of machine.entry)) }
        ensures empty { IfOk result (λ h. h.records ≡ []) }
        ensures machine { IfErr result (λ e. e.0 ≡ machine.entry) }
    {
        match HeapCircularBuffer::with_capacity(alloc, bound as usize) {
            Ok(records) => Ok(BoundedUndoLog {
                machine,
                newest: Newest {
                    records,
                    forgotten: 0,
                    spare: None,
                },
            }),
            Err(error) => Err((machine, error)),
        }
    }

    /// Pokes, and keeps that as a move. It takes no memory.
    fn poke(&mut self, poke: Poke<'_>) -> Result<(), PokeError>
        requires before { position (recent_timeline self.old) < 2 ^ 62 }
        requires width { HasWidth poke }
        ensures program { self.new.machine.program ≡ self.old.machine.program }
        ensures ok { OnOk result (poked (recent_timeline self.old) (poke_of self.old.machine.program (state_of self.old.machine) poke.entry) ≡ Ok (recent_timeline self.new)) }
        ensures why { IfErr result (Explains (poke_of self.old.machine.program (state_of self.old.machine) poke.entry)) }
        ensures err { OnErr result (recent_timeline self.new ≡ recent_timeline self.old) }
        ensures memory { result ≢ Err PokeError.OutOfMemory }
        ensures cost { OnOk result (total self.new.records ≤ total self.old.records + poke_cost poke.entry) }
        ensures kept { OnErr result (self.new.records ≡ self.old.records) }
    {
        let undo_record = apply_poke(&mut self.machine, poke)?;
        self.newest.keep(undo_record);
        Ok(())
    }
}

/// Clauses here take the place of the contract's, so they say those again, and next to them what each call does to the undo records.
impl<'c, A: Allocator + Copy> History<A, Machine<'c, A>> for BoundedUndoLog<'c, A> {
    ghost program = { λ h. h.machine.program };

    ghost timeline = { recent_timeline };

    #[inline(always)]
    fn forward(&mut self) -> Result<(), MoveError>
        requires { position (recent_timeline self.old) < 2 ^ 62 }
        ensures program { self.new.machine.program ≡ self.old.machine.program }
        ensures ok { OnOk result (recent_timeline self.new ≡ forward self.old.machine.program (recent_timeline self.old)) }
        ensures end { (result ≡ Err MoveError.AtEnd) ↔ (at_end (recent_timeline self.old) ≡ true) }
        ensures err { OnErr result (recent_timeline self.new ≡ recent_timeline self.old) }
        ensures memory { (result ≡ Err MoveError.OutOfMemory) → StepTakes self.old.machine.program self.old.machine.frames }
        ensures cost { OnOk result (total self.new.records ≤ total self.old.records + cost_of self.old.machine.program (state_of self.old.machine)) }
        ensures kept { OnErr result (self.new.records ≡ self.old.records) }
    {
        let moved = self.machine.advance_into(&mut self.newest);
        give_back(&mut self.machine, &mut self.newest.spare);
        moved
    }

    #[inline(always)]
    fn back(&mut self) -> Result<(), BackError>
        ensures program { self.new.machine.program ≡ self.old.machine.program }
        ensures ok { OnOk result (back (recent_timeline self.old) ≡ Some (recent_timeline self.new)) }
        ensures start { (result ≡ Err BackError.AtStart) ↔ (position (recent_timeline self.old) ≡ 0) }
        ensures oldest { (result ≡ Err BackError.Oldest) ↔ (((recent_timeline self.old).past ≡ []) × (position (recent_timeline self.old) ≢ 0)) }
        ensures err { OnErr result (recent_timeline self.new ≡ recent_timeline self.old) }
        ensures weight { OnOk result (TakesLatestOff self.old.records self.new.records) }
        ensures kept { OnErr result (self.new.records ≡ self.old.records) }
    {
        match take_latest(&mut self.newest.records) {
            Some(undo_record) => {
                undo_latest(&mut self.machine, undo_record);
                Ok(())
            }
            None => Err(if self.newest.forgotten == 0 {
                BackError::AtStart
            } else {
                BackError::Oldest
            }),
        }
    }

    #[tactic(auto, using(qil_history::proofs::PokeLemmas::temp_never_dead))]
    fn poke_named(&mut self, name: &[u8], value: u64) -> Result<(), PokeError>
        requires { position (recent_timeline self.old) < 2 ^ 62 }
        ensures program { self.new.machine.program ≡ self.old.machine.program }
        ensures ok { OnOk result (poked (recent_timeline self.old) (poke_temp self.old.machine.program (state_of self.old.machine) name.now value) ≡ Ok (recent_timeline self.new)) }
        ensures frame { (result ≡ Err PokeError.NoFrame) ↔ (poke_temp self.old.machine.program (state_of self.old.machine) name.now value ≡ Err no_frame) }
        ensures unknown { (result ≡ Err PokeError.UnknownTemporary) ↔ (poke_temp self.old.machine.program (state_of self.old.machine) name.now value ≡ Err unknown_temporary) }
        ensures live { result ≢ Err PokeError.DeadAddress }
        ensures err { OnErr result (recent_timeline self.new ≡ recent_timeline self.old) }
        ensures memory { result ≢ Err PokeError.OutOfMemory }
        ensures cost { OnOk result (total self.new.records ≤ total self.old.records + temp_poke_cost) }
        ensures kept { OnErr result (self.new.records ≡ self.old.records) }
    {
        self.poke(Poke::Named(name, value))
    }

    #[tactic(auto, using(qil_history::proofs::PokeLemmas::memory_never_frameless, qil_history::proofs::PokeLemmas::memory_never_unknown))]
    fn poke_memory(&mut self, address: u64, width: u64, number: u64) -> Result<(), PokeError>
        requires before { position (recent_timeline self.old) < 2 ^ 62 }
        requires width { IsWidth width }
        ensures program { self.new.machine.program ≡ self.old.machine.program }
        ensures ok { OnOk result (poked (recent_timeline self.old) (poke_memory (state_of self.old.machine) address width number) ≡ Ok (recent_timeline self.new)) }
        ensures dead { (result ≡ Err PokeError.DeadAddress) ↔ (poke_memory (state_of self.old.machine) address width number ≡ Err dead_bytes) }
        ensures frame { result ≢ Err PokeError.NoFrame }
        ensures known { result ≢ Err PokeError.UnknownTemporary }
        ensures err { OnErr result (recent_timeline self.new ≡ recent_timeline self.old) }
        ensures memory { result ≢ Err PokeError.OutOfMemory }
        ensures cost { OnOk result (total self.new.records ≤ total self.old.records + bytes_poke_cost width) }
        ensures kept { OnErr result (self.new.records ≡ self.old.records) }
    {
        self.poke(Poke::Bytes(address, width, number))
    }

    #[tactic(auto, using(crate::proofs::KeptLemmas::length_before))]
    fn position(&self) -> u64 {
        self.newest.forgotten + self.newest.records.len() as u64
    }

    fn oldest(&self) -> u64 {
        self.newest.forgotten
    }

    fn machine(&self) -> &Machine<'c, A>
        ensures same { result.now ≡ self.now.machine }
        ensures now { state_of result.now ≡ (recent_timeline self.now).now }
        ensures program { result.now.program ≡ self.now.machine.program }
    {
        &self.machine
    }
}

impl<'c, A: Allocator + Copy> SlotHistory<A, Machine<'c, A>> for BoundedUndoLog<'c, A> {
    #[tactic(auto, using(qil_history::proofs::PokeLemmas::slot_never_dead))]
    fn poke_temp(&mut self, slot: Slot, value: u64) -> Result<(), PokeError>
        requires { position (recent_timeline self.old) < 2 ^ 62 }
        ensures program { self.new.machine.program ≡ self.old.machine.program }
        ensures ok { OnOk result (poked (recent_timeline self.old) (poke_slot self.old.machine.program (state_of self.old.machine) slot value) ≡ Ok (recent_timeline self.new)) }
        ensures frame { (result ≡ Err PokeError.NoFrame) ↔ (poke_slot self.old.machine.program (state_of self.old.machine) slot value ≡ Err no_frame) }
        ensures unknown { (result ≡ Err PokeError.UnknownTemporary) ↔ (poke_slot self.old.machine.program (state_of self.old.machine) slot value ≡ Err unknown_temporary) }
        ensures live { result ≢ Err PokeError.DeadAddress }
        ensures err { OnErr result (recent_timeline self.new ≡ recent_timeline self.old) }
        ensures memory { result ≢ Err PokeError.OutOfMemory }
        ensures cost { OnOk result (total self.new.records ≤ total self.old.records + temp_poke_cost) }
        ensures kept { OnErr result (self.new.records ≡ self.old.records) }
    {
        self.poke(Poke::Slot(slot, value))
    }

    fn keeps(&self) -> Option<u64> {
        Some(self.newest.records.capacity() as u64)
    }
}
