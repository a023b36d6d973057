//! A machine, and the undo records of all its moves.

ghost use Rattle.std.specs.Prelude.{◌≡◌, ◌≢◌, ◌+◌, ◌≤◌, ◌^◌, ◌<◌, ◌↔◌, true, [], Some, Ok, Err, OnOk, OnErr, IfErr, None};
ghost use Rattle.qil_memory.specs.Calls.{IsWidth};
ghost use Rattle.qil_semantics.specs.Cost.{cost_of, temp_poke_cost, bytes_poke_cost};
ghost use Rattle.qil_semantics.specs.Poke.{poke_temp, poke_memory, no_frame, unknown_temporary, dead_bytes};
ghost use Rattle.qil_semantics.specs.Timeline.{begun, position, at_end, forward, poked, back};
ghost use Rattle.qil_state.specs.State.{state_of};
ghost use Rattle.qil_machine.specs.Pokes.{poke_slot};
ghost use Rattle.qil_undo_log.specs.Kept.{moved_timeline};
ghost use Rattle.qil_history.specs.Pokes.{HasWidth, poke_of, poke_cost, Explains};
ghost use Rattle.qil_undo_log.specs.Weights.{total, TakesLatestOff};

use qil_code::Slot;
use qil_history::{BackError, History, Poke, SlotHistory, apply_poke, poke_refusal};
use qil_machine::{Machine, MoveError, PokeError, UndoRecord, UndoSink};
use std::alloc::Allocator;
use std::marker::Model;

/// A machine, and the undo record of each of its moves, the latest last. The list grows by doubling, so that nearly no move takes
/// memory for it; each step and each poke may be out of memory there, a step also where the machine's own may. A move back
/// never is.
#[derive(Drop)]
pub struct UndoLog<'c, A: Allocator> {
    machine: Machine<'c, A>,
    records: Vec<UndoRecord<A>, A>,
}

impl<'c, A: Allocator> Model for UndoLog<'c, A> {
    ghost use Rattle.std.specs.Prelude.{reverse};
    ghost use Rattle.qil_undo_log.specs.Kept.{Moved, AllFit};

    ghost Value = { Moved A };

    ghost view = { λ h. record { machine = h.machine; records = h.records.items } };

    ghost invariant = { λ h. AllFit (reverse h.records.items) h.machine };
}

impl<'c, A: Allocator + Copy> UndoLog<'c, A> {
    /// A history that begins at a machine. It takes no memory.
    pub fn new(alloc: A, machine: Machine<'c, A>) -> UndoLog<'c, A>
        ensures program { result.machine.program ≡ machine.entry.program }
        ensures begun { moved_timeline result ≡ begun None (state_of machine.entry) }
        ensures empty { result.records ≡ [] }
    {
        UndoLog {
            machine,
            records: Vec::new(alloc),
        }
    }

    /// The machine, and the undo record of each move, the latest last. There is nothing else: with one more field the pattern here
    /// isn't accepted.
    pub fn parts(&self) -> (&Machine<'c, A>, &[UndoRecord<A>])
        ensures machine { result.0.now ≡ self.now.machine }
        ensures records { result.1.now ≡ self.now.records }
    {
        let UndoLog { machine, records } = self;
        let machine: &Machine<'c, A> = machine;
        let records: &Vec<UndoRecord<A>, A> = records;
        (machine, records.as_slice())
    }

    /// Pokes, and keeps that as a move. Where there is no room for its undo record, a poke that wasn't refused is undone.
    fn poke(&mut self, poke: Poke<'_>) -> Result<(), PokeError>
        requires before { position (moved_timeline self.old) < 2 ^ 62 }
        requires width { HasWidth poke }
        ensures program { self.new.machine.program ≡ self.old.machine.program }
        ensures ok { OnOk result (poked (moved_timeline self.old) (poke_of self.old.machine.program (state_of self.old.machine) poke.entry) ≡ Ok (moved_timeline self.new)) }
        ensures why { IfErr result (Explains (poke_of self.old.machine.program (state_of self.old.machine) poke.entry)) }
        ensures err { OnErr result (moved_timeline self.new ≡ moved_timeline self.old) }
        ensures cost { OnOk result (total self.new.records ≤ total self.old.records + poke_cost poke.entry) }
        ensures kept { OnErr result (self.new.records ≡ self.old.records) }
    {
        if self.records.reserve(1).is_err() {
            return Err(poke_refusal(&mut self.machine, poke));
        }
        let undo_record = apply_poke(&mut self.machine, poke)?;
        self.records.keep(undo_record);
        Ok(())
    }
}

/// Clauses here take the place of the contract's, so they say those again, and next to them what each call does to the undo records.
impl<'c, A: Allocator + Copy> History<A, Machine<'c, A>> for UndoLog<'c, A> {
    ghost program = { λ h. h.machine.program };

    ghost timeline = { moved_timeline };

    #[inline(always)]
    fn forward(&mut self) -> Result<(), MoveError>
        requires { position (moved_timeline self.old) < 2 ^ 62 }
        ensures program { self.new.machine.program ≡ self.old.machine.program }
        ensures ok { OnOk result (moved_timeline self.new ≡ forward self.old.machine.program (moved_timeline self.old)) }
        ensures end { (result ≡ Err MoveError.AtEnd) ↔ (at_end (moved_timeline self.old) ≡ true) }
        ensures err { OnErr result (moved_timeline self.new ≡ moved_timeline self.old) }
        ensures cost { OnOk result (total self.new.records ≤ total self.old.records + cost_of self.old.machine.program (state_of self.old.machine)) }
        ensures kept { OnErr result (self.new.records ≡ self.old.records) }
    {
        if self.records.reserve(1).is_err() {
            return Err(if self.machine.is_final() {
                MoveError::AtEnd
            } else {
                MoveError::OutOfMemory
            });
        }
        self.machine.advance_into(&mut self.records)
    }

    #[inline(always)]
    fn back(&mut self) -> Result<(), BackError>
        ensures program { self.new.machine.program ≡ self.old.machine.program }
        ensures ok { OnOk result (back (moved_timeline self.old) ≡ Some (moved_timeline self.new)) }
        ensures start { (result ≡ Err BackError.AtStart) ↔ (position (moved_timeline self.old) ≡ 0) }
        ensures oldest { (result ≡ Err BackError.Oldest) ↔ (((moved_timeline self.old).past ≡ []) × (position (moved_timeline self.old) ≢ 0)) }
        ensures err { OnErr result (moved_timeline self.new ≡ moved_timeline self.old) }
        ensures weight { OnOk result (TakesLatestOff self.old.records self.new.records) }
        ensures kept { OnErr result (self.new.records ≡ self.old.records) }
    {
        match self.records.pop() {
            None => Err(BackError::AtStart),
            Some(undo_record) => {
                self.machine.undo(undo_record);
                Ok(())
            }
        }
    }

    #[tactic(auto, using(qil_history::proofs::PokeLemmas::temp_never_dead))]
    fn poke_named(&mut self, name: &[u8], value: u64) -> Result<(), PokeError>
        requires { position (moved_timeline self.old) < 2 ^ 62 }
        ensures program { self.new.machine.program ≡ self.old.machine.program }
        ensures ok { OnOk result (poked (moved_timeline self.old) (poke_temp self.old.machine.program (state_of self.old.machine) name.now value) ≡ Ok (moved_timeline self.new)) }
        ensures frame { (result ≡ Err PokeError.NoFrame) ↔ (poke_temp self.old.machine.program (state_of self.old.machine) name.now value ≡ Err no_frame) }
        ensures unknown { (result ≡ Err PokeError.UnknownTemporary) ↔ (poke_temp self.old.machine.program (state_of self.old.machine) name.now value ≡ Err unknown_temporary) }
        ensures live { result ≢ Err PokeError.DeadAddress }
        ensures err { OnErr result (moved_timeline self.new ≡ moved_timeline self.old) }
        ensures cost { OnOk result (total self.new.records ≤ total self.old.records + temp_poke_cost) }
        ensures kept { OnErr result (self.new.records ≡ self.old.records) }
    {
        self.poke(Poke::Named(name, value))
    }

    #[tactic(auto, using(qil_history::proofs::PokeLemmas::memory_never_frameless, qil_history::proofs::PokeLemmas::memory_never_unknown))]
    fn poke_memory(&mut self, address: u64, width: u64, number: u64) -> Result<(), PokeError>
        requires before { position (moved_timeline self.old) < 2 ^ 62 }
        requires width { IsWidth width }
        ensures program { self.new.machine.program ≡ self.old.machine.program }
        ensures ok { OnOk result (poked (moved_timeline self.old) (poke_memory (state_of self.old.machine) address width number) ≡ Ok (moved_timeline self.new)) }
        ensures dead { (result ≡ Err PokeError.DeadAddress) ↔ (poke_memory (state_of self.old.machine) address width number ≡ Err dead_bytes) }
        ensures frame { result ≢ Err PokeError.NoFrame }
        ensures known { result ≢ Err PokeError.UnknownTemporary }
        ensures err { OnErr result (moved_timeline self.new ≡ moved_timeline self.old) }
        ensures cost { OnOk result (total self.new.records ≤ total self.old.records + bytes_poke_cost width) }
        ensures kept { OnErr result (self.new.records ≡ self.old.records) }
    {
        self.poke(Poke::Bytes(address, width, number))
    }

    #[tactic(auto, using(crate::proofs::KeptLemmas::length_before))]
    fn position(&self) -> u64 {
        self.records.len() as u64
    }

    fn oldest(&self) -> u64 {
        0
    }

    fn machine(&self) -> &Machine<'c, A>
        ensures same { result.now ≡ self.now.machine }
        ensures now { state_of result.now ≡ (moved_timeline self.now).now }
        ensures program { result.now.program ≡ self.now.machine.program }
    {
        &self.machine
    }
}

impl<'c, A: Allocator + Copy> SlotHistory<A, Machine<'c, A>> for UndoLog<'c, A> {
    #[tactic(auto, using(qil_history::proofs::PokeLemmas::slot_never_dead))]
    fn poke_temp(&mut self, slot: Slot, value: u64) -> Result<(), PokeError>
        requires { position (moved_timeline self.old) < 2 ^ 62 }
        ensures program { self.new.machine.program ≡ self.old.machine.program }
        ensures ok { OnOk result (poked (moved_timeline self.old) (poke_slot self.old.machine.program (state_of self.old.machine) slot value) ≡ Ok (moved_timeline self.new)) }
        ensures frame { (result ≡ Err PokeError.NoFrame) ↔ (poke_slot self.old.machine.program (state_of self.old.machine) slot value ≡ Err no_frame) }
        ensures unknown { (result ≡ Err PokeError.UnknownTemporary) ↔ (poke_slot self.old.machine.program (state_of self.old.machine) slot value ≡ Err unknown_temporary) }
        ensures live { result ≢ Err PokeError.DeadAddress }
        ensures err { OnErr result (moved_timeline self.new ≡ moved_timeline self.old) }
        ensures cost { OnOk result (total self.new.records ≤ total self.old.records + temp_poke_cost) }
        ensures kept { OnErr result (self.new.records ≡ self.old.records) }
    {
        self.poke(Poke::Slot(slot, value))
    }

    fn keeps(&self) -> Option<u64> {
        None
    }
}
