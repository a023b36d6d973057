//! Pokes: bytes of memory, or one temporary of the innermost frame, are replaced. Place and status stay.

ghost use Rattle.std.specs.Prelude.{◌≡◌, ◌≤◌, ℕ, List, Some, Ok, Err, IfOk, IfErr, OnOk, OnErr, slice_get};
ghost use Rattle.qil_memory.specs.Calls.{IsWidth};
ghost use Rattle.qil_semantics.specs.Poke.{poke_memory, poke_temp, dead_bytes};
ghost use Rattle.qil_semantics.specs.Cost.{temp_poke_cost, bytes_poke_cost};
ghost use Rattle.qil_state.specs.State.{state_of, head_names};
ghost use Rattle.qil_frames.specs.Frames.{HasSlot};
ghost use Rattle.qil_machine.specs.Moves.{weight};
ghost use Rattle.qil_machine.specs.Places.{Made};
ghost use Rattle.qil_machine.specs.Pokes.{IsOfClass, Refuses, RefusesName, RefusesSlot, names_by_slot, poke_slot};

use crate::error::PokeError;
use crate::machine::Machine;
use crate::undo_record::UndoRecord;
use qil_code::Slot;
use qil_ops::unary;
use qil_tree::{Class, UnaryOp};
use std::alloc::Allocator;

impl<'c, A: Allocator + Copy> Machine<'c, A> {
    /// Replaces 1, 2, 4 or 8 bytes of memory by the low bytes of a number. It takes no memory.
    ///
    /// # Errors
    ///
    /// `DeadAddress` where not all of them are live.
    pub fn poke_memory(
        &mut self,
        address: u64,
        width: u64,
        number: u64,
    ) -> Result<UndoRecord<A>, PokeError>
        requires { IsWidth width }
        ensures poke { OnOk result (poke_memory (state_of self.old) address width number ≡ Ok (state_of self.new)) }
        ensures made { IfOk result (λ d. Made d self.old self.new) }
        ensures cost { IfOk result (λ d. weight d ≤ bytes_poke_cost width) }
        ensures dead { IfErr result (λ e. (e ≡ PokeError.DeadAddress) × (poke_memory (state_of self.old) address width number ≡ Err dead_bytes)) }
        ensures err { OnErr result (self.new ≡ self.old) }
    {
        let old = match self.memory.exchange(address, width, number) {
            Ok(old) => old,
            Err(_) => return Err(PokeError::DeadAddress),
        };
        Ok(UndoRecord::poked_bytes(width as u8, address as u32, old))
    }
    /// Replaces a temporary of the innermost frame by a number, cut to its class. It takes no memory.
    ///
    /// # Errors
    ///
    /// `NoFrame` where the run is done, `UnknownTemporary` where the innermost function has no such slot.
    pub fn poke_temp(&mut self, slot: Slot, value: u64) -> Result<UndoRecord<A>, PokeError>
        ensures slot { OnOk result (HasSlot self.old.frames slot) }
        ensures poke { (name : List ℕ) → slice_get (head_names self.old.program self.old.frames) slot.index ≡ Some name → OnOk result (poke_temp self.old.program (state_of self.old) name value ≡ Ok (state_of self.new)) }
        ensures by_slot { OnOk result (poke_slot self.old.program (state_of self.old) slot value ≡ Ok (state_of self.new)) }
        ensures made { IfOk result (λ d. Made d self.old self.new) }
        ensures cost { IfOk result (λ d. weight d ≤ temp_poke_cost) }
        ensures why { IfErr result (Refuses self.old slot) }
        ensures refuses { IfErr result (RefusesSlot self.old slot value) }
        ensures err { OnErr result (self.new ≡ self.old) }
    {
        let class = self.class_here(slot)?;
        let old = self
            .frames
            .set(slot, Some(unary(UnaryOp::Copy, class, value)));
        Ok(UndoRecord::poked_slot(slot, old))
    }

    /// Replaces a temporary of the innermost frame, whose name is without its sigil, as `poke_temp` does.
    ///
    /// # Errors
    ///
    /// `NoFrame` where the run is done, `UnknownTemporary` where the innermost function has no such temporary.
    pub fn poke_named(&mut self, name: &[u8], value: u64) -> Result<UndoRecord<A>, PokeError>
        ensures poke { OnOk result (poke_temp self.old.program (state_of self.old) name.now value ≡ Ok (state_of self.new)) }
        ensures made { IfOk result (λ d. Made d self.old self.new) }
        ensures cost { IfOk result (λ d. weight d ≤ temp_poke_cost) }
        ensures why { IfErr result (RefusesName self.old name.now value) }
        ensures err { OnErr result (self.new ≡ self.old) }
    {
        match self.slot_here(name) {
            Ok(slot) => self.poke_temp(slot, value),
            Err(error) => Err(error),
        }
    }

    /// The slot of a temporary of the innermost frame.
    fn slot_here(&self, name: &[u8]) -> Result<Slot, PokeError>
        ensures slot { IfOk result (λ slot. HasSlot self.now.frames slot × (slice_get (head_names self.now.program self.now.frames) slot.index ≡ Some name.now)) }
        ensures why { (value : ℕ) → IfErr result (RefusesName self.now name.now value) }
    {
        if self.frames.depth() == 0 {
            return Err(PokeError::NoFrame);
        }
        let func = self.frames.innermost().func();
        match self.code.slot_of(func, name) {
            Some(slot) => Ok(slot),
            None => Err(PokeError::UnknownTemporary),
        }
    }

    /// The class of what a slot of the innermost frame holds.
    fn class_here(&self, slot: Slot) -> Result<Class, PokeError>
        ensures class { IfOk result (IsOfClass self.now slot) }
        ensures names { names_by_slot self.now.program (state_of self.now).frames ≡ head_names self.now.program self.now.frames }
        ensures why { IfErr result (Refuses self.now slot) }
    {
        if self.frames.depth() == 0 {
            return Err(PokeError::NoFrame);
        }
        let func = self.frames.innermost().func();
        match self.code.class_of(func, slot) {
            Some(class) => Ok(class),
            None => Err(PokeError::UnknownTemporary),
        }
    }
}
