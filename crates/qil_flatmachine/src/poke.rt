//! Pokes: bytes of memory, or one temporary of the innermost frame, are replaced. Place and status stay, and no memory is
//! taken.

ghost use Rattle.std.specs.Prelude.{◌≡◌, ℕ, [], Some, Ok, Err, IfOk, IfErr, OnOk, OnErr, option_map, slice_get};
ghost use Rattle.qil_memory.specs.Calls.{IsWidth};
ghost use Rattle.qil_semantics.specs.Poke.{poke_memory, poke_temp, dead_bytes};
ghost use Rattle.qil_state.specs.State.{state_of};
ghost use Rattle.qil_machine.specs.Pokes.{IsOfClass, Refuses, RefusesName, RefusesSlot, poke_slot};

use crate::machine::FlatMachine;
use qil_code::Slot;
use qil_layout::FuncId;
use qil_machine::PokeError;
use qil_ops::unary;
use qil_tree::{Class, UnaryOp};
use std::alloc::Allocator;

impl<'c, A: Allocator + Copy> FlatMachine<'c, A> {
    /// Replaces 1, 2, 4 or 8 bytes of memory by the low bytes of a number.
    ///
    /// # Errors
    ///
    /// `DeadAddress` where not all of them are live.
    pub fn poke_memory(&mut self, address: u64, width: u64, number: u64) -> Result<(), PokeError>
        requires { IsWidth width }
        ensures base { self.new.base ≡ self.old.base }
        ensures program { self.new.whole.program ≡ self.old.whole.program }
        ensures ok { OnOk result (poke_memory (state_of self.old.whole) address width number ≡ Ok (state_of self.new.whole)) }
        ensures dead { IfErr result (λ e. (e ≡ PokeError.DeadAddress) × (poke_memory (state_of self.old.whole) address width number ≡ Err dead_bytes)) }
        ensures err { OnErr result (self.new ≡ self.old) }
    {
        match self.memory.exchange(address, width, number) {
            Ok(_) => {}
            Err(_) => return Err(PokeError::DeadAddress),
        }
        Ok(())
    }

    /// Replaces what a slot of the innermost frame holds by a number, cut to the class of its temporary.
    ///
    /// # Errors
    ///
    /// `NoFrame` where the run is done, `UnknownTemporary` where the innermost function has no such slot.
    pub fn poke_slot(&mut self, slot: Slot, value: u64) -> Result<(), PokeError>
        ensures base { self.new.base ≡ self.old.base }
        ensures program { self.new.whole.program ≡ self.old.whole.program }
        ensures ok { OnOk result (poke_slot self.old.whole.program (state_of self.old.whole) slot value ≡ Ok (state_of self.new.whole)) }
        ensures why { IfErr result (RefusesSlot self.old.whole slot value) }
        ensures err { OnErr result (self.new ≡ self.old) }
    {
        let class = self.class_here(slot)?;
        self.calls
            .set(slot, Some(unary(UnaryOp::Copy, class, value)));
        Ok(())
    }

    /// The slot of a temporary of the innermost frame, whose name is without its sigil.
    ///
    /// # Errors
    ///
    /// `NoFrame` where the run is done, `UnknownTemporary` where the innermost function has no such temporary.
    pub fn slot_named(&self, name: &[u8]) -> Result<Slot, PokeError>
        ensures ok { (value : ℕ) → IfOk result (λ slot. poke_slot self.now.whole.program (state_of self.now.whole) slot value ≡ poke_temp self.now.whole.program (state_of self.now.whole) name.now value) }
        ensures why { (value : ℕ) → IfErr result (RefusesName self.now.whole name.now value) }
    {
        let func = self.func_here()?;
        match self.code.code().slot_of(func, name) {
            Some(slot) => Ok(slot),
            None => Err(PokeError::UnknownTemporary),
        }
    }

    /// The class of what a slot of the innermost frame holds.
    fn class_here(&self, slot: Slot) -> Result<Class, PokeError>
        ensures class { IfOk result (IsOfClass self.now.whole slot) }
        ensures why { IfErr result (Refuses self.now.whole slot) }
    {
        let func = self.func_here()?;
        match self.code.code().class_of(func, slot) {
            Some(class) => Ok(class),
            None => Err(PokeError::UnknownTemporary),
        }
    }

    /// The function of the innermost frame.
    fn func_here(&self) -> Result<FuncId, PokeError>
        ensures func { IfOk result (λ func. option_map (λ f. f.func) (slice_get self.now.whole.frames 0) ≡ Some func.index) }
        ensures none { IfErr result (λ e. (e ≡ PokeError.NoFrame) × (self.now.whole.frames ≡ [])) }
    {
        if self.calls.depth() == 0 {
            return Err(PokeError::NoFrame);
        }
        match self.code.place(self.calls.ip()) {
            Some(place) => Ok(place.func),
            None => unreachable!(),
        }
    }
}
