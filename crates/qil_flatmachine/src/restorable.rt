//! A machine with copies of some of its states, each of which it can be brought back to.

ghost use Rattle.std.specs.Prelude.{◌≡◌, [], IfOk};
ghost use Rattle.qil_flatmachine.specs.Kept.{states_of};

use crate::copied::CopiedMachine;
use crate::kept::KeptState;
use crate::machine::FlatMachine;
use qil_code::Slot;
use qil_history::{FrameView, Readers};
use qil_machine::PokeError;
use qil_stops::{HasCopies, NumberedStop};
use std::alloc::{AllocError, Allocator};
use std::marker::Model;

/// A flat machine, and copies of states that it had.
#[derive(Drop)]
pub struct RestorableMachine<'c, A: Allocator> {
    /// Behind a pointer, so that this type is of few words wherever it is moved.
    present: Box<FlatMachine<'c, A>, A>,
    copies: Vec<KeptState<'c, A>, A>,
}

impl<'c, A: Allocator> Model for RestorableMachine<'c, A> {
    ghost use Rattle.qil_flatmachine.specs.Kept.{WithCopies, AreOf};

    ghost Value = { WithCopies A };

    ghost view = { λ m. record { present = m.present.value; copies = m.copies.items } };

    ghost invariant = { λ m. AreOf m.present.value.base m.copies.items };
}

impl<'c, A: Allocator + Copy> RestorableMachine<'c, A> {
    /// A machine with no copies yet.
    ///
    /// # Errors
    ///
    /// Where there is no memory for it.
    pub fn new(
        alloc: A,
        machine: FlatMachine<'c, A>,
    ) -> Result<RestorableMachine<'c, A>, AllocError>
        ensures { IfOk result (λ m. m ≡ record { present = machine.entry; copies = [] }) }
    {
        Ok(RestorableMachine {
            present: Box::new(alloc, machine)?,
            copies: Vec::new(alloc),
        })
    }
}

impl<'c, A: Allocator> HasCopies<A> for RestorableMachine<'c, A> {
    ghost present = { λ m. m.present.whole };

    ghost kept = { λ m. states_of m.copies };
}

impl<'c, A: Allocator + Copy> CopiedMachine<A, FlatMachine<'c, A>> for RestorableMachine<'c, A> {
    fn machine(&self) -> &FlatMachine<'c, A> {
        &self.present
    }

    fn frame(&self, inner: usize) -> Option<FrameView<'_>> {
        self.present.frame(inner)
    }

    fn output(&self) -> &[u8] {
        self.present.output()
    }

    fn run_quietly(&mut self, stops: &[NumberedStop], before: &[Option<u64>], count: u64) -> u64 {
        if stops.is_empty() {
            return self.present.run(count);
        }
        self.present.run_quietly(stops, before, count)
    }

    fn poke_slot(&mut self, slot: Slot, value: u64) -> Result<(), PokeError> {
        self.present.poke_slot(slot, value)
    }

    fn poke_memory(&mut self, address: u64, width: u64, number: u64) -> Result<(), PokeError> {
        self.present.poke_memory(address, width, number)
    }

    fn kept_bytes(&self) -> usize {
        let mut bytes: usize = 0;
        for copy in self.copies.as_slice() {
            bytes = bytes.saturating_add(copy.size());
        }
        bytes
    }

    fn keep(&mut self) -> Result<(), AllocError> {
        self.copies.reserve(1)?;
        let copy = self.present.keep()?;
        self.copies.push_reserved(copy);
        Ok(())
    }

    fn restore(&mut self, index: usize) {
        self.present.restore(&self.copies[index]);
    }

    fn forget(&mut self, index: usize) {
        let _ = self.copies.remove(index);
    }

    fn forget_after(&mut self, count: usize) {
        self.copies.truncate(count);
    }
}
