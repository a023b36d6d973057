//! Which bits of the values of a state may be open, and the first move of a run at which more may be suspicious than accesses.

use crate::open_memory::OpenMemory;
use crate::open_rules::open_passed;
use qil_code::{Receiver, Slot};
use std::alloc::{AllocError, Allocator};

/// Where the temporaries of a caller begin, and which of them takes what the call gives.
#[derive(Clone, Copy)]
struct Caller {
    base: usize,
    receiver: Option<Receiver>,
}

/// The open bits of temporaries and of memory. Those of the temporaries of all calls are in one list, the innermost at its end.
#[derive(Drop)]
pub(crate) struct OpenBits<A: Allocator> {
    temps: Vec<u64, A>,
    /// Where those of the innermost call begin. The callers stand in a list, the outermost first.
    base: usize,
    callers: Vec<Caller, A>,
    pub(crate) memory: OpenMemory<A>,
    /// What parameters or phis get, before they get it.
    moved: Vec<(Slot, u64), A>,
    first: Option<u64>,
}

impl<A: Allocator + Copy> OpenBits<A> {
    /// None are, in one call of so many temporaries.
    pub(crate) fn new(alloc: A, count: usize) -> Result<OpenBits<A>, AllocError> {
        Ok(OpenBits {
            temps: vec![in alloc; 0; count]?,
            base: 0,
            callers: Vec::new(alloc),
            memory: OpenMemory::new(alloc)?,
            moved: Vec::new(alloc),
            first: None,
        })
    }
}

impl<A: Allocator> OpenBits<A> {
    /// Those of a temporary of the innermost call.
    #[inline(always)]
    pub(crate) fn get(&self, slot: Slot) -> u64 {
        match self
            .temps
            .as_slice()
            .get(self.base.saturating_add(usize::from(slot.index)))
        {
            Some(open) => *open,
            None => 0,
        }
    }

    /// Sets those of a temporary of the innermost call.
    #[inline(always)]
    pub(crate) fn set(&mut self, slot: Slot, open: u64) {
        let at = self.base.saturating_add(usize::from(slot.index));
        if at < self.temps.len() {
            self.temps[at] = open;
        }
    }

    /// Adds a call of so many temporaries.
    pub(crate) fn push(
        &mut self,
        count: usize,
        receiver: Option<Receiver>,
    ) -> Result<(), AllocError> {
        self.callers.push(Caller {
            base: self.base,
            receiver,
        })?;
        self.base = self.temps.len();
        self.temps.resize(self.base.saturating_add(count), 0)
    }

    /// Ends the innermost call, and gives its caller what it returns, with these open bits.
    pub(crate) fn give_back(&mut self, open: u64) {
        let Some(caller) = self.callers.pop() else {
            return;
        };
        self.temps.truncate(self.base);
        self.base = caller.base;
        if let Some(to) = caller.receiver {
            self.set(to.slot, open_passed(to.abi_type, open));
        }
    }

    /// Notes what a parameter or a phi gets.
    pub(crate) fn gather(&mut self, slot: Slot, open: u64) -> Result<(), AllocError> {
        self.moved.push((slot, open))?;
        Ok(())
    }

    /// Gives parameters or phis what was gathered for them.
    pub(crate) fn put_gathered(&mut self) {
        for index in 0..self.moved.len() {
            if let Some(gathered) = self.moved.as_slice().get(index) {
                let (slot, open) = *gathered;
                self.set(slot, open);
            }
        }
        self.moved.truncate(0);
    }

    /// Notes that more may be suspicious of the move at a position.
    #[inline(never)]
    pub(crate) fn note(&mut self, position: u64) {
        if self.first.is_none() {
            self.first = Some(position);
        }
    }

    /// The first move of which more may be suspicious.
    pub(crate) fn first(&self) -> Option<u64> {
        self.first
    }
}
