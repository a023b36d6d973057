//! What the temporaries of the calls are made of that are not over.

ghost use Rattle.std.specs.Prelude.{◌≡◌, ◌+◌, ◌<◌, ◌≤◌, [], ◌∷◌, length, replicate, IfOk, MatchOption, MatchResult};
ghost use Rattle.qil_shadow.specs.Stack.{held_origin, with_held, returned_of, callers_of};

use crate::origin::Origin;
use qil_code::{Receiver, Slot};
use std::alloc::{AllocError, Allocator};
use std::marker::Model;
use std::mem::replace;

/// A call that is not over: what its temporaries are made of, the top of the stack from before it, and what of the caller
/// takes the value that it returns.
#[derive(Drop)]
pub struct CallOrigins<A: Allocator> {
    origins: Vec<Origin, A>,
    floor: u64,
    receiver: Option<Receiver>,
}

impl<A: Allocator> Model for CallOrigins<A> {
    ghost use Rattle.qil_shadow.specs.Stack.{CallShadow};

    ghost Value = { CallShadow };

    ghost view = { λ c. record { origins = c.origins.items; floor = c.floor; receiver = c.receiver } };
}

/// What a call that ended leaves.
#[derive(Clone, Copy)]
pub struct Returned {
    pub floor: u64,
    pub receiver: Option<Receiver>,
}

impl<A: Allocator + Copy> CallOrigins<A> {
    /// A call of so many temporaries, all of numbers.
    ///
    /// # Errors
    ///
    /// Out of memory.
    fn new(
        alloc: A,
        count: usize,
        floor: u64,
        receiver: Option<Receiver>,
    ) -> Result<CallOrigins<A>, AllocError>
        ensures { IfOk result (λ c. c ≡ record { origins = replicate count Origin.Number; floor = floor; receiver = receiver }) }
    {
        Ok(CallOrigins {
            origins: vec![in alloc; Origin::Number; count]?,
            floor,
            receiver,
        })
    }
}

/// The calls that are not over, of which there is one at least. Specifications see the innermost first.
#[derive(Drop)]
pub struct OriginStack<A: Allocator> {
    innermost: CallOrigins<A>,
    /// The outermost first.
    callers: Vec<CallOrigins<A>, A>,
}

impl<A: Allocator> Model for OriginStack<A> {
    ghost use Rattle.std.specs.Prelude.{List, ◌∷◌, reverse};
    ghost use Rattle.qil_shadow.specs.Stack.{CallShadow};

    ghost Value = { List CallShadow };

    ghost view = { λ s. s.innermost ∷ reverse s.callers.items };
}

impl<A: Allocator + Copy> OriginStack<A> {
    /// One call, of so many temporaries.
    ///
    /// # Errors
    ///
    /// Out of memory.
    pub fn new(alloc: A, count: usize, floor: u64) -> Result<OriginStack<A>, AllocError>
        ensures { IfOk result (λ s. s ≡ record { origins = replicate count Origin.Number; floor = floor; receiver = None } ∷ []) }
    {
        Ok(OriginStack {
            innermost: CallOrigins::new(alloc, count, floor, None)?,
            callers: Vec::new(alloc),
        })
    }

    /// Adds a call of so many temporaries, all of numbers.
    ///
    /// # Errors
    ///
    /// Out of memory.
    pub fn push(
        &mut self,
        count: usize,
        floor: u64,
        receiver: Option<Receiver>,
    ) -> Result<(), AllocError>
        ensures { MatchResult result (λ _. self.new ≡ record { origins = replicate count Origin.Number; floor = floor; receiver = receiver } ∷ self.old) (λ _. self.new ≡ self.old) }
    {
        self.callers.reserve(1)?;
        let call = CallOrigins::new(*self.callers.allocator(), count, floor, receiver)?;
        let caller = replace(&mut self.innermost, call);
        self.callers.push_reserved(caller);
        Ok(())
    }
}

impl<A: Allocator> OriginStack<A> {
    /// How many calls are not over.
    #[inline(always)]
    pub fn depth(&self) -> usize
        ensures count { result ≡ length self.now }
        ensures some { 0 < result }
    {
        self.callers.len() + 1
    }

    /// What a temporary of the innermost call is made of.
    #[inline(always)]
    pub fn get(&self, slot: Slot) -> Origin
        ensures { result ≡ held_origin self.now slot }
    {
        match self
            .innermost
            .origins
            .as_slice()
            .get(usize::from(slot.index))
        {
            Some(origin) => *origin,
            None => Origin::Number,
        }
    }

    /// Sets what a temporary of the innermost call is made of.
    #[inline(always)]
    pub fn set(&mut self, slot: Slot, origin: Origin)
        ensures { self.new ≡ with_held slot origin self.old }
    {
        let index = usize::from(slot.index);
        if index < self.innermost.origins.len() {
            self.innermost.origins[index] = origin;
        }
    }

    /// Takes the innermost call away, if it has a caller.
    pub fn pop(&mut self) -> Option<Returned>
        ensures { MatchOption result ((callers_of self.old ≡ []) × (self.new ≡ self.old)) (λ r. (self.new ≡ callers_of self.old) × (0 < length self.new) × (r ≡ returned_of self.old)) }
    {
        let caller = self.callers.pop()?;
        let over = replace(&mut self.innermost, caller);
        Some(Returned {
            floor: over.floor,
            receiver: over.receiver,
        })
    }
}
