//! The calls that are not over, and the objects that there are. An object of the stack ends with its call.

ghost use Rattle.std.specs.Prelude.{◌≡◌, ◌+◌, ◌<◌, ◌≤◌, ◌^◌, [], None, length, slice_get, All, IfSome, MatchResult};
ghost use Rattle.std.specs.Option.{option_copied};
ghost use Rattle.qil_memory.specs.Buffers.{stack_base};
ghost use Rattle.qil_shadow.specs.Stack.{held_origin};
ghost use Rattle.qil_shadow.specs.Table.{of_stack, object_at, IsLow, IsOnlyAt};
ghost use Rattle.qil_shadow.specs.Calls.{with_set, with_call, with_made, with_return, taken, left_calls, left_top};

use crate::object::{Object, ObjectKind, Objects};
use crate::origin::{ObjectId, Origin};
use crate::stack::OriginStack;
use qil_code::{Receiver, Slot};
use qil_memory::STACK_BASE;
use std::alloc::{AllocError, Allocator};
use std::marker::Model;

/// Gives the temporary that takes the result of a call, if one does, what this is made of.
fn take<A: Allocator>(origins: &mut OriginStack<A>, receiver: Option<Receiver>, origin: Origin)
    ensures { origins.new ≡ taken receiver origin origins.old }
{
    if let Some(to) = receiver {
        origins.set(to.slot, origin);
    }
}

/// Ends the innermost call, if it has a caller, and gives the top of the stack then.
fn leave<A: Allocator>(origins: &mut OriginStack<A>, top: u64, origin: Origin) -> u64
    ensures calls { origins.new ≡ left_calls origin origins.old }
    ensures top { result ≡ left_top top origins.old }
{
    match origins.pop() {
        Some(over) => {
            take(origins, over.receiver, origin);
            over.floor
        }
        None => top,
    }
}

/// What the temporaries of the calls that are not over are made of, all objects, and the top of the stack.
#[derive(Drop)]
pub struct Calls<A: Allocator> {
    origins: OriginStack<A>,
    objects: Objects<A>,
    top: u64,
}

impl<A: Allocator> Model for Calls<A> {
    ghost use Rattle.qil_shadow.specs.Table.{of_stack};
    ghost use Rattle.qil_shadow.specs.Calls.{LiveCalls, AreLive};

    ghost Value = { LiveCalls };

    ghost view = { λ c. record { calls = c.origins; objects = c.objects; top = c.top } };

    ghost invariant = { λ c. AreLive c.origins (of_stack c.objects) c.top };
}

impl<A: Allocator> Calls<A> {
    /// Those of the start of a run, with nothing on the stack.
    pub fn new(origins: OriginStack<A>, objects: Objects<A>) -> Calls<A>
        requires few { length origins ≤ 1000 }
        requires fixed { objects.fixed ≡ length objects.objects }
        ensures { result ≡ record { calls = origins; objects = objects; top = stack_base } }
    {
        Calls {
            origins,
            objects,
            top: STACK_BASE,
        }
    }

    /// How many calls are not over.
    #[inline(always)]
    pub fn depth(&self) -> u32
        ensures count { result ≡ length self.now.calls }
        ensures few { result ≤ 1000 }
    {
        self.origins.depth() as u32
    }

    /// The top of the stack.
    #[inline(always)]
    pub fn top(&self) -> u64
        ensures { result ≡ self.now.top }
    {
        self.top
    }

    /// What a temporary of the innermost call is made of.
    #[inline(always)]
    pub fn origin(&self, slot: Slot) -> Origin
        ensures { result ≡ held_origin self.now.calls slot }
    {
        self.origins.get(slot)
    }

    /// Sets what a temporary of the innermost call is made of.
    #[inline(always)]
    pub fn set(&mut self, slot: Slot, origin: Origin)
        ensures { self.new ≡ with_set self.old slot origin }
    {
        self.origins.set(slot, origin);
    }

    /// What is so of all objects, with nothing to run: each ends below 2^64.
    #[inline(always)]
    pub fn are_low(&self)
        ensures { All IsLow self.now.objects.objects }
    {
        self.objects.are_low();
    }

    /// The object of a number.
    #[inline(always)]
    pub fn object(&self, object: ObjectId) -> Option<&Object>
        ensures { option_copied result ≡ slice_get self.now.objects.objects object.index }
    {
        self.objects.get(object)
    }

    /// The living object in which a byte lies.
    pub fn object_at(&self, address: u64) -> Option<&Object>
        ensures { option_copied result ≡ object_at self.now.objects.objects address }
    {
        self.objects.at(address)
    }

    /// The object of the data that begins at an address, where no other does.
    pub fn data_at(&self, address: u64) -> Option<ObjectId>
        ensures { IfSome result (λ o. IsOnlyAt address o.index self.now.objects.starts) }
    {
        self.objects.data_at(address)
    }

    /// Makes an object of the stack at the top or above it, which is then the top, and sets a temporary to its address.
    ///
    /// # Errors
    ///
    /// Out of memory, and where there would be 2^32.
    pub fn make(
        &mut self,
        kind: ObjectKind,
        slot: Slot,
        address: u64,
        size: u64,
        made: u64,
    ) -> Result<(), AllocError>
        requires above { self.old.top ≤ address }
        requires fits { address + size < 2 ^ 64 }
        ensures { MatchResult result (λ _. self.new ≡ with_made self.old slot (record { kind = kind; address = address; size = size; made = made; depth = length self.old.calls; ended = None })) (λ _. self.new ≡ self.old) }
    {
        let depth = self.origins.depth() as u32;
        let object = self.objects.add(Object {
            kind,
            address,
            size,
            made,
            depth,
            ended: None,
        })?;
        self.top = address + size;
        self.origins.set(slot, Origin::Address(object));
        Ok(())
    }

    /// Ends the innermost call and what was made in it, with what the value that it returns is made of.
    pub fn give_back(&mut self, position: u64, origin: Origin)
        ensures { self.new ≡ with_return self.old position origin }
    {
        let depth = self.origins.depth() as u32;
        self.objects.end(depth, position);
        self.top = leave(&mut self.origins, self.top, origin);
    }
}

impl<A: Allocator + Copy> Calls<A> {
    /// Adds a call of so many temporaries, all of numbers.
    ///
    /// # Errors
    ///
    /// Out of memory.
    pub fn enter(&mut self, count: usize, receiver: Option<Receiver>) -> Result<(), AllocError>
        requires { length self.old.calls < 1000 }
        ensures { MatchResult result (λ _. self.new ≡ with_call self.old count receiver) (λ _. self.new ≡ self.old) }
    {
        self.origins.push(count, self.top, receiver)?;
        Ok(())
    }
}
