//! The shadow of a run, and what is suspicious of its next step.

ghost use Rattle.std.specs.Prelude.{◌≡◌, ◌+◌, ◌-◌, ◌<◌, ◌≤◌, None, [], ◌∷◌, ◌++◌, length, replicate, slice_get, OnOk};
ghost use Rattle.std.specs.Option.{option_copied};
ghost use Rattle.qil_tree.specs.declared.tree.Program.{Program};
ghost use Rattle.qil_memory.specs.qil_layout.Layout.{rounded};
ghost use Rattle.qil_memory.specs.Buffers.{stack_base, stack_end};
ghost use Rattle.qil_semantics.specs.State.{Frame, State};
ghost use Rattle.qil_shadow.specs.Bytes.{laid_origins};
ghost use Rattle.qil_shadow.specs.Spots.{origins_in};
ghost use Rattle.qil_shadow.specs.Calls.{with_made, with_return};
ghost use Rattle.qil_shadow.specs.Shadow as by_names;
ghost use Rattle.qil_shadow.specs.Numbered.{value_in, is_twice};
ghost use Rattle.qil_shadow.specs.Starting.{IsOf};
ghost use Rattle.qil_shadow.specs.Accesses as accesses;
ghost use Rattle.qil_shadow.specs.Kept.{Keeps, KeepsAll, KeepsRest, KeepsButCalls};
ghost use Rattle.qil_shadow.specs.Moves.{with_all};
ghost use Rattle.qil_shadow.specs.Table.{object_at};
ghost use Rattle.qil_shadow.specs.Doubts.{doubt_through, through_found, is_all_in, doubt_mixed, doubt_by, live_between, hit_by, outside_by, told_by, noted_by, suspicion_by, access_named, StandsFor, Reports};

use crate::access::{Action, Kind};
use crate::calls::Calls;
use crate::heap::Heap;
use crate::memory::OriginMemory;
use crate::names::ObjectNames;
use crate::object::{Object, ObjectKind};
use crate::open_bits::OpenBits;
use crate::origin::{ByteOrigin, ObjectId, Origin};
use crate::suspicion::{Access, Doubt, Hit, Place, Suspicion};
use qil_code::{NumberedOperand, Slot};
use qil_layout::{DATA_BASE, rounded_up};
use qil_memory::STACK_BASE;
use std::alloc::{AllocError, Allocator};

/// The highest top of the stack.
pub(crate) const STACK_END: u64 = STACK_BASE + 1_048_576;

/// What a state's values are made of, the objects that there are, and what was suspicious since that was last taken.
#[derive(Drop)]
pub struct Shadow<'c, A: Allocator> {
    pub(crate) calls: Calls<A>,
    pub(crate) memory: OriginMemory<A>,
    pub(crate) names: ObjectNames<'c, A>,
    /// The first address behind the data.
    pub(crate) data_end: u64,
    pub(crate) position: u64,
    /// What parameters or phis get, before they get it.
    pub(crate) moved: Vec<(Slot, Origin), A>,
    pub(crate) found: Vec<Suspicion, A>,
    /// Which bits nothing has set.
    pub(crate) open: OpenBits<A>,
    pub(crate) heap: Heap<A>,
    /// The text that the step writes by `$puts`: its address, and what that is made of.
    pub(crate) text: Option<(u64, Origin)>,
}

/// The value of an operand, if it is set.
#[inline(always)]
pub(crate) fn value_of(slots: &[Option<u64>], operand: NumberedOperand) -> Option<u64>
    ensures { result ≡ value_in slots.now operand }
{
    match operand {
        NumberedOperand::Constant(value) => Some(value),
        NumberedOperand::Slot(slot) => match slots.get(usize::from(slot.index)) {
            Some(held) => *held,
            None => None,
        },
    }
}

/// Whether two operands are one temporary.
#[inline(always)]
pub(crate) fn are_one_temporary(left: NumberedOperand, right: NumberedOperand) -> bool
    ensures { result ≡ is_twice left right }
{
    match left {
        NumberedOperand::Slot(slot) => match right {
            NumberedOperand::Slot(other) => slot.index == other.index,
            NumberedOperand::Constant(_) => false,
        },
        NumberedOperand::Constant(_) => false,
    }
}

impl<'c, A: Allocator + Copy> Shadow<'c, A> {
    /// Whether so many bytes from an address on are live.
    pub(crate) fn is_live(&self, address: u64, count: u64) -> bool
        ensures { result ≡ live_between self.now.data_end self.now.calls.top address count }
    {
        let end = if address >= STACK_BASE {
            self.calls.top()
        } else {
            self.data_end
        };
        DATA_BASE <= address && address <= end && count <= end - address
    }

    /// What lies at an address.
    fn hit_at(&self, address: u64) -> Hit
        ensures { result ≡ hit_by address (object_at self.now.calls.objects.objects address) (live_between self.now.data_end self.now.calls.top address 1) }
    {
        match self.calls.object_at(address) {
            Some(object) => Hit::Into(object.kind, address.saturating_sub(object.address)),
            None => {
                if self.is_live(address, 1) {
                    Hit::Between
                } else {
                    Hit::Dead
                }
            }
        }
    }

    /// What is suspicious of an access through the address of an object.
    fn object_doubt(&self, access: &Access, object: ObjectId) -> Option<Doubt>
        ensures { result ≡ through_found access.now (slice_get self.now.calls.objects.objects object.index) }
    {
        match self.calls.object(object) {
            Some(object) => doubt_through(access, object),
            None => None,
        }
    }

    /// What is suspicious of one through what is made of more than one address.
    fn mixed_doubt(&self, access: &Access) -> Option<Doubt>
        ensures { result ≡ doubt_mixed access.now (object_at self.now.calls.objects.objects access.now.address) }
    {
        if is_all_in(access, self.calls.object_at(access.address)) {
            None
        } else {
            Some(Doubt {
                kind: Kind::Stray,
                object: None,
            })
        }
    }

    /// What is suspicious of an access.
    #[inline(always)]
    fn doubt(&self, access: &Access) -> Option<Doubt>
        ensures { result ≡ doubt_by self.now.calls.objects.objects access.now access.now.origin }
    {
        match access.origin {
            Origin::Number => None,
            Origin::Address(object) => self.object_doubt(access, object),
            Origin::Part(_, _) | Origin::Cut => Some(Doubt {
                kind: Kind::Cut,
                object: None,
            }),
            Origin::Mixed => self.mixed_doubt(access),
        }
    }

    /// Looks at an access, and notes what is suspicious of it: what the definition says by names, of a state with a frame at the
    /// place.
    ///
    /// # Errors
    ///
    /// Out of memory.
    #[inline(always)]
    pub(crate) fn look(&mut self, place: Place, access: Access) -> Result<(), AllocError>
        ensures noted { OnOk result (self.new.found.items ≡ self.old.found.items ++ suspicion_by self.old.calls.objects.objects self.old.data_end self.old.calls.top self.old.position place access (doubt_by self.old.calls.objects.objects access access.origin)) }
        ensures named { OnOk result ((p : Program A) (s : State) (sh : by_names.Shadow) (f : Frame) → IsOf p self.old.names self.old.calls.objects.starts self.old.data_end
            → StandsFor p s sh f self.old.calls.objects.objects self.old.calls.top self.old.position place
            → Reports p s sh f (access_named access) self.old.found.items self.new.found.items) }
        ensures rest { OnOk result (Keeps self.old self.new) }
    {
        self.calls.are_low();
        self.look_at(place, access)?;
        Ok(())
    }

    /// Looks at an access through an operand whose origin this is: besides, for open bits and blocks.
    ///
    /// # Errors
    ///
    /// Out of memory.
    #[inline(always)]
    pub(crate) fn look_through(
        &mut self,
        place: Place,
        action: Action,
        origin: Origin,
        operand: NumberedOperand,
        address: u64,
        count: u64,
    ) -> Result<(), AllocError>
        ensures named { OnOk result ((p : Program A) (s : State) (sh : by_names.Shadow) (f : Frame) → IsOf p self.old.names self.old.calls.objects.starts self.old.data_end
            → StandsFor p s sh f self.old.calls.objects.objects self.old.calls.top self.old.position place
            → Reports p s sh f (accesses.access action origin address count) self.old.found.items self.new.found.items) }
        ensures rest { OnOk result (Keeps self.old self.new) }
    {
        self.use_access(origin, operand, address, count);
        self.look(place, access(action, origin, address, count))?;
        Ok(())
    }

    #[inline(always)]
    fn use_access(&mut self, origin: Origin, operand: NumberedOperand, address: u64, count: u64)
        ensures { KeepsAll self.old self.new }
    {
        self.use_address(origin, operand);
        self.use_block(origin, address, count);
    }

    #[inline(always)]
    fn look_at(&mut self, place: Place, access: Access) -> Result<(), AllocError>
        ensures noted { OnOk result (self.new.found.items ≡ self.old.found.items ++ suspicion_by self.old.calls.objects.objects self.old.data_end self.old.calls.top self.old.position place access (doubt_by self.old.calls.objects.objects access access.origin)) }
        ensures rest { OnOk result (Keeps self.old self.new) }
    {
        match self.doubt(&access) {
            None => Ok(()),
            Some(doubt) => self.note(place, access, doubt),
        }
    }

    fn note(&mut self, place: Place, access: Access, doubt: Doubt) -> Result<(), AllocError>
        ensures noted { OnOk result (self.new.found.items ≡ self.old.found.items ++ noted_by self.old.calls.objects.objects self.old.data_end self.old.calls.top self.old.position place access doubt (told_by access doubt.kind doubt.object) ∷ []) }
        ensures rest { OnOk result (Keeps self.old self.new) }
    {
        let hit = self.hit_at(told_address(&access, &doubt));
        self.found.push(Suspicion {
            position: self.position,
            place,
            access,
            doubt,
            hit,
        })?;
        Ok(())
    }

    /// Makes an object of the stack for a temporary, at the top rounded up.
    ///
    /// # Errors
    ///
    /// Out of memory.
    pub(crate) fn grow(
        &mut self,
        place: Place,
        slot: Slot,
        align: u64,
        count: u64,
    ) -> Result<(), AllocError>
        requires some { 0 < align }
        requires few { align ≤ 16 }
        ensures made { rounded align self.old.calls.top + count ≤ stack_end
            → OnOk result (self.new.calls ≡ with_made self.old.calls slot (record { kind = ObjectKind.Slot place.func slot; address = rounded align self.old.calls.top; size = count; made = self.old.position; depth = length self.old.calls.calls; ended = None })) }
        ensures cleared { stack_base ≤ self.old.calls.top → rounded align self.old.calls.top + count ≤ stack_end
            → OnOk result (origins_in self.new.memory ≡ laid_origins (origins_in self.old.memory) self.old.calls.top (replicate (rounded align self.old.calls.top + count - self.old.calls.top) ByteOrigin.Number)) }
        ensures rest { KeepsRest self.old self.new }
    {
        let top = self.calls.top();
        if top > STACK_END {
            return Ok(());
        }
        let address = rounded_up(align, top);
        if address > STACK_END {
            return Ok(());
        }
        if count > STACK_END - address {
            return Ok(());
        }
        let kind = ObjectKind::Slot(place.func, slot);
        self.calls.make(kind, slot, address, count, self.position)?;
        self.memory.clear(top, address + count - top);
        self.open.memory.open(top, address + count - top);
        self.open.set(slot, 0);
        Ok(())
    }

    /// Ends the innermost call, with what the value that it returns is made of.
    pub(crate) fn give_back(&mut self, origin: Origin)
        ensures { self.new ≡ record self.old { calls = with_return self.old.calls self.old.position origin } }
    {
        self.calls.give_back(self.position, origin);
    }

    /// Gives parameters or phis what was gathered for them.
    pub(crate) fn put_moved(&mut self)
        ensures calls { self.new.calls ≡ with_all self.old.moved.items self.old.calls }
        ensures rest { KeepsButCalls self.old self.new }
    {
        put(&mut self.calls, self.moved.as_slice());
        self.moved.truncate(0);
        self.open.put_gathered();
    }

    /// What was suspicious since the last time, in its order.
    pub fn found(&self) -> &[Suspicion]
        ensures { result.now ≡ self.now.found.items }
    {
        self.found.as_slice()
    }

    /// Forgets what was suspicious.
    pub fn forget_found(&mut self)
        ensures found { self.new.found.items ≡ [] }
        ensures rest { Keeps self.old self.new }
    {
        self.found.truncate(0);
    }
}

/// Sets temporaries of the innermost call, one after the other.
fn put<A: Allocator>(calls: &mut Calls<A>, moved: &[(Slot, Origin)])
    ensures { calls.new ≡ with_all moved.now calls.old }
{
    for one in moved {
        let (slot, origin) = *one;
        calls.set(slot, origin);
    }
}

/// What is suspicious of an access through the address of an object.
fn doubt_through(access: &Access, object: &Object) -> Option<Doubt>
    ensures { result ≡ doubt_through access.now object.now }
{
    if object.ended.is_some() {
        return Some(Doubt {
            kind: Kind::Stale,
            object: Some(*object),
        });
    }
    if object.is_function() || !object.contains(access.address, access.count) {
        return Some(Doubt {
            kind: Kind::Bounds,
            object: Some(*object),
        });
    }
    None
}

/// Whether all bytes of an access are in an object.
fn is_all_in(access: &Access, object: Option<&Object>) -> bool
    ensures { result ≡ is_all_in access.now (option_copied object.entry) }
{
    match object {
        Some(object) => object.contains(access.address, access.count),
        None => false,
    }
}

/// Of an access that is out of its object, the first byte that is.
fn first_outside(access: &Access, object: &Object) -> u64
    ensures { result ≡ outside_by access.now object.now }
{
    if object.contains(access.address, 1) {
        object.address.saturating_add(object.size)
    } else {
        access.address
    }
}

/// The address at which a report says what lies there: for an access out of its object the first byte that is outside.
fn told_address(access: &Access, doubt: &Doubt) -> u64
    ensures { result ≡ told_by access.now doubt.now.kind doubt.now.object }
{
    match doubt.kind {
        Kind::Bounds => match &doubt.object {
            Some(object) => first_outside(access, object),
            None => access.address,
        },
        Kind::Stale | Kind::Cut | Kind::Stray => access.address,
    }
}

/// An access of so many bytes.
#[inline(always)]
pub(crate) fn access(action: Action, origin: Origin, address: u64, count: u64) -> Access
    ensures { result ≡ record { action = action; origin = origin; address = address; count = count } }
{
    Access {
        action,
        origin,
        address,
        count,
    }
}
