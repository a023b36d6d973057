//! What calls of the functions of a heap do to the shadow, and which accesses to blocks and calls aren't right for sure. None is a
//! suspicion here: it is where another pass should look.

ghost use Rattle.std.specs.Prelude.{◌≡◌, [], None, IfOk};
ghost use Rattle.qil_shadow.specs.Kept.{KeepsAll};

use crate::constants::Reading;
use crate::heap::{HeapCall, HeapRole};
use crate::object::ObjectKind;
use crate::origin::{ObjectId, Origin};
use crate::shadow::{Shadow, value_of};
use crate::suspicion::Place;
use qil_code::{Code, NumberedArgument, NumberedOperand};
use qil_layout::FuncId;
use std::alloc::{AllocError, Allocator};

/// The value of an argument of a call, or 0.
fn given(slots: &[Option<u64>], args: &[NumberedArgument], index: usize) -> u64 {
    match args.get(index) {
        Some(arg) => value_of(slots, arg.source).unwrap_or(0),
        None => 0,
    }
}

impl<'c, A: Allocator + Copy> Shadow<'c, A> {
    /// Gives a function a part in a heap. Without one the shadow knows no block.
    ///
    /// # Errors
    ///
    /// Out of memory.
    pub fn know_heap(&mut self, func: FuncId, role: HeapRole) -> Result<(), AllocError> {
        self.heap.know(func, role)
    }

    fn note_unsure(&mut self)
        ensures { KeepsAll self.old self.new }
    {
        self.open.note(self.position);
    }

    /// Whether so many bytes from an address on are all in the data of the object where another address lies.
    fn is_in_data_of(&self, place: u64, address: u64, count: u64) -> bool {
        match self.calls.object_at(place) {
            Some(object) => {
                matches!(object.kind, ObjectKind::Data(_)) && object.contains(address, count)
            }
            None => false,
        }
    }

    /// Whether an access through the address of a block is right for sure. The functions of the heap may go wherever the data go in
    /// which the block lies.
    pub(crate) fn is_block_right(&self, object: ObjectId, address: u64, count: u64) -> bool {
        let Some(block) = self.heap.block(object) else {
            return false;
        };
        if self.heap.is_inside() {
            self.is_in_data_of(block.address, address, count)
        } else {
            block.is_living && block.contains(address, count)
        }
    }

    /// Whether an access through what is made of several addresses is in one block if it begins in one.
    fn is_mixed_right(&self, address: u64, count: u64) -> bool {
        if self.heap.is_inside() {
            return true;
        }
        match self.heap.at(address) {
            Some(block) => block.contains(address, count),
            None => true,
        }
    }

    /// Looks at an access to a block.
    #[inline(always)]
    pub(crate) fn use_block(&mut self, origin: Origin, address: u64, count: u64)
        ensures { KeepsAll self.old self.new }
    {
        if self.heap.is_known() {
            self.look_at_block(origin, address, count);
        }
    }

    #[inline(never)]
    fn look_at_block(&mut self, origin: Origin, address: u64, count: u64)
        ensures { KeepsAll self.old self.new }
    {
        let is_right = match origin {
            Origin::Address(object) => {
                self.calls.object(object).is_some() || self.is_block_right(object, address, count)
            }
            Origin::Mixed => self.is_mixed_right(address, count),
            Origin::Number | Origin::Part(_, _) | Origin::Cut => true,
        };
        if !is_right {
            self.note_unsure();
        }
    }

    /// Whether an address that is freed is that of a living block for sure.
    fn is_given_right(&self, origin: Origin, address: u64) -> bool {
        match origin {
            Origin::Address(object) => match self.heap.block(object) {
                Some(block) => block.address == address && (block.is_living || block.size == 0),
                None => false,
            },
            _ => self.heap.beginning_at(address).is_some(),
        }
    }

    /// Enters a call of a function, if that is one of the heap.
    #[inline(always)]
    pub(crate) fn enter_heap(
        &mut self,
        code: &Code<'c, A>,
        place: Place,
        slots: &[Option<u64>],
        func: FuncId,
        args: &[NumberedArgument],
    )
        ensures { KeepsAll self.old self.new }
    {
        if let Some(role) = self.heap.role(func) {
            let origin = self.given_origin(code, place, args);
            self.enter_role(role, given(slots, args, 0), given(slots, args, 1), origin);
        }
    }

    /// What the first argument of a call is made of.
    fn given_origin(&self, code: &Code<'c, A>, place: Place, args: &[NumberedArgument]) -> Origin {
        match args.first() {
            Some(arg) => {
                let reading = Reading::Argument(0);
                self.origin_of(code, place, reading, arg.abi_type.class(), arg.source)
            }
            None => Origin::Number,
        }
    }

    #[inline(never)]
    fn enter_role(&mut self, role: HeapRole, first: u64, second: u64, origin: Origin)
        ensures { KeepsAll self.old self.new }
    {
        self.look_at_freed(role, first, origin);
        self.heap.enter(role, first, second);
    }

    /// Looks at the address that a call of a function of the heap frees, if it frees one.
    fn look_at_freed(&mut self, role: HeapRole, first: u64, origin: Origin)
        ensures { KeepsAll self.old self.new }
    {
        let frees = match role {
            HeapRole::Give | HeapRole::Realloc => first != 0 && !self.heap.is_inside(),
            _ => false,
        };
        if frees && !self.is_given_right(origin, first) {
            self.note_unsure();
        }
    }

    /// Leaves a function, and gives the block that it has made if it is one of the heap.
    ///
    /// # Errors
    ///
    /// Out of memory.
    #[inline(always)]
    pub(crate) fn leave_heap(
        &mut self,
        slots: &[Option<u64>],
        func: FuncId,
        operand: Option<NumberedOperand>,
    ) -> Result<Option<ObjectId>, AllocError>
        ensures none { self.old.heap.roles.items ≡ [] → IfOk result (λ block. block ≡ None) }
        ensures rest { self.old.heap.roles.items ≡ [] → KeepsAll self.old self.new }
    {
        if self.heap.role(func).is_none() {
            return Ok(None);
        }
        let address = match operand {
            Some(operand) => value_of(slots, operand).unwrap_or(0),
            None => 0,
        };
        match self.heap.leave() {
            Some(call) => self.end_heap_call(call, address),
            None => Ok(None),
        }
    }

    /// What a call of the heap has ended and made.
    fn end_heap_call(
        &mut self,
        call: HeapCall,
        address: u64,
    ) -> Result<Option<ObjectId>, AllocError> {
        let old = self.given_block(&call);
        if call.role == HeapRole::Give {
            self.end_block(old);
        }
        if !call.makes() {
            return Ok(None);
        }
        let kept = match old {
            Some((_, size)) => size,
            None => 0,
        };
        if call.role == HeapRole::Realloc && (address != 0 || call.second == 0) {
            self.end_block(old);
        }
        if address == 0 {
            return Ok(None);
        }
        self.make_block(&call, address, kept)
    }

    /// The living block that a call was given, and its size.
    fn given_block(&self, call: &HeapCall) -> Option<(u32, u64)> {
        let index = call.block?;
        let block = self.heap.numbered(index)?;
        if block.is_living {
            Some((index, block.size))
        } else {
            None
        }
    }

    fn end_block(&mut self, block: Option<(u32, u64)>) {
        if let Some((index, _)) = block {
            self.heap.end(index);
        }
    }

    /// Makes the block that a call has given, of which so many bytes are those of another one.
    fn make_block(
        &mut self,
        call: &HeapCall,
        address: u64,
        kept: u64,
    ) -> Result<Option<ObjectId>, AllocError> {
        let size = call.size();
        if !self.is_in_data_of(address, address, size) || self.heap.overlaps(address, size) {
            self.note_unsure();
            return Ok(None);
        }
        let set = match call.role {
            HeapRole::Calloc => size,
            HeapRole::Realloc => kept.min(size),
            _ => 0,
        };
        self.make_fresh(address.saturating_add(set), size - set);
        Ok(Some(self.heap.add(address, size)?))
    }

    /// Makes so many bytes from an address on such that nothing has set.
    fn make_fresh(&mut self, address: u64, count: u64) {
        for word in 0..count / 8 {
            self.memory
                .store(address.saturating_add(8 * word), 8, Origin::Number);
        }
        for byte in 0..count % 8 {
            self.memory.store(address.saturating_add(count - 1 - byte), 1, Origin::Number);
        }
        self.open.memory.open(address, count);
    }
}
