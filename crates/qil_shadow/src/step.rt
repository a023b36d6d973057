//! A step of the shadow: it looks at what comes next, and becomes the shadow of the state behind it. A step that ends the run
//! asks nothing of it.

ghost use Rattle.std.specs.Prelude.{◌≡◌, ℕ, ◌-◌, ◌^◌, ◌%◌, ◌==◌, if◌then◌else◌, false, List, Some, None, ◌<◌, [], ◌∷◌, ◌++◌, length, unwrap_or, slice_get, IfOk, OnOk};
ghost use Rattle.std.specs.Option.{option_copied};
ghost use Rattle.qil_tree.specs.declared.ops.Class.TheVariants.{L};
ghost use Rattle.qil_tree.specs.declared.tree.Operand.{Operand};
ghost use Rattle.qil_tree.specs.declared.tree.Argument.{Argument};
ghost use Rattle.qil_tree.specs.declared.tree.Block.{Block};
ghost use Rattle.qil_tree.specs.declared.tree.Func.{Func};
ghost use Rattle.qil_tree.specs.declared.tree.Program.{Program};
ghost use Rattle.qil_memory.specs.qil_rules.Operands.{right_class, stored_class};
ghost use Rattle.qil_memory.specs.qil_layout.Layout.{width_bytes};
ghost use Rattle.qil_semantics.specs.State.{Frame, State, is_final};
ghost use Rattle.qil_semantics.specs.Step.{step_of};
ghost use Rattle.qil_code.specs.Numbered.{func_at, names_of};
ghost use Rattle.qil_shadow.specs.Origins.{binary_origin};
ghost use Rattle.qil_shadow.specs.Bytes.{laid_origins, origins_at, stored_origins, joined, load_bytes};
ghost use Rattle.qil_shadow.specs.Shadow as by_names;
ghost use Rattle.qil_shadow.specs.Shadowed.{operand_origin, is_twice, enters, goes, returns, leaves};
ghost use Rattle.qil_shadow.specs.Accesses as accesses;
ghost use Rattle.qil_shadow.specs.Spots.{HasSpot, origins_in};
ghost use Rattle.qil_shadow.specs.Numbered.{value_in, frames_by};
ghost use Rattle.qil_shadow.specs.Doubts.{StandsFor, Reports};
ghost use Rattle.qil_shadow.specs.Starting.{IsOf};
ghost use Rattle.qil_shadow.specs.Calls.{taken, with_return};
ghost use Rattle.qil_shadow.specs.Reads.{IsFor, IsRead, IsReturned, innermost, HasSlots};
ghost use Rattle.qil_shadow.specs.Kept.{Keeps, KeepsAll, KeepsButCalls, KeepsButMemory, KeepsRest};
ghost use Rattle.qil_shadow.specs.Instructions.{named, AreCalls, IsAt, KeepsButSlot, HasGiven, HasDone};
ghost use Rattle.qil_shadow.specs.Moves.{with_all};
ghost use Rattle.qil_shadow.specs.Phis.{phi_read, IsEdge, moves_from, got_by, AreAlike};
ghost use Rattle.qil_shadow.specs.Jumps.{IsJump, GoesOn, left_running, LiesAfter};
ghost use Rattle.qil_shadow.specs.Steps.{IsReady, Finds, Follows, HasFollowed};
ghost use Rattle.qil_shadow.specs.Shapes.{IsUnset, expr_operands, HasLeft};
ghost use Rattle.qil_shadow.specs.Passing.{AreArguments, one_passed, passed_by};
ghost use Rattle.qil_shadow.specs.Entering.{IsEntered};
ghost use Rattle.qil_shadow.specs.Returns.{IsCalled};
ghost use Rattle.qil_shadow.specs.Stack.{callers_of};

use crate::access::Action;
use crate::bytes::load_bytes;
use crate::constants::Reading;
use crate::open_rules::open_passed;
use crate::operations::{binary_origin, extended_origin, unary_origin};
use crate::origin::{ObjectId, Origin};
use crate::shadow::{Shadow, are_one_temporary, value_of};
use crate::suspicion::Place;
use crate::widths::class_right;
use qil_code::{
    Code, Edge, NumberedArgument, NumberedExpr, NumberedInst, NumberedJump, NumberedOperand,
    Receiver, Slot, alignment, byte_count, class_returned, class_stored,
};
use qil_layout::{Callee, FuncId};
use qil_tree::{AbiType, AllocOp, BinaryOp, Class, LoadOp, Width};
use std::alloc::{AllocError, Allocator};

/// How many calls there may be.
const MOST_CALLS: u32 = 1_000;

/// The address of a block that was made, or else what was returned.
#[inline(always)]
fn made_or(made: Option<ObjectId>, origin: Origin) -> Origin
    ensures { made ≡ None → result ≡ origin }
{
    match made {
        Some(block) => Origin::Address(block),
        None => origin,
    }
}

/// The argument of a number, if there is one.
fn argument_at(args: &[NumberedArgument], index: usize) -> Option<&NumberedArgument>
    ensures { option_copied result ≡ slice_get args.now index }
{
    args.get(index)
}

/// The instruction of a number, if there is one.
#[inline(always)]
fn inst_at<A: Allocator>(insts: &[NumberedInst<A>], index: usize) -> Option<&NumberedInst<A>>
    ensures { option_copied result ≡ slice_get insts.now index }
{
    insts.get(index)
}

impl<'c, A: Allocator + Copy> Shadow<'c, A> {
    /// Makes the step of the innermost frame at a place, which holds these values. Specifications see it beside a state whose
    /// frame this is: what is suspicious of its step is found, and where the run goes on the shadow is by names that of the next.
    ///
    /// # Errors
    ///
    /// Out of memory.
    pub fn step(
        &mut self,
        code: &Code<'c, A>,
        place: Place,
        slots: &[Option<u64>],
    ) -> Result<(), AllocError>
        ensures found { OnOk result ((s : State) (f : Frame) (gs : List Frame) → IsReady code.now s f gs place slots.now self.old → Finds code.now s self.old self.new) }
        ensures next { OnOk result ((s : State) (f : Frame) (gs : List Frame) → IsReady code.now s f gs place slots.now self.old → self.old.position < 2 ^ 64 - 1 → is_final (step_of code.now s).status ≡ false
            → HasFollowed code.now s self.old self.new) }
    {
        self.do_next(code, place, slots)?;
        self.position = self.position.saturating_add(1);
        Ok(())
    }

    /// What stands at a place.
    #[inline(always)]
    fn do_next(
        &mut self,
        code: &Code<'c, A>,
        place: Place,
        slots: &[Option<u64>],
    ) -> Result<(), AllocError>
        ensures found { OnOk result ((s : State) (f : Frame) (gs : List Frame) → IsReady code.now s f gs place slots.now self.old → Finds code.now s self.old self.new) }
        ensures next { OnOk result ((s : State) (f : Frame) (gs : List Frame) → IsReady code.now s f gs place slots.now self.old → is_final (step_of code.now s).status ≡ false → Follows code.now s self.old self.new) }
    {
        match code.block(place.func, place.block) {
            Some(block) => match inst_at(block.insts.as_slice(), place.index as usize) {
                Some(inst) => {
                    self.do_inst(code, place, slots, inst)?;
                    Ok(())
                }
                None => {
                    self.leave(code, place, slots, &block.jump)?;
                    Ok(())
                }
            },
            None => Ok(()),
        }
    }

    /// What an instruction does.
    #[inline(always)]
    fn do_inst(
        &mut self,
        code: &Code<'c, A>,
        place: Place,
        slots: &[Option<u64>],
        inst: &NumberedInst<A>,
    ) -> Result<(), AllocError>
        ensures done { OnOk result (HasDone code.now place slots.now inst.now self.old self.new) }
        ensures left { OnOk result (HasLeft code.now place slots.now inst.now self.old self.new) }
    {
        match inst {
            NumberedInst::Assign(class, to, expr) => {
                self.assign(code, place, slots, *class, *to, *expr)?;
                Ok(())
            }
            NumberedInst::Store(width, number, address) => {
                self.store(code, place, slots, *width, *number, *address)?;
                Ok(())
            }
            NumberedInst::Alloc(_, to, op, count) => {
                self.alloc_slot(place, slots, *to, *op, *count)?;
                Ok(())
            }
            NumberedInst::Blit(source, target, count) => {
                self.blit(code, place, slots, *source, *target, *count)?;
                Ok(())
            }
            NumberedInst::Call(to, callee, args) => {
                self.call(code, place, slots, *to, *callee, args.as_slice())?;
                Ok(())
            }
        }
    }

    /// Sets a temporary to what an expression gives.
    #[inline(always)]
    fn assign(
        &mut self,
        code: &Code<'c, A>,
        place: Place,
        slots: &[Option<u64>],
        class: Class,
        to: Slot,
        expr: NumberedExpr,
    ) -> Result<(), AllocError>
        ensures done { OnOk result (HasDone code.now place slots.now (NumberedInst.Assign class to expr) self.old self.new) }
        ensures rest { OnOk result (KeepsButSlot to self.old self.new) }
        ensures left { OnOk result (HasLeft code.now place slots.now (NumberedInst.Assign class to expr) self.old self.new) }
    {
        let origin = self.expr_origin(code, place, slots, class, expr)?;
        self.calls.set(to, origin);
        self.assign_open(slots, class, to, expr);
        Ok(())
    }

    /// What an expression gives.
    #[inline(always)]
    fn expr_origin(
        &mut self,
        code: &Code<'c, A>,
        place: Place,
        slots: &[Option<u64>],
        class: Class,
        expr: NumberedExpr,
    ) -> Result<Origin, AllocError>
        ensures given { IfOk result (λ origin. HasGiven code.now place slots.now class expr self.old self.new origin) }
        ensures unset { OnOk result (IsUnset slots.now (expr_operands expr) → self.new.found.items ≡ self.old.found.items) }
    {
        match expr {
            NumberedExpr::Unary(op, operand) => {
                let origin = self.origin_of(code, place, Reading::First, class, operand);
                Ok(unary_origin(op, class, origin))
            }
            NumberedExpr::Binary(op, left, right) => {
                Ok(self.two_origin(code, place, slots, class, op, left, right))
            }
            NumberedExpr::Compare(_, _, _, _) => Ok(Origin::Number),
            NumberedExpr::Extend(op, operand) => {
                let origin = self.origin_of(code, place, Reading::First, Class::W, operand);
                Ok(extended_origin(op, origin))
            }
            NumberedExpr::Load(op, operand) => {
                let origin = self.load(code, place, slots, class, op, operand)?;
                Ok(origin)
            }
        }
    }

    /// What an operation gives of two operands: of two numbers a number.
    #[inline(always)]
    fn two_origin(
        &self,
        code: &Code<'c, A>,
        place: Place,
        slots: &[Option<u64>],
        class: Class,
        op: BinaryOp,
        left: NumberedOperand,
        right: NumberedOperand,
    ) -> Origin
        ensures { (a b : Operand) → IsOf code.now self.now.names self.now.calls.objects.starts self.now.data_end → HasSlots code.now place.func.index self.now.calls.calls
            → IsRead code.now place Reading.First a left → IsRead code.now place Reading.Second b right
            → result ≡ binary_origin op class (is_twice a b) (operand_origin code.now (innermost code.now place.func.index self.now.calls.calls) class a) (unwrap_or (value_in slots.now left) 0)
            (operand_origin code.now (innermost code.now place.func.index self.now.calls.calls) (right_class op class) b) (unwrap_or (value_in slots.now right) 0) }
    {
        if self.is_number(left) {
            if self.is_number(right) {
                return Origin::Number;
            }
        }
        self.binary(code, place, slots, class, op, left, right)
    }

    /// What an operation gives, one of whose operands may be made of an address. Most have numbers alone.
    #[inline(never)]
    fn binary(
        &self,
        code: &Code<'c, A>,
        place: Place,
        slots: &[Option<u64>],
        class: Class,
        op: BinaryOp,
        left: NumberedOperand,
        right: NumberedOperand,
    ) -> Origin
        ensures { (a b : Operand) → IsOf code.now self.now.names self.now.calls.objects.starts self.now.data_end → HasSlots code.now place.func.index self.now.calls.calls
            → IsRead code.now place Reading.First a left → IsRead code.now place Reading.Second b right
            → result ≡ binary_origin op class (is_twice a b) (operand_origin code.now (innermost code.now place.func.index self.now.calls.calls) class a) (unwrap_or (value_in slots.now left) 0)
            (operand_origin code.now (innermost code.now place.func.index self.now.calls.calls) (right_class op class) b) (unwrap_or (value_in slots.now right) 0) }
    {
        let wanted = class_right(op, class);
        let one = self.origin_of(code, place, Reading::First, class, left);
        let other = self.origin_of(code, place, Reading::Second, wanted, right);
        let value = value_of(slots, left).unwrap_or(0);
        let second = value_of(slots, right).unwrap_or(0);
        let is_twice = are_one_temporary(left, right);
        binary_origin(op, class, is_twice, one, value, other, second)
    }

    /// What a load gives.
    fn load(
        &mut self,
        code: &Code<'c, A>,
        place: Place,
        slots: &[Option<u64>],
        class: Class,
        op: LoadOp,
        operand: NumberedOperand,
    ) -> Result<Origin, AllocError>
        ensures origin { IfOk result (λ o. (v : ℕ) → value_in slots.now operand ≡ Some v → HasSpot v (load_bytes op)
            → o ≡ joined class (origins_at (origins_in self.old.memory) v (load_bytes op))) }
        ensures found { OnOk result ((a : Operand) (v : ℕ) (s : State) (sh : by_names.Shadow) (f : Frame) → value_in slots.now operand ≡ Some v
            → IsOf code.now self.old.names self.old.calls.objects.starts self.old.data_end → HasSlots code.now place.func.index self.old.calls.calls → IsRead code.now place Reading.First a operand
            → StandsFor code.now s sh f self.old.calls.objects.objects self.old.calls.top self.old.position place
            → Reports code.now s sh f (accesses.access (Action.Load op) (operand_origin code.now (innermost code.now place.func.index self.old.calls.calls) L a) v (load_bytes op)) self.old.found.items self.new.found.items) }
        ensures rest { OnOk result (Keeps self.old self.new) }
        ensures low { OnOk result ((v : ℕ) → value_in slots.now operand ≡ Some v → v < 2 ^ 64) }
        ensures unset { OnOk result (value_in slots.now operand ≡ None → self.new.found.items ≡ self.old.found.items) }
    {
        let Some(address) = value_of(slots, operand) else {
            return Ok(Origin::Number);
        };
        let origin = self.origin_of(code, place, Reading::First, Class::L, operand);
        let count = load_bytes(op);
        self.look_through(place, Action::Load(op), origin, operand, address, count)?;
        Ok(self.memory.load(address, count, class))
    }

    /// Stores a value.
    fn store(
        &mut self,
        code: &Code<'c, A>,
        place: Place,
        slots: &[Option<u64>],
        width: Width,
        number: NumberedOperand,
        address: NumberedOperand,
    ) -> Result<(), AllocError>
        ensures memory { OnOk result ((a : Operand) (v t : ℕ) → value_in slots.now number ≡ Some v → value_in slots.now address ≡ Some t → HasSpot t (width_bytes width)
            → IsOf code.now self.old.names self.old.calls.objects.starts self.old.data_end → HasSlots code.now place.func.index self.old.calls.calls → IsRead code.now place Reading.First a number
            → origins_in self.new.memory ≡ laid_origins (origins_in self.old.memory) t (stored_origins (width_bytes width) (operand_origin code.now (innermost code.now place.func.index self.old.calls.calls) (stored_class width) a))) }
        ensures found { OnOk result ((b : Operand) (v t : ℕ) (s : State) (sh : by_names.Shadow) (f : Frame) → value_in slots.now number ≡ Some v → value_in slots.now address ≡ Some t
            → IsOf code.now self.old.names self.old.calls.objects.starts self.old.data_end → HasSlots code.now place.func.index self.old.calls.calls → IsRead code.now place Reading.Second b address
            → StandsFor code.now s sh f self.old.calls.objects.objects self.old.calls.top self.old.position place
            → Reports code.now s sh f (accesses.access (Action.Store width) (operand_origin code.now (innermost code.now place.func.index self.old.calls.calls) L b) t (width_bytes width)) self.old.found.items self.new.found.items) }
        ensures done { OnOk result (HasDone code.now place slots.now (NumberedInst.Store width number address) self.old self.new) }
        ensures rest { OnOk result (KeepsButMemory self.old self.new) }
        ensures left { OnOk result (HasLeft code.now place slots.now (NumberedInst.Store width number address) self.old self.new) }
    {
        if value_of(slots, number).is_none() {
            return Ok(());
        }
        let Some(target) = value_of(slots, address) else {
            return Ok(());
        };
        let origin = self.origin_of(code, place, Reading::Second, Class::L, address);
        let count = byte_count(width);
        self.look_through(place, Action::Store(width), origin, address, target, count)?;
        let class = class_stored(width);
        let stored = self.origin_of(code, place, Reading::First, class, number);
        self.memory.store(target, count, stored);
        let open = self.open_of(class, number);
        self.open.memory.store(target, count, open);
        Ok(())
    }

    /// Copies bytes.
    fn blit(
        &mut self,
        code: &Code<'c, A>,
        place: Place,
        slots: &[Option<u64>],
        source: NumberedOperand,
        target: NumberedOperand,
        count: u64,
    ) -> Result<(), AllocError>
        ensures done { OnOk result (HasDone code.now place slots.now (NumberedInst.Blit source target count) self.old self.new) }
        ensures rest { OnOk result (KeepsButMemory self.old self.new) }
        ensures left { OnOk result (HasLeft code.now place slots.now (NumberedInst.Blit source target count) self.old self.new) }
    {
        let Some(source_address) = value_of(slots, source) else {
            return Ok(());
        };
        let Some(target_address) = value_of(slots, target) else {
            return Ok(());
        };
        if count == 0 {
            return Ok(());
        }
        let origin = self.origin_of(code, place, Reading::First, Class::L, source);
        self.look_through(
            place,
            Action::CopyFrom,
            origin,
            source,
            source_address,
            count,
        )?;
        if !self.is_live(source_address, count) {
            return Ok(());
        }
        let other = self.origin_of(code, place, Reading::Second, Class::L, target);
        self.look_through(place, Action::CopyTo, other, target, target_address, count)?;
        self.memory.copy(source_address, target_address, count);
        self.open.memory.copy(source_address, target_address, count);
        Ok(())
    }

    /// Makes an object of the stack.
    fn alloc_slot(
        &mut self,
        place: Place,
        slots: &[Option<u64>],
        to: Slot,
        op: AllocOp,
        count: NumberedOperand,
    ) -> Result<(), AllocError>
        ensures done { OnOk result ((p : Program A) (class : Class) → HasDone p place slots.now (NumberedInst.Alloc class to op count) self.old self.new) }
        ensures rest { KeepsRest self.old self.new }
        ensures left { OnOk result ((p : Program A) (class : Class) → HasLeft p place slots.now (NumberedInst.Alloc class to op count) self.old self.new) }
    {
        self.use_bits(self.open_of(Class::L, count));
        match value_of(slots, count) {
            Some(size) => {
                self.grow(place, to, alignment(op), size)?;
                Ok(())
            }
            None => Ok(()),
        }
    }

    /// Calls what lies at an address.
    fn call(
        &mut self,
        code: &Code<'c, A>,
        place: Place,
        slots: &[Option<u64>],
        to: Option<Receiver>,
        callee: NumberedOperand,
        args: &[NumberedArgument],
    ) -> Result<(), AllocError>
        ensures done { OnOk result (HasDone code.now place slots.now (NumberedInst.Call to callee args.now) self.old self.new) }
        ensures left { OnOk result (HasLeft code.now place slots.now (NumberedInst.Call to callee args.now) self.old self.new) }
    {
        let Some(address) = value_of(slots, callee) else {
            return Ok(());
        };
        self.use_callee(callee, address);
        let Some(found) = code.image().function_at(address) else {
            self.open.note(self.position);
            return Ok(());
        };
        match found {
            Callee::Defined(func) => {
                self.call_function(code, place, slots, func, to, args)?;
                Ok(())
            }
            Callee::PutChar => {
                self.call_given(code, place, slots, found, to, args);
                Ok(())
            }
            Callee::Puts => {
                self.call_given(code, place, slots, found, to, args);
                Ok(())
            }
            Callee::Exit => {
                self.call_given(code, place, slots, found, to, args);
                Ok(())
            }
        }
    }

    /// Calls a function that every program has, which gives a number.
    fn call_given(
        &mut self,
        code: &Code<'c, A>,
        place: Place,
        slots: &[Option<u64>],
        callee: Callee,
        to: Option<Receiver>,
        args: &[NumberedArgument],
    )
        ensures calls { self.new.calls ≡ record self.old.calls { calls = taken to Origin.Number self.old.calls.calls } }
        ensures rest { KeepsButCalls self.old self.new }
    {
        self.call_built_in(code, place, slots, callee, args);
        self.give_number(to);
    }

    /// Gives the temporary that takes the result of a call, if one does, a number.
    fn give_number(&mut self, to: Option<Receiver>)
        ensures calls { self.new.calls ≡ record self.old.calls { calls = taken to Origin.Number self.old.calls.calls } }
        ensures rest { KeepsButCalls self.old self.new }
    {
        if let Some(to) = to {
            self.calls.set(to.slot, Origin::Number);
            self.open.set(to.slot, open_passed(to.abi_type, 0));
        }
    }

    /// What a call of a function that every program has uses.
    fn call_built_in(
        &mut self,
        code: &Code<'c, A>,
        place: Place,
        slots: &[Option<u64>],
        callee: Callee,
        args: &[NumberedArgument],
    )
        ensures { KeepsAll self.old self.new }
    {
        let Some(given) = args.first() else {
            return;
        };
        let open = self.open_of(given.abi_type.class(), given.source);
        match callee {
            Callee::Defined(_) => {}
            Callee::PutChar => self.use_bits(open % 256),
            Callee::Exit => self.use_bits(open),
            Callee::Puts => self.use_text(code, place, slots, given.source, open),
        }
    }

    /// Looks at the address of a text that is written.
    fn use_text(
        &mut self,
        code: &Code<'c, A>,
        place: Place,
        slots: &[Option<u64>],
        source: NumberedOperand,
        open: u64,
    )
        ensures { KeepsAll self.old self.new }
    {
        let origin = self.origin_of(code, place, Reading::Argument(0), Class::L, source);
        self.use_bits(open);
        self.text = value_of(slots, source).map(|address| (address, origin));
    }

    /// Adds a call of a function of the program.
    fn call_function(
        &mut self,
        code: &Code<'c, A>,
        place: Place,
        slots: &[Option<u64>],
        func: FuncId,
        to: Option<Receiver>,
        args: &[NumberedArgument],
    ) -> Result<(), AllocError>
        ensures named { OnOk result ((given : List Argument) (callee : Func A) (fs : List ℕ) → IsAt code.now place self.old → AreCalls code.now (place.func.index ∷ fs) self.old.calls.calls
            → AreArguments code.now place args.now given → func_at code.now func.index ≡ Some callee → length self.old.calls.calls < 1000
            → named code.now (func.index ∷ (place.func.index ∷ fs)) self.new
            ≡ enters code.now (named code.now (place.func.index ∷ fs) self.old) (innermost code.now place.func.index self.old.calls.calls) (frames_by code.now fs (callers_of self.old.calls.calls)) given (Some callee)) }
        ensures calls { OnOk result (length self.old.calls.calls < 1000 → IsEntered (length (names_of code.now func.index)) to self.old.calls self.new.calls) }
        ensures rest { OnOk result (KeepsButCalls self.old self.new) }
    {
        self.enter_heap(code, place, slots, func, args);
        self.gather(code, place, code.params(func), args)?;
        if self.calls.depth() >= MOST_CALLS {
            return Ok(());
        }
        self.calls.enter(code.slot_count(func), to)?;
        self.open.push(code.slot_count(func), to)?;
        self.put_moved();
        Ok(())
    }

    /// Gathers what parameters get of the arguments next to them.
    fn gather(
        &mut self,
        code: &Code<'c, A>,
        place: Place,
        params: &[(Slot, AbiType)],
        args: &[NumberedArgument],
    ) -> Result<(), AllocError>
        ensures moved { OnOk result ((given : List Argument) → IsAt code.now place self.old → AreArguments code.now place args.now given
            → self.new.moved.items ≡ passed_by code.now (innermost code.now place.func.index self.old.calls.calls) params.now given) }
        ensures rest { OnOk result (KeepsAll self.old self.new) }
    {
        self.moved.truncate(0);
        for index in 0..params.len() {
            self.gather_one(code, place, index, params[index], args)?;
        }
        Ok(())
    }

    /// Gathers what a parameter gets, if there is an argument of its number.
    fn gather_one(
        &mut self,
        code: &Code<'c, A>,
        place: Place,
        index: usize,
        param: (Slot, AbiType),
        args: &[NumberedArgument],
    ) -> Result<(), AllocError>
        ensures moved { OnOk result ((given : List Argument) → IsAt code.now place self.old → AreArguments code.now place args.now given
            → self.new.moved.items ≡ self.old.moved.items ++ one_passed code.now (innermost code.now place.func.index self.old.calls.calls) param (slice_get given index)) }
        ensures rest { OnOk result (KeepsAll self.old self.new) }
    {
        match argument_at(args, index) {
            Some(arg) => {
                let (slot, wanted) = param;
                let class = arg.abi_type.class();
                let origin = self.origin_of(
                    code,
                    place,
                    Reading::Argument(index),
                    class,
                    arg.source,
                );
                self.moved.push((slot, origin))?;
                self.pass_open(arg.abi_type, arg.source, slot, wanted)?;
                Ok(())
            }
            None => Ok(()),
        }
    }

    /// What a jump does.
    fn leave(
        &mut self,
        code: &Code<'c, A>,
        place: Place,
        slots: &[Option<u64>],
        jump: &NumberedJump<A>,
    ) -> Result<(), AllocError>
        ensures named { OnOk result ((f : Frame) (fs : List ℕ) (func : Func A) (left : Block A) → IsJump code.now place jump.now func left → f.label ≡ left.label → IsAt code.now place self.old → self.old.heap.roles.items ≡ []
            → GoesOn code.now place.func.index slots.now f fs self.old.calls.calls left.jump.kind
            → named code.now (left_running place.func.index fs left.jump.kind) self.new
            ≡ leaves code.now f (named code.now (place.func.index ∷ fs) self.old) (innermost code.now place.func.index self.old.calls.calls) (frames_by code.now fs (callers_of self.old.calls.calls)) func left.jump.kind) }
        ensures lies { OnOk result ((f : Frame) (fs : List ℕ) (func : Func A) (left : Block A) → IsJump code.now place jump.now func left → IsAt code.now place self.old → self.old.heap.roles.items ≡ []
            → GoesOn code.now place.func.index slots.now f fs self.old.calls.calls left.jump.kind → LiesAfter left.jump.kind self.old.calls self.new.calls) }
        ensures rest { OnOk result (self.old.heap.roles.items ≡ [] → KeepsButCalls self.old self.new) }
    {
        match jump {
            NumberedJump::Jmp(edge) => {
                self.take_edge(code, place, edge)?;
                Ok(())
            }
            NumberedJump::Jnz(test, set, zero) => {
                self.take_one_of(code, place, slots, *test, set, zero)?;
                Ok(())
            }
            NumberedJump::Ret(operand) => {
                self.leave_function(code, place, slots, *operand)?;
                Ok(())
            }
            NumberedJump::Hlt => Ok(()),
        }
    }

    /// Goes along the edge that a value chooses.
    #[inline(always)]
    fn take_one_of(
        &mut self,
        code: &Code<'c, A>,
        place: Place,
        slots: &[Option<u64>],
        test: NumberedOperand,
        set: &Edge<A>,
        zero: &Edge<A>,
    ) -> Result<(), AllocError>
        ensures named { OnOk result ((f : Frame) (fs : List ℕ) (func : Func A) (left one other : Block A) (l m : List ℕ) (v : ℕ) → value_in slots.now test ≡ Some v
            → IsEdge code.now place set.now.to set.now.moves func left one l → IsEdge code.now place zero.now.to zero.now.moves func left other m → f.label ≡ left.label → IsAt code.now place self.old
            → named code.now (place.func.index ∷ fs) self.new
            ≡ goes code.now f (named code.now (place.func.index ∷ fs) self.old) (innermost code.now place.func.index self.old.calls.calls) (frames_by code.now fs (callers_of self.old.calls.calls)) func (if v % 4294967296 == 0 then m else l)) }
        ensures alike { OnOk result (AreAlike self.old.calls self.new.calls) }
        ensures rest { OnOk result (KeepsButCalls self.old self.new) }
    {
        match value_of(slots, test) {
            Some(value) => {
                self.use_test(test, value);
                if value % 4_294_967_296 == 0 {
                    self.take_edge(code, place, zero)?;
                    Ok(())
                } else {
                    self.take_edge(code, place, set)?;
                    Ok(())
                }
            }
            None => Ok(()),
        }
    }

    /// Returns from a function.
    fn leave_function(
        &mut self,
        code: &Code<'c, A>,
        place: Place,
        slots: &[Option<u64>],
        operand: Option<NumberedOperand>,
    ) -> Result<(), AllocError>
        ensures calls { OnOk result ((m : Origin) → self.old.heap.roles.items ≡ [] → IsReturned code.now self.old.names self.old.calls self.old.data_end place operand m
            → self.new.calls ≡ with_return self.old.calls self.old.position m) }
        ensures named { OnOk result ((f : Frame) (j : ℕ) (fs : List ℕ) (m : Origin) → self.old.heap.roles.items ≡ [] → IsReturned code.now self.old.names self.old.calls self.old.data_end place operand m
            → AreCalls code.now (place.func.index ∷ (j ∷ fs)) self.old.calls.calls → IsCalled code.now j f self.old.calls.calls
            → named code.now (j ∷ fs) self.new ≡ returns f (named code.now (place.func.index ∷ (j ∷ fs)) self.old) (innermost code.now place.func.index self.old.calls.calls) (frames_by code.now (j ∷ fs) (callers_of self.old.calls.calls)) m) }
        ensures rest { OnOk result (self.old.heap.roles.items ≡ [] → KeepsButCalls self.old self.new) }
    {
        let origin = self.returned_origin(code, place, operand);
        let made = self.leave_heap(slots, place.func, operand)?;
        self.return_open(code.returns(place.func), operand);
        self.give_back(made_or(made, origin));
        Ok(())
    }

    /// What a function returns is made of.
    #[inline(always)]
    fn returned_origin(
        &self,
        code: &Code<'c, A>,
        place: Place,
        operand: Option<NumberedOperand>,
    ) -> Origin
        ensures { (m : Origin) → IsReturned code.now self.now.names self.now.calls self.now.data_end place operand m → result ≡ m }
    {
        match operand {
            Some(operand) => {
                let class = class_returned(code.returns(place.func));
                self.origin_of(code, place, Reading::Returned, class, operand)
            }
            None => Origin::Number,
        }
    }
}
