//! What a step does to open bits, and where it uses them. A use is no suspicion here: it is where another pass should look.

ghost use Rattle.std.specs.Prelude.{◌≡◌};
ghost use Rattle.qil_shadow.specs.Kept.{KeepsAll};

use crate::bytes::load_bytes;
use crate::open_rules::{
    Operand, counted_bits, is_all_ones, is_decided_by_open, low, open_binary, open_compared,
    open_extended, open_loaded, open_passed, open_unary,
};
use crate::origin::Origin;
use crate::shadow::{Shadow, are_one_temporary, value_of};
use crate::widths::class_right;
use qil_code::{NumberedExpr, NumberedOperand, PhiMove, Slot, class_returned};
use qil_tree::{AbiType, BinaryOp, Class, CompareOp, LoadOp};
use std::alloc::{AllocError, Allocator};

impl<'c, A: Allocator + Copy> Shadow<'c, A> {
    /// The open bits of an operand, read in a class.
    #[inline(always)]
    pub(crate) fn open_of(&self, class: Class, operand: NumberedOperand) -> u64 {
        match operand {
            NumberedOperand::Slot(slot) => low(class, self.open.get(slot)),
            NumberedOperand::Constant(_) => 0,
        }
    }

    fn operand(&self, slots: &[Option<u64>], class: Class, operand: NumberedOperand) -> Operand {
        Operand {
            value: low(class, value_of(slots, operand).unwrap_or(0)),
            open: self.open_of(class, operand),
        }
    }

    /// Notes that open bits are used, if there are some.
    #[inline(always)]
    pub(crate) fn use_bits(&mut self, open: u64)
        ensures { KeepsAll self.old self.new }
    {
        if open != 0 {
            self.open.note(self.position);
        }
    }

    /// Looks at the address of an access besides what it is made of.
    #[inline(always)]
    pub(crate) fn use_address(&mut self, origin: Origin, operand: NumberedOperand)
        ensures { KeepsAll self.old self.new }
    {
        if origin.is_number() || self.open_of(Class::L, operand) != 0 {
            self.open.note(self.position);
        }
    }

    /// Sets the open bits of what an expression gives.
    #[inline(always)]
    pub(crate) fn assign_open(
        &mut self,
        slots: &[Option<u64>],
        class: Class,
        to: Slot,
        expr: NumberedExpr,
    )
        ensures { KeepsAll self.old self.new }
    {
        let open = self.open_expr(slots, class, expr);
        self.open.set(to, open);
    }

    /// The open bits of what an expression gives.
    #[inline(always)]
    fn open_expr(&mut self, slots: &[Option<u64>], class: Class, expr: NumberedExpr) -> u64
        ensures { KeepsAll self.old self.new }
    {
        match expr {
            NumberedExpr::Unary(op, operand) => {
                if self.open_of(class, operand) == 0 {
                    0
                } else {
                    open_unary(op, class, self.operand(slots, class, operand))
                }
            }
            NumberedExpr::Binary(op, left, right) => {
                if self.open_of(class, left) | self.open_of(class_right(op, class), right) == 0 {
                    0
                } else {
                    self.open_binary(slots, class, op, left, right)
                }
            }
            NumberedExpr::Compare(op, looked, left, right) => {
                if self.open_of(looked, left) | self.open_of(looked, right) == 0 {
                    0
                } else {
                    self.open_compared(slots, looked, op, left, right)
                }
            }
            NumberedExpr::Extend(op, operand) => {
                open_extended(op, class, self.open_of(Class::W, operand))
            }
            NumberedExpr::Load(op, address) => self.open_loaded(slots, class, op, address),
        }
    }

    #[inline(never)]
    fn open_binary(
        &mut self,
        slots: &[Option<u64>],
        class: Class,
        op: BinaryOp,
        left: NumberedOperand,
        right: NumberedOperand,
    ) -> u64
        ensures { KeepsAll self.old self.new }
    {
        let one = self.operand(slots, class, left);
        let other = self.operand(slots, class_right(op, class), right);
        self.use_divided(op, class, one, other);
        open_binary(op, class, are_one_temporary(left, right), one, other)
    }

    /// Looks at what a division uses of its operands.
    fn use_divided(&mut self, op: BinaryOp, class: Class, one: Operand, other: Operand)
        ensures { KeepsAll self.old self.new }
    {
        match op {
            BinaryOp::Div | BinaryOp::Rem => self.use_signed(class, one, other),
            BinaryOp::Udiv | BinaryOp::Urem => self.use_bits(other.open),
            _ => {}
        }
    }

    /// A division with signs overflows by some dividends where its divisor is -1.
    fn use_signed(&mut self, class: Class, one: Operand, other: Operand)
        ensures { KeepsAll self.old self.new }
    {
        self.use_bits(other.open);
        if is_all_ones(class, other.value) {
            self.use_bits(one.open);
        }
    }

    #[inline(never)]
    fn open_compared(
        &self,
        slots: &[Option<u64>],
        class: Class,
        op: CompareOp,
        left: NumberedOperand,
        right: NumberedOperand,
    ) -> u64 {
        if are_one_temporary(left, right) {
            return 0;
        }
        let one = self.operand(slots, class, left);
        open_compared(op, class, one, self.operand(slots, class, right))
    }

    #[inline(always)]
    fn open_loaded(
        &self,
        slots: &[Option<u64>],
        class: Class,
        op: LoadOp,
        address: NumberedOperand,
    ) -> u64 {
        match value_of(slots, address) {
            Some(at) => open_loaded(op, class, self.open.memory.load(at, load_bytes(op))),
            None => 0,
        }
    }

    /// Whether a call of what lies at an address is one of that function for sure.
    fn is_function_at(&self, slot: Slot, address: u64) -> bool {
        match self.calls.origin(slot) {
            Origin::Address(object) => match self.calls.object(object) {
                Some(object) => object.is_function() && object.address == address,
                None => false,
            },
            _ => false,
        }
    }

    /// Looks at what is called.
    pub(crate) fn use_callee(&mut self, callee: NumberedOperand, address: u64)
        ensures { KeepsAll self.old self.new }
    {
        if let NumberedOperand::Slot(slot) = callee {
            if !self.is_function_at(slot, address) || self.open.get(slot) != 0 {
                self.open.note(self.position);
            }
        }
    }

    /// Looks at the value of a `jnz`.
    #[inline(always)]
    pub(crate) fn use_test(&mut self, test: NumberedOperand, value: u64)
        ensures { KeepsAll self.old self.new }
    {
        let open = self.open_of(Class::W, test);
        if open != 0 && is_decided_by_open(value, open) {
            self.open.note(self.position);
        }
    }

    /// Passes the open bits of an argument on to a parameter.
    pub(crate) fn pass_open(
        &mut self,
        given: AbiType,
        source: NumberedOperand,
        slot: Slot,
        wanted: AbiType,
    ) -> Result<(), AllocError>
        ensures all { KeepsAll self.old self.new }
        ensures moved { self.new.moved.items ≡ self.old.moved.items }
    {
        let passed = open_passed(given, self.open_of(given.class(), source));
        self.open.gather(slot, open_passed(wanted, passed))
    }

    /// Returns the open bits of an operand from a function with this type.
    pub(crate) fn return_open(&mut self, returns: Option<AbiType>, source: Option<NumberedOperand>)
        ensures { KeepsAll self.old self.new }
    {
        let open = match source {
            Some(source) => self.open_of(class_returned(returns), source),
            None => 0,
        };
        let abi_type = returns.unwrap_or(AbiType::W);
        if self.calls.depth() <= 1 {
            self.use_bits(open & counted_bits(abi_type));
        } else {
            self.open.give_back(open_passed(abi_type, open));
        }
    }

    /// Gives a phi its open bits.
    #[inline(always)]
    pub(crate) fn phi_open(&self, phi: &PhiMove) -> u64 {
        self.open_of(phi.class, phi.source)
    }

    /// The text that the step to come writes by `$puts`, if it does: its address.
    #[inline(always)]
    pub fn text(&self) -> Option<u64> {
        match self.text {
            Some((address, _)) => Some(address),
            None => None,
        }
    }

    /// Whether so many bytes of a text are all in a living object of their address.
    fn is_whole_text(&self, address: u64, origin: Origin, count: u64) -> bool {
        let Origin::Address(object) = origin else {
            return false;
        };
        match self.calls.object(object) {
            Some(object) => {
                object.ended.is_none() && !object.is_function() && object.contains(address, count)
            }
            None => self.is_block_right(object, address, count),
        }
    }

    /// Whether the text that was written may be wrong: it has so many bytes, or fewer than `$puts` would read.
    fn is_text_unsure(&self, count: Option<u64>) -> bool {
        let Some((address, origin)) = self.text else {
            return false;
        };
        match count {
            Some(count) => {
                !self.is_whole_text(address, origin, count)
                    || self.open.memory.has_open(address, count)
            }
            None => true,
        }
    }

    /// Looks at the bytes of the text that was written: so many, or fewer than `$puts` would read.
    pub fn look_at_text(&mut self, count: Option<u64>)
        ensures { KeepsAll self.old self.new }
    {
        let is_unsure = self.is_text_unsure(count);
        self.text = None;
        if is_unsure {
            self.open.note(self.position.saturating_sub(1));
        }
    }

    /// The first move of which more may be suspicious than its accesses: it uses open bits, or a number as an address, or calls what
    /// isn't a function for sure.
    pub fn first_unsure(&self) -> Option<u64> {
        self.open.first()
    }
}
