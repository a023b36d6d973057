//! What operands, expressions and the arguments of a call give in the slots of a frame, and values as types have them.
//! Nothing changes here, and nothing takes memory.
//!
//! The type parameter is the allocator of the programs that the clauses speak of.

ghost use Rattle.std.specs.Prelude.{◌≡◌, List, length, option_map};
ghost use Rattle.qil_tree.specs.declared.tree.Program.{Program};
ghost use Rattle.qil_rules.specs.Operands.{right_class as second_class};
ghost use Rattle.qil_memory.specs.Live.{Live, live};
ghost use Rattle.qil_semantics.specs.State.{Name};
ghost use Rattle.qil_semantics.specs.Slots.{temps_of};
ghost use Rattle.qil_semantics.specs.Values.{val, load_of, fit};
ghost use Rattle.qil_semantics.specs.Calls.{taken};
ghost use Rattle.qil_code.specs.declared.numbered.NumberedExpr.{NumberedExpr};
ghost use Rattle.qil_code.specs.Named.{named_operand, named_expr};
ghost use Rattle.qil_code.specs.Ranges.{InRange, ExprInRange};
ghost use Rattle.qil_state.specs.Faults.{reported};
ghost use Rattle.qil_state.specs.Values.{AreSlots, evaluated};

use crate::status::Fault;
use qil_code::{NumberedExpr, NumberedOperand};
use qil_memory::Memory;
use qil_ops::{binary, compare, extend, unary};
use qil_tree::{AbiType, BinaryOp, Class, CompareOp, Extension, LoadOp, UnaryOp};
use std::alloc::Allocator;

/// The value of an operand in a class.
///
/// # Errors
///
/// The slot, where it is unset.
#[inline(always)]
pub fn value<A: Allocator>(
    slots: &[Option<u64>],
    class: Class,
    source: NumberedOperand,
) -> Result<u64, Fault>
    requires { InRange (length slots.now) source }
    ensures { (p : Program A) (ns : List Name) → AreSlots ns slots.now → reported ns result ≡ val p (temps_of ns slots.now) class (named_operand ns source) }
{
    match source {
        NumberedOperand::Constant(v) => Ok(unary(UnaryOp::Copy, class, v)),
        NumberedOperand::Slot(slot) => match slots[usize::from(slot.index)] {
            Some(v) => Ok(unary(UnaryOp::Copy, class, v)),
            None => Err(Fault::Unset(slot)),
        },
    }
}

/// The class of the second operand: the amount of a shift is a word.
#[inline(always)]
fn right_class(op: BinaryOp, class: Class) -> Class
    ensures { result ≡ second_class op class }
{
    match op {
        BinaryOp::Sar | BinaryOp::Shr | BinaryOp::Shl => Class::W,
        _ => class,
    }
}

#[inline(always)]
fn load<A: Allocator + Copy>(memory: &Memory<A>, op: LoadOp, address: u64) -> Result<u64, Fault>
    ensures { (ns : List Name) → reported ns result ≡ load_of (live memory.now) op address }
{
    Ok(match op {
        LoadOp::L => memory.load(address, 8)?,
        LoadOp::Sw => extend(Extension::Sw, memory.load(address, 4)?),
        LoadOp::Uw => extend(Extension::Uw, memory.load(address, 4)?),
        LoadOp::Sh => extend(Extension::Sh, memory.load(address, 2)?),
        LoadOp::Uh => extend(Extension::Uh, memory.load(address, 2)?),
        LoadOp::Sb => extend(Extension::Sb, memory.load(address, 1)?),
        LoadOp::Ub => extend(Extension::Ub, memory.load(address, 1)?),
    })
}

/// The value of an operation on one operand.
///
/// # Errors
///
/// The operand, where it is unset.
#[inline(always)]
pub fn unary_value<A: Allocator>(
    slots: &[Option<u64>],
    op: UnaryOp,
    class: Class,
    a: NumberedOperand,
) -> Result<u64, Fault>
    requires { ExprInRange (length slots.now) (NumberedExpr.Unary op a) }
    ensures { (p : Program A) (m : Live) (ns : List Name) → AreSlots ns slots.now → reported ns result ≡ evaluated p m (temps_of ns slots.now) class (named_expr ns (NumberedExpr.Unary op a)) }
{
    Ok(unary(op, class, value::<A>(slots, class, a)?))
}

/// The value of an operation on two operands.
///
/// # Errors
///
/// The first operand that is unset, or a division with no result.
#[inline(always)]
pub fn binary_value<A: Allocator>(
    slots: &[Option<u64>],
    op: BinaryOp,
    class: Class,
    a: NumberedOperand,
    b: NumberedOperand,
) -> Result<u64, Fault>
    requires { ExprInRange (length slots.now) (NumberedExpr.Binary op a b) }
    ensures { (p : Program A) (m : Live) (ns : List Name) → AreSlots ns slots.now → reported ns result ≡ evaluated p m (temps_of ns slots.now) class (named_expr ns (NumberedExpr.Binary op a b)) }
{
    let left = value::<A>(slots, class, a)?;
    let right = value::<A>(slots, right_class(op, class), b)?;
    Ok(binary(op, class, left, right)?)
}

/// 1 where a comparison of two operands of the class `of` holds, else 0.
///
/// # Errors
///
/// The first operand that is unset.
#[inline(always)]
pub fn compare_value<A: Allocator>(
    slots: &[Option<u64>],
    op: CompareOp,
    of: Class,
    a: NumberedOperand,
    b: NumberedOperand,
) -> Result<u64, Fault>
    requires { ExprInRange (length slots.now) (NumberedExpr.Compare op of a b) }
    ensures { (p : Program A) (m : Live) (c : Class) (ns : List Name) → AreSlots ns slots.now → reported ns result ≡ evaluated p m (temps_of ns slots.now) c (named_expr ns (NumberedExpr.Compare op of a b)) }
{
    let left = value::<A>(slots, of, a)?;
    let right = value::<A>(slots, of, b)?;
    Ok(u64::from(compare(op, of, left, right)))
}

/// The extension of an operand.
///
/// # Errors
///
/// The operand, where it is unset.
#[inline(always)]
pub fn extend_value<A: Allocator>(
    slots: &[Option<u64>],
    op: Extension,
    a: NumberedOperand,
) -> Result<u64, Fault>
    requires { ExprInRange (length slots.now) (NumberedExpr.Extend op a) }
    ensures { (p : Program A) (m : Live) (c : Class) (ns : List Name) → AreSlots ns slots.now → reported ns result ≡ evaluated p m (temps_of ns slots.now) c (named_expr ns (NumberedExpr.Extend op a)) }
{
    Ok(extend(op, value::<A>(slots, Class::W, a)?))
}

/// What is read from memory at the address that an operand holds.
///
/// # Errors
///
/// The operand, where it is unset, or the first address of those that is dead.
#[inline(always)]
pub fn load_value<A: Allocator + Copy>(
    memory: &Memory<A>,
    slots: &[Option<u64>],
    op: LoadOp,
    a: NumberedOperand,
) -> Result<u64, Fault>
    requires { ExprInRange (length slots.now) (NumberedExpr.Load op a) }
    ensures { (p : Program A) (c : Class) (ns : List Name) → AreSlots ns slots.now → reported ns result ≡ evaluated p (live memory.now) (temps_of ns slots.now) c (named_expr ns (NumberedExpr.Load op a)) }
{
    load(memory, op, value::<A>(slots, Class::L, a)?)
}

/// The value of an expression whose result has a class.
///
/// # Errors
///
/// The first operand from the left that is unset, a dead address that is loaded from, or a division with no result.
// Put into its caller it makes a step of the machine too large to be put into the loops that make moves.
#[inline(never)]
pub fn evaluate<A: Allocator + Copy>(
    memory: &Memory<A>,
    slots: &[Option<u64>],
    class: Class,
    expr: &NumberedExpr,
) -> Result<u64, Fault>
    requires { ExprInRange (length slots.now) expr.now }
    ensures { (p : Program A) (ns : List Name) → AreSlots ns slots.now → reported ns result ≡ evaluated p (live memory.now) (temps_of ns slots.now) class (named_expr ns expr.now) }
{
    match expr {
        NumberedExpr::Unary(op, a) => unary_value::<A>(slots, *op, class, *a),
        NumberedExpr::Binary(op, a, b) => binary_value::<A>(slots, *op, class, *a, *b),
        NumberedExpr::Compare(op, of, a, b) => compare_value::<A>(slots, *op, *of, *a, *b),
        NumberedExpr::Extend(op, a) => extend_value::<A>(slots, *op, *a),
        NumberedExpr::Load(op, a) => load_value(memory, slots, *op, *a),
    }
}

/// A value as a type has it.
#[inline(always)]
pub fn fitted(abi_type: AbiType, v: u64) -> u64
    ensures { result ≡ fit abi_type v }
{
    match abi_type {
        AbiType::W => unary(UnaryOp::Copy, Class::W, v),
        AbiType::L => unary(UnaryOp::Copy, Class::L, v),
        AbiType::Sb => unary(UnaryOp::Copy, Class::W, extend(Extension::Sb, v)),
        AbiType::Ub => unary(UnaryOp::Copy, Class::W, extend(Extension::Ub, v)),
        AbiType::Sh => unary(UnaryOp::Copy, Class::W, extend(Extension::Sh, v)),
        AbiType::Uh => unary(UnaryOp::Copy, Class::W, extend(Extension::Uh, v)),
    }
}

/// What a caller's slot takes of what was returned, by the type that is written at the call.
#[inline(always)]
pub fn taken_by(abi_type: AbiType, value: Option<u64>) -> Option<u64>
    ensures { result ≡ option_map (taken abi_type) value }
{
    match value {
        None => None,
        Some(v) => Some(unary(UnaryOp::Copy, abi_type.class(), fitted(abi_type, v))),
    }
}
