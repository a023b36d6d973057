//! The operations, one function for each shape.

ghost use Rattle.std.specs.Prelude.{◌≡◌, ◌<◌, ◌^◌, IfOk};
ghost use Rattle.qil_ops.specs.Values.{width};
ghost use Rattle.qil_ops.specs.Operations.{unary_of, binary_of, holds, extended};

use crate::bits::{cut, low, places, signed};
use crate::division::{DivFault, quotient, remainder, unsigned_quotient, unsigned_remainder};
use qil_tree::{BinaryOp, Class, CompareOp, Extension, UnaryOp};

/// What an operation on one value of a class gives, as a value of that class. Bits of the operand above the class don't
/// count.
#[inline(always)]
pub fn unary(op: UnaryOp, class: Class, a: u64) -> u64
    ensures value { result ≡ unary_of op class a }
    ensures fits { result < 2 ^ width class }
{
    match op {
        UnaryOp::Copy => low(class, a),
        UnaryOp::Neg => low(class, a.wrapping_neg()),
    }
}

/// What an operation on two values of a class gives, as a value of that class (QBE IL, Arithmetic and Bits). Bits of the
/// operands above the class don't count; the amount of a shift is taken modulo the bits of the class.
///
/// # Errors
///
/// Only of `div`, `rem`, `udiv` and `urem`: `Zero` where the divisor is 0; of `div` and `rem` alone, `Overflow` where the
/// least signed value of the class is divided by -1.
#[inline(always)]
pub fn binary(op: BinaryOp, class: Class, a: u64, b: u64) -> Result<u64, DivFault>
    ensures value { result ≡ binary_of op class a b }
    ensures fits { IfOk result (λ v. v < 2 ^ width class) }
{
    match op {
        BinaryOp::Add => Ok(low(class, a.wrapping_add(b))),
        BinaryOp::Sub => Ok(low(class, a.wrapping_sub(b))),
        BinaryOp::Mul => Ok(low(class, a.wrapping_mul(b))),
        BinaryOp::Div => quotient(class, a, b),
        BinaryOp::Rem => remainder(class, a, b),
        BinaryOp::Udiv => unsigned_quotient(class, a, b),
        BinaryOp::Urem => unsigned_remainder(class, a, b),
        BinaryOp::And => Ok(low(class, a & b)),
        BinaryOp::Or => Ok(low(class, a | b)),
        BinaryOp::Xor => Ok(low(class, a ^ b)),
        BinaryOp::Sar => Ok(cut(class, signed(class, a) >> places(class, b))),
        BinaryOp::Shr => Ok(low(class, a) >> places(class, b)),
        BinaryOp::Shl => Ok(low(class, a.wrapping_shl(places(class, b)))),
    }
}

/// Whether a comparison of two values of a class holds (QBE IL, Comparisons). Bits above the class don't count.
#[inline(always)]
pub fn compare(op: CompareOp, class: Class, a: u64, b: u64) -> bool
    ensures { result ≡ holds op class a b }
{
    match op {
        CompareOp::Eq => low(class, a) == low(class, b),
        CompareOp::Ne => low(class, a) != low(class, b),
        CompareOp::Sle => signed(class, a) <= signed(class, b),
        CompareOp::Slt => signed(class, a) < signed(class, b),
        CompareOp::Sge => signed(class, a) >= signed(class, b),
        CompareOp::Sgt => signed(class, a) > signed(class, b),
        CompareOp::Ule => low(class, a) <= low(class, b),
        CompareOp::Ult => low(class, a) < low(class, b),
        CompareOp::Uge => low(class, a) >= low(class, b),
        CompareOp::Ugt => low(class, a) > low(class, b),
    }
}

/// The low 32, 16 or 8 bits as a number of 64 bits, by the sign or by zeros (QBE IL, Conversions). A result of class `w`
/// is its low 32 bits.
#[inline(always)]
pub fn extend(kind: Extension, v: u64) -> u64
    ensures { result ≡ extended kind v }
{
    match kind {
        Extension::Sw => i64::from(((v % (1 << 32)) as u32).cast_signed()).cast_unsigned(),
        Extension::Uw => v % (1 << 32),
        Extension::Sh => i64::from(((v % (1 << 16)) as u16).cast_signed()).cast_unsigned(),
        Extension::Uh => v % (1 << 16),
        Extension::Sb => i64::from(((v % (1 << 8)) as u8).cast_signed()).cast_unsigned(),
        Extension::Ub => v % (1 << 8),
    }
}
