//! Divisions, and why one has no result. Signed ones are told apart by class: the least word by -1 is no overflow of the
//! 64 bits that it is computed in.

ghost use Rattle.std.specs.Prelude.{◌≡◌, ◌-◌, ◌^◌, ◌<◌, pos, ◌-ℤ◌, IfOk};
ghost use Rattle.qil_ops.specs.Operations.{binary_of, overflows_in};
ghost use Rattle.qil_ops.specs.Values.{width};

use crate::bits::{cut, low, signed};
use qil_tree::{BinaryOp, Class};

/// Why a division has no result.
#[derive(Clone, Copy, PartialEq, Eq)]
pub enum DivFault {
    /// The divisor is 0.
    Zero,
    /// The dividend is the least signed value of the class, and the divisor -1.
    Overflow,
}

fn quotient_of_words(a: u64, b: u64) -> Result<u64, DivFault>
    ensures value { result ≡ binary_of BinaryOp.Div Class.W a b }
    ensures fits { IfOk result (λ v. v < 2 ^ 32) }
{
    let dividend = signed(Class::W, a);
    let divisor = signed(Class::W, b);
    if divisor == 0 {
        return Err(DivFault::Zero);
    }
    if overflows(Class::W, dividend, divisor) {
        return Err(DivFault::Overflow);
    }
    Ok(cut(Class::W, dividend / divisor))
}

fn quotient_of_longs(a: u64, b: u64) -> Result<u64, DivFault>
    ensures value { result ≡ binary_of BinaryOp.Div Class.L a b }
    ensures fits { IfOk result (λ v. v < 2 ^ 64) }
{
    let dividend = signed(Class::L, a);
    let divisor = signed(Class::L, b);
    if divisor == 0 {
        return Err(DivFault::Zero);
    }
    if overflows(Class::L, dividend, divisor) {
        return Err(DivFault::Overflow);
    }
    Ok(cut(Class::L, dividend / divisor))
}

/// The signed quotient, truncated toward zero.
pub fn quotient(class: Class, a: u64, b: u64) -> Result<u64, DivFault>
    ensures value { result ≡ binary_of BinaryOp.Div class a b }
    ensures fits { IfOk result (λ v. v < 2 ^ width class) }
{
    match class {
        Class::W => quotient_of_words(a, b),
        Class::L => quotient_of_longs(a, b),
    }
}

/// The least signed value of a class.
fn least(class: Class) -> i64
    ensures { result ≡ pos 0 -ℤ pos (2 ^ (width class - 1)) }
{
    match class {
        Class::W => -2_147_483_648,
        Class::L => i64::MIN,
    }
}

/// Whether the quotient of two signed values of a class is beyond the class.
fn overflows(class: Class, dividend: i64, divisor: i64) -> bool
    ensures { result ≡ overflows_in (width class) dividend divisor }
{
    dividend == least(class) && divisor == -1
}

/// What the signed quotient leaves, with the dividend's sign.
pub fn remainder(class: Class, a: u64, b: u64) -> Result<u64, DivFault>
    ensures value { result ≡ binary_of BinaryOp.Rem class a b }
    ensures fits { IfOk result (λ v. v < 2 ^ width class) }
{
    let dividend = signed(class, a);
    let divisor = signed(class, b);
    if divisor == 0 {
        return Err(DivFault::Zero);
    }
    if overflows(class, dividend, divisor) {
        return Err(DivFault::Overflow);
    }
    Ok(cut(class, dividend.wrapping_rem(divisor)))
}

pub fn unsigned_quotient(class: Class, a: u64, b: u64) -> Result<u64, DivFault>
    ensures value { result ≡ binary_of BinaryOp.Udiv class a b }
    ensures fits { IfOk result (λ v. v < 2 ^ width class) }
{
    let divisor = low(class, b);
    if divisor == 0 {
        return Err(DivFault::Zero);
    }
    Ok(low(class, a) / divisor)
}

pub fn unsigned_remainder(class: Class, a: u64, b: u64) -> Result<u64, DivFault>
    ensures value { result ≡ binary_of BinaryOp.Urem class a b }
    ensures fits { IfOk result (λ v. v < 2 ^ width class) }
{
    let divisor = low(class, b);
    if divisor == 0 {
        return Err(DivFault::Zero);
    }
    Ok(low(class, a) % divisor)
}
