//! The bits of a class: as a number without sign, as a number in two's complement, and as an amount to shift by.

ghost use Rattle.std.specs.Prelude.{◌≡◌, ◌<◌, ◌%◌, ◌^◌};
ghost use Rattle.qil_ops.specs.Values.{width, low_bits, as_signed, as_bits};

use qil_tree::Class;

/// The low bits that a value of the class keeps.
#[inline(always)]
pub fn low(class: Class, v: u64) -> u64
    ensures value { result ≡ low_bits (width class) v }
    ensures fits { result < 2 ^ width class }
{
    match class {
        Class::W => v % (1 << 32),
        Class::L => v,
    }
}

/// The low bits in two's complement.
#[inline(always)]
pub fn signed(class: Class, v: u64) -> i64
    ensures { result ≡ as_signed (width class) v }
{
    match class {
        Class::W => i64::from(((v % (1 << 32)) as u32).cast_signed()),
        Class::L => v.cast_signed(),
    }
}

/// A whole number in the bits of a class.
#[inline(always)]
pub fn cut(class: Class, v: i64) -> u64
    ensures value { result ≡ as_bits (width class) v }
    ensures fits { result < 2 ^ width class }
{
    low(class, v.cast_unsigned())
}

/// The number of bits that a shift moves by.
#[inline(always)]
pub fn places(class: Class, amount: u64) -> u32
    ensures { result ≡ amount % width class }
{
    match class {
        Class::W => (amount % 32) as u32,
        Class::L => (amount % 64) as u32,
    }
}
