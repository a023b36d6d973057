//! Which bits of a value may be open, that is, set by nothing: the rules of each operation. A mask has at least those bits that
//! are. Whatever values these bits have, the others of the result are the same.

ghost use Rattle.std.specs.Prelude.{◌<◌};

use qil_tree::{AbiType, BinaryOp, Class, CompareOp, Extension, LoadOp, UnaryOp};

const LOW_WORD: u64 = 4_294_967_295;

/// The bits of a class.
#[inline(always)]
fn class_bits(class: Class) -> u64 {
    match class {
        Class::W => LOW_WORD,
        Class::L => u64::MAX,
    }
}

/// The low bits of a value or of its open ones, if it is read as one of a class.
#[inline(always)]
pub(crate) fn low(class: Class, bits: u64) -> u64 {
    bits & class_bits(class)
}

#[inline(always)]
fn unset(bits: u64) -> u64 {
    bits ^ u64::MAX
}

/// A value with its open bits.
#[derive(Clone, Copy)]
pub(crate) struct Operand {
    pub value: u64,
    pub open: u64,
}

impl Operand {
    /// The least that it may be, as an unsigned number.
    fn least(self) -> u64 {
        self.value & unset(self.open)
    }

    /// The greatest that it may be.
    fn greatest(self) -> u64 {
        self.value | self.open
    }
}

/// A carry passes on what may reach it.
fn open_sum(left: Operand, right: Operand) -> u64 {
    let least = left.least().wrapping_add(right.least());
    let greatest = left.greatest().wrapping_add(right.greatest());
    left.open | right.open | (least ^ greatest)
}

fn open_difference(left: Operand, right: Operand) -> u64 {
    let least = left.least().wrapping_sub(right.greatest());
    let greatest = left.greatest().wrapping_sub(right.least());
    left.open | right.open | (least ^ greatest)
}

/// A product by 0 is set; of any other all bits count as open.
fn open_product(left: Operand, right: Operand) -> u64 {
    if left.greatest() == 0 || right.greatest() == 0 {
        0
    } else {
        u64::MAX
    }
}

/// An `and` with a bit that is set to 0 sets it.
fn open_and(left: Operand, right: Operand) -> u64 {
    (left.open | right.open) & left.greatest() & right.greatest()
}

/// An `or` with a bit that is set to 1 sets it.
fn open_or(left: Operand, right: Operand) -> u64 {
    (left.open | right.open) & unset(left.least()) & unset(right.least())
}

/// A shift by so many places of a value of a class moves its open bits; `sar` fills with its sign.
fn open_shifted(op: BinaryOp, class: Class, open: u64, places: u32) -> u64
    requires { places < 64 }
{
    match op {
        BinaryOp::Shl => open << places,
        BinaryOp::Sar => {
            let sign = match class {
                Class::W => 2_147_483_648,
                Class::L => 9_223_372_036_854_775_808,
            };
            if open & sign == 0 {
                open >> places
            } else {
                (open >> places) | unset(class_bits(class) >> places)
            }
        }
        _ => open >> places,
    }
}

/// By an amount that is open, all bits are.
fn open_shift(op: BinaryOp, class: Class, left: Operand, right: Operand) -> u64 {
    let most: u64 = match class {
        Class::W => 31,
        Class::L => 63,
    };
    if right.open & most != 0 {
        return u64::MAX;
    }
    open_shifted(op, class, left.open, (right.value % (most + 1)) as u32)
}

/// The open bits of what an operation of a class gives, one of whose operands has some.
pub(crate) fn open_binary(
    op: BinaryOp,
    class: Class,
    is_twice: bool,
    left: Operand,
    right: Operand,
) -> u64 {
    let open = match op {
        BinaryOp::Add => open_sum(left, right),
        BinaryOp::Sub => {
            if is_twice {
                0
            } else {
                open_difference(left, right)
            }
        }
        BinaryOp::Xor => { if is_twice { 0 } else { left.open | right.open } }
        BinaryOp::And => open_and(left, right),
        BinaryOp::Or => open_or(left, right),
        BinaryOp::Mul => open_product(left, right),
        BinaryOp::Shl | BinaryOp::Shr | BinaryOp::Sar => open_shift(op, class, left, right),
        BinaryOp::Div | BinaryOp::Rem | BinaryOp::Udiv | BinaryOp::Urem => u64::MAX,
    };
    low(class, open)
}

/// Of a copy, or of what is subtracted from 0.
pub(crate) fn open_unary(op: UnaryOp, class: Class, operand: Operand) -> u64 {
    match op {
        UnaryOp::Copy => operand.open,
        UnaryOp::Neg => {
            let zero = Operand { value: 0, open: 0 };
            low(class, open_difference(zero, operand))
        }
    }
}

/// Whether a comparison of two values of a class is open: of bits that are set and differ `ceq` and `cne` are settled, and others
/// count as open.
pub(crate) fn open_compared(op: CompareOp, class: Class, left: Operand, right: Operand) -> u64 {
    let set = unset(left.open | right.open) & class_bits(class);
    match op {
        CompareOp::Eq | CompareOp::Ne => {
            if (left.value ^ right.value) & set == 0 {
                1
            } else {
                0
            }
        }
        _ => 1,
    }
}

/// Of a part of a word, by the bits that the part has and its sign, extended by that sign.
fn open_signed(open: u64, bits: u64, sign: u64) -> u64 {
    if open & sign == 0 {
        open & bits
    } else {
        (open & bits) | unset(bits)
    }
}

/// Of an extension to a class.
pub(crate) fn open_extended(op: Extension, class: Class, open: u64) -> u64 {
    let extended = match op {
        Extension::Sw => open_signed(open, LOW_WORD, 2_147_483_648),
        Extension::Sh => open_signed(open, 65_535, 32_768),
        Extension::Sb => open_signed(open, 255, 128),
        Extension::Uw => open & LOW_WORD,
        Extension::Uh => open & 65_535,
        Extension::Ub => open & 255,
    };
    low(class, extended)
}

/// Of what a load gives, by those of the bytes.
pub(crate) fn open_loaded(op: LoadOp, class: Class, open: u64) -> u64 {
    match op {
        LoadOp::L => low(class, open),
        LoadOp::Sw => open_extended(Extension::Sw, class, open),
        LoadOp::Uw => open_extended(Extension::Uw, class, open),
        LoadOp::Sh => open_extended(Extension::Sh, class, open),
        LoadOp::Uh => open_extended(Extension::Uh, class, open),
        LoadOp::Sb => open_extended(Extension::Sb, class, open),
        LoadOp::Ub => open_extended(Extension::Ub, class, open),
    }
}

/// Whether all bits of a class are set to 1: a signed division by that may overflow.
pub(crate) fn is_all_ones(class: Class, value: u64) -> bool {
    low(class, value) == class_bits(class)
}

/// Whether the low 32 bits of a value are 0, as far as they are set. Then its open bits decide a `jnz`.
pub(crate) fn is_decided_by_open(value: u64, open: u64) -> bool {
    low(Class::W, open) != 0 && low(Class::W, value & unset(open)) == 0
}

/// Of a value that is passed on or given back as one of a type: what is above a part of a word is open from there on.
pub(crate) fn open_passed(abi_type: AbiType, open: u64) -> u64 {
    match abi_type {
        AbiType::W | AbiType::L => open,
        AbiType::Sb | AbiType::Ub => (open & 255) | 4_294_967_040,
        AbiType::Sh | AbiType::Uh => (open & 65_535) | 4_294_901_760,
    }
}

/// The bits of a value of a type that count where the run ends with it.
pub(crate) fn counted_bits(abi_type: AbiType) -> u64 {
    match abi_type {
        AbiType::L => u64::MAX,
        AbiType::W => LOW_WORD,
        AbiType::Sb | AbiType::Ub => 255,
        AbiType::Sh | AbiType::Uh => 65_535,
    }
}
