//! Classes, types and operations: what differs from one instruction to the next of the same shape.

ghost use Rattle.std.specs.Prelude.{◌≡◌};
ghost use Rattle.qil_tree.specs.Types.{class_of, type_of};

/// The class of a temporary: a word of 32 bits, or a long word of 64 (QBE IL, Simple Types).
#[derive(Clone, Copy, PartialEq, Eq)]
pub enum Class {
    W,
    L,
}

/// The type of a parameter, an argument, or a returned value (QBE IL, Functions): a class, or a part of a word of
/// 8 or 16 bits that is extended to the word by its sign or by zeros.
#[derive(Clone, Copy, PartialEq, Eq)]
pub enum AbiType {
    W,
    L,
    Sb,
    Ub,
    Sh,
    Uh,
}

impl AbiType {
    /// The class of a temporary of this type.
    pub fn class(self) -> Class
        ensures { result ≡ class_of self }
    {
        match self {
            AbiType::L => Class::L,
            AbiType::W | AbiType::Sb | AbiType::Ub | AbiType::Sh | AbiType::Uh => Class::W,
        }
    }

    /// The type that is a class.
    pub fn from_class(class: Class) -> AbiType
        ensures { result ≡ type_of class }
    {
        match class {
            Class::W => AbiType::W,
            Class::L => AbiType::L,
        }
    }
}

/// How many bytes an item of data or a store has: 1, 2, 4 or 8.
#[derive(Clone, Copy, PartialEq, Eq)]
pub enum Width {
    B,
    H,
    W,
    L,
}

/// The operations on one operand of the class of the result.
#[derive(Clone, Copy, PartialEq, Eq)]
pub enum UnaryOp {
    Copy,
    Neg,
}

/// The operations on two operands; both are of the class of the result, but the amount of a shift is a word
/// (QBE IL, Arithmetic and Bits).
#[derive(Clone, Copy, PartialEq, Eq)]
pub enum BinaryOp {
    Add,
    Sub,
    Mul,
    Div,
    Rem,
    Udiv,
    Urem,
    And,
    Or,
    Xor,
    Sar,
    Shr,
    Shl,
}

/// The comparisons (QBE IL, Comparisons): those that begin with `S` are signed, with `U` unsigned.
#[derive(Clone, Copy, PartialEq, Eq)]
pub enum CompareOp {
    Eq,
    Ne,
    Sle,
    Slt,
    Sge,
    Sgt,
    Ule,
    Ult,
    Uge,
    Ugt,
}

/// The extensions of the low 32, 16 or 8 bits of a word, by the sign or by zeros (QBE IL, Conversions).
#[derive(Clone, Copy, PartialEq, Eq)]
pub enum Extension {
    Sw,
    Uw,
    Sh,
    Uh,
    Sb,
    Ub,
}

/// The loads of 8, 4, 2 or 1 bytes, extended by the sign or by zeros (QBE IL, Memory).
#[derive(Clone, Copy, PartialEq, Eq)]
pub enum LoadOp {
    L,
    Sw,
    Uw,
    Sh,
    Uh,
    Sb,
    Ub,
}

/// The allocations on the stack, at a multiple of 4, 8 or 16 (QBE IL, Memory).
#[derive(Clone, Copy, PartialEq, Eq)]
pub enum AllocOp {
    Four,
    Eight,
    Sixteen,
}
