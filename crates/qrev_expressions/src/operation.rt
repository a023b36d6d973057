//! The operations of an expression, in the order in which they are done: each takes its operands from what was worked out last.

use crate::value::Memory;

#[derive(Clone, Copy, PartialEq, Eq)]
pub enum Unary {
    Minus,
    Plus,
    Complement,
    Not,
    /// The bits of its operand as a number without a sign.
    Unsigned,
    /// The same with one.
    Signed,
}

#[derive(Clone, Copy, PartialEq, Eq)]
pub enum Binary {
    Or,
    And,
    BitOr,
    BitXor,
    BitAnd,
    Equal,
    NotEqual,
    Less,
    LessEqual,
    Greater,
    GreaterEqual,
    ShiftLeft,
    ShiftRight,
    Add,
    Subtract,
    Multiply,
    Divide,
    Remainder,
}

impl Binary {
    /// How tightly it binds.
    pub fn level(self) -> u8 {
        match self {
            Binary::Or => 1,
            Binary::And => 2,
            Binary::BitOr => 3,
            Binary::BitXor => 4,
            Binary::BitAnd => 5,
            Binary::Equal | Binary::NotEqual => 6,
            Binary::Less | Binary::LessEqual | Binary::Greater | Binary::GreaterEqual => 7,
            Binary::ShiftLeft | Binary::ShiftRight => 8,
            Binary::Add | Binary::Subtract => 9,
            Binary::Multiply | Binary::Divide | Binary::Remainder => 10,
        }
    }
}

/// A step of working an expression out.
#[derive(Clone, Copy)]
pub enum Operation<'x> {
    Number(u64),
    Float(f64),
    /// A temporary, by its name without its sigil.
    Temp(&'x [u8]),
    /// The address of data or of a function.
    Global(&'x [u8]),
    /// How many calls are open.
    Depth,
    Position,
    /// The memory at the address that was worked out.
    Load(Memory),
    Unary(Unary),
    Binary(Binary),
}
