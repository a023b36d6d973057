//! The operations of QBE IL on values, which are 64-bit blobs of which a class keeps the low bits: what
//! `specs/Operations.antt` says in whole numbers. Nothing here takes memory.
#![tactic(auto)]

mod bits;
mod division;
mod laws;
mod operations;

pub use division::DivFault;
pub use laws::{bit_by_bit, quotient_truncates, shifted_bits, signed_value};
pub use operations::{binary, compare, extend, unary};
