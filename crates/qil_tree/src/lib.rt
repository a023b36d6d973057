//! The tree of a program, and the classes, types and operations that it speaks of.
//!
//! Contracts see it as plain data: a name is its bytes, items are a list. Its parts are those of QBE's IL reference.
#![tactic(auto)]

mod ops;
mod tree;

pub use ops::{AbiType, AllocOp, BinaryOp, Class, CompareOp, Extension, LoadOp, UnaryOp, Width};
pub use tree::{
    Argument, Block, CallResult, Data, Definition, Expr, Field, Func, Inst, InstKind, Item, Items,
    Jump, JumpKind, Name, Operand, Param, Phi, PhiSource, Program, Target,
};
