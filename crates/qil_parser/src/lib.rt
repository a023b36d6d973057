//! The parser of QBE IL programs: tokens in, a tree out.
//!
//! `specs/Grammar.antt`, `Functions.antt`, `DataGrammar.antt` and `Programs.antt` are the grammar: which tokens spell which tree.
//! `specs/Fault.antt` says where tokens stop being a program's and what the fault is called. `parse` answers exactly what they
//! say.
#![tactic(auto)]

mod cursor;
mod cursor_error;
mod data_cursor;
mod error;
mod func_cursor;
mod inst_cursor;
mod parser;
mod program_cursor;
mod terminal;
mod words;

pub use error::{ParseCode, ParseError};
pub use parser::{one_fault, parse};
pub use qil_tree::{
    AbiType, AllocOp, Argument, BinaryOp, Block, CallResult, Class, CompareOp, Data, Definition,
    Expr, Extension, Field, Func, Inst, InstKind, Item, Items, Jump, JumpKind, LoadOp, Name,
    Operand, Param, Phi, PhiSource, Program, Target, UnaryOp, Width,
};
