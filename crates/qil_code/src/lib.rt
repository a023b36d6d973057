//! The numbered form of a program, which a machine is to run: temporaries and blocks are numbers, globals addresses.
//!
//! What the code of a function is follows from its tree: `specs/Numbered.antt` has it as a function, and
//! `specs/Named.antt` reads the parts back through names.
#![tactic(auto)]

mod code;
mod numbered;
mod widths;

pub use code::Code;
pub use numbered::{
    BlockId, Edge, FuncCode, NumberedArgument, NumberedBlock, NumberedExpr, NumberedFunc,
    NumberedInst, NumberedJump, NumberedOperand, PhiMove, Receiver, Slot,
};
pub use qil_semantics::FuncId;
pub use widths::{alignment, byte_count, class_returned, class_stored};
