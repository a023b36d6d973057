//! Numbers a checked program: from its tree to its code.
//!
//! What the code of a function is follows from its tree: `qil_code` says what, and answers from it.
#![tactic(auto)]

mod classes;
mod gather;
mod moves;
mod numbering;
mod ordered_names;
mod resolve;
mod shape;

pub use numbering::number;
