//! The accesses of moves: which bytes of memory each reads and writes.
//!
//! `specs/Accesses.antt` says which accesses a move makes, and which of them touch some bytes. Code reads a machine before a move
//! (`look_ahead`) and after it (`note_move`), whichever way it keeps its state. Only the list takes memory.
#![tactic(auto)]

mod access;
mod ahead;
mod laws;
mod list;
mod made;

pub use access::{Access, Action};
pub use ahead::{Ahead, look_ahead};
pub use laws::accesses_are_those_of_each_state;
pub use list::{AccessList, note_move};
