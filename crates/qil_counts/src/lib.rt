//! How often a run stands at each place of its code.
//!
//! `specs/Counts.antt` says what is counted: the states from which moves are made, by where they stand. Code reads a machine before
//! a move (`place_here`) and counts the place behind it (`CountTable::add`), whichever way the machine keeps its state. Only the table
//! takes memory, when it is made.
#![tactic(auto)]

mod count;
mod here;
mod laying;
mod table;

pub use count::{CodePlace, Count};
pub use here::place_here;
pub use table::CountTable;
