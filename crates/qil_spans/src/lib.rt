//! Between which states of a run a frame is there.
//!
//! `specs/Spans.antt` says which frames end along moves, and which begin and last, by how many frames each state has. Code reads
//! a machine before a move and after it (`look`), and a table notes what the move began or ended (`SpanTable::add`).
//! Only the table takes memory, when it is made.
#![tactic(auto)]

mod here;
mod laws;
mod span;
mod table;

pub use here::{Inner, look};
pub use span::Span;
pub use table::{SpanTable, told_of};
