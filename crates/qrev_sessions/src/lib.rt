//! The sessions that a recorder drives: over copies of states, over a history that keeps every move, and over one that keeps the
//! newest.
//!
//! Each is a type of its own, since the types of a recorder can't name the bound of its history, which names a lifetime.
#![tactic(auto)]

mod bounded;
mod copies;
mod copying;
mod driven;
mod replying;
mod running;
mod whole;

pub use bounded::BoundedSession;
pub use copying::CopyingSession;
pub use driven::{DrivenOver, ShownOver};
pub use whole::WholeSession;
