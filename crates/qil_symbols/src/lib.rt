//! Tables by name, for the layers that look names of a text up: a number for each name, the value that was recorded first
//! for a name, and all values that were recorded for it.
//!
//! A text's author picks the names, so all tables hash with keys that are drawn when the program starts.
#![tactic(auto)]

mod firsts;
mod groups;
mod numbers;

pub use firsts::Firsts;
pub use groups::Groups;
pub use numbers::Numbers;
