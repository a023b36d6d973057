//! The places of a program and the lines of its text: the line that a place depends on, and the place that a line means.
//!
//! Labels, phis, instructions and jumps have a line each. A label and its phis mean the beginning of their block; a jump that the
//! text leaves out has the line of the next label, which means the block after it.
#![tactic(auto)]

mod lines;

pub use lines::{Place, line_of, place_in};
