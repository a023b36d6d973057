//! What a well-formed program is: its text as occurrences, twelve rules over them, and a program that keeps them all.
#![tactic(auto)]

mod checked;
mod form;
mod occurrence;
mod rule;

pub use checked::Checked;
pub use form::Form;
pub use occurrence::{Occurrence, OccurrenceKind, PhiSources};
pub use rule::Rule;
