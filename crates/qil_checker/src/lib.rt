//! Whether a program is well-formed: the first place in its whole tree that breaks a rule.
#![tactic(auto)]

mod checker;
mod definition;
mod first_places;
mod lookup;
mod phi_labels;
mod predecessors;
mod program_index;
mod walk;

pub use checker::{CheckError, check};
pub use qil_rules::{Checked, Form, Rule};
