//! The stops that an editor asks for, and the lines at which they can be: breakpoints at lines of the text or of a source that it
//! came from, breakpoints at functions, watches.
#![tactic(auto)]

mod asked_file;
mod locations;
mod places;
mod rules;
mod sources;
mod stops;

pub use locations::breakpoint_locations;
pub use sources::loaded_sources;
pub use stops::{set_breakpoints, set_by_words};
