//! What an editor asks for: the arguments of a request by name, and what those of a launch say.
#![tactic(auto)]

mod arguments;
mod launch;

pub use arguments::Arguments;
pub use launch::{BUDGET, Kept, Launch, Unfit, launch_said, unfit_words};
