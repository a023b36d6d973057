//! What a program is given: the words of its command line, what they say of a run, and the texts that they name.
#![tactic(auto)]

mod command_line;
mod failure;
mod program;
mod run;
mod text;

pub use command_line::{NO_TEXT, parse_words, refuse_words, words};
pub use failure::Failure;
pub use program::{Given, Kept, bound_of, budget_of, read_given, read_words};
pub use run::{RunOptions, args_arg, entry_arg, file_arg, history_arg, limit_arg, read_run};
pub use text::read_text;
