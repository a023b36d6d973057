//! What a line of a script says: its words, the commands that they spell, and the refusals of lines that spell
//! none. Nothing here takes memory, and names in a command are slices of the line.
#![tactic(auto)]

mod command;
mod next;
mod numbers;
mod read;
mod words;

pub use command::{Address, BreakPlace, Command, LineName, Refused};
pub use read::read_command;
