//! What an editor asks of a state, and what sets a value in one: frames, scopes, variables, expressions, bytes; and what it is
//! offered while a command is typed.
#![tactic(auto)]

mod answering;
mod completing;
mod evaluating;
mod looking;
mod memory;
mod results;
mod setting;
mod watching;

pub use completing::completions;
pub use evaluating::evaluate;
pub use looking::{scopes, stack_trace, variables};
pub use memory::{read_memory, write_memory};
pub use setting::{set_expression, set_variable};
pub use watching::data_breakpoint_info;
