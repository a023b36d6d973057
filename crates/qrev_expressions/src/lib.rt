//! Expressions of numbers, temporaries, names and memory, as the terminal has them: `%i > 3 && w[$table+4*%i] != 0`. They are read
//! once, and evaluated in a state of the session.
#![tactic(auto)]

mod evaluating;
mod lexer;
mod operation;
mod parsing;
mod scene;
mod telling;
mod value;

pub use evaluating::{evaluate, holds, low_bits};
pub use operation::{Binary, Operation, Unary};
pub use parsing::{Expression, Unread, parse};
pub use scene::{Scene, address_named, bits_at, named_temp};
pub use telling::{Told, tell};
pub use value::{Memory, Missing, Sized, Value};
