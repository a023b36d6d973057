//! A machine over flat code: it moves in place, keeps nothing of its moves, and no step takes memory.
#![tactic(auto)]

mod advance;
mod assignments;
mod call;
mod copied;
mod found;
mod jump;
mod kept;
mod known;
mod machine;
mod output;
mod poke;
mod readers;
mod restorable;
mod start;
mod step;
mod stopping;

pub use copied::{CopiedMachine, Replaying};
pub use kept::KeptState;
pub use machine::FlatMachine;
pub use restorable::RestorableMachine;
