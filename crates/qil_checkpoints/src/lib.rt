//! A history over checkpoints: copies of some states of a run, from which the others are come to by running again, and the
//! pokes that were made in it. No move leaves a record, so that a run takes no memory for its moves, and nothing is forgotten.
#![tactic(auto)]

mod checkpoints;
mod depths;
mod history;
mod hit;
mod keeping;
mod poked;
mod replaying;
mod running;
mod searching;
mod shallow;
mod spacing;

pub use checkpoints::Checkpoints;
pub use hit::Hit;
pub use poked::{KeptPoke, Poked};
pub use qil_stops::Restorable;
