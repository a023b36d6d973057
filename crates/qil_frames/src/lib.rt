//! The calls of a run that are not over, each a frame with its temporaries in numbered slots, and what is done to the innermost.
#![tactic(auto)]

mod frame;
mod frames;
mod phis;
mod saved;
mod values;

pub use frame::Frame;
pub use frames::Frames;
pub use saved::{KeptSlots, PhiFault, PhiSaved, SavedSlot};
