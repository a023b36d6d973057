//! The states of a run from its start to now: one contract for all ways to keep them, and the pokes of all kinds as one; and what
//! is read of a machine, whichever way it keeps its state: a session, and all that shows one, is over these readers.
#![tactic(auto)]

mod frame_view;
mod history;
mod poke;
mod readers;

pub use frame_view::FrameView;
pub use history::{BackError, HasState, History, SlotHistory, machine_of};
pub use poke::{Poke, apply_poke, poke_refusal};
pub use qil_machine::{BlockId, Code, Machine, MoveError, PokeError, Slot};
pub use readers::{HasProgram, Readers, code_of, is_final};
