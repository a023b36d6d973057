//! Breakpoints and watches, and runs forward and back to the first place where there is a reason to stop, also over calls; and what
//! checkpoints ask of a machine, which stops look at as well.
//!
//! `specs/Named.antt` says what a stop represents in a program, by names; to what a run comes is the meaning's to say,
//! and `specs/Depths.antt` where a run over calls ends.
#![tactic(auto)]

mod depth_end;
mod depth_running;
mod found;
pub mod looking;
mod restorable;
mod running;
mod stop;
mod stops;
mod watchable;

pub use depth_end::DepthEnd;
pub use depth_running::{run_back_to_depth, run_to_depth};
pub use found::is_over;
pub use qil_history::{BackError, HasState, History, Machine, MoveError, PokeError, machine_of};
pub use restorable::Restorable;
pub use running::{bottom_or_limit, end_or, readings_here, run, run_back, stopped_here};
pub use stop::{NumberedStop, Place, StopKind, Watched};
pub use stops::{StopError, Stops};
pub use watchable::{HasCopies, Watchable};
