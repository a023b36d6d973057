//! Where an editor's moves lead: past breakpoints whose conditions don't hold, from line to line of a source, and on until a message
//! comes.
#![tactic(auto)]

mod judging;
mod lines;
mod logging;
mod travelling;
mod underway;

pub use lines::Travel;
pub use travelling::{run_out, tell_arrived, tell_broken_off, travel_and_tell};
pub use underway::{Course, Pace, Underway, has_message, set_out};
