//! A session that keeps what was done in it: the lines that were answered, and the transcript that a script of them has.
//!
//! Nothing moves the session but a recorder's own calls, so that its record is always a script with its transcript:
//! `specs/Record.antt` says so. It is what a front end records with, be it an editor's adapter or another.
#![tactic(auto)]

mod debugged;
mod done;
mod keeping;
mod recorder;

pub use debugged::{Debugged, HasMachine};
pub use done::{Done, LineError};
pub use qil_replies::CommandRefusal;
pub use qil_stops::DepthEnd;
pub use recorder::{Opening, Record, Recorder};
