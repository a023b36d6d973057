//! From the bytes of a program and a script to the bytes of the transcript: `debug`, and the same for long runs.
//!
//! What a program means stands in `qil_semantics`, what a command is answered in `qil_session`, how a script is served in
//! `qil_session`; specs/ here says what is written of all of it.
#![tactic(auto)]

mod debugging;
mod outcome;

pub use debugging::{debug, debug_replaying};
pub use outcome::Outcome;
pub use qil_loading::Refusal;
pub use qil_session::{IoFault, Next, Session, serve, serve_in_turn};
pub use qil_streams::{DeviceFault, FromReader, IntoWriter, Sink, Source};
