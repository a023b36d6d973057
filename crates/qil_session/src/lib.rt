//! A session: a history, stops, and how many moves a run makes at most; its answer to each line of a script,
//! and serving a script on it.
//!
//! `qil_replies` says what each command is replied, and what it does to the timeline and to the stops. `Session::reply` gives
//! the reply as a value, and `Session::answer` puts its text.
#![tactic(auto)]

mod accessing;
mod answer;
mod counting;
mod moves;
mod poking;
mod serving;
mod session;
mod showing;
mod spanning;
mod stopping;
mod words;

pub use answer::answer_line;
pub use qil_replies::{Reply, put_reply};
pub use qil_streams::{DeviceFault, FromReader, IntoWriter, Sink, Source};
pub use qil_undo_log::{DepthRuns, Runs, Stepwise};
pub use serving::{IoFault, serve, serve_in_turn, serve_lines};
pub use session::{Next, Session};
