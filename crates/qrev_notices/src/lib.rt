//! What an editor gets besides the responses of a session: why a launch opens none, where the run stands, what became of the
//! record; and where its messages come from and go to.
#![tactic(auto)]

mod idle;
mod line;
mod port;
mod progress;
mod recording;
mod refusals;
mod source_map;
mod stopped;
mod trouble;

pub use idle::{client_said, progress_said, respond_idle};
pub use line::{Closed, Ended, Line, message_in};
pub use port::{Port, begin_body};
pub use progress::{Progress, tell_progress};
pub use qrev_debuggee::{
    Body, Cause, Client, Debuggee, Failure, Motion, StopFamily, Why, make_move,
};
pub use recording::{
    Files, RecordFault, keep_record, record_fault, record_name, record_words, write_record,
};
pub use refusals::{
    refuse_load, refuse_record, refuse_start, refuse_unfit, refuse_unread, refuse_with, tell_open,
};
pub use source_map::{MapFault, read_names, read_sources, refuse_map};
pub use stopped::{
    ended_elsewhere, fault_in, output_event, tell_end, tell_paused, tell_plain, tell_stopped,
};
pub use trouble::Trouble;
