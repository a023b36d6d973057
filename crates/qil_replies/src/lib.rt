//! The reply to a command as a value, and its text; and what a transcript is.
//!
//! A debugger's prefix reads the value; a transcript has the text, which `put_reply` puts. `specs/Reply.antt` says the text of each
//! reply in the field's words, over the state that a machine represents and the stops.
#![tactic(auto)]

mod accesses;
mod counts;
mod put;
mod reply;
mod script;
mod spans;
mod stops;
mod texts;

pub use put::put_reply;
pub use qil_render::{Readers, code_of, is_final, put_place};
pub use reply::{CommandRefusal, Reply};
pub use script::script_has_answers;
