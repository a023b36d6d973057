//! A debug adapter: the requests of an editor in the Debug Adapter Protocol, answered from a session of the debugger.
//!
//! The session moves by lines of its command language alone, and each line is kept. So what an editor did is a script, which the
//! debugger answers again with the same bytes.
#![tactic(auto)]

mod opening;
mod requests;
mod serving;
mod session;

pub use qrev_notices::{Ended, Files, Line};
pub use qrev_recorder::{Opening, Record};
pub use serving::serve;
