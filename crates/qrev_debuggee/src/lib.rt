//! What an editor drives: a session that is recorded, what the editor was told of it, and why a request isn't done.
//!
//! It is generic in the session, so that it stands next to those and not above them.
#![tactic(auto)]

mod body;
mod client;
mod debuggee;
mod failure;
mod hitting;
mod motion;
mod rules;

pub use body::Body;
pub use client::Client;
pub use debuggee::{Debuggee, RequestedStop, StopFamily};
pub use failure::{Cause, Failure};
pub use hitting::hits;
pub use motion::{Motion, Why, make_move};
pub use qrev_recorder::{Done, HasMachine, Opening, Record};
pub use rules::{Comparison, HitRule, StopRule, hit_rule};
