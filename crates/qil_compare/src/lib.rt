//! Two runs side by side, and the first event in which they differ.
//!
//! `specs/Events.antt` says what an event is, `specs/Answer.antt` what is answered. Nothing here takes memory.
#![tactic(auto)]

mod ahead;
mod alike;
mod calls;
mod comparing;
mod event;
mod forward;
mod happened;
mod laws;
mod running;
mod same;
mod seen;
mod standing;

pub use calls::{call_name, param_count, param_seen, returns_in};
pub use comparing::{Answer, Verdict, compare};
pub use event::{Event, Found, Kinds};
pub use forward::Forward;
pub use laws::number_is_of_longest_front;
pub use seen::{DataPlace, Seen};
pub use standing::{func_name_in, place_or_nowhere, seen_in};
