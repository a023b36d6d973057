//! The Debug Adapter Protocol below its requests: messages in frames, in and out.
#![tactic(auto)]

mod header;
mod incoming;
mod line;
mod outgoing;
mod pending;
mod request;
mod values;

pub use incoming::{BODY_LIMIT, Came, HEADER_LIMIT, Incoming, ReadError};
pub use outgoing::{Outcome, event, response};
pub use request::{Request, flag_of, number_of, request_of, signed_of, text_of};
pub use values::{Array, InArray, InObject, Object, Surrounding, Whole};
