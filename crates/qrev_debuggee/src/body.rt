//! What a response has besides its head.

use qrev_protocol::{InObject, Object, Whole};

/// The body of a response.
pub type Body<A> = Object<A, InObject<Whole>>;
