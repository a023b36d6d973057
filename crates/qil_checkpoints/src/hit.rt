//! A position at which going back stops.

use qil_semantics::Reason;

/// A position, and why going back stops there.
#[derive(Clone, Copy)]
pub struct Hit {
    pub position: u64,
    pub reason: Reason,
}
