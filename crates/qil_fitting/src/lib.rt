//! Whether an undo record may be put back into a machine: the test of the condition of `Machine::undo`, for any undo record and any machine.
#![tactic(auto)]

mod kept;

pub use kept::fits;
