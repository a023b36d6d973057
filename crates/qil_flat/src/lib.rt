//! What the machine of long runs is made of: flat code, the calls of a run with all slots in one list, and copies of a memory
//! without its dead bytes.
//!
//! Flat code has the instructions of all functions in one list, each of 16 bytes, in which a place is one number.
//!
//! It is made of numbered code, and each of its instructions stands for the numbered one of its place, or leaves that to
//! it: `specs/Flat.antt` says what that is.
#![tactic(auto)]

mod bytes;
mod call;
mod calls;
mod code;
mod flattening;
mod inst;
mod jumps;
mod kept;
mod kept_memory;
mod numbered;
mod parts;
mod phis;
mod places;
mod stack;

pub use call::{Returned, ShownCall};
pub use code::FlatCode;
pub use flattening::flatten;
pub use inst::{FlatCall, FlatEdge, FlatInst, FlatPlace};
pub use kept::KeptCalls;
pub use kept_memory::KeptMemory;
pub use stack::CallStack;
