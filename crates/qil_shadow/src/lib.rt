//! The shadow of a run: what its values are made of, the objects that there are, and which moves are suspicious. The
//! definitions stand in specs/.
#![tactic(auto)]

mod access;
mod bytes;
mod calls;
mod constants;
mod edges;
mod heap;
mod heap_step;
mod laws;
mod memory;
mod names;
mod object;
mod open_bits;
mod open_memory;
mod open_rules;
mod open_step;
mod operations;
mod origin;
mod region;
mod shadow;
mod stack;
mod start;
mod step;
mod suspicion;
mod widths;

pub use access::{Action, Kind};
pub use heap::HeapRole;
pub use laws::{accesses_hold, words_go_through_memory};
pub use object::{BuiltIn, Object, ObjectKind};
pub use origin::{ByteOrigin, ObjectId, Origin};
pub use shadow::Shadow;
pub use suspicion::{Access, Doubt, Hit, Place, Suspicion};
