//! The forward pass over a run that notes its suspicions: a machine, and the shadow of its states beside it.
#![tactic(auto)]

mod laws;
mod notes;
mod pass;

pub use laws::all_are_counted;
pub use notes::{Note, Notes};
pub use pass::Pass;
pub use qil_shadow::{
    Access, Action, BuiltIn, Doubt, HeapRole, Hit, Kind, Object, ObjectId, ObjectKind, Origin,
    Place, Suspicion,
};
