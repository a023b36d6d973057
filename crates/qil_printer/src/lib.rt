//! Canonical texts: how an instruction, a phi or a jump of the tree is written, by `specs/Canonical.antt`.
#![tactic(auto)]

mod canonical;

pub use canonical::{canonical_spells, inst_text, jump_text, phi_text};
pub use qil_streams::{Put, PutError};
