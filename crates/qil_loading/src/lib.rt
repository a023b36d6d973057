//! Loading: from the bytes of a text to a checked program, or to the line that says why there is none.
//!
//! What a program is stands in the layers below; `specs/Load.antt` says which texts are accepted, and for what others are
//! refused.
#![tactic(auto)]

mod load;
mod loaded;
mod refusal;

pub use load::{LoadError, check_text};
pub use loaded::{Loaded, put_loaded_line};
pub use refusal::{Refusal, put_refusal_line};
