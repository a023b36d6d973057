//! Lines of text as lists of fragments.
#![tactic(auto)]

mod fragment;

pub use fragment::{Fragment, put_fragments};
