//! The data and the functions of a program are laid out: `layout` makes the image that `qil_layout` reads.
#![tactic(auto)]

mod error;
mod fill;
mod laws;
mod laying;
mod names;
mod place;
mod room;

pub use error::LayoutError;
pub use laws::{
    least_multiple, names_are_own, names_have_their_own, objects_stand, objects_stand_in_order,
    padding_is_zero,
};
pub use laying::layout;
