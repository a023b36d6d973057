//! The state of a machine as code holds it, by numbers, and the state by names that it represents.
#![tactic(auto)]

mod arguments;
mod status;
mod values;

pub use arguments::{argument, check_arguments, is_in_shape};
pub use status::{Fault, Status};
pub use values::{
    binary_value, compare_value, evaluate, extend_value, fitted, load_value, taken_by, unary_value,
    value,
};
