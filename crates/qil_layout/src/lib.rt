//! Where the data and the functions of a program lie: addresses of names, and the bytes of the data.
#![tactic(auto)]

mod callee;
mod error;
mod image;
mod place;

pub use callee::{Callee, FuncId};
pub use error::LayoutCode;
pub use image::Image;
pub use place::{DATA_BASE, EXIT, FUNC_BASE, FUNC_STRIDE, PUTCHAR, PUTS, rounded_up};
