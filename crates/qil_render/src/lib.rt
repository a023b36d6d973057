//! What is shown of a run: the line of its place, its temporaries, frames, memory and output, and the block that it is in.
//!
//! Each function puts the text that `specs/` says for the state that a machine represents. Nothing here takes memory.
#![tactic(auto)]

mod bytes;
mod frames;
mod listing;
mod names;
mod place;
mod temps;

pub use bytes::{put_byte, put_memory, put_next_byte, put_output, put_quoted};
pub use frames::put_frames;
pub use listing::put_block;
pub use names::{func_name, label_name, temp_name};
pub use place::put_place;
pub use qil_history::{Machine, Readers, code_of, is_final};
pub use temps::{put_printed, put_temps};
