//! What an editor is shown of a state: its frames, the scopes of a frame, and the variables in a scope, as members of the body of
//! a response in the Debug Adapter Protocol. Nothing here moves a session.
#![tactic(auto)]

mod bytes;
mod data;
mod frames;
mod machine;
mod parts;
mod remarks;
mod scopes;
mod source_map;
mod temps;
mod texts;
mod values;
mod variable;

pub use bytes::{byte_at, value_at};
pub use data::{OBJECTS, data_float, data_named, data_size, data_word, put_data};
pub use frames::{Numbering, Shown, frame_of, put_frames, put_source};
pub use machine::put_machine;
pub use parts::{put_object_parts, put_pointed_parts, quoted};
pub use qil_history::FrameView;
pub use qil_render::{Readers, code_of};
pub use remarks::{data_around, remark_of, told_value};
pub use scopes::{DATA, MACHINE, put_scopes};
pub use source_map::{SourceLine, SourceMap, plain_path, same_file};
pub use temps::{POINTED, class_letter, letter_of, put_temps};
pub use texts::{as_text, joined, number_text, place_text, sigiled};
pub use values::{Style, value_text};
pub use variable::{Page, Showing};
