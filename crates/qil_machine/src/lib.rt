//! The machine: one state changed in place, a small record of each move, and the way back by it.
#![tactic(auto)]

mod advance;
mod apart;
mod call;
mod error;
mod jump;
mod log;
mod machine;
mod output;
mod placed;
mod poke;
mod readers;
mod same;
mod start;
mod step;
mod undo;
mod undo_record;
mod watched;

pub use call::only_argument;
pub use error::{MoveError, PokeError, StartError};
pub use log::{OneUndoRecord, UndoSink};
pub use machine::Machine;
pub use output::{OUTPUT_LIMIT, copy_text, text_length};
pub use qil_code::{BlockId, Code, Receiver, Slot};
pub use qil_frames::Frame;
pub use qil_state::Status;
pub use undo::value_of;
pub use undo_record::{Copied, Grown, UndoKind, UndoRecord};
