//! Bytes in and out: devices that count their faults, texts that are put fragment by fragment, and a script's lines.
#![tactic(auto)]

mod buffer;
mod device;
mod put;
mod reader;

pub use buffer::Buffer;
pub use device::{DeviceFault, FromReader, IntoWriter, Sink, Source};
pub use put::{Outlet, Put, PutError, put_line, put_number, write_all};
pub use reader::{KeptLine, LineEnd, LineReader, NextByte, SCRIPT_LIMIT, ScriptBytes};
