//! The kinds of events that are compared, an event, and what was found of a run.

use qil_layout::FuncId;

/// Which kinds of events are compared.
#[derive(Clone, Copy)]
pub struct Kinds {
    /// Bytes of output.
    pub output: bool,
    /// Writes to data objects that both programs define.
    pub writes: bool,
    /// Calls of functions that both programs define, and their returns.
    pub calls: bool,
    /// How the run ends.
    pub end: bool,
}

/// An event of a run, of which the machine stands behind it: what isn't here is read of that machine.
#[derive(Clone, Copy)]
pub enum Event {
    /// A byte of output.
    Output(u8),
    /// So many bytes were written to data, from an address on.
    Write(u64, u64),
    /// A function was called: the frame is the innermost one.
    Call,
    /// A function returned, with a value if it returns one.
    Return(FuncId, Option<u64>),
    /// The run is over. The function is the one that ended it.
    End(FuncId),
}

/// An event, and how many bytes of output have become events by then.
#[derive(Clone, Copy)]
pub struct Told {
    pub event: Event,
    pub told: usize,
}

/// What comes next in a run.
#[derive(Clone, Copy)]
pub enum Found {
    Event(Event),
    /// The run is over, and has no further event.
    Over,
    /// As many moves were made as may be, without an event.
    Limit,
}
