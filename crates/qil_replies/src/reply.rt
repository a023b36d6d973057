//! The replies to commands.

use qil_accesses::Access;
use qil_commands::{LineName, Refused};
use qil_counts::Count;
use qil_semantics::Reason;
use qil_spans::Span;
use qil_stops::StopKind;
use qil_tree::Items;
use std::alloc::Allocator;

/// Why a line changed nothing and shows nothing.
#[derive(Clone, Copy)]
pub enum CommandRefusal {
    /// The run is over, so that there is no way forward.
    AtEnd,
    /// No move was made, so that there is none to take back.
    AtStart,
    /// The moves before now are forgotten.
    HistoryEnds,
    /// No call is open whose temporary could be set.
    NoFrame,
    /// The innermost function has no such temporary.
    UnknownTemporary,
    /// Not all of the bytes are live.
    DeadAddress,
    /// The program has no such function, block, instruction, temporary or global.
    UnknownPlace,
    /// There are 64 stops, or all numbers were given.
    TooManyStops,
    /// No stop has the number.
    NoSuchStop,
    /// The line spells no command.
    Line(Refused),
}

/// What a line is replied. Where it is shown what the run holds, that is read of the session that the reply leaves.
#[derive(Drop)]
pub enum Reply<'t, A: Allocator> {
    /// The line asked nothing.
    Nothing,
    /// The session is as it was.
    Refused(CommandRefusal),
    /// The session moved or a value was replaced: the place now.
    Place,
    /// The session moved until there was this reason to stop: the reason, and the place now.
    Stopped(Reason),
    /// The session moved: the accesses that were asked for, why it made no more moves, if that is said, and the place now.
    Accesses(Items<Access, A>, Option<Reason>),
    /// The session moved: how many of the moves were made from each place, why it made no more, if that is said, and the place now.
    Counts(Items<Count, A>, Option<Reason>),
    /// The session moved: the frames that ended or last, why it made no more moves, if that is said, and the place now.
    Spans(Items<Span, A>, Option<Reason>),
    /// A stop was added: its number, and what it looks for.
    Added(u64, StopKind),
    /// The stop of this number was deleted.
    Deleted(u64),
    /// The stops are shown, by number.
    Stops,
    /// The temporary of the innermost frame is shown that has this name; or that there is none.
    Temporary(LineName<'t>),
    /// All temporaries of the innermost frame are shown.
    Temporaries,
    /// So many bytes of memory are shown, from an address on.
    Bytes(u64, u32),
    /// The frames are shown.
    Frames,
    /// The block that the innermost frame is in is shown.
    Block,
    /// The output is shown.
    Output,
}
