//! What a line did, and why one isn't answered.

ghost use Rattle.std.specs.Prelude.{◌≡◌};
ghost use Rattle.qrev_recorder.specs.Done.{moved_or_stopped, done_of};

use qil_replies::{CommandRefusal, Reply};
use qil_semantics::Reason;
use std::alloc::{AllocError, Allocator};

/// What a line did.
#[derive(Clone, Copy)]
pub enum Done {
    /// It showed something, or it asked nothing.
    Told,
    /// The session is as it was.
    Refused(CommandRefusal),
    /// A stop was added, of this number.
    Added(u64),
    /// The session moved, or a value was replaced.
    Moved,
    /// The session moved until there was this reason to stop.
    Stopped(Reason),
}

/// Why a line isn't answered. The session is as it was, but where memory ran out.
#[derive(Clone, Copy)]
pub enum LineError {
    /// It has a newline in it, so that it is no line.
    Newline,
    /// It is a `quit`, which ends a script.
    Quit,
    /// The script has as many bytes as one may have, or the session made as many moves.
    Full,
    /// There was no memory to keep the line or its answer. Nothing more is recorded.
    OutOfMemory,
}

impl From<AllocError> for LineError {
    ghost use Rattle.std.specs.Prelude.{◌≡◌};
    ghost use Rattle.qrev_recorder.specs.declared.done.LineError.TheVariants.{OutOfMemory};

    ghost from_gives = { λ _ error. error ≡ OutOfMemory };

    fn from(_refused: AllocError) -> Self {
        LineError::OutOfMemory
    }
}

/// What moves did, by why no more were made, if that is said.
fn moved_or_stopped(reason: Option<Reason>) -> Done
    ensures { result ≡ moved_or_stopped reason }
{
    match reason {
        Some(reason) => Done::Stopped(reason),
        None => Done::Moved,
    }
}

/// What a reply says that its line did.
pub fn done_by<A: Allocator>(reply: &Reply<'_, A>) -> Done
    ensures { result ≡ done_of reply.now }
{
    match reply {
        Reply::Refused(refusal) => Done::Refused(*refusal),
        Reply::Place => Done::Moved,
        Reply::Stopped(reason) => Done::Stopped(*reason),
        Reply::Accesses(_, reason) => moved_or_stopped(*reason),
        Reply::Counts(_, reason) => moved_or_stopped(*reason),
        Reply::Spans(_, reason) => moved_or_stopped(*reason),
        Reply::Added(number, _) => Done::Added(*number),
        _ => Done::Told,
    }
}
