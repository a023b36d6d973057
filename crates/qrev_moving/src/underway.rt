//! A run that isn't over: it goes on piece by piece, and lets a message in between two of them.

ghost use Rattle.qrev_notices.specs.Conversation.{spoken, Tells};

use crate::lines::{Stand, Travel, stand_of};
use qil_machine::Code;
use qil_semantics::Reason;
use qil_streams::Sink;
use qrev_debuggee::{Debuggee, HasMachine, Why};
use qrev_notices::{Files, Port, Progress, Trouble, tell_progress};
use std::alloc::Allocator;

/// From how many pieces on an editor sees how far a run is, and behind how many it sees that again.
const PIECES_SHOWN: u64 = 16;

/// A travel that an editor asked for, and how far it is.
#[derive(Clone, Copy)]
pub struct Underway {
    pub travel: Travel,
    /// Where the run stood when it was asked for.
    pub start: Stand,
    /// The position at which its piece began, which has as many moves as the limit says.
    pub begun: u64,
    /// The position at which it began itself.
    pub origin: u64,
    /// How many of its pieces are done.
    pub pieces: u64,
}

/// Whether a run stands, or goes on when the messages that have come are answered.
#[derive(Clone, Copy)]
pub enum Course {
    Stands,
    Underway(Underway),
    /// To its end, past all stops: it isn't debugged.
    RunsOut,
}

/// How a run goes on behind a piece.
#[derive(Clone, Copy)]
pub struct Pace {
    /// Whether a run ends at the limit of moves.
    pub has_limit: bool,
    /// Whether a message was read already that is answered after this one.
    pub is_waiting: bool,
    /// Whether the editor shows how far a long run is.
    pub shows_progress: bool,
}

/// What a run does behind a piece.
#[derive(Clone, Copy, PartialEq, Eq)]
pub enum Onward {
    Stands,
    GoesOn,
    /// It waits until a message is answered.
    Waits,
}

/// Sets out on a travel.
pub fn set_out<'c, A: Allocator + Copy + 'c, L: HasMachine<A, Code<'c, A>>>(
    debuggee: &Debuggee<'c, A, L>,
    travel: Travel,
) -> Underway {
    let begun = debuggee.position();
    Underway {
        travel,
        start: stand_of(debuggee),
        begun,
        origin: begun,
        pieces: 0,
    }
}

/// The same travel with a piece more done, now that it is at a position.
pub fn next_piece(underway: Underway, position: u64) -> Underway {
    Underway {
        begun: position,
        pieces: underway.pieces.saturating_add(1),
        ..underway
    }
}

/// Whether a message has come that isn't answered yet, if that can be told.
pub fn has_message<A: Allocator, F: Files<A>>(files: &F, pace: Pace) -> Option<bool> {
    match files.has_input() {
        Some(has_input) => Some(has_input || pace.is_waiting),
        None => None,
    }
}

/// What a run does that came to a stop for this: it goes on past the limit of moves if none is meant, and if it can be told that a
/// message has come.
pub fn behind_piece<A: Allocator, F: Files<A>>(files: &F, pace: Pace, why: Why) -> Onward {
    if pace.has_limit || !matches!(why, Why::Run(Reason::Limit)) {
        return Onward::Stands;
    }
    match has_message(files, pace) {
        None => Onward::Stands,
        Some(true) => Onward::Waits,
        Some(false) => Onward::GoesOn,
    }
}

/// What an editor sees of a run with so many pieces done, if something.
fn progress_due(pieces: u64) -> Option<Progress> {
    if pieces == PIECES_SHOWN {
        return Some(Progress::Start);
    }
    if pieces > PIECES_SHOWN && pieces % PIECES_SHOWN == 0 {
        return Some(Progress::Update);
    }
    None
}

/// Tells how far a run is, where the editor shows it, and it is time to.
pub fn tell_underway<'c, A: Allocator + Copy + 'c, L: HasMachine<A, Code<'c, A>>, W: Sink>(
    debuggee: &Debuggee<'c, A, L>,
    port: &mut Port<A, W>,
    pace: Pace,
    underway: Underway,
) -> Result<(), Trouble>
    ensures { Tells result (spoken W.contents port.old) (spoken W.contents port.new) }
{
    let due = progress_due(underway.pieces);
    if !pace.shows_progress {
        return Ok(());
    }
    let Some(progress) = due else {
        return Ok(());
    };
    let position = debuggee.position();
    tell_progress(debuggee.alloc, progress, underway.origin, position, port)
}

/// Tells that a run is over of which was told how far it is.
pub fn tell_over<'c, A: Allocator + Copy + 'c, L: HasMachine<A, Code<'c, A>>, W: Sink>(
    debuggee: &Debuggee<'c, A, L>,
    port: &mut Port<A, W>,
    pace: Pace,
    underway: Underway,
) -> Result<(), Trouble>
    ensures { Tells result (spoken W.contents port.old) (spoken W.contents port.new) }
{
    if !pace.shows_progress || underway.pieces < PIECES_SHOWN {
        return Ok(());
    }
    let position = debuggee.position();
    tell_progress(
        debuggee.alloc,
        Progress::End,
        underway.origin,
        position,
        port,
    )
}
