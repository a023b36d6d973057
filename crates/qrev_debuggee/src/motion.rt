//! The moves that an editor asks for, and why the run stands after one.

ghost use Rattle.std.specs.Prelude.{◌≡◌, IfOk, IfErr};
ghost use Rattle.qrev_debuggee.specs.Moves.{Moves, MoveFails, WentToBeginning, why_after, why_at};

use crate::debuggee::Debuggee;
use crate::failure::Failure;
use qil_machine::Code;
use qil_semantics::Reason;
use qrev_recorder::{CommandRefusal, DepthEnd, Done, HasMachine};
use std::alloc::Allocator;

/// A move that an editor asks for.
#[derive(Clone, Copy, PartialEq, Eq)]
pub enum Motion {
    Step,
    Back,
    Continue,
    Reverse,
    /// Forward, until no more calls are open than this.
    ToDepth(usize),
    /// Back, until no more calls are open than this.
    BackToDepth(usize),
    /// Back to the beginning of the call before which so many were open.
    ToBeginning(usize),
}

/// The reason of an event `stopped`.
#[derive(Clone, Copy)]
pub enum Why {
    Entry,
    Step,
    Run(Reason),
}

/// Why the run stands after a line.
fn why_after(done: Done) -> Why
    ensures { result ≡ why_after done }
{
    match done {
        Done::Stopped(reason) => Why::Run(reason),
        Done::Refused(CommandRefusal::AtStart) => Why::Run(Reason::Start),
        Done::Refused(CommandRefusal::HistoryEnds) => Why::Run(Reason::Oldest),
        Done::Refused(CommandRefusal::AtEnd) => Why::Run(Reason::End),
        _ => Why::Step,
    }
}

/// Why the run stands after a run over calls.
fn why_at(end: DepthEnd) -> Why
    ensures { result ≡ why_at end }
{
    match end {
        DepthEnd::Depth => Why::Step,
        DepthEnd::Stopped(reason) => Why::Run(reason),
    }
}

/// Goes back to before a call, and makes the call again. Where the history doesn't go back so far it stays at its oldest state.
fn go_to_beginning<'c, A: Allocator + Copy + 'c, L: HasMachine<A, Code<'c, A>>>(
    debuggee: &mut Debuggee<'c, A, L>,
    depth: usize,
) -> Result<Why, Failure>
    ensures moved { IfOk result (WentToBeginning (record { session = L.state debuggee.old.recorder.live; script = debuggee.old.recorder.script.items; transcript = debuggee.old.recorder.transcript.items })
        (record { session = L.state debuggee.new.recorder.live; script = debuggee.new.recorder.script.items; transcript = debuggee.new.recorder.transcript.items }) depth) }
    ensures failed { IfErr result (MoveFails (record { session = L.state debuggee.new.recorder.live; script = debuggee.new.recorder.script.items; transcript = debuggee.new.recorder.transcript.items })) }
{
    let mut end = debuggee.run_back_past_stops(depth)?;
    for _ in 0..u64::MAX {
        // One line makes no more moves than the limit, and the call may be further back.
        if end != DepthEnd::Stopped(Reason::Limit) {
            break;
        }
        end = debuggee.run_back_past_stops(depth)?;
    }
    if debuggee.depth() != depth {
        return Ok(why_at(end));
    }
    let done = debuggee.line(b"step")?;
    Ok(why_after(done))
}

/// Makes a move, and says why the run stands after it.
pub fn make_move<'c, A: Allocator + Copy + 'c, L: HasMachine<A, Code<'c, A>>>(
    debuggee: &mut Debuggee<'c, A, L>,
    motion: Motion,
) -> Result<Why, Failure>
    ensures moved { IfOk result (Moves motion (record { session = L.state debuggee.old.recorder.live; script = debuggee.old.recorder.script.items; transcript = debuggee.old.recorder.transcript.items })
        (record { session = L.state debuggee.new.recorder.live; script = debuggee.new.recorder.script.items; transcript = debuggee.new.recorder.transcript.items })) }
    ensures failed { IfErr result (MoveFails (record { session = L.state debuggee.new.recorder.live; script = debuggee.new.recorder.script.items; transcript = debuggee.new.recorder.transcript.items })) }
{
    match motion {
        Motion::Step => Ok(why_after(debuggee.line(b"step")?)),
        Motion::Back => Ok(why_after(debuggee.line(b"back")?)),
        Motion::Continue => Ok(why_after(debuggee.line(b"continue")?)),
        Motion::Reverse => Ok(why_after(debuggee.line(b"reverse")?)),
        Motion::ToDepth(most) => Ok(why_at(debuggee.run_to_depth(most)?)),
        Motion::BackToDepth(most) => Ok(why_at(debuggee.run_back_to_depth(most)?)),
        Motion::ToBeginning(depth) => go_to_beginning(debuggee, depth),
    }
}
