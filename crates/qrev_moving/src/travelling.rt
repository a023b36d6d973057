//! Moves with their events: what logpoints write on the way, and `stopped` at the end.

ghost use Rattle.std.specs.Prelude.{◌≡◌, codes, IfOk, None};
ghost use Rattle.qrev_notices.specs.Conversation.{spoken, Tells};
ghost use Rattle.qrev_notices.specs.Last.{HasToldLast, TellsLast};

use crate::judging::judge;
use crate::lines::{Next, Stand, Travel, is_spent, line_back, line_step};
use crate::underway::{
    Course, Onward, Pace, Underway, behind_piece, next_piece, tell_over, tell_underway,
};
use qil_machine::Code;
use qil_semantics::Reason;
use qil_streams::Sink;
use qrev_debuggee::{Debuggee, Failure, HasMachine, Motion, Why, make_move};
use qrev_notices::{Files, Port, Trouble, output_event, tell_end, tell_paused, tell_stopped};
use std::alloc::{AllocError, Allocator};

/// What is written if the record takes no line more.
const FULL: &str = "the script is full: no line more is taken\n";

/// Makes the next move of a travel.
fn move_on<'c, A: Allocator + Copy + 'c, L: HasMachine<A, Code<'c, A>>>(
    debuggee: &mut Debuggee<'c, A, L>,
    travel: Travel,
    start: Stand,
    begun: u64,
) -> Result<Next, Failure> {
    match travel {
        Travel::Motion(motion) => Ok(Next::Stands(make_move(debuggee, motion)?)),
        Travel::Line { into } => line_step(debuggee, start, into),
        Travel::LineBack => Ok(Next::Stands(line_back(debuggee, begun)?)),
    }
}

/// Makes the next move of a travel, and gives whether the run stops behind it; adds what logpoints write.
fn travel_on<'c, A: Allocator + Copy + 'c, L: HasMachine<A, Code<'c, A>>>(
    debuggee: &mut Debuggee<'c, A, L>,
    travel: Travel,
    start: Stand,
    begun: u64,
    log: &mut String<A>,
) -> Result<Next, Failure> {
    if let Next::Stands(why) = move_on(debuggee, travel, start, begun)? {
        if judge(debuggee, why, log)? {
            return Ok(Next::Stands(why));
        }
    }
    if is_spent(debuggee, begun) {
        return Ok(Next::Stands(Why::Run(Reason::Limit)));
    }
    Ok(Next::GoesOn)
}

/// Travels until the run stops or a logpoint writes something.
fn travel_far<'c, A: Allocator + Copy + 'c, L: HasMachine<A, Code<'c, A>>>(
    debuggee: &mut Debuggee<'c, A, L>,
    underway: Underway,
    log: &mut String<A>,
) -> Result<Next, Failure> {
    let (travel, start, begun) = (underway.travel, underway.start, underway.begun);
    for _ in 0..u64::MAX {
        let next = travel_on(debuggee, travel, start, begun, log)?;
        if matches!(next, Next::Stands(_)) || !log.is_empty() {
            return Ok(next);
        }
    }
    Ok(Next::GoesOn)
}

/// Tells what breakpoints told, if they did.
fn tell_log<A: Allocator + Copy, W: Sink>(
    alloc: A,
    log: &str,
    port: &mut Port<A, W>,
) -> Result<(), Trouble>
    ensures { Tells result (spoken W.contents port.old) (spoken W.contents port.new) }
{
    if log.is_empty() {
        return Ok(());
    }
    port.tell(output_event(alloc, "console", log)?)
}

/// Why the run stands, if it does.
fn why_standing(next: Next) -> Option<Why> {
    match next {
        Next::Stands(why) => Some(why),
        Next::GoesOn => None,
    }
}

/// Travels on, and sends what logpoints write; gives why the run stops, if it does.
fn travel_and_log<'c, A: Allocator + Copy + 'c, L: HasMachine<A, Code<'c, A>>, W: Sink>(
    debuggee: &mut Debuggee<'c, A, L>,
    port: &mut Port<A, W>,
    underway: Underway,
) -> Result<Option<Why>, Trouble>
    ensures { Tells result (spoken W.contents port.old) (spoken W.contents port.new) }
{
    let alloc = debuggee.alloc;
    let mut log = String::new(alloc);
    let next = match travel_far(debuggee, underway, &mut log) {
        Ok(next) => next,
        Err(Failure::OutOfMemory) => return Err(Trouble::OutOfMemory),
        Err(_) => {
            tell_log(alloc, FULL, port)?;
            return Ok(Some(Why::Step));
        }
    };
    tell_log(alloc, log.as_str(), port)?;
    Ok(why_standing(next))
}

/// Tells that a run stands that was underway, for a reason of its own.
pub fn tell_arrived<'c, A: Allocator + Copy + 'c, L: HasMachine<A, Code<'c, A>>, W: Sink>(
    debuggee: &mut Debuggee<'c, A, L>,
    port: &mut Port<A, W>,
    pace: Pace,
    underway: Underway,
    why: Why,
) -> Result<(), Trouble>
    ensures events { Tells result (spoken W.contents port.old) (spoken W.contents port.new) }
    ensures stands { TellsLast result (codes "stopped") (spoken W.contents port.new) }
{
    tell_over(debuggee, port, pace, underway)?;
    tell_stopped(debuggee, why, port)
}

/// Tells that a run was paused that was underway.
pub fn tell_broken_off<'c, A: Allocator + Copy + 'c, L: HasMachine<A, Code<'c, A>>, W: Sink>(
    debuggee: &mut Debuggee<'c, A, L>,
    port: &mut Port<A, W>,
    pace: Pace,
    underway: Underway,
) -> Result<(), Trouble>
    ensures events { Tells result (spoken W.contents port.old) (spoken W.contents port.new) }
    ensures stands { TellsLast result (codes "stopped") (spoken W.contents port.new) }
{
    tell_over(debuggee, port, pace, underway)?;
    tell_paused(debuggee, port)
}

/// Makes the next piece of a travel, past breakpoints that don't stop the run. If the run stops behind it, `stopped` is sent;
/// else what is underway is given, and whether it waits for a message.
fn make_piece<'c, A: Allocator + Copy + 'c, L: HasMachine<A, Code<'c, A>>, W: Sink, F: Files<A>>(
    debuggee: &mut Debuggee<'c, A, L>,
    port: &mut Port<A, W>,
    files: &F,
    pace: Pace,
    underway: Underway,
) -> Result<Option<(Underway, bool)>, Trouble>
    ensures events { Tells result (spoken W.contents port.old) (spoken W.contents port.new) }
    ensures stands { IfOk result (λ left. left ≡ None → HasToldLast (codes "stopped") (spoken W.contents port.new)) }
{
    let Some(why) = travel_and_log(debuggee, port, underway)? else {
        return Ok(Some((underway, false)));
    };
    let onward = behind_piece::<A, F>(files, pace, why);
    if onward == Onward::Stands {
        tell_arrived(debuggee, port, pace, underway, why)?;
        return Ok(None);
    }
    let next = next_piece(underway, debuggee.position());
    tell_underway(debuggee, port, pace, next)?;
    Ok(Some((next, onward == Onward::Waits)))
}

/// Travels on piece by piece until the run stops, with its event, or until a message has come.
pub fn travel_and_tell<
    'c,
    A: Allocator + Copy + 'c,
    L: HasMachine<A, Code<'c, A>>,
    W: Sink,
    F: Files<A>,
>(
    debuggee: &mut Debuggee<'c, A, L>,
    port: &mut Port<A, W>,
    files: &F,
    pace: Pace,
    underway: Underway,
) -> Result<Course, Trouble>
    ensures events { Tells result (spoken W.contents port.old) (spoken W.contents port.new) }
    ensures stands { IfOk result (λ course. course ≡ Course.Stands → HasToldLast (codes "stopped") (spoken W.contents port.new)) }
{
    let mut underway = underway;
    for _ in 0..u64::MAX {
        match make_piece(debuggee, port, files, pace, underway)? {
            None => return Ok(Course::Stands),
            Some((next, true)) => return Ok(Course::Underway(next)),
            Some((next, false)) => underway = next,
        }
    }
    Ok(Course::Underway(underway))
}

/// Runs to the end, past all stops, or until so many moves were made as one run may; why it stands then.
fn run_far<'c, A: Allocator + Copy + 'c, L: HasMachine<A, Code<'c, A>>>(
    debuggee: &mut Debuggee<'c, A, L>,
) -> Result<Why, Failure> {
    let begun = debuggee.position();
    for _ in 0..u64::MAX {
        let why = make_move(debuggee, Motion::Continue)?;
        if !matches!(why, Why::Run(Reason::Break(_) | Reason::Watch(_))) {
            return Ok(why);
        }
        if is_spent(debuggee, begun) {
            break;
        }
    }
    Ok(Why::Run(Reason::Limit))
}

/// Tells that the script takes no line more, and how far the run came; nothing where memory ran out.
fn tell_failed<'c, A: Allocator + Copy + 'c, L: HasMachine<A, Code<'c, A>>, W: Sink>(
    debuggee: &mut Debuggee<'c, A, L>,
    port: &mut Port<A, W>,
    failure: Failure,
) -> Result<(), Trouble>
    ensures events { Tells result (spoken W.contents port.old) (spoken W.contents port.new) }
    ensures ends { TellsLast result (codes "terminated") (spoken W.contents port.new) }
{
    if let Failure::OutOfMemory = failure {
        return Err(Trouble::OutOfMemory);
    }
    tell_log(debuggee.alloc, FULL, port)?;
    tell_end(debuggee, port)
}

/// Runs on to the end without a stop, and sends the output and how the run ended; or until a message has come.
pub fn run_out<'c, A: Allocator + Copy + 'c, L: HasMachine<A, Code<'c, A>>, W: Sink, F: Files<A>>(
    debuggee: &mut Debuggee<'c, A, L>,
    port: &mut Port<A, W>,
    files: &F,
    pace: Pace,
) -> Result<Course, Trouble>
    ensures events { Tells result (spoken W.contents port.old) (spoken W.contents port.new) }
    ensures ends { IfOk result (λ course. course ≡ Course.Stands → HasToldLast (codes "terminated") (spoken W.contents port.new)) }
{
    for _ in 0..u64::MAX {
        let why = match run_far(debuggee) {
            Ok(why) => why,
            Err(failure) => {
                tell_failed(debuggee, port, failure)?;
                return Ok(Course::Stands);
            }
        };
        match behind_piece::<A, F>(files, pace, why) {
            Onward::GoesOn => {}
            Onward::Waits => return Ok(Course::RunsOut),
            Onward::Stands => {
                tell_end(debuggee, port)?;
                return Ok(Course::Stands);
            }
        }
    }
    Ok(Course::RunsOut)
}
