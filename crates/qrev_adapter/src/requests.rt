//! The requests while a session is open: what each does, its response, and what follows it.

ghost use Rattle.std.specs.Prelude.{◌≡◌, ◌&&◌, cond, codes, is_some, not, None};
ghost use Rattle.qrev_debuggee.specs.qrev_recorder.qil_replies.qil_stops.Depths.{depth};
ghost use Rattle.qrev_notices.specs.Conversation.{asked_by, spoken, Responds};
ghost use Rattle.qrev_requests.specs.Members.{json_of};
ghost use Rattle.qrev_adapter.specs.Asked.{asks_single, motion_of, line_of, first_of, travel_of, travel_said};
ghost use Rattle.qrev_adapter.specs.Served.{Leaves};

use qil_machine::Code;
use qil_state::Status;
use qil_streams::Sink;
use qrev_breakpoints::{breakpoint_locations, loaded_sources, set_breakpoints, set_by_words};
use qrev_inspection::{
    completions, data_breakpoint_info, evaluate, read_memory, scopes, set_expression, set_variable,
    stack_trace, variables, write_memory,
};
use qrev_moving::Travel;
use qrev_notices::{
    Body, Cause, Debuggee, Failure, Motion, Port, StopFamily, Trouble, Why, begin_body,
    ended_elsewhere, fault_in, refuse_with,
};
use qrev_protocol::Request;
use qrev_recorder::HasMachine;
use qrev_requests::Arguments;
use qrev_views::{Readers, as_text, place_text};
use std::alloc::{AllocError, Allocator};

/// What follows a response.
#[derive(Clone, Copy)]
pub enum Then {
    Nothing,
    /// The editor gets `stopped`.
    Stopped(Why),
    Move(Travel),
    /// A run that goes on comes to a stand.
    Pause,
}

/// How a session ends.
#[derive(Clone, Copy)]
pub enum Ending {
    /// The editor gets the error, and may launch again.
    Terminated,
    /// The adapter ends.
    Left,
}

/// How the session ends once a request with this command is responded to, if it does so.
pub fn ending_asked(command: &str) -> Option<Ending>
    ensures { Leaves result command.now }
{
    if command == "disconnect" {
        return Some(Ending::Left);
    }
    if command == "terminate" {
        return Some(Ending::Terminated);
    }
    None
}

/// Adds the one thread.
fn put_threads<A: Allocator>(body: Body<A>) -> Result<Body<A>, AllocError> {
    body.array("threads")?
        .object()?
        .number("id", 1)?
        .text("name", "main")?
        .end_item()?
        .end()
}

/// Where the run ended, if a fault of the program ended it: what isn't there is none.
fn fault_place<'c, A: Allocator + Copy + 'c, L: HasMachine<A, Code<'c, A>>>(
    debuggee: &Debuggee<'c, A, L>,
) -> Result<String<A>, Failure> {
    let machine = debuggee.machine();
    let elsewhere = ended_elsewhere(debuggee.alloc, machine, &debuggee.names)?;
    if !matches!(machine.status(), Status::Faulted(_)) || elsewhere.is_some() {
        return Err(Failure::Because(Cause::NoFault));
    }
    Ok(place_text(debuggee.alloc, debuggee.position(), machine)?)
}

/// Adds the threads that a request asks for.
fn threads<A: Allocator>(body: Body<A>) -> Result<Body<A>, Failure> {
    Ok(put_threads(body)?)
}

/// Adds what is known of a fault, by the place where it ended the run.
fn put_exception<A: Allocator>(body: Body<A>, place: &str) -> Result<Body<A>, AllocError> {
    body.text("exceptionId", fault_in(place).unwrap_or("fault"))?
        .text("description", place)?
        .text("breakMode", "always")
}

/// Adds what is known of the fault that ended the run.
fn exception_info<'c, A: Allocator + Copy + 'c, L: HasMachine<A, Code<'c, A>>>(
    debuggee: &Debuggee<'c, A, L>,
    body: Body<A>,
) -> Result<Body<A>, Failure> {
    let place = fault_place(debuggee)?;
    Ok(put_exception(body, place.as_str())?)
}

/// The move to the beginning of the call of a frame.
fn restart_frame<'c, A: Allocator + Copy + 'c, L: HasMachine<A, Code<'c, A>>>(
    debuggee: &Debuggee<'c, A, L>,
    asked: Arguments<'_, '_, A>,
) -> Result<Then, Failure> {
    let number = asked.number("frameId").unwrap_or(0);
    let depth = debuggee.depth() as u64;
    match depth.checked_sub(number) {
        // The innermost frame is number 1.
        Some(outside) if number != 0 => {
            let motion = Motion::ToBeginning(outside as usize);
            Ok(Then::Move(Travel::Motion(motion)))
        }
        _ => Err(Failure::Because(Cause::NoSuchFrame)),
    }
}

/// The motion that a command asks for, if it asks for one, by single moves or not, while so many calls are open.
fn motion_of(command: &str, is_single: bool, depth: usize) -> Option<Motion>
    ensures { result ≡ motion_of command.now is_single depth }
{
    if command == "continue" {
        return Some(Motion::Continue);
    }
    if command == "reverseContinue" {
        return Some(Motion::Reverse);
    }
    if command == "stepOut" {
        return Some(Motion::ToDepth(depth.saturating_sub(1)));
    }
    if command == "stepIn" {
        return Some(Motion::Step);
    }
    if command == "next" {
        return Some(over_calls(is_single, Motion::Step, Motion::ToDepth(depth)));
    }
    if command == "stepBack" {
        let back = Motion::BackToDepth(depth.max(1));
        return Some(over_calls(is_single, Motion::Back, back));
    }
    None
}

/// A single move, or one over calls.
fn over_calls(is_single: bool, single: Motion, over: Motion) -> Motion
    ensures { result ≡ cond is_single single over }
{
    if is_single { single } else { over }
}

/// The step from line to line of a source that a command asks for, if it asks for one.
fn line_of(command: &str) -> Option<Travel>
    ensures { result ≡ line_of command.now }
{
    if command == "next" {
        return Some(Travel::Line { into: false });
    }
    if command == "stepIn" {
        return Some(Travel::Line { into: true });
    }
    if command == "stepBack" {
        return Some(Travel::LineBack);
    }
    None
}

/// The same where such steps can be made.
fn line_where(has_lines: bool, command: &str) -> Option<Travel>
    ensures { result ≡ cond has_lines (line_of command.now) None }
{
    if has_lines { line_of(command) } else { None }
}

/// A step from line to line if there is one, else a motion.
fn first_of(line: Option<Travel>, motion: Option<Motion>) -> Option<Travel>
    ensures { result ≡ first_of line motion }
{
    if line.is_some() {
        return line;
    }
    match motion {
        Some(motion) => Some(Travel::Motion(motion)),
        None => None,
    }
}

/// Where a command asks to go: from line to line of a source where it may, else by a motion.
fn travel_of(has_lines: bool, command: &str, is_single: bool, depth: usize) -> Option<Travel>
    ensures { result ≡ travel_of has_lines command.now is_single depth }
{
    let line = line_where(has_lines, command);
    let motion = motion_of(command, is_single, depth);
    first_of(line, motion)
}

/// Whether a request asks for single moves.
fn asks_single<A: Allocator + Copy>(asked: Arguments<'_, '_, A>) -> bool
    ensures { result ≡ asks_single (json_of asked.entry) }
{
    match asked.text("granularity") {
        Some(text) => text == "instruction",
        None => false,
    }
}

/// Whether steps lead from line to line: by a map of places, where no single moves are asked for.
fn goes_by_lines(has_map: bool, is_single: bool) -> bool
    ensures { result ≡ (has_map && not is_single) }
{
    has_map && !is_single
}

/// Where a request asks to go, if it does: from line to line of a source if there is a map of places, and by single moves if it
/// says so.
fn travel_asked<'c, A: Allocator + Copy + 'c, L: HasMachine<A, Code<'c, A>>>(
    debuggee: &Debuggee<'c, A, L>,
    command: &str,
    asked: Arguments<'_, '_, A>,
) -> Option<Travel>
    ensures { result ≡ travel_said (is_some debuggee.now.source_map) command.now (json_of asked.entry) (depth (L.state debuggee.now.recorder.live).timeline) }
{
    let is_single = asks_single(asked);
    let has_map = debuggee.source_map.is_some();
    let has_lines = goes_by_lines(has_map, is_single);
    travel_of(has_lines, command, is_single, debuggee.depth())
}

/// Does what a request asks that neither looks nor sets, and says what follows.
fn control<'c, A: Allocator + Copy + 'c, L: HasMachine<A, Code<'c, A>>>(
    debuggee: &Debuggee<'c, A, L>,
    command: &str,
    asked: Arguments<'_, '_, A>,
    body: Body<A>,
) -> Result<(Body<A>, Then), Failure> {
    if let Some(travel) = travel_asked(debuggee, command, asked) {
        if command == "continue" {
            return Ok((body.flag("allThreadsContinued", true)?, Then::Move(travel)));
        }
        return Ok((body, Then::Move(travel)));
    }
    match command {
        "restartFrame" => Ok((body, restart_frame(debuggee, asked)?)),
        "pause" => Ok((body, Then::Pause)),
        "setExceptionBreakpoints" | "terminate" | "disconnect" => Ok((body, Then::Nothing)),
        "initialize" | "launch" => Err(Failure::Because(Cause::SessionOpen)),
        _ => Err(Failure::Because(Cause::NotSupported)),
    }
}

/// Does what a request asks that looks.
fn look<'c, A: Allocator + Copy + 'c, L: HasMachine<A, Code<'c, A>>>(
    debuggee: &Debuggee<'c, A, L>,
    command: &str,
    asked: Arguments<'_, '_, A>,
    body: Body<A>,
) -> Result<(Body<A>, Then), Failure> {
    let answered = match command {
        "threads" => threads(body),
        "stackTrace" => stack_trace(debuggee, asked, body),
        "scopes" => scopes(debuggee, asked, body),
        "variables" => variables(debuggee, asked, body),
        "dataBreakpointInfo" => data_breakpoint_info(debuggee, asked, body),
        "breakpointLocations" => breakpoint_locations(debuggee, asked, body),
        "readMemory" => read_memory(debuggee, asked, body),
        "exceptionInfo" => exception_info(debuggee, body),
        "loadedSources" => loaded_sources(debuggee, body),
        "completions" => completions(debuggee, asked, body),
        _ => return control(debuggee, command, asked, body),
    };
    Ok((answered?, Then::Nothing))
}

/// Evaluates what a request asks, which may be a command, and says whether the run stands elsewhere then.
fn evaluated<'c, A: Allocator + Copy + 'c, L: HasMachine<A, Code<'c, A>>>(
    debuggee: &mut Debuggee<'c, A, L>,
    asked: Arguments<'_, '_, A>,
    body: Body<A>,
) -> Result<(Body<A>, Then), Failure> {
    let (body, why) = evaluate(debuggee, asked, body)?;
    let then = match why {
        Some(why) => Then::Stopped(why),
        None => Then::Nothing,
    };
    Ok((body, then))
}

/// Does what a request asks, adds the members of its body, and says what follows.
fn answer<'c, A: Allocator + Copy + 'c, L: HasMachine<A, Code<'c, A>>>(
    debuggee: &mut Debuggee<'c, A, L>,
    command: &str,
    asked: Arguments<'_, '_, A>,
    body: Body<A>,
) -> Result<(Body<A>, Then), Failure> {
    let answered = match command {
        "setBreakpoints" => set_breakpoints(debuggee, asked, body),
        "setFunctionBreakpoints" => set_by_words(debuggee, asked, StopFamily::Function, body),
        "setDataBreakpoints" => set_by_words(debuggee, asked, StopFamily::Data, body),
        "setVariable" => set_variable(debuggee, asked, body),
        "setExpression" => set_expression(debuggee, asked, body),
        "writeMemory" => write_memory(debuggee, asked, body),
        "evaluate" => return evaluated(debuggee, asked, body),
        _ => return look(debuggee, command, asked, body),
    };
    Ok((answered?, Then::Nothing))
}

/// Responds that a request isn't done, and why.
pub fn refuse<'c, A: Allocator + Copy + 'c, L: HasMachine<A, Code<'c, A>>, W: Sink>(
    debuggee: &Debuggee<'c, A, L>,
    port: &mut Port<A, W>,
    request: Request<'_>,
    failure: Failure,
) -> Result<(), Trouble>
    ensures { Responds result (asked_by request.entry) (spoken W.contents port.old) (spoken W.contents port.new) }
{
    if let Failure::Because(cause) = failure {
        return port.refuse(request, cause.as_str());
    }
    let Failure::Answered(from) = failure else {
        request.end();
        return Err(Trouble::OutOfMemory);
    };
    let why = as_text(debuggee.alloc, debuggee.answers_from(from));
    refuse_with(port, request, &why)
}

/// Does what a request asks, as far as that comes before its response, and gives the body of that.
fn prepare<'c, A: Allocator + Copy + 'c, L: HasMachine<A, Code<'c, A>>>(
    debuggee: &mut Debuggee<'c, A, L>,
    request: &Request<'_>,
    asked: Arguments<'_, '_, A>,
) -> Result<(Body<A>, Then), Failure> {
    let body = begin_body(debuggee.alloc, request)?;
    answer(debuggee, request.command(), asked, body)
}

/// Responds to a request, and says what follows.
pub fn respond<'c, A: Allocator + Copy + 'c, L: HasMachine<A, Code<'c, A>>, W: Sink>(
    debuggee: &mut Debuggee<'c, A, L>,
    port: &mut Port<A, W>,
    request: Request<'_>,
    asked: Arguments<'_, '_, A>,
) -> Result<Then, Trouble>
    ensures { Responds result (asked_by request.entry) (spoken W.contents port.old) (spoken W.contents port.new) }
{
    let (body, then) = match prepare(debuggee, &request, asked) {
        Ok(prepared) => prepared,
        Err(failure) => {
            refuse(debuggee, port, request, failure)?;
            return Ok(Then::Nothing);
        }
    };
    port.respond(request, body)?;
    Ok(then)
}
