//! A session from its first message to its end.

ghost use Rattle.std.specs.Prelude.{◌≡◌, ◌≢◌, codes, IfOk};
ghost use Rattle.qrev_notices.specs.Conversation.{asked_by, spoken, Responds, Tells};
ghost use Rattle.qrev_notices.specs.Last.{HasToldLast, TellsLast};
ghost use Rattle.qrev_notices.specs.Reading.{heard};
ghost use Rattle.qrev_adapter.specs.Served.{Leaves, Hears, GoesOn, Closes, BeginsRun, Follows, IsUnderway};

use crate::requests::{Ending, Then, ending_asked, refuse, respond};
use json::Scratch;
use qil_machine::Code;
use qil_streams::{Sink, Source};
use qrev_moving::{
    Course, Pace, Travel, Underway, has_message, run_out, set_out, tell_arrived, tell_broken_off,
    travel_and_tell,
};
use qrev_notices::{
    Cause, Closed, Debuggee, Ended, Failure, Files, Line, Motion, Port, Trouble, Why, keep_record,
    message_in, tell_plain, tell_stopped, write_record,
};
use qrev_protocol::{Request, request_of};
use qrev_recorder::HasMachine;
use qrev_requests::{Arguments, Launch};
use std::alloc::Allocator;

/// Goes where a request leads: until the run stops, with its event, or until a message has come.
fn go_and_tell<'c, A: Allocator + Copy + 'c, L: HasMachine<A, Code<'c, A>>, W: Sink, F: Files<A>>(
    debuggee: &mut Debuggee<'c, A, L>,
    port: &mut Port<A, W>,
    files: &F,
    stage: &mut Stage,
    where_to: Travel,
) -> Result<(), Trouble>
    ensures events { Tells result (spoken W.contents port.old) (spoken W.contents port.new) }
    ensures stands { IfOk result (λ x. stage.new.course ≡ Course.Stands → HasToldLast (codes "stopped") (spoken W.contents port.new)) }
{
    let underway = set_out(debuggee, where_to);
    stage.course = travel_and_tell(debuggee, port, files, stage.pace, underway)?;
    Ok(())
}

/// Runs to the end, with its event, or until a message has come.
fn run_to_end<'c, A: Allocator + Copy + 'c, L: HasMachine<A, Code<'c, A>>, W: Sink, F: Files<A>>(
    debuggee: &mut Debuggee<'c, A, L>,
    port: &mut Port<A, W>,
    files: &F,
    stage: &mut Stage,
) -> Result<(), Trouble>
    ensures events { Tells result (spoken W.contents port.old) (spoken W.contents port.new) }
    ensures ends { IfOk result (λ x. stage.new.course ≡ Course.Stands → HasToldLast (codes "terminated") (spoken W.contents port.new)) }
{
    stage.course = run_out(debuggee, port, files, stage.pace)?;
    Ok(())
}

/// Begins the run: the editor has made its breakpoints.
fn begin<'c, A: Allocator + Copy + 'c, L: HasMachine<A, Code<'c, A>>, W: Sink, F: Files<A>>(
    debuggee: &mut Debuggee<'c, A, L>,
    port: &mut Port<A, W>,
    files: &F,
    stage: &mut Stage,
    request: Request<'_>,
) -> Result<(), Trouble>
    ensures responds { Responds result (asked_by request.entry) (spoken W.contents port.old) (spoken W.contents port.new) }
    ensures begun { BeginsRun stage.old.debugs stage.new.course result (spoken W.contents port.new) }
{
    port.accept(request)?;
    if !stage.debugs {
        return run_to_end(debuggee, port, files, stage);
    }
    if stage.stops_on_entry {
        return tell_stopped(debuggee, Why::Entry, port);
    }
    let on = Travel::Motion(Motion::Continue);
    go_and_tell(debuggee, port, files, stage, on)
}

/// Stops a run for a reason of its own, with an event.
fn stand<'c, A: Allocator + Copy + 'c, L: HasMachine<A, Code<'c, A>>, W: Sink>(
    debuggee: &mut Debuggee<'c, A, L>,
    port: &mut Port<A, W>,
    stage: &mut Stage,
    why: Why,
) -> Result<(), Trouble>
    ensures events { Tells result (spoken W.contents port.old) (spoken W.contents port.new) }
    ensures stands { TellsLast result (codes "stopped") (spoken W.contents port.new) }
    ensures course { stage.new.course ≡ Course.Stands }
{
    let course = stage.course;
    stage.course = Course::Stands;
    match course {
        Course::Underway(underway) => tell_arrived(debuggee, port, stage.pace, underway, why),
        _ => tell_stopped(debuggee, why, port),
    }
}

/// Stops a run that is underway, with an event; for one that stands already nothing is sent.
fn pause<'c, A: Allocator + Copy + 'c, L: HasMachine<A, Code<'c, A>>, W: Sink>(
    debuggee: &mut Debuggee<'c, A, L>,
    port: &mut Port<A, W>,
    stage: &mut Stage,
) -> Result<(), Trouble>
    ensures events { Tells result (spoken W.contents port.old) (spoken W.contents port.new) }
    ensures stands { IsUnderway stage.old.course → TellsLast result (codes "stopped") (spoken W.contents port.new) }
    ensures course { IsUnderway stage.old.course → stage.new.course ≡ Course.Stands }
{
    match stage.course {
        Course::Underway(underway) => {
            stage.course = Course::Stands;
            tell_broken_off(debuggee, port, stage.pace, underway)
        }
        _ => Ok(()),
    }
}

/// Goes on with a travel that is underway.
fn travel_on<'c, A: Allocator + Copy + 'c, L: HasMachine<A, Code<'c, A>>, W: Sink, F: Files<A>>(
    debuggee: &mut Debuggee<'c, A, L>,
    port: &mut Port<A, W>,
    files: &F,
    stage: &mut Stage,
    underway: Underway,
) -> Result<(), Trouble>
    ensures events { Tells result (spoken W.contents port.old) (spoken W.contents port.new) }
    ensures stands { IfOk result (λ x. stage.new.course ≡ Course.Stands → HasToldLast (codes "stopped") (spoken W.contents port.new)) }
{
    stage.course = travel_and_tell(debuggee, port, files, stage.pace, underway)?;
    Ok(())
}

/// Goes on with a run that goes on, unless a message waits.
fn go_on<'c, A: Allocator + Copy + 'c, L: HasMachine<A, Code<'c, A>>, W: Sink, F: Files<A>>(
    debuggee: &mut Debuggee<'c, A, L>,
    port: &mut Port<A, W>,
    files: &F,
    stage: &mut Stage,
) -> Result<(), Trouble>
    ensures events { Tells result (spoken W.contents port.old) (spoken W.contents port.new) }
{
    if has_message::<A, F>(files, stage.pace) == Some(true) {
        return Ok(());
    }
    match stage.course {
        Course::Stands => Ok(()),
        Course::Underway(underway) => travel_on(debuggee, port, files, stage, underway),
        Course::RunsOut => run_to_end(debuggee, port, files, stage),
    }
}

/// Sends what follows a response. A run that isn't debugged goes on to its end, whatever is asked meanwhile.
fn follow<'c, A: Allocator + Copy + 'c, L: HasMachine<A, Code<'c, A>>, W: Sink, F: Files<A>>(
    debuggee: &mut Debuggee<'c, A, L>,
    port: &mut Port<A, W>,
    files: &F,
    stage: &mut Stage,
    what: Then,
) -> Result<(), Trouble>
    ensures events { Tells result (spoken W.contents port.old) (spoken W.contents port.new) }
    ensures stands { stage.old.course ≢ Course.RunsOut → Follows what stage.new.course result (spoken W.contents port.new) }
{
    if matches!(stage.course, Course::RunsOut) {
        return go_on(debuggee, port, files, stage);
    }
    match what {
        Then::Stopped(why) => stand(debuggee, port, stage, why),
        Then::Move(where_to) => go_and_tell(debuggee, port, files, stage, where_to),
        Then::Pause => pause(debuggee, port, stage),
        Then::Nothing => go_on(debuggee, port, files, stage),
    }
}

/// Whether the run has begun, or does so at the next `configurationDone`, and how; and how it goes on.
#[derive(Clone, Copy)]
struct Stage {
    has_begun: bool,
    stops_on_entry: bool,
    /// Whether the run is debugged: else it goes to its end.
    debugs: bool,
    pace: Pace,
    course: Course,
}

/// Begins the run, where it hasn't begun.
fn begin_once<'c, A: Allocator + Copy + 'c, L: HasMachine<A, Code<'c, A>>, W: Sink, F: Files<A>>(
    debuggee: &mut Debuggee<'c, A, L>,
    port: &mut Port<A, W>,
    files: &F,
    stage: &mut Stage,
    request: Request<'_>,
) -> Result<(), Trouble>
    ensures { Responds result (asked_by request.entry) (spoken W.contents port.old) (spoken W.contents port.new) }
{
    if stage.has_begun {
        return refuse(
            debuggee,
            port,
            request,
            Failure::Because(Cause::AlreadyConfigured),
        );
    }
    stage.has_begun = true;
    begin(debuggee, port, files, stage, request)
}

/// Answers one request, and says how the session ends if it does.
fn answer_one<'c, A: Allocator + Copy + 'c, L: HasMachine<A, Code<'c, A>>, W: Sink, F: Files<A>>(
    debuggee: &mut Debuggee<'c, A, L>,
    port: &mut Port<A, W>,
    files: &F,
    stage: &mut Stage,
    request: Request<'_>,
    asked: Arguments<'_, '_, A>,
) -> Result<Option<Ending>, Trouble>
    ensures responds { Responds result (asked_by request.entry) (spoken W.contents port.old) (spoken W.contents port.new) }
    ensures leaves { IfOk result (λ ending. Leaves ending request.entry.command.now) }
{
    let ending = ending_asked(request.command());
    if ending.is_some() {
        stage.course = Course::Stands;
    }
    if request.command() == "configurationDone" {
        begin_once(debuggee, port, files, stage, request)?;
        return Ok(ending);
    }
    let then = respond(debuggee, port, request, asked)?;
    follow(debuggee, port, files, stage, then)?;
    Ok(ending)
}

/// What comes after a message.
#[derive(Clone, Copy)]
enum Next {
    Message,
    End(Ending),
    /// The program is loaded again, where the message is answered.
    Restart,
}

/// Notes where the path of the file leads that a request is about.
fn note_path<'c, A: Allocator + Copy + 'c, L: HasMachine<A, Code<'c, A>>, F: Files<A>>(
    debuggee: &mut Debuggee<'c, A, L>,
    files: &F,
    asked: Arguments<'_, '_, A>,
) {
    debuggee.asked_path = match asked.inside("source").text("path") {
        Some(path) => files.real_path(path),
        None => None,
    };
}

/// Answers one message, and says what comes after it.
fn answer_message<
    'c,
    A: Allocator + Copy + 'c,
    L: HasMachine<A, Code<'c, A>>,
    W: Sink,
    F: Files<A>,
>(
    debuggee: &mut Debuggee<'c, A, L>,
    port: &mut Port<A, W>,
    stage: &mut Stage,
    files: &F,
    body: &[u8],
) -> Result<Next, Trouble>
    ensures { Hears result body.now (spoken W.contents port.old) (spoken W.contents port.new) }
{
    let mut scratch = Scratch::new(debuggee.alloc);
    let message = match message_in(debuggee.alloc, body, &mut scratch)? {
        Some(message) => message,
        None => return Ok(Next::Message),
    };
    let request = match request_of(&message) {
        Some(request) => request,
        None => return Ok(Next::Message),
    };
    if request.command() == "restart" {
        request.end();
        return Ok(Next::Restart);
    }
    let asked = Arguments::of(&message);
    note_path(debuggee, files, asked);
    let ending = answer_one(debuggee, port, files, stage, request, asked)?;
    if let Some(ending) = ending {
        return Ok(Next::End(ending));
    }
    Ok(Next::Message)
}

/// Answers messages until the session ends.
fn answer_messages<
    'c,
    A: Allocator + Copy + 'c,
    L: HasMachine<A, Code<'c, A>>,
    S: Source,
    W: Sink,
    F: Files<A>,
>(
    debuggee: &mut Debuggee<'c, A, L>,
    stage: Stage,
    files: &F,
    line: &mut Line<A, S, W>,
) -> Result<Closed<A>, Ended>
    ensures { GoesOn result (heard S.remaining W.contents line.old) (heard S.remaining W.contents line.new) }
{
    let mut stage = stage;
    for _ in 0..u64::MAX {
        let body = match line.next()? {
            Some(body) => body,
            None => return Ok(Closed::InputEnded),
        };
        stage.pace.is_waiting = line.is_waiting;
        match answer_message(debuggee, &mut line.port, &mut stage, files, body.as_slice())? {
            Next::Message => {}
            Next::End(Ending::Terminated) => return Ok(Closed::Terminated),
            Next::End(Ending::Left) => return Ok(Closed::Left),
            Next::Restart => return Ok(Closed::Restarted(body)),
        }
    }
    Err(Ended::Broken)
}

/// Writes the record of a session that was closed so. An editor that ends the session gets an event: a restart is responded to
/// later, and if the input has ended nobody may be reading any more.
fn close<
    'c,
    A: Allocator + Copy + 'c,
    L: HasMachine<A, Code<'c, A>>,
    S: Source,
    W: Sink,
    F: Files<A>,
>(
    debuggee: &Debuggee<'c, A, L>,
    launch: &Launch<A>,
    files: &F,
    line: &mut Line<A, S, W>,
    closed: Closed<A>,
) -> Result<Closed<A>, Ended>
    ensures { Closes result closed (heard S.remaining W.contents line.old) (heard S.remaining W.contents line.new) }
{
    let other = match closed {
        Closed::Terminated => {
            write_record(debuggee, launch, files, &mut line.port)?;
            tell_plain(line.alloc, "terminated", &mut line.port)?;
            return Ok(Closed::Terminated);
        }
        Closed::Left => {
            write_record(debuggee, launch, files, &mut line.port)?;
            return Ok(Closed::Left);
        }
        other => other,
    };
    keep_record(debuggee, files)?;
    Ok(other)
}

/// Answers messages until the session ends, and writes its record.
pub fn serve_session<
    'c,
    A: Allocator + Copy + 'c,
    L: HasMachine<A, Code<'c, A>> + Drop,
    S: Source,
    W: Sink,
    F: Files<A>,
>(
    mut debuggee: Debuggee<'c, A, L>,
    launch: &Launch<A>,
    files: &F,
    line: &mut Line<A, S, W>,
) -> Result<Closed<A>, Ended>
    ensures { GoesOn result (heard S.remaining W.contents line.old) (heard S.remaining W.contents line.new) }
{
    let stage = Stage {
        has_begun: false,
        stops_on_entry: launch.stops_on_entry,
        debugs: launch.debugs,
        pace: Pace {
            has_limit: line.has_limit,
            is_waiting: line.is_waiting,
            shows_progress: line.shows_progress,
        },
        course: Course::Stands,
    };
    let closed = match answer_messages(&mut debuggee, stage, files, line) {
        Ok(closed) => closed,
        Err(ended) => {
            let _ = keep_record(&debuggee, files);
            return Err(ended);
        }
    };
    close(&debuggee, launch, files, line, closed)
}
