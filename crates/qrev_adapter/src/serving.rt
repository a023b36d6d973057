//! Serving: messages are read and answered, without a session and with one.

ghost use Rattle.qrev_notices.specs.Conversation.{asked_by};
ghost use Rattle.std.specs.Prelude.{Ok};
ghost use Rattle.qrev_notices.specs.Reading.{Heard, heard, IsStaying, Serves, IsClosed, IsConversation};
ghost use Rattle.qrev_adapter.specs.Served.{ServesMessage, ServesAgain, ServesOn, StandsAfter, Closes};

use crate::opening::open_mapped;
use json::Scratch;
use qil_streams::{Sink, Source};
use qrev_notices::{
    Client, Closed, Ended, Files, Line, client_said, message_in, progress_said, refuse_unfit,
    respond_idle, tell_plain,
};
use qrev_protocol::{Request, request_of};
use qrev_requests::{Arguments, Launch, launch_said};
use std::alloc::Allocator;
use std::hash::RandomState;

/// Loads with the arguments of a message, or with those of the launch where it has none.
fn load_again<A: Allocator + Copy, S: Source, W: Sink, F: Files<A>>(
    keys: RandomState,
    launch: &Launch<A>,
    request: Request<'_>,
    asked: Arguments<'_, '_, A>,
    files: &F,
    line: &mut Line<A, S, W>,
) -> Result<Closed<A>, Ended>
    ensures { Serves result (asked_by request.entry) (heard S.remaining W.contents line.old) (heard S.remaining W.contents line.new) }
{
    if asked.text("program").is_none() {
        return open_mapped(keys, launch, request, files, line);
    }
    open_asked(keys, request, asked, files, line)
}

/// Loads again after a restart: with the arguments that its message has, or with those of the launch.
fn open_again<A: Allocator + Copy, S: Source, W: Sink, F: Files<A>>(
    keys: RandomState,
    launch: &Launch<A>,
    body: &[u8],
    files: &F,
    line: &mut Line<A, S, W>,
) -> Result<Closed<A>, Ended>
    ensures { ServesAgain result body.now (heard S.remaining W.contents line.old) (heard S.remaining W.contents line.new) }
{
    let mut scratch = Scratch::new(line.alloc);
    let message = match message_in(line.alloc, body, &mut scratch)? {
        Some(message) => message,
        None => return Err(Ended::Broken),
    };
    let request = match request_of(&message) {
        Some(request) => request,
        None => return Err(Ended::Broken),
    };
    let asked = Arguments::of(&message).inside("arguments");
    let before = line.sessions;
    let closed = load_again(keys, launch, request, asked, files, line)?;
    let is_open = line.sessions != before;
    tell_refused(is_open, closed, line)
}

/// Tells that there is no session any more, if none was opened again.
fn tell_refused<A: Allocator + Copy, S: Source, W: Sink>(
    is_open: bool,
    closed: Closed<A>,
    line: &mut Line<A, S, W>,
) -> Result<Closed<A>, Ended>
    ensures { Closes result closed (heard S.remaining W.contents line.old) (heard S.remaining W.contents line.new) }
{
    if is_open {
        return Ok(closed);
    }
    let other = match closed {
        Closed::Terminated => {
            tell_plain(line.alloc, "terminated", &mut line.port)?;
            return Ok(Closed::Terminated);
        }
        other => other,
    };
    Ok(other)
}

/// Loads with the arguments that a message has.
fn open_asked<A: Allocator + Copy, S: Source, W: Sink, F: Files<A>>(
    keys: RandomState,
    request: Request<'_>,
    asked: Arguments<'_, '_, A>,
    files: &F,
    line: &mut Line<A, S, W>,
) -> Result<Closed<A>, Ended>
    ensures { Serves result (asked_by request.entry) (heard S.remaining W.contents line.old) (heard S.remaining W.contents line.new) }
{
    let launch = match launch_said(line.alloc, asked) {
        Ok(launch) => launch,
        Err(unfit) => return refuse_unfit(request, unfit, line),
    };
    line.has_limit = has_limit(&launch, asked);
    open_mapped(keys, &launch, request, files, line)
}

/// Whether another session may be opened after one that was closed so.
fn after<A: Allocator>(closed: Closed<A>) -> Result<(), Ended>
    ensures { (start now : Heard) → IsClosed (Ok closed) start now → StandsAfter result start now }
{
    match closed {
        Closed::Terminated => return Ok(()),
        Closed::Left => return Err(Ended::Left),
        Closed::InputEnded => return Err(Ended::InputEnded),
        Closed::Restarted(_) => {}
    }
    // The message that asks for it is a request, to which a launch responds.
    Err(Ended::Broken)
}

/// Serves a launch, and the restarts after it, until another may be launched.
fn serve_launch<A: Allocator + Copy, S: Source, W: Sink, F: Files<A>>(
    keys: RandomState,
    request: Request<'_>,
    launch: &Launch<A>,
    files: &F,
    line: &mut Line<A, S, W>,
) -> Result<(), Ended>
    ensures { IsStaying (asked_by request.entry) → ServesOn result (asked_by request.entry) (heard S.remaining W.contents line.old) (heard S.remaining W.contents line.new) }
{
    let mut closed = open_mapped(keys, launch, request, files, line)?;
    for _ in 0..u64::MAX {
        let body = match closed {
            Closed::Restarted(body) => body,
            other => return after(other),
        };
        closed = open_again(keys, launch, body.as_slice(), files, line)?;
    }
    Err(Ended::Broken)
}

/// Serves a launch with the arguments that it has.
fn launch_asked<A: Allocator + Copy, S: Source, W: Sink, F: Files<A>>(
    keys: RandomState,
    request: Request<'_>,
    asked: Arguments<'_, '_, A>,
    files: &F,
    line: &mut Line<A, S, W>,
) -> Result<(), Ended>
    ensures { IsStaying (asked_by request.entry) → ServesOn result (asked_by request.entry) (heard S.remaining W.contents line.old) (heard S.remaining W.contents line.new) }
{
    let launch = match launch_said(line.alloc, asked) {
        Ok(launch) => launch,
        Err(unfit) => return after(refuse_unfit(request, unfit, line)?),
    };
    line.sessions = 0;
    line.has_limit = has_limit(&launch, asked);
    serve_launch(keys, request, &launch, files, line)
}

/// What an editor is known to be after a request: what its first one says, else what it was.
fn client_after<A: Allocator + Copy>(
    command: &str,
    asked: Arguments<'_, '_, A>,
    before: Client,
) -> Client {
    if command == "initialize" {
        return client_said(asked);
    }
    before
}

/// The same of whether it shows how far a long run is.
fn progress_after<A: Allocator + Copy>(
    command: &str,
    asked: Arguments<'_, '_, A>,
    before: bool,
) -> bool {
    if command == "initialize" {
        return progress_said(asked);
    }
    before
}

/// Whether a run ends at the limit of moves: if a launch says a limit, and if each move is kept, which takes memory for it.
fn has_limit<A: Allocator + Copy>(launch: &Launch<A>, asked: Arguments<'_, '_, A>) -> bool {
    let keeps_all = launch.kept.bound.is_none() && launch.kept.budget.is_none();
    keeps_all || asked.get("limit").is_some()
}

/// Responds to a request that launches nothing.
fn answer_idle<A: Allocator + Copy, S: Source, W: Sink>(
    request: Request<'_>,
    asked: Arguments<'_, '_, A>,
    line: &mut Line<A, S, W>,
) -> Result<(), Ended>
    ensures { ServesOn result (asked_by request.entry) (heard S.remaining W.contents line.old) (heard S.remaining W.contents line.new) }
{
    line.client = client_after(request.command(), asked, line.client);
    line.shows_progress = progress_after(request.command(), asked, line.shows_progress);
    let leaves = request.command() == "disconnect";
    respond_idle(line.alloc, &mut line.port, request)?;
    if leaves {
        return Err(Ended::Left);
    }
    Ok(())
}

/// Answers one message while no session is open, with all that comes of it.
fn answer_outside<A: Allocator + Copy, S: Source, W: Sink, F: Files<A>>(
    keys: RandomState,
    body: &[u8],
    files: &F,
    line: &mut Line<A, S, W>,
) -> Result<(), Ended>
    ensures { ServesMessage result body.now (heard S.remaining W.contents line.old) (heard S.remaining W.contents line.new) }
{
    let mut scratch = Scratch::new(line.alloc);
    let message = match message_in(line.alloc, body, &mut scratch)? {
        Some(message) => message,
        None => return Ok(()),
    };
    let request = match request_of(&message) {
        Some(request) => request,
        None => return Ok(()),
    };
    let asked = Arguments::of(&message);
    if request.command() == "launch" {
        return launch_asked(keys, request, asked, files, line);
    }
    answer_idle(request, asked, line)
}

/// Answers an editor until it leaves or its messages end.
pub fn serve<A: Allocator + Copy, S: Source, W: Sink, F: Files<A>>(
    keys: RandomState,
    files: &F,
    line: &mut Line<A, S, W>,
) -> Ended
    ensures { IsConversation result (heard S.remaining W.contents line.old) (heard S.remaining W.contents line.new) }
{
    for _ in 0..u64::MAX {
        let body = match line.next() {
            Ok(Some(body)) => body,
            Ok(None) => return Ended::InputEnded,
            Err(ended) => return ended,
        };
        match answer_outside(keys, body.as_slice(), files, line) {
            Ok(()) => {}
            Err(ended) => return ended,
        }
    }
    Ended::Broken
}
