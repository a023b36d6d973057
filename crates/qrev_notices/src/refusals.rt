//! A launch that opens no session, and why; and one that does.

ghost use Rattle.std.specs.Prelude.{IfOk};
ghost use Rattle.qrev_notices.specs.Conversation.{asked_by, spoken, Responds, Tells, IsEventSoFar};
ghost use Rattle.qrev_notices.specs.Reading.{heard, Serves, IsClosedBy};

use crate::line::{Closed, Ended, Line};
use crate::port::Port;
use crate::recording::{RecordFault, record_words};
use crate::stopped::{output_body, tell_plain};
use crate::trouble::Trouble;
use qil_loading::{LoadError, Refusal, put_refusal_line};
use qil_machine::StartError;
use qil_semantics::StartFault;
use qil_streams::{Buffer, Sink, Source};
use qrev_protocol::{Object, Request, Whole};
use qrev_requests::{Launch, Unfit, unfit_words};
use qrev_views::{Numbering, as_text, put_source};
use std::alloc::{AllocError, Allocator};

/// What a start that failed is to the load.
fn start_error(error: StartError) -> LoadError {
    match error {
        StartError::NoEntry => LoadError::Refused(Refusal::Start(StartFault::NoEntry)),
        StartError::ArgumentCount => LoadError::Refused(Refusal::Start(StartFault::ArgumentCount)),
        StartError::OutOfMemory => LoadError::OutOfMemory,
    }
}

/// The line of the text that a refusal is about, if it is about one.
fn refused_line(refusal: Refusal) -> Option<u32> {
    match refusal {
        Refusal::Text { line, .. }
        | Refusal::Tokens { line, .. }
        | Refusal::Rule { line, .. }
        | Refusal::Layout { line, .. } => Some(line),
        Refusal::Start(_) => None,
    }
}

/// Words as a line.
fn line_of<A: Allocator + Copy>(alloc: A, words: &str) -> Result<String<A>, AllocError> {
    let mut text = String::from_str(alloc, words)?;
    text.push_str("\n")?;
    Ok(text)
}

/// The event that shows a refusal with its line, which editors make a link of.
fn refusal_event<A: Allocator + Copy>(
    alloc: A,
    words: &str,
    path: &str,
    line: Option<u64>,
) -> Result<Object<A, Whole>, AllocError>
    ensures { IfOk result (λ o. IsEventSoFar o.out.tokens) }
{
    let text = line_of(alloc, words)?;
    let body = output_body(alloc, "stderr", text.as_str())?;
    let Some(line) = line else {
        let message = body.end()?;
        return Ok(message);
    };
    let message = put_source(body, path)?.number("line", line)?.end()?;
    Ok(message)
}

/// The words of a refusal. Where memory ran out there are none.
fn refusal_words<A: Allocator + Copy>(alloc: A, error: LoadError) -> Result<String<A>, AllocError> {
    let LoadError::Refused(refusal) = error else {
        return Err(AllocError);
    };
    let mut words = Buffer::new(alloc);
    match put_refusal_line(&mut words, refusal) {
        Ok(()) => as_text(alloc, words.bytes().trim_ascii_end()),
        Err(_) => Err(AllocError),
    }
}

/// How a session is closed that wasn't opened, since its request was refused so.
pub fn closed_by<A: Allocator>(refused: Result<(), Trouble>) -> Result<Closed<A>, Ended>
    ensures { IsClosedBy result refused }
{
    refused?;
    Ok(Closed::Terminated)
}

/// Responds that a request isn't done, with these words, if memory was found for them.
pub fn refuse_with<A: Allocator + Copy, W: Sink>(
    port: &mut Port<A, W>,
    request: Request<'_>,
    words: &Result<String<A>, AllocError>,
) -> Result<(), Trouble>
    ensures { Responds result (asked_by request.entry) (spoken W.contents port.old) (spoken W.contents port.new) }
{
    let Ok(words) = words else {
        request.end();
        return Err(Trouble::OutOfMemory);
    };
    port.refuse(request, words.as_str())
}

/// Sends the event that shows a refusal.
fn tell_refusal<A: Allocator + Copy, W: Sink>(
    alloc: A,
    port: &mut Port<A, W>,
    numbering: Numbering,
    words: &Result<String<A>, AllocError>,
    path: &str,
    error: LoadError,
) -> Result<(), Trouble>
    ensures { Tells result (spoken W.contents port.old) (spoken W.contents port.new) }
{
    let Ok(words) = words else {
        return Ok(());
    };
    let line = match error {
        LoadError::Refused(refusal) => match refused_line(refusal) {
            Some(line) => Some(numbering.line(line)),
            None => None,
        },
        LoadError::OutOfMemory => None,
    };
    port.tell(refusal_event(alloc, words.as_str(), path, line)?)
}

/// Responds that a text is refused, and shows it.
fn refuse_text<A: Allocator + Copy, W: Sink>(
    alloc: A,
    port: &mut Port<A, W>,
    request: Request<'_>,
    numbering: Numbering,
    path: &str,
    error: LoadError,
) -> Result<(), Trouble>
    ensures { Responds result (asked_by request.entry) (spoken W.contents port.old) (spoken W.contents port.new) }
{
    let words = refusal_words(alloc, error);
    refuse_with(port, request, &words)?;
    tell_refusal(alloc, port, numbering, &words, path, error)
}

/// Tells that a session is open.
pub fn tell_open<A: Allocator + Copy, W: Sink>(
    alloc: A,
    port: &mut Port<A, W>,
    request: Request<'_>,
) -> Result<(), Trouble>
    ensures { Responds result (asked_by request.entry) (spoken W.contents port.old) (spoken W.contents port.new) }
{
    port.accept(request)?;
    tell_plain(alloc, "initialized", port)
}

/// Responds that a program doesn't start.
pub fn refuse_start<A: Allocator + Copy, S: Source, W: Sink>(
    error: StartError,
    launch: &Launch<A>,
    request: Request<'_>,
    line: &mut Line<A, S, W>,
) -> Result<Closed<A>, Ended>
    ensures { Serves result (asked_by request.entry) (heard S.remaining W.contents line.old) (heard S.remaining W.contents line.new) }
{
    refuse_load(start_error(error), launch, request, line)
}

/// Responds that a text isn't loaded.
pub fn refuse_load<A: Allocator + Copy, S: Source, W: Sink>(
    error: LoadError,
    launch: &Launch<A>,
    request: Request<'_>,
    line: &mut Line<A, S, W>,
) -> Result<Closed<A>, Ended>
    ensures { Serves result (asked_by request.entry) (heard S.remaining W.contents line.old) (heard S.remaining W.contents line.new) }
{
    let alloc = line.alloc;
    let numbering = line.client.numbering;
    let path = launch.program.as_str();
    closed_by(refuse_text(alloc, &mut line.port, request, numbering, path, error))
}

/// Why a file can't be read.
pub fn unread_words<A: Allocator>(alloc: A, path: &str) -> Result<String<A>, AllocError> {
    let mut words = String::from_str(alloc, "cannot read ")?;
    words.push_str(path)?;
    Ok(words)
}

/// Responds that the text of a launch can't be read.
pub fn refuse_unread<A: Allocator + Copy, S: Source, W: Sink>(
    launch: &Launch<A>,
    request: Request<'_>,
    line: &mut Line<A, S, W>,
) -> Result<Closed<A>, Ended>
    ensures { Serves result (asked_by request.entry) (heard S.remaining W.contents line.old) (heard S.remaining W.contents line.new) }
{
    let alloc = line.alloc;
    let words = unread_words(alloc, launch.program.as_str());
    closed_by(refuse_with(&mut line.port, request, &words))
}

/// Tells that the arguments of a launch aren't fit.
pub fn refuse_unfit<A: Allocator + Copy, S: Source, W: Sink>(
    request: Request<'_>,
    unfit: Unfit,
    line: &mut Line<A, S, W>,
) -> Result<Closed<A>, Ended>
    ensures { Serves result (asked_by request.entry) (heard S.remaining W.contents line.old) (heard S.remaining W.contents line.new) }
{
    if unfit == Unfit::OutOfMemory {
        request.end();
        return Err(Ended::OutOfMemory);
    }
    closed_by(line.port.refuse(request, unfit_words(unfit)))
}

/// The words of a record that can't be kept.
fn unkept_words<A: Allocator + Copy>(
    alloc: A,
    fault: RecordFault,
    record: Option<&String<A>>,
) -> Result<String<A>, AllocError> {
    match record {
        Some(record) => record_words(alloc, fault, record.as_str()),
        None => record_words(alloc, fault, ""),
    }
}

/// Responds that a session can't be recorded where a launch asks for it.
pub fn refuse_record<A: Allocator + Copy, S: Source, W: Sink>(
    fault: RecordFault,
    request: Request<'_>,
    line: &mut Line<A, S, W>,
) -> Result<Closed<A>, Ended>
    ensures { Serves result (asked_by request.entry) (heard S.remaining W.contents line.old) (heard S.remaining W.contents line.new) }
{
    let words = unkept_words(line.alloc, fault, line.record.as_ref());
    closed_by(refuse_with(&mut line.port, request, &words))
}
