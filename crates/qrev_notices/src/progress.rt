//! How far a long run is, told where the editor shows it.

ghost use Rattle.std.specs.Prelude.{IfOk};
ghost use Rattle.qrev_notices.specs.Conversation.{spoken, Tells, IsEventSoFar};

use crate::port::Port;
use crate::trouble::Trouble;
use qil_streams::Sink;
use qrev_debuggee::Body;
use qrev_protocol::{Object, Whole, event};
use qrev_views::number_text;
use std::alloc::{AllocError, Allocator};

/// What an editor sees of a long run.
#[derive(Clone, Copy, PartialEq, Eq)]
pub enum Progress {
    Start,
    Update,
    End,
}

/// The name of its event.
fn event_name(progress: Progress) -> &'static str {
    match progress {
        Progress::Start => "progressStart",
        Progress::Update => "progressUpdate",
        Progress::End => "progressEnd",
    }
}

/// Such an event, up to the end of its body. A run is known by the position at which it began.
fn progress_body<A: Allocator + Copy>(
    alloc: A,
    progress: Progress,
    begun: u64,
) -> Result<Body<A>, AllocError>
    ensures { IfOk result (λ o. IsEventSoFar o.out.tokens) }
{
    let name = event_name(progress);
    let id = number_text(alloc, begun)?;
    let body = event(alloc, name)?
        .object("body")?
        .text("progressId", id.as_str())?;
    Ok(body)
}

/// Adds what the run does, in the first of these events.
fn add_title<A: Allocator>(body: Body<A>, progress: Progress) -> Result<Body<A>, AllocError>
    requires { IsEventSoFar body.out.tokens }
    ensures { IfOk result (λ o. IsEventSoFar o.out.tokens) }
{
    if progress != Progress::Start {
        return Ok(body);
    }
    let body = body.text("title", "running")?;
    Ok(body)
}

/// The event with the position of a run.
fn progress_event<A: Allocator + Copy>(
    alloc: A,
    progress: Progress,
    begun: u64,
    position: u64,
) -> Result<Object<A, Whole>, AllocError>
    ensures { IfOk result (λ o. IsEventSoFar o.out.tokens) }
{
    let mut place = String::from_str(alloc, "#")?;
    let number = number_text(alloc, position)?;
    place.push_str(number.as_str())?;
    let body = progress_body(alloc, progress, begun)?;
    let body = add_title(body, progress)?;
    let body = body.text("message", place.as_str())?;
    let message = body.end()?;
    Ok(message)
}

/// Tells at which position a run is that began at another one.
pub fn tell_progress<A: Allocator + Copy, W: Sink>(
    alloc: A,
    progress: Progress,
    begun: u64,
    position: u64,
    port: &mut Port<A, W>,
) -> Result<(), Trouble>
    ensures { Tells result (spoken W.contents port.old) (spoken W.contents port.new) }
{
    port.tell(progress_event(alloc, progress, begun, position)?)
}
