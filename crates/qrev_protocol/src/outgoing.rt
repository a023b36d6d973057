//! Messages that go out, up to their bodies: responses and events.

ghost use Rattle.std.specs.Prelude.{◌≡◌, IfOk};
ghost use Rattle.qrev_protocol.specs.Outgoing.{response_head, event_head, message_head};

use crate::request::Request;
use crate::values::{Object, Whole, begin_whole};
use std::alloc::{AllocError, Allocator};

/// How a request went.
#[derive(Clone, Copy)]
pub enum Outcome<'m> {
    Done,
    /// It failed, for this reason.
    Failed(&'m str),
}

/// A message of a kind, up to what belongs to the kind.
fn begin<A: Allocator>(alloc: A, kind: &str) -> Result<Object<A, Whole>, AllocError>
    ensures { IfOk result (λ o. o.out.tokens ≡ message_head kind.now) }
{
    begin_whole(alloc)?.text("type", kind)
}

/// The response to a request, up to its body.
pub fn response<A: Allocator>(
    alloc: A,
    request: &Request<'_>,
    outcome: Outcome<'_>,
) -> Result<Object<A, Whole>, AllocError>
    ensures { IfOk result (λ o. o.out.tokens ≡ response_head request.now.seq request.now.command.now outcome.entry) }
{
    let message = begin(alloc, "response")?
        .number("request_seq", request.seq())?
        .text("command", request.command())?;
    match outcome {
        Outcome::Done => message.flag("success", true),
        Outcome::Failed(why) => message.flag("success", false)?.text("message", why),
    }
}

/// An event, up to its body.
pub fn event<A: Allocator>(alloc: A, event: &str) -> Result<Object<A, Whole>, AllocError>
    ensures { IfOk result (λ o. o.out.tokens ≡ event_head event.now) }
{
    begin(alloc, "event")?.text("event", event)
}
