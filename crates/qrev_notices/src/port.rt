//! Messages that go out: numbered from 1, each in a frame, which is written by one call.

ghost use Rattle.std.specs.Prelude.{◌≡◌, ℕ, ◌+◌, ◌-◌, ◌^◌, ◌<◌, ◌++◌, List, suc, IfOk, OnOk, Err};
ghost use Rattle.json.specs.Print.{print};
ghost use Rattle.qrev_protocol.specs.Frame.{framed};
ghost use Rattle.qrev_protocol.specs.Open.{IsJson};
ghost use Rattle.qrev_protocol.specs.Outgoing.{response_head};
ghost use Rattle.qrev_protocol.specs.declared.outgoing.Outcome.TheVariants.{Done};
ghost use Rattle.qrev_notices.specs.declared.trouble.Trouble.TheVariants.{OutOfMemory};
ghost use Rattle.qrev_notices.specs.Conversation.{asked_by, message_text, spoken, IsNumbered, Sends, Responds, Tells, IsEventSoFar};
ghost use Rattle.qrev_notices.specs.Last.{IsNamedEvent, TellsLast};

use crate::trouble::Trouble;
use itoa::Buffer;
use qil_streams::{Sink, write_all};
use qrev_debuggee::Body;
use qrev_protocol::{Object, Outcome, Request, Whole, response};
use std::alloc::{AllocError, Allocator};

/// A text in its frame.
fn framed_text<A: Allocator>(alloc: A, text: &[u8]) -> Result<Vec<u8, A>, AllocError>
    ensures { IfOk result (λ frame. frame.items ≡ framed text.now) }
{
    let mut digits = Buffer::new();
    let mut frame = Vec::from_slice(alloc, b"Content-Length: ")?;
    frame.extend_from_slice(digits.format(text.len()).as_bytes())?;
    frame.extend_from_slice(b"\r\n\r\n")?;
    frame.extend_from_slice(text)?;
    Ok(frame)
}

/// How the text of the response to a request begins that is done.
fn response_start<A: Allocator>(alloc: A, request: &Request<'_>) -> Result<Vec<u8, A>, AllocError>
    ensures { IfOk result (λ start. start.items ≡ print (response_head request.now.seq request.now.command.now Done)) }
{
    let Object { out, .. } = response(alloc, request, Outcome::Done)?;
    Ok(out.into_inner())
}

/// The text of the message of a number with this body, which has to begin so.
fn text_after<A: Allocator>(start: &[u8], number: u64, body: Body<A>) -> Result<Vec<u8, A>, Trouble>
    ensures text { IfOk result (λ text. (more : List ℕ) × IsNumbered number text.items × (text.items ≡ start.now ++ more)) }
    ensures json { IfOk result (λ text. IsJson text.items) }
{
    let text = body.end()?.into_text(number)?;
    if !text.as_slice().starts_with(start) {
        return Err(Trouble::Device);
    }
    Ok(text)
}

/// The opening of a success response.
pub fn begin_body<A: Allocator>(alloc: A, request: &Request<'_>) -> Result<Body<A>, AllocError> {
    response(alloc, request, Outcome::Done)?.object("body")
}

/// Where messages go out, and how many went.
///
/// Each call that sends fails by `OutOfMemory` where there was no memory for the text of the message, of which nothing was written
/// then, and by `Device` where the device failed, which may have taken a part of it.
#[derive(Drop)]
pub struct Port<A: Allocator, W> {
    alloc: A,
    pub sink: W,
    pub sent: u64,
}

impl<A: Allocator + Copy, W: Sink> Port<A, W> {
    /// Messages go to `sink`, after what it holds.
    pub fn new(alloc: A, sink: W) -> Self
        ensures sink { result.sink ≡ sink }
        ensures none { result.sent ≡ 0 }
    {
        Port {
            alloc,
            sink,
            sent: 0,
        }
    }

    /// The number of the next message, where the port can count it: one that sent 2^64 - 1 messages, or whose device failed as
    /// often, sends nothing more.
    fn next(&self) -> Result<u64, Trouble>
        ensures number { IfOk result (λ n. (n ≡ suc self.now.sent) × (n < 2 ^ 64)) }
        ensures countable { IfOk result (λ n. W.failures self.now.sink < 2 ^ 64 - 1) }
        ensures device { result ≡ Err OutOfMemory → ⊥ }
    {
        if self.sent == u64::MAX || self.sink.faults() == u64::MAX {
            return Err(Trouble::Device);
        }
        Ok(self.sent + 1)
    }

    /// Writes the text of the message of a number.
    fn write(&mut self, number: u64, text: &[u8]) -> Result<(), Trouble>
        requires numbered { number ≡ suc self.old.sent }
        requires countable { W.failures self.old.sink < 2 ^ 64 - 1 }
        ensures { Sends result text.now (spoken W.contents self.old) (spoken W.contents self.new) }
    {
        let frame = framed_text(self.alloc, text)?;
        write_all(&mut self.sink, frame.as_slice())?;
        self.sent = number;
        Ok(())
    }

    /// Ends a message, gives it the next number, and sends it.
    fn send(&mut self, message: Object<A, Whole>) -> Result<(), Trouble>
        ensures sent { Sends result (message_text (suc self.old.sent) message.out.tokens) (spoken W.contents self.old) (spoken W.contents self.new) }
        ensures json { OnOk result (IsJson (message_text (suc self.old.sent) message.out.tokens)) }
    {
        let number = self.next()?;
        let text = message.into_text(number)?;
        self.write(number, text.as_slice())
    }

    /// Sends an event.
    pub fn tell(&mut self, event: Object<A, Whole>) -> Result<(), Trouble>
        requires { IsEventSoFar event.out.tokens }
        ensures events { Tells result (spoken W.contents self.old) (spoken W.contents self.new) }
        ensures last { (name : List ℕ) → IsNamedEvent name event.out.tokens → TellsLast result name (spoken W.contents self.new) }
    {
        self.send(event)
    }

    /// Responds to a request that it is done, with this body.
    ///
    /// A body that doesn't begin as the response to this request isn't sent. No body of `begin_body` does so.
    pub fn respond(&mut self, request: Request<'_>, body: Body<A>) -> Result<(), Trouble>
        ensures { Responds result (asked_by request.entry) (spoken W.contents self.old) (spoken W.contents self.new) }
    {
        let start = response_start(self.alloc, &request);
        request.end();
        let start = start?;
        let number = self.next()?;
        let text = text_after(start.as_slice(), number, body)?;
        self.write(number, text.as_slice())
    }

    /// Responds that it is done, without a body.
    pub fn accept(&mut self, request: Request<'_>) -> Result<(), Trouble>
        ensures { Responds result (asked_by request.entry) (spoken W.contents self.old) (spoken W.contents self.new) }
    {
        let message = response(self.alloc, &request, Outcome::Done);
        request.end();
        self.send(message?)
    }

    /// Responds that it isn't done, and why.
    pub fn refuse(&mut self, request: Request<'_>, why: &str) -> Result<(), Trouble>
        ensures { Responds result (asked_by request.entry) (spoken W.contents self.old) (spoken W.contents self.new) }
    {
        let message = response(self.alloc, &request, Outcome::Failed(why));
        request.end();
        self.send(message?)
    }
}
