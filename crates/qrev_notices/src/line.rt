//! Where the messages of an editor come from and go to.

ghost use Rattle.std.specs.Prelude.{◌≡◌, [], List, ℕ, Option, Some, None, Ok, IfOk, IfSome};
ghost use Rattle.std.specs.Io.KnownBytes.{prepend_known};
ghost use Rattle.json.specs.Json.{Json};
ghost use Rattle.json.specs.Value.{value_view};
ghost use Rattle.qrev_notices.specs.Reading.{IsDocument, ReadsNext};

use crate::port::Port;
use crate::trouble::Trouble;
use json::{Error, Scratch, Value};
use qil_streams::{DeviceFault, Sink, Source};
use qrev_debuggee::Client;
use qrev_map::Names;
use qrev_protocol::{Came, Incoming, ReadError};
use qrev_views::SourceMap;
use std::alloc::{AllocError, Allocator};

/// How the adapter ended.
#[derive(Clone, Copy)]
pub enum Ended {
    /// The editor left.
    Left,
    /// The input ended, after a message or within one.
    InputEnded,
    /// What came is no message, or a device failed.
    Broken,
    OutOfMemory,
}

impl From<Trouble> for Ended {
    ghost use Rattle.std.specs.Prelude.{◌≡◌};
    ghost use Rattle.qrev_notices.specs.Reading.{ended_by};

    ghost from_gives = { λ trouble ended. ended ≡ ended_by trouble };

    fn from(trouble: Trouble) -> Self {
        match trouble {
            Trouble::OutOfMemory => Ended::OutOfMemory,
            Trouble::Device => Ended::Broken,
        }
    }
}

impl From<AllocError> for Ended {
    ghost use Rattle.std.specs.Prelude.{◌≡◌};
    ghost use Rattle.qrev_notices.specs.declared.line.Ended.TheVariants.{OutOfMemory};

    ghost from_gives = { λ _ ended. ended ≡ OutOfMemory };

    fn from(_refused: AllocError) -> Self {
        Ended::OutOfMemory
    }
}

/// How a session was closed.
#[derive(Drop)]
pub enum Closed<A: Allocator> {
    /// Another may be launched.
    Terminated,
    Left,
    InputEnded,
    /// The program is loaded again, by this message.
    Restarted(Vec<u8, A>),
}

/// Where messages come from and go to, and how the editor counts.
#[derive(Drop)]
pub struct Line<A: Allocator, S, W> {
    pub alloc: A,
    pub source: S,
    pub incoming: Incoming,
    pub port: Port<A, W>,
    pub client: Client,
    /// Where the text that is being opened came from, until its session takes it.
    pub source_map: Option<SourceMap<A>>,
    /// The same of what its names stand for.
    pub names: Names<A>,
    /// The same of the file that takes its record.
    pub record: Option<String<A>>,
    /// How many sessions the last launch opened.
    pub sessions: u64,
    /// Whether a part of the next message, or all of it, was read with the last one.
    pub is_waiting: bool,
    /// Whether a run of the session ends at the limit of moves.
    pub has_limit: bool,
    /// Whether the editor shows how far a long run is.
    pub shows_progress: bool,
}

/// A source that is at its end.
#[derive(Drop)]
struct Dry;

impl Source for Dry {
    ghost remaining = { λ _. Some [] };

    ghost failures = { λ _. 0 };

    fn read(&mut self, _into: &mut [u8]) -> Result<usize, DeviceFault> {
        Ok(0)
    }

    fn faults(&self) -> u64 {
        0
    }
}

/// Whether bytes were read that are in no message so far.
fn has_pending(incoming: &mut Incoming) -> bool
    ensures { incoming.new.pending ≡ incoming.old.pending }
{
    let mut dry = Dry;
    match incoming.pending.fill(&mut dry) {
        Ok(has_pending) => has_pending,
        Err(_) => false,
    }
}

impl<A: Allocator + Copy, S: Source, W: Sink> Line<A, S, W> {
    /// Nothing was read or written so far.
    pub fn new(alloc: A, source: S, sink: W) -> Self
        ensures source { result.source ≡ source }
        ensures nothing { result.incoming.pending ≡ [] }
        ensures sink { result.port.sink ≡ sink }
        ensures none { result.port.sent ≡ 0 }
    {
        Line {
            alloc,
            source,
            incoming: Incoming::new(),
            port: Port::new(alloc, sink),
            client: Client::unknown(),
            source_map: None,
            names: Names::none(alloc),
            record: None,
            sessions: 0,
            is_waiting: false,
            has_limit: true,
            shows_progress: false,
        }
    }

    /// The body of the next message, or none where the input ended.
    pub fn next(&mut self) -> Result<Option<Vec<u8, A>>, Ended>
        ensures read { ReadsNext result (prepend_known self.old.incoming.pending (S.remaining self.old.source))
            (prepend_known self.new.incoming.pending (S.remaining self.new.source)) }
        ensures silent { self.new.port ≡ self.old.port }
    {
        if self.source.faults() == u64::MAX {
            return Err(Ended::Broken);
        }
        let came = self.incoming.next(self.alloc, &mut self.source);
        self.is_waiting = has_pending(&mut self.incoming);
        match came {
            Ok(Came::Body(body)) => Ok(Some(body)),
            Ok(Came::End) => Ok(None),
            Ok(Came::Lost) => Err(Ended::Broken),
            Err(ReadError::Device) => Err(Ended::Broken),
            Err(ReadError::OutOfMemory) => Err(Ended::OutOfMemory),
        }
    }
}

/// The message that a body is, if it is one. Where memory runs out nobody knows.
pub fn message_in<'b, A: Allocator + Copy>(
    alloc: A,
    body: &'b [u8],
    scratch: &'b mut Scratch<A>,
) -> Result<Option<Value<'b, A>>, AllocError>
    ensures some { IfOk result (λ found. IfSome found (λ message. IsDocument body.entry.now (value_view message))) }
    ensures none { result ≡ Ok None → (json : Json) → IsDocument body.entry.now json → ⊥ }
{
    match Value::from_slice(alloc, body, scratch) {
        Ok(message) => Ok(Some(message)),
        Err(Error::OutOfMemory) => Err(AllocError),
        Err(_) => Ok(None),
    }
}
