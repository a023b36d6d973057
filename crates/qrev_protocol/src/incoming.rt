//! Messages that come in.

ghost use Rattle.std.specs.Prelude.{◌≡◌, ℕ, ◌+◌, ◌-◌, ◌^◌, ◌<◌, ◌≤◌, List, [], ◌++◌, length, Some};
ghost use Rattle.std.specs.Io.KnownBytes.{prepend_known};
ghost use Rattle.qil_streams.specs.Device.{Counts};
ghost use Rattle.qrev_protocol.specs.Frame.{IsMessage, framed};
ghost use Rattle.qrev_protocol.specs.Incoming.{TakesHead, TakesBody, TakesMessage, Gives, CountsFault};

use crate::header::{Said, is_blank, said_in};
use crate::line::{Line, LineEnd};
use crate::pending::Pending;
use qil_streams::{DeviceFault, Source};
use std::alloc::{AllocError, Allocator};

/// The most bytes that the body of a message may have.
pub const BODY_LIMIT: u32 = 1 << 20;

/// The most bytes that a header may have, with the blank line after it.
pub const HEADER_LIMIT: usize = 4096;

/// Why no message was read.
#[derive(Clone, Copy)]
pub enum ReadError {
    /// The device failed.
    Device,
    /// There was no memory for the body.
    OutOfMemory,
}

impl From<DeviceFault> for ReadError {
    ghost use Rattle.qrev_protocol.specs.declared.incoming.ReadError.TheVariants.{Device};
    ghost use Rattle.std.specs.Prelude.{◌≡◌};

    ghost from_gives = { λ _ e. e ≡ Device };

    fn from(_fault: DeviceFault) -> Self {
        ReadError::Device
    }
}

impl From<AllocError> for ReadError {
    ghost use Rattle.qrev_protocol.specs.declared.incoming.ReadError.TheVariants.{OutOfMemory};
    ghost use Rattle.std.specs.Prelude.{◌≡◌};

    ghost from_gives = { λ _ e. e ≡ OutOfMemory };

    fn from(_refused: AllocError) -> Self {
        ReadError::OutOfMemory
    }
}

/// What came in.
#[derive(Drop)]
pub enum Came<A: Allocator> {
    /// The body of a message.
    Body(Vec<u8, A>),
    /// Nothing: the input has ended, after a message or within one.
    End,
    /// What is no message, so that nobody knows where the next one begins.
    Lost,
}

/// What stands before a body.
#[derive(Clone, Copy)]
pub enum Head {
    /// A header, which says that the body has so many bytes.
    Length(u32),
    /// The end of the input.
    End,
    /// What is no header of a message.
    Lost,
}

/// The messages of an input.
#[derive(Drop)]
pub struct Incoming {
    /// What was read and is in no message so far.
    pub pending: Pending,
    line: Line,
}

impl Incoming {
    /// No message so far. Nothing is read.
    pub fn new() -> Self
        ensures { result.pending ≡ [] }
    {
        Incoming {
            pending: Pending::new(),
            line: Line::new(),
        }
    }

    /// Reads the header of the next message.
    fn read_head<S: Source>(&mut self, source: &mut S) -> Result<Head, DeviceFault>
        requires { S.failures source.old < 2 ^ 64 - 1 }
        ensures head { TakesHead result (prepend_known self.old.pending (S.remaining source.old))
            (prepend_known self.new.pending (S.remaining source.new)) }
        ensures counted { Counts result (S.failures source.old) (S.failures source.new) }
    {
        let mut room = HEADER_LIMIT;
        let mut said = Said::Nothing;
        loop {
            match self.line.read(&mut self.pending, source, room)? {
                LineEnd::Newline => {}
                LineEnd::EndOfInput => return Ok(Head::End),
                LineEnd::TooLong => return Ok(Head::Lost),
            }
            let line = self.line.as_slice();
            if is_blank(line) {
                return match said {
                    Said::Length(length) => Ok(Head::Length(length)),
                    _ => Ok(Head::Lost),
                };
            }
            room -= line.len() + 1;
            said = said.join(said_in(line));
        }
    }

    /// Reads a body of so many bytes, or gives none where the input ends before.
    fn read_body<A: Allocator, S: Source>(
        &mut self,
        alloc: A,
        source: &mut S,
        length: u32,
    ) -> Result<Option<Vec<u8, A>>, ReadError>
        requires { S.failures source.old < 2 ^ 64 - 1 }
        ensures body { TakesBody result length (prepend_known self.old.pending (S.remaining source.old))
            (prepend_known self.new.pending (S.remaining source.new)) }
        ensures counted { CountsFault result (S.failures source.old) (S.failures source.new) }
    {
        let length = length as usize;
        let mut body = Vec::with_capacity(alloc, length)?;
        while body.len() < length {
            if !self.pending.fill(source)? {
                return Ok(None);
            }
            let most = length - body.len();
            self.pending.move_into(&mut body, most)?;
        }
        Ok(Some(body))
    }

    /// Reads the next message.
    fn read_message<A: Allocator, S: Source>(
        &mut self,
        alloc: A,
        source: &mut S,
    ) -> Result<Came<A>, ReadError>
        requires { S.failures source.old < 2 ^ 64 - 1 }
        ensures message { TakesMessage result (prepend_known self.old.pending (S.remaining source.old))
            (prepend_known self.new.pending (S.remaining source.new)) }
        ensures counted { CountsFault result (S.failures source.old) (S.failures source.new) }
    {
        let length = match self.read_head(source)? {
            Head::Length(length) => length,
            Head::End => return Ok(Came::End),
            Head::Lost => return Ok(Came::Lost),
        };
        match self.read_body(alloc, source, length)? {
            Some(body) => Ok(Came::Body(body)),
            None => Ok(Came::End),
        }
    }

    /// Takes the next message off the input, and gives its body.
    ///
    /// It reads what has come, and waits for no byte after the message. After `End` and `Lost` there is no further message.
    ///
    /// # Errors
    ///
    /// `Device` where a read failed, `OutOfMemory` where there is no room for the body. A prefix of the message was taken, so no
    /// further message can be read.
    pub fn next<A: Allocator, S: Source>(
        &mut self,
        alloc: A,
        source: &mut S,
    ) -> Result<Came<A>, ReadError>
        requires { S.failures source.old < 2 ^ 64 - 1 }

        // What was taken, and what it is.
        ensures message { TakesMessage result (prepend_known self.old.pending (S.remaining source.old))
            (prepend_known self.new.pending (S.remaining source.new)) }

        // The message that is at the start is given, and what stands after it is left.
        ensures only { (message body more : List ℕ) → IsMessage message body
            → prepend_known self.old.pending (S.remaining source.old) ≡ Some (message ++ more)
            → Gives result body (prepend_known self.new.pending (S.remaining source.new)) more }

        // What was framed is read again.
        ensures framed { (body more : List ℕ) → length body ≤ 2 ^ 20
            → prepend_known self.old.pending (S.remaining source.old) ≡ Some (framed body ++ more)
            → Gives result body (prepend_known self.new.pending (S.remaining source.new)) more }
        ensures counted { CountsFault result (S.failures source.old) (S.failures source.new) }
    {
        self.read_message(alloc, source)
    }
}
