//! A line of a header, read byte by byte.

ghost use Rattle.std.specs.Prelude.{◌≡◌, ℕ, ◌+◌, ◌-◌, ◌^◌, ◌<◌, ◌≤◌, List, [], ◌∷◌, ◌++◌, length};
ghost use Rattle.std.specs.Io.KnownBytes.{prepend_known};
ghost use Rattle.qil_streams.specs.Device.{Counts};
ghost use Rattle.qrev_protocol.specs.Incoming.{TakesLine};

use crate::pending::Pending;
use qil_streams::{DeviceFault, Source};
use std::marker::Model;

/// What comes after a line of a header.
#[derive(Clone, Copy)]
pub enum LineEnd {
    /// Byte 10, which was taken.
    Newline,
    /// The end of the input.
    EndOfInput,
    /// More bytes of the line than there is room for.
    TooLong,
}

/// The bytes of a line, of which there are 4096 at most.
#[derive(Drop)]
pub struct Line {
    bytes: [u8; 4096],
    len: usize,
}

impl Model for Line {
    ghost use Rattle.std.specs.Prelude.{List, ℕ, ◌≤◌, take};

    ghost Value = { List ℕ };

    ghost view = { λ s. take s.len s.bytes };

    ghost invariant = { λ s. s.len ≤ 4096 };
}

impl Line {
    pub fn new() -> Self
        ensures { result ≡ [] }
    {
        Line {
            bytes: [0; 4096],
            len: 0,
        }
    }

    fn clear(&mut self)
        ensures { self.new ≡ [] }
    {
        self.len = 0;
    }

    fn push(&mut self, byte: u8)
        requires { length self.old < 4096 }
        ensures { self.new ≡ self.old ++ byte ∷ [] }
    {
        self.bytes[self.len] = byte;
        self.len += 1;
    }

    fn len(&self) -> usize
        ensures { result ≡ length self.now }
    {
        self.len
    }

    pub fn as_slice(&self) -> &[u8]
        ensures { result.now ≡ self.now }
    {
        &self.bytes[..self.len]
    }

    /// Reads the next line of the input, which has to have fewer bytes than `room`.
    pub fn read<S: Source>(
        &mut self,
        pending: &mut Pending,
        source: &mut S,
        room: usize,
    ) -> Result<LineEnd, DeviceFault>
        requires countable { S.failures source.old < 2 ^ 64 - 1 }
        requires fits { room ≤ 4096 }
        ensures line { TakesLine result room self.new (prepend_known pending.old (S.remaining source.old))
            (prepend_known pending.new (S.remaining source.new)) }
        ensures counted { Counts result (S.failures source.old) (S.failures source.new) }
    {
        self.clear();
        while self.len() < room {
            match pending.next(source)? {
                Some(b'\n') => return Ok(LineEnd::Newline),
                Some(byte) => self.push(byte),
                None => return Ok(LineEnd::EndOfInput),
            }
        }
        Ok(LineEnd::TooLong)
    }
}
