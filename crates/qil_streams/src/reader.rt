//! The lines of a script, read in chunks, each line kept up to 257 bytes.

ghost use Rattle.std.specs.Prelude.{◌≡◌, ℕ, ◌+◌, ◌-◌, ◌^◌, ◌<◌, ◌≤◌, List, [], ◌∷◌, ◌++◌, take, drop, length, OnOk, OnErr};
ghost use Rattle.std.specs.Io.KnownBytes.{Consumes, IsAtEnd};
ghost use Rattle.qil_streams.specs.Device.{Counts};
ghost use Rattle.qil_streams.specs.Reader.{rest_of, TakesNextByte, TakesLine, IsLine, Reads};
ghost use Rattle.qil_streams.specs.Reading.{read_count};

use crate::device::{DeviceFault, Source};
use std::marker::Model;

/// The most bytes that a script may have.
pub const SCRIPT_LIMIT: u32 = 1 << 24;

/// How many bytes of a line are kept: one more than a line that is no fault may have.
const KEPT: usize = 257;

/// How many bytes one read asks for at most.
const CHUNK: usize = 4096;

/// What comes next in a script.
#[derive(Clone, Copy)]
pub enum NextByte {
    /// A byte, which was taken.
    Byte(u8),
    /// Nothing: the script has ended.
    End,
    /// A byte past the limit, which was not taken.
    TooLong,
}

/// The bytes of a script, which are read in chunks.
#[derive(Drop)]
pub struct ScriptBytes {
    chunk: [u8; 4096],
    start: usize,
    end: usize,
    given: u32,
}

impl Model for ScriptBytes {
    ghost use Rattle.std.specs.Prelude.{◌+◌, ◌-◌, ◌^◌, ◌≤◌, take, drop};
    ghost use Rattle.qil_streams.specs.Reading.{Reading};

    ghost Value = { Reading };

    ghost view = { λ s. record { pending = take (s.end - s.start) (drop s.start s.chunk); given = s.given } };

    ghost invariant = { λ s. (s.start ≤ s.end) × (s.end ≤ 4096) × (s.given + (s.end - s.start) ≤ 2 ^ 24 + 1) × (s.given ≤ 2 ^ 24) };
}

impl ScriptBytes {
    fn new() -> Self
        ensures pending { result.pending ≡ [] }
        ensures given { result.given ≡ 0 }
    {
        ScriptBytes {
            chunk: [0; 4096],
            start: 0,
            end: 0,
            given: 0,
        }
    }

    /// Reads a chunk, no byte further than one past the limit.
    fn refill<S: Source>(&mut self, source: &mut S) -> Result<(), DeviceFault>
        requires empty { self.old.pending ≡ [] }
        requires countable { S.failures source.old < 2 ^ 64 - 1 }
        ensures ok { OnOk result (Consumes (S.remaining source.old) (S.remaining source.new) self.new.pending
            × (self.new.pending ≡ [] → IsAtEnd (S.remaining source.new))) }
        ensures err { OnErr result ((self.new.pending ≡ []) × Consumes (S.remaining source.old) (S.remaining source.new) []) }
        ensures given { self.new.given ≡ self.old.given }
        ensures within { read_count self.new ≤ 2 ^ 24 + 1 }
        ensures counted { Counts result (S.failures source.old) (S.failures source.new) }
    {
        let room = ((SCRIPT_LIMIT + 1 - self.given) as usize).min(CHUNK);
        self.start = 0;
        self.end = 0;
        let count = source.read(&mut self.chunk[..room])?;
        self.end = count;
        Ok(())
    }

    /// How many bytes are pending.
    fn pending(&self) -> usize
        ensures len { result ≡ length self.now.pending }
        ensures given { self.now.given ≤ 2 ^ 24 }
        ensures within { read_count self.now ≤ 2 ^ 24 + 1 }
    {
        self.end - self.start
    }

    /// Takes the first byte that is pending.
    fn take(&mut self) -> u8
        requires some { 0 < length self.old.pending }
        requires below { self.old.given < 2 ^ 24 }
        ensures taken { self.old.pending ≡ result ∷ self.new.pending }
        ensures given { self.new.given ≡ self.old.given + 1 }
    {
        let byte = self.chunk[self.start];
        self.start += 1;
        self.given += 1;
        byte
    }

    /// How many bytes were taken.
    fn given(&self) -> u32
        ensures given { result ≡ self.now.given }
        ensures bound { self.now.given ≤ 2 ^ 24 }
    {
        self.given
    }

    /// Takes the next byte of the script, if one is left within the limit.
    fn next<S: Source>(&mut self, source: &mut S) -> Result<NextByte, DeviceFault>
        requires { S.failures source.old < 2 ^ 64 - 1 }
        ensures next_byte { TakesNextByte result self.old self.new
            (rest_of self.old (S.remaining source.old)) (rest_of self.new (S.remaining source.new)) }
        ensures reads { Reads self.old self.new (S.remaining source.old) (S.remaining source.new) }
        ensures within { read_count self.new ≤ 2 ^ 24 + 1 }
        ensures counted { Counts result (S.failures source.old) (S.failures source.new) }
    {
        if self.pending() == 0 {
            self.refill(source)?;
            if self.pending() == 0 {
                return Ok(NextByte::End);
            }
        }
        if self.given() >= SCRIPT_LIMIT {
            return Ok(NextByte::TooLong);
        }
        Ok(NextByte::Byte(self.take()))
    }
}

/// The prefix of a line, up to 257 bytes.
#[derive(Drop)]
pub struct KeptLine {
    bytes: [u8; 257],
    len: usize,
}

impl Model for KeptLine {
    ghost use Rattle.std.specs.Prelude.{List, ℕ, ◌≤◌, take};

    ghost Value = { List ℕ };

    ghost view = { λ s. take s.len s.bytes };

    ghost invariant = { λ s. s.len ≤ 257 };
}

impl KeptLine {
    fn new() -> Self
        ensures { result ≡ [] }
    {
        KeptLine {
            bytes: [0; 257],
            len: 0,
        }
    }

    fn clear(&mut self)
        ensures { self.new ≡ [] }
    {
        self.len = 0;
    }

    /// Adds a byte, which is dropped where 257 are kept.
    fn push(&mut self, byte: u8)
        ensures { self.new ≡ take 257 (self.old ++ byte ∷ []) }
    {
        if self.len < KEPT {
            self.bytes[self.len] = byte;
            self.len += 1;
        }
    }

    /// The bytes that are kept.
    pub fn as_slice(&self) -> &[u8]
        ensures { result.now ≡ self.now }
    {
        &self.bytes[..self.len]
    }
}

/// How a line ends.
#[derive(Clone, Copy)]
pub enum LineEnd {
    /// By byte 10.
    Newline,
    /// By the end of the script. The line has a byte or more, and nothing follows it.
    Last,
    /// There is no further line: the script has ended.
    End,
    /// Not within the most bytes that a script may have.
    TooLong,
}

/// The lines of a script.
#[derive(Drop)]
pub struct LineReader {
    /// The bytes that were read and are in no line so far, and how many were taken.
    pub bytes: ScriptBytes,
    /// The prefix of the line that `next` gave last.
    pub kept: KeptLine,
}

impl LineReader {
    /// No line so far. Nothing is read.
    pub fn new() -> Self
        ensures pending { result.bytes.pending ≡ [] }
        ensures given { result.bytes.given ≡ 0 }
    {
        LineReader {
            bytes: ScriptBytes::new(),
            kept: KeptLine::new(),
        }
    }

    /// Goes to the next line and keeps its prefix, 257 bytes at most, in `kept`.
    ///
    /// After `Last`, `End` and `TooLong` no line follows: a caller that stops there makes no read past the end.
    ///
    /// # Errors
    ///
    /// `DeviceFault` where a read failed. The bytes of the line that were taken before it are in no later line.
    pub fn next<S: Source>(&mut self, source: &mut S) -> Result<LineEnd, DeviceFault>
        requires { S.failures source.old < 2 ^ 64 - 1 }
        ensures line { (line : List ℕ) × IsLine line × TakesLine result self.old.bytes self.new.bytes self.new.kept
            (rest_of self.old.bytes (S.remaining source.old)) (rest_of self.new.bytes (S.remaining source.new)) line }

        // What the source itself gave: in all never more than 2^24 + 1 bytes.
        ensures reads { Reads self.old.bytes self.new.bytes (S.remaining source.old) (S.remaining source.new) }
        ensures within { read_count self.new.bytes ≤ 2 ^ 24 + 1 }
        ensures counted { Counts result (S.failures source.old) (S.failures source.new) }
    {
        self.kept.clear();
        loop {
            match self.bytes.next(source)? {
                NextByte::Byte(b'\n') => return Ok(LineEnd::Newline),
                NextByte::Byte(byte) => self.kept.push(byte),
                NextByte::End if self.kept.as_slice().is_empty() => return Ok(LineEnd::End),
                NextByte::End => return Ok(LineEnd::Last),
                NextByte::TooLong => return Ok(LineEnd::TooLong),
            }
        }
    }
}
