//! The bytes of the input, which are read in chunks: a read takes what has come, and waits for no more.

ghost use Rattle.std.specs.Prelude.{◌≡◌, ℕ, ◌+◌, ◌-◌, ◌^◌, ◌<◌, ◌≤◌, List, [], ◌∷◌, ◌++◌, take, drop, length, min, OnOk, OnErr};
ghost use Rattle.std.specs.Io.KnownBytes.{Consumes, IsAtEnd, prepend_known};
ghost use Rattle.qil_streams.specs.Device.{Counts};
ghost use Rattle.qrev_protocol.specs.Incoming.{Fills, TakesByte};

use qil_streams::{DeviceFault, Source};
use std::alloc::{AllocError, Allocator};
use std::marker::Model;

/// Bytes that were read and are in no message so far.
#[derive(Drop)]
pub struct Pending {
    chunk: [u8; 4096],
    start: usize,
    end: usize,
}

impl Model for Pending {
    ghost use Rattle.std.specs.Prelude.{List, ℕ, ◌-◌, ◌≤◌, take, drop};

    ghost Value = { List ℕ };

    ghost view = { λ s. take (s.end - s.start) (drop s.start s.chunk) };

    ghost invariant = { λ s. (s.start ≤ s.end) × (s.end ≤ 4096) };
}

impl Pending {
    /// No byte so far.
    pub fn new() -> Self
        ensures { result ≡ [] }
    {
        Pending {
            chunk: [0; 4096],
            start: 0,
            end: 0,
        }
    }

    /// How many bytes are pending.
    fn len(&self) -> usize
        ensures { result ≡ length self.now }
    {
        self.end - self.start
    }

    /// Reads a chunk, where nothing is pending.
    fn refill<S: Source>(&mut self, source: &mut S) -> Result<(), DeviceFault>
        requires empty { self.old ≡ [] }
        requires countable { S.failures source.old < 2 ^ 64 - 1 }
        ensures ok { OnOk result (Consumes (S.remaining source.old) (S.remaining source.new) self.new
            × (self.new ≡ [] → IsAtEnd (S.remaining source.new))) }
        ensures err { OnErr result ((self.new ≡ []) × Consumes (S.remaining source.old) (S.remaining source.new) []) }
        ensures counted { Counts result (S.failures source.old) (S.failures source.new) }
    {
        self.start = 0;
        self.end = 0;
        let count = source.read(&mut self.chunk)?;
        self.end = count;
        Ok(())
    }

    /// Reads what has come where nothing is pending, and says whether anything is pending now. Nothing is at the end of the
    /// input alone.
    pub fn fill<S: Source>(&mut self, source: &mut S) -> Result<bool, DeviceFault>
        requires { S.failures source.old < 2 ^ 64 - 1 }
        ensures filled { Fills result self.new (prepend_known self.old (S.remaining source.old))
            (prepend_known self.new (S.remaining source.new)) }
        ensures counted { Counts result (S.failures source.old) (S.failures source.new) }
    {
        if self.len() == 0 {
            self.refill(source)?;
        }
        Ok(self.len() > 0)
    }

    /// Takes the first byte that is pending.
    fn take(&mut self) -> u8
        requires { 0 < length self.old }
        ensures { self.old ≡ result ∷ self.new }
    {
        let byte = self.chunk[self.start];
        self.start += 1;
        byte
    }

    /// Moves the first bytes that are pending after those of `body`, so many at most.
    pub fn move_into<A: Allocator>(
        &mut self,
        body: &mut Vec<u8, A>,
        most: usize,
    ) -> Result<(), AllocError>
        ensures ok { OnOk result ((body.new.items ≡ body.old.items ++ take (min most (length self.old)) self.old)
            × (self.new ≡ drop (min most (length self.old)) self.old)) }
        ensures err { OnErr result (self.new ≡ self.old) }
    {
        let count = most.min(self.len());
        body.extend_from_slice(&self.chunk[self.start..self.start + count])?;
        self.start += count;
        Ok(())
    }

    /// The next byte of the input, or none at its end.
    pub fn next<S: Source>(&mut self, source: &mut S) -> Result<Option<u8>, DeviceFault>
        requires { S.failures source.old < 2 ^ 64 - 1 }
        ensures byte { TakesByte result (prepend_known self.old (S.remaining source.old))
            (prepend_known self.new (S.remaining source.new)) }
        ensures counted { Counts result (S.failures source.old) (S.failures source.new) }
    {
        if !self.fill(source)? {
            return Ok(None);
        }
        Ok(Some(self.take()))
    }
}
