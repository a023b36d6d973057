//! What a script is read from and a transcript is written to, with a count of the calls that failed.

ghost use Rattle.std.specs.Prelude.{◌≡◌, ℕ, ◌-◌, ◌^◌, ◌<◌, ◌≤◌, List, Option, length, IfOk};
ghost use Rattle.std.specs.Io.KnownBytes.{ReadConsumes, WriteAppends};
ghost use Rattle.qil_streams.specs.Device.{Counts};

use std::io::{Read, Write};

/// A call of a device failed. It moved no byte, and the device counts it.
#[derive(Clone, Copy)]
pub struct DeviceFault;

/// A device that bytes are read from, in order.
pub trait Source {
    /// The bytes that reads give from here on, or `None` where nothing is known of them.
    ghost remaining: { Self → Option (List ℕ) };

    /// How many calls failed.
    ghost failures: { Self → ℕ };

    /// Moves bytes into the prefix of `into` and says how many.
    ///
    /// Into a slice with room it gives 0 only at the end of the bytes. It may give fewer bytes than there is room for.
    ///
    /// # Errors
    ///
    /// `DeviceFault` where the device failed. No byte is lost, so a later call goes on with the same bytes.
    fn read(&mut self, into: &mut [u8]) -> Result<usize, DeviceFault>
        requires { failures self.old < 2 ^ 64 - 1 }
        ensures bound { IfOk result (λ n. n ≤ length into.old) }
        ensures bytes { ReadConsumes (remaining self.old) (remaining self.new) result into.new }
        ensures counted { Counts result (failures self.old) (failures self.new) };

    /// How many calls of `read` failed so far.
    fn faults(&self) -> u64
        ensures { result ≡ failures self.now };
}

/// A device that bytes are written to, in order.
pub trait Sink {
    /// The bytes that were written, or `None` where nothing is known of them.
    ghost contents: { Self → Option (List ℕ) };

    /// How many calls failed.
    ghost failures: { Self → ℕ };

    /// Takes bytes from the prefix of `from` and says how many: at least one, unless `from` is empty.
    ///
    /// # Errors
    ///
    /// `DeviceFault` where the device failed. Then it has taken none of the bytes.
    fn write(&mut self, from: &[u8]) -> Result<usize, DeviceFault>
        requires { failures self.old < 2 ^ 64 - 1 }
        ensures bound { IfOk result (λ n. n ≤ length from.now) }
        ensures moves { 0 < length from.now → IfOk result (λ n. 0 < n) }
        ensures bytes { WriteAppends (contents self.old) (contents self.new) result from.now }
        ensures counted { Counts result (failures self.old) (failures self.new) };

    /// How many calls of `write` failed so far.
    fn faults(&self) -> u64
        ensures { result ≡ failures self.now };
}

/// A reader as a source: each of its errors is a fault.
#[derive(Drop)]
pub struct FromReader<R> {
    reader: R,
    failed_reads: u64,
}

impl<R: Read> FromReader<R> {
    /// The bytes that `reader` has left, with no fault so far.
    pub fn new(reader: R) -> Self
        ensures remaining { ⟦<FromReader<R> as Source>⟧.remaining result ≡ R.remaining reader }
        ensures failures { ⟦<FromReader<R> as Source>⟧.failures result ≡ 0 }
    {
        FromReader {
            reader,
            failed_reads: 0,
        }
    }
}

impl<R: Read> Source for FromReader<R> {
    ghost remaining = { λ s. R.remaining s.reader };

    ghost failures = { λ s. s.failed_reads };

    fn read(&mut self, into: &mut [u8]) -> Result<usize, DeviceFault> {
        match self.reader.read(into) {
            Ok(count) => Ok(count),
            Err(_) => {
                self.failed_reads += 1;
                Err(DeviceFault)
            }
        }
    }

    fn faults(&self) -> u64 {
        self.failed_reads
    }
}

/// A writer as a sink: each of its errors is a fault, and so is a write that takes none of some bytes.
#[derive(Drop)]
pub struct IntoWriter<W> {
    writer: W,
    failed_writes: u64,
}

impl<W: Write> IntoWriter<W> {
    /// The bytes that `writer` holds, with no fault so far.
    pub fn new(writer: W) -> Self
        ensures contents { ⟦<IntoWriter<W> as Sink>⟧.contents result ≡ W.contents writer }
        ensures failures { ⟦<IntoWriter<W> as Sink>⟧.failures result ≡ 0 }
    {
        IntoWriter {
            writer,
            failed_writes: 0,
        }
    }
}

impl<W: Write> Sink for IntoWriter<W> {
    ghost contents = { λ s. W.contents s.writer };

    ghost failures = { λ s. s.failed_writes };

    fn write(&mut self, from: &[u8]) -> Result<usize, DeviceFault> {
        match self.writer.write(from) {
            Ok(count) if count > 0 || from.is_empty() => Ok(count),
            _ => {
                self.failed_writes += 1;
                Err(DeviceFault)
            }
        }
    }

    fn faults(&self) -> u64 {
        self.failed_writes
    }
}
