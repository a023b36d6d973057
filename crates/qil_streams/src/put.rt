//! Texts that are put fragment by fragment, and a sink that takes each fragment whole.

ghost use Rattle.std.specs.Prelude.{◌≡◌, ℕ, ◌-◌, ◌^◌, ◌<◌, List, Option, decimal};
ghost use Rattle.qil_streams.specs.Device.{Counts, HasPut, Puts};
ghost use Rattle.qil_streams.specs.Text.{line};

use crate::device::{DeviceFault, Sink};
use itoa::Buffer;

/// The putting of a text stopped before its end.
#[derive(Clone, Copy)]
pub struct PutError;

/// What a text is put into, fragment by fragment.
pub trait Put {
    /// The bytes that were put, or `None` where nothing is known of them.
    ghost written: { Self → Option (List ℕ) };

    /// How often it stopped.
    ghost stops: { Self → ℕ };

    /// What the text goes on to. No call changes it.
    ghost device: { Self → ℕ };

    /// Puts the bytes after those that were put before.
    ///
    /// # Errors
    ///
    /// `PutError` where it could not take them all. Then it has put a prefix of them, which may be empty.
    fn put(&mut self, bytes: &[u8]) -> Result<(), PutError>
        requires { stops self.old < 2 ^ 64 - 1 }
        ensures { HasPut written stops device result self.old self.new bytes.now };
}

/// Writes all bytes to the sink, by as many calls as it takes.
///
/// # Errors
///
/// `DeviceFault` at the first call that fails. Then the sink has taken a prefix of the bytes.
pub fn write_all<W: Sink>(sink: &mut W, bytes: &[u8]) -> Result<(), DeviceFault>
    requires { W.failures sink.old < 2 ^ 64 - 1 }
    ensures text { Puts result (W.contents sink.old) (W.contents sink.new) bytes.now }
    ensures counted { Counts result (W.failures sink.old) (W.failures sink.new) }
{
    let mut rest = bytes;
    while !rest.is_empty() {
        let count = sink.write(rest)?;
        rest = &rest[count..];
    }
    Ok(())
}

/// A sink that texts are put into. It stops where the sink fails.
pub struct Outlet<'a, W> {
    /// Where the texts go.
    pub sink: &'a mut W,
}

impl<'a, W: Sink> Outlet<'a, W> {
    /// The texts go to `sink`, after what it holds.
    pub fn new(sink: &'a mut W) -> Self
        ensures same_sink { result.sink.ghost_name ≡ sink.entry.ghost_name }
        ensures written { ⟦<Outlet<'a, W> as Put>⟧.written result ≡ W.contents sink.old }
        ensures stops { ⟦<Outlet<'a, W> as Put>⟧.stops result ≡ W.failures sink.old }
    {
        Outlet { sink }
    }
}

impl<'a, W: Sink> Put for Outlet<'a, W> {
    ghost written = { λ s. W.contents s.sink.now };

    ghost stops = { λ s. W.failures s.sink.now };

    ghost device = { λ s. s.sink.ghost_name };

    fn put(&mut self, bytes: &[u8]) -> Result<(), PutError> {
        match write_all(self.sink, bytes) {
            Ok(()) => Ok(()),
            Err(DeviceFault) => Err(PutError),
        }
    }
}

/// Puts a number in decimal digits.
///
/// # Errors
///
/// `PutError` where `out` stopped. Then a prefix of the digits was put.
pub fn put_number<P: Put>(out: &mut P, number: u64) -> Result<(), PutError>
    requires { P.stops out.old < 2 ^ 64 - 1 }
    ensures { HasPut P.written P.stops P.device result out.old out.new (decimal number) }
{
    let mut digits = Buffer::new();
    out.put(digits.format(number).as_bytes())
}

/// Puts a text and the byte that ends a line.
///
/// # Errors
///
/// `PutError` where `out` stopped. Then a prefix of the line was put.
pub fn put_line<P: Put>(out: &mut P, text: &[u8]) -> Result<(), PutError>
    requires { P.stops out.old < 2 ^ 64 - 1 }
    ensures { HasPut P.written P.stops P.device result out.old out.new (line text.now) }
{
    out.put(text)?;
    out.put(b"\n")
}
