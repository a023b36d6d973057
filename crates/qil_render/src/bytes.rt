//! Bytes: of memory in hexadecimal digits, of the output in quotes.

ghost use Rattle.std.specs.Prelude.{◌≡◌, ◌+◌, ◌-◌, ◌^◌, ◌<◌};
ghost use Rattle.std.specs.List.{flat_map};
ghost use Rattle.qil_streams.specs.Device.{HasPut};
ghost use Rattle.qil_memory.specs.Live.{live};
ghost use Rattle.qil_state.specs.State.{state_of};
ghost use Rattle.qil_render.specs.Texts.{hex_digit, byte_text, quoted_byte};
ghost use Rattle.qil_render.specs.Shown.{spaced_byte, memory_shown, output_shown};

use qil_code::Code;
use qil_fragments::{Fragment, put_fragments};
use qil_history::Readers;
use qil_streams::{Put, PutError};
use std::alloc::Allocator;

/// A hexadecimal digit.
fn hex_digit(digit: u8) -> u8
    requires { digit < 16 }
    ensures { result ≡ hex_digit digit }
{
    if digit < 10 {
        b'0' + digit
    } else {
        b'a' - 10 + digit
    }
}

/// Puts a byte of memory: two digits, or `--` where it is dead.
pub fn put_byte<P: Put>(out: &mut P, byte: Option<u8>) -> Result<(), PutError>
    requires { P.stops out.old < 2 ^ 64 - 1 }
    ensures { HasPut P.written P.stops P.device result out.old out.new (byte_text byte) }
{
    match byte {
        None => out.put(b"--"),
        Some(byte) => out.put(&[hex_digit(byte / 16), hex_digit(byte % 16)]),
    }
}

/// Puts a space and a byte of memory.
pub fn put_next_byte<P: Put>(out: &mut P, byte: Option<u8>) -> Result<(), PutError>
    requires { P.stops out.old < 2 ^ 64 - 1 }
    ensures { HasPut P.written P.stops P.device result out.old out.new (spaced_byte byte) }
{
    out.put(b" ")?;
    put_byte(out, byte)
}

/// The byte at an address, if it is live.
fn byte_at<'s, 'c, A: Allocator + Copy + 'c, M: Readers<A, Code<'c, A>>>(
    machine: &'s M,
    address: u64,
) -> Option<u8>
    ensures { result ≡ live (M.whole machine.now).memory address }
{
    machine.byte_after(address, 0)
}

/// Puts bytes of memory in a line, a space between one and the next.
///
/// # Errors
///
/// `PutError` where `out` stopped. Then a prefix of the line was put.
pub fn put_memory<'s, 'c, A: Allocator + Copy + 'c, M: Readers<A, Code<'c, A>>, P: Put>(
    out: &'s mut P,
    machine: &'s M,
    address: u64,
    count: u32,
) -> Result<(), PutError>
    requires { P.stops out.old < 2 ^ 64 - 1 }
    ensures { HasPut P.written P.stops P.device result out.old out.new (memory_shown (state_of (M.whole machine.now)) address count) }
{
    if count == 0 {
        return out.put(b"\n");
    }
    put_byte(out, byte_at(machine, address))?;
    for offset in 1..u64::from(count) {
        put_next_byte(out, machine.byte_after(address, offset))?;
    }
    out.put(b"\n")
}

/// Puts a byte as it stands in quotes.
pub fn put_quoted<P: Put>(out: &mut P, byte: u8) -> Result<(), PutError>
    requires { P.stops out.old < 2 ^ 64 - 1 }
    ensures { HasPut P.written P.stops P.device result out.old out.new (quoted_byte byte) }
{
    if byte == b'"' || byte == b'\\' {
        return out.put(&[b'\\', byte]);
    }
    if byte > 31 && byte < 127 {
        return out.put(&[byte]);
    }
    out.put(&[
        b'\\',
        b'0' + byte / 64,
        b'0' + byte / 8 % 8,
        b'0' + byte % 8,
    ])
}

/// Puts bytes as they stand in quotes.
fn put_all_quoted<P: Put>(out: &mut P, bytes: &[u8]) -> Result<(), PutError>
    requires { P.stops out.old < 2 ^ 64 - 1 }
    ensures { HasPut P.written P.stops P.device result out.old out.new (flat_map quoted_byte bytes.now) }
{
    for byte in bytes {
        put_quoted(out, *byte)?;
    }
    Ok(())
}

/// Puts how many bytes these are, and which, in quotes.
fn put_counted<P: Put>(out: &mut P, bytes: &[u8]) -> Result<(), PutError>
    requires { P.stops out.old < 2 ^ 64 - 1 }
    ensures { HasPut P.written P.stops P.device result out.old out.new (output_shown bytes.now) }
{
    put_fragments(
        out,
        &[
            Fragment::Bytes(b"out "),
            Fragment::Number(bytes.len() as u64),
            Fragment::Bytes(b" \""),
        ],
    )?;
    put_all_quoted(out, bytes)?;
    out.put(b"\"\n")
}

/// Puts how many bytes were written, and which, in quotes.
///
/// # Errors
///
/// `PutError` where `out` stopped. Then a prefix of the line was put.
pub fn put_output<'s, 'c, A: Allocator + Copy + 'c, M: Readers<A, Code<'c, A>>, P: Put>(
    out: &'s mut P,
    machine: &'s M,
) -> Result<(), PutError>
    requires { P.stops out.old < 2 ^ 64 - 1 }
    ensures { HasPut P.written P.stops P.device result out.old out.new (output_shown (state_of (M.whole machine.now)).output) }
{
    put_counted(out, machine.output())
}
