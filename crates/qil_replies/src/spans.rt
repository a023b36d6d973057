//! The lines of frames along moves, and the place after them.

ghost use Rattle.std.specs.Prelude.{◌≡◌, ◌-◌, ◌<◌, ◌^◌, ◌++◌};
ghost use Rattle.std.specs.List.{flat_map};
ghost use Rattle.qil_fragments.specs.Texts.{fragment_text};
ghost use Rattle.qil_streams.specs.Device.{HasPut};
ghost use Rattle.qil_render.specs.qil_state.State.{state_of};
ghost use Rattle.qil_replies.specs.Texts.{digits_text, place_text, sign_text, span_line};

use crate::accesses::put_moved;
use qil_code::Code;
use qil_fragments::{Fragment, put_fragments};
use qil_render::{Readers, code_of, func_name};
use qil_semantics::Reason;
use qil_spans::Span;
use qil_streams::{Put, PutError};
use std::alloc::Allocator;

/// What comes before the digits of a position, or in place of one.
fn sign(position: Option<u64>) -> &'static [u8]
    ensures { result.now ≡ sign_text position }
{
    match position {
        Some(_) => b"#",
        None => b"-",
    }
}

/// The digits of a position, if there is one.
fn digits(position: Option<u64>) -> Fragment<'static>
    ensures { fragment_text result ≡ digits_text position }
{
    match position {
        Some(number) => Fragment::Number(number),
        None => Fragment::Bytes(b""),
    }
}

/// Puts the line of a frame.
fn put_span<'c, A: Allocator + Copy, P: Put>(
    code: &Code<'c, A>,
    out: &mut P,
    one: Span,
) -> Result<(), PutError>
    requires { P.stops out.old < 2 ^ 64 - 1 }
    ensures { HasPut P.written P.stops P.device result out.old out.new (span_line code.now one) }
{
    put_fragments(
        out,
        &[
            Fragment::Bytes(b"frame "),
            Fragment::Bytes(sign(one.begin)),
            digits(one.begin),
            Fragment::Bytes(b" "),
            Fragment::Bytes(sign(one.end)),
            digits(one.end),
            Fragment::Bytes(b" $"),
            Fragment::Bytes(func_name(code, one.func)),
            Fragment::Bytes(b" "),
            Fragment::Number(one.below),
            Fragment::Bytes(b"\n"),
        ],
    )
}

/// Puts the line of each frame.
fn put_list<'c, A: Allocator + Copy, P: Put>(
    code: &Code<'c, A>,
    out: &mut P,
    list: &[Span],
) -> Result<(), PutError>
    requires { P.stops out.old < 2 ^ 64 - 1 }
    ensures { HasPut P.written P.stops P.device result out.old out.new (flat_map (span_line code.now) list.now) }
{
    for one in list {
        put_span(code, out, *one)?;
    }
    Ok(())
}

/// Puts the line of each frame, and the place.
pub fn put_spans<'s, 'c, A: Allocator + Copy + 'c, M: Readers<A, Code<'c, A>>, P: Put>(
    out: &'s mut P,
    position: u64,
    machine: &'s M,
    list: &'s [Span],
    reason: Option<Reason>,
) -> Result<(), PutError>
    requires { P.stops out.old < 2 ^ 64 - 1 }
    ensures { HasPut P.written P.stops P.device result out.old out.new (flat_map (span_line (M.whole machine.now).program) list.now ++ place_text reason position (state_of (M.whole machine.now))) }
{
    put_list(code_of(machine), out, list)?;
    put_moved(out, position, machine, reason)
}
