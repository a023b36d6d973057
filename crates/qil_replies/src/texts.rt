//! The lines of refusals, reasons and stops.

ghost use Rattle.std.specs.Prelude.{◌≡◌, ◌-◌, ◌^◌, ◌<◌};
ghost use Rattle.qil_streams.specs.Device.{HasPut};
ghost use Rattle.qil_replies.specs.Texts.{line_refusal_text, refusal_text, reason_line, width_letter, stop_line, deleted_line};

use crate::reply::CommandRefusal;
use qil_code::Code;
use qil_commands::Refused;
use qil_fragments::{Fragment, put_fragments};
use qil_render::{func_name, label_name, temp_name};
use qil_semantics::Reason;
use qil_stops::{StopKind, Watched};
use qil_streams::{Put, PutError};
use std::alloc::Allocator;

/// Puts why a run stopped.
pub fn put_reason<P: Put>(out: &mut P, reason: Reason) -> Result<(), PutError>
    requires { P.stops out.old < 2 ^ 64 - 1 }
    ensures { HasPut P.written P.stops P.device result out.old out.new (reason_line reason) }
{
    match reason {
        Reason::End => out.put(b"stop: end\n"),
        Reason::Start => out.put(b"stop: start\n"),
        Reason::Oldest => out.put(b"stop: oldest\n"),
        Reason::Watch(number) => put_fragments(
            out,
            &[
                Fragment::Bytes(b"stop: watch "),
                Fragment::Number(number),
                Fragment::Bytes(b"\n"),
            ],
        ),
        Reason::Break(number) => put_fragments(
            out,
            &[
                Fragment::Bytes(b"stop: break "),
                Fragment::Number(number),
                Fragment::Bytes(b"\n"),
            ],
        ),
        Reason::Limit => out.put(b"stop: limit\n"),
        Reason::Memory => out.put(b"stop: memory\n"),
    }
}

/// Why a line spells no command.
fn line_refusal_words(refused: Refused) -> &'static [u8]
    ensures { result.now ≡ line_refusal_text refused }
{
    match refused {
        Refused::LineTooLong => b"no: line too long",
        Refused::UnknownCommand => b"no: unknown command",
        Refused::MissingWord => b"no: missing word",
        Refused::BadWord => b"no: bad word",
        Refused::ExtraWord => b"no: extra word",
    }
}

/// What a refusal is called.
pub fn refusal_words(refusal: CommandRefusal) -> &'static [u8]
    ensures { result.now ≡ refusal_text refusal }
{
    match refusal {
        CommandRefusal::AtEnd => b"no: at end",
        CommandRefusal::AtStart => b"no: at start",
        CommandRefusal::HistoryEnds => b"no: history ends",
        CommandRefusal::NoFrame => b"no: no frame",
        CommandRefusal::UnknownTemporary => b"no: unknown temporary",
        CommandRefusal::DeadAddress => b"no: dead address",
        CommandRefusal::UnknownPlace => b"no: unknown place",
        CommandRefusal::TooManyStops => b"no: too many stops",
        CommandRefusal::NoSuchStop => b"no: no such stop",
        CommandRefusal::Line(refused) => line_refusal_words(refused),
    }
}

/// The letter of a width in bytes.
fn width_letter(width: u64) -> &'static [u8]
    ensures { result.now ≡ width_letter width }
{
    if width == 1 {
        b"b"
    } else if width == 2 {
        b"h"
    } else if width == 4 {
        b"w"
    } else {
        b"l"
    }
}

/// Puts the line of a stop: its number, and what it looks for.
pub fn put_stop<'c, A: Allocator + Copy, P: Put>(
    code: &Code<'c, A>,
    out: &mut P,
    number: u64,
    kind: StopKind,
) -> Result<(), PutError>
    requires { P.stops out.old < 2 ^ 64 - 1 }
    ensures { HasPut P.written P.stops P.device result out.old out.new (stop_line code.now number kind) }
{
    match kind {
        StopKind::Break(place) => put_fragments(
            out,
            &[
                Fragment::Bytes(b"break "),
                Fragment::Number(number),
                Fragment::Bytes(b" $"),
                Fragment::Bytes(func_name(code, place.func)),
                Fragment::Bytes(b" @"),
                Fragment::Bytes(label_name(code, place.func, place.block)),
                Fragment::Bytes(b" "),
                Fragment::Number(place.index),
                Fragment::Bytes(b"\n"),
            ],
        ),
        StopKind::Watch(Watched::Bytes { address, width }) => put_fragments(
            out,
            &[
                Fragment::Bytes(b"watch "),
                Fragment::Number(number),
                Fragment::Bytes(b" "),
                Fragment::Bytes(width_letter(width)),
                Fragment::Bytes(b" "),
                Fragment::Number(address),
                Fragment::Bytes(b"\n"),
            ],
        ),
        StopKind::Watch(Watched::Temp { func, slot }) => put_fragments(
            out,
            &[
                Fragment::Bytes(b"watch "),
                Fragment::Number(number),
                Fragment::Bytes(b" $"),
                Fragment::Bytes(func_name(code, func)),
                Fragment::Bytes(b" %"),
                Fragment::Bytes(temp_name(code, func, slot)),
                Fragment::Bytes(b"\n"),
            ],
        ),
    }
}

/// Puts that a stop was deleted.
pub fn put_deleted<P: Put>(out: &mut P, number: u64) -> Result<(), PutError>
    requires { P.stops out.old < 2 ^ 64 - 1 }
    ensures { HasPut P.written P.stops P.device result out.old out.new (deleted_line number) }
{
    put_fragments(
        out,
        &[
            Fragment::Bytes(b"deleted "),
            Fragment::Number(number),
            Fragment::Bytes(b"\n"),
        ],
    )
}
