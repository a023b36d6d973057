//! The text of a reply is put.

ghost use Rattle.std.specs.Prelude.{◌-◌, ◌<◌, ◌^◌, ◌++◌};
ghost use Rattle.qil_streams.specs.Device.{HasPut};
ghost use Rattle.qil_render.specs.qil_state.State.{state_of};
ghost use Rattle.qil_render.specs.Texts.{state_line};
ghost use Rattle.qil_replies.specs.Texts.{reason_line};
ghost use Rattle.qil_replies.specs.Reply.{reply_text};

use crate::accesses::put_accesses;
use crate::counts::put_counts;
use crate::reply::Reply;
use crate::spans::put_spans;
use crate::stops::put_stops;
use crate::texts::{put_deleted, put_reason, put_stop, refusal_words};
use qil_code::Code;
use qil_render::{
    Readers, code_of, put_block, put_frames, put_memory, put_output, put_place, put_printed,
    put_temps,
};
use qil_semantics::Reason;
use qil_stops::NumberedStop;
use qil_streams::{Put, PutError, put_line};
use std::alloc::Allocator;

/// Puts why a run stopped, and the place.
pub fn put_stopped<'s, 'c, A: Allocator + Copy + 'c, M: Readers<A, Code<'c, A>>, P: Put>(
    out: &'s mut P,
    position: u64,
    machine: &'s M,
    reason: Reason,
) -> Result<(), PutError>
    requires { P.stops out.old < 2 ^ 64 - 1 }
    ensures { HasPut P.written P.stops P.device result out.old out.new (reason_line reason ++ state_line position (state_of (M.whole machine.now)).frames (state_of (M.whole machine.now)).status) }
{
    put_reason(out, reason)?;
    put_place(out, position, machine)
}

/// Puts the text of a reply, after `position` moves that led to `machine`, with these stops.
///
/// # Errors
///
/// `PutError` where `out` stopped. Then a prefix of the text was put.
pub fn put_reply<'c, A: Allocator + Copy + 'c, M: Readers<A, Code<'c, A>>, P: Put>(
    out: &mut P,
    position: u64,
    machine: &M,
    stops: &[NumberedStop],
    reply: &Reply<'_, A>,
) -> Result<(), PutError>
    requires { P.stops out.old < 2 ^ 64 - 1 }
    ensures { HasPut P.written P.stops P.device result out.old out.new (reply_text (M.whole machine.now).program position (state_of (M.whole machine.now)) stops.now reply.now) }
{
    match reply {
        Reply::Nothing => Ok(()),
        Reply::Refused(refusal) => put_line(out, refusal_words(*refusal)),
        Reply::Place => put_place(out, position, machine),
        Reply::Stopped(reason) => put_stopped(out, position, machine, *reason),
        Reply::Accesses(list, reason) => {
            let list = list.as_slice();
            put_accesses(out, position, machine, list, *reason)
        }
        Reply::Counts(list, reason) => {
            let list = list.as_slice();
            put_counts(out, position, machine, list, *reason)
        }
        Reply::Spans(list, reason) => {
            let list = list.as_slice();
            put_spans(out, position, machine, list, *reason)
        }
        Reply::Added(number, kind) => put_stop(code_of(machine), out, *number, *kind),
        Reply::Deleted(number) => put_deleted(out, *number),
        Reply::Stops => put_stops(code_of(machine), out, stops),
        Reply::Temporary(name) => {
            let name = name.bytes();
            put_printed(out, machine, name)
        }
        Reply::Temporaries => put_temps(out, machine),
        Reply::Bytes(address, count) => put_memory(out, machine, *address, *count),
        Reply::Frames => put_frames(out, machine),
        Reply::Block => put_block(out, machine),
        Reply::Output => put_output(out, machine),
    }
}
