//! The lines of counts, and the place after them.

ghost use Rattle.std.specs.Prelude.{◌-◌, ◌<◌, ◌^◌, ◌++◌};
ghost use Rattle.std.specs.List.{flat_map};
ghost use Rattle.qil_streams.specs.Device.{HasPut};
ghost use Rattle.qil_render.specs.qil_state.State.{state_of};
ghost use Rattle.qil_replies.specs.Texts.{count_line, place_text};

use crate::accesses::put_moved;
use qil_code::Code;
use qil_counts::Count;
use qil_fragments::{Fragment, put_fragments};
use qil_render::{Readers, code_of, func_name, label_name};
use qil_semantics::Reason;
use qil_streams::{Put, PutError};
use std::alloc::Allocator;

/// Puts the line of a count.
fn put_count<'c, A: Allocator + Copy, P: Put>(
    code: &Code<'c, A>,
    out: &mut P,
    one: Count,
) -> Result<(), PutError>
    requires { P.stops out.old < 2 ^ 64 - 1 }
    ensures { HasPut P.written P.stops P.device result out.old out.new (count_line code.now one) }
{
    put_fragments(
        out,
        &[
            Fragment::Bytes(b"count "),
            Fragment::Number(one.count),
            Fragment::Bytes(b" $"),
            Fragment::Bytes(func_name(code, one.place.func)),
            Fragment::Bytes(b" @"),
            Fragment::Bytes(label_name(code, one.place.func, one.place.block)),
            Fragment::Bytes(b" "),
            Fragment::Number(one.place.index),
            Fragment::Bytes(b"\n"),
        ],
    )
}

/// Puts the line of each count.
fn put_list<'c, A: Allocator + Copy, P: Put>(
    code: &Code<'c, A>,
    out: &mut P,
    list: &[Count],
) -> Result<(), PutError>
    requires { P.stops out.old < 2 ^ 64 - 1 }
    ensures { HasPut P.written P.stops P.device result out.old out.new (flat_map (count_line code.now) list.now) }
{
    for one in list {
        put_count(code, out, *one)?;
    }
    Ok(())
}

/// Puts the line of each count, and the place.
pub fn put_counts<'s, 'c, A: Allocator + Copy + 'c, M: Readers<A, Code<'c, A>>, P: Put>(
    out: &'s mut P,
    position: u64,
    machine: &'s M,
    list: &'s [Count],
    reason: Option<Reason>,
) -> Result<(), PutError>
    requires { P.stops out.old < 2 ^ 64 - 1 }
    ensures { HasPut P.written P.stops P.device result out.old out.new (flat_map (count_line (M.whole machine.now).program) list.now ++ place_text reason position (state_of (M.whole machine.now))) }
{
    put_list(code_of(machine), out, list)?;
    put_moved(out, position, machine, reason)
}
