//! The lines of accesses, and the place after them.

ghost use Rattle.std.specs.Prelude.{◌≡◌, ◌-◌, ◌<◌, ◌^◌, ◌++◌};
ghost use Rattle.std.specs.List.{flat_map};
ghost use Rattle.qil_streams.specs.Device.{HasPut};
ghost use Rattle.qil_render.specs.qil_state.State.{state_of};
ghost use Rattle.qil_replies.specs.Texts.{action_word, access_line, place_text};

use crate::put::put_stopped;
use qil_accesses::{Access, Action};
use qil_code::Code;
use qil_fragments::{Fragment, put_fragments};
use qil_render::{Readers, put_place};
use qil_semantics::Reason;
use qil_streams::{Put, PutError};
use std::alloc::Allocator;

/// What an access is called.
fn action_word(action: Action) -> &'static [u8]
    ensures { result.now ≡ action_word action }
{
    match action {
        Action::Read => b"read #",
        Action::Write => b"write #",
    }
}

/// Puts the line of an access.
fn put_access<P: Put>(out: &mut P, one: Access) -> Result<(), PutError>
    requires { P.stops out.old < 2 ^ 64 - 1 }
    ensures { HasPut P.written P.stops P.device result out.old out.new (access_line one) }
{
    put_fragments(
        out,
        &[
            Fragment::Bytes(action_word(one.action)),
            Fragment::Number(one.position),
            Fragment::Bytes(b" "),
            Fragment::Number(one.address),
            Fragment::Bytes(b" "),
            Fragment::Number(one.count),
            Fragment::Bytes(b"\n"),
        ],
    )
}

/// Puts the line of each access.
fn put_list<P: Put>(out: &mut P, list: &[Access]) -> Result<(), PutError>
    requires { P.stops out.old < 2 ^ 64 - 1 }
    ensures { HasPut P.written P.stops P.device result out.old out.new (flat_map access_line list.now) }
{
    for one in list {
        put_access(out, *one)?;
    }
    Ok(())
}

/// Puts the place, and before it why no more moves were made, if that is said.
pub fn put_moved<'s, 'c, A: Allocator + Copy + 'c, M: Readers<A, Code<'c, A>>, P: Put>(
    out: &'s mut P,
    position: u64,
    machine: &'s M,
    reason: Option<Reason>,
) -> Result<(), PutError>
    requires { P.stops out.old < 2 ^ 64 - 1 }
    ensures { HasPut P.written P.stops P.device result out.old out.new (place_text reason position (state_of (M.whole machine.now))) }
{
    match reason {
        Some(reason) => put_stopped(out, position, machine, reason),
        None => put_place(out, position, machine),
    }
}

/// Puts the line of each access, and the place.
pub fn put_accesses<'s, 'c, A: Allocator + Copy + 'c, M: Readers<A, Code<'c, A>>, P: Put>(
    out: &'s mut P,
    position: u64,
    machine: &'s M,
    list: &'s [Access],
    reason: Option<Reason>,
) -> Result<(), PutError>
    requires { P.stops out.old < 2 ^ 64 - 1 }
    ensures { HasPut P.written P.stops P.device result out.old out.new (flat_map access_line list.now ++ place_text reason position (state_of (M.whole machine.now))) }
{
    put_list(out, list)?;
    put_moved(out, position, machine, reason)
}
