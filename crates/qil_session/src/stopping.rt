//! The replies to commands about stops: `break`, `watch`, `delete`.

ghost use Rattle.std.specs.Prelude.{◌≡◌, ℕ, Bool, Ok, Some};
ghost use Rattle.qil_commands.specs.declared.command.Command.TheVariants as commands;
ghost use Rattle.qil_semantics.specs.Timeline.{Timeline};
ghost use Rattle.qil_tree.specs.declared.tree.Program.{Program};
ghost use Rattle.qil_replies.specs.SessionState.{session_at};
ghost use Rattle.qil_replies.specs.Answers.{Replies, made_reply};

use crate::words::{resolved_address, resolved_place, resolved_temp, width_bytes};
use qil_code::Code;
use qil_commands::{Address, BreakPlace};
use qil_replies::{CommandRefusal, Reply};
use qil_stops::{StopError, StopKind, Stops, Watched};
use qil_tree::Width;
use std::alloc::Allocator;

/// The reply where a stop was added, or wasn't.
fn made_reply<'r, A: Allocator>(made: Result<u64, StopError>, kind: StopKind) -> Reply<'r, A>
    ensures { result ≡ made_reply made kind }
{
    match made {
        Ok(number) => Reply::Added(number, kind),
        Err(StopError::UnknownPlace) => Reply::Refused(CommandRefusal::UnknownPlace),
        Err(StopError::TooMany) => Reply::Refused(CommandRefusal::TooManyStops),
        Err(StopError::NoSuchStop) => Reply::Refused(CommandRefusal::NoSuchStop),
    }
}

/// Replies to `break $f @b K`.
pub fn add_break<'c, 'r, A: Allocator + Copy>(
    stops: &mut Stops<A>,
    code: &Code<'c, A>,
    func: &[u8],
    at: Option<BreakPlace<'_>>,
) -> Reply<'r, A>
    ensures { (wants : Bool) (t : Timeline) (limit : ℕ) → Replies (session_at wants code.now t stops.old limit) (session_at wants code.now t stops.new limit)
        (Ok (Some (commands.Break func.now at.entry))) result }
{
    let Some(place) = resolved_place(code, func, &at) else {
        return Reply::Refused(CommandRefusal::UnknownPlace);
    };
    let made = stops.add_break(code, place.func, place.block, place.index);
    made_reply(made, StopKind::Break(place))
}

/// Replies to `watch b ADDR`.
pub fn watch_bytes<'c, 'r, A: Allocator + Copy>(
    stops: &mut Stops<A>,
    code: &Code<'c, A>,
    width: Width,
    address: Address<'_>,
) -> Reply<'r, A>
    ensures { (wants : Bool) (t : Timeline) (limit : ℕ) → Replies (session_at wants code.now t stops.old limit) (session_at wants code.now t stops.new limit)
        (Ok (Some (commands.WatchBytes width address.entry))) result }
{
    let Some(address) = resolved_address(code, &address) else {
        return Reply::Refused(CommandRefusal::UnknownPlace);
    };
    let width = width_bytes(width);
    let watched = Watched::Bytes { address, width };
    let made = stops.add_watch(code, watched);
    made_reply(made, StopKind::Watch(watched))
}

/// Replies to `watch $f %x`.
pub fn watch_temp<'c, 'r, A: Allocator + Copy>(
    stops: &mut Stops<A>,
    code: &Code<'c, A>,
    func: &[u8],
    name: &[u8],
) -> Reply<'r, A>
    ensures { (wants : Bool) (t : Timeline) (limit : ℕ) → Replies (session_at wants code.now t stops.old limit) (session_at wants code.now t stops.new limit)
        (Ok (Some (commands.WatchTemp func.now name.now))) result }
{
    let Some(watched) = resolved_temp(code, func, name) else {
        return Reply::Refused(CommandRefusal::UnknownPlace);
    };
    let made = stops.add_watch(code, watched);
    made_reply(made, StopKind::Watch(watched))
}

/// Replies to `delete N`.
pub fn delete<'r, A: Allocator + Copy>(stops: &mut Stops<A>, number: u64) -> Reply<'r, A>
    ensures { (wants : Bool) (p : Program A) (t : Timeline) (limit : ℕ) → Replies (session_at wants p t stops.old limit) (session_at wants p t stops.new limit)
        (Ok (Some (commands.Delete number))) result }
{
    match stops.delete(number) {
        Ok(()) => Reply::Deleted(number),
        Err(_) => Reply::Refused(CommandRefusal::NoSuchStop),
    }
}
