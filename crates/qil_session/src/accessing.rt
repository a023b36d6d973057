//! The reply to `accesses`: moves forward, and what they read and write.

ghost use Rattle.std.specs.Prelude.{◌≡◌, ℕ, ◌+◌, ◌<◌, ◌^◌, ◌||◌, ◌++◌, false, [], Ok, Some, cond, None};
ghost use Rattle.std.specs.List.{filter};
ghost use Rattle.qil_commands.specs.declared.command.Command.TheVariants as commands;
ghost use Rattle.qil_semantics.specs.State.{State};
ghost use Rattle.qil_semantics.specs.Timeline.{position, at_end};
ghost use Rattle.qil_semantics.specs.declared.reason.Reason.TheVariants.{Memory};
ghost use Rattle.qil_stops.specs.Listed.{Listed};
ghost use Rattle.qil_accesses.specs.Accesses.{accesses_to, is_filled, touches};
ghost use Rattle.qil_accesses.specs.Ahead.{IsAhead};
ghost use Rattle.qil_replies.specs.SessionState.{session_at};
ghost use Rattle.qil_replies.specs.Answers.{Replies};
ghost use Rattle.qil_session.specs.Gathered.{Gathers};

use crate::moves::is_over;
use crate::poking::start_of;
use qil_accesses::{AccessList, Ahead, look_ahead, note_move};
use qil_code::Code;
use qil_commands::Address;
use qil_replies::{CommandRefusal, Reply};
use qil_semantics::Reason;
use qil_tree::Items;
use qil_undo_log::Runs;
use std::alloc::Allocator;

/// Whether the run is over.
#[inline(always)]
pub fn is_at_end<'c, A: Allocator + Copy + 'c, H: Runs<A, Code<'c, A>>>(history: &H) -> bool
    ensures { result ≡ at_end (H.timeline history.now) }
{
    is_over(history.machine())
}

/// Whether no further move is made.
#[inline(always)]
fn is_enough<'c, A: Allocator + Copy + 'c, H: Runs<A, Code<'c, A>>>(
    history: &H,
    list: &AccessList<A>,
) -> bool
    ensures { result ≡ (at_end (H.timeline history.now) || is_filled list.now) }
{
    is_at_end(history) || list.is_filled()
}

/// What the next move accesses if it doesn't fault.
#[inline(always)]
fn ahead_of<'c, A: Allocator + Copy + 'c, H: Runs<A, Code<'c, A>>>(history: &H) -> Ahead
    ensures { IsAhead (H.program history.now) (H.timeline history.now).now result }
{
    look_ahead(history.machine())
}

/// Adds what the last move accessed, which was made from a position.
#[inline(always)]
fn note<'s, 'c, A: Allocator + Copy + 'c, H: Runs<A, Code<'c, A>>>(
    history: &'s H,
    list: &'s mut AccessList<A>,
    ahead: Ahead,
    position: u64,
    start: u64,
    count: u64,
)
    requires { is_filled list.old ≡ false }
    ensures { (s : State) → IsAhead (H.program history.now) s ahead
        → list.new ≡ list.old ++ filter (touches start count) (accesses_to (H.program history.now) position s (H.timeline history.now).now) }
{
    note_move(list, history.machine(), ahead, position, start, count)
}

/// Moves forward up to so many times, and not past the end or a filled list, and adds the accesses of so many bytes from an address
/// on. Gives whether there was no memory for a move.
#[inline(never)]
fn gather<'c, A: Allocator + Copy + 'c, H: Runs<A, Code<'c, A>>>(
    history: &mut H,
    list: &mut AccessList<A>,
    moves: u32,
    start: u64,
    count: u64,
) -> bool
    requires before { position (H.timeline history.old) < 2 ^ 61 }
    requires empty { list.old ≡ [] }
    ensures program { H.program history.new ≡ H.program history.old }
    ensures gathered { (stops : Listed) (limit : ℕ)
        → Gathers (session_at H.wants_memory (H.program history.old) (H.timeline history.old) stops limit) start count moves (H.timeline history.new) list.new result }
{
    for _ in 0..moves {
        if is_enough(history, list) {
            return false;
        }
        let position = history.position();
        let ahead = ahead_of(history);
        match history.forward_by(1) {
            Ok(()) => {}
            Err(_made) => return true,
        }
        note(history, list, ahead, position, start, count);
    }
    false
}

/// Why no more moves were made, if there was no memory for one.
pub fn reason_if(is_short: bool) -> Option<Reason>
    ensures { result ≡ cond is_short (Some Memory) None }
{
    if is_short { Some(Reason::Memory) } else { None }
}

/// The reply where there is no memory for a list.
fn no_list<'r, A: Allocator + Copy>(alloc: A) -> Reply<'r, A>
    ensures { result ≡ Reply.Accesses [] (Some Memory) }
{
    Reply::Accesses(Items::new(Vec::new(alloc)), Some(Reason::Memory))
}

/// Replies to `accesses N ADDR M`.
pub fn accesses<'c, 'r, A: Allocator + Copy + 'c, H: Runs<A, Code<'c, A>>>(
    history: &mut H,
    alloc: A,
    moves: u32,
    address: Address<'_>,
    count: u32,
) -> Reply<'r, A>
    requires { position (H.timeline history.old) < 2 ^ 61 }
    ensures program { H.program history.new ≡ H.program history.old }
    ensures near { position (H.timeline history.new) < position (H.timeline history.old) + 2 ^ 32 }
    ensures replied { (stops : Listed) (limit : ℕ) → Replies (session_at H.wants_memory (H.program history.old) (H.timeline history.old) stops limit) (session_at H.wants_memory (H.program history.old) (H.timeline history.new) stops limit)
        (Ok (Some (commands.Accesses moves address.entry count))) result }
{
    if is_at_end(history) {
        return Reply::Refused(CommandRefusal::AtEnd);
    }
    let Some(start) = start_of(history, &address) else {
        return Reply::Refused(CommandRefusal::UnknownPlace);
    };
    let Ok(mut list) = AccessList::new(alloc) else {
        return no_list(alloc);
    };
    let is_short = gather(history, &mut list, moves, start, count as u64);
    Reply::Accesses(list.into_items(), reason_if(is_short))
}
