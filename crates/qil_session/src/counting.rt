//! The reply to `counts`: moves forward, and from which places they were made.

ghost use Rattle.std.specs.Prelude.{◌≡◌, ℕ, ◌+◌, ◌<◌, ◌^◌, ◌||◌, false, [], Ok, Some, IfOk, None};
ghost use Rattle.qil_commands.specs.declared.command.Command.TheVariants as commands;
ghost use Rattle.qil_semantics.specs.Timeline.{position, at_end};
ghost use Rattle.qil_semantics.specs.declared.reason.Reason.TheVariants.{Memory};
ghost use Rattle.qil_stops.specs.Listed.{Listed};
ghost use Rattle.qil_counts.specs.Counts.{IsHere, is_filled, places, unmet_all};
ghost use Rattle.qil_replies.specs.SessionState.{session_at};
ghost use Rattle.qil_replies.specs.Answers.{Replies};
ghost use Rattle.qil_session.specs.Counted.{Counts};

use crate::accessing::{is_at_end, reason_if};
use qil_code::Code;
use qil_counts::{CodePlace, CountTable, place_here};
use qil_replies::{CommandRefusal, Reply, code_of};
use qil_semantics::Reason;
use qil_tree::Items;
use qil_undo_log::Runs;
use std::alloc::{AllocError, Allocator};

/// Whether no further move is made.
#[inline(always)]
fn is_counted<'c, A: Allocator + Copy + 'c, H: Runs<A, Code<'c, A>>>(
    history: &H,
    table: &CountTable<A>,
) -> bool
    ensures { result ≡ (at_end (H.timeline history.now) || is_filled table.now) }
{
    is_at_end(history) || table.is_filled()
}

/// Where a run stands that goes on.
#[inline(always)]
fn here<'c, A: Allocator + Copy + 'c, H: Runs<A, Code<'c, A>>>(history: &H) -> Option<CodePlace>
    ensures { at_end (H.timeline history.now) ≡ false → IsHere (H.program history.now) (H.timeline history.now).now result }
{
    place_here(history.machine())
}

/// A table for the code of a history.
fn table_for<'c, A: Allocator + Copy + 'c, H: Runs<A, Code<'c, A>>>(
    history: &H,
    alloc: A,
) -> Result<CountTable<A>, AllocError>
    ensures { IfOk result (λ t. t ≡ unmet_all (places (H.program history.now))) }
{
    CountTable::new(alloc, code_of(history.machine()))
}

/// Moves forward up to so many times, and not past the end or a filled table, and counts the places. Gives whether there was no
/// memory for a move.
#[inline(never)]
fn count_moves<'c, A: Allocator + Copy + 'c, H: Runs<A, Code<'c, A>>>(
    history: &mut H,
    table: &mut CountTable<A>,
    moves: u32,
) -> bool
    requires before { position (H.timeline history.old) < 2 ^ 61 }
    requires unmet { table.old ≡ unmet_all (places (H.program history.old)) }
    ensures program { H.program history.new ≡ H.program history.old }
    ensures counted { (stops : Listed) (limit : ℕ)
        → Counts (session_at H.wants_memory (H.program history.old) (H.timeline history.old) stops limit) moves (H.timeline history.new) table.new result }
{
    for _ in 0..moves {
        if is_counted(history, table) {
            return false;
        }
        let place = here(history);
        match history.forward_by(1) {
            Ok(()) => {}
            Err(_made) => return true,
        }
        table.add(place);
    }
    false
}

/// The reply where there is no memory for a table.
fn no_table<'r, A: Allocator + Copy>(alloc: A) -> Reply<'r, A>
    ensures { result ≡ Reply.Counts [] (Some Memory) }
{
    Reply::Counts(Items::new(Vec::new(alloc)), Some(Reason::Memory))
}

/// Replies to `counts N`.
pub fn counts<'c, 'r, A: Allocator + Copy + 'c, H: Runs<A, Code<'c, A>>>(
    history: &mut H,
    alloc: A,
    moves: u32,
) -> Reply<'r, A>
    requires { position (H.timeline history.old) < 2 ^ 61 }
    ensures program { H.program history.new ≡ H.program history.old }
    ensures near { position (H.timeline history.new) < position (H.timeline history.old) + 2 ^ 32 }
    ensures replied { (stops : Listed) (limit : ℕ) → Replies (session_at H.wants_memory (H.program history.old) (H.timeline history.old) stops limit) (session_at H.wants_memory (H.program history.old) (H.timeline history.new) stops limit)
        (Ok (Some (commands.Counts moves))) result }
{
    if is_at_end(history) {
        return Reply::Refused(CommandRefusal::AtEnd);
    }
    let Ok(mut table) = table_for(history, alloc) else {
        return no_table(alloc);
    };
    let is_short = count_moves(history, &mut table, moves);
    Reply::Counts(table.into_items(), reason_if(is_short))
}
