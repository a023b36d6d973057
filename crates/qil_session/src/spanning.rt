//! The reply to `frames`: moves forward, and the frames that end, or begin and last.

ghost use Rattle.std.specs.Prelude.{◌≡◌, ℕ, ◌+◌, ◌<◌, ◌≤◌, ◌^◌, ◌||◌, false, [], Ok, Some, IfOk, None, length};
ghost use Rattle.qil_commands.specs.declared.command.Command.TheVariants as commands;
ghost use Rattle.qil_semantics.specs.Timeline.{position, at_end};
ghost use Rattle.qil_semantics.specs.declared.reason.Reason.TheVariants.{Memory};
ghost use Rattle.qil_stops.specs.Listed.{Listed};
ghost use Rattle.qil_spans.specs.Spans.{is_filled};
ghost use Rattle.qil_spans.specs.Table.{IsInnermost, nothing, told_of};
ghost use Rattle.qil_replies.specs.SessionState.{session_at};
ghost use Rattle.qil_replies.specs.Answers.{Replies};
ghost use Rattle.qil_session.specs.Spanned.{Spans};

use crate::accessing::{is_at_end, reason_if};
use qil_code::Code;
use qil_replies::{CommandRefusal, Reply};
use qil_semantics::Reason;
use qil_spans::{Inner, Span, SpanTable, look, told_of};
use qil_tree::Items;
use qil_undo_log::Runs;
use std::alloc::Allocator;

/// Whether no further move is made.
#[inline(always)]
fn is_spanned<'c, A: Allocator + Copy + 'c, H: Runs<A, Code<'c, A>>>(
    history: &H,
    table: &SpanTable<A>,
) -> bool
    ensures { result ≡ (at_end (H.timeline history.now) || is_filled table.now.ended) }
{
    is_at_end(history) || table.is_filled()
}

/// How many frames there are now, and the innermost one.
#[inline(always)]
fn inner<'c, A: Allocator + Copy + 'c, H: Runs<A, Code<'c, A>>>(history: &H) -> Inner
    ensures depth { result.depth ≡ length (H.timeline history.now).now.frames }
    ensures few { result.depth ≤ 1000 }
    ensures func { IsInnermost (H.program history.now) (H.timeline history.now).now result.func }
{
    look(history.machine())
}

/// All frames that are told.
fn told<'s, 'c, A: Allocator + Copy + 'c, H: Runs<A, Code<'c, A>>>(
    history: &'s H,
    table: SpanTable<A>,
) -> Items<Span, A>
    requires { length table.begins ≤ length (H.timeline history.now).now.frames }
    ensures { result ≡ told_of (H.program history.now) (H.timeline history.now).now table }
{
    told_of(table, history.machine())
}

/// Moves forward up to so many times, and not past the end or a filled table, and notes the frames, of those that begin and end by
/// these moves the ones that are at least so many moves long. Gives whether there was no memory for a move.
#[inline(never)]
fn span_moves<'c, A: Allocator + Copy + 'c, H: Runs<A, Code<'c, A>>>(
    history: &mut H,
    table: &mut SpanTable<A>,
    moves: u32,
    least: u64,
) -> bool
    requires before { position (H.timeline history.old) < 2 ^ 61 }
    requires nothing { table.old ≡ nothing }
    ensures program { H.program history.new ≡ H.program history.old }
    ensures spanned { (stops : Listed) (limit : ℕ)
        → Spans (session_at H.wants_memory (H.program history.old) (H.timeline history.old) stops limit) least moves (H.timeline history.new) table.new result }
{
    let mut before = inner(history);
    for _ in 0..moves {
        if is_spanned(history, table) {
            return false;
        }
        match history.forward_by(1) {
            Ok(()) => {}
            Err(_made) => return true,
        }
        let after = inner(history);
        table.add(before, after.depth, history.position(), least);
        before = after;
    }
    false
}

/// The reply where there is no memory for a table.
fn no_spans<'r, A: Allocator + Copy>(alloc: A) -> Reply<'r, A>
    ensures { result ≡ Reply.Spans [] (Some Memory) }
{
    Reply::Spans(Items::new(Vec::new(alloc)), Some(Reason::Memory))
}

/// Replies to `frames N D`.
pub fn frames<'c, 'r, A: Allocator + Copy + 'c, H: Runs<A, Code<'c, A>>>(
    history: &mut H,
    alloc: A,
    moves: u32,
    least: u32,
) -> Reply<'r, A>
    requires { position (H.timeline history.old) < 2 ^ 61 }
    ensures program { H.program history.new ≡ H.program history.old }
    ensures near { position (H.timeline history.new) < position (H.timeline history.old) + 2 ^ 32 }
    ensures replied { (stops : Listed) (limit : ℕ) → Replies (session_at H.wants_memory (H.program history.old) (H.timeline history.old) stops limit) (session_at H.wants_memory (H.program history.old) (H.timeline history.new) stops limit)
        (Ok (Some (commands.Frames moves least))) result }
{
    if is_at_end(history) {
        return Reply::Refused(CommandRefusal::AtEnd);
    }
    let Ok(mut table) = SpanTable::new(alloc) else {
        return no_spans(alloc);
    };
    let is_short = span_moves(history, &mut table, moves, least as u64);
    let list = told(history, table);
    Reply::Spans(list, reason_if(is_short))
}
