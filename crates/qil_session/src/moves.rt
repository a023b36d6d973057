//! The replies to commands that move along the timeline: `step`, `back`, `continue`, `reverse`.

ghost use Rattle.std.specs.Prelude.{◌≡◌, ℕ, ◌+◌, ◌<◌, ◌≤◌, ◌^◌, Ok, Some};
ghost use Rattle.qil_commands.specs.declared.command.Command.TheVariants as commands;
ghost use Rattle.qil_semantics.specs.Timeline.{position};
ghost use Rattle.qil_semantics.specs.State.{is_final};
ghost use Rattle.qil_state.specs.State.{state_of};
ghost use Rattle.qil_stops.specs.Listed.{Listed};
ghost use Rattle.qil_replies.specs.SessionState.{session_at};
ghost use Rattle.qil_replies.specs.Answers.{Replies, back_refusal};

use qil_code::Code;
use qil_replies::{CommandRefusal, Readers, Reply};
use qil_semantics::Reason;
use qil_stops::Stops;
use qil_undo_log::Runs;
use std::alloc::Allocator;

/// Whether the run is over.
pub fn is_over<'c, A: Allocator + Copy + 'c, M: Readers<A, Code<'c, A>>>(machine: &M) -> bool
    ensures { result ≡ is_final (state_of (M.whole machine.now)).status }
{
    qil_replies::is_final(machine)
}

/// Replies to `step N`.
pub fn step<'c, 'r, A: Allocator + Copy + 'c, H: Runs<A, Code<'c, A>>>(
    history: &mut H,
    count: u32,
) -> Reply<'r, A>
    requires { position (H.timeline history.old) < 2 ^ 61 }
    ensures program { H.program history.new ≡ H.program history.old }
    ensures near { position (H.timeline history.new) < position (H.timeline history.old) + 2 ^ 32 }
    ensures replied { (stops : Listed) (limit : ℕ) → Replies (session_at H.wants_memory (H.program history.old) (H.timeline history.old) stops limit) (session_at H.wants_memory (H.program history.old) (H.timeline history.new) stops limit)
        (Ok (Some (commands.Step count))) result }
{
    if is_over(history.machine()) {
        return Reply::Refused(CommandRefusal::AtEnd);
    }
    match history.forward_by(count) {
        Ok(()) => Reply::Place,
        Err(_made) => Reply::Stopped(Reason::Memory),
    }
}

/// Why there is no way back: from the start, or from the oldest state that is kept.
fn no_way_back(position: u64, oldest: u64) -> Option<CommandRefusal>
    ensures { result ≡ back_refusal position oldest }
{
    if position == 0 {
        return Some(CommandRefusal::AtStart);
    }
    if position == oldest {
        return Some(CommandRefusal::HistoryEnds);
    }
    None
}

/// Replies to `back N`.
pub fn back<'c, 'r, A: Allocator + Copy + 'c, H: Runs<A, Code<'c, A>>>(
    history: &mut H,
    count: u32,
) -> Reply<'r, A>
    ensures program { H.program history.new ≡ H.program history.old }
    ensures near { position (H.timeline history.new) < position (H.timeline history.old) + 2 ^ 32 }
    ensures replied { (stops : Listed) (limit : ℕ) → Replies (session_at H.wants_memory (H.program history.old) (H.timeline history.old) stops limit) (session_at H.wants_memory (H.program history.old) (H.timeline history.new) stops limit)
        (Ok (Some (commands.Back count))) result }
{
    if let Some(refusal) = no_way_back(history.position(), history.oldest()) {
        return Reply::Refused(refusal);
    }
    history.back_by(count);
    Reply::Place
}

/// Replies to `continue`.
pub fn answer_continue<'c, 'r, A: Allocator + Copy + 'c, H: Runs<A, Code<'c, A>>>(
    history: &mut H,
    stops: &Stops<A>,
    limit: u64,
) -> Reply<'r, A>
    requires before { position (H.timeline history.old) < 2 ^ 61 }
    requires limit { limit ≤ 4294967295 }
    ensures program { H.program history.new ≡ H.program history.old }
    ensures near { position (H.timeline history.new) < position (H.timeline history.old) + 2 ^ 32 }
    ensures replied { Replies (session_at H.wants_memory (H.program history.old) (H.timeline history.old) stops.now limit) (session_at H.wants_memory (H.program history.old) (H.timeline history.new) stops.now limit)
        (Ok (Some commands.Continue)) result }
{
    if is_over(history.machine()) {
        return Reply::Refused(CommandRefusal::AtEnd);
    }
    let (reason, _made) = history.run(stops.list(), limit);
    Reply::Stopped(reason)
}

/// Replies to `reverse`.
pub fn answer_reverse<'c, 'r, A: Allocator + Copy + 'c, H: Runs<A, Code<'c, A>>>(
    history: &mut H,
    stops: &Stops<A>,
    limit: u64,
) -> Reply<'r, A>
    ensures program { H.program history.new ≡ H.program history.old }
    ensures near { position (H.timeline history.new) < position (H.timeline history.old) + 2 ^ 32 }
    ensures replied { Replies (session_at H.wants_memory (H.program history.old) (H.timeline history.old) stops.now limit) (session_at H.wants_memory (H.program history.old) (H.timeline history.new) stops.now limit)
        (Ok (Some commands.Reverse)) result }
{
    if let Some(refusal) = no_way_back(history.position(), history.oldest()) {
        return Reply::Refused(refusal);
    }
    let (reason, _made) = history.run_back(stops.list(), limit);
    Reply::Stopped(reason)
}
