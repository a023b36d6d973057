//! The replies to commands that replace a value: `set`, `poke`.

ghost use Rattle.std.specs.Prelude.{◌≡◌, ℕ, ◌+◌, ◌<◌, ◌^◌, Ok, Some};
ghost use Rattle.qil_commands.specs.declared.command.Command.TheVariants as commands;
ghost use Rattle.qil_semantics.specs.Timeline.{position};
ghost use Rattle.qil_stops.specs.Listed.{Listed};
ghost use Rattle.qil_replies.specs.SessionState.{resolved_address, session_at};
ghost use Rattle.qil_replies.specs.Answers.{Replies};

use crate::words::{resolved_address, width_bytes};
use qil_code::Code;
use qil_commands::Address;
use qil_machine::PokeError;
use qil_replies::{CommandRefusal, Reply, code_of};
use qil_semantics::Reason;
use qil_tree::Width;
use qil_undo_log::Runs;
use std::alloc::Allocator;

/// Replies to `set %x N`.
pub fn set<'c, 'r, A: Allocator + Copy + 'c, H: Runs<A, Code<'c, A>>>(
    history: &mut H,
    name: &[u8],
    value: u64,
) -> Reply<'r, A>
    requires { position (H.timeline history.old) < 2 ^ 61 }
    ensures program { H.program history.new ≡ H.program history.old }
    ensures near { position (H.timeline history.new) < position (H.timeline history.old) + 2 ^ 32 }
    ensures replied { (stops : Listed) (limit : ℕ) → Replies (session_at H.wants_memory (H.program history.old) (H.timeline history.old) stops limit) (session_at H.wants_memory (H.program history.old) (H.timeline history.new) stops limit)
        (Ok (Some (commands.Set name.now value))) result }
{
    match history.poke_named(name, value) {
        Ok(()) => Reply::Place,
        Err(PokeError::NoFrame) => Reply::Refused(CommandRefusal::NoFrame),
        Err(PokeError::UnknownTemporary) => Reply::Refused(CommandRefusal::UnknownTemporary),
        Err(PokeError::OutOfMemory) => Reply::Stopped(Reason::Memory),
        Err(PokeError::DeadAddress) => unreachable!(),
    }
}

/// The address that a word says, if the program of a history has its global.
// Only the history's bound names the machine's lifetime. Here it is the second, as it is for what reads the code.
pub fn start_of<'s, 'c, A: Allocator + Copy + 'c, H: Runs<A, Code<'c, A>>>(
    history: &'s H,
    address: &'s Address<'s>,
) -> Option<u64>
    ensures { result ≡ resolved_address (H.program history.now) address.now }
{
    resolved_address(code_of(history.machine()), address)
}

/// Replies to `poke b ADDR N`.
pub fn poke<'c, 'r, A: Allocator + Copy + 'c, H: Runs<A, Code<'c, A>>>(
    history: &mut H,
    width: Width,
    address: Address<'_>,
    value: u64,
) -> Reply<'r, A>
    requires { position (H.timeline history.old) < 2 ^ 61 }
    ensures program { H.program history.new ≡ H.program history.old }
    ensures near { position (H.timeline history.new) < position (H.timeline history.old) + 2 ^ 32 }
    ensures replied { (stops : Listed) (limit : ℕ) → Replies (session_at H.wants_memory (H.program history.old) (H.timeline history.old) stops limit) (session_at H.wants_memory (H.program history.old) (H.timeline history.new) stops limit)
        (Ok (Some (commands.Poke width address.entry value))) result }
{
    let Some(start) = start_of(history, &address) else {
        return Reply::Refused(CommandRefusal::UnknownPlace);
    };
    match history.poke_memory(start, width_bytes(width), value) {
        Ok(()) => Reply::Place,
        Err(PokeError::DeadAddress) => Reply::Refused(CommandRefusal::DeadAddress),
        Err(PokeError::OutOfMemory) => Reply::Stopped(Reason::Memory),
        Err(PokeError::NoFrame | PokeError::UnknownTemporary) => unreachable!(),
    }
}
