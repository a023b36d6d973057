//! Replies of a session over any history that goes by single moves.
//!
//! A session asks that its history have runs. Where the history is known, all that runs promise is compared at such a call with all
//! that is so of that history; here it is any `History`, of which less is asked.

ghost use Rattle.std.specs.Prelude.{◌≡◌, ◌-◌, ◌^◌, ◌<◌, ◌≤◌, true};
ghost use Rattle.qil_streams.specs.Device.{Puts};
ghost use Rattle.qil_session.specs.Kept.{session_state};
ghost use Rattle.qil_session.specs.qil_replies.Answers.{Replies};
ghost use Rattle.qil_session.specs.qil_replies.Reply.{reply_text};
ghost use Rattle.qil_semantics.specs.Timeline.{position};
ghost use Rattle.qil_machine.specs.qil_state.State.{state_of};

use qil_commands::{Command, Refused};
use qil_history::History;
use qil_machine::Machine;
use qil_session::{Reply, Session, Stepwise};
use qil_stops::Stops;
use qil_streams::{Buffer, Put, PutError};
use std::alloc::Allocator;

/// As `Session::reply`.
pub fn reply<'c, 't, A: Allocator + Copy + 'c, H: History<A, Machine<'c, A>> + Stepwise>(
    session: &mut Session<A, H>,
    said: Result<Option<Command<'t>>, Refused>,
) -> Reply<'t, A>
    requires before { position (H.timeline session.old.history) < 2 ^ 61 }
    requires limit { session.old.limit ≤ 4294967295 }
    ensures limit { session.new.limit ≡ session.old.limit }
    ensures replied { Replies (session_state true H.program H.timeline session.old) (session_state true H.program H.timeline session.new) said.entry result }
{
    session.reply(said)
}

/// Puts the text of a reply, after `position` moves that led to `machine`, with these stops: as `Session::put_reply`. It knows of no
/// history, so that each kind of session hands it what it has, and nothing is said of the history to it.
pub fn put_reply<'c, A: Allocator + Copy + 'c>(
    position: u64,
    machine: &Machine<'c, A>,
    stops: &Stops<A>,
    reply: &Reply<'_, A>,
    out: &mut Buffer<A>,
) -> Result<(), PutError>
    requires { ⟦<Buffer<A> as Put>⟧.stops out.old < 2 ^ 64 - 1 }
    ensures { Puts result (⟦<Buffer<A> as Put>⟧.written out.old) (⟦<Buffer<A> as Put>⟧.written out.new) (reply_text machine.now.program position (state_of machine.now) stops.now.kept reply.now) }
{
    qil_session::put_reply(out, position, machine, stops.list(), reply)
}
