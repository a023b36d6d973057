//! What a recorder asks of a session, and what a front end sees of it.

ghost use Rattle.std.specs.Prelude.{◌≡◌, ℕ, ◌≤◌, ◌-◌, ◌<◌, ◌^◌};
ghost use Rattle.qil_streams.specs.Device.{Puts};
ghost use Rattle.qil_semantics.specs.Timeline.{position, oldest, at_end};
ghost use Rattle.qil_stops.specs.qil_state.State.{state_of};
ghost use Rattle.qil_stops.specs.Named.{named_stops};
ghost use Rattle.qil_stops.specs.Depths.{RunsToDepth, RunsBackToDepth};
ghost use Rattle.qil_replies.specs.SessionState.{SessionState, text_in};
ghost use Rattle.qil_replies.specs.Answers.{Replies};

use qil_commands::{Command, Refused};
use qil_history::{HasProgram, Readers};
use qil_replies::Reply;
use qil_stops::{DepthEnd, Stops};
use qil_streams::{Buffer, Put, PutError};
use std::alloc::Allocator;

/// A session over some history. The types of a recorder can't name the history's bound, since that names a lifetime; and a
/// function that is generic in it can't call them.
pub trait Debugged<A: Allocator> {
    ghost state: { Self → SessionState A };

    /// As `Session::reply`.
    fn reply<'t>(&mut self, said: Result<Option<Command<'t>>, Refused>) -> Reply<'t, A>
        requires before { position (state self.old).timeline < 2 ^ 61 }
        requires limit { (state self.old).limit ≤ 4294967295 }
        ensures limit { (state self.new).limit ≡ (state self.old).limit }
        ensures replied { Replies (state self.old) (state self.new) said.entry result };

    /// Puts the text of a reply that left the session so.
    fn put_reply(&self, reply: &Reply<'_, A>, out: &mut Buffer<A>) -> Result<(), PutError>
        requires { ⟦<Buffer<A> as Put>⟧.stops out.old < 2 ^ 64 - 1 }
        ensures text { Puts result (⟦<Buffer<A> as Put>⟧.written out.old) (⟦<Buffer<A> as Put>⟧.written out.new) (text_in (state self.now) reply.now) };

    /// As `Session::run_to_depth`.
    fn run_to_depth(&mut self, most: usize) -> (DepthEnd, u64)
        requires before { position (state self.old).timeline < 2 ^ 61 }
        requires limit { (state self.old).limit ≤ 4294967295 }
        ensures rest { state self.new ≡ record (state self.old) { timeline = (state self.new).timeline } }
        ensures run { RunsToDepth (state self.old).program (named_stops (state self.old).program (state self.old).stops.kept) most (state self.old).limit
            (state self.old).timeline result.0 result.1 (state self.new).timeline };

    /// As `Session::run_back_to_depth`.
    fn run_back_to_depth(&mut self, most: usize) -> (DepthEnd, u64)
        ensures rest { state self.new ≡ record (state self.old) { timeline = (state self.new).timeline } }
        ensures run { RunsBackToDepth (named_stops (state self.old).program (state self.old).stops.kept) most (state self.old).limit
            (state self.old).timeline result.0 result.1 (state self.new).timeline };

    /// As `Session::run_back_past`.
    fn run_back_past(&mut self, stops: &Stops<A>, most: usize) -> (DepthEnd, u64)
        ensures rest { state self.new ≡ record (state self.old) { timeline = (state self.new).timeline } }
        ensures run { RunsBackToDepth (named_stops (state self.old).program stops.now.kept) most (state self.old).limit
            (state self.old).timeline result.0 result.1 (state self.new).timeline };

    /// How many moves were made since the start.
    fn position(&self) -> u64
        ensures { result ≡ position (state self.now).timeline };

    /// The position of the oldest state that is kept.
    fn oldest(&self) -> u64
        ensures { result ≡ oldest (state self.now).timeline };

    /// Whether the run is over.
    fn is_over(&self) -> bool
        ensures { result ≡ at_end (state self.now).timeline };
}

/// A session that is read as the machine that it is now. The readers are its own: with a type of their own beside it, a session that
/// becomes known would be compared with all that such a type promises.
///
/// A user is generic in `L: HasMachine<A, Code<'c, A>>`, under `A: Allocator + 'c`.
pub trait HasMachine<A: Allocator, C: HasProgram<A>>: Debugged<A> + Readers<A, C> {
    /// Says that the state is the machine's.
    fn is_read(&self)
        ensures now { state_of (Self.whole self.now) ≡ (Self.state self.now).timeline.now }
        ensures program { (Self.whole self.now).program ≡ (Self.state self.now).program };

    /// The first dead address of the stack.
    fn top(&self) -> u64
        ensures { result ≡ (Self.state self.now).timeline.now.top };
}
