//! What a session over copies asks of the machine that keeps them.
//!
//! Its types name no lifetime, since those of a recorder can't, and the machine that there is names that of the code: so these are
//! traits of the machine, and no functions that are generic in its lifetime. A machine that becomes known is compared with all that
//! they promise: so they have few calls, and say what a session is by one name, `copied_state`.

ghost use Rattle.std.specs.Prelude.{slice_get, ◌≡◌, ◌-◌, ◌^◌, ◌<◌, ◌≤◌};
ghost use Rattle.qil_streams.specs.Device.{Puts};
ghost use Rattle.qil_session.specs.qil_replies.SessionState.{text_in};
ghost use Rattle.qil_session.specs.qil_replies.Answers.{Replies};
ghost use Rattle.qil_semantics.specs.Timeline.{position, oldest, at_end};
ghost use Rattle.qil_machine.specs.qil_state.State.{IsMachine, state_of};
ghost use Rattle.qrev_sessions.specs.Copied.{copied_state};
ghost use Rattle.qil_stops.specs.Named.{named_stops};
ghost use Rattle.qil_stops.specs.Depths.{RunsToDepth, RunsBackToDepth};

use crate::copies::{flat, frame, has_ended, moves, output, put_reply, reply, run};
use crate::running::Way;
use qil_checkpoints::Checkpoints;
use qil_commands::{Command, Refused};
use qil_flatmachine::{FlatMachine, Replaying, RestorableMachine};
use qil_history::FrameView;
use qil_session::{Reply, Session};
use qil_stops::{DepthEnd, HasCopies, Stops};
use qil_streams::{Buffer, Put, PutError};
use std::alloc::Allocator;

/// How a session over copies of a machine's states is driven.
pub trait DrivenOver<A: Allocator>: HasCopies<A> {
    /// As `Session::reply`.
    fn reply<'t>(
        session: &mut Session<A, Checkpoints<A, Replaying<Self>>>,
        said: Result<Option<Command<'t>>, Refused>,
    ) -> Reply<'t, A>
        requires before { position (copied_state Self.present Self.kept session.old).timeline < 2 ^ 61 }
        requires limit { (copied_state Self.present Self.kept session.old).limit ≤ 4294967295 }
        ensures limit { (copied_state Self.present Self.kept session.new).limit ≡ (copied_state Self.present Self.kept session.old).limit }
        ensures replied { Replies (copied_state Self.present Self.kept session.old) (copied_state Self.present Self.kept session.new) said.entry result };

    /// As `Session::put_reply`.
    fn put_reply(
        session: &Session<A, Checkpoints<A, Replaying<Self>>>,
        reply: &Reply<'_, A>,
        out: &mut Buffer<A>,
    ) -> Result<(), PutError>
        requires { ⟦<Buffer<A> as Put>⟧.stops out.old < 2 ^ 64 - 1 }
        ensures { Puts result (⟦<Buffer<A> as Put>⟧.written out.old) (⟦<Buffer<A> as Put>⟧.written out.new) (text_in (copied_state Self.present Self.kept session.now) reply.now) };

    /// As `Session::run_to_depth`.
    fn run_to_depth(
        session: &mut Session<A, Checkpoints<A, Replaying<Self>>>,
        most: usize,
    ) -> (DepthEnd, u64)
        requires before { position (copied_state Self.present Self.kept session.old).timeline < 2 ^ 61 }
        requires limit { (copied_state Self.present Self.kept session.old).limit ≤ 4294967295 }
        ensures rest { (copied_state Self.present Self.kept session.new) ≡ record (copied_state Self.present Self.kept session.old) { timeline = (copied_state Self.present Self.kept session.new).timeline } }
        ensures run { RunsToDepth (copied_state Self.present Self.kept session.old).program (named_stops (copied_state Self.present Self.kept session.old).program (copied_state Self.present Self.kept session.old).stops.kept) most (copied_state Self.present Self.kept session.old).limit (copied_state Self.present Self.kept session.old).timeline result.0 result.1 (copied_state Self.present Self.kept session.new).timeline };

    /// As `Session::run_back_to_depth`.
    fn run_back_to_depth(
        session: &mut Session<A, Checkpoints<A, Replaying<Self>>>,
        most: usize,
    ) -> (DepthEnd, u64)
        ensures rest { (copied_state Self.present Self.kept session.new) ≡ record (copied_state Self.present Self.kept session.old) { timeline = (copied_state Self.present Self.kept session.new).timeline } }
        ensures run { RunsBackToDepth (named_stops (copied_state Self.present Self.kept session.old).program (copied_state Self.present Self.kept session.old).stops.kept) most (copied_state Self.present Self.kept session.old).limit (copied_state Self.present Self.kept session.old).timeline result.0 result.1 (copied_state Self.present Self.kept session.new).timeline };

    /// As `Session::run_back_past`.
    fn run_back_past(
        session: &mut Session<A, Checkpoints<A, Replaying<Self>>>,
        stops: &Stops<A>,
        most: usize,
    ) -> (DepthEnd, u64)
        ensures rest { (copied_state Self.present Self.kept session.new) ≡ record (copied_state Self.present Self.kept session.old) { timeline = (copied_state Self.present Self.kept session.new).timeline } }
        ensures run { RunsBackToDepth (named_stops (copied_state Self.present Self.kept session.old).program stops.now.kept) most (copied_state Self.present Self.kept session.old).limit (copied_state Self.present Self.kept session.old).timeline result.0 result.1 (copied_state Self.present Self.kept session.new).timeline };

    /// How many moves were made since the start, and whether the run is over. No state is forgotten.
    fn standing(session: &Session<A, Checkpoints<A, Replaying<Self>>>) -> (u64, bool)
        ensures moves { result.0 ≡ position (copied_state Self.present Self.kept session.now).timeline }
        ensures over { result.1 ≡ at_end (copied_state Self.present Self.kept session.now).timeline }
        ensures oldest { oldest (copied_state Self.present Self.kept session.now).timeline ≡ 0 };
}

/// How it is read, by the machine of the type F that keeps its copies.
pub trait ShownOver<A: Allocator, F: HasCopies<A>>: DrivenOver<A> {
    /// The machine as it is now.
    fn machine(session: &Session<A, Checkpoints<A, Replaying<Self>>>) -> &F
        ensures shown { F.present result.now ≡ (Self.present session.now.history.machine.machine) }
        ensures now { state_of (Self.present session.now.history.machine.machine) ≡ (copied_state Self.present Self.kept session.now).timeline.now }
        ensures program { (Self.present session.now.history.machine.machine).program ≡ (copied_state Self.present Self.kept session.now).program };

    /// A call that is not over, counted from the innermost one.
    fn frame(
        session: &Session<A, Checkpoints<A, Replaying<Self>>>,
        inner: usize,
    ) -> Option<FrameView<'_>>
        ensures frame { result ≡ slice_get (Self.present session.now.history.machine.machine).frames inner }
        ensures machine { IsMachine (Self.present session.now.history.machine.machine) };

    /// The bytes that were written.
    fn output(session: &Session<A, Checkpoints<A, Replaying<Self>>>) -> &[u8]
        ensures { result.now ≡ (Self.present session.now.history.machine.machine).output };
}

impl<'c, A: Allocator + Copy + 'c> DrivenOver<A> for RestorableMachine<'c, A> {
    fn reply<'t>(
        session: &mut Session<A, Checkpoints<A, Replaying<Self>>>,
        said: Result<Option<Command<'t>>, Refused>,
    ) -> Reply<'t, A> {
        reply(session, said)
    }

    fn put_reply(
        session: &Session<A, Checkpoints<A, Replaying<Self>>>,
        reply: &Reply<'_, A>,
        out: &mut Buffer<A>,
    ) -> Result<(), PutError> {
        put_reply(session, reply, out)
    }

    fn run_to_depth(
        session: &mut Session<A, Checkpoints<A, Replaying<Self>>>,
        most: usize,
    ) -> (DepthEnd, u64) {
        let way: Way<'c, A> = Way::Forward;
        run(session, way, most)
    }

    fn run_back_to_depth(
        session: &mut Session<A, Checkpoints<A, Replaying<Self>>>,
        most: usize,
    ) -> (DepthEnd, u64) {
        let way: Way<'c, A> = Way::Back;
        run(session, way, most)
    }

    fn run_back_past(
        session: &mut Session<A, Checkpoints<A, Replaying<Self>>>,
        stops: &Stops<A>,
        most: usize,
    ) -> (DepthEnd, u64) {
        run(session, Way::BackPast(stops), most)
    }

    fn standing(session: &Session<A, Checkpoints<A, Replaying<Self>>>) -> (u64, bool) {
        (moves(session), has_ended(session))
    }
}

impl<'c, A: Allocator + Copy + 'c> ShownOver<A, FlatMachine<'c, A>> for RestorableMachine<'c, A> {
    fn machine(session: &Session<A, Checkpoints<A, Replaying<Self>>>) -> &FlatMachine<'c, A> {
        flat(session)
    }

    fn frame(
        session: &Session<A, Checkpoints<A, Replaying<Self>>>,
        inner: usize,
    ) -> Option<FrameView<'_>> {
        frame(session, inner)
    }

    fn output(session: &Session<A, Checkpoints<A, Replaying<Self>>>) -> &[u8] {
        output(session)
    }
}
