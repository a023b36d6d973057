//! A session that keeps every move, as a recorder drives it.

ghost use Rattle.std.specs.Prelude.{◌≡◌, ◌^◌, ◌<◌, ◌≤◌, true, [], IfOk};
ghost use Rattle.qil_undo_log.specs.Kept.{moved_timeline};
ghost use Rattle.qil_session.specs.qil_replies.SessionState.{session_at};
ghost use Rattle.qil_session.specs.Kept.{session_state};
ghost use Rattle.qil_semantics.specs.Timeline.{position};
ghost use Rattle.qrev_sessions.specs.Ways.{RunsBy};
ghost use Rattle.qrev_sessions.specs.declared.running.Way.TheVariants.{Forward};

use crate::replying::{put_reply, reply};
use crate::running::{Way, run};
use qil_commands::{Command, Refused};
use qil_history::{FrameView, History, Readers};
use qil_machine::{Code, Slot, Status};
use qil_session::{Reply, Session};
use qil_stops::{DepthEnd, Stops, is_over};
use qil_streams::{Buffer, PutError};
use qil_undo_log::UndoLog;
use qrev_recorder::{Debugged, HasMachine};
use std::alloc::{AllocError, Allocator};

/// A session that keeps every move.
#[derive(Drop)]
pub struct WholeSession<'c, A: Allocator> {
    session: Session<A, UndoLog<'c, A>>,
}

impl<'c, A: Allocator + Copy + 'c> WholeSession<'c, A> {
    /// A session without stops.
    pub fn new(alloc: A, history: UndoLog<'c, A>, limit: u64) -> Result<Self, AllocError>
        ensures { IfOk result (λ s. session_state true (λ h. h.machine.program) moved_timeline s.session
            ≡ session_at true history.entry.machine.program (moved_timeline history.entry) (record { given = 0; kept = [] }) limit) }
    {
        match Session::new(alloc, history, limit) {
            Ok(session) => Ok(WholeSession { session }),
            Err(_) => Err(AllocError),
        }
    }

    /// Runs over calls. Each way goes through this one call, at which the history is known.
    fn run(&mut self, way: Way<'_, A>, most: usize) -> (DepthEnd, u64)
        requires before { way ≡ Forward → position (moved_timeline self.old.session.history) < 2 ^ 61 }
        requires limit { way ≡ Forward → self.old.session.limit ≤ 4294967295 }
        ensures rest { session_state true (λ h. h.machine.program) moved_timeline self.new.session ≡ record (session_state true (λ h. h.machine.program) moved_timeline self.old.session) { timeline = moved_timeline self.new.session.history } }
        ensures run { RunsBy way.entry (session_state true (λ h. h.machine.program) moved_timeline self.old.session) most result.0 result.1 (moved_timeline self.new.session.history) }
    {
        run(&mut self.session, way, most)
    }
}

impl<'c, A: Allocator + Copy + 'c> Debugged<A> for WholeSession<'c, A> {
    ghost state = { λ s. session_state true (λ h. h.machine.program) moved_timeline s.session };

    fn reply<'t>(&mut self, said: Result<Option<Command<'t>>, Refused>) -> Reply<'t, A> {
        reply(&mut self.session, said)
    }

    fn put_reply(&self, reply: &Reply<'_, A>, out: &mut Buffer<A>) -> Result<(), PutError> {
        let history = self.session.history();
        let stops = self.session.stops();
        put_reply(history.position(), history.machine(), stops, reply, out)
    }

    fn run_to_depth(&mut self, most: usize) -> (DepthEnd, u64) {
        let way: Way<'c, A> = Way::Forward;
        self.run(way, most)
    }

    fn run_back_to_depth(&mut self, most: usize) -> (DepthEnd, u64) {
        let way: Way<'c, A> = Way::Back;
        self.run(way, most)
    }

    fn run_back_past(&mut self, stops: &Stops<A>, most: usize) -> (DepthEnd, u64) {
        self.run(Way::BackPast(stops), most)
    }

    fn position(&self) -> u64 {
        self.session.history().position()
    }

    fn oldest(&self) -> u64 {
        self.session.history().oldest()
    }

    fn is_over(&self) -> bool {
        is_over(self.session.history().machine())
    }
}

impl<'c, A: Allocator + Copy + 'c> Readers<A, Code<'c, A>> for WholeSession<'c, A> {
    ghost whole = { λ s. s.session.history.machine };

    fn code(&self) -> &Code<'c, A> {
        self.session.history().machine().code()
    }

    fn status(&self) -> Status {
        self.session.history().machine().status()
    }

    fn depth(&self) -> usize {
        self.session.history().machine().depth()
    }

    fn frame(&self, inner: usize) -> Option<FrameView<'_>> {
        self.session.history().machine().frame(inner)
    }

    fn output(&self) -> &[u8] {
        self.session.history().machine().output()
    }

    fn byte_after(&self, address: u64, offset: u64) -> Option<u8> {
        self.session.history().machine().byte_after(address, offset)
    }

    fn value(&self, slot: Slot) -> Option<u64> {
        self.session.history().machine().value(slot)
    }
}

impl<'c, A: Allocator + Copy + 'c> HasMachine<A, Code<'c, A>> for WholeSession<'c, A> {
    fn is_read(&self) {
        self.session.history().machine();
    }

    fn top(&self) -> u64 {
        self.session.history().machine().top()
    }
}
