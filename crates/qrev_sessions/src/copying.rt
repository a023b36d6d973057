//! A session that keeps copies of some states, as a recorder drives it. It runs again from them where it goes back, so that nothing
//! is forgotten.

ghost use Rattle.std.specs.Prelude.{◌≡◌, ◌^◌, ◌<◌, ◌≤◌, false, [], None, IfOk};
ghost use Rattle.qil_session.specs.qil_replies.SessionState.{session_at};
ghost use Rattle.qil_session.specs.Kept.{session_state};
ghost use Rattle.qil_semantics.specs.Timeline.{begun, position};
ghost use Rattle.qil_machine.specs.qil_state.State.{state_of};
ghost use Rattle.qrev_sessions.specs.Copied.{copied_program, copied_state, copied_timeline};

use crate::copies::open;
use crate::driven::{DrivenOver, ShownOver};
use qil_checkpoints::Checkpoints;
use qil_commands::{Command, Refused};
use qil_flatmachine::{CopiedMachine, FlatMachine, Replaying};
use qil_history::{FrameView, Readers};
use qil_machine::{Code, Slot, Status};
use qil_session::{Reply, Session};
use qil_stops::{DepthEnd, HasCopies, Stops};
use qil_streams::{Buffer, PutError};
use qrev_recorder::{Debugged, HasMachine};
use std::alloc::{AllocError, Allocator};

/// A session that keeps copies of some states. It is generic in the machine that keeps them, so that what drives it is proved next
/// to any; and it names no lifetime, so that a bound on that machine may.
#[derive(Drop)]
pub struct CopyingSession<A: Allocator, M: HasCopies<A>> {
    session: Session<A, Checkpoints<A, Replaying<M>>>,
}

impl<A: Allocator + Copy, M: HasCopies<A> + Drop> CopyingSession<A, M> {
    /// A session without stops, from a machine at its start on. Its copies may take about `budget` bytes.
    pub fn new<'c>(alloc: A, machine: M, budget: u64, limit: u64) -> Result<Self, AllocError>
    where
        A: 'c,
        M: CopiedMachine<A, FlatMachine<'c, A>>,
        ensures program { IfOk result (λ s. copied_program M.present s.session.history ≡ (M.present machine).program) }
        ensures begun { IfOk result (λ s. copied_timeline M.present M.kept s.session.history ≡ begun None (state_of (M.present machine))) }
        ensures opened { IfOk result (λ s. session_state false (copied_program M.present) (copied_timeline M.present M.kept) s.session
            ≡ session_at false (copied_program M.present s.session.history) (copied_timeline M.present M.kept s.session.history) (record { given = 0; kept = [] }) limit) }
    {
        let session = open(alloc, machine, budget, limit)?;
        Ok(CopyingSession { session })
    }
}

impl<A: Allocator + Copy, M: DrivenOver<A>> Debugged<A> for CopyingSession<A, M> {
    ghost state = { λ s. copied_state M.present M.kept s.session };

    fn reply<'t>(&mut self, said: Result<Option<Command<'t>>, Refused>) -> Reply<'t, A> {
        M::reply(&mut self.session, said)
    }

    fn put_reply(&self, reply: &Reply<'_, A>, out: &mut Buffer<A>) -> Result<(), PutError> {
        M::put_reply(&self.session, reply, out)
    }

    fn run_to_depth(&mut self, most: usize) -> (DepthEnd, u64) {
        M::run_to_depth(&mut self.session, most)
    }

    fn run_back_to_depth(&mut self, most: usize) -> (DepthEnd, u64) {
        M::run_back_to_depth(&mut self.session, most)
    }

    fn run_back_past(&mut self, stops: &Stops<A>, most: usize) -> (DepthEnd, u64) {
        M::run_back_past(&mut self.session, stops, most)
    }

    fn position(&self) -> u64 {
        M::standing(&self.session).0
    }

    fn oldest(&self) -> u64 {
        M::standing(&self.session);
        0
    }

    fn is_over(&self) -> bool {
        M::standing(&self.session).1
    }
}

impl<'c, A: Allocator + Copy + 'c, M: ShownOver<A, FlatMachine<'c, A>>> Readers<A, Code<'c, A>>
    for CopyingSession<A, M> {
    ghost whole = { λ s. M.present s.session.history.machine.machine };

    fn code(&self) -> &Code<'c, A> {
        M::machine(&self.session).code()
    }

    fn status(&self) -> Status {
        M::machine(&self.session).status()
    }

    fn depth(&self) -> usize {
        M::machine(&self.session).depth()
    }

    fn frame(&self, inner: usize) -> Option<FrameView<'_>> {
        M::frame(&self.session, inner)
    }

    fn output(&self) -> &[u8] {
        M::output(&self.session)
    }

    fn byte_after(&self, address: u64, offset: u64) -> Option<u8> {
        M::machine(&self.session).byte_after(address, offset)
    }

    fn value(&self, slot: Slot) -> Option<u64> {
        M::machine(&self.session).value(slot)
    }
}

impl<'c, A: Allocator + Copy + 'c, M: ShownOver<A, FlatMachine<'c, A>>> HasMachine<A, Code<'c, A>>
    for CopyingSession<A, M> {
    fn is_read(&self) {
        M::machine(&self.session);
    }

    fn top(&self) -> u64 {
        M::machine(&self.session).top()
    }
}
