//! What a recorder asks of a session over copies of states, whichever machine keeps them.
//!
//! A type that becomes known is compared with all that its bounds promise. So each call goes down step by step: from a machine with
//! copies to one that is restorable, from that to a history, and each step is a function of its own. `_code` is of a type that names
//! the lifetime of the code, if that of the session doesn't: so a caller knows that the allocator outlives it.

ghost use Rattle.std.specs.Prelude.{slice_get, ◌≡◌, ◌-◌, ◌^◌, ◌<◌, ◌≤◌, Bool, false, [], None, IfOk};
ghost use Rattle.qil_streams.specs.Device.{Puts};
ghost use Rattle.qil_session.specs.Kept.{session_state};
ghost use Rattle.qil_session.specs.qil_replies.SessionState.{text_in};
ghost use Rattle.qil_session.specs.qil_replies.Answers.{Replies};
ghost use Rattle.qil_semantics.specs.Timeline.{begun, position, at_end};
ghost use Rattle.qil_machine.specs.qil_state.State.{IsMachine, state_of};
ghost use Rattle.qil_checkpoints.specs.Held.{held_timeline};
ghost use Rattle.qrev_sessions.specs.Ways.{RunsBy};
ghost use Rattle.qrev_sessions.specs.declared.running.Way.TheVariants.{Forward};

use crate::running::{Way, run_over};
use qil_checkpoints::{Checkpoints, Restorable};
use qil_commands::{Command, Refused};
use qil_flatmachine::{CopiedMachine, FlatMachine, Replaying};
use qil_history::FrameView;
use qil_machine::Code;
use qil_session::{Reply, Runs, Session};
use qil_stops::DepthEnd;
use qil_stops::looking::is_over;
use qil_streams::{Buffer, Put, PutError};
use std::alloc::{AllocError, Allocator};

/// A history that begins at a machine, whose copies may take about so many bytes.
fn checkpoints<'c, A: Allocator + Copy + 'c, M: CopiedMachine<A, FlatMachine<'c, A>> + Drop>(
    alloc: A,
    machine: M,
    budget: u64,
) -> Result<Checkpoints<A, Replaying<M>>, AllocError>
    ensures program { IfOk result (λ c. (M.present c.machine.machine).program ≡ (M.present machine).program) }
    ensures begun { IfOk result (λ c. held_timeline (λ r. M.present r.machine) (λ r. M.kept r.machine) c ≡ begun None (state_of (M.present machine))) }
{
    let machine = Replaying { machine };
    Checkpoints::new::<Code<'c, A>>(alloc, machine, budget as usize)
}

/// A session without stops over such a history.
pub fn open<'c, A: Allocator + Copy + 'c, M: CopiedMachine<A, FlatMachine<'c, A>> + Drop>(
    alloc: A,
    machine: M,
    budget: u64,
    limit: u64,
) -> Result<Session<A, Checkpoints<A, Replaying<M>>>, AllocError>
    ensures program { IfOk result (λ s. (M.present s.history.machine.machine).program ≡ (M.present machine).program) }
    ensures begun { IfOk result (λ s. held_timeline (λ r. M.present r.machine) (λ r. M.kept r.machine) s.history ≡ begun None (state_of (M.present machine))) }
    ensures stops { IfOk result (λ s. s.stops ≡ record { given = 0; kept = [] }) }
    ensures limit { IfOk result (λ s. s.limit ≡ limit) }
{
    let history = checkpoints(alloc, machine, budget)?;
    match Session::new(alloc, history, limit) {
        Ok(session) => Ok(session),
        Err(_) => Err(AllocError),
    }
}

/// As `Session::reply`.
fn reply_over<'c, 't, A: Allocator + Copy + 'c, H: Runs<A, Code<'c, A>>, K>(
    session: &mut Session<A, H>,
    _code: Option<&K>,
    said: Result<Option<Command<'t>>, Refused>,
) -> Reply<'t, A>
    requires before { position (H.timeline session.old.history) < 2 ^ 61 }
    requires limit { session.old.limit ≤ 4294967295 }
    ensures limit { session.new.limit ≡ session.old.limit }
    ensures replied { Replies (session_state H.wants_memory H.program H.timeline session.old) (session_state H.wants_memory H.program H.timeline session.new) said.entry result }
{
    session.reply(said)
}

fn reply_in<'c, 't, A: Allocator + Copy + 'c, M: Restorable<A, Code<'c, A>>, K>(
    session: &mut Session<A, Checkpoints<A, M>>,
    _code: Option<&K>,
    said: Result<Option<Command<'t>>, Refused>,
) -> Reply<'t, A>
    requires before { position (held_timeline M.present M.kept session.old.history) < 2 ^ 61 }
    requires limit { session.old.limit ≤ 4294967295 }
    ensures limit { session.new.limit ≡ session.old.limit }
    ensures replied { Replies (session_state false (λ h. (M.present h.machine).program) (λ h. held_timeline M.present M.kept h) session.old) (session_state false (λ h. (M.present h.machine).program) (λ h. held_timeline M.present M.kept h) session.new) said.entry result }
{
    let code: Option<&'c Code<'c, A>> = None;
    reply_over(session, code, said)
}

/// As `Session::reply`.
pub fn reply<'c, 't, A: Allocator + Copy + 'c, M: CopiedMachine<A, FlatMachine<'c, A>>>(
    session: &mut Session<A, Checkpoints<A, Replaying<M>>>,
    said: Result<Option<Command<'t>>, Refused>,
) -> Reply<'t, A>
    requires before { position (held_timeline (λ r. M.present r.machine) (λ r. M.kept r.machine) session.old.history) < 2 ^ 61 }
    requires limit { session.old.limit ≤ 4294967295 }
    ensures limit { session.new.limit ≡ session.old.limit }
    ensures replied { Replies (session_state false (λ h. (M.present h.machine.machine).program) (λ h. held_timeline (λ r. M.present r.machine) (λ r. M.kept r.machine) h) session.old)
        (session_state false (λ h. (M.present h.machine.machine).program) (λ h. held_timeline (λ r. M.present r.machine) (λ r. M.kept r.machine) h) session.new) said.entry result }
{
    let code: Option<&'c Code<'c, A>> = None;
    reply_in(session, code, said)
}

/// As `Session::put_reply`.
fn put_reply_over<'c, A: Allocator + Copy + 'c, H: Runs<A, Code<'c, A>>, K>(
    session: &Session<A, H>,
    _code: Option<&K>,
    reply: &Reply<'_, A>,
    out: &mut Buffer<A>,
) -> Result<(), PutError>
    requires { ⟦<Buffer<A> as Put>⟧.stops out.old < 2 ^ 64 - 1 }
    ensures { Puts result (⟦<Buffer<A> as Put>⟧.written out.old) (⟦<Buffer<A> as Put>⟧.written out.new) (text_in (session_state H.wants_memory H.program H.timeline session.now) reply.now) }
{
    session.put_reply(reply, out)
}

fn put_reply_in<'c, A: Allocator + Copy + 'c, M: Restorable<A, Code<'c, A>>, K>(
    session: &Session<A, Checkpoints<A, M>>,
    _code: Option<&K>,
    reply: &Reply<'_, A>,
    out: &mut Buffer<A>,
) -> Result<(), PutError>
    requires { ⟦<Buffer<A> as Put>⟧.stops out.old < 2 ^ 64 - 1 }
    ensures { Puts result (⟦<Buffer<A> as Put>⟧.written out.old) (⟦<Buffer<A> as Put>⟧.written out.new)
        (text_in (session_state false (λ h. (M.present h.machine).program) (λ h. held_timeline M.present M.kept h) session.now) reply.now) }
{
    let code: Option<&'c Code<'c, A>> = None;
    put_reply_over(session, code, reply, out)
}

/// As `Session::put_reply`.
pub fn put_reply<'c, A: Allocator + Copy + 'c, M: CopiedMachine<A, FlatMachine<'c, A>>>(
    session: &Session<A, Checkpoints<A, Replaying<M>>>,
    reply: &Reply<'_, A>,
    out: &mut Buffer<A>,
) -> Result<(), PutError>
    requires { ⟦<Buffer<A> as Put>⟧.stops out.old < 2 ^ 64 - 1 }
    ensures { Puts result (⟦<Buffer<A> as Put>⟧.written out.old) (⟦<Buffer<A> as Put>⟧.written out.new)
        (text_in (session_state false (λ h. (M.present h.machine.machine).program) (λ h. held_timeline (λ r. M.present r.machine) (λ r. M.kept r.machine) h) session.now) reply.now) }
{
    let code: Option<&'c Code<'c, A>> = None;
    put_reply_in(session, code, reply, out)
}

fn run_in<'c, A: Allocator + Copy + 'c, M: Restorable<A, Code<'c, A>>, K>(
    session: &mut Session<A, Checkpoints<A, M>>,
    _code: Option<&K>,
    way: Way<'_, A>,
    most: usize,
) -> (DepthEnd, u64)
    requires before { way ≡ Forward → position (held_timeline M.present M.kept session.old.history) < 2 ^ 61 }
    requires limit { way ≡ Forward → session.old.limit ≤ 4294967295 }
    ensures rest { session_state false (λ h. (M.present h.machine).program) (λ h. held_timeline M.present M.kept h) session.new
        ≡ record (session_state false (λ h. (M.present h.machine).program) (λ h. held_timeline M.present M.kept h) session.old) { timeline = held_timeline M.present M.kept session.new.history } }
    ensures run { RunsBy way.entry (session_state false (λ h. (M.present h.machine).program) (λ h. held_timeline M.present M.kept h) session.old) most result.0 result.1
        (held_timeline M.present M.kept session.new.history) }
{
    let code: Option<&'c Code<'c, A>> = None;
    run_over(session, code, way, most)
}

/// As `Session::run_to_depth`, `Session::run_back_to_depth` or `Session::run_back_past`.
pub fn run<'c, A: Allocator + Copy + 'c, M: CopiedMachine<A, FlatMachine<'c, A>>>(
    session: &mut Session<A, Checkpoints<A, Replaying<M>>>,
    way: Way<'_, A>,
    most: usize,
) -> (DepthEnd, u64)
    requires before { way ≡ Forward → position (held_timeline (λ r. M.present r.machine) (λ r. M.kept r.machine) session.old.history) < 2 ^ 61 }
    requires limit { way ≡ Forward → session.old.limit ≤ 4294967295 }
    ensures rest { session_state false (λ h. (M.present h.machine.machine).program) (λ h. held_timeline (λ r. M.present r.machine) (λ r. M.kept r.machine) h) session.new
        ≡ record (session_state false (λ h. (M.present h.machine.machine).program) (λ h. held_timeline (λ r. M.present r.machine) (λ r. M.kept r.machine) h) session.old)
        { timeline = held_timeline (λ r. M.present r.machine) (λ r. M.kept r.machine) session.new.history } }
    ensures run { RunsBy way.entry (session_state false (λ h. (M.present h.machine.machine).program) (λ h. held_timeline (λ r. M.present r.machine) (λ r. M.kept r.machine) h) session.old) most result.0 result.1
        (held_timeline (λ r. M.present r.machine) (λ r. M.kept r.machine) session.new.history) }
{
    let code: Option<&'c Code<'c, A>> = None;
    run_in(session, code, way, most)
}

/// How many moves were made since the start.
pub fn moves<'c, A: Allocator + Copy + 'c, M: CopiedMachine<A, FlatMachine<'c, A>>>(
    session: &Session<A, Checkpoints<A, Replaying<M>>>,
) -> u64
    ensures { result ≡ position (held_timeline (λ r. M.present r.machine) (λ r. M.kept r.machine) session.now.history) }
{
    session.history().moves::<Code<'c, A>>()
}

fn machine_in<'s, 'c, A: Allocator + Copy + 'c, M: Restorable<A, Code<'c, A>>, K>(
    session: &'s Session<A, Checkpoints<A, M>>,
    _code: Option<&K>,
) -> &'s M
    ensures same { result.now ≡ session.now.history.machine }
    ensures now { state_of (M.whole result.now) ≡ (held_timeline M.present M.kept session.now.history).now }
    ensures program { (M.whole result.now).program ≡ (M.present session.now.history.machine).program }
{
    session.history().reader::<Code<'c, A>>()
}

/// The machine now.
fn machine<'s, 'c, A: Allocator + Copy + 'c, M: CopiedMachine<A, FlatMachine<'c, A>>>(
    session: &'s Session<A, Checkpoints<A, Replaying<M>>>,
) -> &'s Replaying<M>
    ensures same { result.now ≡ session.now.history.machine }
    ensures now { state_of (M.present result.now.machine) ≡ (held_timeline (λ r. M.present r.machine) (λ r. M.kept r.machine) session.now.history).now }
    ensures program { (M.present result.now.machine).program ≡ (M.present session.now.history.machine.machine).program }
{
    session.history().reader::<Code<'c, A>>()
}

fn is_over_in<'c, A: Allocator + Copy + 'c, M: Restorable<A, Code<'c, A>>, K>(
    session: &Session<A, Checkpoints<A, M>>,
    _code: Option<&K>,
) -> bool
    ensures { result ≡ at_end (held_timeline M.present M.kept session.now.history) }
{
    let code: Option<&'c Code<'c, A>> = None;
    let machine = machine_in(session, code);
    machine.is_read();
    is_over(machine)
}

/// Whether the run is over.
pub fn has_ended<'c, A: Allocator + Copy + 'c, M: CopiedMachine<A, FlatMachine<'c, A>>>(
    session: &Session<A, Checkpoints<A, Replaying<M>>>,
) -> bool
    ensures { result ≡ at_end (held_timeline (λ r. M.present r.machine) (λ r. M.kept r.machine) session.now.history) }
{
    let code: Option<&'c Code<'c, A>> = None;
    is_over_in(session, code)
}

/// The machine that keeps the copies.
pub fn flat<'s, 'c, A: Allocator + Copy + 'c, M: CopiedMachine<A, FlatMachine<'c, A>>>(
    session: &'s Session<A, Checkpoints<A, Replaying<M>>>,
) -> &'s FlatMachine<'c, A>
    ensures shown { result.now.whole ≡ M.present session.now.history.machine.machine }
    ensures now { state_of (M.present session.now.history.machine.machine) ≡ (held_timeline (λ r. M.present r.machine) (λ r. M.kept r.machine) session.now.history).now }
{
    machine(session).machine.machine()
}

/// A call that is not over, counted from the innermost one.
pub fn frame<'s, 'c, A: Allocator + Copy + 'c, M: CopiedMachine<A, FlatMachine<'c, A>>>(
    session: &'s Session<A, Checkpoints<A, Replaying<M>>>,
    inner: usize,
) -> Option<FrameView<'s>>
    ensures frame { result ≡ slice_get (M.present session.now.history.machine.machine).frames inner }
    ensures machine { IsMachine (M.present session.now.history.machine.machine) }
{
    machine(session).machine.frame(inner)
}

/// The bytes that were written.
pub fn output<'s, 'c, A: Allocator + Copy + 'c, M: CopiedMachine<A, FlatMachine<'c, A>>>(
    session: &'s Session<A, Checkpoints<A, Replaying<M>>>,
) -> &'s [u8]
    ensures { result.now ≡ (M.present session.now.history.machine.machine).output }
{
    machine(session).machine.output()
}
