//! The session on a side: a history of its run is made from the start, moved to where the comparison left the side, and served.

ghost use Rattle.std.specs.Prelude.{◌≡◌, ◌≢◌, ◌↔◌, IsTrue, ℕ, ◌-◌, ◌^◌, ◌<◌, ◌≤◌, false, true, None, Some, Ok, IfSome, is_some};
ghost use Rattle.qil_semantics.specs.State.{State};
ghost use Rattle.qil_semantics.specs.Start.{start_of};
ghost use Rattle.qil_semantics.specs.Timeline.{at_end, begun, moved, position};
ghost use Rattle.qil_session.specs.Serve.{TakesFew};
ghost use Rattle.qil_state.specs.State.{state_of};
ghost use Rattle.qil_comparison.specs.Compared.{CountsFaults, IsUntouched, session_on};
ghost use Rattle.qil_comparison.specs.Handed.{GoesTo, IsServedAt};

use crate::outcome::Outcome;
use crate::request::Request;
use crate::serving::serve_at;
use qil_checkpoints::{Checkpoints, Restorable};
use qil_code::Code;
use qil_compare::Verdict;
use qil_flat::FlatCode;
use qil_flatmachine::{CopiedMachine, FlatMachine, Replaying, RestorableMachine};
use qil_history::History;
use qil_machine::Machine;
use qil_semantics::Reason;
use qil_session::{Runs, Stepwise};
use qil_streams::{Sink, Source};
use qil_undo_log::BoundedUndoLog;
use std::alloc::Allocator;

/// How many bytes the copies of states may take from which a session goes back.
const COPIES: usize = 1 << 26;

/// Whether a run ended where memory ran out.
fn is_memory(reason: Reason) -> bool
    ensures { IsTrue result ↔ (reason ≡ Reason.Memory) }
{
    match reason {
        Reason::Memory => true,
        Reason::End
        | Reason::Watch(_)
        | Reason::Break(_)
        | Reason::Start
        | Reason::Oldest
        | Reason::Limit => false,
    }
}

/// Moves a history forward by so many moves, and serves a script there. `_code` is of a type that names the lifetime of the code, if
/// that of the history doesn't: so a caller knows that the allocator outlives it.
fn serve_moved<'c, A: Allocator + Copy + 'c, H: Runs<A, Code<'c, A>> + Drop, K, S: Source, W: Sink>(
    alloc: A,
    history: H,
    _code: Option<&K>,
    moves: u64,
    told: Verdict,
    request: &Request<'_>,
    source: &mut S,
    sink: &mut W,
) -> Outcome
    requires reads { S.failures source.old < 2 ^ 64 - 1 }
    requires writes { W.failures sink.old < 2 ^ 64 - 1 }
    requires limit { request.now.limit ≤ 4294967295 }
    requires start { position (H.timeline history) ≡ 0 }
    requires moves { moves < 2 ^ 60 }
    requires goes { (j : ℕ) → j < moves → at_end (moved (H.program history) j (H.timeline history)) ≡ false }
    ensures served { IsServedAt result told (session_on H.wants_memory (H.program history) (moved (H.program history) moves (H.timeline history)) request.now.limit)
        (S.remaining source.old) (S.remaining source.new) (W.contents sink.old) (W.contents sink.new) }
    ensures ran { result ≢ Outcome.Refused }
    ensures untouched { IsUntouched result source.old source.new }
    ensures few { IfSome (S.remaining source.old) (λ script. TakesFew script (S.remaining source.new)) }
    ensures counted { CountsFaults result (S.failures source.old) (S.failures source.new) (W.failures sink.old) (W.failures sink.new) }
{
    let mut history = history;
    let (reason, _made) = history.run(&[], moves);
    if is_memory(reason) {
        return Outcome::Unserved;
    }
    serve_at(alloc, history, request.limit, told, source, sink)
}

/// Serves a script on a history that goes by single moves.
fn serve_history<
    'c,
    A: Allocator + Copy + 'c,
    H: History<A, Machine<'c, A>> + Stepwise + Drop,
    S: Source,
    W: Sink,
>(
    alloc: A,
    history: H,
    moves: u64,
    told: Verdict,
    request: &Request<'_>,
    source: &mut S,
    sink: &mut W,
) -> Outcome
    requires reads { S.failures source.old < 2 ^ 64 - 1 }
    requires writes { W.failures sink.old < 2 ^ 64 - 1 }
    requires limit { request.now.limit ≤ 4294967295 }
    requires start { position (H.timeline history) ≡ 0 }
    requires moves { moves < 2 ^ 60 }
    requires goes { (j : ℕ) → j < moves → at_end (moved (H.program history) j (H.timeline history)) ≡ false }
    ensures served { IsServedAt result told (session_on true (H.program history) (moved (H.program history) moves (H.timeline history)) request.now.limit)
        (S.remaining source.old) (S.remaining source.new) (W.contents sink.old) (W.contents sink.new) }
    ensures ran { result ≢ Outcome.Refused }
    ensures untouched { IsUntouched result source.old source.new }
    ensures few { IfSome (S.remaining source.old) (λ script. TakesFew script (S.remaining source.new)) }
    ensures counted { CountsFaults result (S.failures source.old) (S.failures source.new) (W.failures sink.old) (W.failures sink.new) }
{
    serve_moved(
        alloc,
        history,
        None::<&()>,
        moves,
        told,
        request,
        source,
        sink,
    )
}

/// Serves a script over the newest undo records, on a machine at its start that is moved forward by so many moves.
fn serve_records<'c, A: Allocator + Copy + 'c, S: Source, W: Sink>(
    alloc: A,
    machine: Machine<'c, A>,
    bound: u64,
    moves: u64,
    told: Verdict,
    request: &Request<'_>,
    source: &mut S,
    sink: &mut W,
) -> Outcome
    requires reads { S.failures source.old < 2 ^ 64 - 1 }
    requires writes { W.failures sink.old < 2 ^ 64 - 1 }
    requires limit { request.now.limit ≤ 4294967295 }
    requires bound { bound ≤ 1000000 }
    requires goes { GoesTo machine.program (state_of machine) moves }
    ensures served { IsServedAt result told (session_on true machine.entry.program (moved machine.entry.program moves (begun (Some bound) (state_of machine.entry))) request.now.limit)
        (S.remaining source.old) (S.remaining source.new) (W.contents sink.old) (W.contents sink.new) }
    ensures ran { result ≢ Outcome.Refused }
    ensures untouched { IsUntouched result source.old source.new }
    ensures few { IfSome (S.remaining source.old) (λ script. TakesFew script (S.remaining source.new)) }
    ensures counted { CountsFaults result (S.failures source.old) (S.failures source.new) (W.failures sink.old) (W.failures sink.new) }
{
    match BoundedUndoLog::new(alloc, machine, bound) {
        Ok(history) => serve_history(alloc, history, moves, told, request, source, sink),
        Err(_) => Outcome::Unserved,
    }
}

/// Serves a script on a machine at its start that can be put back to where it was, over copies of its states. `_code` is as in
/// `serve_moved`.
fn serve_restorable<
    'c,
    A: Allocator + Copy + 'c,
    M: Restorable<A, Code<'c, A>> + Drop,
    K,
    S: Source,
    W: Sink,
>(
    alloc: A,
    machine: M,
    _code: Option<&K>,
    moves: u64,
    told: Verdict,
    request: &Request<'_>,
    source: &mut S,
    sink: &mut W,
) -> Outcome
    requires reads { S.failures source.old < 2 ^ 64 - 1 }
    requires writes { W.failures sink.old < 2 ^ 64 - 1 }
    requires limit { request.now.limit ≤ 4294967295 }
    requires goes { GoesTo (M.present machine).program (state_of (M.present machine)) moves }
    ensures served { IsServedAt result told (session_on false (M.present machine).program (moved (M.present machine).program moves (begun None (state_of (M.present machine)))) request.now.limit)
        (S.remaining source.old) (S.remaining source.new) (W.contents sink.old) (W.contents sink.new) }
    ensures ran { result ≢ Outcome.Refused }
    ensures untouched { IsUntouched result source.old source.new }
    ensures few { IfSome (S.remaining source.old) (λ script. TakesFew script (S.remaining source.new)) }
    ensures counted { CountsFaults result (S.failures source.old) (S.failures source.new) (W.failures sink.old) (W.failures sink.new) }
{
    let code: Option<&'c Code<'c, A>> = None;
    match Checkpoints::new(alloc, machine, COPIES) {
        Ok(history) => serve_moved(alloc, history, code, moves, told, request, source, sink),
        Err(_) => Outcome::Unserved,
    }
}

/// Serves a script on a machine at its start, over copies of its states. That what replays them is restorable is compared here, and
/// that a history of what is restorable has runs in `serve_restorable`: in one place each would be compared with all of the other.
fn serve_copies<
    'c,
    A: Allocator + Copy + 'c,
    M: CopiedMachine<A, FlatMachine<'c, A>> + Drop,
    S: Source,
    W: Sink,
>(
    alloc: A,
    machine: M,
    moves: u64,
    told: Verdict,
    request: &Request<'_>,
    source: &mut S,
    sink: &mut W,
) -> Outcome
    requires reads { S.failures source.old < 2 ^ 64 - 1 }
    requires writes { W.failures sink.old < 2 ^ 64 - 1 }
    requires limit { request.now.limit ≤ 4294967295 }
    requires goes { GoesTo (M.present machine).program (state_of (M.present machine)) moves }
    ensures served { IsServedAt result told (session_on false (M.present machine).program (moved (M.present machine).program moves (begun None (state_of (M.present machine)))) request.now.limit)
        (S.remaining source.old) (S.remaining source.new) (W.contents sink.old) (W.contents sink.new) }
    ensures ran { result ≢ Outcome.Refused }
    ensures untouched { IsUntouched result source.old source.new }
    ensures few { IfSome (S.remaining source.old) (λ script. TakesFew script (S.remaining source.new)) }
    ensures counted { CountsFaults result (S.failures source.old) (S.failures source.new) (W.failures sink.old) (W.failures sink.new) }
{
    let code: Option<&'c Code<'c, A>> = None;
    let machine = Replaying { machine };
    serve_restorable(alloc, machine, code, moves, told, request, source, sink)
}

/// Serves a script on a program whose code is flat, over copies of its states.
fn serve_flat<'c, 't, A: Allocator + Copy + 'c, S: Source, W: Sink>(
    alloc: A,
    code: &'c FlatCode<'t, A>,
    moves: u64,
    told: Verdict,
    request: &Request<'_>,
    source: &mut S,
    sink: &mut W,
) -> Outcome
    requires reads { S.failures source.old < 2 ^ 64 - 1 }
    requires writes { W.failures sink.old < 2 ^ 64 - 1 }
    requires limit { request.now.limit ≤ 4294967295 }
    requires goes { (s : State) → start_of code.now.program request.now.func.now request.now.args.now ≡ Ok s → GoesTo code.now.program s moves }
    ensures served { (s : State) → start_of code.entry.now.program request.now.func.now request.now.args.now ≡ Ok s
        → IsServedAt result told (session_on false code.entry.now.program (moved code.entry.now.program moves (begun None s)) request.now.limit)
        (S.remaining source.old) (S.remaining source.new) (W.contents sink.old) (W.contents sink.new) }
    ensures ran { result ≢ Outcome.Refused }
    ensures untouched { IsUntouched result source.old source.new }
    ensures few { IfSome (S.remaining source.old) (λ script. TakesFew script (S.remaining source.new)) }
    ensures counted { CountsFaults result (S.failures source.old) (S.failures source.new) (W.failures sink.old) (W.failures sink.new) }
{
    let machine = match FlatMachine::start(alloc, code, request.func, request.args) {
        Ok(machine) => machine,
        Err(_) => return Outcome::Unserved,
    };
    match RestorableMachine::new(alloc, machine) {
        Ok(machine) => serve_copies(alloc, machine, moves, told, request, source, sink),
        Err(_) => Outcome::Unserved,
    }
}

/// Serves a script on a program, over the newest undo records.
fn serve_newest<'c, 't, A: Allocator + Copy + 'c, S: Source, W: Sink>(
    alloc: A,
    code: &'c Code<'t, A>,
    bound: u64,
    moves: u64,
    told: Verdict,
    request: &Request<'_>,
    source: &mut S,
    sink: &mut W,
) -> Outcome
    requires reads { S.failures source.old < 2 ^ 64 - 1 }
    requires writes { W.failures sink.old < 2 ^ 64 - 1 }
    requires limit { request.now.limit ≤ 4294967295 }
    requires bound { bound ≤ 1000000 }
    requires goes { (s : State) → start_of code.now request.now.func.now request.now.args.now ≡ Ok s → GoesTo code.now s moves }
    ensures served { (s : State) → start_of code.entry.now request.now.func.now request.now.args.now ≡ Ok s
        → IsServedAt result told (session_on true code.entry.now (moved code.entry.now moves (begun (Some bound) s)) request.now.limit)
        (S.remaining source.old) (S.remaining source.new) (W.contents sink.old) (W.contents sink.new) }
    ensures ran { result ≢ Outcome.Refused }
    ensures untouched { IsUntouched result source.old source.new }
    ensures few { IfSome (S.remaining source.old) (λ script. TakesFew script (S.remaining source.new)) }
    ensures counted { CountsFaults result (S.failures source.old) (S.failures source.new) (W.failures sink.old) (W.failures sink.new) }
{
    match Machine::start(alloc, code, request.func, request.args) {
        Ok(machine) => serve_records(alloc, machine, bound, moves, told, request, source, sink),
        Err(_) => Outcome::Unserved,
    }
}

/// Serves a script on a program where its run stands after so many moves from the start. With a bound the session keeps that many of
/// its newest moves; without one it goes back by copies of states, and keeps all.
pub fn serve_from<'c, 't, A: Allocator + Copy + 'c, S: Source, W: Sink>(
    alloc: A,
    code: &'c FlatCode<'t, A>,
    moves: u64,
    told: Verdict,
    request: &Request<'_>,
    source: &mut S,
    sink: &mut W,
) -> Outcome
    requires reads { S.failures source.old < 2 ^ 64 - 1 }
    requires writes { W.failures sink.old < 2 ^ 64 - 1 }
    requires limit { request.now.limit ≤ 4294967295 }
    requires bound { IfSome request.now.bound (λ n. n ≤ 1000000) }
    requires goes { (s : State) → start_of code.now.program request.now.func.now request.now.args.now ≡ Ok s → GoesTo code.now.program s moves }
    ensures served { (s : State) → start_of code.entry.now.program request.now.func.now request.now.args.now ≡ Ok s
        → IsServedAt result told (session_on (is_some request.now.bound) code.entry.now.program (moved code.entry.now.program moves (begun request.now.bound s)) request.now.limit)
        (S.remaining source.old) (S.remaining source.new) (W.contents sink.old) (W.contents sink.new) }
    ensures ran { result ≢ Outcome.Refused }
    ensures untouched { IsUntouched result source.old source.new }
    ensures few { IfSome (S.remaining source.old) (λ script. TakesFew script (S.remaining source.new)) }
    ensures counted { CountsFaults result (S.failures source.old) (S.failures source.new) (W.failures sink.old) (W.failures sink.new) }
{
    match request.bound {
        None => serve_flat(alloc, code, moves, told, request, source, sink),
        Some(bound) => {
            let numbered = code.code();
            serve_newest(alloc, numbered, bound, moves, told, request, source, sink)
        }
    }
}
