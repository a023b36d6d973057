//! `debug`: from the bytes of a program and a script to the bytes of the transcript.

ghost use Rattle.std.specs.Prelude.{◌≡◌, ◌≢◌, ℕ, ◌-◌, ◌^◌, ◌<◌, ◌≤◌, ◌↔◌, true, false, List, Some, None, Ok, Err, IfSome};
ghost use Rattle.qil_rules.specs.Verdict.{Verdict};
ghost use Rattle.qil_layout.specs.Layout.{fault_of};
ghost use Rattle.qil_layout.specs.declared.error.LayoutCode.{LayoutCode};
ghost use Rattle.qil_semantics.specs.State.{State};
ghost use Rattle.qil_semantics.specs.Start.{start_of};
ghost use Rattle.qil_semantics.specs.Timeline.{begun, position};
ghost use Rattle.qil_semantics.specs.declared.start.StartFault.{StartFault};
ghost use Rattle.qil_state.specs.State.{state_of};
ghost use Rattle.qil_streams.specs.Device.{Counts, Puts};
ghost use Rattle.qil_session.specs.Kept.{session_state};
ghost use Rattle.qil_loading.specs.Load.{Accepts, Checks, Refuses};
ghost use Rattle.qil_loading.specs.Lines.{IsLoaded};
ghost use Rattle.qil_loading.specs.declared.refusal.Refusal.{Refusal};
ghost use Rattle.qil_session.specs.Serve.{TakesFew};
ghost use Rattle.qil_replies.specs.Transcript.{Begins, Setup, load_lines, opened};
ghost use Rattle.qil_transcript.specs.Debug.{CountsDebug, IsNoSession, IsUntouched, Written};
ghost use Rattle.qil_transcript.specs.Handed.{IsRefused, of_start, setup_of};

use crate::outcome::Outcome;
use qil_checkpoints::{Checkpoints, Restorable};
use qil_code::Code;
use qil_flat::{FlatCode, flatten};
use qil_flatmachine::{CopiedMachine, FlatMachine, Replaying, RestorableMachine};
use qil_history::History;
use qil_layout::Image;
use qil_layout_builder::layout;
use qil_loading::{LoadError, Loaded, Refusal, check_text, put_loaded_line, put_refusal_line};
use qil_machine::{Machine, StartError};
use qil_resolution::number;
use qil_rules::Checked;
use qil_semantics::StartFault;
use qil_session::{IoFault, Runs, Session, Stepwise, serve_lines};
use qil_streams::{Outlet, Put, PutError, Sink, Source};
use qil_undo_log::{BoundedUndoLog, UndoLog};
use std::alloc::Allocator;
use std::hash::RandomState;

/// What is run of a text, and how far.
#[derive(Clone, Copy)]
pub struct Request<'r> {
    /// The name of the function that is run, without its sigil.
    pub func: &'r [u8],
    pub args: &'r [u64],
    /// The most moves that one `continue` or `reverse` makes.
    pub limit: u64,
    /// The most moves that can be undone, if there is a bound.
    pub bound: Option<u64>,
    /// How many bytes the copies of states may take from which going back runs again, where it does that and no undo records
    /// are kept. Then there is no bound.
    pub replay: Option<u64>,
}

/// What a start that failed is to the load.
fn start_error(error: StartError) -> LoadError
    ensures { result ≡ of_start error }
{
    match error {
        StartError::NoEntry => LoadError::Refused(Refusal::Start(StartFault::NoEntry)),
        StartError::ArgumentCount => LoadError::Refused(Refusal::Start(StartFault::ArgumentCount)),
        StartError::OutOfMemory => LoadError::OutOfMemory,
    }
}

/// Puts the line of a refusal, which ends the run of `debug`. Where memory ran out nothing is put.
fn refuse<P: Put>(out: &mut P, error: LoadError) -> Outcome
    requires { P.stops out.old < 2 ^ 64 - 1 }
    ensures refused { IsRefused result error (P.written out.old) (P.written out.new) }
    ensures counted { CountsDebug result 0 0 (P.stops out.old) (P.stops out.new) }
    ensures device { P.device out.new ≡ P.device out.old }
{
    match error {
        LoadError::Refused(refusal) => match put_refusal_line(out, refusal) {
            Ok(()) => Outcome::Refused,
            Err(PutError) => Outcome::WriteFault,
        },
        LoadError::OutOfMemory => Outcome::Memory,
    }
}

/// Puts the load lines of a session.
fn put_loaded<'c, A: Allocator + Copy + 'c, H: Runs<A, Code<'c, A>>, P: Put>(
    session: &Session<A, H>,
    loaded: &Loaded<'_>,
    out: &mut P,
) -> Result<(), PutError>
    requires { P.stops out.old < 2 ^ 64 - 1 }
    ensures text { (verdict : Verdict A) → IsLoaded loaded.now verdict → Puts result (P.written out.old) (P.written out.new)
        (load_lines verdict.program verdict.form (H.timeline session.now.history)) }
    ensures counted { Counts result (P.stops out.old) (P.stops out.new) }
    ensures device { P.device out.new ≡ P.device out.old }
{
    put_loaded_line(out, loaded)?;
    session.put_now(out)
}

/// Puts the load lines of a session, and serves a script on it.
fn run<'c, A: Allocator + Copy + 'c, H: Runs<A, Code<'c, A>> + Drop, S: Source, P: Put>(
    mut session: Session<A, H>,
    loaded: &Loaded<'_>,
    source: &mut S,
    out: &mut P,
) -> Outcome
    requires reads { S.failures source.old < 2 ^ 64 - 1 }
    requires writes { P.stops out.old < 2 ^ 64 - 1 }
    requires before { position (H.timeline session.history) < 2 ^ 60 }
    requires limit { session.limit ≤ 4294967295 }
    ensures written { (s : Setup) (verdict : Verdict A) (start : State) → Begins s verdict start → IsLoaded loaded.now verdict
        → session_state H.wants_memory H.program H.timeline session ≡ opened s verdict.program start
        → Written A result s (S.remaining source.old) (S.remaining source.new) (P.written out.old) (P.written out.new) }
    ensures served { result ≢ Outcome.Refused }
    ensures untouched { IsUntouched result source.old source.new }
    ensures few { IfSome (S.remaining source.old) (λ script. TakesFew script (S.remaining source.new)) }
    ensures counted { CountsDebug result (S.failures source.old) (S.failures source.new) (P.stops out.old) (P.stops out.new) }
    ensures device { P.device out.new ≡ P.device out.old }
{
    match put_loaded(&session, loaded, out) {
        Ok(()) => {}
        Err(PutError) => return Outcome::WriteFault,
    }
    match serve_lines(&mut session, source, out) {
        Ok(()) => Outcome::Ended,
        Err(IoFault::Read) => Outcome::ReadFault,
        Err(IoFault::Write) => Outcome::WriteFault,
        Err(IoFault::TooLong) => Outcome::TooLong,
    }
}

/// Debugs over the states of a run, of which no move was made. `code` is of a type that names the lifetime of the code, if that of
/// the history doesn't: so a caller knows that the allocator outlives it.
fn debug_runs<'c, A: Allocator + Copy + 'c, H: Runs<A, Code<'c, A>> + Drop, K, S: Source, P: Put>(
    alloc: A,
    history: H,
    _code: Option<&K>,
    loaded: &Loaded<'_>,
    limit: u64,
    source: &mut S,
    out: &mut P,
) -> Outcome
    requires reads { S.failures source.old < 2 ^ 64 - 1 }
    requires writes { P.stops out.old < 2 ^ 64 - 1 }
    requires before { position (H.timeline history) < 2 ^ 60 }
    requires limit { limit ≤ 4294967295 }
    ensures written { (s : Setup) (verdict : Verdict A) (start : State) → Begins s verdict start → IsLoaded loaded.now verdict → s.limit ≡ limit → s.moves_want_memory ≡ H.wants_memory
        → H.program history ≡ verdict.program → H.timeline history ≡ begun s.keeps start
        → Written A result s (S.remaining source.old) (S.remaining source.new) (P.written out.old) (P.written out.new) }
    ensures served { result ≢ Outcome.Refused }
    ensures untouched { IsUntouched result source.old source.new }
    ensures few { IfSome (S.remaining source.old) (λ script. TakesFew script (S.remaining source.new)) }
    ensures counted { CountsDebug result (S.failures source.old) (S.failures source.new) (P.stops out.old) (P.stops out.new) }
    ensures device { P.device out.new ≡ P.device out.old }
{
    match Session::new(alloc, history, limit) {
        Ok(session) => run(session, loaded, source, out),
        Err(_) => Outcome::Memory,
    }
}

/// Debugs over a history that has made no move.
fn debug_history<
    'c,
    A: Allocator + Copy + 'c,
    H: History<A, Machine<'c, A>> + Stepwise + Drop,
    S: Source,
    P: Put,
>(alloc: A, history: H, loaded: &Loaded<'_>, limit: u64, source: &mut S, out: &mut P) -> Outcome
    requires reads { S.failures source.old < 2 ^ 64 - 1 }
    requires writes { P.stops out.old < 2 ^ 64 - 1 }
    requires before { position (H.timeline history) < 2 ^ 60 }
    requires limit { limit ≤ 4294967295 }
    ensures written { (s : Setup) (verdict : Verdict A) (start : State) → Begins s verdict start → IsLoaded loaded.now verdict → s.limit ≡ limit → s.moves_want_memory ≡ true
        → H.program history ≡ verdict.program → H.timeline history ≡ begun s.keeps start
        → Written A result s (S.remaining source.old) (S.remaining source.new) (P.written out.old) (P.written out.new) }
    ensures served { result ≢ Outcome.Refused }
    ensures untouched { IsUntouched result source.old source.new }
    ensures few { IfSome (S.remaining source.old) (λ script. TakesFew script (S.remaining source.new)) }
    ensures counted { CountsDebug result (S.failures source.old) (S.failures source.new) (P.stops out.old) (P.stops out.new) }
    ensures device { P.device out.new ≡ P.device out.old }
{
    debug_runs(alloc, history, None::<&()>, loaded, limit, source, out)
}

/// Debugs from a machine at its start: over all its undo records, or over the newest where there is a bound.
fn debug_machine<'c, A: Allocator + Copy + 'c, S: Source, P: Put>(
    alloc: A,
    machine: Machine<'c, A>,
    loaded: &Loaded<'_>,
    request: &Request<'_>,
    source: &mut S,
    out: &mut P,
) -> Outcome
    requires reads { S.failures source.old < 2 ^ 64 - 1 }
    requires writes { P.stops out.old < 2 ^ 64 - 1 }
    requires limit { request.now.limit ≤ 4294967295 }
    requires bound { IfSome request.now.bound (λ n. (1 ≤ n) × (n ≤ 1000000)) }
    requires records { request.now.replay ≡ None }
    ensures written { (text : List ℕ) (verdict : Verdict A) → Begins (setup_of text request.now) verdict (state_of machine.entry)
        → IsLoaded loaded.now verdict → machine.entry.program ≡ verdict.program
        → Written A result (setup_of text request.now) (S.remaining source.old) (S.remaining source.new) (P.written out.old) (P.written out.new) }
    ensures served { result ≢ Outcome.Refused }
    ensures untouched { IsUntouched result source.old source.new }
    ensures few { IfSome (S.remaining source.old) (λ script. TakesFew script (S.remaining source.new)) }
    ensures counted { CountsDebug result (S.failures source.old) (S.failures source.new) (P.stops out.old) (P.stops out.new) }
    ensures device { P.device out.new ≡ P.device out.old }
{
    match request.bound {
        None => {
            let history = UndoLog::new(alloc, machine);
            debug_history(alloc, history, loaded, request.limit, source, out)
        }
        Some(bound) => match BoundedUndoLog::new(alloc, machine, bound) {
            Ok(history) => debug_history(alloc, history, loaded, request.limit, source, out),
            Err(_) => Outcome::Memory,
        },
    }
}

/// Debugs from a machine at its start that can be put back to where it was, over copies of its states. `_code` is as in `debug_runs`.
fn debug_restorable<
    'c,
    A: Allocator + Copy + 'c,
    M: Restorable<A, Code<'c, A>> + Drop,
    K,
    S: Source,
    P: Put,
>(
    alloc: A,
    machine: M,
    _code: Option<&K>,
    loaded: &Loaded<'_>,
    request: &Request<'_>,
    budget: u64,
    source: &mut S,
    out: &mut P,
) -> Outcome
    requires reads { S.failures source.old < 2 ^ 64 - 1 }
    requires writes { P.stops out.old < 2 ^ 64 - 1 }
    requires limit { request.now.limit ≤ 4294967295 }
    requires bound { request.now.bound ≡ None }
    requires replay { request.now.replay ≡ Some budget }
    ensures written { (text : List ℕ) (verdict : Verdict A) → Begins (setup_of text request.now) verdict (state_of (M.present machine))
        → IsLoaded loaded.now verdict → (M.present machine).program ≡ verdict.program
        → Written A result (setup_of text request.now) (S.remaining source.old) (S.remaining source.new) (P.written out.old) (P.written out.new) }
    ensures served { result ≢ Outcome.Refused }
    ensures untouched { IsUntouched result source.old source.new }
    ensures few { IfSome (S.remaining source.old) (λ script. TakesFew script (S.remaining source.new)) }
    ensures counted { CountsDebug result (S.failures source.old) (S.failures source.new) (P.stops out.old) (P.stops out.new) }
    ensures device { P.device out.new ≡ P.device out.old }
{
    let code: Option<&'c Code<'c, A>> = None;
    match Checkpoints::new(alloc, machine, budget as usize) {
        Ok(history) => debug_runs(alloc, history, code, loaded, request.limit, source, out),
        Err(_) => Outcome::Memory,
    }
}

/// Debugs from a machine at its start, over copies of its states. That what replays them is restorable is compared here, and that a
/// history of what is restorable has runs in `debug_restorable`: in one place each would be compared with all of the other.
fn debug_copies<
    'c,
    A: Allocator + Copy + 'c,
    M: CopiedMachine<A, FlatMachine<'c, A>> + Drop,
    S: Source,
    P: Put,
>(
    alloc: A,
    machine: M,
    loaded: &Loaded<'_>,
    request: &Request<'_>,
    budget: u64,
    source: &mut S,
    out: &mut P,
) -> Outcome
    requires reads { S.failures source.old < 2 ^ 64 - 1 }
    requires writes { P.stops out.old < 2 ^ 64 - 1 }
    requires limit { request.now.limit ≤ 4294967295 }
    requires bound { request.now.bound ≡ None }
    requires replay { request.now.replay ≡ Some budget }
    ensures written { (text : List ℕ) (verdict : Verdict A) → Begins (setup_of text request.now) verdict (state_of (M.present machine))
        → IsLoaded loaded.now verdict → (M.present machine).program ≡ verdict.program
        → Written A result (setup_of text request.now) (S.remaining source.old) (S.remaining source.new) (P.written out.old) (P.written out.new) }
    ensures served { result ≢ Outcome.Refused }
    ensures untouched { IsUntouched result source.old source.new }
    ensures few { IfSome (S.remaining source.old) (λ script. TakesFew script (S.remaining source.new)) }
    ensures counted { CountsDebug result (S.failures source.old) (S.failures source.new) (P.stops out.old) (P.stops out.new) }
    ensures device { P.device out.new ≡ P.device out.old }
{
    let code: Option<&'c Code<'c, A>> = None;
    let machine = Replaying { machine };
    debug_restorable(alloc, machine, code, loaded, request, budget, source, out)
}

/// Debugs a program whose code is flat.
fn debug_flat<'c, 't, A: Allocator + Copy + 'c, S: Source, P: Put>(
    alloc: A,
    code: &'c FlatCode<'t, A>,
    loaded: &Loaded<'_>,
    request: &Request<'_>,
    budget: u64,
    source: &mut S,
    out: &mut P,
) -> Outcome
    requires reads { S.failures source.old < 2 ^ 64 - 1 }
    requires writes { P.stops out.old < 2 ^ 64 - 1 }
    requires limit { request.now.limit ≤ 4294967295 }
    requires bound { request.now.bound ≡ None }
    requires replay { request.now.replay ≡ Some budget }
    ensures written { (text : List ℕ) (verdict : Verdict A) → Accepts text verdict → IsLoaded loaded.now verdict → code.entry.now.program ≡ verdict.program
        → Written A result (setup_of text request.now) (S.remaining source.old) (S.remaining source.new) (P.written out.old) (P.written out.new) }
    ensures only_started { (start : State) → start_of code.entry.now.program request.now.func.now request.now.args.now ≡ Ok start → result ≢ Outcome.Refused }
    ensures only_refused { (fault : StartFault) → start_of code.entry.now.program request.now.func.now request.now.args.now ≡ Err fault → IsNoSession result }
    ensures untouched { IsUntouched result source.old source.new }
    ensures few { IfSome (S.remaining source.old) (λ script. TakesFew script (S.remaining source.new)) }
    ensures counted { CountsDebug result (S.failures source.old) (S.failures source.new) (P.stops out.old) (P.stops out.new) }
    ensures device { P.device out.new ≡ P.device out.old }
{
    match FlatMachine::start(alloc, code, request.func, request.args) {
        Ok(machine) => match RestorableMachine::new(alloc, machine) {
            Ok(machine) => debug_copies(alloc, machine, loaded, request, budget, source, out),
            Err(_) => Outcome::Memory,
        },
        Err(error) => refuse(out, start_error(error)),
    }
}

/// Debugs a program that is numbered, over undo records.
fn debug_records<'c, 't, A: Allocator + Copy + 'c, S: Source, P: Put>(
    alloc: A,
    code: &'c Code<'t, A>,
    loaded: &Loaded<'_>,
    request: &Request<'_>,
    source: &mut S,
    out: &mut P,
) -> Outcome
    requires reads { S.failures source.old < 2 ^ 64 - 1 }
    requires writes { P.stops out.old < 2 ^ 64 - 1 }
    requires limit { request.now.limit ≤ 4294967295 }
    requires bound { IfSome request.now.bound (λ n. (1 ≤ n) × (n ≤ 1000000)) }
    requires records { request.now.replay ≡ None }
    ensures written { (text : List ℕ) (verdict : Verdict A) → Accepts text verdict → IsLoaded loaded.now verdict → code.entry.now ≡ verdict.program
        → Written A result (setup_of text request.now) (S.remaining source.old) (S.remaining source.new) (P.written out.old) (P.written out.new) }
    ensures only_started { (start : State) → start_of code.entry.now request.now.func.now request.now.args.now ≡ Ok start → result ≢ Outcome.Refused }
    ensures only_refused { (fault : StartFault) → start_of code.entry.now request.now.func.now request.now.args.now ≡ Err fault → IsNoSession result }
    ensures untouched { IsUntouched result source.old source.new }
    ensures few { IfSome (S.remaining source.old) (λ script. TakesFew script (S.remaining source.new)) }
    ensures counted { CountsDebug result (S.failures source.old) (S.failures source.new) (P.stops out.old) (P.stops out.new) }
    ensures device { P.device out.new ≡ P.device out.old }
{
    match Machine::start(alloc, code, request.func, request.args) {
        Ok(machine) => debug_machine(alloc, machine, loaded, request, source, out),
        Err(error) => refuse(out, start_error(error)),
    }
}

/// Debugs a program that is numbered.
fn debug_code<'c, 't, A: Allocator + Copy + 'c, S: Source, P: Put>(
    alloc: A,
    code: &'c Code<'t, A>,
    loaded: &Loaded<'_>,
    request: &Request<'_>,
    source: &mut S,
    out: &mut P,
) -> Outcome
    requires reads { S.failures source.old < 2 ^ 64 - 1 }
    requires writes { P.stops out.old < 2 ^ 64 - 1 }
    requires limit { request.now.limit ≤ 4294967295 }
    requires bound { IfSome request.now.bound (λ n. (1 ≤ n) × (n ≤ 1000000)) }
    requires replay { IfSome request.now.replay (λ _. request.now.bound ≡ None) }
    ensures written { (text : List ℕ) (verdict : Verdict A) → Accepts text verdict → IsLoaded loaded.now verdict → code.entry.now ≡ verdict.program
        → Written A result (setup_of text request.now) (S.remaining source.old) (S.remaining source.new) (P.written out.old) (P.written out.new) }
    ensures only_started { (start : State) → start_of code.entry.now request.now.func.now request.now.args.now ≡ Ok start → result ≢ Outcome.Refused }
    ensures only_refused { (fault : StartFault) → start_of code.entry.now request.now.func.now request.now.args.now ≡ Err fault → IsNoSession result }
    ensures untouched { IsUntouched result source.old source.new }
    ensures few { IfSome (S.remaining source.old) (λ script. TakesFew script (S.remaining source.new)) }
    ensures counted { CountsDebug result (S.failures source.old) (S.failures source.new) (P.stops out.old) (P.stops out.new) }
    ensures device { P.device out.new ≡ P.device out.old }
{
    let Some(budget) = request.replay else {
        return debug_records(alloc, code, loaded, request, source, out);
    };
    match flatten(alloc, code) {
        Ok(flat) => debug_flat(alloc, &flat, loaded, request, budget, source, out),
        Err(_) => Outcome::Memory,
    }
}

/// Debugs a program that is laid out.
fn debug_laid_out<'s, 't, 'i, A: Allocator + Copy, S: Source, P: Put>(
    alloc: A,
    keys: RandomState,
    checked: &'s Checked<'t, A>,
    image: &'s Image<'i, A>,
    request: &Request<'_>,
    source: &mut S,
    out: &mut P,
) -> Outcome
    requires reads { S.failures source.old < 2 ^ 64 - 1 }
    requires writes { P.stops out.old < 2 ^ 64 - 1 }
    requires limit { request.now.limit ≤ 4294967295 }
    requires bound { IfSome request.now.bound (λ n. (1 ≤ n) × (n ≤ 1000000)) }
    requires replay { IfSome request.now.replay (λ _. request.now.bound ≡ None) }
    requires image { image.now ≡ checked.now.program }
    requires lies { fault_of checked.now.program ≡ None }
    ensures written { (text : List ℕ) → Checks text checked.now
        → Written A result (setup_of text request.now) (S.remaining source.old) (S.remaining source.new) (P.written out.old) (P.written out.new) }
    ensures only_started { (start : State) → start_of checked.now.program request.now.func.now request.now.args.now ≡ Ok start → result ≢ Outcome.Refused }
    ensures only_refused { (fault : StartFault) → start_of checked.now.program request.now.func.now request.now.args.now ≡ Err fault → IsNoSession result }
    ensures untouched { IsUntouched result source.old source.new }
    ensures few { IfSome (S.remaining source.old) (λ script. TakesFew script (S.remaining source.new)) }
    ensures counted { CountsDebug result (S.failures source.old) (S.failures source.new) (P.stops out.old) (P.stops out.new) }
    ensures device { P.device out.new ≡ P.device out.old }
{
    let code = match number(alloc, keys, checked, image) {
        Ok(code) => code,
        Err(_) => return Outcome::Memory,
    };
    let loaded = Loaded::new(checked, image);
    debug_code(alloc, &code, &loaded, request, source, out)
}

/// Debugs a program that is checked.
fn debug_checked<'a, A: Allocator + Copy, S: Source, P: Put>(
    alloc: A,
    keys: RandomState,
    checked: &Checked<'a, A>,
    request: &Request<'_>,
    source: &mut S,
    out: &mut P,
) -> Outcome
    requires reads { S.failures source.old < 2 ^ 64 - 1 }
    requires writes { P.stops out.old < 2 ^ 64 - 1 }
    requires limit { request.now.limit ≤ 4294967295 }
    requires bound { IfSome request.now.bound (λ n. (1 ≤ n) × (n ≤ 1000000)) }
    requires replay { IfSome request.now.replay (λ _. request.now.bound ≡ None) }
    ensures written { (text : List ℕ) → Checks text checked.now
        → Written A result (setup_of text request.now) (S.remaining source.old) (S.remaining source.new) (P.written out.old) (P.written out.new) }
    ensures only_started { (start : State) → fault_of checked.now.program ≡ None
        → start_of checked.now.program request.now.func.now request.now.args.now ≡ Ok start → result ≢ Outcome.Refused }
    ensures only_refused { (fault : StartFault) → start_of checked.now.program request.now.func.now request.now.args.now ≡ Err fault → IsNoSession result }
    ensures only_laid_out { (code : LayoutCode) (line : ℕ) → fault_of checked.now.program ≡ Some (code, line) → IsNoSession result }
    ensures untouched { IsUntouched result source.old source.new }
    ensures few { IfSome (S.remaining source.old) (λ script. TakesFew script (S.remaining source.new)) }
    ensures counted { CountsDebug result (S.failures source.old) (S.failures source.new) (P.stops out.old) (P.stops out.new) }
    ensures device { P.device out.new ≡ P.device out.old }
{
    match layout(alloc, keys, checked) {
        Ok(image) => debug_laid_out(alloc, keys, checked, &image, request, source, out),
        Err(error) => refuse(out, LoadError::from(error)),
    }
}

/// Loads a program and answers a script.
fn debug_into<A: Allocator + Copy, S: Source, P: Put>(
    alloc: A,
    keys: RandomState,
    text: &[u8],
    request: &Request<'_>,
    source: &mut S,
    out: &mut P,
) -> Outcome
    requires reads { S.failures source.old < 2 ^ 64 - 1 }
    requires writes { P.stops out.old < 2 ^ 64 - 1 }
    requires limit { request.now.limit ≤ 4294967295 }
    requires bound { IfSome request.now.bound (λ n. (1 ≤ n) × (n ≤ 1000000)) }
    requires replay { IfSome request.now.replay (λ _. request.now.bound ≡ None) }
    ensures written { Written A result (setup_of text.now request.now) (S.remaining source.old) (S.remaining source.new) (P.written out.old) (P.written out.new) }
    ensures only_begun { (verdict : Verdict A) (start : State) → Begins (setup_of text.now request.now) verdict start → result ≢ Outcome.Refused }
    ensures only_refused { (refusal : Refusal) → Refuses A text.now request.now.func.now request.now.args.now refusal → IsNoSession result }
    ensures untouched { IsUntouched result source.old source.new }
    ensures few { IfSome (S.remaining source.old) (λ script. TakesFew script (S.remaining source.new)) }
    ensures counted { CountsDebug result (S.failures source.old) (S.failures source.new) (P.stops out.old) (P.stops out.new) }
    ensures device { P.device out.new ≡ P.device out.old }
{
    match check_text(alloc, keys, text) {
        Ok(checked) => debug_checked(alloc, keys, &checked, request, source, out),
        Err(error) => refuse(out, error),
    }
}

/// Debugs a program by a script: from the bytes of both to the bytes of the transcript.
///
/// `keys` are those of the tables by name: a text's author must not know them, so that no names are picked that fall
/// together. They change nothing that is written. `text` is a program in QBE IL, `entry` the name of the function that is
/// run, without its sigil, and `args` are its arguments. `limit` is the most moves that one `continue` or `reverse` makes,
/// 4,294,967,295 at the most. Where `history` is a number, only so many of the latest moves can be undone, 1 to
/// 1,000,000. The script is read from `source` line by line, and each answer is written to `sink` before the next line is
/// looked at.
///
/// Loading takes memory: where it is wanting the answer is `Memory`, and neither device was touched. Where a command is
/// refused memory, that is an answer of the transcript, and the session goes on.
pub fn debug<A: Allocator + Copy, S: Source, W: Sink>(
    alloc: A,
    keys: RandomState,
    text: &[u8],
    entry: &[u8],
    args: &[u64],
    limit: u64,
    history: Option<u64>,
    source: &mut S,
    sink: &mut W,
) -> Outcome
    requires reads { S.failures source.old < 2 ^ 64 - 1 }
    requires writes { W.failures sink.old < 2 ^ 64 - 1 }
    requires limit { limit ≤ 4294967295 }
    requires history { IfSome history (λ n. (1 ≤ n) × (n ≤ 1000000)) }

    // If all bytes of the source are known, what was written is the transcript, up to what stopped it.
    ensures written { Written A result (record { text = text.now; entry = entry.now; args = args.now; limit = limit; keeps = history; moves_want_memory = true })
        (S.remaining source.old) (S.remaining source.new) (W.contents sink.old) (W.contents sink.new) }

    // An accepted text is not refused, and a refused one has no session.
    ensures only_begun { (verdict : Verdict A) (start : State)
        → Begins (record { text = text.now; entry = entry.now; args = args.now; limit = limit; keeps = history; moves_want_memory = true }) verdict start → result ≢ Outcome.Refused }
    ensures only_refused { (refusal : Refusal) → Refuses A text.now entry.now args.now refusal → IsNoSession result }

    // Without a session the source is as it was; else at most 2^24 + 1 bytes are taken of it.
    ensures untouched { IsUntouched result source.old source.new }
    ensures few { IfSome (S.remaining source.old) (λ script. TakesFew script (S.remaining source.new)) }

    // A fault is answered exactly where a device's faults rose, by the one call that failed.
    ensures read_fault { (result ≡ Outcome.ReadFault) ↔ (S.failures source.old < S.failures source.new) }
    ensures write_fault { (result ≡ Outcome.WriteFault) ↔ (W.failures sink.old < W.failures sink.new) }
    ensures counted { CountsDebug result (S.failures source.old) (S.failures source.new) (W.failures sink.old) (W.failures sink.new) }
{
    let request = Request {
        func: entry,
        args,
        limit,
        bound: history,
        replay: None,
    };
    let mut out = Outlet { sink };
    let outcome = debug_into(alloc, keys, text, &request, source, &mut out);
    let Outlet { sink: _ } = out;
    outcome
}

/// As `debug`, for runs that are too long for a record of each move: going back runs forward again from a copy of an earlier
/// state. Nothing is forgotten, and no transcript differs. `budget` is how many bytes the copies may take, which is kept as
/// long as more than the first is there; with less it goes slower.
///
/// Loading takes memory, and more than `debug` does, since all that a run may want is taken at its start: the answer is
/// `Memory` then. No move is ever refused memory, so no answer but that to a poke says that it ran out.
pub fn debug_replaying<A: Allocator + Copy, S: Source, W: Sink>(
    alloc: A,
    keys: RandomState,
    text: &[u8],
    entry: &[u8],
    args: &[u64],
    limit: u64,
    budget: u64,
    source: &mut S,
    sink: &mut W,
) -> Outcome
    requires reads { S.failures source.old < 2 ^ 64 - 1 }
    requires writes { W.failures sink.old < 2 ^ 64 - 1 }
    requires limit { limit ≤ 4294967295 }

    // If all bytes of the source are known, what was written is the transcript, up to what stopped it.
    ensures written { Written A result (record { text = text.now; entry = entry.now; args = args.now; limit = limit; keeps = None; moves_want_memory = false })
        (S.remaining source.old) (S.remaining source.new) (W.contents sink.old) (W.contents sink.new) }

    // An accepted text is not refused, and a refused one has no session.
    ensures only_begun { (verdict : Verdict A) (start : State)
        → Begins (record { text = text.now; entry = entry.now; args = args.now; limit = limit; keeps = None; moves_want_memory = false }) verdict start → result ≢ Outcome.Refused }
    ensures only_refused { (refusal : Refusal) → Refuses A text.now entry.now args.now refusal → IsNoSession result }

    // Without a session the source is as it was; else at most 2^24 + 1 bytes are taken of it.
    ensures untouched { IsUntouched result source.old source.new }
    ensures few { IfSome (S.remaining source.old) (λ script. TakesFew script (S.remaining source.new)) }

    // A fault is answered exactly where a device's faults rose, by the one call that failed.
    ensures read_fault { (result ≡ Outcome.ReadFault) ↔ (S.failures source.old < S.failures source.new) }
    ensures write_fault { (result ≡ Outcome.WriteFault) ↔ (W.failures sink.old < W.failures sink.new) }
    ensures counted { CountsDebug result (S.failures source.old) (S.failures source.new) (W.failures sink.old) (W.failures sink.new) }
{
    let request = Request {
        func: entry,
        args,
        limit,
        bound: None,
        replay: Some(budget),
    };
    let mut out = Outlet { sink };
    let outcome = debug_into(alloc, keys, text, &request, source, &mut out);
    let Outlet { sink: _ } = out;
    outcome
}
