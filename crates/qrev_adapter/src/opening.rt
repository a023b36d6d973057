//! The opening of a session: from the arguments of a launch to a debuggee.

ghost use Rattle.std.specs.Prelude.{◌≡◌, ◌≤◌, None, Some, IfSome};
ghost use Rattle.qil_semantics.specs.qil_layout.Layout.{fault_of};
ghost use Rattle.qil_loading.specs.Load.{Checks};
ghost use Rattle.qrev_recorder.specs.Record.{setup_of, IsBeginning};
ghost use Rattle.qrev_notices.specs.Conversation.{asked_by};
ghost use Rattle.qrev_notices.specs.Reading.{heard, Serves};
ghost use Rattle.qrev_sessions.specs.Copied.{copied_state};
ghost use Rattle.qrev_adapter.specs.Opened.{HasStarted, IsAccepted};

use crate::session::serve_session;
use qil_code::Code;
use qil_flat::{FlatCode, flatten};
use qil_flatmachine::{FlatMachine, RestorableMachine};
use qil_layout_builder::layout;
use qil_loading::{LoadError, Loaded, check_text};
use qil_machine::Machine;
use qil_resolution::number;
use qil_rules::Checked;
use qil_semantics::Image;
use qil_streams::{Sink, Source};
use qil_undo_log::{BoundedUndoLog, UndoLog};
use qrev_map::Names;
use qrev_notices::{
    Closed, Debuggee, Ended, Files, Line, RecordFault, read_names, read_sources, record_fault,
    record_name, refuse_load, refuse_map, refuse_record, refuse_start, refuse_unread, tell_open,
};
use qrev_protocol::Request;
use qrev_recorder::{HasMachine, Opening, Recorder};
use qrev_requests::Launch;
use qrev_sessions::{BoundedSession, CopyingSession, ShownOver, WholeSession};
use qrev_views::Shown;
use std::alloc::{AllocError, Allocator};
use std::hash::RandomState;

/// Serves a session that has made no move. `_code` is of a type that names the lifetime of the code, if that of the session doesn't.
fn open_session<
    'c,
    A: Allocator + Copy + 'c,
    L: HasMachine<A, Code<'c, A>> + Drop,
    S: Source,
    W: Sink,
    F: Files<A>,
    K,
>(
    live: L,
    _code: Option<&K>,
    opening: Opening<'c>,
    loaded: &Loaded<'_>,
    launch: &'c Launch<A>,
    request: Request<'_>,
    files: &F,
    line: &mut Line<A, S, W>,
) -> Result<Closed<A>, Ended>
    requires limit { opening.limit ≤ 4294967295 }
    requires begins { IsBeginning (setup_of opening) loaded.now (L.state live) }
    ensures { Serves result (asked_by request.entry) (heard S.remaining W.contents line.old) (heard S.remaining W.contents line.new) }
{
    let alloc = line.alloc;
    let recorder = match Recorder::new(alloc, opening, loaded, live) {
        Ok(recorder) => recorder,
        Err(_) => {
            request.end();
            return Err(Ended::OutOfMemory);
        }
    };
    tell_open(alloc, &mut line.port, request)?;
    let debuggee = Debuggee {
        alloc,
        recorder,
        shown: Shown {
            path: launch.program.as_str(),
            numbering: line.client.numbering,
        },
        source_map: line.source_map.take(),
        output: Vec::new(alloc),
        stops: Vec::new(alloc),
        rules: Vec::new(alloc),
        hit: Vec::new(alloc),
        names: std::mem::replace(&mut line.names, Names::none(alloc)),
        client: line.client,
        record: line.record.take(),
        asked_path: None,
        real_path: files.real_path(launch.program.as_str()),
    };
    line.sessions = line.sessions.saturating_add(1);
    serve_session(debuggee, launch, files, line)
}

/// Serves from a machine at its start, over all its undo records.
fn open_whole<'c, A: Allocator + Copy + 'c, S: Source, W: Sink, F: Files<A>>(
    machine: Machine<'c, A>,
    opening: Opening<'c>,
    loaded: &Loaded<'_>,
    launch: &'c Launch<A>,
    request: Request<'_>,
    files: &F,
    line: &mut Line<A, S, W>,
) -> Result<Closed<A>, Ended>
    requires limit { opening.limit ≤ 4294967295 }
    requires bound { opening.bound ≡ None }
    requires records { opening.budget ≡ None }
    requires begins { HasStarted (setup_of opening) loaded.now machine }
    ensures { Serves result (asked_by request.entry) (heard S.remaining W.contents line.old) (heard S.remaining W.contents line.new) }
{
    let alloc = line.alloc;
    let live = match WholeSession::new(alloc, UndoLog::new(alloc, machine), opening.limit) {
        Ok(live) => live,
        Err(_) => {
            request.end();
            return Err(Ended::OutOfMemory);
        }
    };
    let code: Option<&'c Code<'c, A>> = None;
    open_session(live, code, opening, loaded, launch, request, files, line)
}

/// Serves from a machine at its start, over the newest of its undo records.
fn open_bounded<'c, A: Allocator + Copy + 'c, S: Source, W: Sink, F: Files<A>>(
    machine: Machine<'c, A>,
    bound: u64,
    opening: Opening<'c>,
    loaded: &Loaded<'_>,
    launch: &'c Launch<A>,
    request: Request<'_>,
    files: &F,
    line: &mut Line<A, S, W>,
) -> Result<Closed<A>, Ended>
    requires limit { opening.limit ≤ 4294967295 }
    requires bound { opening.bound ≡ Some bound }
    requires range { (1 ≤ bound) × (bound ≤ 1000000) }
    requires records { opening.budget ≡ None }
    requires begins { HasStarted (setup_of opening) loaded.now machine }
    ensures { Serves result (asked_by request.entry) (heard S.remaining W.contents line.old) (heard S.remaining W.contents line.new) }
{
    let alloc = line.alloc;
    let Ok(history) = BoundedUndoLog::new(alloc, machine, bound) else {
        request.end();
        return Err(Ended::OutOfMemory);
    };
    let live = match BoundedSession::new(alloc, history, opening.limit) {
        Ok(live) => live,
        Err(_) => {
            request.end();
            return Err(Ended::OutOfMemory);
        }
    };
    let code: Option<&'c Code<'c, A>> = None;
    open_session(live, code, opening, loaded, launch, request, files, line)
}

/// Serves from a machine at its start: over all its undo records, or over the newest if there is a bound.
fn open_machine<'c, A: Allocator + Copy + 'c, S: Source, W: Sink, F: Files<A>>(
    machine: Machine<'c, A>,
    opening: Opening<'c>,
    loaded: &Loaded<'_>,
    launch: &'c Launch<A>,
    request: Request<'_>,
    files: &F,
    line: &mut Line<A, S, W>,
) -> Result<Closed<A>, Ended>
    requires limit { opening.limit ≤ 4294967295 }
    requires bound { IfSome opening.bound (λ n. (1 ≤ n) × (n ≤ 1000000)) }
    requires records { opening.budget ≡ None }
    requires begins { HasStarted (setup_of opening) loaded.now machine }
    ensures { Serves result (asked_by request.entry) (heard S.remaining W.contents line.old) (heard S.remaining W.contents line.new) }
{
    let Some(bound) = opening.bound else {
        return open_whole(machine, opening, loaded, launch, request, files, line);
    };
    open_bounded(
        machine, bound, opening, loaded, launch, request, files, line,
    )
}

/// Serves a program that is numbered, over undo records.
fn open_records<'c, 't, A: Allocator + Copy + 'c, S: Source, W: Sink, F: Files<A>>(
    code: &'c Code<'t, A>,
    opening: Opening<'c>,
    loaded: &Loaded<'_>,
    launch: &'c Launch<A>,
    request: Request<'_>,
    files: &F,
    line: &mut Line<A, S, W>,
) -> Result<Closed<A>, Ended>
    requires limit { opening.limit ≤ 4294967295 }
    requires bound { IfSome opening.bound (λ n. (1 ≤ n) × (n ≤ 1000000)) }
    requires records { opening.budget ≡ None }
    requires accepted { IsAccepted opening.text.now loaded.now code.now }
    ensures { Serves result (asked_by request.entry) (heard S.remaining W.contents line.old) (heard S.remaining W.contents line.new) }
{
    let machine = match Machine::start(line.alloc, code, opening.entry, opening.args) {
        Ok(machine) => machine,
        Err(error) => return refuse_start(error, launch, request, line),
    };
    open_machine(machine, opening, loaded, launch, request, files, line)
}

/// Serves a session over copies of a machine's states. It is generic in the machine that keeps them: what becomes known at a call is
/// compared with all that its bounds promise.
fn open_copying<
    'c,
    A: Allocator + Copy + 'c,
    M: ShownOver<A, FlatMachine<'c, A>> + Drop,
    S: Source,
    W: Sink,
    F: Files<A>,
    K,
>(
    live: CopyingSession<A, M>,
    _code: Option<&K>,
    opening: Opening<'c>,
    loaded: &Loaded<'_>,
    launch: &'c Launch<A>,
    request: Request<'_>,
    files: &F,
    line: &mut Line<A, S, W>,
) -> Result<Closed<A>, Ended>
    requires limit { opening.limit ≤ 4294967295 }
    requires begins { IsBeginning (setup_of opening) loaded.now (copied_state M.present M.kept live.session) }
    ensures { Serves result (asked_by request.entry) (heard S.remaining W.contents line.old) (heard S.remaining W.contents line.new) }
{
    let code: Option<&'c Code<'c, A>> = None;
    open_session(live, code, opening, loaded, launch, request, files, line)
}

/// Serves over copies of a machine's states, from its start.
fn open_copies<'c, A: Allocator + Copy + 'c, S: Source, W: Sink, F: Files<A>>(
    machine: RestorableMachine<'c, A>,
    budget: u64,
    opening: Opening<'c>,
    loaded: &Loaded<'_>,
    launch: &'c Launch<A>,
    request: Request<'_>,
    files: &F,
    line: &mut Line<A, S, W>,
) -> Result<Closed<A>, Ended>
    requires limit { opening.limit ≤ 4294967295 }
    requires bound { opening.bound ≡ None }
    requires copies { opening.budget ≡ Some budget }
    requires begins { HasStarted (setup_of opening) loaded.now machine.present.whole }
    ensures { Serves result (asked_by request.entry) (heard S.remaining W.contents line.old) (heard S.remaining W.contents line.new) }
{
    let live = match CopyingSession::new(line.alloc, machine, budget, opening.limit) {
        Ok(live) => live,
        Err(_) => {
            request.end();
            return Err(Ended::OutOfMemory);
        }
    };
    let code: Option<&'c Code<'c, A>> = None;
    open_copying(live, code, opening, loaded, launch, request, files, line)
}

/// Serves from a flat machine at its start, over copies of its states.
fn open_restorable<'c, A: Allocator + Copy + 'c, S: Source, W: Sink, F: Files<A>>(
    machine: FlatMachine<'c, A>,
    budget: u64,
    opening: Opening<'c>,
    loaded: &Loaded<'_>,
    launch: &'c Launch<A>,
    request: Request<'_>,
    files: &F,
    line: &mut Line<A, S, W>,
) -> Result<Closed<A>, Ended>
    requires limit { opening.limit ≤ 4294967295 }
    requires bound { opening.bound ≡ None }
    requires copies { opening.budget ≡ Some budget }
    requires begins { HasStarted (setup_of opening) loaded.now machine.whole }
    ensures { Serves result (asked_by request.entry) (heard S.remaining W.contents line.old) (heard S.remaining W.contents line.new) }
{
    let machine = match RestorableMachine::new(line.alloc, machine) {
        Ok(machine) => machine,
        Err(_) => {
            request.end();
            return Err(Ended::OutOfMemory);
        }
    };
    open_copies(
        machine, budget, opening, loaded, launch, request, files, line,
    )
}

/// Serves a program whose code is flat, over copies of states.
fn open_flat<'c, 't, A: Allocator + Copy + 'c, S: Source, W: Sink, F: Files<A>>(
    code: &'c FlatCode<'t, A>,
    budget: u64,
    opening: Opening<'c>,
    loaded: &Loaded<'_>,
    launch: &'c Launch<A>,
    request: Request<'_>,
    files: &F,
    line: &mut Line<A, S, W>,
) -> Result<Closed<A>, Ended>
    requires limit { opening.limit ≤ 4294967295 }
    requires bound { opening.bound ≡ None }
    requires copies { opening.budget ≡ Some budget }
    requires accepted { IsAccepted opening.text.now loaded.now code.now.program }
    ensures { Serves result (asked_by request.entry) (heard S.remaining W.contents line.old) (heard S.remaining W.contents line.new) }
{
    let machine = match FlatMachine::start(line.alloc, code, opening.entry, opening.args) {
        Ok(machine) => machine,
        Err(error) => return refuse_start(error, launch, request, line),
    };
    open_restorable(
        machine, budget, opening, loaded, launch, request, files, line,
    )
}

/// Serves a program that is numbered.
fn open_code<'c, 't, A: Allocator + Copy + 'c, S: Source, W: Sink, F: Files<A>>(
    code: &'c Code<'t, A>,
    opening: Opening<'c>,
    loaded: &Loaded<'_>,
    launch: &'c Launch<A>,
    request: Request<'_>,
    files: &F,
    line: &mut Line<A, S, W>,
) -> Result<Closed<A>, Ended>
    requires limit { opening.limit ≤ 4294967295 }
    requires bound { IfSome opening.bound (λ n. (1 ≤ n) × (n ≤ 1000000)) }
    requires alone { IfSome opening.budget (λ _. opening.bound ≡ None) }
    requires accepted { IsAccepted opening.text.now loaded.now code.now }
    ensures { Serves result (asked_by request.entry) (heard S.remaining W.contents line.old) (heard S.remaining W.contents line.new) }
{
    let Some(budget) = opening.budget else {
        return open_records(code, opening, loaded, launch, request, files, line);
    };
    let flat = match flatten(line.alloc, code) {
        Ok(flat) => flat,
        Err(_) => {
            request.end();
            return Err(Ended::OutOfMemory);
        }
    };
    open_flat(&flat, budget, opening, loaded, launch, request, files, line)
}

/// What a session is opened with.
fn opening_of<'l, A: Allocator>(text: &'l [u8], launch: &'l Launch<A>) -> Opening<'l>
    ensures text { result.text.now ≡ text.now }
    ensures limit { result.limit ≤ 4294967295 }
    ensures bound { IfSome result.bound (λ n. (1 ≤ n) × (n ≤ 1000000)) }
    ensures alone { IfSome result.budget (λ _. result.bound ≡ None) }
{
    Opening {
        text,
        entry: launch.entry.as_str().as_bytes(),
        args: launch.args.as_slice(),
        limit: launch.limit,
        bound: launch.kept.bound,
        budget: launch.kept.budget,
    }
}

/// Serves a program that is laid out.
fn open_laid_out<'c, 't, 'i, 'l, A: Allocator + Copy, S: Source, W: Sink, F: Files<A>>(
    checked: &'c Checked<'t, A>,
    image: &'c Image<'i, A>,
    keys: RandomState,
    opening: Opening<'l>,
    launch: &'l Launch<A>,
    request: Request<'_>,
    files: &F,
    line: &mut Line<A, S, W>,
) -> Result<Closed<A>, Ended>
    requires limit { opening.limit ≤ 4294967295 }
    requires bound { IfSome opening.bound (λ n. (1 ≤ n) × (n ≤ 1000000)) }
    requires alone { IfSome opening.budget (λ _. opening.bound ≡ None) }
    requires checks { Checks opening.text.now checked.now }
    requires image { image.now ≡ checked.now.program }
    requires lies { fault_of checked.now.program ≡ None }
    ensures { Serves result (asked_by request.entry) (heard S.remaining W.contents line.old) (heard S.remaining W.contents line.new) }
{
    let code = match number(line.alloc, keys, checked, image) {
        Ok(code) => code,
        Err(_) => {
            request.end();
            return Err(Ended::OutOfMemory);
        }
    };
    let loaded = Loaded::new(checked, image);
    open_code(&code, opening, &loaded, launch, request, files, line)
}

/// Serves a program that is checked.
fn open_checked<'a, 'l, A: Allocator + Copy, S: Source, W: Sink, F: Files<A>>(
    checked: &Checked<'a, A>,
    keys: RandomState,
    opening: Opening<'l>,
    launch: &'l Launch<A>,
    request: Request<'_>,
    files: &F,
    line: &mut Line<A, S, W>,
) -> Result<Closed<A>, Ended>
    requires limit { opening.limit ≤ 4294967295 }
    requires bound { IfSome opening.bound (λ n. (1 ≤ n) × (n ≤ 1000000)) }
    requires alone { IfSome opening.budget (λ _. opening.bound ≡ None) }
    requires checks { Checks opening.text.now checked.now }
    ensures { Serves result (asked_by request.entry) (heard S.remaining W.contents line.old) (heard S.remaining W.contents line.new) }
{
    match layout(line.alloc, keys, checked) {
        Ok(image) => open_laid_out(
            &*checked, &image, keys, opening, launch, request, files, line,
        ),
        Err(error) => refuse_load(LoadError::from(error), launch, request, line),
    }
}

/// Loads a text and serves it, until the session is closed.
fn open_text<'l, A: Allocator + Copy, S: Source, W: Sink, F: Files<A>>(
    keys: RandomState,
    opening: Opening<'l>,
    launch: &'l Launch<A>,
    request: Request<'_>,
    files: &F,
    line: &mut Line<A, S, W>,
) -> Result<Closed<A>, Ended>
    requires limit { opening.limit ≤ 4294967295 }
    requires bound { IfSome opening.bound (λ n. (1 ≤ n) × (n ≤ 1000000)) }
    requires alone { IfSome opening.budget (λ _. opening.bound ≡ None) }
    ensures { Serves result (asked_by request.entry) (heard S.remaining W.contents line.old) (heard S.remaining W.contents line.new) }
{
    let checked = match check_text(line.alloc, keys, opening.text) {
        Ok(checked) => checked,
        Err(error) => return refuse_load(error, launch, request, line),
    };
    open_checked(&checked, keys, opening, launch, request, files, line)
}

/// Loads a program and serves it, until the session is closed.
fn open<A: Allocator + Copy, S: Source, W: Sink, F: Files<A>>(
    keys: RandomState,
    launch: &Launch<A>,
    request: Request<'_>,
    files: &F,
    line: &mut Line<A, S, W>,
) -> Result<Closed<A>, Ended>
    ensures { Serves result (asked_by request.entry) (heard S.remaining W.contents line.old) (heard S.remaining W.contents line.new) }
{
    let Some(text) = files.read(launch.program.as_str()) else {
        return refuse_unread(launch, request, line);
    };
    let opening = opening_of(text.as_slice(), launch);
    open_text(keys, opening, launch, request, files, line)
}

/// Loads a program and serves it, if its session can be recorded where a launch asks for it.
fn open_recorded<A: Allocator + Copy, S: Source, W: Sink, F: Files<A>>(
    keys: RandomState,
    launch: &Launch<A>,
    request: Request<'_>,
    files: &F,
    line: &mut Line<A, S, W>,
) -> Result<Closed<A>, Ended>
    ensures { Serves result (asked_by request.entry) (heard S.remaining W.contents line.old) (heard S.remaining W.contents line.new) }
{
    let fault = match fault_of_record(line.alloc, files, line.record.as_ref()) {
        Ok(fault) => fault,
        Err(_) => {
            request.end();
            return Err(Ended::OutOfMemory);
        }
    };
    match fault {
        Some(fault) => refuse_record(fault, request, line),
        None => open(keys, launch, request, files, line),
    }
}

/// Why the session can't be recorded in a file, if a record was asked for and can't be written.
fn fault_of_record<A: Allocator + Copy, F: Files<A>>(
    alloc: A,
    files: &F,
    record: Option<&String<A>>,
) -> Result<Option<RecordFault>, AllocError> {
    match record {
        Some(record) => record_fault(alloc, files, record.as_str()),
        None => Ok(None),
    }
}

/// Reads what the names of a text stand for and where it is recorded, loads its program and serves it, until the session is closed.
fn open_named<A: Allocator + Copy, S: Source, W: Sink, F: Files<A>>(
    keys: RandomState,
    launch: &Launch<A>,
    request: Request<'_>,
    files: &F,
    line: &mut Line<A, S, W>,
) -> Result<Closed<A>, Ended>
    ensures { Serves result (asked_by request.entry) (heard S.remaining W.contents line.old) (heard S.remaining W.contents line.new) }
{
    let names = match read_names(line.alloc, launch, files) {
        Ok(names) => names,
        Err(_) => {
            request.end();
            return Err(Ended::OutOfMemory);
        }
    };
    let record = match record_name(line.alloc, launch, line.sessions) {
        Ok(record) => record,
        Err(_) => {
            request.end();
            return Err(Ended::OutOfMemory);
        }
    };
    line.names = names;
    line.record = record;
    open_recorded(keys, launch, request, files, line)
}

/// Reads the map of a launch, loads its program and serves it, until the session is closed.
pub fn open_mapped<A: Allocator + Copy, S: Source, W: Sink, F: Files<A>>(
    keys: RandomState,
    launch: &Launch<A>,
    request: Request<'_>,
    files: &F,
    line: &mut Line<A, S, W>,
) -> Result<Closed<A>, Ended>
    ensures { Serves result (asked_by request.entry) (heard S.remaining W.contents line.old) (heard S.remaining W.contents line.new) }
{
    let source_map = match read_sources(line.alloc, launch, files) {
        Ok(source_map) => source_map,
        Err(fault) => return refuse_map(fault, launch, request, line),
    };
    line.source_map = source_map;
    open_named(keys, launch, request, files, line)
}
