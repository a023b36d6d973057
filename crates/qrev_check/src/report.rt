//! From a text to the report of its run.

ghost use Rattle.std.specs.Prelude.{◌≡◌, ◌≢◌, ◌++◌, ◌-◌, ◌^◌, ◌<◌, ℕ, List, [], Option, None, Some, Ok, map, IfOk, IsOk, OnOk};
ghost use Rattle.std.specs.List.{flat_map};
ghost use Rattle.qil_tree.specs.declared.tree.Func.{Func};
ghost use Rattle.qil_rules.specs.Verdict.{Verdict};
ghost use Rattle.qil_layout.specs.Layout.{fault_of};
ghost use Rattle.qil_semantics.specs.State.{State};
ghost use Rattle.qil_state.specs.Faults.{status_of};
ghost use Rattle.qil_state.specs.State.{state_of};
ghost use Rattle.qil_loading.specs.Load.{Accepts, Checks};
ghost use Rattle.qil_shadow.specs.Shadow.{shadow_at_start};
ghost use Rattle.qil_shadow.specs.Steps.{shadow_of};
ghost use Rattle.qil_suspicions.specs.Adding.{note_named};
ghost use Rattle.qil_suspicions.specs.Run.{IsAtStart};
ghost use Rattle.qrev_check.specs.Told.{note_line, others_text, last_line, report_text};
ghost use Rattle.qrev_check.specs.Report.{Setup, Begins, quiet_outcome, outcome_of, setup_of, start_outcome, layout_outcome, Written, IsWritten};

use crate::heap::{NoHeap, heap_said};
use crate::line::Line;
use crate::telling::put_note;
use qil_code::Code;
use qil_flat::{FlatCode, flatten};
use qil_flatmachine::FlatMachine;
use qil_fragments::Fragment;
use qil_layout::Image;
use qil_layout_builder::{LayoutError, layout};
use qil_loading::{LoadError, check_text};
use qil_machine::StartError;
use qil_resolution::number;
use qil_rules::Checked;
use qil_state::Status;
use qil_streams::{Sink, write_all};
use qil_suspicions::{Note, Pass};
use std::alloc::{AllocError, Allocator};
use std::hash::RandomState;

/// What came of a text.
#[derive(Clone, Copy)]
pub enum Outcome {
    Nothing,
    Refused,
    WriteFault,
    Memory,
    /// Something is suspicious.
    Some,
    /// Nothing is, and the run ends by a fault.
    Fault,
    /// Nothing is up to the limit.
    Limit,
}

/// What is run of a text, how far, and which functions of it are those of a heap.
#[derive(Clone, Copy)]
pub struct Request<'r> {
    pub keys: RandomState,
    pub entry: &'r [u8],
    pub args: &'r [u64],
    pub limit: u32,
    pub heap: &'r [u8],
}

/// From which move on there may be suspicions of other kinds, if there may be some.
fn put_others<A: Allocator>(line: &mut Line<A>, first: Option<u64>) -> Result<(), AllocError>
    ensures { OnOk result (line.new ≡ line.old ++ others_text first) }
{
    match first {
        Some(position) => line.put_all(&[
            Fragment::Bytes(b", other kinds not before #"),
            Fragment::Number(position),
            Fragment::Bytes(b"\n"),
        ]),
        None => line.put(b", no other kinds\n"),
    }
}

/// How many notes there are in how many moves.
fn put_last<A: Allocator>(
    line: &mut Line<A>,
    notes: u64,
    moves: u64,
    unsure: Option<u64>,
) -> Result<(), AllocError>
    ensures { OnOk result (line.new ≡ line.old ++ last_line notes moves unsure) }
{
    line.put_count(notes, b"suspicion")?;
    line.put(b" in ")?;
    line.put_count(moves, b"move")?;
    put_others(line, unsure)
}

/// The lines of notes.
fn put_notes<A: Allocator + Copy>(
    line: &mut Line<A>,
    code: &Code<'_, A>,
    notes: &[Note],
) -> Result<(), AllocError>
    ensures { OnOk result (line.new ≡ line.old ++ flat_map (λ n. note_line (note_named code.now n)) notes.now) }
{
    for note in notes {
        put_note(line, code, note)?;
    }
    Ok(())
}

/// The report of a pass.
fn report_of<A: Allocator + Copy>(alloc: A, pass: &Pass<'_, A>) -> Result<Line<A>, AllocError>
    ensures { IfOk result (λ line. (unsure : Option ℕ) × (line ≡ report_text (map (note_named pass.now.whole.program) pass.now.notes) pass.now.moves unsure)) }
{
    let mut line = Line::new(alloc);
    let notes = pass.notes();
    put_notes(&mut line, pass.code(), notes)?;
    put_last(
        &mut line,
        notes.len() as u64,
        pass.moves(),
        pass.first_unsure(),
    )?;
    Ok(line)
}

/// What comes of a run without notes.
fn quiet_outcome(status: Status) -> Outcome
    ensures { (ns : List (List ℕ)) → result ≡ quiet_outcome (status_of ns status) }
{
    match status {
        Status::Running => Outcome::Limit,
        Status::Faulted(_) => Outcome::Fault,
        Status::Done(_) | Status::Exited(_) => Outcome::Nothing,
    }
}

fn outcome_of<A: Allocator + Copy>(pass: &Pass<'_, A>) -> Outcome
    ensures value { result ≡ outcome_of (map (note_named pass.now.whole.program) pass.now.notes) (state_of pass.now.whole).status }
{
    if pass.notes().is_empty() {
        quiet_outcome(pass.status())
    } else {
        Outcome::Some
    }
}

/// Writes a report, and gives what came of it.
fn write_report<A: Allocator, W: Sink>(line: &Line<A>, outcome: Outcome, sink: &mut W) -> Outcome
    requires { W.failures sink.old < 2 ^ 64 - 1 }
    ensures { IsWritten result outcome line.now (W.contents sink.old) (W.contents sink.new) }
{
    match write_all(sink, line.bytes()) {
        Ok(()) => outcome,
        Err(_) => Outcome::WriteFault,
    }
}

/// Makes a pass, and writes what came of it.
fn make_pass<A: Allocator + Copy, W: Sink>(
    alloc: A,
    mut pass: Pass<'_, A>,
    limit: u32,
    sink: &mut W,
) -> Outcome
    requires start { pass.moves ≡ 0 }
    requires writes { W.failures sink.old < 2 ^ 64 - 1 }
    ensures { (s : Setup) (verdict : Verdict A) (func : Func A) → Begins s verdict func (state_of pass.entry.whole) → s.limit ≡ limit → pass.entry.whole.program ≡ verdict.program
        → IsAtStart pass.entry → shadow_of pass.entry.whole.program (state_of pass.entry.whole) pass.entry.shadow ≡ shadow_at_start verdict.program func
        → Written A result s (W.contents sink.old) (W.contents sink.new) }
{
    match pass.run(limit) {
        Ok(()) => {}
        Err(_) => return Outcome::Memory,
    }
    match report_of(alloc, &pass) {
        Ok(line) => write_report(&line, outcome_of(&pass), sink),
        Err(_) => Outcome::Memory,
    }
}

/// What a start that failed is reported as.
fn start_outcome(error: StartError) -> Outcome
    ensures { result ≡ start_outcome error }
{
    match error {
        StartError::NoEntry | StartError::ArgumentCount => Outcome::Refused,
        StartError::OutOfMemory => Outcome::Memory,
    }
}

/// What data that can't be laid out are reported as.
fn layout_outcome(error: LayoutError) -> Outcome
    ensures { result ≡ layout_outcome error }
{
    match error {
        LayoutError::Refused { .. } => Outcome::Refused,
        LayoutError::OutOfMemory => Outcome::Memory,
    }
}

fn report_flat<A: Allocator + Copy, W: Sink>(
    alloc: A,
    code: &FlatCode<'_, A>,
    request: &Request<'_>,
    sink: &mut W,
) -> Outcome
    requires writes { W.failures sink.old < 2 ^ 64 - 1 }
    ensures { request.now.heap.now ≡ [] → (text : List ℕ) (verdict : Verdict A) → Accepts text verdict → code.now.program ≡ verdict.program
        → Written A result (setup_of text request.now) (W.contents sink.old) (W.contents sink.new) }
{
    let numbered = code.code();
    numbered.names_are_distinct();
    let Some(func) = numbered.func_named(request.entry) else {
        return Outcome::Refused;
    };
    let heap = match heap_said(alloc, numbered, request.heap) {
        Ok(heap) => heap,
        Err(NoHeap::Unknown) => return Outcome::Refused,
        Err(NoHeap::Memory) => return Outcome::Memory,
    };
    match FlatMachine::start(alloc, code, request.entry, request.args) {
        Ok(machine) => match Pass::new(alloc, request.keys, machine, func, heap.as_slice()) {
            Ok(pass) => make_pass(alloc, pass, request.limit, sink),
            Err(_) => Outcome::Memory,
        },
        Err(error) => start_outcome(error),
    }
}

fn report_code<A: Allocator + Copy, W: Sink>(
    alloc: A,
    code: &Code<'_, A>,
    request: &Request<'_>,
    sink: &mut W,
) -> Outcome
    requires writes { W.failures sink.old < 2 ^ 64 - 1 }
    ensures { request.now.heap.now ≡ [] → (text : List ℕ) (verdict : Verdict A) → Accepts text verdict → code.now ≡ verdict.program
        → Written A result (setup_of text request.now) (W.contents sink.old) (W.contents sink.new) }
{
    match flatten(alloc, code) {
        Ok(flat) => report_flat(alloc, &flat, request, sink),
        Err(_) => Outcome::Memory,
    }
}

fn report_image<A: Allocator + Copy, W: Sink>(
    alloc: A,
    checked: &Checked<'_, A>,
    image: &Image<'_, A>,
    request: &Request<'_>,
    sink: &mut W,
) -> Outcome
    requires image { image.now ≡ checked.now.program }
    requires writes { W.failures sink.old < 2 ^ 64 - 1 }
    ensures { request.now.heap.now ≡ [] → (text : List ℕ) (verdict : Verdict A) → Accepts text verdict → checked.now.program ≡ verdict.program
        → Written A result (setup_of text request.now) (W.contents sink.old) (W.contents sink.new) }
{
    match number(alloc, request.keys, checked, image) {
        Ok(code) => report_code(alloc, &code, request, sink),
        Err(_) => Outcome::Memory,
    }
}

fn report_checked<A: Allocator + Copy, W: Sink>(
    alloc: A,
    checked: &Checked<'_, A>,
    request: &Request<'_>,
    sink: &mut W,
) -> Outcome
    requires writes { W.failures sink.old < 2 ^ 64 - 1 }
    ensures { request.now.heap.now ≡ [] → (text : List ℕ) (verdict : Verdict A) → Checks text verdict → checked.now.program ≡ verdict.program
        → Written A result (setup_of text request.now) (W.contents sink.old) (W.contents sink.new) }
{
    match layout(alloc, request.keys, checked) {
        Ok(image) => report_image(alloc, checked, &image, request, sink),
        Err(error) => layout_outcome(error),
    }
}

/// Runs a text, and writes the report of its run.
///
/// It writes nothing for a text that is refused, and nothing if memory runs out.
pub fn report<A: Allocator + Copy, W: Sink>(
    alloc: A,
    text: &[u8],
    request: &Request<'_>,
    sink: &mut W,
) -> Outcome
    requires writes { W.failures sink.old < 2 ^ 64 - 1 }
    ensures { request.now.heap.now ≡ [] → Written A result (setup_of text.now request.now) (W.contents sink.old) (W.contents sink.new) }
{
    match check_text(alloc, request.keys, text) {
        Ok(checked) => report_checked(alloc, &checked, request, sink),
        Err(LoadError::Refused(_)) => Outcome::Refused,
        Err(LoadError::OutOfMemory) => Outcome::Memory,
    }
}
