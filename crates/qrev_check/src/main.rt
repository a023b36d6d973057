//! `qrev_check FILE [ARGS..] [--heap ROLES]`: runs a program, and reports what no right compiler's output does.
#![tactic(auto)]

ghost use Rattle.std.specs.Prelude.{◌<◌, ◌-◌, ◌^◌};

mod heap;
mod line;
mod names;
mod report;
mod telling;

use heap::take_heap;
use qil_options::{Failure, Given, read_given, read_words};
use qil_streams::{IntoWriter, Sink};
use report::{Outcome, Request, report};
use std::alloc::{Allocator, Global};
use std::hash::RandomState;
use std::io;
use std::io::LineWriter;
use std::process::ExitCode;
use std::random::RandomSource;
use std::rt::{Env, Files};

/// Reports on what is given over a device.
// Over any, and in any memory: with those that are known the call would compare all that it promises.
fn report_over<A: Allocator + Copy, W: Sink>(
    alloc: A,
    keys: RandomState,
    given: &Given<'_>,
    heap: &str,
    sink: &mut W,
) -> Outcome
    requires writes { W.failures sink.old < 2 ^ 64 - 1 }
{
    let request = Request {
        keys,
        entry: given.run.entry.as_bytes(),
        args: given.run.args.as_slice(),
        limit: given.run.limit,
        heap: heap.as_bytes(),
    };
    report(alloc, given.program.as_slice(), &request, sink)
}

/// Reports on what is given, with tables that hash with keys drawn for this run.
fn report_given<R: Print + RandomSource>(
    rt: &R,
    alloc: Global,
    given: &Given<'_>,
    heap: &str,
) -> Result<Outcome, Failure> {
    let Ok(keys) = RandomState::new(rt) else {
        return Err(Failure::NoKeys);
    };
    let Ok(writer) = LineWriter::new(alloc, io::writer(rt)) else {
        return Err(Failure::OutOfMemory);
    };
    let mut sink = IntoWriter::new(writer);
    Ok(report_over(alloc, keys, given, heap, &mut sink))
}

/// The command line first, then the file, then the run.
fn run<R: Files + Input + Print + Eprint + Env + RandomSource + AllocGlobal>(
    rt: &R,
    alloc: Global,
) -> Result<Outcome, Failure> {
    let mut words = read_words(rt, alloc)?;
    let said = take_heap(&mut words);
    let given = read_given(rt, alloc, words.as_slice())?;
    let heap = match &said {
        Some(roles) => roles.as_str(),
        None => "",
    };
    report_given(rt, alloc, &given, heap)
}

/// The status after a run.
fn outcome_status(outcome: Outcome) -> u8 {
    match outcome {
        Outcome::Nothing => 0,
        Outcome::Refused => 1,
        Outcome::WriteFault | Outcome::Memory => 2,
        Outcome::Some => 3,
        Outcome::Fault => 4,
        Outcome::Limit => 5,
    }
}

fn main(rt: HostRuntime) -> ExitCode {
    ExitCode::from(match run(&rt, rt.alloc()) {
        Ok(outcome) => outcome_status(outcome),
        Err(failure) => failure.status(),
    })
}
