//! `qrev-compare`: runs two texts in QBE IL side by side, and reports the first place where they part.
#![tactic(auto)]

ghost use Rattle.std.specs.Prelude.{◌≡◌, ◌<◌, ◌-◌, ◌^◌};
ghost use Rattle.qrev_compare.specs.Status.{outcome_status};

mod options;

use options::{Options, parse_options, read_words};
use qil_comparison::{Outcome, Request, Text, Verdict, compare_texts};
use qil_options::{Failure, read_text};
use qil_streams::{FromReader, IntoWriter, Sink, Source};
use std::alloc::{Allocator, Global};
use std::hash::RandomState;
use std::io;
use std::io::LineWriter;
use std::process::ExitCode;
use std::random::RandomSource;
use std::rt::{Env, Files};

/// Compares the texts over two devices.
// Over any, and in any memory: with those that are known the call would compare all that it promises.
fn compare_over<A: Allocator + Copy, S: Source, W: Sink>(
    alloc: A,
    keys: RandomState,
    options: &Options<'_>,
    good: &[u8],
    bad: &[u8],
    source: &mut S,
    sink: &mut W,
) -> Outcome
    requires reads { S.failures source.old < 2 ^ 64 - 1 }
    requires writes { W.failures sink.old < 2 ^ 64 - 1 }
{
    let request = Request {
        func: options.run.entry.as_bytes(),
        args: options.run.args.as_slice(),
        kinds: options.kinds,
        limit: u64::from(options.run.limit),
        bound: options.run.bound(),
        session: options.session,
    };
    let good = Text {
        name: options.good.as_bytes(),
        bytes: good,
    };
    let bad = Text {
        name: options.bad.as_bytes(),
        bytes: bad,
    };
    compare_texts(alloc, keys, &good, &bad, &request, source, sink)
}

/// Compares the texts, with tables that hash with keys drawn for this run. The script is standard input. The report goes to
/// standard output, each line as soon as it is known.
fn compare<R: Input + Print + RandomSource>(
    rt: &R,
    alloc: Global,
    options: &Options<'_>,
    good: &[u8],
    bad: &[u8],
) -> Result<Outcome, Failure> {
    let Ok(keys) = RandomState::new(rt) else {
        return Err(Failure::NoKeys);
    };
    let Ok(writer) = LineWriter::new(alloc, io::writer(rt)) else {
        return Err(Failure::OutOfMemory);
    };
    let mut source = FromReader::new(rt.reader());
    let mut sink = IntoWriter::new(writer);
    Ok(compare_over(alloc, keys, options, good, bad, &mut source, &mut sink))
}

/// What the words ask for.
fn run_words<R: Files + Input + Print + Eprint + RandomSource>(
    rt: &R,
    alloc: Global,
    words: &[String],
) -> Result<Outcome, Failure> {
    let options = parse_options(rt, alloc, words)?;
    let good = read_text(rt, alloc, options.good, "cannot read GOOD")?;
    let bad = read_text(rt, alloc, options.bad, "cannot read BAD")?;
    compare(rt, alloc, &options, good.as_slice(), bad.as_slice())
}

/// The command line first, then the files, then the comparison.
fn run<R: Files + Input + Print + Eprint + Env + RandomSource + AllocGlobal>(
    rt: &R,
    alloc: Global,
) -> Result<Outcome, Failure> {
    let words = read_words(rt, alloc)?;
    run_words(rt, alloc, words.as_slice())
}

/// The status after a comparison.
fn outcome_status(outcome: Outcome) -> u8
    ensures { result ≡ outcome_status outcome }
{
    match outcome {
        Outcome::Told(Verdict::Same) => 0,
        Outcome::Told(Verdict::Part) => 1,
        Outcome::Told(Verdict::Limit) => 4,
        Outcome::Unserved | Outcome::Memory => 3,
        Outcome::Refused => 65,
        Outcome::ReadFault | Outcome::WriteFault | Outcome::TooLong => 2,
    }
}

fn main(rt: HostRuntime) -> ExitCode {
    ExitCode::from(match run(&rt, rt.alloc()) {
        Ok(outcome) => outcome_status(outcome),
        Err(failure) => failure.status(),
    })
}
