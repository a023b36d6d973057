//! `qrev`: runs a program in QBE IL and steps through it, forward and back, by the commands on standard input.
#![tactic(auto)]

ghost use Rattle.std.specs.Prelude.{◌≡◌, ◌<◌, ◌-◌, ◌^◌};
ghost use Rattle.qrev.specs.Status.{outcome_status};

use qil_options::{Failure, Given, Kept, bound_of, budget_of, read_given, read_words};
use qil_streams::{FromReader, IntoWriter, Sink, Source};
use qil_transcript::{Outcome, debug, debug_replaying};
use std::alloc::{Allocator, Global};
use std::hash::RandomState;
use std::io;
use std::io::LineWriter;
use std::process::ExitCode;
use std::random::RandomSource;
use std::rt::{Env, Files};

/// Runs the session, whose tables hash with keys drawn for it. The script is standard input, the transcript standard output,
/// where each line is written at once.
fn run_session<R: Input + Print + RandomSource>(
    rt: &R,
    alloc: Global,
    given: &Given<'_>,
) -> Result<Outcome, Failure> {
    let Ok(keys) = RandomState::new(rt) else {
        return Err(Failure::NoKeys);
    };
    let Ok(writer) = LineWriter::new(alloc, io::writer(rt)) else {
        return Err(Failure::OutOfMemory);
    };
    let mut source = FromReader::new(rt.reader());
    let mut sink = IntoWriter::new(writer);
    Ok(debug_given(alloc, keys, given, &mut source, &mut sink))
}

/// Debugs what is given: over copies of states, or over undo records if those are asked for.
// In any memory: with one that is known each call would compare all that it promises.
fn debug_given<A: Allocator + Copy, S: Source, W: Sink>(
    alloc: A,
    keys: RandomState,
    given: &Given<'_>,
    source: &mut S,
    sink: &mut W,
) -> Outcome
    requires reads { S.failures source.old < 2 ^ 64 - 1 }
    requires writes { W.failures sink.old < 2 ^ 64 - 1 }
{
    let text = given.program.as_slice();
    let entry = given.run.entry.as_bytes();
    let args = given.run.args.as_slice();
    let limit = u64::from(given.run.limit);
    let bound = match given.kept {
        Kept::Copies(mebibytes) => {
            let budget = budget_of(mebibytes);
            return debug_replaying(alloc, keys, text, entry, args, limit, budget, source, sink);
        }
        Kept::Newest(moves) => Some(bound_of(moves)),
        Kept::All => None,
    };
    debug(alloc, keys, text, entry, args, limit, bound, source, sink)
}

/// What the words ask for.
fn run_words<R: Files + Input + Print + Eprint + RandomSource>(
    rt: &R,
    alloc: Global,
    words: &[String],
) -> Result<Outcome, Failure> {
    let given = read_given(rt, alloc, words)?;
    run_session(rt, alloc, &given)
}

/// The command line first, then the file, then the session.
fn run<R: Files + Input + Print + Eprint + Env + RandomSource + AllocGlobal>(
    rt: &R,
    alloc: Global,
) -> Result<Outcome, Failure> {
    let words = read_words(rt, alloc)?;
    run_words(rt, alloc, words.as_slice())
}

/// The status after a session.
fn outcome_status(outcome: Outcome) -> u8
    ensures { result ≡ outcome_status outcome }
{
    match outcome {
        Outcome::Ended => 0,
        Outcome::Refused => 1,
        Outcome::ReadFault | Outcome::WriteFault | Outcome::TooLong => 2,
        Outcome::Memory => 3,
    }
}

fn main(rt: HostRuntime) -> ExitCode {
    ExitCode::from(match run(&rt, rt.alloc()) {
        Ok(outcome) => outcome_status(outcome),
        Err(failure) => failure.status(),
    })
}
