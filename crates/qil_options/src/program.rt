//! The command line of `qrev`, the file that it names, and all that its run is given.

ghost use Rattle.std.specs.Prelude.{◌≤◌, ◌⊎◌, ◌^◌, IfErr};
ghost use Rattle.qil_options.specs.Told.{IsRefused, IsOfWords, IsOfText};

use crate::command_line::{NO_TEXT, parse_words, refuse_words, words};
use crate::failure::Failure;
use crate::run::{RunOptions, args_arg, entry_arg, file_arg, limit_arg, read_run};
use crate::text::read_text;
use clap::{Arg, ArgMatches, Command, value_parser};
use std::alloc::{AllocError, Global};
use std::rt::{Env, Files};

/// The most moves of which a bounded history keeps undo records.
const MOST_MOVES: u64 = 1_000_000;

/// How many MiB the copies of states take if nothing is said.
const DEFAULT_MEMORY: u64 = 64;

/// What a session keeps of its run, so that it can go back.
#[derive(Clone, Copy)]
pub enum Kept {
    /// Copies of some states, in so many MiB: each state can be gone back to.
    Copies(u64),
    /// An undo record of each of the newest moves, so many.
    Newest(u64),
    /// An undo record of each move.
    All,
}

/// How many bytes copies may take that have so many MiB, of which there are 1 to 65,536.
pub fn budget_of(mebibytes: u64) -> u64
    ensures least { 2 ^ 20 ≤ result }
    ensures most { result ≤ 2 ^ 36 }
{
    mebibytes.clamp(1, 65_536) * 1_048_576
}

/// A number of moves within what a bounded history may keep.
pub fn bound_of(moves: u64) -> u64
    ensures some { 1 ≤ result }
    ensures few { result ≤ 1000000 }
{
    moves.clamp(1, MOST_MOVES)
}

/// What the command line gives a run.
#[derive(Drop)]
pub struct Given<'a> {
    pub run: RunOptions<'a>,
    pub kept: Kept,
    /// The bytes of its file, at most one more than a program may have.
    pub program: Vec<u8>,
}

fn memory_arg<'a>(alloc: Global) -> Result<Arg<'a>, AllocError> {
    Arg::new(alloc, "memory")
        .help(
            "How much memory the copies of states may take, from which the run goes back, 1 to 65536 MiB [default: 64]",
        )
        .long("memory")
        .value_name("MIB")
        .value_parser(value_parser!(u64).range(1..65_537))
        .conflicts_with("history")
}

fn replay_arg<'a>(alloc: Global) -> Result<Arg<'a>, AllocError> {
    Arg::new(alloc, "replay")
        .help("The same as --memory, which it was called before; 64 if MIB isn't given")
        .long("replay")
        .value_name("MIB")
        .num_args(0..2)
        .default_missing_value("64")
        .value_parser(value_parser!(u64).range(1..65_537))
        .conflicts_with("history")?
        .conflicts_with("memory")
}

fn history_arg<'a>(alloc: Global) -> Arg<'a> {
    Arg::new(alloc, "history")
        .help(
            "Keep an undo record of each of the last N moves, 1 to 1000000, or of all, and no copies",
        )
        .long("history")
        .value_name("N|all")
}

fn make_command<'a>(alloc: Global) -> Result<Command<'a>, clap::Error> {
    let command = Command::new(alloc, "qrev")
        .about("Runs a program in QBE IL forward and back, by the commands on standard input")
        .arg(file_arg(alloc, "PROGRAM", "The file of the program, in QBE IL"))?
        .arg(args_arg(alloc))?
        .arg(entry_arg(alloc))?
        .arg(limit_arg(alloc, "The most moves of one continue or reverse"))?
        .arg(memory_arg(alloc)?)?
        .arg(replay_arg(alloc)?)?
        .arg(history_arg(alloc))?;
    Ok(command)
}

/// The words of the command line, the program's own name first.
pub fn read_words<R: Env + AllocGlobal + Print + Eprint>(
    rt: &R,
    alloc: Global,
) -> Result<Vec<String>, Failure>
    ensures { IfErr result IsRefused }
{
    match words(rt, alloc)? {
        Some(words) => Ok(words),
        None => Err(refuse_words(rt, make_command(alloc), NO_TEXT)),
    }
}

/// What a session keeps by a word behind `--history`, if that is `all` or a number in its range.
fn kept_by(word: &str, number: Option<u64>) -> Option<Kept> {
    if word.as_bytes() == b"all".as_slice() {
        return Some(Kept::All);
    }
    let number = number?;
    if number == 0 || number > MOST_MOVES {
        return None;
    }
    Some(Kept::Newest(number))
}

/// What a session keeps, by the words of the command line.
fn read_kept(matches: &ArgMatches<'_>) -> Option<Kept> {
    if let Some(word) = matches.get_str("history") {
        return kept_by(word, matches.get_one::<u64>("history"));
    }
    let replay = matches.get_one::<u64>("replay").unwrap_or(DEFAULT_MEMORY);
    Some(Kept::Copies(matches.get_one::<u64>("memory").unwrap_or(replay)))
}

/// What the words of the command line give. If there is nothing to run, the error or the help was printed.
pub fn read_given<'a, R: Files + Print + Eprint>(
    rt: &R,
    alloc: Global,
    words: &'a [String],
) -> Result<Given<'a>, Failure>
    ensures { IfErr result (λ failure. IsOfWords failure ⊎ IsOfText failure) }
{
    let matches = parse_words(rt, make_command(alloc), words)?;
    let Some(kept) = read_kept(&matches) else {
        let why = "the history is a number of moves from 1 to 1000000, or all";
        return Err(refuse_words(rt, make_command(alloc), why));
    };
    let run = read_run(alloc, &matches)?;
    let name = matches.get_str("PROGRAM").unwrap_or("");
    let program = read_text(rt, alloc, name, "cannot read program")?;
    Ok(Given { run, kept, program })
}
