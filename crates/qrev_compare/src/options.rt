//! The command line: what it may say, and what it says.

use clap::{Arg, ArgMatches, Command};
use qil_comparison::{Kinds, SideName};
use qil_options::{
    Failure, NO_TEXT, RunOptions, args_arg, entry_arg, file_arg, history_arg, limit_arg,
    parse_words, read_run, refuse_words, words,
};
use std::alloc::Global;
use std::rt::Env;

/// What the command line says.
#[derive(Drop)]
pub struct Options<'a> {
    /// The files of the two texts.
    pub good: &'a str,
    pub bad: &'a str,
    pub kinds: Kinds,
    /// The side on which the script is served.
    pub session: Option<SideName>,
    /// Its limit is that of the moves between two events too.
    pub run: RunOptions<'a>,
}

// Each argument is made in a function of its own, so that none holds more than one that may have to be let go.

fn events_arg<'a>(alloc: Global) -> Arg<'a> {
    Arg::new(alloc, "events")
        .help("What is compared: some of output,writes,calls,end")
        .long("events")
        .value_name("KINDS")
        .default_value("output,calls,end")
}

fn session_arg<'a>(alloc: Global) -> Arg<'a> {
    Arg::new(alloc, "session")
        .help("Serve the commands on standard input where that side stands: good or bad")
        .long("session")
        .value_name("SIDE")
}

fn make_command<'a>(alloc: Global) -> Result<Command<'a>, clap::Error> {
    let limit = "The most moves between two events, and of one continue or reverse";
    let history = "The session keeps only its last N moves, 1 to 1000000, and no copies of states";
    let command = Command::new(alloc, "qrev-compare")
        .about("Runs two texts in QBE IL side by side, and tells the first place where they part")
        .arg(file_arg(
            alloc,
            "GOOD",
            "The file of the text that runs well, in QBE IL",
        ))?
        .arg(file_arg(
            alloc,
            "BAD",
            "The file of the text that goes wrong, in QBE IL",
        ))?
        .arg(args_arg(alloc))?
        .arg(entry_arg(alloc))?
        .arg(events_arg(alloc))?
        .arg(limit_arg(alloc, limit))?
        .arg(session_arg(alloc))?
        .arg(history_arg(alloc, history))?;
    Ok(command)
}

/// The words of the command line, the program's own name first.
pub fn read_words<R: Env + AllocGlobal + Print + Eprint>(
    rt: &R,
    alloc: Global,
) -> Result<Vec<String>, Failure> {
    match words(rt, alloc)? {
        Some(words) => Ok(words),
        None => Err(refuse_words(rt, make_command(alloc), NO_TEXT)),
    }
}

/// The kinds with one more, if there is one of that name.
fn with_kind(kinds: Kinds, name: &[u8]) -> Option<Kinds> {
    let mut more = kinds;
    if name == b"output".as_slice() {
        more.output = true;
    } else if name == b"writes".as_slice() {
        more.writes = true;
    } else if name == b"calls".as_slice() {
        more.calls = true;
    } else if name == b"end".as_slice() {
        more.end = true;
    } else {
        return None;
    }
    Some(more)
}

/// The kinds that a word names, with commas between them.
fn read_kinds(word: &str) -> Option<Kinds> {
    let mut kinds = Kinds {
        output: false,
        writes: false,
        calls: false,
        end: false,
    };
    for name in word.split(',') {
        kinds = with_kind(kinds, name.as_bytes())?;
    }
    Some(kinds)
}

/// The side that a word names.
fn read_side(word: &str) -> Option<SideName> {
    if word.as_bytes() == b"good".as_slice() {
        return Some(SideName::Good);
    }
    if word.as_bytes() == b"bad".as_slice() {
        return Some(SideName::Bad);
    }
    None
}

/// The side of the session, if one is asked for.
fn read_session<R: Print + Eprint>(
    rt: &R,
    alloc: Global,
    matches: &ArgMatches<'_>,
) -> Result<Option<SideName>, Failure> {
    match matches.get_str("session") {
        None => Ok(None),
        Some(word) => match read_side(word) {
            Some(side) => Ok(Some(side)),
            None => Err(refuse_words(rt, make_command(alloc), "the session is good or bad")),
        },
    }
}

/// The values of the words.
fn read_options<'a, R: Print + Eprint>(
    rt: &R,
    alloc: Global,
    matches: &ArgMatches<'a>,
) -> Result<Options<'a>, Failure> {
    let session = read_session(rt, alloc, matches)?;
    let Some(kinds) = read_kinds(matches.get_str("events").unwrap_or("")) else {
        let why = "the events are some of output,writes,calls,end";
        return Err(refuse_words(rt, make_command(alloc), why));
    };
    Ok(Options {
        good: matches.get_str("GOOD").unwrap_or(""),
        bad: matches.get_str("BAD").unwrap_or(""),
        kinds,
        session,
        run: read_run(alloc, matches)?,
    })
}

/// What the words of the command line say. Where they say nothing that is run, why was printed, or the help that they ask for.
pub fn parse_options<'a, R: Print + Eprint>(
    rt: &R,
    alloc: Global,
    words: &'a [String],
) -> Result<Options<'a>, Failure> {
    let matches = parse_words(rt, make_command(alloc), words)?;
    read_options(rt, alloc, &matches)
}
