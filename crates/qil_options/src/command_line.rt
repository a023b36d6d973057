//! The words of a command line, as each program takes them.

ghost use Rattle.std.specs.Prelude.{◌≡◌, IfOk, IfErr, true, map, string_bytes};
ghost use Rattle.clap.specs.Values.{kind_of};
ghost use Rattle.clap.specs.Simple.{app_of, HasMatchesOf};
ghost use Rattle.clap.specs.Takes.{takes};
ghost use Rattle.qil_options.specs.Told.{IsTold, IsRefused, IsOfWords};

use crate::failure::Failure;
use clap::error::ErrorKind;
use clap::{ArgMatches, Command};
use std::alloc::Global;
use std::io;
use std::rt::Env;

/// What is wrong with a word that is no text.
pub const NO_TEXT: &str = "invalid UTF-8 was detected in one or more arguments";

/// The words of the command line, the program's own name first; nothing where one of them is no text.
pub fn words<R: Env + AllocGlobal>(rt: &R, alloc: Global) -> Result<Option<Vec<String>>, Failure>
    ensures { IfErr result (λ failure. failure ≡ Failure.OutOfMemory) }
{
    match std::env::args(rt) {
        Ok(words) => match words.collect(alloc) {
            Ok(words) => Ok(Some(words)),
            Err(_) => Err(Failure::OutOfMemory),
        },
        Err(error) if error.kind() == io::ErrorKind::OutOfMemory => Err(Failure::OutOfMemory),
        Err(_) => Ok(None),
    }
}

/// Prints why the words of a command aren't taken.
pub fn refuse_words<R: Print + Eprint>(
    rt: &R,
    command: Result<Command<'_>, clap::Error>,
    why: &str,
) -> Failure
    ensures { IsRefused result }
{
    let Ok(mut command) = command else {
        return Failure::OutOfMemory;
    };
    match command.error(ErrorKind::InvalidValue, why) {
        Ok(error) => tell(rt, &error),
        Err(_) => Failure::OutOfMemory,
    }
}

/// Prints why the words were not taken, or the help that they asked for.
fn tell<R: Print + Eprint>(rt: &R, error: &clap::Error) -> Failure
    ensures kind { IsTold (kind_of error.now) result }
    ensures words { IsOfWords result }
{
    match error.kind() {
        ErrorKind::OutOfMemory => Failure::OutOfMemory,
        ErrorKind::DisplayHelp | ErrorKind::DisplayVersion => {
            if error.print(rt).is_ok() {
                Failure::Helped
            } else {
                Failure::Unhelped
            }
        }
        _ => {
            let _ = error.print(rt);
            Failure::Usage
        }
    }
}

/// What a command makes of the words. Where it refuses them, or they ask for help, its text is printed.
pub fn parse_words<'a, R: Print + Eprint>(
    rt: &R,
    command: Result<Command<'a>, clap::Error>,
    words: &'a [String],
) -> Result<ArgMatches<'a>, Failure>
    ensures told { IfErr result IsOfWords }
    ensures matches { IfOk command.entry (λ made. IfOk result (HasMatchesOf (app_of made) (map string_bytes words.entry.now))) }
    ensures passes { IfOk command.entry (λ made. takes (app_of made) (map string_bytes words.entry.now) ≡ true
        → IfErr result (λ failure. failure ≡ Failure.OutOfMemory)) }
{
    let command = match command {
        Ok(command) => command,
        Err(error) => return Err(tell(rt, &error)),
    };
    match command.try_get_matches_from(words) {
        Ok(matches) => Ok(matches),
        Err(error) => Err(tell(rt, &error)),
    }
}
