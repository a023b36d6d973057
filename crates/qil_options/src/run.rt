//! What the command line of each program says of a run: where it begins, with which arguments, and its bounds.

ghost use Rattle.std.specs.Prelude.{◌≡◌, ◌≤◌, ◌∷◌, [], IfOk, IfErr, IfSome, Some, true, codes, map, unwrap_or};
ghost use Rattle.clap.specs.Matches.{found_of, first_value};
ghost use Rattle.clap.specs.Texts.{items_of};
ghost use Rattle.clap.specs.declared.builder.value_parser.ValueParser.TheVariants.{Unsigned};
ghost use Rattle.qil_options.specs.Told.{IsRefused};

use crate::failure::Failure;
use clap::{Arg, ArgAction, ArgMatches, value_parser};
use std::alloc::Global;

/// What the command line says of a run.
#[derive(Drop)]
pub struct RunOptions<'a> {
    /// The name of the function that runs first, with no sigil.
    pub entry: &'a str,
    /// The most moves of one `continue` or `reverse`.
    pub limit: u32,
    /// The most moves that can be undone, where not all can.
    pub history: Option<u64>,
    /// The arguments of that function.
    pub args: Vec<u64>,
}

impl<'a> RunOptions<'a> {
    /// The most moves that can be undone, where not all can, within what a history may have. `clap` has refused every other number.
    pub fn bound(&self) -> Option<u64>
        ensures both { IfSome result (λ n. (1 ≤ n) × (n ≤ 1000000)) }
        ensures some { IfSome result (λ n. 1 ≤ n) }
        ensures few { IfSome result (λ n. n ≤ 1000000) }
    {
        match self.history {
            Some(number) => Some(number.clamp(1, 1_000_000)),
            None => None,
        }
    }
}

// Each argument is made in a function of its own, so that none holds more than one that may have to be let go.

/// A file that is read.
pub fn file_arg<'a>(alloc: Global, name: &'a str, help: &'a str) -> Arg<'a>
    ensures id { result.id ≡ name.entry }
    ensures required { result.required ≡ true }
{
    Arg::new(alloc, name)
        .help(help)
        .required(true)
        .action(ArgAction::Set)
}

pub fn args_arg<'a>(alloc: Global) -> Arg<'a>
    ensures id { result.id.now ≡ codes "ARGS" }
    ensures values { result.value_parser ≡ Some (Unsigned 0 18446744073709551615) }
{
    Arg::new(alloc, "ARGS")
        .help("The arguments of the entry, decimals from 0 to 18446744073709551615")
        .num_args(0..)
        .action(ArgAction::Append)
        .value_parser(value_parser!(u64))
}

pub fn entry_arg<'a>(alloc: Global) -> Arg<'a>
    ensures id { result.id.now ≡ codes "entry" }
    ensures default { map (λ text. text.now) (items_of result.default_vals) ≡ codes "main" ∷ [] }
{
    Arg::new(alloc, "entry")
        .help("The function that runs first")
        .long("entry")
        .value_name("NAME")
        .default_value("main")
}

pub fn limit_arg<'a>(alloc: Global, help: &'a str) -> Arg<'a>
    ensures id { result.id.now ≡ codes "limit" }
    ensures values { result.value_parser ≡ Some (Unsigned 1 4294967295) }
{
    Arg::new(alloc, "limit")
        .help(help)
        .long("limit")
        .value_name("N")
        .value_parser(value_parser!(u64).range(1..4_294_967_296))
        .default_value("1000000")
}

pub fn history_arg<'a>(alloc: Global, help: &'a str) -> Arg<'a>
    ensures id { result.id.now ≡ codes "history" }
    ensures values { result.value_parser ≡ Some (Unsigned 1 1000000) }
{
    Arg::new(alloc, "history")
        .help(help)
        .long("history")
        .value_name("N")
        .value_parser(value_parser!(u64).range(1..1_000_001))
}

/// The arguments, which `clap` has checked.
fn read_args(alloc: Global, matches: &ArgMatches<'_>) -> Result<Vec<u64>, Failure>
    ensures { IfErr result IsRefused }
{
    let mut args = Vec::new(alloc);
    if let Some(values) = matches.get_many::<u64>("ARGS") {
        for value in values {
            let Ok(value) = value else {
                return Err(Failure::Usage);
            };
            if args.push(value).is_err() {
                return Err(Failure::OutOfMemory);
            }
        }
    }
    Ok(args)
}

/// The values of a run, which `clap` has checked.
pub fn read_run<'a>(alloc: Global, matches: &ArgMatches<'a>) -> Result<RunOptions<'a>, Failure>
    ensures told { IfErr result IsRefused }
    ensures entry { IfOk result (λ run. run.entry.now ≡ unwrap_or (first_value (found_of matches.now) (codes "entry")) (codes "main")) }
{
    let args = read_args(alloc, matches)?;
    let limit = matches.get_one::<u64>("limit").unwrap_or(1);
    Ok(RunOptions {
        entry: matches.get_str("entry").unwrap_or("main"),
        limit: u32::try_from(limit).unwrap_or(u32::MAX),
        history: matches.get_one::<u64>("history"),
        args,
    })
}
