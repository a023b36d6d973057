//! What the arguments of a launch say.

ghost use Rattle.std.specs.Prelude.{◌≡◌, ◌&&◌, ◌≤◌, false, unwrap_or, is_some, IfSome, IfOk};

use crate::arguments::Arguments;
use json::Value;
use std::alloc::{AllocError, Allocator};

/// How many bytes the copies of states may take, if nothing is said: 64 MiB.
pub const BUDGET: u64 = 64 << 20;

/// How the states of a run are kept: by copies of some of them, by undo records of all moves, or by those of the newest.
#[derive(Clone, Copy)]
pub struct Kept {
    /// The most moves that can be undone, if there is a bound.
    pub bound: Option<u64>,
    /// How many bytes copies of states may take, if those are kept and no undo records.
    pub budget: Option<u64>,
    ghost least: { 1 ≤ unwrap_or bound 1 },
    ghost most: { unwrap_or bound 1 ≤ 1000000 },
    ghost alone: { (is_some budget && is_some bound) ≡ false },
}

/// What is debugged, and how.
#[derive(Drop)]
pub struct Launch<A: Allocator> {
    pub program: String<A>,
    pub entry: String<A>,
    pub args: Vec<u64, A>,
    pub limit: u64,
    pub kept: Kept,
    pub stops_on_entry: bool,
    pub record: Option<String<A>>,
    /// The path of the map of places: none is looked for if it is empty.
    pub map: Option<String<A>>,
    /// Whether the run is debugged: else it goes to its end, past all stops.
    pub debugs: bool,
    ghost bounded: { limit ≤ 4294967295 },
}

/// Why a launch is refused before anything is loaded.
#[derive(Clone, Copy, PartialEq, Eq)]
pub enum Unfit {
    Program,
    Entry,
    Args,
    Limit,
    History,
    Memory,
    MemoryAndHistory,
    StopOnEntry,
    NoDebug,
    Record,
    Map,
    OutOfMemory,
}

impl From<AllocError> for Unfit {
    fn from(_refused: AllocError) -> Self {
        Unfit::OutOfMemory
    }
}

/// The message for the editor.
pub fn unfit_words(unfit: Unfit) -> &'static str {
    match unfit {
        Unfit::Program => "program: no path",
        Unfit::Entry => "entry: no name",
        Unfit::Args => "args: not a number from 0 to 18446744073709551615",
        Unfit::Limit => "limit: not a number from 1 to 4294967295",
        Unfit::History => "history: not a number from 1 to 1000000, nor all",
        Unfit::Memory => "memory: not a number of MiB from 1 to 65536",
        Unfit::MemoryAndHistory => "memory and history: only one of them can be said",
        Unfit::StopOnEntry => "stopOnEntry: no flag",
        Unfit::NoDebug => "noDebug: no flag",
        Unfit::Record => "record: no path",
        Unfit::Map => "map: no path",
        Unfit::OutOfMemory => "out of memory",
    }
}

/// A number that a value says, in digits, or a text of digits.
fn number_said<A: Allocator + Copy>(value: &Value<'_, A>) -> Option<u64> {
    match value.as_str() {
        Some(text) if text.starts_with('+') => None,
        Some(text) => text.parse::<u64>().ok(),
        None => value.as_u64(),
    }
}

/// The arguments of the entry.
fn numbers_said<A: Allocator + Copy>(
    alloc: A,
    asked: Arguments<'_, '_, A>,
) -> Result<Vec<u64, A>, Unfit> {
    let mut numbers = Vec::new(alloc);
    let Some(value) = asked.get("args") else {
        return Ok(numbers);
    };
    if !matches!(value, Value::Array(_)) {
        return Err(Unfit::Args);
    }
    for index in 0..usize::MAX {
        let Some(item) = value.at(index) else {
            return Ok(numbers);
        };
        match number_said(item) {
            Some(number) => match numbers.push(number) {
                Ok(()) => {}
                Err(_) => return Err(Unfit::OutOfMemory),
            },
            None => return Err(Unfit::Args),
        }
    }
    Ok(numbers)
}

/// A text that may be left out.
fn text_said<A: Allocator + Copy>(
    alloc: A,
    asked: Arguments<'_, '_, A>,
    name: &str,
    unfit: Unfit,
) -> Result<Option<String<A>>, Unfit> {
    match asked.get(name) {
        None => Ok(None),
        Some(value) => match value.as_str() {
            Some(text) => Ok(Some(String::from_str(alloc, text)?)),
            None => Err(unfit),
        },
    }
}

/// The name of the entry.
fn entry_said<A: Allocator + Copy>(
    alloc: A,
    asked: Arguments<'_, '_, A>,
) -> Result<String<A>, Unfit> {
    match text_said(alloc, asked, "entry", Unfit::Entry)? {
        Some(entry) => Ok(entry),
        None => Ok(String::from_str(alloc, "main")?),
    }
}

/// The path of the program.
fn program_said<A: Allocator + Copy>(
    alloc: A,
    asked: Arguments<'_, '_, A>,
) -> Result<String<A>, Unfit> {
    match text_said(alloc, asked, "program", Unfit::Program)? {
        Some(program) => Ok(program),
        None => Err(Unfit::Program),
    }
}

/// A flag that may be left out.
fn flag_said<A: Allocator + Copy>(
    asked: Arguments<'_, '_, A>,
    name: &str,
    otherwise: bool,
    unfit: Unfit,
) -> Result<bool, Unfit> {
    match asked.get(name) {
        None => Ok(otherwise),
        Some(value) => match value.as_bool() {
            Some(flag) => Ok(flag),
            None => Err(unfit),
        },
    }
}

/// A number in a range that may be left out.
fn number_in<A: Allocator + Copy>(
    asked: Arguments<'_, '_, A>,
    name: &str,
    most: u64,
    unfit: Unfit,
) -> Result<Option<u64>, Unfit>
    ensures { IfOk result (λ number. IfSome number (λ n. (1 ≤ n) × (n ≤ most))) }
{
    match asked.get(name) {
        None => Ok(None),
        Some(value) => match number_said(value) {
            Some(number) if number >= 1 && number <= most => Ok(Some(number)),
            _ => Err(unfit),
        },
    }
}

/// How states are kept by what `history` says: a number of moves, or all.
fn kept_by_records<A: Allocator + Copy>(value: &Value<'_, A>) -> Result<Kept, Unfit> {
    if value.as_str() == Some("all") {
        return Ok(Kept {
            bound: None,
            budget: None,
        });
    }
    match number_said(value) {
        Some(number) if number >= 1 && number <= 1_000_000 => Ok(Kept {
            bound: Some(number),
            budget: None,
        }),
        _ => Err(Unfit::History),
    }
}

/// How states are kept by what `memory` says: how many MiB copies may take.
fn kept_by_copies<A: Allocator + Copy>(value: &Value<'_, A>) -> Result<Kept, Unfit> {
    match number_said(value) {
        Some(number) if number >= 1 && number <= 65_536 => Ok(Kept {
            bound: None,
            budget: Some(number * 1_048_576),
        }),
        _ => Err(Unfit::Memory),
    }
}

/// How the states of a run are kept.
fn kept_said<A: Allocator + Copy>(asked: Arguments<'_, '_, A>) -> Result<Kept, Unfit> {
    match (asked.get("history"), asked.get("memory")) {
        (None, None) => Ok(Kept {
            bound: None,
            budget: Some(BUDGET),
        }),
        (Some(value), None) => kept_by_records(value),
        (None, Some(value)) => kept_by_copies(value),
        (Some(_), Some(_)) => Err(Unfit::MemoryAndHistory),
    }
}

/// What the arguments say.
pub fn launch_said<A: Allocator + Copy>(
    alloc: A,
    asked: Arguments<'_, '_, A>,
) -> Result<Launch<A>, Unfit> {
    let program = program_said(alloc, asked)?;
    let entry = entry_said(alloc, asked)?;
    let args = numbers_said(alloc, asked)?;
    let limit = number_in(asked, "limit", 4_294_967_295, Unfit::Limit)?;
    let kept = kept_said(asked)?;
    let stops_on_entry = flag_said(asked, "stopOnEntry", true, Unfit::StopOnEntry)?;
    let no_debug = flag_said(asked, "noDebug", false, Unfit::NoDebug)?;
    let record = text_said(alloc, asked, "record", Unfit::Record)?;
    let map = text_said(alloc, asked, "map", Unfit::Map)?;
    Ok(Launch {
        program,
        entry,
        args,
        limit: limit.unwrap_or(1_000_000),
        kept,
        stops_on_entry,
        record,
        map,
        debugs: !no_debug,
    })
}
