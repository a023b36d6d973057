//! One move that a history makes, as a line names it, and its outcome.

ghost use Rattle.std.specs.Prelude.{◌≡◌, true};
ghost use Rattle.qil_memory.specs.Calls.{IsWidth};

use qil_code::Code;
use qil_history::{BackError, History};
use qil_machine::{MoveError, PokeError};
use qil_undo_log::{Snapshots, UndoLog};
use std::alloc::Allocator;
use std::str::SplitWhitespace;

/// A move to make.
#[derive(Clone, Copy)]
pub enum Asked<'w> {
    Forward,
    Back,
    /// The name of a temporary, without its sigil, and the value.
    Set(&'w str, u64),
    /// How many bytes, the address, and their number.
    Poke(u64, u64, u64),
}

/// Where globals stand. A code is large, so what hands it on is generic in it.
pub trait Globals {
    /// The address of the global of that name, which is without its sigil.
    fn address_of(&self, name: &[u8]) -> Option<u64>;
}

impl<A: Allocator + Copy> Globals for Code<'_, A> {
    fn address_of(&self, name: &[u8]) -> Option<u64> {
        self.image().address(name)
    }
}

fn number(words: &mut SplitWhitespace<'_>) -> Option<u64> {
    match words.next()?.parse() {
        Ok(number) => Some(number),
        Err(_) => None,
    }
}

/// The address that two words say: a global's name without its sigil, or `-`, and how many bytes after it.
fn address<G: Globals>(globals: &G, words: &mut SplitWhitespace<'_>) -> Option<u64> {
    let name = words.next()?;
    let offset = number(words)?;
    if name == "-" {
        return Some(offset);
    }
    Some(globals.address_of(name.as_bytes())?.wrapping_add(offset))
}

fn set<'w>(words: &mut SplitWhitespace<'w>) -> Option<Asked<'w>> {
    let name = words.next()?;
    Some(Asked::Set(name, number(words)?))
}

fn poke<'w, G: Globals>(globals: &G, words: &mut SplitWhitespace<'_>) -> Option<Asked<'w>> {
    let width = number(words)?;
    let start = address(globals, words)?;
    Some(Asked::Poke(width, start, number(words)?))
}

/// The move that a line asks for: `forward`, `back`, `set NAME VALUE` or `poke BYTES NAME OFFSET VALUE`.
pub fn read_line<'w, G: Globals>(globals: &G, line: &'w str) -> Option<Asked<'w>> {
    let mut words = line.split_whitespace();
    match words.next()? {
        "forward" => Some(Asked::Forward),
        "back" => Some(Asked::Back),
        "set" => set(&mut words),
        "poke" => poke(globals, &mut words),
        _ => None,
    }
}

/// What comes of a move.
#[derive(Clone, Copy)]
pub enum Came {
    Made,
    AtEnd,
    AtStart,
    Oldest,
    NoFrame,
    UnknownTemporary,
    DeadAddress,
    NoWidth,
    NoMemory,
    TooFar,
}

impl Came {
    /// What is reported after the position.
    pub fn words(self) -> &'static str {
        match self {
            Came::Made => "",
            Came::AtEnd => ": at end",
            Came::AtStart => ": at start",
            Came::Oldest => ": history ends",
            Came::NoFrame => ": no frame",
            Came::UnknownTemporary => ": unknown temporary",
            Came::DeadAddress => ": dead address",
            Came::NoWidth => ": no width",
            Came::NoMemory => ": no memory",
            Came::TooFar => ": too many moves",
        }
    }

    fn of_forward(answer: Result<(), MoveError>) -> Came {
        match answer {
            Ok(()) => Came::Made,
            Err(MoveError::AtEnd) => Came::AtEnd,
            Err(MoveError::OutOfMemory) => Came::NoMemory,
        }
    }

    fn of_back(answer: Result<(), BackError>) -> Came {
        match answer {
            Ok(()) => Came::Made,
            Err(BackError::AtStart) => Came::AtStart,
            Err(BackError::Oldest) => Came::Oldest,
        }
    }

    fn of_poke(answer: Result<(), PokeError>) -> Came {
        match answer {
            Ok(()) => Came::Made,
            Err(PokeError::NoFrame) => Came::NoFrame,
            Err(PokeError::UnknownTemporary) => Came::UnknownTemporary,
            Err(PokeError::DeadAddress) => Came::DeadAddress,
            Err(PokeError::OutOfMemory) => Came::NoMemory,
        }
    }
}

/// The position from which on no move is made.
const MOST: u64 = 1_000_000;

/// Whether so many bytes can be poked.
fn is_width(width: u64) -> bool
    ensures { result ≡ true → IsWidth width }
{
    width == 1 || width == 2 || width == 4 || width == 8
}

/// Asks the undo records for a move.
pub fn ask_undo_log<'c, A: Allocator + Copy + 'c>(
    records: &mut UndoLog<'c, A>,
    asked: Asked<'_>,
) -> Came
    ensures { records.new.machine.program ≡ records.old.machine.program }
{
    if records.position() >= MOST {
        return Came::TooFar;
    }
    match asked {
        Asked::Forward => Came::of_forward(records.forward()),
        Asked::Back => Came::of_back(records.back()),
        Asked::Set(name, value) => Came::of_poke(records.poke_named(name.as_bytes(), value)),
        Asked::Poke(width, address, number) if is_width(width) => {
            Came::of_poke(records.poke_memory(address, width, number))
        }
        Asked::Poke(_, _, _) => Came::NoWidth,
    }
}

/// Asks the clones for a move.
pub fn ask_clones<'c, A: Allocator + Copy + 'c>(
    clones: &mut Snapshots<'c, A>,
    asked: Asked<'_>,
) -> Came
    ensures { clones.new.machine.program ≡ clones.old.machine.program }
{
    if clones.position() >= MOST {
        return Came::TooFar;
    }
    match asked {
        Asked::Forward => Came::of_forward(clones.forward()),
        Asked::Back => Came::of_back(clones.back()),
        Asked::Set(name, value) => Came::of_poke(clones.poke_named(name.as_bytes(), value)),
        Asked::Poke(width, address, number) if is_width(width) => {
            Came::of_poke(clones.poke_memory(address, width, number))
        }
        Asked::Poke(_, _, _) => Came::NoWidth,
    }
}
