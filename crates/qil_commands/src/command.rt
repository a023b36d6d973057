//! The commands, and why a line spells none.

ghost use Rattle.std.specs.Prelude.{◌≡◌};

use qil_tree::Width;
use std::marker::Model;

/// A name without its sigil: a part of the line.
#[derive(Drop)]
pub struct LineName<'a> {
    bytes: &'a [u8],
}

impl<'a> Model for LineName<'a> {
    ghost use Rattle.std.specs.Prelude.{List, ℕ};

    ghost Value = { List ℕ };

    ghost view = { λ n. n.bytes.now };
}

impl<'a> LineName<'a> {
    /// The name that these bytes are.
    pub fn new(bytes: &'a [u8]) -> LineName<'a>
        ensures { result ≡ bytes.now }
    {
        LineName { bytes }
    }

    /// The bytes, of which there is at least one in a name that was read.
    pub fn bytes(&self) -> &'a [u8]
        ensures { result.now ≡ self.now }
    {
        self.bytes
    }
}

/// The first word of a line, which says what the others are.
#[derive(Clone, Copy)]
pub enum Verb {
    Step,
    Accesses,
    Counts,
    Frames,
    Back,
    Continue,
    Reverse,
    Set,
    Poke,
    Break,
    Watch,
    Delete,
    Stops,
    Print,
    Temps,
    Mem,
    Where,
    List,
    Out,
    Quit,
}

/// What a watch looks at, as the word after `watch` says.
#[derive(Drop)]
pub enum WatchTarget<'a> {
    Bytes(Width),
    /// A temporary of the function of this name.
    Temp(LineName<'a>),
}

/// An address in a command.
#[derive(Drop)]
pub enum Address<'a> {
    Number(u64),
    /// So many bytes after the address of a global, modulo 2^64.
    Global(LineName<'a>, u64),
}

/// A place in a function: a block, and an index of its instructions. After the last one stands the jump.
#[derive(Drop)]
pub struct BreakPlace<'a> {
    pub label: LineName<'a>,
    pub index: u64,
}

/// What a line asks of a session.
#[derive(Drop)]
pub enum Command<'a> {
    /// Move forward up to this many times, 1 to 4,294,967,295.
    Step(u32),
    /// Move forward up to this many times, and show what reads or writes one of so many bytes from an address on.
    Accesses(u32, Address<'a>, u32),
    /// Move forward up to this many times, and show how many of the moves were made from each place.
    Counts(u32),
    /// Move forward up to this many times, and show the frames that end, of those that begin by these moves only the ones that are at
    /// least so many moves long; and the frames that begin and last.
    Frames(u32, u32),
    /// Move backward up to this many times, 1 to 4,294,967,295.
    Back(u32),
    /// Move forward to the first place with a reason to stop.
    Continue,
    /// Move backward to the first place with a reason to stop.
    Reverse,
    /// Give a temporary of the innermost frame a value, as 64 bits in two's complement.
    Set(LineName<'a>, u64),
    /// Write the low bytes of a value to memory.
    Poke(Width, Address<'a>, u64),
    /// Stop where a function is at a place; at its first instruction where none is said.
    Break(LineName<'a>, Option<BreakPlace<'a>>),
    /// Stop where bytes of memory change.
    WatchBytes(Width, Address<'a>),
    /// Stop where a temporary of a function changes.
    WatchTemp(LineName<'a>, LineName<'a>),
    /// Take the stop of this number away.
    Delete(u64),
    /// Show the stops.
    Stops,
    /// Show a temporary of the innermost frame.
    Print(LineName<'a>),
    /// Show all temporaries of the innermost frame.
    Temps,
    /// Show so many bytes of memory, 1 to 256.
    Mem(Address<'a>, u32),
    /// Show the frames.
    Where,
    /// Show the block that the innermost frame is in.
    List,
    /// Show what was written.
    Out,
    /// End the session: the rest of the script isn't read.
    Quit,
}

/// Why a line of a script spells no command, in the order in which the reasons are looked for: the length of the
/// line, its first word, then each further word from the left, then words left over.
#[derive(Clone, Copy)]
pub enum Refused {
    /// The line has more than 256 bytes, its newline not counted. Comes before all others, and also for a line
    /// without words.
    LineTooLong,
    /// The first word is no command.
    UnknownCommand,
    /// A word that the command needs isn't there.
    MissingWord,
    /// A word has another shape than the command asks.
    BadWord,
    /// There are more words than the command takes.
    ExtraWord,
}
