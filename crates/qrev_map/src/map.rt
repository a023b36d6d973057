//! What is kept of a map: for each of its lines where the path stands, and the number.

ghost use Rattle.std.specs.Prelude.{◌≡◌, ◌<◌, ◌^◌, length};
ghost use Rattle.qrev_map.specs.declared.map.MapError.TheVariants.{OutOfMemory};

use std::alloc::{AllocFailed, Allocator};

/// The most bytes that a map has.
pub const MAP_LIMIT: usize = 1 << 24;

/// Why a map isn't taken.
#[derive(Clone, Copy)]
pub enum MapError {
    /// It has more than `MAP_LIMIT` bytes.
    TooLong,
    /// After so many lines comes one that is neither empty nor of the form of a line of a map.
    Malformed(usize),
    OutOfMemory,
}

impl<T: Drop> From<AllocFailed<T>> for MapError {
    ghost from_gives = { λ _ e. e ≡ OutOfMemory };

    fn from(_refused: AllocFailed<T>) -> Self {
        MapError::OutOfMemory
    }
}

/// Where a line of a map has the path of a source, and the number of the line.
#[derive(Clone, Copy)]
pub struct OriginSpan {
    pub start: usize,
    pub length: usize,
    pub line: u32,
}

/// A map: for each line of a program's text the line of a source that it came from, if it came from one.
#[derive(Drop)]
pub struct Map<A: Allocator> {
    pub text: Vec<u8, A>,
    pub spans: Vec<Option<OriginSpan>, A>,
    ghost few: { length spans.items < 2 ^ 32 },
}
