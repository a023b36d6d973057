//! What stands beside a program's text. A map of places: for each line of the text the line of a source that it came from, as a
//! compiler writes it. And what the names of a lowered text stand for.
//!
//! A line of a map is empty, or has a path and the number of a line; and if that source was made from another, its path, line and
//! column behind them. Fields are separated by tabulators.
#![tactic(auto)]

mod file;
mod line;
mod map;
mod names;
mod reading;

pub use file::{Mapping, SourceFile};
pub use map::{MAP_LIMIT, Map, MapError};
pub use names::{FloatClass, Foreign, Names};
