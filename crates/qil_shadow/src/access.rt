//! What is done to memory, and what is suspicious of it.

use qil_tree::{LoadOp, Width};

/// What an access does.
#[derive(Clone, Copy, PartialEq, Eq)]
pub enum Action {
    Load(LoadOp),
    Store(Width),
    /// The source of a `blit`.
    CopyFrom,
    /// The target of a `blit`.
    CopyTo,
}

/// What is suspicious of an access.
#[derive(Clone, Copy, PartialEq, Eq)]
pub enum Kind {
    /// It isn't wholly in the object whose address it goes through.
    Bounds,
    /// The call that made the object is over.
    Stale,
    /// It goes through an address of which 32 bits or a part were taken.
    Cut,
    /// It goes through what is made of more than one address, and isn't wholly in one living object.
    Stray,
}
