//! Why a run along a timeline stops.

/// Why a run stops, forward or back.
#[derive(Clone, Copy, PartialEq, Eq)]
pub enum Reason {
    /// A final status was reached.
    End,
    /// The watch of that number reads otherwise than in the state before.
    Watch(u64),
    /// The breakpoint of that number holds.
    Break(u64),
    /// The start was reached, at position 0.
    Start,
    /// The oldest state that is kept was reached, beyond the start.
    Oldest,
    /// As many moves were made as the limit allows.
    Limit,
    /// There was no memory for the next move.
    Memory,
}
