//! From when to when a frame was there.

ghost use Rattle.std.specs.Prelude.{◌≡◌, Some};
ghost use Rattle.qil_spans.specs.Spans.{is_long, is_told};

use qil_layout::FuncId;

/// A frame, along moves.
#[derive(Clone, Copy)]
pub struct Span {
    /// The position of its first state, if one of the moves led there.
    pub begin: Option<u64>,
    /// The position of the first state without it, if it ended.
    pub end: Option<u64>,
    /// The function that was called.
    pub func: FuncId,
    /// How many frames are below it.
    pub below: u64,
}

/// Whether a frame is told: it began before the moves, or lasts, or is at least so many moves long.
pub fn is_told(one: Span, least: u64) -> bool
    ensures { result ≡ is_told least one }
{
    match one.begin {
        Some(begin) => is_past(one.end, begin, least),
        None => true,
    }
}

/// Whether the end is at least so many moves after the begin, if there is one.
fn is_past(end: Option<u64>, begin: u64, least: u64) -> bool
    ensures { result ≡ is_long least (Some begin) end }
{
    match end {
        Some(end) => end.saturating_sub(begin) >= least,
        None => true,
    }
}
