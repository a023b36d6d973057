//! Why a run over calls ended.

use qil_semantics::Reason;

/// Why a run over calls ended.
#[derive(Clone, Copy, PartialEq, Eq)]
pub enum DepthEnd {
    /// No more calls are open than were asked for.
    Depth,
    /// There is a reason of every run.
    Stopped(Reason),
}
