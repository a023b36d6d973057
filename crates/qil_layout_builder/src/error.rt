//! Why there is no layout.

ghost use Rattle.std.specs.Prelude.{◌≡◌};

use qil_layout::LayoutCode;
use std::alloc::{AllocError, AllocFailed};
use thiserror::Error;

/// Why there is no layout.
#[derive(Clone, Copy, Debug, Error)]
pub enum LayoutError {
    /// The first object of the text that can't be laid out; the line is that of its name.
    #[error("{code} line {line}")]
    Refused { code: LayoutCode, line: u32 },
    #[error("out of memory")]
    OutOfMemory,
}

impl From<AllocError> for LayoutError {
    ghost use Rattle.qil_layout_builder.specs.declared.error.LayoutError.TheVariants.{OutOfMemory};

    ghost from_gives = { λ _ e. e ≡ OutOfMemory };

    fn from(_error: AllocError) -> Self {
        LayoutError::OutOfMemory
    }
}

impl<T: Drop> From<AllocFailed<T>> for LayoutError {
    ghost use Rattle.qil_layout_builder.specs.declared.error.LayoutError.TheVariants.{OutOfMemory};

    ghost from_gives = { λ _ e. e ≡ OutOfMemory };

    fn from(_error: AllocFailed<T>) -> Self {
        LayoutError::OutOfMemory
    }
}
