//! Why reading stopped.

ghost use Rattle.std.specs.Prelude.{◌≡◌};
ghost use Rattle.qil_parser.specs.declared.cursor_error.CursorError.TheVariants.{Memory};

use std::alloc::{AllocError, AllocFailed};

/// Why reading stopped.
#[derive(Clone, Copy)]
pub enum CursorError {
    Memory,
    /// The next token fits nothing; whether a block without a jump came before it.
    Refused(bool),
}

impl From<AllocError> for CursorError {
    ghost from_gives = { λ _ e. e ≡ Memory };

    fn from(_error: AllocError) -> Self {
        CursorError::Memory
    }
}

impl<T: Drop> From<AllocFailed<T>> for CursorError {
    ghost from_gives = { λ _ e. e ≡ Memory };

    fn from(_error: AllocFailed<T>) -> Self {
        CursorError::Memory
    }
}
