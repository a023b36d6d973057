//! The refusals of the lexer.

ghost use Rattle.std.specs.Prelude.{◌≡◌, Some};
ghost use Rattle.qil_lexer.specs.Text.{code_text};
ghost use Rattle.qil_lexer.specs.declared.error.LexError.TheVariants.{OutOfMemory};

use std::alloc::{AllocError, AllocFailed};
use std::fmt;
use thiserror::Error;

/// Why no token can be cut at a place. Each is refused with a line, counted from 1.
#[derive(Clone, Copy, Debug)]
pub enum LexCode {
    /// A byte that begins no token, spacing or comment; a `-` without a digit after it; a `.` that doesn't begin
    /// `...`. The line is that byte's.
    L1,
    /// A sigil without a name after it. The line is the sigil's.
    L2,
    /// A number outside -2^63 to 2^64 - 1. The line is the number's.
    L3,
    /// A string that meets a newline or the end of the text, also right after a backslash. The line is the opening
    /// quote's.
    L4,
    /// A backslash in a string with anything else after it than an escape. The line is the backslash's.
    L5,
    /// A text of more than 2^20 bytes. The line is 1.
    L6,
}

impl LexCode {
    /// The code's name, as users see it.
    pub fn as_str(self) -> &'static str
        ensures { result.now ≡ code_text self }
    {
        match self {
            LexCode::L1 => "L1",
            LexCode::L2 => "L2",
            LexCode::L3 => "L3",
            LexCode::L4 => "L4",
            LexCode::L5 => "L5",
            LexCode::L6 => "L6",
        }
    }
}

impl fmt::Display for LexCode {
    ghost output = { λ code. Some (code_text code) };

    fn fmt<W: fmt::Write>(&self, f: &mut fmt::Formatter<W>) -> fmt::Result {
        f.write_str(self.as_str())
    }
}

/// Why a text has no tokens.
#[derive(Debug, Drop, Error)]
pub enum LexError {
    /// It isn't a sequence of tokens, for the reason and on the line given.
    #[error("{code} line {line}")]
    Refused { code: LexCode, line: u32 },
    /// The allocator is out of room for its tokens.
    #[error("out of memory")]
    OutOfMemory,
}

impl From<AllocError> for LexError {
    ghost from_gives = { λ _ e. e ≡ OutOfMemory };

    fn from(_error: AllocError) -> LexError {
        LexError::OutOfMemory
    }
}

impl<T: Drop> From<AllocFailed<T>> for LexError {
    ghost from_gives = { λ _ e. e ≡ OutOfMemory };

    fn from(_error: AllocFailed<T>) -> LexError {
        LexError::OutOfMemory
    }
}
