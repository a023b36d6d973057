//! Why tokens are no program's.

ghost use Rattle.std.specs.Prelude.{◌≡◌, Some};
ghost use Rattle.qil_parser.specs.Codes.{parse_code};

use std::fmt;
use thiserror::Error;

/// What is wrong with the tokens. The fault is at the first token that no program goes on with.
#[derive(Clone, Copy, Debug)]
pub enum ParseCode {
    /// No program has this token here.
    P1,
    /// A word or a form that is left out of the language.
    P2,
    /// The tokens end before the program does.
    P3,
    /// The last block of a function ends without a jump.
    P4,
}

impl ParseCode {
    /// The code's name, as users see it.
    pub fn as_str(self) -> &'static str
        ensures { result.now ≡ parse_code self }
    {
        match self {
            ParseCode::P1 => "P1",
            ParseCode::P2 => "P2",
            ParseCode::P3 => "P3",
            ParseCode::P4 => "P4",
        }
    }
}

impl fmt::Display for ParseCode {
    ghost output = { λ code. Some (parse_code code) };

    fn fmt<W: fmt::Write>(&self, f: &mut fmt::Formatter<W>) -> fmt::Result {
        f.write_str(self.as_str())
    }
}

#[derive(Debug, Drop, Error)]
pub enum ParseError {
    /// The tokens are no program's; the line is that of the token that is refused, for `P3` that of the last token.
    #[error("{code} line {line}")]
    Refused { code: ParseCode, line: u32 },
    #[error("out of memory")]
    OutOfMemory,
}
