//! What the lines of a header say of the length of the body.

ghost use Rattle.std.specs.Prelude.{◌≡◌, ◌↔◌, ℕ, List, [], ◌∷◌, ◌++◌, IsTrue};
ghost use Rattle.qrev_protocol.specs.Frame.{IsBlank, is_length};
ghost use Rattle.qrev_protocol.specs.Incoming.{Reads, AreSaid};

use crate::incoming::BODY_LIMIT;
use fast_float::parse_u64;

/// What lines of a header say of the length of the body.
#[derive(Clone, Copy)]
pub enum Said {
    Nothing,
    Length(u32),
    /// No number that a body may have, or two.
    Unreadable,
}

impl Said {
    /// What lines say that say this, and after them one that says `next`.
    pub fn join(self, next: Said) -> Said
        ensures { (lines : List (List ℕ)) (line : List ℕ) → AreSaid self lines → Reads next line
            → AreSaid result (lines ++ line ∷ []) }
    {
        match (self, next) {
            (said, Said::Nothing) => said,
            (Said::Nothing, said) => said,
            _ => Said::Unreadable,
        }
    }
}

/// Whether nothing stands in a line but the byte 13 of its end.
pub fn is_blank(line: &[u8]) -> bool
    ensures { IsTrue result ↔ IsBlank line.now }
{
    line.is_empty() || line == b"\r".as_slice()
}

/// Whether a line is the header of the length.
fn is_length(line: &[u8]) -> bool
    ensures { result ≡ is_length line.now }
{
    line.len() >= 15 && line[..15].eq_ignore_ascii_case(b"content-length:")
}

/// What a line says of the length of the body.
pub fn said_in(line: &[u8]) -> Said
    ensures { Reads result line.now }
{
    if !is_length(line) {
        return Said::Nothing;
    }
    let Ok(length) = parse_u64(line[15..].trim_ascii()) else {
        return Said::Unreadable;
    };
    if length > BODY_LIMIT as u64 {
        return Said::Unreadable;
    }
    Said::Length(length as u32)
}
