//! The lexer: it walks over a text once, from the left, and keeps the place and its line.

ghost use Rattle.std.specs.Prelude.{◌≡◌, ℕ, List, ◌+◌, ◌<◌, ◌≤◌, ◌^◌, ◌==◌, IfOk, IfErr, IfSome, All, IsErrAnd, MatchResult, length, drop, take, count_by};
ghost use Rattle.qil_lexer.specs.Cut.{line_of, Cuts, TextFault, SameTokens};
ghost use Rattle.qil_lexer.specs.Walk.{IfRefused, LiesIn};
ghost use Rattle.qil_lexer.specs.declared.error.LexCode.{LexCode};
ghost use Rattle.qil_lexer.specs.declared.token.Token.{Token};

use crate::error::{LexCode, LexError};
use crate::prefix::{gap_len, prefix_token};
use crate::token::Token;
use std::alloc::Allocator;

/// The most bytes that a text may have: 1 MiB.
const MAX_LEN: usize = 1 << 20;

/// A place in a text, and the line of that place.
#[derive(Drop)]
struct Lexer<'a> {
    text: &'a [u8],
    at: usize,
    line: u32,
    ghost in_text: { at ≤ length text.now },
    ghost bounded: { length text.now ≤ 2 ^ 20 },
    ghost on_line: { line ≡ line_of text.now at },
}

impl<'a> Lexer<'a> {
    ghost use Rattle.qil_lexer.specs.Cut.{IsGapBetween};
    ghost use Rattle.qil_lexer.specs.Walk.{IsNext};

    /// At the start of the text, on line 1.
    fn new(text: &'a [u8]) -> Self
        requires { length text.now ≤ 2 ^ 20 }
        ensures start { result.at ≡ 0 }
        ensures text { result.text.now ≡ text.now }
        ensures pointer { result.text.ref_ptr ≡ text.entry.ref_ptr }
    {
        Lexer {
            text,
            at: 0,
            line: 1,
        }
    }

    /// Goes to the end of the spacing and the comment that stand here.
    fn skip_gap(&mut self)
        ensures text { self.new.text.now ≡ self.old.text.now }
        ensures pointer { self.new.text.ref_ptr ≡ self.old.text.ref_ptr }
        ensures gap { IsGapBetween self.old.text.now self.old.at self.new.at }
    {
        self.at += gap_len(&self.text[self.at..]);
    }

    /// The next token, or `None` at the end of the text. The place is then after the token.
    fn next_token(&mut self) -> Result<Option<Token<'a>>, LexError>
        ensures text { self.new.text.now ≡ self.old.text.now }
        ensures pointer { self.new.text.ref_ptr ≡ self.old.text.ref_ptr }
        ensures next { IsNext self.old.text.now self.old.at self.new.at result }
        ensures lies { IfOk result (λ o. IfSome o (LiesIn self.old.text.ref_ptr.0 self.old.text.ref_ptr.1)) }
    {
        self.skip_gap();
        let rest = &self.text[self.at..];
        let (kind, len) = match prefix_token(rest) {
            Ok(Some(found)) => found,
            Ok(None) => return Ok(None),
            Err(code) => {
                return Err(LexError::Refused {
                    code,
                    line: self.line,
                });
            }
        };
        let token = Token {
            kind,
            text: &rest[..len],
            start: self.at,
            line: self.line,
        };
        self.at += len;
        self.line += newline_count(token.text);
        Ok(Some(token))
    }
}

/// How many lines end within these bytes.
fn newline_count(text: &[u8]) -> u32
    requires { length text.now < 2 ^ 32 }
    ensures { result ≡ count_by (λ b. b == 10) text.now }
{
    text.iter().filter(|b| **b == b'\n').count() as u32
}

/// Cuts a text into its tokens, from the left, each the longest that stands there.
///
/// # Errors
///
/// `Refused`, with `L6` and line 1, for a text of more than 2^20 bytes. Otherwise `Refused`, with the code and the
/// line of the first place where no token can be cut (`LexCode` says when). `OutOfMemory` where `alloc` is out of
/// room for the tokens.
pub fn tokens<'a, A: Allocator + Copy>(
    alloc: A,
    text: &'a [u8],
) -> Result<Vec<Token<'a>, A>, LexError>
    // The text is gaps and these tokens in turn.
    ensures cut { IfOk result (λ v. Cuts text.now v.items) }

    // Each text is the slice of the source at its start.
    ensures slices { IfOk result (λ v. All (LiesIn text.entry.ref_ptr.0 text.entry.ref_ptr.1) v.items) }

    // A refusal is the text's fault.
    ensures fault { IfErr result (λ e. IfRefused e (TextFault text.now)) }

    // A text with a cut isn't refused, and one with a fault is refused so.
    ensures only_cut { (ts : List Token) → length text.now ≤ 2 ^ 20 → Cuts text.now ts
        → MatchResult result (λ v. SameTokens v.items ts) (λ e. IfRefused e (λ _ _. ⊥)) }
    ensures only_fault { (code : LexCode) (line : ℕ) → TextFault text.now code line
        → IsErrAnd result (λ e. IfRefused e (λ c l. (c ≡ code) × (l ≡ line))) }
{
    if text.len() > MAX_LEN {
        return Err(LexError::Refused {
            code: LexCode::L6,
            line: 1,
        });
    }
    let mut lexer = Lexer::new(text);
    let mut tokens = Vec::new(alloc);
    while let Some(token) = lexer.next_token()? {
        tokens.push(token)?;
    }
    Ok(tokens)
}
