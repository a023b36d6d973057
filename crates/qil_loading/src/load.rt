//! Loading: from the bytes of a text to a checked program, and what the errors of the layers below are to it.

ghost use Rattle.std.specs.Prelude.{◌≡◌, MatchResult, IfOk, IfErr, IsErr};
ghost use Rattle.qil_rules.specs.Verdict.{Verdict};
ghost use Rattle.qil_loading.specs.Load.{Checks, IsCheckFault, RefusesCheck};
ghost use Rattle.qil_loading.specs.LoadError.{of_lex, of_parse, of_check, of_layout};
ghost use Rattle.qil_loading.specs.declared.refusal.Refusal.{Refusal};

use crate::refusal::Refusal;
use qil_checker::{CheckError, check};
use qil_layout_builder::LayoutError;
use qil_lexer::{LexError, tokens};
use qil_parser::{ParseError, parse};
use qil_rules::Checked;
use std::alloc::Allocator;
use std::hash::RandomState;

/// Why there is no session.
#[derive(Clone, Copy)]
pub enum LoadError {
    Refused(Refusal),
    OutOfMemory,
}

impl From<LexError> for LoadError {
    ghost from_gives = { λ error load. load ≡ of_lex error };

    fn from(error: LexError) -> LoadError {
        match error {
            LexError::Refused { code, line } => LoadError::Refused(Refusal::Text { code, line }),
            LexError::OutOfMemory => LoadError::OutOfMemory,
        }
    }
}

impl From<ParseError> for LoadError {
    ghost from_gives = { λ error load. load ≡ of_parse error };

    fn from(error: ParseError) -> LoadError {
        match error {
            ParseError::Refused { code, line } => LoadError::Refused(Refusal::Tokens {
                code,
                line,
            }),
            ParseError::OutOfMemory => LoadError::OutOfMemory,
        }
    }
}

impl From<CheckError> for LoadError {
    ghost from_gives = { λ error load. load ≡ of_check error };

    fn from(error: CheckError) -> LoadError {
        match error {
            CheckError::Refused { rule, line } => LoadError::Refused(Refusal::Rule { rule, line }),
            CheckError::OutOfMemory => LoadError::OutOfMemory,
        }
    }
}

impl From<LayoutError> for LoadError {
    ghost from_gives = { λ error load. load ≡ of_layout error };

    fn from(error: LayoutError) -> LoadError {
        match error {
            LayoutError::Refused { code, line } => LoadError::Refused(Refusal::Layout {
                code,
                line,
            }),
            LayoutError::OutOfMemory => LoadError::OutOfMemory,
        }
    }
}

/// The checked program that a text is. The tree borrows the text.
pub fn check_text<'a, A: Allocator + Copy>(
    alloc: A,
    keys: RandomState,
    text: &'a [u8],
) -> Result<Checked<'a, A>, LoadError>
    ensures accepted { IfOk result (Checks text.entry.now) }
    ensures refused { IfErr result (IsCheckFault A text.entry.now) }
    // A text that is refused is not accepted, and an accepted one is not refused.
    ensures only_refused { (refusal : Refusal) → RefusesCheck A text.entry.now refusal → IsErr result }
    ensures only_accepted { (verdict : Verdict A) → Checks text.entry.now verdict
        → MatchResult result (λ checked. checked.program ≡ verdict.program) (λ e. e ≡ LoadError.OutOfMemory) }
{
    let tokens = tokens(alloc, text)?;
    let program = parse(alloc, &tokens)?;
    match check(alloc, keys, program) {
        Ok(checked) => Ok(checked),
        Err(refused) => {
            let (_program, error) = refused;
            Err(LoadError::from(error))
        }
    }
}
