//! The parser.

ghost use Rattle.std.specs.Prelude.{◌≡◌, List, ℕ, false, IfOk, IfErr};
ghost use Rattle.qil_lexer.specs.Cut.{Cuts};
ghost use Rattle.qil_parser.specs.Token.{Tok, seen};
ghost use Rattle.qil_parser.specs.Programs.{Spells};
ghost use Rattle.qil_tree.specs.Trees.{HasBlocks};
ghost use Rattle.qil_parser.specs.Fault.{TokenFault, last_line};
ghost use Rattle.qil_language.specs.Reading.{got};
ghost use Rattle.qil_parser.specs.DataParsing.{program};
ghost use Rattle.qil_parser.specs.Outcome.{IsFault, IsProgram, IsRefusedAt, TellsError, code_of};
ghost use Rattle.qil_tree.specs.declared.tree.Program.{Program};
ghost use Rattle.qil_parser.specs.declared.error.ParseCode.{ParseCode};

use crate::cursor::Cursor;
use crate::cursor_error::CursorError;
use crate::error::{ParseCode, ParseError};
use crate::words::is_left_out;
use qil_lexer::{Token, TokenKind};
use qil_tree::Program;
use std::alloc::Allocator;

fn last_line(tokens: &[Token]) -> u32
    ensures { result ≡ last_line (seen tokens.now) }
{
    match tokens.last() {
        Some(last) => last.line,
        None => 1,
    }
}

/// The code of a token that fits nothing, where it doesn't end a block without a jump.
fn unfit_code(token: &Token) -> ParseCode
    ensures { result ≡ code_of false token.now.kind token.now.text.now }
{
    if is_left_out(token) {
        ParseCode::P2
    } else {
        ParseCode::P1
    }
}

/// The code of the first token that fits nothing.
fn code_of(marked: bool, token: &Token) -> ParseCode
    ensures { result ≡ code_of marked token.now.kind token.now.text.now }
{
    if marked && matches!(token.kind, TokenKind::CloseBrace) {
        ParseCode::P4
    } else {
        unfit_code(token)
    }
}

/// The fault of tokens of which these are left, and whether a block without a jump came before them.
fn refusal(tokens: &[Token], marked: bool, left: &[Token]) -> ParseError
    ensures { TellsError (seen tokens.now) marked (seen left.now) result }
{
    match left.first() {
        Some(first) => ParseError::Refused {
            code: code_of(marked, first),
            line: first.line,
        },
        None => ParseError::Refused {
            code: ParseCode::P3,
            line: last_line(tokens),
        },
    }
}

/// What is answered where this program was read from the prefix of the tokens, and these are left.
fn whole<'a, A: Allocator>(
    tokens: &[Token<'a>],
    read: Program<'a, A>,
    left: &[Token<'a>],
) -> Result<Program<'a, A>, ParseError>
    requires { program (seen tokens.now) ≡ got read (seen left.now) }
    ensures spelled { IfOk result (λ p. Spells (seen tokens.now) p × ((q : Program A) → Spells (seen tokens.now) q → q ≡ p)) }
    ensures blocks { IfOk result HasBlocks }
    ensures fault { IfErr result (λ e. IsFault A (seen tokens.now) e) }
    ensures only_spelled { (p : Program A) → Spells (seen tokens.now) p → IsProgram p result }
    ensures only_fault { (code : ParseCode) (line : ℕ) → TokenFault A (seen tokens.now) code line → IsRefusedAt code line result }
{
    match left {
        [] => Ok(read),
        [_, ..] => Err(refusal(tokens, false, left)),
    }
}

/// The program that the tokens of a text spell. The tree borrows the text.
///
/// Refused with a code and a line where they spell none; `OutOfMemory` where the tree found no room.
pub fn parse<'a, A: Allocator + Copy>(
    alloc: A,
    tokens: &[Token<'a>],
) -> Result<Program<'a, A>, ParseError>
    requires cut { (text : List ℕ) × Cuts text tokens.now }
    // What is given is spelled by the tokens, and nothing else is.
    ensures spelled { IfOk result (λ p. Spells (seen tokens.now) p × ((q : Program A) → Spells (seen tokens.now) q → q ≡ p)) }
    // Each of its functions has a block.
    ensures blocks { IfOk result HasBlocks }
    // A refusal comes only where the tokens are no program's, and is their fault.
    ensures fault { IfErr result (λ e. IsFault A (seen tokens.now) e) }
    // Where the tokens spell a program it is given.
    ensures only_spelled { (p : Program A) → Spells (seen tokens.now) p → IsProgram p result }
    // Where the tokens have a fault it is answered.
    ensures only_fault { (code : ParseCode) (line : ℕ) → TokenFault A (seen tokens.now) code line → IsRefusedAt code line result }
{
    let mut cursor = Cursor { rest: tokens };
    match cursor.program(alloc) {
        Ok(program) => whole(tokens, program, cursor.rest),
        Err(CursorError::Memory) => Err(ParseError::OutOfMemory),
        Err(CursorError::Refused(marked)) => Err(refusal(tokens, marked, cursor.rest)),
    }
}

/// Tokens have one fault at most.
pub fn one_fault<A>()
    ensures { (ts : List Tok) (c d : ParseCode) (k l : ℕ) → TokenFault A ts c k → TokenFault A ts d l → (c ≡ d) × (k ≡ l) }
{}
