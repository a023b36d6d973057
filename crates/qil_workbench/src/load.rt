//! From a text to a checked program, stage by stage, so that no function has all of it in its hands.

ghost use Rattle.qil_tree.specs.Trees.{HasBlocks};

use crate::answer::{Answer, reported};
use qil_checker::{Checked, check};
use qil_lexer::tokens;
use qil_parser::{Program, parse};
use std::alloc::Allocator;
use std::fmt::Display;
use std::hash::RandomState;

/// Tells why there is no program, as its error says it.
pub fn refused<R: Print, E: Display>(rt: &R, error: &E) -> Answer {
    reported(println!(rt; "refused: {error}").is_ok())
}

/// Checks a program, or says why it is refused.
fn check_parsed<'t, R: Print, A: Allocator + Copy>(
    program: Program<'t, A>,
    rt: &R,
    alloc: A,
    keys: RandomState,
) -> Result<Checked<'t, A>, Answer>
    // As `parse` gives it.
    requires { HasBlocks program }
{
    match check(alloc, keys, program) {
        Ok(checked) => Ok(checked),
        Err((_program, error)) => Err(refused(rt, &error)),
    }
}

/// The program of a text, checked. Where it is refused the line of that is reported.
pub fn checked<'t, R: Print, A: Allocator + Copy>(
    rt: &R,
    alloc: A,
    keys: RandomState,
    text: &'t [u8],
) -> Result<Checked<'t, A>, Answer> {
    let found = match tokens(alloc, text) {
        Ok(found) => found,
        Err(error) => return Err(refused(rt, &error)),
    };
    match parse(alloc, &found) {
        Ok(program) => check_parsed(program, rt, alloc, keys),
        Err(error) => Err(refused(rt, &error)),
    }
}
