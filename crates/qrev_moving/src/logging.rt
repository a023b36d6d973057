//! What a logpoint writes: a text with expressions in braces.

use qil_machine::Code;
use qrev_expressions::{Missing, Scene, Told, Unread, evaluate, parse, tell};
use qrev_map::Names;
use qrev_views::{Readers, Showing, code_of};
use std::alloc::{AllocError, Allocator};

/// Adds what an expression is worth, or why it is worth nothing.
fn add_worth<'c, A: Allocator + Copy + 'c, M: Readers<A, Code<'c, A>>>(
    alloc: A,
    machine: &M,
    names: &Names<A>,
    scene: Scene,
    text: &str,
    log: &mut String<A>,
) -> Result<(), AllocError> {
    let expression = match parse(alloc, text.as_bytes()) {
        Ok(expression) => expression,
        Err(Unread::Malformed) => return add_braced(text, log),
        Err(Unread::OutOfMemory) => return Err(AllocError),
    };
    let value = evaluate(alloc, machine, names, scene, &expression)?;
    let showing = Showing {
        is_hex: false,
        has_types: false,
        has_references: false,
    };
    match tell(alloc, code_of(machine), showing, &expression, value)? {
        Told::Text(text) => log.push_str(text.as_str()),
        Told::Missing(Missing::Dead) => log.push_str("dead"),
        Told::Missing(Missing::NoSuchName) => add_braced(text, log),
        Told::Missing(_) => log.push_str("unset"),
    }
}

/// Adds a text in braces, as it was written.
fn add_braced<A: Allocator>(text: &str, log: &mut String<A>) -> Result<(), AllocError> {
    log.push_str("{")?;
    log.push_str(text)?;
    log.push_str("}")
}

/// Adds a message as a line: what stands in braces is an expression.
pub fn add_message<'c, A: Allocator + Copy + 'c, M: Readers<A, Code<'c, A>>>(
    alloc: A,
    machine: &M,
    names: &Names<A>,
    scene: Scene,
    message: &str,
    log: &mut String<A>,
) -> Result<(), AllocError> {
    let mut is_first = true;
    for part in message.split('{') {
        match part.split_once("}") {
            Some((inside, behind)) if !is_first => {
                add_worth(alloc, machine, names, scene, inside, log)?;
                log.push_str(behind)?;
            }
            _ => {
                if !is_first {
                    log.push_str("{")?;
                }
                log.push_str(part)?;
            }
        }
        is_first = false;
    }
    log.push_str("\n")
}
