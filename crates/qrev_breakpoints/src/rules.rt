//! What a breakpoint asks for besides its place: a condition, a count of hits, a message.

use crate::stops::Flaw;
use qil_machine::Code;
use qrev_debuggee::{Debuggee, Failure, HasMachine, StopRule, hit_rule};
use qrev_expressions::{Unread, parse};
use qrev_requests::Arguments;
use std::alloc::{AllocError, Allocator};

/// Whether a text is an expression.
fn is_expression<A: Allocator + Copy>(alloc: A, text: &str) -> Result<bool, Failure> {
    match parse(alloc, text.as_bytes()) {
        Ok(_) => Ok(true),
        Err(Unread::Malformed) => Ok(false),
        Err(Unread::OutOfMemory) => Err(Failure::OutOfMemory),
    }
}

/// What is wrong with what a breakpoint asks for.
pub fn flaw_in<A: Allocator + Copy>(
    alloc: A,
    asked: Arguments<'_, '_, A>,
) -> Result<Option<Flaw>, Failure> {
    if let Some(condition) = said(asked, "condition") {
        if !is_expression(alloc, condition)? {
            return Ok(Some(Flaw::Condition));
        }
    }
    if let Some(hits) = said(asked, "hitCondition") {
        if hit_rule(hits.as_bytes()).is_none() {
            return Ok(Some(Flaw::HitCondition));
        }
    }
    match asked.text("accessType") {
        Some("read" | "readWrite") => Ok(Some(Flaw::AccessType)),
        _ => Ok(None),
    }
}

/// The text of a member, if it says something.
fn said<'q, A: Allocator + Copy>(asked: Arguments<'_, 'q, A>, name: &str) -> Option<&'q str> {
    match asked.text(name) {
        Some(text) if !text.is_empty() => Some(text),
        _ => None,
    }
}

/// A copy of the text of a member, if it says something.
fn copied<A: Allocator + Copy>(
    alloc: A,
    asked: Arguments<'_, '_, A>,
    name: &str,
) -> Result<Option<String<A>>, AllocError> {
    match said(asked, name) {
        Some(text) => Ok(Some(String::from_str(alloc, text)?)),
        None => Ok(None),
    }
}

/// What a breakpoint of a number asks for.
fn rule_of<A: Allocator + Copy>(
    alloc: A,
    id: u64,
    asked: Arguments<'_, '_, A>,
) -> Result<StopRule<A>, AllocError> {
    Ok(StopRule {
        id,
        condition: copied(alloc, asked, "condition")?,
        hits: hit_rule(said(asked, "hitCondition").unwrap_or("").as_bytes()),
        message: copied(alloc, asked, "logMessage")?,
        met: Vec::new(alloc),
    })
}

/// Notes what a breakpoint of a number asks for.
pub fn add_rule<'c, A: Allocator + Copy + 'c, L: HasMachine<A, Code<'c, A>>>(
    debuggee: &mut Debuggee<'c, A, L>,
    id: u64,
    asked: Arguments<'_, '_, A>,
) -> Result<(), Failure> {
    let rule = rule_of(debuggee.alloc, id, asked)?;
    if rule.is_plain() {
        return Ok(());
    }
    match debuggee.rules.push(rule) {
        Ok(()) => Ok(()),
        Err(_) => Err(Failure::OutOfMemory),
    }
}

/// Forgets what breakpoints asked for that aren't there any more.
pub fn drop_rules<'c, A: Allocator + Copy + 'c, L: HasMachine<A, Code<'c, A>>>(
    debuggee: &mut Debuggee<'c, A, L>,
) {
    let stops = debuggee.stops.as_slice();
    debuggee
        .rules
        .retain(|rule| stops.iter().any(|stop| stop.id == rule.id));
}
