//! Whether a run stands where a stop ended it.

use crate::logging::add_message;
use qil_machine::Code;
use qrev_debuggee::{Debuggee, HasMachine, StopRule, Why, hits};
use qrev_expressions::{Missing, Scene, Unread, evaluate, holds, parse};
use qrev_map::Names;
use qrev_views::Readers;
use std::alloc::{AllocError, Allocator};

/// Whether a condition holds in a state. One that has no value in this state doesn't hold; one that can have none in any state
/// does, so that the run stops where that shows.
fn condition_holds<'c, A: Allocator + Copy + 'c, M: Readers<A, Code<'c, A>>>(
    alloc: A,
    machine: &M,
    names: &Names<A>,
    scene: Scene,
    condition: &str,
) -> Result<bool, AllocError> {
    let expression = match parse(alloc, condition.as_bytes()) {
        Ok(expression) => expression,
        Err(Unread::Malformed) => return Ok(true),
        Err(Unread::OutOfMemory) => return Err(AllocError),
    };
    match holds(evaluate(alloc, machine, names, scene, &expression)?) {
        Ok(holds) => Ok(holds),
        Err(Missing::NoSuchName | Missing::OfFloats | Missing::NotWhole) => Ok(true),
        Err(_) => Ok(false),
    }
}

/// Whether what a rule asks for holds, where the run comes to it.
fn rule_holds<'c, A: Allocator + Copy + 'c, M: Readers<A, Code<'c, A>>>(
    alloc: A,
    machine: &M,
    names: &Names<A>,
    scene: Scene,
    rule: &mut StopRule<A>,
) -> Result<bool, AllocError> {
    if let Some(condition) = &rule.condition {
        if !condition_holds(alloc, machine, names, scene, condition.as_str())? {
            return Ok(false);
        }
    }
    let count = rule.meet(scene.position)?;
    match rule.hits {
        Some(hits) => Ok(hits.allows(count)),
        None => Ok(true),
    }
}

/// What becomes of a run at a breakpoint.
#[derive(Clone, Copy, PartialEq, Eq)]
enum Judged {
    Stands,
    Passes,
    Tells,
}

/// What becomes of it by a rule.
fn judge_rule<'c, A: Allocator + Copy + 'c, M: Readers<A, Code<'c, A>>>(
    alloc: A,
    machine: &M,
    names: &Names<A>,
    scene: Scene,
    rule: &mut StopRule<A>,
) -> Result<Judged, AllocError> {
    if !rule_holds(alloc, machine, names, scene, rule)? {
        return Ok(Judged::Passes);
    }
    if rule.message.is_some() {
        Ok(Judged::Tells)
    } else {
        Ok(Judged::Stands)
    }
}

/// The rule of a breakpoint, by its number among the rules.
fn rule_of<A: Allocator>(rules: &[StopRule<A>], id: u64) -> Option<usize> {
    rules.iter().position(|rule| rule.id == id)
}

/// What becomes of the run at the breakpoint of a number, and what it logs there.
fn judge_one<'c, A: Allocator + Copy + 'c, L: HasMachine<A, Code<'c, A>>>(
    debuggee: &mut Debuggee<'c, A, L>,
    id: u64,
    log: &mut String<A>,
) -> Result<bool, AllocError> {
    let Some(index) = rule_of(debuggee.rules.as_slice(), id) else {
        return Ok(true);
    };
    let scene = Scene {
        number: 1,
        position: debuggee.position(),
    };
    let alloc = debuggee.alloc;
    let machine = debuggee.recorder.live();
    let Some(rule) = debuggee.rules.as_mut_slice().get_mut(index) else {
        return Ok(true);
    };
    match judge_rule(alloc, machine, &debuggee.names, scene, rule)? {
        Judged::Stands => Ok(true),
        Judged::Passes => Ok(false),
        Judged::Tells => {
            if let Some(message) = &rule.message {
                add_message(
                    alloc,
                    machine,
                    &debuggee.names,
                    scene,
                    message.as_str(),
                    log,
                )?;
            }
            Ok(false)
        }
    }
}

/// Whether the run stops at one of the breakpoints at which it came, whose number is noted; adds what others log.
pub fn judge<'c, A: Allocator + Copy + 'c, L: HasMachine<A, Code<'c, A>>>(
    debuggee: &mut Debuggee<'c, A, L>,
    why: Why,
    log: &mut String<A>,
) -> Result<bool, AllocError> {
    let found = hits(debuggee, why)?;
    if found.is_empty() {
        return Ok(true);
    }
    debuggee.hit.clear();
    for id in found.as_slice() {
        if judge_one(debuggee, *id, log)? {
            debuggee.hit.push(*id)?;
        }
    }
    Ok(!debuggee.hit.is_empty())
}
