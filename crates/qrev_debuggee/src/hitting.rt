//! At which breakpoints the run stands.

use crate::debuggee::{Debuggee, RequestedStop};
use crate::motion::Why;
use qil_fragments::{Fragment, put_fragments};
use qil_machine::Code;
use qil_render::{Readers, code_of, func_name, label_name};
use qil_semantics::Reason;
use qil_streams::Buffer;
use qrev_recorder::HasMachine;
use std::alloc::{AllocError, Allocator};

/// The place in the session's answer to a line that made a breakpoint: `break 3 $f @b 0`.
fn place_told(answer: &[u8]) -> Option<&[u8]> {
    let words = answer.strip_prefix(b"break ")?;
    let end = words.iter().position(|byte| *byte == b' ')?;
    let (_, place) = words.split_at(end.min(words.len()));
    place.strip_prefix(b" ")
}

/// The place of the innermost frame, as the session shows it; nothing if no call is open.
fn place_now<'c, A: Allocator + Copy + 'c, M: Readers<A, Code<'c, A>>>(
    alloc: A,
    machine: &M,
) -> Result<Buffer<A>, AllocError> {
    let mut text = Buffer::new(alloc);
    let Some(frame) = machine.frame(0) else {
        return Ok(text);
    };
    let code = code_of(machine);
    let put = put_fragments(
        &mut text,
        &[
            Fragment::Bytes(b"$"),
            Fragment::Bytes(func_name(code, frame.func())),
            Fragment::Bytes(b" @"),
            Fragment::Bytes(label_name(code, frame.func(), frame.block())),
            Fragment::Bytes(b" "),
            Fragment::Number(u64::from(frame.index())),
        ],
    );
    match put {
        Ok(()) => Ok(text),
        Err(_) => Err(AllocError),
    }
}

/// Adds a number to a list that rises, if it isn't there.
fn add_number<A: Allocator>(numbers: &mut Vec<u64, A>, number: u64) -> Result<(), AllocError> {
    let at = numbers.as_slice().partition_point(|other| *other < number);
    if numbers.as_slice().get(at) == Some(&number) {
        return Ok(());
    }
    match numbers.insert(at, number) {
        Ok(()) => Ok(()),
        Err(_) => Err(AllocError),
    }
}

/// The stop that ended a run, if one did.
fn stop_of(why: Why) -> Option<u64> {
    match why {
        Why::Run(Reason::Break(number) | Reason::Watch(number)) => Some(number),
        _ => None,
    }
}

/// The number by which the editor knows a stop.
fn id_of(stops: &[RequestedStop], number: u64) -> u64 {
    match stops.iter().find(|stop| stop.number == number) {
        Some(stop) => stop.id,
        None => number,
    }
}

/// The breakpoints at which a run stands that a stop ended, the lowest number first: that of the stop, and all at this place.
pub fn hits<'c, A: Allocator + Copy + 'c, L: HasMachine<A, Code<'c, A>>>(
    debuggee: &Debuggee<'c, A, L>,
    why: Why,
) -> Result<Vec<u64, A>, AllocError> {
    let mut found = Vec::new(debuggee.alloc);
    let Some(number) = stop_of(why) else {
        return Ok(found);
    };
    let stops = debuggee.stops.as_slice();
    add_number(&mut found, id_of(stops, number))?;
    let place = place_now(debuggee.alloc, debuggee.machine())?;
    for stop in stops {
        if place_told(debuggee.told(stop.answer)) == Some(place.bytes()) {
            add_number(&mut found, stop.id)?;
        }
    }
    Ok(found)
}
