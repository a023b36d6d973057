//! Steps from line to line of a source, by the map of places.

use qil_lines::{Place, line_of};
use qil_machine::Code;
use qil_semantics::Reason;
use qil_tree::{Func, Program};
use qrev_debuggee::{Debuggee, Failure, HasMachine, Motion, Why, make_move};
use qrev_views::{Readers, SourceMap};
use std::alloc::Allocator;

/// Where an editor asks to go.
#[derive(Clone, Copy)]
pub enum Travel {
    Motion(Motion),
    /// To the next line of the source, over calls or into them.
    Line { into: bool },
    /// To the beginning of the line of the source, or of the line before.
    LineBack,
}

/// Where a run stood: how many calls were open, and on which line of the text.
#[derive(Clone, Copy)]
pub struct Stand {
    pub depth: usize,
    pub line: u32,
}

/// The line of the text at which a run stands, or 0 where no call is open.
fn line_now<'c, A: Allocator + Copy + 'c, M: Readers<A, Code<'c, A>>>(
    machine: &M,
    program: &Program<'_, A>,
) -> u32 {
    let Some(frame) = machine.frame(0) else {
        return 0;
    };
    let place = Place {
        block: usize::from(frame.block().index),
        index: frame.index() as usize,
    };
    match program
        .funcs
        .as_slice()
        .get(usize::from(frame.func().index))
    {
        Some(func) => line_of(func, place).unwrap_or(0),
        None => 0,
    }
}

/// Where a run stands.
pub fn stand_of<'c, A: Allocator + Copy + 'c, L: HasMachine<A, Code<'c, A>>>(
    debuggee: &Debuggee<'c, A, L>,
) -> Stand {
    Stand {
        depth: debuggee.depth(),
        line: line_now(debuggee.machine(), debuggee.program()),
    }
}

/// Whether a line of the text came from a source.
fn has_source<A: Allocator + Copy>(source_map: &SourceMap<A>, line: u32) -> bool {
    source_map.map.source_of(line).is_some()
}

/// Whether two lines of the text came from one line of a source.
fn is_one_line<A: Allocator + Copy>(source_map: &SourceMap<A>, one: u32, other: u32) -> bool {
    match (
        source_map.map.source_of(one),
        source_map.map.source_of(other),
    ) {
        (Some((path, line)), Some((other_path, other_line))) => {
            line == other_line && path == other_path
        }
        _ => false,
    }
}

/// Whether a line of a function came from a source.
fn func_has_source<A: Allocator + Copy>(source_map: &SourceMap<A>, func: &Func<'_, A>) -> bool {
    for block in func.blocks.as_slice() {
        if has_source(source_map, block.jump.line) {
            return true;
        }
        for inst in block.insts.as_slice() {
            if has_source(source_map, inst.line) {
                return true;
            }
        }
    }
    false
}

/// Whether the innermost call is of a function that came from no source.
fn is_in_sourceless<'c, A: Allocator + Copy + 'c, M: Readers<A, Code<'c, A>>>(
    machine: &M,
    program: &Program<'_, A>,
    source_map: &SourceMap<A>,
) -> bool {
    let Some(frame) = machine.frame(0) else {
        return false;
    };
    match program
        .funcs
        .as_slice()
        .get(usize::from(frame.func().index))
    {
        Some(func) => !func_has_source(source_map, func),
        None => false,
    }
}

/// Whether a run that came to another place is on another line, or in another call.
fn has_arrived<A: Allocator + Copy>(source_map: &SourceMap<A>, start: Stand, now: Stand) -> bool {
    if !has_source(source_map, now.line) {
        return false;
    }
    now.depth != start.depth || !is_one_line(source_map, start.line, now.line)
}

/// Whether a run that goes back came to another line than the one that it was on, or into the caller.
fn has_left<A: Allocator + Copy>(source_map: &SourceMap<A>, target: Stand, now: Stand) -> bool {
    now.depth < target.depth || !is_one_line(source_map, target.line, now.line)
}

/// What a run does next.
#[derive(Clone, Copy)]
pub enum Next {
    /// It stands, for this.
    Stands(Why),
    GoesOn,
}

/// Whether so many moves were made since a position that a request is done.
pub fn is_spent<'c, A: Allocator + Copy + 'c, L: HasMachine<A, Code<'c, A>>>(
    debuggee: &Debuggee<'c, A, L>,
    begun: u64,
) -> bool {
    debuggee.position().abs_diff(begun) >= debuggee.recorder.opening().limit
}

/// Whether a run is in a call that a step into calls doesn't show.
fn hides_call<'c, A: Allocator + Copy + 'c, L: HasMachine<A, Code<'c, A>>>(
    debuggee: &Debuggee<'c, A, L>,
    start: Stand,
) -> bool {
    match &debuggee.source_map {
        Some(source_map) => {
            debuggee.depth() > start.depth
                && is_in_sourceless(debuggee.machine(), debuggee.program(), source_map)
        }
        None => false,
    }
}

/// Makes the next move of a step to another line.
fn line_motion<'c, A: Allocator + Copy + 'c, L: HasMachine<A, Code<'c, A>>>(
    debuggee: &Debuggee<'c, A, L>,
    start: Stand,
    into: bool,
) -> Motion {
    if hides_call(debuggee, start) {
        return Motion::ToDepth(debuggee.depth().saturating_sub(1));
    }
    if into {
        Motion::Step
    } else {
        Motion::ToDepth(start.depth)
    }
}

/// Whether a step to another line is there.
fn line_arrived<'c, A: Allocator + Copy + 'c, L: HasMachine<A, Code<'c, A>>>(
    debuggee: &Debuggee<'c, A, L>,
    start: Stand,
) -> bool {
    match &debuggee.source_map {
        Some(source_map) => has_arrived(source_map, start, stand_of(debuggee)),
        None => true,
    }
}

/// Makes a move of a step to another line, and says whether the run stands there.
pub fn line_step<'c, A: Allocator + Copy + 'c, L: HasMachine<A, Code<'c, A>>>(
    debuggee: &mut Debuggee<'c, A, L>,
    start: Stand,
    into: bool,
) -> Result<Next, Failure> {
    let motion = line_motion(debuggee, start, into);
    let why = make_move(debuggee, motion)?;
    if !matches!(why, Why::Step) {
        return Ok(Next::Stands(why));
    }
    if line_arrived(debuggee, start) {
        Ok(Next::Stands(why))
    } else {
        Ok(Next::GoesOn)
    }
}

/// Goes back to a place that came from a source, which is on the line whose beginning is wanted.
fn line_back_to<'c, A: Allocator + Copy + 'c, L: HasMachine<A, Code<'c, A>>>(
    debuggee: &mut Debuggee<'c, A, L>,
    begun: u64,
) -> Result<Why, Failure> {
    let depth = debuggee.depth().max(1);
    for _ in 0..u64::MAX {
        let why = make_move(debuggee, Motion::BackToDepth(depth))?;
        let line = stand_of(debuggee).line;
        let found = match &debuggee.source_map {
            Some(source_map) => has_source(source_map, line),
            None => true,
        };
        if !matches!(why, Why::Step) || found {
            return Ok(why);
        }
        if is_spent(debuggee, begun) {
            return Ok(Why::Run(Reason::Limit));
        }
    }
    Ok(Why::Step)
}

/// Whether the run left a line, going back.
fn left_line<'c, A: Allocator + Copy + 'c, L: HasMachine<A, Code<'c, A>>>(
    debuggee: &Debuggee<'c, A, L>,
    target: Stand,
) -> bool {
    match &debuggee.source_map {
        Some(source_map) => has_left(source_map, target, stand_of(debuggee)),
        None => true,
    }
}

/// Goes back to the beginning of the line of the source at which the run stands then, or of the line before.
pub fn line_back<'c, A: Allocator + Copy + 'c, L: HasMachine<A, Code<'c, A>>>(
    debuggee: &mut Debuggee<'c, A, L>,
    begun: u64,
) -> Result<Why, Failure> {
    let why = line_back_to(debuggee, begun)?;
    if !matches!(why, Why::Step) {
        return Ok(why);
    }
    let target = stand_of(debuggee);
    for _ in 0..u64::MAX {
        let why = make_move(debuggee, Motion::BackToDepth(target.depth))?;
        if !matches!(why, Why::Step) {
            return Ok(why);
        }
        if left_line(debuggee, target) {
            break;
        }
        if is_spent(debuggee, begun) {
            return Ok(Why::Run(Reason::Limit));
        }
    }
    // One place too far.
    make_move(debuggee, Motion::ToDepth(target.depth))
}
