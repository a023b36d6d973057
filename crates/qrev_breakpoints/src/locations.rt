//! `breakpointLocations`: the lines of a range at which a breakpoint stays.

use crate::asked_file::{AskedFile, AskedSource, file_asked};
use crate::stops::BreakpointList;
use qil_machine::Code;
use qil_tree::{Block, Program};
use qrev_debuggee::{Body, Debuggee, Failure, HasMachine};
use qrev_requests::Arguments;
use qrev_views::Numbering;
use std::alloc::{AllocError, Allocator};

/// The line of the last jump of a program: no line after it means a place.
fn last_line<A: Allocator>(program: &Program<'_, A>) -> u32 {
    match program.funcs.as_slice().last() {
        Some(func) => match func.blocks.as_slice().last() {
            Some(block) => block.jump.line,
            None => 0,
        },
        None => 0,
    }
}

/// Adds the lines of a source in a range, at which a breakpoint stays.
fn put_source_lines<A: Allocator>(
    list: BreakpointList<A>,
    program: &Program<'_, A>,
    source: &AskedSource<A>,
    numbering: Numbering,
    first: u64,
    last: u64,
) -> Result<BreakpointList<A>, AllocError> {
    let mut list = list;
    let Some(from) = numbering.file_line(first) else {
        return Ok(list);
    };
    let end = last_line(program);
    let mut told = 0;
    for mapping in source.file.mappings_from(from) {
        let line = numbering.line(mapping.line);
        if line > last {
            break;
        }
        if mapping.line != told && mapping.text_line <= end {
            list = list.object()?.number("line", line)?.end_item()?;
        }
        told = mapping.line;
    }
    Ok(list)
}

/// Adds a line of the text, if it is in a range.
fn put_line<A: Allocator>(
    list: BreakpointList<A>,
    line: u32,
    numbering: Numbering,
    first: u64,
    last: u64,
) -> Result<BreakpointList<A>, AllocError> {
    let line = numbering.line(line);
    if line < first || last < line {
        return Ok(list);
    }
    list.object()?.number("line", line)?.end_item()
}

/// Adds the lines of a block that are in a range.
fn put_block_lines<A: Allocator>(
    list: BreakpointList<A>,
    block: &Block<'_, A>,
    next: Option<&Block<'_, A>>,
    numbering: Numbering,
    first: u64,
    last: u64,
) -> Result<BreakpointList<A>, AllocError> {
    let mut list = list;
    for inst in block.insts.as_slice() {
        list = put_line(list, inst.line, numbering, first, last)?;
    }
    match next {
        Some(next) if next.line == block.jump.line => Ok(list),
        _ => put_line(list, block.jump.line, numbering, first, last),
    }
}

/// Adds the lines of the text in a range that are those of an instruction or of a jump of these blocks.
fn put_blocks_lines<A: Allocator>(
    list: BreakpointList<A>,
    blocks: &[Block<'_, A>],
    numbering: Numbering,
    first: u64,
    last: u64,
) -> Result<BreakpointList<A>, AllocError> {
    let mut list = list;
    for number in 0..blocks.len() {
        let next = blocks.get(number + 1);
        list = put_block_lines(list, &blocks[number], next, numbering, first, last)?;
    }
    Ok(list)
}

/// Adds the lines of the text in a range that are those of an instruction or of a jump.
fn put_text_lines<A: Allocator>(
    list: BreakpointList<A>,
    program: &Program<'_, A>,
    numbering: Numbering,
    first: u64,
    last: u64,
) -> Result<BreakpointList<A>, AllocError> {
    let mut list = list;
    for func in program.funcs.as_slice() {
        list = put_blocks_lines(list, func.blocks.as_slice(), numbering, first, last)?;
    }
    Ok(list)
}

/// Adds the lines of a range at which a breakpoint stays.
pub fn breakpoint_locations<'c, A: Allocator + Copy + 'c, L: HasMachine<A, Code<'c, A>>>(
    debuggee: &Debuggee<'c, A, L>,
    asked: Arguments<'_, '_, A>,
    body: Body<A>,
) -> Result<Body<A>, Failure> {
    let file = file_asked(debuggee, asked.inside("source"))?;
    let program = debuggee.program();
    let numbering = debuggee.shown.numbering;
    let first = asked.number("line").unwrap_or(0);
    let last = asked.number("endLine").unwrap_or(first);
    let list = body.array("breakpoints")?;
    let list = match &file {
        AskedFile::Text => put_text_lines(list, program, numbering, first, last)?,
        AskedFile::Source(source) => {
            put_source_lines(list, program, source, numbering, first, last)?
        }
    };
    Ok(list.end()?)
}
