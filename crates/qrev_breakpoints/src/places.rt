//! The places at which a run comes to a line of a source: those of its places before which, in their function, a place of another
//! line can come. What came from no source is of no line.

use crate::asked_file::AskedSource;
use qil_lines::{Place, line_of};
use qil_tree::{Block, Func, JumpKind, Program};
use qrev_views::SourceMap;
use std::alloc::{AllocError, Allocator};

/// A place of a function, by the function's number in the text.
#[derive(Clone, Copy)]
pub struct FuncPlace {
    pub func: usize,
    pub place: Place,
}

/// A line of a source, by the map.
#[derive(Clone, Copy)]
struct Wanted<'m, A: Allocator> {
    source_map: &'m SourceMap<A>,
    path: &'m [u8],
    line: u32,
}

impl<'m, A: Allocator + Copy> Wanted<'m, A> {
    /// Whether a line of the text came from it.
    fn has(self, text_line: u32) -> bool {
        match self.source_map.map.source_of(text_line) {
            Some((path, line)) => line == self.line && path == self.path,
            None => false,
        }
    }
}

/// Whether the text has the jump of a block: one that is left out has the line of the next label.
fn has_jump<A: Allocator>(func: &Func<'_, A>, number: usize, block: &Block<'_, A>) -> bool {
    match func.blocks.as_slice().get(number.saturating_add(1)) {
        Some(next) => block.jump.line != next.line,
        None => true,
    }
}

/// The line of the last place of a block that the text has.
fn last_line<A: Allocator>(func: &Func<'_, A>, number: usize, block: &Block<'_, A>) -> u32 {
    if has_jump(func, number, block) {
        return block.jump.line;
    }
    match block.insts.as_slice().last() {
        Some(inst) => inst.line,
        None => block.line,
    }
}

/// Whether a jump leads to a block.
fn leads_to(jump: &JumpKind<'_>, label: &[u8]) -> bool {
    match jump {
        JumpKind::Jmp(to) => to.bytes() == label,
        JumpKind::Jnz(_, one, other) => one.bytes() == label || other.bytes() == label,
        JumpKind::Ret(_) | JumpKind::Hlt => false,
    }
}

/// Whether a run can come to a block from a place of another line, or at the beginning of its function.
fn comes_from_elsewhere<A: Allocator + Copy>(
    wanted: Wanted<'_, A>,
    func: &Func<'_, A>,
    number: usize,
) -> bool {
    let blocks = func.blocks.as_slice();
    let Some(block) = blocks.get(number) else {
        return false;
    };
    if number == 0 {
        return true;
    }
    for before in 0..blocks.len() {
        let other = &blocks[before];
        if leads_to(&other.jump.kind, block.label.bytes())
            && !wanted.has(last_line(func, before, other))
        {
            return true;
        }
    }
    false
}

/// Whether a place is of a line, and the text has what is there.
fn is_of<A: Allocator + Copy>(wanted: Wanted<'_, A>, func: &Func<'_, A>, place: Place) -> bool {
    let Some(block) = func.blocks.as_slice().get(place.block) else {
        return false;
    };
    if place.index >= block.insts.as_slice().len() && !has_jump(func, place.block, block) {
        return false;
    }
    match line_of(func, place) {
        Some(line) => wanted.has(line),
        None => false,
    }
}

/// Whether the place before one in its block that came from a source is of a line; none is said where no place before it did.
fn goes_on<A: Allocator + Copy>(
    wanted: Wanted<'_, A>,
    func: &Func<'_, A>,
    place: Place,
) -> Option<bool> {
    for back in 0..place.index {
        let before = Place {
            block: place.block,
            index: place.index - 1 - back,
        };
        if let Some(line) = line_of(func, before) {
            if wanted.source_map.map.source_of(line).is_some() {
                return Some(wanted.has(line));
            }
        }
    }
    None
}

/// Whether a run comes to a line at a place of it.
fn is_entry<A: Allocator + Copy>(wanted: Wanted<'_, A>, func: &Func<'_, A>, place: Place) -> bool {
    if !is_of(wanted, func, place) {
        return false;
    }
    match goes_on(wanted, func, place) {
        Some(goes_on) => !goes_on,
        None => comes_from_elsewhere(wanted, func, place.block),
    }
}

/// Adds the places of a block at which a run comes to a line.
fn add_block<A: Allocator + Copy>(
    found: &mut Vec<FuncPlace, A>,
    wanted: Wanted<'_, A>,
    func: &Func<'_, A>,
    number: usize,
    (block, length): (usize, usize),
) -> Result<(), AllocError> {
    for index in 0..length.saturating_add(1) {
        let place = Place { block, index };
        if is_entry(wanted, func, place) {
            let place = FuncPlace {
                func: number,
                place,
            };
            match found.push(place) {
                Ok(()) => {}
                Err(_) => return Err(AllocError),
            }
        }
    }
    Ok(())
}

/// Adds those of a function.
fn add_func<A: Allocator + Copy>(
    found: &mut Vec<FuncPlace, A>,
    wanted: Wanted<'_, A>,
    func: &Func<'_, A>,
    number: usize,
) -> Result<(), AllocError> {
    let blocks = func.blocks.as_slice();
    for block in 0..blocks.len() {
        let length = blocks[block].insts.as_slice().len();
        add_block(found, wanted, func, number, (block, length))?;
    }
    Ok(())
}

/// The places at which a run comes to a line of a source, in the order of the text.
pub fn entries<A: Allocator + Copy>(
    alloc: A,
    program: &Program<'_, A>,
    source_map: &SourceMap<A>,
    source: &AskedSource<A>,
    line: u32,
) -> Result<Vec<FuncPlace, A>, AllocError> {
    let mut found = Vec::new(alloc);
    let Some((path, _)) = source_map.map.source_of(source.first_line) else {
        return Ok(found);
    };
    let wanted = Wanted {
        source_map,
        path,
        line,
    };
    let funcs = program.funcs.as_slice();
    for number in 0..funcs.len() {
        add_func(&mut found, wanted, &funcs[number], number)?;
    }
    Ok(found)
}
