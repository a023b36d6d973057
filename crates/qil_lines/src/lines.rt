//! The line of a place, and the place of a line.

ghost use Rattle.std.specs.Prelude.{◌≡◌, ◌≤◌, ℕ, ◌+◌, List, Some, None, slice_get, option_map, IfSome, IfNone, IsSome, IsTrue, ◌↔◌, drop, length, ◌∷◌, ◌++◌, nat_le, position};
ghost use Rattle.std.specs.List.{list_any};
ghost use Rattle.qil_tree.specs.declared.tree.Block.{Block};
ghost use Rattle.qil_lines.specs.Marks.{Mark, head_marks, inst_marks, jump_marks, is_written, block_marks, marks_from};
ghost use Rattle.qil_lines.specs.Lines.{place_lines, line_at, marks_of, place_from, at_index, IsFirst, AreBefore, Rise, IsWritten};
ghost use Rattle.qil_lines.specs.Places.{pair_of};

use qil_tree::{Block, Func};
use std::alloc::Allocator;

/// A place in a function: a block, by its number in the text from 0, and how many of its instructions are done.
#[derive(Clone, Copy)]
pub struct Place {
    pub block: usize,
    pub index: usize,
}

/// The line of what is at an index of a block: of an instruction, or after the last of the jump.
fn line_in<A: Allocator>(block: &Block<'_, A>, index: usize) -> Option<u32>
    ensures { result ≡ slice_get (place_lines block.now) index }
{
    let insts = block.insts.as_slice();
    if index < insts.len() {
        return Some(insts[index].line);
    }
    if index == insts.len() {
        Some(block.jump.line)
    } else {
        None
    }
}

/// The line of a place of a function, from 1 on, if there is such a place. A jump that the text leaves out has the line of the
/// next label.
pub fn line_of<A: Allocator>(func: &Func<'_, A>, place: Place) -> Option<u32>
    ensures { result ≡ line_at func.now place.block place.index }
{
    match func.blocks.as_slice().get(place.block) {
        Some(block) => line_in(block, place.index),
        None => None,
    }
}

/// Whether a phi of a block has a line that isn't before a line.
fn has_phi_from<A: Allocator>(block: &Block<'_, A>, line: u32) -> bool
    ensures { result ≡ list_any (λ phi. nat_le line phi.line) block.now.phis }
{
    block.phis.as_slice().iter().any(|phi| line <= phi.line)
}

/// The first instruction of a block whose line isn't before a line.
fn inst_from<A: Allocator>(block: &Block<'_, A>, line: u32) -> Option<usize>
    ensures { result ≡ position (λ inst. nat_le line inst.line) block.now.insts }
{
    block
        .insts
        .as_slice()
        .iter()
        .position(|inst| line <= inst.line)
}

/// The first place of a block that a line means, where the text has its jump or not.
fn index_from<A: Allocator>(block: &Block<'_, A>, written: bool, line: u32) -> Option<usize>
    ensures { (b : ℕ) (next : List (Block A)) → is_written block.now next ≡ written
        → place_from line (block_marks b block.now next) ≡ at_index b result }
{
    if line <= block.line {
        return Some(0);
    }
    if has_phi_from(block, line) {
        return Some(0);
    }
    if let Some(index) = inst_from(block, line) {
        return Some(index);
    }
    if !written {
        return None;
    }
    if line <= block.jump.line {
        return Some(block.insts.as_slice().len());
    }
    None
}

/// Whether the text has the jump of a block, after which these come: one that is left out depends on the line of the next label.
fn has_jump<A: Allocator>(block: &Block<'_, A>, after: &[Block<'_, A>]) -> bool
    ensures { result ≡ is_written block.now after.now }
{
    match after.first() {
        Some(next) => block.jump.line != next.line,
        None => true,
    }
}

/// The place of the first mark of a function whose line isn't before a line.
fn first_place<A: Allocator>(func: &Func<'_, A>, line: u32) -> Option<Place>
    ensures { place_from line (marks_of func.now) ≡ pair_of result }
{
    let blocks = func.blocks.as_slice();
    for number in 0..blocks.len() {
        let block = &blocks[number];
        let written = has_jump(block, &blocks[number + 1..]);
        if let Some(index) = index_from(block, written, line) {
            return Some(Place {
                block: number,
                index,
            });
        }
    }
    None
}

/// The place of a function that a line of its text means: the first, in the order of the text, whose line isn't before it.
///
/// A label and phis mean the beginning of their block, and no line means a jump that is left out. A line before the function
/// means its first place; after its last jump there is none, so that no line means a place of the next function.
pub fn place_in<A: Allocator>(func: &Func<'_, A>, line: u32) -> Option<Place>
    ensures first { IfSome result (λ place. (mark : Mark) × IsFirst line (marks_of func.now) mark
        × (place.block ≡ mark.block) × (place.index ≡ mark.index)) }
    ensures none { IfNone result (AreBefore line (marks_of func.now)) }

    // The line of a mark means its place, where the marks before it depend on lines before it.
    ensures only { (mark : Mark) → IsFirst line (marks_of func.now) mark → pair_of result ≡ Some (mark.block, mark.index) }

    // The line of a place means that place, where the lines of the marks rise and the text has what is there.
    ensures there { (b k : ℕ) → Rise (marks_of func.now) → IsWritten func.now.blocks b k → line_at func.now b k ≡ Some line
        → pair_of result ≡ Some (b, k) }
{
    first_place(func, line)
}
