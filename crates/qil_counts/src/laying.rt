//! A counter for each place of a code, in the order of the text, and the numbers by which a place finds its own.

ghost use Rattle.std.specs.Prelude.{◌≡◌, ◌+◌, ◌++◌, ◌∷◌, [], OnOk, IfOk, length};
ghost use Rattle.qil_counts.specs.Counts.{func_places, place_at, places, unmet, unmet_all};
ghost use Rattle.qil_counts.specs.Rows.{AreNumbered, places_at};

use crate::count::{CodePlace, Count};
use qil_code::{BlockId, Code};
use qil_layout::FuncId;
use std::alloc::{AllocError, Allocator};

/// How many numbers a function or a block may have.
const NUMBERS: u32 = 1 << 16;

/// Counters by place, and how they are found.
#[derive(Drop)]
pub struct Rows<A: Allocator> {
    /// One for each place, function by function and block by block.
    pub counts: Vec<Count, A>,
    /// Of each block the number of the first counter.
    pub firsts: Vec<usize, A>,
    /// Of each function the number of the first block.
    pub blocks: Vec<usize, A>,
}

/// How many places a block has: its instructions, and the jump.
fn block_size<A: Allocator + Copy>(code: &Code<'_, A>, func: FuncId, block: BlockId) -> usize {
    match code.source(func, block) {
        Some(found) => found.insts.as_slice().len().saturating_add(1),
        None => 0,
    }
}

/// How many places a function has.
fn func_size<A: Allocator + Copy>(code: &Code<'_, A>, func: FuncId) -> usize {
    let mut size: usize = 0;
    for number in 0..NUMBERS {
        let block = BlockId {
            index: number as u16,
        };
        let more = block_size(code, func, block);
        if more == 0 {
            return size;
        }
        size = size.saturating_add(more);
    }
    size
}

/// How many places a code has, so that room for all is made at once.
fn code_size<A: Allocator + Copy>(code: &Code<'_, A>) -> usize {
    let mut size: usize = 0;
    for number in 0..NUMBERS {
        let func = FuncId {
            index: number as u16,
        };
        let more = func_size(code, func);
        if more == 0 {
            return size;
        }
        size = size.saturating_add(more);
    }
    size
}

/// A counter of a place.
fn unmet(func: FuncId, block: BlockId, index: u64) -> Count
    ensures { result ≡ unmet (place_at func.index block.index index) }
{
    Count {
        place: CodePlace { func, block, index },
        count: 0,
    }
}

/// Adds a counter for each of so many instructions of a block, and one for its jump.
fn add_places<A: Allocator>(
    counts: &mut Vec<Count, A>,
    func: FuncId,
    block: BlockId,
    insts: u64,
) -> Result<(), AllocError>
    ensures { OnOk result (counts.new.items ≡ counts.old.items ++ unmet_all (places_at func.index block.index (insts + 1))) }
{
    for index in 0..insts {
        counts.push(unmet(func, block, index))?;
    }
    counts.push(unmet(func, block, insts))?;
    Ok(())
}

/// Adds the counters of a block of so many instructions.
fn add_block<A: Allocator>(
    rows: &mut Rows<A>,
    func: FuncId,
    block: BlockId,
    insts: u64,
) -> Result<(), AllocError>
    ensures counts { OnOk result (rows.new.counts.items ≡ rows.old.counts.items ++ unmet_all (places_at func.index block.index (insts + 1))) }
    ensures firsts { OnOk result (rows.new.firsts.items ≡ rows.old.firsts.items ++ length rows.old.counts.items ∷ []) }
    ensures blocks { OnOk result (rows.new.blocks.items ≡ rows.old.blocks.items) }
{
    let first = rows.counts.len();
    rows.firsts.push(first)?;
    add_places(&mut rows.counts, func, block, insts)
}

/// Adds the counters of the function that comes next.
fn add_func<A: Allocator + Copy>(
    rows: &mut Rows<A>,
    code: &Code<'_, A>,
    func: FuncId,
) -> Result<(), AllocError>
    requires next { length rows.old.blocks.items ≡ func.index }
    requires numbered { AreNumbered rows.old.blocks.items rows.old.firsts.items rows.old.counts.items }
    ensures next { OnOk result (length rows.new.blocks.items ≡ func.index + 1) }
    ensures numbered { OnOk result (AreNumbered rows.new.blocks.items rows.new.firsts.items rows.new.counts.items) }
    ensures counts { OnOk result (rows.new.counts.items ≡ rows.old.counts.items ++ unmet_all (func_places code.now func.index)) }
{
    let begin = rows.firsts.len();
    rows.blocks.push(begin)?;
    for number in 0..NUMBERS {
        let block = BlockId {
            index: number as u16,
        };
        let Some(found) = code.source(func, block) else {
            return Ok(());
        };
        add_block(rows, func, block, found.insts.as_slice().len() as u64)?;
    }
    Err(AllocError)
}

/// The counters of all places, which are zero. A code with more functions or blocks than have a number counts as out of memory:
/// there is none.
pub fn lay<A: Allocator + Copy>(alloc: A, code: &Code<'_, A>) -> Result<Rows<A>, AllocError>
    ensures numbered { IfOk result (λ r. AreNumbered r.blocks.items r.firsts.items r.counts.items) }
    ensures counts { IfOk result (λ r. r.counts.items ≡ unmet_all (places code.now)) }
{
    let mut rows = Rows {
        counts: Vec::with_capacity(alloc, code_size(code))?,
        firsts: Vec::new(alloc),
        blocks: Vec::new(alloc),
    };
    let count = code.program().funcs.as_slice().len();
    for number in 0..NUMBERS {
        if number as usize == count {
            return Ok(rows);
        }
        let func = FuncId {
            index: number as u16,
        };
        add_func(&mut rows, code, func)?;
    }
    Err(AllocError)
}
