//! The names of what a machine has by number.

ghost use Rattle.std.specs.Prelude.{◌≡◌, slice_get};
ghost use Rattle.qil_code.specs.Numbered.{func_at, block_at, names_of};
ghost use Rattle.qil_code.specs.Slots.{name_at};
ghost use Rattle.qil_state.specs.State.{func_name, label_in, FramesFit};

use qil_code::{BlockId, Code, Slot};
use qil_history::{FrameView, Readers};
use qil_layout::FuncId;
use std::alloc::Allocator;

/// The name of a function, without its sigil.
pub fn func_name<'c, A: Allocator + Copy>(code: &Code<'c, A>, func: FuncId) -> &'c [u8]
    ensures { result.now ≡ func_name (func_at code.now func.index) }
{
    match code.image().name_of(func) {
        Some(name) => name.bytes(),
        None => b"",
    }
}

/// The label of a block, without its sigil.
pub fn label_name<'c, A: Allocator + Copy>(
    code: &Code<'c, A>,
    func: FuncId,
    block: BlockId,
) -> &'c [u8]
    ensures { result.now ≡ label_in (block_at code.now func.index block.index) }
{
    match code.label_of(func, block) {
        Some(name) => name.bytes(),
        None => b"",
    }
}

/// The name of a temporary, without its sigil.
pub fn temp_name<'c, A: Allocator + Copy>(code: &Code<'c, A>, func: FuncId, slot: Slot) -> &'c [u8]
    ensures { result.now ≡ name_at (names_of code.now func.index) slot.index }
{
    match code.name_of(func, slot) {
        Some(name) => name.bytes(),
        None => b"",
    }
}

/// The innermost frame, if a call isn't over.
pub fn innermost<'c, 'm, A: Allocator + Copy + 'c, M: Readers<A, Code<'c, A>>>(
    machine: &'m M,
) -> Option<FrameView<'m>>
    ensures frame { result ≡ slice_get (M.whole machine.now).frames 0 }
    ensures fits { FramesFit (M.whole machine.now).program (M.whole machine.now).frames }
{
    machine.frame(0)
}
