//! The names of what a code has by numbers.

ghost use Rattle.std.specs.Prelude.{◌≡◌, slice_get};
ghost use Rattle.qil_code.specs.Numbered.{func_at, block_at, names_of};
ghost use Rattle.qil_code.specs.Slots.{name_at};
ghost use Rattle.qil_shadow.specs.Numbered.{data_name, function_name, built_in_name};
ghost use Rattle.qil_shadow.specs.Doubts.{label_name};

use qil_code::{BlockId, Code, Slot};
use qil_layout::FuncId;
use qil_suspicions::BuiltIn;
use std::alloc::Allocator;

/// The name of the data object of a number.
pub fn data_name<'c, A: Allocator + Copy>(code: &Code<'c, A>, number: u32) -> &'c [u8]
    ensures { result.now ≡ data_name (slice_get code.now.datas number) }
{
    match code.program().datas.as_slice().get(number as usize) {
        Some(object) => object.name.bytes(),
        None => b"",
    }
}

pub fn function_name<'c, A: Allocator + Copy>(code: &Code<'c, A>, func: FuncId) -> &'c [u8]
    ensures { result.now ≡ function_name (func_at code.now func.index) }
{
    match code.image().name_of(func) {
        Some(name) => name.bytes(),
        None => b"",
    }
}

pub fn built_in_name(function: BuiltIn) -> &'static [u8]
    ensures { result.now ≡ built_in_name function }
{
    match function {
        BuiltIn::PutChar => b"putchar",
        BuiltIn::Puts => b"puts",
        BuiltIn::Exit => b"exit",
    }
}

/// The name of the temporary of a slot.
pub fn temp_name<'c, A: Allocator + Copy>(code: &Code<'c, A>, func: FuncId, slot: Slot) -> &'c [u8]
    ensures { result.now ≡ name_at (names_of code.now func.index) slot.index }
{
    match code.name_of(func, slot) {
        Some(name) => name.bytes(),
        None => b"",
    }
}

/// The label of a block.
pub fn label_name<'c, A: Allocator + Copy>(
    code: &Code<'c, A>,
    func: FuncId,
    block: BlockId,
) -> &'c [u8]
    ensures { result.now ≡ label_name (block_at code.now func.index block.index) }
{
    match code.label_of(func, block) {
        Some(label) => label.bytes(),
        None => b"",
    }
}
