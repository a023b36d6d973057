//! What values, addresses and functions are in the program that a machine runs. Nothing here takes memory.

ghost use Rattle.std.specs.Prelude.{◌≡◌, option_map, unwrap_or};
ghost use Rattle.qil_code.specs.Numbered.{func_at};
ghost use Rattle.qil_state.specs.State.{func_name};
ghost use Rattle.qil_compare.specs.Seen.{data_place, address_seen, seen};
ghost use Rattle.qil_compare.specs.Coded.{offset_of, value_of};
ghost use Rattle.qil_compare.specs.Next.{nowhere};

use crate::ahead::image_of;
use crate::seen::{DataPlace, Seen, address_seen, data_place, func_name, value_seen};
use qil_code::Code;
use qil_history::{Readers, code_of};
use qil_layout::FuncId;
use qil_tree::{AbiType, Program};
use std::alloc::Allocator;

/// The tree of the program.
#[inline(always)]
fn program_of<'c, A: Allocator + Copy + 'c, M: Readers<A, Code<'c, A>>>(
    machine: &M,
) -> &'c Program<'c, A>
    ensures { result.now ≡ (M.whole machine.now).program }
{
    code_of(machine).program()
}

/// What a value of a type is.
pub fn seen_in<'c, A: Allocator + Copy + 'c, M: Readers<A, Code<'c, A>>>(
    machine: &M,
    abi_type: AbiType,
    value: u64,
) -> Seen<'c>
    ensures { value_of result ≡ seen (M.whole machine.now).program abi_type value }
{
    value_seen(program_of(machine), image_of(machine), abi_type, value)
}

/// What an address is.
pub fn address_seen_in<'c, A: Allocator + Copy + 'c, M: Readers<A, Code<'c, A>>>(
    machine: &M,
    address: u64,
) -> Seen<'c>
    ensures { value_of result ≡ address_seen (M.whole machine.now).program address }
{
    address_seen(program_of(machine), image_of(machine), address)
}

/// The place of the data that an address belongs to, if there is one.
pub fn data_place_in<'c, A: Allocator + Copy + 'c, M: Readers<A, Code<'c, A>>>(
    machine: &M,
    address: u64,
) -> Option<DataPlace<'c>>
    ensures { option_map offset_of result ≡ data_place (M.whole machine.now).program address }
{
    data_place(program_of(machine), image_of(machine), address)
}

/// The same, or that of no object.
pub fn place_or_nowhere<'c, A: Allocator + Copy + 'c, M: Readers<A, Code<'c, A>>>(
    machine: &M,
    address: u64,
) -> DataPlace<'c>
    ensures { offset_of result ≡ unwrap_or (data_place (M.whole machine.now).program address) nowhere }
{
    match data_place_in(machine, address) {
        Some(place) => place,
        None => DataPlace {
            object: b"",
            bytes: 0,
        },
    }
}

/// The name of a function.
pub fn func_name_in<'c, A: Allocator + Copy + 'c, M: Readers<A, Code<'c, A>>>(
    machine: &M,
    func: FuncId,
) -> &'c [u8]
    ensures { result.now ≡ func_name (func_at (M.whole machine.now).program func.index) }
{
    func_name(image_of(machine), func)
}
