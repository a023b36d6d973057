//! What the words of commands name in a code.

ghost use Rattle.std.specs.Prelude.{◌≡◌};
ghost use Rattle.qil_layout.specs.Layout.{width_bytes};
ghost use Rattle.qil_memory.specs.Calls.{IsWidth};
ghost use Rattle.qil_replies.specs.SessionState.{resolved_address, resolved_place, resolved_temp};

use qil_code::{BlockId, Code};
use qil_commands::{Address, BreakPlace};
use qil_stops::{Place, Watched};
use qil_tree::Width;
use std::alloc::Allocator;

/// How many bytes a width has.
pub fn width_bytes(width: Width) -> u64
    ensures value { result ≡ width_bytes width }
    ensures width { IsWidth result }
{
    match width {
        Width::B => 1,
        Width::H => 2,
        Width::W => 4,
        Width::L => 8,
    }
}

/// The address that a word says, if the program has its global.
pub fn resolved_address<A: Allocator + Copy>(
    code: &Code<'_, A>,
    address: &Address<'_>,
) -> Option<u64>
    ensures { result ≡ resolved_address code.now address.now }
{
    match address {
        Address::Number(number) => Some(*number),
        Address::Global(name, offset) => match code.image().address(name.bytes()) {
            Some(start) => Some(start.wrapping_add(*offset)),
            None => None,
        },
    }
}

/// The place that `break` says, if the program has the function and the block.
pub fn resolved_place<A: Allocator + Copy>(
    code: &Code<'_, A>,
    func: &[u8],
    at: &Option<BreakPlace<'_>>,
) -> Option<Place>
    ensures { result ≡ resolved_place code.now func.now at.now }
{
    let func = match code.func_named(func) {
        Some(func) => func,
        None => return None,
    };
    match at {
        None => Some(Place {
            func,
            block: BlockId { index: 0 },
            index: 0,
        }),
        Some(place) => match code.block_of(func, place.label.bytes()) {
            Some(block) => Some(Place {
                func,
                block,
                index: place.index,
            }),
            None => None,
        },
    }
}

/// The temporary that `watch` says, if the program has it.
pub fn resolved_temp<A: Allocator + Copy>(
    code: &Code<'_, A>,
    func: &[u8],
    name: &[u8],
) -> Option<Watched>
    ensures { result ≡ resolved_temp code.now func.now name.now }
{
    let func = match code.func_named(func) {
        Some(func) => func,
        None => return None,
    };
    match code.slot_of(func, name) {
        Some(slot) => Some(Watched::Temp { func, slot }),
        None => None,
    }
}
