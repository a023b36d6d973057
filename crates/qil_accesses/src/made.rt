//! What is read of a machine after a move, of which it was known what was ahead. Nothing here takes memory.

ghost use Rattle.std.specs.Prelude.{◌≡◌, ◌-◌, length};
ghost use Rattle.qil_code.specs.Numbered.{names_of};
ghost use Rattle.qil_code.specs.Slots.{name_at};
ghost use Rattle.qil_history.specs.qil_machine.Readings.{temp_here};
ghost use Rattle.qil_state.specs.State.{state_of};
ghost use Rattle.qil_accesses.specs.Accesses.{is_faulted, touches};

use crate::access::Access;
use qil_code::{Code, Slot};
use qil_history::{Readers, code_of};
use qil_layout::FuncId;
use qil_state::Status;
use std::alloc::Allocator;

/// Whether the run ended by a fault.
#[inline(always)]
pub fn is_faulted<'m, 'c, A: Allocator + Copy + 'c, M: Readers<A, Code<'c, A>>>(
    machine: &'m M,
) -> bool
    ensures { result ≡ is_faulted (state_of (M.whole machine.now)).status }
{
    match machine.status() {
        Status::Faulted(_) => true,
        Status::Running | Status::Done(_) | Status::Exited(_) => false,
    }
}

/// The name of a slot of a function.
fn name_of<'c, A: Allocator + Copy>(code: &Code<'c, A>, func: FuncId, slot: Slot) -> &'c [u8]
    ensures { result.now ≡ name_at (names_of code.now func.index) slot.index }
{
    match code.name_of(func, slot) {
        Some(name) => name.bytes(),
        None => b"",
    }
}

/// What the temporary of the innermost frame holds that has the name of a slot of a function.
#[inline(never)]
pub fn value_named<'m, 'c, A: Allocator + Copy + 'c, M: Readers<A, Code<'c, A>>>(
    machine: &'m M,
    func: FuncId,
    slot: Slot,
) -> Option<u64>
    ensures { result ≡ temp_here (state_of (M.whole machine.now)).frames (name_at (names_of (M.whole machine.now).program func.index) slot.index) }
{
    let Some(frame) = machine.frame(0) else {
        return None;
    };
    let code = code_of(machine);
    let name = name_of(code, func, slot);
    match code.slot_of(frame.func(), name) {
        Some(slot) => machine.value(slot),
        None => None,
    }
}

/// How many bytes of output there are beyond so many.
pub fn more_output<'m, 'c, A: Allocator + Copy + 'c, M: Readers<A, Code<'c, A>>>(
    machine: &'m M,
    written: usize,
) -> u64
    ensures { result ≡ length (state_of (M.whole machine.now)).output - written }
{
    machine.output().len().saturating_sub(written) as u64
}

/// Whether an access is of one of so many bytes from an address on.
#[inline(always)]
pub fn touches(one: Access, start: u64, count: u64) -> bool
    ensures { result ≡ touches start count one }
{
    let first = start.max(one.address);
    first - start < count && first - one.address < one.count
}
