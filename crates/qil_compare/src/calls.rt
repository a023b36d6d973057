//! The call that the innermost frame is of: its name, and the values of its parameters. Nothing here takes memory.

ghost use Rattle.std.specs.Prelude.{◌≡◌, ◌<◌, length, slice_get, Some};
ghost use Rattle.qil_state.specs.State.{state_of};
ghost use Rattle.qil_compare.specs.Coded.{held_or_zero, value_of};
ghost use Rattle.qil_compare.specs.Seen.{seen};
ghost use Rattle.qil_compare.specs.Events.{call_name, call_params};
ghost use Rattle.qil_compare.specs.Next.{returns_of};

use crate::ahead::{image_of, innermost};
use crate::seen::{Seen, func_name};
use crate::standing::seen_in;
use qil_code::{Code, Slot};
use qil_history::{FrameView, Readers, code_of};
use qil_layout::FuncId;
use qil_tree::AbiType;
use std::alloc::Allocator;

/// The name of the function that was called, without its sigil.
pub fn call_name<'c, A: Allocator + Copy + 'c, M: Readers<A, Code<'c, A>>>(machine: &M) -> &'c [u8]
    ensures { result.now ≡ call_name (state_of (M.whole machine.now)).frames }
{
    match innermost(machine) {
        Some(frame) => func_name(image_of(machine), frame.func()),
        None => b"",
    }
}

/// How many parameters it has.
pub fn param_count<'c, A: Allocator + Copy + 'c, M: Readers<A, Code<'c, A>>>(machine: &M) -> usize
    ensures { result ≡ length (call_params (M.whole machine.now).program (state_of (M.whole machine.now)).frames) }
{
    let code = code_of(machine);
    code.names_are_distinct();
    match innermost(machine) {
        Some(frame) => code.params(frame.func()).len(),
        None => 0,
    }
}

/// The type of what a function returns.
#[inline(always)]
pub fn returns_in<'c, A: Allocator + Copy + 'c, M: Readers<A, Code<'c, A>>>(
    machine: &M,
    func: FuncId,
) -> AbiType
    ensures { result ≡ returns_of (M.whole machine.now).program func }
{
    code_of(machine).returns(func).unwrap_or(AbiType::W)
}

/// What a slot of a frame holds, or 0.
fn held_or_zero(frame: &FrameView<'_>, slot: Slot) -> u64
    ensures { result ≡ held_or_zero frame.now.slots slot }
{
    match frame.slots().get(usize::from(slot.index)) {
        Some(held) => held.unwrap_or(0),
        None => 0,
    }
}

/// The type of one of its parameters, counted from 0, and the value that its slot holds.
#[inline(always)]
pub fn param_held<'c, A: Allocator + Copy + 'c, M: Readers<A, Code<'c, A>>>(
    machine: &M,
    index: usize,
) -> (AbiType, u64)
    requires { index < length (call_params (M.whole machine.now).program (state_of (M.whole machine.now)).frames) }
    ensures { Some (seen (M.whole machine.now).program result.0 result.1) ≡ slice_get (call_params (M.whole machine.now).program (state_of (M.whole machine.now)).frames) index }
{
    let code = code_of(machine);
    code.names_are_distinct();
    let Some(frame) = innermost(machine) else {
        unreachable!()
    };
    match code.params(frame.func()).get(index) {
        Some(param) => (param.1, held_or_zero(&frame, param.0)),
        None => unreachable!(),
    }
}

/// What one of its parameters is, counted from 0.
pub fn param_seen<'c, A: Allocator + Copy + 'c, M: Readers<A, Code<'c, A>>>(
    machine: &M,
    index: usize,
) -> Seen<'c>
    requires { index < length (call_params (M.whole machine.now).program (state_of (M.whole machine.now)).frames) }
    ensures { Some (value_of result) ≡ slice_get (call_params (M.whole machine.now).program (state_of (M.whole machine.now)).frames) index }
{
    let (abi_type, value) = param_held(machine, index);
    seen_in(machine, abi_type, value)
}
