//! Whether two events are the same, each read of the machine that stands behind it. Nothing here takes memory.

ghost use Rattle.std.specs.Prelude.{◌≡◌, ◌≢◌, ◌↔◌, ◌+◌, List, IsTrue, option_map};
ghost use Rattle.qil_tree.specs.declared.ops.AbiType.TheVariants as types;
ghost use Rattle.qil_memory.specs.Live.{live};
ghost use Rattle.qil_semantics.specs.State.{Name};
ghost use Rattle.qil_state.specs.Faults.{fault_of};
ghost use Rattle.qil_state.specs.State.{state_of};
ghost use Rattle.qil_compare.specs.declared.event.Event.TheVariants as coded;
ghost use Rattle.qil_compare.specs.Seen.{address_seen, seen};
ghost use Rattle.qil_compare.specs.Coded.{AreNamedAlike};
ghost use Rattle.qil_compare.specs.Events.{bytes_from, call_params, cause_of};
ghost use Rattle.qil_compare.specs.Next.{returns_of, event_at};

use crate::ahead::image_of;
use crate::alike::{same_call_names, same_names};
use crate::calls::{param_count, param_held, returns_in};
use crate::event::Event;
use crate::seen::{same_place, same_seen};
use crate::standing::{address_seen_in, place_or_nowhere, seen_in};
use qil_code::Code;
use qil_history::Readers;
use qil_layout::FuncId;
use qil_state::{Fault, Status};
use qil_tree::AbiType;
use std::alloc::Allocator;

/// Whether a value of a type is a number, whatever the compilation.
#[inline(always)]
fn is_plain(abi_type: AbiType) -> bool
    ensures { IsTrue result → abi_type ≢ types.L }
{
    match abi_type {
        AbiType::L => false,
        AbiType::W | AbiType::Sb | AbiType::Ub | AbiType::Sh | AbiType::Uh => true,
    }
}

/// Whether two values of types are the same, of which one may be an address.
#[inline(never)]
fn same_addressed<'c, A: Allocator + Copy + 'c, M: Readers<A, Code<'c, A>>>(
    left: &M,
    right: &M,
    one: (AbiType, u64),
    other: (AbiType, u64),
) -> bool
    ensures { IsTrue result ↔ (seen (M.whole left.now).program one.0 one.1 ≡ seen (M.whole right.now).program other.0 other.1) }
{
    same_seen(
        seen_in(left, one.0, one.1),
        seen_in(right, other.0, other.1),
    )
}

/// Whether two values of types are the same. Nearly all are numbers.
#[inline(always)]
fn same_typed<'c, A: Allocator + Copy + 'c, M: Readers<A, Code<'c, A>>>(
    left: &M,
    right: &M,
    one: (AbiType, u64),
    other: (AbiType, u64),
) -> bool
    ensures { IsTrue result ↔ (seen (M.whole left.now).program one.0 one.1 ≡ seen (M.whole right.now).program other.0 other.1) }
{
    if is_plain(one.0) && is_plain(other.0) {
        return one.1 == other.1;
    }
    same_addressed(left, right, one, other)
}

/// Whether what two functions returned is the same: a value, or none.
#[inline(always)]
fn same_returned<'c, A: Allocator + Copy + 'c, M: Readers<A, Code<'c, A>>>(
    left: &M,
    right: &M,
    func: FuncId,
    second: FuncId,
    value: Option<u64>,
    returned: Option<u64>,
) -> bool
    ensures { IsTrue result ↔ (option_map (seen (M.whole left.now).program (returns_of (M.whole left.now).program func)) value ≡ option_map (seen (M.whole right.now).program (returns_of (M.whole right.now).program second)) returned) }
{
    match value {
        Some(one) => match returned {
            Some(other) => same_typed(
                left,
                right,
                (returns_in(left, func), one),
                (returns_in(right, second), other),
            ),
            None => false,
        },
        None => returned.is_none(),
    }
}

/// Whether the parameters of the innermost frames of two machines have the same values.
#[inline(always)]
fn same_params<'c, A: Allocator + Copy + 'c, M: Readers<A, Code<'c, A>>>(
    left: &M,
    right: &M,
) -> bool
    ensures { IsTrue result ↔ (call_params (M.whole left.now).program (state_of (M.whole left.now)).frames ≡ call_params (M.whole right.now).program (state_of (M.whole right.now)).frames) }
{
    let count = param_count(left);
    if count != param_count(right) {
        return false;
    }
    for i in 0..count {
        let value = param_held(left, i);
        let second = param_held(right, i);
        if !same_typed(left, right, value, second) {
            return false;
        }
    }
    true
}

/// Whether two calls are the same: of one function, with the same values.
#[inline(always)]
fn same_calls<'c, A: Allocator + Copy + 'c, M: Readers<A, Code<'c, A>>>(
    left: &M,
    right: &M,
    alike: u16,
) -> bool
    requires { AreNamedAlike (M.whole left.now).program (M.whole right.now).program alike }
    ensures { IsTrue result ↔ (event_at (M.whole left.now).program (state_of (M.whole left.now)) coded.Call ≡ event_at (M.whole right.now).program (state_of (M.whole right.now)) coded.Call) }
{
    same_call_names(left, right, alike) && same_params(left, right)
}

/// Whether so many bytes of two memories are the same, from an address on in each.
fn same_bytes<'c, A: Allocator + Copy + 'c, M: Readers<A, Code<'c, A>>>(
    left: &M,
    right: &M,
    start: u64,
    second: u64,
    count: u64,
) -> bool
    ensures { IsTrue result ↔ (bytes_from (live (M.whole left.now).memory) start count ≡ bytes_from (live (M.whole right.now).memory) second count) }
{
    for i in 0..count {
        if left.byte_after(start, i) != right.byte_after(second, i) {
            return false;
        }
    }
    true
}

/// Whether two writes are the same: to one place of the data, of the same bytes.
#[inline(never)]
fn same_writes<'c, A: Allocator + Copy + 'c, M: Readers<A, Code<'c, A>>>(
    left: &M,
    right: &M,
    start: u64,
    second: u64,
    count: u64,
    many: u64,
) -> bool
    ensures { IsTrue result ↔ (event_at (M.whole left.now).program (state_of (M.whole left.now)) (coded.Write start count) ≡ event_at (M.whole right.now).program (state_of (M.whole right.now)) (coded.Write second many)) }
{
    if count != many {
        return false;
    }
    if !same_place(
        place_or_nowhere(left, start),
        place_or_nowhere(right, second),
    ) {
        return false;
    }
    same_bytes(left, right, start, second, count)
}

/// Whether two returns are the same: of one function, with one value or none.
#[inline(always)]
fn same_returns<'c, A: Allocator + Copy + 'c, M: Readers<A, Code<'c, A>>>(
    left: &M,
    right: &M,
    func: FuncId,
    second: FuncId,
    value: Option<u64>,
    returned: Option<u64>,
    alike: u16,
) -> bool
    requires { AreNamedAlike (M.whole left.now).program (M.whole right.now).program alike }
    ensures { IsTrue result ↔ (event_at (M.whole left.now).program (state_of (M.whole left.now)) (coded.Return func value) ≡ event_at (M.whole right.now).program (state_of (M.whole right.now)) (coded.Return second returned)) }
{
    same_names(image_of(left), image_of(right), func, second, alike)
        && same_returned(left, right, func, second, value, returned)
}

/// Whether the addresses of two faults count as the same.
fn same_addresses<'c, A: Allocator + Copy + 'c, M: Readers<A, Code<'c, A>>>(
    left: &M,
    right: &M,
    address: u64,
    second: u64,
) -> bool
    ensures { IsTrue result ↔ (address_seen (M.whole left.now).program address ≡ address_seen (M.whole right.now).program second) }
{
    same_seen(
        address_seen_in(left, address),
        address_seen_in(right, second),
    )
}

/// Whether two faults are the same: of one kind, and of the same address if they have one.
fn same_faults<'c, A: Allocator + Copy + 'c, M: Readers<A, Code<'c, A>>>(
    left: &M,
    right: &M,
    one: Fault,
    other: Fault,
) -> bool
    ensures { (ns ms : List Name) → IsTrue result ↔ (cause_of (M.whole left.now).program (fault_of ns one) ≡ cause_of (M.whole right.now).program (fault_of ms other)) }
{
    match one {
        Fault::Unset(_) => match other {
            Fault::Unset(_) => true,
            _ => false,
        },
        Fault::DeadAddress(address) => match other {
            Fault::DeadAddress(second) => same_addresses(left, right, address, second),
            _ => false,
        },
        Fault::NoFunction(address) => match other {
            Fault::NoFunction(second) => same_addresses(left, right, address, second),
            _ => false,
        },
        fault => fault == other,
    }
}

/// Whether two runs ended the same, each in a function.
#[inline(never)]
fn same_ends<'c, A: Allocator + Copy + 'c, M: Readers<A, Code<'c, A>>>(
    left: &M,
    right: &M,
    func: FuncId,
    second: FuncId,
) -> bool
    ensures { IsTrue result ↔ (event_at (M.whole left.now).program (state_of (M.whole left.now)) (coded.End func) ≡ event_at (M.whole right.now).program (state_of (M.whole right.now)) (coded.End second)) }
{
    match left.status() {
        Status::Running => right.status() == Status::Running,
        Status::Done(value) => match right.status() {
            Status::Done(other) => same_returned(left, right, func, second, value, other),
            _ => false,
        },
        Status::Exited(word) => right.status() == Status::Exited(word),
        Status::Faulted(fault) => match right.status() {
            Status::Faulted(other) => same_faults(left, right, fault, other),
            _ => false,
        },
    }
}

/// Whether two events are the same.
#[inline(always)]
pub fn same_event<'c, A: Allocator + Copy + 'c, M: Readers<A, Code<'c, A>>>(
    left: &M,
    right: &M,
    one: Event,
    other: Event,
    alike: u16,
) -> bool
    requires { AreNamedAlike (M.whole left.now).program (M.whole right.now).program alike }
    ensures { IsTrue result ↔ (event_at (M.whole left.now).program (state_of (M.whole left.now)) one ≡ event_at (M.whole right.now).program (state_of (M.whole right.now)) other) }
{
    match one {
        Event::Output(byte) => match other {
            Event::Output(second) => byte == second,
            _ => false,
        },
        Event::Write(start, count) => match other {
            Event::Write(second, many) => same_writes(left, right, start, second, count, many),
            _ => false,
        },
        Event::Call => match other {
            Event::Call => same_calls(left, right, alike),
            _ => false,
        },
        Event::Return(func, value) => match other {
            Event::Return(second, result) => {
                same_returns(left, right, func, second, value, result, alike)
            }
            _ => false,
        },
        Event::End(func) => match other {
            Event::End(second) => same_ends(left, right, func, second),
            _ => false,
        },
    }
}
