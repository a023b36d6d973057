//! Calls and slots as lists: what readers, tests and copies do with them.

ghost use Rattle.std.specs.Prelude.{◌≡◌, ◌<◌, ◌≤◌, ◌+◌, ◌↔◌, IsTrue, length, take, drop, get_or, vec_capacity};
ghost use Rattle.qil_flat.specs.Cut.{outward, edges};

use crate::call::Call;
use std::alloc::Allocator;

/// The call with so many callers.
#[inline(always)]
pub fn call_of(innermost: Call, callers: &[Call], i: usize) -> Call
    requires { i < length callers.now }
    ensures { result ≡ get_or (outward innermost callers.now) i result }
{
    if i + 1 < callers.len() {
        callers[i + 1]
    } else {
        innermost
    }
}

/// Where the slots of the call with so many callers end, of that many slots.
#[inline(always)]
pub fn end_of(innermost: Call, callers: &[Call], i: usize, count: usize) -> usize
    requires { i < length callers.now }
    ensures { result ≡ get_or (edges (outward innermost callers.now) count) (i + 1) 0 }
{
    if i + 1 < callers.len() {
        call_of(innermost, callers, i + 1).base as usize
    } else {
        count
    }
}

/// The slots from one on.
#[inline(always)]
pub fn slots_from(all: &[Option<u64>], start: usize) -> &[Option<u64>]
    requires { start ≤ length all.now }
    ensures { result.now ≡ drop start all.now }
{
    &all[start..]
}

/// The slots from one to before another.
#[inline(always)]
pub fn slots_between(all: &[Option<u64>], start: usize, end: usize) -> &[Option<u64>]
    requires start { start ≤ end }
    requires end { end ≤ length all.now }
    ensures { result.now ≡ drop start (take end all.now) }
{
    &all[start..end]
}

/// Whether two calls are the same.
#[inline(always)]
fn is_same_call(one: Call, other: Call) -> bool
    ensures { IsTrue result ↔ (one ≡ other) }
{
    one == other
}

/// Whether two slots hold the same.
#[inline(always)]
fn is_same_slot(left: Option<u64>, right: Option<u64>) -> bool
    ensures { IsTrue result ↔ (left ≡ right) }
{
    left == right
}

/// Whether the calls are as many, and each the same.
pub fn same_calls(left: Call, left_callers: &[Call], right: Call, right_callers: &[Call]) -> bool
    ensures { IsTrue result
        ↔ (outward left left_callers.now ≡ outward right right_callers.now) }
{
    if left_callers.len() != right_callers.len() {
        return false;
    }
    for i in 0..left_callers.len() {
        if !is_same_call(
            call_of(left, left_callers, i),
            call_of(right, right_callers, i),
        ) {
            return false;
        }
    }
    true
}

/// Whether the slots are as many, and each holds the same.
pub fn same_slots(left: &[Option<u64>], right: &[Option<u64>]) -> bool
    ensures { IsTrue result ↔ (left.now ≡ right.now) }
{
    if left.len() != right.len() {
        return false;
    }
    for (i, value) in left.iter().enumerate() {
        if !is_same_slot(*value, right[i]) {
            return false;
        }
    }
    true
}

/// Makes a list equal to another for which it has room.
pub fn refill<T: Copy, A: Allocator>(to: &mut Vec<T, A>, from: &[T])
    requires { length from.now ≤ vec_capacity to.old }
    ensures items { to.new.items ≡ from.now }
    ensures room { vec_capacity to.old ≤ vec_capacity to.new }
{
    to.clear();
    match to.extend_from_slice(from) {
        Ok(()) => {}
        Err(_) => unreachable!(),
    }
}
