//! Which functions have the same names in two programs. Nothing here takes memory.
//!
//! Two compilations of a program mostly have their functions in one order, and to compare two names at each call takes longer
//! than a move. So the numbers at which both have the same names are counted before the runs: names are asked for past them.

ghost use Rattle.std.specs.Prelude.{◌≡◌, ◌↔◌, ◌<◌, IsTrue, Some, option_map, slice_get};
ghost use Rattle.qil_semantics.specs.State.{Name};
ghost use Rattle.qil_code.specs.Numbered.{func_at};
ghost use Rattle.qil_state.specs.State.{func_name, state_of};
ghost use Rattle.qil_compare.specs.Coded.{name_at, AreNamedAlike};
ghost use Rattle.qil_compare.specs.Events.{has_func, call_name};

use crate::ahead::{image_of, innermost};
use crate::calls::call_name;
use crate::seen::func_name;
use qil_code::Code;
use qil_history::Readers;
use qil_layout::{FuncId, Image};
use std::alloc::Allocator;

/// Whether a function of a program has a name.
fn is_named<A: Allocator + Copy>(image: &Image<'_, A>, func: FuncId, name: &[u8]) -> bool
    ensures { IsTrue result → option_map (λ f. f.name) (slice_get image.now.funcs func.index) ≡ Some name.now }
{
    match image.name_of(func) {
        Some(other) => other.bytes() == name,
        None => false,
    }
}

/// Whether two programs have functions of one name at a number.
fn is_named_alike<'c, A: Allocator + Copy>(
    image: &Image<'c, A>,
    other: &Image<'c, A>,
    func: FuncId,
) -> bool
    ensures { IsTrue result → (name : Name) × (name_at image.now func.index ≡ Some name) × (name_at other.now func.index ≡ Some name) }
{
    match image.name_of(func) {
        Some(name) => is_named(other, func, name.bytes()),
        None => false,
    }
}

/// At how many numbers, from the first on, two programs have functions of the same names.
pub fn named_alike<'c, A: Allocator + Copy>(image: &Image<'c, A>, other: &Image<'c, A>) -> u16
    ensures { AreNamedAlike image.now other.now result }
{
    for index in 0..u16::MAX {
        if !is_named_alike(image, other, FuncId { index }) {
            return index;
        }
    }
    u16::MAX
}

/// Whether a program defines a function of a name. It is looked for at a number first, since to find a name in a table takes
/// much longer.
#[inline(never)]
fn has_func<A: Allocator + Copy>(code: &Code<'_, A>, func: FuncId, name: &[u8]) -> bool
    ensures { result ≡ has_func code.now name.now }
{
    if is_named(code.image(), func, name) {
        return true;
    }
    code.func_named(name).is_some()
}

/// Whether a program defines a function of the name that a function of another one has.
#[inline(always)]
pub fn has_like<'c, A: Allocator + Copy>(
    image: &Image<'c, A>,
    code: &Code<'c, A>,
    func: FuncId,
    alike: u16,
) -> bool
    requires { AreNamedAlike image.now code.now alike }
    ensures { result ≡ has_func code.now (func_name (slice_get image.now.funcs func.index)) }
{
    if func.index < alike {
        return true;
    }
    has_func(code, func, func_name(image, func))
}

/// Whether a program defines a function of the name that was called in another one.
#[inline(always)]
pub fn has_called<'c, A: Allocator + Copy + 'c, M: Readers<A, Code<'c, A>>>(
    machine: &M,
    code: &Code<'c, A>,
    alike: u16,
) -> bool
    requires { AreNamedAlike (M.whole machine.now).program code.now alike }
    ensures { result ≡ has_func code.now (call_name (state_of (M.whole machine.now)).frames) }
{
    match innermost(machine) {
        Some(frame) => has_like(image_of(machine), code, frame.func(), alike),
        None => has_func(code, FuncId { index: 0 }, b""),
    }
}

/// Whether two functions, each of a program of its own, have one number, at which both programs have the same name.
#[inline(always)]
fn is_alike(func: FuncId, second: FuncId, alike: u16) -> bool
    ensures { IsTrue result → (func.index ≡ second.index) × (func.index < alike) }
{
    func.index == second.index && func.index < alike
}

/// Whether two functions, each of a program of its own, have the same name, byte by byte.
#[inline(never)]
fn are_names_same<'c, A: Allocator + Copy>(
    image: &Image<'c, A>,
    other: &Image<'c, A>,
    func: FuncId,
    second: FuncId,
) -> bool
    ensures { IsTrue result ↔ (func_name (func_at image.now func.index) ≡ func_name (func_at other.now second.index)) }
{
    func_name(image, func) == func_name(other, second)
}

/// Whether two functions, each of a program of its own, have the same name.
#[inline(always)]
pub fn same_names<'c, A: Allocator + Copy>(
    image: &Image<'c, A>,
    other: &Image<'c, A>,
    func: FuncId,
    second: FuncId,
    alike: u16,
) -> bool
    requires { AreNamedAlike image.now other.now alike }
    ensures { IsTrue result ↔ (func_name (func_at image.now func.index) ≡ func_name (func_at other.now second.index)) }
{
    if is_alike(func, second, alike) {
        return true;
    }
    are_names_same(image, other, func, second)
}

/// Whether two machines are in calls of functions that have one number and the same name.
#[inline(always)]
fn are_alike<'c, A: Allocator + Copy + 'c, M: Readers<A, Code<'c, A>>>(
    left: &M,
    right: &M,
    alike: u16,
) -> bool
    requires { AreNamedAlike (M.whole left.now).program (M.whole right.now).program alike }
    ensures { IsTrue result → call_name (state_of (M.whole left.now)).frames ≡ call_name (state_of (M.whole right.now)).frames }
{
    let Some(frame) = innermost(left) else {
        return false;
    };
    match innermost(right) {
        Some(second) => is_alike(frame.func(), second.func(), alike),
        None => false,
    }
}

/// Whether two machines are in calls of functions of one name, byte by byte.
#[inline(never)]
fn are_call_names_same<'c, A: Allocator + Copy + 'c, M: Readers<A, Code<'c, A>>>(
    left: &M,
    right: &M,
) -> bool
    ensures { IsTrue result ↔ (call_name (state_of (M.whole left.now)).frames ≡ call_name (state_of (M.whole right.now)).frames) }
{
    call_name(left) == call_name(right)
}

/// Whether two machines are in calls of functions of one name.
#[inline(always)]
pub fn same_call_names<'c, A: Allocator + Copy + 'c, M: Readers<A, Code<'c, A>>>(
    left: &M,
    right: &M,
    alike: u16,
) -> bool
    requires { AreNamedAlike (M.whole left.now).program (M.whole right.now).program alike }
    ensures { IsTrue result ↔ (call_name (state_of (M.whole left.now)).frames ≡ call_name (state_of (M.whole right.now)).frames) }
{
    if are_alike(left, right, alike) {
        return true;
    }
    are_call_names_same(left, right)
}
