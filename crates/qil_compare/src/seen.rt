//! Values as each compilation of a program has them: an address counts as what lies there. Nothing here takes memory.

ghost use Rattle.std.specs.Prelude.{◌≡◌, ◌↔◌, IsTrue, find, reverse, slice_get, option_map};
ghost use Rattle.std.specs.Option.{option_copied};
ghost use Rattle.qil_state.specs.State.{func_name};
ghost use Rattle.qil_compare.specs.Seen as values;
ghost use Rattle.qil_compare.specs.Seen.{start_of, starts_by, is_stack, callee_name, data_place, address_seen, seen};
ghost use Rattle.qil_compare.specs.Coded.{offset_of, value_of};

use qil_layout::{Callee, DATA_BASE, FuncId, Image};
use qil_memory::{CAPACITY, STACK_BASE};
use qil_tree::{AbiType, Data, Program};
use std::alloc::Allocator;

/// The address after the last of the stack.
const STACK_END: u64 = STACK_BASE + CAPACITY;

/// How far an address lies after the start of a data object.
#[derive(Clone, Copy)]
pub struct DataPlace<'d> {
    /// The name of the object, without its sigil.
    pub object: &'d [u8],
    pub bytes: u64,
}

/// What a value is, whatever the compilation.
#[derive(Clone, Copy)]
pub enum Seen<'d> {
    Number(u64),
    /// An address of the stack.
    Stack,
    /// An address of the data.
    Data(DataPlace<'d>),
    /// The address of a function: its name, without its sigil.
    Function(&'d [u8]),
}

/// Whether an address is one of the stack. Its end counts as one.
fn is_stack(address: u64) -> bool
    ensures { result ≡ is_stack address }
{
    STACK_BASE <= address && address <= STACK_END
}

/// Where an object of the program begins.
fn start_of<'d, A: Allocator + Copy>(image: &Image<'d, A>, object: &Data<'d, A>) -> u64
    ensures { result ≡ start_of image.now object.now }
{
    image.address(object.name.bytes()).unwrap_or(0)
}

/// The last object that begins at an address or before it.
fn last_object<'s, 'd, A: Allocator + Copy>(
    image: &Image<'d, A>,
    datas: &'s [Data<'d, A>],
    address: u64,
) -> Option<&'s Data<'d, A>>
    ensures { option_copied result ≡ find (starts_by image.now address) (reverse datas.now) }
{
    let mut left = datas.len();
    while left > 0 {
        left -= 1;
        let data = &datas[left];
        if start_of(image, data) <= address {
            return Some(data);
        }
    }
    None
}

/// The data object that an address belongs to: the last that begins at it or before it. The first address after all data
/// belongs to the last object.
pub fn data_place<'d, A: Allocator + Copy>(
    program: &Program<'d, A>,
    image: &Image<'d, A>,
    address: u64,
) -> Option<DataPlace<'d>>
    requires { image.now ≡ program.now }
    ensures { option_map offset_of result ≡ data_place program.now address }
{
    if address > DATA_BASE + image.bytes().len() as u64 {
        return None;
    }
    match last_object(image, program.datas.as_slice(), address) {
        Some(data) => Some(DataPlace {
            object: data.name.bytes(),
            bytes: address.saturating_sub(start_of(image, data)),
        }),
        None => None,
    }
}

/// The name of a function of the program, without its sigil.
pub fn func_name<'d, A: Allocator + Copy>(image: &Image<'d, A>, func: FuncId) -> &'d [u8]
    ensures { result.now ≡ func_name (slice_get image.now.funcs func.index) }
{
    match image.name_of(func) {
        Some(name) => name.bytes(),
        None => b"",
    }
}

/// The name of what a call goes to, without its sigil.
fn callee_name<'d, A: Allocator + Copy>(image: &Image<'d, A>, callee: Callee) -> &'d [u8]
    ensures { result.now ≡ callee_name image.now callee }
{
    match callee {
        Callee::Defined(func) => func_name(image, func),
        Callee::PutChar => b"putchar",
        Callee::Puts => b"puts",
        Callee::Exit => b"exit",
    }
}

/// What an address is.
pub fn address_seen<'d, A: Allocator + Copy>(
    program: &Program<'d, A>,
    image: &Image<'d, A>,
    address: u64,
) -> Seen<'d>
    requires { image.now ≡ program.now }
    ensures { value_of result ≡ address_seen program.now address }
{
    if is_stack(address) {
        return Seen::Stack;
    }
    if let Some(place) = data_place(program, image, address) {
        return Seen::Data(place);
    }
    match image.function_at(address) {
        Some(callee) => Seen::Function(callee_name(image, callee)),
        None => Seen::Number(address),
    }
}

/// What a value of a type is: only one of 64 bits can be an address.
pub fn value_seen<'d, A: Allocator + Copy>(
    program: &Program<'d, A>,
    image: &Image<'d, A>,
    abi_type: AbiType,
    value: u64,
) -> Seen<'d>
    requires { image.now ≡ program.now }
    ensures { value_of result ≡ seen program.now abi_type value }
{
    match abi_type {
        AbiType::L => address_seen(program, image, value),
        AbiType::W | AbiType::Sb | AbiType::Ub | AbiType::Sh | AbiType::Uh => Seen::Number(value),
    }
}

/// Whether two values are the same.
pub fn same_seen(left: Seen<'_>, right: Seen<'_>) -> bool
    ensures { IsTrue result ↔ (value_of left.entry ≡ value_of right.entry) }
{
    match left {
        Seen::Number(number) => is_number(right, number),
        Seen::Stack => is_on_stack(right),
        Seen::Data(place) => is_place(right, place),
        Seen::Function(name) => is_function(right, name),
    }
}

fn is_number(value: Seen<'_>, number: u64) -> bool
    ensures { IsTrue result ↔ (values.number number ≡ value_of value.entry) }
{
    match value {
        Seen::Number(other) => number == other,
        Seen::Stack | Seen::Data(_) | Seen::Function(_) => false,
    }
}

fn is_on_stack(value: Seen<'_>) -> bool
    ensures { IsTrue result ↔ (values.stack ≡ value_of value.entry) }
{
    match value {
        Seen::Stack => true,
        Seen::Number(_) | Seen::Data(_) | Seen::Function(_) => false,
    }
}

/// Whether two places are the same.
pub fn same_place(left: DataPlace<'_>, right: DataPlace<'_>) -> bool
    ensures { IsTrue result ↔ (offset_of left.entry ≡ offset_of right.entry) }
{
    left.bytes == right.bytes && left.object == right.object
}

fn is_place(value: Seen<'_>, place: DataPlace<'_>) -> bool
    ensures { IsTrue result ↔ (values.in_data (offset_of place.entry) ≡ value_of value.entry) }
{
    match value {
        Seen::Data(other) => same_place(place, other),
        Seen::Number(_) | Seen::Stack | Seen::Function(_) => false,
    }
}

fn is_function(value: Seen<'_>, name: &[u8]) -> bool
    ensures { IsTrue result ↔ (values.function name.now ≡ value_of value.entry) }
{
    match value {
        Seen::Function(other) => name == other,
        Seen::Number(_) | Seen::Stack | Seen::Data(_) => false,
    }
}
