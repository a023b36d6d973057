//! What an expression reads of a state: temporaries of a frame, bytes of live memory, and addresses.

ghost use Rattle.std.specs.Prelude.{◌≡◌, IfSome};
ghost use Rattle.qil_layout.specs.Layout.{address_of};
ghost use Rattle.qil_memory.specs.Calls.{IsWidth, loaded};
ghost use Rattle.qil_memory.specs.Live.{live};
ghost use Rattle.qrev_expressions.specs.Readings.{IsHeld, number_read};

use crate::value::{Memory, Missing, Sized, Value, signed};
use qil_code::Code;
use qil_render::{Readers, code_of, func_name};
use qil_tree::Class;
use qrev_map::{FloatClass, Names};
use qrev_views::{FrameView, frame_of, value_at};
use std::alloc::Allocator;
use std::num::{f32_from_bits_with_nan, f64_from_bits_with_nan};

/// Where an expression is worked out: in the frame of a number, the innermost of which is 1, after so many moves.
#[derive(Clone, Copy)]
pub struct Scene {
    pub number: u64,
    pub position: u64,
}

/// What a frame holds of the temporary of a name, without its sigil, and its class.
pub fn named_temp<'c, A: Allocator + Copy + 'c, M: Readers<A, Code<'c, A>>>(
    machine: &M,
    frame: &FrameView<'_>,
    name: &[u8],
) -> Option<(Option<u64>, Option<Class>)>
    ensures { IfSome result (λ found. IsHeld (M.whole machine.now).program (M.whole machine.now).frames frame.now name.now found.0) }
{
    // What these two say is that the slots of a frame have the names of its function.
    let _known = code_of(machine).func(frame.func());
    let _there = machine.frame(0);
    let code = code_of(machine);
    let slot = code.slot_of(frame.func(), name)?;
    let value = *frame.slots().get(usize::from(slot.index))?;
    Some((value, code.class_of(frame.func(), slot)))
}

/// The number in so many bytes from an address on, if all of them are live.
pub fn bits_at<'c, A: Allocator + Copy + 'c, M: Readers<A, Code<'c, A>>>(
    machine: &M,
    address: u64,
    width: u64,
) -> Option<u64>
    requires { IsWidth width }
    ensures { result ≡ number_read (loaded (live (M.whole machine.now).memory) address width) }
{
    value_at(machine, address, width)
}

/// The address of data or of a function, by its name without its sigil.
pub fn address_named<A: Allocator + Copy>(code: &Code<'_, A>, name: &[u8]) -> Option<u64>
    ensures { result ≡ address_of code.now name.now }
{
    code.image().address(name)
}

/// The single that the low bits of a value are.
fn single(bits: u64) -> Value {
    Value::Single(f32_from_bits_with_nan((bits % 0x1_0000_0000) as u32))
}

/// What a temporary is worth that holds this.
fn temp_value(value: Option<u64>, class: Option<Class>, float: Option<FloatClass>) -> Value {
    let Some(bits) = value else {
        return Value::Missing(Missing::Unset);
    };
    match (float, class) {
        (Some(FloatClass::Single), _) => single(bits),
        (Some(FloatClass::Double), _) => Value::Double(f64_from_bits_with_nan(bits)),
        (None, Some(Class::W)) => Value::Number(signed(bits, 32), Sized::Word),
        (None, _) => Value::Number(signed(bits, 64), Sized::Long),
    }
}

/// What a temporary is worth, by its name in the text that was lowered or in the one that is run.
pub fn temp<'c, A: Allocator + Copy + 'c, M: Readers<A, Code<'c, A>>>(
    machine: &M,
    names: &Names<A>,
    number: u64,
    name: &[u8],
) -> Value {
    let Some(frame) = frame_of(machine, number) else {
        return Value::Missing(Missing::NoFrame);
    };
    let name = names.run(b"%", name);
    match named_temp(machine, &frame, name) {
        Some((value, class)) => {
            let float = names.class_of(func_name(code_of(machine), frame.func()), name);
            temp_value(value, class, float)
        }
        None => Value::Missing(Missing::NoSuchName),
    }
}

/// What the address of data or of a function is worth.
pub fn global<A: Allocator + Copy>(code: &Code<'_, A>, name: &[u8]) -> Value {
    match address_named(code, name) {
        Some(address) => Value::Number(i128::from(address), Sized::Long),
        None => Value::Missing(Missing::NoSuchName),
    }
}

/// What the memory at an address is worth.
pub fn load<'c, A: Allocator + Copy + 'c, M: Readers<A, Code<'c, A>>>(
    machine: &M,
    address: u64,
    memory: Memory,
) -> Value {
    let bits = match memory {
        Memory::Byte => bits_at(machine, address, 1),
        Memory::Half => bits_at(machine, address, 2),
        Memory::Word | Memory::Single => bits_at(machine, address, 4),
        Memory::Long | Memory::Double => bits_at(machine, address, 8),
    };
    let Some(bits) = bits else {
        return Value::Missing(Missing::Dead);
    };
    match memory {
        Memory::Byte => Value::Number(signed(bits, 8), Sized::Word),
        Memory::Half => Value::Number(signed(bits, 16), Sized::Word),
        Memory::Word => Value::Number(signed(bits, 32), Sized::Word),
        Memory::Long => Value::Number(signed(bits, 64), Sized::Long),
        Memory::Single => single(bits),
        Memory::Double => Value::Double(f64_from_bits_with_nan(bits)),
    }
}
