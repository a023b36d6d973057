//! An expression worked out in a state.

use crate::operation::{Binary, Operation, Unary};
use crate::parsing::Expression;
use crate::scene::{Scene, global, load, temp};
use crate::value::{Missing, Sized, Value};
use qil_code::Code;
use qil_render::{Readers, code_of};
use qrev_map::Names;
use std::alloc::{AllocError, Allocator};
use std::num::{
    f32_to_bits_with_nan, f32_to_f64_with_nan, f64_to_bits_with_nan, nearest_f64_to_f32_with_nan,
    nearest_u64_to_f64,
};

/// The low 64 bits of a number, as two's complement.
pub fn low_bits(number: i128) -> u64 {
    (number.cast_unsigned() % (1 << 64)) as u64
}

/// The low 32 bits of a number.
fn word_bits(number: i128) -> u64 {
    low_bits(number) % 0x1_0000_0000
}

fn truth(holds: bool) -> Value {
    Value::Number(i128::from(holds), Sized::Unsized)
}

/// The float next to a number without its sign. Of one that is wider than 64 bits the last that is kept stands for all behind it,
/// so that nothing is rounded twice.
fn float_of_size(size: u128) -> f64 {
    let mut front = size;
    let mut scale = 1.0;
    for _ in 0..64 {
        if front >> 64 != 0 {
            front = front >> 1 | front & 1;
            scale *= 2.0;
        }
    }
    nearest_u64_to_f64((front % (1 << 64)) as u64) * scale
}

/// A number as a float.
fn float_of_number(number: i128) -> f64 {
    let float = float_of_size(number.unsigned_abs());
    if number < 0 { -float } else { float }
}

/// An operand as a float, where the other is one.
fn as_double(value: Value, beside_single: bool) -> f64 {
    let plain = match value {
        Value::Number(number, _) => float_of_number(number),
        Value::Written(float) => float,
        Value::Double(float) => return float,
        Value::Single(float) => return f32_to_f64_with_nan(float),
        Value::Missing(_) => 0.0,
    };
    if beside_single {
        f32_to_f64_with_nan(nearest_f64_to_f32_with_nan(plain))
    } else {
        plain
    }
}

fn is_float(value: Value) -> bool {
    matches!(
        value,
        Value::Single(_) | Value::Double(_) | Value::Written(_)
    )
}

fn is_single(value: Value) -> bool {
    matches!(value, Value::Single(_))
}

/// Whether a float has the class of a double, or a number beside it makes it one.
fn is_wide(value: Value) -> bool {
    matches!(
        value,
        Value::Double(_) | Value::Number(_, Sized::Word | Sized::Long)
    )
}

/// A float that was worked out, of the class of its operands.
fn rounded(first: Value, second: Value, float: f64) -> Value {
    if (is_single(first) || is_single(second)) && !is_wide(first) && !is_wide(second) {
        Value::Single(nearest_f64_to_f32_with_nan(float))
    } else {
        Value::Double(float)
    }
}

/// A comparison of floats.
fn compared(binary: Binary, a: f64, b: f64) -> Option<bool> {
    match binary {
        Binary::Equal => Some(a == b),
        Binary::NotEqual => Some(a != b),
        Binary::Less => Some(a < b),
        Binary::LessEqual => Some(a <= b),
        Binary::Greater => Some(a > b),
        Binary::GreaterEqual => Some(a >= b),
        _ => None,
    }
}

/// An operation of which an operand is a float.
fn combined_floats(binary: Binary, first: Value, second: Value) -> Value {
    let a = as_double(first, is_single(second));
    let b = as_double(second, is_single(first));
    if let Some(holds) = compared(binary, a, b) {
        return truth(holds);
    }
    match binary {
        Binary::Add => rounded(first, second, a + b),
        Binary::Subtract => rounded(first, second, a - b),
        Binary::Multiply => rounded(first, second, a * b),
        Binary::Divide => rounded(first, second, a / b),
        _ => Value::Missing(Missing::OfFloats),
    }
}

/// A number that was worked out, if it isn't too large.
fn counted(number: Option<i128>, sized: Sized) -> Value {
    match number {
        Some(number) => Value::Number(number, sized),
        None => Value::Missing(Missing::TooLarge),
    }
}

/// The quotient and the remainder, toward zero.
fn divided(a: i128, b: i128, is_quotient: bool, sized: Sized) -> Value {
    if b == 0 {
        return Value::Missing(Missing::ZeroDivisor);
    }
    if is_quotient {
        counted(a.checked_div(b), sized)
    } else {
        counted(a.checked_rem(b), sized)
    }
}

/// A number shifted.
fn shifted(a: i128, b: i128, is_left: bool) -> Value {
    if b < 0 || b > 63 {
        return Value::Missing(Missing::Shift);
    }
    let count = b as u32;
    if is_left {
        counted(a.checked_mul(1_i128 << count), Sized::Unsized)
    } else {
        Value::Number(a >> count, Sized::Unsized)
    }
}

/// Whether two numbers have the same bits in the narrower of their classes.
fn is_equal(a: i128, b: i128, narrower: Sized) -> bool {
    match narrower {
        Sized::Word => word_bits(a) == word_bits(b),
        Sized::Long => low_bits(a) == low_bits(b),
        Sized::Unsized => a == b,
    }
}

/// The narrower of two classes.
fn narrower(one: Sized, other: Sized) -> Sized {
    match (one, other) {
        (Sized::Word, _) | (_, Sized::Word) => Sized::Word,
        (Sized::Long, _) | (_, Sized::Long) => Sized::Long,
        _ => Sized::Unsized,
    }
}

/// An operation of two numbers.
fn combined_numbers(binary: Binary, (a, one): (i128, Sized), (b, other): (i128, Sized)) -> Value {
    let sized = if one == Sized::Unsized { other } else { one };
    match binary {
        Binary::Add => counted(a.checked_add(b), sized),
        Binary::Subtract => counted(a.checked_sub(b), sized),
        Binary::Multiply => counted(a.checked_mul(b), sized),
        Binary::Divide => divided(a, b, true, sized),
        Binary::Remainder => divided(a, b, false, sized),
        Binary::BitAnd => Value::Number(a & b, sized),
        Binary::BitOr => Value::Number(a | b, sized),
        Binary::BitXor => Value::Number(a ^ b, sized),
        Binary::ShiftLeft => shifted(a, b, true),
        Binary::ShiftRight => shifted(a, b, false),
        Binary::Equal => truth(is_equal(a, b, narrower(one, other))),
        Binary::NotEqual => truth(!is_equal(a, b, narrower(one, other))),
        Binary::Less => truth(a < b),
        Binary::LessEqual => truth(a <= b),
        Binary::Greater => truth(a > b),
        Binary::GreaterEqual => truth(a >= b),
        Binary::And => truth(a != 0 && b != 0),
        Binary::Or => truth(a != 0 || b != 0),
    }
}

/// Whether a value counts as true, if there is one.
pub fn holds(value: Value) -> Result<bool, Missing> {
    match value {
        Value::Number(number, _) => Ok(number != 0),
        Value::Single(float) => Ok(float != 0.0),
        Value::Double(float) | Value::Written(float) => Ok(float != 0.0),
        Value::Missing(missing) => Err(missing),
    }
}

/// `&&` and `||`, which look at the second operand where it counts.
fn chosen(is_or: bool, first: Value, second: Value) -> Value {
    match (holds(first), holds(second)) {
        (Ok(holds), _) if holds == is_or => truth(is_or),
        (Err(missing), _) => Value::Missing(missing),
        (_, Ok(holds)) => truth(holds),
        (_, Err(missing)) => Value::Missing(missing),
    }
}

/// The number that a value is, with its class.
fn number_of(value: Value) -> Option<(i128, Sized)> {
    match value {
        Value::Number(number, sized) => Some((number, sized)),
        _ => None,
    }
}

/// Why a value is missing, if it is.
fn missing_of(value: Value) -> Option<Missing> {
    match value {
        Value::Missing(missing) => Some(missing),
        _ => None,
    }
}

/// An operation of two values.
fn combined(binary: Binary, first: Value, second: Value) -> Value {
    if binary == Binary::And || binary == Binary::Or {
        return chosen(binary == Binary::Or, first, second);
    }
    if let Some(missing) = missing_of(first).or(missing_of(second)) {
        return Value::Missing(missing);
    }
    match (number_of(first), number_of(second)) {
        (Some(one), Some(other)) => combined_numbers(binary, one, other),
        _ => combined_floats(binary, first, second),
    }
}

/// The bits of a value as a number.
fn recast(is_signed: bool, value: Value) -> Value {
    let (bits, width) = match value {
        Value::Number(number, Sized::Word) => (low_bits(number), 32),
        Value::Number(number, _) => (low_bits(number), 64),
        Value::Single(float) => (u64::from(f32_to_bits_with_nan(float)), 32),
        Value::Double(float) | Value::Written(float) => (f64_to_bits_with_nan(float), 64),
        Value::Missing(_) => return value,
    };
    let number = match (is_signed, width) {
        (true, width) => crate::value::signed(bits, width),
        (false, 32) => i128::from(bits % 0x1_0000_0000),
        (false, _) => i128::from(bits),
    };
    Value::Number(number, Sized::Unsized)
}

/// An operation of a float.
fn unary_of_float(unary: Unary, value: Value) -> Value {
    match (unary, value) {
        (Unary::Plus, _) => value,
        (Unary::Minus, Value::Single(float)) => Value::Single(-float),
        (Unary::Minus, Value::Double(float)) => Value::Double(-float),
        (Unary::Minus, Value::Written(float)) => Value::Written(-float),
        _ => Value::Missing(Missing::OfFloats),
    }
}

/// An operation of a value.
fn changed(unary: Unary, value: Value) -> Value {
    match (unary, value) {
        (_, Value::Missing(_)) => value,
        (Unary::Unsigned, _) => recast(false, value),
        (Unary::Signed, _) => recast(true, value),
        (Unary::Not, _) => match holds(value) {
            Ok(holds) => truth(!holds),
            Err(missing) => Value::Missing(missing),
        },
        (Unary::Minus, Value::Number(number, sized)) => counted(number.checked_neg(), sized),
        (Unary::Complement, Value::Number(number, sized)) => Value::Number(!number, sized),
        (Unary::Plus, Value::Number(number, _)) => Value::Number(number, Sized::Unsized),
        _ => unary_of_float(unary, value),
    }
}

/// The memory at the address that a value is.
fn loaded<'c, A: Allocator + Copy + 'c, M: Readers<A, Code<'c, A>>>(
    machine: &M,
    memory: crate::value::Memory,
    address: Value,
) -> Value {
    match address {
        Value::Number(number, _) => load(machine, low_bits(number), memory),
        Value::Missing(_) => address,
        _ => Value::Missing(Missing::NotWhole),
    }
}

/// What is worked out last, which an operation takes.
fn popped<A: Allocator>(values: &mut Vec<Value, A>) -> Value {
    values.pop().unwrap_or(Value::Missing(Missing::Unset))
}

/// What an operation gives.
fn done<'c, A: Allocator + Copy + 'c, M: Readers<A, Code<'c, A>>>(
    machine: &M,
    names: &Names<A>,
    scene: Scene,
    operation: Operation<'_>,
    values: &mut Vec<Value, A>,
) -> Value {
    match operation {
        Operation::Number(number) => Value::Number(i128::from(number), Sized::Unsized),
        Operation::Float(float) => Value::Written(float),
        Operation::Temp(name) => temp(machine, names, scene.number, name),
        Operation::Global(name) => global(code_of(machine), name),
        Operation::Depth => Value::Number(machine.depth() as i128, Sized::Unsized),
        Operation::Position => Value::Number(i128::from(scene.position), Sized::Unsized),
        Operation::Load(memory) => loaded(machine, memory, popped(values)),
        Operation::Unary(unary) => changed(unary, popped(values)),
        Operation::Binary(binary) => {
            let second = popped(values);
            combined(binary, popped(values), second)
        }
    }
}

/// What an expression is worth in a state.
pub fn evaluate<'c, A: Allocator + Copy + 'c, M: Readers<A, Code<'c, A>>>(
    alloc: A,
    machine: &M,
    names: &Names<A>,
    scene: Scene,
    expression: &Expression<'_, A>,
) -> Result<Value, AllocError> {
    let mut values = Vec::new(alloc);
    for operation in expression.operations.as_slice() {
        let value = done(machine, names, scene, *operation, &mut values);
        match values.push(value) {
            Ok(()) => {}
            Err(_) => return Err(AllocError),
        }
    }
    Ok(popped(&mut values))
}
