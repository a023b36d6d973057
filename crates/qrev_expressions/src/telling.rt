//! What an expression is worth, as a text.

use crate::evaluating::low_bits;
use crate::operation::Operation;
use crate::parsing::Expression;
use crate::value::{Memory, Missing, Sized, Value};
use qil_code::Code;
use qil_tree::Class;
use qrev_views::{Showing, Style, told_value, value_text};
use std::alloc::{AllocError, Allocator};
use std::num::{f32_to_bits_with_nan, f64_to_bits_with_nan};

/// What was read last, and as it is: a piece of memory or a temporary is shown as it is among the variables.
fn read_width<A: Allocator>(expression: &Expression<'_, A>) -> Option<u32> {
    match expression.operations.as_slice().last() {
        Some(Operation::Temp(_)) => Some(64),
        Some(Operation::Load(Memory::Byte)) => Some(8),
        Some(Operation::Load(Memory::Half)) => Some(16),
        Some(Operation::Load(_)) => Some(64),
        _ => None,
    }
}

/// The class of a number.
fn class_of(sized: Sized) -> Option<Class> {
    match sized {
        Sized::Word => Some(Class::W),
        _ => Some(Class::L),
    }
}

/// The bits of a number in its class.
fn bits_in(number: i128, sized: Sized) -> u64 {
    match sized {
        Sized::Word => low_bits(number) % 0x1_0000_0000,
        _ => low_bits(number),
    }
}

/// The low bits of a value.
fn cut(bits: u64, width: u32) -> u64 {
    match width {
        8 => bits % 0x100,
        16 => bits % 0x1_0000,
        _ => bits,
    }
}

/// A number that was worked out, with its sign.
fn counted_text<A: Allocator + Copy>(
    alloc: A,
    showing: Showing,
    number: i128,
    sized: Sized,
) -> Result<String<A>, AllocError> {
    if showing.is_hex {
        return value_text(alloc, Style::Hex, Some(bits_in(number, sized)));
    }
    format!(in alloc; "{number}")
}

/// A number, as it was read or as it was worked out.
fn number_told<A: Allocator + Copy>(
    alloc: A,
    code: &Code<'_, A>,
    showing: Showing,
    read: Option<u32>,
    (number, sized): (i128, Sized),
) -> Result<String<A>, AllocError> {
    match read {
        Some(width) => {
            let style = Style::of(None, showing.is_hex);
            let bits = cut(bits_in(number, sized), width);
            told_value(alloc, code, style, class_of(sized), Some(bits))
        }
        None => counted_text(alloc, showing, number, sized),
    }
}

/// A float, or its bits.
fn float_told<A: Allocator + Copy>(
    alloc: A,
    style: Style,
    showing: Showing,
    bits: u64,
) -> Result<String<A>, AllocError> {
    if showing.is_hex {
        value_text(alloc, Style::Hex, Some(bits))
    } else {
        value_text(alloc, style, Some(bits))
    }
}

/// A value as a text, or why there is none.
#[derive(Drop)]
pub enum Told<A: Allocator> {
    Text(String<A>),
    Missing(Missing),
}

/// A value that an expression is worth, as a text.
pub fn tell<A: Allocator + Copy>(
    alloc: A,
    code: &Code<'_, A>,
    showing: Showing,
    expression: &Expression<'_, A>,
    value: Value,
) -> Result<Told<A>, AllocError> {
    match value {
        Value::Number(number, sized) => {
            let read = read_width(expression);
            let text = number_told(alloc, code, showing, read, (number, sized))?;
            Ok(Told::Text(text))
        }
        Value::Single(float) => {
            let bits = u64::from(f32_to_bits_with_nan(float));
            Ok(Told::Text(float_told(alloc, Style::Single, showing, bits)?))
        }
        Value::Double(float) | Value::Written(float) => {
            let bits = f64_to_bits_with_nan(float);
            Ok(Told::Text(float_told(alloc, Style::Double, showing, bits)?))
        }
        Value::Missing(Missing::Unset) if read_width(expression).is_some() => {
            Ok(Told::Text(value_text(alloc, Style::Decimal, None)?))
        }
        Value::Missing(missing) => Ok(Told::Missing(missing)),
    }
}
