//! Values as texts: in digits, or as floats; and what else they are.

ghost use Rattle.std.specs.Prelude.{◌≡◌, IfOk, string_bytes};
ghost use Rattle.qrev_views.specs.Values.{IsShown, IsWritten, style_of};
ghost use Rattle.qrev_views.specs.declared.values.Style.TheVariants.{Hex, Single, Double};

use crate::texts::number_text;
use qrev_map::FloatClass;
use ryu::Buffer;
use std::alloc::{AllocError, Allocator};
use std::num::{f32_from_bits_with_nan, f64_from_bits_with_nan};

/// In which way a value is written.
#[derive(Clone, Copy, PartialEq, Eq)]
pub enum Style {
    Decimal,
    Hex,
    Single,
    Double,
}

impl Style {
    /// That of a value that may be a float, in hexadecimal digits if these are asked for.
    pub fn of(class: Option<FloatClass>, is_hex: bool) -> Self
        ensures { result ≡ style_of class is_hex }
    {
        match class {
            _ if is_hex => Style::Hex,
            Some(FloatClass::Single) => Style::Single,
            Some(FloatClass::Double) => Style::Double,
            None => Style::Decimal,
        }
    }
}

/// A value in hexadecimal digits.
fn hex_text<A: Allocator>(alloc: A, value: u64) -> Result<String<A>, AllocError>
    ensures { IfOk result (λ text. IsWritten Hex value (string_bytes text)) }
{
    format!(in alloc; "0x{value:x}")
}

/// The float that the low bits of a value are, as the shortest decimal that is read as it.
fn single_text<A: Allocator>(alloc: A, value: u64) -> Result<String<A>, AllocError>
    ensures { IfOk result (λ text. IsWritten Single value (string_bytes text)) }
{
    let mut digits = Buffer::new();
    String::from_str(
        alloc,
        digits.format(f32_from_bits_with_nan((value % 0x1_0000_0000) as u32)),
    )
}

/// The same of a float of eight bytes.
fn double_text<A: Allocator>(alloc: A, value: u64) -> Result<String<A>, AllocError>
    ensures { IfOk result (λ text. IsWritten Double value (string_bytes text)) }
{
    let mut digits = Buffer::new();
    String::from_str(alloc, digits.format(f64_from_bits_with_nan(value)))
}

/// A value in a way of writing it.
fn written<A: Allocator + Copy>(alloc: A, style: Style, value: u64) -> Result<String<A>, AllocError>
    ensures { IfOk result (λ text. IsWritten style value (string_bytes text)) }
{
    match style {
        Style::Decimal => number_text(alloc, value),
        Style::Hex => hex_text(alloc, value),
        Style::Single => single_text(alloc, value),
        Style::Double => double_text(alloc, value),
    }
}

/// A value, or that it is unset.
pub fn value_text<A: Allocator + Copy>(
    alloc: A,
    style: Style,
    value: Option<u64>,
) -> Result<String<A>, AllocError>
    ensures { IfOk result (λ text. IsShown style value (string_bytes text)) }
{
    match value {
        Some(value) => written(alloc, style, value),
        None => String::from_str(alloc, "unset"),
    }
}
