//! What number and string tokens represent.

ghost use Rattle.std.specs.Prelude.{◌≡◌, ◌≢◌, ◌<◌, ◌^◌, ◌+◌, ◌-◌, ◌*◌, true, None, IfOk};
ghost use Rattle.std.specs.Char.{is_ascii_digit};
ghost use Rattle.qil_lexer.specs.Shape.{Are, is_octal, decimal, number_value, escape_len, escape_value, item_len, item_value, StringBytes, HasShape, IsInRange};
ghost use Rattle.qil_lexer.specs.declared.token.TokenKind.TheVariants.{Number, Quoted};

use crate::prefix::{decimal_after, is_octal, item_len};
use std::alloc::{AllocError, Allocator};

/// The value of decimal digits.
fn decimal(digits: &[u8]) -> u64
    requires digits { Are is_ascii_digit digits.now }
    requires fits { decimal digits.now < 2 ^ 64 }
    ensures { result ≡ decimal digits.now }
{
    decimal_after(0, digits).unwrap()
}

/// The value of a Number token as 64 bits in two's complement: `-1` gives 2^64 - 1, as does that number itself.
pub fn number_value(text: &[u8]) -> u64
    requires shape { HasShape Number text.now }
    requires in_range { IsInRange text.now }
    ensures { result ≡ number_value text.now }
{
    if text[0] == b'-' {
        decimal(&text[1..]).wrapping_neg()
    } else {
        decimal(text)
    }
}

/// The value of two octal digits.
fn two_octal(first: u8, second: u8) -> u8
    requires first { is_octal first ≡ true }
    requires second { is_octal second ≡ true }
    ensures { result ≡ (first - 48) * 8 + (second - 48) }
{
    (first - b'0') * 8 + (second - b'0')
}

/// The byte that the escape after a backslash represents.
#[tactic(auto, unfolding(crate::specs::Shape::escape_len, crate::specs::Shape::escape_value))]
fn escape_value(bytes: &[u8]) -> u8
    requires { escape_len bytes.now ≢ None }
    ensures { result ≡ escape_value bytes.now }
{
    match bytes {
        [a, b, c, ..] if is_octal(*a) && is_octal(*b) && is_octal(*c) => (*a - b'0') * 64
            + (*b - b'0') * 8
            + (*c - b'0'),
        [a, b, ..] if is_octal(*a) && is_octal(*b) => two_octal(*a, *b),
        [a, ..] if is_octal(*a) => *a - b'0',
        [b'b', ..] => 8,
        [b'f', ..] => 12,
        [b'n', ..] => b'\n',
        [b'r', ..] => b'\r',
        [b't', ..] => b'\t',
        [other, ..] => *other,
        [] => 0,
    }
}

/// The byte that a string's next item represents.
#[tactic(auto, unfolding(crate::specs::Shape::item_len, crate::specs::Shape::item_value))]
fn item_value(bytes: &[u8]) -> u8
    requires { item_len bytes.now ≢ None }
    ensures { result ≡ item_value bytes.now }
{
    if bytes[0] == b'\\' {
        escape_value(&bytes[1..])
    } else {
        bytes[0]
    }
}

/// The bytes that a Quoted token represents: its quotes left out, its escapes replaced by their bytes.
///
/// # Errors
///
/// Only where `alloc` is out of room for the bytes.
pub fn string_bytes<A: Allocator + Copy>(alloc: A, text: &[u8]) -> Result<Vec<u8, A>, AllocError>
    requires { HasShape Quoted text.now }
    ensures { IfOk result (λ v. StringBytes text.now v.items) }
{
    let mut bytes = Vec::new(alloc);
    let mut at = 1;
    while let Some(len) = item_len(&text[at..]) {
        bytes.push(item_value(&text[at..]))?;
        at += len;
    }
    Ok(bytes)
}
