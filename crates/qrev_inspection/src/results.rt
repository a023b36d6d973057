//! What an expression is worth, as an editor shows it.

use qil_machine::Code;
use qrev_debuggee::{Body, Cause};
use qrev_expressions::{Missing, Sized, Value, low_bits};
use qrev_views::{Readers, Showing, byte_at, number_text};
use std::alloc::{AllocError, Allocator};

/// Why an expression has no value.
pub fn cause_of(missing: Missing) -> Cause {
    match missing {
        Missing::Unset => Cause::Unset,
        Missing::NoSuchName => Cause::NoSuchName,
        Missing::NoFrame => Cause::NoSuchFrame,
        Missing::Dead => Cause::DeadBytes,
        Missing::ZeroDivisor => Cause::ZeroDivisor,
        Missing::Shift => Cause::BadShift,
        Missing::TooLarge => Cause::TooLarge,
        Missing::OfFloats => Cause::OfFloats,
        Missing::NotWhole => Cause::NotWhole,
    }
}

/// Adds a result that is a text.
pub fn put_result<A: Allocator>(body: Body<A>, text: &str) -> Result<Body<A>, AllocError> {
    body.text("result", text)?.number("variablesReference", 0)
}

/// Adds the type of a result, if the editor understands it.
pub fn put_type<A: Allocator>(
    body: Body<A>,
    showing: Showing,
    letter: &str,
) -> Result<Body<A>, AllocError> {
    if showing.has_types {
        body.text("type", letter)
    } else {
        Ok(body)
    }
}

/// Adds a reference to the memory at an address, if the editor understands it.
pub fn put_reference<A: Allocator + Copy>(
    alloc: A,
    body: Body<A>,
    showing: Showing,
    address: u64,
) -> Result<Body<A>, AllocError> {
    if !showing.has_references {
        return Ok(body);
    }
    let address = number_text(alloc, address)?;
    body.text("memoryReference", address.as_str())
}

/// The letter of the class of a value.
pub fn letter_of(value: Value) -> &'static str {
    match value {
        Value::Number(_, Sized::Word) => "w",
        Value::Single(_) => "s",
        Value::Double(_) | Value::Written(_) => "d",
        _ => "l",
    }
}

/// The address that a value is, if it is that of a live byte.
pub fn address_in<'c, A: Allocator + Copy + 'c, M: Readers<A, Code<'c, A>>>(
    machine: &M,
    value: Value,
) -> Option<u64> {
    let Value::Number(number, Sized::Long) = value else {
        return None;
    };
    let address = low_bits(number);
    if byte_at(machine, address).is_some() {
        Some(address)
    } else {
        None
    }
}
