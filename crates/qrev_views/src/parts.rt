//! The parts of data objects, and what an address points to: numbers in the width that the text gives them, and texts.

ghost use Rattle.std.specs.Prelude.{◌≡◌};
ghost use Rattle.qil_memory.specs.Calls.{IsWidth, loaded};
ghost use Rattle.qil_memory.specs.Live.{live};
ghost use Rattle.qrev_views.specs.Variables.{value_of};

use crate::bytes::{byte_at, value_at};
use crate::data::width_bytes;
use crate::remarks::{data_around, told_value};
use crate::texts::joined;
use crate::values::Style;
use crate::variable::{Page, Showing, add_address, add_expression, begin_variable};
use qil_code::Code;
use qil_fragments::Fragment;
use qil_render::{Readers, code_of};
use qil_tree::{Class, Data, Field, Item, Width};
use qrev_protocol::{Array, Surrounding};
use std::alloc::{AllocError, Allocator};

/// The most parts that one request shows.
const MOST_PARTS: u64 = 4096;

/// How many bytes of a text are shown.
const TEXT_LIMIT: u64 = 256;

/// How many numbers are shown of memory whose contents no text describes.
const PLAIN_COUNT: u64 = 16;

/// A part: where it lies, and its width, or of how many bytes the text is that it is.
#[derive(Clone, Copy)]
enum Part {
    Number(Width),
    Text(u64),
}

/// A list of parts as it is filled: which of them is next, and where that lies.
#[derive(Drop)]
struct Parts<A: Allocator, U: Surrounding> {
    list: Array<A, U>,
    showing: Showing,
    page: Page,
    index: u64,
    address: u64,
}

/// The letter of a width.
fn letter(width: Width) -> &'static [u8] {
    match width {
        Width::B => b"b",
        Width::H => b"h",
        Width::W => b"w",
        Width::L => b"l",
    }
}

/// The class in which a number of a width is shown.
fn class_of(width: Width) -> Option<Class> {
    match width {
        Width::L => Some(Class::L),
        _ => Some(Class::W),
    }
}

/// The expression that gives what lies at an address.
fn expression<A: Allocator + Copy>(
    alloc: A,
    width: Width,
    address: u64,
) -> Result<String<A>, AllocError> {
    joined(
        alloc,
        &[
            Fragment::Bytes(letter(width)),
            Fragment::Bytes(b"["),
            Fragment::Number(address),
            Fragment::Bytes(b"]"),
        ],
    )
}

/// The name of a part: its number in brackets.
fn part_name<A: Allocator + Copy>(alloc: A, index: u64) -> Result<String<A>, AllocError> {
    joined(
        alloc,
        &[
            Fragment::Bytes(b"["),
            Fragment::Number(index),
            Fragment::Bytes(b"]"),
        ],
    )
}

/// Adds a byte of a text, as it is written between quotes.
fn push_byte<A: Allocator>(text: &mut String<A>, byte: u8) -> Result<(), AllocError> {
    match byte {
        b'\n' => text.push_str("\\n"),
        b'\t' => text.push_str("\\t"),
        b'\r' => text.push_str("\\r"),
        b'"' => text.push_str("\\\""),
        b'\\' => text.push_str("\\\\"),
        32..=126 => text.push(char::from(byte)),
        _ => {
            text.push_str("\\")?;
            text.push(char::from(b'0' + byte / 64))?;
            text.push(char::from(b'0' + byte / 8 % 8))?;
            text.push(char::from(b'0' + byte % 8))
        }
    }
}

/// So many live bytes from an address on, between quotes.
pub fn quoted<'c, A: Allocator + Copy + 'c, M: Readers<A, Code<'c, A>>>(
    alloc: A,
    machine: &M,
    address: u64,
    count: u64,
) -> Result<String<A>, AllocError> {
    let mut text = String::from_str(alloc, "\"")?;
    for offset in 0..count.min(TEXT_LIMIT) {
        match byte_at(machine, address.wrapping_add(offset)) {
            Some(byte) => push_byte(&mut text, byte)?,
            None => break,
        }
    }
    text.push_str(if count > TEXT_LIMIT { "\"..." } else { "\"" })?;
    Ok(text)
}

/// What a part holds, as a text.
fn part_text<'c, A: Allocator + Copy + 'c, M: Readers<A, Code<'c, A>>>(
    alloc: A,
    machine: &M,
    showing: Showing,
    address: u64,
    part: Part,
) -> Result<String<A>, AllocError> {
    match part {
        Part::Number(width) => {
            let value = value_at(machine, address, width_bytes(width));
            told_value(
                alloc,
                code_of(machine),
                Style::of(None, showing.is_hex),
                class_of(width),
                value,
            )
        }
        Part::Text(count) => quoted(alloc, machine, address, count),
    }
}

/// The width in which a part is read.
fn width_of(part: Part) -> Width {
    match part {
        Part::Number(width) => width,
        Part::Text(_) => Width::B,
    }
}

/// How many bytes a part has.
fn size_of(part: Part) -> u64 {
    match part {
        Part::Number(width) => width_bytes(width),
        Part::Text(count) => count,
    }
}

/// Adds a part.
fn put_part<'c, A: Allocator + Copy + 'c, M: Readers<A, Code<'c, A>>, U: Surrounding>(
    alloc: A,
    list: Array<A, U>,
    machine: &M,
    showing: Showing,
    (index, address): (u64, u64),
    part: Part,
) -> Result<Array<A, U>, AllocError> {
    let text = part_text(alloc, machine, showing, address, part)?;
    let name = part_name(alloc, index)?;
    let expression = expression(alloc, width_of(part), address)?;
    let variable = begin_variable(list, name.as_str(), text.as_str(), 0)?;
    let variable = add_expression(variable, expression.as_str())?;
    add_address(alloc, variable, showing, address)?.end_item()
}

/// Adds the next part, if the page has it, and goes behind it.
fn add_part<'c, A: Allocator + Copy + 'c, M: Readers<A, Code<'c, A>>, U: Surrounding>(
    alloc: A,
    parts: Parts<A, U>,
    machine: &M,
    part: Part,
) -> Result<Parts<A, U>, AllocError> {
    let Parts {
        list,
        showing,
        page,
        index,
        address,
    } = parts;
    let count = page.count.min(MOST_PARTS);
    let is_shown = page.start <= index && index - page.start < count;
    let list = if is_shown {
        put_part(alloc, list, machine, showing, (index, address), part)?
    } else {
        list
    };
    Ok(Parts {
        list,
        showing,
        page,
        index: index.saturating_add(1),
        address: address.wrapping_add(size_of(part)),
    })
}

/// The widest width in which so many zero bytes are numbers.
fn width_in(count: u64) -> Width {
    if count % 8 == 0 {
        Width::L
    } else if count % 4 == 0 {
        Width::W
    } else {
        Width::B
    }
}

/// Adds so many numbers of a width.
fn put_numbers<'c, A: Allocator + Copy + 'c, M: Readers<A, Code<'c, A>>, U: Surrounding>(
    alloc: A,
    parts: Parts<A, U>,
    machine: &M,
    width: Width,
    count: u64,
) -> Result<Parts<A, U>, AllocError> {
    let mut parts = parts;
    for _ in 0..count {
        parts = add_part(alloc, parts, machine, Part::Number(width))?;
    }
    Ok(parts)
}

/// Adds the items of a field.
fn put_items<'c, A: Allocator + Copy + 'c, M: Readers<A, Code<'c, A>>, U: Surrounding>(
    alloc: A,
    parts: Parts<A, U>,
    machine: &M,
    width: Width,
    items: &[Item<'_, A>],
) -> Result<Parts<A, U>, AllocError> {
    let mut parts = parts;
    for item in items {
        let part = match item {
            Item::Text(text) => Part::Text(text.as_slice().len() as u64),
            _ => Part::Number(width),
        };
        parts = add_part(alloc, parts, machine, part)?;
    }
    Ok(parts)
}

/// Adds the parts of a data object: its items, of zeros as numbers.
pub fn put_object_parts<'c, A: Allocator + Copy + 'c, M: Readers<A, Code<'c, A>>, U: Surrounding>(
    alloc: A,
    list: Array<A, U>,
    machine: &M,
    data: &Data<'c, A>,
    showing: Showing,
    page: Page,
) -> Result<Array<A, U>, AllocError> {
    let address = code_of(machine).image().address(data.name.bytes());
    let mut parts = Parts {
        list,
        showing,
        page,
        index: 0,
        address: address.unwrap_or(0),
    };
    for field in data.fields.as_slice() {
        parts = match field {
            Field::Values(width, items) => {
                put_items(alloc, parts, machine, *width, items.as_slice())?
            }
            Field::Zeros(count) => {
                let width = width_in(*count);
                put_numbers(alloc, parts, machine, width, count / width_bytes(width))?
            }
        };
    }
    let Parts { list, .. } = parts;
    Ok(list)
}

/// How many of so many words from an address on are live.
fn live_words<'c, A: Allocator + Copy + 'c, M: Readers<A, Code<'c, A>>>(
    machine: &M,
    address: u64,
    width: u64,
) -> u64 {
    for index in 0..PLAIN_COUNT {
        let last = index
            .wrapping_mul(width)
            .wrapping_add(width.wrapping_sub(1));
        if byte_at(machine, address.wrapping_add(last)).is_none() {
            return index;
        }
    }
    PLAIN_COUNT
}

/// Adds what an address points to: a data object's parts, and of other memory the numbers that are live.
pub fn put_pointed_parts<'c, A: Allocator + Copy + 'c, M: Readers<A, Code<'c, A>>, U: Surrounding>(
    alloc: A,
    list: Array<A, U>,
    machine: &M,
    address: u64,
    showing: Showing,
    page: Page,
) -> Result<Array<A, U>, AllocError> {
    if let Some((data, start)) = data_around(code_of(machine), address) {
        if start == address {
            return put_object_parts(alloc, list, machine, data, showing, page);
        }
    }
    let width = if address % 8 == 0 { Width::L } else { Width::W };
    let parts = Parts {
        list,
        showing,
        page,
        index: 0,
        address,
    };
    let count = live_words(machine, address, width_bytes(width));
    let Parts { list, .. } = put_numbers(alloc, parts, machine, width, count)?;
    Ok(list)
}
