//! What a value also is: an address by the name of what lies there, or a number with a sign.

ghost use Rattle.std.specs.Prelude.{◌≡◌, ◌++◌, ℕ, List, IfOk, string_bytes};
ghost use Rattle.qrev_views.specs.Values.{IsRemark, IsTold};

use crate::texts::joined;
use crate::values::{Style, value_text};
use qil_code::Code;
use qil_fragments::Fragment;
use qil_layout::Callee;
use qil_tree::{Class, Data};
use std::alloc::{AllocError, Allocator};

/// The address of the first data object.
const FIRST_DATA: u64 = 65_536;

/// How far below zero a number is shown with its sign.
const NEAR_ZERO: u64 = 65_536;

/// The data object in which an address lies, or after which it does, and its own address.
pub fn data_around<'m, 'c, A: Allocator + Copy>(
    code: &'m Code<'c, A>,
    address: u64,
) -> Option<(&'m Data<'c, A>, u64)> {
    let image = code.image();
    let end = FIRST_DATA.saturating_add(image.bytes().len() as u64);
    if address < FIRST_DATA || end <= address {
        return None;
    }
    let mut found = None;
    for data in code.program().datas.as_slice() {
        match image.address(data.name.bytes()) {
            Some(start) if start <= address => found = Some((data, start)),
            _ => {}
        }
    }
    found
}

/// A name in angle brackets, and how far behind it an address is.
fn place_remark<A: Allocator + Copy>(
    alloc: A,
    name: &[u8],
    offset: u64,
) -> Result<String<A>, AllocError> {
    if offset == 0 {
        return joined(
            alloc,
            &[
                Fragment::Bytes(b"<$"),
                Fragment::Bytes(name),
                Fragment::Bytes(b">"),
            ],
        );
    }
    joined(
        alloc,
        &[
            Fragment::Bytes(b"<$"),
            Fragment::Bytes(name),
            Fragment::Bytes(b"+"),
            Fragment::Number(offset),
            Fragment::Bytes(b">"),
        ],
    )
}

/// The function that lies at an address.
fn function_remark<A: Allocator + Copy>(
    alloc: A,
    code: &Code<'_, A>,
    address: u64,
) -> Result<Option<String<A>>, AllocError> {
    let image = code.image();
    let Some(Callee::Defined(func)) = image.function_at(address) else {
        return Ok(None);
    };
    match image.name_of(func) {
        Some(name) => Ok(Some(place_remark(alloc, name.bytes(), 0)?)),
        None => Ok(None),
    }
}

/// What lies at an address in the text of the program.
fn address_remark<A: Allocator + Copy>(
    alloc: A,
    code: &Code<'_, A>,
    address: u64,
) -> Result<Option<String<A>>, AllocError> {
    match data_around(code, address) {
        Some((data, start)) => {
            let offset = address.saturating_sub(start);
            Ok(Some(place_remark(alloc, data.name.bytes(), offset)?))
        }
        None => function_remark(alloc, code, address),
    }
}

/// A number that is a little below zero, if it has a sign.
fn sign_remark<A: Allocator + Copy>(alloc: A, below: u64) -> Result<Option<String<A>>, AllocError> {
    if below == 0 || NEAR_ZERO < below {
        return Ok(None);
    }
    Ok(Some(joined(
        alloc,
        &[
            Fragment::Bytes(b"(-"),
            Fragment::Number(below),
            Fragment::Bytes(b")"),
        ],
    )?))
}

/// What a value of a class also is.
pub fn remark_of<A: Allocator + Copy>(
    alloc: A,
    code: &Code<'_, A>,
    class: Option<Class>,
    value: u64,
) -> Result<Option<String<A>>, AllocError> {
    if matches!(class, Some(Class::W)) {
        return sign_remark(alloc, (1_u64 << 32).wrapping_sub(value));
    }
    match address_remark(alloc, code, value)? {
        Some(remark) => Ok(Some(remark)),
        None => sign_remark(alloc, value.wrapping_neg()),
    }
}

/// A text with a remark behind it, if there is one.
fn with_remark<A: Allocator>(
    text: String<A>,
    remark: Option<String<A>>,
) -> Result<String<A>, AllocError>
    ensures { IfOk result (λ whole. (more : List ℕ) × IsRemark more × (string_bytes whole ≡ string_bytes text ++ more)) }
{
    let mut whole = text;
    let Some(remark) = remark else {
        return Ok(whole);
    };
    whole.push_str(" ")?;
    whole.push_str(remark.as_str())?;
    Ok(whole)
}

/// What a value also is, if it is there and isn't written as a float.
fn remark_for<A: Allocator + Copy>(
    alloc: A,
    code: &Code<'_, A>,
    style: Style,
    class: Option<Class>,
    value: Option<u64>,
) -> Result<Option<String<A>>, AllocError> {
    match (style, value) {
        (Style::Decimal | Style::Hex, Some(value)) => remark_of(alloc, code, class, value),
        _ => Ok(None),
    }
}

/// A value of a class, or that it is unset, and what it also is.
pub fn told_value<A: Allocator + Copy>(
    alloc: A,
    code: &Code<'_, A>,
    style: Style,
    class: Option<Class>,
    value: Option<u64>,
) -> Result<String<A>, AllocError>
    ensures { IfOk result (λ text. IsTold style value (string_bytes text)) }
{
    let written = value_text(alloc, style, value)?;
    let remark = remark_for(alloc, code, style, class, value)?;
    let text = with_remark(written, remark)?;
    Ok(text)
}
