//! How values are stored as bytes and loaded from them, by what these are made of.

ghost use Rattle.std.specs.Prelude.{◌≡◌, ◌+◌, ◌<◌, ◌≤◌, ◌∷◌, length};
ghost use Rattle.qil_shadow.specs.Bytes.{part_byte, byte_of, load_bytes, is_number_byte, is_part, is_cut_part, are_numbers, are_parts, are_cut_parts, jumbled, part_of, joined};

use crate::origin::{ByteOrigin, ObjectId, Origin};
use qil_tree::{Class, LoadOp};

/// The byte at a place of an address.
#[inline(always)]
fn part_byte(object: ObjectId, place: u64) -> ByteOrigin
    ensures { result ≡ part_byte object place }
{
    if place < 256 {
        ByteOrigin::Part(object, place as u8)
    } else {
        ByteOrigin::Cut
    }
}

/// The byte at a place of a value that is stored in so many bytes.
pub fn byte_of(count: u64, origin: Origin, place: u64) -> ByteOrigin
    requires { place < 256 }
    ensures { result ≡ byte_of count origin place }
{
    match origin {
        Origin::Number => ByteOrigin::Number,
        Origin::Address(object) => part_byte(object, place),
        Origin::Part(object, first) => {
            if count == 8 {
                ByteOrigin::CutPart(place as u8)
            } else {
                part_byte(object, u64::from(first) + place)
            }
        }
        Origin::Cut => {
            if count == 8 {
                ByteOrigin::CutPart(place as u8)
            } else {
                ByteOrigin::Cut
            }
        }
        Origin::Mixed => ByteOrigin::Mixed,
    }
}

/// How many bytes a load reads.
#[inline(always)]
pub fn load_bytes(op: LoadOp) -> u64
    ensures value { result ≡ load_bytes op }
    ensures few { result ≤ 8 }
    ensures some { 1 ≤ result }
{
    match op {
        LoadOp::L => 8,
        LoadOp::Sw | LoadOp::Uw => 4,
        LoadOp::Sh | LoadOp::Uh => 2,
        LoadOp::Sb | LoadOp::Ub => 1,
    }
}

/// Whether a byte is a number.
#[inline(always)]
fn is_number_byte(byte: ByteOrigin) -> bool
    ensures { result ≡ is_number_byte byte }
{
    match byte {
        ByteOrigin::Number => true,
        ByteOrigin::Part(_, _) | ByteOrigin::CutPart(_) | ByteOrigin::Cut | ByteOrigin::Mixed => {
            false
        }
    }
}

/// Whether all bytes are numbers.
fn are_numbers(bytes: &[ByteOrigin]) -> bool
    ensures { result ≡ are_numbers bytes.now }
{
    for byte in bytes {
        if !is_number_byte(*byte) {
            return false;
        }
    }
    true
}

/// Whether a byte is that of a place of an address of an object.
#[inline(always)]
fn is_part(object: ObjectId, place: u64, byte: ByteOrigin) -> bool
    ensures { result ≡ is_part object place byte }
{
    match byte {
        ByteOrigin::Part(other, at) => object.is(other) && place == u64::from(at),
        ByteOrigin::Number | ByteOrigin::CutPart(_) | ByteOrigin::Cut | ByteOrigin::Mixed => false,
    }
}

/// Whether bytes follow one another in an address of an object, from a place on.
fn are_parts(object: ObjectId, first: u64, bytes: &[ByteOrigin]) -> bool
    requires { first + length bytes.now < 65536 }
    ensures { result ≡ are_parts object first bytes.now }
{
    let mut place = first;
    for byte in bytes {
        if !is_part(object, place, *byte) {
            return false;
        }
        place += 1;
    }
    true
}

/// Whether a byte is that of a place of an address that was cut.
#[inline(always)]
fn is_cut_part(place: u64, byte: ByteOrigin) -> bool
    ensures { result ≡ is_cut_part place byte }
{
    match byte {
        ByteOrigin::CutPart(at) => place == u64::from(at),
        ByteOrigin::Number | ByteOrigin::Part(_, _) | ByteOrigin::Cut | ByteOrigin::Mixed => false,
    }
}

/// Whether bytes follow one another in an address that was cut, from a place on.
fn are_cut_parts(first: u64, bytes: &[ByteOrigin]) -> bool
    requires { first + length bytes.now < 65536 }
    ensures { result ≡ are_cut_parts first bytes.now }
{
    let mut place = first;
    for byte in bytes {
        if !is_cut_part(place, *byte) {
            return false;
        }
        place += 1;
    }
    true
}

/// What bytes make that belong to no one value.
#[inline(always)]
fn jumbled(class: Class) -> Origin
    ensures { result ≡ jumbled class }
{
    match class {
        Class::W => Origin::Cut,
        Class::L => Origin::Mixed,
    }
}

/// So many bytes of an address of an object, from a place on.
#[inline(always)]
fn part_of(object: ObjectId, first: u8, count: u64) -> Origin
    ensures { result ≡ part_of object first count }
{
    if first == 0 && count == 8 {
        Origin::Address(object)
    } else {
        Origin::Part(object, first)
    }
}

/// What a value of a class is made of that is loaded from such bytes.
pub fn joined(class: Class, bytes: &[ByteOrigin]) -> Origin
    requires { length bytes.now ≤ 8 }
    ensures { result ≡ joined class bytes.now }
{
    match bytes {
        [] => Origin::Number,
        [first, rest @ ..] => joined_from(class, *first, rest),
    }
}

/// The same, with the first byte apart.
fn joined_from(class: Class, first: ByteOrigin, rest: &[ByteOrigin]) -> Origin
    requires { length rest.now ≤ 7 }
    ensures { result ≡ joined class (first ∷ rest.now) }
{
    match first {
        ByteOrigin::Number => {
            if are_numbers(rest) {
                Origin::Number
            } else {
                jumbled(class)
            }
        }
        ByteOrigin::Part(object, place) => {
            if are_parts(object, u64::from(place) + 1, rest) {
                part_of(object, place, rest.len() as u64 + 1)
            } else {
                jumbled(class)
            }
        }
        ByteOrigin::CutPart(place) => {
            if place == 0 && rest.len() == 7 && are_cut_parts(1, rest) {
                Origin::Cut
            } else {
                jumbled(class)
            }
        }
        ByteOrigin::Cut | ByteOrigin::Mixed => jumbled(class),
    }
}
