//! Bytes as texts of the protocol, which are UTF-8.

ghost use Rattle.std.specs.Prelude.{◌≡◌, ◌++◌, IfOk, decimal, encode_utf8_all, flat_map, string_bytes};
ghost use Rattle.qil_state.specs.State.{state_of};
ghost use Rattle.qil_fragments.specs.Texts.{fragment_text};
ghost use Rattle.qil_render.specs.Texts.{state_line};
ghost use Rattle.qrev_views.specs.Texts.{shown_text, without_end};

use qil_code::Code;
use qil_fragments::{Fragment, put_fragments};
use qil_render::{Readers, put_place};
use qil_streams::{Buffer, PutError};
use std::alloc::{AllocError, Allocator};

/// Each byte as the character of its number.
fn by_characters<A: Allocator>(alloc: A, bytes: &[u8]) -> Result<String<A>, AllocError>
    ensures { IfOk result (λ text. string_bytes text ≡ encode_utf8_all bytes.now) }
{
    let mut text = String::new(alloc);
    for byte in bytes {
        text.push(char::from(*byte))?;
    }
    Ok(text)
}

/// Bytes as a text: as they are if they are UTF-8, else each as the character of its number.
pub fn as_text<A: Allocator>(alloc: A, bytes: &[u8]) -> Result<String<A>, AllocError>
    ensures { IfOk result (λ text. string_bytes text ≡ shown_text bytes.now) }
{
    match std::str::from_utf8(bytes) {
        Ok(text) => String::from_str(alloc, text),
        Err(_) => by_characters(alloc, bytes),
    }
}

/// Fragments one after the other, as a text.
pub fn joined<A: Allocator + Copy>(
    alloc: A,
    fragments: &[Fragment<'_>],
) -> Result<String<A>, AllocError>
    ensures { IfOk result (λ text. string_bytes text ≡ shown_text (flat_map fragment_text fragments.now)) }
{
    let mut text = Buffer::new(alloc);
    match put_fragments(&mut text, fragments) {
        Ok(()) => as_text(alloc, text.bytes()),
        Err(PutError) => Err(AllocError),
    }
}

/// A number in decimal digits.
pub fn number_text<A: Allocator + Copy>(alloc: A, number: u64) -> Result<String<A>, AllocError>
    ensures { IfOk result (λ text. string_bytes text ≡ decimal number) }
{
    joined(alloc, &[Fragment::Number(number)])
}

/// The line of the place after so many moves that led to a machine, without its end.
pub fn place_text<'c, A: Allocator + Copy + 'c, M: Readers<A, Code<'c, A>>>(
    alloc: A,
    position: u64,
    machine: &M,
) -> Result<String<A>, AllocError>
    ensures { IfOk result (λ text. string_bytes text
        ≡ shown_text (without_end (state_line position (state_of (M.whole machine.now)).frames (state_of (M.whole machine.now)).status))) }
{
    let mut line = Buffer::new(alloc);
    match put_place(&mut line, position, machine) {
        Ok(()) => as_text(alloc, without_end(line.bytes())),
        Err(PutError) => Err(AllocError),
    }
}

/// A name after its sigil.
pub fn sigiled<A: Allocator + Copy>(
    alloc: A,
    sigil: &[u8],
    name: &[u8],
) -> Result<String<A>, AllocError>
    ensures { IfOk result (λ text. string_bytes text ≡ shown_text (sigil.now ++ name.now)) }
{
    joined(alloc, &[Fragment::Bytes(sigil), Fragment::Bytes(name)])
}

/// A line without its last byte, the newline.
fn without_end(line: &[u8]) -> &[u8]
    ensures { result.now ≡ without_end line.now }
{
    &line[..line.len().saturating_sub(1)]
}
