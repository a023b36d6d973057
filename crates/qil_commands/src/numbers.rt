//! The shapes of words: numbers, names, widths and addresses.

ghost use Rattle.std.specs.Prelude.{◌≡◌, ◌≤◌, ◌^◌, ◌∷◌, Some, None, cond, length, min, ℕ};
ghost use Rattle.std.specs.List.{list_all, prefix_len};
ghost use Rattle.std.specs.Char.{is_ascii_digit};
ghost use Rattle.qil_commands.specs.Command.{watch_target_of};
ghost use Rattle.qil_commands.specs.Numbers.{digits_value, is_digits, is_name_byte, is_name, number_of, count_of, byte_count_of, value_of, name_behind, temporary_of, global_of, label_of, width_of, is_no_plus, offset_of, address_of, global_address};

use crate::command::{Address, LineName, WatchTarget};
use qil_tree::Width;

/// One more than the largest number.
const NUMBER_END: u128 = 18_446_744_073_709_551_616;

fn is_name_byte(b: u8) -> bool
    ensures { result ≡ is_name_byte b }
{
    b.is_ascii_alphabetic() || b.is_ascii_digit() || b == b'.' || b == b'_' || b == b'$'
}

fn are_digits(bytes: &[u8]) -> bool
    ensures { result ≡ list_all is_ascii_digit bytes.now }
{
    bytes.iter().all(|b| b.is_ascii_digit())
}

fn are_name_bytes(bytes: &[u8]) -> bool
    ensures { result ≡ list_all is_name_byte bytes.now }
{
    bytes.iter().all(|b| is_name_byte(*b))
}

fn is_digits(word: &[u8]) -> bool
    ensures { result ≡ is_digits word.now }
{
    !word.is_empty() && are_digits(word)
}

fn is_name(bytes: &[u8]) -> bool
    ensures { result ≡ is_name bytes.now }
{
    !bytes.is_empty() && are_name_bytes(bytes)
}

/// The number that digits spell, or the end of all numbers where it is larger: digits may be many.
fn capped_value(digits: &[u8]) -> u128
    ensures { result ≡ min (digits_value digits.now) (2 ^ 64) }
{
    let mut value: u128 = 0;
    for digit in digits {
        value = (value * 10 + digit.saturating_sub(b'0') as u128).min(NUMBER_END);
    }
    value
}

/// A number, 0 to 2^64 - 1, in decimal digits.
pub fn number_of(word: &[u8]) -> Option<u64>
    ensures { result ≡ number_of word.now }
{
    if !is_digits(word) {
        return None;
    }
    let value = capped_value(word);
    if value >= NUMBER_END {
        return None;
    }
    Some(value as u64)
}

/// A count, 1 to 4,294,967,295.
pub fn count_of(word: &[u8]) -> Option<u32>
    ensures { result ≡ count_of word.now }
{
    match number_of(word) {
        None => None,
        Some(value) => {
            if value == 0 || value >= 4_294_967_296 {
                return None;
            }
            Some(value as u32)
        }
    }
}

/// How many bytes are shown, 1 to 256.
pub fn byte_count_of(word: &[u8]) -> Option<u32>
    ensures { result ≡ byte_count_of word.now }
{
    match number_of(word) {
        None => None,
        Some(value) => {
            if value == 0 || value > 256 {
                return None;
            }
            Some(value as u32)
        }
    }
}

/// What is 0 together with a number up to 2^63, modulo 2^64.
fn negative_of(digits: &[u8]) -> Option<u64>
    ensures { (b : ℕ) → b ≡ 45 → result ≡ value_of (b ∷ digits.now) }
{
    match number_of(digits) {
        None => None,
        Some(value) => {
            if value > 1 << 63 {
                return None;
            }
            Some(value.wrapping_neg())
        }
    }
}

/// A value, -2^63 to 2^64 - 1, as 64 bits in two's complement.
pub fn value_of(word: &[u8]) -> Option<u64>
    ensures { result ≡ value_of word.now }
{
    match word {
        [b'-', digits @ ..] => negative_of(digits),
        _ => number_of(word),
    }
}

/// The name that a text is, if it is one.
fn name_of<'a>(text: &'a [u8]) -> Option<LineName<'a>>
    ensures { result ≡ cond (is_name text.now) (Some text.now) None }
{
    if is_name(text) {
        Some(LineName::new(text))
    } else {
        None
    }
}

/// The name that stands after a sigil.
fn name_behind<'a>(sigil: u8, word: &'a [u8]) -> Option<LineName<'a>>
    ensures { result ≡ name_behind sigil word.now }
{
    match word {
        [first, name @ ..] if *first == sigil => name_of(name),
        _ => None,
    }
}

/// The name of a temporary, which stands after a `%`.
pub fn temporary_of<'a>(word: &'a [u8]) -> Option<LineName<'a>>
    ensures { result ≡ temporary_of word.now }
{
    name_behind(b'%', word)
}

/// The name of a global, which stands after a `$`.
pub fn global_of<'a>(word: &'a [u8]) -> Option<LineName<'a>>
    ensures { result ≡ global_of word.now }
{
    name_behind(b'$', word)
}

/// The name of a block, which stands after an `@`.
pub fn label_of<'a>(word: &'a [u8]) -> Option<LineName<'a>>
    ensures { result ≡ label_of word.now }
{
    name_behind(b'@', word)
}

/// The width that a letter represents.
pub fn width_of(word: &[u8]) -> Option<Width>
    ensures { result ≡ width_of word.now }
{
    if word == b"b".as_slice() {
        return Some(Width::B);
    }
    if word == b"h".as_slice() {
        return Some(Width::H);
    }
    if word == b"w".as_slice() {
        return Some(Width::W);
    }
    if word == b"l".as_slice() {
        return Some(Width::L);
    }
    None
}

/// How many bytes stand before a `+`.
fn prefix_len(word: &[u8]) -> usize
    ensures is { result ≡ prefix_len is_no_plus word.now }
    ensures within { result ≤ length word.now }
{
    word.iter().take_while(|b| **b != b'+').count()
}

/// What is added to the address of a global.
fn offset_of(rest: &[u8]) -> Option<u64>
    ensures { result ≡ offset_of rest.now }
{
    match rest {
        [] => Some(0),
        [_, digits @ ..] => number_of(digits),
    }
}

/// A global, with what is added to its address.
fn global_address<'a>(word: &'a [u8]) -> Option<Address<'a>>
    ensures { result ≡ global_address word.now }
{
    let len = prefix_len(word);
    match global_of(&word[..len]) {
        None => None,
        Some(name) => match offset_of(&word[len..]) {
            None => None,
            Some(offset) => Some(Address::Global(name, offset)),
        },
    }
}

/// What a watch looks at: bytes, by the letter of their width, or a temporary of a function.
pub fn watch_target_of<'a>(word: &'a [u8]) -> Option<WatchTarget<'a>>
    ensures { result ≡ watch_target_of word.now }
{
    if let Some(width) = width_of(word) {
        return Some(WatchTarget::Bytes(width));
    }
    match global_of(word) {
        None => None,
        Some(func) => Some(WatchTarget::Temp(func)),
    }
}

/// An address: a number, or a global with what is added.
pub fn address_of<'a>(word: &'a [u8]) -> Option<Address<'a>>
    ensures { result ≡ address_of word.now }
{
    match word {
        [b'$', ..] => global_address(word),
        _ => match number_of(word) {
            None => None,
            Some(value) => Some(Address::Number(value)),
        },
    }
}
