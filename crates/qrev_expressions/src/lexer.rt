//! The words and symbols of an expression.

ghost use Rattle.std.specs.Prelude.{◌≤◌, length};

use crate::operation::{Binary, Unary};
use crate::value::Memory;

/// A word or a symbol. Whether `-` and `+` are signs depends on what stands before them.
#[derive(Clone, Copy)]
pub enum Token<'x> {
    Number(u64),
    Float(f64),
    Temp(&'x [u8]),
    Global(&'x [u8]),
    Depth,
    Position,
    /// The letter of a width, and the bracket behind it.
    Load(Memory),
    /// `u(` or `s(`.
    Cast(Unary),
    Open,
    Close,
    CloseBracket,
    Complement,
    Not,
    Binary(Binary),
}

/// Whether a byte may stand in a name.
fn is_of_name(byte: u8) -> bool {
    byte.is_ascii_alphanumeric() || byte == b'.' || byte == b'_' || byte == b'$'
}

/// How many bytes at the beginning of a text may stand in a name.
fn name_length(text: &[u8]) -> usize
    ensures { result ≤ length text.now }
{
    text.iter().take_while(|byte| is_of_name(**byte)).count()
}

/// The width that a letter names.
fn memory_of(word: &[u8]) -> Option<Memory> {
    match word {
        b"b" => Some(Memory::Byte),
        b"h" => Some(Memory::Half),
        b"w" => Some(Memory::Word),
        b"l" => Some(Memory::Long),
        b"s" => Some(Memory::Single),
        b"d" => Some(Memory::Double),
        _ => None,
    }
}

/// The symbol of two characters.
fn long_symbol(first: u8, second: u8) -> Option<Binary> {
    match (first, second) {
        (b'<', b'<') => Some(Binary::ShiftLeft),
        (b'>', b'>') => Some(Binary::ShiftRight),
        (b'<', b'=') => Some(Binary::LessEqual),
        (b'>', b'=') => Some(Binary::GreaterEqual),
        (b'=', b'=') => Some(Binary::Equal),
        (b'!', b'=') => Some(Binary::NotEqual),
        (b'&', b'&') => Some(Binary::And),
        (b'|', b'|') => Some(Binary::Or),
        _ => None,
    }
}

/// The symbol of one character.
fn short_symbol<'x>(byte: u8) -> Option<Token<'x>> {
    match byte {
        b'+' => Some(Token::Binary(Binary::Add)),
        b'-' => Some(Token::Binary(Binary::Subtract)),
        b'*' => Some(Token::Binary(Binary::Multiply)),
        b'/' => Some(Token::Binary(Binary::Divide)),
        b'%' => Some(Token::Binary(Binary::Remainder)),
        b'&' => Some(Token::Binary(Binary::BitAnd)),
        b'|' => Some(Token::Binary(Binary::BitOr)),
        b'^' => Some(Token::Binary(Binary::BitXor)),
        b'<' => Some(Token::Binary(Binary::Less)),
        b'>' => Some(Token::Binary(Binary::Greater)),
        b'~' => Some(Token::Complement),
        b'!' => Some(Token::Not),
        b'(' => Some(Token::Open),
        b')' => Some(Token::Close),
        b']' => Some(Token::CloseBracket),
        _ => None,
    }
}

/// The value of a digit below 16.
fn digit_of(byte: u8) -> Option<u64> {
    match byte {
        b'0'..=b'9' => Some(u64::from(byte - b'0')),
        b'a'..=b'f' => Some(u64::from(byte - b'a') + 10),
        b'A'..=b'F' => Some(u64::from(byte - b'A') + 10),
        _ => None,
    }
}

/// The number that digits of a base say.
fn number_in(digits: &[u8], base: u64) -> Option<u64> {
    if digits.is_empty() {
        return None;
    }
    let mut number: u64 = 0;
    for byte in digits {
        let digit = digit_of(*byte)?;
        if digit >= base {
            return None;
        }
        number = number.checked_mul(base)?.checked_add(digit)?;
    }
    Some(number)
}

/// The number that a word is.
fn whole_of(word: &[u8]) -> Option<u64> {
    if let Some(digits) = word.strip_prefix(b"0x").or(word.strip_prefix(b"0X")) {
        return number_in(digits, 16);
    }
    if let Some(digits) = word.strip_prefix(b"0b") {
        return number_in(digits, 2);
    }
    if let Some(digits) = word.strip_prefix(b"0o") {
        return number_in(digits, 8);
    }
    number_in(word, 10)
}

/// The float that a word is: with a point or a power of ten, or one that is no number.
fn float_of(word: &[u8]) -> Option<f64> {
    let starts = word.first()?.is_ascii_digit();
    if starts || word == b"inf".as_slice() || word == b"nan".as_slice() {
        return fast_float::parse(word).ok();
    }
    None
}

/// How many bytes a number has at the beginning of a text: the sign of a power of ten is a part of it.
fn number_length(text: &[u8]) -> usize
    ensures { result ≤ length text.now }
{
    let length = name_length(text);
    let (word, rest) = text.split_at(length);
    let is_hex = word.starts_with(b"0x") || word.starts_with(b"0X");
    let ends = matches!(word.last(), Some(b'e' | b'E')) && !is_hex;
    match rest.split_first() {
        Some((b'+' | b'-', digits)) if ends && digits.first().is_some_and(u8::is_ascii_digit) => {
            length + 1 + name_length(digits)
        }
        _ => length,
    }
}

/// The token that a word is, and what stands behind it.
fn word_token<'x>(text: &'x [u8]) -> Option<(Token<'x>, &'x [u8])> {
    let (word, rest) = text.split_at(number_length(text));
    if let Some(after) = rest.strip_prefix(b"[") {
        return Some((Token::Load(memory_of(word)?), after));
    }
    if let Some(after) = rest.strip_prefix(b"(") {
        return match word {
            b"u" => Some((Token::Cast(Unary::Unsigned), after)),
            b"s" => Some((Token::Cast(Unary::Signed), after)),
            _ => None,
        };
    }
    let token = match word {
        b"depth" => Token::Depth,
        b"position" => Token::Position,
        _ => match whole_of(word) {
            Some(number) => Token::Number(number),
            None => Token::Float(float_of(word)?),
        },
    };
    Some((token, rest))
}

/// The name behind a sigil at the beginning of a text, and what stands behind it.
fn name_after<'x>(text: &'x [u8], sigil: u8) -> Option<(&'x [u8], &'x [u8])> {
    let (first, rest) = text.split_first()?;
    let begins = rest
        .first()
        .is_some_and(|byte| is_of_name(*byte) && !byte.is_ascii_digit());
    if *first != sigil || !begins {
        return None;
    }
    Some(rest.split_at(name_length(rest)))
}

/// The character between single quotes at the beginning of a text, and what stands behind it.
fn character<'x>(text: &'x [u8]) -> Option<(Token<'x>, &'x [u8])> {
    match text {
        [b'\'', byte, b'\'', rest @ ..] => Some((Token::Number(u64::from(*byte)), rest)),
        _ => None,
    }
}

/// The symbol at the beginning of a text, the longest that there is, and what stands behind it.
fn symbol<'x>(text: &'x [u8]) -> Option<(Token<'x>, &'x [u8])> {
    let (first, rest) = text.split_first()?;
    if let Some((second, after)) = rest.split_first() {
        if let Some(binary) = long_symbol(*first, *second) {
            return Some((Token::Binary(binary), after));
        }
    }
    Some((short_symbol(*first)?, rest))
}

/// The first token of a text that begins with no space, and what stands behind it.
fn token_of<'x>(text: &'x [u8]) -> Option<(Token<'x>, &'x [u8])> {
    if let Some((name, rest)) = name_after(text, b'%') {
        return Some((Token::Temp(name), rest));
    }
    if let Some((name, rest)) = name_after(text, b'$') {
        return Some((Token::Global(name), rest));
    }
    if let Some(found) = character(text) {
        return Some(found);
    }
    if is_of_name(*text.first()?) {
        return word_token(text);
    }
    symbol(text)
}

/// What is read next of a text.
#[derive(Clone, Copy)]
pub enum Read<'x> {
    /// A token, and what stands behind it.
    Token(Token<'x>, &'x [u8]),
    End,
    /// What is no token.
    Stray,
}

/// The next token of a text.
pub fn next_token<'x>(text: &'x [u8]) -> Read<'x> {
    let text = text.trim_ascii_start();
    if text.is_empty() {
        return Read::End;
    }
    match token_of(text) {
        Some((token, rest)) => Read::Token(token, rest),
        None => Read::Stray,
    }
}
