//! What is at the start of a text: a gap, a token, or neither. Each length is in bytes.

ghost use Rattle.std.specs.Prelude.{◌≡◌, ℕ, ◌<◌, ◌≤◌, ◌^◌, ◌↔◌, IsTrue, IfOk, IfErr, IfSome, MatchOption, MatchResult, SomeIff, length, take, Some, None, true, false, ◌∷◌};
ghost use Rattle.std.specs.List.{prefix_len};
ghost use Rattle.std.specs.Char.{is_ascii_digit};
ghost use Rattle.qil_lexer.specs.Shape.{first_kind, decimal_after, is_spacing, is_name_byte, is_word_byte, is_octal, is_in_line, Are, decimal, IsInRange, escape_len, item_len};
ghost use Rattle.qil_lexer.specs.Cut.{IsLongestGap, Fails};
ghost use Rattle.qil_lexer.specs.Prefix.{IsLongestTail, TailFails, IsPrefixToken, IsLine, NoLine, comment_len, IsClosed, StopFails, IsByteOf, BeginsNoGap, IsPrefixHere};

use crate::error::LexCode;
use crate::token::{TokenKind, first_kind};

fn is_spacing(b: u8) -> bool
    ensures { result ≡ is_spacing b }
{
    b == b' ' || b == b'\t' || b == b'\r'
}

fn is_name_byte(b: u8) -> bool
    ensures { result ≡ is_name_byte b }
{
    b.is_ascii_alphabetic() || b.is_ascii_digit() || b == b'.' || b == b'_' || b == b'$'
}

fn is_word_byte(b: u8) -> bool
    ensures { result ≡ is_word_byte b }
{
    b.is_ascii_alphabetic() || b.is_ascii_digit() || b == b'_' || b == b'.'
}

pub fn is_octal(b: u8) -> bool
    ensures { result ≡ is_octal b }
{
    b'0' <= b && b < b'8'
}

fn spacing_len(bytes: &[u8]) -> usize
    ensures is { result ≡ prefix_len is_spacing bytes.now }
    ensures within { result ≤ length bytes.now }
{
    bytes.iter().take_while(|b| is_spacing(**b)).count()
}

fn line_len(bytes: &[u8]) -> usize
    ensures is { result ≡ prefix_len is_in_line bytes.now }
    ensures within { result ≤ length bytes.now }
{
    bytes.iter().take_while(|b| **b != b'\n').count()
}

fn name_len(bytes: &[u8]) -> usize
    ensures is { result ≡ prefix_len is_name_byte bytes.now }
    ensures within { result ≤ length bytes.now }
{
    bytes.iter().take_while(|b| is_name_byte(**b)).count()
}

fn word_len(bytes: &[u8]) -> usize
    ensures is { result ≡ prefix_len is_word_byte bytes.now }
    ensures within { result ≤ length bytes.now }
{
    bytes.iter().take_while(|b| is_word_byte(**b)).count()
}

fn digits_len(bytes: &[u8]) -> usize
    ensures is { result ≡ prefix_len is_ascii_digit bytes.now }
    ensures within { result ≤ length bytes.now }
{
    bytes.iter().take_while(|b| b.is_ascii_digit()).count()
}

/// The length of the comment at the start, 0 where none is.
fn comment_len(bytes: &[u8]) -> usize
    ensures is { result ≡ comment_len bytes.now }
    ensures within { result ≤ length bytes.now }
{
    match bytes {
        [b'#', comment @ ..] => 1 + line_len(comment),
        _ => 0,
    }
}

/// The length of the spacing and the comment at the start.
pub fn gap_len(bytes: &[u8]) -> usize
    ensures { IsLongestGap result bytes.now }
{
    let spaces = spacing_len(bytes);
    spaces + comment_len(&bytes[spaces..])
}

/// The length of a line with nothing but a gap in it, with its newline.
fn blank_line_len(bytes: &[u8]) -> Option<usize>
    ensures { MatchOption result (NoLine bytes.now) (λ n. IsLine n bytes.now) }
{
    let gap = gap_len(bytes);
    if gap < bytes.len() && bytes[gap] == b'\n' {
        Some(gap + 1)
    } else {
        None
    }
}

/// The length of a run of newlines after its first.
fn lines_len(tail: &[u8]) -> usize
    ensures { IsLongestTail TokenKind.Newline 10 result tail.now }
{
    let mut end = 0;
    while let Some(len) = blank_line_len(&tail[end..]) {
        end += len;
    }
    end
}

/// How many bytes after a backslash belong to its escape.
#[tactic(auto, unfolding(crate::specs::Shape::escape_len))]
fn escape_len(bytes: &[u8]) -> Option<usize>
    ensures is { result ≡ escape_len bytes.now }
    ensures within { IfSome result (λ n. (0 < n) × (n ≤ 3) × (n ≤ length bytes.now)) }
{
    match bytes {
        [b'b' | b'f' | b'n' | b'r' | b't' | b'\\' | b'"', ..] => Some(1),
        [a, b, c, ..] if is_octal(*a) && is_octal(*b) && is_octal(*c) => {
            if *a < b'4' { Some(3) } else { None }
        }
        [a, b, ..] if is_octal(*a) && is_octal(*b) => Some(2),
        [a, ..] if is_octal(*a) => Some(1),
        _ => None,
    }
}

/// The length of a string's next item: a byte that represents itself, or an escape.
#[tactic(auto, unfolding(crate::specs::Shape::item_len))]
pub fn item_len(bytes: &[u8]) -> Option<usize>
    ensures is { result ≡ item_len bytes.now }
    ensures within { IfSome result (λ n. (0 < n) × (n ≤ length bytes.now)) }
{
    match bytes {
        [] | [b'\n' | b'"', ..] => None,
        [b'\\', rest @ ..] => {
            let len = escape_len(rest)?;
            Some(len + 1)
        }
        _ => Some(1),
    }
}

/// Whether the closing quote stands where a string has no further item, and otherwise what is wrong there.
#[tactic(auto, unfolding(crate::specs::Shape::item_len))]
fn close(bytes: &[u8]) -> Result<(), LexCode>
    requires { item_len bytes.now ≡ None }
    ensures { MatchResult result (λ _. IsClosed bytes.now) (λ code. StopFails code bytes.now) }
{
    match bytes {
        [b'"', ..] => Ok(()),
        [b'\\', next, ..] if *next != b'\n' => Err(LexCode::L5),
        _ => Err(LexCode::L4),
    }
}

/// The length of a string after its opening quote.
fn inside_len(tail: &[u8]) -> Result<usize, LexCode>
    ensures { MatchResult result (λ n. IsLongestTail TokenKind.Quoted 34 n tail.now) (λ code. TailFails code 34 tail.now) }
{
    let mut end = 0;
    while let Some(len) = item_len(&tail[end..]) {
        end += len;
    }
    close(&tail[end..])?;
    Ok(end + 1)
}

/// The value of decimal digits after a value, if it is below 2^64.
pub fn decimal_after(start: u64, digits: &[u8]) -> Option<u64>
    requires { Are is_ascii_digit digits.now }
    ensures { SomeIff result (decimal_after start digits.now < 2 ^ 64) (decimal_after start digits.now) }
{
    let mut value = start;
    for d in digits {
        value = value.checked_mul(10)?.checked_add(u64::from(*d - b'0'))?;
    }
    Some(value)
}

/// Whether a value may stand after a '-': it is at most 2^63.
fn is_negatable(value: u64) -> bool
    ensures { IsTrue result ↔ value ≤ 2 ^ 63 }
{
    value <= 1 << 63
}

/// Whether a number is from -2^63 to 2^64 - 1.
fn is_in_range(first: u8, digits: &[u8]) -> bool
    requires first { IsByteOf TokenKind.Number first }
    requires digits { Are is_ascii_digit digits.now }
    ensures { IsTrue result ↔ IsInRange (first ∷ digits.now) }
{
    if first == b'-' {
        decimal_after(0, digits).is_some_and(is_negatable)
    } else {
        decimal_after(u64::from(first - b'0'), digits).is_some()
    }
}

/// The length of the longest rest of a token after its first byte.
fn tail_len(kind: TokenKind, first: u8, tail: &[u8]) -> Result<usize, LexCode>
    requires known { first_kind first ≡ Some kind }
    requires byte { IsByteOf kind first }
    ensures { MatchResult result (λ n. IsLongestTail kind first n tail.now) (λ code. TailFails code first tail.now) }
{
    match kind {
        TokenKind::Global | TokenKind::Temp | TokenKind::Label | TokenKind::Aggregate =>
            match name_len(tail) {
                0 => Err(LexCode::L2),
                len => Ok(len),
            },
        TokenKind::Word => Ok(word_len(tail)),
        TokenKind::Number => match digits_len(tail) {
            0 if first == b'-' => Err(LexCode::L1),
            len => Ok(len),
        },
        TokenKind::Quoted => inside_len(tail),
        TokenKind::Dots => match tail {
            [b'.', b'.', ..] => Ok(2),
            _ => Err(LexCode::L1),
        },
        TokenKind::Newline => Ok(lines_len(tail)),
        TokenKind::Comma
        | TokenKind::Equals
        | TokenKind::OpenBrace
        | TokenKind::CloseBrace
        | TokenKind::OpenParen
        | TokenKind::CloseParen
        | TokenKind::Plus => Ok(0),
    }
}

/// The longest token that begins with a byte, by its kind and its length.
fn token_from(first: u8, tail: &[u8]) -> Result<(TokenKind, usize), LexCode>
    requires { BeginsNoGap (first ∷ tail.now) }
    ensures { MatchResult result (λ found. IsPrefixToken found.0 found.1 (first ∷ tail.now)) (λ code. Fails code (first ∷ tail.now)) }
{
    let Some(kind) = first_kind(first) else {
        return Err(LexCode::L1);
    };
    let len = tail_len(kind, first, tail)?;
    if kind == TokenKind::Number && !is_in_range(first, &tail[..len]) {
        return Err(LexCode::L3);
    }
    Ok((kind, len + 1))
}

/// The longest token at the start of a text that doesn't begin with a gap, or None at the end.
pub fn prefix_token(bytes: &[u8]) -> Result<Option<(TokenKind, usize)>, LexCode>
    requires { BeginsNoGap bytes.now }
    ensures { MatchResult result (λ found. IsPrefixHere found bytes.now) (λ code. Fails code bytes.now) }
{
    match bytes {
        [] => Ok(None),
        [first, tail @ ..] => {
            let found = token_from(*first, tail)?;
            Ok(Some(found))
        }
    }
}
