//! What one line of a map says.

ghost use Rattle.std.specs.Prelude.{◌≡◌, ◌==◌, ℕ, ◌+◌, ◌≤◌, ◌↔◌, List, [], ◌∷◌, length, IsTrue, IfOk, IfSome, IfNone, OnErr, SomeIff, slice_index};
ghost use Rattle.std.specs.Char.{is_ascii_digit};
ghost use Rattle.std.specs.List.{list_all};
ghost use Rattle.std.specs.Str.{IsUtf8};
ghost use Rattle.std.specs.Str.Parse.{IsNumeral, digits_value};
ghost use Rattle.qrev_map.specs.Maps.{Origin, IsPath, IsLineNumber, IsPlace, IsOrigin, Tells, IsMalformed, fields_of};
ghost use Rattle.qrev_map.specs.Spans.{told_origin, told_in, HasPlace, AreThree, HasSource, IsCut};

use fast_float::parse_u64;
use memchr::memchr;

/// A line that is neither empty nor of the form of a line of a map.
#[derive(Clone, Copy)]
pub struct Malformed;

/// Where a line of the text came from: where in the line of the map the path stands, of how many bytes, and the number of the line.
#[derive(Clone, Copy)]
pub struct Told {
    pub path_start: usize,
    pub path_length: usize,
    pub line: u32,
}

/// Whether a plus stands first, which readers of numbers take.
fn has_plus(digits: &[u8]) -> bool
    ensures { result ≡ (slice_index digits.now 0 == 43) }
{
    !digits.is_empty() && digits[0] == b'+'
}

/// The number of a line that digits say, from 1 to 2^32 - 1.
fn number_in(digits: &[u8]) -> Option<u32>
    ensures { SomeIff result (IsLineNumber digits.now) (digits_value 10 digits.now) }
{
    if has_plus(digits) {
        return None;
    }
    let Ok(number) = parse_u64(digits) else {
        return None;
    };
    if number == 0 || number > u64::from(u32::MAX) {
        return None;
    }
    Some(number as u32)
}

/// Whether all bytes are decimal digits.
fn are_digits(bytes: &[u8]) -> bool
    ensures { result ≡ list_all is_ascii_digit bytes.now }
{
    bytes.iter().all(|byte| byte.is_ascii_digit())
}

/// Whether bytes are decimal digits, one at least.
fn is_numeral(bytes: &[u8]) -> bool
    ensures { IsTrue result ↔ IsNumeral 10 bytes.now }
{
    !bytes.is_empty() && are_digits(bytes)
}

/// Whether bytes are the path of a source: a text that says something.
fn is_path(bytes: &[u8]) -> bool
    ensures { IsTrue result ↔ IsPath bytes.now }
{
    !bytes.is_empty() && std::str::from_utf8(bytes).is_ok()
}

/// The bytes before the first tabulator, and those behind it.
fn cut(bytes: &[u8]) -> Option<(&[u8], &[u8])>
    ensures cut { IfSome result (λ parts. IsCut bytes.now parts.0.now parts.1.now) }
    ensures whole { IfNone result (fields_of bytes.now ≡ bytes.now ∷ []) }
{
    match memchr(b'\t', bytes) {
        Some(at) => Some((&bytes[..at], &bytes[at + 1..])),
        None => None,
    }
}

/// What a path and the digits behind it say.
fn place_in(path: &[u8], digits: &[u8]) -> Result<Told, Malformed>
    ensures told { IfOk result (HasPlace path.now digits.now) }
    ensures malformed { OnErr result ((origin : Origin) → IsPlace path.now digits.now origin → ⊥) }
{
    if !is_path(path) {
        return Err(Malformed);
    }
    match number_in(digits) {
        Some(line) => Ok(Told {
            path_start: 0,
            path_length: path.len(),
            line,
        }),
        None => Err(Malformed),
    }
}

/// Whether these can be the last three fields of a line.
fn are_readable(path: &[u8], digits: &[u8], column: &[u8]) -> bool
    ensures { IsTrue result ↔ (IsUtf8 path.now × IsNumeral 10 digits.now × IsNumeral 10 column.now) }
{
    std::str::from_utf8(path).is_ok() && is_numeral(digits) && is_numeral(column)
}

/// What the last three fields of a line say: the path and the line of the source of a source, and a column. They say nothing if
/// there is no path, or no number of a line.
fn source_in(bytes: &[u8]) -> Result<Option<Told>, Malformed>
    ensures told { IfOk result (HasSource bytes.now) }
    ensures malformed { OnErr result ((source number column : List ℕ) → AreThree bytes.now source number column → ⊥) }
{
    let Some((path, after)) = cut(bytes) else {
        return Err(Malformed);
    };
    let Some((digits, column)) = cut(after) else {
        return Err(Malformed);
    };
    if !are_readable(path, digits, column) {
        return Err(Malformed);
    }
    Ok(place_in(path, digits).ok())
}

/// What a line that isn't empty says.
fn origin_in(line: &[u8]) -> Result<Told, Malformed>
    ensures told { IfOk result (λ told. IsOrigin (fields_of line.now) (told_origin line.now told)) }
    ensures malformed { OnErr result ((origin : Origin) → IsOrigin (fields_of line.now) origin → ⊥) }
    ensures within { IfOk result (λ told. told.path_start + told.path_length ≤ length line.now) }
{
    let Some((path, after)) = cut(line) else {
        return Err(Malformed);
    };
    let Some((digits, source)) = cut(after) else {
        return place_in(path, after);
    };
    let outer = place_in(path, digits)?;
    match source_in(source)? {
        Some(told) => Ok(Told {
            path_start: line.len() - source.len(),
            path_length: told.path_length,
            line: told.line,
        }),
        None => Ok(outer),
    }
}

/// What a line says, which is nothing if it is empty.
pub fn told_in(line: &[u8]) -> Result<Option<Told>, Malformed>
    ensures told { IfOk result (λ told. Tells line.now (told_in line.now told)) }
    ensures malformed { OnErr result (IsMalformed line.now) }
    ensures within { IfOk result (λ found. IfSome found (λ told. told.path_start + told.path_length ≤ length line.now)) }
{
    if line.is_empty() {
        return Ok(None);
    }
    let told = origin_in(line)?;
    Ok(Some(told))
}
