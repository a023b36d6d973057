//! When a breakpoint stops the run: by a condition, and by how often the run came to it; and what a logpoint writes instead.

ghost use Rattle.std.specs.Prelude.{◌≡◌, ◌≢◌, ◌%◌, ◌↔◌, IsTrue};
ghost use Rattle.qrev_debuggee.specs.Hits.{Allows};

use std::alloc::{AllocError, Allocator};

/// How a count of hits is compared.
#[derive(Clone, Copy, PartialEq, Eq)]
pub enum Comparison {
    AtLeast,
    More,
    Equal,
    AtMost,
    Fewer,
    MultipleOf,
}

/// How often the run has to have come to a breakpoint.
#[derive(Clone, Copy)]
pub struct HitRule {
    pub comparison: Comparison,
    pub count: u64,
}

/// Whether a number is a multiple of another one: none is of 0.
fn is_multiple(number: u64, base: u64) -> bool
    ensures { IsTrue result ↔ (base ≢ 0) × (number % base ≡ 0) }
{
    if base == 0 {
        return false;
    }
    number % base == 0
}

impl HitRule {
    /// Whether so many times are enough.
    pub fn allows(self, hits: u64) -> bool
        ensures { IsTrue result ↔ Allows self.comparison self.count hits }
    {
        match self.comparison {
            Comparison::AtLeast => hits >= self.count,
            Comparison::More => hits > self.count,
            Comparison::Equal => hits == self.count,
            Comparison::AtMost => hits <= self.count,
            Comparison::Fewer => hits < self.count,
            Comparison::MultipleOf => is_multiple(hits, self.count),
        }
    }
}

/// The comparison that a text begins with, and what stands behind it.
fn comparison_in(text: &[u8]) -> (Comparison, &[u8]) {
    if let Some(rest) = text.strip_prefix(b">=") {
        return (Comparison::AtLeast, rest);
    }
    if let Some(rest) = text.strip_prefix(b"<=") {
        return (Comparison::AtMost, rest);
    }
    if let Some(rest) = text.strip_prefix(b"==") {
        return (Comparison::Equal, rest);
    }
    match text.split_first() {
        Some((b'>', rest)) => (Comparison::More, rest),
        Some((b'<', rest)) => (Comparison::Fewer, rest),
        Some((b'=', rest)) => (Comparison::Equal, rest),
        Some((b'%', rest)) => (Comparison::MultipleOf, rest),
        _ => (Comparison::AtLeast, text),
    }
}

/// The number that decimal digits say.
fn count_in(digits: &[u8]) -> Option<u64> {
    if digits.is_empty() {
        return None;
    }
    let mut count: u64 = 0;
    for byte in digits {
        if !byte.is_ascii_digit() {
            return None;
        }
        count = count.checked_mul(10)?.checked_add(u64::from(*byte - b'0'))?;
    }
    Some(count)
}

/// What a text says of hits: a number, before which a comparison may stand. A number alone is at least so many.
pub fn hit_rule(text: &[u8]) -> Option<HitRule> {
    let (comparison, rest) = comparison_in(text.trim_ascii());
    let count = count_in(rest.trim_ascii())?;
    Some(HitRule { comparison, count })
}

/// What a breakpoint asks for besides its place.
#[derive(Drop)]
pub struct StopRule<A: Allocator> {
    /// The number by which the editor knows the breakpoint.
    pub id: u64,
    /// An expression that has to hold.
    pub condition: Option<String<A>>,
    pub hits: Option<HitRule>,
    /// What a logpoint writes where it is met.
    pub message: Option<String<A>>,
    /// The positions at which the run came to it and the condition held, in rising order.
    pub met: Vec<u64, A>,
}

impl<A: Allocator> StopRule<A> {
    /// Whether it asks for nothing.
    pub fn is_plain(&self) -> bool {
        self.condition.is_none() && self.hits.is_none() && self.message.is_none()
    }

    /// Notes that the run came to it after so many moves, and gives how often it did so up to there.
    pub fn meet(&mut self, position: u64) -> Result<u64, AllocError> {
        let before = self.met.as_slice().partition_point(|at| *at < position);
        if self.met.as_slice().get(before) != Some(&position) {
            self.met.truncate(before);
            match self.met.push(position) {
                Ok(()) => {}
                Err(_) => return Err(AllocError),
            }
        }
        Ok((before as u64).saturating_add(1))
    }
}
