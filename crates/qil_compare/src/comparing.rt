//! Two runs, event by event, to the first in which they differ.

ghost use Rattle.std.specs.Prelude.{◌≡◌, ◌↔◌, ◌⊎◌, ◌<◌, ◌≤◌, ◌^◌, IsTrue, true, false};
ghost use Rattle.qil_semantics.specs.Timeline.{position};
ghost use Rattle.qil_state.specs.State.{state_of};
ghost use Rattle.qil_compare.specs.declared.event.Found.TheVariants as founds;
ghost use Rattle.qil_compare.specs.Coded.{AreNamedAlike};
ghost use Rattle.qil_compare.specs.Answer.{Agrees, Judges, IsAnswered};

use crate::ahead::image_of;
use crate::alike::named_alike;
use crate::event::{Found, Kinds};
use crate::forward::Forward;
use crate::running::{next_event, written};
use crate::same::same_event;
use qil_code::Code;
use qil_history::{Readers, code_of};
use std::alloc::Allocator;

/// The most moves of a side after which a further event is looked for.
const MOST_MOVES: u64 = 1_000_000_000_000_000_000;

/// What came of a comparison.
#[derive(Clone, Copy)]
pub enum Verdict {
    /// Both runs are over, and had the same events.
    Same,
    /// The next events differ.
    Part,
    /// One side made as many moves as may be without an event.
    Limit,
}

/// How many events are the same from the start on, what came of that, and what comes next on each side.
#[derive(Clone, Copy)]
pub struct Answer {
    pub events: u64,
    pub verdict: Verdict,
    pub good: Found,
    pub bad: Found,
}

/// Whether a run came to its limit.
fn is_limit(found: Found) -> bool
    ensures { IsTrue result ↔ (found ≡ founds.Limit) }
{
    match found {
        Found::Limit => true,
        Found::Event(_) | Found::Over => false,
    }
}

/// Whether two runs agree in what comes next: in an event, or in having none.
#[inline(always)]
fn agree<'c, A: Allocator + Copy + 'c, M: Readers<A, Code<'c, A>>>(
    left: &M,
    right: &M,
    one: Found,
    other: Found,
    alike: u16,
) -> bool
    requires { AreNamedAlike (M.whole left.now).program (M.whole right.now).program alike }
    ensures { IsTrue result ↔ Agrees (M.whole left.now).program (M.whole right.now).program (state_of (M.whole left.now)) (state_of (M.whole right.now)) one other }
{
    match one {
        Found::Event(event) => match other {
            Found::Event(second) => same_event(left, right, event, second, alike),
            Found::Over | Found::Limit => false,
        },
        Found::Over => match other {
            Found::Over => true,
            Found::Event(_) | Found::Limit => false,
        },
        Found::Limit => false,
    }
}

/// What comes of two runs that found these, or nothing where they found the same event.
#[inline(always)]
fn judge<'c, A: Allocator + Copy + 'c, M: Readers<A, Code<'c, A>>>(
    left: &M,
    right: &M,
    one: Found,
    other: Found,
    alike: u16,
) -> Option<Verdict>
    requires { AreNamedAlike (M.whole left.now).program (M.whole right.now).program alike }
    ensures { Judges (M.whole left.now).program (M.whole right.now).program (state_of (M.whole left.now)) (state_of (M.whole right.now)) one other result }
{
    if is_limit(one) || is_limit(other) {
        return Some(Verdict::Limit);
    }
    if !agree(left, right, one, other, alike) {
        return Some(Verdict::Part);
    }
    match one {
        Found::Over => Some(Verdict::Same),
        Found::Event(_) | Found::Limit => None,
    }
}

/// What comes of two runs where they stand, or nothing where they found the same event.
#[inline(always)]
fn judge_here<'c, A: Allocator + Copy + 'c, R: Forward<A, Code<'c, A>>>(
    good: &R,
    bad: &R,
    one: Found,
    other: Found,
    alike: u16,
) -> Option<Verdict>
    requires { AreNamedAlike (R.whole good.now).program (R.whole bad.now).program alike }
    ensures { Judges (R.whole good.now).program (R.whole bad.now).program (R.timeline good.now).now (R.timeline bad.now).now one other result }
{
    good.is_read();
    bad.is_read();
    judge(good, bad, one, other, alike)
}

/// At how many numbers, from the first on, the programs of two runs have functions of the same names.
fn names_alike<'c, A: Allocator + Copy + 'c, R: Forward<A, Code<'c, A>>>(good: &R, bad: &R) -> u16
    ensures { AreNamedAlike (R.whole good.now).program (R.whole bad.now).program result }
{
    named_alike(image_of(good), image_of(bad))
}

/// Whether one of two runs has made so many moves that no further event is looked for.
fn is_far<'c, A: Allocator + Copy + 'c, R: Forward<A, Code<'c, A>>>(good: &R, bad: &R) -> bool
    ensures near { result ≡ false → (position (R.timeline good.now) ≤ 1000000000000000000) × (position (R.timeline bad.now) ≤ 1000000000000000000) }
    ensures far { result ≡ true → (10 ^ 18 < position (R.timeline good.now)) ⊎ (10 ^ 18 < position (R.timeline bad.now)) }
{
    good.position() > MOST_MOVES || bad.position() > MOST_MOVES
}

/// The answer for two runs behind so many events that are the same.
fn told_of(common: u64, verdict: Verdict, one: Found, other: Found) -> Answer
    ensures { result ≡ record { events = common; verdict = verdict; good = one; bad = other } }
{
    Answer {
        events: common,
        verdict,
        good: one,
        bad: other,
    }
}

/// That no further event was looked for, after so many that are the same.
fn limited(common: u64) -> Answer
    ensures { result ≡ record { events = common; verdict = Verdict.Limit; good = Found.Limit; bad = Found.Limit } }
{
    told_of(common, Verdict::Limit, Found::Limit, Found::Limit)
}

/// Runs two programs side by side to the first event of these kinds in which they differ, to the end of both, or to a limit: of
/// the moves from one event to the next, or of all moves of a side. Each is left behind its last event.
pub fn compare<'c, A: Allocator + Copy + 'c, R: Forward<A, Code<'c, A>>>(
    kinds: Kinds,
    good: &mut R,
    bad: &mut R,
    limit: u64,
) -> Answer
    requires limit { limit ≤ 4294967295 }
    requires start { (position (R.timeline good.old) ≤ 1000000000000000000) × (position (R.timeline bad.old) ≤ 1000000000000000000) }
    ensures good_program { (R.whole good.new).program ≡ (R.whole good.old).program }
    ensures bad_program { (R.whole bad.new).program ≡ (R.whole bad.old).program }
    ensures near { (position (R.timeline good.new) < 2 ^ 60) × (position (R.timeline bad.new) < 2 ^ 60) }
    ensures answer { IsAnswered kinds limit (R.whole good.old).program (R.whole bad.old).program (R.timeline good.old) (R.timeline good.new) (R.timeline bad.old) (R.timeline bad.new) result }
{
    let alike = names_alike(good, bad);
    let mut good_told = written(good);
    let mut bad_told = written(bad);
    for events in 0..u64::MAX {
        if is_far(good, bad) {
            return limited(events);
        }
        let bad_code = code_of(bad);
        let one = next_event(bad_code, kinds, good, alike, &mut good_told, limit);
        let good_code = code_of(good);
        let other = next_event(good_code, kinds, bad, alike, &mut bad_told, limit);
        let judged = judge_here(good, bad, one, other, alike);
        if let Some(verdict) = judged {
            return told_of(events, verdict, one, other);
        }
    }
    limited(u64::MAX)
}
