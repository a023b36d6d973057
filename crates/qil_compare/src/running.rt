//! A run to its next event.

ghost use Rattle.std.specs.Prelude.{◌≡◌, ◌+◌, ◌≤◌, ◌^◌, cond, false, length};
ghost use Rattle.qil_semantics.specs.Timeline.{position, at_end};
ghost use Rattle.qil_compare.specs.declared.event.Found.TheVariants as founds;
ghost use Rattle.qil_compare.specs.Ahead.{HasHappened, IsKept};
ghost use Rattle.qil_compare.specs.Coded.{AreNamedAlike};
ghost use Rattle.qil_compare.specs.Next.{IsNext, RunsToEvent};

use crate::ahead::{Before, kept_before};
use crate::event::{Found, Kinds, Told};
use crate::forward::Forward;
use crate::happened::{byte_out, happened, is_over};
use qil_code::Code;
use std::alloc::Allocator;

/// How many bytes of output there are.
pub fn written<'c, A: Allocator + Copy + 'c, R: Forward<A, Code<'c, A>>>(side: &R) -> usize
    ensures { result ≡ length (R.timeline side.now).now.output }
{
    side.is_read();
    side.output().len()
}

/// Whether the run is over.
#[inline(always)]
fn is_at_end<'c, A: Allocator + Copy + 'c, R: Forward<A, Code<'c, A>>>(side: &R) -> bool
    ensures { result ≡ at_end (R.timeline side.now) }
{
    side.is_read();
    is_over(side)
}

/// Why a run ends that had no event on its last move.
fn over_or_limit<'c, A: Allocator + Copy + 'c, R: Forward<A, Code<'c, A>>>(side: &R) -> Found
    ensures { result ≡ cond (at_end (R.timeline side.now)) founds.Over founds.Limit }
{
    if is_at_end(side) {
        Found::Over
    } else {
        Found::Limit
    }
}

/// What is kept of a run before some moves.
#[inline(always)]
fn before_moves<'c, A: Allocator + Copy + 'c, R: Forward<A, Code<'c, A>>>(
    kinds: Kinds,
    side: &R,
) -> Before
    requires { at_end (R.timeline side.now) ≡ false }
    ensures { IsKept (R.whole side.now).program kinds (R.timeline side.now).now result }
{
    side.is_read();
    kept_before(side, kinds)
}

/// The first event of a move, by the run behind it.
#[inline(always)]
fn happened_now<'c, A: Allocator + Copy + 'c, R: Forward<A, Code<'c, A>>>(
    other: &Code<'c, A>,
    kinds: Kinds,
    side: &R,
    before: Before,
    alike: u16,
) -> Option<Told>
    requires { AreNamedAlike (R.whole side.now).program other.now alike }
    ensures { HasHappened (R.whole side.now).program other.now kinds before (R.timeline side.now).now result }
{
    side.is_read();
    happened(side, other, kinds, before, alike)
}

/// Moves forward to the next event, and gives it: behind the least number of moves with one, or behind `limit` moves; or at the
/// end of the run. Also gives how many bytes of output have become events by then.
// The moves of which only the last can have an event are made in one go.
#[inline(never)]
fn run_to_event<'c, A: Allocator + Copy + 'c, R: Forward<A, Code<'c, A>>>(
    other: &Code<'c, A>,
    kinds: Kinds,
    side: &mut R,
    alike: u16,
    limit: u64,
) -> (Found, usize)
    requires near { position (R.timeline side.old) + limit ≤ 2 ^ 62 }
    requires alike { AreNamedAlike (R.whole side.old).program other.now alike }
    ensures program { (R.whole side.new).program ≡ (R.whole side.old).program }
    ensures run { RunsToEvent (R.whole side.old).program other.now kinds limit (R.timeline side.old) (R.timeline side.new) result.1 result.0 }
{
    let mut made = 0;
    while made < limit {
        if is_at_end(side) {
            return (Found::Over, written(side));
        }
        let before = before_moves(kinds, side);
        let count = before.moves.min(limit - made);
        let done = side.run(count);
        made += done;
        if let Some(first) = happened_now(other, kinds, side, before, alike) {
            return (Found::Event(first.event), first.told);
        }
    }
    (over_or_limit(side), written(side))
}

/// The next event of a run, of which so many bytes of output were events: a byte that wasn't one yet, without a move; or what
/// comes of moves, `limit` at most.
pub fn next_event<'c, A: Allocator + Copy + 'c, R: Forward<A, Code<'c, A>>>(
    other: &Code<'c, A>,
    kinds: Kinds,
    side: &mut R,
    alike: u16,
    told: &mut usize,
    limit: u64,
) -> Found
    requires near { position (R.timeline side.old) + limit ≤ 2 ^ 62 }
    requires alike { AreNamedAlike (R.whole side.old).program other.now alike }
    ensures program { (R.whole side.new).program ≡ (R.whole side.old).program }
    ensures next { IsNext (R.whole side.old).program other.now kinds limit (R.timeline side.old) (R.timeline side.new) told.old told.new result }
    ensures near { position (R.timeline side.new) ≤ position (R.timeline side.old) + limit }
{
    side.is_read();
    if let Some(first) = byte_out(side, kinds, *told) {
        *told = first.told;
        return Found::Event(first.event);
    }
    let (found, now_told) = run_to_event(other, kinds, side, alike, limit);
    *told = now_told;
    found
}
