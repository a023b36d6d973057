//! Runs two programs side by side from their starts, writes the report, and serves a script on one of them.

ghost use Rattle.std.specs.Prelude.{◌≡◌, ◌≢◌, ◌-◌, ◌^◌, ◌<◌, ◌≤◌, None, Some, IfSome};
ghost use Rattle.qil_rules.specs.Verdict as accepted;
ghost use Rattle.qil_semantics.specs.Timeline.{position};
ghost use Rattle.qil_loading.specs.Load.{Accepts};
ghost use Rattle.qil_streams.specs.Device.{Counts, Puts};
ghost use Rattle.qil_session.specs.Serve.{TakesFew};
ghost use Rattle.qil_comparison.specs.declared.request.Text.{Text};
ghost use Rattle.qil_comparison.specs.Told.{told_text};
ghost use Rattle.qil_comparison.specs.Compared.{CountsFaults, IsUntouched, Written, setup_of};
ghost use Rattle.qil_comparison.specs.Handed.{IsReport};

use crate::flat_run::FlatRun;
use crate::outcome::Outcome;
use crate::request::{Request, SideName};
use crate::sessions::serve_from;
use crate::telling::put_answer;
use qil_code::Code;
use qil_compare::{Answer, Forward, compare};
use qil_flat::FlatCode;
use qil_streams::{Outlet, PutError, Sink, Source};
use std::alloc::Allocator;

/// What came of a comparison, and how many moves each side made.
#[derive(Clone, Copy)]
pub struct Reported {
    pub answer: Answer,
    pub good: u64,
    pub bad: u64,
}

/// Writes the report of a comparison.
fn write_answer<'c, A: Allocator + Copy + 'c, R: Forward<A, Code<'c, A>>, W: Sink>(
    sink: &mut W,
    good: &R,
    bad: &R,
    answer: Answer,
) -> Result<(), PutError>
    requires writes { W.failures sink.old < 2 ^ 64 - 1 }
    ensures text { Puts result (W.contents sink.old) (W.contents sink.new) (told_text (R.whole good.now).program (R.whole bad.now).program (R.timeline good.now) (R.timeline bad.now) answer) }
    ensures counted { Counts result (W.failures sink.old) (W.failures sink.new) }
{
    let mut out = Outlet { sink };
    let put = put_answer(&mut out, good, bad, answer);
    let Outlet { sink: _ } = out;
    put
}

/// Compares two runs from their starts, and writes the report.
fn report<'c, A: Allocator + Copy + 'c, R: Forward<A, Code<'c, A>> + Drop, W: Sink>(
    good: R,
    bad: R,
    request: &Request<'_>,
    sink: &mut W,
) -> Result<Reported, PutError>
    requires writes { W.failures sink.old < 2 ^ 64 - 1 }
    requires limit { request.now.limit ≤ 4294967295 }
    requires start { (position (R.timeline good) ≡ 0) × (position (R.timeline bad) ≡ 0) }
    ensures report { IsReport request.now (R.whole good).program (R.whole bad).program (R.timeline good).now (R.timeline bad).now result (W.contents sink.old) (W.contents sink.new) }
    ensures counted { Counts result (W.failures sink.old) (W.failures sink.new) }
{
    let (mut good, mut bad) = (good, bad);
    let answer = compare(request.kinds, &mut good, &mut bad, request.limit);
    match write_answer(sink, &good, &bad, answer) {
        Ok(()) => Ok(Reported {
            answer,
            good: good.position(),
            bad: bad.position(),
        }),
        Err(error) => Err(error),
    }
}

/// Runs two programs that can be started: compares their runs, writes the report, and serves the script if one is asked for.
// The side of a session is run once more, to where the comparison left it: a run that keeps what a session needs is slower.
pub fn run_sides<'c, 'g, 'i, A: Allocator + Copy + 'c, S: Source, W: Sink>(
    alloc: A,
    good: &'c FlatCode<'g, A>,
    bad: &'c FlatCode<'i, A>,
    request: &Request<'_>,
    source: &mut S,
    sink: &mut W,
) -> Outcome
    requires reads { S.failures source.old < 2 ^ 64 - 1 }
    requires writes { W.failures sink.old < 2 ^ 64 - 1 }
    requires limit { request.now.limit ≤ 4294967295 }
    requires bound { IfSome request.now.bound (λ n. n ≤ 1000000) }
    ensures written { (one two : Text) (p q : accepted.Verdict A) → Accepts one.bytes.now p → Accepts two.bytes.now q → good.entry.now.program ≡ p.program → bad.entry.now.program ≡ q.program
        → Written A result (setup_of one two request.now) (S.remaining source.old) (S.remaining source.new) (W.contents sink.old) (W.contents sink.new) }
    ensures ran { result ≢ Outcome.Refused }
    ensures untouched { IsUntouched result source.old source.new }
    ensures unasked { request.now.session ≡ None → source.new ≡ source.old }
    ensures few { IfSome (S.remaining source.old) (λ script. TakesFew script (S.remaining source.new)) }
    ensures counted { CountsFaults result (S.failures source.old) (S.failures source.new) (W.failures sink.old) (W.failures sink.new) }
{
    let first = match FlatRun::start(alloc, good, request.func, request.args) {
        Ok(first) => first,
        Err(_) => return Outcome::Memory,
    };
    let second = match FlatRun::start(alloc, bad, request.func, request.args) {
        Ok(second) => second,
        Err(_) => return Outcome::Memory,
    };
    let reported = match report(first, second, request, sink) {
        Ok(reported) => reported,
        Err(PutError) => return Outcome::WriteFault,
    };
    let told = reported.answer.verdict;
    match request.session {
        None => Outcome::Told(told),
        Some(SideName::Good) => {
            serve_from(alloc, good, reported.good, told, request, source, sink)
        }
        Some(SideName::Bad) => serve_from(alloc, bad, reported.bad, told, request, source, sink),
    }
}
