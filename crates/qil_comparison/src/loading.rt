//! Both texts are loaded, the good one first and wholly, and then run.

ghost use Rattle.std.specs.Prelude.{◌≡◌, ◌≢◌, ℕ, ◌-◌, ◌^◌, ◌<◌, ◌≤◌, None, Some, Ok, Err, IfSome, IfOk, IfErr, IsOk, IsErr, OnOk, OnErr};
ghost use Rattle.qil_rules.specs.Verdict as accepted;
ghost use Rattle.qil_semantics.specs.State.{State};
ghost use Rattle.qil_semantics.specs.Start.{start_of};
ghost use Rattle.qil_layout.specs.Layout.{fault_of};
ghost use Rattle.qil_layout.specs.declared.error.LayoutCode.{LayoutCode};
ghost use Rattle.qil_semantics.specs.declared.start.StartFault.{StartFault};
ghost use Rattle.qil_loading.specs.Load.{Accepts, Checks, Refuses};
ghost use Rattle.qil_loading.specs.declared.refusal.Refusal.{Refusal};
ghost use Rattle.qil_session.specs.Serve.{TakesFew};
ghost use Rattle.qil_comparison.specs.declared.request.SideName.{SideName};
ghost use Rattle.qil_comparison.specs.declared.request.Text.{Text};
ghost use Rattle.qil_comparison.specs.Compared.{Begin, CountsFaults, IsRefusedOn, IsUntouched, Written, setup_of};
ghost use Rattle.qil_comparison.specs.Handed.{IsUnloaded, IsUnloadedOn, StartRefuses};

use crate::outcome::Outcome;
use crate::request::{Request, SideName, Text};
use crate::sides::run_sides;
use qil_code::Code;
use qil_flat::flatten;
use qil_layout::Image;
use qil_layout_builder::layout;
use qil_loading::{LoadError, Refusal, check_text};
use qil_resolution::number;
use qil_rules::Checked;
use qil_semantics::StartFault;
use qil_streams::{Sink, Source};
use std::alloc::Allocator;
use std::hash::RandomState;

/// Why nothing was compared: the side of the text that isn't loaded, and why it isn't.
#[derive(Clone, Copy)]
pub struct Unloaded {
    pub side: SideName,
    pub error: LoadError,
}

fn not_loaded(side: SideName, error: LoadError) -> Unloaded
    ensures { result ≡ record { side = side; error = error } }
{
    Unloaded { side, error }
}

/// Whether a program can be started.
fn can_start<A: Allocator + Copy>(
    code: &Code<'_, A>,
    request: &Request<'_>,
) -> Result<(), LoadError>
    ensures starts { OnOk result (IsOk (start_of code.now request.now.func.now request.now.args.now)) }
    ensures fault { IfErr result (StartRefuses (start_of code.now request.now.func.now request.now.args.now)) }
{
    let Some(func) = code.func_named(request.func) else {
        return Err(LoadError::Refused(Refusal::Start(StartFault::NoEntry)));
    };
    let Some(found) = code.func(func) else {
        unreachable!();
    };
    if found.code.params.as_slice().len() != request.args.len() {
        return Err(LoadError::Refused(Refusal::Start(StartFault::ArgumentCount)));
    }
    Ok(())
}

/// Flattens the code of two programs, and runs them.
fn run_ready<'c, 'g, 'i, A: Allocator + Copy + 'c, S: Source, W: Sink>(
    alloc: A,
    good: &'c Code<'g, A>,
    bad: &'c Code<'i, A>,
    request: &Request<'_>,
    source: &mut S,
    sink: &mut W,
) -> Outcome
    requires reads { S.failures source.old < 2 ^ 64 - 1 }
    requires writes { W.failures sink.old < 2 ^ 64 - 1 }
    requires limit { request.now.limit ≤ 4294967295 }
    requires bound { IfSome request.now.bound (λ n. n ≤ 1000000) }
    ensures written { (one two : Text) (p q : accepted.Verdict A) → Accepts one.bytes.now p → Accepts two.bytes.now q → good.now ≡ p.program → bad.now ≡ q.program
        → Written A result (setup_of one two request.now) (S.remaining source.old) (S.remaining source.new) (W.contents sink.old) (W.contents sink.new) }
    ensures ran { result ≢ Outcome.Refused }
    ensures untouched { IsUntouched result source.old source.new }
    ensures unasked { request.now.session ≡ None → source.new ≡ source.old }
    ensures few { IfSome (S.remaining source.old) (λ script. TakesFew script (S.remaining source.new)) }
    ensures counted { CountsFaults result (S.failures source.old) (S.failures source.new) (W.failures sink.old) (W.failures sink.new) }
{
    let first = match flatten(alloc, good) {
        Ok(code) => code,
        Err(_) => return Outcome::Memory,
    };
    match flatten(alloc, bad) {
        Ok(second) => run_sides(alloc, &first, &second, request, source, sink),
        Err(_) => Outcome::Memory,
    }
}

/// Starts both programs, where the bad one can be started too, and runs them.
fn start_both<'c, 'g, 'i, A: Allocator + Copy + 'c, S: Source, W: Sink>(
    alloc: A,
    good: &'c Code<'g, A>,
    bad: &'c Code<'i, A>,
    request: &Request<'_>,
    source: &mut S,
    sink: &mut W,
) -> Result<Outcome, LoadError>
    requires reads { S.failures source.old < 2 ^ 64 - 1 }
    requires writes { W.failures sink.old < 2 ^ 64 - 1 }
    requires limit { request.now.limit ≤ 4294967295 }
    requires bound { IfSome request.now.bound (λ n. n ≤ 1000000) }
    ensures written { (one two : Text) (p q : accepted.Verdict A) → Accepts one.bytes.now p → Accepts two.bytes.now q → good.now ≡ p.program → bad.now ≡ q.program
        → IfOk result (λ outcome. Written A outcome (setup_of one two request.now) (S.remaining source.old) (S.remaining source.new) (W.contents sink.old) (W.contents sink.new)) }
    ensures fault { IfErr result (StartRefuses (start_of bad.now request.now.func.now request.now.args.now)) }
    ensures only_started { (fault : StartFault) → start_of bad.now request.now.func.now request.now.args.now ≡ Err fault → IsErr result }
    ensures ran { IfOk result (λ outcome. outcome ≢ Outcome.Refused) }
    ensures untouched { IfOk result (λ outcome. IsUntouched outcome source.old source.new) }
    ensures unasked { request.now.session ≡ None → source.new ≡ source.old }
    ensures few { IfSome (S.remaining source.old) (λ script. TakesFew script (S.remaining source.new)) }
    ensures counted { IfOk result (λ outcome. CountsFaults outcome (S.failures source.old) (S.failures source.new) (W.failures sink.old) (W.failures sink.new)) }
    ensures unread { OnErr result (source.new ≡ source.old) }
    ensures unwritten { OnErr result (sink.new ≡ sink.old) }
{
    match can_start(bad, request) {
        Ok(()) => {}
        Err(error) => return Err(error),
    }
    Ok(run_ready(alloc, good, bad, request, source, sink))
}

/// Numbers the bad program next to the good one, and runs both.
fn number_bad<'c, 'g, 's, 't, 'i, A: Allocator + Copy + 'c, S: Source, W: Sink>(
    alloc: A,
    keys: RandomState,
    good: &'c Code<'g, A>,
    checked: &'s Checked<'t, A>,
    image: &'s Image<'i, A>,
    request: &Request<'_>,
    source: &mut S,
    sink: &mut W,
) -> Result<Outcome, LoadError>
    requires reads { S.failures source.old < 2 ^ 64 - 1 }
    requires writes { W.failures sink.old < 2 ^ 64 - 1 }
    requires limit { request.now.limit ≤ 4294967295 }
    requires bound { IfSome request.now.bound (λ n. n ≤ 1000000) }
    requires image { image.now ≡ checked.now.program }
    requires lies { fault_of checked.now.program ≡ None }
    ensures written { (one two : Text) (p : accepted.Verdict A) → Accepts one.bytes.now p → Checks two.bytes.now checked.now → good.now ≡ p.program
        → IfOk result (λ outcome. Written A outcome (setup_of one two request.now) (S.remaining source.old) (S.remaining source.new) (W.contents sink.old) (W.contents sink.new)) }
    ensures unloaded { (two : Text) → Checks two.bytes.now checked.now → IfErr result (IsUnloaded A two request.now) }
    ensures only_begun { (start : State) → start_of checked.now.program request.now.func.now request.now.args.now ≡ Ok start
        → IfErr result (λ e. e ≡ LoadError.OutOfMemory) }
    ensures only_started { (fault : StartFault) → start_of checked.now.program request.now.func.now request.now.args.now ≡ Err fault → IsErr result }
    ensures ran { IfOk result (λ outcome. outcome ≢ Outcome.Refused) }
    ensures untouched { IfOk result (λ outcome. IsUntouched outcome source.old source.new) }
    ensures unasked { request.now.session ≡ None → source.new ≡ source.old }
    ensures few { IfSome (S.remaining source.old) (λ script. TakesFew script (S.remaining source.new)) }
    ensures counted { IfOk result (λ outcome. CountsFaults outcome (S.failures source.old) (S.failures source.new) (W.failures sink.old) (W.failures sink.new)) }
    ensures unread { OnErr result (source.new ≡ source.old) }
    ensures unwritten { OnErr result (sink.new ≡ sink.old) }
{
    let code = match number(alloc, keys, checked, image) {
        Ok(code) => code,
        Err(_) => return Err(LoadError::OutOfMemory),
    };
    start_both(alloc, good, &code, request, source, sink)
}

/// Lays the bad program out next to the good one, and runs both.
fn lay_bad<'c, 'g, 't, A: Allocator + Copy + 'c, S: Source, W: Sink>(
    alloc: A,
    keys: RandomState,
    good: &'c Code<'g, A>,
    checked: &Checked<'t, A>,
    request: &Request<'_>,
    source: &mut S,
    sink: &mut W,
) -> Result<Outcome, LoadError>
    requires reads { S.failures source.old < 2 ^ 64 - 1 }
    requires writes { W.failures sink.old < 2 ^ 64 - 1 }
    requires limit { request.now.limit ≤ 4294967295 }
    requires bound { IfSome request.now.bound (λ n. n ≤ 1000000) }
    ensures written { (one two : Text) (p : accepted.Verdict A) → Accepts one.bytes.now p → Checks two.bytes.now checked.now → good.now ≡ p.program
        → IfOk result (λ outcome. Written A outcome (setup_of one two request.now) (S.remaining source.old) (S.remaining source.new) (W.contents sink.old) (W.contents sink.new)) }
    ensures unloaded { (two : Text) → Checks two.bytes.now checked.now → IfErr result (IsUnloaded A two request.now) }
    ensures only_begun { (start : State) → fault_of checked.now.program ≡ None → start_of checked.now.program request.now.func.now request.now.args.now ≡ Ok start
        → IfErr result (λ e. e ≡ LoadError.OutOfMemory) }
    ensures only_laid_out { (code : LayoutCode) (line : ℕ) → fault_of checked.now.program ≡ Some (code, line) → IsErr result }
    ensures only_started { (fault : StartFault) → start_of checked.now.program request.now.func.now request.now.args.now ≡ Err fault → IsErr result }
    ensures ran { IfOk result (λ outcome. outcome ≢ Outcome.Refused) }
    ensures untouched { IfOk result (λ outcome. IsUntouched outcome source.old source.new) }
    ensures unasked { request.now.session ≡ None → source.new ≡ source.old }
    ensures few { IfSome (S.remaining source.old) (λ script. TakesFew script (S.remaining source.new)) }
    ensures counted { IfOk result (λ outcome. CountsFaults outcome (S.failures source.old) (S.failures source.new) (W.failures sink.old) (W.failures sink.new)) }
    ensures unread { OnErr result (source.new ≡ source.old) }
    ensures unwritten { OnErr result (sink.new ≡ sink.old) }
{
    match layout(alloc, keys, checked) {
        Ok(image) => number_bad(alloc, keys, good, &*checked, &image, request, source, sink),
        Err(error) => Err(LoadError::from(error)),
    }
}

/// Loads the bad text next to the good one, and runs both.
fn load_bad<'c, 'g, 't, A: Allocator + Copy + 'c, S: Source, W: Sink>(
    alloc: A,
    keys: RandomState,
    good: &'c Code<'g, A>,
    text: &Text<'t>,
    request: &Request<'_>,
    source: &mut S,
    sink: &mut W,
) -> Result<Outcome, LoadError>
    requires reads { S.failures source.old < 2 ^ 64 - 1 }
    requires writes { W.failures sink.old < 2 ^ 64 - 1 }
    requires limit { request.now.limit ≤ 4294967295 }
    requires bound { IfSome request.now.bound (λ n. n ≤ 1000000) }
    ensures written { (one : Text) (p : accepted.Verdict A) → Accepts one.bytes.now p → good.now ≡ p.program
        → IfOk result (λ outcome. Written A outcome (setup_of one text.now request.now) (S.remaining source.old) (S.remaining source.new) (W.contents sink.old) (W.contents sink.new)) }
    ensures unloaded { IfErr result (IsUnloaded A text.now request.now) }
    ensures only_begun { (verdict : accepted.Verdict A) (start : State) → Accepts text.now.bytes.now verdict
        → start_of verdict.program request.now.func.now request.now.args.now ≡ Ok start → IfErr result (λ e. e ≡ LoadError.OutOfMemory) }
    ensures only_refused { (refusal : Refusal) → Refuses A text.now.bytes.now request.now.func.now request.now.args.now refusal → IsErr result }
    ensures ran { IfOk result (λ outcome. outcome ≢ Outcome.Refused) }
    ensures untouched { IfOk result (λ outcome. IsUntouched outcome source.old source.new) }
    ensures unasked { request.now.session ≡ None → source.new ≡ source.old }
    ensures few { IfSome (S.remaining source.old) (λ script. TakesFew script (S.remaining source.new)) }
    ensures counted { IfOk result (λ outcome. CountsFaults outcome (S.failures source.old) (S.failures source.new) (W.failures sink.old) (W.failures sink.new)) }
    ensures unread { OnErr result (source.new ≡ source.old) }
    ensures unwritten { OnErr result (sink.new ≡ sink.old) }
{
    match check_text(alloc, keys, text.bytes) {
        Ok(checked) => lay_bad(alloc, keys, good, &checked, request, source, sink),
        Err(error) => Err(error),
    }
}

/// Numbers the good program, and loads the bad text next to it.
fn number_good<'c, 'g, 'i, 't, A: Allocator + Copy + 'c, S: Source, W: Sink>(
    alloc: A,
    keys: RandomState,
    checked: &'c Checked<'g, A>,
    image: &'c Image<'i, A>,
    bad: &Text<'t>,
    request: &Request<'_>,
    source: &mut S,
    sink: &mut W,
) -> Result<Outcome, Unloaded>
    requires reads { S.failures source.old < 2 ^ 64 - 1 }
    requires writes { W.failures sink.old < 2 ^ 64 - 1 }
    requires limit { request.now.limit ≤ 4294967295 }
    requires bound { IfSome request.now.bound (λ n. n ≤ 1000000) }
    requires image { image.now ≡ checked.now.program }
    requires lies { fault_of checked.now.program ≡ None }
    ensures written { (one : Text) → Checks one.bytes.now checked.now
        → IfOk result (λ outcome. Written A outcome (setup_of one bad.now request.now) (S.remaining source.old) (S.remaining source.new) (W.contents sink.old) (W.contents sink.new)) }
    ensures unloaded { (one : Text) → Checks one.bytes.now checked.now → IfErr result (λ e. IsUnloadedOn A (setup_of one bad.now request.now) e.side e.error) }
    ensures only_begun { (q : accepted.Verdict A) (s t : State) → start_of checked.now.program request.now.func.now request.now.args.now ≡ Ok s
        → Accepts bad.now.bytes.now q → start_of q.program request.now.func.now request.now.args.now ≡ Ok t → IfErr result (λ e. e.error ≡ LoadError.OutOfMemory) }
    ensures only_started { (fault : StartFault) → start_of checked.now.program request.now.func.now request.now.args.now ≡ Err fault → IsErr result }
    ensures only_refused { (refusal : Refusal) → Refuses A bad.now.bytes.now request.now.func.now request.now.args.now refusal → IsErr result }
    ensures ran { IfOk result (λ outcome. outcome ≢ Outcome.Refused) }
    ensures untouched { IfOk result (λ outcome. IsUntouched outcome source.old source.new) }
    ensures unasked { request.now.session ≡ None → source.new ≡ source.old }
    ensures few { IfSome (S.remaining source.old) (λ script. TakesFew script (S.remaining source.new)) }
    ensures counted { IfOk result (λ outcome. CountsFaults outcome (S.failures source.old) (S.failures source.new) (W.failures sink.old) (W.failures sink.new)) }
    ensures unread { OnErr result (source.new ≡ source.old) }
    ensures unwritten { OnErr result (sink.new ≡ sink.old) }
{
    let code = match number(alloc, keys, checked, image) {
        Ok(code) => code,
        Err(_) => return Err(not_loaded(SideName::Good, LoadError::OutOfMemory)),
    };
    match can_start(&code, request) {
        Ok(()) => {}
        Err(error) => return Err(not_loaded(SideName::Good, error)),
    }
    match load_bad(alloc, keys, &code, bad, request, source, sink) {
        Ok(outcome) => Ok(outcome),
        Err(error) => Err(not_loaded(SideName::Bad, error)),
    }
}

/// Lays the good program out, and loads the bad text next to it.
fn lay_good<'g, 't, A: Allocator + Copy, S: Source, W: Sink>(
    alloc: A,
    keys: RandomState,
    checked: &Checked<'g, A>,
    bad: &Text<'t>,
    request: &Request<'_>,
    source: &mut S,
    sink: &mut W,
) -> Result<Outcome, Unloaded>
    requires reads { S.failures source.old < 2 ^ 64 - 1 }
    requires writes { W.failures sink.old < 2 ^ 64 - 1 }
    requires limit { request.now.limit ≤ 4294967295 }
    requires bound { IfSome request.now.bound (λ n. n ≤ 1000000) }
    ensures written { (one : Text) → Checks one.bytes.now checked.now
        → IfOk result (λ outcome. Written A outcome (setup_of one bad.now request.now) (S.remaining source.old) (S.remaining source.new) (W.contents sink.old) (W.contents sink.new)) }
    ensures unloaded { (one : Text) → Checks one.bytes.now checked.now → IfErr result (λ e. IsUnloadedOn A (setup_of one bad.now request.now) e.side e.error) }
    ensures only_begun { (q : accepted.Verdict A) (s t : State) → fault_of checked.now.program ≡ None → start_of checked.now.program request.now.func.now request.now.args.now ≡ Ok s
        → Accepts bad.now.bytes.now q → start_of q.program request.now.func.now request.now.args.now ≡ Ok t → IfErr result (λ e. e.error ≡ LoadError.OutOfMemory) }
    ensures only_laid_out { (code : LayoutCode) (line : ℕ) → fault_of checked.now.program ≡ Some (code, line) → IsErr result }
    ensures only_started { (fault : StartFault) → start_of checked.now.program request.now.func.now request.now.args.now ≡ Err fault → IsErr result }
    ensures only_refused { (refusal : Refusal) → Refuses A bad.now.bytes.now request.now.func.now request.now.args.now refusal → IsErr result }
    ensures ran { IfOk result (λ outcome. outcome ≢ Outcome.Refused) }
    ensures untouched { IfOk result (λ outcome. IsUntouched outcome source.old source.new) }
    ensures unasked { request.now.session ≡ None → source.new ≡ source.old }
    ensures few { IfSome (S.remaining source.old) (λ script. TakesFew script (S.remaining source.new)) }
    ensures counted { IfOk result (λ outcome. CountsFaults outcome (S.failures source.old) (S.failures source.new) (W.failures sink.old) (W.failures sink.new)) }
    ensures unread { OnErr result (source.new ≡ source.old) }
    ensures unwritten { OnErr result (sink.new ≡ sink.old) }
{
    match layout(alloc, keys, checked) {
        Ok(image) => number_good(alloc, keys, &*checked, &image, bad, request, source, sink),
        Err(error) => Err(not_loaded(SideName::Good, LoadError::from(error))),
    }
}

/// Loads both texts, and runs them.
pub fn load_both<'t, A: Allocator + Copy, S: Source, W: Sink>(
    alloc: A,
    keys: RandomState,
    good: &Text<'t>,
    bad: &Text<'t>,
    request: &Request<'_>,
    source: &mut S,
    sink: &mut W,
) -> Result<Outcome, Unloaded>
    requires reads { S.failures source.old < 2 ^ 64 - 1 }
    requires writes { W.failures sink.old < 2 ^ 64 - 1 }
    requires limit { request.now.limit ≤ 4294967295 }
    requires bound { IfSome request.now.bound (λ n. n ≤ 1000000) }
    ensures written { IfOk result (λ outcome. Written A outcome (setup_of good.now bad.now request.now) (S.remaining source.old) (S.remaining source.new) (W.contents sink.old) (W.contents sink.new)) }
    ensures unloaded { IfErr result (λ e. IsUnloadedOn A (setup_of good.now bad.now request.now) e.side e.error) }
    ensures only_begun { (p q : accepted.Verdict A) (s t : State) → Begin (setup_of good.now bad.now request.now) p q s t → IfErr result (λ e. e.error ≡ LoadError.OutOfMemory) }
    ensures only_refused { (side : SideName) (refusal : Refusal) → IsRefusedOn A (setup_of good.now bad.now request.now) side refusal → IsErr result }
    ensures ran { IfOk result (λ outcome. outcome ≢ Outcome.Refused) }
    ensures untouched { IfOk result (λ outcome. IsUntouched outcome source.old source.new) }
    ensures unasked { request.now.session ≡ None → source.new ≡ source.old }
    ensures few { IfSome (S.remaining source.old) (λ script. TakesFew script (S.remaining source.new)) }
    ensures counted { IfOk result (λ outcome. CountsFaults outcome (S.failures source.old) (S.failures source.new) (W.failures sink.old) (W.failures sink.new)) }
    ensures unread { OnErr result (source.new ≡ source.old) }
    ensures unwritten { OnErr result (sink.new ≡ sink.old) }
{
    match check_text(alloc, keys, good.bytes) {
        Ok(checked) => lay_good(alloc, keys, &checked, bad, request, source, sink),
        Err(error) => Err(not_loaded(SideName::Good, error)),
    }
}
