//! `compare_texts`: from two texts and a script to all that is written of them.

ghost use Rattle.std.specs.Prelude.{◌≡◌, ◌≢◌, ◌-◌, ◌^◌, ◌<◌, ◌≤◌, ◌↔◌, None, IfSome};
ghost use Rattle.qil_rules.specs.Verdict as accepted;
ghost use Rattle.qil_semantics.specs.State.{State};
ghost use Rattle.qil_loading.specs.declared.refusal.Refusal.{Refusal};
ghost use Rattle.qil_session.specs.Serve.{TakesFew};
ghost use Rattle.qil_comparison.specs.declared.request.Request.{Request};
ghost use Rattle.qil_comparison.specs.declared.request.SideName.{SideName};
ghost use Rattle.qil_comparison.specs.Compared.{Begin, CountsFaults, IsRefusedOn, IsUncompared, IsUntouched, Written, setup_of, text_on};

use crate::loading::load_both;
use crate::outcome::Outcome;
use crate::refusal::refuse;
use crate::request::{Request, SideName, Text};
use qil_streams::{Sink, Source};
use std::alloc::Allocator;
use std::hash::RandomState;

/// The name of the file of a side.
fn name_on<'t>(good: &Text<'t>, bad: &Text<'t>, side: SideName) -> &'t [u8]
    ensures { (r : Request) → result.now ≡ (text_on (setup_of good.now bad.now r) side).name.now }
{
    match side {
        SideName::Good => good.name,
        SideName::Bad => bad.name,
    }
}

/// Compares the runs of two texts, and serves a script where they part.
///
/// `keys` are those of the tables by name: a text's author must not know them, so that no names are picked that fall
/// together. They change nothing that is written. What is told goes to `sink`; with a side in `request.session` the script is
/// read from `source` line by line, and answered on that side. `request.limit` is 1 to 4,294,967,295, and `request.bound` 1 to
/// 1,000,000, if there is one. Where a text is refused, its refusal alone is written, after the name of its file.
///
/// Where memory is wanting to load the texts the answer is `Memory`, and neither device was touched. All that both runs may want is
/// taken at their starts, so that no move of theirs wants memory, however many there are. Where it is wanting for the session the
/// answer is `Unserved`. Without a bound the copies of its states take 64 MB at most, as long as more than the first is there.
pub fn compare_texts<'t, A: Allocator + Copy, S: Source, W: Sink>(
    alloc: A,
    keys: RandomState,
    good: &Text<'t>,
    bad: &Text<'t>,
    request: &Request<'_>,
    source: &mut S,
    sink: &mut W,
) -> Outcome
    requires reads { S.failures source.old < 2 ^ 64 - 1 }
    requires writes { W.failures sink.old < 2 ^ 64 - 1 }
    requires limit { request.now.limit ≤ 4294967295 }
    requires bound { IfSome request.now.bound (λ n. n ≤ 1000000) }

    // If all bytes of the source are known, what was written is a refusal; or the report of where both runs came to, and the
    // answers to the script there, up to what stopped it.
    ensures written { Written A result (setup_of good.now bad.now request.now) (S.remaining source.old) (S.remaining source.new) (W.contents sink.old) (W.contents sink.new) }

    // Accepted texts are not refused, and of a refused one nothing is compared.
    ensures only_begun { (p q : accepted.Verdict A) (s t : State) → Begin (setup_of good.now bad.now request.now) p q s t → result ≢ Outcome.Refused }
    ensures only_refused { (side : SideName) (refusal : Refusal) → IsRefusedOn A (setup_of good.now bad.now request.now) side refusal → IsUncompared result }

    // If no script is asked for, or none is answered, the source is unchanged; else at most 2^24 + 1 bytes are taken from it.
    ensures untouched { IsUntouched result source.old source.new }
    ensures unasked { request.now.session ≡ None → source.new ≡ source.old }
    ensures few { IfSome (S.remaining source.old) (λ script. TakesFew script (S.remaining source.new)) }

    // A fault is answered exactly where a device's faults rose, by the one call that failed.
    ensures read_fault { (result ≡ Outcome.ReadFault) ↔ (S.failures source.old < S.failures source.new) }
    ensures write_fault { (result ≡ Outcome.WriteFault) ↔ (W.failures sink.old < W.failures sink.new) }
    ensures counted { CountsFaults result (S.failures source.old) (S.failures source.new) (W.failures sink.old) (W.failures sink.new) }
{
    match load_both(alloc, keys, good, bad, request, source, sink) {
        Ok(outcome) => outcome,
        Err(unloaded) => refuse(sink, name_on(good, bad, unloaded.side), unloaded.error),
    }
}
