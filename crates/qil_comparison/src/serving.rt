//! Serves a script on the side that it is for.

ghost use Rattle.std.specs.Prelude.{◌≡◌, ◌≢◌, ◌-◌, ◌^◌, ◌<◌, ◌≤◌, IfSome};
ghost use Rattle.qil_semantics.specs.Timeline.{position};
ghost use Rattle.qil_session.specs.Serve.{TakesFew};
ghost use Rattle.qil_comparison.specs.Compared.{CountsFaults, IsUntouched, session_on};
ghost use Rattle.qil_comparison.specs.Handed.{IsServedAt, served_outcome};

use crate::outcome::Outcome;
use qil_code::Code;
use qil_compare::Verdict;
use qil_session::{IoFault, Runs, Session, serve};
use qil_streams::{Sink, Source};
use std::alloc::Allocator;

/// What is answered of a comparison, once a script was served.
fn served_outcome(served: Result<(), IoFault>, told: Verdict) -> Outcome
    ensures { result ≡ served_outcome served told }
{
    match served {
        Ok(()) => Outcome::Told(told),
        Err(IoFault::Read) => Outcome::ReadFault,
        Err(IoFault::Write) => Outcome::WriteFault,
        Err(IoFault::TooLong) => Outcome::TooLong,
    }
}

/// Serves a script where a history stands.
pub fn serve_at<'c, A: Allocator + Copy + 'c, H: Runs<A, Code<'c, A>> + Drop, S: Source, W: Sink>(
    alloc: A,
    history: H,
    limit: u64,
    told: Verdict,
    source: &mut S,
    sink: &mut W,
) -> Outcome
    requires reads { S.failures source.old < 2 ^ 64 - 1 }
    requires writes { W.failures sink.old < 2 ^ 64 - 1 }
    requires before { position (H.timeline history) < 2 ^ 60 }
    requires limit { limit ≤ 4294967295 }
    ensures served { IsServedAt result told (session_on H.wants_memory (H.program history) (H.timeline history) limit) (S.remaining source.old) (S.remaining source.new) (W.contents sink.old) (W.contents sink.new) }
    ensures ran { result ≢ Outcome.Refused }
    ensures few { IfSome (S.remaining source.old) (λ script. TakesFew script (S.remaining source.new)) }
    ensures untouched { IsUntouched result source.old source.new }
    ensures counted { CountsFaults result (S.failures source.old) (S.failures source.new) (W.failures sink.old) (W.failures sink.new) }
{
    let mut session = match Session::new(alloc, history, limit) {
        Ok(session) => session,
        Err(_) => return Outcome::Unserved,
    };
    let served = serve(&mut session, source, sink);
    served_outcome(served, told)
}
