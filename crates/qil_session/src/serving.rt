//! A script is served: its lines are read and answered one after the other.

ghost use Rattle.std.specs.Prelude.{◌≡◌, ℕ, ◌+◌, ◌-◌, ◌^◌, ◌<◌, ◌≤◌, ◌↔◌, ◌⊎◌, List, Err, IfSome};
ghost use Rattle.std.specs.Io.KnownBytes.{Appends};
ghost use Rattle.qil_semantics.specs.Timeline.{position};
ghost use Rattle.qil_session.specs.Kept.{session_state};
ghost use Rattle.qil_session.specs.Serve.{AreServed, IsServed, IsTooLong, CountsServe, TakesFew};

use crate::{Next, Runs, Session, answer_line};
use qil_code::Code;
use qil_streams::{LineEnd, LineReader, Outlet, Put, Sink, Source};
use std::alloc::Allocator;

/// Why a script was not answered to its end.
#[derive(Clone, Copy)]
pub enum IoFault {
    /// The source failed.
    Read,
    /// The sink failed.
    Write,
    /// The script has more than 2^24 bytes.
    TooLong,
}

/// Answers the lines of a script in order, up to a `quit`. No read is made after the end or after a `quit`.
pub fn serve_lines<'c, A: Allocator + Copy + 'c, H: Runs<A, Code<'c, A>>, S: Source, P: Put>(
    session: &mut Session<A, H>,
    source: &mut S,
    out: &mut P,
) -> Result<(), IoFault>
    requires reads { S.failures source.old < 2 ^ 64 - 1 }
    requires writes { P.stops out.old < 2 ^ 64 - 1 }
    requires before { position (H.timeline session.old.history) < 2 ^ 60 }
    requires limit { session.old.limit ≤ 4294967295 }
    ensures served { IfSome (S.remaining source.old) (λ script. (text : List ℕ)
        × Appends (P.written out.old) (P.written out.new) text
        × IsServed result (session_state H.wants_memory H.program H.timeline session.old) script (S.remaining source.new) text (session_state H.wants_memory H.program H.timeline session.new)) }
    ensures few { IfSome (S.remaining source.old) (λ script. TakesFew script (S.remaining source.new)) }
    ensures counted { CountsServe result (S.failures source.old) (S.failures source.new) (P.stops out.old) (P.stops out.new) }
    ensures near { position (H.timeline session.new.history) ≤ position (H.timeline session.old.history) + 2 ^ 57 }
    ensures limit { session.new.limit ≡ session.old.limit }
    ensures device { P.device out.new ≡ P.device out.old }
{
    let mut reader = LineReader::new();
    loop {
        let Ok(end) = reader.next(source) else {
            return Err(IoFault::Read);
        };
        match end {
            LineEnd::End => return Ok(()),
            LineEnd::TooLong => return Err(IoFault::TooLong),
            LineEnd::Newline => match answer_line(session, reader.kept.as_slice(), out) {
                Ok(Next::Go) => {}
                Ok(Next::Quit) => return Ok(()),
                Err(_) => return Err(IoFault::Write),
            },
            LineEnd::Last => match answer_line(session, reader.kept.as_slice(), out) {
                Ok(Next::Go) => return Ok(()),
                Ok(Next::Quit) => return Ok(()),
                Err(_) => return Err(IoFault::Write),
            },
        }
    }
}

/// Answers the lines of a script in order, up to a `quit`: each answer is written before the next line is looked at. No read
/// is made after the end or after a `quit`.
///
/// # Errors
///
/// `Read` and `Write` where the device failed, and `TooLong` where the script passes 2^24 bytes. The session is where the
/// lines before moved it, and where a write failed its line moved it all the same.
pub fn serve<'c, A: Allocator + Copy + 'c, H: Runs<A, Code<'c, A>>, S: Source, W: Sink>(
    session: &mut Session<A, H>,
    source: &mut S,
    sink: &mut W,
) -> Result<(), IoFault>
    requires reads { S.failures source.old < 2 ^ 64 - 1 }
    requires writes { W.failures sink.old < 2 ^ 64 - 1 }
    requires before { position (H.timeline session.old.history) < 2 ^ 60 }
    requires limit { session.old.limit ≤ 4294967295 }
    ensures served { IfSome (S.remaining source.old) (λ script. (text : List ℕ)
        × Appends (W.contents sink.old) (W.contents sink.new) text
        × IsServed result (session_state H.wants_memory H.program H.timeline session.old) script (S.remaining source.new) text (session_state H.wants_memory H.program H.timeline session.new)) }
    ensures few { IfSome (S.remaining source.old) (λ script. TakesFew script (S.remaining source.new)) }
    ensures read_fault { (result ≡ Err IoFault.Read) ↔ (S.failures source.old < S.failures source.new) }
    ensures write_fault { (result ≡ Err IoFault.Write) ↔ (W.failures sink.old < W.failures sink.new) }
    ensures counted { CountsServe result (S.failures source.old) (S.failures source.new) (W.failures sink.old) (W.failures sink.new) }
    ensures near { position (H.timeline session.new.history) ≤ position (H.timeline session.old.history) + 2 ^ 57 }
    ensures limit { session.new.limit ≡ session.old.limit }
{
    let mut out = Outlet { sink };
    let served = serve_lines(session, source, &mut out);
    let Outlet { sink: _ } = out;
    served
}

/// Serves one script and then another, as a debugger does that reads a file of commands before its user's: the second goes
/// on where the first left the session. A `quit` ends its own script alone.
///
/// # Errors
///
/// Those of `serve`. Where the first script was not answered to its end, nothing is read of the second.
pub fn serve_in_turn<
    'c,
    A: Allocator + Copy + 'c,
    H: Runs<A, Code<'c, A>>,
    S: Source,
    T: Source,
    W: Sink,
>(session: &mut Session<A, H>, first: &mut S, second: &mut T, sink: &mut W) -> Result<(), IoFault>
    requires first { S.failures first.old < 2 ^ 64 - 1 }
    requires second { T.failures second.old < 2 ^ 64 - 1 }
    requires writes { W.failures sink.old < 2 ^ 64 - 1 }
    requires before { position (H.timeline session.old.history) < 2 ^ 59 }
    requires limit { session.old.limit ≤ 4294967295 }
    ensures served { IfSome (S.remaining first.old) (λ one. IfSome (T.remaining second.old) (λ two. (text : List ℕ)
        × Appends (W.contents sink.old) (W.contents sink.new) text
        × AreServed result (session_state H.wants_memory H.program H.timeline session.old) one two (S.remaining first.new) (T.remaining second.new) text (session_state H.wants_memory H.program H.timeline session.new))) }
    ensures unread { S.failures first.old < S.failures first.new → second.new ≡ second.old }
    ensures read_fault { (result ≡ Err IoFault.Read) ↔ ((S.failures first.old < S.failures first.new) ⊎ (T.failures second.old < T.failures second.new)) }
    ensures write_fault { (result ≡ Err IoFault.Write) ↔ (W.failures sink.old < W.failures sink.new) }
    ensures too_long { result ≡ Err IoFault.TooLong → IfSome (S.remaining first.old) (λ one. IfSome (T.remaining second.old) (λ two. IsTooLong one ⊎ IsTooLong two)) }
    ensures near { position (H.timeline session.new.history) ≤ position (H.timeline session.old.history) + 2 ^ 58 }
    ensures limit { session.new.limit ≡ session.old.limit }
{
    serve(session, first, sink)?;
    serve(session, second, sink)
}
