//! The answer to a line of a script.

ghost use Rattle.std.specs.Prelude.{◌≡◌, ◌+◌, ◌-◌, ◌^◌, ◌<◌, ◌≤◌};
ghost use Rattle.qil_commands.specs.Command.{command_of};
ghost use Rattle.qil_semantics.specs.Timeline.{position};
ghost use Rattle.qil_streams.specs.Device.{Counts};
ghost use Rattle.qil_session.specs.AnsweredLine.{AnswersLine};
ghost use Rattle.qil_session.specs.Kept.{session_state};

use crate::session::{Next, Session};
use qil_code::Code;
use qil_commands::{Command, read_command};
use qil_streams::{Put, PutError};
use qil_undo_log::Runs;
use std::alloc::Allocator;

/// Answers a line, of which the prefix is kept: a `quit` is no more than reported.
pub fn answer_line<'c, A: Allocator + Copy + 'c, H: Runs<A, Code<'c, A>>, P: Put>(
    session: &mut Session<A, H>,
    kept: &[u8],
    out: &mut P,
) -> Result<Next, PutError>
    requires stops { P.stops out.old < 2 ^ 64 - 1 }
    requires before { position (H.timeline session.old.history) < 2 ^ 61 }
    requires limit { session.old.limit ≤ 4294967295 }
    ensures near { position (H.timeline session.new.history) < position (H.timeline session.old.history) + 2 ^ 32 }
    ensures limit { session.new.limit ≡ session.old.limit }
    ensures answered { AnswersLine result (session_state H.wants_memory H.program H.timeline session.old) (session_state H.wants_memory H.program H.timeline session.new) (command_of kept.now) (P.written out.old) (P.written out.new) }
    ensures counted { Counts result (P.stops out.old) (P.stops out.new) }
    ensures device { P.device out.new ≡ P.device out.old }
{
    let said = read_command(kept);
    if matches!(said, Ok(Some(Command::Quit))) {
        return Ok(Next::Quit);
    }
    match session.answer(said, out) {
        Ok(()) => Ok(Next::Go),
        Err(PutError) => Err(PutError),
    }
}
