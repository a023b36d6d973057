//! Lines that requests make of fragments.

ghost use Rattle.std.specs.Prelude.{◌≡◌, true, IfErr, IfOk};
ghost use Rattle.std.specs.List.{flat_map};
ghost use Rattle.qil_fragments.specs.Texts.{fragment_text};
ghost use Rattle.qrev_inspection.specs.Taken.{IsNotTaken, IsToldOf, Takes, is_taken};

use qil_fragments::{Fragment, put_fragments};
use qil_machine::Code;
use qil_semantics::Reason;
use qil_streams::Buffer;
use qrev_debuggee::{Cause, Debuggee, Done, Failure, HasMachine};
use std::alloc::Allocator;

/// What a line did, if it is taken. The answer to it begins at an offset of the transcript.
fn taken(done: Done, from: usize) -> Result<Done, Failure>
    ensures done { IfOk result (λ same. (same ≡ done) × (is_taken done ≡ true)) }
    ensures failed { IfErr result (IsToldOf done from) }
{
    match done {
        Done::Refused(_) => Err(Failure::Answered(from)),
        Done::Stopped(Reason::Memory) => Err(Failure::Because(Cause::NoMemory)),
        done => Ok(done),
    }
}

/// Answers a line of fragments. One that is refused is a failure, and so is one for whose move there is no memory.
///
/// `Debuggee::line_of` does the same without clauses. With them it would be dearer to check in each crate above it, and breakpoints,
/// which call it too, have none that need them.
pub fn answer_line<'c, A: Allocator + Copy + 'c, L: HasMachine<A, Code<'c, A>>>(
    debuggee: &mut Debuggee<'c, A, L>,
    fragments: &[Fragment<'_>],
) -> Result<Done, Failure>
    ensures done { IfOk result (Takes (record { session = L.state debuggee.old.recorder.live; script = debuggee.old.recorder.script.items; transcript = debuggee.old.recorder.transcript.items }) (record { session = L.state debuggee.new.recorder.live; script = debuggee.new.recorder.script.items; transcript = debuggee.new.recorder.transcript.items }) (flat_map fragment_text fragments.now)) }
    ensures failed { IfErr result (IsNotTaken (record { session = L.state debuggee.old.recorder.live; script = debuggee.old.recorder.script.items; transcript = debuggee.old.recorder.transcript.items }) (record { session = L.state debuggee.new.recorder.live; script = debuggee.new.recorder.script.items; transcript = debuggee.new.recorder.transcript.items }) (flat_map fragment_text fragments.now)) }
{
    let mut line = Buffer::new(debuggee.alloc);
    if put_fragments(&mut line, fragments).is_err() {
        return Err(Failure::OutOfMemory);
    }
    let from = debuggee.answered();
    let done = debuggee.line(line.bytes())?;
    taken(done, from)
}
