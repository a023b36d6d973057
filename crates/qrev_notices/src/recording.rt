//! The record of a session: the script of what was done in it, and its transcript.

ghost use Rattle.qil_streams.specs.Script.{lines_of};
ghost use Rattle.qrev_debuggee.specs.qil_replies.Transcript.{IsSession};
ghost use Rattle.qrev_debuggee.specs.qrev_recorder.Record.{setup_of};
ghost use Rattle.qrev_notices.specs.Conversation.{spoken, Tells};

use crate::port::Port;
use crate::stopped::output_event;
use crate::trouble::Trouble;
use qil_machine::Code;
use qil_streams::Sink;
use qrev_debuggee::{Debuggee, HasMachine, Opening, Record};
use qrev_requests::{BUDGET, Kept, Launch};
use qrev_views::number_text;
use std::alloc::{AllocError, Allocator};

/// The files that an adapter reads and writes.
pub trait Files<A: Allocator> {
    /// The bytes of a file, up to one more than a program may have.
    fn read(&self, name: &str) -> Option<Vec<u8, A>>;

    /// The bytes of a file, up to one more than a map of places may have, or none if it can't be read.
    fn read_map(&self, name: &str) -> Result<Option<Vec<u8, A>>, AllocError>;

    /// Where a path leads, through links.
    fn real_path(&self, name: &str) -> Option<String<A>>;

    /// Whether bytes of the input wait that weren't read so far, if that can be told.
    fn has_input(&self) -> Option<bool>;

    /// Whether a file can be written, which is made if it isn't there. What is in it stays.
    fn can_write(&self, name: &str) -> bool;

    /// Makes a file of a script, and one of its transcript, and says whether it could. Nothing else can be written: for what the
    /// session was opened with, the script has this transcript.
    fn write(
        &self,
        script_name: &str,
        transcript_name: &str,
        opening: Opening<'_>,
        kept: Record<'_>,
    ) -> bool
        requires { ∥ IsSession A (setup_of opening) (lines_of kept.script.now) kept.transcript.now ∥₁ };
}

/// Adds a number after a word.
fn add_number<A: Allocator + Copy>(
    alloc: A,
    text: &mut String<A>,
    word: &str,
    number: u64,
) -> Result<(), AllocError> {
    let number = number_text(alloc, number)?;
    text.push_str(word)?;
    text.push_str(number.as_str())
}

/// Adds the program of a launch, and the arguments of its entry.
fn add_program<A: Allocator + Copy>(
    alloc: A,
    text: &mut String<A>,
    launch: &Launch<A>,
) -> Result<(), AllocError> {
    text.push_str(launch.program.as_str())?;
    for argument in launch.args.as_slice() {
        add_number(alloc, text, " ", *argument)?;
    }
    Ok(())
}

/// Adds how the states of the run are kept, if it isn't as a run without an option keeps them.
fn add_kept<A: Allocator + Copy>(
    alloc: A,
    text: &mut String<A>,
    kept: Kept,
) -> Result<(), AllocError> {
    match (kept.budget, kept.bound) {
        (Some(budget), _) if budget == BUDGET => Ok(()),
        (Some(budget), _) => add_number(alloc, text, " --memory ", budget / 1_048_576),
        (None, Some(bound)) => add_number(alloc, text, " --history ", bound),
        (None, None) => text.push_str(" --history all"),
    }
}

/// Adds its options.
fn add_options<A: Allocator + Copy>(
    alloc: A,
    text: &mut String<A>,
    launch: &Launch<A>,
) -> Result<(), AllocError> {
    text.push_str(" --entry ")?;
    text.push_str(launch.entry.as_str())?;
    add_number(alloc, text, " --limit ", launch.limit)?;
    add_kept(alloc, text, launch.kept)
}

/// The command line that plays a record, up to the record.
fn command_text<A: Allocator + Copy>(
    alloc: A,
    launch: &Launch<A>,
) -> Result<String<A>, AllocError> {
    let mut text = String::from_str(alloc, "replay: qrev ")?;
    add_program(alloc, &mut text, launch)?;
    add_options(alloc, &mut text, launch)?;
    Ok(text)
}

/// The message about a record that was written.
fn replay_text<A: Allocator + Copy>(
    alloc: A,
    launch: &Launch<A>,
    record: &str,
) -> Result<String<A>, AllocError> {
    let mut text = command_text(alloc, launch)?;
    text.push_str(" < ")?;
    text.push_str(record)?;
    text.push_str("\n")?;
    Ok(text)
}

/// The message about one that couldn't be written.
fn unwritten_text<A: Allocator + Copy>(alloc: A, record: &str) -> Result<String<A>, AllocError> {
    let mut text = String::from_str(alloc, "record: cannot write ")?;
    text.push_str(record)?;
    text.push_str("\n")?;
    Ok(text)
}

/// The name of the file next to a record that takes the transcript.
fn transcript_name<A: Allocator + Copy>(alloc: A, record: &str) -> Result<String<A>, AllocError> {
    let mut name = String::from_str(alloc, record)?;
    name.push_str(".transcript")?;
    Ok(name)
}

/// Why a session can't be recorded where a launch asks for it.
#[derive(Clone, Copy)]
pub enum RecordFault {
    /// The file is there, and is no record.
    Other,
    Unwritable,
}

/// The words of that.
pub fn record_words<A: Allocator + Copy>(
    alloc: A,
    fault: RecordFault,
    record: &str,
) -> Result<String<A>, AllocError> {
    let front = match fault {
        RecordFault::Other => "record: not a record: ",
        RecordFault::Unwritable => "record: cannot write ",
    };
    let mut words = String::from_str(alloc, front)?;
    words.push_str(record)?;
    Ok(words)
}

/// The file that takes the record of a launch's session of a number, from 0: a restart keeps the records before it.
pub fn record_name<A: Allocator + Copy>(
    alloc: A,
    launch: &Launch<A>,
    sessions: u64,
) -> Result<Option<String<A>>, AllocError> {
    let Some(record) = &launch.record else {
        return Ok(None);
    };
    let mut name = String::from_str(alloc, record.as_str())?;
    if sessions > 0 {
        add_number(alloc, &mut name, ".", sessions.saturating_add(1))?;
    }
    Ok(Some(name))
}

/// Whether a file of this name has bytes that don't begin so.
fn is_other<A: Allocator + Copy, F: Files<A>>(
    files: &F,
    name: &str,
    beginning: &[u8],
) -> Result<bool, AllocError> {
    match files.read_map(name)? {
        Some(bytes) => Ok(!bytes.is_empty() && !bytes.as_slice().starts_with(beginning)),
        None => Ok(false),
    }
}

/// Whether a file of this name begins as a transcript does.
fn has_transcript<A: Allocator + Copy, F: Files<A>>(
    files: &F,
    name: &str,
) -> Result<bool, AllocError> {
    match files.read_map(name)? {
        Some(bytes) => Ok(bytes.as_slice().starts_with(b"loaded ")),
        None => Ok(false),
    }
}

/// Why a session can't be recorded in a file, if it can't. A file that is there has to be a record, which has its transcript beside
/// it, or empty.
pub fn record_fault<A: Allocator + Copy, F: Files<A>>(
    alloc: A,
    files: &F,
    record: &str,
) -> Result<Option<RecordFault>, AllocError> {
    let transcript = transcript_name(alloc, record)?;
    let transcript = transcript.as_str();
    let is_record = has_transcript(files, transcript)?;
    if is_other(files, transcript, b"loaded ")? || (!is_record && is_other(files, record, b"\0")?) {
        return Ok(Some(RecordFault::Other));
    }
    if files.can_write(record) && files.can_write(transcript) {
        Ok(None)
    } else {
        Ok(Some(RecordFault::Unwritable))
    }
}

/// Writes a record, and says whether it could.
fn write<'c, A: Allocator + Copy + 'c, L: HasMachine<A, Code<'c, A>>, F: Files<A>>(
    debuggee: &Debuggee<'c, A, L>,
    record: &str,
    files: &F,
) -> Result<bool, AllocError> {
    let transcript = transcript_name(debuggee.alloc, record)?;
    match debuggee.recorder.record() {
        Some(kept) => Ok(files.write(
            record,
            transcript.as_str(),
            debuggee.recorder.opening(),
            kept,
        )),
        None => Ok(false),
    }
}

/// Writes the record of a session, if one was asked for, without a message.
pub fn keep_record<'c, A: Allocator + Copy + 'c, L: HasMachine<A, Code<'c, A>>, F: Files<A>>(
    debuggee: &Debuggee<'c, A, L>,
    files: &F,
) -> Result<(), AllocError> {
    if let Some(record) = &debuggee.record {
        write(debuggee, record.as_str(), files)?;
    }
    Ok(())
}

/// Writes a record, and gives the message about it.
fn record_text<'c, A: Allocator + Copy + 'c, L: HasMachine<A, Code<'c, A>>, F: Files<A>>(
    debuggee: &Debuggee<'c, A, L>,
    launch: &Launch<A>,
    record: &str,
    files: &F,
) -> Result<String<A>, AllocError> {
    if write(debuggee, record, files)? {
        replay_text(debuggee.alloc, launch, record)
    } else {
        unwritten_text(debuggee.alloc, record)
    }
}

/// Writes the record of a session, if one was asked for, with the message that says how to play it.
pub fn write_record<
    'c,
    A: Allocator + Copy + 'c,
    L: HasMachine<A, Code<'c, A>>,
    F: Files<A>,
    W: Sink,
>(
    debuggee: &Debuggee<'c, A, L>,
    launch: &Launch<A>,
    files: &F,
    port: &mut Port<A, W>,
) -> Result<(), Trouble>
    ensures { Tells result (spoken W.contents port.old) (spoken W.contents port.new) }
{
    let Some(record) = &debuggee.record else {
        return Ok(());
    };
    let record = record.as_str();
    let alloc = debuggee.alloc;
    let text = record_text(debuggee, launch, record, files)?;
    port.tell(output_event(alloc, "console", text.as_str())?)
}
