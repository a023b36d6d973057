//! What an editor drives: a session that is recorded, and what the editor was told of it.

ghost use Rattle.std.specs.Prelude.{◌≡◌, [], length, IfOk, IfErr};
ghost use Rattle.qil_commands.specs.Command.{command_of};
ghost use Rattle.qil_machine.specs.qil_state.State.{state_of};
ghost use Rattle.qil_semantics.specs.Timeline.{position, oldest};
ghost use Rattle.qrev_recorder.specs.qil_replies.qil_stops.Depths.{depth};
ghost use Rattle.qrev_debuggee.specs.Moves.{Lined, RanTo, RanBack, RanBackTo, LineFails, RunFails};

use crate::client::Client;
use crate::failure::{Cause, Failure};
use crate::rules::StopRule;
use qil_fragments::{Fragment, put_fragments};
use qil_machine::Code;
use qil_semantics::Reason;
use qil_streams::Buffer;
use qil_tree::Program;
use qrev_map::Names;
use qrev_recorder::{Debugged, DepthEnd, Done, HasMachine, LineError, Recorder};
use qrev_views::{Readers, Shown, SourceMap, code_of};
use std::alloc::Allocator;

/// The kinds of stops that an editor replaces by one request each.
#[derive(Clone, Copy, PartialEq, Eq)]
pub enum StopFamily {
    /// At lines of the text.
    Text,
    /// At lines of a source, which is known by the first line of the text that came from it.
    Source(u32),
    Function,
    Data,
}

/// A stop that a request made.
#[derive(Clone, Copy)]
pub struct RequestedStop {
    pub family: StopFamily,
    pub number: u64,
    /// The number by which the editor knows the breakpoint that it belongs to: one at a line may be several stops.
    pub id: u64,
    /// Where the session's answer stands in the transcript that says what it is.
    pub answer: (usize, usize),
}

/// A session that an editor drives.
///
/// Its lifetime is that of its machine, too: what reads that through it is dear to check where the two are told apart.
#[derive(Drop)]
pub struct Debuggee<'c, A: Allocator, L: Debugged<A>> {
    pub alloc: A,
    pub recorder: Recorder<'c, A, L>,
    pub shown: Shown<'c>,
    /// Where the text came from, if a map says so.
    pub source_map: Option<SourceMap<A>>,
    /// The output that the editor was told.
    pub output: Vec<u8, A>,
    /// The stops that requests made and didn't take away, the lowest number first.
    pub stops: Vec<RequestedStop, A>,
    /// What some of the breakpoints ask for besides their places.
    pub rules: Vec<StopRule<A>, A>,
    /// The breakpoints at which the run stands, by the numbers that the editor knows.
    pub hit: Vec<u64, A>,
    /// What the names of the text stand for.
    pub names: Names<A>,
    pub client: Client,
    /// The file that takes the record.
    pub record: Option<String<A>>,
    /// The file that a request is about, where the path of that leads.
    pub asked_path: Option<String<A>>,
    /// The file of the program, where its path leads.
    pub real_path: Option<String<A>>,
}

impl From<LineError> for Failure {
    ghost use Rattle.std.specs.Prelude.{◌≡◌};
    ghost use Rattle.qrev_debuggee.specs.Moves.{failure_of};

    ghost from_gives = { λ error failure. failure ≡ failure_of error };

    fn from(error: LineError) -> Self {
        match error {
            LineError::Newline => Failure::Because(Cause::NewlineInValue),
            LineError::Quit => Failure::Because(Cause::QuitInConsole),
            LineError::Full => Failure::Because(Cause::ScriptFull),
            LineError::OutOfMemory => Failure::OutOfMemory,
        }
    }
}

/// How many calls are open in the state of a machine.
fn depth_of<'c, A: Allocator + Copy + 'c, M: Readers<A, Code<'c, A>>>(machine: &M) -> usize
    ensures { result ≡ length (state_of (M.whole machine.now)).frames }
{
    machine.depth()
}

impl<'c, A: Allocator + Copy + 'c, L: HasMachine<A, Code<'c, A>>> Debuggee<'c, A, L> {
    /// The session, as what its machine is read from.
    pub fn machine(&self) -> &L
        ensures now { state_of (L.whole result.now) ≡ (L.state self.now.recorder.live).timeline.now }
        ensures program { (L.whole result.now).program ≡ (L.state self.now.recorder.live).program }
    {
        let live = self.recorder.live();
        live.is_read();
        live
    }

    /// The tree of its program.
    pub fn program(&self) -> &'c Program<'c, A>
        ensures { result.now ≡ (L.state self.now.recorder.live).program }
    {
        code_of(self.machine()).program()
    }

    /// How many calls are open.
    pub fn depth(&self) -> usize
        ensures { result ≡ depth (L.state self.now.recorder.live).timeline }
    {
        depth_of(self.machine())
    }

    pub fn position(&self) -> u64
        ensures { result ≡ position (L.state self.now.recorder.live).timeline }
    {
        self.recorder.live().position()
    }

    /// The position of the oldest state that is kept.
    pub fn oldest(&self) -> u64
        ensures { result ≡ oldest (L.state self.now.recorder.live).timeline }
    {
        self.recorder.live().oldest()
    }

    /// The first dead address of the stack.
    pub fn top(&self) -> u64
        ensures { result ≡ (L.state self.now.recorder.live).timeline.now.top }
    {
        self.recorder.live().top()
    }

    /// How many bytes the transcript has.
    pub fn answered(&self) -> usize
        ensures { result ≡ length self.now.recorder.transcript.items }
    {
        self.recorder.transcript().len()
    }

    /// The answers from an offset in the transcript on, without the last newline.
    pub fn answers_from(&self, from: usize) -> &[u8] {
        let transcript = self.recorder.transcript();
        let (_, answers) = transcript.split_at(from.min(transcript.len()));
        match answers.split_last() {
            Some((b'\n', text)) => text,
            _ => answers,
        }
    }

    /// A part of the transcript.
    pub fn told(&self, (from, to): (usize, usize)) -> &[u8] {
        let transcript = self.recorder.transcript();
        let to = to.min(transcript.len());
        let from = from.min(to);
        &transcript[from..to]
    }

    /// Answers a line.
    pub fn line(&mut self, line: &[u8]) -> Result<Done, Failure>
        ensures done { IfOk result (Lined (record { session = L.state self.old.recorder.live; script = self.old.recorder.script.items; transcript = self.old.recorder.transcript.items }) (record { session = L.state self.new.recorder.live; script = self.new.recorder.script.items; transcript = self.new.recorder.transcript.items }) (command_of line.now)) }
        ensures failed { IfErr result (LineFails (record { session = L.state self.old.recorder.live; script = self.old.recorder.script.items; transcript = self.old.recorder.transcript.items }) (record { session = L.state self.new.recorder.live; script = self.new.recorder.script.items; transcript = self.new.recorder.transcript.items }) line.now) }
    {
        Ok(self.recorder.line(line)?)
    }

    /// Answers a line of fragments. One that is refused is a failure, and so is one for whose move there is no memory.
    pub fn line_of(&mut self, fragments: &[Fragment<'_>]) -> Result<Done, Failure> {
        let mut line = Buffer::new(self.alloc);
        if put_fragments(&mut line, fragments).is_err() {
            return Err(Failure::OutOfMemory);
        }
        let from = self.answered();
        match self.line(line.bytes())? {
            Done::Refused(_) => Err(Failure::Answered(from)),
            Done::Stopped(Reason::Memory) => Err(Failure::Because(Cause::NoMemory)),
            done => Ok(done),
        }
    }

    /// Runs forward until no more calls are open than a number says, or to a stop.
    pub fn run_to_depth(&mut self, most: usize) -> Result<DepthEnd, Failure>
        ensures run { IfOk result (RanTo (record { session = L.state self.old.recorder.live; script = self.old.recorder.script.items; transcript = self.old.recorder.transcript.items }) (record { session = L.state self.new.recorder.live; script = self.new.recorder.script.items; transcript = self.new.recorder.transcript.items }) most) }
        ensures failed { IfErr result (RunFails (record { session = L.state self.old.recorder.live; script = self.old.recorder.script.items; transcript = self.old.recorder.transcript.items }) (record { session = L.state self.new.recorder.live; script = self.new.recorder.script.items; transcript = self.new.recorder.transcript.items })) }
    {
        Ok(self.recorder.run_to_depth(most)?)
    }

    /// The same backward.
    pub fn run_back_to_depth(&mut self, most: usize) -> Result<DepthEnd, Failure>
        ensures run { IfOk result (RanBack (record { session = L.state self.old.recorder.live; script = self.old.recorder.script.items; transcript = self.old.recorder.transcript.items }) (record { session = L.state self.new.recorder.live; script = self.new.recorder.script.items; transcript = self.new.recorder.transcript.items }) most) }
        ensures failed { IfErr result (RunFails (record { session = L.state self.old.recorder.live; script = self.old.recorder.script.items; transcript = self.old.recorder.transcript.items }) (record { session = L.state self.new.recorder.live; script = self.new.recorder.script.items; transcript = self.new.recorder.transcript.items })) }
    {
        Ok(self.recorder.run_back_to_depth(most)?)
    }

    /// As `run_back_to_depth`, and no stop ends it.
    pub fn run_back_past_stops(&mut self, most: usize) -> Result<DepthEnd, Failure>
        ensures run { IfOk result (RanBackTo (record { session = L.state self.old.recorder.live; script = self.old.recorder.script.items; transcript = self.old.recorder.transcript.items }) (record { session = L.state self.new.recorder.live; script = self.new.recorder.script.items; transcript = self.new.recorder.transcript.items }) [] most) }
        ensures failed { IfErr result (RunFails (record { session = L.state self.old.recorder.live; script = self.old.recorder.script.items; transcript = self.old.recorder.transcript.items }) (record { session = L.state self.new.recorder.live; script = self.new.recorder.script.items; transcript = self.new.recorder.transcript.items })) }
    {
        Ok(self.recorder.run_back_past_stops(most)?)
    }
}
