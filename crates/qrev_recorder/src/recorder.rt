//! The recorder.

ghost use Rattle.std.specs.Prelude.{◌≡◌, ◌<◌, ◌≤◌, ◌^◌, true, false, [], IfOk, IfErr, IfSome, IfNone};
ghost use Rattle.qil_semantics.specs.Timeline.{position};
ghost use Rattle.qil_streams.specs.Script.{lines_of};
ghost use Rattle.qil_commands.specs.Command.{command_of};
ghost use Rattle.qil_stops.specs.Named.{named_stops};
ghost use Rattle.qil_replies.specs.Transcript.{IsSession};
ghost use Rattle.qrev_recorder.specs.Record.{setup_of, IsBeginning, IsRecording};
ghost use Rattle.qrev_recorder.specs.Done.{IsDone, HasNoRoom, IsUnanswered, Stays, HasRunTo, HasRunBack};

use crate::debugged::Debugged;
use crate::done::{Done, LineError, done_by};
use crate::keeping::{add_line, is_line, is_quit, keep_backs, keep_steps, loaded_text, reply_text};
use qil_commands::read_command;
use qil_loading::Loaded;
use qil_semantics::Reason;
use qil_stops::{DepthEnd, Stops};
use std::alloc::{AllocError, Allocator};

/// The position from which on no line is answered. No session comes near it.
const MOST: u64 = 1 << 60;

/// The most bytes that a script may have.
const SCRIPT_LIMIT: usize = 1 << 24;

/// What a session was opened with.
#[derive(Clone, Copy)]
pub struct Opening<'l> {
    /// The bytes of the program.
    pub text: &'l [u8],
    /// The name of the function that is run, without its sigil.
    pub entry: &'l [u8],
    pub args: &'l [u64],
    /// The most moves that one run makes.
    pub limit: u64,
    /// The most moves that can be undone, if there is a bound.
    pub bound: Option<u64>,
    /// How many bytes the copies of states may take, where they are kept and no undo records. Then there is no bound.
    pub budget: Option<u64>,
}

/// What was done in a session: a script, and its transcript.
#[derive(Clone, Copy)]
pub struct Record<'r> {
    pub script: &'r [u8],
    pub transcript: &'r [u8],
}

/// A session, and what was done in it.
#[derive(Drop)]
pub struct Recorder<'c, A: Allocator, L: Debugged<A>> {
    alloc: A,
    opening: Opening<'c>,
    live: L,
    script: Vec<u8, A>,
    transcript: Vec<u8, A>,
    /// Whether memory was found for all that was to be kept.
    is_whole: bool,
    ghost bounded: { (L.state live).limit ≤ 4294967295 },
    ghost recorded: { is_whole ≡ true → ∥ IsRecording (setup_of opening) (L.state live) script.items transcript.items ∥₁ },
}

impl<'c, A: Allocator + Copy, L: Debugged<A>> Recorder<'c, A, L> {
    /// A session that was opened so and has made no move. Its transcript begins with the load lines.
    pub fn new(
        alloc: A,
        opening: Opening<'c>,
        loaded: &Loaded<'_>,
        live: L,
    ) -> Result<Self, AllocError>
    where
        L: Drop,
        requires limit { opening.limit ≤ 4294967295 }
        requires begins { IsBeginning (setup_of opening) loaded.now (L.state live) }
        ensures opening { IfOk result (λ r. r.opening ≡ opening.entry) }
        ensures live { IfOk result (λ r. r.live ≡ live) }
    {
        let text = loaded_text(alloc, &live, loaded)?;
        let transcript = Vec::from_slice(alloc, text.bytes())?;
        Ok(Recorder {
            alloc,
            opening,
            live,
            script: Vec::new(alloc),
            transcript,
            is_whole: true,
        })
    }

    /// What the session was opened with.
    pub fn opening(&self) -> Opening<'c>
        ensures { result ≡ self.now.opening }
    {
        self.opening
    }

    /// What is debugged.
    pub fn live(&self) -> &L
        ensures { result.now ≡ self.now.live }
    {
        &self.live
    }

    /// The load lines, and the answers so far.
    pub fn transcript(&self) -> &[u8]
        ensures value { result.now ≡ self.now.transcript.items }
        ensures recorded { self.now.is_whole ≡ true → ∥ IsRecording (setup_of self.now.opening) (L.state self.now.live) self.now.script.items result.now ∥₁ }
    {
        self.transcript.as_slice()
    }

    /// What was done so far, if memory was found to keep it: a script, and the transcript that it has.
    pub fn record(&self) -> Option<Record<'_>>
        ensures session { IfSome result (λ kept. ∥ IsSession A (setup_of self.now.opening) (lines_of kept.script.now) kept.transcript.now ∥₁) }
        ensures kept { IfSome result (λ kept. (kept.script.now ≡ self.now.script.items) × (kept.transcript.now ≡ self.now.transcript.items)) }
        ensures none { IfNone result (self.now.is_whole ≡ false) }
    {
        if !self.is_whole {
            return None;
        }
        Some(Record {
            script: self.script.as_slice(),
            transcript: self.transcript.as_slice(),
        })
    }

    /// Why no line of so many bytes is answered any more, if none is.
    fn refusal(&self, length: usize) -> Option<LineError>
        ensures whole { IfNone result (self.now.is_whole ≡ true) }
        ensures before { IfNone result (position (L.state self.now.live).timeline < 2 ^ 61) }
        ensures room { IfSome result (HasNoRoom (L.state self.now.live) self.now.script.items length) }
    {
        if !self.is_whole {
            return Some(LineError::OutOfMemory);
        }
        let taken = self.script.len();
        if taken >= SCRIPT_LIMIT || length >= SCRIPT_LIMIT - taken {
            return Some(LineError::Full);
        }
        if self.live.position() >= MOST {
            return Some(LineError::Full);
        }
        None
    }

    /// Answers a line, and keeps both.
    pub fn line(&mut self, line: &[u8]) -> Result<Done, LineError>
        ensures opening { self.new.opening ≡ self.old.opening }
        ensures done { IfOk result (IsDone (L.state self.old.live) (L.state self.new.live) self.old.transcript.items self.new.transcript.items (command_of line.now)) }
        ensures unanswered { IfErr result (IsUnanswered (L.state self.old.live) self.old.script.items line.now) }
        ensures stays { IfErr result (Stays self.old self.new) }
    {
        if !is_line(line) {
            return Err(LineError::Newline);
        }
        if let Some(error) = self.refusal(line.len()) {
            return Err(error);
        }
        let said = read_command(line);
        if is_quit(&said) {
            return Err(LineError::Quit);
        }
        self.is_whole = false;
        add_line(&mut self.script, line)?;
        let reply = self.live.reply(said);
        let done = done_by(&reply);
        let text = reply_text(self.alloc, &self.live, reply)?;
        self.transcript.extend_from_slice(text.bytes())?;
        self.is_whole = true;
        Ok(done)
    }

    /// Runs forward to the first place, after a move, where no more calls are open than a number says, or to a stop, the end, the
    /// limit, or where there is no memory for a move. It is kept as one `step`.
    pub fn run_to_depth(&mut self, most: usize) -> Result<DepthEnd, LineError>
        ensures opening { self.new.opening ≡ self.old.opening }
        ensures run { IfOk result (HasRunTo (L.state self.old.live) (L.state self.new.live) self.old.transcript.items self.new.transcript.items most) }
        ensures undone { IfErr result (HasNoRoom (L.state self.old.live) self.old.script.items 32) }
        ensures stays { IfErr result (Stays self.old self.new) }
    {
        if let Some(error) = self.refusal(32) {
            return Err(error);
        }
        if self.live.is_over() {
            return Ok(DepthEnd::Stopped(Reason::End));
        }
        self.is_whole = false;
        let (end, moves) = self.live.run_to_depth(most);
        if moves == 0 {
            self.is_whole = true;
            return Ok(end);
        }
        keep_steps(
            self.alloc,
            &self.live,
            moves,
            &mut self.script,
            &mut self.transcript,
        )?;
        self.is_whole = true;
        Ok(end)
    }

    /// The same backward, to a stop, the oldest state that is kept, or the limit. It is kept as one `back`.
    pub fn run_back_to_depth(&mut self, most: usize) -> Result<DepthEnd, LineError>
        ensures opening { self.new.opening ≡ self.old.opening }
        ensures run { IfOk result (HasRunBack (L.state self.old.live) (L.state self.new.live) self.old.transcript.items self.new.transcript.items (named_stops (L.state self.old.live).program (L.state self.old.live).stops.kept) most) }
        ensures undone { IfErr result (HasNoRoom (L.state self.old.live) self.old.script.items 32) }
        ensures stays { IfErr result (Stays self.old self.new) }
    {
        if let Some(error) = self.refusal(32) {
            return Err(error);
        }
        self.is_whole = false;
        let (end, moves) = self.live.run_back_to_depth(most);
        if moves == 0 {
            self.is_whole = true;
            return Ok(end);
        }
        keep_backs(
            self.alloc,
            &self.live,
            moves,
            &mut self.script,
            &mut self.transcript,
        )?;
        self.is_whole = true;
        Ok(end)
    }

    /// As `run_back_to_depth`, and no stop of the session ends it.
    pub fn run_back_past_stops(&mut self, most: usize) -> Result<DepthEnd, LineError>
        ensures opening { self.new.opening ≡ self.old.opening }
        ensures run { IfOk result (HasRunBack (L.state self.old.live) (L.state self.new.live) self.old.transcript.items self.new.transcript.items [] most) }
        ensures undone { IfErr result (HasNoRoom (L.state self.old.live) self.old.script.items 32) }
        ensures stays { IfErr result (Stays self.old self.new) }
    {
        if let Some(error) = self.refusal(32) {
            return Err(error);
        }
        let stops = match Stops::new(self.alloc) {
            Ok(stops) => stops,
            Err(_) => return Err(LineError::OutOfMemory),
        };
        self.is_whole = false;
        let (end, moves) = self.live.run_back_past(&stops, most);
        if moves == 0 {
            self.is_whole = true;
            return Ok(end);
        }
        keep_backs(
            self.alloc,
            &self.live,
            moves,
            &mut self.script,
            &mut self.transcript,
        )?;
        self.is_whole = true;
        Ok(end)
    }
}
