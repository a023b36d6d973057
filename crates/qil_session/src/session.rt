//! A session: a history, which commands move along, and stops.

ghost use Rattle.std.specs.Prelude.{◌≡◌, ◌+◌, ◌-◌, ◌^◌, ◌<◌, ◌≤◌, [], IfOk, IfErr, Ok, Some};
ghost use Rattle.qil_semantics.specs.Timeline.{position};
ghost use Rattle.qil_streams.specs.Device.{Counts, HasPut};
ghost use Rattle.qil_replies.specs.qil_render.Texts.{place_line};
ghost use Rattle.qil_replies.specs.SessionState.{text_in};
ghost use Rattle.qil_replies.specs.Answers.{Answers, Replies};
ghost use Rattle.qil_session.specs.Kept.{session_state};
ghost use Rattle.qil_stops.specs.Named.{named_stops};
ghost use Rattle.qil_stops.specs.Depths.{RunsToDepth, RunsBackToDepth};

use crate::accessing::accesses;
use crate::counting::counts;
use crate::moves::{answer_continue, answer_reverse, back, step};
use crate::poking::{poke, set};
use crate::showing::show_bytes;
use crate::spanning::frames;
use crate::stopping::{add_break, delete, watch_bytes, watch_temp};
use qil_code::Code;
use qil_commands::{Command, Refused};
use qil_replies::{CommandRefusal, Reply, code_of, put_place, put_reply};
use qil_stops::{DepthEnd, Stops};
use qil_streams::{Put, PutError};
use qil_undo_log::{DepthRuns, Runs};
use std::alloc::{AllocError, Allocator};
use std::marker::Model;

/// Whether more lines are read.
#[derive(Clone, Copy)]
pub enum Next {
    Go,
    Quit,
}

/// A history, its stops, and how many moves `continue` and `reverse` make at most.
#[derive(Drop)]
pub struct Session<A: Allocator, H> {
    history: H,
    stops: Stops<A>,
    limit: u64,
    alloc: A,
}

impl<A: Allocator, H> Model for Session<A, H> {
    ghost use Rattle.qil_session.specs.Kept.{Kept};

    ghost Value = { Kept H };

    ghost view = { λ s. record { history = s.history; stops = s.stops; limit = s.limit } };
}

impl<A: Allocator + Copy, H: Drop> Session<A, H> {
    /// A session without stops. Where there is no memory for their room, the history is handed back.
    pub fn new(alloc: A, history: H, limit: u64) -> Result<Session<A, H>, (H, AllocError)>
        ensures ok { IfOk result (λ s. s ≡ record { history = history; stops = record { given = 0; kept = [] }; limit = limit }) }
        ensures err { IfErr result (λ e. e.0 ≡ history) }
    {
        match Stops::new(alloc) {
            Ok(stops) => Ok(Session {
                history,
                stops,
                limit,
                alloc,
            }),
            Err(refused) => Err((history, refused)),
        }
    }
}

impl<A: Allocator, H> Session<A, H> {
    /// The history that commands move along.
    pub fn history(&self) -> &H
        ensures { result.now ≡ self.now.history }
    {
        &self.history
    }

    /// The stops.
    pub fn stops(&self) -> &Stops<A>
        ensures { result.now ≡ self.now.stops }
    {
        &self.stops
    }

    /// How many moves `continue` and `reverse` make at most.
    pub fn limit(&self) -> u64
        ensures { result ≡ self.now.limit }
    {
        self.limit
    }
}

impl<'c, A: Allocator + Copy + 'c, H: Runs<A, Code<'c, A>>> Session<A, H> {
    /// Puts the line of the place where the session stands.
    pub fn put_now<'s, P: Put>(&'s self, out: &'s mut P) -> Result<(), PutError>
        requires { P.stops out.old < 2 ^ 64 - 1 }
        ensures { HasPut P.written P.stops P.device result out.old out.new (place_line (session_state H.wants_memory H.program H.timeline self.now).timeline) }
    {
        let machine = self.history.machine();
        put_place(out, self.history.position(), machine)
    }

    /// Replies to a command.
    fn reply_command<'t>(&mut self, command: Command<'t>) -> Reply<'t, A>
        requires before { position (H.timeline self.old.history) < 2 ^ 61 }
        requires limit { self.old.limit ≤ 4294967295 }
        ensures near { position (H.timeline self.new.history) < position (H.timeline self.old.history) + 2 ^ 32 }
        ensures limit { self.new.limit ≡ self.old.limit }
        ensures replied { Replies (session_state H.wants_memory H.program H.timeline self.old) (session_state H.wants_memory H.program H.timeline self.new) (Ok (Some command.entry)) result }
    {
        match command {
            Command::Step(count) => step(&mut self.history, count),
            Command::Accesses(moves, address, count) => {
                accesses(&mut self.history, self.alloc, moves, address, count)
            }
            Command::Counts(moves) => counts(&mut self.history, self.alloc, moves),
            Command::Frames(moves, least) => { frames(&mut self.history, self.alloc, moves, least) }
            Command::Back(count) => back(&mut self.history, count),
            Command::Continue => answer_continue(&mut self.history, &self.stops, self.limit),
            Command::Reverse => answer_reverse(&mut self.history, &self.stops, self.limit),
            Command::Set(name, value) => set(&mut self.history, name.bytes(), value),
            Command::Poke(width, address, value) => {
                poke(&mut self.history, width, address, value)
            }
            Command::Break(func, at) => {
                let code = code_of(self.history.machine());
                add_break(&mut self.stops, code, func.bytes(), at)
            }
            Command::WatchBytes(width, address) => {
                let code = code_of(self.history.machine());
                watch_bytes(&mut self.stops, code, width, address)
            }
            Command::WatchTemp(func, name) => {
                let code = code_of(self.history.machine());
                watch_temp(&mut self.stops, code, func.bytes(), name.bytes())
            }
            Command::Delete(number) => delete(&mut self.stops, number),
            Command::Stops => Reply::Stops,
            Command::Print(name) => Reply::Temporary(name),
            Command::Temps => Reply::Temporaries,
            Command::Mem(address, count) => {
                show_bytes(code_of(self.history.machine()), &address, count)
            }
            Command::Where => Reply::Frames,
            Command::List => Reply::Block,
            Command::Out => Reply::Output,
            Command::Quit => Reply::Nothing,
        }
    }

    /// Replies to what a line says. `quit` is replied nothing: that the session ends is for the caller to see.
    pub fn reply<'t>(&mut self, said: Result<Option<Command<'t>>, Refused>) -> Reply<'t, A>
        requires before { position (H.timeline self.old.history) < 2 ^ 61 }
        requires limit { self.old.limit ≤ 4294967295 }
        ensures near { position (H.timeline self.new.history) < position (H.timeline self.old.history) + 2 ^ 32 }
        ensures limit { self.new.limit ≡ self.old.limit }
        ensures replied { Replies (session_state H.wants_memory H.program H.timeline self.old) (session_state H.wants_memory H.program H.timeline self.new) said.entry result }
    {
        match said {
            Ok(Some(command)) => self.reply_command(command),
            Ok(None) => Reply::Nothing,
            Err(refused) => Reply::Refused(CommandRefusal::Line(refused)),
        }
    }

    /// Puts the text of a reply that left the session so.
    ///
    /// # Errors
    ///
    /// `PutError` where `out` stopped. Then a prefix of the text was put.
    pub fn put_reply<P: Put>(&self, reply: &Reply<'_, A>, out: &mut P) -> Result<(), PutError>
        requires { P.stops out.old < 2 ^ 64 - 1 }
        ensures { HasPut P.written P.stops P.device result out.old out.new (text_in (session_state H.wants_memory H.program H.timeline self.now) reply.now) }
    {
        let position = self.history.position();
        let machine = self.history.machine();
        let stops = self.stops.list();
        put_reply(out, position, machine, stops, reply)
    }

    /// Answers what a line says. Where the writing stops the session has moved all the same.
    pub fn answer<P: Put>(
        &mut self,
        said: Result<Option<Command<'_>>, Refused>,
        out: &mut P,
    ) -> Result<(), PutError>
        requires stops { P.stops out.old < 2 ^ 64 - 1 }
        requires before { position (H.timeline self.old.history) < 2 ^ 61 }
        requires limit { self.old.limit ≤ 4294967295 }
        ensures near { position (H.timeline self.new.history) < position (H.timeline self.old.history) + 2 ^ 32 }
        ensures limit { self.new.limit ≡ self.old.limit }
        ensures answered { Answers (session_state H.wants_memory H.program H.timeline self.old) (session_state H.wants_memory H.program H.timeline self.new) said.entry result (P.written out.old) (P.written out.new) }
        ensures counted { Counts result (P.stops out.old) (P.stops out.new) }
        ensures device { P.device out.new ≡ P.device out.old }
    {
        let reply = self.reply(said);
        self.put_reply(&reply, out)
    }
}

/// Runs over calls. No command makes one: a front end keeps it as the `step N` or `back N` that makes the same moves.
impl<'c, A: Allocator + Copy + 'c, H: DepthRuns<A, Code<'c, A>>> Session<A, H> {
    /// Moves forward to the first place, after a move, where at most `most` calls are open, or to a stop, the end, the limit, or
    /// where there is no memory for a move. Gives why, and how many moves were made.
    pub fn run_to_depth(&mut self, most: usize) -> (DepthEnd, u64)
        requires before { position (H.timeline self.old.history) < 2 ^ 61 }
        requires limit { self.old.limit ≤ 4294967295 }
        ensures near { position (H.timeline self.new.history) < position (H.timeline self.old.history) + 2 ^ 32 }
        ensures limit { self.new.limit ≡ self.old.limit }
        ensures stops { self.new.stops ≡ self.old.stops }
        ensures program { H.program self.new.history ≡ H.program self.old.history }
        ensures run { RunsToDepth (H.program self.old.history) (named_stops (H.program self.old.history) self.old.stops.kept) most self.old.limit
            (H.timeline self.old.history) result.0 result.1 (H.timeline self.new.history) }
    {
        self.history.run_to_depth(&self.stops, most, self.limit)
    }

    /// The same backward: to a stop, the oldest state that is kept, or the limit. It takes no memory.
    pub fn run_back_to_depth(&mut self, most: usize) -> (DepthEnd, u64)
        ensures limit { self.new.limit ≡ self.old.limit }
        ensures stops { self.new.stops ≡ self.old.stops }
        ensures program { H.program self.new.history ≡ H.program self.old.history }
        ensures run { RunsBackToDepth (named_stops (H.program self.old.history) self.old.stops.kept) most self.old.limit
            (H.timeline self.old.history) result.0 result.1 (H.timeline self.new.history) }
    {
        self.history
            .run_back_to_depth(&self.stops, most, self.limit)
    }

    /// As `run_back_to_depth`, with these stops in place of the session's.
    pub fn run_back_past(&mut self, stops: &Stops<A>, most: usize) -> (DepthEnd, u64)
        ensures limit { self.new.limit ≡ self.old.limit }
        ensures stops { self.new.stops ≡ self.old.stops }
        ensures program { H.program self.new.history ≡ H.program self.old.history }
        ensures run { RunsBackToDepth (named_stops (H.program self.old.history) stops.now.kept) most self.old.limit
            (H.timeline self.old.history) result.0 result.1 (H.timeline self.new.history) }
    {
        self.history.run_back_to_depth(stops, most, self.limit)
    }
}
