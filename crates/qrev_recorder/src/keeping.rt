//! What is kept of a line: the line, and its answer.

ghost use Rattle.std.specs.Prelude.{◌≡◌, ◌↔◌, ℕ, ◌∷◌, [], ◌++◌, Ok, Some, IfOk, OnOk, IsTrue};
ghost use Rattle.qil_rules.specs.Verdict.{Verdict};
ghost use Rattle.qil_commands.specs.Command.{command_of};
ghost use Rattle.qil_commands.specs.declared.command.Command.TheVariants as commands;
ghost use Rattle.qil_streams.specs.Reader.{IsLine};
ghost use Rattle.qil_loading.specs.Lines.{IsLoaded};
ghost use Rattle.qil_replies.specs.declared.reply.Reply.TheVariants as replies;
ghost use Rattle.qil_replies.specs.SessionState.{text_in};
ghost use Rattle.qil_replies.specs.Answers as answers;
ghost use Rattle.qil_replies.specs.Transcript.{load_lines};
ghost use Rattle.qrev_recorder.specs.Record.{KeepsMoves};

use crate::debugged::Debugged;
use qil_commands::{Command, Refused, read_command};
use qil_fragments::{Fragment, put_fragments};
use qil_loading::{Loaded, put_loaded_line};
use qil_replies::Reply;
use qil_streams::{Buffer, Put, PutError};
use std::alloc::{AllocError, Allocator};

/// The load lines of a session.
pub fn loaded_text<A: Allocator + Copy, L: Debugged<A>>(
    alloc: A,
    live: &L,
    loaded: &Loaded<'_>,
) -> Result<Buffer<A>, AllocError>
    ensures { (verdict : Verdict A) → IsLoaded loaded.now verdict
        → IfOk result (λ text. ⟦<Buffer<A> as Put>⟧.written text ≡ Some (load_lines verdict.program verdict.form (L.state live.now).timeline)) }
{
    let mut text = Buffer::new(alloc);
    match put_loaded_line(&mut text, loaded) {
        Ok(()) => {}
        Err(PutError) => return Err(AllocError),
    }
    match live.put_reply(&Reply::Place, &mut text) {
        Ok(()) => Ok(text),
        Err(PutError) => Err(AllocError),
    }
}

/// The text of a reply that left a session so.
pub fn reply_text<A: Allocator + Copy, L: Debugged<A>>(
    alloc: A,
    live: &L,
    reply: Reply<'_, A>,
) -> Result<Buffer<A>, AllocError>
    ensures { IfOk result (λ text. ⟦<Buffer<A> as Put>⟧.written text ≡ Some (text_in (L.state live.now) reply.entry)) }
{
    let mut text = Buffer::new(alloc);
    match live.put_reply(&reply, &mut text) {
        Ok(()) => Ok(text),
        Err(PutError) => Err(AllocError),
    }
}

/// Adds a line to a script.
pub fn add_line<A: Allocator>(script: &mut Vec<u8, A>, line: &[u8]) -> Result<(), AllocError>
    ensures { OnOk result (script.new.items ≡ script.old.items ++ (line.now ++ 10 ∷ [])) }
{
    script.extend_from_slice(line)?;
    script.extend_from_slice(b"\n")
}

/// Whether what a line says ends a script.
pub fn is_quit(said: &Result<Option<Command<'_>>, Refused>) -> bool
    ensures { result ≡ answers.is_quit said.now }
{
    match said {
        Ok(Some(Command::Quit)) => true,
        _ => false,
    }
}

/// Whether bytes are a line: there is no newline in them.
pub fn is_line(bytes: &[u8]) -> bool
    ensures { IsTrue result ↔ IsLine bytes.now }
{
    !bytes.contains(&b'\n')
}

/// Whether some bytes are a line that makes so many moves forward.
fn is_step(line: &[u8], moves: u64) -> bool
    ensures line { IsTrue result → IsLine line.now }
    ensures step { IsTrue result → command_of line.now ≡ Ok (Some (commands.Step moves)) }
{
    if !is_line(line) {
        return false;
    }
    match read_command(line) {
        Ok(Some(Command::Step(count))) => u64::from(count) == moves,
        _ => false,
    }
}

/// Whether some bytes are a line that makes so many moves back.
fn is_back(line: &[u8], moves: u64) -> bool
    ensures line { IsTrue result → IsLine line.now }
    ensures back { IsTrue result → command_of line.now ≡ Ok (Some (commands.Back moves)) }
{
    if !is_line(line) {
        return false;
    }
    match read_command(line) {
        Ok(Some(Command::Back(count))) => u64::from(count) == moves,
        _ => false,
    }
}

/// Adds a line that moved a session, and the place, which is its answer.
fn keep<A: Allocator + Copy, L: Debugged<A>>(
    alloc: A,
    live: &L,
    line: &[u8],
    script: &mut Vec<u8, A>,
    transcript: &mut Vec<u8, A>,
) -> Result<(), AllocError>
    ensures kept { OnOk result (script.new.items ≡ script.old.items ++ (line.now ++ 10 ∷ [])) }
    ensures told { OnOk result (transcript.new.items ≡ transcript.old.items ++ text_in (L.state live.now) replies.Place) }
{
    add_line(script, line)?;
    let text = reply_text(alloc, live, Reply::Place)?;
    transcript.extend_from_slice(text.bytes())
}

/// Adds moves forward that led a session where it is, as the line that makes them.
pub fn keep_steps<A: Allocator + Copy, L: Debugged<A>>(
    alloc: A,
    live: &L,
    moves: u64,
    script: &mut Vec<u8, A>,
    transcript: &mut Vec<u8, A>,
) -> Result<(), AllocError>
    ensures { OnOk result (KeepsMoves (Ok (Some (commands.Step moves))) (L.state live.now) script.old.items script.new.items transcript.old.items transcript.new.items) }
{
    let mut line = Buffer::new(alloc);
    match put_fragments(
        &mut line,
        &[Fragment::Bytes(b"step "), Fragment::Number(moves)],
    ) {
        Ok(()) => {}
        Err(PutError) => return Err(AllocError),
    }
    if !is_step(line.bytes(), moves) {
        return Err(AllocError);
    }
    keep(alloc, live, line.bytes(), script, transcript)
}

/// Adds moves back that led a session where it is, as the line that makes them.
pub fn keep_backs<A: Allocator + Copy, L: Debugged<A>>(
    alloc: A,
    live: &L,
    moves: u64,
    script: &mut Vec<u8, A>,
    transcript: &mut Vec<u8, A>,
) -> Result<(), AllocError>
    ensures { OnOk result (KeepsMoves (Ok (Some (commands.Back moves))) (L.state live.now) script.old.items script.new.items transcript.old.items transcript.new.items) }
{
    let mut line = Buffer::new(alloc);
    match put_fragments(
        &mut line,
        &[Fragment::Bytes(b"back "), Fragment::Number(moves)],
    ) {
        Ok(()) => {}
        Err(PutError) => return Err(AllocError),
    }
    if !is_back(line.bytes(), moves) {
        return Err(AllocError);
    }
    keep(alloc, live, line.bytes(), script, transcript)
}
