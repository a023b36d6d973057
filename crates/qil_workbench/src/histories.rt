//! The same moves over two histories side by side: over the undo records of all moves, and over clones.

ghost use Rattle.std.specs.Prelude.{◌≡◌};

use crate::answer::Answer;
use crate::asked::{Asked, Came, Globals, ask_clones, ask_undo_log, read_line};
use crate::started::started;
use qil_code::Code;
use qil_history::History;
use qil_machine::{Machine, UndoRecord};
use qil_undo_log::{Snapshots, UndoLog};
use std::alloc::Allocator;

/// Whether two histories hold the same: the first as many records as the other moves, and a machine that is equal in all that
/// it holds.
fn are_same<'c, A: Allocator + Copy + 'c>(
    records: &UndoLog<'c, A>,
    clones: &Snapshots<'c, A>,
) -> bool
    requires { records.now.machine.program ≡ clones.now.machine.program }
{
    let (machine, records): (&Machine<'_, A>, &[UndoRecord<A>]) = records.parts();
    records.len() as u64 == clones.position() && machine.same(clones.machine())
}

/// Asks both histories for a move: where they stand after it and what came of it, if that is the same of both, and they
/// hold the same; otherwise where they stood before.
fn ask_both<'c, A: Allocator + Copy + 'c>(
    records: &mut UndoLog<'c, A>,
    clones: &mut Snapshots<'c, A>,
    asked: Asked<'_>,
) -> Result<(u64, Came), u64>
    requires { records.old.machine.program ≡ clones.old.machine.program }
    ensures { records.new.machine.program ≡ clones.new.machine.program }
{
    let position = records.position();
    let came = ask_undo_log(records, asked);
    let other = ask_clones(clones, asked);
    if came.words() == other.words() && are_same(records, clones) {
        Ok((records.position(), came))
    } else {
        Err(position)
    }
}

/// Tells where the histories stand, and why there was no move; what is wrong, if it was not written.
fn untold<R: Print>(rt: &R, position: u64, came: Came) -> Option<Answer> {
    let words = came.words();
    match println!(rt; "#{position}{words}") {
        Ok(()) => None,
        Err(_) => Some(Answer::Fault),
    }
}

/// Writes the outcome of a move; gives what is wrong, if something is.
fn wrong<R: Print>(rt: &R, came: Result<(u64, Came), u64>) -> Option<Answer> {
    match came {
        Ok((position, came)) => untold(rt, position, came),
        Err(position) => Some(Answer::DiffersAt(position)),
    }
}

/// Makes the move of a line in both histories, and writes where they stand behind it; gives what is wrong, if something is.
fn ask_line<'c, R: Print, G: Globals, A: Allocator + Copy + 'c>(
    records: &mut UndoLog<'c, A>,
    clones: &mut Snapshots<'c, A>,
    rt: &R,
    globals: &G,
    line: &str,
) -> Option<Answer>
    requires { records.old.machine.program ≡ clones.old.machine.program }
    ensures { records.new.machine.program ≡ clones.new.machine.program }
{
    match read_line(globals, line) {
        Some(asked) => wrong(rt, ask_both(records, clones, asked)),
        None => Some(Answer::NoMove),
    }
}

/// Asks the histories for the move of each line, up to the first where something is wrong.
fn ask_lines<'c, R: Print, G: Globals, A: Allocator + Copy + 'c>(
    records: &mut UndoLog<'c, A>,
    clones: &mut Snapshots<'c, A>,
    rt: &R,
    globals: &G,
    lines: &str,
) -> Answer
    requires { records.old.machine.program ≡ clones.old.machine.program }
{
    for line in lines.lines() {
        if let Some(wrong) = ask_line(records, clones, rt, globals, line) {
            return wrong;
        }
    }
    Answer::Reported
}

/// Begins both histories, and asks them.
fn ask_begun<'c, R: Print, G: Globals, A: Allocator + Copy + 'c>(
    machine: Machine<'c, A>,
    other: Machine<'c, A>,
    rt: &R,
    alloc: A,
    globals: &G,
    lines: &str,
) -> Answer
    requires { machine.program ≡ other.program }
{
    let mut records = UndoLog::new(alloc, machine);
    let mut clones = Snapshots::new(alloc, other);
    ask_lines(&mut records, &mut clones, rt, globals, lines)
}

/// Copies a machine, for the other history.
fn ask_started<'c, R: Print, G: Globals, A: Allocator + Copy + 'c>(
    machine: Machine<'c, A>,
    rt: &R,
    alloc: A,
    globals: &G,
    lines: &str,
) -> Answer {
    match machine.try_clone() {
        Ok(other) => ask_begun(machine, other, rt, alloc, globals, lines),
        Err(_) => Answer::NoCopy,
    }
}

/// Starts a machine, and asks both histories from there on.
fn ask_text<'c, 't, R: Print, A: Allocator + Copy + 'c>(
    code: &'c Code<'t, A>,
    rt: &R,
    alloc: A,
    lines: &str,
) -> Answer {
    match started(alloc, code) {
        Ok(machine) => ask_started(machine, rt, alloc, code, lines),
        Err(answer) => answer,
    }
}

/// Asks both histories for moves, from the start of the program's run on.
pub fn ask_histories<'c, 't, R: Print, A: Allocator + Copy>(
    code: &'c Code<'t, A>,
    rt: &R,
    alloc: A,
    words: &[u8],
) -> Answer {
    match str::from_utf8(words) {
        Ok(lines) => ask_text(code, rt, alloc, lines),
        Err(_) => Answer::NoMove,
    }
}
