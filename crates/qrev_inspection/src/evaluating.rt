//! `evaluate`: the value of an expression, and in the console lines of commands.

ghost use Rattle.std.specs.Prelude.{◌≡◌, true, codes};
ghost use Rattle.qrev_requests.specs.Members.{json_of};
ghost use Rattle.qrev_inspection.specs.Requested.{said_in};

use crate::looking::{showing_said, text_said};
use crate::results::{address_in, cause_of, letter_of, put_reference, put_result, put_type};
use qil_commands::{Command, read_command};
use qil_machine::Code;
use qrev_debuggee::{Body, Cause, Debuggee, Done, Failure, HasMachine, Why};
use qrev_expressions::{
    Expression, Missing, Scene, Told, Unread, Value, evaluate as worth, parse, tell,
};
use qrev_map::Names;
use qrev_requests::Arguments;
use qrev_views::{Readers, Showing, as_text, code_of, sigiled};
use std::alloc::{AllocError, Allocator};

/// An expression, and the form of its value.
#[derive(Clone, Copy)]
pub struct Asked<'x> {
    pub text: &'x [u8],
    pub scene: Scene,
    pub showing: Showing,
}

/// Adds what an expression is worth.
fn put_value<'c, A: Allocator + Copy + 'c, M: Readers<A, Code<'c, A>>>(
    alloc: A,
    body: Body<A>,
    machine: &M,
    showing: Showing,
    expression: &Expression<'_, A>,
    value: Value,
) -> Result<Body<A>, Failure> {
    let text = match tell(alloc, code_of(machine), showing, expression, value)? {
        Told::Text(text) => text,
        Told::Missing(missing) => return Err(Failure::Because(cause_of(missing))),
    };
    let body = put_result(body, text.as_str())?;
    let body = put_type(body, showing, letter_of(value))?;
    match address_in(machine, value) {
        Some(address) => Ok(put_reference(alloc, body, showing, address)?),
        None => Ok(body),
    }
}

/// What a text is worth as an expression, if it is one.
fn worth_of<'x, 'c, A: Allocator + Copy + 'c, M: Readers<A, Code<'c, A>>>(
    alloc: A,
    machine: &M,
    names: &Names<A>,
    scene: Scene,
    text: &'x [u8],
) -> Result<Option<(Expression<'x, A>, Value)>, AllocError> {
    let expression = match parse(alloc, text) {
        Ok(expression) => expression,
        Err(Unread::Malformed) => return Ok(None),
        Err(Unread::OutOfMemory) => return Err(AllocError),
    };
    let value = worth(alloc, machine, names, scene, &expression)?;
    Ok(Some((expression, value)))
}

/// Whether a line ends the script.
fn is_quit(line: &[u8]) -> bool {
    matches!(read_command(line), Ok(Some(Command::Quit)))
}

/// Whether a line of a text ends the script.
fn has_quit(text: &str) -> bool {
    for line in text.split('\n') {
        if is_quit(line.as_bytes()) {
            return true;
        }
    }
    false
}

/// Answers lines of commands, and says why the run stands if one of them moved the session.
fn answer_lines<'c, A: Allocator + Copy + 'c, L: HasMachine<A, Code<'c, A>>>(
    debuggee: &mut Debuggee<'c, A, L>,
    text: &str,
) -> Result<Option<Why>, Failure> {
    let mut why = None;
    for line in text.split('\n') {
        match debuggee.line(line.as_bytes())? {
            Done::Moved => why = Some(Why::Step),
            Done::Stopped(reason) => why = Some(Why::Run(reason)),
            _ => {}
        }
    }
    Ok(why)
}

/// Adds answers as a result.
fn put_answers<A: Allocator + Copy>(
    alloc: A,
    body: Body<A>,
    answers: &[u8],
) -> Result<Body<A>, AllocError> {
    let answers = as_text(alloc, answers)?;
    put_result(body, answers.as_str())
}

/// Answers lines of commands, adds their answers, and says why the run stands if one of them moved the session.
fn console<'c, A: Allocator + Copy + 'c, L: HasMachine<A, Code<'c, A>>>(
    debuggee: &mut Debuggee<'c, A, L>,
    text: &str,
    body: Body<A>,
) -> Result<(Body<A>, Option<Why>), Failure> {
    let from = debuggee.answered();
    let why = answer_lines(debuggee, text)?;
    let body = put_answers(debuggee.alloc, body, debuggee.answers_from(from))?;
    Ok((body, why))
}

/// Whether a line moves the run or changes a value.
fn is_move(line: &[u8]) -> bool {
    matches!(
        read_command(line),
        Ok(Some(
            Command::Step(_)
                | Command::Accesses(..)
                | Command::Counts(_)
                | Command::Frames(..)
                | Command::Back(_)
                | Command::Continue
                | Command::Reverse
                | Command::Set(..)
                | Command::Poke(..)
        ))
    )
}

/// Whether a line of a text moves the run or changes a value.
fn has_move(text: &str) -> bool {
    for line in text.split('\n') {
        if is_move(line.as_bytes()) {
            return true;
        }
    }
    false
}

/// Whether a text is a command.
fn is_command(text: &str) -> bool {
    matches!(read_command(text.as_bytes()), Ok(Some(_)))
}

/// Whether a text isn't answered as commands: in the console each one is, and as a watch one that is a command.
fn is_unanswered(context: &str, text: &str) -> bool
    ensures { (context.now ≡ codes "repl" → ⊥) → (context.now ≡ codes "watch" → ⊥) → result ≡ true }
{
    context != "repl" && (context != "watch" || !is_command(text))
}

/// Answers lines of commands, unless one ends the script, or is a watch that would move again and again.
fn answer_commands<'c, A: Allocator + Copy + 'c, L: HasMachine<A, Code<'c, A>>>(
    debuggee: &mut Debuggee<'c, A, L>,
    is_console: bool,
    text: &str,
    body: Body<A>,
) -> Result<(Body<A>, Option<Why>), Failure> {
    if has_quit(text) {
        return Err(Failure::Because(Cause::QuitInConsole));
    }
    if !is_console && debuggee.client.repeats_watches && has_move(text) {
        return Err(Failure::Because(Cause::MovingWatch));
    }
    console(debuggee, text, body)
}

/// What is made of a text that is no expression: in the console it is lines of commands, and as a watch it may be one.
fn answer_lines_of<'c, A: Allocator + Copy + 'c, L: HasMachine<A, Code<'c, A>>>(
    debuggee: &mut Debuggee<'c, A, L>,
    context: &str,
    text: &str,
    body: Body<A>,
) -> Result<(Body<A>, Option<Why>), Failure>
    ensures { (context.now ≡ codes "repl" → ⊥) → (context.now ≡ codes "watch" → ⊥) → L.state debuggee.new.recorder.live ≡ L.state debuggee.old.recorder.live }
{
    if is_unanswered(context, text) {
        return Err(Failure::Because(Cause::NoSuchName));
    }
    answer_commands(debuggee, context == "repl", text, body)
}

/// What an editor shows where it leaves a sigil out: a temporary before data or a function.
fn hovered<'c, A: Allocator + Copy + 'c, M: Readers<A, Code<'c, A>>>(
    alloc: A,
    machine: &M,
    names: &Names<A>,
    asked: Asked<'_>,
    body: Body<A>,
) -> Result<Body<A>, Failure> {
    for sigil in [b"%".as_slice(), b"$".as_slice()] {
        let name = sigiled(alloc, sigil, asked.text)?;
        let found = worth_of(alloc, machine, names, asked.scene, name.as_str().as_bytes())?;
        match found {
            Some((_, Value::Missing(Missing::NoSuchName | Missing::NoFrame))) | None => {}
            Some((expression, value)) => {
                return put_value(alloc, body, machine, asked.showing, &expression, value);
            }
        }
    }
    Err(Failure::Because(Cause::NoSuchName))
}

/// Whether a text is a name without a sigil.
fn is_bare(text: &[u8]) -> bool {
    match text.first() {
        Some(byte) => byte.is_ascii_alphabetic() || *byte == b'_' || *byte == b'.',
        None => false,
    }
}

/// The expression of a request. Some consoles send `p` before it.
fn expression_said<'q, A: Allocator + Copy>(asked: Arguments<'_, 'q, A>) -> &'q str {
    let text = text_said(asked, "expression");
    text.strip_prefix("p ").unwrap_or(text)
}

/// What came of a text that may be an expression: its value was added, or nothing was.
enum Tried<A: Allocator> {
    Added(Body<A>),
    NoExpression(Body<A>),
}

/// Adds the value of a text, if it is an expression.
fn try_expression<'c, A: Allocator + Copy + 'c, L: HasMachine<A, Code<'c, A>>>(
    debuggee: &Debuggee<'c, A, L>,
    said: Asked<'_>,
    is_hover: bool,
    body: Body<A>,
) -> Result<Tried<A>, Failure> {
    let alloc = debuggee.alloc;
    let machine = debuggee.machine();
    if is_hover && is_bare(said.text) {
        let body = hovered(alloc, machine, &debuggee.names, said, body)?;
        return Ok(Tried::Added(body));
    }
    match worth_of(alloc, machine, &debuggee.names, said.scene, said.text)? {
        Some((expression, value)) => {
            let body = put_value(alloc, body, machine, said.showing, &expression, value)?;
            Ok(Tried::Added(body))
        }
        None => Ok(Tried::NoExpression(body)),
    }
}

/// Adds the value of an expression, or in the console the answers to commands.
pub fn evaluate<'c, A: Allocator + Copy + 'c, L: HasMachine<A, Code<'c, A>>>(
    debuggee: &mut Debuggee<'c, A, L>,
    asked: Arguments<'_, '_, A>,
    body: Body<A>,
) -> Result<(Body<A>, Option<Why>), Failure>
    ensures { (said_in (codes "context") (json_of asked.entry) ≡ codes "repl" → ⊥) → (said_in (codes "context") (json_of asked.entry) ≡ codes "watch" → ⊥)
        → L.state debuggee.new.recorder.live ≡ L.state debuggee.old.recorder.live }
{
    let text = expression_said(asked);
    let context = text_said(asked, "context");
    let said = Asked {
        text: text.as_bytes(),
        scene: Scene {
            number: asked.number("frameId").unwrap_or(1),
            position: debuggee.position(),
        },
        showing: showing_said(debuggee.client, asked),
    };
    match try_expression(debuggee, said, context == "hover", body)? {
        Tried::Added(body) => Ok((body, None)),
        Tried::NoExpression(body) => answer_lines_of(debuggee, context, text, body),
    }
}
