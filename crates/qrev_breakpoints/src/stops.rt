//! The requests that make stops: breakpoints at lines and at functions, watches.

use crate::asked_file::{AskedFile, AskedSource, file_asked};
use crate::places::{FuncPlace, entries};
use crate::rules::{add_rule, drop_rules, flaw_in};
use qil_fragments::Fragment;
use qil_lines::{Place, line_of, place_in};
use qil_machine::Code;
use qil_tree::{Func, Program};
use qrev_debuggee::{Body, Cause, Debuggee, Done, Failure, HasMachine, RequestedStop, StopFamily};
use qrev_protocol::{Array, InObject, Whole};
use qrev_requests::Arguments;
use qrev_views::{as_text, code_of, data_named, data_size, put_source};
use std::alloc::{AllocError, Allocator};

/// The list of breakpoints in a body.
pub type BreakpointList<A> = Array<A, InObject<InObject<Whole>>>;

/// Why a stop isn't made.
#[derive(Clone, Copy)]
pub enum Flaw {
    NoLine,
    NoPlace,
    NoSource,
    NoName,
    Newline,
    Condition,
    HitCondition,
    AccessType,
    AnotherFile,
}

/// The message for the editor.
fn flaw_words(flaw: Flaw) -> &'static str {
    match flaw {
        Flaw::NoLine => "no line",
        Flaw::NoPlace => "no place at or after this line",
        Flaw::NoSource => "no line of the text is from this line or a later one",
        Flaw::NoName => "no name",
        Flaw::Newline => "a newline in a name",
        Flaw::Condition => "condition: no expression",
        Flaw::HitCondition => "hitCondition: no count",
        Flaw::AccessType => "not supported: accessType",
        Flaw::AnotherFile => "the program isn't made from this file",
    }
}

/// A place in a program: of a function, by its number, and its name.
#[derive(Drop)]
struct Spot<'p, 'a, A: Allocator> {
    func: &'p Func<'a, A>,
    place: Place,
}

/// The place that a line of the text means: the first, in the order of the text, whose line isn't before it.
fn spot_at<'p, 'a, A: Allocator>(
    program: &'p Program<'a, A>,
    line: u32,
) -> Option<Spot<'p, 'a, A>> {
    for func in program.funcs.as_slice() {
        if let Some(place) = place_in(func, line) {
            return Some(Spot { func, place });
        }
    }
    None
}

/// Adds a stop that wasn't made.
fn put_flaw<A: Allocator>(
    list: BreakpointList<A>,
    message: &str,
) -> Result<BreakpointList<A>, AllocError> {
    list.object()?
        .flag("verified", false)?
        .text("message", message)?
        .end_item()
}

/// Adds a stop that was made, without a line.
fn put_made<A: Allocator>(
    list: BreakpointList<A>,
    number: u64,
) -> Result<BreakpointList<A>, AllocError> {
    list.object()?
        .number("id", number)?
        .flag("verified", true)?
        .end_item()
}

/// Adds a stop that was made, with its line of a file, as the editor counts lines.
fn put_made_at<A: Allocator>(
    list: BreakpointList<A>,
    number: u64,
    path: &str,
    line: u64,
) -> Result<BreakpointList<A>, AllocError> {
    let item = list
        .object()?
        .number("id", number)?
        .flag("verified", true)?
        .number("line", line)?;
    put_source(item, path)?.end_item()
}

/// How the making of a stop went.
#[derive(Clone, Copy)]
enum Made {
    Number(u64),
    /// The session refused it, with this answer in the transcript.
    Answered(usize),
}

/// Deletes the stops of a family, the lowest number first.
fn delete_stops<'c, A: Allocator + Copy + 'c, L: HasMachine<A, Code<'c, A>>>(
    debuggee: &mut Debuggee<'c, A, L>,
    family: StopFamily,
) -> Result<(), Failure> {
    for index in 0..debuggee.stops.len() {
        let stop = match debuggee.stops.as_slice().get(index) {
            Some(stop) => *stop,
            None => return Ok(()),
        };
        if stop.family == family {
            delete_stop(debuggee, stop.number)?;
        }
    }
    debuggee.stops.retain(|stop| stop.family != family);
    drop_rules(debuggee);
    Ok(())
}

/// Deletes a stop, if it is still there.
fn delete_stop<'c, A: Allocator + Copy + 'c, L: HasMachine<A, Code<'c, A>>>(
    debuggee: &mut Debuggee<'c, A, L>,
    number: u64,
) -> Result<(), Failure> {
    match debuggee.line_of(&[Fragment::Bytes(b"delete "), Fragment::Number(number)]) {
        Ok(_) | Err(Failure::Answered(_)) => Ok(()),
        Err(failure) => Err(failure),
    }
}

/// Makes a stop by a line. It belongs to the breakpoint of the number that is given, or is one of its own.
fn make_stop<'c, A: Allocator + Copy + 'c, L: HasMachine<A, Code<'c, A>>>(
    debuggee: &mut Debuggee<'c, A, L>,
    family: StopFamily,
    id: Option<u64>,
    line: &[Fragment<'_>],
) -> Result<Made, Failure> {
    let from = debuggee.answered();
    match debuggee.line_of(line) {
        Ok(Done::Added(number)) => {
            let to = debuggee.answered().saturating_sub(1);
            let stop = RequestedStop {
                family,
                number,
                id: id.unwrap_or(number),
                answer: (from, to),
            };
            match debuggee.stops.push(stop) {
                Ok(()) => Ok(Made::Number(number)),
                Err(_) => Err(Failure::OutOfMemory),
            }
        }
        Ok(_) => Ok(Made::Answered(debuggee.answered())),
        Err(Failure::Answered(from)) => Ok(Made::Answered(from)),
        Err(failure) => Err(failure),
    }
}

/// Adds a stop that the session refused.
fn put_answered<'c, A: Allocator + Copy + 'c, L: HasMachine<A, Code<'c, A>>>(
    debuggee: &Debuggee<'c, A, L>,
    list: BreakpointList<A>,
    from: usize,
) -> Result<BreakpointList<A>, AllocError> {
    let answer = as_text(debuggee.alloc, debuggee.answers_from(from))?;
    put_flaw(list, answer.as_str())
}

/// Makes a stop at a place.
fn stop_at<'c, A: Allocator + Copy + 'c, L: HasMachine<A, Code<'c, A>>>(
    debuggee: &mut Debuggee<'c, A, L>,
    family: StopFamily,
    id: Option<u64>,
    spot: Spot<'_, '_, A>,
) -> Result<Option<Made>, Failure> {
    let Some(block) = spot.func.blocks.as_slice().get(spot.place.block) else {
        return Ok(None);
    };
    let made = make_stop(
        debuggee,
        family,
        id,
        &[
            Fragment::Bytes(b"break $"),
            Fragment::Bytes(spot.func.name.bytes()),
            Fragment::Bytes(b" @"),
            Fragment::Bytes(block.label.bytes()),
            Fragment::Bytes(b" "),
            Fragment::Number(spot.place.index as u64),
        ],
    )?;
    Ok(Some(made))
}

/// Adds what became of a breakpoint at a line of a file.
fn put_break<'c, A: Allocator + Copy + 'c, L: HasMachine<A, Code<'c, A>>>(
    debuggee: &mut Debuggee<'c, A, L>,
    list: BreakpointList<A>,
    made: Option<Made>,
    asked: Arguments<'_, '_, A>,
    path: &str,
    line: u32,
) -> Result<BreakpointList<A>, Failure> {
    match made {
        None => Ok(put_flaw(list, flaw_words(Flaw::NoPlace))?),
        Some(Made::Answered(from)) => Ok(put_answered(debuggee, list, from)?),
        Some(Made::Number(number)) => {
            add_rule(debuggee, number, asked)?;
            let line = debuggee.shown.numbering.line(line);
            Ok(put_made_at(list, number, path, line)?)
        }
    }
}

/// Makes a breakpoint at the place that a line of the text means.
fn break_in_text<'c, A: Allocator + Copy + 'c, L: HasMachine<A, Code<'c, A>>>(
    debuggee: &mut Debuggee<'c, A, L>,
    list: BreakpointList<A>,
    line: u64,
    asked: Arguments<'_, '_, A>,
) -> Result<BreakpointList<A>, Failure> {
    let Some(spot) = spot_at(debuggee.program(), debuggee.shown.numbering.text_line(line)) else {
        return Ok(put_flaw(list, flaw_words(Flaw::NoPlace))?);
    };
    let line = line_of(spot.func, spot.place).unwrap_or(spot.func.line);
    let path = debuggee.shown.path;
    let made = stop_at(debuggee, StopFamily::Text, None, spot)?;
    put_break(debuggee, list, made, asked, path, line)
}

/// The place of a function by its number.
fn spot_of<'p, 'a, A: Allocator>(
    program: &'p Program<'a, A>,
    place: FuncPlace,
) -> Option<Spot<'p, 'a, A>> {
    match program.funcs.as_slice().get(place.func) {
        Some(func) => Some(Spot {
            func,
            place: place.place,
        }),
        None => None,
    }
}

/// Makes stops at places, which are one breakpoint.
fn stop_at_all<'c, A: Allocator + Copy + 'c, L: HasMachine<A, Code<'c, A>>>(
    debuggee: &mut Debuggee<'c, A, L>,
    family: StopFamily,
    places: &[FuncPlace],
) -> Result<Option<Made>, Failure> {
    let mut first = None;
    for place in places {
        let Some(spot) = spot_of(debuggee.program(), *place) else {
            continue;
        };
        let id = match first {
            Some(Made::Number(number)) => Some(number),
            _ => None,
        };
        let made = stop_at(debuggee, family, id, spot)?;
        if id.is_none() {
            first = made;
        }
    }
    Ok(first)
}

/// The places at which a run comes to a line of a source.
fn places_of<'c, A: Allocator + Copy + 'c, L: HasMachine<A, Code<'c, A>>>(
    debuggee: &Debuggee<'c, A, L>,
    source: &AskedSource<A>,
    line: u32,
) -> Result<Vec<FuncPlace, A>, AllocError> {
    match &debuggee.source_map {
        Some(source_map) => entries(debuggee.alloc, debuggee.program(), source_map, source, line),
        None => Ok(Vec::new(debuggee.alloc)),
    }
}

/// Makes a breakpoint at a line of a source, or at the least line after it from which the text has a line: at all places at which
/// a run comes to that line, or where there is none at the place that its first line of the text means.
fn break_in_source<'c, A: Allocator + Copy + 'c, L: HasMachine<A, Code<'c, A>>>(
    debuggee: &mut Debuggee<'c, A, L>,
    list: BreakpointList<A>,
    source: &AskedSource<A>,
    line: u64,
    asked: Arguments<'_, '_, A>,
) -> Result<BreakpointList<A>, Failure> {
    let mapping = match debuggee.shown.numbering.file_line(line) {
        Some(line) => source.file.first_from(line),
        None => None,
    };
    let Some(mapping) = mapping else {
        return Ok(put_flaw(list, flaw_words(Flaw::NoSource))?);
    };
    let family = StopFamily::Source(source.first_line);
    let places = places_of(debuggee, source, mapping.line)?;
    let made = if places.is_empty() {
        let Some(spot) = spot_at(debuggee.program(), mapping.text_line) else {
            return Ok(put_flaw(list, flaw_words(Flaw::NoPlace))?);
        };
        stop_at(debuggee, family, None, spot)?
    } else {
        stop_at_all(debuggee, family, places.as_slice())?
    };
    put_break(
        debuggee,
        list,
        made,
        asked,
        source.path.as_str(),
        mapping.line,
    )
}

/// Makes one breakpoint at a line of a file.
fn set_line<'c, A: Allocator + Copy + 'c, L: HasMachine<A, Code<'c, A>>>(
    debuggee: &mut Debuggee<'c, A, L>,
    list: BreakpointList<A>,
    file: &AskedFile<A>,
    asked: Arguments<'_, '_, A>,
) -> Result<BreakpointList<A>, Failure> {
    if let Some(flaw) = flaw_in(debuggee.alloc, asked)? {
        return Ok(put_flaw(list, flaw_words(flaw))?);
    }
    let Some(line) = asked.number("line") else {
        return Ok(put_flaw(list, flaw_words(Flaw::NoLine))?);
    };
    match file {
        AskedFile::Text => break_in_text(debuggee, list, line, asked),
        AskedFile::Source(source) => break_in_source(debuggee, list, source, line, asked),
    }
}

/// Answers for breakpoints in a file that the program isn't made from: editors keep those of all files, and send them to each
/// session.
fn put_elsewhere<A: Allocator + Copy>(
    asked: Arguments<'_, '_, A>,
    body: Body<A>,
) -> Result<Body<A>, Failure> {
    let mut list = body.array("breakpoints")?;
    for index in 0..usize::MAX {
        let Some(_) = asked.item("breakpoints", index) else {
            break;
        };
        list = put_flaw(list, flaw_words(Flaw::AnotherFile))?;
    }
    Ok(list.end()?)
}

/// Makes breakpoints at lines of a file in place of those that are there. In a file that the program isn't made from none is made.
pub fn set_breakpoints<'c, A: Allocator + Copy + 'c, L: HasMachine<A, Code<'c, A>>>(
    debuggee: &mut Debuggee<'c, A, L>,
    asked: Arguments<'_, '_, A>,
    body: Body<A>,
) -> Result<Body<A>, Failure> {
    let file = match file_asked(debuggee, asked.inside("source")) {
        Ok(file) => file,
        Err(Failure::Because(Cause::AnotherFile)) => return put_elsewhere(asked, body),
        Err(failure) => return Err(failure),
    };
    let family = match &file {
        AskedFile::Text => StopFamily::Text,
        AskedFile::Source(source) => StopFamily::Source(source.first_line),
    };
    delete_stops(debuggee, family)?;
    let mut list = body.array("breakpoints")?;
    for index in 0..usize::MAX {
        let Some(item) = asked.item("breakpoints", index) else {
            break;
        };
        list = set_line(debuggee, list, &file, item)?;
    }
    Ok(list.end()?)
}

/// The words of a stop that a request asks for, if such a stop can be made.
fn words_asked<'q, A: Allocator + Copy>(
    asked: Arguments<'_, 'q, A>,
    family: StopFamily,
) -> Result<&'q str, Flaw> {
    let words = match family {
        StopFamily::Data => asked.text("dataId"),
        _ => asked.text("name"),
    };
    match words {
        Some(words) if words.as_bytes().contains(&b'\n') => Err(Flaw::Newline),
        Some(words) => Ok(words),
        None => Err(Flaw::NoName),
    }
}

/// What a line begins with that makes a stop by words.
fn verb_for<'v>(family: StopFamily, words: &[u8]) -> &'v [u8] {
    match family {
        StopFamily::Data => b"watch ",
        _ if words.first() == Some(&b'$') => b"break ",
        _ => b"break $",
    }
}

/// Makes one stop by words.
fn make_by_words<'c, A: Allocator + Copy + 'c, L: HasMachine<A, Code<'c, A>>>(
    debuggee: &mut Debuggee<'c, A, L>,
    family: StopFamily,
    words: &[u8],
) -> Result<Made, Failure> {
    let verb = verb_for(family, words);
    make_stop(
        debuggee,
        family,
        None,
        &[Fragment::Bytes(verb), Fragment::Bytes(words)],
    )
}

/// The widest bytes that a watch may read of so many: the letter, and how many they are.
fn widest(left: u64) -> (&'static [u8], u64) {
    if left >= 8 {
        (b"l", 8)
    } else if left >= 4 {
        (b"w", 4)
    } else if left >= 2 {
        (b"h", 2)
    } else {
        (b"b", 1)
    }
}

/// Makes a watch of so many bytes at most from an address on, and gives how many it watches.
fn watch_part<'c, A: Allocator + Copy + 'c, L: HasMachine<A, Code<'c, A>>>(
    debuggee: &mut Debuggee<'c, A, L>,
    id: Option<u64>,
    address: u64,
    left: u64,
) -> Result<(Made, u64), Failure> {
    let (letter, width) = widest(left);
    let made = make_stop(
        debuggee,
        StopFamily::Data,
        id,
        &[
            Fragment::Bytes(b"watch "),
            Fragment::Bytes(letter),
            Fragment::Bytes(b" "),
            Fragment::Number(address),
        ],
    )?;
    Ok((made, width))
}

/// Makes watches of all bytes of a data object, which are one breakpoint.
fn watch_object<'c, A: Allocator + Copy + 'c, L: HasMachine<A, Code<'c, A>>>(
    debuggee: &mut Debuggee<'c, A, L>,
    address: u64,
    size: u64,
) -> Result<Made, Failure> {
    let (first, width) = watch_part(debuggee, None, address, size)?;
    let Made::Number(id) = first else {
        return Ok(first);
    };
    let mut done = width;
    for _ in 0..size {
        if done >= size {
            break;
        }
        let at = address.wrapping_add(done);
        let (_, width) = watch_part(debuggee, Some(id), at, size - done)?;
        done = done.saturating_add(width);
    }
    Ok(first)
}

/// The address and the size of the data object that is watched as a whole.
fn object_asked<'c, A: Allocator + Copy + 'c, L: HasMachine<A, Code<'c, A>>>(
    debuggee: &Debuggee<'c, A, L>,
    family: StopFamily,
    words: &[u8],
) -> Option<(u64, u64)> {
    if family != StopFamily::Data {
        return None;
    }
    let name = words.strip_prefix(b"$")?;
    let data = data_named(debuggee.program(), name)?;
    let address = code_of(debuggee.machine()).image().address(name)?;
    Some((address, data_size(data)))
}

/// Makes one breakpoint by the words that a request says.
fn set_words<'c, A: Allocator + Copy + 'c, L: HasMachine<A, Code<'c, A>>>(
    debuggee: &mut Debuggee<'c, A, L>,
    list: BreakpointList<A>,
    family: StopFamily,
    asked: Arguments<'_, '_, A>,
) -> Result<BreakpointList<A>, Failure> {
    if let Some(flaw) = flaw_in(debuggee.alloc, asked)? {
        return Ok(put_flaw(list, flaw_words(flaw))?);
    }
    let words = match words_asked(asked, family) {
        Ok(words) => words.as_bytes(),
        Err(flaw) => return Ok(put_flaw(list, flaw_words(flaw))?),
    };
    let made = match object_asked(debuggee, family, words) {
        Some((address, size)) if size > 0 => watch_object(debuggee, address, size)?,
        _ => make_by_words(debuggee, family, words)?,
    };
    match made {
        Made::Answered(from) => Ok(put_answered(debuggee, list, from)?),
        Made::Number(number) => {
            add_rule(debuggee, number, asked)?;
            Ok(put_made(list, number)?)
        }
    }
}

/// Makes the stops of a family that words say, in place of those that are there.
pub fn set_by_words<'c, A: Allocator + Copy + 'c, L: HasMachine<A, Code<'c, A>>>(
    debuggee: &mut Debuggee<'c, A, L>,
    asked: Arguments<'_, '_, A>,
    family: StopFamily,
    body: Body<A>,
) -> Result<Body<A>, Failure> {
    delete_stops(debuggee, family)?;
    let mut list = body.array("breakpoints")?;
    for index in 0..usize::MAX {
        let Some(item) = asked.item("breakpoints", index) else {
            break;
        };
        list = set_words(debuggee, list, family, item)?;
    }
    Ok(list.end()?)
}
