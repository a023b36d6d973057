//! What an editor gets when a run stops: the output that is new, and why and where it stopped.

ghost use Rattle.std.specs.Prelude.{codes, ◌≤◌, length, IfOk};
ghost use Rattle.qrev_notices.specs.Conversation.{spoken, Tells, IsEventSoFar};
ghost use Rattle.qrev_notices.specs.Last.{IsNamedEvent, TellsLast};

use crate::port::Port;
use crate::trouble::Trouble;
use qil_fragments::Fragment;
use qil_machine::Code;
use qil_render::{Readers, code_of, func_name, is_final};
use qil_semantics::Reason;
use qil_state::{Fault, Status};
use qil_streams::Sink;
use qrev_debuggee::{Body, Debuggee, HasMachine, RequestedStop, StopFamily, Why, hits};
use qrev_map::{Foreign, Names};
use qrev_protocol::{Array, InObject, Object, Whole, event};
use qrev_views::{as_text, joined, place_text};
use std::alloc::{AllocError, Allocator};

/// The list of the breakpoints that were hit.
type HitList<A> = Array<A, InObject<InObject<Whole>>>;

/// Such an event, up to the end of its body.
pub fn output_body<A: Allocator + Copy>(
    alloc: A,
    category: &str,
    text: &str,
) -> Result<Body<A>, AllocError>
    ensures { IfOk result (λ o. IsEventSoFar o.out.tokens) }
{
    let body = event(alloc, "output")?
        .object("body")?
        .text("category", category)?
        .text("output", text)?;
    Ok(body)
}

/// An event with a text, as the program's output or for the console.
pub fn output_event<A: Allocator + Copy>(
    alloc: A,
    category: &str,
    text: &str,
) -> Result<Object<A, Whole>, AllocError>
    ensures { IfOk result (λ o. IsEventSoFar o.out.tokens) }
{
    let body = output_body(alloc, category, text)?;
    let message = body.end()?;
    Ok(message)
}

/// Tells an event that has no body.
pub fn tell_plain<A: Allocator + Copy, W: Sink>(
    alloc: A,
    name: &str,
    port: &mut Port<A, W>,
) -> Result<(), Trouble>
    ensures events { Tells result (spoken W.contents port.old) (spoken W.contents port.new) }
    ensures last { TellsLast result name.now (spoken W.contents port.new) }
{
    port.tell(event(alloc, name)?)
}

/// How many bytes two texts have in common at their beginnings.
fn common(one: &[u8], other: &[u8]) -> usize
    ensures { result ≤ length one.now }
{
    let count = one.len().min(other.len());
    for index in 0..count {
        if one[index] != other[index] {
            return index;
        }
    }
    count
}

/// Sends a remark if the output isn't what the editor has seen of it.
fn tell_difference<A: Allocator + Copy, W: Sink>(
    alloc: A,
    differs: bool,
    port: &mut Port<A, W>,
) -> Result<(), Trouble>
    ensures { Tells result (spoken W.contents port.old) (spoken W.contents port.new) }
{
    if !differs {
        return Ok(());
    }
    let text = "[the output differs from what was shown]\n";
    port.tell(output_event(alloc, "console", text)?)
}

/// Tells bytes of the output, which come after so many that were told.
fn tell_more<A: Allocator + Copy, W: Sink>(
    alloc: A,
    new: &[u8],
    same: usize,
    told: &mut Vec<u8, A>,
    port: &mut Port<A, W>,
) -> Result<(), Trouble>
    ensures { Tells result (spoken W.contents port.old) (spoken W.contents port.new) }
{
    let text = as_text(alloc, new)?;
    told.truncate(same);
    told.extend_from_slice(new)?;
    port.tell(output_event(alloc, "stdout", text.as_str())?)
}

/// How many bytes of an output are sent: a character that its end cuts waits for its rest, while the run goes on.
fn whole_length(new: &[u8], is_over: bool) -> usize
    ensures { result ≤ length new.now }
{
    if is_over {
        return new.len();
    }
    match std::str::from_utf8(new) {
        Err(error) if error.error_len().is_none() => error.valid_up_to().min(new.len()),
        _ => new.len(),
    }
}

/// Tells what is new of an output.
fn tell_new<A: Allocator + Copy, W: Sink>(
    alloc: A,
    output: &[u8],
    is_over: bool,
    told: &mut Vec<u8, A>,
    port: &mut Port<A, W>,
) -> Result<(), Trouble>
    ensures { Tells result (spoken W.contents port.old) (spoken W.contents port.new) }
{
    let same = common(output, told.as_slice());
    let (_, rest) = output.split_at(same);
    let (new, _) = rest.split_at(whole_length(rest, is_over));
    if new.is_empty() {
        return Ok(());
    }
    tell_difference(alloc, same < told.len(), port)?;
    tell_more(alloc, new, same, told, port)
}

/// Tells what is new of the output. After a move back that is nothing until the output is longer than what was told.
fn tell_output<'c, A: Allocator + Copy + 'c, L: HasMachine<A, Code<'c, A>>, W: Sink>(
    debuggee: &mut Debuggee<'c, A, L>,
    port: &mut Port<A, W>,
) -> Result<(), Trouble>
    ensures { Tells result (spoken W.contents port.old) (spoken W.contents port.new) }
{
    let machine = debuggee.recorder.live();
    let is_over = is_final(machine);
    let output = machine.output();
    tell_new(debuggee.alloc, output, is_over, &mut debuggee.output, port)
}

/// The reason's word, and the text next to it.
#[derive(Clone, Copy)]
struct Words {
    reason: &'static str,
    text: &'static str,
}

/// The words of a reason, or of how the run ended. A fault has a text of its own.
fn words_of(status: Status, why: Why, on_function: bool) -> Words {
    let (reason, text) = match (status, why) {
        (Status::Faulted(_), _) => ("exception", "fault"),
        (Status::Done(_) | Status::Exited(_), _) => ("end", "end of the run"),
        (_, Why::Entry) => ("entry", "entry"),
        (_, Why::Step) => ("step", "step"),
        (_, Why::Run(Reason::Break(_))) if on_function => ("function breakpoint", "breakpoint"),
        (_, Why::Run(Reason::Break(_))) => ("breakpoint", "breakpoint"),
        (_, Why::Run(Reason::Watch(_))) => ("data breakpoint", "watch"),
        (_, Why::Run(Reason::Start)) => ("entry", "the start: nothing is before it"),
        (_, Why::Run(Reason::Oldest)) => ("pause", "the oldest state that is kept"),
        (_, Why::Run(Reason::Limit)) => ("pause", "the limit of moves: continue goes on"),
        (_, Why::Run(Reason::Memory)) => ("pause", "no memory for the next move"),
        (_, Why::Run(Reason::End)) => ("end", "end of the run"),
    };
    Words { reason, text }
}

/// Whether a request for function breakpoints made the first of these breakpoints.
fn is_on_function(hits: &[u64], stops: &[RequestedStop]) -> bool {
    match hits.first() {
        Some(first) => stops.iter().any(|stop| stop.id == *first
            && stop.family == StopFamily::Function),
        None => false,
    }
}

/// What a place line says of a fault, if it does.
pub fn fault_in(place: &str) -> Option<&str> {
    match place.split_once(" fault ") {
        Some((_, words)) => Some(words),
        None => None,
    }
}

/// Such an event, with its reason and the place.
fn stopped_body<A: Allocator + Copy>(
    alloc: A,
    reason: &str,
    place: &str,
) -> Result<Body<A>, AllocError>
    ensures { IfOk result (λ o. IsNamedEvent (codes "stopped") o.out.tokens) }
{
    let body = event(alloc, "stopped")?
        .object("body")?
        .text("reason", reason)?
        .text("description", place)?;
    Ok(body)
}

/// Adds the text next to the reason, and the thread, which is always the same.
fn add_thread<A: Allocator>(body: Body<A>, text: &str) -> Result<Body<A>, AllocError>
    requires { IsNamedEvent (codes "stopped") body.out.tokens }
    ensures { IfOk result (λ o. IsNamedEvent (codes "stopped") o.out.tokens) }
{
    let body = body
        .text("text", text)?
        .number("threadId", 1)?
        .flag("allThreadsStopped", true)?;
    Ok(body)
}

/// Adds the number of a breakpoint.
fn add_number<A: Allocator>(list: HitList<A>, number: u64) -> Result<HitList<A>, AllocError>
    requires { IsNamedEvent (codes "stopped") list.out.tokens }
    ensures { IfOk result (λ l. IsNamedEvent (codes "stopped") l.out.tokens) }
{
    let list = list.number(number)?;
    Ok(list)
}

/// Adds the numbers of breakpoints.
fn add_numbers<A: Allocator>(list: HitList<A>, numbers: &[u64]) -> Result<HitList<A>, AllocError>
    requires { IsNamedEvent (codes "stopped") list.out.tokens }
    ensures { IfOk result (λ l. IsNamedEvent (codes "stopped") l.out.tokens) }
{
    let mut list = list;
    for number in numbers {
        list = add_number(list, *number)?;
    }
    Ok(list)
}

/// Adds the breakpoints that were hit, if there are some.
fn add_hits<A: Allocator>(body: Body<A>, numbers: &[u64]) -> Result<Body<A>, AllocError>
    requires { IsNamedEvent (codes "stopped") body.out.tokens }
    ensures { IfOk result (λ o. IsNamedEvent (codes "stopped") o.out.tokens) }
{
    if numbers.is_empty() {
        return Ok(body);
    }
    let list = body.array("hitBreakpointIds")?;
    let list = add_numbers(list, numbers)?;
    let body = list.end()?;
    Ok(body)
}

/// The event that says that the run stands, why, and at which place.
fn stopped_event<A: Allocator + Copy>(
    alloc: A,
    words: Words,
    place: &str,
    hits: &[u64],
) -> Result<Object<A, Whole>, AllocError>
    ensures { IfOk result (λ o. IsNamedEvent (codes "stopped") o.out.tokens) }
{
    let body = stopped_body(alloc, words.reason, place)?;
    let body = add_thread(body, fault_in(place).unwrap_or(words.text))?;
    let body = add_hits(body, hits)?;
    let message = body.end()?;
    Ok(message)
}

/// How a run ended in a function that isn't the program's own.
fn foreign_text<A: Allocator + Copy>(
    alloc: A,
    foreign: Foreign,
    func: &[u8],
) -> Result<String<A>, AllocError> {
    let front: &[u8] = b"halted in $";
    let behind: &[u8] = match foreign {
        Foreign::Outside => b", which isn't there",
        Foreign::Runtime => b"",
    };
    if foreign == Foreign::Runtime && func == b"ended.by.signal".as_slice() {
        return String::from_str(alloc, "ended by a signal");
    }
    joined(
        alloc,
        &[
            Fragment::Bytes(front),
            Fragment::Bytes(func),
            Fragment::Bytes(behind),
        ],
    )
}

/// The function in which a run was halted.
fn halted_in<'c, A: Allocator + Copy + 'c, M: Readers<A, Code<'c, A>>>(
    machine: &M,
) -> Option<&'c [u8]> {
    if machine.status() != Status::Faulted(Fault::Halted) {
        return None;
    }
    let frame = machine.frame(0)?;
    Some(func_name(code_of(machine), frame.func()))
}

/// How a run ended, if it was halted in a function that isn't the program's own: what isn't there is no fault of the program.
pub fn ended_elsewhere<'c, A: Allocator + Copy + 'c, M: Readers<A, Code<'c, A>>>(
    alloc: A,
    machine: &M,
    names: &Names<A>,
) -> Result<Option<String<A>>, AllocError> {
    let Some(func) = halted_in(machine) else {
        return Ok(None);
    };
    match names.foreign(func) {
        Some(foreign) => Ok(Some(foreign_text(alloc, foreign, func)?)),
        None => Ok(None),
    }
}

/// The breakpoints to name: those that were judged, or else all at which the run stands.
fn hits_told<'c, A: Allocator + Copy + 'c, L: HasMachine<A, Code<'c, A>>>(
    debuggee: &mut Debuggee<'c, A, L>,
    why: Why,
) -> Result<Vec<u64, A>, AllocError> {
    let found = std::mem::replace(&mut debuggee.hit, Vec::new(debuggee.alloc));
    if found.is_empty() {
        return hits(debuggee, why);
    }
    Ok(found)
}

/// The message that says that the run stands.
fn stopped_message<'c, A: Allocator + Copy + 'c, L: HasMachine<A, Code<'c, A>>>(
    debuggee: &mut Debuggee<'c, A, L>,
    why: Why,
) -> Result<Object<A, Whole>, AllocError>
    ensures { IfOk result (λ o. IsNamedEvent (codes "stopped") o.out.tokens) }
{
    let hits = hits_told(debuggee, why)?;
    let machine = debuggee.machine();
    if let Some(end) = ended_elsewhere(debuggee.alloc, machine, &debuggee.names)? {
        let words = Words {
            reason: "end",
            text: "end of the run",
        };
        return stopped_event(debuggee.alloc, words, end.as_str(), &[]);
    }
    let place = place_text(debuggee.alloc, debuggee.position(), machine)?;
    let on_function = is_on_function(hits.as_slice(), debuggee.stops.as_slice());
    let words = words_of(machine.status(), why, on_function);
    stopped_event(debuggee.alloc, words, place.as_str(), hits.as_slice())
}

/// Tells what is new of the output, and that the run stands.
pub fn tell_stopped<'c, A: Allocator + Copy + 'c, L: HasMachine<A, Code<'c, A>>, W: Sink>(
    debuggee: &mut Debuggee<'c, A, L>,
    why: Why,
    port: &mut Port<A, W>,
) -> Result<(), Trouble>
    ensures events { Tells result (spoken W.contents port.old) (spoken W.contents port.new) }
    ensures stands { TellsLast result (codes "stopped") (spoken W.contents port.new) }
{
    tell_output(debuggee, port)?;
    port.tell(stopped_message(debuggee, why)?)
}

/// The message that says that the run was paused, and where it stands.
fn paused_message<'c, A: Allocator + Copy + 'c, L: HasMachine<A, Code<'c, A>>>(
    debuggee: &Debuggee<'c, A, L>,
) -> Result<Object<A, Whole>, AllocError>
    ensures { IfOk result (λ o. IsNamedEvent (codes "stopped") o.out.tokens) }
{
    let words = Words {
        reason: "pause",
        text: "paused",
    };
    let place = place_text(debuggee.alloc, debuggee.position(), debuggee.machine())?;
    stopped_event(debuggee.alloc, words, place.as_str(), &[])
}

/// Tells what is new of the output, and that the run was paused.
pub fn tell_paused<'c, A: Allocator + Copy + 'c, L: HasMachine<A, Code<'c, A>>, W: Sink>(
    debuggee: &mut Debuggee<'c, A, L>,
    port: &mut Port<A, W>,
) -> Result<(), Trouble>
    ensures events { Tells result (spoken W.contents port.old) (spoken W.contents port.new) }
    ensures stands { TellsLast result (codes "stopped") (spoken W.contents port.new) }
{
    tell_output(debuggee, port)?;
    port.tell(paused_message(debuggee)?)
}

/// How a run that wasn't debugged ended, as a line.
fn end_text<'c, A: Allocator + Copy + 'c, L: HasMachine<A, Code<'c, A>>>(
    debuggee: &Debuggee<'c, A, L>,
) -> Result<String<A>, AllocError> {
    let alloc = debuggee.alloc;
    let machine = debuggee.machine();
    let mut text = match ended_elsewhere(alloc, machine, &debuggee.names)? {
        Some(end) => end,
        None => place_text(alloc, debuggee.position(), machine)?,
    };
    text.push_str("\n")?;
    Ok(text)
}

/// Tells what is new of the output of a run that wasn't debugged, how it ended, and that the session can be ended.
pub fn tell_end<'c, A: Allocator + Copy + 'c, L: HasMachine<A, Code<'c, A>>, W: Sink>(
    debuggee: &mut Debuggee<'c, A, L>,
    port: &mut Port<A, W>,
) -> Result<(), Trouble>
    ensures events { Tells result (spoken W.contents port.old) (spoken W.contents port.new) }
    ensures ends { TellsLast result (codes "terminated") (spoken W.contents port.new) }
{
    tell_output(debuggee, port)?;
    let alloc = debuggee.alloc;
    let text = end_text(debuggee)?;
    port.tell(output_event(alloc, "console", text.as_str())?)?;
    tell_plain(alloc, "terminated", port)
}
