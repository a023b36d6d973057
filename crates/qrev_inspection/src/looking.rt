//! The requests that look at a state: frames, scopes, variables.

ghost use Rattle.std.specs.Prelude.{◌≡◌, ◌⊎◌, ◌+◌, ◌-◌, ◌^◌, ◌<◌, ◌==◌, ◌++◌, ℕ, cond, codes, List, Option, Some, IfErr, IfOk, drop, flat_map, length, slice_get};
ghost use Rattle.json.specs.Token.{Token};
ghost use Rattle.qil_memory.specs.Live.{live};
ghost use Rattle.qil_frames.specs.Frames.{SlotFrame};
ghost use Rattle.qil_semantics.specs.Timeline.{position, oldest};
ghost use Rattle.qil_state.specs.State.{frame_state};
ghost use Rattle.qil_render.specs.Shown.{temps_of_frame};
ghost use Rattle.qrev_protocol.specs.Outgoing.{Adds};
ghost use Rattle.qrev_debuggee.specs.declared.failure.Failure.TheVariants.{Because, OutOfMemory};
ghost use Rattle.qrev_debuggee.specs.declared.failure.Cause.TheVariants.{NoSuchFrame, NoSuchVariables};
ghost use Rattle.qrev_requests.specs.Members.{json_of};
ghost use Rattle.qrev_views.specs.Frames.{ShowsStack};
ghost use Rattle.qrev_views.specs.Pages.{page_of};
ghost use Rattle.qrev_views.specs.Scopes.{scopes_tokens};
ghost use Rattle.qrev_views.specs.Variables.{ShowsTemps, fixed_tokens, machine_rows};
ghost use Rattle.qrev_inspection.specs.Shown.{ShowsFrame, IsMissing, variables_member};
ghost use Rattle.qrev_inspection.specs.Requested.{AsksPage, HasNoScopes, HasNoVariables, HasNoneAsked, Lists, ShowsAsked, ShowsDatas, ShowsScopes, ShowsTemporaries, ShowsVariables, frame_numbered, said_in, showing_of};

use qil_layout::FuncId;
use qil_machine::Code;
use qrev_debuggee::{Body, Cause, Client, Debuggee, Failure, HasMachine};
use qrev_map::Names;
use qrev_requests::Arguments;
use qrev_views::{
    DATA, FrameView, MACHINE, OBJECTS, POINTED, Page, Readers, Showing, code_of, frame_of,
    put_data, put_frames, put_machine, put_object_parts, put_pointed_parts, put_scopes, put_temps,
};
use std::alloc::{AllocError, Allocator};

/// The form of values that a request asks for.
pub fn showing_said<A: Allocator + Copy>(client: Client, asked: Arguments<'_, '_, A>) -> Showing
    ensures { result ≡ showing_of client (json_of asked.entry) }
{
    Showing {
        is_hex: asked.inside("format").flag("hex").unwrap_or(false),
        has_types: client.has_types,
        has_references: client.has_references,
    }
}

/// The text that a request says under a name, or the empty one.
pub fn text_said<'q, A: Allocator + Copy>(asked: Arguments<'_, 'q, A>, name: &str) -> &'q str
    ensures { result.now ≡ said_in name.now (json_of asked.entry) }
{
    asked.text(name).unwrap_or("")
}

/// How many items a count says: 0 stands for all.
fn all_for_none(count: u64) -> u64
    ensures { result ≡ cond (count == 0) (2 ^ 64 - 1) count }
{
    if count == 0 { u64::MAX } else { count }
}

/// The page that a request asks for. Where it says no count, or 0, all are meant.
fn page_said<A: Allocator + Copy>(asked: Arguments<'_, '_, A>, start: &str, count: &str) -> Page
    ensures { AsksPage (json_of asked.entry) start.now count.now result }
{
    let start = asked.number(start).unwrap_or(0);
    let count = asked.number(count).unwrap_or(0);
    Page {
        start,
        count: all_for_none(count),
    }
}

/// Adds the frames of the page that a request asks for.
pub fn stack_trace<'c, A: Allocator + Copy + 'c, L: HasMachine<A, Code<'c, A>>>(
    debuggee: &Debuggee<'c, A, L>,
    asked: Arguments<'_, '_, A>,
    body: Body<A>,
) -> Result<Body<A>, Failure>
    ensures { IfOk result (λ o. (page : Page) × (tokens : List Token)
        × AsksPage (json_of asked.entry) (codes "startFrame") (codes "levels") page
        × ShowsStack (position (L.state debuggee.now.recorder.live).timeline) (L.state debuggee.now.recorder.live).timeline.now page tokens × Adds body.out o.out tokens) }
{
    let page = page_said(asked, "startFrame", "levels");
    let position = debuggee.position();
    Ok(put_frames(
        debuggee.alloc,
        body,
        position,
        debuggee.machine(),
        debuggee.program(),
        debuggee.shown,
        debuggee.source_map.as_ref(),
        page,
    )?)
}

/// Adds the scopes of the frame of a number. Where no call is open, the first one stands for the end of the run.
fn frame_scopes<'c, A: Allocator + Copy + 'c, M: Readers<A, Code<'c, A>>>(
    machine: &M,
    number: u64,
    datas: usize,
    body: Body<A>,
) -> Result<Body<A>, Failure>
    ensures shown { IfOk result (λ o. Adds body.out o.out (scopes_tokens number (slice_get (M.whole machine.now).frames (number - 1)) datas)) }
    ensures fails { IfErr result (λ why. IsMissing why (Because NoSuchFrame) number (M.whole machine.now).frames) }
{
    let frame = frame_of(machine, number);
    if frame.is_none() && (number != 1 || machine.depth() > 0) {
        return Err(Failure::Because(Cause::NoSuchFrame));
    }
    Ok(put_scopes(body, frame, number, datas)?)
}

/// Says that a frame has a slot for each temporary of its function.
fn are_slots<'c, A: Allocator + Copy + 'c, M: Readers<A, Code<'c, A>>>(machine: &M)
    ensures { (k : ℕ) (f : SlotFrame) → slice_get (M.whole machine.now).frames k ≡ Some f
        → length f.slots ≡ length (temps_of_frame (M.whole machine.now).program (frame_state (M.whole machine.now).program (drop (k + 1) (M.whole machine.now).frames) f)) }
{
    let _known = code_of(machine).func(FuncId { index: 0 });
    let _there = machine.frame(0);
}

/// Adds the scopes of a frame. 0 is the number of none.
pub fn scopes<'c, A: Allocator + Copy + 'c, L: HasMachine<A, Code<'c, A>>>(
    debuggee: &Debuggee<'c, A, L>,
    asked: Arguments<'_, '_, A>,
    body: Body<A>,
) -> Result<Body<A>, Failure>
    ensures shown { IfOk result (λ o. ShowsScopes (L.state debuggee.now.recorder.live) (json_of asked.entry) body.out o.out) }
    ensures fails { IfErr result (λ why. HasNoScopes (L.state debuggee.now.recorder.live) (json_of asked.entry) why) }
{
    let number = asked.number("frameId").unwrap_or(0);
    if number == 0 {
        return Err(Failure::Because(Cause::NoSuchFrame));
    }
    let program = debuggee.program();
    let datas = program.datas.as_slice().len();
    let machine = debuggee.machine();
    are_slots(machine);
    frame_scopes(machine, number, datas, body)
}

/// Adds the variables of the machine.
fn machine_variables<'c, A: Allocator + Copy + 'c, L: HasMachine<A, Code<'c, A>>>(
    debuggee: &Debuggee<'c, A, L>,
    page: Page,
    body: Body<A>,
) -> Result<Body<A>, AllocError>
    ensures { IfOk result (λ o. Adds body.out o.out (variables_member (flat_map fixed_tokens (page_of page
        (machine_rows (position (L.state debuggee.now.recorder.live).timeline) (oldest (L.state debuggee.now.recorder.live).timeline) (L.state debuggee.now.recorder.live).timeline.now))))) }
{
    let list = body.array("variables")?;
    let now = debuggee.position();
    let first = debuggee.oldest();
    let machine = debuggee.machine();
    let top = debuggee.top();
    let list = put_machine(debuggee.alloc, list, now, first, machine, top, page)?;
    let body = list.end()?;
    Ok(body)
}

/// Adds the data of the program.
fn data_variables<'c, A: Allocator + Copy + 'c, L: HasMachine<A, Code<'c, A>>>(
    debuggee: &Debuggee<'c, A, L>,
    showing: Showing,
    page: Page,
    body: Body<A>,
) -> Result<Body<A>, AllocError>
    ensures { IfOk result (λ o. Lists body.out o.out (ShowsDatas (L.state debuggee.now.recorder.live).program (L.state debuggee.now.recorder.live).timeline.now debuggee.now.names.text.items showing page)) }
{
    let list = body.array("variables")?;
    let machine = debuggee.machine();
    let program = debuggee.program();
    let names = &debuggee.names;
    let list = put_data(debuggee.alloc, list, machine, program, names, showing, page)?;
    let body = list.end()?;
    Ok(body)
}

/// Adds the temporaries of the frame of a number.
fn temp_variables<'c, A: Allocator + Copy + 'c, M: Readers<A, Code<'c, A>>>(
    alloc: A,
    machine: &M,
    names: &Names<A>,
    frame: &FrameView<'_>,
    number: u64,
    showing: Showing,
    page: Page,
    body: Body<A>,
) -> Result<Body<A>, AllocError>
    ensures { (k : ℕ) → slice_get (M.whole machine.now).frames k ≡ Some frame.now
        → IfOk result (λ o. (items : List Token) × ShowsTemps (M.whole machine.now).program (live (M.whole machine.now).memory) names.now.text.items showing (number == 1)
        (frame_state (M.whole machine.now).program (drop (k + 1) (M.whole machine.now).frames) frame.now) page items × Adds body.out o.out (variables_member items)) }
{
    let list = body.array("variables")?;
    let list = put_temps(alloc, list, machine, names, frame, number, showing, page)?;
    let body = list.end()?;
    Ok(body)
}

/// Adds the temporaries of the frame of a number, if there is one.
fn frame_variables<'c, A: Allocator + Copy + 'c, M: Readers<A, Code<'c, A>>>(
    alloc: A,
    machine: &M,
    names: &Names<A>,
    number: u64,
    showing: Showing,
    page: Page,
    body: Body<A>,
) -> Result<Body<A>, Failure>
    ensures shown { IfOk result (λ o. (tokens : List Token) × ShowsFrame (M.whole machine.now) names.now.text.items showing number page tokens × Adds body.out o.out tokens) }
    ensures fails { IfErr result (λ why. IsMissing why (Because NoSuchVariables) number (M.whole machine.now).frames) }
{
    match frame_of(machine, number) {
        Some(frame) => Ok(temp_variables(
            alloc, machine, names, &frame, number, showing, page, body,
        )?),
        None => Err(Failure::Because(Cause::NoSuchVariables)),
    }
}

/// Adds the temporaries of the frame of a number, in a session. 0 is the number of none.
fn temporaries<'c, A: Allocator + Copy + 'c, L: HasMachine<A, Code<'c, A>>>(
    debuggee: &Debuggee<'c, A, L>,
    number: u64,
    showing: Showing,
    page: Page,
    body: Body<A>,
) -> Result<Body<A>, Failure>
    ensures shown { IfOk result (λ o. Lists body.out o.out (ShowsTemporaries (L.state debuggee.now.recorder.live).program (L.state debuggee.now.recorder.live).timeline.now debuggee.now.names.text.items showing number page)) }
    ensures fails { IfErr result (λ why. (why ≡ OutOfMemory) ⊎ ((why ≡ Because NoSuchVariables) × (frame_numbered number (L.state debuggee.now.recorder.live).timeline.now.frames ≡ None))) }
{
    if number == 0 {
        return Err(Failure::Because(Cause::NoSuchVariables));
    }
    let machine = debuggee.machine();
    let names = &debuggee.names;
    frame_variables(debuggee.alloc, machine, names, number, showing, page, body)
}

/// Adds the parts of the data object of a number.
fn object_variables<'c, A: Allocator + Copy + 'c, L: HasMachine<A, Code<'c, A>>>(
    debuggee: &Debuggee<'c, A, L>,
    number: u64,
    showing: Showing,
    page: Page,
    body: Body<A>,
) -> Result<Body<A>, Failure>
    ensures { IfErr result (λ why. (why ≡ OutOfMemory) ⊎ (why ≡ Because NoSuchVariables)) }
{
    let datas = debuggee.program().datas.as_slice();
    let Some(data) = datas.get(number as usize) else {
        return Err(Failure::Because(Cause::NoSuchVariables));
    };
    let list = body.array("variables")?;
    let list = put_object_parts(
        debuggee.alloc,
        list,
        debuggee.machine(),
        data,
        showing,
        page,
    )?;
    Ok(list.end()?)
}

/// Adds what a temporary points to, by the number of its frame and its own there.
fn pointed_variables<'c, A: Allocator + Copy + 'c, L: HasMachine<A, Code<'c, A>>>(
    debuggee: &Debuggee<'c, A, L>,
    number: u64,
    showing: Showing,
    page: Page,
    body: Body<A>,
) -> Result<Body<A>, Failure>
    ensures { IfErr result (λ why. (why ≡ OutOfMemory) ⊎ (why ≡ Because NoSuchVariables)) }
{
    let Some(frame) = frame_of(debuggee.machine(), number / 65_536 + 1) else {
        return Err(Failure::Because(Cause::NoSuchVariables));
    };
    let held = frame.slots().get((number % 65_536) as usize).copied();
    let Some(Some(address)) = held else {
        return Err(Failure::Because(Cause::NoSuchVariables));
    };
    let list = body.array("variables")?;
    let list = put_pointed_parts(
        debuggee.alloc,
        list,
        debuggee.machine(),
        address,
        showing,
        page,
    )?;
    Ok(list.end()?)
}

/// Adds the variables of a reference.
fn variables_of<'c, A: Allocator + Copy + 'c, L: HasMachine<A, Code<'c, A>>>(
    debuggee: &Debuggee<'c, A, L>,
    reference: u64,
    showing: Showing,
    page: Page,
    body: Body<A>,
) -> Result<Body<A>, Failure>
    ensures shown { IfOk result (λ o. ShowsVariables (L.state debuggee.now.recorder.live) debuggee.now.names.text.items showing reference page body.out o.out) }
    ensures fails { IfErr result (λ why. HasNoVariables why reference (L.state debuggee.now.recorder.live).timeline.now.frames) }
{
    if reference == MACHINE {
        return Ok(machine_variables(debuggee, page, body)?);
    }
    if reference == DATA {
        return Ok(data_variables(debuggee, showing, page, body)?);
    }
    if reference >= OBJECTS {
        return object_variables(debuggee, reference - OBJECTS, showing, page, body);
    }
    if reference >= POINTED {
        return pointed_variables(debuggee, reference - POINTED, showing, page, body);
    }
    temporaries(debuggee, reference, showing, page, body)
}

/// Adds the variables of a scope, or the parts of one.
pub fn variables<'c, A: Allocator + Copy + 'c, L: HasMachine<A, Code<'c, A>>>(
    debuggee: &Debuggee<'c, A, L>,
    asked: Arguments<'_, '_, A>,
    body: Body<A>,
) -> Result<Body<A>, Failure>
    ensures shown { IfOk result (λ o. ShowsAsked (L.state debuggee.now.recorder.live) debuggee.now.names.text.items debuggee.now.client (json_of asked.entry) body.out o.out) }
    ensures fails { IfErr result (λ why. HasNoneAsked (L.state debuggee.now.recorder.live) (json_of asked.entry) why) }
{
    let page = page_said(asked, "start", "count");
    let showing = showing_said(debuggee.client, asked);
    let reference = asked.number("variablesReference").unwrap_or(0);
    variables_of(debuggee, reference, showing, page, body)
}
