//! The frames of a run, as an editor's stack: the innermost is number 1.

ghost use Rattle.std.specs.Prelude.{◌≡◌, ◌⊎◌, ◌+◌, ◌-◌, ◌<◌, ◌++◌, ℕ, List, length, slice_get, string_bytes, option_map, IfOk, MatchOption, Some};
ghost use Rattle.json.specs.Token.{Token};
ghost use Rattle.qil_frames.specs.Frames.{SlotFrame};
ghost use Rattle.qil_state.specs.State.{frame_state, frames_state, state_of};
ghost use Rattle.qrev_protocol.specs.Outgoing.{Adds};
ghost use Rattle.qrev_views.specs.Frames.{ShowsFrameAt, ShowsFrames, ShowsStack, end_item, frame_end, item_head, label_end, shown_name, source_tokens};
ghost use Rattle.qrev_views.specs.Pages.{page_of};
ghost use Rattle.qrev_views.specs.Sources.{counted_line, shown_index, frame_line, origin_of, place_tokens, IsShownAt};

use crate::source_map::{SourceLine, SourceMap};
use crate::texts::{joined, place_text};
use crate::variable::Page;
use qil_code::Code;
use qil_fragments::Fragment;
use qil_history::FrameView;
use qil_lines::{Place, line_of};
use qil_render::{Readers, code_of, func_name, label_name};
use qil_tree::Program;
use qrev_protocol::{Array, InArray, Object, Surrounding};
use std::alloc::{AllocError, Allocator};

/// The numbers that an editor gives the first line and the first column: 1 or 0.
#[derive(Clone, Copy)]
pub struct Numbering {
    pub first_line: u32,
    pub first_column: u32,
}

impl Numbering {
    /// A line of the text, counted from 1, as the editor counts.
    pub fn line(self, line: u32) -> u64
        ensures { result ≡ counted_line self line }
    {
        u64::from(line.saturating_sub(1)).saturating_add(u64::from(self.first_line))
    }

    /// A line of the editor, counted from 1, if it is below 2^32.
    pub fn file_line(self, line: u64) -> Option<u32> {
        let line = line
            .saturating_sub(u64::from(self.first_line))
            .saturating_add(1);
        u32::try_from(line).ok()
    }

    /// A line of the editor, as the text counts.
    pub fn text_line(self, line: u64) -> u32 {
        self.file_line(line).unwrap_or(u32::MAX)
    }
}

/// The text that is shown: what an editor calls its file, and how it counts.
#[derive(Clone, Copy)]
pub struct Shown<'p> {
    pub path: &'p str,
    pub numbering: Numbering,
}

/// Adds the source: the file of the program.
pub fn put_source<A: Allocator, U: Surrounding>(
    body: Object<A, U>,
    path: &str,
) -> Result<Object<A, U>, AllocError>
    ensures { IfOk result (λ o. (name : List ℕ) × Adds body.out o.out (source_tokens name path.now)) }
{
    let name = path.rsplit('/').next().unwrap_or(path);
    let body = body
        .object("source")?
        .text("name", name)?
        .text("path", path)?
        .end()?;
    Ok(body)
}

/// The frame of a number.
pub fn frame_of<'m, 'c, A: Allocator + Copy + 'c, M: Readers<A, Code<'c, A>>>(
    machine: &'m M,
    number: u64,
) -> Option<FrameView<'m>>
    ensures { MatchOption result ((number ≡ 0) ⊎ (length (M.whole machine.now).frames < number)) (λ frame. slice_get (M.whole machine.now).frames (number - 1) ≡ Some frame) }
{
    if number == 0 {
        return None;
    }
    machine.frame((number - 1) as usize)
}

/// The place that is shown of a frame: of a caller its call, after which its index stands.
pub fn place_of_frame(frame: &FrameView<'_>, number: u64) -> Place
    ensures block { result.block ≡ frame.now.block }
    ensures index { result.index ≡ shown_index number frame.now }
{
    let index = frame.index() as usize;
    Place {
        block: usize::from(frame.block().index),
        index: if number == 1 {
            index
        } else {
            index.saturating_sub(1)
        },
    }
}

/// The line of the text that is shown of a frame.
fn line_of_frame<A: Allocator>(program: &Program<'_, A>, frame: &FrameView<'_>, number: u64) -> u32
    ensures { result ≡ frame_line program.now frame.now number }
{
    match program
        .funcs
        .as_slice()
        .get(usize::from(frame.func().index))
    {
        Some(func) => line_of(func, place_of_frame(frame, number)).unwrap_or(func.line),
        None => 1,
    }
}

/// The name of a frame: its function, its block, and the index where it stands.
fn frame_name<A: Allocator + Copy>(
    alloc: A,
    code: &Code<'_, A>,
    frame: &FrameView<'_>,
) -> Result<String<A>, AllocError>
    ensures { (callers : List SlotFrame) → IfOk result (λ name. string_bytes name ≡ shown_name (frame_state code.now callers frame.now)) }
{
    joined(
        alloc,
        &[
            Fragment::Bytes(b"$"),
            Fragment::Bytes(func_name(code, frame.func())),
            Fragment::Bytes(b" @"),
            Fragment::Bytes(label_name(code, frame.func(), frame.block())),
            Fragment::Bytes(b" "),
            Fragment::Number(u64::from(frame.index())),
        ],
    )
}

/// Adds a line of a source.
fn put_source_line<A: Allocator, U: Surrounding>(
    item: Object<A, U>,
    path: &str,
    line: u64,
) -> Result<Object<A, U>, AllocError>
    ensures { IfOk result (λ o. (name : List ℕ) × Adds item.out o.out (place_tokens name path.now line)) }
{
    let item = put_source(item, path)?.number("line", line)?;
    Ok(item)
}

/// The line of a source that a line of the text came from, if it came from one.
fn source_line<A: Allocator + Copy>(
    alloc: A,
    source_map: Option<&SourceMap<A>>,
    line: u32,
) -> Result<Option<SourceLine<A>>, AllocError>
    ensures { IfOk result (λ source. option_map (λ s. s.line) source ≡ option_map (λ origin. origin.line) (origin_of source_map.entry line)) }
{
    let Some(source_map) = source_map else {
        return Ok(None);
    };
    source_map.line_of(alloc, line)
}

/// Adds where a line of the text is shown: in the source that it came from, if it came from one.
fn put_line<A: Allocator + Copy, U: Surrounding>(
    alloc: A,
    item: Object<A, U>,
    shown: Shown<'_>,
    source_map: Option<&SourceMap<A>>,
    line: u32,
) -> Result<Object<A, U>, AllocError>
    ensures { IfOk result (λ o. (place : List Token) × IsShownAt shown.entry (origin_of source_map.entry line) line place × Adds item.out o.out place) }
{
    let found = source_line(alloc, source_map, line)?;
    let source = match found {
        Some(source) => source,
        None => {
            let item = put_source_line(item, shown.path, shown.numbering.line(line))?;
            return Ok(item);
        }
    };
    let item = put_source_line(
        item,
        source.path.as_str(),
        shown.numbering.line(source.line),
    )?;
    Ok(item)
}

/// Begins an item with a number and a name.
fn begin_item<A: Allocator, U: Surrounding>(
    list: Array<A, U>,
    number: u64,
    name: &str,
) -> Result<Object<A, InArray<U>>, AllocError>
    ensures { IfOk result (λ o. Adds list.out o.out (item_head number name.now)) }
{
    let item = list.object()?.number("id", number)?.text("name", name)?;
    Ok(item)
}

/// Ends the item of a frame with its column.
fn end_frame<A: Allocator, U: Surrounding>(
    item: Object<A, InArray<U>>,
    column: u64,
) -> Result<Array<A, U>, AllocError>
    ensures { IfOk result (λ l. Adds item.out l.out (frame_end column)) }
{
    let list = item.number("column", column)?.end_item()?;
    Ok(list)
}

/// Adds a frame.
fn put_frame<'c, A: Allocator + Copy, U: Surrounding>(
    alloc: A,
    list: Array<A, U>,
    code: &Code<'c, A>,
    program: &Program<'c, A>,
    shown: Shown<'_>,
    source_map: Option<&SourceMap<A>>,
    frame: &FrameView<'_>,
    number: u64,
) -> Result<Array<A, U>, AllocError>
    ensures { (callers : List SlotFrame) → IfOk result (λ l. (item : List Token)
        × ShowsFrameAt (IsShownAt shown.entry (origin_of source_map.entry (frame_line program.now frame.now number)) (frame_line program.now frame.now number))
        number (frame_state code.now callers frame.now) item
        × Adds list.out l.out item) }
{
    let line = line_of_frame(program, frame, number);
    let name = frame_name(alloc, code, frame)?;
    let item = begin_item(list, number, name.as_str())?;
    let item = put_line(alloc, item, shown, source_map, line)?;
    let list = end_frame(item, u64::from(shown.numbering.first_column))?;
    Ok(list)
}

/// Ends the item that stands in place of frames.
fn end_label<A: Allocator, U: Surrounding>(
    item: Object<A, InArray<U>>,
) -> Result<Array<A, U>, AllocError>
    ensures { IfOk result (λ l. Adds item.out l.out label_end) }
{
    let list = item
        .number("line", 0)?
        .number("column", 0)?
        .text("presentationHint", "label")?
        .end_item()?;
    Ok(list)
}

/// Adds, where no call is open, one item in place of frames: how the run ended.
fn put_end<'c, A: Allocator + Copy + 'c, M: Readers<A, Code<'c, A>>, U: Surrounding>(
    alloc: A,
    list: Array<A, U>,
    position: u64,
    machine: &M,
) -> Result<Array<A, U>, AllocError>
    ensures { IfOk result (λ l. Adds list.out l.out (end_item position (state_of (M.whole machine.now)))) }
{
    let place = place_text(alloc, position, machine)?;
    let item = begin_item(list, 1, place.as_str())?;
    let list = end_label(item)?;
    Ok(list)
}

/// A frame, counted from the innermost one.
fn frame_at<'m, 'c, A: Allocator + Copy + 'c, M: Readers<A, Code<'c, A>>>(
    machine: &'m M,
    inner: usize,
) -> FrameView<'m>
    requires { inner < length (M.whole machine.now).frames }
    ensures { slice_get (M.whole machine.now).frames inner ≡ Some result }
{
    match machine.frame(inner) {
        Some(frame) => frame,
        None => unreachable!(),
    }
}

/// Adds the frames of a page, the innermost first.
fn put_page<'c, A: Allocator + Copy + 'c, M: Readers<A, Code<'c, A>>, U: Surrounding>(
    alloc: A,
    list: Array<A, U>,
    machine: &M,
    program: &Program<'c, A>,
    shown: Shown<'_>,
    source_map: Option<&SourceMap<A>>,
    page: Page,
) -> Result<Array<A, U>, AllocError>
    ensures { IfOk result (λ l. (items : List Token) × ShowsFrames (page.start + 1) (page_of page (frames_state (M.whole machine.now).program (M.whole machine.now).frames)) items
        × Adds list.out l.out items) }
{
    let (first, after) = page.of(machine.depth());
    let code = code_of(machine);
    let mut list = list;
    for inner in first..after {
        let frame = frame_at(machine, inner);
        list = put_frame(
            alloc,
            list,
            code,
            program,
            shown,
            source_map,
            &frame,
            inner as u64 + 1,
        )?;
    }
    Ok(list)
}

/// Adds the frames of a page, and how many there are in all, each at the line of the source that its line came from, if it came
/// from one. Where no call is open there is one item, which tells how the run ended after so many moves.
pub fn put_frames<'c, A: Allocator + Copy + 'c, M: Readers<A, Code<'c, A>>, U: Surrounding>(
    alloc: A,
    body: Object<A, U>,
    position: u64,
    machine: &M,
    program: &Program<'c, A>,
    shown: Shown<'_>,
    source_map: Option<&SourceMap<A>>,
    page: Page,
) -> Result<Object<A, U>, AllocError>
    ensures { IfOk result (λ o. (tokens : List Token) × ShowsStack position (state_of (M.whole machine.now)) page tokens × Adds body.out o.out tokens) }
{
    let count = machine.depth();
    let list = body.array("stackFrames")?;
    if count == 0 {
        let body = put_end(alloc, list, position, machine)?
            .end()?
            .number("totalFrames", 1)?;
        return Ok(body);
    }
    let body = put_page(alloc, list, machine, program, shown, source_map, page)?
        .end()?
        .number("totalFrames", count as u64)?;
    Ok(body)
}
