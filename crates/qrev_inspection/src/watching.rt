//! `dataBreakpointInfo`: which stop would watch a variable.

use qil_fragments::Fragment;
use qil_layout::FuncId;
use qil_machine::Code;
use qil_render::func_name;
use qrev_debuggee::{Body, Debuggee, Failure, HasMachine};
use qrev_map::Names;
use qrev_requests::Arguments;
use qrev_views::{
    DATA, Readers, code_of, data_named, data_size, data_word, frame_of, joined, sigiled,
};
use std::alloc::{AllocError, Allocator};

/// What `watch` says of a temporary.
fn temp_id<'x, A: Allocator + Copy>(
    alloc: A,
    func: &'x [u8],
    temp: &'x [u8],
) -> Result<String<A>, AllocError> {
    joined(
        alloc,
        &[
            Fragment::Bytes(b"$"),
            Fragment::Bytes(func),
            Fragment::Bytes(b" %"),
            Fragment::Bytes(temp),
        ],
    )
}

/// What `watch` says of a data object.
fn data_id<'x, A: Allocator + Copy>(
    alloc: A,
    letter: &'x [u8],
    name: &'x [u8],
) -> Result<String<A>, AllocError> {
    joined(
        alloc,
        &[
            Fragment::Bytes(letter),
            Fragment::Bytes(b" $"),
            Fragment::Bytes(name),
        ],
    )
}

/// Why a temporary of an outer frame can't be watched.
fn innermost_alone<A: Allocator + Copy>(alloc: A, func: &[u8]) -> Result<String<A>, AllocError> {
    joined(
        alloc,
        &[
            Fragment::Bytes(b"only the innermost frame of $"),
            Fragment::Bytes(func),
            Fragment::Bytes(b" is watched"),
        ],
    )
}

/// Adds that a data breakpoint can be set, and what it watches.
fn put_watchable<A: Allocator>(body: Body<A>, id: &str) -> Result<Body<A>, AllocError> {
    put_watched(body, id, id)
}

/// The same with another description.
fn put_watched<A: Allocator>(
    body: Body<A>,
    id: &str,
    description: &str,
) -> Result<Body<A>, AllocError> {
    body.text("dataId", id)?
        .text("description", description)?
        .array("accessTypes")?
        .text("write")?
        .end()?
        .flag("canPersist", true)
}

/// Adds that none can be set, and why.
fn put_unwatchable<A: Allocator>(body: Body<A>, why: &str) -> Result<Body<A>, AllocError> {
    body.null("dataId")?.text("description", why)
}

/// Whether the frame of a number is the innermost one of its function.
fn is_innermost<'c, A: Allocator + Copy + 'c, M: Readers<A, Code<'c, A>>>(
    machine: &M,
    number: u64,
    func: FuncId,
) -> bool {
    for inner in 1..number {
        if let Some(other) = frame_of(machine, inner) {
            if other.func() == func {
                return false;
            }
        }
    }
    true
}

/// The function of the frame of a number, if it has a temporary of this name.
fn func_with<'c, A: Allocator + Copy + 'c, M: Readers<A, Code<'c, A>>>(
    machine: &M,
    number: u64,
    temp: &[u8],
) -> Option<FuncId> {
    let func = frame_of(machine, number)?.func();
    match code_of(machine).slot_of(func, temp) {
        Some(_) => Some(func),
        None => None,
    }
}

/// Adds the watch of a temporary of a function, if the frame of the request is the innermost one.
fn put_temp_watch<A: Allocator + Copy>(
    alloc: A,
    is_innermost: bool,
    func: &[u8],
    temp: &[u8],
    body: Body<A>,
) -> Result<Body<A>, AllocError> {
    if is_innermost {
        let id = temp_id(alloc, func, temp)?;
        put_watchable(body, id.as_str())
    } else {
        let why = innermost_alone(alloc, func)?;
        put_unwatchable(body, why.as_str())
    }
}

/// Adds what watches a temporary of a frame.
fn temp_watch<'c, A: Allocator + Copy + 'c, M: Readers<A, Code<'c, A>>>(
    alloc: A,
    machine: &M,
    names: &Names<A>,
    number: u64,
    name: &[u8],
    body: Body<A>,
) -> Result<Body<A>, AllocError> {
    let told = name.strip_prefix(b"%").unwrap_or(name);
    let plain = names.run(b"%", told);
    match func_with(machine, number, plain) {
        Some(func) => put_temp_watch(
            alloc,
            is_innermost(machine, number, func),
            func_name(code_of(machine), func),
            plain,
            body,
        ),
        None => put_unwatchable(body, "nothing to watch"),
    }
}

/// The most bytes of a data object that are watched as a whole.
const WHOLE_LIMIT: u64 = 128;

/// Why only the beginning of a data object is watched.
fn beginning_alone<A: Allocator + Copy>(
    alloc: A,
    id: &str,
    size: u64,
) -> Result<String<A>, AllocError> {
    joined(
        alloc,
        &[
            Fragment::Bytes(id.as_bytes()),
            Fragment::Bytes(b", the first of "),
            Fragment::Number(size),
            Fragment::Bytes(b" bytes"),
        ],
    )
}

/// Adds what watches the beginning of a data object, which is too large to be watched as a whole.
fn put_beginning<A: Allocator + Copy>(
    alloc: A,
    body: Body<A>,
    id: &str,
    size: u64,
) -> Result<Body<A>, AllocError> {
    let description = beginning_alone(alloc, id, size)?;
    put_watched(body, id, description.as_str())
}

/// Adds what watches a data object of a letter.
fn put_data_watch<A: Allocator + Copy>(
    alloc: A,
    (letter, width): (&str, u64),
    size: u64,
    name: &[u8],
    body: Body<A>,
) -> Result<Body<A>, AllocError> {
    if size > width && size <= WHOLE_LIMIT {
        let whole = sigiled(alloc, b"$", name)?;
        return put_watchable(body, whole.as_str());
    }
    let id = data_id(alloc, letter.as_bytes(), name)?;
    if size > width {
        put_beginning(alloc, body, id.as_str(), size)
    } else {
        put_watchable(body, id.as_str())
    }
}

/// Adds what watches a data object.
fn data_watch<'c, A: Allocator + Copy + 'c, M: Readers<A, Code<'c, A>>>(
    alloc: A,
    machine: &M,
    name: &[u8],
    body: Body<A>,
) -> Result<Body<A>, AllocError> {
    let plain = name.strip_prefix(b"$").unwrap_or(name);
    match data_named(code_of(machine).program(), plain) {
        Some(data) => put_data_watch(alloc, data_word(data), data_size(data), plain, body),
        None => put_unwatchable(body, "nothing to watch"),
    }
}

/// What to watch.
#[derive(Clone, Copy)]
enum Watched {
    Data,
    /// A temporary of the frame of this number.
    Temp(u64),
    Nothing,
}

/// What a name without a scope says, by its sigil.
fn watched_by_sigil<A: Allocator + Copy>(asked: Arguments<'_, '_, A>, name: &[u8]) -> Watched {
    match name.first() {
        Some(b'$') => Watched::Data,
        Some(b'%') => Watched::Temp(asked.number("frameId").unwrap_or(1)),
        _ => Watched::Nothing,
    }
}

/// What a name means in the scope of the request.
fn watched_by<A: Allocator + Copy>(asked: Arguments<'_, '_, A>, name: &[u8]) -> Watched {
    match asked.number("variablesReference") {
        Some(0) | None => watched_by_sigil(asked, name),
        Some(DATA) => Watched::Data,
        Some(reference) => Watched::Temp(reference),
    }
}

/// Adds what watches a variable.
fn put_watch<'c, A: Allocator + Copy + 'c, M: Readers<A, Code<'c, A>>>(
    alloc: A,
    machine: &M,
    names: &Names<A>,
    watched: Watched,
    name: &[u8],
    body: Body<A>,
) -> Result<Body<A>, AllocError> {
    match watched {
        Watched::Data => data_watch(alloc, machine, name, body),
        Watched::Temp(number) => temp_watch(alloc, machine, names, number, name, body),
        Watched::Nothing => put_unwatchable(body, "nothing to watch"),
    }
}

/// Adds which stop would watch a variable.
pub fn data_breakpoint_info<'c, A: Allocator + Copy + 'c, L: HasMachine<A, Code<'c, A>>>(
    debuggee: &Debuggee<'c, A, L>,
    asked: Arguments<'_, '_, A>,
    body: Body<A>,
) -> Result<Body<A>, Failure> {
    let name = asked.text("name").unwrap_or("").as_bytes();
    let watched = watched_by(asked, name);
    Ok(put_watch(
        debuggee.alloc,
        debuggee.machine(),
        &debuggee.names,
        watched,
        name,
        body,
    )?)
}
