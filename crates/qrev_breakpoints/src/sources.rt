//! `loadedSources`: the text, and the sources of its map.

use qil_machine::Code;
use qrev_debuggee::{Body, Debuggee, Failure, HasMachine};
use qrev_protocol::{Array, InObject, Whole};
use qrev_views::SourceMap;
use std::alloc::{AllocError, Allocator};

/// The list of sources in a body.
type SourceList<A> = Array<A, InObject<InObject<Whole>>>;

/// Adds a source by its path.
fn put_path<A: Allocator>(list: SourceList<A>, path: &str) -> Result<SourceList<A>, AllocError> {
    let name = path.rsplit('/').next().unwrap_or(path);
    list.object()?
        .text("name", name)?
        .text("path", path)?
        .end_item()
}

/// The lines of the text that are the first of their sources.
fn first_lines<A: Allocator + Copy>(
    alloc: A,
    source_map: &SourceMap<A>,
) -> Result<Vec<u32, A>, AllocError> {
    let mut seen = Vec::new(alloc);
    let mut found = Vec::new(alloc);
    for index in 0..source_map.map.len() {
        let Some((path, _)) = source_map.map.source_of(index + 1) else {
            continue;
        };
        if seen.as_slice().contains(&path) {
            continue;
        }
        seen.push(path)?;
        found.push(index + 1)?;
    }
    Ok(found)
}

/// Adds the sources of a map, in the order in which they come first.
fn put_sources<A: Allocator + Copy>(
    alloc: A,
    list: SourceList<A>,
    source_map: &SourceMap<A>,
) -> Result<SourceList<A>, AllocError> {
    let mut list = list;
    let lines = first_lines(alloc, source_map)?;
    for line in lines.as_slice() {
        if let Some(source) = source_map.line_of(alloc, *line)? {
            list = put_path(list, source.path.as_str())?;
        }
    }
    Ok(list)
}

/// Adds the text, and the sources that it came from.
pub fn loaded_sources<'c, A: Allocator + Copy + 'c, L: HasMachine<A, Code<'c, A>>>(
    debuggee: &Debuggee<'c, A, L>,
    body: Body<A>,
) -> Result<Body<A>, Failure> {
    let list = put_path(body.array("sources")?, debuggee.shown.path)?;
    let list = match &debuggee.source_map {
        Some(source_map) => put_sources(debuggee.alloc, list, source_map)?,
        None => list,
    };
    Ok(list.end()?)
}
