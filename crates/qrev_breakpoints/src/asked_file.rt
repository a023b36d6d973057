//! The file that a request about lines is about.

use qil_machine::Code;
use qrev_debuggee::{Cause, Debuggee, Failure, HasMachine};
use qrev_map::SourceFile;
use qrev_requests::Arguments;
use qrev_views::{SourceMap, plain_path, same_file};
use std::alloc::{AllocError, Allocator};

/// A source that a request is about.
#[derive(Drop)]
pub struct AskedSource<A: Allocator> {
    /// The first line of the text that came from it, by which it is known.
    pub first_line: u32,
    pub path: String<A>,
    pub file: SourceFile<A>,
}

/// The file that a request is about.
#[derive(Drop)]
pub enum AskedFile<A: Allocator> {
    Text,
    Source(AskedSource<A>),
}

/// The source that an editor calls by a path, if the text came from it.
fn source_named<A: Allocator + Copy>(
    alloc: A,
    source_map: &SourceMap<A>,
    path: &str,
) -> Result<Option<AskedSource<A>>, AllocError> {
    let Some(first_line) = source_map.named(alloc, path)? else {
        return Ok(None);
    };
    let Some((map_path, _)) = source_map.map.source_of(first_line) else {
        return Ok(None);
    };
    let file = source_map.map.file(alloc, map_path)?;
    match source_map.line_of(alloc, first_line)? {
        Some(shown) => Ok(Some(AskedSource {
            first_line,
            path: shown.path,
            file,
        })),
        None => Ok(None),
    }
}

/// The source that a request is about.
fn source_asked<'c, A: Allocator + Copy + 'c, L: HasMachine<A, Code<'c, A>>>(
    debuggee: &Debuggee<'c, A, L>,
    path: &str,
) -> Result<AskedFile<A>, Failure> {
    let Some(source_map) = &debuggee.source_map else {
        return Err(Failure::Because(Cause::AnotherFile));
    };
    match source_by(
        debuggee.alloc,
        source_map,
        path,
        debuggee.asked_path.as_ref(),
    )? {
        Some(source) => Ok(AskedFile::Source(source)),
        None => Err(Failure::Because(Cause::AnotherFile)),
    }
}

/// The source at a path, or at the target of its link.
fn source_by<A: Allocator + Copy>(
    alloc: A,
    source_map: &SourceMap<A>,
    path: &str,
    real: Option<&String<A>>,
) -> Result<Option<AskedSource<A>>, AllocError> {
    let plain = plain_path(alloc, path)?;
    let found = source_named(alloc, source_map, plain.as_str())?;
    match (found, real) {
        (None, Some(real)) => source_named(alloc, source_map, real.as_str()),
        (found, _) => Ok(found),
    }
}

/// Whether two files are one, as far as is known of where their paths lead.
fn is_same<A: Allocator>(one: Option<&String<A>>, other: Option<&String<A>>) -> bool {
    match (one, other) {
        (Some(one), Some(other)) => one.as_str() == other.as_str(),
        _ => false,
    }
}

/// Whether a path is that of the program's text.
fn is_program<'c, A: Allocator + Copy + 'c, L: HasMachine<A, Code<'c, A>>>(
    debuggee: &Debuggee<'c, A, L>,
    path: &str,
) -> Result<bool, AllocError> {
    if is_same(debuggee.asked_path.as_ref(), debuggee.real_path.as_ref()) {
        return Ok(true);
    }
    let asked = plain_path(debuggee.alloc, path)?;
    let own = plain_path(debuggee.alloc, debuggee.shown.path)?;
    Ok(same_file(asked.as_str(), own.as_str()))
}

/// The file that a request is about: the program's, or a source that its text came from.
pub fn file_asked<'c, A: Allocator + Copy + 'c, L: HasMachine<A, Code<'c, A>>>(
    debuggee: &Debuggee<'c, A, L>,
    source: Arguments<'_, '_, A>,
) -> Result<AskedFile<A>, Failure> {
    match source.text("path") {
        Some(path) => {
            if is_program(debuggee, path)? {
                Ok(AskedFile::Text)
            } else {
                source_asked(debuggee, path)
            }
        }
        None => Err(Failure::Because(Cause::AnotherFile)),
    }
}
