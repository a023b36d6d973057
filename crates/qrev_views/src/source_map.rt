//! Where a text came from, by the map of places beside it: the sources, by the names that an editor has for their files.

ghost use Rattle.std.specs.Prelude.{◌≡◌, IfOk, option_map};
ghost use Rattle.qrev_map.specs.Maps.{source_at};
ghost use Rattle.qrev_map.specs.Spans.{origins_of};

use crate::texts::as_text;
use qrev_map::Map;
use smallvec::SmallVec;
use std::alloc::{AllocError, Allocator};

/// The parts of a path. Few paths have more than 16, and those alone take an allocation for them.
type Parts<'r, 'x, A> = SmallVec<&'x str, 16, &'r A>;

/// A map of places, and the path of its file, to whose folder the relative paths in it refer.
#[derive(Drop)]
pub struct SourceMap<A: Allocator> {
    pub map: Map<A>,
    pub path: String<A>,
}

/// A line of a source.
#[derive(Drop)]
pub struct SourceLine<A: Allocator> {
    pub path: String<A>,
    pub line: u32,
}

impl<A: Allocator + Copy> SourceMap<A> {
    /// A path of the map, as an editor gets it.
    fn shown_path(&self, alloc: A, path: &[u8]) -> Result<String<A>, AllocError> {
        let path = as_text(alloc, path)?;
        let path = unescaped(alloc, path.as_str())?;
        resolved(alloc, self.path.as_str(), path.as_str())
    }

    /// The line of a source that a line of the text came from.
    pub fn line_of(&self, alloc: A, text_line: u32) -> Result<Option<SourceLine<A>>, AllocError>
        ensures { IfOk result (λ source. option_map (λ s. s.line) source ≡ option_map (λ origin. origin.line) (source_at (origins_of self.now.map) text_line)) }
    {
        match self.map.source_of(text_line) {
            Some((path, line)) => {
                let path = self.shown_path(alloc, path)?;
                Ok(Some(SourceLine { path, line }))
            }
            None => Ok(None),
        }
    }

    /// The path of the source of a line of the text, if the line before came from another.
    fn new_path(&self, text_line: u32) -> Option<&[u8]> {
        let (path, _) = self.map.source_of(text_line)?;
        match self.map.source_of(text_line.saturating_sub(1)) {
            Some((before, _)) if before == path => None,
            _ => Some(path),
        }
    }

    /// The first line of the text that came from the source that an editor calls by this path: that of just this path, else the
    /// first whose path is the end of it or ends in it.
    pub fn named(&self, alloc: A, asked: &str) -> Result<Option<u32>, AllocError> {
        let mut found = None;
        for index in 0..self.map.len() {
            let Some(path) = self.new_path(index + 1) else {
                continue;
            };
            let path = self.shown_path(alloc, path)?;
            if path.as_str() == asked {
                return Ok(Some(index + 1));
            }
            if found.is_none() && same_file(path.as_str(), asked) {
                found = Some(index + 1);
            }
        }
        Ok(found)
    }
}

/// Adds a part of a path that stands behind a backslash.
fn push_escaped<A: Allocator>(path: &mut String<A>, part: &str) -> Result<(), AllocError> {
    if let Some(more) = part.strip_prefix("t") {
        path.push_str("\t")?;
        return path.push_str(more);
    }
    if let Some(more) = part.strip_prefix("n") {
        path.push_str("\n")?;
        return path.push_str(more);
    }
    path.push_str("\\")?;
    path.push_str(part)
}

/// A path with its tabulators, newlines and backslashes, which a map has as `\t`, `\n` and `\\`.
fn unescaped<A: Allocator + Copy>(alloc: A, path: &str) -> Result<String<A>, AllocError> {
    let mut whole = String::new(alloc);
    let mut is_escape = false;
    for part in path.split('\\') {
        if is_escape {
            push_escaped(&mut whole, part)?;
        } else {
            whole.push_str(part)?;
        }
        // Where nothing stands between two backslashes they are one, and what follows them is as it is.
        is_escape = !is_escape || !part.is_empty();
    }
    Ok(whole)
}

/// Whether two paths name one file, as far as their words say: they are the same, or one is the end of the other.
pub fn same_file(one: &str, other: &str) -> bool {
    ends_in(one, other) || ends_in(other, one)
}

/// Whether a path is the other, or ends in `/` and the other.
fn ends_in(long: &str, short: &str) -> bool {
    match long.strip_suffix(short) {
        Some(front) => !short.is_empty() && (front.is_empty() || front.ends_with('/')),
        None => false,
    }
}

/// Goes up to the folder that a path of these parts is in.
fn go_up<A: Allocator>(parts: &mut Parts<'_, '_, A>) -> Result<(), AllocError> {
    match parts.as_slice().last() {
        None | Some(&"..") => parts.push("..")?,
        Some(_) => {
            parts.pop();
        }
    }
    Ok(())
}

/// Adds the parts of a path: `.` and empty ones are left out, and `..` goes up.
fn add_parts<'x, A: Allocator>(
    parts: &mut Parts<'_, 'x, A>,
    path: &'x str,
) -> Result<(), AllocError> {
    for part in path.split('/') {
        match part {
            "" | "." => {}
            ".." => go_up(parts)?,
            part => parts.push(part)?,
        }
    }
    Ok(())
}

/// The path of these parts. Above the root there is nothing.
fn joined_parts<A: Allocator + Copy>(
    alloc: A,
    is_absolute: bool,
    parts: &[&str],
) -> Result<String<A>, AllocError> {
    let mut path = String::new(alloc);
    for part in parts {
        if is_absolute && *part == ".." {
            continue;
        }
        if is_absolute || !path.is_empty() {
            path.push_str("/")?;
        }
        path.push_str(part)?;
    }
    Ok(path)
}

/// A path without `.`, `..` and empty parts.
pub fn plain_path<A: Allocator + Copy>(alloc: A, path: &str) -> Result<String<A>, AllocError> {
    let mut parts: Parts<'_, '_, A> = SmallVec::new(&alloc);
    add_parts(&mut parts, path)?;
    joined_parts(alloc, path.starts_with('/'), parts.as_slice())
}

/// A path from the folder of a file, if it is relative.
fn resolved<A: Allocator + Copy>(
    alloc: A,
    file: &str,
    path: &str,
) -> Result<String<A>, AllocError> {
    let mut parts: Parts<'_, '_, A> = SmallVec::new(&alloc);
    if path.starts_with('/') {
        add_parts(&mut parts, path)?;
        return joined_parts(alloc, true, parts.as_slice());
    }
    add_parts(&mut parts, file)?;
    parts.pop();
    add_parts(&mut parts, path)?;
    joined_parts(alloc, file.starts_with('/'), parts.as_slice())
}
