//! A map, read once, and what it says of lines of a text.

ghost use Rattle.std.specs.Prelude.{◌≡◌, ◌+◌, ◌≤◌, length, IfOk, IfErr, OnOk, slice_get};
ghost use Rattle.std.specs.Option.{option_flatten};
ghost use Rattle.std.specs.List.Sorted.{IsPermutation};
ghost use Rattle.qil_streams.specs.Script.{lines_of};
ghost use Rattle.qrev_map.specs.Maps.{Tell, source_at};
ghost use Rattle.qrev_map.specs.Spans.{origins_in, origins_of, path_of, AddsLine, LineRefused, MapRefused, origin_shown};
ghost use Rattle.qrev_map.specs.Mappings.{mappings_of, Rise};

use crate::file::{Mapping, SourceFile};
use crate::line::told_in;
use crate::map::{MAP_LIMIT, Map, MapError, OriginSpan};
use memchr::memchr;
use std::alloc::{AllocError, Allocator};

/// Bytes of a text from a place on, as many as there are.
fn part(text: &[u8], start: usize, length: usize) -> &[u8]
    ensures { result.now ≡ path_of text.now start length }
{
    let (_, after) = text.split_at(start.min(text.len()));
    let (part, _) = after.split_at(length.min(after.len()));
    part
}

/// Adds what the line of a map says that has so many bytes from a place on.
fn add_line<A: Allocator>(
    spans: &mut Vec<Option<OriginSpan>, A>,
    text: &[u8],
    start: usize,
    count: usize,
) -> Result<(), MapError>
    requires within { start + count ≤ length text.now }
    ensures added { OnOk result (AddsLine text.now start count spans.old.items spans.new.items) }
    ensures refused { IfErr result (LineRefused (path_of text.now start count) (length spans.old.items)) }
{
    match told_in(&text[start..start + count]) {
        Ok(Some(told)) => spans.push(Some(OriginSpan {
            start: start + told.path_start,
            length: told.path_length,
            line: told.line,
        }))?,
        Ok(None) => spans.push(None)?,
        Err(_) => return Err(MapError::Malformed(spans.len())),
    }
    Ok(())
}

/// What the lines of a map say.
fn spans_in<A: Allocator>(alloc: A, text: &[u8]) -> Result<Vec<Option<OriginSpan>, A>, MapError>
    ensures told { IfOk result (λ spans. Tell (lines_of text.now) (origins_in text.now spans.items)) }
    ensures few { IfOk result (λ spans. length spans.items ≤ length text.now) }
    ensures refused { IfErr result (MapRefused text.now) }
{
    let mut spans = Vec::new(alloc);
    let mut start = 0;
    while let Some(length) = memchr(b'\n', &text[start..]) {
        add_line(&mut spans, text, start, length)?;
        start += length + 1;
    }
    if start < text.len() {
        add_line(&mut spans, text, start, text.len() - start)?;
    }
    Ok(spans)
}

impl<A: Allocator + Copy> Map<A> {
    /// Reads a map. It is taken as a whole or not at all.
    pub fn parse(alloc: A, text: Vec<u8, A>) -> Result<Map<A>, MapError>
        ensures told { IfOk result (λ map. Tell (lines_of text.items) (origins_of map)) }
        ensures refused { IfErr result (MapRefused text.items) }
    {
        if text.len() > MAP_LIMIT {
            return Err(MapError::TooLong);
        }
        let spans = spans_in(alloc, text.as_slice())?;
        Ok(Map { text, spans })
    }

    /// The path of a source.
    fn path(&self, span: OriginSpan) -> &[u8]
        ensures { result.now ≡ path_of self.now.text.items span.start span.length }
    {
        part(self.text.as_slice(), span.start, span.length)
    }

    /// What the line with so many before it says, if there is one and it says something.
    fn span(&self, index: usize) -> Option<OriginSpan>
        ensures { result ≡ option_flatten (slice_get self.now.spans.items index) }
    {
        self.spans.as_slice().get(index).copied().flatten()
    }

    /// How many lines the map has.
    pub fn len(&self) -> u32
        ensures { result ≡ length self.now.spans.items }
    {
        self.spans.len() as u32
    }

    /// The path of the source and the number of its line that a line of the text came from, counted from 1.
    pub fn source_of(&self, line: u32) -> Option<(&[u8], u32)>
        ensures { origin_shown result ≡ source_at (origins_of self.now) line }
    {
        if line == 0 {
            return None;
        }
        let span = self.span(line as usize - 1)?;
        Some((self.path(span), span.line))
    }

    /// The lines of a source that lines of the text came from, with these. It takes as long as the map is.
    pub fn file(&self, alloc: A, path: &[u8]) -> Result<SourceFile<A>, AllocError>
        ensures same { IfOk result (λ file. IsPermutation (mappings_of path.now (origins_of self.now)) file.mappings.items) }
        ensures rise { IfOk result (λ file. Rise file.mappings.items) }
    {
        let mut mappings = Vec::new(alloc);
        let spans = self.spans.as_slice();
        for index in 0..spans.len() {
            if let Some(span) = spans[index] {
                if self.path(span) == path {
                    mappings.push(Mapping {
                        line: span.line,
                        text_line: index as u32 + 1,
                    })?;
                }
            }
        }
        SourceFile::new(mappings)
    }
}
