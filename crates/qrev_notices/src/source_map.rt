//! The map of places of a launch: it is read before the text, and refused as a whole.

ghost use Rattle.qrev_notices.specs.Conversation.{asked_by};
ghost use Rattle.qrev_notices.specs.Reading.{heard, Serves};

use crate::line::{Closed, Ended, Line};
use crate::recording::Files;
use crate::refusals::{closed_by, refuse_with, unread_words};
use qil_streams::{Sink, Source};
use qrev_map::{Map, MapError, Names};
use qrev_protocol::Request;
use qrev_requests::Launch;
use qrev_views::{SourceMap, number_text};
use std::alloc::{AllocError, Allocator};

/// Why a launch has no map of places, though one was asked for or is there.
#[derive(Clone, Copy)]
pub enum MapFault {
    /// The file that was asked for can't be read.
    Unread,
    Refused(MapError),
}

/// The path of the map: that of the launch, else the text's with `.map` behind it.
fn map_path<A: Allocator + Copy>(alloc: A, launch: &Launch<A>) -> Result<String<A>, AllocError> {
    match &launch.map {
        Some(path) => String::from_str(alloc, path.as_str()),
        None => {
            let mut path = String::from_str(alloc, launch.program.as_str())?;
            path.push_str(".map")?;
            Ok(path)
        }
    }
}

/// The sources of a map.
fn sources_in<A: Allocator + Copy>(
    alloc: A,
    path: String<A>,
    text: Vec<u8, A>,
) -> Result<Option<SourceMap<A>>, MapFault> {
    match Map::parse(alloc, text) {
        Ok(map) => Ok(Some(SourceMap { map, path })),
        Err(error) => Err(MapFault::Refused(error)),
    }
}

/// Reads the map of a launch, if there is one.
pub fn read_sources<A: Allocator + Copy, F: Files<A>>(
    alloc: A,
    launch: &Launch<A>,
    files: &F,
) -> Result<Option<SourceMap<A>>, MapFault> {
    let Ok(path) = map_path(alloc, launch) else {
        return Err(MapFault::Refused(MapError::OutOfMemory));
    };
    if path.as_str().is_empty() {
        return Ok(None);
    }
    match files.read_map(path.as_str()) {
        Ok(Some(text)) => sources_in(alloc, path, text),
        Ok(None) => {
            if launch.map.is_some() {
                Err(MapFault::Unread)
            } else {
                Ok(None)
            }
        }
        Err(_) => Err(MapFault::Refused(MapError::OutOfMemory)),
    }
}

/// The path of the names: beside the map, with the ending of names.
fn names_path<A: Allocator + Copy>(alloc: A, launch: &Launch<A>) -> Result<String<A>, AllocError> {
    let path = map_path(alloc, launch)?;
    let front = path.as_str().strip_suffix(".map").unwrap_or(path.as_str());
    let mut names = String::from_str(alloc, front)?;
    names.push_str(".names")?;
    Ok(names)
}

/// Reads what the names of the text of a launch stand for, if a file beside it says so.
pub fn read_names<A: Allocator + Copy, F: Files<A>>(
    alloc: A,
    launch: &Launch<A>,
    files: &F,
) -> Result<Names<A>, AllocError> {
    let path = names_path(alloc, launch)?;
    match files.read_map(path.as_str())? {
        Some(text) => Names::new(text),
        None => Ok(Names::none(alloc)),
    }
}

/// The words of a map that has no path and line where one has to stand, after so many lines.
fn malformed_words<A: Allocator + Copy>(alloc: A, before: usize) -> Result<String<A>, AllocError> {
    let line = number_text(alloc, (before as u64).saturating_add(1))?;
    let mut words = String::from_str(alloc, "map: no path and line in line ")?;
    words.push_str(line.as_str())?;
    Ok(words)
}

/// Why a map isn't taken, in words.
fn fault_words<A: Allocator + Copy>(
    alloc: A,
    path: &str,
    fault: MapFault,
) -> Result<String<A>, AllocError> {
    match fault {
        MapFault::Unread => unread_words(alloc, path),
        MapFault::Refused(MapError::TooLong) => {
            String::from_str(alloc, "map: more than 16777216 bytes")
        }
        MapFault::Refused(MapError::Malformed(before)) => malformed_words(alloc, before),
        MapFault::Refused(MapError::OutOfMemory) => Err(AllocError),
    }
}

/// The path of the map that a launch asks for, if it asks for one.
fn path_asked<A: Allocator>(launch: &Launch<A>) -> &str {
    match &launch.map {
        Some(path) => path.as_str(),
        None => "",
    }
}

/// Responds that a map isn't taken.
pub fn refuse_map<A: Allocator + Copy, S: Source, W: Sink>(
    fault: MapFault,
    launch: &Launch<A>,
    request: Request<'_>,
    line: &mut Line<A, S, W>,
) -> Result<Closed<A>, Ended>
    ensures { Serves result (asked_by request.entry) (heard S.remaining W.contents line.old) (heard S.remaining W.contents line.new) }
{
    let words = fault_words(line.alloc, path_asked(launch), fault);
    closed_by(refuse_with(&mut line.port, request, &words))
}
