//! `qrev-dap`: a debug adapter for editors, on standard input and output.
#![tactic(auto)]

mod counted;

use crate::counted::Counted;
use qil_streams::{FromReader, IntoWriter};
use qrev_adapter::{Ended, Files, Line, Opening, Record, serve};
use std::alloc::{AllocError, Global};
use std::cell::Cell;
use std::fs::OpenOptions;
use std::hash::RandomState;
use std::io::Read;
use std::process::ExitCode;
use std::random::RandomSource;
use std::rt::Env;
use std::{env, fs, io, rt};

/// One byte more than a program may have, so that the reader of programs reports one that is too long.
const READ_LIMIT: u64 = (1 << 20) + 1;

/// The same of a map of places.
const MAP_READ_LIMIT: u64 = (1 << 24) + 1;

/// The word before the name of a file that gets a copy of all input.
const INPUT_COPY: &str = "--input-copy";

/// The files of the system.
#[derive(Drop)]
struct Disk<'r, R> {
    rt: &'r R,
    alloc: Global,
    /// The file that gets a copy of all input, as it comes.
    input_copy: Option<&'r str>,
    /// How many bytes of the input were read.
    taken: &'r Cell<u64>,
}

/// The first bytes of a file.
fn read_file<R: rt::Files>(rt: &R, alloc: Global, name: &str, limit: u64) -> io::Result<Vec<u8>> {
    let mut bytes = Vec::new(alloc);
    fs::open(rt, name)?.take(limit).read_to_end(&mut bytes)?;
    Ok(bytes)
}

impl<'r, R: rt::Files> Files<Global> for Disk<'r, R> {
    fn read(&self, name: &str) -> Option<Vec<u8>> {
        read_file(self.rt, self.alloc, name, READ_LIMIT).ok()
    }

    fn read_map(&self, name: &str) -> Result<Option<Vec<u8>>, AllocError> {
        match read_file(self.rt, self.alloc, name, MAP_READ_LIMIT) {
            Ok(bytes) => Ok(Some(bytes)),
            Err(error) => {
                if error.kind() == io::ErrorKind::OutOfMemory {
                    Err(AllocError)
                } else {
                    Ok(None)
                }
            }
        }
    }

    fn real_path(&self, name: &str) -> Option<String> {
        match self.rt.canonicalize(self.alloc, name) {
            Ok(path) => Some(path.into_string()),
            Err(_) => None,
        }
    }

    fn has_input(&self) -> Option<bool> {
        let name = self.input_copy?;
        match self.rt.metadata(name) {
            Ok(metadata) => Some(metadata.len() > self.taken.get()),
            Err(_) => None,
        }
    }

    fn can_write(&self, name: &str) -> bool {
        let mut options = OpenOptions::new();
        options.write(true).create(true);
        options.open(self.rt, name).is_ok()
    }

    fn write(
        &self,
        script_name: &str,
        transcript_name: &str,
        _opening: Opening<'_>,
        kept: Record<'_>,
    ) -> bool {
        fs::write(self.rt, script_name, kept.script).is_ok()
            && fs::write(self.rt, transcript_name, kept.transcript).is_ok()
    }
}

/// The status after a session.
fn status(ended: Ended) -> u8 {
    match ended {
        Ended::Left | Ended::InputEnded => 0,
        Ended::Broken => 2,
        Ended::OutOfMemory => 3,
    }
}

/// The word behind one, if the command line has both.
fn word_behind<'w>(words: &'w [String], before: &str) -> Option<&'w str> {
    let place = words.iter().position(|word| word.as_str() == before)?;
    let word = words.get(place.saturating_add(1))?;
    Some(word.as_str())
}

/// Serves an editor. Each message is written by one call.
fn serve_editor<R: rt::Files + Input + Print + RandomSource>(
    rt: &R,
    alloc: Global,
    input_copy: Option<&str>,
) -> u8 {
    let Ok(keys) = RandomState::new(rt) else {
        return 2;
    };
    let taken: Cell<u64> = Cell::new(0);
    let files = Disk {
        rt,
        alloc,
        input_copy,
        taken: &taken,
    };
    let source = Counted::new(FromReader::new(rt.reader()), &taken);
    let sink = IntoWriter::new(io::writer(rt));
    let mut line = Line::new(alloc, source, sink);
    status(serve(keys, &files, &mut line))
}

/// Serves an editor by the words of the command line.
fn run<R: rt::Files + Env + AllocGlobal + Input + Print + RandomSource>(
    rt: &R,
    alloc: Global,
) -> u8 {
    let words = match env::args(rt) {
        Ok(words) => words,
        Err(error) if error.kind() == io::ErrorKind::OutOfMemory => return 3,
        Err(_) => return 2,
    };
    let Ok(words): Result<Vec<String>, _> = words.collect(alloc) else {
        return 3;
    };
    serve_editor(rt, alloc, word_behind(words.as_slice(), INPUT_COPY))
}

fn main(rt: HostRuntime) -> ExitCode {
    ExitCode::from(run(&rt, rt.alloc()))
}
