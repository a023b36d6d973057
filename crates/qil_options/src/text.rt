//! The file of a text in QBE IL.

ghost use Rattle.std.specs.Prelude.{◌≡◌, IfOk, IfErr, IfSome, take};
ghost use Rattle.qil_options.specs.Told.{IsOfText};

use crate::failure::Failure;
use std::alloc::Global;
use std::io::Read;
use std::rt::Files;
use std::{fs, io};

/// The most bytes that are read of a text: one more than it may have, so that one byte too many is seen.
const TEXT_LIMIT: u64 = (1 << 20) + 1;

/// The first bytes of a file, up to the limit.
fn first_bytes<F: Read + Drop>(alloc: Global, file: F) -> io::Result<Vec<u8>>
    ensures { IfOk result (λ bytes. IfSome (F.remaining file) (λ all. bytes.items ≡ take 1048577 all)) }
{
    let mut bytes = Vec::new(alloc);
    file.take(TEXT_LIMIT).read_to_end(&mut bytes)?;
    Ok(bytes)
}

fn read_file<R: Files>(rt: &R, alloc: Global, name: &str) -> io::Result<Vec<u8>> {
    first_bytes(alloc, fs::open(rt, name)?)
}

/// The bytes of a text, at most one more than it may have. Where they can't be read, `unreadable` is printed.
pub fn read_text<R: Files + Eprint>(
    rt: &R,
    alloc: Global,
    name: &str,
    unreadable: &str,
) -> Result<Vec<u8>, Failure>
    ensures { IfErr result IsOfText }
{
    match read_file(rt, alloc, name) {
        Ok(bytes) => Ok(bytes),
        Err(error) if error.kind() == io::ErrorKind::OutOfMemory => Err(Failure::OutOfMemory),
        Err(_) => {
            let _ = rt.eprintln(unreadable);
            Err(Failure::Unreadable)
        }
    }
}
