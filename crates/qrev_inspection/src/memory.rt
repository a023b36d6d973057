//! `readMemory` and `writeMemory`: bytes in base64, at an address in decimal.

ghost use Rattle.std.specs.Prelude.{◌≡◌, ◌<◌, ◌≤◌, [], ◌∷◌, ◌++◌, ℕ, ℤ, List, Some, codes, decimal, min, IfErr, IfOk, MatchOption};
ghost use Rattle.base64.specs.GeneralPurpose.{encode_of};
ghost use Rattle.base64.specs.Engines.{standard};
ghost use Rattle.json.specs.Token.{key, string, number};
ghost use Rattle.qil_memory.specs.Live.{live};
ghost use Rattle.qrev_protocol.specs.Outgoing.{Adds};
ghost use Rattle.qrev_requests.specs.Members.{json_of, IsNumberIn};
ghost use Rattle.qrev_debuggee.specs.declared.failure.Failure.TheVariants.{OutOfMemory};
ghost use Rattle.qrev_inspection.specs.ReadBytes.{AreRead, HasNoBytes, IsMovedBy, SaysAddress, SaysNoAddress, SaysOffset, ShowsBytes, memory_members, read_limit, unreadable_member};

use crate::answering::answer_line;
use base64::engine::general_purpose::STANDARD;
use qil_fragments::Fragment;
use qil_machine::Code;
use qrev_debuggee::{Body, Cause, Debuggee, Failure, HasMachine};
use qrev_requests::Arguments;
use qrev_views::{Readers, byte_at, number_text};
use std::alloc::{AllocError, Allocator};
use std::num::{wrapping_add_u64, wrapping_sub_u64};

/// The most bytes that one request reads.
const READ_LIMIT: u64 = 65_536;

/// The offset that is said: none is 0.
fn offset_said<A: Allocator + Copy>(asked: Arguments<'_, '_, A>) -> Option<i64>
    ensures { MatchOption result ((offset : ℤ) → SaysOffset (json_of asked.entry) offset → ⊥) (SaysOffset (json_of asked.entry)) }
{
    match asked.get("offset") {
        Some(_) => asked.signed("offset"),
        None => Some(0),
    }
}

/// The address at an offset from another.
fn address_at(start: u64, offset: i64) -> u64
    ensures { IsMovedBy start offset result }
{
    if offset < 0 {
        wrapping_sub_u64(start, offset.unsigned_abs())
    } else {
        wrapping_add_u64(start, offset.unsigned_abs())
    }
}

/// The address that a reference and an offset say.
fn address_said<A: Allocator + Copy>(asked: Arguments<'_, '_, A>) -> Option<u64>
    ensures { MatchOption result (SaysNoAddress (json_of asked.entry)) (SaysAddress (json_of asked.entry)) }
{
    let text = asked.text("memoryReference")?;
    let Ok(start) = text.parse::<u64>() else {
        return None;
    };
    let offset = offset_said(asked)?;
    Some(address_at(start, offset))
}

/// The widest poke that fits into so many bytes: its letter, and its width.
fn widest(left: usize) -> (&'static str, usize)
    ensures { 0 < left → result.1 ≤ left }
{
    if left >= 8 {
        ("l", 8)
    } else if left >= 4 {
        ("w", 4)
    } else if left >= 2 {
        ("h", 2)
    } else {
        ("b", 1)
    }
}

/// The number that bytes are, the lowest first.
fn number_of(bytes: &[u8]) -> u64 {
    let mut number = 0;
    for byte in bytes.iter().rev() {
        number = (number << 8) | u64::from(*byte);
    }
    number
}

/// Adds a byte.
fn add_byte<A: Allocator>(bytes: &mut Vec<u8, A>, byte: u8) -> Result<(), Failure>
    ensures added { IfOk result (λ done. bytes.new.items ≡ bytes.old.items ++ byte ∷ []) }
    ensures fails { IfErr result (λ why. why ≡ OutOfMemory) }
{
    match bytes.push(byte) {
        Ok(()) => Ok(()),
        Err(_) => Err(Failure::OutOfMemory),
    }
}

/// The live bytes from an address on, up to the first dead one, and at most so many.
fn live_bytes<'c, A: Allocator + Copy + 'c, M: Readers<A, Code<'c, A>>>(
    alloc: A,
    machine: &M,
    start: u64,
    most: u64,
) -> Result<Vec<u8, A>, Failure>
    ensures read { IfOk result (λ bytes. AreRead (live (M.whole machine.now).memory) start most bytes.items) }
    ensures fails { IfErr result (λ why. why ≡ OutOfMemory) }
{
    let mut bytes = Vec::new(alloc);
    for offset in 0..most {
        match byte_at(machine, start.wrapping_add(offset)) {
            Some(byte) => add_byte(&mut bytes, byte)?,
            None => return Ok(bytes),
        }
    }
    Ok(bytes)
}

/// Adds an address.
fn put_address<A: Allocator + Copy>(
    alloc: A,
    body: Body<A>,
    start: u64,
) -> Result<Body<A>, AllocError>
    ensures { IfOk result (λ o. Adds body.out o.out (key (codes "address") ∷ string (decimal start) ∷ [])) }
{
    let address = number_text(alloc, start)?;
    let body = body.text("address", address.as_str())?;
    Ok(body)
}

/// Adds bytes.
fn put_bytes<A: Allocator + Copy>(
    alloc: A,
    body: Body<A>,
    bytes: &[u8],
) -> Result<Body<A>, AllocError>
    ensures { IfOk result (λ o. Adds body.out o.out (key (codes "data") ∷ string (encode_of standard bytes.now) ∷ [])) }
{
    let text = STANDARD.encode(alloc, bytes)?;
    let body = body.text("data", text.as_str())?;
    Ok(body)
}

/// Adds how many of the bytes that were asked for weren't read, if the first of them is dead.
fn put_unreadable<A: Allocator>(body: Body<A>, count: u64, read: u64) -> Result<Body<A>, AllocError>
    ensures { IfOk result (λ o. Adds body.out o.out (unreadable_member count read)) }
{
    if read >= count.min(READ_LIMIT) {
        return Ok(body);
    }
    let body = body.number("unreadableBytes", count.saturating_sub(read))?;
    Ok(body)
}

/// Adds bytes that were read from an address on, of so many that were asked for.
fn put_read<A: Allocator + Copy>(
    alloc: A,
    body: Body<A>,
    start: u64,
    count: u64,
    bytes: &[u8],
) -> Result<Body<A>, AllocError>
    ensures { IfOk result (λ o. Adds body.out o.out (memory_members start count bytes.now)) }
{
    let body = put_address(alloc, body, start)?;
    let body = put_bytes(alloc, body, bytes)?;
    let body = put_unreadable(body, count, bytes.len() as u64)?;
    Ok(body)
}

/// Adds so many bytes from an address on.
fn put_memory<'c, A: Allocator + Copy + 'c, M: Readers<A, Code<'c, A>>>(
    alloc: A,
    machine: &M,
    start: u64,
    count: u64,
    body: Body<A>,
) -> Result<Body<A>, Failure>
    ensures shown { IfOk result (λ o. (bytes : List ℕ) × AreRead (live (M.whole machine.now).memory) start (min count read_limit) bytes × Adds body.out o.out (memory_members start count bytes)) }
    ensures fails { IfErr result (λ why. why ≡ OutOfMemory) }
{
    let bytes = live_bytes(alloc, machine, start, count.min(READ_LIMIT))?;
    let body = put_read(alloc, body, start, count, bytes.as_slice())?;
    Ok(body)
}

/// The address from which on bytes are asked for, and how many.
fn span_said<A: Allocator + Copy>(asked: Arguments<'_, '_, A>) -> Result<(u64, u64), Failure>
    ensures said { IfOk result (λ span. SaysAddress (json_of asked.entry) span.0 × IsNumberIn (codes "count") (json_of asked.entry) (Some span.1)) }
    ensures fails { IfErr result (HasNoBytes (json_of asked.entry)) }
{
    let Some(start) = address_said(asked) else {
        return Err(Failure::Because(Cause::NoAddress));
    };
    match asked.number("count") {
        Some(count) => Ok((start, count)),
        None => Err(Failure::Because(Cause::NoCount)),
    }
}

/// Adds the bytes from an address on.
pub fn read_memory<'c, A: Allocator + Copy + 'c, L: HasMachine<A, Code<'c, A>>>(
    debuggee: &Debuggee<'c, A, L>,
    asked: Arguments<'_, '_, A>,
    body: Body<A>,
) -> Result<Body<A>, Failure>
    ensures shown { IfOk result (λ o. ShowsBytes (L.state debuggee.now.recorder.live).timeline.now.memory (json_of asked.entry) body.out o.out) }
    ensures fails { IfErr result (HasNoBytes (json_of asked.entry)) }
{
    let span = span_said(asked)?;
    let machine = debuggee.machine();
    let body = put_memory(debuggee.alloc, machine, span.0, span.1, body)?;
    Ok(body)
}

/// Whether so many bytes from an address on are live.
fn are_live<'c, A: Allocator + Copy + 'c, M: Readers<A, Code<'c, A>>>(
    machine: &M,
    start: u64,
    count: usize,
) -> bool {
    for offset in 0..count {
        if byte_at(machine, start.wrapping_add(offset as u64)).is_none() {
            return false;
        }
    }
    true
}

/// Pokes bytes, as wide as they fit.
fn poke_all<'c, A: Allocator + Copy + 'c, L: HasMachine<A, Code<'c, A>>>(
    debuggee: &mut Debuggee<'c, A, L>,
    start: u64,
    bytes: &[u8],
) -> Result<(), Failure> {
    let mut at = start;
    let mut rest = bytes;
    for _ in 0..bytes.len() {
        if rest.is_empty() {
            break;
        }
        let (letter, width) = widest(rest.len());
        let (word, after) = rest.split_at(width);
        let _done = answer_line(
            debuggee,
            &[
                Fragment::Bytes(b"poke "),
                Fragment::Bytes(letter.as_bytes()),
                Fragment::Bytes(b" "),
                Fragment::Number(at),
                Fragment::Bytes(b" "),
                Fragment::Number(number_of(word)),
            ],
        )?;
        at = at.wrapping_add(width as u64);
        rest = after;
    }
    Ok(())
}

/// The bytes that are said.
fn bytes_said<A: Allocator + Copy>(
    alloc: A,
    asked: Arguments<'_, '_, A>,
) -> Result<Vec<u8, A>, Failure> {
    let data = asked.text("data").unwrap_or("");
    match STANDARD.decode(alloc, data.as_bytes()) {
        Ok(bytes) => Ok(bytes),
        Err(_) => Err(Failure::Because(Cause::NotBase64)),
    }
}

/// Pokes bytes, if all that stand there are live.
fn poke_live<'c, A: Allocator + Copy + 'c, L: HasMachine<A, Code<'c, A>>>(
    debuggee: &mut Debuggee<'c, A, L>,
    start: u64,
    bytes: &[u8],
) -> Result<(), Failure> {
    if !are_live(debuggee.machine(), start, bytes.len()) {
        return Err(Failure::Because(Cause::DeadAddress));
    }
    poke_all(debuggee, start, bytes)
}

/// Writes the bytes that are said, and gives how many they are.
fn write_said<'c, A: Allocator + Copy + 'c, L: HasMachine<A, Code<'c, A>>>(
    debuggee: &mut Debuggee<'c, A, L>,
    asked: Arguments<'_, '_, A>,
) -> Result<u64, Failure> {
    let Some(start) = address_said(asked) else {
        return Err(Failure::Because(Cause::NoAddress));
    };
    let bytes = bytes_said(debuggee.alloc, asked)?;
    poke_live(debuggee, start, bytes.as_slice())?;
    Ok(bytes.len() as u64)
}

/// Writes bytes from an address on, if all are live.
pub fn write_memory<'c, A: Allocator + Copy + 'c, L: HasMachine<A, Code<'c, A>>>(
    debuggee: &mut Debuggee<'c, A, L>,
    asked: Arguments<'_, '_, A>,
    body: Body<A>,
) -> Result<Body<A>, Failure> {
    let count = write_said(debuggee, asked)?;
    Ok(body.number("bytesWritten", count)?)
}
