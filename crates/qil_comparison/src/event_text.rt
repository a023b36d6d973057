//! The texts of events.

ghost use Rattle.std.specs.Prelude.{◌≡◌, ◌-◌, ◌^◌, ◌<◌, ◌++◌, codes, option_map};
ghost use Rattle.qil_memory.specs.Live.{live};
ghost use Rattle.qil_streams.specs.Text.{line};
ghost use Rattle.qil_streams.specs.Device.{HasPut};
ghost use Rattle.qil_state.specs.State.{state_of};
ghost use Rattle.qil_render.specs.Shown.{bytes_text};
ghost use Rattle.qil_compare.specs.declared.event.Event.TheVariants as events;
ghost use Rattle.qil_compare.specs.Coded.{offset_of, value_of};
ghost use Rattle.qil_compare.specs.Seen.{seen};
ghost use Rattle.qil_compare.specs.Events.{byte_out, bytes_from, call_params};
ghost use Rattle.qil_compare.specs.Next.{event_at, returns_of};
ghost use Rattle.qil_comparison.specs.Told.{place_text, value_text, further_value, values_text, returned_text, event_line, found_line};

use qil_code::Code;
use qil_compare::{
    DataPlace, Event, Found, Seen, call_name, func_name_in, param_count, param_seen,
    place_or_nowhere, returns_in, seen_in,
};
use qil_fragments::{Fragment, put_fragments};
use qil_layout::FuncId;
use qil_render::{Readers, put_byte, put_next_byte, put_quoted};
use qil_streams::{Put, PutError};
use std::alloc::Allocator;

/// Puts the event of a byte of output.
fn put_output<P: Put>(out: &mut P, byte: u8) -> Result<(), PutError>
    requires { P.stops out.old < 2 ^ 64 - 1 }
    ensures { HasPut P.written P.stops P.device result out.old out.new (event_line (byte_out byte)) }
{
    out.put(b"output \"")?;
    put_quoted(out, byte)?;
    out.put(b"\"\n")
}

/// Puts a place of the data.
fn put_data<P: Put>(out: &mut P, place: DataPlace<'_>) -> Result<(), PutError>
    requires { P.stops out.old < 2 ^ 64 - 1 }
    ensures { HasPut P.written P.stops P.device result out.old out.new (place_text (offset_of place.entry)) }
{
    if place.bytes == 0 {
        return put_fragments(out, &[Fragment::Bytes(b"$"), Fragment::Bytes(place.object)]);
    }
    put_fragments(
        out,
        &[
            Fragment::Bytes(b"$"),
            Fragment::Bytes(place.object),
            Fragment::Bytes(b"+"),
            Fragment::Number(place.bytes),
        ],
    )
}

/// Puts a value.
fn put_seen<P: Put>(out: &mut P, value: Seen<'_>) -> Result<(), PutError>
    requires { P.stops out.old < 2 ^ 64 - 1 }
    ensures { HasPut P.written P.stops P.device result out.old out.new (value_text (value_of value.entry)) }
{
    match value {
        Seen::Number(number) => put_fragments(out, &[Fragment::Number(number)]),
        Seen::Stack => out.put(b"stack"),
        Seen::Data(place) => put_data(out, place),
        Seen::Function(name) => put_fragments(out, &[Fragment::Bytes(b"$"), Fragment::Bytes(name)]),
    }
}

/// Puts a value after another, with a comma between them.
fn put_next_seen<P: Put>(out: &mut P, value: Seen<'_>) -> Result<(), PutError>
    requires { P.stops out.old < 2 ^ 64 - 1 }
    ensures { HasPut P.written P.stops P.device result out.old out.new (further_value (value_of value.entry)) }
{
    out.put(b", ")?;
    put_seen(out, value)
}

/// Puts so many bytes of memory from an address on in a line.
fn put_bytes<'c, A: Allocator + Copy + 'c, M: Readers<A, Code<'c, A>>, P: Put>(
    machine: &M,
    out: &mut P,
    start: u64,
    count: u64,
) -> Result<(), PutError>
    requires { P.stops out.old < 2 ^ 64 - 1 }
    ensures { HasPut P.written P.stops P.device result out.old out.new (line (bytes_text (bytes_from (live (M.whole machine.now).memory) start count))) }
{
    if count == 0 {
        return out.put(b"\n");
    }
    put_byte(out, machine.byte_after(start, 0))?;
    for offset in 1..count {
        put_next_byte(out, machine.byte_after(start, offset))?;
    }
    out.put(b"\n")
}

/// Puts a write to data.
fn put_write<'c, A: Allocator + Copy + 'c, M: Readers<A, Code<'c, A>>, P: Put>(
    machine: &M,
    out: &mut P,
    start: u64,
    count: u64,
) -> Result<(), PutError>
    requires { P.stops out.old < 2 ^ 64 - 1 }
    ensures { HasPut P.written P.stops P.device result out.old out.new (event_line (event_at (M.whole machine.now).program (state_of (M.whole machine.now)) (events.Write start count))) }
{
    out.put(b"write ")?;
    put_data(out, place_or_nowhere(machine, start))?;
    out.put(b" ")?;
    put_bytes(machine, out, start, count)
}

/// Puts the values of the parameters of the innermost frame, commas between them.
fn put_params<'c, A: Allocator + Copy + 'c, M: Readers<A, Code<'c, A>>, P: Put>(
    machine: &M,
    out: &mut P,
) -> Result<(), PutError>
    requires { P.stops out.old < 2 ^ 64 - 1 }
    ensures { HasPut P.written P.stops P.device result out.old out.new (values_text (call_params (M.whole machine.now).program (state_of (M.whole machine.now)).frames)) }
{
    let count = param_count(machine);
    if count == 0 {
        return Ok(());
    }
    put_seen(out, param_seen(machine, 0))?;
    for i in 1..count {
        put_next_seen(out, param_seen(machine, i))?;
    }
    Ok(())
}

/// Puts a call: of the function of the innermost frame.
fn put_call<'c, A: Allocator + Copy + 'c, M: Readers<A, Code<'c, A>>, P: Put>(
    machine: &M,
    out: &mut P,
) -> Result<(), PutError>
    requires { P.stops out.old < 2 ^ 64 - 1 }
    ensures { HasPut P.written P.stops P.device result out.old out.new (event_line (event_at (M.whole machine.now).program (state_of (M.whole machine.now)) events.Call)) }
{
    put_fragments(
        out,
        &[
            Fragment::Bytes(b"call $"),
            Fragment::Bytes(call_name(machine)),
            Fragment::Bytes(b"("),
        ],
    )?;
    put_params(machine, out)?;
    out.put(b")\n")
}

/// Puts a value behind a space, and the end of the line.
fn put_last_seen<P: Put>(out: &mut P, value: Seen<'_>) -> Result<(), PutError>
    requires { P.stops out.old < 2 ^ 64 - 1 }
    ensures { HasPut P.written P.stops P.device result out.old out.new (codes " " ++ (value_text (value_of value.entry) ++ codes "\n")) }
{
    out.put(b" ")?;
    put_seen(out, value)?;
    out.put(b"\n")
}

/// Puts what a function returned, if it is a value, and the end of the line.
fn put_returned<'c, A: Allocator + Copy + 'c, M: Readers<A, Code<'c, A>>, P: Put>(
    machine: &M,
    out: &mut P,
    func: FuncId,
    value: Option<u64>,
) -> Result<(), PutError>
    requires { P.stops out.old < 2 ^ 64 - 1 }
    ensures { HasPut P.written P.stops P.device result out.old out.new (returned_text (option_map (seen (M.whole machine.now).program (returns_of (M.whole machine.now).program func)) value)) }
{
    match value {
        Some(value) => put_last_seen(out, seen_in(machine, returns_in(machine, func), value)),
        None => out.put(b"\n"),
    }
}

/// Puts a return, with its value if there is one.
fn put_return<'c, A: Allocator + Copy + 'c, M: Readers<A, Code<'c, A>>, P: Put>(
    machine: &M,
    out: &mut P,
    func: FuncId,
    value: Option<u64>,
) -> Result<(), PutError>
    requires { P.stops out.old < 2 ^ 64 - 1 }
    ensures { HasPut P.written P.stops P.device result out.old out.new (event_line (event_at (M.whole machine.now).program (state_of (M.whole machine.now)) (events.Return func value))) }
{
    put_fragments(
        out,
        &[
            Fragment::Bytes(b"return $"),
            Fragment::Bytes(func_name_in(machine, func)),
        ],
    )?;
    put_returned(machine, out, func, value)
}

/// Puts the line of an event.
fn put_event<'c, A: Allocator + Copy + 'c, M: Readers<A, Code<'c, A>>, P: Put>(
    machine: &M,
    out: &mut P,
    event: Event,
) -> Result<(), PutError>
    requires { P.stops out.old < 2 ^ 64 - 1 }
    ensures { HasPut P.written P.stops P.device result out.old out.new (event_line (event_at (M.whole machine.now).program (state_of (M.whole machine.now)) event)) }
{
    match event {
        Event::Output(byte) => put_output(out, byte),
        Event::Write(start, count) => put_write(machine, out, start, count),
        Event::Call => put_call(machine, out),
        Event::Return(func, value) => put_return(machine, out, func, value),
        Event::End(_) => out.put(b"end\n"),
    }
}

/// Puts the line of what was found.
pub fn put_found<'c, A: Allocator + Copy + 'c, M: Readers<A, Code<'c, A>>, P: Put>(
    machine: &M,
    out: &mut P,
    found: Found,
) -> Result<(), PutError>
    requires { P.stops out.old < 2 ^ 64 - 1 }
    ensures { HasPut P.written P.stops P.device result out.old out.new (found_line (M.whole machine.now).program (state_of (M.whole machine.now)) found) }
{
    match found {
        Found::Event(event) => put_event(machine, out, event),
        Found::Over => out.put(b"none\n"),
        Found::Limit => out.put(b"limit\n"),
    }
}
