//! Temporaries of the innermost frame: one, or all.

ghost use Rattle.std.specs.Prelude.{◌≡◌, ◌-◌, ◌^◌, ◌<◌, length};
ghost use Rattle.qil_streams.specs.Device.{HasPut};
ghost use Rattle.qil_code.specs.Numbered.{names_of};
ghost use Rattle.qil_state.specs.State.{state_of};
ghost use Rattle.qil_render.specs.Texts.{value_line};
ghost use Rattle.qil_render.specs.Shown.{printed, temps_shown};
ghost use Rattle.qil_render.specs.Slots.{slot_lines};

use crate::names::{innermost, temp_name};
use qil_code::{Code, Slot};
use qil_fragments::{Fragment, put_fragments};
use qil_history::{FrameView, Readers, code_of};
use qil_streams::{Put, PutError, put_line};
use std::alloc::Allocator;

/// Puts the line that says what a temporary holds.
fn put_value<P: Put>(out: &mut P, name: &[u8], value: Option<u64>) -> Result<(), PutError>
    requires { P.stops out.old < 2 ^ 64 - 1 }
    ensures { HasPut P.written P.stops P.device result out.old out.new (value_line name.now value) }
{
    match value {
        Some(value) => put_fragments(
            out,
            &[
                Fragment::Bytes(b"%"),
                Fragment::Bytes(name),
                Fragment::Bytes(b" = "),
                Fragment::Number(value),
                Fragment::Bytes(b"\n"),
            ],
        ),
        None => put_fragments(
            out,
            &[
                Fragment::Bytes(b"%"),
                Fragment::Bytes(name),
                Fragment::Bytes(b" unset\n"),
            ],
        ),
    }
}

/// Puts the value of a temporary of the innermost frame, whose name is without its sigil; or why it has none.
///
/// # Errors
///
/// `PutError` if `out` stopped. Then a prefix of the text was put.
pub fn put_printed<'s, 'c, A: Allocator + Copy + 'c, M: Readers<A, Code<'c, A>>, P: Put>(
    out: &'s mut P,
    machine: &'s M,
    name: &'s [u8],
) -> Result<(), PutError>
    requires { P.stops out.old < 2 ^ 64 - 1 }
    ensures { HasPut P.written P.stops P.device result out.old out.new (printed (M.whole machine.now).program (state_of (M.whole machine.now)).frames name.now) }
{
    let Some(frame) = innermost(machine) else {
        return put_line(out, b"no: no frame");
    };
    match code_of(machine).slot_of(frame.func(), name) {
        Some(slot) => put_value(out, name, machine.value(slot)),
        None => put_line(out, b"no: unknown temporary"),
    }
}

/// Puts a line for each slot of a frame.
fn put_slots<'c, A: Allocator + Copy, P: Put>(
    code: &Code<'c, A>,
    out: &mut P,
    frame: &FrameView<'_>,
) -> Result<(), PutError>
    requires stops { P.stops out.old < 2 ^ 64 - 1 }
    requires slots { length (names_of code.now frame.now.func) ≡ length frame.now.slots }
    ensures { HasPut P.written P.stops P.device result out.old out.new (slot_lines (names_of code.now frame.now.func) frame.now.slots) }
{
    let slots = frame.slots();
    for index in 0..slots.len() {
        let slot = Slot {
            index: index as u16,
        };
        put_value(out, temp_name(code, frame.func(), slot), slots[index])?;
    }
    Ok(())
}

/// Puts what all temporaries of the innermost frame hold, in the order in which its function's text first names them.
///
/// # Errors
///
/// `PutError` where `out` stopped. Then a prefix of the text was put.
pub fn put_temps<'s, 'c, A: Allocator + Copy + 'c, M: Readers<A, Code<'c, A>>, P: Put>(
    out: &'s mut P,
    machine: &'s M,
) -> Result<(), PutError>
    requires { P.stops out.old < 2 ^ 64 - 1 }
    ensures { HasPut P.written P.stops P.device result out.old out.new (temps_shown (M.whole machine.now).program (state_of (M.whole machine.now)).frames) }
{
    let Some(frame) = innermost(machine) else {
        return put_line(out, b"no: no frame");
    };
    let code = code_of(machine);
    code.names_are_distinct();
    if code.slot_count(frame.func()) == 0 {
        return put_line(out, b"none");
    }
    put_slots(code, out, &frame)
}
