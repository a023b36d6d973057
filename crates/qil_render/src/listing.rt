//! The block that the innermost frame is in: its phis, its instructions and its jump, in canonical texts.

ghost use Rattle.std.specs.Prelude.{◌-◌, ◌^◌, ◌<◌};
ghost use Rattle.std.specs.List.{flat_map};
ghost use Rattle.qil_streams.specs.Device.{HasPut};
ghost use Rattle.qil_printer.specs.Canonical.{inst_text as inst_words, jump_text as jump_words};
ghost use Rattle.qil_code.specs.Numbered.{func_at, block_at};
ghost use Rattle.qil_state.specs.State.{state_of, func_name, label_in};
ghost use Rattle.qil_render.specs.Listing.{phi_row, row, row_prefix, inst_rows, all_rows, rows_in, block_head, block_shown};

use crate::names::{func_name, innermost, label_name};
use qil_code::Code;
use qil_fragments::{Fragment, put_fragments};
use qil_history::{FrameView, Readers, code_of};
use qil_printer::{inst_text, jump_text, phi_text};
use qil_streams::{Put, PutError, put_line};
use qil_tree::{Inst, Jump, Phi};
use std::alloc::Allocator;

/// Puts a phi.
fn put_phi<A: Allocator, P: Put>(out: &mut P, phi: &Phi<'_, A>) -> Result<(), PutError>
    requires { P.stops out.old < 2 ^ 64 - 1 }
    ensures { HasPut P.written P.stops P.device result out.old out.new (phi_row phi.now) }
{
    out.put(b"  - ")?;
    phi_text(phi, out)?;
    out.put(b"\n")
}

/// Puts the prefix of a row: its index, and whether the frame stands there.
fn put_prefix<P: Put>(out: &mut P, at: u32, index: u64) -> Result<(), PutError>
    requires { P.stops out.old < 2 ^ 64 - 1 }
    ensures { HasPut P.written P.stops P.device result out.old out.new (row_prefix at index) }
{
    let mark = if index == u64::from(at) {
        b"> ".as_slice()
    } else {
        b"  ".as_slice()
    };
    put_fragments(
        out,
        &[
            Fragment::Bytes(mark),
            Fragment::Number(index),
            Fragment::Bytes(b" "),
        ],
    )
}

/// Puts an instruction.
fn put_inst<A: Allocator, P: Put>(
    out: &mut P,
    at: u32,
    index: u64,
    inst: &Inst<'_, A>,
) -> Result<(), PutError>
    requires { P.stops out.old < 2 ^ 64 - 1 }
    ensures { HasPut P.written P.stops P.device result out.old out.new (row at index (inst_words inst.now)) }
{
    put_prefix(out, at, index)?;
    inst_text(inst, out)?;
    out.put(b"\n")
}

/// Puts a jump.
fn put_jump<P: Put>(out: &mut P, at: u32, index: u64, jump: &Jump<'_>) -> Result<(), PutError>
    requires { P.stops out.old < 2 ^ 64 - 1 }
    ensures { HasPut P.written P.stops P.device result out.old out.new (row at index (jump_words jump.now)) }
{
    put_prefix(out, at, index)?;
    jump_text(jump, out)?;
    out.put(b"\n")
}

/// Puts phis.
fn put_phis<A: Allocator, P: Put>(out: &mut P, phis: &[Phi<'_, A>]) -> Result<(), PutError>
    requires { P.stops out.old < 2 ^ 64 - 1 }
    ensures { HasPut P.written P.stops P.device result out.old out.new (flat_map phi_row phis.now) }
{
    for phi in phis {
        put_phi(out, phi)?;
    }
    Ok(())
}

/// Puts instructions.
fn put_insts<A: Allocator, P: Put>(
    out: &mut P,
    at: u32,
    insts: &[Inst<'_, A>],
) -> Result<(), PutError>
    requires { P.stops out.old < 2 ^ 64 - 1 }
    ensures { HasPut P.written P.stops P.device result out.old out.new (inst_rows at 0 insts.now) }
{
    for index in 0..insts.len() {
        put_inst(out, at, index as u64, &insts[index])?;
    }
    Ok(())
}

/// Puts the rows of a block.
fn put_rows<A: Allocator, P: Put>(
    out: &mut P,
    at: u32,
    phis: &[Phi<'_, A>],
    insts: &[Inst<'_, A>],
    jump: &Jump<'_>,
) -> Result<(), PutError>
    requires { P.stops out.old < 2 ^ 64 - 1 }
    ensures { HasPut P.written P.stops P.device result out.old out.new (all_rows at phis.now insts.now jump.now) }
{
    put_phis(out, phis)?;
    put_insts(out, at, insts)?;
    put_jump(out, at, insts.len() as u64, jump)
}

/// Puts the line that says in which block a frame is.
fn put_head<'c, A: Allocator + Copy, P: Put>(
    code: &Code<'c, A>,
    out: &mut P,
    frame: &FrameView<'_>,
) -> Result<(), PutError>
    requires { P.stops out.old < 2 ^ 64 - 1 }
    ensures { HasPut P.written P.stops P.device result out.old out.new (block_head (func_name (func_at code.now frame.now.func)) (label_in (block_at code.now frame.now.func frame.now.block))) }
{
    put_fragments(
        out,
        &[
            Fragment::Bytes(b"$"),
            Fragment::Bytes(func_name(code, frame.func())),
            Fragment::Bytes(b" @"),
            Fragment::Bytes(label_name(code, frame.func(), frame.block())),
            Fragment::Bytes(b"\n"),
        ],
    )
}

/// Puts the rows of the block that a frame is in.
fn put_block_of<'c, A: Allocator + Copy, P: Put>(
    code: &Code<'c, A>,
    out: &mut P,
    frame: &FrameView<'_>,
) -> Result<(), PutError>
    requires { P.stops out.old < 2 ^ 64 - 1 }
    ensures { HasPut P.written P.stops P.device result out.old out.new (rows_in frame.now.index (block_at code.now frame.now.func frame.now.block)) }
{
    match code.source(frame.func(), frame.block()) {
        Some(block) => put_rows(
            out,
            frame.index(),
            block.phis.as_slice(),
            block.insts.as_slice(),
            &block.jump,
        ),
        None => Ok(()),
    }
}

/// Puts the block that the innermost frame is in, with its place marked; or that there is no frame.
///
/// # Errors
///
/// `PutError` where `out` stopped. Then a prefix of the text was put.
pub fn put_block<'s, 'c, A: Allocator + Copy + 'c, M: Readers<A, Code<'c, A>>, P: Put>(
    out: &'s mut P,
    machine: &'s M,
) -> Result<(), PutError>
    requires { P.stops out.old < 2 ^ 64 - 1 }
    ensures { HasPut P.written P.stops P.device result out.old out.new (block_shown (M.whole machine.now).program (state_of (M.whole machine.now)).frames) }
{
    let Some(frame) = innermost(machine) else {
        return put_line(out, b"no: no frame");
    };
    let code = code_of(machine);
    code.names_are_distinct();
    put_head(code, out, &frame)?;
    put_block_of(code, out, &frame)
}
