//! The frames of a run, a line each.

ghost use Rattle.std.specs.Prelude.{◌≡◌, ◌-◌, ◌^◌, ◌<◌, List, Some, length, slice_get};
ghost use Rattle.qil_streams.specs.Device.{Counts, HasPut, Puts};
ghost use Rattle.qil_frames.specs.Frames.{SlotFrame};
ghost use Rattle.qil_state.specs.State.{state_of, frame_state};
ghost use Rattle.qil_render.specs.Texts.{frame_line};
ghost use Rattle.qil_render.specs.Shown.{frames_shown};

use crate::names::{func_name, innermost, label_name};
use qil_code::Code;
use qil_fragments::{Fragment, put_fragments};
use qil_history::{FrameView, Readers, code_of};
use qil_streams::{Put, PutError, put_line};
use std::alloc::Allocator;

/// Puts the place of a frame.
fn put_frame<'c, A: Allocator + Copy, P: Put>(
    code: &Code<'c, A>,
    out: &mut P,
    frame: &FrameView<'_>,
) -> Result<(), PutError>
    requires { P.stops out.old < 2 ^ 64 - 1 }
    ensures text { (callers : List SlotFrame) → Puts result (P.written out.old) (P.written out.new) (frame_line (frame_state code.now callers frame.now)) }
    ensures counted { Counts result (P.stops out.old) (P.stops out.new) }
    ensures device { P.device out.new ≡ P.device out.old }
{
    put_fragments(
        out,
        &[
            Fragment::Bytes(b"$"),
            Fragment::Bytes(func_name(code, frame.func())),
            Fragment::Bytes(b" @"),
            Fragment::Bytes(label_name(code, frame.func(), frame.block())),
            Fragment::Bytes(b" "),
            Fragment::Number(u64::from(frame.index())),
            Fragment::Bytes(b"\n"),
        ],
    )
}

/// A frame, counted from the innermost one.
fn frame_at<'c, 'm, A: Allocator + Copy + 'c, M: Readers<A, Code<'c, A>>>(
    machine: &'m M,
    inner: usize,
) -> FrameView<'m>
    requires { inner < length (M.whole machine.now).frames }
    ensures { slice_get (M.whole machine.now).frames inner ≡ Some result }
{
    match machine.frame(inner) {
        Some(frame) => frame,
        None => unreachable!(),
    }
}

/// Puts the place of each frame, the innermost first.
///
/// # Errors
///
/// `PutError` where `out` stopped. Then a prefix of the text was put.
pub fn put_frames<'s, 'c, A: Allocator + Copy + 'c, M: Readers<A, Code<'c, A>>, P: Put>(
    out: &'s mut P,
    machine: &'s M,
) -> Result<(), PutError>
    requires { P.stops out.old < 2 ^ 64 - 1 }
    ensures { HasPut P.written P.stops P.device result out.old out.new (frames_shown (state_of (M.whole machine.now)).frames) }
{
    let Some(_) = innermost(machine) else {
        return put_line(out, b"none");
    };
    for inner in 0..machine.depth() {
        let code = code_of(machine);
        put_frame(code, out, &frame_at(machine, inner))?;
    }
    Ok(())
}
