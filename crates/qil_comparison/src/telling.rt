//! The report of a comparison: how many events are the same, and for each side what comes next and where it stands.

ghost use Rattle.std.specs.Prelude.{◌≡◌, ◌↔◌, ◌-◌, ◌^◌, ◌<◌, ◌++◌, IsTrue};
ghost use Rattle.qil_streams.specs.Device.{HasPut};
ghost use Rattle.qil_state.specs.State.{state_of};
ghost use Rattle.qil_render.specs.Texts.{state_line};
ghost use Rattle.qil_render.specs.Shown.{frames_shown};
ghost use Rattle.qil_render.specs.Listing.{block_shown};
ghost use Rattle.qil_compare.specs.declared.comparing.Verdict.TheVariants as verdicts;
ghost use Rattle.qil_comparison.specs.Told.{way_line, side_text, sides_text, verdict_line, told_text};

use crate::event_text::put_found;
use qil_code::Code;
use qil_compare::{Answer, Forward, Found, Verdict};
use qil_fragments::{Fragment, put_fragments};
use qil_render::{Readers, put_block, put_frames, put_place};
use qil_streams::{Put, PutError};
use std::alloc::Allocator;

/// Puts the first line.
fn put_verdict<P: Put>(out: &mut P, verdict: Verdict, events: u64) -> Result<(), PutError>
    requires { P.stops out.old < 2 ^ 64 - 1 }
    ensures { HasPut P.written P.stops P.device result out.old out.new (verdict_line verdict events) }
{
    let count = Fragment::Number(events);
    let end = Fragment::Bytes(b"\n");
    match verdict {
        Verdict::Same => put_fragments(
            out,
            &[
                Fragment::Bytes(b"same "),
                count,
                Fragment::Bytes(b" events\n"),
            ],
        ),
        Verdict::Part => put_fragments(out, &[Fragment::Bytes(b"part at event "), count, end]),
        Verdict::Limit => put_fragments(out, &[Fragment::Bytes(b"limit at event "), count, end]),
    }
}

/// Puts the command that takes a session from its start to a position, where there is one.
fn put_way<P: Put>(out: &mut P, position: u64) -> Result<(), PutError>
    requires { P.stops out.old < 2 ^ 64 - 1 }
    ensures { HasPut P.written P.stops P.device result out.old out.new (way_line position) }
{
    if position == 0 {
        return out.put(b"");
    }
    put_fragments(
        out,
        &[
            Fragment::Bytes(b"step "),
            Fragment::Number(position),
            Fragment::Bytes(b"\n"),
        ],
    )
}

/// Puts where a machine stands after so many moves.
// It knows of the machine what its readers tell, as what it calls does: with one that is known each call would compare all of them.
fn put_stand<'s, 'c, A: Allocator + Copy + 'c, M: Readers<A, Code<'c, A>>, P: Put>(
    out: &'s mut P,
    position: u64,
    machine: &'s M,
) -> Result<(), PutError>
    requires { P.stops out.old < 2 ^ 64 - 1 }
    ensures { HasPut P.written P.stops P.device result out.old out.new
        (state_line position (state_of (M.whole machine.now)).frames (state_of (M.whole machine.now)).status ++ (frames_shown (state_of (M.whole machine.now)).frames ++ (block_shown (M.whole machine.now).program (state_of (M.whole machine.now)).frames ++ way_line position))) }
{
    put_place(out, position, machine)?;
    put_frames(out, machine)?;
    put_block(out, machine)?;
    put_way(out, position)
}

/// Puts the report of one side.
fn put_side<'s, 'c, A: Allocator + Copy + 'c, R: Forward<A, Code<'c, A>>, P: Put>(
    out: &'s mut P,
    name: &'s [u8],
    side: &'s R,
    found: Found,
) -> Result<(), PutError>
    requires stops { P.stops out.old < 2 ^ 64 - 1 }
    ensures { HasPut P.written P.stops P.device result out.old out.new (side_text name.now (R.whole side.now).program (R.timeline side.now) found) }
{
    side.is_read();
    out.put(name)?;
    put_found(side, out, found)?;
    put_stand(out, side.position(), side)
}

/// Puts the report of both sides.
fn put_sides<'s, 'c, A: Allocator + Copy + 'c, R: Forward<A, Code<'c, A>>, P: Put>(
    out: &'s mut P,
    good: &'s R,
    bad: &'s R,
    answer: Answer,
) -> Result<(), PutError>
    requires stops { P.stops out.old < 2 ^ 64 - 1 }
    ensures { HasPut P.written P.stops P.device result out.old out.new (sides_text (R.whole good.now).program (R.whole bad.now).program (R.timeline good.now) (R.timeline bad.now) answer) }
{
    put_side(out, b"good: ", good, answer.good)?;
    put_side(out, b"bad: ", bad, answer.bad)
}

/// Whether no difference was found.
fn is_same(verdict: Verdict) -> bool
    ensures { IsTrue result ↔ (verdict ≡ verdicts.Same) }
{
    match verdict {
        Verdict::Same => true,
        Verdict::Part | Verdict::Limit => false,
    }
}

/// Puts the report of a comparison.
pub fn put_answer<'s, 'c, A: Allocator + Copy + 'c, R: Forward<A, Code<'c, A>>, P: Put>(
    out: &'s mut P,
    good: &'s R,
    bad: &'s R,
    answer: Answer,
) -> Result<(), PutError>
    requires stops { P.stops out.old < 2 ^ 64 - 1 }
    ensures { HasPut P.written P.stops P.device result out.old out.new (told_text (R.whole good.now).program (R.whole bad.now).program (R.timeline good.now) (R.timeline bad.now) answer) }
{
    if is_same(answer.verdict) {
        return put_verdict(out, answer.verdict, answer.events);
    }
    put_verdict(out, answer.verdict, answer.events)?;
    put_sides(out, good, bad, answer)
}
