//! The line of a place: how many moves were made, and where the run stands or how it ended.

ghost use Rattle.std.specs.Prelude.{◌≡◌, ℕ, List, ◌-◌, ◌^◌, ◌<◌};
ghost use Rattle.qil_streams.specs.Device.{HasPut};
ghost use Rattle.qil_fragments.specs.Texts.{fragment_text};
ghost use Rattle.qil_state.specs.State.{state_of, head_names};
ghost use Rattle.qil_state.specs.Faults.{fault_of};
ghost use Rattle.qil_render.specs.Texts.{fault_words, fault_detail, fault_line, standing_line, state_line};

use crate::names::{func_name, innermost, label_name, temp_name};
use qil_code::Code;
use qil_fragments::{Fragment, put_fragments};
use qil_history::{Readers, code_of};
use qil_ops::DivFault;
use qil_state::{Fault, Status};
use qil_streams::{Put, PutError};
use std::alloc::Allocator;

/// The name of a fault, up to its address or temporary.
fn fault_words(fault: Fault) -> &'static [u8]
    ensures { (names : List (List ℕ)) → result.now ≡ fault_words (fault_of names fault) }
{
    match fault {
        Fault::Division(DivFault::Zero) => b"division by zero",
        Fault::Division(DivFault::Overflow) => b"division overflow",
        Fault::DeadAddress(_) => b"dead address ",
        Fault::Unset(_) => b"unset temporary %",
        Fault::OverlappingBlit => b"overlapping blit",
        Fault::StackFull => b"stack full",
        Fault::CallsTooDeep => b"calls too deep",
        Fault::NoFunction(_) => b"no function at ",
        Fault::CallShape => b"call shape",
        Fault::OutputFull => b"output full",
        Fault::Halted => b"halted",
    }
}

/// The address or the temporary of a fault.
fn fault_detail<'c: 'm, 'm, A: Allocator + Copy + 'c, M: Readers<A, Code<'c, A>>>(
    machine: &'m M,
    fault: Fault,
) -> Fragment<'m>
    ensures { fragment_text result ≡ fault_detail (fault_of (head_names (M.whole machine.now).program (M.whole machine.now).frames) fault) }
{
    match fault {
        Fault::DeadAddress(address) | Fault::NoFunction(address) => Fragment::Number(address),
        Fault::Unset(slot) => match innermost(machine) {
            Some(frame) => {
                let code = code_of(machine);
                Fragment::Bytes(temp_name(code, frame.func(), slot))
            }
            None => Fragment::Bytes(b""),
        },
        _ => Fragment::Bytes(b""),
    }
}

/// Puts the line of the place of a run that goes on.
fn put_standing<'s, 'c, A: Allocator + Copy + 'c, M: Readers<A, Code<'c, A>>, P: Put>(
    out: &'s mut P,
    position: u64,
    machine: &'s M,
) -> Result<(), PutError>
    requires { P.stops out.old < 2 ^ 64 - 1 }
    ensures { HasPut P.written P.stops P.device result out.old out.new (standing_line position (state_of (M.whole machine.now)).frames) }
{
    let Some(frame) = innermost(machine) else {
        return put_fragments(
            out,
            &[
                Fragment::Bytes(b"#"),
                Fragment::Number(position),
                Fragment::Bytes(b"\n"),
            ],
        );
    };
    let code = code_of(machine);
    put_fragments(
        out,
        &[
            Fragment::Bytes(b"#"),
            Fragment::Number(position),
            Fragment::Bytes(b" $"),
            Fragment::Bytes(func_name(code, frame.func())),
            Fragment::Bytes(b" @"),
            Fragment::Bytes(label_name(code, frame.func(), frame.block())),
            Fragment::Bytes(b" "),
            Fragment::Number(u64::from(frame.index())),
            Fragment::Bytes(b"\n"),
        ],
    )
}

/// Puts the line of the place at which a run ended in this fault.
fn put_fault<'w, P: Put>(
    out: &mut P,
    position: u64,
    words: &'w [u8],
    detail: Fragment<'w>,
) -> Result<(), PutError>
    requires { P.stops out.old < 2 ^ 64 - 1 }
    ensures { HasPut P.written P.stops P.device result out.old out.new (fault_line position words.now (fragment_text detail.entry)) }
{
    put_fragments(
        out,
        &[
            Fragment::Bytes(b"#"),
            Fragment::Number(position),
            Fragment::Bytes(b" fault "),
            Fragment::Bytes(words),
            detail,
            Fragment::Bytes(b"\n"),
        ],
    )
}

/// Puts the line of the place of a run after so many moves.
///
/// # Errors
///
/// `PutError` where `out` stopped. Then a prefix of the line was put.
pub fn put_place<'s, 'c, A: Allocator + Copy + 'c, M: Readers<A, Code<'c, A>>, P: Put>(
    out: &'s mut P,
    position: u64,
    machine: &'s M,
) -> Result<(), PutError>
    requires { P.stops out.old < 2 ^ 64 - 1 }
    ensures { HasPut P.written P.stops P.device result out.old out.new (state_line position (state_of (M.whole machine.now)).frames (state_of (M.whole machine.now)).status) }
{
    let prefix = Fragment::Bytes(b"#");
    let number = Fragment::Number(position);
    let end = Fragment::Bytes(b"\n");
    match machine.status() {
        Status::Running => put_standing(out, position, machine),
        Status::Done(None) => put_fragments(out, &[prefix, number, Fragment::Bytes(b" done\n")]),
        Status::Done(Some(value)) => put_fragments(
            out,
            &[
                prefix,
                number,
                Fragment::Bytes(b" done "),
                Fragment::Number(value),
                end,
            ],
        ),
        Status::Exited(word) => put_fragments(
            out,
            &[
                prefix,
                number,
                Fragment::Bytes(b" exit "),
                Fragment::Number(word),
                end,
            ],
        ),
        Status::Faulted(fault) => put_fault(
            out,
            position,
            fault_words(fault),
            fault_detail(machine, fault),
        ),
    }
}
