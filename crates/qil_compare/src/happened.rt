//! Which event a step had, by the machine before and after it, and by the code of the other program: a call or a write of what that
//! one doesn't have is no event. Nothing here takes memory.

ghost use Rattle.std.specs.Prelude.{◌≡◌, [], ◌∷◌, drop, option_map};
ghost use Rattle.qil_semantics.specs.State.{is_final};
ghost use Rattle.qil_state.specs.State.{state_of};
ghost use Rattle.qil_compare.specs.Events.{Due, has_data, bytes_out, write_in, write_by, call_by, return_by, one_if, ended, end_of};
ghost use Rattle.qil_compare.specs.Seen.{data_place};
ghost use Rattle.qil_compare.specs.Coded.{AreNamedAlike};
ghost use Rattle.qil_compare.specs.Next.{event_at, AreTold};
ghost use Rattle.qil_compare.specs.Ahead.{value_ahead, writes_ahead, IsAhead, IsFuncOf, HasHappened};

use crate::ahead::{Ahead, Before, depth, image_of};
use crate::alike::{has_called, has_like};
use crate::event::{Event, Kinds, Told};
use crate::standing::data_place_in;
use qil_code::Code;
use qil_history::{Readers, is_final};
use qil_layout::{DATA_BASE, FuncId, Image};
use std::alloc::Allocator;

/// Whether a program defines a data object of a name.
fn has_data<A: Allocator + Copy>(image: &Image<'_, A>, name: &[u8]) -> bool
    ensures { result ≡ has_data image.now name.now }
{
    match image.address(name) {
        Some(address) => DATA_BASE <= address,
        None => false,
    }
}

/// Whether the run is over.
pub fn is_over<'c, A: Allocator + Copy + 'c, M: Readers<A, Code<'c, A>>>(machine: &M) -> bool
    ensures { result ≡ is_final (state_of (M.whole machine.now)).status }
{
    is_final(machine)
}

/// An event behind which no output is left to report.
fn told<'c, A: Allocator + Copy + 'c, M: Readers<A, Code<'c, A>>>(
    machine: &M,
    event: Event,
) -> Option<Told>
    ensures { (kinds : Kinds) → AreTold (M.whole machine.now).program kinds (state_of (M.whole machine.now)) (event_at (M.whole machine.now).program (state_of (M.whole machine.now)) event ∷ []) result }
{
    Some(Told {
        event,
        told: machine.output().len(),
    })
}

/// How a run ended, if that is compared.
fn ended<'c, A: Allocator + Copy + 'c, M: Readers<A, Code<'c, A>>>(
    machine: &M,
    kinds: Kinds,
    before: Before,
) -> Option<Told>
    ensures { (due : Due) → IsFuncOf (M.whole machine.now).program due before.func
        → AreTold (M.whole machine.now).program kinds (state_of (M.whole machine.now)) (one_if kinds.end (ended (end_of (M.whole machine.now).program due.returns (state_of (M.whole machine.now)).status))) result }
{
    if !kinds.end {
        return None;
    }
    told(machine, Event::End(before.func))
}

/// A call, if it is one of both programs.
fn called<'c, A: Allocator + Copy + 'c, M: Readers<A, Code<'c, A>>>(
    machine: &M,
    other: &Code<'c, A>,
    kinds: Kinds,
    alike: u16,
) -> Option<Told>
    requires { AreNamedAlike (M.whole machine.now).program other.now alike }
    ensures { AreTold (M.whole machine.now).program kinds (state_of (M.whole machine.now)) (call_by (M.whole machine.now).program other.now kinds (state_of (M.whole machine.now)).frames) result }
{
    if !kinds.calls {
        return None;
    }
    if !has_called(machine, other, alike) {
        return None;
    }
    told(machine, Event::Call)
}

/// A return, if it is one of both programs.
fn returned<'c, A: Allocator + Copy + 'c, M: Readers<A, Code<'c, A>>>(
    machine: &M,
    other: &Code<'c, A>,
    kinds: Kinds,
    before: Before,
    alike: u16,
) -> Option<Told>
    requires { AreNamedAlike (M.whole machine.now).program other.now alike }
    ensures { (due : Due) → IsFuncOf (M.whole machine.now).program due before.func → IsAhead kinds due before.ahead
        → AreTold (M.whole machine.now).program kinds (state_of (M.whole machine.now)) (return_by (M.whole machine.now).program other.now kinds due) result }
{
    if !kinds.calls {
        return None;
    }
    if !has_like(image_of(machine), other, before.func, alike) {
        return None;
    }
    told(
        machine,
        Event::Return(before.func, returned_value(before.ahead)),
    )
}

/// The value that was to be returned.
fn returned_value(ahead: Ahead) -> Option<u64>
    ensures { result ≡ value_ahead ahead }
{
    match ahead {
        Ahead::Return(value) => Some(value),
        Ahead::Write(_, _) | Ahead::Other => None,
    }
}

/// From which address on how many bytes were to be written, if any.
fn range_of(ahead: Ahead) -> Option<(u64, u64)>
    ensures { option_map (λ r. record { start = r.0; count = r.1 }) result ≡ writes_ahead ahead }
{
    match ahead {
        Ahead::Write(start, count) => Some((start, count)),
        Ahead::Return(_) | Ahead::Other => None,
    }
}

/// A write to memory, if it is to data of both programs.
fn wrote_at<'c, A: Allocator + Copy + 'c, M: Readers<A, Code<'c, A>>>(
    machine: &M,
    other: &Code<'c, A>,
    start: u64,
    count: u64,
) -> Option<Told>
    ensures { (kinds : Kinds) → AreTold (M.whole machine.now).program kinds (state_of (M.whole machine.now))
        (write_in other.now (state_of (M.whole machine.now)) (record { start = start; count = count }) (data_place (M.whole machine.now).program start)) result }
{
    let Some(place) = data_place_in(machine, start) else {
        return None;
    };
    if !has_data(other.image(), place.object) {
        return None;
    }
    told(machine, Event::Write(start, count))
}

/// What was to be written, if writes are compared.
fn wrote<'c, A: Allocator + Copy + 'c, M: Readers<A, Code<'c, A>>>(
    machine: &M,
    other: &Code<'c, A>,
    kinds: Kinds,
    before: Before,
) -> Option<Told>
    ensures { (due : Due) → IsAhead kinds due before.ahead
        → AreTold (M.whole machine.now).program kinds (state_of (M.whole machine.now)) (write_by (M.whole machine.now).program other.now kinds (state_of (M.whole machine.now)) due.writes) result }
{
    if !kinds.writes {
        return None;
    }
    let Some(range) = range_of(before.ahead) else {
        return None;
    };
    wrote_at(machine, other, range.0, range.1)
}

/// The first byte of output after so many, if output is compared.
pub fn byte_out<'c, A: Allocator + Copy + 'c, M: Readers<A, Code<'c, A>>>(
    machine: &M,
    kinds: Kinds,
    told: usize,
) -> Option<Told>
    ensures { AreTold (M.whole machine.now).program kinds (state_of (M.whole machine.now)) (bytes_out kinds (drop told (M.whole machine.now).output)) result }
{
    if !kinds.output {
        return None;
    }
    let output = machine.output();
    if told >= output.len() {
        return None;
    }
    Some(Told {
        event: Event::Output(output[told]),
        told: told + 1,
    })
}

/// The first event of a step, by the machine after it.
#[inline(always)]
pub fn happened<'c, A: Allocator + Copy + 'c, M: Readers<A, Code<'c, A>>>(
    machine: &M,
    other: &Code<'c, A>,
    kinds: Kinds,
    before: Before,
    alike: u16,
) -> Option<Told>
    requires { AreNamedAlike (M.whole machine.now).program other.now alike }
    ensures { HasHappened (M.whole machine.now).program other.now kinds before (state_of (M.whole machine.now)) result }
{
    if is_over(machine) {
        return ended(machine, kinds, before);
    }
    let depth = depth(machine);
    if before.depth < depth {
        return called(machine, other, kinds, alike);
    }
    if depth < before.depth {
        return returned(machine, other, kinds, before, alike);
    }
    if before.written < machine.output().len() {
        return byte_out(machine, kinds, before.written);
    }
    wrote(machine, other, kinds, before)
}
