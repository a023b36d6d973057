//! What a machine is about to do that an event comes of. Nothing here takes memory.

ghost use Rattle.std.specs.Prelude.{◌≡◌, ◌+◌, ◌≤◌, false, List, ◌∷◌, None, length, slice_get, option_map};
ghost use Rattle.qil_tree.specs.declared.ops.Class.TheVariants as classes;
ghost use Rattle.qil_tree.specs.declared.tree.JumpKind.TheVariants as jumps;
ghost use Rattle.qil_tree.specs.declared.tree.Program.{Program};
ghost use Rattle.qil_layout.specs.declared.callee.FuncId.{FuncId};
ghost use Rattle.qil_semantics.specs.State.{Name, State, is_final};
ghost use Rattle.qil_semantics.specs.Slots.{temps_of};
ghost use Rattle.qil_semantics.specs.Values.{val};
ghost use Rattle.qil_code.specs.Facts.{Finds};
ghost use Rattle.qil_code.specs.Named.{named_operand, named_inst, named_jump};
ghost use Rattle.qil_code.specs.Ranges.{InRange, InstInRange, ReturnedInRange};
ghost use Rattle.qil_code.specs.Reading.{returns_at};
ghost use Rattle.qil_frames.specs.Frames.{SlotFrame};
ghost use Rattle.qil_state.specs.State.{FrameFits, IsMachine, frames_state, state_of};
ghost use Rattle.qil_state.specs.Values.{AreSlots};
ghost use Rattle.qil_compare.specs.Events.{range_from, writes_at, jump_returns, due_of};
ghost use Rattle.qil_compare.specs.Ahead.{writes_ahead, value_ahead, JumpReads, ok_value, is_plain, is_call, is_return, ArePlain, IsKept, IsStretch};

use crate::event::Kinds;
use qil_code::{Code, NumberedInst, NumberedJump, NumberedOperand, byte_count, class_returned};
use qil_history::{FrameView, Readers, code_of};
use qil_layout::{FuncId, Image};
use qil_state::{fitted, value};
use qil_tree::{AbiType, Class};
use std::alloc::Allocator;

/// How many steps without an event are made in one go at most.
const MOST_STEPS: usize = 1 << 16;

/// What the step to come may do that shows in no count.
#[derive(Clone, Copy)]
pub enum Ahead {
    Other,
    /// So many bytes are written to memory, from an address on.
    Write(u64, u64),
    /// The value that is returned.
    Return(u64),
}

/// What is kept of a machine over some steps.
#[derive(Clone, Copy)]
pub struct Before {
    /// The function that the innermost frame is in.
    pub func: FuncId,
    /// How many calls are open.
    pub depth: usize,
    /// How many bytes were written to the output.
    pub written: usize,
    pub ahead: Ahead,
    /// How many steps are made in one go: only the last can have an event.
    pub moves: u64,
}

/// What some steps in one call may do: only the last can have an event.
#[derive(Clone, Copy)]
pub struct Stretch {
    /// What the last may do that shows in no count.
    pub ahead: Ahead,
    pub moves: u64,
}

/// What an operand holds in a class, if it is set.
#[inline(always)]
fn value_in<A: Allocator + Copy>(
    frame: &FrameView<'_>,
    class: Class,
    source: NumberedOperand,
) -> Option<u64>
    requires { InRange (length frame.now.slots) source }
    ensures { (p : Program A) (ns : List Name) → AreSlots ns frame.now.slots → result ≡ ok_value (val p (temps_of ns frame.now.slots) class (named_operand ns source)) }
{
    match value::<A>(frame.slots(), class, source) {
        Ok(value) => Some(value),
        Err(_) => None,
    }
}

/// So many bytes from the address that an operand holds.
fn range_ahead<A: Allocator + Copy>(
    frame: &FrameView<'_>,
    address: NumberedOperand,
    count: u64,
) -> Ahead
    requires { InRange (length frame.now.slots) address }
    ensures writes { (p : Program A) (ns : List Name) → AreSlots ns frame.now.slots → writes_ahead result ≡ range_from count (val p (temps_of ns frame.now.slots) classes.L (named_operand ns address)) }
    ensures value { value_ahead result ≡ None }
{
    match value_in::<A>(frame, Class::L, address) {
        Some(start) => Ahead::Write(start, count),
        None => Ahead::Other,
    }
}

/// Where an instruction writes to memory.
fn write_ahead<A: Allocator + Copy>(frame: &FrameView<'_>, inst: &NumberedInst<A>) -> Ahead
    requires { InstInRange (length frame.now.slots) inst.now }
    ensures writes { (p : Program A) (ns : List Name) → AreSlots ns frame.now.slots → writes_ahead result ≡ writes_at p (temps_of ns frame.now.slots) (named_inst ns inst.now) }
    ensures value { value_ahead result ≡ None }
{
    match inst {
        NumberedInst::Store(width, _, address) => range_ahead::<A>(
            frame,
            *address,
            byte_count(*width),
        ),
        NumberedInst::Blit(_, target, count) => {
            if *count == 0 {
                return Ahead::Other;
            }
            range_ahead::<A>(frame, *target, *count)
        }
        NumberedInst::Assign(_, _, _)
        | NumberedInst::Alloc(_, _, _, _)
        | NumberedInst::Call(_, _, _) => Ahead::Other,
    }
}

/// What a jump returns.
fn return_ahead<A: Allocator + Copy>(
    code: &Code<'_, A>,
    frame: &FrameView<'_>,
    jump: &NumberedJump<A>,
) -> Ahead
    requires { JumpReads (length frame.now.slots) jump.now }
    ensures writes { writes_ahead result ≡ None }
    ensures value { (ns ls : List Name) → AreSlots ns frame.now.slots → value_ahead result ≡ jump_returns code.now (temps_of ns frame.now.slots) (returns_at code.now frame.now.func) (named_jump ns ls jump.now) }
{
    match jump {
        NumberedJump::Ret(source) => returned_ahead(code, frame, *source),
        NumberedJump::Jmp(_) | NumberedJump::Jnz(_, _, _) | NumberedJump::Hlt => Ahead::Other,
    }
}

/// The value of an operand as the function of a frame returns it.
fn returned_ahead<A: Allocator + Copy>(
    code: &Code<'_, A>,
    frame: &FrameView<'_>,
    source: Option<NumberedOperand>,
) -> Ahead
    requires { ReturnedInRange (length frame.now.slots) source }
    ensures writes { writes_ahead result ≡ None }
    ensures value { (ns : List Name) → AreSlots ns frame.now.slots → value_ahead result ≡ jump_returns code.now (temps_of ns frame.now.slots) (returns_at code.now frame.now.func) (jumps.Ret (option_map (named_operand ns) source)) }
{
    let Some(source) = source else {
        return Ahead::Other;
    };
    let returns = code.returns(frame.func());
    match value_in::<A>(frame, class_returned(returns), source) {
        Some(value) => Ahead::Return(fitted(returns.unwrap_or(AbiType::W), value)),
        None => Ahead::Other,
    }
}

/// Whether an instruction is a call.
#[inline(always)]
fn is_call<A: Allocator>(inst: &NumberedInst<A>) -> bool
    ensures { result ≡ is_call inst.now }
{
    match inst {
        NumberedInst::Call(_, _, _) => true,
        NumberedInst::Assign(_, _, _)
        | NumberedInst::Alloc(_, _, _, _)
        | NumberedInst::Store(_, _, _)
        | NumberedInst::Blit(_, _, _) => false,
    }
}

/// Whether a jump returns.
#[inline(always)]
fn is_return<A: Allocator>(jump: &NumberedJump<A>) -> bool
    ensures { result ≡ is_return jump.now }
{
    match jump {
        NumberedJump::Ret(_) => true,
        NumberedJump::Jmp(_) | NumberedJump::Jnz(_, _, _) | NumberedJump::Hlt => false,
    }
}

/// Whether an instruction has no event, unless it ends the run: it calls nothing, and writes nothing if writes are asked for.
#[inline(always)]
fn is_plain<A: Allocator>(inst: &NumberedInst<A>, writes: bool) -> bool
    ensures { result ≡ is_plain writes inst.now }
{
    match inst {
        NumberedInst::Assign(_, _, _) | NumberedInst::Alloc(_, _, _, _) => true,
        NumberedInst::Store(_, _, _) | NumberedInst::Blit(_, _, _) => !writes,
        NumberedInst::Call(_, _, _) => false,
    }
}

/// The first place from one on at which there is no such instruction, or the place after so many of them.
#[inline(always)]
fn first_other<A: Allocator>(insts: &[NumberedInst<A>], from: usize, writes: bool) -> usize
    requires { from ≤ 4294967295 }
    ensures later { from ≤ result }
    ensures few { result ≤ from + 65536 }
    ensures plain { ArePlain writes insts.now from result }
{
    let end = insts.len().min(from + MOST_STEPS);
    for at in from..end {
        if !is_plain(&insts[at], writes) {
            return at;
        }
    }
    end.max(from)
}

/// So many steps, after which nothing is to be seen that shows in no count.
#[inline(always)]
fn quiet(moves: u64) -> Stretch
    ensures { result ≡ record { ahead = Ahead.Other; moves = moves } }
{
    Stretch {
        ahead: Ahead::Other,
        moves,
    }
}

/// One step.
#[inline(always)]
fn one(ahead: Ahead) -> Stretch
    ensures { result ≡ record { ahead = ahead; moves = 1 } }
{
    Stretch { ahead, moves: 1 }
}

/// What the next steps of a frame may do, as far as an event of these kinds comes of it.
// The place is looked for whatever is asked, and there is no way on without one: so the step behind finds it again at no cost.
#[inline(always)]
fn look_ahead<A: Allocator + Copy>(
    code: &Code<'_, A>,
    frame: &FrameView<'_>,
    kinds: Kinds,
) -> Stretch
    requires fits { FrameFits code.now frame.now }
    requires finds { Finds code.now }
    ensures { (fs : List SlotFrame) (func : FuncId) (s : State) → func.index ≡ frame.now.func → s.frames ≡ frames_state code.now (frame.now ∷ fs)
        → IsStretch code.now kinds s func result.ahead result.moves }
{
    let Some(block) = code.block(frame.func(), frame.block()) else {
        unreachable!()
    };
    let insts = block.insts.as_slice();
    let from = frame.index() as usize;
    let at = first_other(insts, from, kinds.writes);
    let plain = (at - from) as u64;
    let Some(inst) = insts.get(at) else {
        if !is_return(&block.jump) {
            return quiet(plain + 1);
        }
        if plain > 0 {
            return quiet(plain);
        }
        return one(return_ahead(code, frame, &block.jump));
    };
    if is_call(inst) {
        return quiet(plain + 1);
    }
    if plain > 0 {
        return quiet(plain);
    }
    one(write_ahead(frame, inst))
}

/// The innermost frame.
pub fn innermost<'c, 'm, A: Allocator + Copy + 'c, M: Readers<A, Code<'c, A>>>(
    machine: &'m M,
) -> Option<FrameView<'m>>
    ensures frame { result ≡ slice_get (M.whole machine.now).frames 0 }
    ensures machine { IsMachine (M.whole machine.now) }
{
    machine.frame(0)
}

/// The image of the program that a machine runs.
#[inline(always)]
pub fn image_of<'c, A: Allocator + Copy + 'c, M: Readers<A, Code<'c, A>>>(
    machine: &M,
) -> &'c Image<'c, A>
    ensures { result.now ≡ (M.whole machine.now).program }
{
    code_of(machine).image()
}

/// How many calls are open.
pub fn depth<'c, A: Allocator + Copy + 'c, M: Readers<A, Code<'c, A>>>(machine: &M) -> usize
    ensures { result ≡ length (state_of (M.whole machine.now)).frames }
{
    machine.depth()
}

/// What is kept of a machine before some steps of its run, which isn't over.
#[inline(always)]
pub fn kept_before<'c, A: Allocator + Copy + 'c, M: Readers<A, Code<'c, A>>>(
    machine: &M,
    kinds: Kinds,
) -> Before
    requires { is_final (state_of (M.whole machine.now)).status ≡ false }
    ensures { IsKept (M.whole machine.now).program kinds (state_of (M.whole machine.now)) result }
{
    let code = code_of(machine);
    code.names_are_distinct();
    let written = machine.output().len();
    let depth = depth(machine);
    let Some(frame) = innermost(machine) else {
        unreachable!()
    };
    let stretch = look_ahead(code, &frame, kinds);
    Before {
        func: frame.func(),
        depth,
        written,
        ahead: stretch.ahead,
        moves: stretch.moves,
    }
}
