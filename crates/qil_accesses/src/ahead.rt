//! What the step to come accesses, as far as it shows before it. Nothing here takes memory.

ghost use Rattle.std.specs.Prelude.{◌≡◌, ◌-◌, ℕ, List, ◌∷◌, Some, length, map};
ghost use Rattle.std.specs.List.{All};
ghost use Rattle.std.specs.Option.{option_and_then};
ghost use Rattle.qil_tree.specs.declared.tree.Program.{Program};
ghost use Rattle.qil_layout.specs.declared.callee.Callee.TheVariants.{Puts};
ghost use Rattle.qil_layout.specs.Callee.{callee_at};
ghost use Rattle.qil_semantics.specs.State.{Name, State};
ghost use Rattle.qil_semantics.specs.Slots.{temps_of};
ghost use Rattle.qil_code.specs.Named.{named_operand, named_expr, named_inst, named_argument};
ghost use Rattle.qil_code.specs.Numbered.{names_of};
ghost use Rattle.qil_code.specs.Ranges.{InRange, ExprInRange, InstInRange};
ghost use Rattle.qil_code.specs.Slots.{name_at};
ghost use Rattle.qil_frames.specs.Frames.{SlotFrame};
ghost use Rattle.qil_history.specs.qil_machine.Readings.{temp_here};
ghost use Rattle.qil_state.specs.State.{FrameFits, frames_state, state_of};
ghost use Rattle.qil_state.specs.Values.{AreSlots};
ghost use Rattle.qil_accesses.specs.declared.access.Action.TheVariants.{Read, Write};
ghost use Rattle.qil_accesses.specs.Accesses.{touched, copied, given, load_bytes, value_of, expr_accesses, call_accesses, inst_accesses, frame_accesses};
ghost use Rattle.qil_accesses.specs.Ahead.{made_by, IsAhead};

use qil_code::{
    Code, NumberedArgument, NumberedExpr, NumberedInst, NumberedOperand, Slot, byte_count,
};
use qil_history::{FrameView, Readers, code_of};
use qil_layout::{Callee, FuncId};
use qil_state::value;
use qil_tree::{Class, LoadOp};
use std::alloc::Allocator;

/// What the step to come accesses if it doesn't fault.
#[derive(Clone, Copy)]
pub enum Ahead {
    Nothing,
    /// So many bytes from an address on are read.
    Read(u64, u64),
    /// So many bytes from an address on are written.
    Write(u64, u64),
    /// From the first address to the second so many bytes are copied.
    Copy(u64, u64, u64),
    /// So many new bytes of the stack are made, whose address a slot of a function takes.
    Alloc(FuncId, Slot, u64),
    /// The text at an address is written to the output, which has so many bytes.
    Text(u64, usize),
}

/// How many bytes a load reads.
fn load_bytes(op: LoadOp) -> u64
    ensures { result ≡ load_bytes op }
{
    match op {
        LoadOp::L => 8,
        LoadOp::Sw | LoadOp::Uw => 4,
        LoadOp::Sh | LoadOp::Uh => 2,
        LoadOp::Sb | LoadOp::Ub => 1,
    }
}

/// What an operand holds, as 64 bits, if it is set.
#[inline(always)]
fn value_of<A: Allocator + Copy>(slots: &[Option<u64>], source: NumberedOperand) -> Option<u64>
    requires { InRange (length slots.now) source }
    ensures { (p : Program A) (ns : List Name) → AreSlots ns slots.now → result ≡ value_of p (temps_of ns slots.now) (named_operand ns source) }
{
    match value::<A>(slots, Class::L, source) {
        Ok(value) => Some(value),
        Err(_) => None,
    }
}

/// So many bytes are read from the address that an operand holds.
#[inline(always)]
fn read_ahead<A: Allocator + Copy>(
    slots: &[Option<u64>],
    count: u64,
    source: NumberedOperand,
) -> Ahead
    requires { InRange (length slots.now) source }
    ensures { (p : Program A) (ns : List Name) (at : ℕ) (t : State) → AreSlots ns slots.now
        → made_by p at t result ≡ touched Read at count (value_of p (temps_of ns slots.now) (named_operand ns source)) }
{
    match value_of::<A>(slots, source) {
        Some(address) => Ahead::Read(address, count),
        None => Ahead::Nothing,
    }
}

/// What an expression reads.
#[inline(always)]
fn expr_ahead<A: Allocator + Copy>(slots: &[Option<u64>], expr: NumberedExpr) -> Ahead
    requires { ExprInRange (length slots.now) expr }
    ensures { (p : Program A) (ns : List Name) (at : ℕ) (t : State) → AreSlots ns slots.now
        → made_by p at t result ≡ expr_accesses p (temps_of ns slots.now) at (named_expr ns expr) }
{
    match expr {
        NumberedExpr::Load(op, source) => read_ahead::<A>(slots, load_bytes(op), source),
        NumberedExpr::Unary(_, _)
        | NumberedExpr::Binary(_, _, _)
        | NumberedExpr::Compare(_, _, _, _)
        | NumberedExpr::Extend(_, _) => Ahead::Nothing,
    }
}

/// So many bytes are written to the address that an operand holds.
#[inline(always)]
fn write_ahead<A: Allocator + Copy>(
    slots: &[Option<u64>],
    count: u64,
    target: NumberedOperand,
) -> Ahead
    requires { InRange (length slots.now) target }
    ensures { (p : Program A) (ns : List Name) (at : ℕ) (t : State) → AreSlots ns slots.now
        → made_by p at t result ≡ touched Write at count (value_of p (temps_of ns slots.now) (named_operand ns target)) }
{
    match value_of::<A>(slots, target) {
        Some(address) => Ahead::Write(address, count),
        None => Ahead::Nothing,
    }
}

/// So many bytes are copied.
fn copy_ahead<A: Allocator + Copy>(
    slots: &[Option<u64>],
    count: u64,
    source: NumberedOperand,
    target: NumberedOperand,
) -> Ahead
    requires source { InRange (length slots.now) source }
    requires target { InRange (length slots.now) target }
    ensures { (p : Program A) (ns : List Name) (at : ℕ) (t : State) → AreSlots ns slots.now
        → made_by p at t result ≡ copied at count (value_of p (temps_of ns slots.now) (named_operand ns source)) (value_of p (temps_of ns slots.now) (named_operand ns target)) }
{
    let Some(from) = value_of::<A>(slots, source) else {
        return Ahead::Nothing;
    };
    match value_of::<A>(slots, target) {
        Some(to) => Ahead::Copy(from, to, count),
        None => Ahead::Nothing,
    }
}

/// As many new bytes as an operand holds are made, whose address a slot of a function takes.
fn alloc_ahead<A: Allocator + Copy>(
    func: FuncId,
    slots: &[Option<u64>],
    to: Slot,
    count: NumberedOperand,
) -> Ahead
    requires { InRange (length slots.now) count }
    ensures { (p : Program A) (ns : List Name) (at : ℕ) (t : State) → AreSlots ns slots.now
        → made_by p at t result ≡ given at (value_of p (temps_of ns slots.now) (named_operand ns count)) (temp_here t.frames (name_at (names_of p func.index) to.index)) }
{
    match value_of::<A>(slots, count) {
        Some(count) => Ahead::Alloc(func, to, count),
        None => Ahead::Nothing,
    }
}

/// The text at the address that the first argument holds is written.
fn text_ahead<A: Allocator + Copy>(
    slots: &[Option<u64>],
    written: usize,
    args: &[NumberedArgument],
) -> Ahead
    requires { All (λ a. InRange (length slots.now) a.source) args.now }
    ensures { (p : Program A) (ns : List Name) (at n : ℕ) (t : State) → AreSlots ns slots.now → n ≡ length t.output - written
        → made_by p at t result ≡ call_accesses p (temps_of ns slots.now) at n (Some Puts) (map (named_argument ns) args.now) }
{
    let Some(first) = args.first() else {
        return Ahead::Nothing;
    };
    match value_of::<A>(slots, first.source) {
        Some(address) => Ahead::Text(address, written),
        None => Ahead::Nothing,
    }
}

/// What a call of the function at an address reads, if there is one.
fn callee_ahead<A: Allocator + Copy>(
    slots: &[Option<u64>],
    written: usize,
    callee: Option<Callee>,
    args: &[NumberedArgument],
) -> Ahead
    requires { All (λ a. InRange (length slots.now) a.source) args.now }
    ensures { (p : Program A) (ns : List Name) (at n : ℕ) (t : State) → AreSlots ns slots.now → n ≡ length t.output - written
        → made_by p at t result ≡ call_accesses p (temps_of ns slots.now) at n callee (map (named_argument ns) args.now) }
{
    match callee {
        Some(Callee::Puts) => text_ahead::<A>(slots, written, args),
        Some(Callee::Defined(_) | Callee::PutChar | Callee::Exit) | None => Ahead::Nothing,
    }
}

/// What a call reads.
#[inline(never)]
fn call_ahead<A: Allocator + Copy>(
    code: &Code<'_, A>,
    slots: &[Option<u64>],
    written: usize,
    callee: NumberedOperand,
    args: &[NumberedArgument],
) -> Ahead
    requires callee { InRange (length slots.now) callee }
    requires args { All (λ a. InRange (length slots.now) a.source) args.now }
    ensures { (ns : List Name) (at n : ℕ) (t : State) → AreSlots ns slots.now → n ≡ length t.output - written
        → made_by code.now at t result ≡ call_accesses code.now (temps_of ns slots.now) at n (option_and_then (callee_at code.now) (value_of code.now (temps_of ns slots.now) (named_operand ns callee))) (map (named_argument ns) args.now) }
{
    match value_of::<A>(slots, callee) {
        Some(address) => callee_ahead::<A>(slots, written, code.image().function_at(address), args),
        None => Ahead::Nothing,
    }
}

/// What an instruction of a function accesses.
#[inline(always)]
fn inst_ahead<A: Allocator + Copy>(
    code: &Code<'_, A>,
    func: FuncId,
    slots: &[Option<u64>],
    written: usize,
    inst: &NumberedInst<A>,
) -> Ahead
    requires range { InstInRange (length slots.now) inst.now }
    requires slots { AreSlots (names_of code.now func.index) slots.now }
    ensures { (at : ℕ) (s t : State) → length s.output ≡ written
        → made_by code.now at t result ≡ inst_accesses code.now (temps_of (names_of code.now func.index) slots.now) at s t (named_inst (names_of code.now func.index) inst.now) }
{
    match inst {
        NumberedInst::Assign(_, _, expr) => expr_ahead::<A>(slots, *expr),
        NumberedInst::Alloc(_, to, _, count) => alloc_ahead::<A>(func, slots, *to, *count),
        NumberedInst::Store(width, _, target) => {
            write_ahead::<A>(slots, byte_count(*width), *target)
        }
        NumberedInst::Blit(source, target, count) => {
            copy_ahead::<A>(slots, *count, *source, *target)
        }
        NumberedInst::Call(_, callee, args) => {
            call_ahead(code, slots, written, *callee, args.as_slice())
        }
    }
}

/// What the step of a frame accesses.
#[inline(always)]
fn frame_ahead<A: Allocator + Copy>(
    code: &Code<'_, A>,
    frame: &FrameView<'_>,
    written: usize,
) -> Ahead
    requires { FrameFits code.now frame.now }
    ensures { (fs : List SlotFrame) (at : ℕ) (s t : State) → length s.output ≡ written
        → made_by code.now at t result ≡ frame_accesses code.now at s t (frames_state code.now (frame.now ∷ fs)) }
{
    let func = frame.func();
    let slots = frame.slots();
    let Some(block) = code.block(func, frame.block()) else {
        return Ahead::Nothing;
    };
    match block.insts.as_slice().get(frame.index() as usize) {
        Some(inst) => inst_ahead(code, func, slots, written, inst),
        None => Ahead::Nothing,
    }
}

/// What the step to come accesses if it doesn't fault.
#[inline(always)]
pub fn look_ahead<'m, 'c, A: Allocator + Copy + 'c, M: Readers<A, Code<'c, A>>>(
    machine: &'m M,
) -> Ahead
    ensures { IsAhead (M.whole machine.now).program (state_of (M.whole machine.now)) result }
{
    let Some(frame) = machine.frame(0) else {
        return Ahead::Nothing;
    };
    let code = code_of(machine);
    let written = machine.output().len();
    frame_ahead(code, &frame, written)
}
