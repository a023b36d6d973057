//! What is too large for the loops that make moves, and is called by them.
//!
//! The room of a result that a call writes is cleared where the function with that call begins, and what may come from there is
//! kept in memory. So each call stands in a function of its own, which is put into the loops: a move that takes another way
//! passes it by.

ghost use Rattle.std.specs.Prelude.{◌≡◌, ◌+◌, ◌<◌, ◌^◌, Ok, Err, IfErr, OnOk, OnErr, None, slice_get};
ghost use Rattle.qil_code.specs.declared.numbered.NumberedInst.{NumberedInst};
ghost use Rattle.qil_state.specs.State.{state_of, head_names, IsNext};
ghost use Rattle.qil_state.specs.Stepping.{performed_whole, left_whole};
ghost use Rattle.qil_machine.specs.Costs.{WeighsAtMost, inst_weight, called_weight, jump_weight};
ghost use Rattle.qil_machine.specs.Places.{IsRunning, HasMade};
ghost use Rattle.qil_machine.specs.Results.{Explains};
ghost use Rattle.qil_machine.specs.Steps.{IsHere, HasInst, JumpTakes};

use crate::error::StepError;
use crate::log::{UndoSink, keep_made};
use crate::machine::Machine;
use crate::undo_record::UndoRecord;
use qil_code::{NumberedArgument, NumberedBlock, NumberedOperand, Receiver, Slot};
use qil_tree::{AllocOp, Class};
use std::alloc::Allocator;

impl<'c, A: Allocator + Copy> Machine<'c, A> {
    /// As `call_at`.
    #[inline(always)]
    pub(crate) fn call_apart<K: UndoSink<UndoRecord<A>>>(
        &mut self,
        to: Option<Receiver>,
        callee: NumberedOperand,
        args: &[NumberedArgument],
        index: u32,
        into: &mut K,
    ) -> Result<(), StepError>
        requires running { IsRunning self.old }
        requires next { IsNext self.old.program self.old.frames index }
        requires small { index + 1 < 2 ^ 32 }
        requires range { HasInst self.old.program self.old.frames (NumberedInst.Call to callee args.now) }
        requires room { K.has_room into.old }
        ensures does { OnOk result (performed_whole self.old (NumberedInst.Call to callee args.now) ≡ Ok (state_of self.new)) }
        ensures made { OnOk result (HasMade (K.takes into.old into.new) self.old self.new) }
        ensures weighs { OnOk result (WeighsAtMost (K.takes into.old into.new) (called_weight to self.old.frames self.new.frames)) }
        ensures fault { IfErr result (Explains (head_names self.old.program self.old.frames) (performed_whole self.old (NumberedInst.Call to callee args.now))) }
        ensures err { OnErr result (self.new ≡ self.old) }
        ensures none { OnErr result (into.new ≡ into.old) }
    {
        match self.call_at(to, callee, args, index, into) {
            Ok(()) => Ok(()),
            Err(error) => Err(error),
        }
    }

    /// As `grow_stack`, with the undo record kept.
    #[inline(always)]
    pub(crate) fn grow_apart<K: UndoSink<UndoRecord<A>>>(
        &mut self,
        class: Class,
        slot: Slot,
        op: AllocOp,
        count: NumberedOperand,
        index: u32,
        into: &mut K,
    ) -> Result<(), StepError>
        requires running { IsRunning self.old }
        requires next { IsNext self.old.program self.old.frames index }
        requires small { index + 1 < 2 ^ 32 }
        requires range { HasInst self.old.program self.old.frames (NumberedInst.Alloc class slot op count) }
        requires room { K.has_room into.old }
        ensures does { OnOk result (performed_whole self.old (NumberedInst.Alloc class slot op count) ≡ Ok (state_of self.new)) }
        ensures made { OnOk result (HasMade (K.takes into.old into.new) self.old self.new) }
        ensures weighs { OnOk result (WeighsAtMost (K.takes into.old into.new) (inst_weight self.old self.new (NumberedInst.Alloc class slot op count))) }
        ensures fault { IfErr result (Explains (head_names self.old.program self.old.frames) (performed_whole self.old (NumberedInst.Alloc class slot op count))) }
        ensures err { OnErr result (self.new ≡ self.old) }
        ensures none { OnErr result (into.new ≡ into.old) }
    {
        keep_made(into, self.grow_stack(class, slot, op, count, index))
    }

    /// As `copy_bytes`, with the undo record kept.
    #[inline(always)]
    pub(crate) fn copy_apart<K: UndoSink<UndoRecord<A>>>(
        &mut self,
        source: NumberedOperand,
        target: NumberedOperand,
        count: u64,
        index: u32,
        into: &mut K,
    ) -> Result<(), StepError>
        requires running { IsRunning self.old }
        requires next { IsNext self.old.program self.old.frames index }
        requires small { index + 1 < 2 ^ 32 }
        requires range { HasInst self.old.program self.old.frames (NumberedInst.Blit source target count) }
        requires room { K.has_room into.old }
        ensures does { OnOk result (performed_whole self.old (NumberedInst.Blit source target count) ≡ Ok (state_of self.new)) }
        ensures made { OnOk result (HasMade (K.takes into.old into.new) self.old self.new) }
        ensures weighs { OnOk result (WeighsAtMost (K.takes into.old into.new) (inst_weight self.old self.new (NumberedInst.Blit source target count))) }
        ensures fault { IfErr result (Explains (head_names self.old.program self.old.frames) (performed_whole self.old (NumberedInst.Blit source target count))) }
        ensures err { OnErr result (self.new ≡ self.old) }
        ensures none { OnErr result (into.new ≡ into.old) }
    {
        keep_made(into, self.copy_bytes(source, target, count, index))
    }

    /// As `leave`.
    #[inline(always)]
    pub(crate) fn leave_apart<K: UndoSink<UndoRecord<A>>>(
        &mut self,
        block: &NumberedBlock<A>,
        index: u32,
        into: &mut K,
    ) -> Result<(), StepError>
        requires running { IsRunning self.old }
        requires here { IsHere self.old.program self.old.frames block.now index }
        requires end { slice_get block.now.insts index ≡ None }
        requires room { K.has_room into.old }
        ensures does { OnOk result (left_whole self.old block.now.jump ≡ Ok (state_of self.new)) }
        ensures made { OnOk result (HasMade (K.takes into.old into.new) self.old self.new) }
        ensures weighs { OnOk result (WeighsAtMost (K.takes into.old into.new) (jump_weight self.old self.new block.now.jump)) }
        ensures fault { IfErr result (Explains (head_names self.old.program self.old.frames) (left_whole self.old block.now.jump)) }
        ensures memory { (result ≡ Err StepError.OutOfMemory) → JumpTakes self.old.program self.old.frames block.now.jump }
        ensures err { OnErr result (self.new ≡ self.old) }
        ensures none { OnErr result (into.new ≡ into.old) }
    {
        match self.leave(block, index, into) {
            Ok(()) => Ok(()),
            Err(error) => Err(error),
        }
    }
}
