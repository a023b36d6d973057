//! Jumps: what is at the end of a block is done.

ghost use Rattle.std.specs.Prelude.{◌≡◌, ◌≢◌, ◌≤◌, None, Some, Ok, Err, IfOk, IfErr, OnOk, OnErr, slice_get, length};
ghost use Rattle.qil_code.specs.declared.numbered.NumberedJump.{NumberedJump};
ghost use Rattle.qil_code.proofs.EdgesNamed.{IsEdgeOf};
ghost use Rattle.qil_state.specs.State.{state_of, head_names};
ghost use Rattle.qil_state.specs.Stepping.{left_whole, went_whole};
ghost use Rattle.qil_machine.specs.Moves.{weight};
ghost use Rattle.qil_machine.specs.Costs.{WeighsAtMost, entered_weight, returned_weight, jump_weight};
ghost use Rattle.qil_machine.specs.Places.{IsRunning, Made, HasMade};
ghost use Rattle.qil_machine.specs.Results.{Explains};
ghost use Rattle.qil_machine.specs.Steps.{IsHere, HasOperand, HasReturned, BranchTakes, JumpTakes};

use crate::error::StepError;
use crate::log::{UndoSink, keep_made};
use crate::machine::Machine;
use crate::undo_record::UndoRecord;
use qil_code::{Edge, NumberedBlock, NumberedJump, NumberedOperand, class_returned};
use qil_state::{Fault, fitted, value};
use qil_tree::{AbiType, Class};
use std::alloc::Allocator;

impl<'c, A: Allocator + Copy> Machine<'c, A> {
    /// Goes along an edge of the jump at the end of the block.
    #[inline(always)]
    pub(crate) fn take_edge(
        &mut self,
        block: &NumberedBlock<A>,
        edge: &Edge<A>,
        index: u32,
    ) -> Result<UndoRecord<A>, StepError>
        requires running { IsRunning self.old }
        requires here { IsHere self.old.program self.old.frames block.now index }
        requires end { slice_get block.now.insts index ≡ None }
        requires edge { IsEdgeOf edge.now block.now.jump }
        ensures does { OnOk result (went_whole self.old edge.now ≡ Ok (state_of self.new)) }
        ensures made { IfOk result (λ d. Made d self.old self.new) }
        ensures weighs { IfOk result (λ d. weight d ≡ entered_weight self.old self.new) }
        ensures fault { IfErr result (Explains (head_names self.old.program self.old.frames) (went_whole self.old edge.now)) }
        ensures few { length edge.now.moves ≤ 1 → result ≢ Err StepError.OutOfMemory }
        ensures err { OnErr result (self.new ≡ self.old) }
    {
        // Reading a field makes known what its type keeps.
        let _ = &self.code;
        // The clauses alone name these two.
        let _ = block;
        let _ = index;
        let undo_record = match self.go(edge) {
            Ok(undo_record) => undo_record,
            Err(error) => return Err(error),
        };
        Ok(undo_record)
    }

    /// Goes along the first edge unless the operand's low 32 bits are zero, else along the second.
    #[inline(always)]
    pub(crate) fn branch(
        &mut self,
        block: &NumberedBlock<A>,
        source: NumberedOperand,
        if_set: &Edge<A>,
        if_zero: &Edge<A>,
        index: u32,
    ) -> Result<UndoRecord<A>, StepError>
        requires running { IsRunning self.old }
        requires here { IsHere self.old.program self.old.frames block.now index }
        requires end { slice_get block.now.insts index ≡ None }
        requires jump { block.now.jump ≡ NumberedJump.Jnz source if_set.now if_zero.now }
        ensures does { OnOk result (left_whole self.old block.now.jump ≡ Ok (state_of self.new)) }
        ensures made { IfOk result (λ d. Made d self.old self.new) }
        ensures weighs { IfOk result (λ d. weight d ≡ entered_weight self.old self.new) }
        ensures fault { IfErr result (Explains (head_names self.old.program self.old.frames) (left_whole self.old block.now.jump)) }
        ensures memory { (result ≡ Err StepError.OutOfMemory) → BranchTakes self.old.program self.old.frames source if_set.now if_zero.now }
        ensures err { OnErr result (self.new ≡ self.old) }
    {
        let value = match value::<A>(self.frames.innermost().slots(), Class::W, source) {
            Ok(value) => value,
            Err(fault) => return Err(StepError::Fault(fault)),
        };
        if value == 0 {
            return self.take_edge(block, if_zero, index);
        }
        self.take_edge(block, if_set, index)
    }

    /// Returns the value of an operand.
    #[inline(always)]
    pub(crate) fn return_value(
        &mut self,
        source: NumberedOperand,
    ) -> Result<UndoRecord<A>, StepError>
        requires running { IsRunning self.old }
        requires source { HasOperand self.old.frames source }
        ensures does { OnOk result (left_whole self.old (NumberedJump.Ret (Some source)) ≡ Ok (state_of self.new)) }
        ensures made { IfOk result (λ d. Made d self.old self.new) }
        ensures weighs { IfOk result (λ d. weight d ≡ returned_weight self.old.frames) }
        ensures fault { IfErr result (Explains (head_names self.old.program self.old.frames) (left_whole self.old (NumberedJump.Ret (Some source)))) }
        ensures memory { result ≢ Err StepError.OutOfMemory }
        ensures err { OnErr result (self.new ≡ self.old) }
    {
        let frame = self.frames.innermost();
        let returns = self.code.returns(frame.func());
        let value = match value::<A>(frame.slots(), class_returned(returns), source) {
            Ok(value) => value,
            Err(fault) => return Err(StepError::Fault(fault)),
        };
        let value = fitted(returns.unwrap_or(AbiType::W), value);
        Ok(self.ret(Some(value)))
    }

    /// Returns, with the value of an operand or without one.
    #[inline(always)]
    pub(crate) fn give_back(
        &mut self,
        source: Option<NumberedOperand>,
    ) -> Result<UndoRecord<A>, StepError>
        requires running { IsRunning self.old }
        requires source { HasReturned self.old.frames source }
        ensures does { OnOk result (left_whole self.old (NumberedJump.Ret source) ≡ Ok (state_of self.new)) }
        ensures made { IfOk result (λ d. Made d self.old self.new) }
        ensures weighs { IfOk result (λ d. weight d ≡ returned_weight self.old.frames) }
        ensures fault { IfErr result (Explains (head_names self.old.program self.old.frames) (left_whole self.old (NumberedJump.Ret source))) }
        ensures memory { result ≢ Err StepError.OutOfMemory }
        ensures err { OnErr result (self.new ≡ self.old) }
    {
        // Reading a frame makes known what the frames keep.
        let _ = self.frames.innermost();
        match source {
            Some(source) => self.return_value(source),
            None => Ok(self.ret(None)),
        }
    }

    /// Does the jump at the end of the block, and keeps its undo record.
    #[inline(always)]
    pub(crate) fn leave<K: UndoSink<UndoRecord<A>>>(
        &mut self,
        block: &NumberedBlock<A>,
        index: u32,
        into: &mut K,
    ) -> Result<(), StepError>
        requires running { IsRunning self.old }
        requires here { IsHere self.old.program self.old.frames block.now index }
        requires end { slice_get block.now.insts index ≡ None }
        requires room { K.has_room into.old }
        ensures does { OnOk result (left_whole self.old block.now.jump ≡ Ok (state_of self.new)) }
        ensures made { OnOk result (HasMade (K.takes into.old into.new) self.old self.new) }
        ensures weighs { OnOk result (WeighsAtMost (K.takes into.old into.new) (jump_weight self.old self.new block.now.jump)) }
        ensures fault { IfErr result (Explains (head_names self.old.program self.old.frames) (left_whole self.old block.now.jump)) }
        ensures memory { (result ≡ Err StepError.OutOfMemory) → JumpTakes self.old.program self.old.frames block.now.jump }
        ensures err { OnErr result (self.new ≡ self.old) }
        ensures none { OnErr result (into.new ≡ into.old) }
    {
        // Reading a frame makes known what the frames keep.
        let _ = self.frames.innermost();
        match &block.jump {
            NumberedJump::Jmp(edge) => keep_made(into, self.take_edge(block, edge, index)),
            NumberedJump::Jnz(source, if_set, if_zero) => {
                keep_made(into, self.branch(block, *source, if_set, if_zero, index))
            }
            NumberedJump::Ret(source) => keep_made(into, self.give_back(*source)),
            NumberedJump::Hlt => Err(StepError::Fault(Fault::Halted)),
        }
    }
}
