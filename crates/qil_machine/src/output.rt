//! The functions that every program has and that write.

ghost use Rattle.std.specs.Prelude.{◌≡◌, ◌+◌, ◌*◌, ◌<◌, ◌≤◌, ◌^◌, ◌∷◌, ◌++◌, ℕ, [], length, take, vec_len, vec_capacity, None, Some, Ok, IfOk, IfErr, OnOk, OnErr};
ghost use Rattle.qil_memory.specs.Buffers.{stack_end};
ghost use Rattle.qil_memory.specs.Live.{live};
ghost use Rattle.qil_semantics.specs.State.{dead_address};
ghost use Rattle.qil_semantics.specs.Calls.{text_at};
ghost use Rattle.qil_frames.specs.Frames.{on_innermost, at_index};
ghost use Rattle.qil_state.specs.State.{state_of, head_names, ReceiverFits, IsNext};
ghost use Rattle.qil_machine.specs.Calls.{HasArguments, called_whole, bytes_from, AreLive, PutsText};
ghost use Rattle.qil_machine.specs.Moves.{weight};
ghost use Rattle.qil_machine.specs.Costs.{receiver_count, called_weight};
ghost use Rattle.qil_machine.specs.Places.{IsRunning, Made};
ghost use Rattle.qil_machine.specs.Results.{gives, Explains, WriteExplains, TextExplains};

use crate::call::only_argument;
use crate::error::StepError;
use crate::machine::{Machine, receive};
use crate::undo_record::UndoRecord;
use qil_code::{NumberedArgument, Receiver};
use qil_layout::Callee;
use qil_memory::Memory;
use qil_state::Fault;
use qil_tree::AbiType;
use std::alloc::Allocator;

/// The most bytes of output that a run may write.
pub const OUTPUT_LIMIT: usize = 1_048_576;

impl<'c, A: Allocator + Copy> Machine<'c, A> {
    /// Gives a value to the slot that takes it and goes one instruction on, where bytes were written after so many.
    #[inline(always)]
    fn wrote(&mut self, count: u32, to: Option<Receiver>, value: u64, index: u32) -> UndoRecord<A>
        requires running { IsRunning self.old }
        requires receiver { ReceiverFits self.old.frames to }
        requires next { IsNext self.old.program self.old.frames index }
        requires small { index + 1 < 2 ^ 32 }
        requires behind { count ≤ length self.old.output }
        ensures after { self.new ≡ record self.old { frames = on_innermost (at_index (index + 1)) (gives to (Some value) self.old.frames) } }
        ensures made { Made result (record self.old { output = take count self.old.output }) self.new }
        ensures weighs { weight result ≡ 4 + 2 * receiver_count to }
    {
        let old = receive(&mut self.frames, to, Some(value));
        self.frames.set_index(index + 1);
        match to {
            None => UndoRecord::wrote(index, count),
            Some(receiver) => UndoRecord::wrote_to(receiver.slot, old, index, count),
        }
    }

    /// Writes a byte, which is what is given.
    #[inline(always)]
    fn put_byte(
        &mut self,
        byte: u8,
        to: Option<Receiver>,
        index: u32,
    ) -> Result<UndoRecord<A>, StepError>
        requires running { IsRunning self.old }
        requires receiver { ReceiverFits self.old.frames to }
        requires next { IsNext self.old.program self.old.frames index }
        requires small { index + 1 < 2 ^ 32 }
        ensures after { OnOk result (self.new ≡ record self.old { frames = on_innermost (at_index (index + 1)) (gives to (Some byte) self.old.frames); output = self.old.output ++ byte ∷ [] }) }
        ensures room { OnOk result (length self.old.output + 1 ≤ 2 ^ 20) }
        ensures made { IfOk result (λ d. Made d self.old self.new) }
        ensures weighs { IfOk result (λ d. weight d ≡ 4 + 2 * receiver_count to) }
        ensures fault { IfErr result (λ e. WriteExplains e (length self.old.output + 1)) }
        ensures err { OnErr result (self.new ≡ self.old) }
    {
        let count = self.output.len() as u32;
        match reserve(&mut self.output, 1) {
            Ok(()) => {
                self.output.push_reserved(byte);
                Ok(self.wrote(count, to, u64::from(byte), index))
            }
            Err(error) => Err(error),
        }
    }

    /// Writes the low byte of the argument.
    #[inline(never)]
    pub(crate) fn put_char(
        &mut self,
        to: Option<Receiver>,
        args: &[NumberedArgument],
        index: u32,
    ) -> Result<UndoRecord<A>, StepError>
        requires running { IsRunning self.old }
        requires next { IsNext self.old.program self.old.frames index }
        requires small { index + 1 < 2 ^ 32 }
        requires receiver { ReceiverFits self.old.frames to }
        requires args { HasArguments self.old.frames args.now }
        ensures does { (address : ℕ) → OnOk result (called_whole self.old to args.now address (Some Callee.PutChar) ≡ Ok (state_of self.new)) }
        ensures made { IfOk result (λ d. Made d self.old self.new) }
        ensures weighs { IfOk result (λ d. weight d ≤ called_weight to self.old.frames self.new.frames) }
        ensures fault { (address : ℕ) → IfErr result (Explains (head_names self.old.program self.old.frames) (called_whole self.old to args.now address (Some Callee.PutChar))) }
        ensures err { OnErr result (self.new ≡ self.old) }
    {
        let slots = self.frames.innermost().slots();
        match only_argument(slots, AbiType::W, Some(AbiType::W), to, args) {
            Ok(word) => {
                let byte = (word % 256) as u8;
                match self.put_byte(byte, to, index) {
                    Ok(undo_record) => Ok(undo_record),
                    Err(error) => Err(error),
                }
            }
            Err(fault) => Err(StepError::Fault(fault)),
        }
    }

    /// Writes the bytes from an address up to a zero byte, and the byte 10 after them; 0 is given.
    #[inline(always)]
    fn put_text(
        &mut self,
        address: u64,
        to: Option<Receiver>,
        index: u32,
    ) -> Result<UndoRecord<A>, StepError>
        requires running { IsRunning self.old }
        requires receiver { ReceiverFits self.old.frames to }
        requires next { IsNext self.old.program self.old.frames index }
        requires small { index + 1 < 2 ^ 32 }
        ensures after { OnOk result (PutsText address index to self.new self.old) }
        ensures made { IfOk result (λ d. Made d self.old self.new) }
        ensures weighs { IfOk result (λ d. weight d ≡ 4 + 2 * receiver_count to) }
        ensures fault { IfErr result (TextExplains (text_at (live self.old.memory) address) (length self.old.output)) }
        ensures err { OnErr result (self.new ≡ self.old) }
    {
        let count = match text_length(&self.memory, address) {
            Ok(count) => count,
            Err(dead) => return Err(StepError::Fault(Fault::DeadAddress(dead))),
        };
        let written = self.output.len() as u32;
        match reserve(&mut self.output, count as usize + 1) {
            Ok(()) => {
                copy_text(&mut self.output, &self.memory, address, count);
                Ok(self.wrote(written, to, 0, index))
            }
            Err(error) => Err(error),
        }
    }

    /// Writes the text that the argument is the address of, and a line's end.
    #[inline(never)]
    pub(crate) fn puts(
        &mut self,
        to: Option<Receiver>,
        args: &[NumberedArgument],
        index: u32,
    ) -> Result<UndoRecord<A>, StepError>
        requires running { IsRunning self.old }
        requires next { IsNext self.old.program self.old.frames index }
        requires small { index + 1 < 2 ^ 32 }
        requires receiver { ReceiverFits self.old.frames to }
        requires args { HasArguments self.old.frames args.now }
        ensures does { (address : ℕ) → OnOk result (called_whole self.old to args.now address (Some Callee.Puts) ≡ Ok (state_of self.new)) }
        ensures made { IfOk result (λ d. Made d self.old self.new) }
        ensures weighs { IfOk result (λ d. weight d ≤ called_weight to self.old.frames self.new.frames) }
        ensures fault { (address : ℕ) → IfErr result (Explains (head_names self.old.program self.old.frames) (called_whole self.old to args.now address (Some Callee.Puts))) }
        ensures err { OnErr result (self.new ≡ self.old) }
    {
        let slots = self.frames.innermost().slots();
        match only_argument(slots, AbiType::L, Some(AbiType::W), to, args) {
            Ok(text) => match self.put_text(text, to, index) {
                Ok(undo_record) => Ok(undo_record),
                Err(error) => Err(error),
            },
            Err(fault) => Err(StepError::Fault(fault)),
        }
    }
}

/// How many bytes lie from an address on before a zero byte.
///
/// # Errors
///
/// The first address from there on that is dead.
pub fn text_length<A: Allocator + Copy>(memory: &Memory<A>, address: u64) -> Result<u64, u64>
    ensures text { IfOk result (λ n. text_at (live memory.now) address ≡ Ok (bytes_from (live memory.now) address n)) }
    ensures live { IfOk result (AreLive (live memory.now) address) }
    ensures small { IfOk result (λ n. (n ≤ stack_end) × (address + n < 2 ^ 64)) }
    ensures dead { IfErr result (λ a. text_at (live memory.now) address ≡ Err (dead_address a)) }
{
    let mut count: u64 = 0;
    while let Some(byte) = memory.byte(address + count) {
        if byte == 0 {
            return Ok(count);
        }
        count += 1;
    }
    Err(address + count)
}

/// Writes so many bytes from an address on, and the byte 10, where there is room.
pub fn copy_text<A: Allocator + Copy>(
    output: &mut Vec<u8, A>,
    memory: &Memory<A>,
    address: u64,
    count: u64,
)
    requires room { vec_len output.old + (count + 1) ≤ vec_capacity output.old }
    requires live { AreLive (live memory.now) address count }
    requires fits { address + count < 2 ^ 64 }
    ensures items { output.new.items ≡ output.old.items ++ (bytes_from (live memory.now) address count ++ 10 ∷ []) }
    ensures room { vec_capacity output.new ≡ vec_capacity output.old }
{
    for i in 0..count {
        match memory.byte(address + i) {
            Some(byte) => output.push_reserved(byte),
            None => unreachable!(),
        }
    }
    output.push_reserved(10);
}

/// Makes room for more bytes after those that were written.
fn reserve<A: Allocator>(output: &mut Vec<u8, A>, more: usize) -> Result<(), StepError>
    requires { length output.old.items ≤ 2 ^ 20 }
    ensures same { output.new.items ≡ output.old.items }
    ensures room { OnOk result (length output.old.items + more ≤ 2 ^ 20) }
    ensures capacity { OnOk result (vec_len output.new + more ≤ vec_capacity output.new) }
    ensures fault { IfErr result (λ e. WriteExplains e (length output.old.items + more)) }
{
    if more > OUTPUT_LIMIT - output.len() {
        return Err(StepError::Fault(Fault::OutputFull));
    }
    match output.reserve(more) {
        Ok(()) => Ok(()),
        Err(_) => Err(StepError::OutOfMemory),
    }
}
