//! Copies of a machine's state, and the way back to one.

ghost use Rattle.std.specs.Prelude.{◌≡◌, ◌≤◌, length, vec_capacity, IfOk};
ghost use Rattle.qil_memory.specs.Live.{live};
ghost use Rattle.qil_state.specs.State.{state_of};
ghost use Rattle.qil_flatmachine.specs.Kept.{IsOf};

use crate::machine::FlatMachine;
use qil_flat::{CallStack, FlatCode, KeptCalls, KeptMemory};
use qil_memory::Memory;
use qil_state::Status;
use std::alloc::{AllocError, Allocator};
use std::marker::Model;

/// A copy of a machine's state: the calls with the slots in use, the bytes that are live, and the output. Specifications see
/// the machine that it is of, without the dead bytes of its stack.
#[derive(Drop)]
pub struct KeptState<'c, A: Allocator> {
    code: &'c FlatCode<'c, A>,
    calls: KeptCalls<A>,
    memory: KeptMemory<A>,
    output: Vec<u8, A>,
    status: Status,
}

impl<'c, A: Allocator> Model for KeptState<'c, A> {
    ghost use Rattle.qil_flatmachine.specs.Kept.{KeptWhole, kept_whole, IsKept};

    ghost Value = { KeptWhole A };

    ghost view = { λ k. kept_whole k.code.now k.calls.frames k.calls.most_slots k.memory k.output.items k.status };

    ghost invariant = { λ k. IsKept k.code.now k.calls.frames k.memory k.output.items k.status };
}

impl<'c, A: Allocator + Copy> KeptState<'c, A> {
    /// About how many bytes it takes.
    pub fn size(&self) -> usize {
        self.calls
            .size()
            .saturating_add(self.memory.size())
            .saturating_add(self.output.len())
    }
}

/// What a copy owns.
#[derive(Drop)]
struct KeptParts<A: Allocator> {
    calls: KeptCalls<A>,
    memory: KeptMemory<A>,
    output: Vec<u8, A>,
}

/// Copies what a machine owns.
// Without the machine, whose code would be at hand on each way out: the check took three times as long.
fn kept_parts<A: Allocator + Copy>(
    calls: &CallStack<A>,
    memory: &Memory<A>,
    output: &Vec<u8, A>,
) -> Result<KeptParts<A>, AllocError>
    ensures calls { IfOk result (λ p. p.calls ≡ record { frames = calls.now.frames; most_slots = calls.now.most_slots }) }
    ensures live { IfOk result (λ p. live p.memory ≡ live memory.now) }
    ensures top { IfOk result (λ p. p.memory.top ≡ memory.now.top) }
    ensures count { IfOk result (λ p. length p.memory.data_bytes ≡ length memory.now.data_bytes) }
    ensures output { IfOk result (λ p. p.output.items ≡ output.now.items) }
{
    let alloc = *output.allocator();
    let calls = calls.keep()?;
    let memory = KeptMemory::of(memory, alloc)?;
    let output = Vec::from_slice(alloc, output.as_slice())?;
    Ok(KeptParts {
        calls,
        memory,
        output,
    })
}

impl<'c, A: Allocator + Copy> FlatMachine<'c, A> {
    /// A copy of the state, in memory of its own.
    pub fn keep(&self) -> Result<KeptState<'c, A>, AllocError>
        ensures of { IfOk result (IsOf self.now.base) }
        ensures state { IfOk result (λ k. state_of k.whole ≡ state_of self.now.whole) }
    {
        let parts = kept_parts(&self.calls, &self.memory, &self.output)?;
        Ok(KeptState {
            code: self.code,
            calls: parts.calls,
            memory: parts.memory,
            output: parts.output,
            status: self.status,
        })
    }

    /// Goes to the state that a copy is of. It takes no memory, and time by what is live there.
    pub fn restore(&mut self, kept: &KeptState<'c, A>)
        requires { IsOf self.old.base kept.now }
        ensures base { self.new.base ≡ self.old.base }
        ensures state { state_of self.new.whole ≡ state_of kept.now.whole }
        ensures program { self.new.whole.program ≡ self.old.whole.program }
    {
        self.calls.restore(&kept.calls);
        kept.memory.restore_to(&mut self.memory);
        refill(&mut self.output, kept.output.as_slice());
        self.status = kept.status;
    }
}

/// Makes a list equal to another for which it has room.
fn refill<A: Allocator>(to: &mut Vec<u8, A>, from: &[u8])
    requires { length from.now ≤ vec_capacity to.old }
    ensures items { to.new.items ≡ from.now }
    ensures room { vec_capacity to.old ≤ vec_capacity to.new }
{
    to.clear();
    match to.extend_from_slice(from) {
        Ok(()) => {}
        Err(_) => unreachable!(),
    }
}
