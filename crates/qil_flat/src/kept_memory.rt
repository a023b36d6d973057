//! A copy of a memory, without its dead bytes.

ghost use Rattle.std.specs.Prelude.{◌≡◌, ◌+◌, ◌-◌, length, IfOk};
ghost use Rattle.qil_memory.specs.Buffers.{stack_base};
ghost use Rattle.qil_memory.specs.Live.{live};

use crate::bytes::{read_from, write_from};
use qil_memory::{DATA_BASE, Memory, STACK_BASE};
use std::alloc::{AllocError, Allocator};
use std::marker::Model;

/// The live bytes of a memory, in lists of just their size. Specifications see a memory whose stack has no bytes from the
/// top on.
#[derive(Drop)]
pub struct KeptMemory<A: Allocator> {
    data_bytes: Vec<u8, A>,
    stack_bytes: Vec<u8, A>,
}

impl<A: Allocator> Model for KeptMemory<A> {
    ghost use Rattle.qil_memory.specs.Buffers.{Buffers};

    ghost Value = { Buffers };

    ghost use Rattle.qil_flat.specs.Shortened.{shortened, IsShort};

    ghost view = { λ k. shortened k.data_bytes.items k.stack_bytes.items };

    ghost invariant = { λ k. IsShort k.data_bytes.items k.stack_bytes.items };
}

impl<A: Allocator + Copy> KeptMemory<A> {
    /// Copies the live bytes of a memory.
    pub fn of(memory: &Memory<A>, alloc: A) -> Result<KeptMemory<A>, AllocError>
        ensures live { IfOk result (λ kept. live kept ≡ live memory.now) }
        ensures top { IfOk result (λ kept. kept.top ≡ memory.now.top) }
        ensures count { IfOk result (λ kept. length kept.data_bytes ≡ length memory.now.data_bytes) }
    {
        let depth = (memory.top() - STACK_BASE) as usize;
        let count = memory.data_length();
        let data_bytes = read_from(memory, DATA_BASE, count, alloc)?;
        let stack_bytes = read_from(memory, STACK_BASE, depth, alloc)?;
        Ok(KeptMemory {
            data_bytes,
            stack_bytes,
        })
    }

    /// Gives a memory the live bytes and the top of the one that was copied. It takes no memory.
    pub fn restore_to(&self, memory: &mut Memory<A>)
        requires { length memory.old.data_bytes ≡ length self.now.data_bytes }
        ensures live { live memory.new ≡ live self.now }
        ensures top { memory.new.top ≡ self.now.top }
        ensures count { length memory.new.data_bytes ≡ length self.now.data_bytes }
    {
        memory.set_top(STACK_BASE + self.stack_bytes.len() as u64);
        write_from(memory, DATA_BASE, &self.data_bytes);
        write_from(memory, STACK_BASE, &self.stack_bytes);
    }

    /// How many bytes are kept: those that are live.
    pub fn size(&self) -> usize
        ensures { result ≡ length self.now.data_bytes + (self.now.top - stack_base) }
    {
        self.data_bytes.len() + self.stack_bytes.len()
    }
}
