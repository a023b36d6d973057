//! A copy of calls, in lists of just the size that is in use.

ghost use Rattle.std.specs.Prelude.{◌≡◌, ◌+◌, ◌*◌, length};
ghost use Rattle.qil_flat.specs.StackCalls.{slot_count};

use crate::call::Call;
use std::alloc::Allocator;
use std::marker::Model;
use std::mem::size_of;

/// How many bytes a call takes without its slots.
const CALL_SIZE: usize = size_of::<Call>();

/// How many bytes a slot takes.
const SLOT_SIZE: usize = size_of::<Option<u64>>();

/// The calls of a stack at one time, without the room for more. Specifications see the innermost first.
#[derive(Drop)]
pub struct KeptCalls<A: Allocator> {
    /// As the stack had it.
    pub(crate) innermost: Call,
    pub(crate) callers: Vec<Call, A>,
    pub(crate) slots: Vec<Option<u64>, A>,
    pub(crate) most_slots: u16,
}

impl<A: Allocator> Model for KeptCalls<A> {
    ghost use Rattle.qil_flat.specs.StackCalls.{CopiedCalls};

    ghost Value = { CopiedCalls };

    ghost use Rattle.qil_flat.specs.Kept.{copy_seen, IsKept};

    ghost view = { copy_seen };

    ghost invariant = { IsKept };
}

impl<A: Allocator> KeptCalls<A> {
    /// How many bytes are kept.
    pub fn size(&self) -> usize
        ensures { result ≡ CALL_SIZE * length self.now.frames + SLOT_SIZE * slot_count self.now.frames }
    {
        CALL_SIZE * self.callers.len() + SLOT_SIZE * self.slots.len()
    }
}
