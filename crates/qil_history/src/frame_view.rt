//! A call that is not over, as a reader sees it.

ghost use Rattle.std.specs.Prelude.{◌≡◌, ◌≤◌, length};
ghost use Rattle.qil_history.specs.Viewed.{viewed};

use qil_layout::FuncId;
use qil_machine::{BlockId, Receiver};
use std::marker::Model;

/// A call that is not over, whichever way its machine keeps it. Specifications see what they see of a frame.
#[derive(Drop)]
pub struct FrameView<'m> {
    func: FuncId,
    block: BlockId,
    index: u32,
    slots: &'m [Option<u64>],
    floor: u64,
    result: Option<Receiver>,
}

impl<'m> Model for FrameView<'m> {
    ghost use Rattle.std.specs.Prelude.{◌≤◌, length};
    ghost use Rattle.qil_machine.specs.qil_frames.Frames.{SlotFrame};
    ghost use Rattle.qil_history.specs.Viewed.{viewed};

    ghost Value = { SlotFrame };

    ghost view = { λ f. viewed f.func.index f.block.index f.index f.slots.now f.floor f.result };

    ghost invariant = { λ f. length f.slots.now ≤ 65535 };
}

impl<'m> FrameView<'m> {
    /// A view of a frame: the function and its block, how many of the block's instructions are done, what each slot holds, the
    /// top of the stack from before the call, and the slot of the caller that takes what is returned.
    pub fn new(
        func: FuncId,
        block: BlockId,
        index: u32,
        slots: &'m [Option<u64>],
        floor: u64,
        receiver: Option<Receiver>,
    ) -> FrameView<'m>
        requires { length slots.now ≤ 65535 }
        ensures { result ≡ viewed func.index block.index index slots.now floor receiver }
    {
        FrameView {
            func,
            block,
            index,
            slots,
            floor,
            result: receiver,
        }
    }

    /// The function that was called.
    pub fn func(&self) -> FuncId
        ensures { result.index ≡ self.now.func }
    {
        self.func
    }

    /// The block that the call is in.
    pub fn block(&self) -> BlockId
        ensures { result.index ≡ self.now.block }
    {
        self.block
    }

    /// How many of the block's instructions are done.
    pub fn index(&self) -> u32
        ensures { result ≡ self.now.index }
    {
        self.index
    }

    /// What each slot holds, if it is set.
    pub fn slots(&self) -> &'m [Option<u64>]
        ensures value { result.now ≡ self.now.slots }
        ensures few { length self.now.slots ≤ 65535 }
    {
        self.slots
    }
}
