//! What stops ask of a machine: the bytes at an address, and whether the run is at a place. Nothing here takes memory.

ghost use Rattle.std.specs.Prelude.{◌≡◌, Some, None, false, option_map};
ghost use Rattle.qil_tree.specs.declared.tree.Block.{Block};
ghost use Rattle.qil_tree.specs.declared.tree.Func.{Func};
ghost use Rattle.qil_layout.specs.Layout.{low_bytes};
ghost use Rattle.qil_memory.specs.Bytes.{number};
ghost use Rattle.qil_memory.specs.Calls.{IsWidth};
ghost use Rattle.qil_memory.specs.Live.{live, read};
ghost use Rattle.qil_semantics.specs.Stops.{is_at};
ghost use Rattle.qil_code.specs.Numbered.{func_at, block_at};
ghost use Rattle.qil_state.specs.State.{state_of};
ghost use Rattle.qil_machine.specs.Readings.{stands_at};

use crate::machine::Machine;
use qil_code::BlockId;
use qil_frames::Frame;
use qil_layout::FuncId;
use qil_state::Status;
use std::alloc::Allocator;

impl<'c, A: Allocator + Copy> Machine<'c, A> {
    /// What a watch reads of memory: the number in 1, 2, 4 or 8 bytes from an address on, if all are live. They are its low
    /// bytes, so that equal numbers are of equal bytes.
    #[inline(always)]
    pub fn memory_reading(&self, address: u64, width: u64) -> Option<u64>
        requires { IsWidth width }
        ensures number { result ≡ option_map number (read (live self.now.memory) address width) }
        ensures bytes { option_map (low_bytes width) result ≡ read (live self.now.memory) address width }
    {
        self.memory.number_at(address, width)
    }

    /// Whether the run goes on, and its innermost frame is in a block with so many instructions done. It is in no block that
    /// the program lacks.
    #[inline(always)]
    pub fn is_at(&self, func: FuncId, block: BlockId, index: u64) -> bool
        ensures named { (source : Func A) (target : Block A) → func_at self.now.program func.index ≡ Some source → block_at self.now.program func.index block.index ≡ Some target
            → result ≡ is_at (record { func = source.name; label = target.label; index = index }) (state_of self.now) }
        ensures unknown { block_at self.now.program func.index block.index ≡ None → result ≡ false }
    {
        self.code.names_are_distinct();
        match self.status {
            Status::Running => stands_at(self.frames.innermost(), func, block, index),
            _ => false,
        }
    }
}

/// Whether a frame is in a block of a function, with so many instructions done.
#[inline(always)]
fn stands_at<A: Allocator + Copy>(
    frame: &Frame<A>,
    func: FuncId,
    block: BlockId,
    index: u64,
) -> bool
    ensures { result ≡ stands_at func.index block.index index frame.now }
{
    frame.func().index == func.index
        && frame.block().index == block.index
        && u64::from(frame.index()) == index
}
