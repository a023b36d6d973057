//! A machine that stops look at.

ghost use Rattle.std.specs.Prelude.{◌≡◌, ℕ, List, Some, None, false, option_map, slice_get};
ghost use Rattle.qil_tree.specs.declared.tree.Block.{Block};
ghost use Rattle.qil_tree.specs.declared.tree.Func.{Func};
ghost use Rattle.qil_layout.specs.Layout.{low_bytes};
ghost use Rattle.qil_memory.specs.Bytes.{number};
ghost use Rattle.qil_memory.specs.Calls.{IsWidth};
ghost use Rattle.qil_memory.specs.Live.{live, read};
ghost use Rattle.qil_semantics.specs.State.{State};
ghost use Rattle.qil_semantics.specs.Stops.{is_at, reading, temp_in, value_reading};
ghost use Rattle.qil_code.specs.Numbered.{func_at, block_at, names_of};
ghost use Rattle.qil_state.specs.State.{Whole, state_of};

use qil_code::{BlockId, Slot};
use qil_history::HasProgram;
use qil_layout::FuncId;
use std::alloc::Allocator;

/// What a machine with copies holds, seen whole: a struct over such machines can't name their code.
pub trait HasCopies<A: Allocator> {
    ghost present: { Self → Whole A };

    /// The states that copies are kept of, in the order in which they were made.
    ghost kept: { Self → List State };
}

/// A machine that stops look at: what a watch reads of it, and whether it is at a breakpoint. Nothing here takes memory.
///
/// A user is generic in `M: Watchable<A, C>`, where `C` is the type of its code, and is handed these calls alone: what else can be
/// read of a machine isn't compared where it is known.
pub trait Watchable<A: Allocator, C: HasProgram<A>>: HasCopies<A> {
    /// What a watch reads of memory: the number in 1, 2, 4 or 8 bytes from an address on, if all are live.
    fn memory_reading(&self, address: u64, width: u64) -> Option<u64>
        requires { IsWidth width }
        ensures number { result ≡ option_map number (read (live (Self.present self.now).memory) address width) }
        ensures bytes { option_map (low_bytes width) result ≡ read (live (Self.present self.now).memory) address width };

    /// What a watch reads of a temporary: its value in the innermost frame of the function. Nothing where it is unset, and
    /// where the function has no frame.
    fn temp_reading(&self, func: FuncId, slot: Slot) -> Option<u64>
        ensures named { (source : Func A) (name : List ℕ) → func_at (Self.present self.now).program func.index ≡ Some source → slice_get (names_of (Self.present self.now).program func.index) slot.index ≡ Some name
            → value_reading result ≡ reading (temp_in source.name name) (state_of (Self.present self.now)) }
        ensures unknown { slice_get (names_of (Self.present self.now).program func.index) slot.index ≡ None → result ≡ None };

    /// Whether the run goes on, and its innermost frame is in a block with so many instructions done.
    fn is_at(&self, func: FuncId, block: BlockId, index: u64) -> bool
        ensures named { (source : Func A) (target : Block A) → func_at (Self.present self.now).program func.index ≡ Some source → block_at (Self.present self.now).program func.index block.index ≡ Some target
            → result ≡ is_at (record { func = source.name; label = target.label; index = index }) (state_of (Self.present self.now)) }
        ensures unknown { block_at (Self.present self.now).program func.index block.index ≡ None → result ≡ false };
}
