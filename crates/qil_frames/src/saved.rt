//! What going into a block keeps of a frame.

ghost use Rattle.std.specs.Prelude.{◌≡◌, ◌↔◌, IsTrue, length};
ghost use Rattle.qil_code.specs.Ranges.{IsShort};
ghost use Rattle.qil_frames.specs.Enter.{AreSlots, Fits};
ghost use Rattle.qil_frames.specs.Kept.{kept_slots};

use crate::frames::Frames;
use arrayvec::ArrayVec;
use qil_code::{BlockId, Slot};
use std::alloc::Allocator;
use std::marker::Model;

/// What a slot holds: a value, or None where it is unset.
#[derive(Clone, Copy)]
pub struct SavedSlot {
    pub slot: Slot,
    pub value: Option<u64>,
}

/// What stands in places of a short list that aren't used.
impl Default for SavedSlot {
    fn default() -> SavedSlot {
        SavedSlot {
            slot: Slot { index: 0 },
            value: None,
        }
    }
}

/// Why a block wasn't entered.
#[derive(Clone, Copy)]
pub enum PhiFault {
    /// A phi reads this slot, which is unset.
    Unset(Slot),
    OutOfMemory,
}

/// What the slots held that phis wrote, in the order of the text. Up to one takes no memory, nor do two that were set; up
/// to four take one allocation, and more take two.
#[derive(Drop)]
pub enum KeptSlots<A: Allocator> {
    None,
    /// The slot, and what it held.
    One(Slot, Option<u64>),
    /// Two slots that were set, and their values.
    Two(Slot, Slot, u64, u64),
    Short(Box<ArrayVec<SavedSlot, 4>, A>),
    Many(Box<Vec<SavedSlot, A>, A>),
}

impl<A: Allocator> KeptSlots<A> {
    /// Whether each slot is one of the first `count`.
    pub(crate) fn is_within(&self, count: usize) -> bool
        ensures { IsTrue result ↔ AreSlots (kept_slots self.now) count }
    {
        match self {
            KeptSlots::None => true,
            KeptSlots::One(slot, _) => usize::from(slot.index) < count,
            KeptSlots::Two(first, second, _, _) => {
                usize::from(first.index) < count && usize::from(second.index) < count
            }
            KeptSlots::Short(kept) => kept.iter().all(|kept| usize::from(kept.slot.index) < count),
            KeptSlots::Many(kept) => kept.iter().all(|kept| usize::from(kept.slot.index) < count),
        }
    }
}

/// What entering a block keeps: the place that was left, and what the slots held that were written. Specifications see
/// the slots as a list.
#[derive(Drop)]
pub struct PhiSaved<A: Allocator> {
    pub(crate) block: u16,
    pub(crate) index: u32,
    pub(crate) slots: KeptSlots<A>,
}

impl<A: Allocator> Model for PhiSaved<A> {
    ghost use Rattle.qil_code.specs.Ranges.{IsShort};
    ghost use Rattle.qil_frames.specs.Enter.{LeftBlock};
    ghost use Rattle.qil_frames.specs.Kept.{kept_slots};

    ghost Value = { LeftBlock };

    ghost view = { λ s. record { block = s.block; index = s.index; slots = kept_slots s.slots } };

    ghost invariant = { λ s. IsShort (kept_slots s.slots) };
}

impl<A: Allocator> PhiSaved<A> {
    #[inline(always)]
    pub fn from_parts(block: BlockId, index: u32, slots: KeptSlots<A>) -> PhiSaved<A>
        requires { IsShort (kept_slots slots) }
        ensures { result ≡ record { block = block.index; index = index; slots = kept_slots slots } }
    {
        PhiSaved {
            block: block.index,
            index,
            slots,
        }
    }

    #[inline(always)]
    pub fn into_parts(self) -> (BlockId, u32, KeptSlots<A>)
        ensures block { result.0.index ≡ self.block }
        ensures index { result.1 ≡ self.index }
        ensures slots { kept_slots result.2 ≡ self.slots }
        ensures short { IsShort self.slots }
    {
        let PhiSaved {
            block,
            index,
            slots,
        } = self;
        (BlockId { index: block }, index, slots)
    }

    /// Whether `undo_enter` may put this back into the frames: there is a frame, and it has all slots that are named.
    pub fn fits(&self, frames: &Frames<A>) -> bool
        ensures { IsTrue result ↔ Fits self.now frames.now }
    {
        frames.depth() > 0 && self.slots.is_within(frames.innermost().slots().len())
    }
}
