//! One call that is not over.

ghost use Rattle.std.specs.Prelude.{◌≡◌, ◌≢◌, ◌<◌, ◌≤◌, ◌^◌, ◌↔◌, length, replicate, None, Err, IfOk, IfErr, OnErr, IsTrue, get_or};
ghost use Rattle.std.specs.List.{All};
ghost use Rattle.qil_code.specs.Ranges.{MoveInRange, IsShort};
ghost use Rattle.qil_frames.specs.Frames.{SlotFrame, with_slot, at_index, at_place};
ghost use Rattle.qil_frames.specs.Enter.{gathered, AreSlots, returned, Explains};
ghost use Rattle.qil_frames.specs.Kept.{HasEntered};
ghost use Rattle.qil_frames.specs.Taken.{taken};

use crate::phis::{do_phis, undo_phis};
use crate::saved::{PhiFault, PhiSaved};
use qil_code::{BlockId, FuncId, PhiMove, Receiver, Slot};
use qil_tree::AbiType;
use std::alloc::{AllocError, Allocator};
use std::marker::Model;

/// An `Option<Receiver>` in 4 bytes, so that a body has 40: whole frames are kept after returns.
#[derive(Clone, Copy)]
struct Taker {
    slot: Slot,
    abi_type: Option<AbiType>,
}

impl Taker {
    #[inline(always)]
    fn new(receiver: Option<Receiver>) -> Taker
        ensures { taken result ≡ receiver }
    {
        match receiver {
            Some(it) => Taker {
                slot: it.slot,
                abi_type: Some(it.abi_type),
            },
            None => Taker {
                slot: Slot { index: 0 },
                abi_type: None,
            },
        }
    }

    #[inline(always)]
    fn receiver(self) -> Option<Receiver>
        ensures { result ≡ taken self }
    {
        match self.abi_type {
            Some(abi_type) => Some(Receiver {
                slot: self.slot,
                abi_type,
            }),
            None => None,
        }
    }
}

#[derive(Drop)]
struct Body<A: Allocator> {
    slots: Vec<Option<u64>, A>,
    func: u16,
    block: u16,
    index: u32,
    floor: u32,
    taker: Taker,
}

/// A call that is not over, behind one pointer.
#[derive(Drop)]
pub struct Frame<A: Allocator> {
    body: Box<Body<A>, A>,
}

impl<A: Allocator> Model for Frame<A> {
    ghost use Rattle.std.specs.Prelude.{length, ◌≤◌};
    ghost use Rattle.qil_frames.specs.Frames.{SlotFrame};
    ghost use Rattle.qil_frames.specs.Taken.{taken};

    ghost Value = { SlotFrame };

    ghost view = { λ f. record { func = f.body.value.func; block = f.body.value.block; index = f.body.value.index; slots = f.body.value.slots.items; floor = f.body.value.floor; result = taken f.body.value.taker } };

    ghost invariant = { λ f. length f.body.value.slots.items ≤ 65535 };
}

impl<A: Allocator + Copy> Frame<A> {
    /// A frame at the start of a function, with that many slots, all unset. It takes two allocations.
    pub fn new(
        alloc: A,
        func: FuncId,
        slots: u16,
        floor: u64,
        receiver: Option<Receiver>,
    ) -> Result<Frame<A>, AllocError>
        requires { floor < 2 ^ 32 }
        ensures { IfOk result (λ f. f ≡ record { func = func.index; block = 0; index = 0; slots = replicate slots None; floor = floor; result = receiver }) }
    {
        let slots = vec![in alloc; None; usize::from(slots)]?;
        let body = Box::new(
            alloc,
            Body {
                slots,
                func: func.index,
                block: 0,
                index: 0,
                floor: floor as u32,
                taker: Taker::new(receiver),
            },
        )?;
        Ok(Frame { body })
    }

    /// Makes the frame of a call that is over the one that `new` gives, with as many slots as it had, in the memory that it has.
    #[inline(always)]
    pub(crate) fn renew(&mut self, func: FuncId, floor: u64, receiver: Option<Receiver>)
        requires { floor < 2 ^ 32 }
        ensures { self.new ≡ record { func = func.index; block = 0; index = 0; slots = replicate (length self.old.slots) None; floor = floor; result = receiver } }
    {
        let body = self.body.as_mut();
        body.slots.fill(None);
        body.func = func.index;
        body.block = 0;
        body.index = 0;
        body.floor = floor as u32;
        body.taker = Taker::new(receiver);
    }

    /// An equal frame. It takes two allocations.
    pub(crate) fn try_clone(&self) -> Result<Frame<A>, AllocError>
        ensures { IfOk result (λ f. f ≡ self.now) }
    {
        let alloc = *self.body.slots.allocator();
        let slots = Vec::from_slice(alloc, self.body.slots.as_slice())?;
        let body = Box::new(
            alloc,
            Body {
                slots,
                func: self.body.func,
                block: self.body.block,
                index: self.body.index,
                floor: self.body.floor,
                taker: self.body.taker,
            },
        )?;
        Ok(Frame { body })
    }

    /// Enters a block at its start.
    #[inline(always)]
    pub(crate) fn enter(
        &mut self,
        alloc: A,
        block: BlockId,
        moves: &[PhiMove],
    ) -> Result<PhiSaved<A>, PhiFault>
        requires moves { All (MoveInRange (length self.old.slots)) moves.now }
        requires short { IsShort moves.now }
        ensures ok { IfOk result (λ kept. HasEntered block.index moves.now self.old self.new kept) }
        ensures fault { IfErr result (λ e. Explains e (gathered self.old.slots moves.now)) }
        ensures few { length moves.now ≤ 1 → result ≢ Err PhiFault.OutOfMemory }
        ensures err { OnErr result (self.new ≡ self.old) }
    {
        let body = self.body.as_mut();
        match do_phis(alloc, &mut body.slots, moves) {
            Ok(slots) => {
                let left = BlockId { index: body.block };
                let index = body.index;
                body.block = block.index;
                body.index = 0;
                Ok(PhiSaved::from_parts(left, index, slots))
            }
            Err(fault) => Err(fault),
        }
    }
}

impl<A: Allocator> Frame<A> {
    /// Goes back to the block that was left.
    #[inline(always)]
    pub(crate) fn undo_enter(&mut self, kept: PhiSaved<A>)
        requires { AreSlots kept.slots (length self.old.slots) }
        ensures { self.new ≡ returned kept self.old }
    {
        let (block, index, slots) = kept.into_parts();
        let body = self.body.as_mut();
        undo_phis(&mut body.slots, &slots);
        body.block = block.index;
        body.index = index;
    }

    #[inline(always)]
    pub fn func(&self) -> FuncId
        ensures { result.index ≡ self.now.func }
    {
        FuncId {
            index: self.body.func,
        }
    }

    #[inline(always)]
    pub fn block(&self) -> BlockId
        ensures { result.index ≡ self.now.block }
    {
        BlockId {
            index: self.body.block,
        }
    }

    /// How many instructions of the block are done.
    #[inline(always)]
    pub fn index(&self) -> u32
        ensures { result ≡ self.now.index }
    {
        self.body.index
    }

    /// The top of the stack from before the call.
    #[inline(always)]
    pub fn floor(&self) -> u64
        ensures value { result ≡ self.now.floor }
        ensures fits { result < 2 ^ 32 }
    {
        u64::from(self.body.floor)
    }

    /// What takes the value that is returned.
    #[inline(always)]
    pub fn result(&self) -> Option<Receiver>
        ensures { result ≡ self.now.result }
    {
        self.body.taker.receiver()
    }

    #[inline(always)]
    pub fn slots(&self) -> &[Option<u64>]
        ensures value { result.now ≡ self.now.slots }
        ensures few { length self.now.slots ≤ 65535 }
    {
        self.body.slots.as_slice()
    }

    #[inline(always)]
    pub fn get(&self, slot: Slot) -> Option<u64>
        requires { slot.index < length self.now.slots }
        ensures { result ≡ get_or self.now.slots slot.index None }
    {
        self.body.slots[usize::from(slot.index)]
    }

    /// Sets a slot, and gives what stood there.
    #[inline(always)]
    pub fn set(&mut self, slot: Slot, value: Option<u64>) -> Option<u64>
        requires { slot.index < length self.old.slots }
        ensures old { result ≡ get_or self.old.slots slot.index None }
        ensures new { self.new ≡ with_slot slot value self.old }
    {
        let body = self.body.as_mut();
        let old = body.slots[usize::from(slot.index)];
        body.slots[usize::from(slot.index)] = value;
        old
    }

    /// Sets a slot and the index, and gives what stood in the slot.
    #[inline(always)]
    pub(crate) fn assign(&mut self, slot: Slot, value: Option<u64>, index: u32) -> Option<u64>
        requires { slot.index < length self.old.slots }
        ensures old { result ≡ get_or self.old.slots slot.index None }
        ensures new { self.new ≡ at_index index (with_slot slot value self.old) }
    {
        let body = self.body.as_mut();
        let place = &mut body.slots[usize::from(slot.index)];
        let old = *place;
        *place = value;
        body.index = index;
        old
    }

    #[inline(always)]
    pub(crate) fn set_index(&mut self, index: u32)
        ensures { self.new ≡ at_index index self.old }
    {
        self.body.index = index;
    }

    #[inline(always)]
    pub(crate) fn set_place(&mut self, block: BlockId, index: u32)
        ensures { self.new ≡ at_place block.index index self.old }
    {
        let body = self.body.as_mut();
        body.block = block.index;
        body.index = index;
    }

    /// Whether two frames are equal in all that they hold.
    pub(crate) fn same(&self, other: &Frame<A>) -> bool
        ensures { IsTrue result ↔ (self.now ≡ other.now) }
    {
        self.body.func == other.body.func
            && self.body.block == other.body.block
            && self.body.index == other.body.index
            && self.body.floor == other.body.floor
            && self.result() == other.result()
            && same_slots(&self.body.slots, &other.body.slots)
    }
}

/// Whether two slots hold the same.
#[inline(always)]
fn is_same(one: Option<u64>, other: Option<u64>) -> bool
    ensures { IsTrue result ↔ (one ≡ other) }
{
    one == other
}

fn same_slots(left: &[Option<u64>], right: &[Option<u64>]) -> bool
    ensures { IsTrue result ↔ (left.now ≡ right.now) }
{
    if left.len() != right.len() {
        return false;
    }
    for (i, value) in left.iter().enumerate() {
        if !is_same(*value, right[i]) {
            return false;
        }
    }
    true
}
