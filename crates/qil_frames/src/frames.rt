//! The calls that are not over; what is read and written is of the innermost.

ghost use Rattle.std.specs.Prelude.{◌≡◌, ◌≢◌, ◌<◌, ◌≤◌, ◌^◌, ◌↔◌, [], ◌∷◌, length, replicate, reverse, Some, None, Ok, Err, OnOk, IfOk, OnErr, IfErr, IsTrue, MatchOption, slice_get};
ghost use Rattle.qil_code.specs.Ranges.{IsShort};
ghost use Rattle.qil_frames.specs.Frames.{on_innermost, with_slot, at_index, at_place, HasFrame, HasSlot, held};
ghost use Rattle.qil_frames.specs.Enter.{HasMoves, entered_by, Explains, Fits, HasLeft, returned};

use crate::frame::Frame;
use crate::saved::{PhiFault, PhiSaved};
use qil_code::{BlockId, FuncId, PhiMove, Receiver, Slot};
use std::alloc::{AllocError, Allocator};
use std::marker::Model;

const MOST_FRAMES: usize = 1_000;

/// How many frames are kept for calls to come, and how many slots each has at most: some KiB in all.
const MOST_SPARE: usize = 8;

const MOST_SPARE_SLOTS: usize = 64;

/// The calls that are not over, with room for all that there may be. Specifications see the innermost first.
///
/// Next to them are a few frames of calls that are over and that nothing goes back to, in whose memory calls to come begin:
/// of those no specification speaks.
#[derive(Drop)]
pub struct Frames<A: Allocator> {
    stack: Vec<Frame<A>, A>,
    spare: Vec<Frame<A>, A>,
}

impl<A: Allocator> Model for Frames<A> {
    ghost use Rattle.std.specs.Prelude.{List, reverse, vec_capacity, ◌≤◌};
    ghost use Rattle.qil_frames.specs.Frames.{SlotFrame};

    ghost Value = { List SlotFrame };

    ghost view = { λ f. reverse f.stack.items };

    ghost invariant = { λ f. 1000 ≤ vec_capacity f.stack };
}

impl<A: Allocator + Copy> Frames<A> {
    /// No frame, and room for 1,000. It takes two allocations.
    pub fn new(alloc: A) -> Result<Frames<A>, AllocError>
        ensures { IfOk result (λ f. f ≡ []) }
    {
        Ok(Frames {
            stack: Vec::with_capacity(alloc, MOST_FRAMES)?,
            spare: Vec::with_capacity(alloc, MOST_SPARE)?,
        })
    }

    /// Equal frames, with the same room.
    pub fn try_clone(&self) -> Result<Frames<A>, AllocError>
        ensures { IfOk result (λ f. f ≡ self.now) }
    {
        let alloc = *self.stack.allocator();
        let mut stack = Vec::with_capacity(alloc, MOST_FRAMES)?;
        for frame in self.stack.as_slice() {
            stack.push(frame.try_clone()?)?;
        }
        Ok(Frames {
            stack,
            spare: Vec::with_capacity(alloc, MOST_SPARE)?,
        })
    }

    /// A frame at the start of a function, with that many slots, all unset; it is not pushed. It takes two allocations, and
    /// none where the latest frame that was let go had as many slots.
    #[inline(always)]
    pub fn begin(
        &mut self,
        alloc: A,
        func: FuncId,
        slots: u16,
        floor: u64,
        receiver: Option<Receiver>,
    ) -> Result<Frame<A>, AllocError>
        requires { floor < 2 ^ 32 }
        ensures frame { IfOk result (λ f. f ≡ record { func = func.index; block = 0; index = 0; slots = replicate slots None; floor = floor; result = receiver }) }
        ensures same { self.new ≡ self.old }
    {
        if let Some(mut frame) = self.spare.pop() {
            if frame.slots().len() == usize::from(slots) {
                frame.renew(func, floor, receiver);
                return Ok(frame);
            }
        }
        Frame::new(alloc, func, slots, floor, receiver)
    }

    /// Takes the frame of a call that is over, which nothing goes back to: a call to come begins in its memory.
    #[inline(always)]
    pub fn recycle(&mut self, frame: Frame<A>)
        ensures { self.new ≡ self.old }
    {
        if self.spare.len() < MOST_SPARE && frame.slots().len() <= MOST_SPARE_SLOTS {
            let _ = self.spare.push(frame);
        }
    }

    /// Goes to the start of a block. All phis are read, in the order of the text, and then all are written; no phi, one,
    /// and two whose targets are set take no memory.
    #[inline(always)]
    pub fn enter(
        &mut self,
        alloc: A,
        block: BlockId,
        moves: &[PhiMove],
    ) -> Result<PhiSaved<A>, PhiFault>
        requires moves { HasMoves self.old moves.now }
        requires short { IsShort moves.now }
        ensures ok { OnOk result (entered_by self.old block.index moves.now ≡ Ok self.new) }
        ensures fault { IfErr result (λ e. Explains e (entered_by self.old block.index moves.now)) }
        ensures fits { IfOk result (λ kept. Fits kept self.new) }
        ensures undo { IfOk result (λ kept. on_innermost (returned kept) self.new ≡ self.old) }
        ensures count { IfOk result (λ kept. length kept.slots ≡ length moves.now) }
        ensures place { IfOk result (λ kept. HasLeft kept self.old) }
        ensures few { length moves.now ≤ 1 → result ≢ Err PhiFault.OutOfMemory }
        ensures err { OnErr result (self.new ≡ self.old) }
    {
        let last = self.stack.len() - 1;
        let frame = &mut self.stack[last];
        frame.enter(alloc, block, moves)
    }
}

impl<A: Allocator> Frames<A> {
    /// The outermost first.
    #[inline(always)]
    pub fn frames(&self) -> &[Frame<A>]
        ensures { result.now ≡ reverse self.now }
    {
        self.stack.as_slice()
    }

    #[inline(always)]
    pub fn depth(&self) -> usize
        ensures { result ≡ length self.now }
    {
        self.stack.len()
    }

    #[inline(always)]
    pub fn innermost(&self) -> &Frame<A>
        requires { HasFrame self.now }
        ensures { slice_get self.now 0 ≡ Some result.now }
    {
        &self.stack[self.stack.len() - 1]
    }

    #[inline(always)]
    pub fn get(&self, slot: Slot) -> Option<u64>
        requires { HasSlot self.now slot }
        ensures { result ≡ held self.now slot }
    {
        self.innermost().get(slot)
    }

    /// Sets a slot, and gives what stood there.
    #[inline(always)]
    pub fn set(&mut self, slot: Slot, value: Option<u64>) -> Option<u64>
        requires { HasSlot self.old slot }
        ensures old { result ≡ held self.old slot }
        ensures new { self.new ≡ on_innermost (with_slot slot value) self.old }
    {
        let last = self.stack.len() - 1;
        let frame = &mut self.stack[last];
        frame.set(slot, value)
    }

    /// Sets a slot and the index of the innermost frame, and gives what stood in the slot. As `set` and `set_index`, with
    /// the frame looked up once.
    #[inline(always)]
    pub fn assign(&mut self, slot: Slot, value: Option<u64>, index: u32) -> Option<u64>
        requires { HasSlot self.old slot }
        ensures old { result ≡ held self.old slot }
        ensures new { self.new ≡ on_innermost (at_index index) (on_innermost (with_slot slot value) self.old) }
    {
        let last = self.stack.len() - 1;
        let frame = &mut self.stack[last];
        frame.assign(slot, value, index)
    }

    #[inline(always)]
    pub fn set_index(&mut self, index: u32)
        requires { HasFrame self.old }
        ensures { self.new ≡ on_innermost (at_index index) self.old }
    {
        let last = self.stack.len() - 1;
        let frame = &mut self.stack[last];
        frame.set_index(index);
    }

    #[inline(always)]
    pub fn set_place(&mut self, block: BlockId, index: u32)
        requires { HasFrame self.old }
        ensures { self.new ≡ on_innermost (at_place block.index index) self.old }
    {
        let last = self.stack.len() - 1;
        let frame = &mut self.stack[last];
        frame.set_place(block, index);
    }

    /// Puts back what `enter` kept.
    #[inline(always)]
    pub fn undo_enter(&mut self, kept: PhiSaved<A>)
        requires { Fits kept self.old }
        ensures { self.new ≡ on_innermost (returned kept) self.old }
    {
        let last = self.stack.len() - 1;
        let frame = &mut self.stack[last];
        frame.undo_enter(kept);
    }

    #[inline(always)]
    pub fn push(&mut self, frame: Frame<A>)
        requires { length self.old < 1000 }
        ensures { self.new ≡ frame ∷ self.old }
    {
        match self.stack.push(frame) {
            Ok(()) => {}
            Err(_) => unreachable!(),
        }
    }

    #[inline(always)]
    pub fn pop(&mut self) -> Option<Frame<A>>
        ensures { MatchOption result ((self.old ≡ []) × (self.new ≡ [])) (λ f. self.old ≡ f ∷ self.new) }
    {
        self.stack.pop()
    }

    /// Whether the frames are as many, and each equal in all that it holds.
    pub fn same(&self, other: &Frames<A>) -> bool
        ensures { IsTrue result ↔ (self.now ≡ other.now) }
    {
        same_frames(self.stack.as_slice(), other.stack.as_slice())
    }
}

fn same_frames<A: Allocator>(left: &[Frame<A>], right: &[Frame<A>]) -> bool
    ensures { IsTrue result ↔ (left.now ≡ right.now) }
{
    if left.len() != right.len() {
        return false;
    }
    for (i, frame) in left.iter().enumerate() {
        if !frame.same(&right[i]) {
            return false;
        }
    }
    true
}
