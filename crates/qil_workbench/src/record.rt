//! What a record keeps, part by part, and nothing else.

use arrayvec::ArrayVec;
use qil_code::Slot;
use qil_frames::{Frame, KeptSlots, SavedSlot};
use qil_machine::{Copied, Grown, UndoKind};
use qil_memory::{KeptBytes, Saved};
use std::alloc::Allocator;

/// The kind of a jump, by what is kept of the slots that its phis set.
fn left<A: Allocator>(block: u16, slots: KeptSlots<A>) -> &'static str {
    let _: u16 = block;
    match slots {
        KeptSlots::None => "jump",
        KeptSlots::One(slot, value) => {
            let _: (Slot, Option<u64>) = (slot, value);
            "jump with a phi"
        }
        KeptSlots::Two(first, second, one, other) => {
            let _: (Slot, Slot, u64, u64) = (first, second, one, other);
            "jump with two phis"
        }
        KeptSlots::Short(kept) => {
            for saved in kept.iter() {
                let SavedSlot { slot, value } = *saved;
                let _: (Slot, Option<u64>) = (slot, value);
            }
            "jump with many phis"
        }
        KeptSlots::Many(kept) => {
            for saved in kept.iter() {
                let SavedSlot { slot, value } = *saved;
                let _: (Slot, Option<u64>) = (slot, value);
            }
            "jump with many phis"
        }
    }
}

/// Names what is kept of bytes, each part with its type.
fn name_bytes<A: Allocator>(saved: Saved<A>) {
    let (address, top, bytes): (u32, u32, KeptBytes<A>) = saved.into_parts();
    let _: (u32, u32) = (address, top);
    match bytes {
        KeptBytes::Few(count, number) => {
            let _: (u8, u64) = (count, number);
        }
        KeptBytes::Short(list) => {
            let _: ArrayVec<u8, 32> = list;
        }
        KeptBytes::Many(list) => {
            let _: Vec<u8, A> = list;
        }
    }
}

/// The kind of a move, by what its record keeps, each part with its type. Another part of a kind, or another kind, doesn't
/// pass the compiler.
pub fn kind_of<A: Allocator>(kind: UndoKind<A>) -> &'static str {
    match kind {
        UndoKind::Assigned { slot, index, old } => {
            let _: (Slot, u32, Option<u64>) = (slot, index, old);
            "result"
        }
        UndoKind::Stored {
            count,
            index,
            address,
            number,
        } => {
            let _: (u8, u32, u32, u64) = (count, index, address, number);
            "bytes"
        }
        UndoKind::Left { block } => left::<A>(block, KeptSlots::None),
        UndoKind::LeftOne { block, slot, old } => left::<A>(block, KeptSlots::One(slot, old)),
        UndoKind::LeftTwo {
            block,
            first,
            second,
            first_old,
            second_old,
        } => { left::<A>(block, KeptSlots::Two(first, second, first_old, second_old)) }
        UndoKind::LeftShort { block, kept } => left(block, KeptSlots::Short(kept)),
        UndoKind::LeftMany { block, kept } => left(block, KeptSlots::Many(kept)),
        UndoKind::Called { index } => {
            let _: u32 = index;
            "call"
        }
        UndoKind::Returned {
            was_set,
            top,
            old,
            frame,
        } => {
            let _: (bool, u32, u64) = (was_set, top, old);
            let _: Frame<A> = frame;
            "return"
        }
        UndoKind::Grew(grown) => {
            let Grown {
                index,
                slot,
                value,
                saved,
            } = Box::into_inner(grown);
            let _: (u32, Slot, Option<u64>) = (index, slot, value);
            name_bytes(saved);
            "bytes of the stack"
        }
        UndoKind::Copied(copied) => {
            let Copied { index, saved } = Box::into_inner(copied);
            let _: u32 = index;
            name_bytes(saved);
            "copied bytes"
        }
        UndoKind::Wrote { index, count } => {
            let _: (u32, u32) = (index, count);
            "output"
        }
        UndoKind::WroteTo {
            was_set,
            slot,
            index,
            count,
            old,
        } => {
            let _: (bool, Slot, u32, u32, u64) = (was_set, slot, index, count, old);
            "output and a result"
        }
        UndoKind::Ended => "end",
        UndoKind::PokedSlot { was_set, slot, old } => {
            let _: (bool, Slot, u64) = (was_set, slot, old);
            "poke of a temporary"
        }
        UndoKind::PokedBytes {
            count,
            address,
            number,
        } => {
            let _: (u8, u32, u64) = (count, address, number);
            "poke of bytes"
        }
    }
}
