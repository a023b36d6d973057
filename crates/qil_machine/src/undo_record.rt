//! What a move keeps, so that it can be undone: 24 bytes, and one allocation for what doesn't fit, or two where it is long.

ghost use Rattle.std.specs.Prelude.{◌≡◌, ◌<◌, ◌≤◌, ◌^◌, [], length};
ghost use Rattle.qil_layout.specs.Layout.{low_bytes};
ghost use Rattle.qil_machine.specs.Moves.{at, end_of, weight};
ghost use Rattle.qil_machine.specs.UndoRecords.{move_of};
ghost use Rattle.qil_machine.specs.Kinds.{slots_move, one, bytes_move, called_move, returned_move, grown_move, copied_move, wrote_move, ended_move, poked_slot_move, poked_bytes_move};

use arrayvec::ArrayVec;
use qil_code::Slot;
use qil_frames::{Frame, KeptSlots, PhiSaved, SavedSlot};
use qil_memory::Saved;
use std::alloc::Allocator;
use std::marker::Model;

/// What an allocation on the stack keeps.
#[derive(Drop)]
pub struct Grown<A: Allocator> {
    pub index: u32,
    pub slot: Slot,
    pub value: Option<u64>,
    pub saved: Saved<A>,
}

/// What a copy of bytes keeps.
#[derive(Drop)]
pub struct Copied<A: Allocator> {
    pub index: u32,
    pub saved: Saved<A>,
}

/// The kinds of moves. `old` is what a slot held, if `was_set`; a `number` is what `count` bytes spelled.
#[derive(Drop)]
pub enum UndoKind<A: Allocator> {
    Assigned {
        slot: Slot,
        index: u32,
        old: Option<u64>,
    },
    Stored {
        count: u8,
        index: u32,
        address: u32,
        number: u64,
    },
    /// The block was left, at its end.
    Left {
        block: u16,
    },
    /// And a phi wrote a slot.
    LeftOne {
        block: u16,
        slot: Slot,
        old: Option<u64>,
    },
    /// Both slots were set.
    LeftTwo {
        block: u16,
        first: Slot,
        second: Slot,
        first_old: u64,
        second_old: u64,
    },
    /// Up to four slots.
    LeftShort {
        block: u16,
        kept: Box<ArrayVec<SavedSlot, 4>, A>,
    },
    LeftMany {
        block: u16,
        kept: Box<Vec<SavedSlot, A>, A>,
    },
    /// The caller's index.
    Called {
        index: u32,
    },
    /// The slot is the caller's; the frame itself is kept.
    Returned {
        was_set: bool,
        top: u32,
        old: u64,
        frame: Frame<A>,
    },
    Grew(Box<Grown<A>, A>),
    Copied(Box<Copied<A>, A>),
    /// `count` bytes had been written.
    Wrote {
        index: u32,
        count: u32,
    },
    WroteTo {
        was_set: bool,
        slot: Slot,
        index: u32,
        count: u32,
        old: u64,
    },
    /// A fault, or an exit.
    Ended,
    PokedSlot {
        was_set: bool,
        slot: Slot,
        old: u64,
    },
    PokedBytes {
        count: u8,
        address: u32,
        number: u64,
    },
}

/// What a move of a machine keeps. `Machine::undo` puts it back. Specifications see one record for all kinds.
#[derive(Drop)]
pub struct UndoRecord<A: Allocator> {
    pub(crate) kind: UndoKind<A>,
}

impl<A: Allocator> Model for UndoRecord<A> {
    ghost use Rattle.qil_machine.specs.Moves.{Move};
    ghost use Rattle.qil_machine.specs.UndoRecords.{move_of, IsKind};

    ghost Value = { Move };

    ghost view = { λ d. move_of d.kind };

    ghost invariant = { λ d. IsKind d.kind };
}

/// The kinds, made from what they keep.
impl<A: Allocator> UndoRecord<A> {
    #[inline(always)]
    pub(crate) fn assigned(slot: Slot, old: Option<u64>, index: u32) -> UndoRecord<A>
        ensures { result ≡ slots_move (at index) (one slot old) }
    {
        UndoRecord {
            kind: UndoKind::Assigned { slot, index, old },
        }
    }

    #[inline(always)]
    pub(crate) fn stored(count: u8, index: u32, address: u32, number: u64) -> UndoRecord<A>
        requires { count ≤ 8 }
        ensures { result ≡ bytes_move index address (low_bytes count number) }
    {
        UndoRecord {
            kind: UndoKind::Stored {
                count,
                index,
                address,
                number,
            },
        }
    }

    #[inline(always)]
    pub(crate) fn left(saved: PhiSaved<A>) -> UndoRecord<A>
        ensures { result ≡ slots_move (end_of saved.block) saved.slots }
    {
        let (block, _, slots) = saved.into_parts();
        let block = block.index;
        match slots {
            KeptSlots::None => UndoRecord {
                kind: UndoKind::Left { block },
            },
            KeptSlots::One(slot, old) => UndoRecord {
                kind: UndoKind::LeftOne { block, slot, old },
            },
            KeptSlots::Two(first, second, first_old, second_old) => UndoRecord {
                kind: UndoKind::LeftTwo {
                    block,
                    first,
                    second,
                    first_old,
                    second_old,
                },
            },
            KeptSlots::Short(kept) => UndoRecord {
                kind: UndoKind::LeftShort { block, kept },
            },
            KeptSlots::Many(kept) => UndoRecord {
                kind: UndoKind::LeftMany { block, kept },
            },
        }
    }

    #[inline(always)]
    pub(crate) fn called(index: u32) -> UndoRecord<A>
        ensures { result ≡ called_move index }
    {
        UndoRecord {
            kind: UndoKind::Called { index },
        }
    }

    #[inline(always)]
    pub(crate) fn returned(frame: Frame<A>, top: u32, old: Option<u64>) -> UndoRecord<A>
        ensures { result ≡ returned_move frame top old }
    {
        // Reading the slots makes known what the frame keeps.
        let _ = frame.slots();
        match old {
            Some(old) => UndoRecord {
                kind: UndoKind::Returned {
                    was_set: true,
                    top,
                    old,
                    frame,
                },
            },
            None => UndoRecord {
                kind: UndoKind::Returned {
                    was_set: false,
                    top,
                    old: 0,
                    frame,
                },
            },
        }
    }

    pub(crate) fn grew(grown: Box<Grown<A>, A>) -> UndoRecord<A>
        requires { length grown.value.saved.bytes ≤ 2 ^ 32 }
        ensures { result ≡ grown_move grown.value.index grown.value.slot grown.value.value grown.value.saved }
    {
        UndoRecord {
            kind: UndoKind::Grew(grown),
        }
    }

    pub(crate) fn copied(copied: Box<Copied<A>, A>) -> UndoRecord<A>
        requires { length copied.value.saved.bytes ≤ 2 ^ 32 }
        ensures { result ≡ copied_move copied.value.index copied.value.saved }
    {
        UndoRecord {
            kind: UndoKind::Copied(copied),
        }
    }

    pub(crate) fn wrote(index: u32, count: u32) -> UndoRecord<A>
        ensures { result ≡ wrote_move index count [] }
    {
        UndoRecord {
            kind: UndoKind::Wrote { index, count },
        }
    }

    pub(crate) fn wrote_to(slot: Slot, old: Option<u64>, index: u32, count: u32) -> UndoRecord<A>
        ensures { result ≡ wrote_move index count (one slot old) }
    {
        match old {
            Some(old) => UndoRecord {
                kind: UndoKind::WroteTo {
                    was_set: true,
                    slot,
                    index,
                    count,
                    old,
                },
            },
            None => UndoRecord {
                kind: UndoKind::WroteTo {
                    was_set: false,
                    slot,
                    index,
                    count,
                    old: 0,
                },
            },
        }
    }

    #[inline(always)]
    pub(crate) fn ended() -> UndoRecord<A>
        ensures { result ≡ ended_move }
    {
        UndoRecord {
            kind: UndoKind::Ended,
        }
    }

    pub(crate) fn poked_slot(slot: Slot, old: Option<u64>) -> UndoRecord<A>
        ensures { result ≡ poked_slot_move slot old }
    {
        match old {
            Some(old) => UndoRecord {
                kind: UndoKind::PokedSlot {
                    was_set: true,
                    slot,
                    old,
                },
            },
            None => UndoRecord {
                kind: UndoKind::PokedSlot {
                    was_set: false,
                    slot,
                    old: 0,
                },
            },
        }
    }

    pub(crate) fn poked_bytes(count: u8, address: u32, number: u64) -> UndoRecord<A>
        requires { count ≤ 8 }
        ensures { result ≡ poked_bytes_move address (low_bytes count number) }
    {
        UndoRecord {
            kind: UndoKind::PokedBytes {
                count,
                address,
                number,
            },
        }
    }
}

impl<A: Allocator> UndoRecord<A> {
    /// The kind of the move with what it keeps, which is all that is kept.
    pub fn into_kind(self) -> UndoKind<A>
        ensures { move_of result ≡ self }
    {
        let UndoRecord { kind } = self;
        kind
    }

    /// The same, to be looked at.
    pub fn kind(&self) -> &UndoKind<A>
        ensures { move_of result.now ≡ self.now }
    {
        &self.kind
    }

    /// How much this keeps: 4, and 2 for each value of a slot, 1 for each byte, 1 for each slot of a frame.
    pub fn weight(&self) -> u64
        ensures { result ≡ weight self.now }
    {
        match &self.kind {
            UndoKind::Assigned { .. } => 6,
            UndoKind::Stored { count, .. } => 4 + u64::from(*count),
            UndoKind::Left { .. } => 4,
            UndoKind::LeftOne { .. } => 6,
            UndoKind::LeftTwo { .. } => 8,
            UndoKind::LeftShort { kept, .. } => 4 + 2 * (kept.len() as u64),
            UndoKind::LeftMany { kept, .. } => 4 + 2 * (kept.len() as u64),
            UndoKind::Called { .. } => 4,
            UndoKind::Returned { frame, .. } => {
                let received = if frame.result().is_some() { 2 } else { 0 };
                4 + received + frame.slots().len() as u64
            }
            UndoKind::Grew(grown) => 6 + grown.saved.byte_count() as u64,
            UndoKind::Copied(copied) => 4 + copied.saved.byte_count() as u64,
            UndoKind::Wrote { .. } => 4,
            UndoKind::WroteTo { .. } => 6,
            UndoKind::Ended => 4,
            UndoKind::PokedSlot { .. } => 6,
            UndoKind::PokedBytes { count, .. } => 4 + u64::from(*count),
        }
    }
}
