//! Suspicions of one place and kind as one: the first of them, and how many there were.

ghost use Rattle.std.specs.Prelude.{◌≡◌, ◌+◌, ◌<◌, ℕ, List, [], ◌∷◌, ◌++◌, length, false, true, IfSome, Some, None, OnOk, slice_get, slice_set};
ghost use Rattle.qil_suspicions.specs.Notes.{same_kind};
ghost use Rattle.qil_suspicions.specs.Adding.{same_place, is_of, noted_once, once_more, with_note};

use qil_shadow::{Kind, Place, Suspicion};
use std::alloc::{AllocError, Allocator};
use std::marker::Model;

/// The first suspicion of a kind at a place, and how many there were.
#[derive(Clone, Copy)]
pub struct Note {
    pub first: Suspicion,
    pub count: u64,
}

/// Notes in the order in which the first of each came. Specifications see the list of them.
#[derive(Drop)]
pub struct Notes<A: Allocator> {
    notes: Vec<Note, A>,
}

impl<A: Allocator> Model for Notes<A> {
    ghost use Rattle.std.specs.Prelude.{List};
    ghost use Rattle.qil_suspicions.specs.declared.notes.Note.{Note};

    ghost Value = { List Note };

    ghost view = { λ n. n.notes.items };
}

/// Whether two kinds are one.
fn is_same_kind(one: Kind, other: Kind) -> bool
    ensures { result ≡ same_kind one other }
{
    match one {
        Kind::Bounds => matches!(other, Kind::Bounds),
        Kind::Stale => matches!(other, Kind::Stale),
        Kind::Cut => matches!(other, Kind::Cut),
        Kind::Stray => matches!(other, Kind::Stray),
    }
}

/// Whether two places are one.
fn is_same_place(one: &Place, other: &Place) -> bool
    ensures { result ≡ same_place one.now other.now }
{
    one.func.index == other.func.index
        && one.block.index == other.block.index
        && one.index == other.index
}

fn is_of(note: &Note, kind: Kind, place: &Place) -> bool
    ensures { result ≡ is_of note.now kind place.now }
{
    is_same_kind(note.first.doubt.kind, kind) && is_same_place(&note.first.place, place)
}

/// A suspicion of a step from a place, as the first of its kind there.
fn noted_once(place: Place, suspicion: &Suspicion) -> Note
    ensures { result ≡ noted_once place suspicion.now }
{
    Note {
        first: Suspicion {
            position: suspicion.position,
            place,
            access: suspicion.access,
            doubt: suspicion.doubt,
            hit: suspicion.hit,
        },
        count: 1,
    }
}

/// A note of one more.
fn once_more(note: &Note) -> Note
    ensures { result ≡ once_more note.now }
{
    Note {
        first: note.first,
        count: note.count.saturating_add(1),
    }
}

impl<A: Allocator + Copy> Notes<A> {
    /// None.
    pub fn new(alloc: A) -> Notes<A>
        ensures { result ≡ [] }
    {
        Notes {
            notes: Vec::new(alloc),
        }
    }
}

impl<A: Allocator> Notes<A> {
    /// The number of the note of a kind at a place.
    fn number_of(&self, kind: Kind, place: &Place) -> Option<usize>
        ensures some { IfSome result (λ i. (n : Note) × (slice_get self.now i ≡ Some n) × (is_of n kind place.now ≡ true) × ((k : ℕ) (m : Note) → k < i → slice_get self.now k ≡ Some m → is_of m kind place.now ≡ false)) }
        ensures none { result ≡ None → (k : ℕ) (m : Note) → slice_get self.now k ≡ Some m → is_of m kind place.now ≡ false }
    {
        for index in 0..self.notes.len() {
            if is_of(&self.notes[index], kind, place) {
                return Some(index);
            }
        }
        None
    }

    /// Notes a suspicion of a step from a place.
    ///
    /// # Errors
    ///
    /// Out of memory.
    pub fn add(&mut self, place: Place, suspicion: &Suspicion) -> Result<(), AllocError>
        ensures { OnOk result (self.new ≡ with_note place suspicion.now self.old) }
    {
        match self.number_of(suspicion.doubt.kind, &place) {
            Some(number) => {
                self.notes[number] = once_more(&self.notes[number]);
                Ok(())
            }
            None => {
                self.notes.push(noted_once(place, suspicion))?;
                Ok(())
            }
        }
    }

    /// All notes.
    pub fn all(&self) -> &[Note]
        ensures { result.now ≡ self.now }
    {
        self.notes.as_slice()
    }
}
