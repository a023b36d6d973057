//! The tables of a text: where its names of each kind stand first, and the predecessors of its blocks.

ghost use Rattle.std.specs.Prelude.{◌≡◌, List, ℕ, IfOk, option_copied};
ghost use Rattle.qil_symbols.specs.Tables.{values_at};
ghost use Rattle.qil_checker.specs.Tables.{place_in, first, named, is_named, predecessors_of};
ghost use Rattle.qil_checker.specs.declared.lookup.TableKind.TheVariants.{Defined, Named, Labels};

use crate::first_places::FirstPlaces;
use crate::predecessors::all_predecessors;
use qil_rules::{Occurrence, OccurrenceKind};
use qil_symbols::Groups;
use qil_tree::Name;
use std::alloc::{AllocError, Allocator};
use std::hash::RandomState;

/// Which occurrences of a name a table lists.
#[derive(Clone, Copy)]
pub enum TableKind {
    /// Where a temporary is defined.
    Defined,
    /// Where a temporary is defined or used.
    Named,
    /// Where a block begins.
    Labels,
}

/// The place that a table has for a name.
pub fn place_of<'a, A: Allocator + Copy>(
    places: &FirstPlaces<'a, A>,
    name: &Name<'a>,
) -> Option<usize>
    ensures { result ≡ place_in places.now.places name.now }
{
    places.get(name.bytes())
}

/// The name that an occurrence brings to a table of a kind.
fn named<'m, 'a>(occurrence: &'m Occurrence<'_, 'a>, kind: TableKind) -> Option<&'m Name<'a>>
    ensures { option_copied result ≡ named occurrence.now.what kind }
{
    match (&occurrence.what, kind) {
        (OccurrenceKind::Defines(name, _), TableKind::Defined) => Some(name),
        (OccurrenceKind::Defines(name, _), TableKind::Named) => Some(name),
        (OccurrenceKind::Uses(name, _), TableKind::Named) => Some(name),
        (OccurrenceKind::Label(name), TableKind::Labels) => Some(name),
        _ => None,
    }
}

/// Where each name of a kind stands first.
fn first_places<'a, A: Allocator + Copy>(
    alloc: A,
    keys: RandomState,
    occurrences: &[Occurrence<'_, 'a>],
    kind: TableKind,
) -> Result<FirstPlaces<'a, A>, AllocError>
    ensures { IfOk result (λ t. (x : List ℕ) → place_in t.places x ≡ first (is_named kind x) 0 occurrences.now) }
{
    let mut table = FirstPlaces::new(alloc, keys);
    for (place, occurrence) in occurrences.iter().enumerate() {
        match named(occurrence, kind) {
            Some(name) => table.note(name.bytes(), place)?,
            None => {}
        }
    }
    Ok(table)
}

/// What a text's rules look up.
#[derive(Drop)]
pub struct Tables<'a, A: Allocator> {
    /// Where temporaries are defined first.
    pub defined: FirstPlaces<'a, A>,
    /// Where temporaries are defined or used first.
    pub named: FirstPlaces<'a, A>,
    /// Where labels begin a block first.
    pub labels: FirstPlaces<'a, A>,
    /// The labels of the blocks that go to each block.
    pub predecessors: Groups<'a, Name<'a>, A>,
}

/// Where the names of each kind stand first.
#[derive(Drop)]
struct Places<'a, A: Allocator> {
    defined: FirstPlaces<'a, A>,
    named: FirstPlaces<'a, A>,
    labels: FirstPlaces<'a, A>,
}

// Apart from `Tables::new`, so that fewer tables have to be let go on each way out.
fn all_places<'a, A: Allocator + Copy>(
    alloc: A,
    keys: RandomState,
    occurrences: &[Occurrence<'_, 'a>],
) -> Result<Places<'a, A>, AllocError>
    ensures defined { IfOk result (λ t. (x : List ℕ) → place_in t.defined.places x ≡ first (is_named Defined x) 0 occurrences.now) }
    ensures named { IfOk result (λ t. (x : List ℕ) → place_in t.named.places x ≡ first (is_named Named x) 0 occurrences.now) }
    ensures labels { IfOk result (λ t. (x : List ℕ) → place_in t.labels.places x ≡ first (is_named Labels x) 0 occurrences.now) }
{
    Ok(Places {
        defined: first_places(alloc, keys, occurrences, TableKind::Defined)?,
        named: first_places(alloc, keys, occurrences, TableKind::Named)?,
        labels: first_places(alloc, keys, occurrences, TableKind::Labels)?,
    })
}

impl<'a, A: Allocator + Copy> Tables<'a, A> {
    pub fn new(
        alloc: A,
        keys: RandomState,
        occurrences: &[Occurrence<'_, 'a>],
    ) -> Result<Tables<'a, A>, AllocError>
        ensures defined { IfOk result (λ t. (x : List ℕ) → place_in t.defined.places x ≡ first (is_named Defined x) 0 occurrences.now) }
        ensures named { IfOk result (λ t. (x : List ℕ) → place_in t.named.places x ≡ first (is_named Named x) 0 occurrences.now) }
        ensures labels { IfOk result (λ t. (x : List ℕ) → place_in t.labels.places x ≡ first (is_named Labels x) 0 occurrences.now) }
        ensures predecessors { IfOk result (λ t. (x : List ℕ) → values_at t.predecessors.lists x ≡ predecessors_of x occurrences.now) }
    {
        let places = all_places(alloc, keys, occurrences)?;
        let predecessors = all_predecessors(alloc, keys, occurrences)?;
        Ok(Tables {
            defined: places.defined,
            named: places.named,
            labels: places.labels,
            predecessors,
        })
    }
}
