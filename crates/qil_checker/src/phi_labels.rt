//! Whether the labels of a phi are those of another list, each once.

ghost use Rattle.std.specs.Prelude.{◌≡◌, List, ℕ, IfOk, IsTrue, ◌↔◌};
ghost use Rattle.qil_checker.specs.Tables.{place_in, first, is, AreKnown, AreSameOnce};
ghost use Rattle.qil_rules.specs.Text.{AreDistinct, labels_of};

use crate::first_places::FirstPlaces;
use crate::lookup::place_of;
use qil_tree::{Name, PhiSource};
use std::alloc::{AllocError, Allocator};
use std::hash::RandomState;

/// The labels of a phi.
pub fn labels_of<'a, A: Allocator + Copy>(
    alloc: A,
    sources: &[PhiSource<'a>],
) -> Result<Vec<Name<'a>, A>, AllocError>
    ensures { IfOk result (λ v. v.items ≡ labels_of sources.now) }
{
    let mut labels = Vec::new(alloc);
    for source in sources {
        labels.push(Name::new(source.label.bytes()))?;
    }
    Ok(labels)
}

/// Where each name of a list stands first.
fn places_of<'a, A: Allocator + Copy>(
    alloc: A,
    keys: RandomState,
    names: &[Name<'a>],
) -> Result<FirstPlaces<'a, A>, AllocError>
    ensures { IfOk result (λ t. (x : List ℕ) → place_in t.places x ≡ first (is x) 0 names.now) }
{
    let mut table = FirstPlaces::new(alloc, keys);
    for (place, name) in names.iter().enumerate() {
        table.note(name.bytes(), place)?;
    }
    Ok(table)
}

/// Whether no name of the list stands twice.
fn each_once<'a, A: Allocator + Copy>(names: &[Name<'a>], places: &FirstPlaces<'a, A>) -> bool
    requires { (x : List ℕ) → place_in places.now.places x ≡ first (is x) 0 names.now }
    ensures { IsTrue result ↔ AreDistinct names.now }
{
    for (place, name) in names.iter().enumerate() {
        match place_of(places, name) {
            Some(first) => {
                if first != place {
                    return false;
                }
            }
            None => return false,
        }
    }
    true
}

/// Whether a table has each name of a list.
fn all_known<'a, A: Allocator + Copy>(names: &[Name<'a>], table: &FirstPlaces<'a, A>) -> bool
    ensures { IsTrue result ↔ AreKnown names.now (place_in table.now.places) }
{
    for (place, name) in names.iter().enumerate() {
        match place_of(table, name) {
            Some(_) => {}
            None => return false,
        }
    }
    true
}

/// The same, by where the names of each list stand first.
fn are_same_once<'a, A: Allocator + Copy>(
    names: &[Name<'a>],
    others: &[Name<'a>],
    here: &FirstPlaces<'a, A>,
    there: &FirstPlaces<'a, A>,
) -> bool
    requires here { (x : List ℕ) → place_in here.now.places x ≡ first (is x) 0 names.now }
    requires there { (x : List ℕ) → place_in there.now.places x ≡ first (is x) 0 others.now }
    ensures { IsTrue result ↔ AreSameOnce names.now others.now }
{
    each_once(names, here) && all_known(names, there) && all_known(others, here)
}

/// Whether the names stand once each and are those of the other list.
pub fn same_once<'a, A: Allocator + Copy>(
    alloc: A,
    keys: RandomState,
    names: &[Name<'a>],
    others: &[Name<'a>],
) -> Result<bool, AllocError>
    ensures { IfOk result (λ b. IsTrue b ↔ AreSameOnce names.now others.now) }
{
    let here = places_of(alloc, keys, names)?;
    let there = places_of(alloc, keys, others)?;
    Ok(are_same_once(names, others, &here, &there))
}
