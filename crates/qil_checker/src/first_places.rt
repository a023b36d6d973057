//! Where each name of a text stands first.

ghost use Rattle.std.specs.Prelude.{◌≡◌, List, ℕ, None, OnOk, length};
ghost use Rattle.std.specs.Option.{option_or};
ghost use Rattle.std.specs.Str.{bytes_eq};
ghost use Rattle.std.specs.List.{IsDistinct};
ghost use Rattle.indexmap.specs.IndexMap.{keys};
ghost use Rattle.qil_symbols.specs.Tables.{for_name};
ghost use Rattle.qil_checker.specs.Tables.{place_in};

use indexmap::IndexMap;
use std::alloc::{AllocError, Allocator};
use std::hash::RandomState;

/// For each name the place that was recorded for it first.
#[derive(Drop)]
pub struct FirstPlaces<'a, A: Allocator> {
    places: IndexMap<&'a [u8], usize, RandomState, A>,
}

impl<'a, A: Allocator + Copy> FirstPlaces<'a, A> {
    /// No names.
    pub fn new(alloc: A, keys: RandomState) -> FirstPlaces<'a, A>
        ensures { (x : List ℕ) → place_in result.places x ≡ None }
    {
        FirstPlaces {
            places: IndexMap::with_hasher(alloc, keys),
        }
    }

    /// The place recorded for a name.
    pub fn get(&self, name: &[u8]) -> Option<usize>
        ensures { result ≡ place_in self.now.places name.now }
    {
        self.places.get(&name).copied()
    }

    /// Notes a place for a name, unless there is one.
    pub fn note(&mut self, name: &'a [u8], place: usize) -> Result<(), AllocError>
        ensures { OnOk result ((x : List ℕ) → place_in self.new.places x ≡ option_or (place_in self.old.places x) (for_name name.now place x)) }
    {
        match self.get(name) {
            Some(_) => {}
            None => {
                self.places.insert(name, place)?;
            }
        }
        Ok(())
    }

    /// How many names have a place.
    pub fn len(&self) -> usize
        ensures len { result ≡ length self.now.places.entries }
        ensures unique { IsDistinct (λ x y. bytes_eq x.now y.now) (keys self.now.places) }
    {
        self.places.len()
    }
}
