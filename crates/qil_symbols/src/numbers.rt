//! A number for each name.

ghost use Rattle.std.specs.Prelude.{◌≡◌, ◌<◌, [], ◌∷◌, OnOk, IfSome, length};
ghost use Rattle.qil_symbols.specs.Numbers.{place_of, recorded, names_of};

use std::alloc::{AllocError, Allocator};
use std::collections::HashMap;
use std::hash::RandomState;
use std::marker::Model;

/// Names, each once, numbered from 0 in the order in which they were recorded. Specifications see the list of them.
#[derive(Drop)]
pub struct Numbers<'a, A: Allocator> {
    names: Vec<&'a [u8], A>,
    places: HashMap<&'a [u8], usize, RandomState, A>,
}

impl<'a, A: Allocator> Model for Numbers<'a, A> {
    ghost use Rattle.std.specs.Prelude.{◌≡◌, List, ℕ};
    ghost use Rattle.qil_symbols.specs.Numbers.{place_of, names_of};
    ghost use Rattle.qil_symbols.specs.Tables.{value_at};

    ghost Value = { List (List ℕ) };

    ghost view = { λ n. names_of n.names.items };

    ghost invariant = { λ n. (x : List ℕ) → value_at n.places x ≡ place_of (names_of n.names.items) x };
}

impl<'a, A: Allocator + Copy> Numbers<'a, A> {
    /// No names.
    pub fn new(alloc: A, keys: RandomState) -> Numbers<'a, A>
        ensures { result ≡ [] }
    {
        Numbers {
            names: Vec::new(alloc),
            places: HashMap::with_hasher(alloc, keys),
        }
    }

    /// Notes a name, unless it is there.
    pub fn note(&mut self, name: &'a [u8]) -> Result<(), AllocError>
        ensures { OnOk result (self.new ≡ recorded self.old (name.now ∷ [])) }
    {
        let place = self.names.len();
        if self.places.contains_key(&name) {
            return Ok(());
        }
        self.names.push(name)?;
        match self.places.insert(name, place) {
            Ok(_) => Ok(()),
            Err(_) => {
                self.names.pop();
                Err(AllocError)
            }
        }
    }

    /// The number of a name.
    pub fn number(&self, name: &[u8]) -> Option<usize>
        ensures place { result ≡ place_of self.now name.now }
        ensures within { IfSome result (λ i. i < length self.now) }
    {
        self.places.get(&name).copied()
    }

    /// The names, in their order.
    pub fn names(&self) -> &[&'a [u8]]
        ensures { names_of result.now ≡ self.now }
    {
        self.names.as_slice()
    }
}
