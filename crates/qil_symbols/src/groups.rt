//! All values that were recorded for each name.

ghost use Rattle.std.specs.Prelude.{◌≡◌, List, ℕ, [], ◌∷◌, ◌++◌, OnOk, if◌then◌else◌};
ghost use Rattle.std.specs.Str.{bytes_eq};
ghost use Rattle.qil_symbols.specs.Tables.{values_at, kept};

use std::alloc::{AllocError, Allocator};
use std::collections::HashMap;
use std::hash::RandomState;

/// For each name the values that were recorded for it, in their order.
#[derive(Drop)]
pub struct Groups<'a, V: Drop, A: Allocator> {
    lists: HashMap<&'a [u8], Vec<V, A>, RandomState, A>,
}

impl<'a, V: Drop, A: Allocator + Copy> Groups<'a, V, A> {
    /// No values.
    pub fn new(alloc: A, keys: RandomState) -> Groups<'a, V, A>
        ensures { (x : List ℕ) → values_at result.lists x ≡ [] }
    {
        Groups {
            lists: HashMap::with_hasher(alloc, keys),
        }
    }

    /// Notes one more value for a name.
    pub fn note(&mut self, alloc: A, name: &'a [u8], value: V) -> Result<(), AllocError>
        ensures { OnOk result ((x : List ℕ) → values_at self.new.lists x ≡ (if bytes_eq name.now x then values_at self.old.lists x ++ value ∷ [] else values_at self.old.lists x)) }
    {
        match self.lists.get_mut(&name) {
            Some(list) => list.push(value)?,
            None => {
                let mut list = Vec::new(alloc);
                list.push(value)?;
                self.lists.insert(name, list)?;
            }
        }
        Ok(())
    }

    /// The values recorded for a name, if there are any.
    pub fn get(&self, name: &'a [u8]) -> Option<&Vec<V, A>>
        ensures { kept result ≡ values_at self.now.lists name.now }
    {
        self.lists.get(&name)
    }
}
