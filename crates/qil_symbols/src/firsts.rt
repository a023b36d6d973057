//! The value that was recorded first for each name.

ghost use Rattle.std.specs.Prelude.{◌≡◌, List, ℕ, None, OnOk, length};
ghost use Rattle.std.specs.Option.{option_or};
ghost use Rattle.std.specs.Str.{bytes_eq};
ghost use Rattle.std.specs.List.{IsDistinct};
ghost use Rattle.std.specs.HashMap.{keys};
ghost use Rattle.qil_symbols.specs.Tables.{value_at, for_name};

use std::alloc::{AllocError, Allocator};
use std::collections::HashMap;
use std::hash::RandomState;

/// For each name the value that was recorded for it first.
#[derive(Drop)]
pub struct Firsts<'a, V: Copy, A: Allocator> {
    values: HashMap<&'a [u8], V, RandomState, A>,
}

impl<'a, V: Copy, A: Allocator + Copy> Firsts<'a, V, A> {
    /// No values.
    pub fn new(alloc: A, keys: RandomState) -> Firsts<'a, V, A>
        ensures { (x : List ℕ) → value_at result.values x ≡ None }
    {
        Firsts {
            values: HashMap::with_hasher(alloc, keys),
        }
    }

    /// The value recorded for a name.
    pub fn get(&self, name: &[u8]) -> Option<V>
        ensures { result ≡ value_at self.now.values name.now }
    {
        self.values.get(&name).copied()
    }

    /// Notes a value for a name, unless there is one.
    pub fn note(&mut self, name: &'a [u8], value: V) -> Result<(), AllocError>
        ensures { OnOk result ((x : List ℕ) → value_at self.new.values x ≡ option_or (value_at self.old.values x) (for_name name.now value x)) }
    {
        match self.get(name) {
            Some(_) => {}
            None => {
                self.values.insert(name, value)?;
            }
        }
        Ok(())
    }

    /// How many names have a value.
    pub fn len(&self) -> usize
        ensures len { result ≡ length self.now.values.entries }
        ensures unique { IsDistinct (λ x y. bytes_eq x.now y.now) (keys self.now.values) }
    {
        self.values.len()
    }
}
