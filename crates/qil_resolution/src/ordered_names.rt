//! The names of a function while it is numbered.

ghost use Rattle.std.specs.Prelude.{◌≡◌, ◌<◌, [], ◌∷◌, OnOk, IfOk, IfSome, length};
ghost use Rattle.qil_symbols.specs.Numbers.{place_of, recorded, names_of};

use indexmap::IndexSet;
use qil_symbols::Numbers;
use std::alloc::{AllocError, Allocator};
use std::hash::RandomState;
use std::marker::Model;

/// Names, each once, numbered from 0 in the order in which they were recorded. Specifications see the list of them.
// What the code keeps are `Numbers`, so that the crates above carry nothing of the set.
#[derive(Drop)]
pub struct OrderedNames<'a, A: Allocator> {
    set: IndexSet<&'a [u8], RandomState, A>,
}

impl<'a, A: Allocator> Model for OrderedNames<'a, A> {
    ghost use Rattle.std.specs.Prelude.{◌≡◌, [], List, ℕ};
    ghost use Rattle.qil_symbols.specs.Numbers.{names_of, recorded};

    ghost Value = { List (List ℕ) };

    ghost view = { λ n. names_of n.set.keys };

    ghost invariant = { λ n. recorded [] (names_of n.set.keys) ≡ names_of n.set.keys };
}

impl<'a, A: Allocator + Copy> OrderedNames<'a, A> {
    /// No names.
    pub fn new(alloc: A, keys: RandomState) -> OrderedNames<'a, A>
        ensures { result ≡ [] }
    {
        OrderedNames {
            set: IndexSet::with_hasher(alloc, keys),
        }
    }

    /// Notes a name, unless it is there.
    pub fn note(&mut self, name: &'a [u8]) -> Result<(), AllocError>
        ensures { OnOk result (self.new ≡ recorded self.old (name.now ∷ [])) }
    {
        self.set.insert(name)?;
        Ok(())
    }

    /// The number of a name.
    pub fn number(&self, name: &[u8]) -> Option<usize>
        ensures place { result ≡ place_of self.now name.now }
        ensures within { IfSome result (λ i. i < length self.now) }
    {
        self.set.get_index_of(&name)
    }

    /// The names, in their order.
    pub fn names(&self) -> &[&'a [u8]]
        ensures { names_of result.now ≡ self.now }
    {
        self.set.as_slice()
    }

    /// The same names, as the code of a program keeps them.
    pub fn kept(&self, alloc: A, keys: RandomState) -> Result<Numbers<'a, A>, AllocError>
        ensures { IfOk result (λ names. names ≡ self.now) }
    {
        numbers_of(alloc, keys, self.set.as_slice())
    }
}

/// The numbers of the names of a list, each once.
fn numbers_of<'a, A: Allocator + Copy>(
    alloc: A,
    keys: RandomState,
    names: &[&'a [u8]],
) -> Result<Numbers<'a, A>, AllocError>
    ensures { IfOk result (λ numbers. numbers ≡ recorded [] (names_of names.now)) }
{
    let mut numbers = Numbers::new(alloc, keys);
    for name in names {
        numbers.note(name)?;
    }
    Ok(numbers)
}
