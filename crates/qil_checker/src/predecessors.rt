//! The predecessors of each block: the blocks that go to it.

ghost use Rattle.std.specs.Prelude.{◌≡◌, List, ℕ, IfOk, IsTrue, ◌↔◌};
ghost use Rattle.qil_rules.specs.Text.{ArePredecessors, labels_of};
ghost use Rattle.qil_symbols.specs.Tables.{values_at, kept};
ghost use Rattle.qil_checker.specs.Tables.{predecessors_of};

use crate::phi_labels::{labels_of, same_once};
use qil_rules::{Occurrence, OccurrenceKind, PhiSources};
use qil_symbols::Groups;
use qil_tree::Name;
use std::alloc::{AllocError, Allocator};
use std::hash::RandomState;

/// Whether the labels of a phi are its block's predecessors, each once.
pub fn are_predecessors<'a, A: Allocator + Copy>(
    alloc: A,
    keys: RandomState,
    occurrences: &[Occurrence<'_, 'a>],
    block: &Name<'a>,
    predecessors: Option<&Vec<Name<'a>, A>>,
    sources: &PhiSources<'_, 'a>,
) -> Result<bool, AllocError>
    requires { kept predecessors ≡ predecessors_of block.now occurrences.now }
    ensures { IfOk result (λ b. IsTrue b ↔ ArePredecessors occurrences.now block.now (labels_of sources.now)) }
{
    let labels = labels_of(alloc, sources.as_slice())?;
    match predecessors {
        Some(list) => same_once(alloc, keys, labels.as_slice(), list.as_slice()),
        None => {
            let none = Vec::new(alloc);
            same_once(alloc, keys, labels.as_slice(), none.as_slice())
        }
    }
}

/// The blocks that go to each block.
pub fn all_predecessors<'a, A: Allocator + Copy>(
    alloc: A,
    keys: RandomState,
    occurrences: &[Occurrence<'_, 'a>],
) -> Result<Groups<'a, Name<'a>, A>, AllocError>
    ensures { IfOk result (λ t. (x : List ℕ) → values_at t.lists x ≡ predecessors_of x occurrences.now) }
{
    let mut table = Groups::new(alloc, keys);
    for (place, occurrence) in occurrences.iter().enumerate() {
        match &occurrence.what {
            OccurrenceKind::Edge(from, to) => table.note(
                alloc,
                to.bytes(),
                Name::new(from.bytes()),
            )?,
            _ => {}
        }
    }
    Ok(table)
}
