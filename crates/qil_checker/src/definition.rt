//! The text of one definition: its occurrences with their tables, and what breaks a rule in it.

ghost use Rattle.std.specs.Prelude.{◌≡◌, List, ℕ, Some, IfOk, IsTrue, ◌↔◌, ◌+◌, MatchOption, slice_get, if◌then◌else◌};
ghost use Rattle.std.specs.List.{count_by};
ghost use Rattle.qil_symbols.specs.Tables.{values_at, kept};
ghost use Rattle.qil_checker.specs.Tables.{place_in, first, is_named, predecessors_of, head_name, begun_label, AreAtHome, AreAtHand, AreAtHandFor};
ghost use Rattle.qil_rules.specs.Text.{FirstClass, IsUndefined, IsAgain, LacksLabel, IsFirstLabel};
ghost use Rattle.qil_rules.specs.Rules.{IsSecondLabel, IsLostLabel, IsJumpToFirst, IsOtherClass, IsUndefinedUse, IsNarrowUse, IsWrongPhi, IsUntypedReturn, IsNarrowResult, HasManyTemporaries, HasManyBlocks, is_label, is_function, begins_function};
ghost use Rattle.qil_checker.specs.Scan.{IsSingle, IsAgainFirst};
ghost use Rattle.qil_checker.specs.declared.lookup.TableKind.TheVariants.{Defined, Named, Labels};

use crate::lookup::{Tables, place_of};
use crate::predecessors::are_predecessors;
use qil_rules::{Occurrence, OccurrenceKind, Rule};
use qil_tree::{Class, Name};
use std::alloc::{AllocError, Allocator};
use std::hash::RandomState;

/// How many temporaries a function may have.
const MAX_TEMPORARIES: usize = 65_535;
/// How many blocks a function may have.
const MAX_BLOCKS: usize = 65_535;

fn is_label(occurrence: &Occurrence) -> bool
    ensures { result ≡ is_label occurrence.now }
{
    match &occurrence.what {
        OccurrenceKind::Label(_) => true,
        _ => false,
    }
}

fn begins_function(occurrence: &Occurrence) -> bool
    ensures { result ≡ begins_function occurrence.now.what }
{
    match &occurrence.what {
        OccurrenceKind::FunctionName(_) => true,
        _ => false,
    }
}

/// How many blocks begin.
fn count_blocks(occurrences: &[Occurrence]) -> usize
    ensures { result ≡ count_by is_label occurrences.now }
{
    occurrences
        .iter()
        .filter(|occurrence| is_label(occurrence))
        .count()
}

/// The label of the first block.
fn first_label<'a>(occurrences: &[Occurrence<'_, 'a>]) -> Option<Name<'a>>
    ensures { result ≡ begun_label occurrences.now }
{
    for occurrence in occurrences {
        if let OccurrenceKind::Label(label) = &occurrence.what {
            return Some(Name::new(label.bytes()));
        }
    }
    None
}

/// A definition's text.
#[derive(Drop)]
pub struct IndexedDefinition<'p, 'a, A: Allocator> {
    /// What its tables hash with.
    keys: RandomState,
    /// The global name that is defined.
    pub name: Name<'a>,
    pub occurrences: Vec<Occurrence<'p, 'a>, A>,
    blocks: usize,
    first_label: Option<Name<'a>>,
    tables: Tables<'a, A>,
    ghost name_is: { head_name occurrences.items ≡ Some name },
    ghost phis_are: { AreAtHome occurrences.items },
    ghost first_is: { first_label ≡ begun_label occurrences.items },
    ghost blocks_are: { blocks ≡ count_by is_label occurrences.items },
    ghost defined_places: { (x : List ℕ) → place_in tables.defined.places x ≡ first (is_named Defined x) 0 occurrences.items },
    ghost named_places: { (x : List ℕ) → place_in tables.named.places x ≡ first (is_named Named x) 0 occurrences.items },
    ghost label_places: { (x : List ℕ) → place_in tables.labels.places x ≡ first (is_named Labels x) 0 occurrences.items },
    ghost predecessor_lists: { (x : List ℕ) → values_at tables.predecessors.lists x ≡ predecessors_of x occurrences.items },
}

impl<'p, 'a, A: Allocator + Copy> IndexedDefinition<'p, 'a, A> {
    pub fn new(
        alloc: A,
        keys: RandomState,
        name: Name<'a>,
        occurrences: Vec<Occurrence<'p, 'a>, A>,
    ) -> Result<IndexedDefinition<'p, 'a, A>, AllocError>
        requires begun { head_name occurrences.items ≡ Some name }
        requires at_home { AreAtHome occurrences.items }
        ensures { IfOk result (λ t. t.occurrences.items ≡ occurrences.entry.items) }
    {
        let blocks = count_blocks(occurrences.as_slice());
        let first_label = first_label(occurrences.as_slice());
        let tables = Tables::new(alloc, keys, occurrences.as_slice())?;
        Ok(IndexedDefinition {
            keys,
            name,
            occurrences,
            blocks,
            first_label,
            tables,
        })
    }

    /// The class that a temporary has by its first definition.
    fn class_of(&self, name: &Name<'a>) -> Option<Class>
        ensures { MatchOption result (IsUndefined self.now.occurrences.items name.now) (FirstClass self.now.occurrences.items name.now) }
    {
        match place_of(&self.tables.defined, name) {
            Some(place) => match &self.occurrences[place].what {
                OccurrenceKind::Defines(_, class) => Some(*class),
                _ => None,
            },
            None => None,
        }
    }

    fn lacks(&self, label: &Name<'a>) -> bool
        ensures { IsTrue result ↔ LacksLabel self.now.occurrences.items label.now }
    {
        match place_of(&self.tables.labels, label) {
            Some(_) => false,
            None => true,
        }
    }

    fn is_first(&self, label: &Name<'a>) -> bool
        ensures { IsTrue result ↔ IsFirstLabel self.now.occurrences.items label.now }
    {
        match &self.first_label {
            Some(first) => first.bytes() == label.bytes(),
            None => false,
        }
    }

    /// The predecessors of the block of the next place: `predecessors` are those of the block of this one.
    fn predecessors_behind<'t>(
        &'t self,
        place: usize,
        occurrence: &Occurrence<'p, 'a>,
        predecessors: Option<&'t Vec<Name<'a>, A>>,
    ) -> Option<&'t Vec<Name<'a>, A>>
        requires there { slice_get self.now.occurrences.items place ≡ Some occurrence.now }
        requires at_hand { AreAtHand self.now.occurrences.items place (kept predecessors) }
        ensures { AreAtHand self.now.occurrences.items (place + 1) (kept result) }
    {
        match &occurrence.what {
            OccurrenceKind::Label(label) => self.tables.predecessors.get(label.bytes()),
            _ => predecessors,
        }
    }

    /// The same, for the one rule that asks for them.
    pub fn predecessors_for<'t>(
        &'t self,
        rule: Rule,
        place: usize,
        occurrence: &Occurrence<'p, 'a>,
        predecessors: Option<&'t Vec<Name<'a>, A>>,
    ) -> Option<&'t Vec<Name<'a>, A>>
        requires there { slice_get self.now.occurrences.items place ≡ Some occurrence.now }
        requires at_hand { AreAtHandFor rule self.now.occurrences.items place (kept predecessors) }
        ensures { AreAtHandFor rule self.now.occurrences.items (place + 1) (kept result) }
    {
        match rule {
            Rule::C8 => self.predecessors_behind(place, occurrence, predecessors),
            _ => None,
        }
    }

    /// How many functions it is the text of.
    pub fn functions(&self) -> usize
        ensures { result ≡ (if is_function self.now.occurrences.items then 1 else 0) }
    {
        match self.occurrences.as_slice() {
            [first, ..] if begins_function(first) => 1,
            _ => 0,
        }
    }

    // ---- the rules of one text: whether the occurrence at a place breaks one

    /// Whether the label is that of an earlier block.
    pub fn is_second_label(&self, place: usize, occurrence: &Occurrence<'p, 'a>) -> bool
        requires { slice_get self.now.occurrences.items place ≡ Some occurrence.now }
        ensures { IsTrue result ↔ IsSecondLabel self.now.occurrences.items place }
    {
        match &occurrence.what {
            OccurrenceKind::Label(name) => match place_of(&self.tables.labels, name) {
                Some(first) => first != place,
                None => false,
            },
            _ => false,
        }
    }

    /// Whether a jump or a phi names a label that the function lacks.
    pub fn is_lost_label(&self, place: usize, occurrence: &Occurrence<'p, 'a>) -> bool
        requires { slice_get self.now.occurrences.items place ≡ Some occurrence.now }
        ensures { IsTrue result ↔ IsLostLabel self.now.occurrences.items place }
    {
        match &occurrence.what {
            OccurrenceKind::Edge(_, label) => self.lacks(label),
            OccurrenceKind::PhiLabel(label) => self.lacks(label),
            _ => false,
        }
    }

    /// Whether a jump names the function's first block.
    pub fn is_jump_to_first(&self, place: usize, occurrence: &Occurrence<'p, 'a>) -> bool
        requires { slice_get self.now.occurrences.items place ≡ Some occurrence.now }
        ensures { IsTrue result ↔ IsJumpToFirst self.now.occurrences.items place }
    {
        match &occurrence.what {
            OccurrenceKind::Edge(_, label) => self.is_first(label),
            _ => false,
        }
    }

    /// Whether a definition has another class than the first of its temporary.
    pub fn is_other_class(&self, place: usize, occurrence: &Occurrence<'p, 'a>) -> bool
        requires { slice_get self.now.occurrences.items place ≡ Some occurrence.now }
        ensures { IsTrue result ↔ IsOtherClass self.now.occurrences.items place }
    {
        match &occurrence.what {
            OccurrenceKind::Defines(name, class) => match self.class_of(name) {
                Some(first) => first != *class,
                None => false,
            },
            _ => false,
        }
    }

    /// Whether a temporary is used that has no definition.
    pub fn is_undefined_use(&self, place: usize, occurrence: &Occurrence<'p, 'a>) -> bool
        requires { slice_get self.now.occurrences.items place ≡ Some occurrence.now }
        ensures { IsTrue result ↔ IsUndefinedUse self.now.occurrences.items place }
    {
        match &occurrence.what {
            OccurrenceKind::Uses(name, _) => self.class_of(name).is_none(),
            _ => false,
        }
    }

    /// Whether a `w` temporary stands in an `l` context.
    pub fn is_narrow_use(&self, place: usize, occurrence: &Occurrence<'p, 'a>) -> bool
        requires { slice_get self.now.occurrences.items place ≡ Some occurrence.now }
        ensures { IsTrue result ↔ IsNarrowUse self.now.occurrences.items place }
    {
        match &occurrence.what {
            OccurrenceKind::Uses(name, Class::L) => match self.class_of(name) {
                Some(Class::W) => true,
                _ => false,
            },
            _ => false,
        }
    }

    /// Whether the labels of a phi aren't exactly the predecessors of its block, each once.
    pub fn is_wrong_phi(
        &self,
        alloc: A,
        place: usize,
        occurrence: &Occurrence<'p, 'a>,
        predecessors: Option<&Vec<Name<'a>, A>>,
    ) -> Result<bool, AllocError>
        requires there { slice_get self.now.occurrences.items place ≡ Some occurrence.now }
        requires at_hand { AreAtHand self.now.occurrences.items place (kept predecessors) }
        ensures { IfOk result (λ b. IsTrue b ↔ IsWrongPhi self.now.occurrences.items place) }
    {
        match &occurrence.what {
            OccurrenceKind::PhiOf(block, sources) => {
                let occurrences = self.occurrences.as_slice();
                let right = are_predecessors(
                    alloc,
                    self.keys,
                    occurrences,
                    block,
                    predecessors,
                    sources,
                )?;
                Ok(!right)
            }
            _ => Ok(false),
        }
    }

    /// Whether a value is returned where the function has no return type.
    pub fn is_untyped_return(&self, place: usize, occurrence: &Occurrence<'p, 'a>) -> bool
        requires { slice_get self.now.occurrences.items place ≡ Some occurrence.now }
        ensures { IsTrue result ↔ IsUntypedReturn self.now.occurrences.items place }
    {
        match &occurrence.what {
            OccurrenceKind::Returns(None) => true,
            _ => false,
        }
    }

    /// Whether a result that is always long has type `w`.
    pub fn is_narrow_result(&self, place: usize, occurrence: &Occurrence<'p, 'a>) -> bool
        requires { slice_get self.now.occurrences.items place ≡ Some occurrence.now }
        ensures { IsTrue result ↔ IsNarrowResult self.now.occurrences.items place }
    {
        match &occurrence.what {
            OccurrenceKind::Long(Class::W) => true,
            _ => false,
        }
    }

    pub fn has_many_temporaries(&self) -> bool
        ensures { IsTrue result ↔ HasManyTemporaries self.now.occurrences.items }
    {
        self.tables.named.len() > MAX_TEMPORARIES
    }

    pub fn has_many_blocks(&self) -> bool
        ensures { IsTrue result ↔ HasManyBlocks self.now.occurrences.items }
    {
        self.blocks > MAX_BLOCKS
    }

    // ---- what is defined again

    /// The temporary that is defined at a place, if it was defined before.
    fn defined_again(&self, place: usize, occurrence: &Occurrence<'p, 'a>) -> Option<Name<'a>>
        requires { slice_get self.now.occurrences.items place ≡ Some occurrence.now }
        ensures { MatchOption result ((x : List ℕ) → IsAgain self.now.occurrences.items place x → ⊥) (IsAgain self.now.occurrences.items place) }
    {
        match &occurrence.what {
            OccurrenceKind::Defines(name, _) => match place_of(&self.tables.defined, name) {
                Some(first) => {
                    if first != place {
                        Some(Name::new(name.bytes()))
                    } else {
                        None
                    }
                }
                None => None,
            },
            _ => None,
        }
    }

    /// The temporary that is defined again first.
    pub fn second_definition(&self) -> Option<Name<'a>>
        ensures { MatchOption result (IsSingle self.now.occurrences.items) (IsAgainFirst self.now.occurrences.items) }
    {
        for (place, occurrence) in self.occurrences.iter().enumerate() {
            if let Some(name) = self.defined_again(place, occurrence) {
                return Some(name);
            }
        }
        None
    }
}
