//! The texts of a whole program: what breaks a rule in it, and its form.

ghost use Rattle.std.specs.Prelude.{◌≡◌, ◌++◌, ◌∷◌, map, List, ℕ, ◌≤◌, Some, take, IfOk, OnOk, IsTrue, ◌↔◌, MatchOption, slice_get};
ghost use Rattle.std.specs.List.{count_by};
ghost use Rattle.qil_rules.specs.Occurrences.{texts, texts_in, data_occurrences, func_occurrences};
ghost use Rattle.qil_symbols.specs.Tables.{kept};
ghost use Rattle.qil_checker.specs.Tables.{place_in, first, has_name, AreAtHandFor};
ghost use Rattle.qil_rules.specs.Rules.{AreWellFormed, AreBroken, IsKept, IsBrokenFirst, Breaks, IsNamedBefore, IsSecondName, IsUnknown, IsLostGlobal, IsTooMuch, is_built_in, is_function};
ghost use Rattle.qil_checker.specs.Scan.{Keeps, Breach};
ghost use Rattle.qil_checker.specs.Whole.{occurrences_of};
ghost use Rattle.qil_rules.specs.Forms.{HaveForm};
ghost use Rattle.qil_tree.specs.declared.tree.Definition.{Definition};

use crate::definition::IndexedDefinition;
use crate::first_places::FirstPlaces;
use crate::lookup::place_of;
use crate::walk;
use qil_rules::{Form, Occurrence, OccurrenceKind, Rule};
use qil_tree::{Data, Definition, Func, Name, Program};
use std::alloc::{AllocError, Allocator};
use std::hash::RandomState;

/// How many functions a program may have.
const MAX_FUNCTIONS: usize = 1000;

/// A rule that is broken, and the line that is reported of it.
#[derive(Clone, Copy)]
pub struct BrokenRule {
    pub rule: Rule,
    pub line: u32,
}

/// The definitions that are left, of each kind.
#[derive(Drop)]
struct Left<'p, 'a, A: Allocator> {
    datas: &'p [Data<'a, A>],
    funcs: &'p [Func<'a, A>],
}

impl<'p, 'a, A: Allocator + Copy> Left<'p, 'a, A> {
    /// Pushes the text of the next definition of a kind, if there is one.
    fn push_next(
        &mut self,
        alloc: A,
        keys: RandomState,
        out: &mut Vec<IndexedDefinition<'p, 'a, A>, A>,
        definition: Definition,
    ) -> Result<(), AllocError>
        ensures { OnOk result ((order : List Definition) → occurrences_of out.new.items ++ texts_in order self.new.datas.now self.new.funcs.now ≡ occurrences_of out.old.items ++ texts_in (definition ∷ order) self.old.datas.now self.old.funcs.now) }
    {
        match definition {
            Definition::Data => {
                if let [object, datas @ ..] = self.datas {
                    out.push(data_text(alloc, keys, object)?)?;
                    self.datas = datas;
                }
            }
            Definition::Func => {
                if let [func, funcs @ ..] = self.funcs {
                    out.push(func_text(alloc, keys, func)?)?;
                    self.funcs = funcs;
                }
            }
        }
        Ok(())
    }
}

fn data_text<'p, 'a, A: Allocator + Copy>(
    alloc: A,
    keys: RandomState,
    object: &'p Data<'a, A>,
) -> Result<IndexedDefinition<'p, 'a, A>, AllocError>
    ensures { IfOk result (λ t. t.occurrences.items ≡ data_occurrences object.now) }
{
    let occurrences = walk::data_occurrences(alloc, object)?;
    IndexedDefinition::new(alloc, keys, Name::new(object.name.bytes()), occurrences)
}

fn func_text<'p, 'a, A: Allocator + Copy>(
    alloc: A,
    keys: RandomState,
    func: &'p Func<'a, A>,
) -> Result<IndexedDefinition<'p, 'a, A>, AllocError>
    ensures { IfOk result (λ t. t.occurrences.items ≡ func_occurrences func.now) }
{
    let occurrences = walk::func_occurrences(alloc, func)?;
    IndexedDefinition::new(alloc, keys, Name::new(func.name.bytes()), occurrences)
}

fn push_datas<'p, 'a, A: Allocator + Copy>(
    alloc: A,
    keys: RandomState,
    out: &mut Vec<IndexedDefinition<'p, 'a, A>, A>,
    datas: &'p [Data<'a, A>],
) -> Result<(), AllocError>
    ensures { OnOk result (occurrences_of out.new.items ≡ occurrences_of out.old.items ++ map data_occurrences datas.now) }
{
    for object in datas {
        out.push(data_text(alloc, keys, object)?)?;
    }
    Ok(())
}

fn push_funcs<'p, 'a, A: Allocator + Copy>(
    alloc: A,
    keys: RandomState,
    out: &mut Vec<IndexedDefinition<'p, 'a, A>, A>,
    funcs: &'p [Func<'a, A>],
) -> Result<(), AllocError>
    ensures { OnOk result (occurrences_of out.new.items ≡ occurrences_of out.old.items ++ map func_occurrences funcs.now) }
{
    for func in funcs {
        out.push(func_text(alloc, keys, func)?)?;
    }
    Ok(())
}

/// The texts of a program's definitions, in their order.
fn texts_of<'p, 'a, A: Allocator + Copy>(
    alloc: A,
    keys: RandomState,
    program: &'p Program<'a, A>,
) -> Result<Vec<IndexedDefinition<'p, 'a, A>, A>, AllocError>
    ensures { IfOk result (λ v. occurrences_of v.items ≡ texts program.now) }
{
    let mut out = Vec::new(alloc);
    let mut left = Left {
        datas: program.datas.as_slice(),
        funcs: program.funcs.as_slice(),
    };
    for definition in program.order.as_slice() {
        left.push_next(alloc, keys, &mut out, *definition)?;
    }
    push_datas(alloc, keys, &mut out, left.datas)?;
    push_funcs(alloc, keys, &mut out, left.funcs)?;
    Ok(out)
}

/// The first definition of each global name.
fn first_names<'a, A: Allocator + Copy>(
    alloc: A,
    keys: RandomState,
    texts: &[IndexedDefinition<'_, 'a, A>],
) -> Result<FirstPlaces<'a, A>, AllocError>
    ensures { IfOk result (λ t. (x : List ℕ) → place_in t.places x ≡ first (has_name x) 0 (occurrences_of texts.now)) }
{
    let mut table = FirstPlaces::new(alloc, keys);
    for (number, text) in texts.iter().enumerate() {
        table.note(text.name.bytes(), number)?;
    }
    Ok(table)
}

/// Whether a function of that name is in every program.
fn is_built_in(name: &Name) -> bool
    ensures { result ≡ is_built_in name.now }
{
    name.bytes() == b"putchar".as_slice()
        || name.bytes() == b"puts".as_slice()
        || name.bytes() == b"exit".as_slice()
}

/// A text of the program: which one it is, and how many functions stand before it.
#[derive(Drop)]
struct Visit<'t, 'p, 'a, A: Allocator> {
    text: &'t IndexedDefinition<'p, 'a, A>,
    number: usize,
    functions: usize,
}

/// A program as the texts of its definitions.
#[derive(Drop)]
pub struct ProgramIndex<'p, 'a, A: Allocator> {
    texts: Vec<IndexedDefinition<'p, 'a, A>, A>,
    names: FirstPlaces<'a, A>,
    ghost first_names: { (x : List ℕ) → place_in names.places x ≡ first (has_name x) 0 (occurrences_of texts.items) },
}

impl<'p, 'a, A: Allocator + Copy> ProgramIndex<'p, 'a, A> {
    pub fn new(
        alloc: A,
        keys: RandomState,
        program: &'p Program<'a, A>,
    ) -> Result<ProgramIndex<'p, 'a, A>, AllocError>
        ensures { IfOk result (λ w. occurrences_of w.texts.items ≡ texts program.now) }
    {
        let texts = texts_of(alloc, keys, program)?;
        let names = first_names(alloc, keys, texts.as_slice())?;
        Ok(ProgramIndex { texts, names })
    }

    // ---- the rules that look at other texts

    fn is_named_before(&self, name: &Name<'a>, number: usize) -> bool
        ensures { IsTrue result ↔ IsNamedBefore (occurrences_of self.now.texts.items) number name.now }
    {
        match place_of(&self.names, name) {
            Some(first) => first < number,
            None => false,
        }
    }

    /// Whether a definition has the name of an earlier one.
    fn is_second_name(
        &self,
        visit: &Visit<'_, 'p, 'a, A>,
        place: usize,
        occurrence: &Occurrence<'p, 'a>,
    ) -> bool
        requires { slice_get visit.now.text.now.occurrences.items place ≡ Some occurrence.now }
        ensures { IsTrue result ↔ IsSecondName (occurrences_of self.now.texts.items) visit.now.text.now.occurrences.items visit.now.number place }
    {
        match &occurrence.what {
            OccurrenceKind::DataName(name) => self.is_named_before(name, visit.number),
            OccurrenceKind::FunctionName(name) => self.is_named_before(name, visit.number),
            _ => false,
        }
    }

    fn is_unknown(&self, name: &Name<'a>) -> bool
        ensures { IsTrue result ↔ IsUnknown (occurrences_of self.now.texts.items) name.now }
    {
        match place_of(&self.names, name) {
            Some(_) => false,
            None => !is_built_in(name),
        }
    }

    /// Whether a global is used that is neither defined nor built in.
    fn is_lost_global(
        &self,
        visit: &Visit<'_, 'p, 'a, A>,
        place: usize,
        occurrence: &Occurrence<'p, 'a>,
    ) -> bool
        requires { slice_get visit.now.text.now.occurrences.items place ≡ Some occurrence.now }
        ensures { IsTrue result ↔ IsLostGlobal (occurrences_of self.now.texts.items) visit.now.text.now.occurrences.items place }
    {
        match &occurrence.what {
            OccurrenceKind::Global(name) => self.is_unknown(name),
            _ => false,
        }
    }

    /// Whether a function has too many temporaries or blocks, or is one too many.
    fn is_too_much(
        &self,
        visit: &Visit<'_, 'p, 'a, A>,
        place: usize,
        occurrence: &Occurrence<'p, 'a>,
    ) -> bool
        requires there { slice_get visit.now.text.now.occurrences.items place ≡ Some occurrence.now }
        requires counted { visit.now.functions ≡ count_by is_function (take visit.now.number (occurrences_of self.now.texts.items)) }
        ensures { IsTrue result ↔ IsTooMuch (occurrences_of self.now.texts.items) visit.now.text.now.occurrences.items visit.now.number place }
    {
        match &occurrence.what {
            OccurrenceKind::FunctionName(_) => {
                visit.text.has_many_temporaries()
                    || visit.text.has_many_blocks()
                    || visit.functions == MAX_FUNCTIONS
            }
            _ => false,
        }
    }

    // ---- all rules

    /// Whether the occurrence at a place of a text breaks a rule; `predecessors` are those of its block, where the rule asks
    /// for them.
    fn breaks(
        &self,
        alloc: A,
        rule: Rule,
        visit: &Visit<'_, 'p, 'a, A>,
        place: usize,
        occurrence: &Occurrence<'p, 'a>,
        predecessors: Option<&Vec<Name<'a>, A>>,
    ) -> Result<bool, AllocError>
        requires there { slice_get visit.now.text.now.occurrences.items place ≡ Some occurrence.now }
        requires at_hand { AreAtHandFor rule visit.now.text.now.occurrences.items place (kept predecessors) }
        requires counted { visit.now.functions ≡ count_by is_function (take visit.now.number (occurrences_of self.now.texts.items)) }
        ensures { IfOk result (λ b. IsTrue b ↔ Breaks rule (occurrences_of self.now.texts.items) visit.now.text.now.occurrences.items visit.now.number place) }
    {
        let text = visit.text;
        match rule {
            Rule::C1 => Ok(self.is_second_name(visit, place, occurrence)),
            Rule::C2 => Ok(text.is_second_label(place, occurrence)),
            Rule::C3 => Ok(text.is_lost_label(place, occurrence)),
            Rule::C4 => Ok(text.is_jump_to_first(place, occurrence)),
            Rule::C5 => Ok(text.is_other_class(place, occurrence)),
            Rule::C6 => Ok(text.is_undefined_use(place, occurrence)),
            Rule::C7 => Ok(text.is_narrow_use(place, occurrence)),
            Rule::C8 => text.is_wrong_phi(alloc, place, occurrence, predecessors),
            Rule::C9 => Ok(self.is_lost_global(visit, place, occurrence)),
            Rule::C10 => Ok(text.is_untyped_return(place, occurrence)),
            Rule::C11 => Ok(text.is_narrow_result(place, occurrence)),
            Rule::C12 => Ok(self.is_too_much(visit, place, occurrence)),
        }
    }

    /// The line of the first occurrence of a text that breaks a rule.
    fn first_breach(
        &self,
        alloc: A,
        rule: Rule,
        visit: &Visit<'_, 'p, 'a, A>,
    ) -> Result<Option<u32>, AllocError>
        requires { visit.now.functions ≡ count_by is_function (take visit.now.number (occurrences_of self.now.texts.items)) }
        ensures { IfOk result (λ o. MatchOption o (Keeps rule (occurrences_of self.now.texts.items) visit.now.text.now.occurrences.items visit.now.number) (Breach rule (occurrences_of self.now.texts.items) visit.now.text.now.occurrences.items visit.now.number)) }
    {
        // Looked up once for a block, since a block's phis don't spell its label.
        let mut predecessors = None;
        for (place, occurrence) in visit.text.occurrences.iter().enumerate() {
            if self.breaks(alloc, rule, visit, place, occurrence, predecessors)? {
                return Ok(Some(occurrence.line));
            }
            predecessors = visit
                .text
                .predecessors_for(rule, place, occurrence, predecessors);
        }
        Ok(None)
    }

    /// The line of the first place in the program that breaks a rule.
    fn line_of(&self, alloc: A, rule: Rule) -> Result<Option<u32>, AllocError>
        ensures { IfOk result (λ o. MatchOption o (IsKept rule (occurrences_of self.now.texts.items)) (IsBrokenFirst rule (occurrences_of self.now.texts.items))) }
    {
        let mut functions = 0;
        for (number, text) in self.texts.iter().enumerate() {
            let visit = Visit {
                text,
                number,
                functions,
            };
            if let Some(line) = self.first_breach(alloc, rule, &visit)? {
                return Ok(Some(line));
            }
            functions += text.functions();
        }
        Ok(None)
    }

    /// The lowest rule that is broken anywhere, with the line of its first place.
    pub fn lowest(&self, alloc: A) -> Result<Option<BrokenRule>, AllocError>
        ensures { IfOk result (λ o. MatchOption o (AreWellFormed (occurrences_of self.now.texts.items)) (λ r. AreBroken (occurrences_of self.now.texts.items) r.rule r.line)) }
    {
        let mut rule = Rule::C1;
        'rules: loop {
            if let Some(line) = self.line_of(alloc, rule)? {
                return Ok(Some(BrokenRule { rule, line }));
            }
            match rule.next() {
                Some(next) => rule = next,
                None => return Ok(None),
            }
        }
    }

    /// Whether each temporary has one definition.
    pub fn form(&self) -> Form<'a>
        ensures { HaveForm (occurrences_of self.now.texts.items) result }
    {
        for text in self.texts.as_slice() {
            if let Some(temp) = text.second_definition() {
                let func = Name::new(text.name.bytes());
                return Form::Multiple { func, temp };
            }
        }
        Form::Single
    }
}
