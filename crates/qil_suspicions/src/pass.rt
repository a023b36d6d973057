//! The pass: the shadow's step before each step of the machine.

ghost use Rattle.std.specs.Prelude.{◌≡◌, ◌⊎◌, ◌+◌, ◌-◌, ◌^◌, ◌<◌, ◌≤◌, ℕ, List, [], true, false, Some, slice_get, IfOk, OnOk};
ghost use Rattle.qil_tree.specs.declared.tree.Func.{Func};
ghost use Rattle.qil_memory.specs.qil_rules.Rules.{WellFormed};
ghost use Rattle.qil_semantics.specs.State.{is_final};
ghost use Rattle.qil_semantics.specs.Start.{started};
ghost use Rattle.qil_semantics.specs.Targets.{after};
ghost use Rattle.qil_code.specs.Numbered.{func_at};
ghost use Rattle.qil_frames.specs.Frames.{SlotFrame};
ghost use Rattle.qil_state.specs.Faults.{status_of};
ghost use Rattle.qil_state.specs.State.{IsMachine, state_of};
ghost use Rattle.qil_shadow.specs.Shadow.{shadow_at_start};
ghost use Rattle.qil_shadow.specs.Kept.{Keeps, KeepsAll};
ghost use Rattle.qil_shadow.specs.Steps.{shadow_of};
ghost use Rattle.qil_suspicions.specs.Adding.{with_notes};
ghost use Rattle.qil_suspicions.specs.Run.{IsAtStart, HasNoted};
ghost use Rattle.qil_suspicions.specs.Looked.{place_at, HasStepped, AreFound, HasLooked};

use crate::notes::{Note, Notes};
use qil_code::Code;
use qil_flatmachine::FlatMachine;
use qil_layout::FuncId;
use qil_memory::CAPACITY;
use qil_shadow::{HeapRole, Place, Shadow};
use qil_state::Status;
use std::alloc::{AllocError, Allocator};
use std::hash::RandomState;
use std::marker::Model;

/// A machine with the shadow of its state, and what was suspicious on the way. Specifications see the machine by numbers, the
/// shadow, the notes, and how many moves were made.
#[derive(Drop)]
pub struct Pass<'c, A: Allocator> {
    machine: FlatMachine<'c, A>,
    shadow: Shadow<'c, A>,
    notes: Notes<A>,
    moves: u64,
}

impl<'c, A: Allocator> Model for Pass<'c, A> {
    ghost use Rattle.qil_suspicions.specs.Run.{CheckedRun};

    ghost Value = { CheckedRun A };

    ghost view = { λ p. record { whole = p.machine.whole; shadow = p.shadow; notes = p.notes; moves = p.moves } };
}

/// Where the innermost frame of a machine is.
fn place_here<A: Allocator + Copy>(machine: &FlatMachine<'_, A>) -> Option<Place>
    ensures { (f : SlotFrame) → slice_get machine.now.whole.frames 0 ≡ Some f → result ≡ Some (place_at f) }
{
    let Some(frame) = machine.frame(0) else {
        return None;
    };
    Some(Place {
        func: frame.func(),
        block: frame.block(),
        index: frame.index(),
    })
}

/// The shadow's step from where a machine stands.
fn step_shadow<'c, A: Allocator + Copy>(
    machine: &FlatMachine<'c, A>,
    shadow: &mut Shadow<'c, A>,
) -> Result<(), AllocError>
    ensures machine { OnOk result (IsMachine machine.now.whole) }
    ensures stepped { OnOk result (is_final (state_of machine.now.whole).status ≡ false → HasStepped machine.now.whole shadow.old shadow.new) }
{
    let Some(frame) = machine.frame(0) else {
        return Ok(());
    };
    let place = Place {
        func: frame.func(),
        block: frame.block(),
        index: frame.index(),
    };
    shadow.step(machine.code(), place, frame.slots())?;
    Ok(())
}

/// Notes what was suspicious of a step from a place.
fn note_all<A: Allocator + Copy>(
    place: Place,
    shadow: &mut Shadow<'_, A>,
    notes: &mut Notes<A>,
) -> Result<(), AllocError>
    ensures notes { OnOk result (notes.new ≡ with_notes place shadow.old.found.items notes.old) }
    ensures none { OnOk result (shadow.new.found.items ≡ []) }
    ensures rest { OnOk result (Keeps shadow.old shadow.new) }
{
    for suspicion in shadow.found() {
        notes.add(place, suspicion)?;
    }
    shadow.forget_found();
    Ok(())
}

/// Notes what was suspicious of the step from where a machine stands.
// Most steps have nothing to note.
#[inline(never)]
fn note_found<A: Allocator + Copy>(
    machine: &FlatMachine<'_, A>,
    shadow: &mut Shadow<'_, A>,
    notes: &mut Notes<A>,
) -> Result<(), AllocError>
    ensures { OnOk result ((f : SlotFrame) → slice_get machine.now.whole.frames 0 ≡ Some f → AreFound f shadow.old shadow.new notes.old notes.new) }
{
    let Some(place) = place_here(machine) else {
        return Ok(());
    };
    note_all(place, shadow, notes)?;
    Ok(())
}

/// Whether a run is over.
#[inline(always)]
fn is_over(status: Status) -> bool
    ensures over { result ≡ true → (ns : List (List ℕ)) → is_final (status_of ns status) ≡ true }
    ensures going { result ≡ false → (ns : List (List ℕ)) → is_final (status_of ns status) ≡ false }
{
    match status {
        Status::Running => false,
        Status::Done(_) | Status::Exited(_) | Status::Faulted(_) => true,
    }
}

/// How many bytes a text has that begins at an address, with its zero byte; none if it runs into dead memory.
fn text_size<A: Allocator + Copy>(machine: &FlatMachine<'_, A>, address: u64) -> Option<u64> {
    for index in 0..=CAPACITY {
        if machine.byte_after(address, index)? == 0 {
            return Some(index + 1);
        }
    }
    None
}

/// Looks at the text that a step writes by `$puts`, if it does.
fn look_at_text<A: Allocator + Copy>(machine: &FlatMachine<'_, A>, shadow: &mut Shadow<'_, A>)
    ensures { KeepsAll shadow.old shadow.new }
{
    if let Some(address) = shadow.text() {
        shadow.look_at_text(text_size(machine, address));
    }
}

/// Gives functions their parts in a heap.
fn know_heap<A: Allocator + Copy>(
    shadow: &mut Shadow<'_, A>,
    heap: &[(FuncId, HeapRole)],
) -> Result<(), AllocError>
    ensures { OnOk result (heap.now ≡ [] → shadow.new ≡ shadow.old) }
{
    for part in heap {
        let (func, role) = *part;
        shadow.know_heap(func, role)?;
    }
    Ok(())
}

/// Whether nothing was suspicious.
#[inline(always)]
fn is_quiet<A: Allocator + Copy>(shadow: &Shadow<'_, A>) -> bool
    ensures { result ≡ true → shadow.now.found.items ≡ [] }
{
    shadow.found().is_empty()
}

/// Looks at the next step of a machine: makes the shadow's, and notes what was suspicious of it.
#[inline(always)]
fn look<'c, A: Allocator + Copy>(
    machine: &FlatMachine<'c, A>,
    shadow: &mut Shadow<'c, A>,
    notes: &mut Notes<A>,
) -> Result<(), AllocError>
    ensures { OnOk result (is_final (state_of machine.now.whole).status ≡ false → HasLooked machine.now.whole shadow.old shadow.new notes.old notes.new) }
{
    let code = machine.code();
    code.names_are_distinct();
    step_shadow(machine, shadow)?;
    look_at_text(machine, shadow);
    if is_quiet(shadow) {
        return Ok(());
    }
    note_found(machine, shadow, notes)?;
    Ok(())
}

impl<'c, A: Allocator + Copy> Pass<'c, A> {
    /// A pass from a machine at the start of a function, with the functions of a heap.
    ///
    /// # Errors
    ///
    /// Out of memory.
    pub fn new(
        alloc: A,
        keys: RandomState,
        machine: FlatMachine<'c, A>,
        func: FuncId,
        heap: &[(FuncId, HeapRole)],
    ) -> Result<Pass<'c, A>, AllocError>
        ensures machine { IfOk result (λ p. p.whole ≡ machine.entry.whole) }
        ensures none { IfOk result (λ p. p.moves ≡ 0) }
        ensures start { IfOk result (λ p. heap.now ≡ [] → WellFormed p.whole.program → (f : Func A) (args : List ℕ) → func_at p.whole.program func.index ≡ Some f → state_of p.whole ≡ started p.whole.program f args
            → IsAtStart p × (shadow_of p.whole.program (state_of p.whole) p.shadow ≡ shadow_at_start p.whole.program f)) }
    {
        let code = machine.code();
        code.names_are_distinct();
        let mut shadow = Shadow::start(alloc, keys, code, func)?;
        know_heap(&mut shadow, heap)?;
        Ok(Pass {
            machine,
            shadow,
            notes: Notes::new(alloc),
            moves: 0,
        })
    }

    /// Whether the run is over.
    fn is_over(&self) -> bool
        ensures over { result ≡ true → is_final (state_of self.now.whole).status ≡ true }
        ensures going { result ≡ false → is_final (state_of self.now.whole).status ≡ false }
    {
        is_over(self.machine.status())
    }

    /// Makes a move, if the run isn't over, behind the step of the shadow.
    #[inline(always)]
    fn make_move(&mut self) -> Result<(), AllocError>
        requires { self.old.moves < 2 ^ 64 - 1 }
        ensures program { self.new.whole.program ≡ self.old.whole.program }
        ensures least { self.old.moves ≤ self.new.moves }
        ensures few { self.new.moves ≤ self.old.moves + 1 }
        ensures steps { state_of self.new.whole ≡ after self.old.whole.program (state_of self.old.whole) (self.new.moves - self.old.moves) }
        ensures going { self.old.moves < self.new.moves → is_final (state_of self.old.whole).status ≡ false }
        ensures over { OnOk result ((self.new.moves ≡ self.old.moves + 1) ⊎ (is_final (state_of self.new.whole).status ≡ true)) }
        ensures looked { OnOk result (is_final (state_of self.old.whole).status ≡ false → HasLooked self.old.whole self.old.shadow self.new.shadow self.old.notes self.new.notes) }
    {
        look(&self.machine, &mut self.shadow, &mut self.notes)?;
        self.moves += self.machine.run(1);
        Ok(())
    }

    /// Makes so many moves, and fewer only where the run is over. They are the run's own: looking at them changes nothing. What is
    /// noted are their suspicions.
    ///
    /// # Errors
    ///
    /// Out of memory.
    pub fn run(&mut self, count: u32) -> Result<(), AllocError>
        requires { self.old.moves ≡ 0 }
        ensures program { self.new.whole.program ≡ self.old.whole.program }
        ensures few { self.new.moves ≤ count }
        ensures steps { state_of self.new.whole ≡ after self.old.whole.program (state_of self.old.whole) self.new.moves }
        ensures over { OnOk result ((self.new.moves ≡ count) ⊎ (is_final (state_of self.new.whole).status ≡ true)) }
        ensures notes { OnOk result (IsAtStart self.old → HasNoted self.old self.new) }
    {
        for round in 0..count {
            // The invariant alone names it.
            let _ = round;
            if self.is_over() {
                return Ok(());
            }
            self.make_move()?;
        }
        Ok(())
    }

    /// How many moves were made.
    pub fn moves(&self) -> u64
        ensures { result ≡ self.now.moves }
    {
        self.moves
    }

    /// How the run stands.
    pub fn status(&self) -> Status
        ensures { result ≡ self.now.whole.status }
    {
        self.machine.status()
    }

    /// What was suspicious.
    pub fn notes(&self) -> &[Note]
        ensures { result.now ≡ self.now.notes }
    {
        self.notes.all()
    }

    /// The first move of which more may be suspicious than its accesses, by any kind that is on by default, except a store into a
    /// section that is only read. Of a heap whose functions it doesn't know it knows nothing either.
    pub fn first_unsure(&self) -> Option<u64> {
        self.shadow.first_unsure()
    }

    /// The code that is run.
    pub fn code(&self) -> &Code<'c, A>
        ensures { result.now ≡ self.now.whole.program }
    {
        self.machine.code()
    }
}
