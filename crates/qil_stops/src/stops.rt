//! The stops of a session.

ghost use Rattle.std.specs.Prelude.{◌≡◌, ◌+◌, ◌<◌, ◌≤◌, ◌^◌, ◌↔◌, ◌⊎◌, ◌∷◌, ◌++◌, ℕ, true, false, [], length, is_some, option_map, slice_get, Some, IfOk, OnOk, OnErr, IfErr, IfSome, IsErr};
ghost use Rattle.qil_tree.specs.declared.tree.Program.{Program};
ghost use Rattle.qil_semantics.specs.Stops.{AreListed};
ghost use Rattle.qil_stops.specs.Listed.{Listed, HasWidth, IsReadable, AreReadable, IsFull, IsRising, added, is_listed, without};
ghost use Rattle.qil_stops.specs.Named.{has_place, has_watched, named_stops};

use crate::stop::{NumberedStop, Place, StopKind, Watched};
use qil_history::{BlockId, Code};
use qil_layout::FuncId;
use std::alloc::{AllocError, Allocator};
use std::marker::Model;

/// How many stops there are at most at a time.
const ROOM: usize = 64;

/// How many numbers are given in all.
const NUMBERS: u64 = 4_611_686_018_427_387_904;

/// Why a stop isn't added or deleted.
#[derive(Clone, Copy)]
pub enum StopError {
    /// The code has no such function, block, instruction or slot.
    UnknownPlace,
    /// There are 64 stops, or all numbers were given.
    TooMany,
    /// No stop has the number.
    NoSuchStop,
}

/// Up to 64 stops, by rising number, and how many numbers were given. A number is given once.
#[derive(Drop)]
pub struct Stops<A: Allocator> {
    given: u64,
    kept: Vec<NumberedStop, A>,
}

impl<A: Allocator> Model for Stops<A> {
    ghost use Rattle.std.specs.Prelude.{◌≤◌, ◌^◌, length};
    ghost use Rattle.std.specs.Vec.{vec_capacity};
    ghost use Rattle.qil_stops.specs.Listed.{Listed, IsRising, AreReadable};

    ghost Value = { Listed };

    ghost view = { λ s. record { given = s.given; kept = s.kept.items } };

    ghost invariant = { λ s. (length s.kept.items ≤ 64) × (64 ≤ vec_capacity s.kept) × (s.given ≤ 2 ^ 62) × IsRising 0 s.kept.items s.given × AreReadable s.kept.items };
}

/// Where the stop of a number stands.
fn index_of(stops: &[NumberedStop], number: u64) -> Option<usize>
    ensures some { IfSome result (λ index. option_map (λ stop. stop.number) (slice_get stops.now index) ≡ Some number) }
    ensures within { IfSome result (λ index. index < length stops.now) }
    ensures listed { is_listed number stops.now ≡ is_some result }
{
    for (index, stop) in stops.iter().enumerate() {
        if stop.number == number {
            return Some(index);
        }
    }
    None
}

/// Whether the code has a place.
fn has_place<A: Allocator + Copy>(code: &Code<'_, A>, place: Place) -> bool
    ensures { result ≡ has_place code.now place }
{
    match code.source(place.func, place.block) {
        Some(block) => place.index <= block.insts.as_slice().len() as u64,
        None => false,
    }
}

/// Whether the code has what is watched: memory is always there.
fn has_watched<A: Allocator + Copy>(code: &Code<'_, A>, watched: Watched) -> bool
    ensures { result ≡ has_watched code.now watched }
{
    match watched {
        Watched::Bytes { .. } => true,
        Watched::Temp { func, slot } => code.name_of(func, slot).is_some(),
    }
}

impl<A: Allocator> Stops<A> {
    /// No stops, with room for 64.
    pub fn new(alloc: A) -> Result<Stops<A>, AllocError>
        ensures { IfOk result (λ stops. stops ≡ record { given = 0; kept = [] }) }
    {
        Ok(Stops {
            given: 0,
            kept: Vec::with_capacity(alloc, ROOM)?,
        })
    }

    /// All stops, by number.
    pub fn list(&self) -> &[NumberedStop]
        ensures stops { result.now ≡ self.now.kept }
        ensures few { length self.now.kept ≤ 64 }
        ensures rising { IsRising 0 self.now.kept self.now.given }
        ensures readable { AreReadable self.now.kept }
        ensures listed { (p : Program A) → AreListed 0 (named_stops p self.now.kept) }
    {
        self.kept.as_slice()
    }

    fn add(&mut self, kind: StopKind) -> Result<u64, StopError>
        requires { IsReadable kind }
        ensures number { IfOk result (λ n. n ≡ self.old.given + 1) }
        ensures ok { OnOk result (self.new ≡ added kind self.old) }
        ensures full { IsErr result ↔ IsFull self.old }
        ensures many { IfErr result (λ e. e ≡ StopError.TooMany) }
        ensures err { OnErr result (self.new ≡ self.old) }
    {
        if self.kept.len() == ROOM || self.given == NUMBERS {
            return Err(StopError::TooMany);
        }
        let number = self.given + 1;
        match self.kept.push(NumberedStop { number, kind }) {
            Ok(()) => {}
            Err(_) => unreachable!(),
        }
        self.given = number;
        Ok(number)
    }

    /// Takes a stop out. Its number isn't given again.
    ///
    /// # Errors
    ///
    /// `NoSuchStop` where no stop has the number.
    pub fn delete(&mut self, number: u64) -> Result<(), StopError>
        ensures ok { OnOk result (self.new ≡ record self.old { kept = without number self.old.kept }) }
        ensures none { (result ≡ Err StopError.NoSuchStop) ↔ (is_listed number self.old.kept ≡ false) }
        ensures only { IfErr result (λ e. e ≡ StopError.NoSuchStop) }
        ensures err { OnErr result (self.new ≡ self.old) }
    {
        match index_of(self.kept.as_slice(), number) {
            None => Err(StopError::NoSuchStop),
            Some(index) => {
                self.kept.remove(index);
                Ok(())
            }
        }
    }
}

impl<A: Allocator + Copy> Stops<A> {
    /// Adds a breakpoint before an instruction of a block, counted from 0; the jump is counted last. The number of the new
    /// stop is the next that was never given.
    ///
    /// # Errors
    ///
    /// `UnknownPlace` where the code has no such place. Else `TooMany` where there are 64 stops, or 2^62 numbers were given.
    pub fn add_break(
        &mut self,
        code: &Code<'_, A>,
        func: FuncId,
        block: BlockId,
        index: u64,
    ) -> Result<u64, StopError>
        ensures number { IfOk result (λ n. n ≡ self.old.given + 1) }
        ensures ok { OnOk result (self.new ≡ added (StopKind.Break (record { func = func; block = block; index = index })) self.old) }
        ensures unknown { (result ≡ Err StopError.UnknownPlace) ↔ (has_place code.now (record { func = func; block = block; index = index }) ≡ false) }
        ensures many { (result ≡ Err StopError.TooMany) ↔ ((has_place code.now (record { func = func; block = block; index = index }) ≡ true) × IsFull self.old) }
        ensures only { result ≡ Err StopError.NoSuchStop → ⊥ }
        ensures err { OnErr result (self.new ≡ self.old) }
    {
        let place = Place { func, block, index };
        if !has_place(code, place) {
            return Err(StopError::UnknownPlace);
        }
        self.add(StopKind::Break(place))
    }

    /// Adds a watch. The number of the new stop is the next that was never given.
    ///
    /// # Errors
    ///
    /// `UnknownPlace` where the code has no such function or slot. Else `TooMany`, as for a breakpoint.
    pub fn add_watch(&mut self, code: &Code<'_, A>, watched: Watched) -> Result<u64, StopError>
        requires { HasWidth watched }
        ensures number { IfOk result (λ n. n ≡ self.old.given + 1) }
        ensures ok { OnOk result (self.new ≡ added (StopKind.Watch watched) self.old) }
        ensures unknown { (result ≡ Err StopError.UnknownPlace) ↔ (has_watched code.now watched ≡ false) }
        ensures many { (result ≡ Err StopError.TooMany) ↔ ((has_watched code.now watched ≡ true) × IsFull self.old) }
        ensures only { result ≡ Err StopError.NoSuchStop → ⊥ }
        ensures err { OnErr result (self.new ≡ self.old) }
    {
        if !has_watched(code, watched) {
            return Err(StopError::UnknownPlace);
        }
        self.add(StopKind::Watch(watched))
    }
}
