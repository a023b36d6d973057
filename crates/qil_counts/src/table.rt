//! The counters of a run, by place.

ghost use Rattle.std.specs.Prelude.{◌≡◌, ◌+◌, ◌<◌, ◌^◌, ℕ, false, Some, IfOk, if◌then◌else◌, length, map};
ghost use Rattle.std.specs.List.{filter};
ghost use Rattle.qil_counts.specs.Counts.{is_filled, is_met, one_more, places, unmet_all};
ghost use Rattle.qil_counts.specs.Rows.{AreFew, IsFoundBy, number_at};

use crate::count::{CodePlace, Count, same_place};
use crate::laying::{Rows, lay};
use qil_code::Code;
use qil_tree::Items;
use std::alloc::{AllocError, Allocator};
use std::marker::Model;

/// The most places that are told.
const MOST: usize = 4_096;

/// How often a run stood at each place of a code. Specifications see the list of the counts, in the order of the text.
#[derive(Drop)]
pub struct CountTable<A: Allocator> {
    rows: Rows<A>,
    /// How many places were met.
    met: usize,
}

impl<A: Allocator> Model for CountTable<A> {
    ghost use Rattle.std.specs.Prelude.{List, ◌≡◌, length};
    ghost use Rattle.std.specs.List.{filter};
    ghost use Rattle.qil_counts.specs.declared.count.Count.{Count};
    ghost use Rattle.qil_counts.specs.Counts.{is_met};
    ghost use Rattle.qil_counts.specs.Rows.{AreNumbered};

    ghost Value = { List Count };

    ghost view = { λ t. t.rows.counts.items };

    ghost invariant = { λ t. AreNumbered t.rows.blocks.items t.rows.firsts.items t.rows.counts.items × (t.met ≡ length (filter is_met t.rows.counts.items)) };
}

/// The number of a place's counter, if it has one.
#[inline(always)]
fn number_of(blocks: &[usize], firsts: &[usize], place: CodePlace) -> Option<usize>
    ensures { (n : ℕ) → n < 2 ^ 64 → number_at blocks.now firsts.now place ≡ Some n → result ≡ Some n }
{
    let begin = *blocks.get(usize::from(place.func.index))?;
    let block = begin.checked_add(usize::from(place.block.index))?;
    let first = *firsts.get(block)?;
    first.checked_add(place.index as usize)
}

/// Counts one more at a place, whose counter has a number, if it has one. Gives whether it is the first there.
#[inline(always)]
fn count_one<A: Allocator>(
    counts: &mut Vec<Count, A>,
    number: Option<usize>,
    place: CodePlace,
) -> bool
    requires { AreFew counts.old.items }
    ensures counted { IsFoundBy number counts.old.items place → counts.new.items ≡ map (one_more (Some place)) counts.old.items }
    ensures met { length (filter is_met counts.new.items) ≡ length (filter is_met counts.old.items) + (if result then 1 else 0) }
{
    let Some(number) = number else {
        return false;
    };
    if number >= counts.len() {
        return false;
    }
    let one = counts[number];
    if !same_place(place, one.place) {
        return false;
    }
    counts[number] = Count {
        place: one.place,
        count: one.count + 1,
    };
    one.count == 0
}

impl<A: Allocator> CountTable<A> {
    /// Whether no further place would be told.
    #[inline(always)]
    pub fn is_filled(&self) -> bool
        ensures { result ≡ is_filled self.now }
    {
        self.met >= MOST
    }

    /// Counts the place where a run stood, if it stood at one.
    #[inline(always)]
    pub fn add(&mut self, place: Option<CodePlace>)
        requires room { is_filled self.old ≡ false }
        requires few { AreFew self.old }
        ensures { self.new ≡ map (one_more place) self.old }
    {
        let Some(place) = place else {
            return;
        };
        let number = number_of(
            self.rows.blocks.as_slice(),
            self.rows.firsts.as_slice(),
            place,
        );
        let is_first = count_one(&mut self.rows.counts, number, place);
        self.met += usize::from(is_first);
    }

    /// The counts of the places that were met, for a reply.
    pub fn into_items(self) -> Items<Count, A>
        ensures { result ≡ filter is_met self }
    {
        let CountTable { rows, met: _ } = self;
        let Rows {
            counts,
            firsts: _,
            blocks: _,
        } = rows;
        met_of(counts)
    }
}

/// The counts of the places that were met.
fn met_of<A: Allocator>(counts: Vec<Count, A>) -> Items<Count, A>
    ensures { result ≡ filter is_met counts.items }
{
    let mut counts = counts;
    counts.retain(|one| one.count > 0);
    Items::new(counts)
}

impl<A: Allocator + Copy> CountTable<A> {
    /// A table for a code. No place was met.
    ///
    /// # Errors
    ///
    /// Out of memory.
    pub fn new(alloc: A, code: &Code<'_, A>) -> Result<CountTable<A>, AllocError>
        ensures { IfOk result (λ t. t ≡ unmet_all (places code.now)) }
    {
        let rows = lay(alloc, code)?;
        Ok(CountTable { rows, met: 0 })
    }
}
