//! The frames along moves: those that ended, and where those began that last.

ghost use Rattle.std.specs.Prelude.{◌≡◌, suc, ◌+◌, ◌-◌, ◌<◌, ◌≤◌, ◌++◌, ◌∷◌, [], Some, false, length, IfOk};
ghost use Rattle.std.specs.List.{filter};
ghost use Rattle.std.specs.Vec.{vec_capacity};
ghost use Rattle.qil_state.specs.State.{state_of};
ghost use Rattle.qil_spans.specs.Spans.{func_over, is_filled, is_told, lasting, span};
ghost use Rattle.qil_spans.specs.Table.{after_move, last_of, lasting_in, nothing, told_of, with_begin, with_end, without_last};

use crate::here::{Inner, depth_of, func_of};
use crate::span::{Span, is_told};
use qil_code::Code;
use qil_history::Readers;
use qil_layout::FuncId;
use qil_tree::Items;
use std::alloc::{AllocError, Allocator};
use std::marker::Model;

/// The most frames that a machine has.
const DEEPEST: usize = 1_000;

/// The most frames that ended which are told.
const MOST: usize = 3_096;

/// The frames along moves. Specifications see what is kept of them.
#[derive(Drop)]
pub struct SpanTable<A: Allocator> {
    /// Those that ended and are told. There is room for all that last besides.
    ended: Vec<Span, A>,
    /// Where those began that last, the outermost first. Any others are outside of them, and are older.
    begins: Vec<u64, A>,
}

impl<A: Allocator> Model for SpanTable<A> {
    ghost use Rattle.std.specs.Prelude.{◌≤◌, length};
    ghost use Rattle.std.specs.Vec.{vec_capacity};
    ghost use Rattle.qil_spans.specs.Table.{Kept};

    ghost Value = { Kept };

    ghost view = { λ t. record { ended = t.ended.items; begins = t.begins.items } };

    ghost invariant = { λ t. (length t.ended.items ≤ 3096) × (4096 ≤ vec_capacity t.ended) × (length t.begins.items ≤ 1000) × (1000 ≤ vec_capacity t.begins) };
}

/// Takes the last begin away, if there is one.
#[inline(always)]
fn take_last<A: Allocator>(begins: &mut Vec<u64, A>) -> Option<u64>
    ensures last { result ≡ last_of begins.old.items }
    ensures rest { begins.new.items ≡ without_last begins.old.items }
    ensures capacity { vec_capacity begins.new ≡ vec_capacity begins.old }
{
    begins.pop()
}

/// Adds a frame that ended, if it is told.
#[inline(always)]
fn tell<A: Allocator>(ended: &mut Vec<Span, A>, one: Span, least: u64)
    requires { length ended.old.items < vec_capacity ended.old }
    ensures items { ended.new.items ≡ ended.old.items ++ filter (is_told least) (one ∷ []) }
    ensures few { length ended.new.items ≤ length ended.old.items + 1 }
    ensures capacity { vec_capacity ended.new ≡ vec_capacity ended.old }
{
    if is_told(one, least) {
        ended.push_reserved(one);
    }
}

impl<A: Allocator + Copy> SpanTable<A> {
    /// Nothing is kept.
    ///
    /// # Errors
    ///
    /// Out of memory.
    pub fn new(alloc: A) -> Result<SpanTable<A>, AllocError>
        ensures { IfOk result (λ t. t ≡ nothing) }
    {
        Ok(SpanTable {
            ended: Vec::with_capacity(alloc, MOST + DEEPEST)?,
            begins: Vec::with_capacity(alloc, DEEPEST)?,
        })
    }
}

impl<A: Allocator> SpanTable<A> {
    /// Whether no further frame that ends would be told.
    #[inline(always)]
    pub fn is_filled(&self) -> bool
        ensures { result ≡ is_filled self.now.ended }
    {
        self.ended.len() >= MOST
    }

    /// Notes a frame that begins at a position.
    fn begin(&mut self, position: u64)
        requires { length self.old.begins < 1000 }
        ensures { self.new ≡ with_begin position self.old }
    {
        self.begins.push_reserved(position);
    }

    /// Notes that the innermost frame ends at a position, with so many below it.
    fn end(&mut self, position: u64, func: FuncId, below: u64, least: u64)
        requires { is_filled self.old.ended ≡ false }
        ensures { self.new ≡ with_end least position func below self.old }
    {
        let begin = take_last(&mut self.begins);
        let one = Span {
            begin,
            end: Some(position),
            func,
            below,
        };
        tell(&mut self.ended, one, least);
    }

    /// Notes what a move to a position began or ended, by the frames from before it and how many there are after it.
    #[inline(always)]
    pub fn add(&mut self, before: Inner, after: u64, position: u64, least: u64)
        requires room { is_filled self.old.ended ≡ false }
        requires few { after ≤ 1000 }
        requires below { length self.old.begins ≤ before.depth }
        ensures { self.new ≡ after_move least before.depth after before.func position self.old }
    {
        if before.depth < after {
            self.begin(position)
        } else if after < before.depth {
            self.end(position, before.func, after, least)
        }
    }
}

/// Adds the frame that began at a position and lasts, with so many inside it and below it.
#[inline(always)]
fn add_last<'m, 'c, A: Allocator + Copy + 'c, M: Readers<A, Code<'c, A>>>(
    list: &mut Vec<Span, A>,
    machine: &'m M,
    begin: u64,
    inside: usize,
    below: u64,
)
    requires room { length list.old.items < vec_capacity list.old }
    requires inside { below + suc inside ≡ length (state_of (M.whole machine.now)).frames }
    ensures items { list.new.items ≡ list.old.items ++ lasting (Some begin) (func_over (M.whole machine.now).program (state_of (M.whole machine.now)) below) below }
    ensures few { length list.new.items ≤ length list.old.items + 1 }
    ensures capacity { vec_capacity list.new ≡ vec_capacity list.old }
{
    let func = func_of(machine, inside);
    list.push_reserved(Span {
        begin: Some(begin),
        end: None,
        func,
        below,
    });
}

/// Adds the frames that last, by where they began.
fn add_lasting<'m, 'c, A: Allocator + Copy + 'c, M: Readers<A, Code<'c, A>>>(
    list: &mut Vec<Span, A>,
    machine: &'m M,
    begins: &[u64],
)
    requires all { length begins.now ≤ length (state_of (M.whole machine.now)).frames }
    requires room { length list.old.items + length begins.now ≤ vec_capacity list.old }
    ensures { list.new.items ≡ list.old.items ++ lasting_in (M.whole machine.now).program (state_of (M.whole machine.now)) (length (state_of (M.whole machine.now)).frames - length begins.now) begins.now (length begins.now) }
{
    let count = begins.len();
    let older = depth_of(machine) - count as u64;
    for index in 0..count {
        let inside = count - 1 - index;
        let below = older + index as u64;
        let begin = begins[index];
        add_last(list, machine, begin, inside, below);
    }
}

/// All frames that are told of a run, by the machine after it, for a reply: those that ended, and those that last.
pub fn told_of<'m, 'c, A: Allocator + Copy + 'c, M: Readers<A, Code<'c, A>>>(
    table: SpanTable<A>,
    machine: &'m M,
) -> Items<Span, A>
    requires { length table.begins ≤ length (state_of (M.whole machine.now)).frames }
    ensures { result ≡ told_of (M.whole machine.now).program (state_of (M.whole machine.now)) table }
{
    let SpanTable { ended, begins } = table;
    let mut list = ended;
    add_lasting(&mut list, machine, begins.as_slice());
    Items::new(list)
}
