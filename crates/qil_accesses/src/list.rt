//! A list of accesses, whose room is made at once.

ghost use Rattle.std.specs.Prelude.{◌≡◌, ◌+◌, ◌<◌, ◌≤◌, ◌++◌, ◌∷◌, [], false, length, IfOk};
ghost use Rattle.std.specs.List.{filter};
ghost use Rattle.qil_semantics.specs.State.{State};
ghost use Rattle.qil_state.specs.State.{state_of};
ghost use Rattle.qil_accesses.specs.declared.access.Action.TheVariants.{Read, Write};
ghost use Rattle.qil_accesses.specs.Accesses.{access, accesses_to, is_filled, touches};
ghost use Rattle.qil_accesses.specs.Ahead.{made_by, IsAhead};

use crate::access::{Access, Action};
use crate::ahead::Ahead;
use crate::made::{is_faulted, more_output, touches, value_named};
use qil_code::Code;
use qil_history::Readers;
use qil_tree::Items;
use std::alloc::{AllocError, Allocator};
use std::marker::Model;

/// The most accesses of a list.
const MOST: usize = 4_096;

/// Accesses, in the order in which they were made. Specifications see the list of them.
#[derive(Drop)]
pub struct AccessList<A: Allocator> {
    items: Vec<Access, A>,
}

impl<A: Allocator> Model for AccessList<A> {
    ghost use Rattle.std.specs.Prelude.{List, ◌≤◌, length};
    ghost use Rattle.std.specs.Vec.{vec_capacity};
    ghost use Rattle.qil_accesses.specs.declared.access.Access.{Access};

    ghost Value = { List Access };

    ghost view = { λ l. l.items.items };

    ghost invariant = { λ l. (length l.items.items ≤ 4096) × (4096 ≤ vec_capacity l.items) };
}

impl<A: Allocator> AccessList<A> {
    /// An empty list.
    ///
    /// # Errors
    ///
    /// Where there is no memory for 4,096 accesses.
    pub fn new(alloc: A) -> Result<AccessList<A>, AllocError>
        ensures { IfOk result (λ l. l ≡ []) }
    {
        Ok(AccessList {
            items: Vec::with_capacity(alloc, MOST)?,
        })
    }

    /// Whether two more might not fit.
    #[inline(always)]
    pub fn is_filled(&self) -> bool
        ensures { result ≡ is_filled self.now }
    {
        self.items.len() > MOST - 2
    }

    /// The accesses, for a reply.
    pub fn into_items(self) -> Items<Access, A>
        ensures { result ≡ self }
    {
        let AccessList { items } = self;
        Items::new(items)
    }

    /// Adds an access, if it is of one of so many bytes from an address on.
    #[inline(always)]
    fn add(&mut self, one: Access, start: u64, count: u64)
        requires { length self.old < 4096 }
        ensures list { self.new ≡ self.old ++ filter (touches start count) (one ∷ []) }
        ensures few { length self.new ≤ length self.old + 1 }
    {
        if touches(one, start, count) {
            self.items.push_reserved(one);
        }
    }

    /// Adds both accesses of a copy, the read first.
    fn add_copy(&mut self, read: Access, write: Access, start: u64, count: u64)
        requires { length self.old < 4095 }
        ensures { self.new ≡ self.old ++ filter (touches start count) (read ∷ (write ∷ [])) }
    {
        self.add(read, start, count);
        self.add(write, start, count);
    }
}

/// A read of so many bytes.
#[inline(always)]
fn read(position: u64, address: u64, count: u64) -> Access
    ensures { result ≡ access Read position address count }
{
    Access {
        action: Action::Read,
        position,
        address,
        count,
    }
}

/// A write of so many bytes.
#[inline(always)]
fn write(position: u64, address: u64, count: u64) -> Access
    ensures { result ≡ access Write position address count }
{
    Access {
        action: Action::Write,
        position,
        address,
        count,
    }
}

/// Adds what the move from a position made of what was ahead of it, by the machine after it, as far as it is of one of so many
/// bytes from an address on.
fn add_made<'m, 'c, A: Allocator + Copy + 'c, M: Readers<A, Code<'c, A>>>(
    list: &mut AccessList<A>,
    machine: &'m M,
    ahead: Ahead,
    position: u64,
    start: u64,
    count: u64,
)
    requires { is_filled list.old ≡ false }
    ensures { list.new ≡ list.old ++ filter (touches start count) (made_by (M.whole machine.now).program position (state_of (M.whole machine.now)) ahead) }
{
    match ahead {
        Ahead::Nothing => {}
        Ahead::Read(address, size) => list.add(read(position, address, size), start, count),
        Ahead::Write(address, size) => list.add(write(position, address, size), start, count),
        Ahead::Copy(from, to, size) => {
            let source = read(position, from, size);
            let target = write(position, to, size);
            list.add_copy(source, target, start, count)
        }
        Ahead::Alloc(func, slot, size) => {
            if let Some(address) = value_named(machine, func, slot) {
                list.add(write(position, address, size), start, count)
            }
        }
        Ahead::Text(address, written) => {
            let size = more_output(machine, written);
            list.add(read(position, address, size), start, count)
        }
    }
}

/// Adds what the move from a position accessed, by what was ahead of it and the machine after it, as far as it is of one of so many
/// bytes from an address on.
#[inline(always)]
pub fn note_move<'m, 'c, A: Allocator + Copy + 'c, M: Readers<A, Code<'c, A>>>(
    list: &mut AccessList<A>,
    machine: &'m M,
    ahead: Ahead,
    position: u64,
    start: u64,
    count: u64,
)
    requires { is_filled list.old ≡ false }
    ensures { (s : State) → IsAhead (M.whole machine.now).program s ahead
        → list.new ≡ list.old ++ filter (touches start count) (accesses_to (M.whole machine.now).program position s (state_of (M.whole machine.now))) }
{
    if is_faulted(machine) {
        return;
    }
    add_made(list, machine, ahead, position, start, count)
}
