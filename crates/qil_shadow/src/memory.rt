//! What the bytes of memory are made of, by their addresses.

ghost use Rattle.std.specs.Prelude.{◌≡◌, ◌+◌, ◌-◌, ◌<◌, ◌≤◌, ◌^◌, false, replicate, IfOk, IfSome, IsSome};
ghost use Rattle.qil_memory.specs.Buffers.{stack_base, capacity};
ghost use Rattle.qil_memory.specs.Calls.{overlap};
ghost use Rattle.qil_shadow.specs.Bytes.{laid_origins, origins_at, stored_origins, joined};
ghost use Rattle.qil_shadow.specs.Shadow.{all_numbers};
ghost use Rattle.qil_shadow.specs.Spots.{IsSpotOf, HasSpot, origins_in};
ghost use Rattle.qil_shadow.specs.Words.{with_byte};

use crate::origin::{ByteOrigin, Origin};
use crate::region::Region;
use qil_memory::{CAPACITY, DATA_BASE, STACK_BASE};
use qil_tree::Class;
use std::alloc::{AllocError, Allocator};
use std::marker::Model;

/// How many words of eight bytes the data and the stack have at most, each.
const WORDS: usize = 131_072;

/// What the bytes of the data and of the stack are made of. Specifications see the words of both.
#[derive(Drop)]
pub struct OriginMemory<A: Allocator> {
    data_origins: Region<A>,
    stack_origins: Region<A>,
}

impl<A: Allocator> Model for OriginMemory<A> {
    ghost use Rattle.qil_shadow.specs.Spots.{MemoryWords, HasAllWords};

    ghost Value = { MemoryWords };

    ghost view = { λ m. record { data_words = m.data_origins; stack_words = m.stack_origins } };

    ghost invariant = { λ m. HasAllWords (record { data_words = m.data_origins; stack_words = m.stack_origins }) };
}

/// Where a byte is kept.
#[derive(Clone, Copy)]
pub(crate) enum Spot {
    Data(usize),
    Stack(usize),
}

/// The spot of the first of so many bytes from an address on, if all have one.
#[inline(always)]
fn spot_of(address: u64, count: u64) -> Option<Spot>
    ensures spot { IfSome result (IsSpotOf address count) }
    ensures some { HasSpot address count → IsSome result }
    ensures low { IsSome result → address + count ≤ 2 ^ 32 }
{
    if address >= STACK_BASE {
        let at = address - STACK_BASE;
        if count <= CAPACITY && at <= CAPACITY - count {
            return Some(Spot::Stack(at as usize));
        }
        return None;
    }
    if address >= DATA_BASE {
        let at = address - DATA_BASE;
        if count <= CAPACITY && at <= CAPACITY - count {
            return Some(Spot::Data(at as usize));
        }
    }
    None
}

impl<A: Allocator + Copy> OriginMemory<A> {
    /// All bytes are numbers.
    ///
    /// # Errors
    ///
    /// Out of memory.
    #[tactic(auto, using(crate::proofs::MemoryLemmas::memory_fresh))]
    pub fn new(alloc: A) -> Result<OriginMemory<A>, AllocError>
        ensures { IfOk result (λ m. origins_in m ≡ all_numbers) }
    {
        Ok(OriginMemory {
            data_origins: Region::new(alloc, WORDS)?,
            stack_origins: Region::new(alloc, WORDS)?,
        })
    }
}

impl<A: Allocator> OriginMemory<A> {
    /// What a byte is made of. A byte that never can be live is of numbers.
    pub fn get(&self, address: u64) -> ByteOrigin
        ensures { HasSpot address 1 → result ≡ origins_in self.now address }
    {
        let _ = &self.stack_origins;
        match spot_of(address, 1) {
            Some(Spot::Data(at)) => self.data_origins.get(at),
            Some(Spot::Stack(at)) => self.stack_origins.get(at),
            None => ByteOrigin::Number,
        }
    }

    /// Sets what a byte is made of.
    pub fn set(&mut self, address: u64, origin: ByteOrigin)
        ensures { HasSpot address 1 → origins_in self.new ≡ with_byte (origins_in self.old) address origin }
    {
        let _ = &self.stack_origins;
        match spot_of(address, 1) {
            Some(Spot::Data(at)) => self.data_origins.store_byte(at, origin),
            Some(Spot::Stack(at)) => self.stack_origins.store_byte(at, origin),
            None => {}
        }
    }

    /// What a value of a class is made of that is loaded from so many bytes from an address on.
    #[inline(always)]
    pub fn load(&self, address: u64, count: u64, class: Class) -> Origin
        requires some { 0 < count }
        requires few { count ≤ 8 }
        ensures { HasSpot address count → result ≡ joined class (origins_at (origins_in self.now) address count) }
    {
        let _ = &self.stack_origins;
        match spot_of(address, count) {
            Some(Spot::Data(at)) => self.data_origins.load(at, count as usize, class),
            Some(Spot::Stack(at)) => self.stack_origins.load(at, count as usize, class),
            None => Origin::Number,
        }
    }

    /// Stores a value in so many bytes from an address on.
    #[inline(always)]
    pub fn store(&mut self, address: u64, count: u64, origin: Origin)
        requires some { 0 < count }
        requires few { count ≤ 8 }
        ensures { HasSpot address count → origins_in self.new ≡ laid_origins (origins_in self.old) address (stored_origins count origin) }
    {
        let _ = &self.stack_origins;
        match spot_of(address, count) {
            Some(Spot::Data(at)) => self.data_origins.store(at, count as usize, origin),
            Some(Spot::Stack(at)) => self.stack_origins.store(at, count as usize, origin),
            None => {}
        }
    }

    /// Copies what so many bytes are made of, which share none but the same.
    pub fn copy(&mut self, source: u64, target: u64, count: u64)
        ensures { HasSpot source count → HasSpot target count → overlap source target count ≡ false → origins_in self.new ≡ laid_origins (origins_in self.old) target (origins_at (origins_in self.old) source count) }
    {
        if spot_of(source, count).is_none() {
            return;
        }
        if spot_of(target, count).is_none() {
            return;
        }
        for index in 0..count {
            let origin = self.get(source + index);
            self.set(target + index, origin);
        }
    }

    /// Makes so many bytes of the stack numbers.
    pub fn clear(&mut self, address: u64, count: u64)
        ensures { stack_base ≤ address → address + count ≤ stack_base + capacity → origins_in self.new ≡ laid_origins (origins_in self.old) address (replicate count ByteOrigin.Number) }
    {
        let _ = &self.stack_origins;
        if count > CAPACITY {
            return;
        }
        match spot_of(address, count) {
            Some(Spot::Stack(at)) => self.stack_origins.clear(at, count as usize),
            Some(Spot::Data(_)) | None => {}
        }
    }
}
