//! What the bytes of a part of memory are made of, kept by words of eight bytes.

ghost use Rattle.std.specs.Prelude.{◌≡◌, ◌+◌, ◌*◌, ◌/◌, ◌%◌, ◌^◌, ◌<◌, ◌≤◌, length, replicate, IfOk};
ghost use Rattle.qil_shadow.specs.Bytes.{laid_origins, origins_at, stored_origins, joined};
ghost use Rattle.qil_shadow.specs.Shadow.{all_numbers};
ghost use Rattle.qil_shadow.specs.Words.{is_of_numbers, byte_in, word_of, spread, kept, with_byte};

use crate::bytes::{byte_of, joined};
use crate::origin::{ByteOrigin, ObjectId, Origin};
use qil_tree::Class;
use std::alloc::{AllocError, Allocator};
use std::marker::Model;

/// What the eight bytes of a word are made of.
#[derive(Clone, Copy)]
pub enum WordOrigin {
    Numbers,
    /// The bytes of an address.
    Address(ObjectId),
    /// Those of an address that was cut.
    CutAddress,
    /// Bytes that belong to no one value.
    Spread([ByteOrigin; 8]),
}

impl WordOrigin {
    /// What the byte at a place is made of.
    #[inline(always)]
    fn byte(&self, place: usize) -> ByteOrigin
        requires { place < 8 }
        ensures { result ≡ byte_in self.now place }
    {
        match self {
            WordOrigin::Numbers => ByteOrigin::Number,
            WordOrigin::Address(object) => ByteOrigin::Part(*object, place as u8),
            WordOrigin::CutAddress => ByteOrigin::CutPart(place as u8),
            WordOrigin::Spread(bytes) => bytes[place],
        }
    }

    /// All bytes of the word.
    #[inline(never)]
    fn spread(&self) -> [ByteOrigin; 8]
        ensures { result ≡ spread self.now }
    {
        [
            self.byte(0),
            self.byte(1),
            self.byte(2),
            self.byte(3),
            self.byte(4),
            self.byte(5),
            self.byte(6),
            self.byte(7),
        ]
    }

    #[inline(always)]
    fn is_of_numbers(&self) -> bool
        ensures { result ≡ is_of_numbers self.now }
    {
        match self {
            WordOrigin::Numbers => true,
            WordOrigin::Address(_) | WordOrigin::CutAddress | WordOrigin::Spread(_) => false,
        }
    }
}

/// What a word is made of in which a value is stored.
#[inline(always)]
fn word_of(origin: Origin) -> WordOrigin
    ensures { result ≡ word_of origin }
{
    match origin {
        Origin::Number => WordOrigin::Numbers,
        Origin::Address(object) => WordOrigin::Address(object),
        Origin::Part(_, _) | Origin::Cut => WordOrigin::CutAddress,
        Origin::Mixed => WordOrigin::Spread([ByteOrigin::Mixed; 8]),
    }
}

/// What so many words of memory are made of. Specifications see the list of them.
#[derive(Drop)]
pub struct Region<A: Allocator> {
    words: Vec<WordOrigin, A>,
}

impl<A: Allocator> Model for Region<A> {
    ghost use Rattle.std.specs.Prelude.{List};
    ghost use Rattle.qil_shadow.specs.declared.region.WordOrigin.{WordOrigin};

    ghost Value = { List WordOrigin };

    ghost view = { λ r. r.words.items };
}

impl<A: Allocator + Copy> Region<A> {
    /// So many words, all of numbers.
    ///
    /// # Errors
    ///
    /// Out of memory.
    #[tactic(auto, using(crate::proofs::WordLemmas::kept_fresh))]
    pub fn new(alloc: A, count: usize) -> Result<Region<A>, AllocError>
        ensures count { IfOk result (λ r. length r ≡ count) }
        ensures numbers { IfOk result (λ r. kept r ≡ all_numbers) }
    {
        Ok(Region {
            words: vec![in alloc; WordOrigin::Numbers; count]?,
        })
    }
}

impl<A: Allocator> Region<A> {
    /// What the byte at a place is made of.
    #[tactic(auto, unfolding(crate::specs::Words::kept))]
    pub fn get(&self, at: usize) -> ByteOrigin
        requires { at < 8 * length self.now }
        ensures { result ≡ kept self.now at }
    {
        self.words[at / 8].byte(at % 8)
    }

    /// Sets what the byte at a place is made of.
    pub fn set(&mut self, at: usize, origin: ByteOrigin)
        requires { at < 8 * length self.old }
        ensures length { length self.new ≡ length self.old }
        ensures kept { kept self.new ≡ with_byte (kept self.old) at origin }
    {
        let mut bytes = self.words[at / 8].spread();
        bytes[at % 8] = origin;
        self.words[at / 8] = WordOrigin::Spread(bytes);
    }

    /// Makes a word, by its number, one of numbers.
    fn clear_word(&mut self, index: usize)
        requires { index < length self.old }
        ensures length { length self.new ≡ length self.old }
        ensures kept { kept self.new ≡ laid_origins (kept self.old) (8 * index) (replicate 8 ByteOrigin.Number) }
    {
        self.words[index] = WordOrigin::Numbers;
    }

    /// Makes so many words from one on, by their numbers, those of numbers.
    fn clear_words(&mut self, first: usize, count: usize)
        requires there { first + count ≤ length self.old }
        requires place { first + count ≤ 2 ^ 32 }
        ensures length { length self.new ≡ length self.old }
        ensures kept { kept self.new ≡ laid_origins (kept self.old) (8 * first) (replicate (8 * count) ByteOrigin.Number) }
    {
        for index in 0..count {
            self.clear_word(first + index);
        }
    }

    /// Makes so many bytes from a place on numbers, one by one.
    fn clear_bytes(&mut self, at: usize, count: usize)
        requires there { at + count ≤ 8 * length self.old }
        requires place { at + count ≤ 2 ^ 32 }
        ensures length { length self.new ≡ length self.old }
        ensures kept { kept self.new ≡ laid_origins (kept self.old) at (replicate count ByteOrigin.Number) }
    {
        for index in 0..count {
            self.clear_byte(at + index);
        }
    }

    /// Sets so many bytes from a place on to numbers.
    pub fn clear(&mut self, at: usize, count: usize)
        requires there { at + count ≤ 8 * length self.old }
        requires place { at + count ≤ 2 ^ 32 }
        ensures length { length self.new ≡ length self.old }
        ensures kept { kept self.new ≡ laid_origins (kept self.old) at (replicate count ByteOrigin.Number) }
    {
        if at % 8 == 0 && count % 8 == 0 {
            self.clear_words(at / 8, count / 8);
        } else {
            self.clear_bytes(at, count);
        }
    }

    /// Makes a byte a number.
    fn clear_byte(&mut self, at: usize)
        requires { at < 8 * length self.old }
        ensures length { length self.new ≡ length self.old }
        ensures kept { kept self.new ≡ with_byte (kept self.old) at ByteOrigin.Number }
    {
        if !self.words[at / 8].is_of_numbers() {
            self.set(at, ByteOrigin::Number);
        }
    }

    /// What a value of a class is made of that is loaded from so many bytes from a place on.
    #[inline(always)]
    pub fn load(&self, at: usize, count: usize, class: Class) -> Origin
        requires there { at + count ≤ 8 * length self.now }
        requires place { at ≤ 2 ^ 32 }
        requires some { 0 < count }
        requires few { count ≤ 8 }
        ensures { result ≡ joined class (origins_at (kept self.now) at count) }
    {
        if at % 8 + count <= 8 && self.words[at / 8].is_of_numbers() {
            return Origin::Number;
        }
        self.load_bytes(at, count, class)
    }

    /// The same byte by byte.
    #[inline(never)]
    fn load_bytes(&self, at: usize, count: usize, class: Class) -> Origin
        requires there { at + count ≤ 8 * length self.now }
        requires place { at ≤ 2 ^ 32 }
        requires few { count ≤ 8 }
        ensures { result ≡ joined class (origins_at (kept self.now) at count) }
    {
        let mut found = [ByteOrigin::Number; 8];
        for index in 0..count {
            found[index] = self.get(at + index);
        }
        joined(class, &found[..count])
    }

    /// Stores a value in so many bytes from a place on.
    #[inline(always)]
    pub fn store(&mut self, at: usize, count: usize, origin: Origin)
        requires there { at + count ≤ 8 * length self.old }
        requires place { at ≤ 2 ^ 32 }
        requires few { count ≤ 8 }
        ensures length { length self.new ≡ length self.old }
        ensures kept { kept self.new ≡ laid_origins (kept self.old) at (stored_origins count origin) }
    {
        if at % 8 == 0 && count == 8 {
            self.words[at / 8] = word_of(origin);
        } else {
            self.store_bytes(at, count, origin);
        }
    }

    /// The same byte by byte.
    #[inline(never)]
    fn store_bytes(&mut self, at: usize, count: usize, origin: Origin)
        requires there { at + count ≤ 8 * length self.old }
        requires place { at ≤ 2 ^ 32 }
        requires few { count ≤ 8 }
        ensures length { length self.new ≡ length self.old }
        ensures kept { kept self.new ≡ laid_origins (kept self.old) at (stored_origins count origin) }
    {
        for index in 0..count {
            self.store_byte(at + index, byte_of(count as u64, origin, index as u64));
        }
    }

    /// Sets what a byte is made of; one of numbers stays in its word.
    pub fn store_byte(&mut self, at: usize, origin: ByteOrigin)
        requires { at < 8 * length self.old }
        ensures length { length self.new ≡ length self.old }
        ensures kept { kept self.new ≡ with_byte (kept self.old) at origin }
    {
        match origin {
            ByteOrigin::Number => self.clear_byte(at),
            _ => self.set(at, origin),
        }
    }
}
