//! Objects: what addresses are made from.

ghost use Rattle.std.specs.Prelude.{◌≡◌, ◌<◌, true, None, [], ◌∷◌, ◌++◌, length, map, find, slice_get, All, IfSome, OnOk, MatchResult};
ghost use Rattle.std.specs.Option.{option_copied};
ghost use Rattle.qil_shadow.specs.Numbered.{has_bytes, is_function};
ghost use Rattle.qil_shadow.specs.Table.{no_objects, of_stack, object_at, ends_with, with_object, with_fixed, with_data, has_one, IsFixed, IsLow, IsBelow, IsWithin, IsAscending, IsOnlyAt, HasFound};

use crate::origin::ObjectId;
use qil_code::Slot;
use qil_layout::FuncId;
use std::alloc::{AllocError, Allocator};
use std::marker::Model;

/// A function that every program has.
#[derive(Clone, Copy, PartialEq, Eq)]
pub enum BuiltIn {
    PutChar,
    Puts,
    Exit,
}

/// What an object is.
#[derive(Clone, Copy)]
pub enum ObjectKind {
    /// The data of that number in the text.
    Data(u32),
    Func(FuncId),
    BuiltIn(BuiltIn),
    /// What a temporary of a function was given by an `alloc`.
    Slot(FuncId, Slot),
}

/// Where an object lies, when it was made, while how many calls were not over, and when it ended.
#[derive(Clone, Copy)]
pub struct Object {
    pub kind: ObjectKind,
    pub address: u64,
    pub size: u64,
    pub made: u64,
    pub depth: u32,
    pub ended: Option<u64>,
}

impl Object {
    /// Whether so many bytes from an address on are all in it.
    #[inline(always)]
    pub fn contains(&self, address: u64, count: u64) -> bool
        ensures { result ≡ has_bytes self.now address count }
    {
        if address < self.address {
            return false;
        }
        let offset = address - self.address;
        offset <= self.size && count <= self.size - offset
    }

    /// Whether it is a function.
    pub fn is_function(&self) -> bool
        ensures { result ≡ is_function self.now.kind }
    {
        match self.kind {
            ObjectKind::Func(_) | ObjectKind::BuiltIn(_) => true,
            ObjectKind::Data(_) | ObjectKind::Slot(_, _) => false,
        }
    }
}

/// Whether the starts of data are still all apart with one more, behind which they ascend.
fn are_apart_with(are_apart: bool, starts: &[u64], address: u64) -> bool
    ensures { result ≡ true → (are_apart ≡ true) × (IsAscending starts.now → IsAscending (starts.now ++ address ∷ [])) }
{
    match starts.last() {
        Some(last) => are_apart && *last < address,
        None => are_apart,
    }
}

/// The first of some objects that has a byte.
fn first_with(objects: &[Object], address: u64) -> Option<&Object>
    ensures { option_copied result ≡ find (has_one address) objects.now }
{
    for object in objects {
        if object.contains(address, 1) {
            return Some(object);
        }
    }
    None
}

/// The last of the objects of some numbers that has a byte.
fn last_with<'o>(all: &'o [Object], numbers: &[u32], address: u64) -> Option<&'o Object>
    requires { All (λ i. i < length all.now) numbers.now }
    ensures { HasFound all.now numbers.now address (option_copied result) }
{
    for back in 0..numbers.len() {
        let index = numbers[numbers.len() - 1 - back];
        let object = &all[index as usize];
        if object.contains(address, 1) {
            return Some(object);
        }
    }
    None
}

/// All objects that there were, and which of the stack are living, in the order in which they were made. Specifications see all,
/// how many there are from the start on, and where the data begin.
#[derive(Drop)]
pub struct Objects<A: Allocator> {
    all: Vec<Object, A>,
    /// How many of them there are from the start on.
    fixed: usize,
    living: Vec<u32, A>,
    /// The addresses of the data, which are the first of all.
    starts: Vec<u64, A>,
    /// No two objects of the data begin at one address.
    are_apart: bool,
}

impl<A: Allocator> Model for Objects<A> {
    ghost use Rattle.qil_shadow.specs.Table.{ObjectTable, IsTable};

    ghost Value = { ObjectTable };

    ghost view = { λ o. record { objects = o.all.items; fixed = o.fixed; starts = o.starts.items } };

    ghost invariant = { λ o. IsTable o.all.items o.fixed o.living.items o.starts.items o.are_apart };
}

impl<A: Allocator + Copy> Objects<A> {
    /// None.
    pub fn new(alloc: A) -> Objects<A>
        ensures { result ≡ no_objects }
    {
        Objects {
            all: Vec::new(alloc),
            fixed: 0,
            living: Vec::new(alloc),
            starts: Vec::new(alloc),
            are_apart: true,
        }
    }
}

impl<A: Allocator> Objects<A> {
    /// Adds one of the data, which are added in the order of their addresses before all others.
    ///
    /// # Errors
    ///
    /// Out of memory.
    pub fn add_data(&mut self, object: Object) -> Result<(), AllocError>
        requires first { self.old.fixed ≡ length self.old.objects }
        requires stays { IsFixed object }
        requires low { IsLow object }
        ensures { MatchResult result (λ _. self.new ≡ with_data self.old object) (λ _. self.new ≡ self.old) }
    {
        self.starts.reserve(1)?;
        self.all.push(object)?;
        self.are_apart = are_apart_with(self.are_apart, self.starts.as_slice(), object.address);
        self.starts.push_reserved(object.address);
        self.fixed = self.all.len();
        Ok(())
    }

    /// The object of the data that begins at an address, where no other does.
    pub fn data_at(&self, address: u64) -> Option<ObjectId>
        ensures { IfSome result (λ o. IsOnlyAt address o.index self.now.starts) }
    {
        if !self.are_apart {
            return None;
        }
        let starts = self.starts.as_slice();
        let index = starts.partition_point(|start| *start < address);
        if *starts.get(index)? != address {
            return None;
        }
        if index >= 4_294_967_295 {
            return None;
        }
        Some(ObjectId {
            index: index as u32,
        })
    }

    /// Adds one that is there from the start on.
    ///
    /// # Errors
    ///
    /// Out of memory.
    pub fn add_fixed(&mut self, object: Object) -> Result<(), AllocError>
        requires first { self.old.fixed ≡ length self.old.objects }
        requires stays { IsFixed object }
        requires low { IsLow object }
        ensures { MatchResult result (λ _. self.new ≡ with_fixed self.old object) (λ _. self.new ≡ self.old) }
    {
        self.all.push(object)?;
        self.fixed = self.all.len();
        Ok(())
    }

    /// Adds one of the stack, above all that are living, and made in no call but the innermost.
    ///
    /// # Errors
    ///
    /// Out of memory, and where there would be 2^32.
    pub fn add(&mut self, object: Object) -> Result<ObjectId, AllocError>
        requires lives { object.ended ≡ None }
        requires low { IsLow object }
        requires above { All (λ o. IsBelow o object) (of_stack self.old) }
        ensures made { MatchResult result (λ id. (self.new ≡ with_object self.old object) × (id.index ≡ length self.old.objects)) (λ _. self.new ≡ self.old) }
        ensures top { OnOk result (of_stack self.new ≡ of_stack self.old ++ object ∷ []) }
    {
        let count = self.all.len();
        if count >= 4_294_967_295 {
            return Err(AllocError);
        }
        let index = count as u32;
        self.living.reserve(1)?;
        self.all.push(object)?;
        self.living.push_reserved(index);
        Ok(ObjectId { index })
    }

    /// What is so of all, with nothing to run: each ends below 2^64.
    #[inline(always)]
    pub fn are_low(&self)
        ensures { All IsLow self.now.objects }
    {
        let _ = &self.all;
    }

    /// The object of a number.
    #[inline(always)]
    pub fn get(&self, object: ObjectId) -> Option<&Object>
        ensures { option_copied result ≡ slice_get self.now.objects object.index }
    {
        self.all.as_slice().get(object.index as usize)
    }

    /// Ends what was made while so many calls were not over.
    pub fn end(&mut self, depth: u32, position: u64)
        requires called { 0 < depth }
        requires innermost { All (IsWithin depth) (of_stack self.old) }
        ensures { self.new ≡ record self.old { objects = map (ends_with depth position) self.old.objects } }
    {
        for _ in 0..self.living.len() {
            match self.living.as_slice().last().copied() {
                Some(index) => {
                    if self.all[index as usize].depth != depth {
                        return;
                    }
                    self.all[index as usize].ended = Some(position);
                    let _ = self.living.pop();
                }
                None => return,
            }
        }
    }

    /// The living object in which a byte lies.
    pub fn at(&self, address: u64) -> Option<&Object>
        ensures { option_copied result ≡ object_at self.now.objects address }
    {
        match first_with(&self.all.as_slice()[..self.fixed], address) {
            Some(object) => Some(object),
            None => last_with(self.all.as_slice(), self.living.as_slice(), address),
        }
    }
}
