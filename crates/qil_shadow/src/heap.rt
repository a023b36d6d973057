//! The blocks of a heap, by the functions that make and free them. Nothing is suspicious here: it says where another pass should
//! look.

ghost use Rattle.std.specs.Prelude.{◌≡◌, [], None};

use crate::origin::ObjectId;
use qil_layout::FuncId;
use std::alloc::{AllocError, Allocator};

/// What a function of the heap does, and the arguments that it takes for it.
#[derive(Clone, Copy, PartialEq, Eq)]
pub enum HeapRole {
    /// Makes a block: of its size.
    Take,
    /// Makes a block of zeros: of how many parts, and the size of one.
    Calloc,
    /// Makes a block in the place of another: of its address, and the new size.
    Realloc,
    /// Makes a block at a multiple of a number: of that and the size.
    Memalign,
    /// Frees a block: of its address.
    Give,
    /// Looks at a block.
    Look,
}

/// The number of the first block. Those of all other objects are below: that many of them take more memory than there is.
const FIRST_BLOCK: u32 = 2_147_483_648;
/// No block has more bytes: this is more than memory has.
const MOST_BLOCK: u64 = 2_097_152;

/// A block, which may have been freed.
#[derive(Clone, Copy)]
pub(crate) struct Block {
    pub address: u64,
    pub size: u64,
    pub is_living: bool,
}

/// Whether so many bytes from an address on are all in so many from another one on.
fn is_within(address: u64, count: u64, begin: u64, size: u64) -> bool {
    if address < begin {
        return false;
    }
    let offset = address - begin;
    offset <= size && count <= size - offset
}

impl Block {
    /// Whether so many bytes from an address on are all in it.
    pub(crate) fn contains(&self, address: u64, count: u64) -> bool {
        is_within(address, count, self.address, self.size)
    }
}

/// Where a living block lies, and its place among all blocks.
#[derive(Clone, Copy)]
struct Living {
    address: u64,
    size: u64,
    index: u32,
}

/// A call of a function of the heap that no other one of them made: its first two arguments, and the block that it was given.
#[derive(Clone, Copy)]
pub(crate) struct HeapCall {
    pub role: HeapRole,
    pub first: u64,
    pub second: u64,
    pub block: Option<u32>,
}

impl HeapCall {
    /// How many bytes were asked for.
    pub(crate) fn size(&self) -> u64 {
        let asked = match self.role {
            HeapRole::Take | HeapRole::Give | HeapRole::Look => self.first,
            HeapRole::Calloc => self.first.saturating_mul(self.second),
            HeapRole::Realloc | HeapRole::Memalign => self.second,
        };
        asked.min(MOST_BLOCK)
    }

    /// Whether it makes a block.
    pub(crate) fn makes(&self) -> bool {
        match self.role {
            HeapRole::Take | HeapRole::Calloc | HeapRole::Realloc | HeapRole::Memalign => true,
            HeapRole::Give | HeapRole::Look => false,
        }
    }
}

/// All blocks that there were, and the call of the heap that is not over.
#[derive(Drop)]
pub(crate) struct Heap<A: Allocator> {
    /// What functions do, by their numbers. Without a heap there are none.
    roles: Vec<Option<HeapRole>, A>,
    blocks: Vec<Block, A>,
    /// The living ones that have bytes, in the order of their addresses. They share none.
    living: Vec<Living, A>,
    /// How many calls of functions of the heap are not over.
    depth: u32,
    /// The outermost of them.
    call: Option<HeapCall>,
}

impl<A: Allocator + Copy> Heap<A> {
    /// No function is one of the heap.
    pub(crate) fn new(alloc: A) -> Heap<A>
        ensures { result.roles.items ≡ [] }
    {
        Heap {
            roles: Vec::new(alloc),
            blocks: Vec::new(alloc),
            living: Vec::new(alloc),
            depth: 0,
            call: None,
        }
    }
}

impl<A: Allocator> Heap<A> {
    /// Gives a function a role.
    ///
    /// # Errors
    ///
    /// Out of memory.
    pub(crate) fn know(&mut self, func: FuncId, role: HeapRole) -> Result<(), AllocError> {
        let index = usize::from(func.index);
        if self.roles.len() <= index {
            self.roles.resize(index + 1, None)?;
        }
        if index < self.roles.len() {
            self.roles[index] = Some(role);
        }
        Ok(())
    }

    /// Whether some function has a role.
    #[inline(always)]
    pub(crate) fn is_known(&self) -> bool {
        !self.roles.is_empty()
    }

    /// What a function does.
    pub(crate) fn role(&self, func: FuncId) -> Option<HeapRole>
        ensures { self.now.roles.items ≡ [] → result ≡ None }
    {
        match self.roles.as_slice().get(usize::from(func.index)) {
            Some(role) => *role,
            None => None,
        }
    }

    /// Whether a call of a function of the heap is not over.
    pub(crate) fn is_inside(&self) -> bool {
        self.depth > 0
    }

    /// Adds a call of a function of the heap.
    pub(crate) fn enter(&mut self, role: HeapRole, first: u64, second: u64)
        ensures { self.new.roles.items ≡ self.old.roles.items }
    {
        self.call = self.outermost(role, first, second);
        self.depth = self.depth.saturating_add(1);
    }

    /// The outermost call of the heap that is not over, with one more: that one, if there is no other.
    fn outermost(&self, role: HeapRole, first: u64, second: u64) -> Option<HeapCall> {
        if self.depth > 0 {
            return self.call;
        }
        let block = match role {
            HeapRole::Give | HeapRole::Realloc => self.beginning_at(first),
            _ => None,
        };
        Some(HeapCall {
            role,
            first,
            second,
            block,
        })
    }

    /// Ends the innermost call of a function of the heap. If no other one has made it this is what was called.
    pub(crate) fn leave(&mut self) -> Option<HeapCall> {
        if self.depth == 0 {
            return None;
        }
        self.depth -= 1;
        if self.depth > 0 {
            return None;
        }
        self.call
    }

    /// The block of the number of an object, if it is one.
    pub(crate) fn block(&self, object: ObjectId) -> Option<Block> {
        if object.index < FIRST_BLOCK {
            return None;
        }
        self.numbered(object.index - FIRST_BLOCK)
    }

    /// The block at a place among all of them.
    pub(crate) fn numbered(&self, index: u32) -> Option<Block> {
        self.blocks.as_slice().get(index as usize).copied()
    }

    /// How many living blocks begin at an address or before it.
    fn count_up_to(&self, address: u64) -> usize {
        self.living
            .as_slice()
            .partition_point(|block| block.address <= address)
    }

    /// The last of the living blocks that begin at an address or before it.
    fn last_up_to(&self, address: u64) -> Option<Living> {
        let last = self.count_up_to(address).checked_sub(1)?;
        self.living.as_slice().get(last).copied()
    }

    /// The living block that begins at an address, by its place among all.
    pub(crate) fn beginning_at(&self, address: u64) -> Option<u32> {
        let block = self.last_up_to(address)?;
        if block.address == address {
            Some(block.index)
        } else {
            None
        }
    }

    /// The living block in which a byte lies.
    pub(crate) fn at(&self, address: u64) -> Option<Block> {
        let block = self.last_up_to(address)?;
        if is_within(address, 1, block.address, block.size) {
            self.numbered(block.index)
        } else {
            None
        }
    }

    /// Whether a living block shares a byte with what lies at an address and has a size, or has it inside.
    pub(crate) fn overlaps(&self, address: u64, size: u64) -> bool {
        let end = address.saturating_add(size);
        if end == 0 {
            return false;
        }
        match self.last_up_to(end - 1) {
            Some(block) => address < block.address.saturating_add(block.size),
            None => false,
        }
    }

    /// Adds a block.
    ///
    /// # Errors
    ///
    /// Out of memory, and where there would be 2^31.
    pub(crate) fn add(&mut self, address: u64, size: u64) -> Result<ObjectId, AllocError> {
        let count = self.blocks.len();
        if count >= 2_147_483_647 {
            return Err(AllocError);
        }
        let index = count as u32;
        self.blocks.push(Block {
            address,
            size,
            is_living: true,
        })?;
        let at = self.count_up_to(address);
        if size > 0 && at <= self.living.len() {
            self.living.insert(
                at,
                Living {
                    address,
                    size,
                    index,
                },
            )?;
        }
        Ok(ObjectId {
            index: FIRST_BLOCK + index,
        })
    }

    /// Where a block is among the living ones that have bytes.
    fn place_of(&self, block: Block, index: u32) -> Option<usize> {
        let last = self.count_up_to(block.address).checked_sub(1)?;
        if self.living.as_slice().get(last)?.index == index {
            Some(last)
        } else {
            None
        }
    }

    /// Ends a block, by its place among all.
    pub(crate) fn end(&mut self, index: u32) {
        let Some(block) = self.numbered(index) else {
            return;
        };
        if !block.is_living {
            return;
        }
        if let Some(at) = self.place_of(block, index) {
            if at < self.living.len() {
                let _ = self.living.remove(at);
            }
        }
        if (index as usize) < self.blocks.len() {
            self.blocks[index as usize].is_living = false;
        }
    }
}
