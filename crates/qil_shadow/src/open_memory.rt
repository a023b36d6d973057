//! Which bits of memory may be open: those of a fresh object of the stack, until something is stored there.

ghost use Rattle.std.specs.Prelude.{◌≤◌, ◌^◌, IfSome};

use qil_memory::{CAPACITY, DATA_BASE, STACK_BASE};
use std::alloc::{AllocError, Allocator};

/// How many words of eight bytes the data and the stack have at most, each.
const WORDS: usize = 131_072;

/// The open bits of some bytes in a row, by words of eight. Bytes behind the last word have none.
#[derive(Drop)]
struct OpenWords<A: Allocator> {
    words: Vec<u64, A>,
}

impl<A: Allocator + Copy> OpenWords<A> {
    fn new(alloc: A) -> Result<OpenWords<A>, AllocError> {
        Ok(OpenWords {
            words: vec![in alloc; 0; WORDS]?,
        })
    }
}

impl<A: Allocator> OpenWords<A> {
    #[inline(always)]
    fn word(&self, index: usize) -> u64 {
        match self.words.as_slice().get(index) {
            Some(word) => *word,
            None => 0,
        }
    }

    /// The bits of the eight bytes from a place on.
    #[inline(always)]
    fn eight(&self, at: usize) -> u64
        requires { at ≤ 2 ^ 32 }
    {
        let shift = 8 * (at % 8) as u32;
        let low = self.word(at / 8) >> shift;
        if shift == 0 {
            low
        } else {
            low | (self.word(at / 8 + 1) << (64 - shift))
        }
    }

    /// Replaces the bits of a mask in a word.
    #[inline(always)]
    fn replace(&mut self, index: usize, mask: u64, open: u64) {
        if index < self.words.len() {
            self.words[index] = (self.words[index] & (mask ^ u64::MAX)) | (open & mask);
        }
    }

    /// Replaces the bits of a mask in the eight bytes from a place on.
    #[inline(always)]
    fn replace_eight(&mut self, at: usize, mask: u64, open: u64)
        requires { at ≤ 2 ^ 32 }
    {
        let shift = 8 * (at % 8) as u32;
        self.replace(at / 8, mask << shift, open << shift);
        if shift != 0 {
            self.replace(at / 8 + 1, mask >> (64 - shift), open >> (64 - shift));
        }
    }
}

/// The bits of so many bytes, eight at most.
#[inline(always)]
fn byte_bits(count: u64) -> u64 {
    match count {
        0 => 0,
        1 => 255,
        2 => 65_535,
        4 => 4_294_967_295,
        _ => u64::MAX,
    }
}

/// The open bits of the data and of the stack.
#[derive(Drop)]
pub(crate) struct OpenMemory<A: Allocator> {
    data: OpenWords<A>,
    stack: OpenWords<A>,
}

/// How far an address lies in what begins at another one, if it lies there.
#[inline(always)]
fn offset_in(address: u64, base: u64) -> Option<usize>
    ensures { IfSome result (λ at. at ≤ 2 ^ 32) }
{
    if address >= base && address - base <= CAPACITY {
        Some((address - base) as usize)
    } else {
        None
    }
}

impl<A: Allocator + Copy> OpenMemory<A> {
    /// All bits are set.
    pub(crate) fn new(alloc: A) -> Result<OpenMemory<A>, AllocError> {
        Ok(OpenMemory {
            data: OpenWords::new(alloc)?,
            stack: OpenWords::new(alloc)?,
        })
    }
}

impl<A: Allocator> OpenMemory<A> {
    /// The open bits of 1, 2, 4 or 8 bytes from an address on.
    #[inline(always)]
    pub(crate) fn load(&self, address: u64, count: u64) -> u64 {
        if let Some(at) = offset_in(address, STACK_BASE) {
            return self.stack.eight(at) & byte_bits(count);
        }
        match offset_in(address, DATA_BASE) {
            Some(at) => self.data.eight(at) & byte_bits(count),
            None => 0,
        }
    }

    /// Sets the open bits of 1, 2, 4 or 8 bytes from an address on.
    #[inline(always)]
    pub(crate) fn store(&mut self, address: u64, count: u64, open: u64) {
        if let Some(at) = offset_in(address, STACK_BASE) {
            self.stack.replace_eight(at, byte_bits(count), open);
        } else if let Some(at) = offset_in(address, DATA_BASE) {
            self.data.replace_eight(at, byte_bits(count), open);
        }
    }

    /// All bits of so many bytes from an address on are open.
    pub(crate) fn open(&mut self, address: u64, count: u64) {
        for word in 0..count / 8 {
            self.store(address.saturating_add(8 * word), 8, u64::MAX);
        }
        for byte in 0..count % 8 {
            self.store(address.saturating_add(count - 1 - byte), 1, 255);
        }
    }

    /// Copies the open bits of so many bytes, which share none but the same.
    pub(crate) fn copy(&mut self, source: u64, target: u64, count: u64) {
        for index in 0..count {
            let open = self.load(source.saturating_add(index), 1);
            self.store(target.saturating_add(index), 1, open);
        }
    }

    /// Whether a bit of so many bytes from an address on may be open.
    pub(crate) fn has_open(&self, address: u64, count: u64) -> bool {
        for index in 0..count {
            if self.load(address.saturating_add(index), 1) != 0 {
                return true;
            }
        }
        false
    }
}
