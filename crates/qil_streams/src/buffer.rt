//! A text in memory that texts are put into.

ghost use Rattle.std.specs.Prelude.{◌≡◌, [], Some};

use crate::put::{Put, PutError};
use std::alloc::Allocator;

/// A text in memory, which grows by what is put into it.
#[derive(Drop)]
pub struct Buffer<A: Allocator> {
    text: Vec<u8, A>,
    refused: u64,
}

impl<A: Allocator> Buffer<A> {
    /// Nothing was put so far, and it holds no memory.
    pub fn new(alloc: A) -> Self
        ensures written { ⟦<Buffer<A> as Put>⟧.written result ≡ Some [] }
        ensures stops { ⟦<Buffer<A> as Put>⟧.stops result ≡ 0 }
    {
        Buffer {
            text: Vec::new(alloc),
            refused: 0,
        }
    }

    /// What was put so far.
    pub fn bytes(&self) -> &[u8]
        ensures { ⟦<Buffer<A> as Put>⟧.written self.now ≡ Some result.now }
    {
        self.text.as_slice()
    }

    /// How many puts found no memory.
    pub fn refused(&self) -> u64
        ensures { result ≡ ⟦<Buffer<A> as Put>⟧.stops self.now }
    {
        self.refused
    }

    /// Takes away all that was put, and begins to count anew. The memory is kept.
    pub fn clear(&mut self)
        ensures written { ⟦<Buffer<A> as Put>⟧.written self.new ≡ Some [] }
        ensures stops { ⟦<Buffer<A> as Put>⟧.stops self.new ≡ 0 }
    {
        self.text.clear();
        self.refused = 0;
    }
}

/// It stops where no memory is found, and then it has put none of the bytes.
impl<A: Allocator> Put for Buffer<A> {
    ghost use Rattle.std.specs.Prelude.{Some};

    ghost written = { λ s. Some s.text.items };

    ghost stops = { λ s. s.refused };

    ghost device = { λ _. 0 };

    fn put(&mut self, bytes: &[u8]) -> Result<(), PutError> {
        match self.text.extend_from_slice(bytes) {
            Ok(()) => Ok(()),
            Err(_) => {
                self.refused += 1;
                Err(PutError)
            }
        }
    }
}
