//! Text that is put together.

ghost use Rattle.std.specs.Prelude.{◌≡◌, ◌++◌, [], decimal, OnOk};
ghost use Rattle.std.specs.List.{flat_map};
ghost use Rattle.qil_fragments.specs.Texts.{fragment_text};
ghost use Rattle.qrev_check.specs.Told.{plural, count_text};

use itoa::Buffer;
use qil_fragments::Fragment;
use std::alloc::{AllocError, Allocator};
use std::marker::Model;

/// The bytes of a text. Specifications see the list of them.
#[derive(Drop)]
pub struct Line<A: Allocator> {
    bytes: Vec<u8, A>,
}

impl<A: Allocator> Model for Line<A> {
    ghost use Rattle.std.specs.Prelude.{List, ℕ};

    ghost Value = { List ℕ };

    ghost view = { λ line. line.bytes.items };
}

/// What a word ends with, if it counts so many things.
fn plural(number: u64) -> &'static [u8]
    ensures { result.now ≡ plural number }
{
    if number == 1 { b"" } else { b"s" }
}

impl<A: Allocator> Line<A> {
    /// No bytes.
    pub fn new(alloc: A) -> Line<A>
        ensures { result ≡ [] }
    {
        Line {
            bytes: Vec::new(alloc),
        }
    }

    /// Adds bytes.
    ///
    /// # Errors
    ///
    /// Out of memory.
    pub fn put(&mut self, bytes: &[u8]) -> Result<(), AllocError>
        ensures { OnOk result (self.new ≡ self.old ++ bytes.now) }
    {
        self.bytes.extend_from_slice(bytes)?;
        Ok(())
    }

    /// Adds a number.
    fn put_number(&mut self, number: u64) -> Result<(), AllocError>
        ensures { OnOk result (self.new ≡ self.old ++ decimal number) }
    {
        let mut buffer = Buffer::new();
        self.put(buffer.format(number).as_bytes())
    }

    fn put_fragment(&mut self, fragment: Fragment<'_>) -> Result<(), AllocError>
        ensures { OnOk result (self.new ≡ self.old ++ fragment_text fragment.entry) }
    {
        match fragment {
            Fragment::Bytes(bytes) => self.put(bytes),
            Fragment::Number(number) => self.put_number(number),
        }
    }

    /// Adds fragments, one behind the other.
    ///
    /// # Errors
    ///
    /// Out of memory.
    pub fn put_all(&mut self, fragments: &[Fragment<'_>]) -> Result<(), AllocError>
        ensures { OnOk result (self.new ≡ self.old ++ flat_map fragment_text fragments.now) }
    {
        for fragment in fragments {
            self.put_fragment(*fragment)?;
        }
        Ok(())
    }

    /// Adds a number of things.
    ///
    /// # Errors
    ///
    /// Out of memory.
    pub fn put_count(&mut self, number: u64, thing: &[u8]) -> Result<(), AllocError>
        ensures { OnOk result (self.new ≡ self.old ++ count_text number thing.now) }
    {
        self.put_all(&[
            Fragment::Number(number),
            Fragment::Bytes(b" "),
            Fragment::Bytes(thing),
            Fragment::Bytes(plural(number)),
        ])
    }

    /// All bytes.
    pub fn bytes(&self) -> &[u8]
        ensures { result.now ≡ self.now }
    {
        self.bytes.as_slice()
    }
}
