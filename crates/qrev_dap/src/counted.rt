//! A source that counts the bytes that were read of it.

ghost use Rattle.std.specs.Prelude.{◌≡◌};

use qil_streams::{DeviceFault, Source};
use std::cell::Cell;

/// A source, and where the number of bytes is kept that were read of it.
#[derive(Drop)]
pub struct Counted<'t, S> {
    source: S,
    taken: &'t Cell<u64>,
}

impl<'t, S: Source> Counted<'t, S> {
    /// A source of which nothing was read so far.
    pub fn new(source: S, taken: &'t Cell<u64>) -> Self
        ensures { result.source ≡ source }
    {
        Counted { source, taken }
    }
}

impl<'t, S: Source> Source for Counted<'t, S> {
    ghost remaining = { λ s. S.remaining s.source };

    ghost failures = { λ s. S.failures s.source };

    fn read(&mut self, into: &mut [u8]) -> Result<usize, DeviceFault> {
        let count = self.source.read(into)?;
        self.taken
            .set(self.taken.get().saturating_add(count as u64));
        Ok(count)
    }

    fn faults(&self) -> u64 {
        self.source.faults()
    }
}
