//! The lines of one source from which lines of the text came, and which of them a breakpoint means.

ghost use Rattle.std.specs.Prelude.{◌≡◌, IfOk, IfSome, IfNone};
ghost use Rattle.std.specs.List.Sorted.{IsPermutation};
ghost use Rattle.qrev_map.specs.Mappings.{Rise, AreBefore, IsFirstFrom, IsFrom};

use std::alloc::{AllocError, Allocator};

/// A line of a source, and a line of the text that came from it; both from 1 on.
#[derive(Clone, Copy)]
pub struct Mapping {
    pub line: u32,
    pub text_line: u32,
}

/// The mappings of one source, the lowest line of it first, and of one line the lowest line of the text.
#[derive(Drop)]
pub struct SourceFile<A: Allocator> {
    mappings: Vec<Mapping, A>,
}

impl<A: Allocator> SourceFile<A> {
    /// From mappings in any order.
    pub fn new(mut mappings: Vec<Mapping, A>) -> Result<SourceFile<A>, AllocError>
        ensures same { IfOk result (λ file. IsPermutation mappings.items file.mappings.items) }
        ensures rise { IfOk result (λ file. Rise file.mappings.items) }
    {
        mappings.sort_by_key(|mapping| mapping.text_line)?;
        // What is equal by this key keeps its order.
        mappings.sort_by_key(|mapping| mapping.line)?;
        Ok(SourceFile { mappings })
    }

    /// The mappings that aren't before a line.
    pub fn mappings_from(&self, line: u32) -> &[Mapping]
        ensures { Rise self.now.mappings.items → IsFrom line self.now.mappings.items result.now }
    {
        let mappings = self.mappings.as_slice();
        let first = mappings.partition_point(|mapping| mapping.line < line);
        &mappings[first..]
    }

    /// The mapping that a line means: the first that isn't before it.
    pub fn first_from(&self, line: u32) -> Option<Mapping>
        ensures first { Rise self.now.mappings.items → IfSome result (IsFirstFrom line self.now.mappings.items) }
        ensures none { Rise self.now.mappings.items → IfNone result (AreBefore line self.now.mappings.items) }
    {
        self.mappings_from(line).first().copied()
    }
}
