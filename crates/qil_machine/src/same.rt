//! Equal machines: the test, and the making of one.

ghost use Rattle.std.specs.Prelude.{◌≡◌, ◌↔◌, IsTrue, IfOk};

use crate::machine::Machine;
use qil_state::Status;
use std::alloc::{AllocError, Allocator};

/// Whether two runs go on, or have ended in the same way.
fn is_same(one: Status, other: Status) -> bool
    ensures { IsTrue result ↔ (one ≡ other) }
{
    one == other
}

impl<'c, A: Allocator + Copy> Machine<'c, A> {
    /// Whether two machines of one program are equal in all that they hold, dead bytes of memory too. It takes no memory.
    pub fn same(&self, other: &Machine<'_, A>) -> bool
        requires { self.now.program ≡ other.now.program }
        ensures { IsTrue result ↔ (self.now ≡ other.now) }
    {
        is_same(self.status, other.status)
            && self.output.as_slice() == other.output.as_slice()
            && self.frames.same(&other.frames)
            && self.memory.same(&other.memory)
    }

    /// An equal machine, over the same code, with as much room for output.
    pub fn try_clone(&self) -> Result<Machine<'c, A>, AllocError>
        ensures { IfOk result (λ m. m ≡ self.now) }
    {
        let frames = self.frames.try_clone()?;
        let memory = self.memory.try_clone()?;
        let mut output = Vec::with_capacity(*self.output.allocator(), self.output.capacity())?;
        output.extend_from_slice(self.output.as_slice())?;
        Ok(Machine {
            code: self.code,
            frames,
            memory,
            output,
            status: self.status,
        })
    }
}
