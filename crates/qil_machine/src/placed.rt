//! A law of machines: their frames stand in their program.

ghost use Rattle.qil_state.specs.State.{state_of};
ghost use Rattle.qil_machine.specs.Placed.{ArePlaced};

use crate::machine::Machine;
use qil_code::BlockId;
use qil_layout::FuncId;
use std::alloc::Allocator;

impl<'c, A: Allocator + Copy> Machine<'c, A> {
    /// Each frame is in a function and a block of the program, at an instruction or at the jump, and the program has the
    /// blocks that the jump may go to. So no step of a machine is one of those that the definitions have only to be total,
    /// where a function, a block or a label isn't there and the state stays as it is. It does nothing.
    pub fn is_placed(&self)
        ensures { ArePlaced self.now.program (state_of self.now).frames }
    {
        // Reading a block makes known what the code keeps.
        let _ = self.code.block(FuncId { index: 0 }, BlockId { index: 0 });
    }
}
