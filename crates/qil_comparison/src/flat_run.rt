//! A run of a flat machine from its start, which keeps nothing of its moves.

ghost use Rattle.std.specs.Prelude.{◌≡◌, ◌+◌, ◌<◌, ◌≤◌, ◌⊎◌, ◌^◌, ℕ, [], true, false, Some, Ok, IfOk};
ghost use Rattle.qil_semantics.specs.Timeline.{position, moved, at_end};
ghost use Rattle.qil_semantics.specs.Start.{start_of};
ghost use Rattle.qil_state.specs.State.{state_of};

use qil_code::{Code, Slot};
use qil_compare::Forward;
use qil_flat::FlatCode;
use qil_flatmachine::FlatMachine;
use qil_history::{FrameView, Readers};
use qil_machine::StartError;
use qil_state::Status;
use std::alloc::Allocator;
use std::marker::Model;

/// A machine, and how many steps were made since its start.
#[derive(Drop)]
pub struct FlatRun<'c, A: Allocator> {
    machine: FlatMachine<'c, A>,
    moves: u64,
}

impl<'c, A: Allocator> Model for FlatRun<'c, A> {
    ghost use Rattle.qil_comparison.specs.Running.{Running};

    ghost Value = { Running A };

    ghost view = { λ r. record { whole = r.machine.whole; moves = r.moves } };
}

impl<'c, A: Allocator + Copy> FlatRun<'c, A> {
    /// A run at the start of a function of the program, whose name is without its sigil. All memory that it will want is taken here.
    ///
    /// # Errors
    ///
    /// `NoEntry`, then `ArgumentCount`, then `OutOfMemory`.
    pub fn start<'t>(
        alloc: A,
        code: &'c FlatCode<'t, A>,
        name: &[u8],
        args: &[u64],
    ) -> Result<FlatRun<'c, A>, StartError>
        ensures ok { IfOk result (λ r. start_of code.entry.now.program name.now args.now ≡ Ok (state_of r.whole)) }
        ensures program { IfOk result (λ r. r.whole.program ≡ code.entry.now.program) }
        ensures start { IfOk result (λ r. r.moves ≡ 0) }
    {
        match FlatMachine::start(alloc, code, name, args) {
            Ok(machine) => Ok(FlatRun { machine, moves: 0 }),
            Err(error) => Err(error),
        }
    }
}

impl<'c, A: Allocator + Copy> Readers<A, Code<'c, A>> for FlatRun<'c, A> {
    ghost whole = { λ r. r.whole };

    fn code(&self) -> &Code<'c, A> {
        self.machine.code()
    }

    fn status(&self) -> Status {
        self.machine.status()
    }

    fn depth(&self) -> usize {
        self.machine.depth()
    }

    fn frame(&self, inner: usize) -> Option<FrameView<'_>> {
        self.machine.frame(inner)
    }

    fn output(&self) -> &[u8] {
        self.machine.output()
    }

    fn byte_after(&self, address: u64, offset: u64) -> Option<u8> {
        self.machine.byte_after(address, offset)
    }

    fn value(&self, slot: Slot) -> Option<u64> {
        self.machine.value(slot)
    }
}

impl<'c, A: Allocator + Copy> Forward<A, Code<'c, A>> for FlatRun<'c, A> {
    ghost timeline = { λ r. record { now = state_of r.whole; past = []; forgotten = r.moves; keeps = Some 0 } };

    fn run(&mut self, count: u64) -> u64 {
        let made = self.machine.run(count);
        self.moves += made;
        made
    }

    fn position(&self) -> u64 {
        self.moves
    }

    fn is_read(&self) {}
}
