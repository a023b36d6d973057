//! A history of a machine runs by its single moves.

ghost use Rattle.std.specs.Prelude.{◌≡◌, ◌≢◌, ◌+◌, ◌<◌, ◌≤◌, ◌^◌, ◌↔◌, true};

use crate::runs::Runs;
use crate::walk::{back_by, forward_by};
use crate::{BoundedUndoLog, UndoLog};
use qil_code::Code;
use qil_semantics::Reason;
use qil_stops::{History, Machine, NumberedStop, PokeError, machine_of, run, run_back};
use std::alloc::Allocator;

/// Marks a history that goes by single moves: each of these has runs by the one `impl` below. Without the mark no type could have
/// runs of its own, since a crate above may still make any type a `History`.
pub trait Stepwise {}

impl<'c, A: Allocator> Stepwise for UndoLog<'c, A> {}

impl<'c, A: Allocator> Stepwise for BoundedUndoLog<'c, A> {}

impl<'c, A: Allocator + Copy + 'c, H: History<A, Machine<'c, A>> + Stepwise> Runs<A, Code<'c, A>>
    for H {
    type Machine = Machine<'c, A>;

    ghost program = { λ history. H.program history };

    ghost timeline = { λ history. H.timeline history };

    ghost wants_memory = { true };

    fn forward_by(&mut self, count: u32) -> Result<(), u32> {
        forward_by(self, count)
    }

    fn back_by(&mut self, count: u32) {
        back_by(self, count)
    }

    fn run(&mut self, stops: &[NumberedStop], limit: u64) -> (Reason, u64) {
        run(self, stops, limit)
    }

    fn run_back(&mut self, stops: &[NumberedStop], limit: u64) -> (Reason, u64) {
        run_back(self, stops, limit)
    }

    fn poke_named(&mut self, name: &[u8], value: u64) -> Result<(), PokeError> {
        History::poke_named(self, name, value)
    }

    fn poke_memory(&mut self, address: u64, width: u64, number: u64) -> Result<(), PokeError> {
        History::poke_memory(self, address, width, number)
    }

    fn position(&self) -> u64 {
        History::position(self)
    }

    fn oldest(&self) -> u64 {
        History::oldest(self)
    }

    fn machine(&self) -> &Machine<'c, A> {
        machine_of(self)
    }
}
