//! A history over checkpoints is one that a session runs along.

ghost use Rattle.std.specs.Prelude.{◌≡◌, ◌≢◌, ◌+◌, ◌<◌, ◌≤◌, ◌^◌, ◌↔◌, false, length, Ok, MatchResult};
ghost use Rattle.qil_semantics.specs.Timeline.{position, at_end};
ghost use Rattle.qil_semantics.specs.Moves.{forward_by};
ghost use Rattle.qil_semantics.specs.Runs.{RunsOn};
ghost use Rattle.qil_stops.specs.Listed.{AreReadable};
ghost use Rattle.qil_stops.specs.Named.{named_stops};
ghost use Rattle.qil_checkpoints.specs.Held.{held_timeline};

use crate::checkpoints::Checkpoints;
use crate::poked::KeptPoke;
use qil_history::HasProgram;
use qil_machine::PokeError;
use qil_semantics::Reason;
use qil_stops::{NumberedStop, Restorable};
use qil_undo_log::Runs;
use std::alloc::Allocator;

impl<A: Allocator + Copy, C: HasProgram<A>, M: Restorable<A, C>> Runs<A, C> for Checkpoints<A, M> {
    type Machine = M;

    ghost program = { λ history. (M.present history.machine).program };

    ghost timeline = { λ history. held_timeline M.present M.kept history };

    ghost wants_memory = { false };

    fn forward_by(&mut self, count: u32) -> Result<(), u32> {
        let _ = self.run_on(count as u64);
        Ok(())
    }

    fn back_by(&mut self, count: u32) {
        self.go_to(self.moves().saturating_sub(count as u64));
    }

    fn run(&mut self, stops: &[NumberedStop], limit: u64) -> (Reason, u64) {
        if stops.is_empty() {
            self.run_freely(limit)
        } else {
            self.run_watching(stops, limit)
        }
    }

    fn run_back(&mut self, stops: &[NumberedStop], limit: u64) -> (Reason, u64) {
        self.back_to_stop(stops, limit)
    }

    #[tactic(auto, using(qil_history::proofs::PokeLemmas::temp_never_dead))]
    fn poke_named(&mut self, name: &[u8], value: u64) -> Result<(), PokeError> {
        self.poke_temp(name, value)
    }

    #[tactic(auto, using(qil_history::proofs::PokeLemmas::memory_never_frameless, qil_history::proofs::PokeLemmas::memory_never_unknown))]
    fn poke_memory(&mut self, address: u64, width: u64, number: u64) -> Result<(), PokeError> {
        self.poke(KeptPoke::Bytes(address, width, number))
    }

    fn position(&self) -> u64 {
        self.moves()
    }

    fn oldest(&self) -> u64 {
        0
    }

    fn machine(&self) -> &M {
        self.reader()
    }
}
