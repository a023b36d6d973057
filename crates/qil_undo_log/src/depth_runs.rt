//! Runs over calls: to where no more calls are open than were asked for.

ghost use Rattle.std.specs.Prelude.{◌≡◌, ◌+◌, ◌≤◌, ◌^◌};
ghost use Rattle.qil_tree.specs.declared.tree.Program.{Program};
ghost use Rattle.qil_semantics.specs.Timeline.{Timeline, position};
ghost use Rattle.qil_stops.specs.Named.{named_stops};
ghost use Rattle.qil_stops.specs.Depths.{RunsToDepth, RunsBackToDepth};

use crate::stepwise::Stepwise;
use qil_code::Code;
use qil_history::HasProgram;
use qil_stops::{DepthEnd, History, Machine, Stops, run_back_to_depth, run_to_depth};
use std::alloc::Allocator;

/// The states of a run, along which it is run over calls. All that is a `History` of a machine runs so by its single moves.
///
/// It stands apart from `Runs`: no command makes such a run, and where a history becomes known all that its bounds promise is
/// compared. A user is generic in `H: DepthRuns<A, Code<'c, A>>`, under `A: Allocator + 'c`.
pub trait DepthRuns<A: Allocator, C: HasProgram<A>> {
    /// What is run. No move changes it.
    ghost program: { Self → Program A };

    ghost timeline: { Self → Timeline };

    /// Moves forward to the first place, after a move, where at most `most` calls are open, or where there is a reason to stop:
    /// at the end of the run, where a stop holds after a move, or after `limit` moves; or where there is no memory for a move.
    /// Gives why, and how many moves were made.
    fn run_to_depth(&mut self, stops: &Stops<A>, most: usize, limit: u64) -> (DepthEnd, u64)
        requires { position (timeline self.old) + limit ≤ 2 ^ 62 }
        ensures program { program self.new ≡ program self.old }
        ensures run { RunsToDepth (program self.old) (named_stops (program self.old) stops.now.kept) most limit (timeline self.old) result.0 result.1 (timeline self.new) };

    /// Moves back to the first place, after a move, where at most `most` calls are open, or where there is a reason to stop: at
    /// the oldest state that is kept, where a stop holds after a move, or after `limit` moves. Gives why, and how many moves
    /// were undone. It is never out of memory.
    fn run_back_to_depth(&mut self, stops: &Stops<A>, most: usize, limit: u64) -> (DepthEnd, u64)
        ensures program { program self.new ≡ program self.old }
        ensures run { RunsBackToDepth (named_stops (program self.old) stops.now.kept) most limit (timeline self.old) result.0 result.1 (timeline self.new) };
}

impl<'c, A: Allocator + Copy + 'c, H: History<A, Machine<'c, A>> + Stepwise> DepthRuns<
    A,
    Code<'c, A>,
> for H {
    ghost program = { λ history. H.program history };

    ghost timeline = { λ history. H.timeline history };

    fn run_to_depth(&mut self, stops: &Stops<A>, most: usize, limit: u64) -> (DepthEnd, u64) {
        run_to_depth(self, stops, most, limit)
    }

    fn run_back_to_depth(&mut self, stops: &Stops<A>, most: usize, limit: u64) -> (DepthEnd, u64) {
        run_back_to_depth(self, stops, most, limit)
    }
}
