//! Runs over calls: forward move by move, and back to the last position before this one at which no more calls are open than were
//! asked for.

ghost use Rattle.std.specs.Prelude.{◌≡◌, ◌+◌, ◌<◌, ◌≤◌, ◌^◌, length};
ghost use Rattle.qil_semantics.specs.Runs.{RunsBack};
ghost use Rattle.qil_stops.specs.Listed.{AreReadable};
ghost use Rattle.qil_stops.specs.Named.{named_stops};
ghost use Rattle.qil_stops.specs.Depths.{depth, RunsToDepth, RunsBackToDepth};
ghost use Rattle.qil_checkpoints.specs.Held.{held_timeline};
ghost use Rattle.qil_checkpoints.specs.CallDepths.{Advances, IsFirstShallow, depth_or};

use crate::checkpoints::Checkpoints;
use qil_history::HasProgram;
use qil_semantics::Reason;
use qil_stops::{DepthEnd, HasCopies, NumberedStop, Restorable, Stops};
use qil_undo_log::DepthRuns;
use std::alloc::Allocator;

/// Why a run back ends whose limit is where no more calls are open than were asked for.
fn depth_or(reason: Reason) -> DepthEnd
    ensures { result ≡ depth_or reason }
{
    match reason {
        Reason::Limit => DepthEnd::Depth,
        reason => DepthEnd::Stopped(reason),
    }
}

impl<A: Allocator + Copy, M: HasCopies<A>> Checkpoints<A, M> {
    /// How many calls are open.
    fn depth<C: HasProgram<A>>(&self) -> usize
    where
        M: Restorable<A, C>,
        ensures { result ≡ depth (held_timeline M.present M.kept self.now) }
    {
        self.reader().depth()
    }

    /// Makes a step, if the run goes on.
    fn advance<C: HasProgram<A>>(&mut self) -> bool
    where
        M: Restorable<A, C>,
        requires { self.old.position < 2 ^ 62 }
        ensures program { (M.present self.new.machine).program ≡ (M.present self.old.machine).program }
        ensures position { self.new.position ≤ self.old.position + 1 }
        ensures made { Advances (M.present self.old.machine).program result (held_timeline M.present M.kept self.old) (held_timeline M.present M.kept self.new) }
    {
        self.run_part(1) == 1
    }

    /// Moves forward to the first place, after a move, where at most `most` calls are open, or where there is a reason to stop.
    fn forward_to_depth<C: HasProgram<A>>(
        &mut self,
        stops: &[NumberedStop],
        most: usize,
        limit: u64,
    ) -> (DepthEnd, u64)
    where
        M: Restorable<A, C>,
        requires near { self.old.position + limit ≤ 2 ^ 62 }
        requires few { length stops.now ≤ 64 }
        requires readable { AreReadable stops.now }
        ensures program { (M.present self.new.machine).program ≡ (M.present self.old.machine).program }
        ensures run { RunsToDepth (M.present self.old.machine).program (named_stops (M.present self.old.machine).program stops.now) most limit (held_timeline M.present M.kept self.old) result.0 result.1 (held_timeline M.present M.kept self.new) }
    {
        let readings = self.readings(stops);
        let before = readings.as_slice();
        for moves in 0..limit {
            if !self.advance() {
                return (DepthEnd::Stopped(Reason::End), moves);
            }
            if let Some(reason) = self.stopped_here(stops, before) {
                return (DepthEnd::Stopped(self.end_or(reason)), moves + 1);
            }
            if self.depth() <= most {
                return (self.shallow_end(), moves + 1);
            }
            self.keep_between();
        }
        (DepthEnd::Stopped(self.end_or(Reason::Limit)), limit)
    }

    /// Moves back to the first place, after a move, where at most `most` calls are open, or where there is a reason to stop.
    fn back_to_depth<C: HasProgram<A>>(
        &mut self,
        stops: &[NumberedStop],
        most: usize,
        limit: u64,
    ) -> (DepthEnd, u64)
    where
        M: Restorable<A, C>,
        requires few { length stops.now ≤ 64 }
        requires readable { AreReadable stops.now }
        ensures program { (M.present self.new.machine).program ≡ (M.present self.old.machine).program }
        ensures run { RunsBackToDepth (named_stops (M.present self.old.machine).program stops.now) most limit (held_timeline M.present M.kept self.old) result.0 result.1 (held_timeline M.present M.kept self.new) }
    {
        // What is passed on the way to the depth can stop the run before it.
        match self.moves_to_depth(most, limit) {
            Some(moves) => {
                let (reason, made) = self.back_to_stop(stops, moves);
                (depth_or(reason), made)
            }
            None => {
                let (reason, made) = self.back_to_stop(stops, limit);
                (DepthEnd::Stopped(reason), made)
            }
        }
    }
}

impl<A: Allocator + Copy, C: HasProgram<A>, M: Restorable<A, C>> DepthRuns<A, C>
    for Checkpoints<A, M> {
    ghost program = { λ history. (M.present history.machine).program };

    ghost timeline = { λ history. held_timeline M.present M.kept history };

    fn run_to_depth(&mut self, stops: &Stops<A>, most: usize, limit: u64) -> (DepthEnd, u64) {
        self.forward_to_depth(stops.list(), most, limit)
    }

    fn run_back_to_depth(&mut self, stops: &Stops<A>, most: usize, limit: u64) -> (DepthEnd, u64) {
        self.back_to_depth(stops.list(), most, limit)
    }
}
