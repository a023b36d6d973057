//! Runs forward, part by part, with copies kept between the parts; or with a look at stops after each move.

ghost use Rattle.std.specs.Prelude.{◌≡◌, ◌≢◌, ◌≤◌, ◌<◌, ◌+◌, ◌^◌, ◌⊎◌, ℕ, true, false, [], length};
ghost use Rattle.qil_semantics.specs.Timeline.{moved, at_end};
ghost use Rattle.qil_semantics.specs.Runs.{RunsOn};
ghost use Rattle.qil_stops.specs.Listed.{AreReadable};
ghost use Rattle.qil_stops.specs.Named.{named_stops};
ghost use Rattle.qil_checkpoints.specs.Held.{held_timeline};

use crate::checkpoints::Checkpoints;
use qil_history::HasProgram;
use qil_semantics::Reason;
use qil_stops::{HasCopies, NumberedStop, Restorable};
use std::alloc::Allocator;

impl<A: Allocator + Copy, M: HasCopies<A>> Checkpoints<A, M> {
    /// Makes up to so many steps, and fewer only where the run is over. Gives how many.
    pub(crate) fn run_on<C: HasProgram<A>>(&mut self, count: u64) -> u64
    where
        M: Restorable<A, C>,
        requires { self.old.position + count ≤ 2 ^ 62 }
        ensures program { (M.present self.new.machine).program ≡ (M.present self.old.machine).program }
        ensures position { self.new.position ≡ self.old.position + result }
        ensures few { result ≤ count }
        ensures moved { held_timeline M.present M.kept self.new ≡ moved (M.present self.old.machine).program result (held_timeline M.present M.kept self.old) }
        ensures running { (j : ℕ) → j < result → at_end (moved (M.present self.old.machine).program j (held_timeline M.present M.kept self.old)) ≡ false }
        ensures over { (result ≡ count) ⊎ (at_end (held_timeline M.present M.kept self.new) ≡ true) }
    {
        let mut made = self.skip(count);
        while made < count {
            let part = self.spacing.part_length(self.moves(), count - made);
            let done = self.run_part(part);
            made += done;
            if done < part {
                return made;
            }
            self.keep_between();
        }
        made
    }

    /// Keeps a copy at a position that is due for one.
    pub(crate) fn keep_between<C: HasProgram<A>>(&mut self)
    where
        M: Restorable<A, C>,
        ensures program { (M.present self.new.machine).program ≡ (M.present self.old.machine).program }
        ensures position { self.new.position ≡ self.old.position }
        ensures same { held_timeline M.present M.kept self.new ≡ held_timeline M.present M.kept self.old }
    {
        if self.spacing.is_kept(self.moves()) {
            self.keep_copy();
        }
    }

    /// Moves forward where there are no stops.
    pub(crate) fn run_freely<C: HasProgram<A>>(&mut self, limit: u64) -> (Reason, u64)
    where
        M: Restorable<A, C>,
        requires { self.old.position + limit ≤ 2 ^ 62 }
        ensures spared { result.0 ≢ Reason.Memory }
        ensures program { (M.present self.new.machine).program ≡ (M.present self.old.machine).program }
        ensures run { RunsOn (M.present self.old.machine).program [] limit (held_timeline M.present M.kept self.old) result.0 result.1 (held_timeline M.present M.kept self.new) }
    {
        let made = self.run_on(limit);
        (self.end_or(Reason::Limit), made)
    }

    /// Moves forward, and looks for a stop wherever one may hold.
    pub(crate) fn run_watching<C: HasProgram<A>>(
        &mut self,
        stops: &[NumberedStop],
        limit: u64,
    ) -> (Reason, u64)
    where
        M: Restorable<A, C>,
        requires near { self.old.position + limit ≤ 2 ^ 62 }
        requires few { length stops.now ≤ 64 }
        requires readable { AreReadable stops.now }
        ensures spared { result.0 ≢ Reason.Memory }
        ensures program { (M.present self.new.machine).program ≡ (M.present self.old.machine).program }
        ensures run { RunsOn (M.present self.old.machine).program (named_stops (M.present self.old.machine).program stops.now) limit (held_timeline M.present M.kept self.old) result.0 result.1 (held_timeline M.present M.kept self.new) }
    {
        let readings = self.readings(stops);
        let before = readings.as_slice();
        let mut made = 0;
        while made < limit {
            let part = self.spacing.part_length(self.moves(), limit - made);
            let done = self.run_part_quietly(stops, before, part);
            if done == 0 {
                return (Reason::End, made);
            }
            made += done;
            if let Some(reason) = self.stopped_here(stops, before) {
                return (self.end_or(reason), made);
            }
            self.keep_between();
        }
        (self.end_or(Reason::Limit), made)
    }
}
