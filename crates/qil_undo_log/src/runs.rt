//! What a session asks of the states of a run: to go along them, to replace a value, and to be read.

ghost use Rattle.std.specs.Prelude.{◌≡◌, ◌≢◌, ◌+◌, ◌<◌, ◌≤◌, ◌^◌, ◌↔◌, Bool, true, false, length, Ok, Err, OnOk, OnErr, MatchResult};
ghost use Rattle.qil_tree.specs.declared.tree.Program.{Program};
ghost use Rattle.qil_memory.specs.Calls.{IsWidth};
ghost use Rattle.qil_semantics.specs.Poke.{poke_temp, poke_memory, no_frame, unknown_temporary, dead_bytes};
ghost use Rattle.qil_semantics.specs.Timeline.{Timeline, position, oldest, at_end, poked};
ghost use Rattle.qil_semantics.specs.Moves.{forward_by, back_by as gone_by};
ghost use Rattle.qil_semantics.specs.Runs.{RunsOn, RunsBack};
ghost use Rattle.qil_stops.specs.qil_state.State.{state_of};
ghost use Rattle.qil_stops.specs.Listed.{AreReadable};
ghost use Rattle.qil_stops.specs.Named.{named_stops};

use qil_history::{HasProgram, Readers};
use qil_semantics::Reason;
use qil_stops::{NumberedStop, PokeError};
use std::alloc::Allocator;

/// The states of a run, and runs along them: many moves by one call, so that whatever keeps the states has the loop. A step
/// and a poke are one move each. All that is a `History` of a machine runs by its single moves.
///
/// A user is generic in `H: Runs<A, Code<'c, A>>`, under `A: Allocator + 'c`.
pub trait Runs<A: Allocator, C: HasProgram<A>> {
    /// What the states are read from.
    type Machine: Readers<A, C>;

    /// What is run. No move changes it.
    ghost program: { Self → Program A };

    ghost timeline: { Self → Timeline };

    /// Whether a move may want memory. Where none does, only a poke can find none.
    ghost wants_memory: { Bool };

    /// Moves forward up to so many times, and not past the end.
    ///
    /// # Errors
    ///
    /// How many moves were made, where there was no memory for the next one.
    fn forward_by(&mut self, count: u32) -> Result<(), u32>
        requires { position (timeline self.old) + count ≤ 2 ^ 62 }
        ensures spared { wants_memory ≡ false → result ≡ Ok tt }
        ensures program { program self.new ≡ program self.old }
        ensures near { position (timeline self.new) ≤ position (timeline self.old) + count }
        ensures moved { MatchResult result
            (λ _. timeline self.new ≡ forward_by (program self.old) count (timeline self.old))
            (λ k. (k < count) × (timeline self.new ≡ forward_by (program self.old) k (timeline self.old)) × (at_end (timeline self.new) ≡ false)) };

    /// Moves back up to so many times, and not past the oldest state that is kept. It is never out of memory.
    fn back_by(&mut self, count: u32)
        ensures program { program self.new ≡ program self.old }
        ensures near { position (timeline self.new) ≤ position (timeline self.old) }
        ensures moved { timeline self.new ≡ gone_by count (timeline self.old) };

    /// Moves forward to the first place where there is a reason to stop, and gives the reason and how many moves were made:
    /// at the end of the run, where a stop holds after a move, or after `limit` moves; or where there is no memory for a
    /// move.
    fn run(&mut self, stops: &[NumberedStop], limit: u64) -> (Reason, u64)
        requires near { position (timeline self.old) + limit ≤ 2 ^ 62 }
        requires few { length stops.now ≤ 64 }
        requires readable { AreReadable stops.now }
        ensures spared { wants_memory ≡ false → result.0 ≢ Reason.Memory }
        ensures program { program self.new ≡ program self.old }
        ensures run { RunsOn (program self.old) (named_stops (program self.old) stops.now) limit (timeline self.old) result.0 result.1 (timeline self.new) }
        ensures near { position (timeline self.new) ≤ position (timeline self.old) + limit };

    /// Moves back to the first place where there is a reason to stop, and gives the reason and how many moves were made: at
    /// the oldest state that is kept, where a stop holds after a move, or after `limit` moves. It is never out of memory.
    fn run_back(&mut self, stops: &[NumberedStop], limit: u64) -> (Reason, u64)
        requires few { length stops.now ≤ 64 }
        requires readable { AreReadable stops.now }
        ensures program { program self.new ≡ program self.old }
        ensures run { RunsBack (named_stops (program self.old) stops.now) limit (timeline self.old) result.0 result.1 (timeline self.new) }
        ensures near { position (timeline self.new) ≤ position (timeline self.old) };

    /// Sets a temporary of the innermost frame, whose name is without its sigil, to a number, cut to its class.
    ///
    /// # Errors
    ///
    /// `NoFrame` where the run is done, `UnknownTemporary` where the innermost function has no such temporary, and
    /// `OutOfMemory`. Nothing has changed.
    fn poke_named(&mut self, name: &[u8], value: u64) -> Result<(), PokeError>
        requires { position (timeline self.old) < 2 ^ 62 }
        ensures program { program self.new ≡ program self.old }
        ensures ok { OnOk result (poked (timeline self.old) (poke_temp (program self.old) (timeline self.old).now name.now value) ≡ Ok (timeline self.new)) }
        ensures frame { (result ≡ Err PokeError.NoFrame) ↔ (poke_temp (program self.old) (timeline self.old).now name.now value ≡ Err no_frame) }
        ensures unknown { (result ≡ Err PokeError.UnknownTemporary) ↔ (poke_temp (program self.old) (timeline self.old).now name.now value ≡ Err unknown_temporary) }
        ensures live { result ≢ Err PokeError.DeadAddress }
        ensures err { OnErr result (timeline self.new ≡ timeline self.old) };

    /// Sets 1, 2, 4 or 8 bytes of memory to the low bytes of a number.
    ///
    /// # Errors
    ///
    /// `DeadAddress` where not all of them are live, and `OutOfMemory`. Nothing has changed.
    fn poke_memory(&mut self, address: u64, width: u64, number: u64) -> Result<(), PokeError>
        requires before { position (timeline self.old) < 2 ^ 62 }
        requires width { IsWidth width }
        ensures program { program self.new ≡ program self.old }
        ensures ok { OnOk result (poked (timeline self.old) (poke_memory (timeline self.old).now address width number) ≡ Ok (timeline self.new)) }
        ensures dead { (result ≡ Err PokeError.DeadAddress) ↔ (poke_memory (timeline self.old).now address width number ≡ Err dead_bytes) }
        ensures frame { result ≢ Err PokeError.NoFrame }
        ensures known { result ≢ Err PokeError.UnknownTemporary }
        ensures err { OnErr result (timeline self.new ≡ timeline self.old) };

    /// How many moves were made since the start.
    fn position(&self) -> u64
        ensures { result ≡ position (timeline self.now) };

    /// The position of the oldest state that is kept.
    fn oldest(&self) -> u64
        ensures { result ≡ oldest (timeline self.now) };

    /// The machine now.
    fn machine(&self) -> &Self::Machine
        ensures now { state_of (Self.Machine.whole result.now) ≡ (timeline self.now).now }
        ensures program { (Self.Machine.whole result.now).program ≡ program self.now };
}
