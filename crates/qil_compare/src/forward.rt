//! A run that goes forward, and is read where it stands.

ghost use Rattle.std.specs.Prelude.{◌≡◌, ◌+◌, ◌<◌, ◌≤◌, ◌⊎◌, ◌^◌, ℕ, true, false};
ghost use Rattle.qil_semantics.specs.Timeline.{Timeline, position, moved, at_end};
ghost use Rattle.qil_state.specs.State.{state_of};

use qil_history::{HasProgram, Readers};
use std::alloc::Allocator;

/// A run that goes forward and takes no memory for its moves. It is read where it stands.
///
/// A user is generic in `R: Forward<A, Code<'c, A>>`, under `A: Allocator + 'c`.
pub trait Forward<A: Allocator, C: HasProgram<A>>: Readers<A, C> {
    /// The states of the run, as far as they are kept.
    ghost timeline: { Self → Timeline };

    /// Makes so many steps, and fewer only where the run is over. Gives how many.
    fn run(&mut self, count: u64) -> u64
        requires { position (timeline self.old) + count ≤ 2 ^ 62 }
        ensures program { (Self.whole self.new).program ≡ (Self.whole self.old).program }
        ensures moved { timeline self.new ≡ moved (Self.whole self.old).program result (timeline self.old) }
        ensures few { result ≤ count }
        ensures running { (j : ℕ) → j < result → at_end (moved (Self.whole self.old).program j (timeline self.old)) ≡ false }
        ensures over { (result ≡ count) ⊎ (at_end (timeline self.new) ≡ true) };

    /// How many steps were made since the start.
    fn position(&self) -> u64
        ensures { result ≡ position (timeline self.now) };

    /// Does nothing. Its clause says that what is read is the state where it stands.
    fn is_read(&self)
        ensures { state_of (Self.whole self.now) ≡ (timeline self.now).now };
}
