//! Laws of the timeline: back undoes a move, how many moves are made and kept, and that a bounded timeline is the kept
//! end of one that keeps everything.

ghost use Rattle.std.specs.Prelude.{◌≡◌, ◌≤◌, ◌+◌, ◌-◌, ℕ, suc, List, [], ◌∷◌, ◌++◌, length, drop, Option, Some, None};
ghost use Rattle.qil_tree.specs.declared.tree.Program.{Program};
ghost use Rattle.qil_semantics.specs.State.{State};
ghost use Rattle.qil_semantics.specs.Timeline.{Timeline, begun, forward, back, to, position, states};
ghost use Rattle.qil_semantics.specs.Moves.{forward_by, back_by, GoesForward, GoesBack, IsKeptEnd, HasBack, Undone};

/// Going back after a move, a step or a poke, gives the timeline from before it where everything is kept. Where one move
/// or more is kept, it gives the state and the position from before, and all of the timeline if there was room for the
/// move.
pub fn back_undoes_forward<A>()
    ensures step { (p : Program A) (timeline : Timeline) → timeline.keeps ≡ None → back (forward p timeline) ≡ Some timeline }
    ensures poke { (s : State) (timeline : Timeline) → timeline.keeps ≡ None → back (to s timeline) ≡ Some timeline }
    ensures bounded { (s : State) (timeline : Timeline) (n : ℕ) → timeline.keeps ≡ Some (suc n) → Undone n timeline (back (to s timeline)) }
{}

/// A move adds one to the position, whatever is forgotten.
pub fn moves_add_one()
    ensures { (s : State) (timeline : Timeline) → position (to s timeline) ≡ position timeline + 1 }
{}

/// Going forward by `n` adds `n` states, each the step of the one before, or fewer up to a final one; going back by `n`
/// takes `n` states away, or fewer down to the oldest that is kept.
pub fn moves_are_counted<A>()
    ensures forward { (p : Program A) (n : ℕ) (timeline : Timeline) → GoesForward p n timeline (forward_by p n timeline) }
    ensures back { (n : ℕ) (timeline : Timeline) → GoesBack n timeline (back_by n timeline) }
{}

/// A move adds its state after those that are kept; where n moves are kept, the first states are left out that would be
/// more than n + 1.
pub fn newest_are_kept()
    ensures all { (s : State) (timeline : Timeline) → timeline.keeps ≡ None → states (to s timeline) ≡ states timeline ++ (s ∷ []) }
    ensures bounded { (s : State) (timeline : Timeline) (n : ℕ) → timeline.keeps ≡ Some n → states (to s timeline) ≡ drop (length (states timeline ++ (s ∷ [])) - suc n) (states timeline ++ (s ∷ [])) }
{}

/// A bounded timeline has the state, the position and the newest states of one that keeps everything: at the beginning,
/// after a move of both, and after going back in both.
pub fn bounded_is_kept_end()
    ensures begins { (keeps : Option ℕ) (s : State) → IsKeptEnd (begun None s) (begun keeps s) }
    ensures moves { (whole : Timeline) (bounded : Timeline) (s : State) → whole.keeps ≡ None → IsKeptEnd whole bounded → IsKeptEnd (to s whole) (to s bounded) }
    ensures goes_back { (whole : Timeline) (bounded : Timeline) (before : Timeline) → IsKeptEnd whole bounded → back bounded ≡ Some before → HasBack whole before }
{}
