//! Laws of frames along moves: what where a frame begins says of the states, and that a move begins or ends one frame at most.

ghost use Rattle.std.specs.Prelude.{◌≡◌, ◌+◌, ◌≤◌, ℕ, length};
ghost use Rattle.qil_tree.specs.declared.tree.Program.{Program};
ghost use Rattle.qil_semantics.specs.State.{State};
ghost use Rattle.qil_semantics.specs.Step.{step_of};
ghost use Rattle.qil_semantics.specs.Timeline.{Timeline};
ghost use Rattle.qil_spans.specs.Spans.{begin_of};
ghost use Rattle.qil_spans.specs.Laws.{HasBegun};

/// A state has one frame more than the one before it, or one fewer, or as many.
pub fn a_move_begins_or_ends_one_frame<A>()
    ensures { (p : Program A) (s : State) → (length (step_of p s).frames ≤ length s.frames + 1) × (length s.frames ≤ length (step_of p s).frames + 1) }
{}

/// Where a frame begins that has n below it, the state before has no more than these, and all since have more; or all have more.
pub fn a_frame_begins_behind_a_state_without_it<A>()
    ensures { (p : Program A) (t : Timeline) (n : ℕ) (k : ℕ) → HasBegun p t n k (begin_of p t n k) }
{}
