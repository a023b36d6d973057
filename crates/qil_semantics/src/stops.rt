//! Laws of stops: where a run comes to stand is said as a function of the number of moves and as a least or greatest
//! place, and both say the same.

ghost use Rattle.std.specs.Prelude.{◌≡◌, ◌↔◌, ◌<◌, ℕ, true, List, Some};
ghost use Rattle.qil_tree.specs.declared.tree.Program.{Program};
ghost use Rattle.qil_semantics.specs.State.{State};
ghost use Rattle.qil_semantics.specs.Timeline.{Timeline, position, oldest, at_end, moved, gone};
ghost use Rattle.qil_semantics.specs.Stops.{Numbered, AreListed};
ghost use Rattle.qil_semantics.specs.Runs.{stop_on, stop_back, target, stopping, RunsOn, RunsBack};
ghost use Rattle.qil_semantics.specs.Targets.{ForwardTarget, BackTarget, Continues, Reverses};
ghost use Rattle.qil_semantics.specs.declared.reason.Reason.{Reason};
ghost use Rattle.qil_semantics.specs.declared.reason.Reason.TheVariants.{End, Start, Oldest};

/// A run has one place at most where it stops, with one reason.
pub fn one_target<A>()
    ensures forward { (p : Program A) (stops : List Numbered) (limit : ℕ) (s : State) (j : ℕ) (i : ℕ) (r : Reason) (q : Reason) → ForwardTarget p stops limit s j r → ForwardTarget p stops limit s i q → (j ≡ i) × (r ≡ q) }
    ensures back { (stops : List Numbered) (limit : ℕ) (t : Timeline) (j : ℕ) (i : ℕ) (r : Reason) (q : Reason) → BackTarget stops limit t j r → BackTarget stops limit t i q → (j ≡ i) × (r ≡ q) }
{}

/// A run forward makes the moves of its target and gives its reason, unless memory runs out.
pub fn runs_on_to_target<A>()
    ensures target { (p : Program A) (stops : List Numbered) (limit : ℕ) (t : Timeline) (u : Timeline) (r : Reason) (k : ℕ) → AreListed 0 stops → stopping r ≡ Some r → RunsOn p stops limit t r k u → Continues p stops limit t r k × (u ≡ moved p k t) }
    ensures run { (p : Program A) (stops : List Numbered) (limit : ℕ) (t : Timeline) (r : Reason) (k : ℕ) → AreListed 0 stops → Continues p stops limit t r k → RunsOn p stops limit t r k (moved p k t) }
{}

/// A run back makes the moves of its target and gives its reason.
pub fn runs_back_to_target()
    ensures target { (stops : List Numbered) (limit : ℕ) (t : Timeline) (u : Timeline) (r : Reason) (k : ℕ) → AreListed 0 stops → RunsBack stops limit t r k u → Reverses stops limit t r k × (u ≡ gone k t) }
    ensures run { (stops : List Numbered) (limit : ℕ) (t : Timeline) (r : Reason) (k : ℕ) → AreListed 0 stops → Reverses stops limit t r k → RunsBack stops limit t r k (gone k t) }
{}

/// Each run comes to stand, after the least number of moves that has a reason, which is never out of memory.
pub fn targets_are_reached<A>()
    ensures forward { (p : Program A) (stops : List Numbered) (limit : ℕ) (t : Timeline) → AreListed 0 stops → (r : Reason) × (stopping r ≡ Some r) × RunsOn p stops limit t r (target (stop_on p stops t) limit) (moved p (target (stop_on p stops t) limit) t) }
    ensures back { (stops : List Numbered) (limit : ℕ) (t : Timeline) → AreListed 0 stops → (r : Reason) × RunsBack stops limit t r (target (stop_back stops t) limit) (gone (target (stop_back stops t) limit) t) }
{}

/// Without a move a run ends at a final status and nowhere else, and a run back at the start or, elsewhere, at the oldest
/// state that is kept.
pub fn bounds_stay<A>()
    ensures end { (p : Program A) (stops : List Numbered) (limit : ℕ) (t : Timeline) (u : Timeline) → RunsOn p stops limit t End 0 u ↔ ((at_end t ≡ true) × (u ≡ t)) }
    ensures start { (stops : List Numbered) (limit : ℕ) (t : Timeline) (u : Timeline) → RunsBack stops limit t Start 0 u ↔ ((position t ≡ 0) × (u ≡ t)) }
    ensures oldest { (stops : List Numbered) (limit : ℕ) (t : Timeline) (u : Timeline) → RunsBack stops limit t Oldest 0 u ↔ ((position t ≡ oldest t) × (0 < position t) × (u ≡ t)) }
{}
