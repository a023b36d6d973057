//! A law of the notes of suspicions.

ghost use Rattle.std.specs.Prelude.{◌≡◌, List, length, map, sum};
ghost use Rattle.qil_shadow.specs.Suspicions.{Suspicion};
ghost use Rattle.qil_suspicions.specs.Notes.{Note, noted};

/// There are as many suspicions as all notes count.
pub fn all_are_counted()
    ensures { (xs : List Suspicion) → sum (map (λ (n : Note). n.count) (noted xs)) ≡ length xs }
{}
