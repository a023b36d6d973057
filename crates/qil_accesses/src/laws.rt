//! A law of accesses: those of moves are said step by step, and as those of each state in a list.

ghost use Rattle.std.specs.Prelude.{◌≡◌, ℕ, map};
ghost use Rattle.std.specs.List.{flat_map, range_with_len};
ghost use Rattle.qil_tree.specs.declared.tree.Program.{Program};
ghost use Rattle.qil_semantics.specs.Timeline.{Timeline, moved};
ghost use Rattle.qil_accesses.specs.Accesses.{accesses_by, accesses_next};

/// The accesses of k moves are those that the first k states are about to make, in their order.
pub fn accesses_are_those_of_each_state<A>()
    ensures { (p : Program A) (a : ℕ) (m : ℕ) (t : Timeline) (k : ℕ) → accesses_by p a m t k ≡ flat_map (accesses_next p a m) (map (λ j. moved p j t) (range_with_len 0 k)) }
{}
