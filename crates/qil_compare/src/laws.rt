//! What an answer says of all events of two runs.

ghost use Rattle.std.specs.Prelude.{◌≡◌, ℕ};
ghost use Rattle.qil_tree.specs.declared.tree.Program.{Program};
ghost use Rattle.qil_semantics.specs.Timeline.{Timeline};
ghost use Rattle.qil_compare.specs.declared.event.Kinds.{Kinds};
ghost use Rattle.qil_compare.specs.declared.comparing.Verdict.TheVariants as verdicts;
ghost use Rattle.qil_compare.specs.declared.comparing.Answer.{Answer};
ghost use Rattle.qil_compare.specs.Answer.{run_of, IsAnswered};
ghost use Rattle.qil_compare.specs.Longest.{HaveLongest, HaveSame, AgreeSoFar};

use std::alloc::Allocator;

/// If two runs part, the number in the answer is the length of the longest list with which the events of both begin. If they are
/// the same, both have that many events, the same ones. At a limit the events of both begin with that many that are the same. It
/// does nothing.
pub fn number_is_of_longest_front<A: Allocator>()
    ensures part { (kinds : Kinds) (limit : ℕ) (p q : Program A) (t u w v : Timeline) (answer : Answer) → IsAnswered kinds limit p q t u w v answer → answer.verdict ≡ verdicts.Part
        → HaveLongest (run_of kinds p q t) (run_of kinds q p w) answer.events }
    ensures same { (kinds : Kinds) (limit : ℕ) (p q : Program A) (t u w v : Timeline) (answer : Answer) → IsAnswered kinds limit p q t u w v answer → answer.verdict ≡ verdicts.Same
        → HaveSame (run_of kinds p q t) (run_of kinds q p w) answer.events }
    ensures limit { (kinds : Kinds) (limit : ℕ) (p q : Program A) (t u w v : Timeline) (answer : Answer) → IsAnswered kinds limit p q t u w v answer → AgreeSoFar (run_of kinds p q t) (run_of kinds q p w) answer.events }
{}
