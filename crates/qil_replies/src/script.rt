//! What a script is answered: each one has answers, from any state of a session. Nothing here runs.
//!
//! `specs/Transcript.antt` says what a transcript is, `specs/Reached.antt` how far a script has been answered; the lemmas that
//! lead from line to line are in `proofs/`. What serves a script, and what records one, state what they do by these words.

ghost use Rattle.std.specs.Prelude.{ℕ, List};
ghost use Rattle.qil_replies.specs.Answers.{IsAnswered};
ghost use Rattle.qil_replies.specs.SessionState.{SessionState};

use std::alloc::Allocator;

/// From any state of a session each script has answers.
pub fn script_has_answers<A: Allocator>()
    ensures { (s : SessionState A) (lines : List (List ℕ)) → (text : List ℕ) × IsAnswered s lines text }
{}
