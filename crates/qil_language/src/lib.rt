//! Languages over any kind of token: what spells what, and how to read it from left to right, one token ahead.
//!
//! A language is a relation between lists of tokens and the values that they represent. `specs/Language.antt` puts
//! languages together: one token, none, one phrase and then another, one or the other, any number, items with
//! separators. `specs/Reading.antt` has a reader for each of them, and `specs/Reads.antt` says what it means that a
//! reader reads a language. The laws are in `proofs/`: `Law.antt` proves for each way of putting languages together
//! that its reader gives the only value that the tokens represent, takes as many tokens as any other reading could,
//! and where it fails has read the longest prefix that some phrase begins with. `Marks.antt` says after which phrases
//! a failure is marked, `Loop.antt` how a loop reads many phrases.
//!
//! Nothing here runs: a parser states its grammar and its readers by these words, and takes the laws from here.
#![tactic(auto)]

ghost use Rattle.std.specs.Prelude.{◌≡◌, List, Option};
ghost use Rattle.qil_language.specs.Language.{One, Many};

/// Tokens represent one list of values at most, if each token represents one value.
pub fn one_list<T, A>()
    ensures { (f : T → Option A) (ts : List T) (xs ys : List A) → Many (One f) ts xs → Many (One f) ts ys → xs ≡ ys }
{}
