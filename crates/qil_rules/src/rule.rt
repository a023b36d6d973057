//! The rules of a well-formed program.

ghost use Rattle.std.specs.Prelude.{◌≡◌, ◌+◌, Some, MatchOption};
ghost use Rattle.qil_rules.specs.Codes.{rule_code};
ghost use Rattle.qil_rules.specs.Rules.{order};

use std::fmt;

/// A rule, by the code that is reported where it is broken.
#[derive(Clone, Copy, Debug)]
pub enum Rule {
    /// A global name is defined twice.
    C1,
    /// A label is defined twice in a function.
    C2,
    /// A jump or a phi names a label that its function lacks.
    C3,
    /// A jump names the function's first block.
    C4,
    /// A temporary has definitions of two classes.
    C5,
    /// A temporary is used and has no definition in its function.
    C6,
    /// A `w` temporary stands where an `l` is wanted.
    C7,
    /// The labels of a phi aren't exactly the predecessors of its block, each once.
    C8,
    /// A global is used that is neither defined nor built in.
    C9,
    /// `ret` has a value in a function without return type.
    C10,
    /// `extsw`, `extuw`, `loadl` or an `alloc` has a result of type `w`.
    C11,
    /// More than 1,000 functions, or a function with more than 65,535 temporaries or blocks.
    C12,
}

impl Rule {
    /// The rule that is answered after this one.
    pub fn next(self) -> Option<Rule>
        ensures { MatchOption result (order self ≡ 12) (λ r. order r ≡ order self + 1) }
    {
        let next = match self {
            Rule::C1 => Rule::C2,
            Rule::C2 => Rule::C3,
            Rule::C3 => Rule::C4,
            Rule::C4 => Rule::C5,
            Rule::C5 => Rule::C6,
            Rule::C6 => Rule::C7,
            Rule::C7 => Rule::C8,
            Rule::C8 => Rule::C9,
            Rule::C9 => Rule::C10,
            Rule::C10 => Rule::C11,
            Rule::C11 => Rule::C12,
            Rule::C12 => return None,
        };
        Some(next)
    }
}

impl Rule {
    /// The code that is reported, as users see it.
    pub fn as_str(self) -> &'static str
        ensures { result.now ≡ rule_code self }
    {
        match self {
            Rule::C1 => "C1",
            Rule::C2 => "C2",
            Rule::C3 => "C3",
            Rule::C4 => "C4",
            Rule::C5 => "C5",
            Rule::C6 => "C6",
            Rule::C7 => "C7",
            Rule::C8 => "C8",
            Rule::C9 => "C9",
            Rule::C10 => "C10",
            Rule::C11 => "C11",
            Rule::C12 => "C12",
        }
    }
}

impl fmt::Display for Rule {
    ghost output = { λ rule. Some (rule_code rule) };

    fn fmt<W: fmt::Write>(&self, f: &mut fmt::Formatter<W>) -> fmt::Result {
        f.write_str(self.as_str())
    }
}
