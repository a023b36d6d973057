//! A program that keeps all rules.

ghost use Rattle.std.specs.Prelude.{◌≡◌};
ghost use Rattle.qil_tree.specs.Trees.{HasBlocks};
ghost use Rattle.qil_rules.specs.Rules.{WellFormed};
ghost use Rattle.qil_rules.specs.Forms.{HasForm};

use crate::form::Form;
use qil_tree::Program;
use std::alloc::Allocator;
use std::marker::Model;

/// A program that is well-formed.
#[derive(Drop)]
pub struct Checked<'a, A: Allocator> {
    program: Program<'a, A>,
    form: Form<'a>,
}

impl<'a, A: Allocator> Model for Checked<'a, A> {
    ghost use Rattle.qil_tree.specs.Trees.{HasBlocks};
    ghost use Rattle.qil_rules.specs.Verdict.{Verdict};
    ghost use Rattle.qil_rules.specs.Rules.{WellFormed};
    ghost use Rattle.qil_rules.specs.Forms.{HasForm};

    ghost Value = { Verdict A };

    ghost view = { λ c. record { program = c.program; form = c.form } };

    ghost invariant = { λ c. HasBlocks c.program × WellFormed c.program × HasForm c.program c.form };
}

impl<'a, A: Allocator> Checked<'a, A> {
    /// A program that was found to be well-formed, with its form. Only a caller that has proved both can make one.
    pub fn new(program: Program<'a, A>, form: Form<'a>) -> Checked<'a, A>
        requires blocks { HasBlocks program }
        requires well_formed { WellFormed program }
        requires form { HasForm program form }
        ensures program { result.program ≡ program.entry }
        ensures form { result.form ≡ form.entry }
    {
        Checked { program, form }
    }

    /// The program, as it was handed in.
    pub fn program(&self) -> &Program<'a, A>
        ensures program { result.now ≡ self.now.program }
        ensures blocks { HasBlocks self.now.program }
        ensures well_formed { WellFormed self.now.program }
    {
        &self.program
    }

    /// Whether each temporary has one definition.
    pub fn form(&self) -> &Form<'a>
        ensures form { result.now ≡ self.now.form }
        ensures has_form { HasForm self.now.program self.now.form }
    {
        &self.form
    }
}
