//! The check of a program.

ghost use Rattle.std.specs.Prelude.{◌≡◌, ℕ, IfOk, IfErr};
ghost use Rattle.qil_tree.specs.Trees.{HasBlocks};
ghost use Rattle.qil_rules.specs.Occurrences.{texts};
ghost use Rattle.qil_rules.specs.Rules.{WellFormed, Broken};
ghost use Rattle.qil_checker.specs.Check.{IsReported, IsRefusedBy};
ghost use Rattle.qil_rules.specs.Forms.{HasForm};
ghost use Rattle.qil_rules.specs.declared.rule.Rule.{Rule};

use crate::program_index::{BrokenRule, ProgramIndex};
use qil_rules::{Checked, Form, Rule};
use qil_tree::Program;
use std::alloc::{AllocError, Allocator};
use std::hash::RandomState;
use thiserror::Error;

/// Why a program was not checked.
#[derive(Clone, Copy, Debug, Error)]
pub enum CheckError {
    /// The lowest rule that is broken anywhere, and the line of its first place in the text.
    #[error("{rule} line {line}")]
    Refused { rule: Rule, line: u32 },
    #[error("out of memory")]
    OutOfMemory,
}

impl From<AllocError> for CheckError {
    ghost use Rattle.qil_checker.specs.declared.checker.CheckError.TheVariants.{OutOfMemory};

    ghost from_gives = { λ _ e. e ≡ OutOfMemory };

    fn from(_error: AllocError) -> Self {
        CheckError::OutOfMemory
    }
}

/// The form of a well-formed program; why it is not well-formed, otherwise.
fn examine<'a, A: Allocator + Copy>(
    alloc: A,
    keys: RandomState,
    program: &Program<'a, A>,
) -> Result<Form<'a>, CheckError>
    ensures well_formed { IfOk result (λ form. WellFormed program.now) }
    ensures form { IfOk result (λ form. HasForm program.now form) }
    ensures reported { IfErr result (λ error. IsReported (texts program.now) error) }
{
    let whole = ProgramIndex::new(alloc, keys, program)?;
    match whole.lowest(alloc)? {
        Some(refusal) => {
            let BrokenRule { rule, line } = refusal;
            Err(CheckError::Refused { rule, line })
        }
        None => Ok(whole.form()),
    }
}

/// What is answered of a program whose form, or whose first broken rule, was found.
fn answered<'a, A: Allocator>(
    program: Program<'a, A>,
    found: Result<Form<'a>, CheckError>,
) -> Result<Checked<'a, A>, (Program<'a, A>, CheckError)>
    requires blocks { HasBlocks program }
    requires well_formed { IfOk found (λ form. WellFormed program) }
    requires form { IfOk found (λ form. HasForm program form) }
    requires reported { IfErr found (λ error. IsReported (texts program) error) }
    ensures same { IfOk result (λ c. c.program ≡ program.entry) }
    ensures kept { IfOk result (λ c. WellFormed c.program × HasForm c.program c.form) }
    ensures handed_back { IfErr result (λ e. e.0 ≡ program.entry) }
    ensures refused { IfErr result (λ e. IsReported (texts program.entry) e.1) }
    ensures only_kept { WellFormed program.entry → IfErr result (λ e. e.1 ≡ CheckError.OutOfMemory) }
    ensures only_broken { (rule : Rule) (line : ℕ) → Broken program.entry rule line → IsRefusedBy rule line result }
{
    match found {
        Ok(form) => Ok(Checked::new(program, form)),
        Err(error) => Err((program, error)),
    }
}

/// Checks a program. Hands it back where it is refused, or where memory runs out.
pub fn check<'a, A: Allocator + Copy>(
    alloc: A,
    keys: RandomState,
    program: Program<'a, A>,
) -> Result<Checked<'a, A>, (Program<'a, A>, CheckError)>
    // As `parse` gives it.
    requires { HasBlocks program }
    ensures same { IfOk result (λ c. c.program ≡ program.entry) }
    ensures kept { IfOk result (λ c. WellFormed c.program × HasForm c.program c.form) }
    ensures handed_back { IfErr result (λ e. e.0 ≡ program.entry) }
    ensures refused { IfErr result (λ e. IsReported (texts program.entry) e.1) }
    // A well-formed program is not refused, and one that breaks a rule is refused so.
    ensures only_kept { WellFormed program.entry → IfErr result (λ e. e.1 ≡ CheckError.OutOfMemory) }
    ensures only_broken { (rule : Rule) (line : ℕ) → Broken program.entry rule line → IsRefusedBy rule line result }
{
    let found = examine(alloc, keys, &program);
    answered(program, found)
}
