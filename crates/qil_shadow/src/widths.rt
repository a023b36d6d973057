//! What instructions say of classes.

ghost use Rattle.std.specs.Prelude.{◌≡◌};
ghost use Rattle.qil_memory.specs.qil_rules.Operands.{right_class};

use qil_tree::{BinaryOp, Class};

/// The class of the second operand: the amount of a shift is a word.
#[inline(always)]
pub(crate) fn class_right(op: BinaryOp, class: Class) -> Class
    ensures { result ≡ right_class op class }
{
    match op {
        BinaryOp::Sar | BinaryOp::Shr | BinaryOp::Shl => Class::W,
        _ => class,
    }
}
