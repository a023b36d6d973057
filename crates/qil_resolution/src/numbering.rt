//! Numbering of a checked program.

ghost use Rattle.std.specs.Prelude.{◌≡◌, IfOk};

use crate::gather::funcs_of;
use crate::shape::funcs_code;
use qil_code::Code;
use qil_layout::Image;
use qil_rules::Checked;
use std::alloc::{AllocError, Allocator};
use std::hash::RandomState;

/// The code of a program, where all that it refers to is lent for one lifetime.
fn numbered<'c, A: Allocator + Copy>(
    alloc: A,
    keys: RandomState,
    checked: &'c Checked<'c, A>,
    image: &'c Image<'c, A>,
) -> Result<Code<'c, A>, AllocError>
    requires { image.now ≡ checked.now.program }
    ensures { IfOk result (λ code. code ≡ checked.entry.now.program) }
{
    let program = checked.program();
    let names = funcs_of(alloc, keys, program.funcs.as_slice())?;
    let funcs = funcs_code(alloc, keys, image, program.funcs.as_slice())?;
    let kept = names.kept(alloc, keys)?;
    Ok(Code::new(program, image, kept, funcs))
}

/// Numbers a checked program, which lies as its image says. `keys` are those of the tables by name.
///
/// # Errors
///
/// Only out of memory.
// The text may live longer than the program is lent, and the program than its image. They are taken at one lifetime here, once: at
// the calls in front of this one, next to all that is alive there, each would cost a check of minutes.
pub fn number<'c, 't, 'i, A: Allocator + Copy>(
    alloc: A,
    keys: RandomState,
    checked: &'c Checked<'t, A>,
    image: &'c Image<'i, A>,
) -> Result<Code<'c, A>, AllocError>
    requires { image.now ≡ checked.now.program }
    ensures { IfOk result (λ code. code ≡ checked.entry.now.program) }
{
    numbered(alloc, keys, checked, image)
}
