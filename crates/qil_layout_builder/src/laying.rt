//! The layout of a program is made.

ghost use Rattle.std.specs.Prelude.{◌≡◌, None, IfOk, IfErr};
ghost use Rattle.qil_layout.specs.Layout.{fault_of};
ghost use Rattle.qil_layout_builder.specs.Answer.{IsFault};

use crate::error::LayoutError;
use crate::fill::bytes_of;
use crate::names::names_of;
use qil_layout::Image;
use qil_rules::Checked;
use std::alloc::Allocator;
use std::hash::RandomState;

/// The layout of a program, where all that it refers to is lent for one lifetime.
fn laid_out<'c, A: Allocator + Copy>(
    alloc: A,
    keys: RandomState,
    checked: &'c Checked<'c, A>,
) -> Result<Image<'c, A>, LayoutError>
    ensures program { IfOk result (λ image. image ≡ checked.entry.now.program) }
    ensures no_fault { IfOk result (λ image. fault_of checked.entry.now.program ≡ None) }
    ensures fault { IfErr result (IsFault (fault_of checked.entry.now.program)) }
{
    let program = checked.program();
    let names = names_of(alloc, keys, program)?;
    let bytes = bytes_of(alloc, &names, program.datas.as_slice())?;
    Ok(Image::new(program, names, bytes))
}

/// Lays a program out: its data from 65,536 on in the order of the text, each object at the next multiple of its
/// alignment; its functions from 4096 on, 16 apart.
///
/// # Errors
///
/// `Y2` where an alignment is no power of two from 1 to 4096, `Y1` where the data passes 2^20 bytes, of the first
/// object that has either, at the line of its name.
// The text may live longer than the program is lent: it is taken at one lifetime here, once, as `number` of `qil_resolution` does.
pub fn layout<'c, 't, A: Allocator + Copy>(
    alloc: A,
    keys: RandomState,
    checked: &'c Checked<'t, A>,
) -> Result<Image<'c, A>, LayoutError>
    ensures program { IfOk result (λ image. image ≡ checked.entry.now.program) }
    ensures no_fault { IfOk result (λ image. fault_of checked.entry.now.program ≡ None) }
    ensures fault { IfErr result (IsFault (fault_of checked.entry.now.program)) }
{
    laid_out(alloc, keys, checked)
}
