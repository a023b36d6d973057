//! What was loaded, and the line that says so.

ghost use Rattle.std.specs.Prelude.{◌≡◌, ◌-◌, ◌^◌, ◌<◌};
ghost use Rattle.qil_streams.specs.Device.{HasPut};
ghost use Rattle.qil_loading.specs.Lines.{IsLoaded, loaded_line};

use qil_fragments::{Fragment, put_fragments};
use qil_layout::Image;
use qil_rules::{Checked, Form};
use qil_streams::{Put, PutError};
use std::alloc::Allocator;

/// What is reported of a program that was loaded.
#[derive(Clone, Copy)]
pub struct Loaded<'l> {
    /// How many functions it has.
    pub funcs: usize,
    /// In bytes, from the first data object to the end of the last.
    pub bytes: usize,
    /// Whether each temporary has one definition.
    pub form: &'l Form<'l>,
}

impl<'l> Loaded<'l> {
    /// What is reported of a program with its image.
    pub fn new<'a, 'i, A: Allocator + Copy>(
        checked: &'l Checked<'a, A>,
        image: &'l Image<'i, A>,
    ) -> Loaded<'l>
        requires { image.now ≡ checked.now.program }
        ensures { IsLoaded result checked.entry.now }
    {
        Loaded {
            funcs: checked.program().funcs.as_slice().len(),
            bytes: image.bytes().len(),
            form: checked.form(),
        }
    }
}

/// Puts the line that counts what was loaded: functions, and bytes of data.
pub fn put_loaded_line<P: Put>(out: &mut P, loaded: &Loaded<'_>) -> Result<(), PutError>
    requires { P.stops out.old < 2 ^ 64 - 1 }
    ensures { HasPut P.written P.stops P.device result out.old out.new (loaded_line loaded.now.funcs loaded.now.bytes loaded.now.form.now) }
{
    match loaded.form {
        Form::Single => put_fragments(
            out,
            &[
                Fragment::Bytes(b"loaded "),
                Fragment::Number(loaded.funcs as u64),
                Fragment::Bytes(b" functions "),
                Fragment::Number(loaded.bytes as u64),
                Fragment::Bytes(b" data bytes ssa yes\n"),
            ],
        ),
        Form::Multiple { func, temp } => put_fragments(
            out,
            &[
                Fragment::Bytes(b"loaded "),
                Fragment::Number(loaded.funcs as u64),
                Fragment::Bytes(b" functions "),
                Fragment::Number(loaded.bytes as u64),
                Fragment::Bytes(b" data bytes ssa no $"),
                Fragment::Bytes(func.bytes()),
                Fragment::Bytes(b" %"),
                Fragment::Bytes(temp.bytes()),
                Fragment::Bytes(b"\n"),
            ],
        ),
    }
}
