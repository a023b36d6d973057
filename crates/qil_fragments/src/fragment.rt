//! A text that is put as a list of fragments.

ghost use Rattle.std.specs.Prelude.{◌-◌, ◌^◌, ◌<◌};
ghost use Rattle.std.specs.List.{flat_map};
ghost use Rattle.qil_streams.specs.Device.{HasPut};
ghost use Rattle.qil_fragments.specs.Texts.{fragment_text};

use qil_streams::{Put, PutError, put_number};

/// A part of a line: bytes as they are, or a number in decimal digits.
#[derive(Clone, Copy)]
pub enum Fragment<'p> {
    Bytes(&'p [u8]),
    Number(u64),
}

/// Puts one fragment.
fn put_fragment<P: Put>(out: &mut P, fragment: Fragment<'_>) -> Result<(), PutError>
    requires { P.stops out.old < 2 ^ 64 - 1 }
    ensures { HasPut P.written P.stops P.device result out.old out.new (fragment_text fragment.entry) }
{
    match fragment {
        Fragment::Bytes(bytes) => out.put(bytes),
        Fragment::Number(number) => put_number(out, number),
    }
}

/// Puts fragments of a text one after the other.
///
/// # Errors
///
/// `PutError` where `out` stopped. Then a prefix of the text was put.
pub fn put_fragments<P: Put>(out: &mut P, fragments: &[Fragment<'_>]) -> Result<(), PutError>
    requires { P.stops out.old < 2 ^ 64 - 1 }
    ensures { HasPut P.written P.stops P.device result out.old out.new (flat_map fragment_text fragments.now) }
{
    for fragment in fragments {
        put_fragment(out, *fragment)?;
    }
    Ok(())
}
