//! What is written of a text that isn't loaded.

ghost use Rattle.std.specs.Prelude.{◌-◌, ◌^◌, ◌<◌};
ghost use Rattle.qil_streams.specs.Device.{Counts, HasPut, Puts};
ghost use Rattle.qil_comparison.specs.Compared.{CountsFaults, refusal_text};
ghost use Rattle.qil_comparison.specs.Handed.{IsRefused};

use crate::outcome::Outcome;
use qil_fragments::{Fragment, put_fragments};
use qil_loading::{LoadError, Refusal, put_refusal_line};
use qil_streams::{Outlet, Put, PutError, Sink};

/// Puts the line of a refusal, after the name of its file.
fn put_refusal<P: Put>(out: &mut P, name: &[u8], refusal: Refusal) -> Result<(), PutError>
    requires { P.stops out.old < 2 ^ 64 - 1 }
    ensures { HasPut P.written P.stops P.device result out.old out.new (refusal_text name.now refusal) }
{
    put_fragments(out, &[Fragment::Bytes(name), Fragment::Bytes(b": ")])?;
    put_refusal_line(out, refusal)
}

/// Writes that line.
fn write_refusal<W: Sink>(sink: &mut W, name: &[u8], refusal: Refusal) -> Result<(), PutError>
    requires { W.failures sink.old < 2 ^ 64 - 1 }
    ensures text { Puts result (W.contents sink.old) (W.contents sink.new) (refusal_text name.now refusal) }
    ensures counted { Counts result (W.failures sink.old) (W.failures sink.new) }
{
    let mut out = Outlet { sink };
    let put = put_refusal(&mut out, name, refusal);
    let Outlet { sink: _ } = out;
    put
}

/// Writes why a text isn't loaded. Where memory ran out nothing is written.
pub fn refuse<W: Sink>(sink: &mut W, name: &[u8], error: LoadError) -> Outcome
    requires { W.failures sink.old < 2 ^ 64 - 1 }
    ensures refused { IsRefused result name.now error (W.contents sink.old) (W.contents sink.new) }
    ensures counted { CountsFaults result 0 0 (W.failures sink.old) (W.failures sink.new) }
{
    match error {
        LoadError::Refused(refusal) => match write_refusal(sink, name, refusal) {
            Ok(()) => Outcome::Refused,
            Err(PutError) => Outcome::WriteFault,
        },
        LoadError::OutOfMemory => Outcome::Memory,
    }
}
