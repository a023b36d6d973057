//! The lines of all stops.

ghost use Rattle.std.specs.Prelude.{◌-◌, ◌<◌, ◌^◌};
ghost use Rattle.std.specs.List.{flat_map};
ghost use Rattle.qil_streams.specs.Device.{HasPut};
ghost use Rattle.qil_replies.specs.Texts.{listed_line, stops_shown};

use crate::texts::put_stop;
use qil_code::Code;
use qil_stops::NumberedStop;
use qil_streams::{Put, PutError, put_line};
use std::alloc::Allocator;

/// Puts the line of each stop.
fn put_listed<'c, A: Allocator + Copy, P: Put>(
    code: &Code<'c, A>,
    out: &mut P,
    stops: &[NumberedStop],
) -> Result<(), PutError>
    requires { P.stops out.old < 2 ^ 64 - 1 }
    ensures { HasPut P.written P.stops P.device result out.old out.new (flat_map (listed_line code.now) stops.now) }
{
    for stop in stops {
        put_stop(code, out, stop.number, stop.kind)?;
    }
    Ok(())
}

/// Puts the line of each stop, or that there is none.
pub fn put_stops<'c, A: Allocator + Copy, P: Put>(
    code: &Code<'c, A>,
    out: &mut P,
    stops: &[NumberedStop],
) -> Result<(), PutError>
    requires { P.stops out.old < 2 ^ 64 - 1 }
    ensures { HasPut P.written P.stops P.device result out.old out.new (stops_shown code.now stops.now) }
{
    if stops.len() == 0 {
        put_line(out, b"none")
    } else {
        put_listed(code, out, stops)
    }
}
