//! The reply to `mem`: an address that the program has, or none.

ghost use Rattle.std.specs.Prelude.{◌≡◌};
ghost use Rattle.qil_replies.specs.SessionState.{resolved_address};
ghost use Rattle.qil_replies.specs.Answers.{memory_reply};

use crate::words::resolved_address;
use qil_code::Code;
use qil_commands::Address;
use qil_replies::{CommandRefusal, Reply};
use std::alloc::Allocator;

/// Replies to `mem ADDR N`.
pub fn show_bytes<'r, A: Allocator + Copy>(
    code: &Code<'_, A>,
    address: &Address<'_>,
    count: u32,
) -> Reply<'r, A>
    ensures { result ≡ memory_reply count (resolved_address code.now address.now) }
{
    match resolved_address(code, address) {
        Some(start) => Reply::Bytes(start, count),
        None => Reply::Refused(CommandRefusal::UnknownPlace),
    }
}
