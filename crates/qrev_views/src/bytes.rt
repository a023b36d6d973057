//! Bytes of memory, and the numbers that they are.

ghost use Rattle.std.specs.Prelude.{◌≡◌};
ghost use Rattle.qil_memory.specs.Calls.{IsWidth, loaded};
ghost use Rattle.qil_memory.specs.Live.{live};
ghost use Rattle.qrev_views.specs.Variables.{value_of};

use qil_code::Code;
use qil_render::Readers;
use std::alloc::Allocator;

/// The byte at an address, if it is live.
pub fn byte_at<'c, A: Allocator + Copy + 'c, M: Readers<A, Code<'c, A>>>(
    machine: &M,
    address: u64,
) -> Option<u8>
    ensures { result ≡ live (M.whole machine.now).memory address }
{
    machine.byte_after(address, 0)
}

/// The number in 1, 2, 4 or 8 bytes from an address on, if all of them are live.
pub fn value_at<'c, A: Allocator + Copy + 'c, M: Readers<A, Code<'c, A>>>(
    machine: &M,
    address: u64,
    width: u64,
) -> Option<u64>
    requires { IsWidth width }
    ensures { result ≡ value_of (loaded (live (M.whole machine.now).memory) address width) }
{
    let mut value: u64 = 0;
    for done in 0..width {
        // From the last byte on, which is the most significant one.
        match machine.byte_after(address, width - 1 - done) {
            Some(byte) => value = value * 256 + u64::from(byte),
            None => return None,
        }
    }
    Some(value)
}
