//! Where data and functions begin, and the next address of an alignment.

ghost use Rattle.std.specs.Prelude.{◌≡◌, ◌+◌, ◌-◌, ◌^◌, ◌<◌, ◌≤◌};
ghost use Rattle.qil_layout.specs.Layout.{rounded};

/// The address of the first byte of the data.
pub const DATA_BASE: u64 = 65_536;

/// The address of the first function.
pub const FUNC_BASE: u64 = 4096;

/// How far the addresses of two functions are apart.
pub const FUNC_STRIDE: u64 = 16;

/// The addresses of the built-in functions.
pub const PUTCHAR: u64 = 1024;

pub const PUTS: u64 = 1040;

pub const EXIT: u64 = 1056;

/// The least multiple of an alignment that isn't below an address.
pub fn rounded_up(align: u64, at: u64) -> u64
    requires some { 0 < align }
    requires room { at + align ≤ 2 ^ 64 }
    ensures value { result ≡ rounded align at }
    ensures low { at ≤ result }
{
    (at + (align - 1)) / align * align
}
