//! Numbers as bytes, the least significant first.

ghost use Rattle.std.specs.Prelude.{◌≡◌, ◌↔◌, ◌+◌, ◌≤◌, length, slice_range, IsTrue, IfOk};
ghost use Rattle.qil_layout.specs.Layout.{low_bytes, zeros};
ghost use Rattle.qil_memory.specs.Bytes.{number, over};

use std::alloc::{AllocError, Allocator};

/// The number that at most eight bytes spell.
#[inline(always)]
pub fn number_of(bytes: &[u8]) -> u64
    requires { length bytes.now ≤ 8 }
    ensures { result ≡ number bytes.now }
{
    match bytes {
        [a] => u64::from(*a),
        [a, b] => u64::from(u16::from_le_bytes([*a, *b])),
        [a, b, c, d] => u64::from(u32::from_le_bytes([*a, *b, *c, *d])),
        [a, b, c, d, e, f, g, h] => u64::from_le_bytes([*a, *b, *c, *d, *e, *f, *g, *h]),
        _ => number_of_any(bytes),
    }
}

/// The same for a number of bytes that no width has.
#[inline(never)]
fn number_of_any(bytes: &[u8]) -> u64
    requires { length bytes.now ≤ 8 }
    ensures { result ≡ number bytes.now }
{
    let mut padded = [0; 8];
    padded[..bytes.len()].copy_from_slice(bytes);
    u64::from_le_bytes(padded)
}

/// The number whose low bytes these are.
#[inline(always)]
pub fn spelled(bytes: &[u8]) -> u64
    requires { length bytes.now ≤ 8 }
    ensures number { result ≡ number bytes.now }
    ensures bytes { low_bytes (length bytes.now) result ≡ bytes.now }
{
    number_of(bytes)
}

/// Writes bytes over those from a place on.
#[inline(always)]
pub fn write(target: &mut [u8], at: usize, bytes: &[u8])
    requires { at + length bytes.now ≤ length target.old }
    ensures { target.new ≡ over target.old at bytes.now }
{
    target[at..at + bytes.len()].copy_from_slice(bytes);
}

/// Writes over a whole slice: one store, where copying a slice is a loop or a call.
#[inline(always)]
fn write_whole<const N: usize>(target: &mut [u8], bytes: [u8; N])
    requires { length target.old ≡ N }
    ensures { target.new ≡ bytes.entry }
{
    match target.as_mut_array::<N>() {
        Some(place) => *place = bytes,
        None => unreachable!(),
    }
}

/// Writes as many bytes as a width has over those from a place on.
#[inline(always)]
fn write_width<const N: usize>(target: &mut [u8], at: usize, bytes: [u8; N])
    requires { at + N ≤ length target.old }
    ensures { target.new ≡ over target.old at bytes.entry }
{
    write_whole(&mut target[at..at + N], bytes);
}

/// Makes `n` bytes from a place on zero.
#[tactic(auto, unfolding(qil_layout::specs::Layout::zeros))]
pub fn clear(target: &mut [u8], at: usize, n: usize)
    requires { at + n ≤ length target.old }
    ensures { target.new ≡ over target.old at (zeros n) }
{
    target[at..at + n].fill(0);
}

/// Writes the `n` low bytes of a number over those from a place on.
#[inline(always)]
pub fn write_number(target: &mut [u8], at: usize, n: usize, v: u64)
    requires few { n ≤ 8 }
    requires inside { at + n ≤ length target.old }
    ensures { target.new ≡ over target.old at (low_bytes n v) }
{
    match n {
        1 => write_width(target, at, [(v % 0x100) as u8]),
        2 => write_width(target, at, ((v % 0x1_0000) as u16).to_le_bytes()),
        4 => write_width(target, at, ((v % 0x1_0000_0000) as u32).to_le_bytes()),
        8 => write_width(target, at, v.to_le_bytes()),
        _ => write(target, at, &v.to_le_bytes()[..n]),
    }
}

/// Writes the `n` low bytes of a number over those from a place on, and answers the number that stood there.
#[inline(always)]
pub fn exchange(target: &mut [u8], at: usize, n: usize, v: u64) -> u64
    requires few { n ≤ 8 }
    requires inside { at + n ≤ length target.old }
    ensures old { low_bytes n result ≡ slice_range target.old at (at + n) }
    ensures new { target.new ≡ over target.old at (low_bytes n v) }
{
    let old = spelled(&target[at..at + n]);
    write_number(target, at, n, v);
    old
}

pub fn are_same(bytes: &[u8], others: &[u8]) -> bool
    ensures { IsTrue result ↔ (bytes.now ≡ others.now) }
{
    bytes == others
}

/// So many zero bytes.
#[tactic(auto, unfolding(qil_layout::specs::Layout::zeros))]
pub fn zeroed<A: Allocator>(alloc: A, n: usize) -> Result<Vec<u8, A>, AllocError>
    ensures items { IfOk result (λ v. v.items ≡ zeros n) }
    ensures len { IfOk result (λ v. length v.items ≡ n) }
{
    vec![in alloc; 0; n]
}
