//! The memory of a run: the bytes of the data, and a stack that grows upward and keeps its dead bytes.

ghost use Rattle.std.specs.Prelude.{◌≡◌, ◌≢◌, ◌+◌, ◌-◌, ◌<◌, ◌≤◌, ◌^◌, ◌↔◌, [], length, IsTrue, IsSome, IfSome, OnSome, OnOk, OnErr, IfOk, IfErr, option_map};
ghost use Rattle.qil_layout.specs.Layout.{data_base, rounded, low_bytes, zeros, bytes_of};
ghost use Rattle.qil_memory.specs.Buffers.{stack_base, stack_end, fresh, IsMemory};
ghost use Rattle.qil_memory.specs.Bytes.{number};
ghost use Rattle.qil_memory.specs.Live.{live, read, laid, below};
ghost use Rattle.qil_memory.specs.Calls.{IsWidth, IsAlignment, loaded, stored, overlap, blitted, Explains};
ghost use Rattle.qil_memory.specs.Undo.{Fits, undone, with_bytes, with_top};
ghost use Rattle.qil_memory.specs.Places.{IsLive, IsSpan, HasBytes, HasPlaces, bytes_at, live_end};
ghost use Rattle.qil_memory.specs.Kept.{listed, IsThrifty};

use crate::bytes::{are_same, clear, exchange, number_of, spelled, write, write_number, zeroed};
use crate::fault::{AllocFault, BlitFault, Dead};
use crate::saved::{KeptBytes, Saved, keep};
use qil_layout::{DATA_BASE, Image, rounded_up};
use std::alloc::{AllocError, Allocator};
use std::marker::Model;

/// The address of the first byte of the stack.
pub const STACK_BASE: u64 = 16_777_216;

/// How many bytes the stack has, and the data has at most.
pub const CAPACITY: u64 = 1_048_576;

/// The highest top.
const STACK_END: u64 = STACK_BASE + CAPACITY;

/// The bytes of the data from `DATA_BASE` on, all bytes of the stack from `STACK_BASE` on, and the stack's top, the first
/// dead address of the stack. Specifications see these three as they are; `live` makes of them the map from each live
/// address to its byte.
#[derive(Drop)]
pub struct Memory<A: Allocator> {
    data_bytes: Vec<u8, A>,
    stack_bytes: Vec<u8, A>,
    top: u64,
}

impl<A: Allocator> Model for Memory<A> {
    ghost use Rattle.qil_memory.specs.Buffers.{Buffers, IsMemory};

    ghost Value = { Buffers };

    ghost view = { λ m. record { data_bytes = m.data_bytes.items; stack_bytes = m.stack_bytes.items; top = m.top } };

    ghost invariant = { λ m. IsMemory (record { data_bytes = m.data_bytes.items; stack_bytes = m.stack_bytes.items; top = m.top }) };
}

impl<A: Allocator + Copy> Memory<A> {
    /// The memory at the start of a run: the bytes of the image's data, and an empty stack, all bytes of which are
    /// reserved here.
    pub fn new(alloc: A, image: &Image<'_, A>) -> Result<Memory<A>, AllocError>
        ensures { IfOk result (λ m. m ≡ fresh (bytes_of image.now)) }
    {
        Ok(Memory {
            data_bytes: Vec::from_slice(alloc, image.bytes())?,
            stack_bytes: zeroed(alloc, CAPACITY as usize)?,
            top: STACK_BASE,
        })
    }

    /// An equal memory, with dead bytes too.
    pub fn try_clone(&self) -> Result<Memory<A>, AllocError>
        ensures { IfOk result (λ m. m ≡ self.now) }
    {
        Ok(Memory {
            data_bytes: self.data_bytes.clone()?,
            stack_bytes: self.stack_bytes.clone()?,
            top: self.top,
        })
    }

    /// Whether two memories are equal in all that they hold, dead bytes too.
    pub fn same(&self, other: &Memory<A>) -> bool
        ensures { IsTrue result ↔ (self.now ≡ other.now) }
    {
        self.top == other.top
            && are_same(self.data_bytes.as_slice(), other.data_bytes.as_slice())
            && are_same(self.stack_bytes.as_slice(), other.stack_bytes.as_slice())
    }

    /// The address from which on the stack is dead: new bytes are made there.
    #[inline(always)]
    pub fn top(&self) -> u64
        ensures value { result ≡ self.now.top }
        ensures memory { IsMemory self.now }
    {
        self.live_end(STACK_BASE)
    }

    /// The number in the `n` bytes from an address on, the least significant first. It takes no memory.
    ///
    /// # Errors
    ///
    /// The bytes aren't all live.
    #[inline(always)]
    pub fn load(&self, address: u64, n: u64) -> Result<u64, Dead>
        requires { IsWidth n }
        ensures { result ≡ loaded (live self.now) address n }
    {
        match self.live_bytes(address, n) {
            Some(bytes) => Ok(number_of(bytes)),
            None => Err(Dead { address }),
        }
    }

    /// The number in the `n` bytes from an address on, if all are live: they are its low bytes, so that equal numbers are of
    /// equal bytes. It takes no memory.
    #[inline(always)]
    pub fn number_at(&self, address: u64, n: u64) -> Option<u64>
        requires { IsWidth n }
        ensures number { result ≡ option_map number (read (live self.now) address n) }
        ensures bytes { option_map (low_bytes n) result ≡ read (live self.now) address n }
    {
        match self.live_bytes(address, n) {
            Some(bytes) => Some(spelled(bytes)),
            None => None,
        }
    }

    /// The byte at an address, if it is live. It takes no memory.
    pub fn byte(&self, address: u64) -> Option<u8>
        ensures value { result ≡ live self.now address }
        ensures inside { IfSome result (λ _. address < STACK_END) }
    {
        match self.live_bytes(address, 1) {
            Some(bytes) => Some(bytes[0]),
            None => None,
        }
    }

    /// Writes the `n` low bytes of a number from an address on, the least significant first, and answers the number that
    /// stood there, which `put_back` puts back. It takes no memory.
    ///
    /// # Errors
    ///
    /// The bytes aren't all live; nothing is changed.
    #[inline(always)]
    pub fn exchange(&mut self, address: u64, n: u64, v: u64) -> Result<u64, Dead>
        requires { IsWidth n }
        ensures ok { OnOk result (stored (live self.old) address n v ≡ Ok (live self.new)) }
        ensures dead { IfErr result (λ e. stored (live self.old) address n v ≡ Err e) }
        ensures top { self.new.top ≡ self.old.top }
        ensures inside { OnOk result (address + n ≤ STACK_END) }
        ensures places { IfOk result (λ old. HasPlaces self.new address (low_bytes n old)) }
        ensures undo { IfOk result (λ old. with_bytes self.new address (low_bytes n old) ≡ self.old) }
        ensures err { OnErr result (self.new ≡ self.old) }
    {
        match self.exchange_live(address, n, v) {
            Some(old) => Ok(old),
            None => Err(Dead { address }),
        }
    }

    /// Writes the `n` low bytes of a number from an address on, be they live or dead: of a number that `exchange` gave, it
    /// puts back what stood there. It takes no memory.
    #[inline(always)]
    pub fn put_back(&mut self, address: u64, n: u64, number: u64)
        requires few { n ≤ 8 }
        requires places { HasPlaces self.old address (low_bytes n number) }
        ensures after { self.new ≡ with_bytes self.old address (low_bytes n number) }
        ensures top { self.new.top ≡ self.old.top }
    {
        if n > 0 {
            self.put_number(address, n as usize, number);
        }
    }

    /// Copies `n` bytes from one address to another (QBE IL, Memory). No bytes are copied from and to anywhere, live or
    /// not. Up to 32 bytes take no memory.
    ///
    /// # Errors
    ///
    /// Nothing is changed. `Source` and `Target` where these bytes aren't all live, `Source` first; `Overlap` where the
    /// two share some bytes and aren't the same; `OutOfMemory` only where none of these comes.
    pub fn blit(&mut self, source: u64, target: u64, n: u64) -> Result<Saved<A>, BlitFault>
        ensures ok { OnOk result (blitted (live self.old) source target n ≡ Ok (live self.new)) }
        ensures fault { IfErr result (λ e. Explains e (blitted (live self.old) source target n)) }
        ensures few { n ≤ 32 → result ≢ Err BlitFault.OutOfMemory }
        ensures top { self.new.top ≡ self.old.top }
        ensures kept { IfOk result (λ saved. length saved.bytes ≡ n) }
        ensures fits { IfOk result (λ saved. Fits saved self.new) }
        ensures undo { IfOk result (λ saved. undone saved self.new ≡ self.old) }
        ensures err { OnErr result (self.new ≡ self.old) }
    {
        if n == 0 {
            return Ok(Saved::new(STACK_BASE, KeptBytes::Few(0, 0), self.top()));
        }
        self.test_blit(source, target, n)?;
        let count = n as usize;
        let kept = keep(self.allocator(), self.bytes_at(target, count))?;
        self.copy_bytes(source, target, count);
        Ok(Saved::new(target, kept, self.top()))
    }

    /// Makes `n` bytes on top of the stack, at the least multiple of `align` that isn't below the top, and answers their
    /// address (QBE IL, Memory). They are zero, and so are those that are skipped. Up to 32 bytes in all take no
    /// memory.
    ///
    /// # Errors
    ///
    /// Nothing is changed. `Full` where the new top would pass the end of the stack; `OutOfMemory` only where it
    /// wouldn't.
    pub fn alloc(&mut self, align: u64, n: u64) -> Result<(u64, Saved<A>), AllocFault>
        requires { IsAlignment align }
        ensures address { IfOk result (λ r. r.0 ≡ rounded align self.old.top) }
        ensures top { OnOk result (self.new.top ≡ rounded align self.old.top + n) }
        ensures bytes { OnOk result (live self.new ≡ laid (live self.old) self.old.top (zeros (self.new.top - self.old.top))) }
        ensures full { (result ≡ Err AllocFault.Full) ↔ (stack_end < rounded align self.old.top + n) }
        ensures few { rounded align self.old.top + n ≤ self.old.top + 32 → result ≢ Err AllocFault.OutOfMemory }
        ensures kept { IfOk result (λ r. length r.1.bytes ≡ self.new.top - self.old.top) }
        ensures fits { IfOk result (λ r. Fits r.1 self.new) }
        ensures undo { IfOk result (λ r. undone r.1 self.new ≡ self.old) }
        ensures err { OnErr result (self.new ≡ self.old) }
    {
        let top = self.top();
        let Some(address) = self.room(align, n) else {
            return Err(AllocFault::Full);
        };
        let end = address + n;
        let count = (end - top) as usize;
        let kept = keep(self.allocator(), self.bytes_at(top, count))?;
        self.clear(top, count);
        self.set_top(end);
        Ok((address, Saved::new(top, kept, top)))
    }

    /// Moves the top, to which `undo` and a second call move it back. The bytes of the stack stay, live or dead. It takes
    /// no memory.
    #[inline(always)]
    pub fn set_top(&mut self, top: u64)
        requires low { STACK_BASE ≤ top }
        requires high { top ≤ STACK_END }
        ensures after { self.new ≡ with_top self.old top }
        ensures lowered { top ≤ self.old.top → live self.new ≡ below (live self.old) top }
        ensures undo { with_top self.new self.old.top ≡ self.old }
        ensures memory { IsMemory self.new }
    {
        self.top = top;
    }

    /// Puts back what a call kept: the bytes, live or dead, and the top. It takes no memory. `Saved::fits` is the test of
    /// its condition.
    pub fn undo(&mut self, saved: Saved<A>)
        requires { Fits saved self.old }
        ensures { self.new ≡ undone saved self.old }
    {
        // The facts that the type keeps are known from where a field is read.
        let _ = &self.top;
        let Saved {
            address,
            top,
            bytes,
        } = saved;
        self.put_kept(u64::from(address), &bytes);
        self.set_top(u64::from(top));
    }
}

/// Where bytes are.
impl<A: Allocator + Copy> Memory<A> {
    /// Whether the buffers have `n` bytes from an address on, be they live or dead: where they do, or there are none,
    /// `put_back` may be called.
    pub fn has_bytes(&self, address: u64, n: usize) -> bool
        ensures places { IsTrue result ↔ HasBytes self.now address n }
        ensures memory { IsMemory self.now }
    {
        let end = if address < STACK_BASE {
            DATA_BASE + self.data_bytes.len() as u64
        } else {
            STACK_END
        };
        is_between(address, n as u64, end)
    }

    /// How many bytes the data has.
    pub fn data_length(&self) -> usize
        ensures { result ≡ length self.now.data_bytes }
    {
        self.data_bytes.len()
    }

    /// The place among the bytes of the stack from which on `n` live bytes have their addresses from this one on.
    #[inline(always)]
    fn stack_place(&self, address: u64, n: u64) -> Option<usize>
        ensures place { IsSpan stack_base (self.now.top - stack_base) address n result }
        ensures memory { IsMemory self.now }
    {
        place_among(STACK_BASE, self.top - STACK_BASE, address, n)
    }

    /// The same among the bytes of the data.
    #[inline(always)]
    fn data_place(&self, address: u64, n: u64) -> Option<usize>
        ensures place { IsSpan data_base (length self.now.data_bytes) address n result }
        ensures memory { IsMemory self.now }
    {
        place_among(DATA_BASE, self.data_bytes.len() as u64, address, n)
    }

    /// The `n` bytes from an address on, if all are live.
    #[inline(always)]
    fn live_bytes(&self, address: u64, n: u64) -> Option<&[u8]>
        ensures live { IsSome result ↔ IsLive self.now address n }
        ensures bytes { IfSome result (λ bytes. bytes.now ≡ bytes_at self.now address n) }
        ensures count { IfSome result (λ bytes. length bytes.now ≡ n) }
        ensures memory { IsMemory self.now }
    {
        if let Some(at) = self.stack_place(address, n) {
            return Some(&self.stack_bytes[at..at + n as usize]);
        }
        if let Some(at) = self.data_place(address, n) {
            return Some(&self.data_bytes[at..at + n as usize]);
        }
        None
    }

    /// Writes the `n` low bytes of a number from an address on, if all are live, and answers the number that stood there.
    #[inline(always)]
    fn exchange_live(&mut self, address: u64, n: u64, v: u64) -> Option<u64>
        requires { n ≤ 8 }
        ensures live { IsSome result ↔ IsLive self.old address n }
        ensures old { IfSome result (λ old. low_bytes n old ≡ bytes_at self.old address n) }
        ensures new { OnSome result (self.new ≡ with_bytes self.old address (low_bytes n v)) }
        ensures none { result ≡ None → self.new ≡ self.old }
        ensures memory { IsMemory self.old }
    {
        if let Some(at) = self.stack_place(address, n) {
            return Some(exchange(&mut self.stack_bytes, at, n as usize, v));
        }
        if let Some(at) = self.data_place(address, n) {
            return Some(exchange(&mut self.data_bytes, at, n as usize, v));
        }
        None
    }
}

/// The parts of the calls: each goes to the one buffer that has the address.
impl<A: Allocator + Copy> Memory<A> {
    /// The end of the live addresses among which an address would be.
    fn live_end(&self, address: u64) -> u64
        ensures value { result ≡ live_end self.now address }
        ensures high { result ≤ STACK_END }
        ensures memory { IsMemory self.now }
    {
        if address < STACK_BASE {
            DATA_BASE + self.data_bytes.len() as u64
        } else {
            self.top
        }
    }

    /// Whether `n` bytes from an address on are live.
    #[tactic(auto, using(crate::proofs::Undoing::has_live))]
    fn is_live(&self, address: u64, n: u64) -> bool
        ensures live { IsTrue result ↔ IsLive self.now address n }
        ensures places { IsTrue result → HasBytes self.now address n }
        ensures inside { IsTrue result → address + n ≤ STACK_END }
        ensures memory { IsMemory self.now }
    {
        is_between(address, n, self.live_end(address))
    }

    /// Why `n` bytes, of which there are some, can't be copied from one address to another, where they can't.
    pub(crate) fn test_blit(&self, source: u64, target: u64, n: u64) -> Result<(), BlitFault>
        requires { 0 < n }
        ensures ok { OnOk result (blitted (live self.now) source target n ≡ Ok (live (with_bytes self.now target (bytes_at self.now source n)))) }
        ensures fault { IfErr result (λ e. blitted (live self.now) source target n ≡ Err e) }
        ensures memory { result ≢ Err BlitFault.OutOfMemory }
        ensures source { OnOk result (HasBytes self.now source n) }
        ensures target { OnOk result (HasBytes self.now target n) }
        ensures inside { OnOk result (target + n ≤ STACK_END) }
        ensures valid { IsMemory self.now }
    {
        if !self.is_live(source, n) {
            return Err(BlitFault::Source(source));
        }
        if !self.is_live(target, n) {
            return Err(BlitFault::Target(target));
        }
        if overlaps(source, target, n) {
            return Err(BlitFault::Overlap);
        }
        Ok(())
    }

    /// The address that `n` bytes on top of the stack would have, where the stack has room for them.
    #[inline(always)]
    pub(crate) fn room(&self, align: u64, n: u64) -> Option<u64>
        requires { IsAlignment align }
        ensures address { IfSome result (λ address. address ≡ rounded align self.now.top) }
        ensures full { (result ≡ None) ↔ (stack_end < rounded align self.now.top + n) }
        ensures low { IfSome result (λ address. self.now.top ≤ address) }
        ensures high { IfSome result (λ address. address + n ≤ STACK_END) }
    {
        let address = aligned(align, self.top());
        if address > STACK_END || n > STACK_END - address {
            return None;
        }
        Some(address)
    }

    /// The `n` bytes from an address on, be they live or dead.
    pub fn bytes_at(&self, address: u64, n: usize) -> &[u8]
        requires { HasBytes self.now address n }
        ensures { result.now ≡ bytes_at self.now address n }
    {
        if address < STACK_BASE {
            let from = (address - DATA_BASE) as usize;
            &self.data_bytes[from..from + n]
        } else {
            let from = (address - STACK_BASE) as usize;
            &self.stack_bytes[from..from + n]
        }
    }

    #[inline(always)]
    fn put_number(&mut self, address: u64, n: usize, v: u64)
        requires few { n ≤ 8 }
        requires places { HasBytes self.old address n }
        ensures { self.new ≡ with_bytes self.old address (low_bytes n v) }
    {
        if address < STACK_BASE {
            write_number(&mut self.data_bytes, (address - DATA_BASE) as usize, n, v);
        } else {
            write_number(&mut self.stack_bytes, (address - STACK_BASE) as usize, n, v);
        }
    }

    /// Writes bytes over those from an address on, be they live or dead. It takes no memory.
    pub fn put(&mut self, address: u64, bytes: &[u8])
        requires { HasBytes self.old address (length bytes.now) }
        ensures { self.new ≡ with_bytes self.old address bytes.now }
    {
        if address < STACK_BASE {
            write(&mut self.data_bytes, (address - DATA_BASE) as usize, bytes);
        } else {
            write(
                &mut self.stack_bytes,
                (address - STACK_BASE) as usize,
                bytes,
            );
        }
    }

    /// Writes kept bytes over those from an address on.
    fn put_kept(&mut self, address: u64, kept: &KeptBytes<A>)
        requires thrifty { IsThrifty kept.now }
        requires places { HasPlaces self.old address (listed kept.now) }
        ensures { self.new ≡ with_bytes self.old address (listed kept.now) }
    {
        match kept {
            KeptBytes::Few(count, number) => {
                self.put_back(address, u64::from(*count), *number);
            }
            KeptBytes::Short(bytes) => self.put(address, bytes),
            KeptBytes::Many(bytes) => self.put(address, bytes),
        }
    }

    /// Copies `n` bytes from one address to another.
    pub(crate) fn copy_bytes(&mut self, source: u64, target: u64, n: usize)
        requires source { HasBytes self.old source n }
        requires target { HasBytes self.old target n }
        ensures { self.new ≡ with_bytes self.old target (bytes_at self.old source n) }
    {
        if source < STACK_BASE {
            let from = (source - DATA_BASE) as usize;
            if target < STACK_BASE {
                let to = (target - DATA_BASE) as usize;
                self.data_bytes.copy_within(from..from + n, to);
            } else {
                let to = (target - STACK_BASE) as usize;
                write(&mut self.stack_bytes, to, &self.data_bytes[from..from + n]);
            }
        } else {
            let from = (source - STACK_BASE) as usize;
            if target < STACK_BASE {
                let to = (target - DATA_BASE) as usize;
                write(&mut self.data_bytes, to, &self.stack_bytes[from..from + n]);
            } else {
                let to = (target - STACK_BASE) as usize;
                self.stack_bytes.copy_within(from..from + n, to);
            }
        }
    }

    /// Makes bytes of the stack zero.
    pub(crate) fn clear(&mut self, address: u64, n: usize)
        requires stack { stack_base ≤ address }
        requires places { HasBytes self.old address n }
        ensures { self.new ≡ with_bytes self.old address (zeros n) }
    {
        let from = (address - STACK_BASE) as usize;
        clear(&mut self.stack_bytes, from, n);
    }

    fn allocator(&self) -> A {
        *self.stack_bytes.allocator()
    }
}

/// Whether `n` bytes from an address on lie between the begin of the data and an end.
#[inline(always)]
fn is_between(address: u64, n: u64, end: u64) -> bool
    ensures { IsTrue result ↔ (data_base ≤ address) × (address + n ≤ end) }
{
    DATA_BASE <= address && address <= end && n <= end - address
}

/// The place of an address among `count` bytes from a base on, if there are `n` bytes from it on.
#[inline(always)]
fn place_among(base: u64, count: u64, address: u64, n: u64) -> Option<usize>
    requires { base + count < 2 ^ 64 }
    ensures { IsSpan base count address n result }
{
    let at = address.wrapping_sub(base);
    if at <= count && n <= count - at {
        Some(at as usize)
    } else {
        None
    }
}

/// The least multiple of an alignment that isn't below an address, without a division by a variable.
#[inline(always)]
fn aligned(align: u64, at: u64) -> u64
    requires align { IsAlignment align }
    requires room { at + 16 ≤ 2 ^ 64 }
    ensures value { result ≡ rounded align at }
    ensures low { at ≤ result }
{
    match align {
        4 => rounded_up(4, at),
        8 => rounded_up(8, at),
        _ => rounded_up(16, at),
    }
}

/// Whether two spans of `n` bytes share some bytes and aren't the same.
fn overlaps(source: u64, target: u64, n: u64) -> bool
    requires source { source + n < 2 ^ 64 }
    requires target { target + n < 2 ^ 64 }
    ensures { result ≡ overlap source target n }
{
    source != target && source < target + n && target < source + n
}
