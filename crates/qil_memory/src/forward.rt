//! The calls for a run that never goes back: nothing is kept of what they change, and none of them takes memory.

ghost use Rattle.std.specs.Prelude.{◌≡◌, ◌≢◌, ◌+◌, ◌-◌, ◌<◌, ◌↔◌, OnOk, OnErr, IfOk, IfErr};
ghost use Rattle.qil_layout.specs.Layout.{rounded, zeros};
ghost use Rattle.qil_memory.specs.Buffers.{stack_end};
ghost use Rattle.qil_memory.specs.Live.{live, laid};
ghost use Rattle.qil_memory.specs.Calls.{IsAlignment, blitted};

use crate::fault::{AllocFault, BlitFault};
use crate::memory::Memory;
use std::alloc::Allocator;

impl<A: Allocator + Copy> Memory<A> {
    /// Does what `blit` does, and keeps nothing.
    ///
    /// # Errors
    ///
    /// Those of `blit` except `OutOfMemory`.
    pub fn copy(&mut self, source: u64, target: u64, n: u64) -> Result<(), BlitFault>
        ensures ok { OnOk result (blitted (live self.old) source target n ≡ Ok (live self.new)) }
        ensures fault { IfErr result (λ e. blitted (live self.old) source target n ≡ Err e) }
        ensures memory { result ≢ Err BlitFault.OutOfMemory }
        ensures top { self.new.top ≡ self.old.top }
        ensures err { OnErr result (self.new ≡ self.old) }
    {
        if n == 0 {
            return Ok(());
        }
        self.test_blit(source, target, n)?;
        self.copy_bytes(source, target, n as usize);
        Ok(())
    }

    /// Does what `alloc` does, answers the address, and keeps nothing.
    ///
    /// # Errors
    ///
    /// `Full`, as `alloc`; never `OutOfMemory`.
    pub fn grow(&mut self, align: u64, n: u64) -> Result<u64, AllocFault>
        requires { IsAlignment align }
        ensures address { IfOk result (λ address. address ≡ rounded align self.old.top) }
        ensures top { OnOk result (self.new.top ≡ rounded align self.old.top + n) }
        ensures bytes { OnOk result (live self.new ≡ laid (live self.old) self.old.top (zeros (self.new.top - self.old.top))) }
        ensures full { (result ≡ Err AllocFault.Full) ↔ (stack_end < rounded align self.old.top + n) }
        ensures memory { result ≢ Err AllocFault.OutOfMemory }
        ensures err { OnErr result (self.new ≡ self.old) }
    {
        let top = self.top();
        let Some(address) = self.room(align, n) else {
            return Err(AllocFault::Full);
        };
        let end = address + n;
        self.clear(top, (end - top) as usize);
        self.set_top(end);
        Ok(address)
    }
}
