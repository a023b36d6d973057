//! Many bytes of a memory at once: a list of those from an address on, and a list written over them.

ghost use Rattle.std.specs.Prelude.{◌≡◌, length, IfOk};
ghost use Rattle.qil_memory.specs.Buffers.{IsMemory};
ghost use Rattle.qil_memory.specs.Undo.{with_bytes};
ghost use Rattle.qil_memory.specs.Places.{IsLive, HasBytes, bytes_at};

use qil_memory::Memory;
use std::alloc::{AllocError, Allocator};

/// The bytes from an address on, all of which are live, in a list of just that size.
#[tactic(auto, using(qil_memory::proofs::Undoing::has_live))]
pub fn read_from<A: Allocator + Copy>(
    memory: &Memory<A>,
    address: u64,
    count: usize,
    alloc: A,
) -> Result<Vec<u8, A>, AllocError>
    requires memory { IsMemory memory.now }
    requires live { IsLive memory.now address count }
    ensures { IfOk result (λ bytes. bytes.items ≡ bytes_at memory.now address count) }
{
    Vec::from_slice(alloc, memory.bytes_at(address, count))
}

/// Writes bytes over those from an address on, be they live or dead.
pub fn write_from<A: Allocator + Copy>(memory: &mut Memory<A>, address: u64, bytes: &[u8])
    requires memory { IsMemory memory.old }
    requires places { HasBytes memory.old address (length bytes.now) }
    ensures after { memory.new ≡ with_bytes memory.old address bytes.now }
    ensures memory { IsMemory memory.new }
{
    memory.put(address, bytes);
    // What any memory is, its top says.
    let _ = memory.top();
}
