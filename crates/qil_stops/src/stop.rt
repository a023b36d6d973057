//! One stop, and what a machine says of it.

ghost use Rattle.std.specs.Prelude.{◌≡◌, option_map};
ghost use Rattle.qil_layout.specs.Layout.{low_bytes};
ghost use Rattle.qil_memory.specs.Bytes.{number};
ghost use Rattle.qil_memory.specs.Calls.{IsWidth};
ghost use Rattle.qil_memory.specs.Live.{live, read};
ghost use Rattle.qil_semantics.specs.Stops.{is_held};
ghost use Rattle.qil_history.specs.qil_state.State.{state_of};
ghost use Rattle.qil_stops.specs.Listed.{HasWidth, IsReadable};
ghost use Rattle.qil_stops.specs.Named.{named_kind, passes};
ghost use Rattle.qil_stops.specs.Readings.{TellsWatched, Tells};

use qil_history::{BlockId, Machine, Slot};
use qil_layout::FuncId;
use std::alloc::Allocator;

/// A place where a run can stand: a block, and how many of its instructions are done. Where all are, the jump is next.
#[derive(Clone, Copy)]
pub struct Place {
    pub func: FuncId,
    pub block: BlockId,
    pub index: u64,
}

/// What a watch looks at.
#[derive(Clone, Copy)]
pub enum Watched {
    /// So many bytes of memory, 1, 2, 4 or 8, from an address on.
    Bytes { address: u64, width: u64 },
    /// A temporary, in the innermost frame of its function.
    Temp { func: FuncId, slot: Slot },
}

/// What a stop looks for.
#[derive(Clone, Copy)]
pub enum StopKind {
    /// The run comes to a place.
    Break(Place),
    /// What is watched reads otherwise than before the move.
    Watch(Watched),
}

/// A stop, and the number by which it is reported and deleted.
#[derive(Clone, Copy)]
pub struct NumberedStop {
    pub number: u64,
    pub kind: StopKind,
}

/// What a watch reads of memory. Eight bytes are read as one word, without a look at how many they are.
#[inline(always)]
fn bytes_reading<'c, A: Allocator + Copy>(
    machine: &Machine<'c, A>,
    address: u64,
    width: u64,
) -> Option<u64>
    requires { IsWidth width }
    ensures number { result ≡ option_map number (read (live machine.now.memory) address width) }
    ensures bytes { option_map (low_bytes width) result ≡ read (live machine.now.memory) address width }
{
    if width == 8 {
        return machine.memory_reading(address, 8);
    }
    machine.memory_reading(address, width)
}

/// What a watch reads: the number in the bytes, or the value of the temporary. Nothing where the bytes are dead, or the
/// temporary is unset or isn't there.
#[inline(always)]
fn reading<'c, A: Allocator + Copy>(watched: Watched, machine: &Machine<'c, A>) -> Option<u64>
    requires { HasWidth watched }
    ensures { TellsWatched machine.now.program (state_of machine.now) watched result }
{
    match watched {
        Watched::Bytes { address, width } => bytes_reading(machine, address, width),
        Watched::Temp { func, slot } => machine.temp_reading(func, slot),
    }
}

impl StopKind {
    /// What it reads; a breakpoint reads nothing.
    #[inline(always)]
    pub(crate) fn read<'s, 'c, A: Allocator + Copy>(
        &'s self,
        machine: &'s Machine<'c, A>,
    ) -> Option<u64>
        requires { IsReadable self.now }
        ensures { Tells machine.now.program (state_of machine.now) self.now result }
    {
        match *self {
            StopKind::Break(_) => None,
            StopKind::Watch(watched) => reading(watched, machine),
        }
    }

    /// Whether it is a breakpoint, and the run stands there.
    #[inline(always)]
    pub(crate) fn is_held<'s, 'c, A: Allocator + Copy>(
        &'s self,
        machine: &'s Machine<'c, A>,
    ) -> bool
        ensures { result ≡ passes (is_held (state_of machine.now)) (named_kind machine.now.program self.now) }
    {
        match *self {
            StopKind::Break(place) => machine.is_at(place.func, place.block, place.index),
            StopKind::Watch(_) => false,
        }
    }
}
