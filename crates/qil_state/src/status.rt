//! How a run stands, and why a step can't be taken as written.

ghost use Rattle.std.specs.Prelude.{◌≡◌};

use qil_code::Slot;
use qil_memory::Dead;
use qil_ops::DivFault;

/// Why a step could not be taken as written. The run ends there, with all but its status as it was.
#[derive(Clone, Copy, PartialEq, Eq)]
pub enum Fault {
    Division(DivFault),
    DeadAddress(u64),
    Unset(Slot),
    OverlappingBlit,
    StackFull,
    CallsTooDeep,
    NoFunction(u64),
    CallShape,
    OutputFull,
    Halted,
}

impl From<DivFault> for Fault {
    ghost use Rattle.qil_state.specs.declared.status.Fault.TheVariants as faults;

    ghost from_gives = { λ e w. w ≡ faults.Division e };

    fn from(e: DivFault) -> Fault {
        Fault::Division(e)
    }
}

impl From<Dead> for Fault {
    ghost use Rattle.qil_state.specs.declared.status.Fault.TheVariants as faults;

    ghost from_gives = { λ e w. w ≡ faults.DeadAddress e.address };

    fn from(e: Dead) -> Fault {
        Fault::DeadAddress(e.address)
    }
}

/// A run goes on, or it is over.
#[derive(Clone, Copy, PartialEq, Eq)]
pub enum Status {
    Running,
    /// With the value that was returned, if there was one.
    Done(Option<u64>),
    /// With the word that the run ended itself with.
    Exited(u64),
    Faulted(Fault),
}
