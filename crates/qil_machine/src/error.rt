//! Why a machine doesn't move.

use qil_state::Fault;
use thiserror::Error;

/// Why no move was made. The machine is as it was.
#[derive(Clone, Copy, Debug, Error)]
pub enum MoveError {
    /// The run is over.
    #[error("at end")]
    AtEnd,
    #[error("out of memory")]
    OutOfMemory,
}

/// Why nothing was poked. The machine is as it was.
#[derive(Clone, Copy, Debug, Error)]
pub enum PokeError {
    /// The run is done, and no frame is left.
    #[error("no frame")]
    NoFrame,
    /// Not all of the bytes are live.
    #[error("dead address")]
    DeadAddress,
    /// The innermost function has no such temporary.
    #[error("unknown temporary")]
    UnknownTemporary,
    #[error("out of memory")]
    OutOfMemory,
}

/// Why a machine isn't started.
#[derive(Clone, Copy, Debug, Error)]
pub enum StartError {
    /// The program has no function of that name.
    #[error("S1")]
    NoEntry,
    /// The function takes another number of arguments.
    #[error("S2")]
    ArgumentCount,
    #[error("out of memory")]
    OutOfMemory,
}

/// Why a step isn't made as written.
#[derive(Clone, Copy)]
pub(crate) enum StepError {
    Fault(Fault),
    OutOfMemory,
}

impl From<Fault> for StepError {
    ghost use Rattle.std.specs.Prelude.{◌≡◌};
    ghost use Rattle.qil_machine.specs.declared.error.StepError.TheVariants.{Fault as IsFault};

    ghost from_gives = { λ fault e. e ≡ IsFault fault };

    fn from(fault: Fault) -> StepError {
        StepError::Fault(fault)
    }
}
