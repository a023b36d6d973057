//! Why the adapter can't go on.

use qil_streams::DeviceFault;
use std::alloc::AllocError;

/// Why the adapter can't go on.
#[derive(Clone, Copy)]
pub enum Trouble {
    OutOfMemory,
    /// The device that messages go to failed.
    Device,
}

impl From<AllocError> for Trouble {
    ghost use Rattle.qrev_notices.specs.declared.trouble.Trouble.TheVariants.{OutOfMemory};
    ghost use Rattle.std.specs.Prelude.{◌≡◌};

    ghost from_gives = { λ _ e. e ≡ OutOfMemory };

    fn from(_refused: AllocError) -> Self {
        Trouble::OutOfMemory
    }
}

impl From<DeviceFault> for Trouble {
    ghost use Rattle.qrev_notices.specs.declared.trouble.Trouble.TheVariants.{Device};
    ghost use Rattle.std.specs.Prelude.{◌≡◌};

    ghost from_gives = { λ _ e. e ≡ Device };

    fn from(_fault: DeviceFault) -> Self {
        Trouble::Device
    }
}
