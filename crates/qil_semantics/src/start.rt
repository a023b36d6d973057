//! Why a run does not start.

ghost use Rattle.std.specs.Prelude.{◌≡◌, Some};
ghost use Rattle.qil_semantics.specs.StartCode.{start_code};

use std::fmt;

/// Why no run starts.
#[derive(Clone, Copy)]
pub enum StartFault {
    /// The program has no function of that name.
    NoEntry,
    /// The function takes another number of arguments.
    ArgumentCount,
}

impl StartFault {
    /// The code that is reported.
    pub fn as_str(self) -> &'static str
        ensures { result.now ≡ start_code self }
    {
        match self {
            StartFault::NoEntry => "S1",
            StartFault::ArgumentCount => "S2",
        }
    }
}

impl fmt::Display for StartFault {
    ghost output = { λ fault. Some (start_code fault) };

    fn fmt<W: fmt::Write>(&self, f: &mut fmt::Formatter<W>) -> fmt::Result {
        f.write_str(self.as_str())
    }
}
