//! Why nothing was run.

ghost use Rattle.std.specs.Prelude.{◌≡◌};
ghost use Rattle.qil_options.specs.Status.{failure_status};

/// Why nothing was run.
#[derive(Clone, Copy)]
pub enum Failure {
    /// Help was asked for and printed.
    Helped,
    /// Help was asked for, and standard output failed.
    Unhelped,
    /// The command line is bad, and why was printed.
    Usage,
    /// A file could not be read, and that was printed.
    Unreadable,
    /// The system gave no random bytes.
    NoKeys,
    /// Memory ran out.
    OutOfMemory,
}

impl Failure {
    /// The status that the process ends with.
    pub fn status(self) -> u8
        ensures { result ≡ failure_status self }
    {
        match self {
            Failure::Helped => 0,
            Failure::Unhelped | Failure::Unreadable | Failure::NoKeys => 2,
            Failure::OutOfMemory => 3,
            Failure::Usage => 64,
        }
    }
}
