//! Why a request isn't done.

use std::alloc::AllocError;

/// What is wrong with a request.
#[derive(Clone, Copy)]
pub enum Cause {
    NoSession,
    SessionOpen,
    AlreadyConfigured,
    NotSupported,
    AnotherFile,
    NoSuchFrame,
    NoSuchVariables,
    ReadOnly,
    NewlineInValue,
    NoSuchName,
    QuitInConsole,
    NoFault,
    NoAddress,
    NoCount,
    NotBase64,
    DeadAddress,
    NoMemory,
    ScriptFull,
    Unset,
    DeadBytes,
    ZeroDivisor,
    BadShift,
    TooLarge,
    OfFloats,
    NotWhole,
    MovingWatch,
    NoPlace,
}

impl Cause {
    /// The message for the editor.
    pub fn as_str(self) -> &'static str {
        match self {
            Cause::NoSession => "no session",
            Cause::SessionOpen => "a session is open",
            Cause::AlreadyConfigured => "already configured",
            Cause::NotSupported => "not supported",
            Cause::AnotherFile => "another file",
            Cause::NoSuchFrame => "no such frame",
            Cause::NoSuchVariables => "no such variables",
            Cause::ReadOnly => "read-only",
            Cause::NewlineInValue => "a newline in a value",
            Cause::NoSuchName => "no such temporary or global here",
            Cause::QuitInConsole => "quit ends no session here",
            Cause::NoFault => "no fault",
            Cause::NoAddress => "no address",
            Cause::NoCount => "no count",
            Cause::NotBase64 => "not in base64",
            Cause::DeadAddress => "no: dead address",
            Cause::NoMemory => "no memory for the next move",
            Cause::ScriptFull => "the script is full",
            Cause::Unset => "unset",
            Cause::DeadBytes => "dead address",
            Cause::ZeroDivisor => "division by zero",
            Cause::BadShift => "a shift by less than 0 or more than 63",
            Cause::TooLarge => "a value of more than 127 bits",
            Cause::OfFloats => "no operation of floats: u(..) is the bits of one",
            Cause::NotWhole => "a float, and a whole number was expected",
            Cause::MovingWatch => "a watch that moves: take it in the console",
            Cause::NoPlace => "no place at or after this line",
        }
    }
}

/// Why a request isn't done.
#[derive(Clone, Copy)]
pub enum Failure {
    /// The session refused a line: its answer is the end of the transcript from there on.
    Answered(usize),
    Because(Cause),
    OutOfMemory,
}

impl From<AllocError> for Failure {
    ghost use Rattle.std.specs.Prelude.{◌≡◌};
    ghost use Rattle.qrev_debuggee.specs.declared.failure.Failure.TheVariants.{OutOfMemory};

    ghost from_gives = { λ _ failure. failure ≡ OutOfMemory };

    fn from(_refused: AllocError) -> Self {
        Failure::OutOfMemory
    }
}

impl From<Cause> for Failure {
    fn from(cause: Cause) -> Self {
        Failure::Because(cause)
    }
}
