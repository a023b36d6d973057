//! How a session comes to its end.

/// How `debug` came to its end.
#[derive(Clone, Copy)]
pub enum Outcome {
    /// The script was answered to its end or up to a `quit`.
    Ended,
    /// The program was refused, in one line.
    Refused,
    /// The source failed. What was written answers the whole lines that were read.
    ReadFault,
    /// The sink failed. What was written is a prefix of the transcript.
    WriteFault,
    /// The script has more than 2^24 bytes. What was written answers the lines that end among the first 2^24.
    TooLong,
    /// Memory ran out for the load. Nothing was written.
    Memory,
}
