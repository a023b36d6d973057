//! How a comparison came to its end.

use qil_compare::Verdict;

/// How `compare_texts` came to its end.
#[derive(Clone, Copy)]
pub enum Outcome {
    /// Both texts were run, and this was told. A script was answered to its end or up to a `quit`, if one was asked for.
    Told(Verdict),
    /// One of the texts was refused, in one line.
    Refused,
    /// Memory ran out for the session. What was told is all that was written.
    Unserved,
    /// The source failed. What was written behind what was told answers the whole lines that were read.
    ReadFault,
    /// The sink failed. What was written is a prefix of what was to be written.
    WriteFault,
    /// The script has more than 2^24 bytes. What was written behind what was told answers the lines that end among the first
    /// 2^24.
    TooLong,
    /// Memory ran out for the load. Nothing was written.
    Memory,
}
