//! What comes of a question.

use std::process::ExitCode;

/// What came of a text, next to the lines that were reported on the way.
#[derive(Clone, Copy)]
pub enum Answer {
    /// The lines that were written say everything.
    Reported,
    /// The program has no `$main` without parameters.
    Refused,
    /// The code is the tree's in every part.
    Same,
    /// Code and tree differ, first at a line of the text.
    DiffersAtLine(u32),
    /// The histories differ, first at a position.
    DiffersAt(u64),
    /// A line behind the text asks for no move.
    NoMove,
    /// The command line asks nothing.
    NoQuestion,
    /// There was no memory for the code.
    NoCode,
    /// There was no memory for the machine at its start.
    NoStart,
    /// There was no memory for the machine's copy.
    NoCopy,
    /// Standard input or output failed.
    Fault,
}

impl Answer {
    /// The last line up to its number; none where it is empty.
    fn words(self) -> &'static str {
        match self {
            Answer::Reported => "",
            Answer::Refused => "refused",
            Answer::Same => "same",
            Answer::DiffersAtLine(_) => "line",
            Answer::DiffersAt(_) => "differs at",
            Answer::NoMove => "a line that asks for no move",
            Answer::NoQuestion => "read-back, moves or histories",
            Answer::NoCode => "no memory for the code",
            Answer::NoStart => "no memory for a start",
            Answer::NoCopy => "no memory for a copy",
            Answer::Fault => "a device failed",
        }
    }

    fn number(self) -> Option<u64> {
        match self {
            Answer::DiffersAtLine(line) => Some(u64::from(line)),
            Answer::DiffersAt(position) => Some(position),
            _ => None,
        }
    }

    fn is_well(self) -> bool {
        match self {
            Answer::Reported | Answer::Refused | Answer::Same => true,
            _ => false,
        }
    }

    /// Writes the last line; whether it is written, and all is as it has to be.
    fn is_told<R: Print>(self, rt: &R) -> bool {
        let words = self.words();
        let is_written = match self.number() {
            Some(number) => println!(rt; "{words} {number}").is_ok(),
            None => words.is_empty() || println!(rt; "{words}").is_ok(),
        };
        is_written && self.is_well()
    }

    /// Tells the last line, and gives the status.
    pub fn tell<R: Print>(self, rt: &R) -> ExitCode {
        if self.is_told(rt) {
            ExitCode::SUCCESS
        } else {
            ExitCode::FAILURE
        }
    }
}

/// What comes of a question whose lines were written, or were not.
pub fn reported(is_written: bool) -> Answer {
    if is_written {
        Answer::Reported
    } else {
        Answer::Fault
    }
}
