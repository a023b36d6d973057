//! Machines at the start of a program's run.

use crate::answer::Answer;
use qil_code::Code;
use qil_machine::{Machine, StartError};
use std::alloc::Allocator;

/// Why no machine was started.
fn unstarted(error: StartError) -> Answer {
    match error {
        StartError::OutOfMemory => Answer::NoStart,
        _ => Answer::Refused,
    }
}

/// A machine at the start of `$main`, or what is answered where there is none.
pub fn started<'c, A: Allocator + Copy>(
    alloc: A,
    code: &'c Code<'_, A>,
) -> Result<Machine<'c, A>, Answer> {
    match Machine::start(alloc, code, b"main", &[]) {
        Ok(machine) => Ok(machine),
        Err(error) => Err(unstarted(error)),
    }
}
