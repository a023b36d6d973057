//! Whether numbered code, read back through names, is what a tree has.

use crate::answer::Answer;
use crate::asking::Asking;
use crate::load::checked;
use crate::reader::difference;
use qil_code::Code;
use qil_tree::Program;
use std::alloc::Allocator;

/// Whether each function of a program is read back as it stands there.
fn compare<A: Allocator + Copy>(code: &Code<'_, A>, program: &Program<'_, A>) -> Answer {
    for func in program.funcs.as_slice() {
        if let Some(line) = difference(code, func) {
            return Answer::DiffersAtLine(line);
        }
    }
    Answer::Same
}

/// Compares a code with the tree of another text.
fn compare_text<R: Print, A: Allocator + Copy>(
    code: &Code<'_, A>,
    asking: &Asking<'_, R, A>,
) -> Answer {
    match checked(asking.rt, asking.alloc, asking.keys, asking.behind) {
        Ok(other) => compare(code, other.program()),
        Err(answer) => answer,
    }
}

/// Compares a code with the tree that it was numbered from, or with that of the text behind, if there is one.
pub fn read_back<R: Print, A: Allocator + Copy>(
    code: &Code<'_, A>,
    asking: &Asking<'_, R, A>,
) -> Answer {
    if asking.behind.is_empty() {
        compare(code, code.program())
    } else {
        compare_text(code, asking)
    }
}
