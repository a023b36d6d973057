//! The way of a text to what answers the question.

ghost use Rattle.std.specs.Prelude.{◌≡◌};

use crate::answer::Answer;
use crate::asking::{Asking, Question};
use crate::histories::ask_histories;
use crate::load::{checked, refused};
use crate::moves::each_move;
use crate::read_back::read_back;
use qil_code::Code;
use qil_layout::Image;
use qil_layout_builder::layout;
use qil_resolution::number;
use qil_rules::Checked;
use std::alloc::Allocator;

/// Asks about a code.
// What is large is the first parameter, here and in all that it is handed on to: else each call takes it anew.
fn ask_code<R: Print, A: Allocator + Copy>(
    code: &Code<'_, A>,
    asking: &Asking<'_, R, A>,
) -> Answer {
    match asking.question {
        Question::ReadBack => read_back(code, asking),
        Question::Moves => each_move(code, asking.rt, asking.alloc),
        Question::Histories => ask_histories(code, asking.rt, asking.alloc, asking.behind),
    }
}

/// Numbers a program, and asks its code.
fn ask_laid_out<'s, 't, 'i, R: Print, A: Allocator + Copy>(
    checked: &'s Checked<'t, A>,
    image: &'s Image<'i, A>,
    asking: &Asking<'_, R, A>,
) -> Answer
    requires { image.now ≡ checked.now.program }
{
    match number(asking.alloc, asking.keys, checked, image) {
        Ok(code) => ask_code(&code, asking),
        Err(_) => Answer::NoCode,
    }
}

/// Lays a program out, and goes on.
fn ask_checked<R: Print, A: Allocator + Copy>(
    checked: &Checked<'_, A>,
    asking: &Asking<'_, R, A>,
) -> Answer {
    match layout(asking.alloc, asking.keys, checked) {
        Ok(image) => ask_laid_out(checked, &image, asking),
        Err(error) => refused(asking.rt, &error),
    }
}

/// Asks the question of a text.
pub fn ask<R: Print, A: Allocator + Copy>(asking: &Asking<'_, R, A>, text: &[u8]) -> Answer {
    match checked(asking.rt, asking.alloc, asking.keys, text) {
        Ok(checked) => ask_checked(&checked, asking),
        Err(answer) => answer,
    }
}
