//! The questions.

use std::alloc::Allocator;
use std::hash::RandomState;

#[derive(Clone, Copy)]
pub enum Question {
    ReadBack,
    Moves,
    Histories,
}

impl Question {
    /// The question of that name.
    pub fn of(word: &str) -> Option<Question> {
        match word {
            "read-back" => Some(Question::ReadBack),
            "moves" => Some(Question::Moves),
            "histories" => Some(Question::Histories),
            _ => None,
        }
    }
}

/// What is asked, and with which words.
#[derive(Drop)]
pub struct Asking<'b, R, A: Allocator> {
    pub rt: &'b R,
    pub alloc: A,
    pub keys: RandomState,
    pub question: Question,
    /// What stands after the text.
    pub behind: &'b [u8],
}
