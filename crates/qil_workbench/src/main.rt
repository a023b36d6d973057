//! `qil_workbench QUESTION [NUMBER]`: asks the layers under the debugger what a session can't be asked. Standard input has the
//! text of a program, and for some questions something after it; then NUMBER says how many bytes the text has.
//!
//! - `read-back`: whether the numbered code, read back through names, is what the tree has; the tree of the text after
//!   the first, if there is one.
//! - `moves`: of a poke of a temporary and of bytes, and of each move of a run, what its record keeps and weighs.
//! - `histories`: where the history of undo records and that of clones stand after each of the moves that the lines after the text
//!   ask for.
//!
//! What comes on standard output is the same on every machine, and `refused` for a text that isn't accepted or has no
//! `$main` without parameters. The status is 1 where something isn't as it has to be.
#![tactic(auto)]

mod answer;
mod ask;
mod asked;
mod asking;
mod histories;
mod load;
mod moves;
mod read_back;
mod reader;
mod record;
mod started;

use answer::Answer;
use ask::ask;
use asking::{Asking, Question};
use std::alloc::Global;
use std::hash::RandomState;
use std::io::{self, Read};
use std::process::ExitCode;
use std::random::RandomSource;
use std::rt::Env;

/// The most bytes that are read: a text, and what stands after it.
const LIMIT: u64 = (1 << 20) + (1 << 24);

/// What the command line asks.
#[derive(Clone, Copy)]
struct Words {
    question: Option<Question>,
    /// How many bytes the text has, if something stands after it.
    length: Option<u32>,
}

impl Words {
    /// The words with one more.
    fn with(self, word: &str) -> Words {
        match Question::of(word) {
            Some(question) => Words {
                question: Some(question),
                length: self.length,
            },
            None => Words {
                question: self.question,
                length: word.parse().ok(),
            },
        }
    }
}

fn read_words<R: Env + AllocGlobal>(rt: &R) -> io::Result<Words> {
    let mut words = Words {
        question: None,
        length: None,
    };
    for word in std::env::args(rt)? {
        words = words.with(word.as_str());
    }
    Ok(words)
}

/// Cuts the input where the text ends; with no length it is all text.
fn split(input: &[u8], length: Option<u32>) -> (&[u8], &[u8]) {
    match length {
        Some(length) if length as usize <= input.len() => input.split_at(length as usize),
        _ => input.split_at(input.len()),
    }
}

/// Asks about what was read, with keys drawn for its tables.
fn ask_input<R: Print + RandomSource>(
    rt: &R,
    alloc: Global,
    question: Question,
    length: Option<u32>,
    input: &[u8],
) -> Answer {
    let (text, behind) = split(input, length);
    match RandomState::new(rt) {
        Ok(keys) => {
            let asking = Asking {
                rt,
                alloc,
                keys,
                question,
                behind,
            };
            ask(&asking, text)
        }
        Err(_) => Answer::Fault,
    }
}

/// Reads what the words are about, and asks it.
fn ask_words<R: Input + Print + RandomSource>(rt: &R, alloc: Global, words: Words) -> Answer {
    let Some(question) = words.question else {
        return Answer::NoQuestion;
    };
    let mut input = Vec::new(alloc);
    match rt.reader().take(LIMIT).read_to_end(&mut input) {
        Ok(_) => ask_input(rt, alloc, question, words.length, input.as_slice()),
        Err(_) => Answer::Fault,
    }
}

fn main(rt: HostRuntime) -> ExitCode {
    let answer = match read_words(&rt) {
        Ok(words) => ask_words(&rt, rt.alloc(), words),
        Err(_) => Answer::Fault,
    };
    answer.tell(&rt)
}
