//! What the names of a lowered text stand for, as its lowering tells it beside the text: which functions aren't there, which values
//! are floats, and which names stand for longer ones.
//!
//! Each line is a kind and words, with tabulators between. A kind that isn't known, and a line of another form, say nothing.

ghost use Rattle.std.specs.Prelude.{◌≡◌, [], None, true};

use memchr::memchr;
use std::alloc::{AllocError, Allocator};

/// How many bytes a float has.
#[derive(Clone, Copy, PartialEq, Eq)]
pub enum FloatClass {
    Single,
    Double,
}

/// What the names of a text stand for. Of a text that wasn't lowered nothing is known.
#[derive(Drop)]
pub struct Names<A: Allocator> {
    /// Lines, each of which ends in a newline.
    pub text: Vec<u8, A>,
}

/// The class that the letter of a line says.
fn class_said(letter: &[u8]) -> Option<FloatClass> {
    match letter {
        b"s" => Some(FloatClass::Single),
        b"d" => Some(FloatClass::Double),
        _ => None,
    }
}

/// What stands behind a word at the beginning of a line, and behind the tabulator after it.
fn after_word<'t>(line: &'t [u8], word: &[u8]) -> Option<&'t [u8]> {
    line.strip_prefix(word)?.strip_prefix(b"\t")
}

/// What stands behind a sigil and a name, and behind the tabulator after them.
fn after_name<'t>(line: &'t [u8], sigil: &[u8], name: &[u8]) -> Option<&'t [u8]> {
    after_word(line.strip_prefix(sigil)?, name)
}

/// The class of a float, from the line of a temporary of a function.
fn temp_class(line: &[u8], func: &[u8], temp: &[u8]) -> Option<FloatClass> {
    let words = after_word(line, b"float")?;
    let words = after_name(words, b"$", func)?;
    class_said(after_name(words, b"%", temp)?)
}

/// The class of a float, from the line of the beginning of a data object.
fn data_class(line: &[u8], name: &[u8]) -> Option<FloatClass> {
    let words = after_word(line, b"data")?;
    let words = after_word(after_name(words, b"$", name)?, b"0")?;
    let (letter, _) = words.split_at(words.len().min(1));
    class_said(letter)
}

/// A function that isn't the program's own.
#[derive(Clone, Copy, PartialEq, Eq)]
pub enum Foreign {
    /// It is from outside, and isn't there: a call of it halts.
    Outside,
    /// It is one of the runtime.
    Runtime,
}

/// What a line says of a function.
fn foreign_in(line: &[u8], func: &[u8]) -> Option<Foreign> {
    if let Some(words) = after_word(line, b"outside") {
        return if words.strip_prefix(b"$")? == func {
            Some(Foreign::Outside)
        } else {
            None
        };
    }
    if after_word(line, b"runtime")?.strip_prefix(b"$")? == func {
        Some(Foreign::Runtime)
    } else {
        None
    }
}

/// The name that a line gives for a short one.
fn old_name<'t>(line: &'t [u8], sigil: &[u8], short: &[u8]) -> Option<&'t [u8]> {
    let words = after_word(line, b"name")?;
    after_name(words, sigil, short)?.strip_prefix(sigil)
}

/// The short name that a line gives for a name.
fn short_name<'t>(line: &'t [u8], sigil: &[u8], old: &[u8]) -> Option<&'t [u8]> {
    let words = after_word(line, b"name")?.strip_prefix(sigil)?;
    let (short, rest) = words.split_at(memchr(b'\t', words)?);
    if rest.strip_prefix(b"\t")?.strip_prefix(sigil) == Some(old) {
        Some(short)
    } else {
        None
    }
}

impl<A: Allocator> Names<A> {
    /// What a text says of names.
    pub fn new(mut text: Vec<u8, A>) -> Result<Self, AllocError> {
        text.extend_from_slice(b"\n")?;
        Ok(Names { text })
    }

    /// Of a text of which nothing is known.
    pub fn none(alloc: A) -> Self {
        Names {
            text: Vec::new(alloc),
        }
    }

    /// Whether nothing is known.
    pub fn is_empty(&self) -> bool
        ensures { self.now.text.items ≡ [] → result ≡ true }
    {
        self.text.is_empty()
    }

    /// The class of the float that a temporary of a function holds, if it holds one.
    pub fn class_of(&self, func: &[u8], temp: &[u8]) -> Option<FloatClass>
        ensures { self.now.text.items ≡ [] → result ≡ None }
    {
        if self.is_empty() {
            return None;
        }
        self.class_told(func, temp)
    }

    /// The class that a line gives a temporary.
    fn class_told(&self, func: &[u8], temp: &[u8]) -> Option<FloatClass> {
        let text = self.text.as_slice();
        let mut start = 0;
        while let Some(length) = memchr(b'\n', &text[start..]) {
            let line = &text[start..start + length];
            let class = temp_class(line, func, temp);
            if class.is_some() {
                return class;
            }
            start += length + 1;
        }
        None
    }

    /// The class of the float at the beginning of a data object, if there is one.
    pub fn class_of_data(&self, name: &[u8]) -> Option<FloatClass>
        ensures { self.now.text.items ≡ [] → result ≡ None }
    {
        if self.is_empty() {
            return None;
        }
        self.data_class_told(name)
    }

    /// The class that a line gives a data object.
    fn data_class_told(&self, name: &[u8]) -> Option<FloatClass> {
        let text = self.text.as_slice();
        let mut start = 0;
        while let Some(length) = memchr(b'\n', &text[start..]) {
            let line = &text[start..start + length];
            let class = data_class(line, name);
            if class.is_some() {
                return class;
            }
            start += length + 1;
        }
        None
    }

    /// Whether a function isn't the program's own, and which it is then.
    pub fn foreign(&self, func: &[u8]) -> Option<Foreign> {
        let text = self.text.as_slice();
        let mut start = 0;
        while let Some(length) = memchr(b'\n', &text[start..]) {
            let line = &text[start..start + length];
            let foreign = foreign_in(line, func);
            if foreign.is_some() {
                return foreign;
            }
            start += length + 1;
        }
        None
    }

    /// The name of a temporary or a label, by its sigil, in the text that was lowered: for a name that was made short, the one
    /// that it stands for.
    pub fn told<'n>(&'n self, sigil: &[u8], name: &'n [u8]) -> &'n [u8]
        ensures { self.now.text.items ≡ [] → result.now ≡ name.now }
    {
        if self.is_empty() {
            return name;
        }
        self.old_told(sigil, name)
    }

    /// The name that a line gives for a short one, or that name.
    fn old_told<'n>(&'n self, sigil: &[u8], name: &'n [u8]) -> &'n [u8] {
        let text = self.text.as_slice();
        let mut start = 0;
        while let Some(length) = memchr(b'\n', &text[start..]) {
            let line = &text[start..start + length];
            if let Some(old) = old_name(line, sigil, name) {
                return old;
            }
            start += length + 1;
        }
        name
    }

    /// The name in the text that is run: the short one of a name that was made short.
    pub fn run<'n>(&'n self, sigil: &[u8], name: &'n [u8]) -> &'n [u8] {
        let text = self.text.as_slice();
        let mut start = 0;
        while let Some(length) = memchr(b'\n', &text[start..]) {
            let line = &text[start..start + length];
            if let Some(short) = short_name(line, sigil, name) {
                return short;
            }
            start += length + 1;
        }
        name
    }
}
