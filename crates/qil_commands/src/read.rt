//! From a line to the command that it spells.

ghost use Rattle.std.specs.Prelude.{◌≡◌};
ghost use Rattle.qil_commands.specs.Words.{words_of};
ghost use Rattle.qil_commands.specs.Command.{alone as no_more, moving_verb, stopping_verb, showing_verb, verb_named, spelled, command_of};
ghost use Rattle.qil_commands.specs.declared.command.Verb.TheVariants as verbs;

use crate::command::{BreakPlace, Command, Refused, Verb, WatchTarget};
use crate::next::{
    address, byte_count, count, count_needed, global, index, label, number, temporary, value,
    watch_target, width,
};
use crate::words::Words;

/// The most bytes that a line may have, its newline not counted.
const MAX_LINE: usize = 256;

/// The verbs that move, and the one that ends.
fn moving_verb(word: &[u8]) -> Option<Verb>
    ensures { result ≡ moving_verb word.now }
{
    if word == b"step".as_slice() {
        return Some(Verb::Step);
    }
    if word == b"back".as_slice() {
        return Some(Verb::Back);
    }
    if word == b"continue".as_slice() {
        return Some(Verb::Continue);
    }
    if word == b"reverse".as_slice() {
        return Some(Verb::Reverse);
    }
    if word == b"set".as_slice() {
        return Some(Verb::Set);
    }
    if word == b"poke".as_slice() {
        return Some(Verb::Poke);
    }
    if word == b"quit".as_slice() {
        return Some(Verb::Quit);
    }
    if word == b"accesses".as_slice() {
        return Some(Verb::Accesses);
    }
    if word == b"counts".as_slice() {
        return Some(Verb::Counts);
    }
    if word == b"frames".as_slice() {
        return Some(Verb::Frames);
    }
    None
}

/// The verbs of stops.
fn stopping_verb(word: &[u8]) -> Option<Verb>
    ensures { result ≡ stopping_verb word.now }
{
    if word == b"break".as_slice() {
        return Some(Verb::Break);
    }
    if word == b"watch".as_slice() {
        return Some(Verb::Watch);
    }
    if word == b"delete".as_slice() {
        return Some(Verb::Delete);
    }
    if word == b"stops".as_slice() {
        return Some(Verb::Stops);
    }
    None
}

/// The verbs that show.
fn showing_verb(word: &[u8]) -> Option<Verb>
    ensures { result ≡ showing_verb word.now }
{
    if word == b"print".as_slice() {
        return Some(Verb::Print);
    }
    if word == b"temps".as_slice() {
        return Some(Verb::Temps);
    }
    if word == b"mem".as_slice() {
        return Some(Verb::Mem);
    }
    if word == b"where".as_slice() {
        return Some(Verb::Where);
    }
    if word == b"list".as_slice() {
        return Some(Verb::List);
    }
    if word == b"out".as_slice() {
        return Some(Verb::Out);
    }
    None
}

fn verb_named(word: &[u8]) -> Option<Verb>
    ensures { result ≡ verb_named word.now }
{
    if let Some(verb) = moving_verb(word) {
        return Some(verb);
    }
    if let Some(verb) = stopping_verb(word) {
        return Some(verb);
    }
    showing_verb(word)
}

/// Refuses a word that is left over.
fn alone<'a>(command: Command<'a>, words: &mut Words<'a>) -> Result<Command<'a>, Refused>
    ensures { result ≡ no_more command.entry (words_of words.old.rest.now) }
{
    match words.next() {
        None => Ok(command),
        Some(_) => Err(Refused::ExtraWord),
    }
}

// ---- the words after each verb

fn step<'a>(words: &mut Words<'a>) -> Result<Command<'a>, Refused>
    ensures { result ≡ spelled verbs.Step (words_of words.old.rest.now) }
{
    let count = count(words)?;
    alone(Command::Step(count), words)
}

fn accesses<'a>(words: &mut Words<'a>) -> Result<Command<'a>, Refused>
    ensures { result ≡ spelled verbs.Accesses (words_of words.old.rest.now) }
{
    let moves = count_needed(words)?;
    let address = address(words)?;
    let count = count_needed(words)?;
    alone(Command::Accesses(moves, address, count), words)
}

fn counts<'a>(words: &mut Words<'a>) -> Result<Command<'a>, Refused>
    ensures { result ≡ spelled verbs.Counts (words_of words.old.rest.now) }
{
    let moves = count_needed(words)?;
    alone(Command::Counts(moves), words)
}

fn frames<'a>(words: &mut Words<'a>) -> Result<Command<'a>, Refused>
    ensures { result ≡ spelled verbs.Frames (words_of words.old.rest.now) }
{
    let moves = count_needed(words)?;
    let length = count_needed(words)?;
    alone(Command::Frames(moves, length), words)
}

fn back<'a>(words: &mut Words<'a>) -> Result<Command<'a>, Refused>
    ensures { result ≡ spelled verbs.Back (words_of words.old.rest.now) }
{
    let count = count(words)?;
    alone(Command::Back(count), words)
}

fn set<'a>(words: &mut Words<'a>) -> Result<Command<'a>, Refused>
    ensures { result ≡ spelled verbs.Set (words_of words.old.rest.now) }
{
    let name = temporary(words)?;
    let value = value(words)?;
    alone(Command::Set(name, value), words)
}

fn poke<'a>(words: &mut Words<'a>) -> Result<Command<'a>, Refused>
    ensures { result ≡ spelled verbs.Poke (words_of words.old.rest.now) }
{
    let width = width(words)?;
    let address = address(words)?;
    let value = value(words)?;
    alone(Command::Poke(width, address, value), words)
}

/// A breakpoint: a function, then perhaps a block of it, then perhaps an index.
fn break_at<'a>(words: &mut Words<'a>) -> Result<Command<'a>, Refused>
    ensures { result ≡ spelled verbs.Break (words_of words.old.rest.now) }
{
    let func = global(words)?;
    match label(words)? {
        None => alone(Command::Break(func, None), words),
        Some(label) => {
            let index = index(words)?;
            alone(
                Command::Break(func, Some(BreakPlace { label, index })),
                words,
            )
        }
    }
}

fn watch<'a>(words: &mut Words<'a>) -> Result<Command<'a>, Refused>
    ensures { result ≡ spelled verbs.Watch (words_of words.old.rest.now) }
{
    match watch_target(words)? {
        WatchTarget::Bytes(width) => {
            let address = address(words)?;
            alone(Command::WatchBytes(width, address), words)
        }
        WatchTarget::Temp(func) => {
            let name = temporary(words)?;
            alone(Command::WatchTemp(func, name), words)
        }
    }
}

fn delete<'a>(words: &mut Words<'a>) -> Result<Command<'a>, Refused>
    ensures { result ≡ spelled verbs.Delete (words_of words.old.rest.now) }
{
    let number = number(words)?;
    alone(Command::Delete(number), words)
}

fn print<'a>(words: &mut Words<'a>) -> Result<Command<'a>, Refused>
    ensures { result ≡ spelled verbs.Print (words_of words.old.rest.now) }
{
    let name = temporary(words)?;
    alone(Command::Print(name), words)
}

fn mem<'a>(words: &mut Words<'a>) -> Result<Command<'a>, Refused>
    ensures { result ≡ spelled verbs.Mem (words_of words.old.rest.now) }
{
    let address = address(words)?;
    let count = byte_count(words)?;
    alone(Command::Mem(address, count), words)
}

fn spelled<'a>(verb: Verb, words: &mut Words<'a>) -> Result<Command<'a>, Refused>
    ensures { result ≡ spelled verb (words_of words.old.rest.now) }
{
    match verb {
        Verb::Step => step(words),
        Verb::Accesses => accesses(words),
        Verb::Counts => counts(words),
        Verb::Frames => frames(words),
        Verb::Back => back(words),
        Verb::Continue => alone(Command::Continue, words),
        Verb::Reverse => alone(Command::Reverse, words),
        Verb::Set => set(words),
        Verb::Poke => poke(words),
        Verb::Break => break_at(words),
        Verb::Watch => watch(words),
        Verb::Delete => delete(words),
        Verb::Stops => alone(Command::Stops, words),
        Verb::Print => print(words),
        Verb::Temps => alone(Command::Temps, words),
        Verb::Mem => mem(words),
        Verb::Where => alone(Command::Where, words),
        Verb::List => alone(Command::List, words),
        Verb::Out => alone(Command::Out, words),
        Verb::Quit => alone(Command::Quit, words),
    }
}

/// The command that a line spells, its newline left out: None for a line of at most 256 bytes without words.
/// Words are separated by spaces, tabs and byte 13.
pub fn read_command(line: &[u8]) -> Result<Option<Command<'_>>, Refused>
    ensures { result ≡ command_of line.now }
{
    if line.len() > MAX_LINE {
        return Err(Refused::LineTooLong);
    }
    let mut words = Words { rest: line };
    let Some(word) = words.next() else {
        return Ok(None);
    };
    let Some(verb) = verb_named(word) else {
        return Err(Refused::UnknownCommand);
    };
    match spelled(verb, &mut words) {
        Ok(command) => Ok(Some(command)),
        Err(refused) => Err(refused),
    }
}
