//! The next word of a line, of the shape that a command asks. After an error the words are of no use.

ghost use Rattle.std.specs.Prelude.{◌≡◌, ◌∷◌, [], MatchResult};
ghost use Rattle.qil_commands.specs.Numbers.{number_of, count_of, byte_count_of, value_of, temporary_of, global_of, label_of, width_of, address_of};
ghost use Rattle.qil_commands.specs.Words.{words_of};
ghost use Rattle.qil_commands.specs.Command.{needed, perhaps, may, watch_target_of, with_rest};

use crate::command::{Address, LineName, Refused, WatchTarget};
use crate::numbers::{
    address_of, byte_count_of, count_of, global_of, label_of, number_of, temporary_of, value_of,
    watch_target_of, width_of,
};
use crate::words::Words;
use qil_tree::Width;

/// A word that has to come.
fn needed_word<'a>(words: &mut Words<'a>) -> Result<&'a [u8], Refused>
    ensures { MatchResult result (λ word. words_of words.old.rest.now ≡ word.now ∷ words_of words.new.rest.now)
        (λ e. (e ≡ Refused.MissingWord) × (words_of words.old.rest.now ≡ [])) }
{
    match words.next() {
        None => Err(Refused::MissingWord),
        Some(word) => Ok(word),
    }
}

/// A number, 0 to 2^64 - 1.
pub fn number<'a>(words: &mut Words<'a>) -> Result<u64, Refused>
    ensures { with_rest result (words_of words.new.rest.now) ≡ needed number_of (words_of words.old.rest.now) }
{
    let word = needed_word(words)?;
    number_of(word).ok_or(Refused::BadWord)
}

/// How many bytes are shown, 1 to 256.
pub fn byte_count<'a>(words: &mut Words<'a>) -> Result<u32, Refused>
    ensures { with_rest result (words_of words.new.rest.now) ≡ needed byte_count_of (words_of words.old.rest.now) }
{
    let word = needed_word(words)?;
    byte_count_of(word).ok_or(Refused::BadWord)
}

/// A count, 1 to 4,294,967,295, that has to come.
pub fn count_needed<'a>(words: &mut Words<'a>) -> Result<u32, Refused>
    ensures { with_rest result (words_of words.new.rest.now) ≡ needed count_of (words_of words.old.rest.now) }
{
    let word = needed_word(words)?;
    count_of(word).ok_or(Refused::BadWord)
}

/// A value, as 64 bits in two's complement.
pub fn value<'a>(words: &mut Words<'a>) -> Result<u64, Refused>
    ensures { with_rest result (words_of words.new.rest.now) ≡ needed value_of (words_of words.old.rest.now) }
{
    let word = needed_word(words)?;
    value_of(word).ok_or(Refused::BadWord)
}

/// A temporary.
pub fn temporary<'a>(words: &mut Words<'a>) -> Result<LineName<'a>, Refused>
    ensures { with_rest result (words_of words.new.rest.now) ≡ needed temporary_of (words_of words.old.rest.now) }
{
    let word = needed_word(words)?;
    temporary_of(word).ok_or(Refused::BadWord)
}

/// A global.
pub fn global<'a>(words: &mut Words<'a>) -> Result<LineName<'a>, Refused>
    ensures { with_rest result (words_of words.new.rest.now) ≡ needed global_of (words_of words.old.rest.now) }
{
    let word = needed_word(words)?;
    global_of(word).ok_or(Refused::BadWord)
}

/// The letter of a width.
pub fn width<'a>(words: &mut Words<'a>) -> Result<Width, Refused>
    ensures { with_rest result (words_of words.new.rest.now) ≡ needed width_of (words_of words.old.rest.now) }
{
    let word = needed_word(words)?;
    width_of(word).ok_or(Refused::BadWord)
}

/// An address.
pub fn address<'a>(words: &mut Words<'a>) -> Result<Address<'a>, Refused>
    ensures { with_rest result (words_of words.new.rest.now) ≡ needed address_of (words_of words.old.rest.now) }
{
    let word = needed_word(words)?;
    address_of(word).ok_or(Refused::BadWord)
}

/// What a watch looks at.
pub fn watch_target<'a>(words: &mut Words<'a>) -> Result<WatchTarget<'a>, Refused>
    ensures { with_rest result (words_of words.new.rest.now) ≡ needed watch_target_of (words_of words.old.rest.now) }
{
    let word = needed_word(words)?;
    watch_target_of(word).ok_or(Refused::BadWord)
}

/// How many moves: one, if no word says so.
pub fn count<'a>(words: &mut Words<'a>) -> Result<u32, Refused>
    ensures { with_rest result (words_of words.new.rest.now) ≡ perhaps 1 count_of (words_of words.old.rest.now) }
{
    match words.next() {
        None => Ok(1),
        Some(word) => count_of(word).ok_or(Refused::BadWord),
    }
}

/// An index of instructions: that of the first, if no word says so.
pub fn index<'a>(words: &mut Words<'a>) -> Result<u64, Refused>
    ensures { with_rest result (words_of words.new.rest.now) ≡ perhaps 0 number_of (words_of words.old.rest.now) }
{
    match words.next() {
        None => Ok(0),
        Some(word) => number_of(word).ok_or(Refused::BadWord),
    }
}

/// The label of a block, if a word comes.
pub fn label<'a>(words: &mut Words<'a>) -> Result<Option<LineName<'a>>, Refused>
    ensures { with_rest result (words_of words.new.rest.now) ≡ may label_of (words_of words.old.rest.now) }
{
    match words.next() {
        None => Ok(None),
        Some(word) => match label_of(word) {
            None => Err(Refused::BadWord),
            Some(label) => Ok(Some(label)),
        },
    }
}
