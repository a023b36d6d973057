//! `completions`: the commands, and the names that a sigil begins.

use qil_machine::Code;
use qil_tree::{Block, Data, Func, Program};
use qrev_debuggee::{Body, Debuggee, Failure, HasMachine};
use qrev_protocol::{Array, InArray, InObject, Object, Whole};
use qrev_requests::Arguments;
use qrev_views::{Readers, code_of, frame_of, sigiled};
use std::alloc::{AllocError, Allocator};

/// The most that are offered at once.
const MOST: usize = 1000;

const COMMANDS: [&str; 19] = [
    "accesses", "back", "break", "continue", "counts", "delete", "frames", "list", "mem", "out",
    "poke", "print", "reverse", "set", "step", "stops", "temps", "watch", "where",
];

/// The list of what is offered.
type Targets<A> = Array<A, InObject<InObject<Whole>>>;

/// An item of it.
type Target<A> = Object<A, InArray<InObject<InObject<Whole>>>>;

/// The list to fill, the word to complete, and where it begins.
#[derive(Drop)]
struct Offer<'w, A: Allocator> {
    alloc: A,
    list: Targets<A>,
    word: &'w str,
    start: u64,
    count: usize,
}

/// Begins an item with a label.
fn begin_target<A: Allocator>(
    list: Targets<A>,
    label: &str,
    kind: &str,
) -> Result<Target<A>, AllocError> {
    list.object()?.text("label", label)?.text("type", kind)
}

/// Ends it with what the label stands in place of.
fn end_target<A: Allocator>(
    target: Target<A>,
    start: u64,
    length: usize,
) -> Result<Targets<A>, AllocError> {
    target
        .number("start", start)?
        .number("length", length as u64)?
        .end_item()
}

impl<'w, A: Allocator + Copy> Offer<'w, A> {
    /// Adds a label that begins with the word.
    fn put(self, label: &str, kind: &str) -> Result<Self, AllocError> {
        let Offer {
            alloc,
            list,
            word,
            start,
            count,
        } = self;
        let list = end_target(begin_target(list, label, kind)?, start, word.len())?;
        Ok(Offer {
            alloc,
            list,
            word,
            start,
            count: count.saturating_add(1),
        })
    }

    /// Adds a label, if the word is how it begins.
    fn add(self, label: &str, kind: &str) -> Result<Self, AllocError> {
        if self.count >= MOST || !label.starts_with(self.word) {
            return Ok(self);
        }
        self.put(label, kind)
    }

    /// Adds a name after its sigil, with which the word begins. What doesn't fit the word is passed over before a text is made of it.
    fn add_name(self, sigil: &str, name: &[u8], kind: &str) -> Result<Self, AllocError> {
        if !could_begin(self.word, self.count, name) {
            return Ok(self);
        }
        self.add_fitting(sigil, name, kind)
    }

    /// Adds such a name, if the word is how the text of both begins.
    fn add_fitting(self, sigil: &str, name: &[u8], kind: &str) -> Result<Self, AllocError> {
        let label = sigiled(self.alloc, sigil.as_bytes(), name)?;
        self.add(label.as_str(), kind)
    }
}

/// Whether a word may be how a name begins after its sigil, and there is room for it.
fn could_begin(word: &str, count: usize, name: &[u8]) -> bool {
    match word.as_bytes().split_first() {
        Some((_, wanted)) => count < MOST && name.starts_with(wanted),
        None => true,
    }
}

/// The word that ends a text, and how many bytes stand before it.
fn last_word(text: &str) -> (&str, usize) {
    match text.rsplit_once(' ') {
        Some((front, word)) => (word, front.len().saturating_add(1)),
        None => (text, 0),
    }
}

/// Offers temporaries.
fn offer_names<'w, A: Allocator + Copy>(
    offer: Offer<'w, A>,
    names: &[&[u8]],
) -> Result<Offer<'w, A>, AllocError> {
    let mut offer = offer;
    for name in names {
        offer = offer.add_name("%", name, "variable")?;
    }
    Ok(offer)
}

/// The names of the temporaries of a frame, if there is such a frame.
fn temps_in<'m, 'c, A: Allocator + Copy + 'c, M: Readers<A, Code<'c, A>>>(
    machine: &'m M,
    number: u64,
) -> Option<&'m [&'c [u8]]> {
    let func = frame_of(machine, number)?.func();
    Some(code_of(machine).func(func)?.temps.names())
}

/// Offers the temporaries of a frame.
// What is large is the first parameter here, as it is where it is handed on: else each call takes it anew.
fn offer_temps<'w, 'c, A: Allocator + Copy + 'c, M: Readers<A, Code<'c, A>>>(
    machine: &M,
    number: u64,
    offer: Offer<'w, A>,
) -> Result<Offer<'w, A>, AllocError> {
    match temps_in(machine, number) {
        Some(names) => offer_names(offer, names),
        None => Ok(offer),
    }
}

/// Offers the labels of blocks.
fn offer_blocks<'w, A: Allocator + Copy>(
    blocks: &[Block<'_, A>],
    offer: Offer<'w, A>,
) -> Result<Offer<'w, A>, AllocError> {
    let mut offer = offer;
    for block in blocks {
        offer = offer.add_name("@", block.label.bytes(), "reference")?;
    }
    Ok(offer)
}

/// The text of the function of a frame, if there is such a frame.
fn func_of<'c, A: Allocator + Copy + 'c, M: Readers<A, Code<'c, A>>>(
    machine: &M,
    number: u64,
) -> Option<&'c Func<'c, A>> {
    let index = frame_of(machine, number)?.func().index;
    let funcs = code_of(machine).program().funcs.as_slice();
    funcs.get(usize::from(index))
}

/// Offers the labels of the function of a frame.
fn offer_labels<'w, 'c, A: Allocator + Copy + 'c, M: Readers<A, Code<'c, A>>>(
    machine: &M,
    number: u64,
    offer: Offer<'w, A>,
) -> Result<Offer<'w, A>, AllocError> {
    match func_of(machine, number) {
        Some(func) => offer_blocks(func.blocks.as_slice(), offer),
        None => Ok(offer),
    }
}

/// Offers functions.
fn offer_funcs<'w, A: Allocator + Copy>(
    funcs: &[Func<'_, A>],
    offer: Offer<'w, A>,
) -> Result<Offer<'w, A>, AllocError> {
    let mut offer = offer;
    for func in funcs {
        offer = offer.add_name("$", func.name.bytes(), "function")?;
    }
    Ok(offer)
}

/// Offers data.
fn offer_datas<'w, A: Allocator + Copy>(
    datas: &[Data<'_, A>],
    offer: Offer<'w, A>,
) -> Result<Offer<'w, A>, AllocError> {
    let mut offer = offer;
    for data in datas {
        offer = offer.add_name("$", data.name.bytes(), "variable")?;
    }
    Ok(offer)
}

/// Offers the functions and the data of the program.
fn offer_globals<'w, A: Allocator + Copy>(
    program: &Program<'_, A>,
    offer: Offer<'w, A>,
) -> Result<Offer<'w, A>, AllocError> {
    let offer = offer_funcs(program.funcs.as_slice(), offer)?;
    offer_datas(program.datas.as_slice(), offer)
}

/// Offers the commands.
fn offer_commands<'w, A: Allocator + Copy>(
    offer: Offer<'w, A>,
) -> Result<Offer<'w, A>, AllocError> {
    let mut offer = offer;
    for command in &COMMANDS {
        offer = offer.add(command, "keyword")?;
    }
    Ok(offer)
}

/// The word to complete, where it begins, and whether nothing stands before it.
#[derive(Clone, Copy)]
struct Typed<'w> {
    word: &'w str,
    start: u64,
    is_first: bool,
}

/// The word that ends at a column of a line. The first column has this number.
fn typed_in<'q, A: Allocator + Copy>(asked: Arguments<'_, 'q, A>, first: u64) -> Typed<'q> {
    let text = asked.text("text").unwrap_or("");
    let column = asked
        .number("column")
        .unwrap_or(u64::MAX)
        .saturating_sub(first);
    let end = column.min(text.len() as u64) as usize;
    let (word, before) = last_word(text.get(..end).unwrap_or(text));
    Typed {
        word,
        start: (before as u64).saturating_add(first),
        is_first: before == 0,
    }
}

/// Offers what the sigil of a word asks for: of the frame of a number, or of the program; and commands, where nothing stands
/// before it.
fn offer_fitting<'w, 'c, A: Allocator + Copy + 'c, M: Readers<A, Code<'c, A>>>(
    machine: &M,
    number: u64,
    typed: Typed<'_>,
    offer: Offer<'w, A>,
) -> Result<Offer<'w, A>, AllocError> {
    match typed.word.as_bytes().first() {
        Some(b'%') => offer_temps(machine, number, offer),
        Some(b'@') => offer_labels(machine, number, offer),
        Some(b'$') => offer_globals(code_of(machine).program(), offer),
        _ if typed.is_first => offer_commands(offer),
        _ => Ok(offer),
    }
}

/// Adds what may stand in place of a word.
fn put_targets<'c, A: Allocator + Copy + 'c, M: Readers<A, Code<'c, A>>>(
    machine: &M,
    number: u64,
    typed: Typed<'_>,
    alloc: A,
    body: Body<A>,
) -> Result<Body<A>, AllocError> {
    let offer = Offer {
        alloc,
        list: body.array("targets")?,
        word: typed.word,
        start: typed.start,
        count: 0,
    };
    let Offer { list, .. } = offer_fitting(machine, number, typed, offer)?;
    list.end()
}

/// Adds what may stand in place of the word that ends at a column of a line.
pub fn completions<'c, A: Allocator + Copy + 'c, L: HasMachine<A, Code<'c, A>>>(
    debuggee: &Debuggee<'c, A, L>,
    asked: Arguments<'_, '_, A>,
    body: Body<A>,
) -> Result<Body<A>, Failure> {
    let typed = typed_in(asked, u64::from(debuggee.shown.numbering.first_column));
    let number = asked.number("frameId").unwrap_or(1);
    Ok(put_targets(debuggee.machine(), number, typed, debuggee.alloc, body)?)
}
