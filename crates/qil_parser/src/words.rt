//! The words of the grammar and the words of QBE's IL that are left out, as tables, and where a text stands in them.

ghost use Rattle.std.specs.Prelude.{◌≡◌, map};
ghost use Rattle.qil_parser.specs.Words as words;

use crate::terminal::Terminal;
use qil_lexer::{Token, TokenKind};
use qil_tree::{AllocOp, BinaryOp, Class, CompareOp, Extension, LoadOp, UnaryOp, Width};

/// Each word of the grammar, and what it is there.
static WORDS: [(&[u8], Terminal); 77] = [
    (b"w", Terminal::W),
    (b"l", Terminal::L),
    (b"call", Terminal::Call),
    (b"phi", Terminal::Phi),
    (b"ret", Terminal::Ret),
    (b"jmp", Terminal::Jmp),
    (b"jnz", Terminal::Jnz),
    (b"function", Terminal::Function),
    (b"hlt", Terminal::Hlt),
    (b"blit", Terminal::Blit),
    (b"data", Terminal::Data),
    (b"align", Terminal::Align),
    (b"z", Terminal::Z),
    (b"b", Terminal::B),
    (b"h", Terminal::H),
    (b"export", Terminal::Export),
    (b"section", Terminal::Section),
    (b"sb", Terminal::Sb),
    (b"ub", Terminal::Ub),
    (b"sh", Terminal::Sh),
    (b"uh", Terminal::Uh),
    (b"copy", Terminal::Unary(UnaryOp::Copy)),
    (b"neg", Terminal::Unary(UnaryOp::Neg)),
    (b"add", Terminal::Binary(BinaryOp::Add)),
    (b"sub", Terminal::Binary(BinaryOp::Sub)),
    (b"mul", Terminal::Binary(BinaryOp::Mul)),
    (b"div", Terminal::Binary(BinaryOp::Div)),
    (b"rem", Terminal::Binary(BinaryOp::Rem)),
    (b"udiv", Terminal::Binary(BinaryOp::Udiv)),
    (b"urem", Terminal::Binary(BinaryOp::Urem)),
    (b"and", Terminal::Binary(BinaryOp::And)),
    (b"or", Terminal::Binary(BinaryOp::Or)),
    (b"xor", Terminal::Binary(BinaryOp::Xor)),
    (b"sar", Terminal::Binary(BinaryOp::Sar)),
    (b"shr", Terminal::Binary(BinaryOp::Shr)),
    (b"shl", Terminal::Binary(BinaryOp::Shl)),
    (b"extsw", Terminal::Extend(Extension::Sw)),
    (b"extuw", Terminal::Extend(Extension::Uw)),
    (b"extsh", Terminal::Extend(Extension::Sh)),
    (b"extuh", Terminal::Extend(Extension::Uh)),
    (b"extsb", Terminal::Extend(Extension::Sb)),
    (b"extub", Terminal::Extend(Extension::Ub)),
    (b"loadl", Terminal::Load(LoadOp::L)),
    (b"loadw", Terminal::Load(LoadOp::Sw)),
    (b"loadsw", Terminal::Load(LoadOp::Sw)),
    (b"loaduw", Terminal::Load(LoadOp::Uw)),
    (b"loadsh", Terminal::Load(LoadOp::Sh)),
    (b"loaduh", Terminal::Load(LoadOp::Uh)),
    (b"loadsb", Terminal::Load(LoadOp::Sb)),
    (b"loadub", Terminal::Load(LoadOp::Ub)),
    (b"storel", Terminal::Store(Width::L)),
    (b"storew", Terminal::Store(Width::W)),
    (b"storeh", Terminal::Store(Width::H)),
    (b"storeb", Terminal::Store(Width::B)),
    (b"alloc4", Terminal::Alloc(AllocOp::Four)),
    (b"alloc8", Terminal::Alloc(AllocOp::Eight)),
    (b"alloc16", Terminal::Alloc(AllocOp::Sixteen)),
    (b"ceqw", Terminal::Compare(CompareOp::Eq, Class::W)),
    (b"cnew", Terminal::Compare(CompareOp::Ne, Class::W)),
    (b"cslew", Terminal::Compare(CompareOp::Sle, Class::W)),
    (b"csltw", Terminal::Compare(CompareOp::Slt, Class::W)),
    (b"csgew", Terminal::Compare(CompareOp::Sge, Class::W)),
    (b"csgtw", Terminal::Compare(CompareOp::Sgt, Class::W)),
    (b"culew", Terminal::Compare(CompareOp::Ule, Class::W)),
    (b"cultw", Terminal::Compare(CompareOp::Ult, Class::W)),
    (b"cugew", Terminal::Compare(CompareOp::Uge, Class::W)),
    (b"cugtw", Terminal::Compare(CompareOp::Ugt, Class::W)),
    (b"ceql", Terminal::Compare(CompareOp::Eq, Class::L)),
    (b"cnel", Terminal::Compare(CompareOp::Ne, Class::L)),
    (b"cslel", Terminal::Compare(CompareOp::Sle, Class::L)),
    (b"csltl", Terminal::Compare(CompareOp::Slt, Class::L)),
    (b"csgel", Terminal::Compare(CompareOp::Sge, Class::L)),
    (b"csgtl", Terminal::Compare(CompareOp::Sgt, Class::L)),
    (b"culel", Terminal::Compare(CompareOp::Ule, Class::L)),
    (b"cultl", Terminal::Compare(CompareOp::Ult, Class::L)),
    (b"cugel", Terminal::Compare(CompareOp::Uge, Class::L)),
    (b"cugtl", Terminal::Compare(CompareOp::Ugt, Class::L)),
];

/// The words of QBE's IL that are left out.
static LEFT_OUT: [&[u8]; 40] = [
    b"type", b"env", b"thread", b"vastart", b"vaarg", b"dbgfile", b"dbgloc", b"cast", b"s", b"d",
    b"loads", b"loadd", b"stores", b"stored", b"exts", b"truncd", b"stosi", b"stoui", b"dtosi",
    b"dtoui", b"swtof", b"uwtof", b"sltof", b"ultof", b"ceqs", b"cnes", b"cles", b"clts", b"cges",
    b"cgts", b"cos", b"cuos", b"ceqd", b"cned", b"cled", b"cltd", b"cged", b"cgtd", b"cod",
    b"cuod",
];

/// What stands next to a text in a table.
fn next_to(rows: &[(&[u8], Terminal)], text: &[u8]) -> Option<Terminal>
    ensures { result ≡ words.next_to (map (λ row. (row.0.now, row.1)) rows.now) text.now }
{
    for row in rows {
        if text == row.0 {
            return Some(row.1);
        }
    }
    None
}

fn is_one_of(table: &[&[u8]], text: &[u8]) -> bool
    ensures { result ≡ words.is_one_of (map (λ word. word.now) table.now) text.now }
{
    for word in table {
        if text == *word {
            return true;
        }
    }
    false
}

/// Which word of the grammar a text is.
pub fn word_terminal(text: &[u8]) -> Terminal
    ensures { result ≡ words.word_terminal text.now }
{
    match next_to(&WORDS, text) {
        Some(terminal) => terminal,
        None => Terminal::Other,
    }
}

/// Whether a word is a constant of floating point, as `s_1.5`.
fn is_constant(text: &[u8]) -> bool
    ensures { result ≡ words.is_constant text.now }
{
    let prefix = if text.len() < 2 { text } else { &text[..2] };
    prefix == b"s_".as_slice() || prefix == b"d_".as_slice()
}

#[tactic(auto, unfolding(crate::specs::Words::left_out_word))]
fn is_left_out_word(text: &[u8]) -> bool
    ensures { result ≡ words.left_out_word text.now }
{
    is_constant(text) || is_one_of(&LEFT_OUT, text)
}

/// Whether a token belongs to a form of QBE's IL that is left out.
pub fn is_left_out(token: &Token) -> bool
    ensures { result ≡ words.left_out token.now.kind token.now.text.now }
{
    match token.kind {
        TokenKind::Aggregate | TokenKind::Dots => true,
        TokenKind::Word => is_left_out_word(token.text),
        _ => false,
    }
}
