//! What a token is to the grammar.

ghost use Rattle.std.specs.Prelude.{◌≡◌, drop};
ghost use Rattle.qil_parser.specs.Token.{kind_terminal, code};

use crate::words::word_terminal;
use qil_lexer::{Token, TokenKind};
use qil_tree::{AllocOp, BinaryOp, Class, CompareOp, Extension, LoadOp, Name, UnaryOp, Width};

/// What a token is to the grammar: its kind, or for a word which word.
#[derive(Clone, Copy)]
pub enum Terminal {
    Global,
    Temp,
    Label,
    Number,
    Comma,
    Equals,
    OpenBrace,
    CloseBrace,
    OpenParen,
    CloseParen,
    Newline,
    Function,
    W,
    L,
    Sb,
    Ub,
    Sh,
    Uh,
    Unary(UnaryOp),
    Binary(BinaryOp),
    Compare(CompareOp, Class),
    Extend(Extension),
    Load(LoadOp),
    Alloc(AllocOp),
    Store(Width),
    Blit,
    Call,
    Phi,
    Jmp,
    Jnz,
    Ret,
    Hlt,
    Data,
    Align,
    Z,
    B,
    H,
    Export,
    Section,
    Plus,
    Quoted,
    /// A token that the grammar has no place for.
    Other,
}

impl Terminal {
    /// A number for each mark, the same for all operations of one shape.
    pub fn code(&self) -> u8
        ensures { result ≡ code self.now }
    {
        match *self {
            Terminal::Global => 0,
            Terminal::Temp => 1,
            Terminal::Label => 2,
            Terminal::Number => 3,
            Terminal::Comma => 4,
            Terminal::Equals => 5,
            Terminal::OpenBrace => 6,
            Terminal::CloseBrace => 7,
            Terminal::OpenParen => 8,
            Terminal::CloseParen => 9,
            Terminal::Newline => 10,
            Terminal::Function => 11,
            Terminal::W => 12,
            Terminal::L => 13,
            Terminal::Sb => 14,
            Terminal::Ub => 15,
            Terminal::Sh => 16,
            Terminal::Uh => 17,
            Terminal::Unary(_) => 18,
            Terminal::Binary(_) => 19,
            Terminal::Compare(_, _) => 20,
            Terminal::Extend(_) => 21,
            Terminal::Load(_) => 22,
            Terminal::Alloc(_) => 23,
            Terminal::Store(_) => 24,
            Terminal::Blit => 25,
            Terminal::Call => 26,
            Terminal::Phi => 27,
            Terminal::Jmp => 28,
            Terminal::Jnz => 29,
            Terminal::Ret => 30,
            Terminal::Hlt => 31,
            Terminal::Other => 32,
            Terminal::Data => 33,
            Terminal::Align => 34,
            Terminal::Z => 35,
            Terminal::B => 36,
            Terminal::H => 37,
            Terminal::Export => 38,
            Terminal::Section => 39,
            Terminal::Plus => 40,
            Terminal::Quoted => 41,
        }
    }
}

pub fn token_terminal(token: &Token) -> Terminal
    ensures { result ≡ kind_terminal token.now.kind token.now.text.now }
{
    match token.kind {
        TokenKind::Global => Terminal::Global,
        TokenKind::Temp => Terminal::Temp,
        TokenKind::Label => Terminal::Label,
        TokenKind::Number => Terminal::Number,
        TokenKind::Comma => Terminal::Comma,
        TokenKind::Equals => Terminal::Equals,
        TokenKind::OpenBrace => Terminal::OpenBrace,
        TokenKind::CloseBrace => Terminal::CloseBrace,
        TokenKind::OpenParen => Terminal::OpenParen,
        TokenKind::CloseParen => Terminal::CloseParen,
        TokenKind::Newline => Terminal::Newline,
        TokenKind::Plus => Terminal::Plus,
        TokenKind::Quoted => Terminal::Quoted,
        TokenKind::Word => word_terminal(token.text),
        _ => Terminal::Other,
    }
}

/// The text without its first byte, the sigil.
pub fn token_name<'a>(token: &Token<'a>) -> Name<'a>
    ensures { result ≡ drop 1 token.now.text.now }
{
    match token.text {
        [] => Name::new(token.text),
        [_, name @ ..] => Name::new(name),
    }
}
