//! Tokens, and the kind that a byte begins.

ghost use Rattle.std.specs.Prelude.{◌≡◌, IfSome};
ghost use Rattle.qil_lexer.specs.Shape.{first_kind};
ghost use Rattle.qil_lexer.specs.Prefix.{IsByteOf};

/// What a token is.
///
/// The sigils, numbers, strings, symbols and `#` comments are those of QBE's IL reference ("Input Files", "Sigils",
/// "Spacing", "String Literals"). It leaves their exact shapes open: the shapes below are qrev's own choice. A letter
/// is one of the 52 letters of ASCII, and a name is one or more letters, digits, `.`, `_` and `$`.
#[derive(Clone, Copy, PartialEq, Eq)]
pub enum TokenKind {
    /// `$` and a name: a function, a data object or a built-in.
    Global,
    /// `%` and a name: a temporary of a function.
    Temp,
    /// `@` and a name: a block of a function.
    Label,
    /// `:` and a name: an aggregate type.
    Aggregate,
    /// A letter, then any letters, digits, `_` and `.`: a keyword, a class or an operation.
    Word,
    /// Decimal digits, or `-` and decimal digits, from -2^63 to 2^64 - 1.
    Number,
    /// `"`, bytes of one line with escapes among them, `"`. A `\` begins an escape: one of `b f n r t \ "` follows, or
    /// one to three octal digits (as many as stand there, at most three) of value 255 at most.
    Quoted,
    /// `,`
    Comma,
    /// `=`
    Equals,
    /// `{`
    OpenBrace,
    /// `}`
    CloseBrace,
    /// `(`
    OpenParen,
    /// `)`
    CloseParen,
    /// `+`
    Plus,
    /// `...`
    Dots,
    /// Byte 10. A run of them with only spacing and comments between is one token, from the first through the last.
    Newline,
}

/// A piece of a text, the longest that is at its place.
#[derive(Clone, Copy)]
pub struct Token<'a> {
    pub kind: TokenKind,
    /// Its bytes, which lie in the text.
    pub text: &'a [u8],
    /// How many bytes of the text come before it.
    pub start: usize,
    /// The line of its first byte, counted from 1.
    pub line: u32,
}

/// The kind of the tokens that begin with a byte, if some do.
#[tactic(auto, unfolding(crate::specs::Shape::first_kind))]
pub fn first_kind(b: u8) -> Option<TokenKind>
    ensures is { result ≡ first_kind b }
    ensures byte { IfSome result (λ kind. IsByteOf kind b) }
{
    Some(match b {
        b'$' => TokenKind::Global,
        b'%' => TokenKind::Temp,
        b'@' => TokenKind::Label,
        b':' => TokenKind::Aggregate,
        b'"' => TokenKind::Quoted,
        b',' => TokenKind::Comma,
        b'=' => TokenKind::Equals,
        b'{' => TokenKind::OpenBrace,
        b'}' => TokenKind::CloseBrace,
        b'(' => TokenKind::OpenParen,
        b')' => TokenKind::CloseParen,
        b'+' => TokenKind::Plus,
        b'.' => TokenKind::Dots,
        b'\n' => TokenKind::Newline,
        b'a'..=b'z' | b'A'..=b'Z' => TokenKind::Word,
        b'0'..=b'9' | b'-' => TokenKind::Number,
        _ => return None,
    })
}
