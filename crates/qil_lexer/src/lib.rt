//! Cuts the text of a QBE IL program into tokens, and reads the values of its numbers and strings.
//!
//! `tokens` is the lexer; `number_value` and `string_bytes` read a token's text. The functions of `laws` say that a
//! text has one cut or one fault at most, and what its tokens show of themselves.
#![tactic(auto)]

mod error;
mod laws;
mod lexer;
mod prefix;
mod token;
mod value;

pub use error::{LexCode, LexError};
pub use laws::{cut_shapes, escape_line, one_cut, one_fault, one_string};
pub use lexer::tokens;
pub use token::{Token, TokenKind};
pub use value::{number_value, string_bytes};
