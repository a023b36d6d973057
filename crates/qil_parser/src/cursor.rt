//! A cursor over the tokens, with a method for each phrase.

ghost use Rattle.std.specs.Prelude.{◌≡◌, drop, true};
ghost use Rattle.qil_language.specs.Reading.{starts, got};
ghost use Rattle.qil_parser.specs.Token.{HasNumbers, HasStrings, seen, index};
ghost use Rattle.qil_parser.specs.Parsing as parsing;
ghost use Rattle.qil_parser.specs.Grammar.{is_signed};
ghost use Rattle.qil_parser.specs.Outcome.{Gives};
ghost use Rattle.qil_parser.specs.declared.terminal.Terminal.TheVariants.{Comma as comma};

use crate::cursor_error::CursorError;
use crate::terminal::{Terminal, token_name, token_terminal};
use qil_lexer::{Token, TokenKind, number_value};
use qil_tree::{AbiType, Class, Name, Operand};

/// The tokens that are left.
#[derive(Drop)]
pub struct Cursor<'t, 'a> {
    pub rest: &'t [Token<'a>],
    ghost numbers: { ∥ HasNumbers rest.now ∥₁ },
    ghost strings: { ∥ HasStrings rest.now ∥₁ },
}

impl<'t, 'a> Cursor<'t, 'a> {
    /// The mark of the next token, `Other` at the end.
    pub fn next(&self) -> Terminal
        ensures { result ≡ parsing.next_terminal (seen self.now.rest.now) }
    {
        match self.rest {
            [first, ..] => token_terminal(first),
            [] => Terminal::Other,
        }
    }

    pub fn starts_with(&self, terminal: Terminal) -> bool
        ensures { result ≡ starts index (parsing.the terminal) (seen self.now.rest.now) }
    {
        match self.rest {
            [first, ..] => token_terminal(first).code() == terminal.code(),
            [] => false,
        }
    }

    pub fn starts_class(&self) -> bool
        ensures { result ≡ starts index parsing.classes (seen self.now.rest.now) }
    {
        matches!(self.next(), Terminal::W | Terminal::L)
    }

    pub fn starts_type(&self) -> bool
        ensures { result ≡ starts index parsing.types (seen self.now.rest.now) }
    {
        matches!(
            self.next(),
            Terminal::W | Terminal::L | Terminal::Sb | Terminal::Ub | Terminal::Sh | Terminal::Uh
        )
    }

    /// Goes past the next token.
    pub fn skip(&mut self)
        ensures { self.new.rest.now ≡ drop 1 self.old.rest.now }
    {
        if let [_, rest @ ..] = self.rest {
            self.rest = rest;
        }
    }

    pub fn word(&mut self, wanted: Terminal) -> Result<(), CursorError>
        ensures { Gives (λ x. tt) (seen self.new.rest.now) result (parsing.word wanted (seen self.old.rest.now)) }
    {
        match self.rest {
            [first, ..] if token_terminal(first).code() == wanted.code() => {
                self.skip();
                Ok(())
            }
            _ => Err(CursorError::Refused(false)),
        }
    }

    pub fn word_line(&mut self, wanted: Terminal) -> Result<u32, CursorError>
        ensures { Gives (λ x. x) (seen self.new.rest.now) result (parsing.word_line wanted (seen self.old.rest.now)) }
    {
        match self.rest {
            [first, ..] if token_terminal(first).code() == wanted.code() => {
                self.skip();
                Ok(first.line)
            }
            _ => Err(CursorError::Refused(false)),
        }
    }

    pub fn temp_name(&mut self) -> Result<(u32, Name<'a>), CursorError>
        ensures { Gives (λ x. (x.0, x.1)) (seen self.new.rest.now) result (parsing.temp_name (seen self.old.rest.now)) }
    {
        match self.rest {
            [first, ..] if matches!(first.kind, TokenKind::Temp) => {
                self.skip();
                Ok((first.line, token_name(first)))
            }
            _ => Err(CursorError::Refused(false)),
        }
    }

    pub fn label_name(&mut self) -> Result<(u32, Name<'a>), CursorError>
        ensures { Gives (λ x. (x.0, x.1)) (seen self.new.rest.now) result (parsing.label_name (seen self.old.rest.now)) }
    {
        match self.rest {
            [first, ..] if matches!(first.kind, TokenKind::Label) => {
                self.skip();
                Ok((first.line, token_name(first)))
            }
            _ => Err(CursorError::Refused(false)),
        }
    }

    pub fn global_name(&mut self) -> Result<(u32, Name<'a>), CursorError>
        ensures { Gives (λ x. (x.0, x.1)) (seen self.new.rest.now) result (parsing.global_name (seen self.old.rest.now)) }
    {
        match self.rest {
            [first, ..] if matches!(first.kind, TokenKind::Global) => {
                self.skip();
                Ok((first.line, token_name(first)))
            }
            _ => Err(CursorError::Refused(false)),
        }
    }

    pub fn class(&mut self) -> Result<Class, CursorError>
        ensures { Gives (λ x. x) (seen self.new.rest.now) result (parsing.class_word (seen self.old.rest.now)) }
    {
        let class = match self.next() {
            Terminal::W => Class::W,
            Terminal::L => Class::L,
            _ => return Err(CursorError::Refused(false)),
        };
        self.skip();
        Ok(class)
    }

    /// One of the types that are parts of a word.
    pub fn sub_word(&mut self) -> Result<AbiType, CursorError>
        ensures { Gives (λ x. x) (seen self.new.rest.now) result (parsing.sub_word (seen self.old.rest.now)) }
    {
        let abi_type = match self.next() {
            Terminal::Sb => AbiType::Sb,
            Terminal::Ub => AbiType::Ub,
            Terminal::Sh => AbiType::Sh,
            Terminal::Uh => AbiType::Uh,
            _ => return Err(CursorError::Refused(false)),
        };
        self.skip();
        Ok(abi_type)
    }

    #[tactic(auto, unfolding(crate::specs::Parsing::type_word))]
    pub fn abi_type(&mut self) -> Result<AbiType, CursorError>
        ensures { Gives (λ x. x) (seen self.new.rest.now) result (parsing.type_word (seen self.old.rest.now)) }
    {
        if self.starts_class() {
            let class = self.class()?;
            return Ok(AbiType::from_class(class));
        }
        self.sub_word()
    }

    pub fn perhaps_type(&mut self) -> Result<Option<AbiType>, CursorError>
        ensures { Gives (λ x. x) (seen self.new.rest.now) result (parsing.perhaps parsing.types parsing.type_word (seen self.old.rest.now)) }
    {
        if self.starts_type() {
            return Ok(Some(self.abi_type()?));
        }
        Ok(None)
    }

    #[tactic(auto, using(crate::proofs::Numbers::first_shape, crate::proofs::Numbers::first_range))]
    pub fn val(&mut self) -> Result<Operand<'a>, CursorError>
        ensures { Gives (λ x. x) (seen self.new.rest.now) result (parsing.val (seen self.old.rest.now)) }
    {
        match self.rest {
            [first, ..] => match first.kind {
                TokenKind::Number => {
                    let value = number_value(first.text);
                    self.skip();
                    Ok(Operand::Number(value))
                }
                TokenKind::Global => {
                    self.skip();
                    Ok(Operand::Global(token_name(first)))
                }
                TokenKind::Temp => {
                    self.skip();
                    Ok(Operand::Temp(token_name(first)))
                }
                _ => Err(CursorError::Refused(false)),
            },
            [] => Err(CursorError::Refused(false)),
        }
    }

    pub fn perhaps_val(&mut self) -> Result<Option<Operand<'a>>, CursorError>
        ensures { Gives (λ x. x) (seen self.new.rest.now) result (parsing.perhaps parsing.values parsing.val (seen self.old.rest.now)) }
    {
        match self.next() {
            Terminal::Number | Terminal::Global | Terminal::Temp => Ok(Some(self.val()?)),
            _ => Ok(None),
        }
    }

    /// A number without sign.
    #[tactic(auto, using(crate::proofs::Numbers::first_shape, crate::proofs::Numbers::first_range))]
    pub fn count(&mut self) -> Result<u64, CursorError>
        ensures { Gives (λ x. x) (seen self.new.rest.now) result (parsing.count (seen self.old.rest.now)) }
    {
        match self.rest {
            [first, ..] if matches!(first.kind, TokenKind::Number) && !is_signed(first.text) => {
                let value = number_value(first.text);
                self.skip();
                Ok(value)
            }
            _ => Err(CursorError::Refused(false)),
        }
    }

    #[tactic(auto, unfolding(crate::specs::Parsing::two))]
    pub fn two(&mut self) -> Result<(Operand<'a>, Operand<'a>), CursorError>
        ensures { Gives (λ x. (x.0, x.1)) (seen self.new.rest.now) result (parsing.two (seen self.old.rest.now)) }
    {
        let left = self.val()?;
        self.word(Terminal::Comma)?;
        let right = self.val()?;
        Ok((left, right))
    }

    /// Goes past the comma after an item of a list, which comes next: another item may come after it, or none.
    pub fn separator(&mut self)
        ensures { starts index (parsing.the comma) (seen self.old.rest.now) ≡ true → parsing.word comma (seen self.old.rest.now) ≡ got tt (seen self.new.rest.now) }
    {
        self.skip();
    }

    #[tactic(auto, unfolding(crate::specs::Parsing::line))]
    pub fn line(&mut self) -> Result<(), CursorError>
        ensures { Gives (λ x. tt) (seen self.new.rest.now) result (parsing.line (seen self.old.rest.now)) }
    {
        if self.starts_with(Terminal::Newline) {
            self.skip();
        }
        Ok(())
    }
}

fn is_signed(text: &[u8]) -> bool
    ensures { result ≡ is_signed text.now }
{
    match text {
        [first, ..] => *first == b'-',
        [] => false,
    }
}
