//! An expression as the operations that work it out: those that wait for an operand, or for the end of what brackets hold, stand on
//! a stack.

use crate::lexer::{Read, Token, next_token};
use crate::operation::{Binary, Operation, Unary};
use crate::value::Memory;
use std::alloc::{AllocError, Allocator};

/// An expression: what is done to work it out, in this order.
#[derive(Drop)]
pub struct Expression<'x, A: Allocator> {
    pub operations: Vec<Operation<'x>, A>,
}

/// What waits.
#[derive(Clone, Copy)]
enum Waiting {
    Parenthesis,
    Cast(Unary),
    Bracket(Memory),
    Unary(Unary),
    Binary(Binary),
}

/// An expression that is being read.
#[derive(Drop)]
struct Reading<'x, A: Allocator> {
    operations: Vec<Operation<'x>, A>,
    waiting: Vec<Waiting, A>,
    wants_operand: bool,
}

/// Why a text is no expression.
#[derive(Clone, Copy)]
pub enum Unread {
    Malformed,
    OutOfMemory,
}

impl From<AllocError> for Unread {
    fn from(_refused: AllocError) -> Self {
        Unread::OutOfMemory
    }
}

impl<'x, A: Allocator + Copy> Reading<'x, A> {
    fn new(alloc: A) -> Self {
        Reading {
            operations: Vec::new(alloc),
            waiting: Vec::new(alloc),
            wants_operand: true,
        }
    }

    fn emit(&mut self, operation: Operation<'x>) -> Result<(), Unread> {
        match self.operations.push(operation) {
            Ok(()) => Ok(()),
            Err(_) => Err(Unread::OutOfMemory),
        }
    }

    fn wait(&mut self, waiting: Waiting) -> Result<(), Unread> {
        match self.waiting.push(waiting) {
            Ok(()) => Ok(()),
            Err(_) => Err(Unread::OutOfMemory),
        }
    }

    /// Does what waits and binds at least as tightly as this.
    fn settle(&mut self, level: u8) -> Result<(), Unread> {
        for _ in 0..self.waiting.len() {
            match self.waiting.as_slice().last() {
                Some(Waiting::Unary(unary)) => {
                    let operation = Operation::Unary(*unary);
                    self.emit(operation)?;
                }
                Some(Waiting::Binary(binary)) if binary.level() >= level => {
                    let operation = Operation::Binary(*binary);
                    self.emit(operation)?;
                }
                _ => return Ok(()),
            }
            self.waiting.pop();
        }
        Ok(())
    }

    /// Takes an operand.
    fn operand(&mut self, operation: Operation<'x>) -> Result<(), Unread> {
        if !self.wants_operand {
            return Err(Unread::Malformed);
        }
        self.wants_operand = false;
        self.emit(operation)
    }

    /// Takes what stands before an operand.
    fn before(&mut self, waiting: Waiting) -> Result<(), Unread> {
        if !self.wants_operand {
            return Err(Unread::Malformed);
        }
        self.wait(waiting)
    }

    /// Takes what stands between two operands; a sign may stand before one.
    fn between(&mut self, binary: Binary) -> Result<(), Unread> {
        if self.wants_operand {
            return match binary {
                Binary::Add => self.wait(Waiting::Unary(Unary::Plus)),
                Binary::Subtract => self.wait(Waiting::Unary(Unary::Minus)),
                _ => Err(Unread::Malformed),
            };
        }
        self.settle(binary.level())?;
        self.wants_operand = true;
        self.wait(Waiting::Binary(binary))
    }

    /// Takes the end of what brackets hold.
    fn close(&mut self, is_bracket: bool) -> Result<(), Unread> {
        if self.wants_operand {
            return Err(Unread::Malformed);
        }
        self.settle(0)?;
        match (self.waiting.pop(), is_bracket) {
            (Some(Waiting::Parenthesis), false) => Ok(()),
            (Some(Waiting::Cast(unary)), false) => self.emit(Operation::Unary(unary)),
            (Some(Waiting::Bracket(memory)), true) => self.emit(Operation::Load(memory)),
            _ => Err(Unread::Malformed),
        }
    }

    /// Takes a token.
    fn take(&mut self, token: Token<'x>) -> Result<(), Unread> {
        match token {
            Token::Number(number) => self.operand(Operation::Number(number)),
            Token::Float(float) => self.operand(Operation::Float(float)),
            Token::Temp(name) => self.operand(Operation::Temp(name)),
            Token::Global(name) => self.operand(Operation::Global(name)),
            Token::Depth => self.operand(Operation::Depth),
            Token::Position => self.operand(Operation::Position),
            Token::Load(memory) => self.before(Waiting::Bracket(memory)),
            Token::Cast(unary) => self.before(Waiting::Cast(unary)),
            Token::Open => self.before(Waiting::Parenthesis),
            Token::Complement => self.before(Waiting::Unary(Unary::Complement)),
            Token::Not => self.before(Waiting::Unary(Unary::Not)),
            Token::Close => self.close(false),
            Token::CloseBracket => self.close(true),
            Token::Binary(binary) => self.between(binary),
        }
    }

    /// The whole expression, behind the last token.
    fn end(mut self) -> Result<Expression<'x, A>, Unread> {
        if self.wants_operand {
            return Err(Unread::Malformed);
        }
        self.settle(0)?;
        if !self.waiting.is_empty() {
            return Err(Unread::Malformed);
        }
        Ok(Expression {
            operations: self.operations,
        })
    }
}

/// The expression that a text is.
///
/// # Errors
///
/// `Malformed` if it is none, `OutOfMemory` where there is no memory for its operations.
pub fn parse<'x, A: Allocator + Copy>(
    alloc: A,
    text: &'x [u8],
) -> Result<Expression<'x, A>, Unread> {
    let mut reading = Reading::new(alloc);
    let mut rest = text;
    for _ in 0..text.len() + 1 {
        match next_token(rest) {
            Read::Token(token, after) => {
                reading.take(token)?;
                rest = after;
            }
            Read::End => return reading.end(),
            Read::Stray => return Err(Unread::Malformed),
        }
    }
    Err(Unread::Malformed)
}
