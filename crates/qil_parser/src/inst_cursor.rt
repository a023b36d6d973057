//! The methods of the cursor for instructions.

ghost use Rattle.std.specs.Prelude.{◌≡◌};
ghost use Rattle.qil_language.specs.Reading.{starts, image};
ghost use Rattle.qil_parser.specs.Token.{seen, index};
ghost use Rattle.qil_parser.specs.Parsing as parsing;
ghost use Rattle.qil_parser.specs.FunctionParsing as functions;
ghost use Rattle.qil_parser.specs.Outcome.{Gives};
ghost use Rattle.qil_parser.specs.declared.terminal.Terminal.TheVariants.{Newline as newline};

use crate::cursor::Cursor;
use crate::cursor_error::CursorError;
use crate::terminal::Terminal;
use qil_tree::{
    AbiType, Argument, CallResult, Class, Expr, Inst, InstKind, Items, Name, Operand, Target, Width,
};
use std::alloc::Allocator;

impl<'t, 'a> Cursor<'t, 'a> {
    /// How wide a store is, and the line of its word.
    fn store_word(&mut self) -> Result<(u32, Width), CursorError>
        ensures { Gives (λ x. (x.0, x.1)) (seen self.new.rest.now) result (functions.store_word (seen self.old.rest.now)) }
    {
        match (self.next(), self.rest) {
            (Terminal::Store(width), [first, ..]) => {
                self.skip();
                Ok((first.line, width))
            }
            _ => Err(CursorError::Refused(false)),
        }
    }

    /// A temporary and `=`, with the line of the temporary.
    #[tactic(auto, unfolding(crate::specs::FunctionParsing::dest))]
    pub fn dest(&mut self) -> Result<(u32, Name<'a>), CursorError>
        ensures { Gives (λ x. (x.0, x.1)) (seen self.new.rest.now) result (functions.dest (seen self.old.rest.now)) }
    {
        let (line, name) = self.temp_name()?;
        self.word(Terminal::Equals)?;
        Ok((line, name))
    }

    #[tactic(auto, unfolding(crate::specs::FunctionParsing::extend_or_load))]
    fn extend_or_load(&mut self) -> Result<Expr<'a>, CursorError>
        ensures { Gives (λ x. x) (seen self.new.rest.now) result (functions.extend_or_load (seen self.old.rest.now)) }
    {
        match self.next() {
            Terminal::Extend(op) => {
                self.skip();
                let value = self.val()?;
                Ok(Expr::Extend(op, value))
            }
            Terminal::Load(op) => {
                self.skip();
                let at = self.val()?;
                Ok(Expr::Load(op, at))
            }
            _ => Err(CursorError::Refused(false)),
        }
    }

    #[tactic(auto, unfolding(crate::specs::FunctionParsing::expr))]
    fn expr(&mut self) -> Result<Expr<'a>, CursorError>
        ensures { Gives (λ x. x) (seen self.new.rest.now) result (functions.expr (seen self.old.rest.now)) }
    {
        match self.next() {
            Terminal::Unary(op) => {
                self.skip();
                let value = self.val()?;
                Ok(Expr::Unary(op, value))
            }
            Terminal::Binary(op) => {
                self.skip();
                let (left, right) = self.two()?;
                Ok(Expr::Binary(op, left, right))
            }
            Terminal::Compare(op, class) => {
                self.skip();
                let (left, right) = self.two()?;
                Ok(Expr::Compare(op, class, left, right))
            }
            _ => self.extend_or_load(),
        }
    }

    #[tactic(auto, unfolding(crate::specs::FunctionParsing::argument))]
    fn argument(&mut self) -> Result<Argument<'a>, CursorError>
        ensures { Gives (λ x. x) (seen self.new.rest.now) result (functions.argument (seen self.old.rest.now)) }
    {
        let abi_type = self.abi_type()?;
        let value = self.val()?;
        Ok(Argument { abi_type, value })
    }

    /// Arguments with commas between them, and perhaps one at the end.
    fn arguments<A: Allocator + Copy>(
        &mut self,
        alloc: A,
    ) -> Result<Items<Argument<'a>, A>, CursorError>
        ensures { Gives (λ x. x) (seen self.new.rest.now) result (functions.arguments (seen self.old.rest.now)) }
    {
        let mut items = Vec::new(alloc);
        'each: while self.starts_type() {
            let item = self.argument()?;
            items.push(item)?;
            if !self.starts_with(Terminal::Comma) {
                return Ok(Items::new(items));
            }
            self.separator();
        }
        let all = Items::new(items);
        Ok(all)
    }

    /// What is called, and its arguments.
    #[tactic(auto, unfolding(crate::specs::FunctionParsing::callee))]
    fn callee<A: Allocator + Copy>(
        &mut self,
        alloc: A,
    ) -> Result<(Operand<'a>, Items<Argument<'a>, A>), CursorError>
        ensures { Gives (λ x. (x.0, x.1)) (seen self.new.rest.now) result (functions.callee (seen self.old.rest.now)) }
    {
        let callee = self.val()?;
        self.word(Terminal::OpenParen)?;
        let arguments = self.arguments(alloc)?;
        self.word(Terminal::CloseParen)?;
        Ok((callee, arguments))
    }

    #[tactic(auto, unfolding(crate::specs::FunctionParsing::called))]
    fn called<A: Allocator + Copy>(
        &mut self,
        alloc: A,
    ) -> Result<(Operand<'a>, Items<Argument<'a>, A>), CursorError>
        ensures { Gives (λ x. (x.0, x.1)) (seen self.new.rest.now) result (functions.called (seen self.old.rest.now)) }
    {
        self.word(Terminal::Call)?;
        self.callee(alloc)
    }

    fn store<A: Allocator + Copy>(&mut self) -> Result<Inst<'a, A>, CursorError>
        ensures { Gives (λ x. x) (seen self.new.rest.now) result (functions.store (seen self.old.rest.now)) }
    {
        let (line, width) = self.store_word()?;
        let (value, at) = self.two()?;
        Ok(Inst {
            line,
            kind: InstKind::Store(width, value, at),
        })
    }

    fn blit<A: Allocator + Copy>(&mut self) -> Result<Inst<'a, A>, CursorError>
        ensures { Gives (λ x. x) (seen self.new.rest.now) result (functions.blit (seen self.old.rest.now)) }
    {
        let line = self.word_line(Terminal::Blit)?;
        let (from, to) = self.two()?;
        self.word(Terminal::Comma)?;
        let count = self.count()?;
        Ok(Inst {
            line,
            kind: InstKind::Blit(from, to, count),
        })
    }

    fn plain_call<A: Allocator + Copy>(&mut self, alloc: A) -> Result<Inst<'a, A>, CursorError>
        ensures { Gives (λ x. x) (seen self.new.rest.now) result (functions.plain_call (seen self.old.rest.now)) }
    {
        let line = self.word_line(Terminal::Call)?;
        let (callee, arguments) = self.callee(alloc)?;
        Ok(Inst {
            line,
            kind: InstKind::Call(None, callee, arguments),
        })
    }

    /// An instruction without a destination.
    #[tactic(auto, unfolding(crate::specs::FunctionParsing::plain))]
    pub fn plain<A: Allocator + Copy>(&mut self, alloc: A) -> Result<Inst<'a, A>, CursorError>
        ensures { Gives (λ x. x) (seen self.new.rest.now) result (functions.plain (seen self.old.rest.now)) }
    {
        match self.next() {
            Terminal::Store(_) => self.store(),
            Terminal::Blit => self.blit(),
            _ => self.plain_call(alloc),
        }
    }

    /// The rest of an instruction whose destination has a class.
    #[tactic(auto, unfolding(crate::specs::FunctionParsing::of_class))]
    pub fn of_class<A: Allocator + Copy>(
        &mut self,
        line: u32,
        name: Name<'a>,
        class: Class,
        alloc: A,
    ) -> Result<Inst<'a, A>, CursorError>
        ensures { Gives (λ x. x) (seen self.new.rest.now) result (image (λ f. f class (line, name.entry)) functions.of_class (seen self.old.rest.now)) }
    {
        match self.next() {
            Terminal::Unary(_)
            | Terminal::Binary(_)
            | Terminal::Compare(_, _)
            | Terminal::Extend(_)
            | Terminal::Load(_) => {
                let value = self.expr()?;
                Ok(Inst {
                    line,
                    kind: InstKind::Assign(Target { name, class }, value),
                })
            }
            Terminal::Alloc(op) => {
                self.skip();
                let size = self.val()?;
                Ok(Inst {
                    line,
                    kind: InstKind::Alloc(Target { name, class }, op, size),
                })
            }
            _ => {
                let (callee, arguments) = self.called(alloc)?;
                let abi_type = AbiType::from_class(class);
                Ok(Inst {
                    line,
                    kind: InstKind::Call(Some(CallResult { name, abi_type }), callee, arguments),
                })
            }
        }
    }

    /// The rest of an instruction whose destination takes a part of a word.
    #[tactic(auto, unfolding(crate::specs::FunctionParsing::of_sub))]
    pub fn of_sub<A: Allocator + Copy>(
        &mut self,
        line: u32,
        name: Name<'a>,
        alloc: A,
    ) -> Result<Inst<'a, A>, CursorError>
        ensures { Gives (λ x. x) (seen self.new.rest.now) result (image (λ f. f (line, name.entry)) functions.of_sub (seen self.old.rest.now)) }
    {
        let abi_type = self.sub_word()?;
        let (callee, arguments) = self.called(alloc)?;
        Ok(Inst {
            line,
            kind: InstKind::Call(Some(CallResult { name, abi_type }), callee, arguments),
        })
    }

    #[tactic(auto, unfolding(crate::specs::FunctionParsing::of_dest))]
    fn of_dest<A: Allocator + Copy>(
        &mut self,
        line: u32,
        name: Name<'a>,
        alloc: A,
    ) -> Result<Inst<'a, A>, CursorError>
        ensures { Gives (λ x. x) (seen self.new.rest.now) result (image (λ f. f (line, name.entry)) functions.of_dest (seen self.old.rest.now)) }
    {
        if self.starts_class() {
            let class = self.class()?;
            return self.of_class(line, name, class, alloc);
        }
        self.of_sub(line, name, alloc)
    }

    #[tactic(auto, unfolding(crate::specs::FunctionParsing::inst))]
    fn inst<A: Allocator + Copy>(&mut self, alloc: A) -> Result<Inst<'a, A>, CursorError>
        ensures { Gives (λ x. x) (seen self.new.rest.now) result (functions.inst (seen self.old.rest.now)) }
    {
        if self.starts_with(Terminal::Temp) {
            let (line, name) = self.dest()?;
            return self.of_dest(line, name, alloc);
        }
        self.plain(alloc)
    }

    pub fn inst_line<A: Allocator + Copy>(&mut self, alloc: A) -> Result<Inst<'a, A>, CursorError>
        ensures { Gives (λ x. x) (seen self.new.rest.now) result (parsing.before functions.inst newline (seen self.old.rest.now)) }
    {
        let inst = self.inst(alloc)?;
        self.word(Terminal::Newline)?;
        Ok(inst)
    }
}
