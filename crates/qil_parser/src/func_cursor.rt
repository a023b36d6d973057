//! The methods of the cursor for blocks and functions.

ghost use Rattle.std.specs.Prelude.{◌≡◌, [], ◌∷◌};
ghost use Rattle.qil_language.specs.Reading.{starts, joined};
ghost use Rattle.qil_parser.specs.Token.{seen, index};
ghost use Rattle.qil_parser.specs.Parsing as parsing;
ghost use Rattle.qil_parser.specs.FunctionParsing as functions;
ghost use Rattle.qil_parser.specs.Outcome.{Gives};
ghost use Rattle.qil_parser.specs.declared.terminal.Terminal.TheVariants.{Newline as newline, Comma as comma};

use crate::cursor::Cursor;
use crate::cursor_error::CursorError;
use crate::terminal::{Terminal, token_name};
use qil_tree::{
    AbiType, Block, Class, Func, Inst, Items, Jump, JumpKind, Name, Param, Phi, PhiSource, Target,
};
use std::alloc::Allocator;

impl<'t, 'a> Cursor<'t, 'a> {
    fn starts_inst(&self) -> bool
        ensures { result ≡ starts index functions.inst_starts (seen self.now.rest.now) }
    {
        matches!(
            self.next(),
            Terminal::Temp | Terminal::Store(_) | Terminal::Blit | Terminal::Call
        )
    }

    fn starts_plain(&self) -> bool
        ensures { result ≡ starts index functions.plain_starts (seen self.now.rest.now) }
    {
        matches!(
            self.next(),
            Terminal::Store(_) | Terminal::Blit | Terminal::Call
        )
    }

    fn starts_jump(&self) -> bool
        ensures { result ≡ starts index functions.jump_starts (seen self.now.rest.now) }
    {
        matches!(
            self.next(),
            Terminal::Jmp | Terminal::Jnz | Terminal::Ret | Terminal::Hlt
        )
    }

    #[tactic(auto, unfolding(crate::specs::FunctionParsing::source))]
    fn source(&mut self) -> Result<PhiSource<'a>, CursorError>
        ensures { Gives (λ x. x) (seen self.new.rest.now) result (functions.source (seen self.old.rest.now)) }
    {
        let (_, label) = self.label_name()?;
        let value = self.val()?;
        Ok(PhiSource { label, value })
    }

    fn next_source(&mut self) -> Result<PhiSource<'a>, CursorError>
        ensures { Gives (λ x. x) (seen self.new.rest.now) result (parsing.after comma functions.source (seen self.old.rest.now)) }
    {
        self.word(Terminal::Comma)?;
        self.source()
    }

    fn more_sources<A: Allocator + Copy>(
        &mut self,
        mut items: Vec<PhiSource<'a>, A>,
    ) -> Result<Items<PhiSource<'a>, A>, CursorError>
        ensures { Gives (λ x. x) (seen self.new.rest.now) result (joined items.entry.items (functions.more_sources (seen self.old.rest.now))) }
    {
        'each: while self.starts_with(Terminal::Comma) {
            let item = self.next_source()?;
            items.push(item)?;
        }
        Ok(Items::new(items))
    }

    /// The sources of a phi, from its word to the end of its line.
    #[tactic(auto, using(crate::proofs::BlocksLoop::listed), unfolding(crate::specs::FunctionParsing::sources))]
    fn sources_line<A: Allocator + Copy>(
        &mut self,
        alloc: A,
    ) -> Result<Items<PhiSource<'a>, A>, CursorError>
        ensures { Gives (λ x. x) (seen self.new.rest.now) result (parsing.before functions.sources newline (seen self.old.rest.now)) }
    {
        self.word(Terminal::Phi)?;
        let first = self.source()?;
        let mut items = Vec::new(alloc);
        items.push(first)?;
        let sources = self.more_sources(items)?;
        self.word(Terminal::Newline)?;
        Ok(sources)
    }

    fn more_lines<A: Allocator + Copy>(
        &mut self,
        mut items: Vec<Inst<'a, A>, A>,
        alloc: A,
    ) -> Result<Items<Inst<'a, A>, A>, CursorError>
        ensures { Gives (λ x. x) (seen self.new.rest.now) result (joined items.entry.items (functions.lines (seen self.old.rest.now))) }
    {
        'each: while self.starts_inst() {
            let item = self.inst_line(alloc)?;
            items.push(item)?;
        }
        Ok(Items::new(items))
    }

    /// The instructions from one on that was read up to the end of its line.
    fn lines_from<A: Allocator + Copy>(
        &mut self,
        first: Inst<'a, A>,
        alloc: A,
    ) -> Result<Items<Inst<'a, A>, A>, CursorError>
        ensures { Gives (λ x. x) (seen self.new.rest.now) result (joined (first.entry ∷ []) (parsing.after newline functions.lines (seen self.old.rest.now))) }
    {
        self.word(Terminal::Newline)?;
        let mut items = Vec::new(alloc);
        items.push(first)?;
        self.more_lines(items, alloc)
    }

    /// The instructions from one on whose destination has a class.
    #[tactic(auto, using(crate::proofs::BodyLoop::listed_classed))]
    fn class_lines<A: Allocator + Copy>(
        &mut self,
        line: u32,
        name: Name<'a>,
        class: Class,
        alloc: A,
    ) -> Result<Items<Inst<'a, A>, A>, CursorError>
        ensures { Gives (λ x. x) (seen self.new.rest.now) result (functions.class_lines (line, name.entry) class (seen self.old.rest.now)) }
    {
        let first = self.of_class(line, name, class, alloc)?;
        self.lines_from(first, alloc)
    }

    /// The instructions from one on whose destination takes a part of a word.
    #[tactic(auto, using(crate::proofs::BodyLoop::listed_made))]
    fn sub_lines<A: Allocator + Copy>(
        &mut self,
        line: u32,
        name: Name<'a>,
        alloc: A,
    ) -> Result<Items<Inst<'a, A>, A>, CursorError>
        ensures { Gives (λ x. x) (seen self.new.rest.now) result (functions.sub_lines (line, name.entry) (seen self.old.rest.now)) }
    {
        let first = self.of_sub(line, name, alloc)?;
        self.lines_from(first, alloc)
    }

    /// The instructions from one on that has no destination, if there are some.
    #[tactic(auto, using(crate::proofs::BlocksLoop::listed))]
    fn plain_lines<A: Allocator + Copy>(
        &mut self,
        alloc: A,
    ) -> Result<Items<Inst<'a, A>, A>, CursorError>
        ensures { Gives (λ x. x) (seen self.new.rest.now) result (functions.plain_lines (seen self.old.rest.now)) }
    {
        if self.starts_plain() {
            let first = self.plain(alloc)?;
            return self.lines_from(first, alloc);
        }
        Ok(Items::new(Vec::new(alloc)))
    }

    /// The phis and the instructions of a block: which of them a line has is seen after its class.
    fn body<A: Allocator + Copy>(
        &mut self,
        alloc: A,
    ) -> Result<(Items<Phi<'a, A>, A>, Items<Inst<'a, A>, A>), CursorError>
        ensures { Gives (λ x. (x.0, x.1)) (seen self.new.rest.now) result (functions.body (seen self.old.rest.now)) }
    {
        let mut phis = Vec::new(alloc);
        'each: while self.starts_with(Terminal::Temp) {
            let (line, name) = self.dest()?;
            if !self.starts_class() {
                let insts = self.sub_lines(line, name, alloc)?;
                return Ok((Items::new(phis), insts));
            }
            let class = self.class()?;
            if !self.starts_with(Terminal::Phi) {
                let insts = self.class_lines(line, name, class, alloc)?;
                return Ok((Items::new(phis), insts));
            }
            let sources = self.sources_line(alloc)?;
            phis.push(Phi {
                line,
                target: Target { name, class },
                sources,
            })?;
        }
        let insts = self.plain_lines(alloc)?;
        Ok((Items::new(phis), insts))
    }

    /// The prefix of a block: the line and the name of its label, its phis and its instructions.
    #[tactic(auto, unfolding(crate::specs::FunctionParsing::head))]
    fn head<A: Allocator + Copy>(
        &mut self,
        alloc: A,
    ) -> Result<
        (
            (u32, Name<'a>),
            (Items<Phi<'a, A>, A>, Items<Inst<'a, A>, A>),
        ),
        CursorError,
    >
        ensures { Gives (λ x. ((x.0.0, x.0.1), (x.1.0, x.1.1))) (seen self.new.rest.now) result (functions.head (seen self.old.rest.now)) }
    {
        let label = self.label_name()?;
        self.word(Terminal::Newline)?;
        let lines = self.body(alloc)?;
        Ok((label, lines))
    }

    #[tactic(auto, unfolding(crate::specs::FunctionParsing::jnz))]
    fn jnz(&mut self) -> Result<Jump<'a>, CursorError>
        ensures { Gives (λ x. x) (seen self.new.rest.now) result (functions.jnz (seen self.old.rest.now)) }
    {
        let line = self.word_line(Terminal::Jnz)?;
        let value = self.val()?;
        self.word(Terminal::Comma)?;
        let (_, unless_zero) = self.label_name()?;
        self.word(Terminal::Comma)?;
        let (_, if_zero) = self.label_name()?;
        Ok(Jump {
            line,
            kind: JumpKind::Jnz(value, unless_zero, if_zero),
        })
    }

    fn jmp(&mut self) -> Result<Jump<'a>, CursorError>
        ensures { Gives (λ x. x) (seen self.new.rest.now) result (functions.jmp (seen self.old.rest.now)) }
    {
        let line = self.word_line(Terminal::Jmp)?;
        let (_, label) = self.label_name()?;
        Ok(Jump {
            line,
            kind: JumpKind::Jmp(label),
        })
    }

    fn ret(&mut self) -> Result<Jump<'a>, CursorError>
        ensures { Gives (λ x. x) (seen self.new.rest.now) result (functions.ret (seen self.old.rest.now)) }
    {
        let line = self.word_line(Terminal::Ret)?;
        let value = self.perhaps_val()?;
        Ok(Jump {
            line,
            kind: JumpKind::Ret(value),
        })
    }

    fn hlt(&mut self) -> Result<Jump<'a>, CursorError>
        ensures { Gives (λ x. x) (seen self.new.rest.now) result (functions.hlt (seen self.old.rest.now)) }
    {
        let line = self.word_line(Terminal::Hlt)?;
        Ok(Jump {
            line,
            kind: JumpKind::Hlt,
        })
    }

    #[tactic(auto, unfolding(crate::specs::FunctionParsing::jump))]
    fn jump(&mut self) -> Result<Jump<'a>, CursorError>
        ensures { Gives (λ x. x) (seen self.new.rest.now) result (functions.jump (seen self.old.rest.now)) }
    {
        match self.next() {
            Terminal::Jmp => self.jmp(),
            Terminal::Jnz => self.jnz(),
            Terminal::Ret => self.ret(),
            _ => self.hlt(),
        }
    }

    fn jump_line(&mut self) -> Result<Jump<'a>, CursorError>
        ensures { Gives (λ x. x) (seen self.new.rest.now) result (functions.jump_line (seen self.old.rest.now)) }
    {
        let jump = self.jump()?;
        self.word(Terminal::Newline)?;
        Ok(jump)
    }

    /// How a block ends: by a jump, or before the label of the next one.
    #[tactic(auto, unfolding(crate::specs::FunctionParsing::ending))]
    fn ending(&mut self) -> Result<Jump<'a>, CursorError>
        ensures { Gives (λ x. x) (seen self.new.rest.now) result (functions.ending (seen self.old.rest.now)) }
    {
        if self.starts_jump() {
            return self.jump_line();
        }
        match self.rest {
            [first, ..] if self.starts_with(Terminal::Label) => Ok(Jump {
                line: first.line,
                kind: JumpKind::Jmp(token_name(first)),
            }),
            _ => Err(CursorError::Refused(true)),
        }
    }

    #[tactic(auto, unfolding(crate::specs::FunctionParsing::block))]
    fn block<A: Allocator + Copy>(&mut self, alloc: A) -> Result<Block<'a, A>, CursorError>
        ensures { Gives (λ x. x) (seen self.new.rest.now) result (functions.block (seen self.old.rest.now)) }
    {
        let ((line, label), (phis, insts)) = self.head(alloc)?;
        let jump = self.ending()?;
        Ok(Block {
            label,
            line,
            phis,
            insts,
            jump,
        })
    }

    fn more_blocks<A: Allocator + Copy>(
        &mut self,
        mut items: Vec<Block<'a, A>, A>,
        alloc: A,
    ) -> Result<Items<Block<'a, A>, A>, CursorError>
        ensures { Gives (λ x. x) (seen self.new.rest.now) result (joined items.entry.items (functions.more_blocks (seen self.old.rest.now))) }
    {
        'each: while self.starts_with(Terminal::Label) {
            let item = self.block(alloc)?;
            items.push(item)?;
        }
        Ok(Items::new(items))
    }

    #[tactic(auto, using(crate::proofs::BlocksLoop::listed), unfolding(crate::specs::FunctionParsing::blocks))]
    fn blocks<A: Allocator + Copy>(
        &mut self,
        alloc: A,
    ) -> Result<Items<Block<'a, A>, A>, CursorError>
        ensures { Gives (λ x. x) (seen self.new.rest.now) result (functions.blocks (seen self.old.rest.now)) }
    {
        let first = self.block(alloc)?;
        let mut items = Vec::new(alloc);
        items.push(first)?;
        self.more_blocks(items, alloc)
    }

    #[tactic(auto, unfolding(crate::specs::FunctionParsing::param))]
    fn param(&mut self) -> Result<Param<'a>, CursorError>
        ensures { Gives (λ x. x) (seen self.new.rest.now) result (functions.param (seen self.old.rest.now)) }
    {
        let abi_type = self.abi_type()?;
        let (_, name) = self.temp_name()?;
        Ok(Param { abi_type, name })
    }

    /// Parameters with commas between them, and perhaps one at the end.
    fn params<A: Allocator + Copy>(&mut self, alloc: A) -> Result<Items<Param<'a>, A>, CursorError>
        ensures { Gives (λ x. x) (seen self.new.rest.now) result (functions.params (seen self.old.rest.now)) }
    {
        let mut items = Vec::new(alloc);
        'each: while self.starts_type() {
            let item = self.param()?;
            items.push(item)?;
            if !self.starts_with(Terminal::Comma) {
                return Ok(Items::new(items));
            }
            self.separator();
        }
        Ok(Items::new(items))
    }

    #[tactic(auto, unfolding(crate::specs::FunctionParsing::all_params))]
    fn all_params<A: Allocator + Copy>(
        &mut self,
        alloc: A,
    ) -> Result<Items<Param<'a>, A>, CursorError>
        ensures { Gives (λ x. x) (seen self.new.rest.now) result (functions.all_params (seen self.old.rest.now)) }
    {
        self.word(Terminal::OpenParen)?;
        let params = self.params(alloc)?;
        self.word(Terminal::CloseParen)?;
        Ok(params)
    }

    #[tactic(auto, unfolding(crate::specs::FunctionParsing::opening))]
    fn opening(&mut self) -> Result<(), CursorError>
        ensures { Gives (λ x. tt) (seen self.new.rest.now) result (functions.opening (seen self.old.rest.now)) }
    {
        self.line()?;
        self.word(Terminal::OpenBrace)?;
        self.line()
    }

    /// A function up to its first block: what it returns, its name with its line, its parameters.
    #[tactic(auto, unfolding(crate::specs::FunctionParsing::top))]
    fn top<A: Allocator + Copy>(
        &mut self,
        alloc: A,
    ) -> Result<(Option<AbiType>, ((u32, Name<'a>), Items<Param<'a>, A>)), CursorError>
        ensures { Gives (λ x. (x.0, ((x.1.0.0, x.1.0.1), x.1.1))) (seen self.new.rest.now) result (functions.top (seen self.old.rest.now)) }
    {
        self.word(Terminal::Function)?;
        let returns = self.perhaps_type()?;
        let name = self.global_name()?;
        let params = self.all_params(alloc)?;
        self.opening()?;
        Ok((returns, (name, params)))
    }

    #[tactic(auto, unfolding(crate::specs::FunctionParsing::func))]
    pub fn func<A: Allocator + Copy>(&mut self, alloc: A) -> Result<Func<'a, A>, CursorError>
        ensures { Gives (λ x. x) (seen self.new.rest.now) result (functions.func (seen self.old.rest.now)) }
    {
        let (returns, ((line, name), params)) = self.top(alloc)?;
        let blocks = self.blocks(alloc)?;
        self.word(Terminal::CloseBrace)?;
        Ok(Func {
            returns,
            name,
            line,
            params,
            blocks,
        })
    }
}
