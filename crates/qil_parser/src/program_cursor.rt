//! The productions of a whole program: links, and definitions in a row.

ghost use Rattle.std.specs.Prelude.{◌≡◌, List, []};
ghost use Rattle.qil_language.specs.Reading.{starts, image};
ghost use Rattle.qil_parser.specs.Token.{seen, index};
ghost use Rattle.qil_parser.specs.Parsing as parsing;
ghost use Rattle.qil_parser.specs.DataParsing as reading;
ghost use Rattle.qil_parser.specs.Programs.{program_of};
ghost use Rattle.qil_parser.specs.Outcome.{Gives, Adds};

use crate::cursor::Cursor;
use crate::cursor_error::CursorError;
use crate::terminal::Terminal;
use qil_tree::{Data, Definition, Func, Items, Program};
use std::alloc::Allocator;
use std::marker::Model;

/// A definition.
#[derive(Drop)]
pub enum Defined<'a, A: Allocator> {
    Data(Data<'a, A>),
    Func(Func<'a, A>),
}

/// The definitions of a program, as far as it was read.
#[derive(Drop)]
pub struct Parts<'a, A: Allocator> {
    datas: Vec<Data<'a, A>, A>,
    funcs: Vec<Func<'a, A>, A>,
    order: Vec<Definition, A>,
}

impl<'a, A: Allocator> Model for Parts<'a, A> {
    ghost use Rattle.qil_tree.specs.declared.tree.Program.{Program};

    ghost Value = { Program A };

    ghost view = { λ p. record { datas = p.datas.items; funcs = p.funcs.items; order = p.order.items } };
}

impl<'a, A: Allocator + Copy> Parts<'a, A> {
    fn new(alloc: A) -> Parts<'a, A>
        ensures { result ≡ program_of [] }
    {
        Parts {
            datas: Vec::new(alloc),
            funcs: Vec::new(alloc),
            order: Vec::new(alloc),
        }
    }

    /// Adds a definition at the end.
    fn add(&mut self, def: Defined<'a, A>) -> Result<(), CursorError>
        ensures { Adds self.old def.entry self.new result }
    {
        match def {
            Defined::Data(data) => {
                self.order.push(Definition::Data)?;
                self.datas.push(data)?;
            }
            Defined::Func(func) => {
                self.order.push(Definition::Func)?;
                self.funcs.push(func)?;
            }
        }
        Ok(())
    }

    fn program(self) -> Program<'a, A>
        ensures { result ≡ self.entry }
    {
        Program {
            datas: Items::new(self.datas),
            funcs: Items::new(self.funcs),
            order: Items::new(self.order),
        }
    }
}

impl<'t, 'a> Cursor<'t, 'a> {
    #[tactic(auto, unfolding(crate::specs::DataParsing::link))]
    fn link(&mut self) -> Result<(), CursorError>
        ensures { Gives (λ x. tt) (seen self.new.rest.now) result (reading.link (seen self.old.rest.now)) }
    {
        if self.starts_with(Terminal::Export) {
            self.skip();
            return self.line();
        }
        self.word(Terminal::Section)?;
        self.word(Terminal::Quoted)?;
        if self.starts_with(Terminal::Quoted) {
            self.skip();
        }
        self.line()
    }

    fn starts_link(&self) -> bool
        ensures { result ≡ starts index reading.link_firsts (seen self.now.rest.now) }
    {
        matches!(self.next(), Terminal::Export | Terminal::Section)
    }

    fn links(&mut self) -> Result<(), CursorError>
        ensures { Gives (λ x. tt) (seen self.new.rest.now) result (reading.links (seen self.old.rest.now)) }
    {
        'each: while self.starts_link() {
            self.link()?;
        }
        Ok(())
    }

    #[tactic(auto, unfolding(crate::specs::DataParsing::thing))]
    fn thing<A: Allocator + Copy>(&mut self, alloc: A) -> Result<Defined<'a, A>, CursorError>
        ensures { Gives (λ x. x) (seen self.new.rest.now) result (reading.thing (seen self.old.rest.now)) }
    {
        if self.starts_with(Terminal::Data) {
            let data = self.data_definition(alloc)?;
            return Ok(Defined::Data(data));
        }
        let func = self.func(alloc)?;
        Ok(Defined::Func(func))
    }

    #[tactic(auto, unfolding(crate::specs::DataParsing::def_line, crate::specs::DataParsing::def))]
    fn def_line<A: Allocator + Copy>(&mut self, alloc: A) -> Result<Defined<'a, A>, CursorError>
        ensures { Gives (λ x. x) (seen self.new.rest.now) result (reading.def_line (seen self.old.rest.now)) }
    {
        self.links()?;
        let def = self.thing(alloc)?;
        self.line()?;
        Ok(def)
    }

    fn starts_def(&self) -> bool
        ensures { result ≡ starts index reading.def_firsts (seen self.now.rest.now) }
    {
        matches!(
            self.next(),
            Terminal::Export | Terminal::Section | Terminal::Data | Terminal::Function
        )
    }

    #[tactic(auto, unfolding(crate::specs::DataParsing::program))]
    pub fn program<A: Allocator + Copy>(&mut self, alloc: A) -> Result<Program<'a, A>, CursorError>
        ensures { Gives (λ x. x) (seen self.new.rest.now) result (reading.program (seen self.old.rest.now)) }
    {
        self.line()?;
        self.defs(alloc)
    }

    fn defs<A: Allocator + Copy>(&mut self, alloc: A) -> Result<Program<'a, A>, CursorError>
        ensures { Gives (λ x. x) (seen self.new.rest.now) result (image program_of reading.defs (seen self.old.rest.now)) }
    {
        let mut parts = Parts::new(alloc);
        'each: while self.starts_def() {
            let def = self.def_line(alloc)?;
            parts.add(def)?;
        }
        Ok(parts.program())
    }
}
