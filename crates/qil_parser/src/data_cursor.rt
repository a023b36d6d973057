//! The productions of data. Newlines between the tokens of a data definition say nothing, so each token but the last
//! goes with the newlines after it.

ghost use Rattle.std.specs.Prelude.{◌≡◌, [], ◌∷◌};
ghost use Rattle.qil_language.specs.Reading.{got, starts, joined};
ghost use Rattle.qil_parser.specs.Token.{seen, index};
ghost use Rattle.qil_parser.specs.Parsing as parsing;
ghost use Rattle.qil_parser.specs.DataGrammar.{width_mark};
ghost use Rattle.qil_parser.specs.DataParsing as reading;
ghost use Rattle.qil_parser.specs.Outcome.{Gives};

use crate::cursor::Cursor;
use crate::cursor_error::CursorError;
use crate::terminal::Terminal;
use qil_lexer::{TokenKind, number_value, string_bytes};
use qil_tree::{Data, Field, Item, Items, Name, Width};
use std::alloc::Allocator;

impl<'t, 'a> Cursor<'t, 'a> {
    /// Goes past any newlines.
    fn newlines(&mut self)
        ensures { reading.newlines (seen self.old.rest.now) ≡ got tt (seen self.new.rest.now) }
    {
        'each: while self.starts_with(Terminal::Newline) {
            self.skip();
        }
    }

    fn loose_word(&mut self, wanted: Terminal) -> Result<(), CursorError>
        ensures { Gives (λ x. tt) (seen self.new.rest.now) result (reading.loose (parsing.word wanted) (seen self.old.rest.now)) }
    {
        self.word(wanted)?;
        self.newlines();
        Ok(())
    }

    fn loose_name(&mut self) -> Result<(u32, Name<'a>), CursorError>
        ensures { Gives (λ x. (x.0, x.1)) (seen self.new.rest.now) result (reading.loose parsing.global_name (seen self.old.rest.now)) }
    {
        let name = self.global_name()?;
        self.newlines();
        Ok(name)
    }

    /// A constant, as its 64 bits.
    #[tactic(auto, using(crate::proofs::Numbers::first_shape, crate::proofs::Numbers::first_range))]
    fn constant(&mut self) -> Result<u64, CursorError>
        ensures { Gives (λ x. x) (seen self.new.rest.now) result (reading.constant (seen self.old.rest.now)) }
    {
        match self.rest {
            [first, ..] if matches!(first.kind, TokenKind::Number) => {
                let value = number_value(first.text);
                self.skip();
                Ok(value)
            }
            _ => Err(CursorError::Refused(false)),
        }
    }

    fn loose_count(&mut self) -> Result<u64, CursorError>
        ensures { Gives (λ x. x) (seen self.new.rest.now) result (reading.loose parsing.count (seen self.old.rest.now)) }
    {
        let value = self.count()?;
        self.newlines();
        Ok(value)
    }

    /// A string, as the bytes that it represents.
    #[tactic(auto, using(crate::proofs::Strings::first_string, crate::proofs::Strings::string_is))]
    fn text<A: Allocator + Copy>(&mut self, alloc: A) -> Result<Items<u8, A>, CursorError>
        ensures { Gives (λ x. x) (seen self.new.rest.now) result (reading.text (seen self.old.rest.now)) }
    {
        match self.rest {
            [first, ..] if matches!(first.kind, TokenKind::Quoted) => {
                let bytes = string_bytes(alloc, first.text)?;
                self.skip();
                Ok(Items::new(bytes))
            }
            _ => Err(CursorError::Refused(false)),
        }
    }

    #[tactic(auto, unfolding(crate::specs::DataParsing::number_item))]
    fn number_item<A: Allocator + Copy>(&mut self) -> Result<Item<'a, A>, CursorError>
        ensures { Gives (λ x. x) (seen self.new.rest.now) result (reading.number_item (seen self.old.rest.now)) }
    {
        let value = self.constant()?;
        self.newlines();
        Ok(Item::Number(value))
    }

    #[tactic(auto, unfolding(crate::specs::DataParsing::text_item))]
    fn text_item<A: Allocator + Copy>(&mut self, alloc: A) -> Result<Item<'a, A>, CursorError>
        ensures { Gives (λ x. x) (seen self.new.rest.now) result (reading.text_item (seen self.old.rest.now)) }
    {
        let bytes = self.text(alloc)?;
        self.newlines();
        Ok(Item::Text(bytes))
    }

    /// What is added to an address, 0 where nothing is.
    #[tactic(auto, unfolding(crate::specs::DataParsing::offset))]
    fn offset(&mut self) -> Result<u64, CursorError>
        ensures { Gives (λ x. x) (seen self.new.rest.now) result (reading.offset (seen self.old.rest.now)) }
    {
        if !self.starts_with(Terminal::Plus) {
            return Ok(0);
        }
        self.skip();
        self.newlines();
        self.loose_count()
    }

    #[tactic(auto, unfolding(crate::specs::DataParsing::address_item))]
    fn address_item<A: Allocator + Copy>(&mut self) -> Result<Item<'a, A>, CursorError>
        ensures { Gives (λ x. x) (seen self.new.rest.now) result (reading.address_item (seen self.old.rest.now)) }
    {
        let (_, name) = self.loose_name()?;
        let offset = self.offset()?;
        Ok(Item::Address(name, offset))
    }

    /// Whether an item of a field of that width comes next.
    fn starts_item(&self, width: Width) -> bool
        ensures { result ≡ starts index (reading.item_firsts width) (seen self.now.rest.now) }
    {
        match width {
            Width::B => self.starts_with(Terminal::Number) || self.starts_with(Terminal::Quoted),
            Width::H | Width::W => self.starts_with(Terminal::Number),
            Width::L => self.starts_with(Terminal::Number) || self.starts_with(Terminal::Global),
        }
    }

    #[tactic(auto, unfolding(crate::specs::DataParsing::item))]
    fn item<A: Allocator + Copy>(
        &mut self,
        alloc: A,
        width: Width,
    ) -> Result<Item<'a, A>, CursorError>
        ensures { Gives (λ x. x) (seen self.new.rest.now) result (reading.item width (seen self.old.rest.now)) }
    {
        if self.starts_with(Terminal::Number) {
            return self.number_item();
        }
        match width {
            Width::B => self.text_item(alloc),
            Width::H | Width::W => self.number_item(),
            Width::L => self.address_item(),
        }
    }

    /// The items after a first one.
    fn more_items<A: Allocator + Copy>(
        &mut self,
        width: Width,
        first: Item<'a, A>,
        alloc: A,
    ) -> Result<Items<Item<'a, A>, A>, CursorError>
        ensures { Gives (λ x. x) (seen self.new.rest.now) result (joined (first.entry ∷ []) (reading.items_of width (seen self.old.rest.now))) }
    {
        let mut items = Vec::new(alloc);
        items.push(first)?;
        'each: while self.starts_item(width) {
            let item = self.item(alloc, width)?;
            items.push(item)?;
        }
        Ok(Items::new(items))
    }

    /// The word of a width, and the items after it.
    #[tactic(auto, unfolding(crate::specs::DataParsing::values))]
    fn values<A: Allocator + Copy>(
        &mut self,
        alloc: A,
        width: Width,
        word: Terminal,
    ) -> Result<Field<'a, A>, CursorError>
        requires { word ≡ width_mark width }
        ensures { Gives (λ x. x) (seen self.new.rest.now) result (reading.values width (seen self.old.rest.now)) }
    {
        self.loose_word(word)?;
        let first = self.item(alloc, width)?;
        let items = self.more_items(width, first, alloc)?;
        Ok(Field::Values(width, items))
    }

    #[tactic(auto, unfolding(crate::specs::DataParsing::zeros))]
    fn zeros<A: Allocator + Copy>(&mut self) -> Result<Field<'a, A>, CursorError>
        ensures { Gives (λ x. x) (seen self.new.rest.now) result (reading.zeros (seen self.old.rest.now)) }
    {
        self.loose_word(Terminal::Z)?;
        let count = self.loose_count()?;
        Ok(Field::Zeros(count))
    }

    fn starts_field(&self) -> bool
        ensures { result ≡ starts index reading.field_firsts (seen self.now.rest.now) }
    {
        matches!(
            self.next(),
            Terminal::B | Terminal::H | Terminal::W | Terminal::L | Terminal::Z
        )
    }

    #[tactic(auto, unfolding(crate::specs::DataParsing::field))]
    fn field<A: Allocator + Copy>(&mut self, alloc: A) -> Result<Field<'a, A>, CursorError>
        ensures { Gives (λ x. x) (seen self.new.rest.now) result (reading.field (seen self.old.rest.now)) }
    {
        match self.next() {
            Terminal::B => self.values(alloc, Width::B, Terminal::B),
            Terminal::H => self.values(alloc, Width::H, Terminal::H),
            Terminal::W => self.values(alloc, Width::W, Terminal::W),
            Terminal::L => self.values(alloc, Width::L, Terminal::L),
            _ => self.zeros(),
        }
    }

    /// Fields with commas between them, and perhaps one at the end.
    fn fields<A: Allocator + Copy>(
        &mut self,
        alloc: A,
    ) -> Result<Items<Field<'a, A>, A>, CursorError>
        ensures { Gives (λ x. x) (seen self.new.rest.now) result (reading.fields_of (seen self.old.rest.now)) }
    {
        let mut items = Vec::new(alloc);
        'each: while self.starts_field() {
            let item = self.field(alloc)?;
            items.push(item)?;
            if !self.starts_with(Terminal::Comma) {
                return Ok(Items::new(items));
            }
            self.separator();
            self.newlines();
        }
        Ok(Items::new(items))
    }

    #[tactic(auto, unfolding(crate::specs::DataParsing::alignment))]
    fn alignment(&mut self) -> Result<Option<u64>, CursorError>
        ensures { Gives (λ x. x) (seen self.new.rest.now) result (reading.alignment (seen self.old.rest.now)) }
    {
        if !self.starts_with(Terminal::Align) {
            return Ok(None);
        }
        self.skip();
        self.newlines();
        let align = self.loose_count()?;
        Ok(Some(align))
    }

    #[tactic(auto, unfolding(crate::specs::DataParsing::inside_data))]
    fn inside_data<A: Allocator + Copy>(
        &mut self,
        alloc: A,
    ) -> Result<(Option<u64>, Items<Field<'a, A>, A>), CursorError>
        ensures { Gives (λ x. (x.0, x.1)) (seen self.new.rest.now) result (reading.inside_data (seen self.old.rest.now)) }
    {
        let align = self.alignment()?;
        self.loose_word(Terminal::OpenBrace)?;
        let fields = self.fields(alloc)?;
        self.word(Terminal::CloseBrace)?;
        Ok((align, fields))
    }

    #[tactic(auto, unfolding(crate::specs::DataParsing::data_definition))]
    pub fn data_definition<A: Allocator + Copy>(
        &mut self,
        alloc: A,
    ) -> Result<Data<'a, A>, CursorError>
        ensures { Gives (λ x. x) (seen self.new.rest.now) result (reading.data_definition (seen self.old.rest.now)) }
    {
        self.loose_word(Terminal::Data)?;
        let (line, name) = self.loose_name()?;
        self.loose_word(Terminal::Equals)?;
        let (align, fields) = self.inside_data(alloc)?;
        Ok(Data {
            name,
            line,
            align,
            fields,
        })
    }
}
