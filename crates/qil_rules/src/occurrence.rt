//! What stands in the text of a definition, one thing after the other.

ghost use Rattle.std.specs.Prelude.{◌≡◌};

use qil_tree::{AbiType, Class, Name, PhiSource};
use std::marker::Model;

/// The labels and values of a phi, in its order. Specifications see the list of them.
#[derive(Drop)]
pub struct PhiSources<'p, 'a> {
    items: &'p [PhiSource<'a>],
}

impl<'p, 'a> Model for PhiSources<'p, 'a> {
    ghost use Rattle.std.specs.Prelude.{List};
    ghost use Rattle.qil_tree.specs.declared.tree.PhiSource.{PhiSource};

    ghost Value = { List PhiSource };

    ghost view = { λ s. s.items.now };
}

impl<'p, 'a> PhiSources<'p, 'a> {
    pub fn new(items: &'p [PhiSource<'a>]) -> PhiSources<'p, 'a>
        ensures { result ≡ items.now }
    {
        PhiSources { items }
    }

    pub fn as_slice(&self) -> &'p [PhiSource<'a>]
        ensures { result.now ≡ self.now }
    {
        self.items
    }
}

/// What an occurrence says.
#[derive(Drop)]
pub enum OccurrenceKind<'p, 'a> {
    /// A data object of that name begins.
    DataName(Name<'a>),
    /// A function of that name begins.
    FunctionName(Name<'a>),
    /// A block begins.
    Label(Name<'a>),
    /// Control may go from the first block to the second.
    Edge(Name<'a>, Name<'a>),
    /// A phi names a block that control comes from.
    PhiLabel(Name<'a>),
    /// A phi of a block.
    PhiOf(Name<'a>, PhiSources<'p, 'a>),
    /// A temporary gets a value of a class.
    Defines(Name<'a>, Class),
    /// A temporary is read in a context of a class.
    Uses(Name<'a>, Class),
    /// A global is used.
    Global(Name<'a>),
    /// A value is returned by a function of this return type.
    Returns(Option<AbiType>),
    /// A result that is always long has this class in the text.
    Long(Class),
}

/// An occurrence, on the line of its definition's name, block's label, phi, instruction or jump.
#[derive(Drop)]
pub struct Occurrence<'p, 'a> {
    pub what: OccurrenceKind<'p, 'a>,
    pub line: u32,
}
