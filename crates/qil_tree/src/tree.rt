//! The tree of a program.

ghost use Rattle.std.specs.Prelude.{◌≡◌};

use crate::ops::{AbiType, AllocOp, BinaryOp, Class, CompareOp, Extension, LoadOp, UnaryOp, Width};
use std::alloc::Allocator;
use std::marker::Model;

/// A name without its sigil: a slice of the text. Specifications see its bytes.
#[derive(Drop)]
pub struct Name<'a> {
    bytes: &'a [u8],
}

impl<'a> Model for Name<'a> {
    ghost use Rattle.std.specs.Prelude.{List, ℕ};

    ghost Value = { List ℕ };

    ghost view = { λ n. n.bytes.now };
}

impl<'a> Name<'a> {
    pub fn new(bytes: &'a [u8]) -> Name<'a>
        ensures { result ≡ bytes.now }
    {
        Name { bytes }
    }

    pub fn bytes(&self) -> &'a [u8]
        ensures { result.now ≡ self.now }
    {
        self.bytes
    }
}

/// Items in the order of the text. Specifications see the list of them.
#[derive(Drop)]
pub struct Items<T, A: Allocator> {
    items: Vec<T, A>,
}

impl<T, A: Allocator> Model for Items<T, A> {
    ghost use Rattle.std.specs.Prelude.{List};

    ghost Value = { List T };

    ghost view = { λ a. a.items.items };
}

impl<T, A: Allocator> Items<T, A> {
    pub fn new(items: Vec<T, A>) -> Items<T, A>
        ensures { result ≡ items.items }
    {
        Items { items }
    }

    pub fn as_slice(&self) -> &[T]
        ensures { result.now ≡ self.now }
    {
        self.items.as_slice()
    }
}

/// What an instruction or a jump reads (QBE IL, Constants and Vals).
#[derive(Drop)]
pub enum Operand<'a> {
    /// A constant, as its 64 bits in two's complement.
    Number(u64),
    Global(Name<'a>),
    Temp(Name<'a>),
}

/// The temporary that an instruction or a phi sets, with the class that is written there.
#[derive(Drop)]
pub struct Target<'a> {
    pub name: Name<'a>,
    pub class: Class,
}

/// What a target is set to.
#[derive(Drop)]
pub enum Expr<'a> {
    Unary(UnaryOp, Operand<'a>),
    Binary(BinaryOp, Operand<'a>, Operand<'a>),
    /// Two operands of the class that the operation's name ends with.
    Compare(CompareOp, Class, Operand<'a>, Operand<'a>),
    Extend(Extension, Operand<'a>),
    /// What lies at an address.
    Load(LoadOp, Operand<'a>),
}

/// The temporary that takes what a call gives, with the type that is written there.
#[derive(Drop)]
pub struct CallResult<'a> {
    pub name: Name<'a>,
    pub abi_type: AbiType,
}

/// An argument of a call, with the type that is written there.
#[derive(Drop)]
pub struct Argument<'a> {
    pub abi_type: AbiType,
    pub value: Operand<'a>,
}

/// An instruction, on the line of its first token.
#[derive(Drop)]
pub struct Inst<'a, A: Allocator> {
    pub line: u32,
    pub kind: InstKind<'a, A>,
}

/// What an instruction does.
#[derive(Drop)]
pub enum InstKind<'a, A: Allocator> {
    Assign(Target<'a>, Expr<'a>),
    /// The target is set to the address of that many new bytes of the stack.
    Alloc(Target<'a>, AllocOp, Operand<'a>),
    /// The low bytes of the first operand go to the address that is the second.
    Store(Width, Operand<'a>, Operand<'a>),
    /// That many bytes from the first address to the second.
    Blit(Operand<'a>, Operand<'a>, u64),
    Call(Option<CallResult<'a>>, Operand<'a>, Items<Argument<'a>, A>),
}

/// The value that a phi takes where control comes from the block of that label.
#[derive(Drop)]
pub struct PhiSource<'a> {
    pub label: Name<'a>,
    pub value: Operand<'a>,
}

/// A phi, on the line of its first token (QBE IL, Phi).
#[derive(Drop)]
pub struct Phi<'a, A: Allocator> {
    pub line: u32,
    pub target: Target<'a>,
    /// One or more.
    pub sources: Items<PhiSource<'a>, A>,
}

/// A jump, on the line of its first token; one that the text leaves out, on the line of the next block's label.
#[derive(Drop)]
pub struct Jump<'a> {
    pub line: u32,
    pub kind: JumpKind<'a>,
}

/// Where control goes (QBE IL, Jumps).
#[derive(Drop)]
pub enum JumpKind<'a> {
    Jmp(Name<'a>),
    /// To the first label unless the low 32 bits of the operand are zero, else to the second.
    Jnz(Operand<'a>, Name<'a>, Name<'a>),
    Ret(Option<Operand<'a>>),
    Hlt,
}

/// A block, on the line of its label.
#[derive(Drop)]
pub struct Block<'a, A: Allocator> {
    pub label: Name<'a>,
    pub line: u32,
    pub phis: Items<Phi<'a, A>, A>,
    pub insts: Items<Inst<'a, A>, A>,
    pub jump: Jump<'a>,
}

/// A parameter of a function.
#[derive(Drop)]
pub struct Param<'a> {
    pub abi_type: AbiType,
    pub name: Name<'a>,
}

/// A function, on the line of its name, where its parameters stand too.
#[derive(Drop)]
pub struct Func<'a, A: Allocator> {
    /// The type of what it returns, if it returns a value.
    pub returns: Option<AbiType>,
    pub name: Name<'a>,
    pub line: u32,
    pub params: Items<Param<'a>, A>,
    /// One or more.
    pub blocks: Items<Block<'a, A>, A>,
}

/// An item of a field of data.
#[derive(Drop)]
pub enum Item<'a, A: Allocator> {
    /// A constant, as its 64 bits in two's complement.
    Number(u64),
    /// The bytes that a string represents.
    Text(Items<u8, A>),
    /// The address of a name, and what is added to it.
    Address(Name<'a>, u64),
}

/// A field of data.
#[derive(Drop)]
pub enum Field<'a, A: Allocator> {
    /// One or more items; a number or an address has that width.
    Values(Width, Items<Item<'a, A>, A>),
    /// That many zero bytes.
    Zeros(u64),
}

/// A data object, on the line of its name (QBE IL, Data).
#[derive(Drop)]
pub struct Data<'a, A: Allocator> {
    pub name: Name<'a>,
    pub line: u32,
    /// The alignment that is written there.
    pub align: Option<u64>,
    pub fields: Items<Field<'a, A>, A>,
}

/// What a definition defines.
#[derive(Clone, Copy)]
pub enum Definition {
    Data,
    Func,
}

/// A program.
#[derive(Drop)]
pub struct Program<'a, A: Allocator> {
    /// In the order of the text.
    pub datas: Items<Data<'a, A>, A>,
    /// In the order of the text.
    pub funcs: Items<Func<'a, A>, A>,
    /// The definitions of both kinds in the order of the text: the n-th `Data` here is the n-th of `datas`, and so
    /// with `Func`.
    pub order: Items<Definition, A>,
}
