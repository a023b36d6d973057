//! Numbered code: temporaries and blocks are numbers, and globals are the addresses where they lie.
//!
//! An instruction has at most 48 bytes over the global allocator, and an operand 16.

use qil_symbols::Numbers;
use qil_tree::{
    AbiType, AllocOp, BinaryOp, Class, CompareOp, Extension, Items, LoadOp, UnaryOp, Width,
};
use std::alloc::Allocator;

/// A block of a function: its number in the text, from 0.
#[derive(Clone, Copy, PartialEq, Eq)]
pub struct BlockId {
    pub index: u16,
}

/// A temporary of a function: its number in the order in which the function's text first names them, from 0.
#[derive(Clone, Copy, PartialEq, Eq)]
pub struct Slot {
    pub index: u16,
}

/// What an instruction, a phi or a jump reads.
#[derive(Clone, Copy)]
pub enum NumberedOperand {
    /// A constant, or the address of a global, as 64 bits.
    Constant(u64),
    Slot(Slot),
}

/// What a slot is set to.
#[derive(Clone, Copy)]
pub enum NumberedExpr {
    Unary(UnaryOp, NumberedOperand),
    Binary(BinaryOp, NumberedOperand, NumberedOperand),
    /// Two operands of the class that the operation's name ends with.
    Compare(CompareOp, Class, NumberedOperand, NumberedOperand),
    Extend(Extension, NumberedOperand),
    Load(LoadOp, NumberedOperand),
}

/// The slot that takes what a call gives, with the type that is written at the call.
#[derive(Clone, Copy, PartialEq, Eq)]
pub struct Receiver {
    pub slot: Slot,
    pub abi_type: AbiType,
}

/// An argument of a call, with the type that is written there.
#[derive(Clone, Copy)]
pub struct NumberedArgument {
    pub abi_type: AbiType,
    pub source: NumberedOperand,
}

/// An instruction.
#[derive(Drop)]
pub enum NumberedInst<A: Allocator> {
    Assign(Class, Slot, NumberedExpr),
    /// The slot is set to the address of that many new bytes of the stack.
    Alloc(Class, Slot, AllocOp, NumberedOperand),
    /// The low bytes of the first operand go to the address that is the second.
    Store(Width, NumberedOperand, NumberedOperand),
    /// That many bytes from the first address to the second.
    Blit(NumberedOperand, NumberedOperand, u64),
    Call(Option<Receiver>, NumberedOperand, Items<NumberedArgument, A>),
}

/// What a phi gives its target where one certain block is left.
#[derive(Clone, Copy)]
pub struct PhiMove {
    pub class: Class,
    pub target: Slot,
    pub source: NumberedOperand,
}

/// Where a jump goes, and what the phis of that block do for the block that is left, in the order of the text.
#[derive(Drop)]
pub struct Edge<A: Allocator> {
    pub to: BlockId,
    pub moves: Items<PhiMove, A>,
}

/// A jump.
#[derive(Drop)]
pub enum NumberedJump<A: Allocator> {
    Jmp(Edge<A>),
    /// Along the first edge unless the low 32 bits of the operand are zero, else along the second.
    Jnz(NumberedOperand, Edge<A>, Edge<A>),
    Ret(Option<NumberedOperand>),
    Hlt,
}

/// A block.
#[derive(Drop)]
pub struct NumberedBlock<A: Allocator> {
    pub insts: Items<NumberedInst<A>, A>,
    pub jump: NumberedJump<A>,
}

/// A function.
#[derive(Drop)]
pub struct NumberedFunc<A: Allocator> {
    /// The class of each slot.
    pub classes: Items<Class, A>,
    /// The slot and the type of each parameter.
    pub params: Items<(Slot, AbiType), A>,
    /// The type of what it returns, if it returns a value.
    pub returns: Option<AbiType>,
    /// One or more.
    pub blocks: Items<NumberedBlock<A>, A>,
}

/// A function, and the names of its temporaries and blocks by number.
#[derive(Drop)]
pub struct FuncCode<'a, A: Allocator> {
    pub code: NumberedFunc<A>,
    pub temps: Numbers<'a, A>,
    pub labels: Numbers<'a, A>,
}
