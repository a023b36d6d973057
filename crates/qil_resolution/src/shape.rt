//! From a checked program to its code.

ghost use Rattle.std.specs.Prelude.{◌≡◌, ◌<◌, ◌≤◌, All, List, ℕ, IfOk, Some, map, slice_get, length};
ghost use Rattle.std.specs.Option.{ForSome};
ghost use Rattle.qil_tree.specs.declared.tree.Block.{Block};
ghost use Rattle.qil_symbols.specs.Tables.{values_at};
ghost use Rattle.qil_code.specs.Gather.{labels_in};
ghost use Rattle.qil_code.specs.Numbered.{inst_of, block_moves, edge_of, jump_of, block_of, func_with, func_code};
ghost use Rattle.qil_code.specs.Facts.{IsNumerable};
ghost use Rattle.qil_code.specs.Ranges.{IsShort, JumpIsShort, BlockIsShort, FuncIsShort};

use crate::classes::classes_of;
use crate::gather::{labels_of, temps_of};
use crate::moves::moves_of;
use crate::ordered_names::OrderedNames;
use crate::resolve::Resolver;
use qil_code::{
    BlockId, Edge, FuncCode, NumberedBlock, NumberedFunc, NumberedInst, NumberedJump, PhiMove,
};
use qil_layout::Image;
use qil_symbols::Groups;
use qil_tree::{Block, Func, Inst, Items, Jump, JumpKind, Name};
use std::alloc::{AllocError, Allocator};
use std::hash::RandomState;

/// An index of 32 bits goes through fewer items than these. A list of so many would itself take more than 100 GB, so that
/// it counts as out of memory.
const INDEX_LIMIT: usize = 1 << 32;

/// The blocks of a function, with what the phis of each do for each block that may be left.
#[derive(Drop)]
pub struct Shape<'s, 'r, 'c, A: Allocator> {
    resolver: &'s Resolver<'r, 'c, A>,
    blocks: &'s [Block<'c, A>],
    moves: Vec<Groups<'c, PhiMove, A>, A>,
    ghost labels_are: { resolver.now.labels.now ≡ labels_in blocks.now },
    ghost each_block: { length moves.items ≡ length blocks.now },
    ghost moves_are: { (i : ℕ) (b : Block A) → slice_get blocks.now i ≡ Some b → ForSome (slice_get moves.items i) (λ t. (x : List ℕ) → values_at t.lists x ≡ block_moves resolver.now.image.now resolver.now.temps.now x b) },
}

/// What the phis of each block do, for each block that may be left.
fn moves_of_all<'a, A: Allocator + Copy>(
    alloc: A,
    keys: RandomState,
    resolver: &Resolver<'_, 'a, A>,
    blocks: &[Block<'a, A>],
) -> Result<Vec<Groups<'a, PhiMove, A>, A>, AllocError>
    ensures len { IfOk result (λ v. length v.items ≡ length blocks.now) }
    ensures moves { IfOk result (λ v. (i : ℕ) (b : Block A) → slice_get blocks.now i ≡ Some b → ForSome (slice_get v.items i) (λ t. (x : List ℕ) → values_at t.lists x ≡ block_moves resolver.now.image.now resolver.now.temps.now x b)) }
{
    let mut out = Vec::with_capacity(alloc, blocks.len())?;
    for block in blocks {
        out.push(moves_of(alloc, keys, resolver, block)?)?;
    }
    Ok(out)
}

/// The moves of a list, in one of its own.
fn copied<A: Allocator + Copy>(alloc: A, moves: &[PhiMove]) -> Result<Vec<PhiMove, A>, AllocError>
    ensures moves { IfOk result (λ v. v.items ≡ moves.now) }
    ensures short { IfOk result (λ v. IsShort v.items) }
{
    if moves.len() >= INDEX_LIMIT {
        return Err(AllocError);
    }
    let mut out = Vec::with_capacity(alloc, moves.len())?;
    for one in moves {
        out.push(*one)?;
    }
    Ok(out)
}

impl<'s, 'r, 'c, A: Allocator + Copy> Shape<'s, 'r, 'c, A> {
    fn moves(&self, alloc: A, left: &Name<'c>, number: usize) -> Result<Vec<PhiMove, A>, AllocError>
        requires { number < length self.now.blocks.now }
        ensures moves { (b : Block A) → slice_get self.now.blocks.now number ≡ Some b → IfOk result (λ v. v.items ≡ block_moves self.now.resolver.now.image.now self.now.resolver.now.temps.now left.now b) }
        ensures short { IfOk result (λ v. IsShort v.items) }
    {
        let table = &self.moves[number];
        match table.get(left.bytes()) {
            Some(list) => copied(alloc, list.as_slice()),
            None => Ok(Vec::new(alloc)),
        }
    }

    /// The way from a block to the block of a label.
    fn edge(&self, alloc: A, left: &Name<'c>, label: &Name<'c>) -> Result<Edge<A>, AllocError>
        ensures edge { IfOk result (λ e. e ≡ edge_of self.now.resolver.now.image.now self.now.blocks.now self.now.resolver.now.temps.now left.now label.now) }
        ensures short { IfOk result (λ e. IsShort e.moves) }
    {
        match self.resolver.labels.number(label.bytes()) {
            Some(number) => Ok(Edge {
                to: BlockId {
                    index: number as u16,
                },
                moves: Items::new(self.moves(alloc, left, number)?),
            }),
            None => Ok(Edge {
                to: BlockId { index: 0 },
                moves: Items::new(Vec::new(alloc)),
            }),
        }
    }

    fn jump(
        &self,
        alloc: A,
        left: &Name<'c>,
        jump: &Jump<'c>,
    ) -> Result<NumberedJump<A>, AllocError>
        ensures jump { IfOk result (λ j. j ≡ jump_of self.now.resolver.now.image.now self.now.blocks.now self.now.resolver.now.temps.now left.now jump.now.kind) }
        ensures short { IfOk result (λ j. JumpIsShort j) }
    {
        match &jump.kind {
            JumpKind::Jmp(to) => Ok(NumberedJump::Jmp(self.edge(alloc, left, to)?)),
            JumpKind::Jnz(value, if_set, if_zero) => {
                let set = self.edge(alloc, left, if_set)?;
                let zero = self.edge(alloc, left, if_zero)?;
                Ok(NumberedJump::Jnz(self.resolver.operand(value), set, zero))
            }
            JumpKind::Ret(None) => Ok(NumberedJump::Ret(None)),
            JumpKind::Ret(Some(value)) => Ok(NumberedJump::Ret(Some(self.resolver.operand(value)))),
            JumpKind::Hlt => Ok(NumberedJump::Hlt),
        }
    }

    fn insts(&self, alloc: A, insts: &[Inst<'c, A>]) -> Result<Vec<NumberedInst<A>, A>, AllocError>
        ensures insts { IfOk result (λ v. v.items ≡ map (inst_of self.now.resolver.now.image.now self.now.resolver.now.temps.now) insts.now) }
        ensures short { IfOk result (λ v. IsShort v.items) }
    {
        if insts.len() >= INDEX_LIMIT {
            return Err(AllocError);
        }
        let mut out = Vec::with_capacity(alloc, insts.len())?;
        for inst in insts {
            out.push(self.resolver.inst(alloc, inst)?)?;
        }
        Ok(out)
    }

    fn block(&self, alloc: A, block: &Block<'c, A>) -> Result<NumberedBlock<A>, AllocError>
        ensures block { IfOk result (λ b. b ≡ block_of self.now.resolver.now.image.now self.now.blocks.now self.now.resolver.now.temps.now block.now) }
        ensures short { IfOk result (λ b. BlockIsShort b) }
    {
        let insts = self.insts(alloc, block.insts.as_slice())?;
        let jump = self.jump(alloc, &block.label, &block.jump)?;
        Ok(NumberedBlock {
            insts: Items::new(insts),
            jump,
        })
    }

    /// All blocks, numbered.
    pub fn numbered(&self, alloc: A) -> Result<Vec<NumberedBlock<A>, A>, AllocError>
        ensures blocks { IfOk result (λ v. v.items ≡ map (block_of self.now.resolver.now.image.now self.now.blocks.now self.now.resolver.now.temps.now) self.now.blocks.now) }
        ensures short { IfOk result (λ v. All BlockIsShort v.items) }
    {
        let mut out = Vec::with_capacity(alloc, self.blocks.len())?;
        for block in self.blocks {
            out.push(self.block(alloc, block)?)?;
        }
        Ok(out)
    }
}

/// The blocks of a function, numbered.
fn blocks_of<'a, A: Allocator + Copy>(
    alloc: A,
    keys: RandomState,
    resolver: &Resolver<'_, 'a, A>,
    blocks: &[Block<'a, A>],
) -> Result<Vec<NumberedBlock<A>, A>, AllocError>
    requires { resolver.now.labels.now ≡ labels_in blocks.now }
    ensures blocks { IfOk result (λ v. v.items ≡ map (block_of resolver.now.image.now blocks.now resolver.now.temps.now) blocks.now) }
    ensures short { IfOk result (λ v. All BlockIsShort v.items) }
{
    let moves = moves_of_all(alloc, keys, resolver, blocks)?;
    let shape = Shape {
        resolver,
        blocks,
        moves,
    };
    shape.numbered(alloc)
}

/// What a function does, numbered among its temporaries and labels.
fn numbered_func<'a, A: Allocator + Copy>(
    alloc: A,
    keys: RandomState,
    image: &Image<'a, A>,
    temps: &OrderedNames<'a, A>,
    labels: &OrderedNames<'a, A>,
    func: &Func<'a, A>,
) -> Result<NumberedFunc<A>, AllocError>
    requires few_temps { length temps.now ≤ 65535 }
    requires few_labels { length labels.now ≤ 65535 }
    requires labels { labels.now ≡ labels_in func.now.blocks }
    ensures code { IfOk result (λ k. k ≡ func_with image.now func.now temps.now) }
    ensures short { IfOk result (λ k. All BlockIsShort k.blocks) }
{
    let resolver = Resolver {
        image,
        temps,
        labels,
    };
    let classes = classes_of(alloc, keys, func, temps)?;
    let params = resolver.params(alloc, func.params.as_slice())?;
    let blocks = blocks_of(alloc, keys, &resolver, func.blocks.as_slice())?;
    Ok(NumberedFunc {
        classes: Items::new(classes),
        params: Items::new(params),
        returns: func.returns,
        blocks: Items::new(blocks),
    })
}

/// A function, numbered.
fn func_code<'a, A: Allocator + Copy>(
    alloc: A,
    keys: RandomState,
    image: &Image<'a, A>,
    func: &Func<'a, A>,
) -> Result<FuncCode<'a, A>, AllocError>
    requires { IsNumerable func.now }
    ensures code { IfOk result (λ k. k ≡ func_code image.now func.now) }
    ensures short { IfOk result (λ k. FuncIsShort k) }
{
    let temps = temps_of(alloc, keys, func)?;
    let labels = labels_of(alloc, keys, func.blocks.as_slice())?;
    let code = numbered_func(alloc, keys, image, &temps, &labels, func)?;
    let kept_temps = temps.kept(alloc, keys)?;
    let kept_labels = labels.kept(alloc, keys)?;
    Ok(FuncCode {
        code,
        temps: kept_temps,
        labels: kept_labels,
    })
}

/// All functions of a program, numbered.
pub fn funcs_code<'a, A: Allocator + Copy>(
    alloc: A,
    keys: RandomState,
    image: &Image<'a, A>,
    funcs: &[Func<'a, A>],
) -> Result<Vec<FuncCode<'a, A>, A>, AllocError>
    requires { All IsNumerable funcs.now }
    ensures codes { IfOk result (λ v. v.items ≡ map (func_code image.now) funcs.now) }
    ensures short { IfOk result (λ v. All FuncIsShort v.items) }
{
    let mut out = Vec::with_capacity(alloc, funcs.len())?;
    for func in funcs {
        out.push(func_code(alloc, keys, image, func)?)?;
    }
    Ok(out)
}
