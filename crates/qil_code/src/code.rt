//! The code of a program, and what it says of functions, blocks, slots and instructions by their numbers.

ghost use Rattle.std.specs.Prelude.{◌≡◌, ◌<◌, ◌≤◌, ℕ, List, Some, IfSome, IsSome, map, option_map, slice_get, length};
ghost use Rattle.std.specs.Option.{option_copied};
ghost use Rattle.std.specs.List.{flat_map};
ghost use Rattle.qil_tree.specs.declared.tree.Inst.{Inst};
ghost use Rattle.qil_tree.specs.declared.tree.Block.{Block};
ghost use Rattle.qil_symbols.specs.Numbers.{place_of};
ghost use Rattle.qil_rules.specs.Text.{IsAmong};
ghost use Rattle.qil_semantics.specs.Poke.{temp_class};
ghost use Rattle.qil_semantics.specs.Step.{phi_moves};
ghost use Rattle.qil_code.specs.Facts.{Finds, KnowsLabels, NumbersBlocks, jump_labels};
ghost use Rattle.qil_code.specs.Ranges.{BlockInRange, FuncInRange};
ghost use Rattle.qil_code.specs.Numbered.{func_at, block_at, inst_at, names_of};
ghost use Rattle.qil_code.specs.Named.{named_inst, named_move, named_jump, resolved_inst, resolved_move, resolved_jump};
ghost use Rattle.qil_code.specs.Reading.{IsCodeOf, func_names, func_code_at, params_at, returns_at, class_at, labels_at, block_code_at, inst_code_at, jump_code_at, insts_at, phis_at};

use crate::numbered::{
    BlockId, FuncCode, NumberedBlock, NumberedInst, NumberedJump, PhiMove, Slot,
};
use qil_semantics::{FuncId, Image};
use qil_symbols::Numbers;
use qil_tree::{AbiType, Block, Class, Name, Program};
use std::alloc::Allocator;
use std::marker::Model;

/// The item at a place, if there is one.
fn item_at<T>(items: &[T], index: u16) -> Option<&T>
    ensures { option_copied result ≡ slice_get items.now index }
{
    items.get(usize::from(index))
}

/// A checked program, numbered. Specifications see the program: what its code is follows from that.
#[derive(Drop)]
pub struct Code<'c, A: Allocator> {
    program: &'c Program<'c, A>,
    image: &'c Image<'c, A>,
    names: Numbers<'c, A>,
    funcs: Vec<FuncCode<'c, A>, A>,
}

impl<'c, A: Allocator> Model for Code<'c, A> {
    ghost use Rattle.qil_tree.specs.declared.tree.Program.{Program};
    ghost use Rattle.qil_code.specs.Reading.{IsCodeOf};

    ghost Value = { Program A };

    ghost view = { λ code. code.program.now };

    ghost invariant = { λ code. IsCodeOf code.program.now code.image.now code.names code.funcs.items };
}

impl<'c, A: Allocator + Copy> Code<'c, A> {
    /// The code of a program, from what was numbered of it. Only a caller that has proved that it is the program's can make one.
    pub fn new(
        program: &'c Program<'c, A>,
        image: &'c Image<'c, A>,
        names: Numbers<'c, A>,
        funcs: Vec<FuncCode<'c, A>, A>,
    ) -> Self
        requires { IsCodeOf program.now image.now names funcs.items }
        ensures { result ≡ program.now }
    {
        Code {
            program,
            image,
            names,
            funcs,
        }
    }

    /// The same code at the lifetime that it is lent for.
    // What such a change of a large type costs a check is paid for here, once, with nothing else alive.
    pub fn shortened<'s>(&'s self) -> &'s Code<'s, A>
        ensures { result.now ≡ self.now }
    {
        self
    }

    /// The tree that the code was numbered from.
    pub fn program(&self) -> &'c Program<'c, A>
        ensures { result.now ≡ self.now }
    {
        self.program
    }

    /// Where the program lies.
    pub fn image(&self) -> &'c Image<'c, A>
        ensures { result.now ≡ self.now }
    {
        self.image
    }

    /// The code of a function, if there is one of that number.
    pub fn func(&self, func: FuncId) -> Option<&FuncCode<'c, A>>
        ensures code { option_copied result ≡ func_code_at self.now func.index }
        ensures few { IfSome result (λ k. (length k.now.temps ≤ 65535) × (length k.now.labels ≤ 65535)) }
        ensures range { IfSome result (λ k. FuncInRange k.now) }
        ensures finds { Finds self.now }
        ensures knows { KnowsLabels self.now }
    {
        item_at(self.funcs.as_slice(), func.index)
    }

    /// The function of a name, without its sigil.
    pub fn func_named(&self, name: &[u8]) -> Option<FuncId>
        ensures { option_map (λ f. f.index) result ≡ place_of (func_names self.now) name.now }
    {
        match self.names.number(name) {
            Some(number) => Some(FuncId {
                index: number as u16,
            }),
            None => None,
        }
    }

    /// The parameters of a function: slot and type.
    pub fn params(&self, func: FuncId) -> &[(Slot, AbiType)]
        ensures { result.now ≡ params_at self.now func.index }
    {
        match self.func(func) {
            Some(found) => found.code.params.as_slice(),
            None => &[],
        }
    }

    /// The type of what a function returns, if it returns a value.
    pub fn returns(&self, func: FuncId) -> Option<AbiType>
        ensures { result ≡ returns_at self.now func.index }
    {
        match self.func(func) {
            Some(found) => found.code.returns,
            None => None,
        }
    }

    /// The slot of a temporary, whose name is without its sigil.
    pub fn slot_of(&self, func: FuncId, name: &[u8]) -> Option<Slot>
        ensures place { option_map (λ s. s.index) result ≡ place_of (names_of self.now func.index) name.now }
        ensures finds { Finds self.now }
    {
        match self.func(func) {
            Some(found) => match found.temps.number(name) {
                Some(number) => Some(Slot {
                    index: number as u16,
                }),
                None => None,
            },
            None => None,
        }
    }

    /// The name of the temporary of a slot.
    pub fn name_of(&self, func: FuncId, slot: Slot) -> Option<Name<'c>>
        ensures { result ≡ slice_get (names_of self.now func.index) slot.index }
    {
        match self.func(func) {
            Some(found) => match item_at(found.temps.names(), slot.index) {
                Some(name) => Some(Name::new(name)),
                None => None,
            },
            None => None,
        }
    }

    /// The class of the temporary of a slot.
    pub fn class_of(&self, func: FuncId, slot: Slot) -> Option<Class>
        ensures code { result ≡ class_at self.now func.index slot.index }
        ensures defined { (name : List ℕ) → slice_get (names_of self.now func.index) slot.index ≡ Some name → result ≡ temp_class (func_at self.now func.index) name }
        ensures finds { Finds self.now }
    {
        let _ = &self.program;
        match self.func(func) {
            Some(found) => item_at(found.code.classes.as_slice(), slot.index).copied(),
            None => None,
        }
    }

    /// The block of a label, which is without its sigil.
    pub fn block_of(&self, func: FuncId, label: &[u8]) -> Option<BlockId>
        ensures { option_map (λ b. b.index) result ≡ place_of (labels_at self.now func.index) label.now }
    {
        match self.func(func) {
            Some(found) => match found.labels.number(label) {
                Some(number) => Some(BlockId {
                    index: number as u16,
                }),
                None => None,
            },
            None => None,
        }
    }

    /// The code of a block, if there is one of those numbers.
    pub fn block(&self, func: FuncId, block: BlockId) -> Option<&NumberedBlock<A>>
        ensures code { option_copied result ≡ block_code_at self.now func.index block.index }
        ensures range { IfSome result (λ k. BlockInRange (length (names_of self.now func.index)) (length (labels_at self.now func.index)) k.now) }
        ensures finds { Finds self.now }
        ensures knows { KnowsLabels self.now }
    {
        match self.func(func) {
            Some(found) => item_at(found.code.blocks.as_slice(), block.index),
            None => None,
        }
    }

    /// An instruction of a block, counted from 0.
    pub fn inst(&self, func: FuncId, block: BlockId, index: usize) -> Option<&NumberedInst<A>>
        ensures code { option_copied result ≡ inst_code_at self.now func.index block.index index }
        ensures named { (inst : Inst A) → inst_at self.now func.index block.index index ≡ Some inst
            → option_map (named_inst (names_of self.now func.index)) (option_copied result) ≡ Some (resolved_inst self.now inst.kind) }
    {
        match self.block(func, block) {
            Some(found) => found.insts.as_slice().get(index),
            None => None,
        }
    }

    /// The jump of a block.
    pub fn jump(&self, func: FuncId, block: BlockId) -> Option<&NumberedJump<A>>
        ensures code { option_copied result ≡ jump_code_at self.now func.index block.index }
        ensures named { (source : Block A) → block_at self.now func.index block.index ≡ Some source
            → option_map (named_jump (names_of self.now func.index) (labels_at self.now func.index)) (option_copied result) ≡ Some (resolved_jump self.now source.jump.kind) }
    {
        let _ = &self.program;
        match self.block(func, block) {
            Some(found) => Some(&found.jump),
            None => None,
        }
    }

    /// A block of the tree, if there is one of those numbers.
    pub fn source(&self, func: FuncId, block: BlockId) -> Option<&'c Block<'c, A>>
        ensures { option_copied result ≡ block_at self.now func.index block.index }
    {
        match item_at(self.program.funcs.as_slice(), func.index) {
            Some(found) => item_at(found.blocks.as_slice(), block.index),
            None => None,
        }
    }
}

impl<'c, A: Allocator + Copy> Code<'c, A> {
    /// What is so of the names in every code, with nothing to run: each function and each block is found by its name, and no
    /// two have one name.
    #[inline(always)]
    pub fn names_are_distinct(&self)
        ensures finds { Finds self.now }
        ensures numbers { NumbersBlocks self.now }
    {
        let _ = &self.program;
    }

    /// How many temporaries a function has.
    pub fn slot_count(&self, func: FuncId) -> usize
        ensures { result ≡ length (names_of self.now func.index) }
    {
        match self.func(func) {
            Some(found) => found.temps.names().len(),
            None => 0,
        }
    }

    /// The label of a block, without its sigil.
    pub fn label_of(&self, func: FuncId, block: BlockId) -> Option<Name<'c>>
        ensures { result ≡ option_map (λ b. b.label) (block_at self.now func.index block.index) }
    {
        match self.source(func, block) {
            Some(found) => Some(Name::new(found.label.bytes())),
            None => None,
        }
    }

    /// How many instructions a block has.
    pub fn inst_count(&self, func: FuncId, block: BlockId) -> usize
        ensures { result ≡ length (insts_at self.now func.index block.index) }
    {
        match self.block(func, block) {
            Some(found) => found.insts.as_slice().len(),
            None => 0,
        }
    }

    fn moves_between(&self, func: FuncId, from: BlockId, to: BlockId) -> &[PhiMove]
        ensures { result.now ≡ phis_at self.now func.index from.index to.index }
    {
        match self.jump(func, from) {
            Some(NumberedJump::Jmp(edge)) => {
                if edge.to.index == to.index {
                    return edge.moves.as_slice();
                }
                &[]
            }
            Some(NumberedJump::Jnz(_, set, zero)) => {
                if set.to.index == to.index {
                    return set.moves.as_slice();
                }
                if zero.to.index == to.index {
                    return zero.moves.as_slice();
                }
                &[]
            }
            _ => &[],
        }
    }

    /// What the phis of a block do where another block is left for it; nothing where no jump leads there.
    pub fn phis(&self, func: FuncId, from: BlockId, to: BlockId) -> &[PhiMove]
        ensures code { result.now ≡ phis_at self.now func.index from.index to.index }
        ensures named { (left target : Block A) → block_at self.now func.index from.index ≡ Some left → block_at self.now func.index to.index ≡ Some target
            → IsAmong target.label (jump_labels left.jump.kind)
            → map (named_move (names_of self.now func.index)) result.now ≡ map (resolved_move self.now) (flat_map (phi_moves left.label) target.phis) }
    {
        let _ = &self.program;
        self.moves_between(func, from, to)
    }
}
