//! The class of each temporary of a function: that of its first definition.

ghost use Rattle.std.specs.Prelude.{◌≡◌, ◌∷◌, [], List, ℕ, IfOk, OnOk, map, unwrap_or};
ghost use Rattle.qil_tree.specs.declared.ops.Class.TheVariants as classes;
ghost use Rattle.qil_symbols.specs.Numbers.{names_of};
ghost use Rattle.std.specs.Option.{option_or};
ghost use Rattle.std.specs.List.{flat_map};
ghost use Rattle.qil_symbols.specs.Tables.{value_at};
ghost use Rattle.qil_resolution.specs.Classes.{param_target, inst_targets, block_targets, func_targets, first_class};
ghost use Rattle.qil_code.specs.Numbered.{class_of_temp};

use crate::ordered_names::OrderedNames;
use qil_symbols::Firsts;
use qil_tree::{Block, Class, Func, Inst, InstKind, Param, Phi, Target};
use std::alloc::{AllocError, Allocator};
use std::hash::RandomState;

fn note_target<'a, A: Allocator + Copy>(
    table: &mut Firsts<'a, Class, A>,
    target: &Target<'a>,
) -> Result<(), AllocError>
    ensures { OnOk result ((x : List ℕ) → value_at table.new.values x ≡ option_or (value_at table.old.values x) (first_class (target.now ∷ []) x)) }
{
    table.note(target.name.bytes(), target.class)
}

fn note_inst<'a, A: Allocator + Copy>(
    table: &mut Firsts<'a, Class, A>,
    inst: &Inst<'a, A>,
) -> Result<(), AllocError>
    ensures { OnOk result ((x : List ℕ) → value_at table.new.values x ≡ option_or (value_at table.old.values x) (first_class (inst_targets inst.now) x)) }
{
    match &inst.kind {
        InstKind::Assign(to, _) => note_target(table, to),
        InstKind::Alloc(to, _, _) => note_target(table, to),
        InstKind::Store(_, _, _) => Ok(()),
        InstKind::Blit(_, _, _) => Ok(()),
        InstKind::Call(None, _, _) => Ok(()),
        InstKind::Call(Some(to), _, _) => table.note(to.name.bytes(), to.abi_type.class()),
    }
}

fn note_phis<'a, A: Allocator + Copy>(
    table: &mut Firsts<'a, Class, A>,
    phis: &[Phi<'a, A>],
) -> Result<(), AllocError>
    ensures { OnOk result ((x : List ℕ) → value_at table.new.values x ≡ option_or (value_at table.old.values x) (first_class (map (λ phi. phi.target) phis.now) x)) }
{
    for phi in phis {
        note_target(table, &phi.target)?;
    }
    Ok(())
}

fn note_insts<'a, A: Allocator + Copy>(
    table: &mut Firsts<'a, Class, A>,
    insts: &[Inst<'a, A>],
) -> Result<(), AllocError>
    ensures { OnOk result ((x : List ℕ) → value_at table.new.values x ≡ option_or (value_at table.old.values x) (first_class (flat_map inst_targets insts.now) x)) }
{
    for inst in insts {
        note_inst(table, inst)?;
    }
    Ok(())
}

fn note_block<'a, A: Allocator + Copy>(
    table: &mut Firsts<'a, Class, A>,
    block: &Block<'a, A>,
) -> Result<(), AllocError>
    ensures { OnOk result ((x : List ℕ) → value_at table.new.values x ≡ option_or (value_at table.old.values x) (first_class (block_targets block.now) x)) }
{
    note_phis(table, block.phis.as_slice())?;
    note_insts(table, block.insts.as_slice())?;
    Ok(())
}

fn note_blocks<'a, A: Allocator + Copy>(
    table: &mut Firsts<'a, Class, A>,
    blocks: &[Block<'a, A>],
) -> Result<(), AllocError>
    ensures { OnOk result ((x : List ℕ) → value_at table.new.values x ≡ option_or (value_at table.old.values x) (first_class (flat_map block_targets blocks.now) x)) }
{
    for block in blocks {
        note_block(table, block)?;
    }
    Ok(())
}

fn note_params<'a, A: Allocator + Copy>(
    table: &mut Firsts<'a, Class, A>,
    params: &[Param<'a>],
) -> Result<(), AllocError>
    ensures { OnOk result ((x : List ℕ) → value_at table.new.values x ≡ option_or (value_at table.old.values x) (first_class (map param_target params.now) x)) }
{
    for param in params {
        table.note(param.name.bytes(), param.abi_type.class())?;
    }
    Ok(())
}

/// For each temporary that has a definition the class of the first.
fn definitions_of<'a, A: Allocator + Copy>(
    alloc: A,
    keys: RandomState,
    func: &Func<'a, A>,
) -> Result<Firsts<'a, Class, A>, AllocError>
    ensures { IfOk result (λ table. (x : List ℕ) → value_at table.values x ≡ first_class (func_targets func.now) x) }
{
    let mut table = Firsts::new(alloc, keys);
    note_params(&mut table, func.params.as_slice())?;
    note_blocks(&mut table, func.blocks.as_slice())?;
    Ok(table)
}

/// The class that a name has in a table. Each temporary of a checked function has one.
fn class_of<A: Allocator + Copy>(table: &Firsts<'_, Class, A>, name: &[u8]) -> Class
    ensures { result ≡ unwrap_or (value_at table.now.values name.now) classes.W }
{
    match table.get(name) {
        Some(class) => class,
        None => Class::W,
    }
}

/// The classes of names, in their order.
fn listed<'a, A: Allocator + Copy>(
    alloc: A,
    table: &Firsts<'a, Class, A>,
    names: &[&'a [u8]],
) -> Result<Vec<Class, A>, AllocError>
    ensures { IfOk result (λ v. v.items ≡ map (λ x. unwrap_or (value_at table.now.values x) classes.W) (names_of names.now)) }
{
    let mut out = Vec::new(alloc);
    for name in names {
        out.push(class_of(table, name))?;
    }
    Ok(out)
}

/// The classes of temporaries, in the order of these names.
pub fn classes_of<'a, A: Allocator + Copy>(
    alloc: A,
    keys: RandomState,
    func: &Func<'a, A>,
    names: &OrderedNames<'a, A>,
) -> Result<Vec<Class, A>, AllocError>
    ensures { IfOk result (λ v. v.items ≡ map (class_of_temp func.now) names.now) }
{
    let table = definitions_of(alloc, keys, func)?;
    listed(alloc, &table, names.names())
}
