//! The temporaries of a function, gathered in the order in which its text first names them.

ghost use Rattle.std.specs.Prelude.{◌≡◌, [], OnOk, IfOk, map};
ghost use Rattle.std.specs.List.{flat_map};
ghost use Rattle.qil_semantics.specs.Names.{operand_names, phi_names, inst_names, jump_names, block_names, temps_named};
ghost use Rattle.qil_symbols.specs.Numbers.{recorded};
ghost use Rattle.qil_code.specs.Gather.{expr_names, param_names, arguments_names, sources_names, labels_in};

use crate::ordered_names::OrderedNames;
use qil_tree::{
    Argument, Block, Expr, Func, Inst, InstKind, Jump, JumpKind, Operand, Param, Phi, PhiSource,
};
use std::alloc::{AllocError, Allocator};
use std::hash::RandomState;

fn note_operand<'a, A: Allocator + Copy>(
    names: &mut OrderedNames<'a, A>,
    operand: &Operand<'a>,
) -> Result<(), AllocError>
    ensures { OnOk result (names.new ≡ recorded names.old (operand_names operand.now)) }
{
    match operand {
        Operand::Number(_) => {}
        Operand::Global(_) => {}
        Operand::Temp(name) => names.note(name.bytes())?,
    }
    Ok(())
}

fn note_two<'a, A: Allocator + Copy>(
    names: &mut OrderedNames<'a, A>,
    left: &Operand<'a>,
    right: &Operand<'a>,
) -> Result<(), AllocError>
    ensures { OnOk result (names.new ≡ recorded (recorded names.old (operand_names left.now)) (operand_names right.now)) }
{
    note_operand(names, left)?;
    note_operand(names, right)
}

fn note_expr<'a, A: Allocator + Copy>(
    names: &mut OrderedNames<'a, A>,
    expr: &Expr<'a>,
) -> Result<(), AllocError>
    ensures { OnOk result (names.new ≡ recorded names.old (expr_names expr.now)) }
{
    match expr {
        Expr::Unary(_, value) => note_operand(names, value),
        Expr::Binary(_, left, right) => note_two(names, left, right),
        Expr::Compare(_, _, left, right) => note_two(names, left, right),
        Expr::Extend(_, value) => note_operand(names, value),
        Expr::Load(_, address) => note_operand(names, address),
    }
}

fn note_arguments<'a, A: Allocator + Copy>(
    names: &mut OrderedNames<'a, A>,
    arguments: &[Argument<'a>],
) -> Result<(), AllocError>
    ensures { OnOk result (names.new ≡ recorded names.old (arguments_names arguments.now)) }
{
    for argument in arguments {
        note_operand(names, &argument.value)?;
    }
    Ok(())
}

fn note_inst<'a, A: Allocator + Copy>(
    names: &mut OrderedNames<'a, A>,
    inst: &Inst<'a, A>,
) -> Result<(), AllocError>
    ensures { OnOk result (names.new ≡ recorded names.old (inst_names inst.now)) }
{
    match &inst.kind {
        InstKind::Assign(to, expr) => {
            names.note(to.name.bytes())?;
            note_expr(names, expr)
        }
        InstKind::Alloc(to, _, count) => {
            names.note(to.name.bytes())?;
            note_operand(names, count)
        }
        InstKind::Store(_, value, to) => note_two(names, value, to),
        InstKind::Blit(from, to, _) => note_two(names, from, to),
        InstKind::Call(None, callee, arguments) => {
            note_operand(names, callee)?;
            note_arguments(names, arguments.as_slice())
        }
        InstKind::Call(Some(to), callee, arguments) => {
            names.note(to.name.bytes())?;
            note_operand(names, callee)?;
            note_arguments(names, arguments.as_slice())
        }
    }
}

fn note_sources<'a, A: Allocator + Copy>(
    names: &mut OrderedNames<'a, A>,
    sources: &[PhiSource<'a>],
) -> Result<(), AllocError>
    ensures { OnOk result (names.new ≡ recorded names.old (sources_names sources.now)) }
{
    for source in sources {
        note_operand(names, &source.value)?;
    }
    Ok(())
}

fn note_phi<'a, A: Allocator + Copy>(
    names: &mut OrderedNames<'a, A>,
    phi: &Phi<'a, A>,
) -> Result<(), AllocError>
    ensures { OnOk result (names.new ≡ recorded names.old (phi_names phi.now)) }
{
    names.note(phi.target.name.bytes())?;
    note_sources(names, phi.sources.as_slice())
}

fn note_jump<'a, A: Allocator + Copy>(
    names: &mut OrderedNames<'a, A>,
    jump: &Jump<'a>,
) -> Result<(), AllocError>
    ensures { OnOk result (names.new ≡ recorded names.old (jump_names jump.now.kind)) }
{
    match &jump.kind {
        JumpKind::Jmp(_) => Ok(()),
        JumpKind::Jnz(value, _, _) => note_operand(names, value),
        JumpKind::Ret(None) => Ok(()),
        JumpKind::Ret(Some(value)) => note_operand(names, value),
        JumpKind::Hlt => Ok(()),
    }
}

fn note_phis<'a, A: Allocator + Copy>(
    names: &mut OrderedNames<'a, A>,
    phis: &[Phi<'a, A>],
) -> Result<(), AllocError>
    ensures { OnOk result (names.new ≡ recorded names.old (flat_map phi_names phis.now)) }
{
    for phi in phis {
        note_phi(names, phi)?;
    }
    Ok(())
}

fn note_insts<'a, A: Allocator + Copy>(
    names: &mut OrderedNames<'a, A>,
    insts: &[Inst<'a, A>],
) -> Result<(), AllocError>
    ensures { OnOk result (names.new ≡ recorded names.old (flat_map inst_names insts.now)) }
{
    for inst in insts {
        note_inst(names, inst)?;
    }
    Ok(())
}

fn note_block<'a, A: Allocator + Copy>(
    names: &mut OrderedNames<'a, A>,
    block: &Block<'a, A>,
) -> Result<(), AllocError>
    ensures { OnOk result (names.new ≡ recorded names.old (block_names block.now)) }
{
    note_phis(names, block.phis.as_slice())?;
    note_insts(names, block.insts.as_slice())?;
    note_jump(names, &block.jump)
}

fn note_blocks<'a, A: Allocator + Copy>(
    names: &mut OrderedNames<'a, A>,
    blocks: &[Block<'a, A>],
) -> Result<(), AllocError>
    ensures { OnOk result (names.new ≡ recorded names.old (flat_map block_names blocks.now)) }
{
    for block in blocks {
        note_block(names, block)?;
    }
    Ok(())
}

fn note_params<'a, A: Allocator + Copy>(
    names: &mut OrderedNames<'a, A>,
    params: &[Param<'a>],
) -> Result<(), AllocError>
    ensures { OnOk result (names.new ≡ recorded names.old (param_names params.now)) }
{
    for param in params {
        names.note(param.name.bytes())?;
    }
    Ok(())
}

/// The temporaries of a function: each once, in the order in which the text first names them.
#[tactic(auto, using(qil_code::proofs::Once::gathered))]
pub fn temps_of<'a, A: Allocator + Copy>(
    alloc: A,
    keys: RandomState,
    func: &Func<'a, A>,
) -> Result<OrderedNames<'a, A>, AllocError>
    ensures { IfOk result (λ names. names ≡ temps_named func.now) }
{
    let mut names = OrderedNames::new(alloc, keys);
    note_params(&mut names, func.params.as_slice())?;
    note_blocks(&mut names, func.blocks.as_slice())?;
    Ok(names)
}

/// The labels of blocks: each once, in the order of the text.
pub fn labels_of<'a, A: Allocator + Copy>(
    alloc: A,
    keys: RandomState,
    blocks: &[Block<'a, A>],
) -> Result<OrderedNames<'a, A>, AllocError>
    ensures { IfOk result (λ names. names ≡ recorded [] (labels_in blocks.now)) }
{
    let mut names = OrderedNames::new(alloc, keys);
    for block in blocks {
        names.note(block.label.bytes())?;
    }
    Ok(names)
}

/// The names of functions: each once, in the order of the text.
pub fn funcs_of<'a, A: Allocator + Copy>(
    alloc: A,
    keys: RandomState,
    funcs: &[Func<'a, A>],
) -> Result<OrderedNames<'a, A>, AllocError>
    ensures { IfOk result (λ names. names ≡ recorded [] (map (λ f. f.name) funcs.now)) }
{
    let mut names = OrderedNames::new(alloc, keys);
    for func in funcs {
        names.note(func.name.bytes())?;
    }
    Ok(names)
}
