//! The occurrences of a definition, from its tree.

ghost use Rattle.std.specs.Prelude.{◌≡◌, ◌++◌, ◌∷◌, [], OnOk, IfOk, Option, map};
ghost use Rattle.std.specs.List.{flat_map};
ghost use Rattle.qil_rules.specs.Operands.{right_class, stored_class, expr_reads, inst_reads, inst_target, inst_long_class, call_target, argument_read, long_class};
ghost use Rattle.qil_rules.specs.declared.occurrence.OccurrenceKind.TheVariants.{Edge};
ghost use Rattle.qil_rules.specs.Occurrences.{on, read_occurrences, operand_occurrences, target_occurrences, long_occurrences, source_occurrences, phi_occurrences, kind_occurrences, inst_occurrences, returned_class, jump_occurrences, block_occurrences, param_occurrence, func_occurrences, item_occurrences, field_occurrences, data_occurrences};

use qil_rules::{Occurrence, OccurrenceKind, PhiSources};
use qil_tree::{
    AbiType, Argument, BinaryOp, Block, CallResult, Class, Data, Expr, Extension, Field, Func,
    Inst, InstKind, Item, JumpKind, LoadOp, Name, Operand, Param, Phi, PhiSource, Target, Width,
};
use std::alloc::{AllocError, Allocator};

/// A name of its own, of the same text.
fn same<'a>(name: &Name<'a>) -> Name<'a>
    ensures { result ≡ name.now }
{
    Name::new(name.bytes())
}

/// The class of a binary operation's second operand.
fn right_class(op: BinaryOp, class: Class) -> Class
    ensures { result ≡ right_class op class }
{
    match op {
        BinaryOp::Shl | BinaryOp::Shr | BinaryOp::Sar => Class::W,
        _ => class,
    }
}

/// The class of what is stored.
fn stored_class(width: Width) -> Class
    ensures { result ≡ stored_class width }
{
    match width {
        Width::L => Class::L,
        _ => Class::W,
    }
}

/// The class of what is returned; without a return type any value fits.
fn returned_class(returns: Option<AbiType>) -> Class
    ensures { result ≡ returned_class returns }
{
    match returns {
        Some(abi_type) => abi_type.class(),
        None => Class::W,
    }
}

/// The class that is written for a result that is always long.
fn long_class(class: Class, expr: &Expr) -> Option<Class>
    ensures { result ≡ long_class class expr.now }
{
    match expr {
        Expr::Extend(Extension::Sw, _) => Some(class),
        Expr::Extend(Extension::Uw, _) => Some(class),
        Expr::Load(LoadOp::L, _) => Some(class),
        _ => None,
    }
}

/// The class that is written for an instruction's result that is always long.
fn inst_long_class<A: Allocator>(kind: &InstKind<'_, A>) -> Option<Class>
    ensures { result ≡ inst_long_class kind.now }
{
    match kind {
        InstKind::Assign(target, expr) => long_class(target.class, expr),
        InstKind::Alloc(target, _, _) => Some(target.class),
        _ => None,
    }
}

fn same_target<'a>(target: &Target<'a>) -> Target<'a>
    ensures { result ≡ target.now }
{
    Target {
        name: same(&target.name),
        class: target.class,
    }
}

/// The temporary that a call sets.
fn call_target<'a>(taken: &CallResult<'a>) -> Target<'a>
    ensures { result ≡ call_target taken.now }
{
    Target {
        name: same(&taken.name),
        class: taken.abi_type.class(),
    }
}

/// The temporary that an instruction sets.
fn inst_target<'a, A: Allocator>(kind: &InstKind<'a, A>) -> Option<Target<'a>>
    ensures { result ≡ inst_target kind.now }
{
    match kind {
        InstKind::Assign(target, _) => Some(same_target(target)),
        InstKind::Alloc(target, _, _) => Some(same_target(target)),
        InstKind::Call(Some(taken), _, _) => Some(call_target(taken)),
        _ => None,
    }
}

fn push_occurrence<'p, 'a, A: Allocator + Copy>(
    out: &mut Vec<Occurrence<'p, 'a>, A>,
    line: u32,
    what: OccurrenceKind<'p, 'a>,
) -> Result<(), AllocError>
    ensures { OnOk result (out.new.items ≡ out.old.items ++ on line what.entry ∷ []) }
{
    out.push(Occurrence { what, line })?;
    Ok(())
}

fn push_operand<'p, 'a, A: Allocator + Copy>(
    out: &mut Vec<Occurrence<'p, 'a>, A>,
    line: u32,
    class: Class,
    operand: &Operand<'a>,
) -> Result<(), AllocError>
    ensures { OnOk result (out.new.items ≡ out.old.items ++ operand_occurrences line class operand.now) }
{
    match operand {
        Operand::Number(_) => Ok(()),
        Operand::Global(name) => push_occurrence(out, line, OccurrenceKind::Global(same(name))),
        Operand::Temp(name) => push_occurrence(out, line, OccurrenceKind::Uses(same(name), class)),
    }
}

/// Two operands, from the left.
fn push_two<'p, 'a, A: Allocator + Copy>(
    out: &mut Vec<Occurrence<'p, 'a>, A>,
    line: u32,
    left_class: Class,
    left: &Operand<'a>,
    right_class: Class,
    right: &Operand<'a>,
) -> Result<(), AllocError>
    ensures { OnOk result (out.new.items ≡ out.old.items ++ (operand_occurrences line left_class left.now ++ operand_occurrences line right_class right.now)) }
{
    push_operand(out, line, left_class, left)?;
    push_operand(out, line, right_class, right)
}

fn push_expr<'p, 'a, A: Allocator + Copy>(
    out: &mut Vec<Occurrence<'p, 'a>, A>,
    line: u32,
    class: Class,
    expr: &Expr<'a>,
) -> Result<(), AllocError>
    ensures { OnOk result (out.new.items ≡ out.old.items ++ flat_map (read_occurrences line) (expr_reads class expr.now)) }
{
    match expr {
        Expr::Unary(_, value) => push_operand(out, line, class, value),
        Expr::Binary(op, left, right) => {
            let right_class = right_class(*op, class);
            push_two(out, line, class, left, right_class, right)
        }
        Expr::Compare(_, wanted, left, right) => {
            push_two(out, line, *wanted, left, *wanted, right)
        }
        Expr::Extend(_, value) => push_operand(out, line, Class::W, value),
        Expr::Load(_, address) => push_operand(out, line, Class::L, address),
    }
}

fn push_arguments<'p, 'a, A: Allocator + Copy>(
    out: &mut Vec<Occurrence<'p, 'a>, A>,
    line: u32,
    arguments: &[Argument<'a>],
) -> Result<(), AllocError>
    ensures { OnOk result (out.new.items ≡ out.old.items ++ flat_map (read_occurrences line) (map argument_read arguments.now)) }
{
    for argument in arguments {
        push_operand(out, line, argument.abi_type.class(), &argument.value)?;
    }
    Ok(())
}

/// The operands of an instruction.
fn push_reads<'p, 'a, A: Allocator + Copy>(
    out: &mut Vec<Occurrence<'p, 'a>, A>,
    line: u32,
    kind: &InstKind<'a, A>,
) -> Result<(), AllocError>
    ensures { OnOk result (out.new.items ≡ out.old.items ++ flat_map (read_occurrences line) (inst_reads kind.now)) }
{
    match kind {
        InstKind::Assign(target, expr) => push_expr(out, line, target.class, expr),
        InstKind::Alloc(_, _, size) => push_operand(out, line, Class::L, size),
        InstKind::Store(width, value, address) => {
            let class = stored_class(*width);
            push_two(out, line, class, value, Class::L, address)
        }
        InstKind::Blit(source, target, _) => {
            push_two(out, line, Class::L, source, Class::L, target)
        }
        InstKind::Call(_, callee, arguments) => {
            push_operand(out, line, Class::L, callee)?;
            push_arguments(out, line, arguments.as_slice())
        }
    }
}

fn push_target<'p, 'a, A: Allocator + Copy>(
    out: &mut Vec<Occurrence<'p, 'a>, A>,
    line: u32,
    target: Option<Target<'a>>,
) -> Result<(), AllocError>
    ensures { OnOk result (out.new.items ≡ out.old.items ++ target_occurrences line target.entry) }
{
    match target {
        Some(Target { name, class }) => {
            push_occurrence(out, line, OccurrenceKind::Defines(name, class))
        }
        None => Ok(()),
    }
}

fn push_long<'p, 'a, A: Allocator + Copy>(
    out: &mut Vec<Occurrence<'p, 'a>, A>,
    line: u32,
    class: Option<Class>,
) -> Result<(), AllocError>
    ensures { OnOk result (out.new.items ≡ out.old.items ++ long_occurrences line class) }
{
    match class {
        Some(class) => push_occurrence(out, line, OccurrenceKind::Long(class)),
        None => Ok(()),
    }
}

fn push_kind<'p, 'a, A: Allocator + Copy>(
    out: &mut Vec<Occurrence<'p, 'a>, A>,
    line: u32,
    kind: &InstKind<'a, A>,
) -> Result<(), AllocError>
    ensures { OnOk result (out.new.items ≡ out.old.items ++ kind_occurrences line kind.now) }
{
    push_reads(out, line, kind)?;
    push_long(out, line, inst_long_class(kind))?;
    push_target(out, line, inst_target(kind))
}

fn push_insts<'p, 'a, A: Allocator + Copy>(
    out: &mut Vec<Occurrence<'p, 'a>, A>,
    insts: &[Inst<'a, A>],
) -> Result<(), AllocError>
    ensures { OnOk result (out.new.items ≡ out.old.items ++ flat_map inst_occurrences insts.now) }
{
    for inst in insts {
        push_kind(out, inst.line, &inst.kind)?;
    }
    Ok(())
}

fn push_source<'p, 'a, A: Allocator + Copy>(
    out: &mut Vec<Occurrence<'p, 'a>, A>,
    line: u32,
    class: Class,
    source: &PhiSource<'a>,
) -> Result<(), AllocError>
    ensures { OnOk result (out.new.items ≡ out.old.items ++ source_occurrences line class source.now) }
{
    push_occurrence(out, line, OccurrenceKind::PhiLabel(same(&source.label)))?;
    push_operand(out, line, class, &source.value)
}

fn push_sources<'p, 'a, A: Allocator + Copy>(
    out: &mut Vec<Occurrence<'p, 'a>, A>,
    line: u32,
    class: Class,
    sources: &[PhiSource<'a>],
) -> Result<(), AllocError>
    ensures { OnOk result (out.new.items ≡ out.old.items ++ flat_map (λ s. source_occurrences line class s) sources.now) }
{
    for source in sources {
        push_source(out, line, class, source)?;
    }
    Ok(())
}

fn push_phi<'p, 'a, A: Allocator + Copy>(
    out: &mut Vec<Occurrence<'p, 'a>, A>,
    block: &Name<'a>,
    phi: &'p Phi<'a, A>,
) -> Result<(), AllocError>
    ensures { OnOk result (out.new.items ≡ out.old.items ++ phi_occurrences block.now phi.now) }
{
    let line = phi.line;
    push_sources(out, line, phi.target.class, phi.sources.as_slice())?;
    let what = OccurrenceKind::PhiOf(same(block), PhiSources::new(phi.sources.as_slice()));
    push_occurrence(out, line, what)?;
    let what = OccurrenceKind::Defines(same(&phi.target.name), phi.target.class);
    push_occurrence(out, line, what)
}

fn push_phis<'p, 'a, A: Allocator + Copy>(
    out: &mut Vec<Occurrence<'p, 'a>, A>,
    block: &Name<'a>,
    phis: &'p [Phi<'a, A>],
) -> Result<(), AllocError>
    ensures { OnOk result (out.new.items ≡ out.old.items ++ flat_map (phi_occurrences block.now) phis.now) }
{
    for phi in phis {
        push_phi(out, block, phi)?;
    }
    Ok(())
}

/// That control may go from one block to another.
fn push_edge<'p, 'a, A: Allocator + Copy>(
    out: &mut Vec<Occurrence<'p, 'a>, A>,
    line: u32,
    block: &Name<'a>,
    label: &Name<'a>,
) -> Result<(), AllocError>
    ensures { OnOk result (out.new.items ≡ out.old.items ++ on line (Edge block.now label.now) ∷ []) }
{
    push_occurrence(out, line, OccurrenceKind::Edge(same(block), same(label)))
}

fn push_jump<'p, 'a, A: Allocator + Copy>(
    out: &mut Vec<Occurrence<'p, 'a>, A>,
    returns: Option<AbiType>,
    block: &Name<'a>,
    line: u32,
    kind: &JumpKind<'a>,
) -> Result<(), AllocError>
    ensures { OnOk result (out.new.items ≡ out.old.items ++ jump_occurrences returns block.now line kind.now) }
{
    match kind {
        JumpKind::Jmp(label) => push_edge(out, line, block, label),
        JumpKind::Jnz(operand, label, other) => {
            push_operand(out, line, Class::W, operand)?;
            push_edge(out, line, block, label)?;
            push_edge(out, line, block, other)
        }
        JumpKind::Ret(None) => Ok(()),
        JumpKind::Ret(Some(operand)) => {
            push_operand(out, line, returned_class(returns), operand)?;
            push_occurrence(out, line, OccurrenceKind::Returns(returns))
        }
        JumpKind::Hlt => Ok(()),
    }
}

fn push_block<'p, 'a, A: Allocator + Copy>(
    out: &mut Vec<Occurrence<'p, 'a>, A>,
    returns: Option<AbiType>,
    block: &'p Block<'a, A>,
) -> Result<(), AllocError>
    ensures { OnOk result (out.new.items ≡ out.old.items ++ block_occurrences returns block.now) }
{
    push_occurrence(out, block.line, OccurrenceKind::Label(same(&block.label)))?;
    push_phis(out, &block.label, block.phis.as_slice())?;
    push_insts(out, block.insts.as_slice())?;
    push_jump(
        out,
        returns,
        &block.label,
        block.jump.line,
        &block.jump.kind,
    )
}

fn push_blocks<'p, 'a, A: Allocator + Copy>(
    out: &mut Vec<Occurrence<'p, 'a>, A>,
    returns: Option<AbiType>,
    blocks: &'p [Block<'a, A>],
) -> Result<(), AllocError>
    ensures { OnOk result (out.new.items ≡ out.old.items ++ flat_map (block_occurrences returns) blocks.now) }
{
    for block in blocks {
        push_block(out, returns, block)?;
    }
    Ok(())
}

fn push_params<'p, 'a, A: Allocator + Copy>(
    out: &mut Vec<Occurrence<'p, 'a>, A>,
    line: u32,
    params: &[Param<'a>],
) -> Result<(), AllocError>
    ensures { OnOk result (out.new.items ≡ out.old.items ++ map (param_occurrence line) params.now) }
{
    for param in params {
        let what = OccurrenceKind::Defines(same(&param.name), param.abi_type.class());
        push_occurrence(out, line, what)?;
    }
    Ok(())
}

/// The occurrences of a function, in the order of its text.
pub fn func_occurrences<'p, 'a, A: Allocator + Copy>(
    alloc: A,
    func: &'p Func<'a, A>,
) -> Result<Vec<Occurrence<'p, 'a>, A>, AllocError>
    ensures { IfOk result (λ v. v.items ≡ func_occurrences func.now) }
{
    let mut out = Vec::new(alloc);
    let what = OccurrenceKind::FunctionName(same(&func.name));
    push_occurrence(&mut out, func.line, what)?;
    push_params(&mut out, func.line, func.params.as_slice())?;
    push_blocks(&mut out, func.returns, func.blocks.as_slice())?;
    Ok(out)
}

fn push_item<'p, 'a, A: Allocator + Copy>(
    out: &mut Vec<Occurrence<'p, 'a>, A>,
    line: u32,
    item: &Item<'a, A>,
) -> Result<(), AllocError>
    ensures { OnOk result (out.new.items ≡ out.old.items ++ item_occurrences line item.now) }
{
    match item {
        Item::Address(name, _) => push_occurrence(out, line, OccurrenceKind::Global(same(name))),
        _ => Ok(()),
    }
}

fn push_items<'p, 'a, A: Allocator + Copy>(
    out: &mut Vec<Occurrence<'p, 'a>, A>,
    line: u32,
    items: &[Item<'a, A>],
) -> Result<(), AllocError>
    ensures { OnOk result (out.new.items ≡ out.old.items ++ flat_map (item_occurrences line) items.now) }
{
    for item in items {
        push_item(out, line, item)?;
    }
    Ok(())
}

fn push_field<'p, 'a, A: Allocator + Copy>(
    out: &mut Vec<Occurrence<'p, 'a>, A>,
    line: u32,
    field: &Field<'a, A>,
) -> Result<(), AllocError>
    ensures { OnOk result (out.new.items ≡ out.old.items ++ field_occurrences line field.now) }
{
    match field {
        Field::Values(_, items) => push_items(out, line, items.as_slice()),
        Field::Zeros(_) => Ok(()),
    }
}

fn push_fields<'p, 'a, A: Allocator + Copy>(
    out: &mut Vec<Occurrence<'p, 'a>, A>,
    line: u32,
    fields: &[Field<'a, A>],
) -> Result<(), AllocError>
    ensures { OnOk result (out.new.items ≡ out.old.items ++ flat_map (field_occurrences line) fields.now) }
{
    for field in fields {
        push_field(out, line, field)?;
    }
    Ok(())
}

/// The occurrences of a data object: its name, and the globals that it holds the addresses of.
pub fn data_occurrences<'p, 'a, A: Allocator + Copy>(
    alloc: A,
    object: &'p Data<'a, A>,
) -> Result<Vec<Occurrence<'p, 'a>, A>, AllocError>
    ensures { IfOk result (λ v. v.items ≡ data_occurrences object.now) }
{
    let mut out = Vec::new(alloc);
    let what = OccurrenceKind::DataName(same(&object.name));
    push_occurrence(&mut out, object.line, what)?;
    push_fields(&mut out, object.line, object.fields.as_slice())?;
    Ok(out)
}
