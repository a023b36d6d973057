//! Whether the numbered code of a function, read through names, is what the tree has at the same place.

use qil_code::{
    BlockId, Code, NumberedArgument, NumberedExpr, NumberedInst, NumberedJump, NumberedOperand,
    PhiMove, Receiver, Slot,
};
use qil_layout::FuncId;
use qil_tree::{
    Argument, Block, CallResult, Class, Expr, Func, InstKind, JumpKind, Operand, Param, Phi, Target,
};
use std::alloc::Allocator;

fn is_temp<A: Allocator + Copy>(code: &Code<'_, A>, func: FuncId, slot: Slot, name: &[u8]) -> bool {
    match code.name_of(func, slot) {
        Some(found) => found.bytes() == name && code.slot_of(func, name) == Some(slot),
        None => false,
    }
}

fn is_label<A: Allocator + Copy>(
    code: &Code<'_, A>,
    func: FuncId,
    block: BlockId,
    label: &[u8],
) -> bool {
    match code.label_of(func, block) {
        Some(found) => found.bytes() == label && code.block_of(func, label) == Some(block),
        None => false,
    }
}

/// Whether a temporary of the tree has a slot, of its class.
fn is_typed<A: Allocator + Copy>(
    code: &Code<'_, A>,
    func: FuncId,
    slot: Slot,
    name: &[u8],
    class: Class,
) -> bool {
    is_temp(code, func, slot, name) && code.class_of(func, slot) == Some(class)
}

fn is_operand<A: Allocator + Copy>(
    code: &Code<'_, A>,
    func: FuncId,
    source: NumberedOperand,
    operand: &Operand<'_>,
) -> bool {
    match (source, operand) {
        (NumberedOperand::Constant(value), Operand::Number(number)) => value == *number,
        (NumberedOperand::Constant(value), Operand::Global(name)) => {
            code.image().address(name.bytes()) == Some(value)
        }
        (NumberedOperand::Slot(slot), Operand::Temp(name)) => {
            is_temp(code, func, slot, name.bytes())
        }
        _ => false,
    }
}

/// Whether two operands are what the tree has as two.
fn are_operands<A: Allocator + Copy>(
    code: &Code<'_, A>,
    func: FuncId,
    sources: (NumberedOperand, NumberedOperand),
    first: &Operand<'_>,
    second: &Operand<'_>,
) -> bool {
    is_operand(code, func, sources.0, first) && is_operand(code, func, sources.1, second)
}

fn is_expr<A: Allocator + Copy>(
    code: &Code<'_, A>,
    func: FuncId,
    found: NumberedExpr,
    expr: &Expr<'_>,
) -> bool {
    match (found, expr) {
        (NumberedExpr::Unary(op, value), Expr::Unary(own, operand)) => {
            op == *own && is_operand(code, func, value, operand)
        }
        (NumberedExpr::Binary(op, left, right), Expr::Binary(own, first, second)) => {
            op == *own && are_operands(code, func, (left, right), first, second)
        }
        (NumberedExpr::Compare(op, class, left, right), Expr::Compare(own, of, first, second)) => {
            op == *own && class == *of && are_operands(code, func, (left, right), first, second)
        }
        (NumberedExpr::Extend(op, value), Expr::Extend(own, operand)) => {
            op == *own && is_operand(code, func, value, operand)
        }
        (NumberedExpr::Load(op, value), Expr::Load(own, operand)) => {
            op == *own && is_operand(code, func, value, operand)
        }
        _ => false,
    }
}

fn is_target<A: Allocator + Copy>(
    code: &Code<'_, A>,
    func: FuncId,
    class: Class,
    slot: Slot,
    target: &Target<'_>,
) -> bool {
    class == target.class && is_typed(code, func, slot, target.name.bytes(), class)
}

fn is_receiver<A: Allocator + Copy>(
    code: &Code<'_, A>,
    func: FuncId,
    found: Option<Receiver>,
    to: &Option<CallResult<'_>>,
) -> bool {
    match (found, to) {
        (Some(receiver), Some(result)) => {
            receiver.abi_type == result.abi_type
                && is_typed(
                    code,
                    func,
                    receiver.slot,
                    result.name.bytes(),
                    result.abi_type.class(),
                )
        }
        (None, None) => true,
        _ => false,
    }
}

fn are_arguments<A: Allocator + Copy>(
    code: &Code<'_, A>,
    func: FuncId,
    found: &[NumberedArgument],
    arguments: &[Argument<'_>],
) -> bool {
    for (index, numbered) in found.iter().enumerate() {
        match arguments.get(index) {
            Some(argument) => {
                if numbered.abi_type != argument.abi_type
                    || !is_operand(code, func, numbered.source, &argument.value)
                {
                    return false;
                }
            }
            None => return false,
        }
    }
    found.len() == arguments.len()
}

fn is_inst<A: Allocator + Copy>(
    code: &Code<'_, A>,
    func: FuncId,
    found: &NumberedInst<A>,
    kind: &InstKind<'_, A>,
) -> bool {
    match (found, kind) {
        (NumberedInst::Assign(class, slot, value), InstKind::Assign(target, expr)) => {
            is_target(code, func, *class, *slot, target) && is_expr(code, func, *value, expr)
        }
        (NumberedInst::Alloc(class, slot, op, size), InstKind::Alloc(target, own, operand)) => {
            *op == *own
                && is_target(code, func, *class, *slot, target)
                && is_operand(code, func, *size, operand)
        }
        (NumberedInst::Store(width, value, to), InstKind::Store(own, operand, address)) => {
            *width == *own && are_operands(code, func, (*value, *to), operand, address)
        }
        (NumberedInst::Blit(from, to, size), InstKind::Blit(first, second, own)) => {
            *size == *own && are_operands(code, func, (*from, *to), first, second)
        }
        (NumberedInst::Call(receiver, callee, found), InstKind::Call(result, operand, arguments)) =>
            {
                is_receiver(code, func, *receiver, result)
                    && is_operand(code, func, *callee, operand)
                    && are_arguments(code, func, found.as_slice(), arguments.as_slice())
            }
        _ => false,
    }
}

/// Whether a move is what a phi does where the block of a label is left.
fn is_move<A: Allocator + Copy>(
    code: &Code<'_, A>,
    func: FuncId,
    found: &PhiMove,
    phi: &Phi<'_, A>,
    left: &[u8],
) -> bool {
    for source in phi.sources.as_slice() {
        if source.label.bytes() == left {
            return is_target(code, func, found.class, found.target, &phi.target)
                && is_operand(code, func, found.source, &source.value);
        }
    }
    false
}

/// Whether moves are what the phis of a block do where the block of a label is left.
fn are_moves<A: Allocator + Copy>(
    code: &Code<'_, A>,
    func: FuncId,
    moves: &[PhiMove],
    phis: &[Phi<'_, A>],
    left: &[u8],
) -> bool {
    for (index, found) in moves.iter().enumerate() {
        match phis.get(index) {
            Some(phi) if is_move(code, func, found, phi, left) => {}
            _ => return false,
        }
    }
    moves.len() == phis.len()
}

/// Whether an edge from a block leads to that of a label, and does what the phis there do.
fn is_edge<A: Allocator + Copy>(
    code: &Code<'_, A>,
    func: FuncId,
    tree: &Func<'_, A>,
    from: (BlockId, &[u8]),
    to: BlockId,
    label: &[u8],
) -> bool {
    let Some(block) = tree.blocks.as_slice().get(usize::from(to.index)) else {
        return false
    };
    is_label(code, func, to, label)
        && block.label.bytes() == label
        && are_moves(
            code,
            func,
            code.phis(func, from.0, to),
            block.phis.as_slice(),
            from.1,
        )
}

fn is_value<A: Allocator + Copy>(
    code: &Code<'_, A>,
    func: FuncId,
    found: Option<NumberedOperand>,
    value: &Option<Operand<'_>>,
) -> bool {
    match (found, value) {
        (Some(source), Some(operand)) => is_operand(code, func, source, operand),
        (None, None) => true,
        _ => false,
    }
}

fn is_jump<A: Allocator + Copy>(
    code: &Code<'_, A>,
    func: FuncId,
    tree: &Func<'_, A>,
    from: (BlockId, &[u8]),
    found: &NumberedJump<A>,
    kind: &JumpKind<'_>,
) -> bool {
    match (found, kind) {
        (NumberedJump::Jmp(edge), JumpKind::Jmp(label)) => {
            is_edge(code, func, tree, from, edge.to, label.bytes())
        }
        (NumberedJump::Jnz(on, set, zero), JumpKind::Jnz(operand, first, second)) => {
            is_operand(code, func, *on, operand)
                && is_edge(code, func, tree, from, set.to, first.bytes())
                && is_edge(code, func, tree, from, zero.to, second.bytes())
        }
        (NumberedJump::Ret(found), JumpKind::Ret(value)) => is_value(code, func, *found, value),
        (NumberedJump::Hlt, JumpKind::Hlt) => true,
        _ => false,
    }
}

/// The line of the first instruction of a block that is read back otherwise, or of its jump.
fn inst_difference<A: Allocator + Copy>(
    code: &Code<'_, A>,
    func: FuncId,
    id: BlockId,
    block: &Block<'_, A>,
) -> Option<u32> {
    if code.inst_count(func, id) != block.insts.as_slice().len() {
        return Some(block.line);
    }
    for (index, inst) in block.insts.as_slice().iter().enumerate() {
        match code.inst(func, id, index) {
            Some(found) if is_inst(code, func, found, &inst.kind) => {}
            _ => return Some(inst.line),
        }
    }
    None
}

fn jump_difference<A: Allocator + Copy>(
    code: &Code<'_, A>,
    func: FuncId,
    tree: &Func<'_, A>,
    id: BlockId,
    block: &Block<'_, A>,
) -> Option<u32> {
    match code.jump(func, id) {
        Some(found)
            if is_jump(
                code,
                func,
                tree,
                (id, block.label.bytes()),
                found,
                &block.jump.kind,
            ) => None,
        _ => Some(block.jump.line),
    }
}

/// The first line of a block that is read back otherwise.
fn block_difference<A: Allocator + Copy>(
    code: &Code<'_, A>,
    func: FuncId,
    tree: &Func<'_, A>,
    block: &Block<'_, A>,
) -> Option<u32> {
    let Some(id) = code.block_of(func, block.label.bytes()) else {
        return Some(block.line)
    };
    match inst_difference(code, func, id, block) {
        Some(line) => Some(line),
        None => jump_difference(code, func, tree, id, block),
    }
}

fn are_params<A: Allocator + Copy>(code: &Code<'_, A>, func: FuncId, params: &[Param<'_>]) -> bool {
    let found = code.params(func);
    for (index, param) in params.iter().enumerate() {
        match found.get(index) {
            Some((slot, abi_type)) => {
                if *abi_type != param.abi_type
                    || !is_typed(code, func, *slot, param.name.bytes(), abi_type.class())
                {
                    return false;
                }
            }
            None => return false,
        }
    }
    found.len() == params.len()
}

/// The first line of a function that is read back otherwise.
pub fn difference<A: Allocator + Copy>(code: &Code<'_, A>, tree: &Func<'_, A>) -> Option<u32> {
    let Some(func) = code.func_named(tree.name.bytes()) else {
        return Some(tree.line)
    };
    if code.returns(func) != tree.returns || !are_params(code, func, tree.params.as_slice()) {
        return Some(tree.line);
    }
    for block in tree.blocks.as_slice() {
        if let Some(line) = block_difference(code, func, tree, block) {
            return Some(line);
        }
    }
    None
}
