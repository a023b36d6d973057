//! From the parts of a tree to numbered parts: what the names in a function represent.

ghost use Rattle.std.specs.Prelude.{◌≡◌, ◌≤◌, IfOk, map, length};
ghost use Rattle.qil_tree.specs.declared.tree.Operand.TheVariants as operands;
ghost use Rattle.qil_code.specs.Numbered.{slot_in, operand_of, expr_of, receiver_of, argument_of, inst_of, param_of, move_with};

use crate::ordered_names::OrderedNames;
use qil_code::{
    NumberedArgument, NumberedExpr, NumberedInst, NumberedOperand, PhiMove, Receiver, Slot,
};
use qil_layout::Image;
use qil_tree::{
    AbiType, Argument, CallResult, Expr, Inst, InstKind, Items, Name, Operand, Param, Target,
};
use std::alloc::{AllocError, Allocator};

/// What names represent in a function: temporaries and labels for their numbers, globals for their addresses.
#[derive(Drop)]
pub struct Resolver<'r, 'c, A: Allocator> {
    pub image: &'r Image<'c, A>,
    pub temps: &'r OrderedNames<'c, A>,
    pub labels: &'r OrderedNames<'c, A>,
    ghost few_temps: { length temps.now ≤ 65535 },
    ghost few_labels: { length labels.now ≤ 65535 },
}

impl<'r, 'c, A: Allocator + Copy> Resolver<'r, 'c, A> {
    fn slot(&self, name: &Name<'c>) -> Slot
        ensures { result ≡ slot_in self.now.temps.now name.now }
    {
        match self.temps.number(name.bytes()) {
            Some(number) => Slot {
                index: number as u16,
            },
            None => Slot { index: 0 },
        }
    }

    fn address(&self, name: &Name<'c>) -> NumberedOperand
        ensures { result ≡ operand_of self.now.image.now self.now.temps.now (operands.Global name.now) }
    {
        match self.image.address(name.bytes()) {
            Some(address) => NumberedOperand::Constant(address),
            None => NumberedOperand::Constant(0),
        }
    }

    pub fn operand(&self, operand: &Operand<'c>) -> NumberedOperand
        ensures { result ≡ operand_of self.now.image.now self.now.temps.now operand.now }
    {
        match operand {
            Operand::Number(number) => NumberedOperand::Constant(*number),
            Operand::Global(name) => self.address(name),
            Operand::Temp(name) => NumberedOperand::Slot(self.slot(name)),
        }
    }

    fn expr(&self, expr: &Expr<'c>) -> NumberedExpr
        ensures { result ≡ expr_of self.now.image.now self.now.temps.now expr.now }
    {
        match expr {
            Expr::Unary(op, value) => NumberedExpr::Unary(*op, self.operand(value)),
            Expr::Binary(op, left, right) => {
                NumberedExpr::Binary(*op, self.operand(left), self.operand(right))
            }
            Expr::Compare(op, class, left, right) => {
                NumberedExpr::Compare(*op, *class, self.operand(left), self.operand(right))
            }
            Expr::Extend(op, value) => NumberedExpr::Extend(*op, self.operand(value)),
            Expr::Load(op, address) => NumberedExpr::Load(*op, self.operand(address)),
        }
    }

    fn receiver(&self, taken: &CallResult<'c>) -> Receiver
        ensures { result ≡ receiver_of self.now.temps.now taken.now }
    {
        Receiver {
            slot: self.slot(&taken.name),
            abi_type: taken.abi_type,
        }
    }

    fn arguments(
        &self,
        alloc: A,
        arguments: &[Argument<'c>],
    ) -> Result<Vec<NumberedArgument, A>, AllocError>
        ensures { IfOk result (λ v. v.items ≡ map (argument_of self.now.image.now self.now.temps.now) arguments.now) }
    {
        let mut out = Vec::new(alloc);
        for argument in arguments {
            out.push(NumberedArgument {
                abi_type: argument.abi_type,
                source: self.operand(&argument.value),
            })?;
        }
        Ok(out)
    }

    pub fn inst(&self, alloc: A, inst: &Inst<'c, A>) -> Result<NumberedInst<A>, AllocError>
        ensures { IfOk result (λ i. i ≡ inst_of self.now.image.now self.now.temps.now inst.now) }
    {
        Ok(match &inst.kind {
            InstKind::Assign(to, expr) => {
                NumberedInst::Assign(to.class, self.slot(&to.name), self.expr(expr))
            }
            InstKind::Alloc(to, op, count) => {
                NumberedInst::Alloc(to.class, self.slot(&to.name), *op, self.operand(count))
            }
            InstKind::Store(width, value, to) => {
                NumberedInst::Store(*width, self.operand(value), self.operand(to))
            }
            InstKind::Blit(from, to, count) => {
                NumberedInst::Blit(self.operand(from), self.operand(to), *count)
            }
            InstKind::Call(to, callee, arguments) => {
                let passed = self.arguments(alloc, arguments.as_slice())?;
                let receiver = match to {
                    None => None,
                    Some(taken) => Some(self.receiver(taken)),
                };
                NumberedInst::Call(receiver, self.operand(callee), Items::new(passed))
            }
        })
    }

    pub fn phi_move(&self, target: &Target<'c>, value: &Operand<'c>) -> PhiMove
        ensures { result ≡ move_with self.now.image.now self.now.temps.now target.now value.now }
    {
        PhiMove {
            class: target.class,
            target: self.slot(&target.name),
            source: self.operand(value),
        }
    }

    pub fn params(
        &self,
        alloc: A,
        params: &[Param<'c>],
    ) -> Result<Vec<(Slot, AbiType), A>, AllocError>
        ensures { IfOk result (λ v. v.items ≡ map (param_of self.now.temps.now) params.now) }
    {
        let mut out = Vec::new(alloc);
        for param in params {
            out.push((self.slot(&param.name), param.abi_type))?;
        }
        Ok(out)
    }
}
