//! What constants are made of. Numbered code has the address of a name as a constant, and the tree says which constant is one: it
//! is looked at only if the value can be an address.

ghost use Rattle.std.specs.Prelude.{◌≡◌, Some, slice_get};
ghost use Rattle.std.specs.Option.{option_copied};
ghost use Rattle.std.specs.Str.{bytes_eq};
ghost use Rattle.qil_tree.specs.declared.tree.Operand.{Operand};
ghost use Rattle.qil_memory.specs.qil_layout.Layout.{address_of};
ghost use Rattle.qil_shadow.specs.Objects.{object_named};
ghost use Rattle.qil_shadow.specs.ObjectNumbers.{AreStarts};
ghost use Rattle.qil_shadow.specs.Shadow.{none_set};
ghost use Rattle.qil_shadow.specs.Shadowed.{operand_origin};
ghost use Rattle.qil_shadow.specs.Starting.{IsOf};
ghost use Rattle.qil_code.specs.Numbered.{names_of};
ghost use Rattle.qil_shadow.specs.Reads.{first_operand, second_operand, operand_in, of_two, returned_in, operand_at, read_at, HasValue, IsFor, IsRead, innermost, HasSlots, is_sure};
ghost use Rattle.qil_shadow.specs.Phis.{source_value, phi_value, phi_read};

use crate::origin::{ObjectId, Origin};
use crate::shadow::Shadow;
use crate::suspicion::Place;
use qil_code::{BlockId, Code, NumberedOperand, PhiMove};
use qil_tree::{Block, Class, Expr, InstKind, JumpKind, Operand, Phi, PhiSource};
use std::alloc::Allocator;

/// No name has an address below: the functions lie here that every program has.
const LEAST_ADDRESS: u64 = 1024;

/// Which operand is read of what stands at a place.
#[derive(Clone, Copy)]
pub(crate) enum Reading {
    First,
    Second,
    /// An argument of a call, counted from 0.
    Argument(usize),
    /// What a function returns.
    Returned,
}

/// The operand of an expression of one, and the first of two.
fn first_operand<'t, 'a>(expr: &'t Expr<'a>) -> &'t Operand<'a>
    ensures { result.now ≡ first_operand expr.now }
{
    match expr {
        Expr::Unary(_, first) => first,
        Expr::Binary(_, first, _) => first,
        Expr::Compare(_, _, first, _) => first,
        Expr::Extend(_, first) => first,
        Expr::Load(_, first) => first,
    }
}

/// The second operand of two, or the only one.
fn second_operand<'t, 'a>(expr: &'t Expr<'a>) -> &'t Operand<'a>
    ensures { result.now ≡ second_operand expr.now }
{
    match expr {
        Expr::Unary(_, only) => only,
        Expr::Binary(_, _, second) => second,
        Expr::Compare(_, _, _, second) => second,
        Expr::Extend(_, only) => only,
        Expr::Load(_, only) => only,
    }
}

/// An operand of an instruction.
fn operand_in<'t, 'a, A: Allocator>(
    kind: &'t InstKind<'a, A>,
    reading: Reading,
) -> Option<&'t Operand<'a>>
    ensures { option_copied result ≡ operand_in kind.now reading }
{
    match kind {
        InstKind::Assign(_, expr) => match reading {
            Reading::First => Some(first_operand(expr)),
            Reading::Second => Some(second_operand(expr)),
            Reading::Argument(_) | Reading::Returned => None,
        },
        InstKind::Store(_, number, address) => of_two(number, address, reading),
        InstKind::Blit(source, target, _) => of_two(source, target, reading),
        InstKind::Call(_, _, args) => match reading {
            Reading::Argument(index) => match args.as_slice().get(index) {
                Some(given) => Some(&given.value),
                None => None,
            },
            Reading::First | Reading::Second | Reading::Returned => None,
        },
        InstKind::Alloc(_, _, _) => None,
    }
}

/// One of two operands.
fn of_two<'t, 'a>(
    first: &'t Operand<'a>,
    second: &'t Operand<'a>,
    reading: Reading,
) -> Option<&'t Operand<'a>>
    ensures { option_copied result ≡ of_two first.now second.now reading }
{
    match reading {
        Reading::First => Some(first),
        Reading::Second => Some(second),
        Reading::Argument(_) | Reading::Returned => None,
    }
}

/// What a block returns.
fn returned_in<'t, 'a, A: Allocator>(block: &'t Block<'a, A>) -> Option<&'t Operand<'a>>
    ensures { option_copied result ≡ returned_in block.now.jump.kind }
{
    match &block.jump.kind {
        JumpKind::Ret(operand) => operand.as_ref(),
        JumpKind::Jmp(_) | JumpKind::Jnz(_, _, _) | JumpKind::Hlt => None,
    }
}

/// An operand of what stands at a place of a block.
fn operand_at<'t, 'a, A: Allocator>(
    block: &'t Block<'a, A>,
    index: u32,
    reading: Reading,
) -> Option<&'t Operand<'a>>
    ensures { option_copied result ≡ operand_at block.now index reading }
{
    match block.insts.as_slice().get(index as usize) {
        Some(inst) => operand_in(&inst.kind, reading),
        None => returned_in(block),
    }
}

/// Whether a source of a phi is for the block of a label.
#[inline(always)]
fn is_for(source: &PhiSource<'_>, left: &[u8]) -> bool
    ensures { result ≡ bytes_eq source.now.label left.now }
{
    source.label.bytes() == left
}

/// What a phi takes where the block of a label is left.
#[inline(always)]
fn source_value<'t, 'a, A: Allocator>(phi: &'t Phi<'a, A>, left: &[u8]) -> Option<&'t Operand<'a>>
    ensures { option_copied result ≡ source_value left.now phi.now }
{
    for source in phi.sources.as_slice() {
        if is_for(source, left) {
            return Some(&source.value);
        }
    }
    None
}

/// The same of the phi of a number.
fn phi_operand<'t, 'a, A: Allocator>(
    block: &'t Block<'a, A>,
    left: &[u8],
    index: usize,
) -> Option<&'t Operand<'a>>
    ensures { option_copied result ≡ phi_value left.now (slice_get block.now.phis index) }
{
    match block.phis.as_slice().get(index) {
        Some(phi) => source_value(phi, left),
        None => None,
    }
}

/// The operand of a phi of a block, where that of a place is left for it.
#[inline(always)]
fn phi_written<'c, A: Allocator + Copy>(
    code: &Code<'c, A>,
    place: Place,
    to: BlockId,
    index: usize,
) -> Option<&'c Operand<'c>>
    ensures { option_copied result ≡ phi_read code.now place to.index index }
{
    match code.source(place.func, place.block) {
        Some(left) => match code.source(place.func, to) {
            Some(target) => phi_operand(target, left.label.bytes(), index),
            None => None,
        },
        None => None,
    }
}

impl<'c, A: Allocator + Copy> Shadow<'c, A> {
    /// What an operand at a place is made of where a class is wanted.
    #[inline(always)]
    pub(crate) fn origin_of(
        &self,
        code: &Code<'c, A>,
        place: Place,
        reading: Reading,
        class: Class,
        operand: NumberedOperand,
    ) -> Origin
        ensures { (a : Operand) → IsOf code.now self.now.names self.now.calls.objects.starts self.now.data_end → HasSlots code.now place.func.index self.now.calls.calls → IsRead code.now place reading a operand
            → result ≡ operand_origin code.now (innermost code.now place.func.index self.now.calls.calls) class a }
    {
        match operand {
            NumberedOperand::Slot(slot) => self.calls.origin(slot).in_class(class),
            NumberedOperand::Constant(value) => {
                if value < LEAST_ADDRESS {
                    Origin::Number
                } else {
                    self.constant_origin(code, place, reading, class, value)
                }
            }
        }
    }

    /// Whether an operand is surely a number: a constant that can't be an address, or a temporary that is made of none.
    #[inline(always)]
    pub(crate) fn is_number(&self, operand: NumberedOperand) -> bool
        ensures { result ≡ is_sure self.now.calls.calls operand }
    {
        match operand {
            NumberedOperand::Slot(slot) => self.calls.origin(slot).is_number(),
            NumberedOperand::Constant(value) => value < LEAST_ADDRESS,
        }
    }

    /// What a constant is made of that can be an address.
    #[inline(never)]
    fn constant_origin(
        &self,
        code: &Code<'c, A>,
        place: Place,
        reading: Reading,
        class: Class,
        value: u64,
    ) -> Origin
        ensures { (a : Operand) → IsOf code.now self.now.names self.now.calls.objects.starts self.now.data_end → read_at code.now place reading ≡ Some a → HasValue code.now a value
            → result ≡ operand_origin code.now none_set class a }
    {
        match code.source(place.func, place.block) {
            Some(block) => match operand_at(block, place.index, reading) {
                Some(operand) => self.written_origin(operand, class, value),
                None => Origin::Number,
            },
            None => Origin::Number,
        }
    }

    /// What a phi gets of an edge, of which it is the one of that number.
    #[inline(always)]
    pub(crate) fn phi_origin(
        &self,
        code: &Code<'c, A>,
        place: Place,
        to: BlockId,
        index: usize,
        phi: &PhiMove,
    ) -> Origin
        ensures { (a : Operand) → IsOf code.now self.now.names self.now.calls.objects.starts self.now.data_end → HasSlots code.now place.func.index self.now.calls.calls → phi_read code.now place to.index index ≡ Some a
            → IsFor code.now (names_of code.now place.func.index) a phi.now.source → result ≡ operand_origin code.now (innermost code.now place.func.index self.now.calls.calls) phi.now.class a }
    {
        match phi.source {
            NumberedOperand::Slot(slot) => self.calls.origin(slot).in_class(phi.class),
            NumberedOperand::Constant(value) => {
                if value < LEAST_ADDRESS {
                    Origin::Number
                } else {
                    self.constant_phi(code, place, to, index, phi.class, value)
                }
            }
        }
    }

    /// What a constant is made of that can be an address, and that a phi takes.
    #[inline(never)]
    fn constant_phi(
        &self,
        code: &Code<'c, A>,
        place: Place,
        to: BlockId,
        index: usize,
        class: Class,
        value: u64,
    ) -> Origin
        ensures { (a : Operand) → IsOf code.now self.now.names self.now.calls.objects.starts self.now.data_end → phi_read code.now place to.index index ≡ Some a → HasValue code.now a value
            → result ≡ operand_origin code.now none_set class a }
    {
        match phi_written(code, place, to, index) {
            Some(operand) => self.written_origin(operand, class, value),
            None => Origin::Number,
        }
    }

    /// What a written constant of a value is made of: the address of a name, or a number.
    fn written_origin(&self, written: &Operand<'_>, class: Class, value: u64) -> Origin
        ensures { AreStarts self.now.names self.now.calls.objects.starts → HasValue self.now.names written.now value → result ≡ operand_origin self.now.names none_set class written.now }
    {
        match written {
            Operand::Global(name) => {
                Origin::Address(self.object_of(name.bytes(), value)).in_class(class)
            }
            Operand::Number(_) | Operand::Temp(_) => Origin::Number,
        }
    }

    /// The object of a name that has an address.
    fn object_of(&self, name: &[u8], address: u64) -> ObjectId
        ensures { AreStarts self.now.names self.now.calls.objects.starts → address_of self.now.names name.now ≡ Some address → result ≡ object_named self.now.names name.now }
    {
        match self.calls.data_at(address) {
            Some(object) => object,
            None => self.names.object(name),
        }
    }
}
