//! The arguments of a call: what they give, and whether they have the shape of what is called. Nothing changes here, and
//! nothing takes memory.

ghost use Rattle.std.specs.Prelude.{◌≡◌, List, length, map, option_map};
ghost use Rattle.std.specs.List.{All};
ghost use Rattle.qil_tree.specs.declared.tree.Program.{Program};
ghost use Rattle.qil_rules.specs.Operands.{argument_read};
ghost use Rattle.qil_semantics.specs.State.{Name};
ghost use Rattle.qil_semantics.specs.Slots.{temps_of};
ghost use Rattle.qil_semantics.specs.Values.{vals};
ghost use Rattle.qil_semantics.specs.Calls.{agree, agree_all, gives, is_in_shape as has_shape};
ghost use Rattle.qil_code.specs.Named.{named_argument, named_receiver};
ghost use Rattle.qil_code.specs.Ranges.{InRange};
ghost use Rattle.qil_state.specs.Values.{AreSlots, unset_in, held_or_zero, argument_value, argument_values, reported_with, shape_by};

use crate::status::Fault;
use qil_code::{NumberedArgument, NumberedOperand, Receiver, Slot};
use qil_ops::unary;
use qil_tree::{AbiType, UnaryOp};
use std::alloc::Allocator;

/// What an operand holds; of an unset slot 0.
#[inline(always)]
fn held(slots: &[Option<u64>], source: NumberedOperand) -> u64
    requires { InRange (length slots.now) source }
    ensures { result ≡ held_or_zero slots.now source }
{
    match source {
        NumberedOperand::Constant(v) => v,
        NumberedOperand::Slot(slot) => slots[usize::from(slot.index)].unwrap_or(0),
    }
}

/// One of the values of `check_arguments`.
#[inline(always)]
pub fn argument(slots: &[Option<u64>], written: &NumberedArgument) -> u64
    requires { InRange (length slots.now) written.now.source }
    ensures { result ≡ argument_value slots.now written.now }
{
    unary(
        UnaryOp::Copy,
        written.abi_type.class(),
        held(slots, written.source),
    )
}

/// The slot of an operand, if it is unset.
#[inline(always)]
fn unset_slot(slots: &[Option<u64>], source: NumberedOperand) -> Option<Slot>
    requires { InRange (length slots.now) source }
    ensures { result ≡ unset_in slots.now source }
{
    match source {
        NumberedOperand::Constant(_) => None,
        NumberedOperand::Slot(slot) => match slots[usize::from(slot.index)] {
            Some(_) => None,
            None => Some(slot),
        },
    }
}

/// Whether all arguments have values, which `argument` then gives. The type parameter is the allocator of the programs
/// that the clause speaks of.
///
/// # Errors
///
/// The first from the left that is an unset slot.
#[inline(always)]
pub fn check_arguments<A: Allocator>(
    slots: &[Option<u64>],
    args: &[NumberedArgument],
) -> Result<(), Fault>
    requires { All (λ a. InRange (length slots.now) a.source) args.now }
    ensures { (p : Program A) (ns : List Name) → AreSlots ns slots.now
        → reported_with (argument_values slots.now args.now) ns result ≡ vals p (temps_of ns slots.now) (map argument_read (map (named_argument ns) args.now)) }
{
    for one in args {
        if let Some(slot) = unset_slot(slots, one.source) {
            return Err(Fault::Unset(slot));
        }
    }
    Ok(())
}

/// Types agree where their classes do.
#[inline(always)]
fn agrees(left: AbiType, right: AbiType) -> bool
    ensures { result ≡ agree left right }
{
    left.class() == right.class()
}

#[inline(always)]
fn all_agree(params: &[(Slot, AbiType)], args: &[NumberedArgument]) -> bool
    ensures { result ≡ agree_all (map (λ a. a.abi_type) args.now) (map (λ q. q.1) params.now) }
{
    if params.len() != args.len() {
        return false;
    }
    for (i, one) in args.iter().enumerate() {
        if !agrees(one.abi_type, params[i].1) {
            return false;
        }
    }
    true
}

#[inline(always)]
fn is_given(to: Option<Receiver>, returns: Option<AbiType>) -> bool
    ensures { (ns : List Name) → result ≡ gives (option_map (named_receiver ns) to) returns }
{
    match to {
        None => true,
        Some(receiver) => match returns {
            None => false,
            Some(given) => agrees(receiver.abi_type, given),
        },
    }
}

/// Whether there are as many arguments as parameters, each of a type that agrees, and what is named for the result is
/// given, with a type that agrees.
#[inline(always)]
pub fn is_in_shape(
    params: &[(Slot, AbiType)],
    returns: Option<AbiType>,
    to: Option<Receiver>,
    args: &[NumberedArgument],
) -> bool
    ensures { (ns : List Name) → result ≡ has_shape (shape_by params.now returns) (option_map (named_receiver ns) to) (map (named_argument ns) args.now) }
{
    all_agree(params, args) && is_given(to, returns)
}
