//! What instructions say of classes and widths.

ghost use Rattle.std.specs.Prelude.{◌≡◌, ◌≤◌, ◌<◌};
ghost use Rattle.qil_rules.specs.Occurrences.{returned_class};
ghost use Rattle.qil_rules.specs.Operands.{stored_class};
ghost use Rattle.qil_layout.specs.Layout.{width_bytes};
ghost use Rattle.qil_memory.specs.Calls.{IsWidth, IsAlignment};
ghost use Rattle.qil_semantics.specs.Step.{alignment};

use qil_tree::{AbiType, AllocOp, Class, Width};

/// The class in which a number to store is read.
#[inline(always)]
pub fn class_stored(width: Width) -> Class
    ensures { result ≡ stored_class width }
{
    match width {
        Width::L => Class::L,
        Width::B | Width::H | Width::W => Class::W,
    }
}

/// How many bytes a store writes.
#[inline(always)]
pub fn byte_count(width: Width) -> u64
    ensures value { result ≡ width_bytes width }
    ensures width { IsWidth result }
    ensures some { 0 < result }
    ensures few { result ≤ 8 }
{
    match width {
        Width::B => 1,
        Width::H => 2,
        Width::W => 4,
        Width::L => 8,
    }
}

/// The multiple to which the top is rounded up.
#[inline(always)]
pub fn alignment(op: AllocOp) -> u64
    ensures value { result ≡ alignment op }
    ensures align { IsAlignment result }
    ensures some { 0 < result }
    ensures few { result ≤ 16 }
{
    match op {
        AllocOp::Four => 4,
        AllocOp::Eight => 8,
        AllocOp::Sixteen => 16,
    }
}

/// The class in which a returned value is read.
#[inline(always)]
pub fn class_returned(returns: Option<AbiType>) -> Class
    ensures { result ≡ returned_class returns }
{
    match returns {
        Some(abi_type) => abi_type.class(),
        None => Class::W,
    }
}
