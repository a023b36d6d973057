//! What operations give, by what their operands are made of.

ghost use Rattle.std.specs.Prelude.{◌≡◌};
ghost use Rattle.qil_shadow.specs.Origins.{low_word, in_class, plain, is_number, is_cut, same_object, sum, distance, difference, middle, address_under, under, masked, shifted_left, blended, long_origin, low_distance, word_origin, cancels, uncancelled, binary_origin, negated, unary_origin, extended_origin};

use crate::origin::{ObjectId, Origin};
use qil_tree::{BinaryOp, Class, Extension, UnaryOp};

/// The bits 32 to 47 of a mask that keeps an address.
const ALL_MIDDLE_BITS: u64 = 65_535;

impl ObjectId {
    #[inline(always)]
    pub fn is(self, other: ObjectId) -> bool
        ensures { result ≡ same_object self other }
    {
        self.index == other.index
    }
}

impl Origin {
    /// What the low 32 bits of a value are made of.
    #[inline(always)]
    pub fn low_word(self) -> Origin
        ensures { result ≡ low_word self }
    {
        match self {
            Origin::Number => Origin::Number,
            Origin::Address(object) => Origin::Part(object, 0),
            Origin::Part(object, first) => Origin::Part(object, first),
            Origin::Cut | Origin::Mixed => Origin::Cut,
        }
    }

    /// A value where one of a class is wanted.
    #[inline(always)]
    pub fn in_class(self, class: Class) -> Origin
        ensures { result ≡ in_class class self }
    {
        match class {
            Class::W => self.low_word(),
            Class::L => self,
        }
    }

    /// The value in arithmetic, where a part of an address is one that was cut.
    #[inline(always)]
    fn plain(self) -> Origin
        ensures { result ≡ plain self }
    {
        match self {
            Origin::Number => Origin::Number,
            Origin::Address(object) => Origin::Address(object),
            Origin::Part(_, _) | Origin::Cut => Origin::Cut,
            Origin::Mixed => Origin::Mixed,
        }
    }

    #[inline(always)]
    pub fn is_number(self) -> bool
        ensures { result ≡ is_number self }
    {
        match self {
            Origin::Number => true,
            Origin::Address(_) | Origin::Part(_, _) | Origin::Cut | Origin::Mixed => false,
        }
    }

    #[inline(always)]
    fn is_cut(self) -> bool
        ensures { result ≡ is_cut self }
    {
        match self {
            Origin::Part(_, _) | Origin::Cut => true,
            Origin::Number | Origin::Address(_) | Origin::Mixed => false,
        }
    }
}

/// A sum of class `l`.
fn sum(left: Origin, right: Origin) -> Origin
    ensures { result ≡ sum left right }
{
    if left.is_number() {
        right.plain()
    } else if right.is_number() {
        left.plain()
    } else {
        Origin::Mixed
    }
}

/// The distance of two addresses.
fn distance(left: Origin, right: Origin) -> Origin
    ensures { result ≡ distance left right }
{
    match left {
        Origin::Address(object) => match right {
            Origin::Address(other) => {
                if object.is(other) {
                    Origin::Number
                } else {
                    Origin::Mixed
                }
            }
            _ => Origin::Mixed,
        },
        _ => Origin::Mixed,
    }
}

fn difference(left: Origin, right: Origin) -> Origin
    ensures { result ≡ difference left right }
{
    if right.is_number() {
        left.plain()
    } else {
        distance(left, right)
    }
}

/// The bits 32 to 47 of a mask.
fn middle(mask: u64) -> u64
    ensures { result ≡ middle mask }
{
    mask / 4_294_967_296 % 65_536
}

/// What a mask leaves of an address, by those bits.
fn address_under(object: ObjectId, bits: u64) -> Origin
    ensures { result ≡ address_under object bits }
{
    if bits == ALL_MIDDLE_BITS {
        Origin::Address(object)
    } else if bits == 0 {
        Origin::Cut
    } else {
        Origin::Mixed
    }
}

/// What a mask leaves of a value.
fn under(mask: u64, origin: Origin) -> Origin
    ensures { result ≡ under mask origin }
{
    match origin {
        Origin::Number => Origin::Number,
        Origin::Address(object) => address_under(object, middle(mask)),
        Origin::Part(_, _) | Origin::Cut => Origin::Cut,
        Origin::Mixed => Origin::Mixed,
    }
}

/// What an `and` gives of two values.
fn masked(left: Origin, left_value: u64, right: Origin, right_value: u64) -> Origin
    ensures { result ≡ masked left left_value right right_value }
{
    if left.is_number() {
        under(left_value, right)
    } else if right.is_number() {
        under(right_value, left)
    } else {
        Origin::Mixed
    }
}

fn shifted_left(left: Origin, right: Origin) -> Origin
    ensures { result ≡ shifted_left left right }
{
    if left.is_number() && right.is_number() {
        Origin::Number
    } else {
        Origin::Mixed
    }
}

/// What numbers and cut addresses give.
fn blended(left: Origin, right: Origin) -> Origin
    ensures { result ≡ blended left right }
{
    if left.is_number() && right.is_number() {
        Origin::Number
    } else if (left.is_number() || left.is_cut()) && (right.is_number() || right.is_cut()) {
        Origin::Cut
    } else {
        Origin::Mixed
    }
}

/// What an operation of class `l` gives of two values.
fn long_origin(
    op: BinaryOp,
    left: Origin,
    left_value: u64,
    right: Origin,
    right_value: u64,
) -> Origin
    ensures { result ≡ long_origin op left left_value right right_value }
{
    match op {
        BinaryOp::Add | BinaryOp::Or | BinaryOp::Xor => sum(left, right),
        BinaryOp::Sub => difference(left, right),
        BinaryOp::And => masked(left, left_value, right, right_value),
        BinaryOp::Shl => shifted_left(left, right),
        BinaryOp::Mul
        | BinaryOp::Div
        | BinaryOp::Rem
        | BinaryOp::Udiv
        | BinaryOp::Urem
        | BinaryOp::Sar
        | BinaryOp::Shr => blended(left, right),
    }
}

/// The distance of two addresses, by their low words.
fn low_distance(left: Origin, right: Origin) -> Origin
    ensures { result ≡ low_distance left right }
{
    match left {
        Origin::Part(object, first) => match right {
            Origin::Part(other, second) => {
                if object.is(other) && first == 0 && second == 0 {
                    Origin::Number
                } else {
                    Origin::Cut
                }
            }
            _ => Origin::Cut,
        },
        _ => Origin::Cut,
    }
}

/// What an operation of class `w` gives of two values.
fn word_origin(op: BinaryOp, left: Origin, right: Origin) -> Origin
    ensures { result ≡ word_origin op left right }
{
    if left.is_number() && right.is_number() {
        return Origin::Number;
    }
    match op {
        BinaryOp::Sub => low_distance(left, right),
        _ => Origin::Cut,
    }
}

/// Whether nothing is left of one temporary twice.
#[inline(always)]
fn cancels(op: BinaryOp) -> bool
    ensures { result ≡ cancels op }
{
    match op {
        BinaryOp::Sub | BinaryOp::Xor => true,
        _ => false,
    }
}

/// What an operation gives of two values.
fn uncancelled(
    op: BinaryOp,
    class: Class,
    left: Origin,
    left_value: u64,
    right: Origin,
    right_value: u64,
) -> Origin
    ensures { result ≡ uncancelled op class left left_value right right_value }
{
    match class {
        Class::W => word_origin(op, left, right),
        Class::L => long_origin(op, left, left_value, right, right_value),
    }
}

/// What an operation gives of two values, which may be those of one temporary.
#[inline(always)]
pub fn binary_origin(
    op: BinaryOp,
    class: Class,
    is_twice: bool,
    left: Origin,
    left_value: u64,
    right: Origin,
    right_value: u64,
) -> Origin
    ensures { result ≡ binary_origin op class is_twice left left_value right right_value }
{
    if is_twice && cancels(op) {
        return Origin::Number;
    }
    uncancelled(op, class, left, left_value, right, right_value)
}

fn negated(class: Class, origin: Origin) -> Origin
    ensures { result ≡ negated class origin }
{
    match class {
        Class::W => {
            if origin.is_number() {
                Origin::Number
            } else {
                Origin::Cut
            }
        }
        Class::L => blended(origin, Origin::Number),
    }
}

/// What an operation gives of one value.
#[inline(always)]
pub fn unary_origin(op: UnaryOp, class: Class, origin: Origin) -> Origin
    ensures { result ≡ unary_origin op class origin }
{
    match op {
        UnaryOp::Copy => origin,
        UnaryOp::Neg => negated(class, origin),
    }
}

/// What an extension gives of a word.
#[inline(always)]
pub fn extended_origin(op: Extension, origin: Origin) -> Origin
    ensures { result ≡ extended_origin op origin }
{
    match op {
        Extension::Sw | Extension::Uw => origin,
        Extension::Sh | Extension::Uh | Extension::Sb | Extension::Ub => {
            if origin.is_number() {
                Origin::Number
            } else {
                Origin::Cut
            }
        }
    }
}
