//! What an expression is worth.

/// The class whose bits a number has, or none for one that was written or worked out.
#[derive(Clone, Copy, PartialEq, Eq)]
pub enum Sized {
    Unsized,
    Word,
    Long,
}

/// The width at which memory is read.
#[derive(Clone, Copy, PartialEq, Eq)]
pub enum Memory {
    Byte,
    Half,
    Word,
    Long,
    Single,
    Double,
}

/// Why there is no value.
#[derive(Clone, Copy, PartialEq, Eq)]
pub enum Missing {
    Unset,
    NoSuchName,
    NoFrame,
    Dead,
    ZeroDivisor,
    Shift,
    TooLarge,
    OfFloats,
    NotWhole,
}

/// What an expression is worth in a state. A part without a value in this state leaves the whole without one, unless `&&` or `
///
/// ` doesn't look at it.
#[derive(Clone, Copy)]
pub enum Value {
    Number(i128, Sized),
    Single(f32),
    /// A double, or a float that was written.
    Double(f64),
    Written(f64),
    Missing(Missing),
}

/// The number that the low bits of a value are, with their sign: 8, 16 or 32 of them, or all.
pub fn signed(bits: u64, width: u32) -> i128 {
    match width {
        8 => i128::from(((bits % 0x100) as u8).cast_signed()),
        16 => i128::from(((bits % 0x1_0000) as u16).cast_signed()),
        32 => i128::from(((bits % 0x1_0000_0000) as u32).cast_signed()),
        _ => i128::from(bits.cast_signed()),
    }
}
