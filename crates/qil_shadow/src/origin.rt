//! What a value and a byte of memory are made of.

/// An object: its number among all that there were, in the order in which they were made.
#[derive(Clone, Copy, PartialEq, Eq)]
pub struct ObjectId {
    pub index: u32,
}

/// What a value is made of.
#[derive(Clone, Copy, PartialEq, Eq)]
pub enum Origin {
    /// No address went into it.
    Number,
    /// The address of an object, plus and minus numbers.
    Address(ObjectId),
    /// The bytes of an address of an object from one on.
    Part(ObjectId, u8),
    /// An address of which 32 bits or a part were taken.
    Cut,
    /// Any other value that an address went into.
    Mixed,
}

/// What a byte of memory is made of.
#[derive(Clone, Copy, PartialEq, Eq)]
pub enum ByteOrigin {
    Number,
    /// The byte of that place of an address of an object.
    Part(ObjectId, u8),
    /// The byte of that place of an address that was cut, and stored as a long word.
    CutPart(u8),
    Cut,
    Mixed,
}
