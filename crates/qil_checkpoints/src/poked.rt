//! Pokes, kept so that they can be made again.

use qil_code::Slot;

/// A poke, by what it does to the state that it is made at.
#[derive(Clone, Copy)]
pub enum KeptPoke {
    /// A slot of the innermost frame, and the value.
    Slot(Slot, u64),
    /// An address, how many bytes, and their number.
    Bytes(u64, u64, u64),
}

/// A poke that was made, and the position that it was made at.
#[derive(Clone, Copy)]
pub struct Poked {
    pub position: u64,
    pub poke: KeptPoke,
}
