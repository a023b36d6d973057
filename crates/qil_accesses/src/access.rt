//! An access of memory.

/// What is done to bytes of memory.
#[derive(Clone, Copy, PartialEq, Eq)]
pub enum Action {
    Read,
    Write,
}

/// An access: of so many bytes from an address on, by the move from a position.
#[derive(Clone, Copy)]
pub struct Access {
    pub action: Action,
    pub position: u64,
    pub address: u64,
    pub count: u64,
}
