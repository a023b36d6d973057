//! What a call may go to.

/// A function of the program: its number among the functions of the text, from 0. A text has at most 1,000.
#[derive(Clone, Copy, PartialEq, Eq)]
pub struct FuncId {
    pub index: u16,
}

/// The function that lies at an address.
#[derive(Clone, Copy)]
pub enum Callee {
    Defined(FuncId),
    PutChar,
    Puts,
    Exit,
}
