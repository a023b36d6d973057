//! What is compared: two texts, and what is run of both.

use qil_compare::Kinds;

/// One of the two sides.
#[derive(Clone, Copy)]
pub enum SideName {
    Good,
    Bad,
}

/// A text, and the name of its file, as it was given.
#[derive(Clone, Copy)]
pub struct Text<'t> {
    pub name: &'t [u8],
    pub bytes: &'t [u8],
}

/// What is run of two texts, how far, and what is compared.
#[derive(Clone, Copy)]
pub struct Request<'r> {
    /// The name of the function that is run, without its sigil.
    pub func: &'r [u8],
    pub args: &'r [u64],
    pub kinds: Kinds,
    /// The most moves between two events, and of one `continue` or `reverse`.
    pub limit: u64,
    /// The most moves that the session can undo, if there is a bound. Without one it goes back by copies of states.
    pub bound: Option<u64>,
    /// The side on which a script is served, if there is one.
    pub session: Option<SideName>,
}
