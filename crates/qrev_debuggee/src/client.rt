//! What an editor said of itself.

use qrev_views::Numbering;

/// What an editor said of itself with its first request.
#[derive(Clone, Copy)]
pub struct Client {
    pub numbering: Numbering,
    /// Whether it understands types of variables.
    pub has_types: bool,
    /// Whether it understands references to memory.
    pub has_references: bool,
    /// Whether it asks for its watches anew wherever the run stands, so that one that moves would move again and again.
    pub repeats_watches: bool,
}

impl Client {
    /// One that said nothing.
    pub fn unknown() -> Self {
        Client {
            numbering: Numbering {
                first_line: 1,
                first_column: 1,
            },
            has_types: false,
            has_references: false,
            repeats_watches: false,
        }
    }
}
