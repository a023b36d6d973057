//! The form of a program: whether each temporary has one definition.

use qil_tree::Name;

/// Whether each temporary of a program has one definition.
#[derive(Drop)]
pub enum Form<'a> {
    Single,
    /// The first function of the text in which a temporary has several, and of its temporaries the one whose second
    /// definition comes first.
    Multiple { func: Name<'a>, temp: Name<'a> },
}
