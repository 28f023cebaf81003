//! What a script declares.

/// The constants for terms, the relations of a version, or the constants for definitions.
#[derive(Clone, Copy, Debug, PartialEq, Eq)]
pub enum Kind {
    Term,
    Version,
    Definition,
}
