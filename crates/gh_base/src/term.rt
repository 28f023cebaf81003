//! What the terms of a condition are made for.

use crate::atom::Term;

/// What a term was made for: null; the value with this number, of a variable or of a cell; the
/// content of the cell at `of` in a version of the heap, or `of` itself where it isn't allocated.
#[derive(Clone, Copy, Debug, PartialEq, Eq, Hash)]
pub enum TermKind {
    Null,
    Value { number: u16 },
    Next { version: u8, of: Term },
}
