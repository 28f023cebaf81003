//! Places in a text.

/// A place in a text: a line and a column, both from 1. A column counts bytes, and a line ends
/// with a line feed.
#[derive(Clone, Copy, Debug, PartialEq, Eq)]
pub struct Span {
    pub line: u32,
    pub col: u32,
}
