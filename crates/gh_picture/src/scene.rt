//! What a picture is made of: a title, and a row for each state.

use gh_base::text::Text;
use gh_trace::state::State;

/// How a cell stands to the step that led to its state.
#[derive(Clone, Copy, Debug, PartialEq, Eq)]
pub enum Role {
    /// It was there before, with the same content.
    Owned,
    /// It was set aside at a call or a loop, and stayed as it was.
    Framed,
    /// It is new, or has another content than before.
    Changed,
    /// It is beside what the check that fails asks for.
    Leaked,
}

/// How a variable stands to the step that led to its state.
#[derive(Clone, Copy, Debug, PartialEq, Eq)]
pub enum Change {
    /// It has the value that it had before.
    Same,
    /// It has another value than before.
    Changed,
}

/// A state with what stands above it.
///
/// `roles` has one for each cell, the places ascending; `changes` has one for each variable, in their
/// order. Cells past the last role are drawn as `Owned`, variables past the last change as `Same`, and
/// what is past the last cell or variable is passed over.
#[derive(Debug, Drop)]
pub struct Row {
    /// The statement that led to the state, or what else begins the row.
    pub statement: Text,
    /// More on the step, in words, in one line; it may be empty.
    pub note: Text,
    pub state: State,
    pub roles: Vec<Role>,
    pub changes: Vec<Change>,
}

/// The rows of a picture, from top to bottom.
#[derive(Debug, Drop)]
pub struct Scene {
    pub title: Text,
    pub rows: Vec<Row>,
}
