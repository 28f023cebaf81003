//! Questions: whether one boolean combination of assertions implies another.

use crate::{Assertion, Occ};
use gh_base::place::Span;

/// A boolean combination of assertions, each of which is judged on the whole heap.
#[derive(Debug, Drop)]
pub enum Claim {
    Leaf(Assertion),
    Not(Box<Claim>),
    And(Vec<Claim>),
    Or(Vec<Claim>),
}

/// Whether the right claim holds wherever the left one does. The span is the place of the word
/// `requires`.
#[derive(Debug, Drop)]
pub struct Question {
    pub variables: Vec<Occ>,
    pub span: Span,
    pub left: Claim,
    pub right: Claim,
}
