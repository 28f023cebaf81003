//! What a session keeps.

use crate::essence::Essence;
use gh_trace::state::Trace;

/// An essence with a counterexample, if it has one.
#[derive(Debug, Drop)]
pub struct Kept {
    pub essence: Essence,
    pub answer: Option<Trace>,
}
