//! The first refuted condition of a program.

use crate::state::Trace;

/// The number of the first condition that isn't valid, and a counterexample of it.
#[derive(Debug, Drop)]
pub struct Refutation {
    pub number: u32,
    pub trace: Trace,
}
