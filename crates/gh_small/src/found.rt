//! What is found of a condition that isn't valid.

use gh_log::lines::Section;
use gh_trace::state::Trace;

/// A counterexample, how many cells its first heap has, and where it has one, the section that shows that
/// none has fewer.
#[derive(Debug, Drop)]
pub struct Smallest {
    pub trace: Trace,
    pub cells: u32,
    pub section: Option<Section>,
}
