//! Counterexamples with the fewest cells in the first heap.
#![tactic(auto)]

pub mod bounding;
pub mod descent;
pub mod found;
pub mod laws;
pub mod smallest;
