//! Questions whether one boolean combination of assertions implies another.
#![tactic(auto)]

pub mod admit;
pub mod answer;
mod formula;
pub mod ground;
pub mod laws;
mod occurrences;
pub mod terms;
