//! What the steps of a path do, counterexamples, and valid conditions.
#![tactic(auto)]

mod checks;
pub mod decider;
mod heaps;
pub mod laws;
pub mod parts;
pub mod refutation;
pub mod replay;
pub mod setting;
pub mod state;
mod steps;
pub mod stores;
mod targets;
