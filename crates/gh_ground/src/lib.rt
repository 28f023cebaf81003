//! The solver of ground clauses: a model, or a section of a proof log.
#![tactic(auto)]

mod checked;
mod classes;
pub mod congruence;
mod definitions;
pub mod laws;
mod proposal;
pub mod solve;
mod solver;
mod structures;
mod trim;
