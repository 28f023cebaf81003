//! Clause learning: a search over ground clauses beside a theory.
#![tactic(auto)]

pub mod clause_search;
mod marks;
pub mod measure;
mod needed;
mod occurrences;
mod propagation;
mod reasons;
pub mod search;
mod status;
pub mod theory;
pub mod trail;
