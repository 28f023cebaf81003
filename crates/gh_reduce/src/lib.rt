//! The ground clauses of a condition over terms.
#![tactic(auto)]

pub mod clauses;
pub mod ground;
pub mod laws;
mod parts;
pub mod rows;
pub mod statements;
