//! The axiom rows and their instances.
#![tactic(auto)]

pub mod collecting;
pub mod instances;
pub mod laws;
pub mod naming;
pub mod schema;
mod search;
mod table;
mod tuples;
pub mod violation;
mod words;
