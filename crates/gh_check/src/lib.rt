//! A checker of proof logs: whether each line of a section is of its kind, and the last one's clause is empty.
#![tactic(auto)]

pub mod check;
mod clauses;
mod distinct;
pub mod fault;
mod hints;
pub mod laws;
mod lines;
mod positions;
mod root_units;
mod search;
mod units;
