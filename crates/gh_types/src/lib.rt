//! The type check of a program, and the limits on its text.
#![tactic(auto)]

mod body;
pub mod check;
pub mod counts;
pub mod fault;
mod fields;
mod limits;
pub mod names;
mod occurrences;
mod procedures;
mod scope;
