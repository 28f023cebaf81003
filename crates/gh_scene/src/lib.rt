//! From a drawing to its picture: a row for each state of a counterexample.
#![tactic(auto)]

mod notes;
pub mod pictured;
pub mod roles;
mod rows;
pub mod sketch;
pub mod sought;
mod spare;
