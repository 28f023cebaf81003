//! Concrete runs: state files, and what the run of a procedure from a state comes to.
#![tactic(auto)]

mod free;
pub mod laws;
mod lines;
mod rule;
pub mod simulate;
pub mod state_file;
