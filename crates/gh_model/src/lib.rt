//! From traces to structures, and back.
#![tactic(auto)]

pub mod build;
pub mod laws;
