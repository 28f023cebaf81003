//! Proof logs: sections of lines that end in the empty clause, and their text.
#![tactic(auto)]

pub mod cursor;
pub mod error;
pub mod laws;
pub mod lines;
mod literals;
pub mod reading;
pub mod writing;
