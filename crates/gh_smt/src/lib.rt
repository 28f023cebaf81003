//! Conditions as SMT-LIB scripts.
#![tactic(auto)]

pub mod error;
mod kind;
pub mod laws;
mod literals;
pub mod making;
pub mod reading;
pub mod script;
pub mod writing;
