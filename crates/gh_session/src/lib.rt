//! Sessions: essences of conditions, what is kept of them, and session files.
#![tactic(auto)]

mod bare;
pub mod compare;
pub mod edits;
pub mod error;
pub mod essence;
mod filing;
mod fingerprint;
pub mod kept;
pub mod laws;
mod lines;
mod numbers;
pub mod reading;
pub mod same;
mod separator;
pub mod session;
