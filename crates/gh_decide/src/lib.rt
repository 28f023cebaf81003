//! What is decided of conditions and of programs, and why valid conditions make good programs.
#![tactic(auto)]

pub mod decide;
pub mod direct;
pub mod laws;
pub mod outcome;
pub mod refuted;
