//! The top call: a request, its answer, and the text that is written.
#![tactic(auto)]

mod check;
mod entail;
mod file;
mod front;
pub mod laws;
mod lines;
mod log;
mod paths;
mod recheck;
pub mod refusal;
mod replay;
mod report;
pub mod rule;
pub mod run;
mod session;
mod simulate;
mod smallest;
mod smt;
mod source;
pub mod status;
pub mod steady;
pub mod stress;
mod verdict;
pub mod words;
