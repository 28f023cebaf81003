//! Descriptions of conditions, and drawings of traces.
#![tactic(auto)]

pub mod cursor;
pub mod describe;
pub mod drawing;
pub mod laws;
pub mod reading;
