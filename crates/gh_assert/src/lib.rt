//! What assertions mean of stores and heaps, walks in heaps, and ownership.
#![tactic(auto)]

pub mod heap;
pub mod laws;
pub mod meaning;
pub mod remaining;
pub mod store;
pub mod values;
