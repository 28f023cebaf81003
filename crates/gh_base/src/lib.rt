//! What every other crate stands on: places in a text, names, texts, the outside, and ground clauses.
#![tactic(auto)]

pub mod assignment;
pub mod atom;
pub mod calls;
pub mod clause;
mod files;
pub mod ground;
pub mod memory;
pub mod name;
pub mod outside;
pub mod place;
pub mod propagation;
pub mod reading;
pub mod sink;
pub mod sizes;
pub mod steady_inputs;
pub mod steady_sink;
pub mod structure;
pub mod term;
pub mod text;
pub mod writing;
