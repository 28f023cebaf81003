//! Path conditions over terms.
#![tactic(auto)]

pub mod admit;
mod ask;
pub mod bindings;
mod context;
pub mod count;
pub mod counted;
mod encode;
pub mod kinds;
pub mod laws;
pub mod limits;
mod loops;
mod numbers;
pub mod over_terms;
mod passed;
pub mod scope;
mod steps;
pub mod symbolic;
pub mod walk;
mod walker;
