//! Terms of conditions, what variables are bound to, and the ground formulas of assertions over terms.
#![tactic(auto)]

pub mod binding;
pub mod footprint;
pub mod formula;
pub mod laws;
pub mod terms;
pub mod tested;
