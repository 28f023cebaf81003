//! Congruence: what asserted literals say by equality and congruence alone.
#![tactic(auto)]

mod clash;
pub mod classes;
mod filing;
mod keys;
pub mod laws;
pub mod lemma;
mod moving;
mod partition;
mod refuting;
mod signatures;
mod uses;
