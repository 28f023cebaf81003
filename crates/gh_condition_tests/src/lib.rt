//! Tests of conditions: their order, the conditions over terms, the ground clauses.
#![tactic(auto)]

#[cfg(test)]
mod encoded;
#[cfg(test)]
mod ground_tests;
#[cfg(test)]
mod symbolic_tests;
#[cfg(test)]
mod walk_tests;
