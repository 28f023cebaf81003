//! Tests of what the solver answers: instances, sections and texts of logs, ground clauses.
#![tactic(auto)]

#[cfg(test)]
mod check_tests;
#[cfg(test)]
mod instance_tests;
#[cfg(test)]
mod log_text_tests;
#[cfg(test)]
mod section_tests;
#[cfg(test)]
mod solve_tests;
