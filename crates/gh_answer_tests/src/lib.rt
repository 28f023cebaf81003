//! Tests of the top call over files in memory: worked programs, their reports, logs and drawings.
#![tactic(auto)]

#[cfg(test)]
mod alternative_tests;
#[cfg(test)]
mod answers;
#[cfg(test)]
mod check_tests;
#[cfg(test)]
mod drawing_tests;
#[cfg(test)]
mod entail_tests;
#[cfg(test)]
mod fault_tests;
#[cfg(test)]
mod limit_tests;
#[cfg(test)]
mod log_tests;
#[cfg(test)]
mod paths_tests;
#[cfg(test)]
mod refusal_tests;
#[cfg(test)]
mod run_tests;
#[cfg(test)]
mod session_tests;
#[cfg(test)]
mod simulate_tests;
#[cfg(test)]
mod smallest_tests;
#[cfg(test)]
mod smt_tests;
#[cfg(test)]
mod stress_tests;
#[cfg(test)]
mod verdict_tests;
