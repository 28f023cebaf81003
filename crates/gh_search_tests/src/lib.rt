//! Tests of what the solver searches with: classes of terms, and the search for an assignment.
#![tactic(auto)]

#[cfg(test)]
mod apart;
#[cfg(test)]
mod congruence_tests;
#[cfg(test)]
mod lessons;
#[cfg(test)]
mod outcomes;
#[cfg(test)]
mod problems;
#[cfg(test)]
mod search_tests;
#[cfg(test)]
mod turns;
