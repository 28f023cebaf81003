//! A search for what decides ground clauses. Nothing is promised of what it finds: whoever uses it checks that, so no
//! function here has a contract beyond being safe, and all that a fault could cost is time.
//!
//! It is clause learning with two watched literals beside equality and congruence, along the trail of gh_trail.
//! Instances of the axiom rows are added as soon as the trail makes them unit or false, over least terms of classes
//! alone, and unless they would only make an atom false that stands in no clause. Where that takes long, lemmas are
//! looked for first, version by version: which terms stand on which segments in one version just as in the one before,
//! and that segments are apart; where many lists wait for late calls, over all versions that a list waits. What was
//! found so is carried over to the next condition that is over as many terms.
#![tactic(auto)]

mod candidates;
mod early;
pub mod known;
mod lemmas;
mod load;
mod rows;
mod search;
mod section;
pub mod seek;
mod spans;
mod spoken;
mod structure;
