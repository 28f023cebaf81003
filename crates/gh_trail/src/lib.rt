//! What a search for the truth of ground clauses goes along: numbers of atoms and literals, the trail, clauses with two
//! watched literals each, the order of decisions, and equality and congruence over the trail; what follows by units,
//! and the clause that is learnt from a conflict.
//!
//! It serves a search whose finds are checked (gh_seek). So nothing is promised of what a propagation or a lesson comes
//! to, and no function here has a contract beyond being safe: all that a fault could cost is time.
#![tactic(auto)]

pub mod classes;
pub mod clauses;
pub mod lesson;
pub mod order;
pub mod propagator;
pub mod shape;
pub mod table;
pub mod trail;
pub mod watching;
pub mod words;
