//! What the companion `lens` tells of a program: all conditions with what is found of them, and what a
//! drawing shows.
#![tactic(auto)]

pub mod changes;
mod copies;
pub mod exchange;
pub mod front;
pub mod handed;
pub mod judged;
pub mod lines;
pub mod misses;
pub mod overview;
pub mod progress;
pub mod remarks;
pub mod statement;
pub mod story;
pub mod taking;
