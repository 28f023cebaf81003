//! Bodies as graphs, their paths, and the conditions of a program.
#![tactic(auto)]

mod ahead;
pub mod assigned;
pub mod condition;
pub mod conditions;
mod copies;
mod counts;
pub mod laws;
mod limits;
pub mod listing;
pub mod loops;
mod lower;
mod lower_body;
mod lowering;
pub mod node;
pub mod route;
pub mod starts;
pub mod walk;
