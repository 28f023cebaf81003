//! Pictures of states: the text of one SVG element, with a row for each state.
#![tactic(auto)]

pub mod laws;
mod layout;
pub mod picture;
mod rows;
pub mod scene;
mod shapes;
pub mod tree;
mod writing;
