//! Runs of programs, and which programs are good.
#![tactic(auto)]

pub mod config;
pub mod laws;
mod rest;
pub mod step;
mod stores;
