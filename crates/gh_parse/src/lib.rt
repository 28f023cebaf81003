//! The parser: from the bytes of a text to its syntax tree.
#![tactic(auto)]

mod assertions;
mod calls;
mod claims;
mod conditions;
mod cursor;
pub mod error;
mod lexer;
pub mod parse;
mod procedures;
mod programs;
mod questions;
mod scan;
mod statements;
mod token;
mod values;
