//! Tests of what stands on the language alone: texts, types, the meaning of assertions, inputs and sinks, lists of terms.
#![tactic(auto)]

#[cfg(test)]
mod answer;
#[cfg(test)]
mod meaning_tests;
#[cfg(test)]
mod outside_tests;
#[cfg(test)]
mod parse_tests;
#[cfg(test)]
mod program;
#[cfg(test)]
mod question_tests;
#[cfg(test)]
mod terms_tests;
#[cfg(test)]
mod types_tests;
