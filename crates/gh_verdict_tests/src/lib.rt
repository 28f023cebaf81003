//! Tests of runs and verdicts: the machine, traces, drawings, decisions, questions, scripts, sessions, pictures.
#![tactic(auto)]

#[cfg(test)]
mod decide_tests;
#[cfg(test)]
mod draw_tests;
#[cfg(test)]
mod entail_tests;
#[cfg(test)]
mod machine_tests;
#[cfg(test)]
mod picture_tests;
#[cfg(test)]
mod replay_tests;
#[cfg(test)]
mod run_tests;
#[cfg(test)]
mod script_tests;
#[cfg(test)]
mod session_file_tests;
#[cfg(test)]
mod session_tests;
#[cfg(test)]
mod smallest_tests;
