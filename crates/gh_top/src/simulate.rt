//! The mode `run`: a concrete run of a program from a state file.

ghost use Rattle.std.specs.Prelude.{◌≡◌, ◌≤◌, ◌++◌, IfOk, length, codes};
ghost use Rattle.std.specs.Fmt.{decimal};
ghost use Rattle.gh_ast.specs.Plain.{program_of};
ghost use Rattle.gh_draw.specs.Drawings.{line};
ghost use Rattle.gh_top.specs.Files.{IsNoLonger};
ghost use Rattle.gh_top.specs.Replies.{RepliesOnText, RepliesOnState, run_of};
ghost use Rattle.gh_top.specs.Runs.{most_stated, with_state, IsRunReport};

use crate::file::FileText;
use crate::front::Admitted;
use crate::lines::plain_line;
use crate::report::{Report, refused};
use crate::status::Status;
use gh_draw::drawing::state_lines;
use gh_run::simulate::{Report as RunReport, simulate as run_from};
use gh_run::state_file::{StateError, read_state};
use gh_trace::state::State;
use std::alloc::{AllocError, Global};

/// The longest state file, in bytes.
pub const MOST_STATED: usize = 4_194_304;

// A state file with a line that isn't as said.
fn faulty(alloc: Global, at: u32) -> Result<Report, AllocError>
    ensures status { IfOk result (λ r. r.status ≡ Status.LogRefused) }
    ensures text { IfOk result (λ r. r.text ≡ line (codes "refused: state line " ++ decimal at)) }
{
    let written = format!(in alloc; "refused: state line {at}")?;
    refused(alloc, written.as_str())
}

// A line, and the two lines of a state.
fn told(alloc: Global, status: Status, words: &str, state: &State) -> Result<Report, AllocError>
    ensures status { IfOk result (λ r. r.status ≡ status) }
    ensures text { IfOk result (λ r. r.text ≡ with_state words.now state.now) }
{
    let mut text = plain_line(alloc, words)?;
    let lines = state_lines(alloc, state)?;
    text.push(lines.bytes())?;
    Ok(Report { status, text })
}

// A run that ended.
fn ended(alloc: Global, steps: u32, state: &State, met: bool) -> Result<Report, AllocError>
    ensures { IfOk result (λ r. IsRunReport (RunReport.Ended steps state.now met) r.status r.text) }
{
    if met {
        let words = format!(in alloc; "ended after {steps} steps: postcondition holds")?;
        return told(alloc, Status::Ran, words.as_str(), state);
    }
    let words = format!(in alloc; "ended after {steps} steps: postcondition fails")?;
    told(alloc, Status::Refuted, words.as_str(), state)
}

// What a run comes to.
fn run_report(alloc: Global, report: &RunReport) -> Result<Report, AllocError>
    ensures { IfOk result (λ r. IsRunReport report.now r.status r.text) }
{
    match report {
        RunReport::Unmet => Ok(Report {
            status: Status::Unmet,
            text: plain_line(alloc, "precondition fails")?,
        }),
        RunReport::Stopped { steps, state } => {
            let words = format!(in alloc; "stopped after {steps} steps")?;
            told(alloc, Status::Stopped, words.as_str(), state)
        }
        RunReport::Faulted { steps, state } => {
            let words = format!(in alloc; "fault after {steps} steps")?;
            told(alloc, Status::Refuted, words.as_str(), state)
        }
        RunReport::Ended { steps, state, met } => ended(alloc, *steps, state, *met),
    }
}

// The report on the bytes of a state file.
fn state_file_report(
    alloc: Global,
    admitted: &Admitted,
    text: &[u8],
    number: u32,
) -> Result<Report, AllocError>
    requires short { length text.now ≤ most_stated }
    requires limit { number ≤ 1000000 }
    ensures { IfOk result (λ r. RepliesOnText (run_of number) (program_of admitted.now) text.now r.status r.text) }
{
    let typed = admitted.typed();
    let begin = match read_state(alloc, typed, text) {
        Ok(begin) => begin,
        Err(StateError::Line { line }) => return faulty(alloc, line),
        Err(StateError::OutOfMemory) => return Err(AllocError),
    };
    let report = run_from(alloc, typed, &begin, number)?;
    run_report(alloc, &report)
}

/// What `run` answers for an admitted program, a state file and the most steps.
pub fn simulate(
    alloc: Global,
    admitted: &Admitted,
    state: &FileText,
    number: u32,
) -> Result<Report, AllocError>
    requires within { IsNoLonger most_stated state.now }
    requires limit { number ≤ 1000000 }
    ensures { IfOk result (RepliesOnState number (program_of admitted.now) state.now) }
{
    match state {
        FileText::Absent => refused(alloc, "refused: state Absent"),
        FileText::TooLong => refused(alloc, "refused: state TooLong"),
        FileText::Whole(text) => state_file_report(alloc, admitted, text.bytes(), number),
    }
}
