//! The mode `session`: one text after another, each answered as `check` answers it, and nothing that is
//! known decided anew.

ghost use Rattle.std.specs.Prelude.{◌≡◌, ◌++◌, ◌≤◌, [], IfOk, OnOk, Some, length};
ghost use Rattle.gh_ast.specs.Plain.{program_of};
ghost use Rattle.gh_top.specs.Answering.{IsAnswerOn, IsVerdictOn};
ghost use Rattle.gh_top.specs.Files.{IsNoLonger};
ghost use Rattle.gh_top.specs.Refusals.{refusal_text};
ghost use Rattle.gh_top.specs.Sessions.{most_edited, answer_line as line_of_answer, AreAnswers, IsSessionAnswer};
ghost use Rattle.gh_top.specs.Sessions.{texts_after};
ghost use Rattle.gh_top.specs.Shown.{RepliesToSessionFile};

use crate::file::FileText;
use crate::front::{Admitted, FrontError, text_front};
use crate::lines::{answer_line, bad_line, many_line, plain_line};
use crate::refusal::{Refusal, refused};
use crate::report::Report;
use crate::status::Status;
use crate::verdict::verdict;
use gh_base::text::Text;
use gh_decide::direct::Direct;
use gh_session::edits::{Edits, whole};
use gh_session::error::SessionError;
use gh_session::reading::read_session;
use gh_session::session::Session;
use std::alloc::{AllocError, Global};

/// The longest session file, in bytes.
pub const MOST_EDITED: usize = 4_194_304;

// What is answered for one text, and how many essences were decided for it.
#[derive(Drop)]
struct Answer {
    decided: u32,
    text: Text,
}

// The answer for a text that is refused.
fn refused_answer(alloc: Global, refusal: Refusal) -> Result<Answer, AllocError>
    ensures decided { IfOk result (λ a. a.decided ≡ 0) }
    ensures text { IfOk result (λ a. a.text ≡ refusal_text refusal) }
{
    let report = refused(alloc, refusal)?;
    Ok(Answer {
        decided: 0,
        text: report.text,
    })
}

// The answer for an admitted program.
fn verdict_on(
    alloc: Global,
    admitted: &Admitted,
    session: &mut Session,
    decider: &mut Direct,
) -> Result<Answer, AllocError>
    ensures { IfOk result (λ a. IsVerdictOn (program_of admitted.now) session.old a.decided a.text session.new) }
{
    let outcome = session.decide_all(alloc, admitted.typed(), admitted.conditions(), decider)?;
    let decided = outcome.decided;
    let report = verdict(alloc, admitted, outcome.refuted)?;
    Ok(Answer {
        decided,
        text: report.text,
    })
}

// The answer for a text.
fn answer_on(
    alloc: Global,
    text: &[u8],
    session: &mut Session,
    decider: &mut Direct,
) -> Result<Answer, AllocError>
    ensures { IfOk result (λ a. IsAnswerOn text.now session.old a.decided a.text session.new) }
{
    let typed = match text_front(alloc, text) {
        Ok(typed) => typed,
        Err(FrontError::Refused(refusal)) => return Ok(refused_answer(alloc, refusal)?),
        Err(FrontError::OutOfMemory) => return Err(AllocError),
    };
    let admitted = match Admitted::new(alloc, &typed) {
        Ok(admitted) => admitted,
        Err(FrontError::Refused(refusal)) => return Ok(refused_answer(alloc, refusal)?),
        Err(FrontError::OutOfMemory) => return Err(AllocError),
    };
    Ok(verdict_on(alloc, &admitted, session, decider)?)
}

// Adds an answer with its line.
fn push_answer(
    alloc: Global,
    text: &mut Text,
    number: u32,
    answer: &Answer,
) -> Result<(), AllocError>
    ensures { OnOk result (text.new ≡ text.old ++ line_of_answer number answer.now.decided ++ answer.now.text) }
{
    let line = answer_line(alloc, number, answer.decided)?;
    text.push(line.bytes())?;
    text.push(answer.text.bytes())?;
    Ok(())
}

// The answers to the edits that ask for one, in order.
fn answers(alloc: Global, edits: &Edits) -> Result<Text, AllocError>
    requires few { length edits.now.edits.items ≤ 256 }
    ensures { IfOk result (λ t. AreAnswers 0 [] (texts_after edits.now.head [] edits.now.edits.items) t) }
{
    let mut session = Session::new(alloc);
    let mut decider = Direct::new();
    let mut text = Text::new(alloc);
    let mut number = 0;
    for (place, edit) in edits.edits.iter().enumerate() {
        if !edit.asks {
            continue;
        }
        let whole = whole(alloc, edits, place as u32 + 1)?;
        let answer = answer_on(alloc, whole.bytes(), &mut session, &mut decider)?;
        number += 1;
        push_answer(alloc, &mut text, number, &answer)?;
    }
    Ok(text)
}

// The report that refuses a session file.
fn file_refused(line: Text) -> Report
    ensures status { result.status ≡ Status.LogRefused }
    ensures text { result.text ≡ line }
{
    Report {
        status: Status::LogRefused,
        text: line,
    }
}

// The report on the bytes of a session file.
fn session_report(alloc: Global, text: &[u8]) -> Result<Report, AllocError>
    requires short { length text.now ≤ most_edited }
    ensures { IfOk result (λ r. IsSessionAnswer (Some text.now) r.status r.text) }
{
    match read_session(alloc, text) {
        Ok(edits) => Ok(Report {
            status: Status::Listed,
            text: answers(alloc, &edits)?,
        }),
        Err(SessionError::Line { line }) => Ok(file_refused(bad_line(alloc, line)?)),
        Err(SessionError::TooMany { line }) => Ok(file_refused(many_line(alloc, line)?)),
        Err(SessionError::OutOfMemory) => Err(AllocError),
    }
}

/// What `session` answers for a session file.
pub fn session(alloc: Global, file: &FileText) -> Result<Report, AllocError>
    requires within { IsNoLonger most_edited file.now }
    ensures { IfOk result (λ r. RepliesToSessionFile file.now r.status r.text) }
{
    match file {
        FileText::Absent => Ok(file_refused(plain_line(alloc, "refused: session Absent")?)),
        FileText::TooLong => Ok(file_refused(plain_line(alloc, "refused: session TooLong")?)),
        FileText::Whole(text) => session_report(alloc, text.bytes()),
    }
}
