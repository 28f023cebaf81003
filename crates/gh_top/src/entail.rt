//! The mode `entail`: decides a question.

ghost use Rattle.std.specs.Prelude.{◌≡◌, ◌∷◌, [], ◌++◌, All, IfOk, IfErr, Some, codes};
ghost use Rattle.gh_ast.specs.Questions.{question_of};
ghost use Rattle.gh_draw.specs.Drawings.{line};
ghost use Rattle.gh_entail.specs.Answers.{FailsIn};
ghost use Rattle.gh_entail.specs.Asked.{IsAdmitted};
ghost use Rattle.gh_log.specs.Spelled.{IsSpelledLine};
ghost use Rattle.gh_log.specs.Texts.{log_text};
ghost use Rattle.gh_top.specs.Entails.{IsQuestionText, IsFailingReport};
ghost use Rattle.gh_top.specs.QuestionReplies.{of_ask, IsQuestionFrontError, IsReplyTo};
ghost use Rattle.gh_top.specs.Shown.{PosesQuestion, IsFileQuestionError, RepliesToQuestionFile};

use crate::file::FileText;
use crate::front::FrontError;
use crate::lines::plain_line;
use crate::refusal::{Refusal, refused};
use crate::report::Report;
use crate::rule::Rule;
use crate::status::Status;
use gh_draw::drawing::{Drawing, draw};
use gh_entail::admit::{AskError, Asked, admit_question};
use gh_entail::answer::{Entailment, decide_question};
use gh_log::lines::{Log, Section};
use gh_log::writing::write_log;
use gh_parse::parse::parse_question;
use gh_trace::state::{State, Trace};
use gh_types::counts::MOST_BYTES;
use std::alloc::{AllocError, Global};

impl From<AskError> for FrontError {
    ghost from_gives = { λ e f. f ≡ of_ask e };

    fn from(error: AskError) -> FrontError {
        match error {
            AskError::TypeError { number, span } => {
                let rule = Rule::numbered(number);
                FrontError::Refused(Refusal::TypeError { rule, span })
            }
            AskError::Limit(passed) => FrontError::Refused(Refusal::Limit(passed)),
            AskError::OutOfMemory => FrontError::OutOfMemory,
        }
    }
}

// The question that a text poses, if it keeps the type rules and the limits.
fn text_asked(alloc: Global, text: &[u8]) -> Result<Asked, FrontError>
    ensures posed { IfOk result (λ asked. IsQuestionText text.now (question_of asked.question)) }
    ensures admitted { IfOk result (λ asked. IsAdmitted (question_of asked.question)) }
    ensures refused { IfErr result (IsQuestionFrontError (Some text.now)) }
{
    if text.len() > MOST_BYTES {
        return Err(FrontError::Refused(Refusal::TooLong));
    }
    let question = parse_question(alloc, text)?;
    let asked = admit_question(alloc, question)?;
    Ok(asked)
}

// The question that a file's text poses, if it keeps the type rules and the limits.
fn asked(alloc: Global, file: &FileText) -> Result<Asked, FrontError>
    ensures posed { IfOk result (λ asked. PosesQuestion file.now (question_of asked.question)) }
    ensures refused { IfErr result (IsFileQuestionError file.now) }
{
    match file {
        FileText::Absent => Err(FrontError::Refused(Refusal::Absent)),
        FileText::TooLong => Err(FrontError::Refused(Refusal::TooLong)),
        FileText::Whole(text) => text_asked(alloc, text.bytes()),
    }
}

// The report on a question that is entailed, with the section that shows it.
fn entailed(alloc: Global, section: Section) -> Result<Report, AllocError>
    requires { All (IsSpelledLine 2) section.lines }
    ensures status { IfOk result (λ r. r.status ≡ Status.Verified) }
    ensures text { IfOk result (λ r. r.text ≡ line (codes "entailed") ++ log_text 2 (section.lines ∷ [])) }
{
    let mut sections = Vec::new(alloc);
    sections.push(section)?;
    let log = Log {
        version: 2,
        sections,
    };
    let written = write_log(alloc, &log)?;
    let mut text = plain_line(alloc, "entailed")?;
    text.push(written.bytes())?;
    Ok(Report {
        status: Status::Verified,
        text,
    })
}

// The report on a question that fails in a state.
fn not_entailed(alloc: Global, asked: &Asked, state: State) -> Result<Report, AllocError>
    requires { FailsIn (question_of asked.now.question) state }
    ensures status { IfOk result (λ r. r.status ≡ Status.Refuted) }
    ensures text { IfOk result (λ r. IsFailingReport (question_of asked.now.question) r.text) }
{
    let mut states = Vec::new(alloc);
    states.push(state)?;
    let drawing = Drawing {
        condition: 1,
        trace: Trace { states },
    };
    let drawn = draw(alloc, &drawing)?;
    let mut text = plain_line(alloc, "not entailed")?;
    text.push(drawn.bytes())?;
    Ok(Report {
        status: Status::Refuted,
        text,
    })
}

// The report on an admitted question.
fn decided(alloc: Global, asked: &Asked) -> Result<Report, AllocError>
    ensures { IfOk result (λ r. IsReplyTo (question_of asked.now.question) r.status r.text) }
{
    match decide_question(alloc, asked)? {
        Entailment::Yes(section) => entailed(alloc, section),
        Entailment::No(state) => not_entailed(alloc, asked, state),
    }
}

/// What `entail` answers for the file of a question.
pub fn entail(alloc: Global, file: &FileText) -> Result<Report, AllocError>
    ensures { IfOk result (λ r. RepliesToQuestionFile file.now r.status r.text) }
{
    match asked(alloc, file) {
        Ok(asked) => decided(alloc, &asked),
        Err(FrontError::Refused(refusal)) => refused(alloc, refusal),
        Err(FrontError::OutOfMemory) => Err(AllocError),
    }
}
