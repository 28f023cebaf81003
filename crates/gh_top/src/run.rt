//! The top call.

ghost use Rattle.std.specs.Prelude.{◌≡◌, IfOk, None};
ghost use Rattle.gh_ast.specs.Plain.{program_of};
ghost use Rattle.gh_top.specs.Causes.{HasReadCause, IsOnFiles};
ghost use Rattle.gh_top.specs.Files.{IsSourceRead, IsSecondWithin};
ghost use Rattle.gh_top.specs.Headline.{HasAnswer, IsAnswered, IsReadFault, IsWriteFault, IsComplete, NamesFile};
ghost use Rattle.gh_top.specs.Reads.{FirstRead, ReadsFor, ReadsInOrder, ReadsOn};
ghost use Rattle.gh_top.specs.Replies.{AnswersRequest, Replies, RepliesOnSecond};
ghost use Rattle.gh_top.specs.Seen.{reading, seen};
ghost use Rattle.gh_top.specs.Sources.{source_of, second_file};
ghost use Rattle.gh_top.specs.Words.{IsInLimits, IsOnProgram};

use crate::check::check;
use crate::entail::entail;
use crate::file::{FileText, read_file};
use crate::front::{Admitted, FrontError, front};
use crate::lines::plain_line;
use crate::log::log;
use crate::paths::paths;
use crate::recheck::recheck;
use crate::refusal::refused;
use crate::replay::replay;
use crate::report::{Report, Stop};
use crate::session::session;
use crate::simulate::simulate;
use crate::smallest::smallest;
use crate::smt::smt;
use crate::source::Source;
use crate::status::Status;
use crate::stress::{stress, stress_text};
use crate::words::{Request, Words, read_words};
use gh_base::outside::{Inputs, Sink};
use gh_base::writing::write_all;
use std::alloc::{AllocError, Global};

// The text that a request is about: its first file's, or the one that a number makes.
fn first_text<I: Inputs>(alloc: Global, request: &Request, inputs: &mut I) -> Result<FileText, Stop>
    requires limits { IsInLimits request.now }
    ensures read { IfOk result (IsSourceRead (I.table inputs.old) (source_of request.now)) }
    ensures cause { HasReadCause (IsOnFiles request.now) (reading I.Inputs inputs.old inputs.new) result }
    ensures first { FirstRead (source_of request.now) (reading I.Inputs inputs.old inputs.new) }
{
    match request.source() {
        Source::File { name, most } => read_file(alloc, inputs, name, most),
        Source::Number { n } => Ok(FileText::Whole(stress_text(alloc, n)?)),
    }
}

// The answer to a request about an admitted program and no other file.
fn reply_on_one(alloc: Global, request: &Request, admitted: &Admitted) -> Result<Report, AllocError>
    requires limits { IsInLimits request.now }
    requires on_program { IsOnProgram request.now }
    requires one { second_file request.now ≡ None }
    ensures { IfOk result (λ r. Replies request.now (program_of admitted.now) r.status r.text) }
{
    match request {
        Request::Check { .. } => check(alloc, admitted),
        Request::Log { .. } => log(alloc, admitted),
        Request::Paths { .. } => paths(alloc, admitted),
        Request::Smallest { .. } => smallest(alloc, admitted),
        Request::Smt { number, .. } => smt(alloc, admitted, *number),
        Request::Stress { n } => stress(alloc, *n, admitted),
        Request::Recheck { .. } => unreachable!(),
        Request::Replay { .. } => unreachable!(),
        Request::Run { .. } => unreachable!(),
        Request::Session { .. } => unreachable!(),
        Request::Entail { .. } => unreachable!(),
    }
}

// The answer to a request about an admitted program and a second file.
fn reply_on_two(
    alloc: Global,
    request: &Request,
    admitted: &Admitted,
    second: &FileText,
) -> Result<Report, AllocError>
    requires limits { IsInLimits request.now }
    requires two { IsSecondWithin request.now second.now }
    ensures { IfOk result (λ r. RepliesOnSecond request.now (program_of admitted.now) second.now r.status r.text) }
{
    match request {
        Request::Recheck { .. } => recheck(alloc, admitted, second),
        Request::Replay { .. } => replay(alloc, admitted, second),
        Request::Run { number, .. } => simulate(alloc, admitted, second, *number),
        _ => unreachable!(),
    }
}

// The answer to a request about a program.
fn program_reply<I: Inputs>(
    alloc: Global,
    request: &Request,
    text: &FileText,
    inputs: &mut I,
) -> Result<Report, Stop>
    requires limits { IsInLimits request.now }
    requires on_program { IsOnProgram request.now }
    requires read { IsSourceRead (I.table inputs.old) (source_of request.now) text.now }
    ensures ok { IfOk result (AnswersRequest (I.table inputs.old) request.now) }
    ensures cause { HasReadCause (IsOnFiles request.now) (reading I.Inputs inputs.old inputs.new) result }
    ensures order { ReadsOn request.now (reading I.Inputs inputs.old inputs.new) }
{
    let typed = match front(alloc, text) {
        Ok(typed) => typed,
        Err(FrontError::Refused(refusal)) => return Ok(refused(alloc, refusal)?),
        Err(FrontError::OutOfMemory) => return Err(Stop::OutOfMemory),
    };
    let admitted = match Admitted::new(alloc, &typed) {
        Ok(admitted) => admitted,
        Err(FrontError::Refused(refusal)) => return Ok(refused(alloc, refusal)?),
        Err(FrontError::OutOfMemory) => return Err(Stop::OutOfMemory),
    };
    match request.second_file() {
        Some((name, most)) => {
            let second = read_file(alloc, inputs, name, most)?;
            Ok(reply_on_two(alloc, request, &admitted, &second)?)
        }
        None => Ok(reply_on_one(alloc, request, &admitted)?),
    }
}

// The answer to a request.
fn reply<I: Inputs>(alloc: Global, request: &Request, inputs: &mut I) -> Result<Report, Stop>
    requires limits { IsInLimits request.now }
    ensures ok { IfOk result (AnswersRequest (I.table inputs.old) request.now) }
    ensures cause { HasReadCause (IsOnFiles request.now) (reading I.Inputs inputs.old inputs.new) result }
    ensures order { ReadsFor request.now (reading I.Inputs inputs.old inputs.new) }
{
    let text = first_text(alloc, request, inputs)?;
    if let Request::Session { .. } = request {
        return Ok(session(alloc, &text)?);
    }
    if let Request::Entail { .. } = request {
        return Ok(entail(alloc, &text)?);
    }
    program_reply(alloc, request, &text, inputs)
}

// The answer to the words.
fn answer<I: Inputs>(alloc: Global, words: &Words, inputs: &mut I) -> Result<Report, Stop>
    ensures ok { IfOk result (λ r. HasAnswer (I.table inputs.old) words.now r.status r.text) }
    ensures cause { HasReadCause (NamesFile words.now) (reading I.Inputs inputs.old inputs.new) result }
    ensures order { ReadsInOrder words.now (reading I.Inputs inputs.old inputs.new) }
{
    match read_words(alloc, words)? {
        Some(request) => reply(alloc, &request, inputs),
        None => Ok(Report {
            status: Status::Usage,
            text: plain_line(alloc, "refused: usage")?,
        }),
    }
}

/// Carries out what the words ask for: reads, decides, and writes the answer.
pub fn run<I: Inputs, S: Sink>(alloc: Global, words: &Words, inputs: &mut I, out: &mut S) -> Status
    ensures answer { IsAnswered words.now (seen I.Inputs S.Sink inputs.old inputs.new out.old out.new) result }
    ensures read_fault { IsReadFault words.now (seen I.Inputs S.Sink inputs.old inputs.new out.old out.new) result }
    ensures write_fault { IsWriteFault words.now (seen I.Inputs S.Sink inputs.old inputs.new out.old out.new) result }
    ensures complete { IsComplete words.now (seen I.Inputs S.Sink inputs.old inputs.new out.old out.new) result }
    ensures order { ReadsInOrder words.now (reading I.Inputs inputs.old inputs.new) }
{
    match answer(alloc, words, inputs) {
        Ok(report) => match write_all(out, report.text.bytes()) {
            Ok(()) => report.status,
            Err(_) => Status::WriteFault,
        },
        Err(Stop::ReadFault) => Status::ReadFault,
        Err(Stop::OutOfMemory) => Status::OutOfMemory,
    }
}
