//! The mode `smallest`: decides a program, and draws a counterexample with the fewest cells in its first
//! heap.

ghost use Rattle.std.specs.Prelude.{◌≡◌, IfOk, IfSome, All, Some};
ghost use Rattle.gh_ast.specs.Plain.{program_of};
ghost use Rattle.gh_trace.specs.Refuted.{ShowsFirst};
ghost use Rattle.gh_log.specs.Spelled.{IsSpelledLine};
ghost use Rattle.gh_path.specs.Answers.{IsNumbered};
ghost use Rattle.gh_small.specs.Smallest.{IsSmallest};
ghost use Rattle.gh_trace.specs.declared.state.Trace as drawn;
ghost use Rattle.gh_top.specs.Replies.{RepliesOnFile};
ghost use Rattle.gh_top.specs.Smallests.{IsSmallestReport, section_text};
ghost use Rattle.gh_top.specs.declared.words.Request.TheVariants as request;

use crate::front::Admitted;
use crate::lines::{smallest_line, verified_line};
use crate::report::Report;
use crate::status::Status;
use crate::verdict::verified;
use gh_base::text::Text;
use gh_decide::refuted::first_refuted;
use gh_draw::describe::describe;
use gh_draw::drawing::{Drawing, draw};
use gh_log::lines::{Log, Section};
use gh_log::writing::write_log;
use gh_path::condition::Condition;
use gh_small::found::Smallest;
use gh_small::smallest::smallest as find;
use gh_trace::refutation::Refutation;
use std::alloc::{AllocError, Global};

// The text of a log with the section alone; nothing where there is none.
fn bound_text(alloc: Global, section: Option<Section>) -> Result<Text, AllocError>
    requires { IfSome section (λ s. All (IsSpelledLine 2) s.lines) }
    ensures { IfOk result (λ t. t ≡ section_text section) }
{
    match section {
        Some(section) => {
            let mut sections = Vec::new(alloc);
            sections.push(section)?;
            let log = Log {
                version: 2,
                sections,
            };
            let text = write_log(alloc, &log)?;
            Ok(text)
        }
        None => Ok(Text::new(alloc)),
    }
}

// The report on the smallest counterexample of a condition.
fn smallest_report(
    alloc: Global,
    admitted: &Admitted,
    number: u32,
    condition: &Condition,
    found: Smallest,
) -> Result<Report, AllocError>
    requires numbered { IsNumbered (program_of admitted.now) number (Some condition.now) }
    requires first { ShowsFirst (program_of admitted.now) number found.trace }
    requires smallest { IsSmallest (program_of admitted.now) condition.now found }
    ensures status { IfOk result (λ r. r.status ≡ Status.Refuted) }
    ensures text { IfOk result (λ r. IsSmallestReport (program_of admitted.now) r.text) }
{
    let typed = admitted.typed();
    let conditions = admitted.conditions();
    let mut text = smallest_line(alloc, number, conditions.count(), found.cells)?;
    let description = describe(alloc, typed, condition)?;
    text.push(description.bytes())?;
    text.push(b"\n")?;
    let bound = bound_text(alloc, found.section)?;
    let drawing = Drawing {
        condition: number,
        trace: found.trace,
    };
    let drawn = draw(alloc, &drawing)?;
    text.push(drawn.bytes())?;
    text.push(bound.bytes())?;
    Ok(Report {
        status: Status::Refuted,
        text,
    })
}

// The report on the first condition that isn't valid.
fn refuted(alloc: Global, admitted: &Admitted, number: u32) -> Result<Report, AllocError>
    requires { (t : drawn.Trace) × ShowsFirst (program_of admitted.now) number t }
    ensures status { IfOk result (λ r. r.status ≡ Status.Refuted) }
    ensures text { IfOk result (λ r. IsSmallestReport (program_of admitted.now) r.text) }
{
    let typed = admitted.typed();
    let conditions = admitted.conditions();
    let Some(condition) = conditions.condition(alloc, number)? else {
        unreachable!();
    };
    let Some(found) = find(alloc, typed, &condition)? else {
        unreachable!();
    };
    smallest_report(alloc, admitted, number, &condition, found)
}

/// What `smallest` answers for an admitted program.
pub fn smallest(alloc: Global, admitted: &Admitted) -> Result<Report, AllocError>
    ensures { IfOk result (λ r. RepliesOnFile request.Smallest (program_of admitted.now) r.status r.text) }
{
    let conditions = admitted.conditions();
    match first_refuted(alloc, admitted.typed(), conditions)? {
        None => Ok(verified(verified_line(alloc, conditions.count())?)),
        Some(Refutation { number, .. }) => refuted(alloc, admitted, number),
    }
}
