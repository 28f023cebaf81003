// What is found of some conditions of a program.

ghost use Rattle.std.specs.Prelude.{◌≡◌, ◌++◌, ◌+◌, ◌-◌, ◌≤◌, min, length, IfOk, OnOk};
ghost use Rattle.gh_ast.specs.Plain.{program_of};
ghost use Rattle.gh_lens.specs.Judgements.{IsFoundFor};
ghost use Rattle.gh_lens.specs.Overviews as shown;
ghost use Rattle.gh_path.specs.Admitted.{IsAdmitted};
ghost use Rattle.gh_path.specs.Conditions as plain;
ghost use Rattle.gh_path.specs.Kept.{IsOne};
ghost use Rattle.gh_page.specs.Listings.{IsListing, IsListingOf, AddsLine, condition_line};

use crate::front::refused;
use crate::reply::Reply;
use gh_ast::typed::Typed;
use gh_base::text::Text;
use gh_decide::decide::{Verdict, decide_with};
use gh_draw::describe::describe;
use gh_lens::front::{admitted, read_program};
use gh_lens::judged::Finding;
use gh_path::condition::Condition;
use gh_path::conditions::Conditions;
use gh_seek::known::Known;
use gh_top::status::Status;
use std::alloc::{AllocError, Global};

// What is found of a condition.
fn find_out(
    alloc: Global,
    typed: &Typed,
    condition: &Condition,
    known: &mut Known,
) -> Result<Finding, AllocError>
    requires admitted { IsAdmitted (program_of typed.now) }
    requires one { IsOne (program_of typed.now) condition.now }
    ensures { IfOk result (IsFoundFor (program_of typed.now) condition.now) }
{
    match decide_with(alloc, typed, condition, known)? {
        Verdict::Valid(_) => Ok(Finding::Valid),
        Verdict::Refuted(_) => Ok(Finding::Refuted),
    }
}

fn push_finding(text: &mut Text, finding: Finding) -> Result<(), AllocError>
    ensures { OnOk result (text.new ≡ text.old ++ shown.finding_text finding) }
{
    match finding {
        Finding::Valid => text.push(b"valid: "),
        Finding::Refuted => text.push(b"refuted: "),
    }
}

// Adds a line with what is found of a condition.
fn push_found(
    alloc: Global,
    text: &mut Text,
    finding: Finding,
    number: u32,
    description: &Text,
) -> Result<(), AllocError>
    ensures { OnOk result (text.new ≡ text.old ++ condition_line finding number description.now) }
{
    push_finding(text, finding)?;
    let written = format!(in alloc; "condition {number}, ")?;
    text.push(written.as_bytes())?;
    text.push(description.bytes())?;
    text.push(b"\n")?;
    Ok(())
}

// Adds the line of the condition of a number, of which there are enough.
fn push_line(
    alloc: Global,
    lines: &mut Text,
    typed: &Typed,
    conditions: &Conditions,
    number: u32,
    known: &mut Known,
) -> Result<(), AllocError>
    requires same { program_of conditions.now ≡ program_of typed.now }
    requires admitted { IsAdmitted (program_of typed.now) }
    requires some { 1 ≤ number }
    requires there { number ≤ length (plain.conditions (program_of typed.now)) }
    ensures { IfOk result (λ _. AddsLine (program_of typed.now) number lines.old lines.new) }
{
    let Some(condition) = conditions.condition(alloc, number)? else {
        unreachable!();
    };
    let finding = find_out(alloc, typed, &condition, known)?;
    let description = describe(alloc, typed, &condition)?;
    push_found(alloc, lines, finding, number, &description)?;
    Ok(())
}

// How many conditions are listed.
fn listed_count(count: u32, skip: u32, most: u32) -> u32
    ensures { result ≡ min (count - skip) most }
{
    count.saturating_sub(skip).min(most)
}

// The lines of the conditions after the first `skip`, of `most` at most.
fn lines_of(
    alloc: Global,
    typed: &Typed,
    conditions: &Conditions,
    skip: u32,
    most: u32,
) -> Result<Text, AllocError>
    requires same { program_of conditions.now ≡ program_of typed.now }
    requires admitted { IsAdmitted (program_of typed.now) }
    ensures { IfOk result (IsListing (program_of typed.now) skip most) }
{
    let mut lines = Text::new(alloc);
    let mut known = Known::new();
    let listed = listed_count(conditions.count(), skip, most);
    for place in 0..listed {
        let number = skip + place + 1;
        push_line(alloc, &mut lines, typed, conditions, number, &mut known)?;
    }
    Ok(lines)
}

/// What is found of the conditions of the program of a text after the first `skip`, of `most` at most; or why it is
/// refused.
pub(crate) fn listing(alloc: Global, text: &[u8], skip: u32, most: u32) -> Result<Reply, AllocError>
    ensures { IfOk result (IsListingOf text.now skip most) }
{
    let typed = match read_program(alloc, text) {
        Ok(typed) => typed,
        Err(error) => return refused(alloc, &error),
    };
    let conditions = match admitted(alloc, &typed) {
        Ok(conditions) => conditions,
        Err(error) => return refused(alloc, &error),
    };
    let text = lines_of(alloc, &typed, &conditions, skip, most)?;
    Ok(Reply {
        status: Status::Listed,
        count: conditions.count(),
        text,
    })
}
