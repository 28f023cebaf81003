//! All conditions of a program with what is found of them, in the order in which one should look.

ghost use Rattle.std.specs.Prelude.{◌≡◌, ◌++◌, ◌+◌, IfOk, OnOk, length, codes};
ghost use Rattle.std.specs.Fmt.{decimal};
ghost use Rattle.gh_ast.specs.Plain.{program_of};
ghost use Rattle.gh_path.specs.Admitted.{IsAdmitted};
ghost use Rattle.gh_draw.specs.Descriptions.{place_text};
ghost use Rattle.gh_draw.specs.Drawings.{line};
ghost use Rattle.gh_lens.specs.Overviews as shown;

use crate::judged::{Finding, Judged, verdicts};
use crate::progress::Progress;
use crate::remarks::{Kind, Meeting, Remark, remarks};
use gh_ast::typed::Typed;
use gh_base::place::Span;
use gh_base::text::Text;
use gh_path::conditions::Conditions;
use std::alloc::{AllocError, Global};

/// The lines that tell of all conditions of a program, and how many of them are refuted.
#[derive(Debug, Drop)]
pub struct Overview {
    pub text: Text,
    pub refuted: usize,
}

/// When one should look at a condition: 0 for refuted ground work, 1 for what else is refuted, 2 for what is valid.
pub fn rank(judged: &Judged) -> u8
    ensures { result ≡ shown.rank judged.now }
{
    match judged.finding {
        Finding::Refuted => { if judged.is_ground_work { 0 } else { 1 } }
        Finding::Valid => 2,
    }
}

fn push_finding(text: &mut Text, finding: Finding) -> Result<(), AllocError>
    ensures { OnOk result (text.new ≡ text.old ++ shown.finding_text finding) }
{
    match finding {
        Finding::Valid => text.push(b"valid: "),
        Finding::Refuted => text.push(b"refuted: "),
    }
}

fn push_judged(alloc: Global, text: &mut Text, judged: &Judged) -> Result<(), AllocError>
    ensures { OnOk result (text.new ≡ text.old ++ shown.judged_line judged.now) }
{
    push_finding(text, judged.finding)?;
    let number = judged.number;
    let written = format!(in alloc; "condition {number}, ")?;
    text.push(written.as_bytes())?;
    text.push(judged.description.bytes())?;
    text.push(b"\n")?;
    Ok(())
}

// Adds the lines of the conditions of one rank.
fn push_rank(
    alloc: Global,
    text: &mut Text,
    judged: &[Judged],
    wanted: u8,
) -> Result<(), AllocError>
    ensures { OnOk result (text.new ≡ text.old ++ shown.judged_lines (shown.of_rank wanted judged.now)) }
{
    for one in judged {
        if rank(one) == wanted {
            push_judged(alloc, text, one)?;
        }
    }
    Ok(())
}

// How many conditions have a rank.
fn count_rank(judged: &[Judged], wanted: u8) -> usize
    ensures { result ≡ length (shown.of_rank wanted judged.now) }
{
    judged.iter().filter(|one| rank(one) == wanted).count()
}

// Adds a number and what is counted.
fn push_count(alloc: Global, text: &mut Text, number: usize, what: &[u8]) -> Result<(), AllocError>
    ensures { OnOk result (text.new ≡ text.old ++ decimal number ++ what.now) }
{
    let written = format!(in alloc; "{number}")?;
    text.push(written.as_bytes())?;
    text.push(what)?;
    Ok(())
}

fn push_counts(alloc: Global, text: &mut Text, judged: &[Judged]) -> Result<(), AllocError>
    ensures { OnOk result (text.new ≡ text.old ++ shown.count_line judged.now) }
{
    push_count(alloc, text, judged.len(), b" conditions: ")?;
    push_count(alloc, text, refuted_count(judged), b" refuted, ")?;
    push_count(alloc, text, count_rank(judged, 2), b" valid")?;
    text.push(b"\n")?;
    Ok(())
}

// Adds ` at L:C`.
fn push_place(alloc: Global, text: &mut Text, place: Span) -> Result<(), AllocError>
    ensures { OnOk result (text.new ≡ text.old ++ codes " at " ++ place_text place) }
{
    let row = place.line;
    let column = place.col;
    let written = format!(in alloc; " at {row}:{column}")?;
    text.push(written.as_bytes())
}

fn push_subject(alloc: Global, text: &mut Text, remark: &Remark) -> Result<(), AllocError>
    ensures { OnOk result (text.new ≡ text.old ++ shown.subject_text remark.now) }
{
    match remark.kind {
        Kind::Requires => text.push(b"requires")?,
        Kind::Ensures => text.push(b"ensures")?,
        Kind::Invariant => text.push(b"invariant")?,
    }
    text.push(b" of ")?;
    text.push(remark.procedure.bytes())?;
    push_place(alloc, text, remark.place)?;
    Ok(())
}

// Adds a line about a contract or an invariant.
fn push_about(
    alloc: Global,
    text: &mut Text,
    head: &[u8],
    remark: &Remark,
) -> Result<(), AllocError>
    ensures { OnOk result (text.new ≡ text.old ++ line (head.now ++ shown.subject_text remark.now)) }
{
    text.push(head)?;
    push_subject(alloc, text, remark)?;
    text.push(b"\n")?;
    Ok(())
}

fn push_meeting(alloc: Global, text: &mut Text, remark: &Remark) -> Result<(), AllocError>
    ensures { OnOk result (text.new ≡ text.old ++ shown.meeting_text remark.now.meeting remark.now) }
{
    match remark.meeting {
        Meeting::Met => Ok(()),
        Meeting::Unmet => push_about(alloc, text, b"no heap meets: ", remark),
        Meeting::Unknown => push_about(alloc, text, b"not known to be met: ", remark),
    }
}

fn push_bare(alloc: Global, text: &mut Text, remark: &Remark) -> Result<(), AllocError>
    ensures { OnOk result (text.new ≡ text.old ++ shown.bare_text remark.now.kind remark.now.is_bare remark.now) }
{
    match remark.kind {
        Kind::Invariant => {
            if remark.is_bare {
                push_about(alloc, text, b"no cells: ", remark)
            } else {
                Ok(())
            }
        }
        Kind::Requires => Ok(()),
        Kind::Ensures => Ok(()),
    }
}

fn push_remarks(alloc: Global, text: &mut Text, remarks: &[Remark]) -> Result<(), AllocError>
    ensures { OnOk result (text.new ≡ text.old ++ shown.remark_lines remarks.now) }
{
    for remark in remarks {
        push_meeting(alloc, text, remark)?;
        push_bare(alloc, text, remark)?;
    }
    Ok(())
}

fn is_refuted(judged: &Judged) -> bool
    ensures { result ≡ shown.is_refuted judged.now }
{
    matches!(judged.finding, Finding::Refuted)
}

// How many conditions are refuted.
fn refuted_count(judged: &[Judged]) -> usize
    ensures { result ≡ shown.refuted_count judged.now }
{
    judged.iter().filter(|one| is_refuted(one)).count()
}

// The lines of what was found.
fn overview_text(alloc: Global, remarks: &[Remark], judged: &[Judged]) -> Result<Text, AllocError>
    ensures { IfOk result (λ t. t ≡ shown.overview_text remarks.now judged.now) }
{
    let mut text = Text::new(alloc);
    push_remarks(alloc, &mut text, remarks)?;
    push_rank(alloc, &mut text, judged, 0)?;
    push_rank(alloc, &mut text, judged, 1)?;
    push_rank(alloc, &mut text, judged, 2)?;
    push_counts(alloc, &mut text, judged)?;
    Ok(text)
}

/// What is found of all contracts, invariants and conditions of an admitted program, a line each, and the
/// counts in a last line.
///
/// Contracts and invariants that no heap meets come first. Then come the conditions: what is refuted of
/// entries of callees and loops and of the ends of loops, what else is refuted, and what is valid, each
/// in the order of the numbers.
pub fn overview_of<T: Progress>(
    alloc: Global,
    typed: &Typed,
    conditions: &Conditions,
    progress: &mut T,
) -> Result<Overview, AllocError>
    requires same { program_of conditions.now ≡ program_of typed.now }
    requires admitted { IsAdmitted (program_of typed.now) }
    ensures { IfOk result (λ o. shown.IsOverview (program_of typed.now) o.refuted o.text) }
{
    let remarks = remarks(alloc, typed)?;
    let judged = verdicts(alloc, typed, conditions, progress)?;
    let text = overview_text(alloc, remarks.as_slice(), judged.as_slice())?;
    let refuted = refuted_count(judged.as_slice());
    Ok(Overview { text, refuted })
}
