//! Whether a section is valid for ground clauses.

ghost use Rattle.std.specs.Prelude.{◌+◌, ◌≤◌, IfOk, IfErr, OnOk, length};
ghost use Rattle.gh_log.specs.Sections.{IsValidSection};
ghost use Rattle.gh_check.specs.Answers.{IsSectionError};
ghost use Rattle.gh_check.specs.Kept.{IsBeforeAll, HasNext, TakesLine};
ghost use Rattle.gh_check.specs.Lines.{FitsSizes, StaysReady};

use crate::fault::{CheckError, FaultKind, LogFault};
use crate::hints::Truths;
use crate::lines::{Earlier, Outcome, check_line};
use crate::positions::Positions;
use crate::units::Units;
use gh_base::ground::Ground;
use gh_log::lines::{Lines, Section};
use std::alloc::{AllocError, Global};

// What is kept before the first line.
fn nothing_before<'s>(
    alloc: Global,
    ground: &'s Ground,
    lines: &'s Lines,
) -> Result<Earlier<'s>, AllocError>
    requires { length lines.now ≤ 4294967295 }
    ensures first { IfOk result (λ e. IsBeforeAll ground.now lines.now e.kept) }
    ensures ready { IfOk result (λ e. FitsSizes ground.now.sizes e) }
{
    let kept = Positions::new(alloc, ground, lines)?;
    let truths = Truths::new(alloc, ground.sizes())?;
    Ok(Earlier {
        kept,
        root_units: None,
        units: Units::new(),
        truths,
    })
}

// Keeps one more line.
fn keep(before: &mut Earlier<'_>)
    requires { HasNext before.old.kept }
    ensures kept { TakesLine before.old.kept before.new.kept }
    ensures ready { StaysReady before.old before.new }
{
    before.kept.advance();
}

// Checks the lines of a section after what is kept before the first one.
fn check_lines(
    alloc: Global,
    ground: &Ground,
    section: &Section,
    before: &mut Earlier<'_>,
) -> Result<(), CheckError>
    requires numbers { section.now.first + length section.now.lines ≤ 4294967295 }
    requires first { IsBeforeAll ground.now section.now.lines before.old.kept }
    requires ready { FitsSizes ground.now.sizes before.old }
    ensures valid { OnOk result (IsValidSection ground.now section.now.lines) }
    ensures refused { IfErr result (IsSectionError ground.now section.now.first section.now.lines) }
{
    let lines = &section.lines;
    let mut line = section.first;
    for place in 0..lines.len() {
        match check_line(alloc, ground, before, lines.line(place))? {
            Outcome::Holds => keep(before),
            Outcome::Faulty(kind) => return Err(CheckError::Fault(LogFault::new(kind, line))),
        }
        line += 1;
    }
    if before.kept.ends_empty() {
        Ok(())
    } else {
        let fault = LogFault::new(FaultKind::NoEmptyClause, line);
        Err(CheckError::Fault(fault))
    }
}

/// Checks each line of a section, in order, and that the clause of the last one is empty.
pub fn check_log(alloc: Global, ground: &Ground, section: &Section) -> Result<(), CheckError>
    requires { section.now.first + length section.now.lines ≤ 4294967295 }
    ensures valid { OnOk result (IsValidSection ground.now section.now.lines) }
    ensures refused { IfErr result (IsSectionError ground.now section.now.first section.now.lines) }
{
    let mut before = nothing_before(alloc, ground, &section.lines)?;
    check_lines(alloc, ground, section, &mut before)
}
