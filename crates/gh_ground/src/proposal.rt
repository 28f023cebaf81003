//! Sections that a search proposes, and whether they refute.

ghost use Rattle.std.specs.Prelude.{◌↔◌, All, IfOk, IsTrue};
ghost use Rattle.gh_log.specs.Tables.{line_of};
ghost use Rattle.gh_ground.specs.Solving.{IsPlain, RefutesProblem};

use gh_base::ground::Ground;
use gh_check::check::check_log;
use gh_check::fault::CheckError;
use gh_log::lines::{Lines, LogLine, Section};
use std::alloc::{AllocError, Global};

// Whether a line is of version 2 and deletes no others.
fn is_plain(line: LogLine<'_>) -> bool
    ensures { IsTrue result ↔ IsPlain (line_of line.entry) }
{
    match line {
        LogLine::Axiom(_) => true,
        LogLine::Clause { .. } => true,
        LogLine::Lemma(_) => true,
        LogLine::Learnt(_) => false,
        LogLine::Hinted { .. } => true,
        LogLine::Delete { .. } => false,
    }
}

// Whether all lines are so.
fn are_plain(lines: &Lines) -> bool
    ensures { IsTrue result ↔ All IsPlain lines.now }
{
    for place in 0..lines.len() {
        if !is_plain(lines.line(place)) {
            return false;
        }
    }
    true
}

/// Whether a section refutes ground clauses: it is valid for them, stands at the first line, and its lines are of version
/// 2 and delete none.
pub(crate) fn refutes(alloc: Global, ground: &Ground, section: &Section) -> Result<bool, AllocError>
    ensures { IfOk result (λ b. IsTrue b ↔ RefutesProblem ground.now section.now) }
{
    if section.first != 1 {
        return Ok(false);
    }
    if section.lines.len() > 4294967294 {
        return Ok(false);
    }
    if !are_plain(&section.lines) {
        return Ok(false);
    }
    match check_log(alloc, ground, section) {
        Ok(()) => Ok(true),
        Err(CheckError::Fault(_)) => Ok(false),
        Err(CheckError::OutOfMemory) => Err(AllocError),
    }
}
