//! Faults in the second section of a log, by the numbers of their lines in the log's text.

use crate::solve_tests::worked;
use gh_base::ground::Ground;
use gh_check::check::check_log;
use gh_check::fault::{CheckError, FaultKind};
use gh_log::error::LogError;
use gh_log::lines::{Log, Section};
use gh_log::reading::read_log;
use std::alloc::{AllocError, Global};

// What is found of the second section. None: the log isn't read, or has no such section.
#[derive(Clone, Copy, PartialEq, Eq)]
enum Found {
    None,
    Valid,
    Faulty(FaultKind, u32),
}

// Lines of the second section, and what is found of it.
type Row = (&'static [u8], Found);

// The second section's first line is line 11.
const WITH_HINTS: &[u8] =
    b"grass log 2\ncondition 1\ng 0\ng 15\ng 16\ng 19\ng 23\ng 24\nl ; 1 2 3 4 5 6\ncondition 2\n";

const WITHOUT_HINTS: &[u8] =
    b"grass log 1\ncondition 1\ng 0\ng 15\ng 16\ng 19\ng 23\ng 24\nl\ncondition 2\n";

fn judged(alloc: Global, ground: &Ground, section: &Section) -> Result<Found, AllocError> {
    if section.first > 1000 || section.lines.len() > 1000 {
        return Ok(Found::None);
    }
    match check_log(alloc, ground, section) {
        Ok(()) => Ok(Found::Valid),
        Err(CheckError::Fault(fault)) => Ok(Found::Faulty(fault.kind(), fault.line)),
        Err(CheckError::OutOfMemory) => Err(AllocError),
    }
}

fn log_in(alloc: Global, text: &[u8]) -> Result<Option<Log>, AllocError> {
    if text.len() > 1000 {
        return Ok(None);
    }
    match read_log(alloc, text) {
        Ok(log) => Ok(Some(log)),
        Err(LogError::OutOfMemory) => Err(AllocError),
        Err(_) => Ok(None),
    }
}

fn second_of(
    alloc: Global,
    ground: &Ground,
    head: &[u8],
    lines: &[u8],
) -> Result<Found, AllocError> {
    let mut text = Vec::from_slice(alloc, head)?;
    text.extend_from_slice(lines)?;
    let Some(log) = log_in(alloc, text.as_slice())? else {
        return Ok(Found::None);
    };
    match log.sections.as_slice().get(1) {
        None => Ok(Found::None),
        Some(section) => judged(alloc, ground, section),
    }
}

// The first row of which something else is found behind a first section.
fn wrong_row(alloc: Global, head: &[u8], rows: &[Row]) -> Result<Option<usize>, AllocError> {
    let ground = worked(alloc)?;
    for (number, (lines, expected)) in rows.iter().enumerate() {
        if second_of(alloc, &ground, head, lines)? != *expected {
            return Ok(Some(number));
        }
    }
    Ok(None)
}

const HINTED: &[Row] = &[
    (
        b"g 0\ng 15\ng 16\ng 19\ng 23\ng 24\nl ; 1 2 3 4 5 6\n",
        Found::Valid,
    ),
    (b"a 1 0 1\ng 0\n", Found::Faulty(FaultKind::NotInstance, 11)),
    (b"g 0\ng 25\n", Found::Faulty(FaultKind::NotClause, 12)),
    (b"g 0\ne -A.0.0\n", Found::Faulty(FaultKind::NotLemma, 12)),
    (
        b"g 0\ng 15\ng 16\ng 19\ng 23\ng 24\nl ; 1 2 3 4 5\n",
        Found::Faulty(FaultKind::NotImplied, 17),
    ),
    (
        b"g 0\ng 15\ng 16\ng 19\ng 23\ng 24\nl ; 1 2 3 4 5 7\n",
        Found::Faulty(FaultKind::NoSuchLine, 17),
    ),
    (b"g 0\nd 1 1\n", Found::Faulty(FaultKind::NoSuchLine, 12)),
    (
        b"g 0\ng 15\ng 16\ng 19\ng 23\ng 24\n",
        Found::Faulty(FaultKind::NoEmptyClause, 17),
    ),
    (
        b"g 0\ng 15\ng 16\ng 19\ng 23\ng 24\nl ; 1 2 3 4 5 6\nd 1\n",
        Found::Faulty(FaultKind::NoEmptyClause, 19),
    ),
    (b"", Found::Faulty(FaultKind::NoEmptyClause, 11)),
];

#[test]
fn second_sections(rt: HostRuntime) -> Result<(), AllocError> {
    assert!(rt; wrong_row(rt.alloc(), WITH_HINTS, HINTED)? == None);
    Ok(())
}

const PLAIN: &[Row] = &[
    (b"g 0\ng 15\ng 16\ng 19\ng 23\ng 24\nl\n", Found::Valid),
    (
        b"g 0\ng 15\ng 19\ng 23\ng 24\nl\n",
        Found::Faulty(FaultKind::NotImplied, 16),
    ),
    (
        b"g 0\nl -A.0.0\nl D.9\n",
        Found::Faulty(FaultKind::NotImplied, 13),
    ),
];

#[test]
fn second_sections_without_hints(rt: HostRuntime) -> Result<(), AllocError> {
    assert!(rt; wrong_row(rt.alloc(), WITHOUT_HINTS, PLAIN)? == None);
    Ok(())
}
