//! Proof logs that are written and judged.

use crate::answers::{Table, answer, answers, wrong_table};
use gh_texts::{LOG, NOP, REVERSE, SECOND, wide};
use gh_top::status::Status;
use std::alloc::{AllocError, Global};

// A log with one change in each row.
const DAMAGED: Table<'static> = Table {
    words: &["recheck", "text", "row"],
    text: NOP,
    head: b"grass log 1\n",
    status: Status::LogRefused,
    before: b"refused: log ",
    after: b"\n",
    rows: &[
        (
            b"condition 1\ng 0\ng 15\ng 19\ng 23\ng 24\nl\n",
            b"line 8, NotImplied",
        ),
        (
            b"condition 1\ng 0\ng 15\ng 16\ng 19\ng 23\ng 24\n",
            b"line 9, NoEmptyClause",
        ),
        (
            b"condition 1\ng 0\ng 15\ng 16\ng 19\ng 23\ng 25\nl\n",
            b"line 8, NotClause",
        ),
        (
            b"condition 1\ne -A.0.0\ng 15\ng 16\ng 19\ng 23\ng 24\nl\n",
            b"line 3, NotLemma",
        ),
        (
            b"condition 1\na 1 0 1\ng 15\ng 16\ng 19\ng 23\ng 24\nl\n",
            b"line 3, NotInstance",
        ),
        (
            b"condition 1\ng 00\ng 15\ng 16\ng 19\ng 23\ng 24\nl\n",
            b"line 3",
        ),
        (
            b"condition 1\ng 0\ng 15\ng 16\ng 19\ng 23\ng 24\nl\ncondition 2\nl\n",
            b"sections 2 of 1",
        ),
        (
            b"condition 1\ng 0\ng 15\ng 16\ng 19\ng 23\ng 24\nl",
            b"line 9",
        ),
        (
            b"condition 2\ng 0\ng 15\ng 16\ng 19\ng 23\ng 24\nl\n",
            b"line 2",
        ),
        (
            b"condition 1\ng 0\ng 15\ng 16\ng 19\ng 23\ng 24\nl E.0.0 E.1.0\n",
            b"line 9",
        ),
    ],
};

const NO_LOG: Table<'static> = Table {
    head: b"",
    rows: &[(b"", b"line 1")],
    ..DAMAGED
};

const VALID: Table<'static> = Table {
    head: LOG,
    status: Status::Verified,
    before: b"rechecked: ",
    after: b" valid\n",
    rows: &[(b"", b"1 of 1")],
    ..DAMAGED
};

const LOGS: &[Table] = &[DAMAGED, NO_LOG, VALID];

#[test]
fn judged_logs(rt: HostRuntime) -> Result<(), AllocError> {
    assert!(rt; wrong_table(rt.alloc(), LOGS)? == None);
    Ok(())
}

// A log of version 2 with one change in each row.
const HINTED: Table<'static> = Table {
    head: b"grass log 2\ncondition 1\ng 0\ng 15\ng 16\ng 19\ng 23\ng 24\n",
    rows: &[
        (b"l ; 1 2 3 4 5\n", b"line 9, NotImplied"),
        (b"l ; 1 2 4 3 5 6\n", b"line 9, NotImplied"),
        (b"l ; 1 2 3 4 5 7\n", b"line 9, NoSuchLine"),
        (b"d 2\nl ; 1 2 3 4 5 6\n", b"line 10, NoSuchLine"),
        (b"l ; 1 2 3 4 5 6\nd 1\n", b"line 11, NoEmptyClause"),
        (b"l\n", b"line 9"),
    ],
    ..DAMAGED
};

const VALID_HINTS: Table<'static> = Table {
    status: Status::Verified,
    before: b"rechecked: ",
    after: b" valid\n",
    rows: &[(b"l ; 1 2 3 4 5 6\n", b"1 of 1")],
    ..HINTED
};

const HINTS: &[Table] = &[HINTED, VALID_HINTS];

#[test]
fn judged_hints(rt: HostRuntime) -> Result<(), AllocError> {
    assert!(rt; wrong_table(rt.alloc(), HINTS)? == None);
    Ok(())
}

// The log of a program that is verified.
fn log_of(alloc: Global, program: &[u8]) -> Result<Option<Vec<u8>>, AllocError> {
    let found = answer(alloc, &["log", "row"], b"", program)?;
    if found.status == Status::Verified {
        Ok(Some(found.text))
    } else {
        Ok(None)
    }
}

// Whether the log that is written for a program is valid.
fn rechecks(alloc: Global, program: &[u8], line: &[u8]) -> Result<bool, AllocError> {
    let Some(log) = log_of(alloc, program)? else {
        return Ok(false);
    };
    let words = &["recheck", "text", "row"];
    answers(
        alloc,
        words,
        program,
        log.as_slice(),
        Status::Verified,
        line,
    )
}

#[test]
fn written_logs(rt: HostRuntime) -> Result<(), AllocError> {
    assert!(rt; rechecks(rt.alloc(), NOP, b"rechecked: 1 of 1 valid\n")?);
    assert!(rt; rechecks(rt.alloc(), REVERSE, b"rechecked: 5 of 5 valid\n")?);
    Ok(())
}

// Each call leaves the other list as it was. Searches find lemmas that say so, and hand them on to the next condition.
const FIVE_CALLS: &[u8] = b"struct Node { var next: Node; }
procedure rev(x: Node) returns (y: Node)
  requires lseg(x, null)
  ensures lseg(y, null)
{ y := x; }
procedure p(a1: Node, a2: Node) returns (r1: Node, r2: Node)
  requires lseg(a1, null) &*& lseg(a2, null)
  ensures lseg(r1, null) &*& lseg(r2, null)
{
  r1 := a1;
  r2 := a2;
  r1 := rev(r1);
  r2 := rev(r2);
  r1 := rev(r1);
  r2 := rev(r2);
  r1 := rev(r1);
}
";

#[test]
fn logs_of_searches_with_lemmas(rt: HostRuntime) -> Result<(), AllocError> {
    assert!(rt; rechecks(rt.alloc(), FIVE_CALLS, b"rechecked: 7 of 7 valid\n")?);
    Ok(())
}

// How many lines after the first are instances.
fn count_instances(log: &[u8]) -> usize {
    let start = b"\na ".as_slice();
    log.windows(3).filter(|here| **here == *start).count()
}

// Of the 682,020 instances over the terms of a wide program its log names few.
#[test]
fn a_log_of_few_instances(rt: HostRuntime) -> Result<(), AllocError> {
    let alloc = rt.alloc();
    let program = wide(alloc, 19)?;
    let log = log_of(alloc, program.as_slice())?;
    assert!(rt; log.is_some_and(|log| count_instances(log.as_slice()) < 10_000));
    Ok(())
}

// Whether a program has no log: `log` writes the report of `check`.
fn is_refuted(alloc: Global, program: &[u8]) -> Result<bool, AllocError> {
    let log = answer(alloc, &["log", "row"], b"", program)?;
    let check = answer(alloc, &["check", "row"], b"", program)?;
    Ok(log.status == Status::Refuted && log.text.as_slice() == check.text.as_slice())
}

#[test]
fn no_log(rt: HostRuntime) -> Result<(), AllocError> {
    assert!(rt; is_refuted(rt.alloc(), SECOND)?);
    Ok(())
}
