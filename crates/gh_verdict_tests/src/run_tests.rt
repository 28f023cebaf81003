//! Concrete runs of worked programs from state files.

use gh_draw::drawing::state_lines;
use gh_parse::parse::parse;
use gh_run::simulate::{Report, simulate};
use gh_run::state_file::{StateError, read_state};
use gh_texts::{DROP, SECOND};
use gh_trace::state::State;
use gh_types::check::check;
use gh_types::counts::MOST_BYTES;
use std::alloc::{AllocError, Global};

// What a run comes to, with the two lines of its state, or the line of a state file that isn't as said.
#[derive(Clone, Copy)]
enum Said<'a> {
    Line(u32),
    Unmet,
    Faulted(u32, &'a [u8]),
    Ended(u32, bool, &'a [u8]),
    Stopped(u32, &'a [u8]),
}

// Whether a state has these two lines.
fn has_lines(alloc: Global, state: &State, lines: &[u8]) -> Result<bool, AllocError> {
    Ok(state_lines(alloc, state)?.bytes() == lines)
}

// Whether a report is as said.
fn is_said(alloc: Global, report: &Report, said: Said<'_>) -> Result<bool, AllocError> {
    match (report, said) {
        (Report::Unmet, Said::Unmet) => Ok(true),
        (Report::Faulted { steps, state }, Said::Faulted(count, lines)) => {
            Ok(*steps == count && has_lines(alloc, state, lines)?)
        }
        (Report::Ended { steps, state, met }, Said::Ended(count, holds, lines)) => {
            Ok(*steps == count && *met == holds && has_lines(alloc, state, lines)?)
        }
        (Report::Stopped { steps, state }, Said::Stopped(count, lines)) => {
            Ok(*steps == count && has_lines(alloc, state, lines)?)
        }
        _ => Ok(false),
    }
}

// Whether this line is said not to be as it should.
fn is_line(said: Said<'_>, line: u32) -> bool {
    match said {
        Said::Line(number) => number == line,
        _ => false,
    }
}

// Whether the run of a program from a state file comes to what is said.
fn comes(
    alloc: Global,
    text: &[u8],
    file: &[u8],
    limit: u32,
    said: Said<'_>,
) -> Result<bool, AllocError> {
    if text.len() > MOST_BYTES || file.len() > 4_194_304 || limit > 1_000_000 {
        return Ok(false);
    }
    let Ok(program) = parse(alloc, text) else {
        return Ok(false);
    };
    let Ok(typed) = check(alloc, program) else {
        return Ok(false);
    };
    let begin = match read_state(alloc, &typed, file) {
        Ok(begin) => begin,
        Err(StateError::Line { line }) => return Ok(is_line(said, line)),
        Err(StateError::OutOfMemory) => return Err(AllocError),
    };
    let report = simulate(alloc, &typed, &begin, limit)?;
    is_said(alloc, &report, said)
}

// A procedure that calls itself, and one that makes a cell.
const FRESH: &[u8] = b"struct Node { var next: Node; }
procedure made(x: Node) returns (y: Node)
  requires acc(x)
  ensures acc(x) &*& acc(y)
{
  var t: Node;
  y := made(x);
  return y;
}
procedure cell() returns (y: Node)
  requires emp
  ensures acc(y)
{ y := new Node; return y; }
";

// A program, a state file, the most steps, and what is said.
type Row = (&'static [u8], &'static [u8], u32, Said<'static>);

// The first run that comes to something else.
fn wrong_row(alloc: Global, rows: &[Row]) -> Result<Option<usize>, AllocError> {
    for (number, (text, file, limit, said)) in rows.iter().enumerate() {
        if !comes(alloc, text, file, *limit, *said)? {
            return Ok(Some(number));
        }
    }
    Ok(None)
}

const ALLOCATED: &[u8] = b"procedure second\nstore x=1 y=7\nheap 1->0 5->5\nend\n";

const REPORTS: &[Row] = &[
    (
        SECOND,
        ALLOCATED,
        5,
        Said::Ended(1, true, b"store x=1 y=0\nheap 1->0 5->5\n"),
    ),
    (
        SECOND,
        ALLOCATED,
        1,
        Said::Stopped(1, b"store x=1 y=0\nheap 1->0 5->5\n"),
    ),
    (
        SECOND,
        b"procedure second\nstore x=0 y=0\nheap\nend\n",
        5,
        Said::Faulted(0, b"store x=0 y=0\nheap\n"),
    ),
    (
        SECOND,
        b"procedure second\nstore x=1 y=0\nheap\nend\n",
        5,
        Said::Unmet,
    ),
    (
        DROP,
        b"procedure drop\nstore x=1 y=0\nheap 1->2 2->0\nend\n",
        5,
        Said::Ended(1, false, b"store x=1 y=2\nheap 1->2 2->0\n"),
    ),
    // the least free place lies between two cells, and the return isn't counted
    (
        FRESH,
        b"procedure cell\nstore y=9\nheap 1->8 4->4\nend\n",
        5,
        Said::Ended(1, true, b"store y=2\nheap 1->8 2->0 4->4\n"),
    ),
    // a callee's results and locals begin with 0
    (
        FRESH,
        b"procedure made\nstore x=1 y=5 t=6\nheap 1->3\nend\n",
        7,
        Said::Stopped(7, b"store x=1 y=0 t=0\nheap 1->3\n"),
    ),
];

#[test]
fn reports_of_runs(rt: HostRuntime) -> Result<(), AllocError> {
    assert!(rt; wrong_row(rt.alloc(), REPORTS)? == None);
    Ok(())
}

const FAULTY: &[Row] = &[
    (SECOND, b"", 5, Said::Line(1)),
    (
        SECOND,
        b"procedure other\nstore x=1 y=7\nheap\nend\n",
        5,
        Said::Line(1),
    ),
    (SECOND, b"procedure second", 5, Said::Line(1)),
    (
        SECOND,
        b"procedure second\nstore x=1\nheap\nend\n",
        5,
        Said::Line(2),
    ),
    (
        SECOND,
        b"procedure second\nstore x=1 y=07\nheap\nend\n",
        5,
        Said::Line(2),
    ),
    (
        SECOND,
        b"procedure second\nstore x=1 y=4294967296\nheap\nend\n",
        5,
        Said::Line(2),
    ),
    (
        SECOND,
        b"procedure second\nstore x=1 y=7\nheap 2->1 1->0\nend\n",
        5,
        Said::Line(3),
    ),
    (
        SECOND,
        b"procedure second\nstore x=1 y=7\nheap 0->1\nend\n",
        5,
        Said::Line(3),
    ),
    (
        SECOND,
        b"procedure second\nstore x=1 y=7\nheap\nend",
        5,
        Said::Line(4),
    ),
    (
        SECOND,
        b"procedure second\nstore x=1 y=7\nheap\nend\n\n",
        5,
        Said::Line(5),
    ),
];

#[test]
fn first_lines_that_are_faulty(rt: HostRuntime) -> Result<(), AllocError> {
    assert!(rt; wrong_row(rt.alloc(), FAULTY)? == None);
    Ok(())
}
