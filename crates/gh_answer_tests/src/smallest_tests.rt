//! What `smallest` answers for worked programs.

use crate::answers::{Case, answer, wrong_case};
use gh_texts::{CUT, DROP, LAST, NOP, RING, SECOND};
use gh_top::status::Status;
use std::alloc::{AllocError, Global};

const SECOND_REPORT: &[u8] = b"smallest: condition 1 of 2, 0 cells
second from entry: access to x at 6:8
drawing
condition 1
state 0
store x=0 y=0
heap
end
";

const CASES: &[Case<'static>] = &[
    Case {
        words: &["smallest", "row"],
        text: b"",
        row: SECOND,
        status: Status::Refuted,
        written: SECOND_REPORT,
    },
    Case {
        words: &["smallest", "row"],
        text: b"",
        row: NOP,
        status: Status::Verified,
        written: b"verified: 1 of 1 valid\n",
    },
];

#[test]
fn no_cell_and_nothing_refuted(rt: HostRuntime) -> Result<(), AllocError> {
    assert!(rt; wrong_case(rt.alloc(), CASES)? == None);
    Ok(())
}

const FIVE: &[u8] = b"struct Node { var next: Node; }
procedure five(a: Node, b: Node, c: Node, d: Node, e: Node, f: Node)
  requires acc(a) &*& acc(b) &*& acc(c) &*& acc(d) &*& acc(e) &*& lseg(f, null)
  ensures lseg(f, null)
{ }
";

// A text, and the first line of its report.
type Line<'a> = (&'a [u8], &'a [u8]);

const LINES: &[Line<'static>] = &[
    (DROP, b"smallest: condition 2 of 2, 1 cells\n"),
    (CUT, b"smallest: condition 2 of 2, 2 cells\n"),
    (LAST, b"smallest: condition 2 of 4, 1 cells\n"),
    (RING, b"smallest: condition 1 of 1, 2 cells\n"),
    (FIVE, b"smallest: condition 1 of 1, 5 cells\n"),
];

// The first text whose report begins with another line.
fn wrong_line(alloc: Global, rows: &[Line<'_>]) -> Result<Option<usize>, AllocError> {
    for (number, row) in rows.iter().enumerate() {
        let found = answer(alloc, &["smallest", "row"], b"", row.0)?;
        if found.status != Status::Refuted || !found.text.as_slice().starts_with(row.1) {
            return Ok(Some(number));
        }
    }
    Ok(None)
}

#[test]
fn fewest_cells(rt: HostRuntime) -> Result<(), AllocError> {
    assert!(rt; wrong_line(rt.alloc(), LINES)? == None);
    Ok(())
}
