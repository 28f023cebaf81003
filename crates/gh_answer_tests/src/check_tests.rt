//! What `check` answers for worked programs.

use crate::alternative_tests::ONE_CELL;
use crate::answers::{Table, answer, answers, joined, wrong_table};
use gh_texts::{
    BOTH, CONCAT, CUT, DROP, FAULTY, LAST, NODE, NOP, OUTER, REUSE, REVERSE, RING, SECOND, SKIP,
    TWICE,
};
use gh_top::status::Status;
use std::alloc::{AllocError, Global};

const SWAP: &[u8] = b"struct Node { var next: Node; }
procedure swap(a: Node, b: Node) returns (c: Node, d: Node)
  requires a != b
  ensures c == b &*& d == a &*& c != d
{
  var t: Node;
  t := a;
  c := b;
  d := t;
}
";

// A procedure and a variable may have the same name.
const SHARED: &[u8] = b"struct Node { var next: Node; }
procedure p(p: Node) returns (y: Node)
ensures y == p
{ y := p; }
";

const VERIFIED: &[Table] = &[Table {
    words: &["check", "row"],
    text: b"",
    head: b"",
    status: Status::Verified,
    before: b"verified: ",
    after: b" valid\n",
    rows: &[
        (NODE, b"0 of 0"),
        (NOP, b"1 of 1"),
        (REVERSE, b"5 of 5"),
        (CONCAT, b"5 of 5"),
        (BOTH, b"3 of 3"),
        (TWICE, b"3 of 3"),
        (SKIP, b"7 of 7"),
        (SWAP, b"1 of 1"),
        (SHARED, b"1 of 1"),
    ],
}];

#[test]
fn verified_programs(rt: HostRuntime) -> Result<(), AllocError> {
    assert!(rt; wrong_table(rt.alloc(), VERIFIED)? == None);
    Ok(())
}

const SAME: &[u8] = b"struct Node { var next: Node; }
procedure swap(a: Node, b: Node) returns (c: Node, d: Node)
  requires a != b
  ensures c == b &*& d == a &*& c != d
{
  var t: Node;
  t := a;
  c := a;
  d := a;
}
";

const NULL: &[u8] = b"struct Node { var next: Node; }
procedure same(a: Node)
  ensures a == null
{ }
";

const SECOND_REPORT: &[u8] = b"refuted: condition 1 of 2, 0 valid before it
second from entry: access to x at 6:8
drawing
condition 1
state 0
store x=0 y=0
heap
end
";

const CUT_REPORT: &[u8] = b"refuted: condition 2 of 2, 1 valid before it
cut from entry: return at 7:1
drawing
condition 2
state 0
store x=1
heap 1->2 2->0
state 1
store x=1
heap 1->2 2->0
state 2
store x=1
heap 1->0 2->0
end
";

const LAST_REPORT: &[u8] = b"refuted: condition 2 of 4, 1 valid before it
last from entry: return at 12:1
drawing
condition 2
state 0
store x=1 y=0
heap 1->0
state 1
store x=1 y=1
heap 1->0
state 2
store x=1 y=0
heap
state 3
store x=1 y=0
heap
end
";

const FAULTY_REPORT: &[u8] = b"refuted: condition 2 of 5, 1 valid before it
bad from entry: access to x at 8:8
drawing
condition 2
state 0
store x=0
heap
end
";

const RING_REPORT: &[u8] = b"refuted: condition 1 of 1, 0 valid before it
ring from entry: return at 5:3
drawing
condition 1
state 0
store x=1 y=2
heap 1->2 2->1
end
";

const NULL_REPORT: &[u8] = b"refuted: condition 1 of 1, 0 valid before it
same from entry: return at 4:3
drawing
condition 1
state 0
store a=1
heap
end
";

const DROP_LINES: &[u8] = b"refuted: condition 2 of 2, 1 valid before it
drop from entry: return at 7:1
drawing
";

const OUTER_LINES: &[u8] = b"refuted: condition 3 of 3, 2 valid before it
outer from entry: return at 13:1
drawing
";

const REUSE_LINES: &[u8] = b"refuted: condition 2 of 2, 1 valid before it
reuse from entry: return at 8:1
drawing
";

const ONE_CELL_LINE: &[u8] = b"refuted: condition 1 of 1, 0 valid before it\n";

const SAME_LINES: &[u8] = b"refuted: condition 1 of 1, 0 valid before it
swap from entry: return at 10:1
drawing
";

// A text, the first lines of the report that refutes it, and which of its conditions is refuted.
type Report<'a> = (&'a [u8], &'a [u8], &'a [u8]);

// Where one counterexample alone has the numbers of terms as its values, the whole report is there.
const REFUTED: &[Report<'static>] = &[
    (SECOND, SECOND_REPORT, b"1 of 2"),
    (DROP, DROP_LINES, b"2 of 2"),
    (CUT, CUT_REPORT, b"2 of 2"),
    (LAST, LAST_REPORT, b"2 of 4"),
    (OUTER, OUTER_LINES, b"3 of 3"),
    (FAULTY, FAULTY_REPORT, b"2 of 5"),
    (RING, RING_REPORT, b"1 of 1"),
    (REUSE, REUSE_LINES, b"2 of 2"),
    (SAME, SAME_LINES, b"1 of 1"),
    (NULL, NULL_REPORT, b"1 of 1"),
    (ONE_CELL, ONE_CELL_LINE, b"1 of 1"),
];

// Whether a text is refuted like this, and the report is a drawing file.
fn is_refuted(alloc: Global, row: Report<'_>) -> Result<bool, AllocError> {
    let report = answer(alloc, &["check", "row"], b"", row.0)?;
    let report_text = report.text.as_slice();
    if report.status != Status::Refuted || !report_text.starts_with(row.1) {
        return Ok(false);
    }
    let line = joined(alloc, b"replayed: condition ", row.2, b" is refuted\n")?;
    let words = &["replay", "text", "row"];
    answers(
        alloc,
        words,
        row.0,
        report_text,
        Status::Refuted,
        line.as_slice(),
    )
}

fn wrong_report(alloc: Global, rows: &[Report<'_>]) -> Result<Option<usize>, AllocError> {
    for (number, row) in rows.iter().enumerate() {
        if !is_refuted(alloc, *row)? {
            return Ok(Some(number));
        }
    }
    Ok(None)
}

#[test]
fn refuted_programs(rt: HostRuntime) -> Result<(), AllocError> {
    assert!(rt; wrong_report(rt.alloc(), REFUTED)? == None);
    Ok(())
}
