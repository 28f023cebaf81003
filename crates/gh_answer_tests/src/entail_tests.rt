//! What `entail` answers for worked questions.

use crate::answers::{Case, answer, wrong_case};
use gh_top::status::Status;
use std::alloc::{AllocError, Global};

const NOWHERE: &[u8] = b"var x: Node;
requires { x == null }
ensures { acc(x) }
";

const NOWHERE_REPORT: &[u8] = b"not entailed
drawing
condition 1
state 0
store x=0
heap
end
";

// Whether the answer to a question over w, x, y and z is Verified; none for another answer, or for
// one whose first line says otherwise.
fn verdict(alloc: Global, question: &[u8]) -> Result<Option<bool>, AllocError> {
    let mut text = Vec::from_slice(alloc, b"var w, x, y, z: Node; requires ")?;
    text.extend_from_slice(question)?;
    let found = answer(alloc, &["entail", "row"], b"", text.as_slice())?;
    match found.status {
        Status::Verified if found.text.starts_with(b"entailed\ngrass log 2\n") => Ok(Some(true)),
        Status::Refuted if found.text.starts_with(b"not entailed\ndrawing\n") => Ok(Some(false)),
        _ => Ok(None),
    }
}

// The first question that is answered otherwise.
fn wrong_question(alloc: Global, rows: &[(&[u8], bool)]) -> Result<Option<usize>, AllocError> {
    for (number, row) in rows.iter().enumerate() {
        if verdict(alloc, row.0)? != Some(row.1) {
            return Ok(Some(number));
        }
    }
    Ok(None)
}

const QUESTIONS: &[(&[u8], bool)] = &[
    // segments in a row are one segment where the end lies outside the first
    (
        b"{ lseg(x, y) &*& lseg(y, null) } ensures { lseg(x, null) }",
        true,
    ),
    (
        b"{ lseg(x, y) &*& lseg(y, z) } ensures { lseg(x, z) }",
        false,
    ),
    (
        b"{ lseg(x, y) &*& lseg(y, z) &*& z.next |-> w } ensures { lseg(x, z) &*& z.next |-> w }",
        true,
    ),
    (
        b"{ lseg(x, null) } ensures { lseg(x, y) &*& lseg(y, null) }",
        false,
    ),
    (
        b"{ lseg(x, null) } && { lseg(y, null) } ensures { emp } || { lseg(x, y) &*& lseg(y, null) }",
        true,
    ),
    // a cell at the front or at the end
    (
        b"{ x.next |-> y &*& lseg(y, null) } ensures { lseg(x, null) }",
        true,
    ),
    (
        b"{ x.next |-> y &*& lseg(y, z) } ensures { lseg(x, z) }",
        false,
    ),
    (
        b"{ x != z &*& x.next |-> y &*& lseg(y, z) } ensures { lseg(x, z) }",
        true,
    ),
    (
        b"{ lseg(x, y) &*& y.next |-> null } ensures { lseg(x, null) }",
        true,
    ),
    (
        b"{ lseg(x, y) &*& y.next |-> z } ensures { lseg(x, z) }",
        false,
    ),
    // a segment is no cycle, and two segments from one cell have an empty one among them
    (b"{ lseg(x, x) } ensures { emp }", true),
    (b"{ lseg(x, y) &*& lseg(y, x) } ensures { emp }", false),
    (
        b"{ x != y &*& lseg(x, y) &*& lseg(y, x) } ensures { lseg(x, x) }",
        false,
    ),
    (
        b"{ lseg(x, y) &*& lseg(x, z) } ensures { lseg(x, y) } || { lseg(x, z) }",
        true,
    ),
    (b"{ acc(x) &*& acc(x) } ensures { emp }", true),
    // the whole heap is judged, under denials too
    (
        b"{ lseg(x, null) } && !{ emp } ensures !{ x == null } && !{ x != null }",
        true,
    ),
    (b"!{ x == y } ensures { x != y }", false),
    (
        b"{ x == y } || { lseg(x, y) } && { emp } ensures { x == y }",
        true,
    ),
    (b"!({ acc(x) } || { emp }) ensures !{ x.next |-> y }", true),
    (
        b"{ acc(x) } ensures { lseg(x, null) } || { x.next |-> y }",
        false,
    ),
];

#[test]
fn questions(rt: HostRuntime) -> Result<(), AllocError> {
    assert!(rt; wrong_question(rt.alloc(), QUESTIONS)? == None);
    Ok(())
}

const NOTHING: Case<'static> = Case {
    words: &["entail", "row"],
    text: b"",
    row: b"",
    status: Status::TextRefused,
    written: b"refused: Syntax at 1:1\n",
};

const CASES: &[Case<'static>] = &[
    Case {
        row: NOWHERE,
        status: Status::Refuted,
        written: NOWHERE_REPORT,
        ..NOTHING
    },
    NOTHING,
    Case {
        row: b"requires { emp } ensures { x == null }",
        written: b"refused: UnknownName at 1:28\n",
        ..NOTHING
    },
    Case {
        row: b"var x, x: Node; requires { y == x } ensures { emp }",
        written: b"refused: DuplicateName at 1:8\n",
        ..NOTHING
    },
    Case {
        row: b"requires { emp } ensures { emp } }",
        written: b"refused: Syntax at 1:34\n",
        ..NOTHING
    },
    Case {
        row: b"requires @",
        written: b"refused: Byte at offset 9\n",
        ..NOTHING
    },
];

#[test]
fn no_cell_at_null_and_refusals(rt: HostRuntime) -> Result<(), AllocError> {
    assert!(rt; wrong_case(rt.alloc(), CASES)? == None);
    Ok(())
}
