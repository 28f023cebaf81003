//! Texts that don't parse or break a type rule, with the refusals that are named.

use crate::answers::{Table, wrong_table};
use gh_texts::NODE;
use gh_top::status::Status;
use std::alloc::AllocError;

const WHOLE: Table<'static> = Table {
    words: &["check", "row"],
    text: b"",
    head: b"",
    status: Status::TextRefused,
    before: b"refused: ",
    after: b"\n",
    rows: &[
        (b"", b"Syntax at 1:1"),
        (
            b"struct Node { var next: Node; var prev: Node; }",
            b"SecondLink at 1:35",
        ),
        (
            b"struct Node { var next: Node; var data: Int; }",
            b"DataField at 1:35",
        ),
        (b"struct Node { }", b"NoLink at 1:15"),
        (
            b"struct Node { var next: Node;\n  var prev: Node; }",
            b"SecondLink at 2:7",
        ),
        (
            b"struct Node { var next: Node;\n  var data: Int; }",
            b"DataField at 2:7",
        ),
        (b"struct Node {\n}", b"NoLink at 2:1"),
    ],
};

// Procedures after the line of the struct.
const PROCEDURES: Table<'static> = Table {
    words: &["check", "row"],
    text: b"",
    head: NODE,
    status: Status::TextRefused,
    before: b"refused: ",
    after: b"\n",
    rows: &[
        (b"@", b"Byte at offset 32"),
        (b"procedure p( { }", b"Syntax at 2:14"),
        (
            b"procedure r()\n{\n  while (null == null)\n  {\n    return;\n  }\n}",
            b"ReturnInLoop at 6:5",
        ),
        (
            b"procedure p(x: Node) returns (x: Node)\n{ }",
            b"DuplicateName at 2:31",
        ),
        (
            b"procedure p() { }\nprocedure p() { }",
            b"DuplicateName at 3:11",
        ),
        // the first procedure of a name is the one that is called
        (
            b"procedure q() { }\nprocedure q(x: Node) { }\nprocedure p() { q(); }",
            b"DuplicateName at 3:11",
        ),
    ],
};

// The rest of a procedure. Of several errors the first is named.
const BODIES: Table<'static> = Table {
    words: &["check", "row"],
    text: b"",
    head: b"struct Node { var next: Node; }\nprocedure p(x: Node) returns (y: Node)\n",
    status: Status::TextRefused,
    before: b"refused: ",
    after: b"\n",
    rows: &[
        (b"{ y := z; }", b"UnknownName at 3:8"),
        (b"{ var x: Node; }", b"DuplicateName at 3:7"),
        (b"{ x := null; }", b"AssignToParameter at 3:3"),
        (b"{ return; }", b"WrongCount at 3:3"),
        (b"{ y := q(x); }", b"UnknownProcedure at 3:8"),
        (b"{ y, y := p(x); }", b"RepeatedResult at 3:6"),
        (b"requires y == null\n{ }", b"NameOutOfContract at 3:10"),
        (b";", b"NoBody at 3:1"),
        (b"{ x := null; y := z; }", b"AssignToParameter at 3:3"),
        (b"{ y := z; x := null; }", b"UnknownName at 3:8"),
        (b"{ y := x; y := z; }", b"UnknownName at 3:16"),
        (b"{ z, z := p(x); }", b"UnknownName at 3:3"),
        (
            b"requires t == x\n{ var t, x: Node; }",
            b"NameOutOfContract at 3:10",
        ),
        (b"{ var t, t: Node; }", b"DuplicateName at 3:10"),
        (b"{ y := x; x := y; }", b"AssignToParameter at 3:11"),
        (b"{ y := x; return; }", b"WrongCount at 3:11"),
        (
            b"{ while (x == y) { y := x; return x; } }",
            b"ReturnInLoop at 3:28",
        ),
        (b"{ y := p(x); y := q(x); }", b"UnknownProcedure at 3:19"),
        (
            b"requires x == x &*& y == x\n{ }",
            b"NameOutOfContract at 3:21",
        ),
        (b"{ y := x; y, y := p(x); }", b"RepeatedResult at 3:14"),
        (b"{ }\nprocedure q();", b"NoBody at 4:14"),
    ],
};

const TABLES: &[Table] = &[WHOLE, PROCEDURES, BODIES];

#[test]
fn refusals(rt: HostRuntime) -> Result<(), AllocError> {
    assert!(rt; wrong_table(rt.alloc(), TABLES)? == None);
    Ok(())
}
