//! Twenty small procedures, with verdicts that were worked out by hand.

use crate::answers::{answer, joined};
use gh_top::status::Status;
use std::alloc::{AllocError, Global};

const HEAD: &[u8] = b"struct Node { var next: Node; }
procedure p(a: Node, b: Node, c: Node) returns (r: Node, s: Node)
";

// The first contracts and body after the procedure's head whose check ends with another status.
fn other(alloc: Global, status: Status, all: &[&[u8]]) -> Result<Option<usize>, AllocError> {
    for (number, rest) in all.iter().enumerate() {
        let text = joined(alloc, HEAD, rest, b"\n")?;
        if answer(alloc, &["check", "row"], b"", text.as_slice())?.status != status {
            return Ok(Some(number));
        }
    }
    Ok(None)
}

const VERIFIED: &[&[u8]] = &[
    b"requires a == b &*& b == c\nensures a == c\n{ }",
    b"requires a == null &*& b == null\nensures a == b\n{ }",
    b"requires a != a\nensures a == b\n{ }",
    b"requires a == b &*& a != b\nensures b == null\n{ }",
    b"requires a == null &*& b == a &*& b != null\nensures c != c\n{ }",
    b"ensures a == a &*& emp\n{ }",
    b"requires a != b\nensures b != a\n{ }",
    b"requires a == b &*& b != c\nensures a != c\n{ }",
    b"ensures r == r\n{ }",
    b"ensures r == null\n{ r := null; }",
    b"requires a != null\nensures r != null\n{ r := a; }",
    b"ensures s == a\n{ r := a; s := r; }",
    b"requires a != null &*& a == b\nensures b != null\n{ }",
    b"requires null != null\nensures null != null\n{ }",
];

const REFUTED: &[&[u8]] = &[
    b"requires a == b\nensures b == c\n{ }",
    b"requires a != b &*& b != c\nensures a != c\n{ }",
    b"ensures r == null\n{ }",
    b"ensures r == a\n{ var t: Node; r := t; }",
    b"ensures r == a\n{ r := a; r := b; }",
    b"ensures null != null\n{ }",
];

#[test]
fn verdicts(rt: HostRuntime) -> Result<(), AllocError> {
    assert!(rt; other(rt.alloc(), Status::Verified, VERIFIED)? == None);
    assert!(rt; other(rt.alloc(), Status::Refuted, REFUTED)? == None);
    Ok(())
}
