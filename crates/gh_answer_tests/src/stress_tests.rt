//! Generated programs.

use crate::answers::{Case, wrong_case};
use gh_texts::REVERSE;
use gh_top::status::Status;
use gh_top::stress::stress_text;
use std::alloc::AllocError;

const CASES: &[Case<'static>] = &[
    Case {
        words: &["stress", "1"],
        text: b"",
        row: b"",
        status: Status::Verified,
        written: b"stress 1: 2 procedures, 8 conditions, verified\n",
    },
    Case {
        words: &["stress", "255"],
        text: b"",
        row: b"",
        status: Status::Verified,
        written: b"stress 255: 256 procedures, 770 conditions, verified\n",
    },
];

#[test]
fn few_and_many_procedures(rt: HostRuntime) -> Result<(), AllocError> {
    assert!(rt; wrong_case(rt.alloc(), CASES)? == None);
    Ok(())
}

#[test]
fn the_text_of_one_procedure(rt: HostRuntime) -> Result<(), AllocError> {
    let text = stress_text(rt.alloc(), 1)?;
    let end = b"procedure step1(x: Node, z: Node) returns (y: Node)
  requires lseg(x, null) &*& lseg(z, null)
  ensures lseg(y, null) &*& lseg(z, null)
{
  y := reverse(x);
  y := reverse(y);
}
";
    assert!(rt; text.bytes().ends_with(end));
    assert!(rt; text.bytes().starts_with(REVERSE));
    Ok(())
}
