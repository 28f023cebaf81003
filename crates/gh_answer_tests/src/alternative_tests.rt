//! Programs with alternatives in `ensures`.

use crate::answers::{Case, wrong_case};
use gh_top::status::Status;
use std::alloc::AllocError;

const PICK: &[u8] = b"struct Node { var next: Node; }
procedure pick(x: Node) returns (y: Node)
  requires lseg(x, null)
  ensures y == null &*& x == null || y != null &*& lseg(y, null)
{
  y := x;
}
";

const USE: &[u8] = b"struct Node { var next: Node; }
procedure pick(x: Node) returns (y: Node)
  requires lseg(x, null)
  ensures y == null &*& x == null || y != null &*& lseg(y, null)
{
  y := x;
}
procedure use(x: Node) returns (y: Node)
  requires lseg(x, null)
  ensures lseg(y, null)
{
  y := pick(x);
}
";

// A list of two cells meets neither alternative.
pub(crate) const ONE_CELL: &[u8] = b"struct Node { var next: Node; }
procedure pick(x: Node) returns (y: Node)
  requires lseg(x, null)
  ensures y == null &*& x == null || x.next |-> null
{
  y := x;
}
";

const TWO_CELLS: &[u8] = b"drawing
condition 1
state 0
store x=1 y=0
heap 1->2 2->0
state 1
store x=1 y=1
heap 1->2 2->0
end
";

const TWICE_REQUIRED: &[u8] =
    b"struct Node { var next: Node; }\nprocedure p()\n  requires emp || emp\n{ }\n";

const OF_PICK: Case<'static> = Case {
    words: &["check", "row"],
    text: b"",
    row: PICK,
    status: Status::Verified,
    written: b"verified: 1 of 1 valid\n",
};

const CASES: &[Case<'static>] = &[
    OF_PICK,
    Case {
        words: &["paths", "row"],
        status: Status::Listed,
        written: b"1 pick from entry: return at 7:1, 1 steps, 1 versions, 2 terms\n1 conditions\n",
        ..OF_PICK
    },
    Case {
        row: USE,
        written: b"verified: 3 of 3 valid\n",
        ..OF_PICK
    },
    Case {
        words: &["replay", "text", "row"],
        text: ONE_CELL,
        row: TWO_CELLS,
        status: Status::Refuted,
        written: b"replayed: condition 1 of 1 is refuted\n",
    },
    // none in `requires`
    Case {
        row: TWICE_REQUIRED,
        status: Status::TextRefused,
        written: b"refused: Syntax at 3:16\n",
        ..OF_PICK
    },
];

#[test]
fn alternatives(rt: HostRuntime) -> Result<(), AllocError> {
    assert!(rt; wrong_case(rt.alloc(), CASES)? == None);
    Ok(())
}
