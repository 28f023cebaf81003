//! Worked lists of conditions.

use crate::answers::{Table, reports, wrong_table};
use gh_texts::{CONCAT, NODE, NOP, REUSE, REVERSE, SKIP};
use gh_top::status::Status;
use std::alloc::AllocError;

const NOP_PATHS: &[u8] = b"1 nop from entry: return at 5:3, 0 steps, 1 versions, 1 terms
1";

const REVERSE_PATHS: &[u8] = b"1 reverse from entry: loop entry at 9:3, 2 steps, 1 versions, 2 terms
2 reverse from entry: return at 17:1, 4 steps, 2 versions, 5 terms
3 reverse from loop at 9:3: access to c at 12:10, 1 steps, 1 versions, 3 terms
4 reverse from loop at 9:3: access to c at 13:5, 3 steps, 1 versions, 4 terms
5 reverse from loop at 9:3: loop end at 16:3, 7 steps, 2 versions, 4 terms
5";

const CONCAT_PATHS: &[u8] = b"1 concat from entry: return at 8:5, 2 steps, 1 versions, 3 terms
2 concat from entry: access to a at 10:17, 1 steps, 1 versions, 3 terms
3 concat from entry: entry of concat at 10:10, 2 steps, 1 versions, 4 terms
4 concat from entry: access to a at 11:5, 3 steps, 2 versions, 5 terms
5 concat from entry: return at 12:5, 6 steps, 3 versions, 6 terms
5";

const REUSE_PATHS: &[u8] = b"1 reuse from entry: access to x at 6:8, 0 steps, 1 versions, 3 terms
2 reuse from entry: return at 8:1, 3 steps, 3 versions, 6 terms
2";

const SKIP_PATHS: &[u8] = b"1 skip from entry: loop entry at 8:3, 1 steps, 1 versions, 2 terms
2 skip from entry: access to c at 8:23, 3 steps, 2 versions, 3 terms
3 skip from entry: return at 13:1, 5 steps, 2 versions, 4 terms
4 skip from entry: return at 13:1, 3 steps, 2 versions, 3 terms
5 skip from loop at 8:3: access to c at 8:23, 1 steps, 1 versions, 3 terms
6 skip from loop at 8:3: access to c at 11:10, 3 steps, 1 versions, 4 terms
7 skip from loop at 8:3: loop end at 12:3, 5 steps, 1 versions, 4 terms
7";

const NEST: &[u8] = b"struct Node { var next: Node; }
procedure nest(x: Node)
{
  var c: Node;
  if (!(x == null || c == x)) { return; c := x; }
  while (c != null) {
    while (x != c && c == null) { c := x; }
  }
}
";

const NEST_PATHS: &[u8] = b"1 nest from entry: loop entry at 6:3, 1 steps, 1 versions, 2 terms
2 nest from entry: return at 9:1, 3 steps, 2 versions, 3 terms
3 nest from entry: loop entry at 6:3, 2 steps, 1 versions, 3 terms
4 nest from entry: return at 9:1, 4 steps, 2 versions, 4 terms
5 nest from entry: return at 5:33, 3 steps, 1 versions, 3 terms
6 nest from loop at 6:3: loop entry at 7:5, 1 steps, 1 versions, 2 terms
7 nest from loop at 6:3: loop end at 8:3, 4 steps, 2 versions, 4 terms
8 nest from loop at 6:3: loop end at 8:3, 3 steps, 2 versions, 4 terms
9 nest from loop at 7:5: loop end at 7:43, 3 steps, 1 versions, 3 terms
9";

const LISTED: &[Table] = &[Table {
    words: &["paths", "row"],
    text: b"",
    head: b"",
    status: Status::Listed,
    before: b"",
    after: b" conditions\n",
    rows: &[
        (NODE, b"0"),
        (NOP, NOP_PATHS),
        (REVERSE, REVERSE_PATHS),
        (CONCAT, CONCAT_PATHS),
        (REUSE, REUSE_PATHS),
        (SKIP, SKIP_PATHS),
        (NEST, NEST_PATHS),
    ],
}];

#[test]
fn listed_programs(rt: HostRuntime) -> Result<(), AllocError> {
    assert!(rt; wrong_table(rt.alloc(), LISTED)? == None);
    let syntax = b"refused: Syntax at 1:1\n";
    assert!(rt; reports(rt.alloc(), "paths", b"", Status::TextRefused, syntax)?);
    Ok(())
}
