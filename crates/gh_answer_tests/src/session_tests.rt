//! The mode `session`.

use crate::answers::{Case, wrong_case};
use gh_top::status::Status;
use std::alloc::AllocError;

// Two procedures, of which one is replaced.
const REPLACED: &[u8] = b"struct Node { var next: Node; }
%% nop
procedure nop()
{ }
%% two
procedure two()
{ }
%% nop
procedure nop()
  ensures emp
{ }
";

const REPLACED_ANSWERS: &[u8] = b"answer 1, 1 decided
verified: 1 of 1 valid
answer 2, 0 decided
verified: 2 of 2 valid
answer 3, 0 decided
verified: 2 of 2 valid
";

const BAD_LINE: &[u8] = b"struct Node { var next: Node; }
% nop
procedure nop()
{ }
%% two
procedure two()
{ }
%% nop
procedure nop()
  ensures emp
{ }
";

const STRANGE_BYTE: &[u8] = b"struct Node { var next: Node; }
%% nop
procedure nop()
{ }
%% two
@
%% nop
procedure nop()
  ensures emp
{ }
";

const STRANGE_ANSWERS: &[u8] = b"answer 1, 1 decided
verified: 1 of 1 valid
answer 2, 0 decided
refused: Byte at offset 52
answer 3, 0 decided
refused: Byte at offset 66
";

// No edit asks.
const SILENT: &[u8] = b"struct Node { var next: Node; }
%+ nop
procedure nop()
{ }
";

// A callee and its caller: the callee is changed in its contract, then in its body, then by a comment.
const CALLED: &[u8] = b"struct Node { var next: Node; }
%+ callee
procedure callee()
{ }
%% caller
procedure caller()
{ callee(); }
%% callee
procedure callee()
  ensures emp &*& null == null
{ }
%% callee
procedure callee()
  ensures emp &*& null == null
{ if (null == null) { } }
%% callee
procedure callee() // as before
  ensures emp &*& null == null
{ if (null == null) { } }
";

// The callee's return, and of the caller the entry of the callee and its own return: these two speak of the callee's
// contract, not of its body, which has two ways in the end.
const CALLED_ANSWERS: &[u8] = b"answer 1, 3 decided
verified: 3 of 3 valid
answer 2, 3 decided
verified: 3 of 3 valid
answer 3, 2 decided
verified: 4 of 4 valid
answer 4, 0 decided
verified: 4 of 4 valid
";

// A loop whose invariant changes, and then what its body assigns.
const LOOP: &[u8] = b"struct Node { var next: Node; }
%% walk
procedure walk(x: Node)
{
  var y, z: Node;
  y := x;
  while (y != null)
    invariant emp
  { y := null; }
}
%% walk
procedure walk(x: Node)
{
  var y, z: Node;
  y := x;
  while (y != null)
    invariant emp &*& null == null
  { y := null; }
}
%% walk
procedure walk(x: Node)
{
  var y, z: Node;
  y := x;
  while (y != null)
    invariant emp &*& null == null
  { z := null; y := null; }
}
";

// Each of the three conditions, the loop's entry, its end and the return after it, speaks of the loop.
const LOOP_ANSWERS: &[u8] = b"answer 1, 3 decided
verified: 3 of 3 valid
answer 2, 3 decided
verified: 3 of 3 valid
answer 3, 3 decided
verified: 3 of 3 valid
";

const OF_CALLED: Case<'static> = Case {
    words: &["session", "row"],
    text: b"",
    row: CALLED,
    status: Status::Listed,
    written: CALLED_ANSWERS,
};

const CASES: &[Case<'static>] = &[
    OF_CALLED,
    Case {
        row: LOOP,
        written: LOOP_ANSWERS,
        ..OF_CALLED
    },
    Case {
        row: REPLACED,
        written: REPLACED_ANSWERS,
        ..OF_CALLED
    },
    Case {
        row: STRANGE_BYTE,
        written: STRANGE_ANSWERS,
        ..OF_CALLED
    },
    Case {
        row: SILENT,
        written: b"",
        ..OF_CALLED
    },
    Case {
        row: BAD_LINE,
        status: Status::LogRefused,
        written: b"refused: session line 2\n",
        ..OF_CALLED
    },
];

#[test]
fn answers_of_sessions(rt: HostRuntime) -> Result<(), AllocError> {
    assert!(rt; wrong_case(rt.alloc(), CASES)? == None);
    Ok(())
}
