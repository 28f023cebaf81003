//! Worked programs, a log and a drawing, as texts, which several crates of tests share.
#![tactic(auto)]

use std::alloc::{AllocError, Global};

/// No procedure.
pub const NODE: &[u8] = b"struct Node { var next: Node; }
";

/// Nothing is done.
pub const NOP: &[u8] = b"struct Node { var next: Node; }
procedure nop()
  requires emp
  ensures emp
{ }
";

/// A log of it.
pub const LOG: &[u8] = b"grass log 1
condition 1
g 0
g 15
g 16
g 19
g 23
g 24
l
";

/// A list is reversed.
pub const REVERSE: &[u8] = b"struct Node { var next: Node; }
procedure reverse(x: Node) returns (y: Node)
  requires lseg(x, null)
  ensures lseg(y, null)
{
  var c, t: Node;
  c := x;
  y := null;
  while (c != null)
    invariant lseg(y, null) &*& lseg(c, null)
  {
    t := c.next;
    c.next := y;
    y := c;
    c := t;
  }
}
";

/// Two lists are joined, by recursion.
pub const CONCAT: &[u8] = b"struct Node { var next: Node; }
procedure concat(a: Node, b: Node) returns (r: Node)
  requires lseg(a, null) &*& lseg(b, null)
  ensures lseg(r, null)
{
  var n: Node;
  if (a == null) {
    return b;
  } else {
    n := concat(a.next, b);
    a.next := n;
    return a;
  }
}
";

/// A read that may be of null.
pub const SECOND: &[u8] = b"struct Node { var next: Node; }
procedure second(x: Node) returns (y: Node)
  requires lseg(x, null)
  ensures lseg(x, null)
{
  y := x.next;
}
";

/// The first cell is dropped and not freed.
pub const DROP: &[u8] = b"struct Node { var next: Node; }
procedure drop(x: Node) returns (y: Node)
  requires x != null &*& lseg(x, null)
  ensures lseg(y, null)
{
  y := x.next;
}
";

/// A drawing of its counterexample.
pub const DROPPED: &[u8] = b"drawing
condition 2
state 0
store x=1 y=0
heap 1->0
state 1
store x=1 y=0
heap 1->0
state 2
store x=1 y=0
heap 1->0
end
";

/// The old content of a written cell leaks.
pub const CUT: &[u8] = b"struct Node { var next: Node; }
procedure cut(x: Node)
  requires x != null &*& lseg(x, null)
  ensures x.next |-> null
{
  x.next := null;
}
";

/// The invariant forgets what was walked.
pub const LAST: &[u8] = b"struct Node { var next: Node; }
procedure last(x: Node) returns (y: Node)
  requires lseg(x, null)
  ensures lseg(x, null)
{
  y := x;
  while (y != null)
    invariant lseg(y, null)
  {
    y := y.next;
  }
}
";

/// A call on one of two lists.
pub const BOTH: &[u8] = b"struct Node { var next: Node; }
procedure touch(a: Node) returns (b: Node)
  requires lseg(a, null)
  ensures lseg(b, null)
{
  b := a;
}
procedure both(x: Node, y: Node) returns (r: Node)
  requires lseg(x, null) &*& lseg(y, null)
  ensures lseg(r, null) &*& lseg(y, null)
{
  r := touch(x);
}
";

/// A cell that is kept leads into the list that the callee rebuilds.
pub const OUTER: &[u8] = b"struct Node { var next: Node; }
procedure touch(a: Node) returns (b: Node)
  requires lseg(a, null)
  ensures lseg(b, null)
{
  b := a;
}
procedure outer(x: Node, n: Node) returns (r: Node)
  requires x.next |-> n &*& lseg(n, null)
  ensures lseg(x, null)
{
  r := touch(n);
}
";

/// Two faulty procedures, and contracts that are missing.
pub const FAULTY: &[u8] = b"struct Node { var next: Node; }
procedure fine()
{ }
procedure bad(x: Node)
  requires lseg(x, null)
  ensures lseg(x, null)
{
  free x;
}
procedure worse(x: Node)
{
  x.next := x;
}
";

/// A cycle isn't an empty segment.
pub const RING: &[u8] = b"struct Node { var next: Node; }
procedure ring(x: Node, y: Node)
  requires x != y &*& lseg(x, y) &*& lseg(y, x)
  ensures lseg(x, x)
{ }
";

/// What is required is met by no heap.
pub const TWICE: &[u8] = b"struct Node { var next: Node; }
procedure twice(x: Node, y: Node, z: Node)
  requires x.next |-> y &*& x.next |-> z
  ensures emp
{
  free x;
  free x;
}
";

/// A freed place may come back.
pub const REUSE: &[u8] = b"struct Node { var next: Node; }
procedure reuse(x: Node) returns (y: Node)
  requires acc(x)
  ensures acc(y) &*& x != y
{
  free x;
  y := new Node;
}
";

/// A test stops early.
pub const SKIP: &[u8] = b"struct Node { var next: Node; }
procedure skip(x: Node)
  requires lseg(x, null)
  ensures lseg(x, null)
{
  var c: Node;
  c := x;
  while (c != null && c.next != null)
    invariant lseg(x, c) &*& lseg(c, null)
  {
    c := c.next;
  }
}
";

/// A procedure whose parameters are all equal, up to the one of a number.
pub fn wide(alloc: Global, last: u8) -> Result<Vec<u8>, AllocError> {
    let mut text = Vec::from_slice(alloc, NODE)?;
    text.extend_from_slice(b"procedure wide(a1: Node")?;
    for number in 2..u32::from(last) + 1 {
        let more = format!(in alloc; ", a{number}: Node")?;
        text.extend_from_slice(more.as_bytes())?;
    }
    text.extend_from_slice(b")\nrequires a1 == a2")?;
    for number in 3..u32::from(last) + 1 {
        let before = number - 1;
        let more = format!(in alloc; " &*& a{before} == a{number}")?;
        text.extend_from_slice(more.as_bytes())?;
    }
    let end = format!(in alloc; "\nensures a1 == a{last}\n{{ }}\n")?;
    text.extend_from_slice(end.as_bytes())?;
    Ok(text)
}
