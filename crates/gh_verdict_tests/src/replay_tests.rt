// Worked traces that are replayed.

ghost use Rattle.std.specs.Prelude.{◌≡◌};
ghost use Rattle.gh_ast.specs.Plain.{program_of};

use gh_assert::heap::Heap;
use gh_assert::store::Store;
use gh_ast::typed::Typed;
use gh_ast::{Occ, Procedure};
use gh_parse::parse::parse;
use gh_path::conditions::Conditions;
use gh_path::listing::conditions;
use gh_texts::{CUT, DROP, LAST, OUTER, REUSE};
use gh_trace::replay::{ReplayError, replay};
use gh_trace::state::{State, Trace};
use gh_types::check::check;
use gh_types::counts::MOST_BYTES;
use std::alloc::{AllocError, Global};

type Drawn<'a> = (&'a [u32], &'a [(u32, u32)]);

// Adds variables with the first of some values, and gives the values that are left.
fn add_all<'v>(
    alloc: Global,
    store: &mut Store,
    variables: &[Occ],
    values: &'v [u32],
) -> Result<&'v [u32], AllocError> {
    let mut left = values;
    for variable in variables {
        if let [value, rest @ ..] = left {
            if store.get(&variable.name).is_none() {
                store.add(alloc, &variable.name, *value)?;
            }
            left = rest;
        }
    }
    Ok(left)
}

// The state with these values of the procedure's variables and these cells.
fn state_of(alloc: Global, procedure: &Procedure, drawn: Drawn) -> Result<State, AllocError> {
    let mut store = Store::new(alloc);
    let left = add_all(alloc, &mut store, procedure.parameters.as_slice(), drawn.0)?;
    let left = add_all(alloc, &mut store, procedure.results.as_slice(), left)?;
    if let Some(body) = &procedure.body {
        add_all(alloc, &mut store, body.locals.as_slice(), left)?;
    }
    let mut heap = Heap::new(alloc);
    for cell in drawn.1 {
        if cell.0 != 0 {
            heap.put(cell.0, cell.1)?;
        }
    }
    Ok(State { store, heap })
}

// How a replay of some states of a condition ends: 1000 where they are a counterexample, else the first failure.
fn ends_of(
    alloc: Global,
    typed: &Typed,
    conditions: &Conditions<'_>,
    number: u32,
    drawn: &[Drawn],
) -> Result<u16, AllocError>
    requires { program_of conditions.now ≡ program_of typed.now }
{
    let Some(condition) = conditions.condition(alloc, number)? else {
        return Ok(2000);
    };
    let procedures = typed.program().procedures.as_slice();
    let Some(procedure) = procedures.get(usize::from(condition.procedure)) else {
        return Ok(2000);
    };
    let mut states = Vec::new(alloc);
    for state in drawn {
        states.push(state_of(alloc, procedure, *state)?)?;
    }
    if condition.steps.as_slice().len() > 256 {
        return Ok(2000);
    }
    match replay(alloc, typed, &condition, &Trace { states }) {
        Ok(()) => Ok(1000),
        Err(ReplayError::Step { number }) => Ok(number),
        Err(ReplayError::OutOfMemory) => Err(AllocError),
    }
}

// The same of a condition of a text.
fn ends(alloc: Global, text: &[u8], number: u32, drawn: &[Drawn]) -> Result<u16, AllocError> {
    if text.len() > MOST_BYTES {
        return Ok(2000);
    }
    let Ok(program) = parse(alloc, text) else {
        return Ok(2000);
    };
    let Ok(typed) = check(alloc, program) else {
        return Ok(2000);
    };
    match conditions(alloc, &typed) {
        Ok(all) => ends_of(alloc, &typed, &all, number, drawn),
        Err(_) => Ok(2000),
    }
}

// A text, the number of a condition, states of it, and how their replay ends.
type Row = (&'static [u8], u32, &'static [Drawn<'static>], u16);

// The first row whose replay ends otherwise.
fn wrong_row(alloc: Global, rows: &[Row]) -> Result<Option<usize>, AllocError> {
    for (place, (text, number, drawn, wanted)) in rows.iter().enumerate() {
        if ends(alloc, text, *number, drawn)? != *wanted {
            return Ok(Some(place));
        }
    }
    Ok(None)
}

const HELD: Drawn<'static> = (&[1, 0], &[(1, 0)]);

const GONE: Drawn<'static> = (&[1, 0], &[]);

const LEAKS: &[Row] = &[
    (DROP, 2, &[HELD, HELD, HELD], 1000),
    (DROP, 2, &[HELD, HELD, GONE], 2),
    (DROP, 2, &[HELD, HELD], 2),
    (DROP, 2, &[HELD, HELD, HELD, HELD], 3),
    (DROP, 2, &[], 0),
    (DROP, 2, &[(&[1], &[(1, 0)]), HELD, HELD], 0),
    (DROP, 2, &[(&[1, 0], &[(1, 0), (2, 0)]), HELD, HELD], 0),
];

#[test]
fn a_leak(rt: HostRuntime) -> Result<(), AllocError> {
    assert!(rt; wrong_row(rt.alloc(), LEAKS)? == None);
    Ok(())
}

const LINKED: Drawn<'static> = (&[1], &[(1, 2), (2, 0)]);

const OTHERS: &[Row] = &[
    (CUT, 2, &[LINKED, LINKED, (&[1], &[(1, 0), (2, 0)])], 1000),
    (LAST, 2, &[HELD, (&[1, 1], &[(1, 0)]), GONE, GONE], 1000),
    (
        OUTER,
        3,
        &[(&[1, 2, 0], &[(1, 2), (2, 0)]), (&[1, 2, 0], &[(1, 2)])],
        1000,
    ),
    (
        OUTER,
        3,
        &[(&[1, 2, 0], &[(1, 2), (2, 0)]), (&[1, 2, 0], &[(1, 3)])],
        1,
    ),
    (REUSE, 2, &[HELD, HELD, GONE, (&[1, 1], &[(1, 0)])], 1000),
];

#[test]
fn a_write_a_loop_a_call_and_a_new_cell(rt: HostRuntime) -> Result<(), AllocError> {
    assert!(rt; wrong_row(rt.alloc(), OTHERS)? == None);
    Ok(())
}

const PAIR: &[u8] = b"struct Node { var next: Node; }
procedure pair(a: Node) returns (b: Node, c: Node)
  requires acc(a)
  ensures b.next |-> c &*& b == a &*& c == null
{ b := a; c := null; a.next := c; }
procedure outer(x: Node) returns (r: Node, s: Node)
  requires acc(x)
  ensures acc(x) &*& r == s
{ r, s := pair(x); }
procedure turned(x: Node) returns (r: Node, s: Node)
  requires acc(x)
  ensures acc(x) &*& r == s
{ s, r := pair(x); }
";

const BEFORE: Drawn<'static> = (&[1, 0, 0], &[(1, 2)]);

const FIRST: Drawn<'static> = (&[1, 1, 0], &[(1, 0)]);

const SECOND: Drawn<'static> = (&[1, 0, 1], &[(1, 0)]);

const RESULTS: &[Row] = &[
    (PAIR, 4, &[BEFORE, FIRST], 1000),
    (PAIR, 4, &[BEFORE, SECOND], 1),
    (PAIR, 6, &[BEFORE, SECOND], 1000),
    (PAIR, 6, &[BEFORE, FIRST], 1),
];

#[test]
fn the_results_of_a_call_in_their_order(rt: HostRuntime) -> Result<(), AllocError> {
    assert!(rt; wrong_row(rt.alloc(), RESULTS)? == None);
    Ok(())
}

const WALK: &[u8] = b"struct Node { var next: Node; }
procedure walk(x: Node) returns (y: Node, z: Node)
  requires lseg(x, null)
  ensures lseg(x, null)
{
  z := x;
  y := x;
  while (y != null)
    invariant lseg(y, null)
  { if (y != z) { y := y.next; } else { y := y.next; } }
}
";

const START: Drawn<'static> = (&[1, 0, 0], &[(1, 0)]);

const ONE: Drawn<'static> = (&[1, 0, 1], &[(1, 0)]);

const TWO: Drawn<'static> = (&[1, 1, 1], &[(1, 0)]);

const OUT: Drawn<'static> = (&[1, 0, 1], &[]);

// Another result, and another parameter.
const RESULT: Drawn<'static> = (&[1, 0, 7], &[]);

const PARAMETER: Drawn<'static> = (&[7, 0, 1], &[]);

const LOOPS: &[Row] = &[
    (WALK, 2, &[START, ONE, TWO, OUT, OUT], 1000),
    (WALK, 2, &[START, ONE, TWO, RESULT, RESULT], 3),
    (WALK, 2, &[START, ONE, TWO, PARAMETER, PARAMETER], 3),
    (WALK, 2, &[START, ONE, TWO, OUT, RESULT], 4),
];

#[test]
fn what_a_loop_assigns(rt: HostRuntime) -> Result<(), AllocError> {
    assert!(rt; wrong_row(rt.alloc(), LOOPS)? == None);
    Ok(())
}
