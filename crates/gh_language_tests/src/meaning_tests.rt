// The evaluator on worked assertions.

use crate::program::program;
use gh_assert::heap::Heap;
use gh_assert::meaning::{footprint, holds, meets_one_of};
use gh_assert::store::Store;
use gh_ast::Assertion;
use gh_base::name::Name;
use gh_parse::error::ParseError;
use std::alloc::{AllocError, Global};

// An assertion, the cells of a heap, whether the assertion holds there, and its footprint.
type Row = (
    &'static [u8],
    &'static [(u32, u32)],
    bool,
    Option<&'static [u32]>,
);

fn heap(alloc: Global, cells: &[(u32, u32)]) -> Result<Heap, AllocError> {
    let mut heap = Heap::new(alloc);
    for (at, to) in cells {
        if *at != 0 {
            heap.put(*at, *to)?;
        }
    }
    Ok(heap)
}

// Gives a name a value, if it has none.
fn give(alloc: Global, store: &mut Store, text: &str, value: u32) -> Result<(), AllocError> {
    if let Some(name) = Name::new(alloc, text)? {
        if store.get(&name).is_none() {
            store.add(alloc, &name, value)?;
        }
    }
    Ok(())
}

const VALUES: &[(&str, u32)] = &[("x", 1), ("w", 1), ("y", 2), ("z", 3), ("n", 0)];

// x and w are 1, y is 2, z is 3, and n is null.
fn store(alloc: Global) -> Result<Store, AllocError> {
    let mut store = Store::new(alloc);
    for (text, value) in VALUES {
        give(alloc, &mut store, text, *value)?;
    }
    Ok(store)
}

// Small heaps, then segments that run into cycles, past their ends and into shared tails.
const SEGMENTS: &[Row] = &[
    (b"lseg(x, w)", &[], true, Some(&[])),
    (b"lseg(x, w)", &[(1, 1)], false, Some(&[])),
    (b"lseg(x, null)", &[(1, 2), (2, 0)], true, Some(&[1, 2])),
    (
        b"lseg(x, null)",
        &[(1, 2), (2, 0), (3, 0)],
        false,
        Some(&[1, 2]),
    ),
    (b"lseg(x, null)", &[(1, 1)], false, None),
    (b"acc(x) &*& acc(x)", &[(1, 0)], false, None),
    (b"lseg(x, z)", &[(1, 2), (2, 3)], true, Some(&[1, 2])),
    (b"lseg(x, z)", &[(1, 2), (2, 1)], false, None),
    (b"lseg(x, y)", &[(1, 2), (2, 0)], false, Some(&[1])),
    (b"lseg(x, x)", &[(1, 2)], false, Some(&[])),
    (b"lseg(n, null)", &[], true, Some(&[])),
    (b"lseg(n, x)", &[(1, 0)], false, None),
    (
        b"lseg(x, y) &*& lseg(y, null)",
        &[(1, 2), (2, 3), (3, 0)],
        true,
        Some(&[1, 2, 3]),
    ),
    (
        b"lseg(x, null) &*& lseg(y, null)",
        &[(1, 3), (2, 3), (3, 0)],
        false,
        None,
    ),
    (
        b"lseg(x, z) &*& lseg(y, z)",
        &[(1, 3), (2, 3)],
        true,
        Some(&[1, 2]),
    ),
    (b"lseg(x, z) &*& acc(y)", &[(1, 2), (2, 3)], false, None),
    (
        b"lseg(x, y) &*& lseg(y, x)",
        &[(1, 2), (2, 1)],
        true,
        Some(&[1, 2]),
    ),
    (
        b"lseg(y, null) &*& acc(x)",
        &[(1, 7), (2, 0)],
        true,
        Some(&[1, 2]),
    ),
];

const OTHERS: &[Row] = &[
    (b"emp", &[], true, Some(&[])),
    (b"emp", &[(1, 0)], false, Some(&[])),
    (b"x == w", &[], true, Some(&[])),
    (b"x == w", &[(1, 0)], false, Some(&[])),
    (b"x != w", &[], false, None),
    (b"x != y", &[], true, Some(&[])),
    (b"x.next |-> y", &[(1, 2)], true, Some(&[1])),
    (b"x.next |-> y", &[(1, 3)], false, None),
    (b"n.next |-> y", &[(1, 2)], false, None),
    (b"x.next |-> x", &[(1, 1)], true, Some(&[1])),
    (b"acc(n)", &[(1, 0)], false, None),
    (
        b"acc(x) &*& acc(y) &*& acc(z)",
        &[(1, 0), (2, 0), (3, 0)],
        true,
        Some(&[1, 2, 3]),
    ),
    (
        b"acc(z) &*& acc(x)",
        &[(1, 0), (2, 0), (3, 0)],
        false,
        Some(&[1, 3]),
    ),
    (b"emp &*& x == w", &[], true, Some(&[])),
];

// A test that holds, then one that doesn't.
const CHOICES: &[Row] = &[
    (EQUAL, &[(1, 0)], true, Some(&[1])),
    (EQUAL, &[(1, 0), (2, 0)], false, Some(&[1])),
    (EQUAL, &[(2, 0)], false, None),
    (UNEQUAL, &[(2, 0)], true, Some(&[2])),
    (UNEQUAL, &[(1, 0)], false, None),
];

const EQUAL: &[u8] = b"if (x == w && x != null) { acc(x) } else { y.next |-> null }";

const UNEQUAL: &[u8] = b"if (x == z && x != null) { acc(x) } else { y.next |-> null }";

// Whether the footprint of an assertion is these places.
fn is_footprint(
    alloc: Global,
    store: &Store,
    heap: &Heap,
    assertion: &Assertion,
    places: Option<&[u32]>,
) -> Result<bool, AllocError> {
    match (footprint(alloc, store, heap, assertion)?, places) {
        (Some(found), Some(places)) => Ok(found.as_slice() == places),
        (None, None) => Ok(true),
        _ => Ok(false),
    }
}

// Whether an assertion holds where a row says so, and its footprint is as it says.
fn is_met(
    alloc: Global,
    store: &Store,
    assertion: &Assertion,
    row: &Row,
) -> Result<bool, AllocError> {
    let heap = heap(alloc, row.1)?;
    if holds(alloc, store, &heap, assertion)? != row.2 {
        return Ok(false);
    }
    is_footprint(alloc, store, &heap, assertion, row.3)
}

fn is_right(alloc: Global, store: &Store, row: &Row) -> Result<bool, ParseError> {
    let program = program(alloc, b"struct Node{}procedure p()requires ", row.0, b";")?;
    match program.procedures.as_slice() {
        [only] => Ok(is_met(alloc, store, &only.needs, row)?),
        _ => Ok(false),
    }
}

// The first row whose answers differ.
fn wrong_row(alloc: Global, rows: &[Row]) -> Result<Option<usize>, ParseError> {
    let store = store(alloc)?;
    for (number, row) in rows.iter().enumerate() {
        if !is_right(alloc, &store, row)? {
            return Ok(Some(number));
        }
    }
    Ok(None)
}

#[test]
fn assertions_of_segments(rt: HostRuntime) -> Result<(), ParseError> {
    assert_eq!(rt; wrong_row(rt.alloc(), SEGMENTS)?, None);
    Ok(())
}

#[test]
fn other_assertions(rt: HostRuntime) -> Result<(), ParseError> {
    assert_eq!(rt; wrong_row(rt.alloc(), OTHERS)?, None);
    Ok(())
}

#[test]
fn choices(rt: HostRuntime) -> Result<(), ParseError> {
    assert_eq!(rt; wrong_row(rt.alloc(), CHOICES)?, None);
    Ok(())
}

// The cells of a heap, and whether one of the alternatives `acc(x)` and `acc(y)` holds there.
type Either = (&'static [(u32, u32)], bool);

const EITHER: &[Either] = &[
    (&[(1, 0)], true),
    (&[(2, 0)], true),
    (&[(1, 0), (2, 0)], false),
];

fn meets_one(
    alloc: Global,
    alternatives: &[Assertion],
    cells: &[(u32, u32)],
) -> Result<bool, AllocError> {
    let store = store(alloc)?;
    let heap = heap(alloc, cells)?;
    meets_one_of(alloc, &store, &heap, alternatives)
}

// The first heap of which the answer for some alternatives differs.
fn wrong_heap(
    alloc: Global,
    alternatives: &[Assertion],
    rows: &[Either],
) -> Result<Option<usize>, AllocError> {
    for (number, (cells, wanted)) in rows.iter().enumerate() {
        if meets_one(alloc, alternatives, cells)? != *wanted {
            return Ok(Some(number));
        }
    }
    Ok(None)
}

fn are_alternatives(alloc: Global) -> Result<bool, ParseError> {
    let text = b"acc(x) || acc(y)";
    let program = program(alloc, b"struct Node{}procedure p()ensures ", text, b";")?;
    match program.procedures.as_slice() {
        [only] => Ok(wrong_heap(alloc, only.gives.as_slice(), EITHER)? == None),
        _ => Ok(false),
    }
}

#[test]
fn one_of_some_alternatives(rt: HostRuntime) -> Result<(), ParseError> {
    assert!(rt; are_alternatives(rt.alloc())?);
    assert!(rt; !meets_one(rt.alloc(), &[], &[(1, 0)])?);
    Ok(())
}
