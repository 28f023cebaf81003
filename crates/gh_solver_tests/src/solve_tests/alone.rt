//! The solver's own search, with nothing found ahead.

ghost use Rattle.std.specs.Prelude.{◌<◌};

use super::{Verdict, Way, broken_chain, chain, decided_by, empty, pairs, push_all};
use gh_base::ground::Ground;
use std::alloc::{AllocError, Global};

// Whether a ground is refuted, with at most so many lines, of which at most so many were learnt.
fn is_refuted_within(
    alloc: Global,
    ground: &Ground,
    most_lines: usize,
    most_learnt: usize,
) -> Result<bool, AllocError> {
    Ok(match decided_by(alloc, ground, Way::Alone)? {
        Verdict::Refuted { lines, learnt } => lines <= most_lines && learnt <= most_learnt,
        _ => false,
    })
}

// What was decided about other pairs isn't tried again, and their clauses have no lines: there are four clauses beside
// the lines that were learnt.
#[test]
fn lessons_are_few(rt: HostRuntime) -> Result<(), AllocError> {
    let ground = pairs(rt.alloc())?;
    assert!(rt; is_refuted_within(rt.alloc(), &ground, 7, 3)?);
    Ok(())
}

// The last term of a chain, and the most lines of its refutation and the most that are learnt. There are tens of
// thousands of instances over the terms of the longer ones, which are added as they are needed.
type Chain = (u8, usize, usize);

const CHAINS: &[Chain] = &[(1, 4, 1), (2, 20, 10), (4, 60, 40), (6, 120, 80)];

// Whether a chain has a model, and a refutation as it is wanted where its end isn't reached.
fn is_as_wanted(alloc: Global, row: Chain) -> Result<bool, AllocError> {
    let (last, most_lines, most_learnt) = row;
    let last = last.min(8);
    let whole = chain(alloc, last)?;
    let broken = broken_chain(alloc, last)?;
    Ok(
        decided_by(alloc, &whole, Way::Alone)? == Verdict::Model
            && is_refuted_within(alloc, &broken, most_lines, most_learnt)?,
    )
}

#[test]
fn chains(rt: HostRuntime) -> Result<(), AllocError> {
    for row in CHAINS {
        assert!(rt; is_as_wanted(rt.alloc(), *row)?);
    }
    Ok(())
}

// Clauses over three of 33 terms, and whether they have a model. gh_seek has no tables for so many.
const MANY_TERMS: &[(&[&[i8]], bool)] = &[
    (&[&[3], &[5]], true),
    (&[&[3], &[5], &[-4]], false),
    (&[&[3, 4], &[5], &[-3]], false),
];

fn has_model(alloc: Global, rows: &[&[i8]], way: Way) -> Result<Option<bool>, AllocError> {
    let mut ground = empty(alloc, 32, 0);
    push_all(alloc, &mut ground, rows)?;
    Ok(match decided_by(alloc, &ground, way)? {
        Verdict::Model => Some(true),
        Verdict::Refuted { .. } => Some(false),
        Verdict::Wrong => None,
    })
}

#[test]
fn many_terms(rt: HostRuntime) -> Result<(), AllocError> {
    for (rows, wanted) in MANY_TERMS {
        assert!(rt; has_model(rt.alloc(), rows, Way::Sought)? == Some(*wanted));
        assert!(rt; has_model(rt.alloc(), rows, Way::Alone)? == Some(*wanted));
    }
    Ok(())
}
