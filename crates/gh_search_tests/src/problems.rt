//! Ground clauses over definitions.

ghost use Rattle.std.specs.Prelude.{◌↔◌, IsTrue};
ghost use Rattle.gh_base.specs.Atoms.{AreInRange};

use crate::apart::def;
use gh_base::atom::Lit;
use gh_base::clause::Clause;
use gh_base::ground::Ground;
use gh_base::sizes::Sizes;
use std::alloc::{AllocError, Global};

// The literal of a name: a positive number n is definition n - 1, a negative one its opposite.
pub(crate) fn named(name: i32) -> Lit {
    def(name.unsigned_abs().saturating_sub(1), name > 0)
}

// Clauses over definitions.
#[derive(Clone, Copy)]
pub(crate) enum Problem {
    // so many definitions, and clauses by name over them
    Named(u32, &'static [&'static [i32]]),
    // each of so many pigeons is in one of so many holes, and no two are in one
    Pigeons(u8, u8),
    // of each of so many pairs exactly one is true, and clauses of these signs on one pair more, of which the theory
    // says that not both are true
    Pairs(u16, &'static [[bool; 2]]),
    // two terms and two definitions, and no clause
    Terms,
}

// Whether each atom is in range.
pub(crate) fn are_in_range(sizes: Sizes, lits: &[Lit]) -> bool
    ensures { IsTrue result ↔ AreInRange sizes lits.now }
{
    lits.iter().all(|lit| sizes.has(lit.atom))
}

// Adds a clause, if its atoms are in range.
fn push(ground: &mut Ground, clause: Clause) -> Result<(), AllocError> {
    if are_in_range(ground.sizes(), clause.lits()) && ground.count() < 1000 {
        ground.push(clause)?;
    }
    Ok(())
}

// Adds the clause of two literals.
fn push_two(alloc: Global, ground: &mut Ground, lits: [Lit; 2]) -> Result<(), AllocError> {
    push(ground, Clause::from_array(alloc, lits))
}

// A clause of named literals.
pub(crate) fn clause_of(alloc: Global, names: &[i32]) -> Result<Clause, AllocError> {
    let mut clause = Clause::new(alloc);
    for name in names {
        clause.push(named(*name))?;
    }
    Ok(clause)
}

// Adds clauses by name.
fn push_named(alloc: Global, ground: &mut Ground, rows: &[&[i32]]) -> Result<(), AllocError> {
    for row in rows {
        push(ground, clause_of(alloc, row)?)?;
    }
    Ok(())
}

// The pigeon is in the hole, or isn't.
fn placed(pigeon: u8, hole: u8, positive: bool) -> Lit {
    def(u32::from(pigeon) * 8 + u32::from(hole), positive)
}

// The pigeon is in a hole.
fn housed(alloc: Global, pigeon: u8, holes: u8) -> Result<Clause, AllocError> {
    let mut clause = Clause::new(alloc);
    for hole in 0..holes {
        clause.push(placed(pigeon, hole, true))?;
    }
    Ok(clause)
}

// The hole isn't shared by the pigeon and an earlier one.
fn push_unshared(
    alloc: Global,
    ground: &mut Ground,
    pigeon: u8,
    hole: u8,
) -> Result<(), AllocError> {
    for other in 0..pigeon {
        let lits = [placed(pigeon, hole, false), placed(other, hole, false)];
        push_two(alloc, ground, lits)?;
    }
    Ok(())
}

// The pigeon is in a hole, and in none with an earlier one.
fn push_pigeon(
    alloc: Global,
    ground: &mut Ground,
    pigeon: u8,
    holes: u8,
) -> Result<(), AllocError> {
    push(ground, housed(alloc, pigeon, holes)?)?;
    for hole in 0..holes {
        push_unshared(alloc, ground, pigeon, hole)?;
    }
    Ok(())
}

fn push_pigeons(
    alloc: Global,
    ground: &mut Ground,
    count: u8,
    holes: u8,
) -> Result<(), AllocError> {
    for pigeon in 0..count {
        push_pigeon(alloc, ground, pigeon, holes)?;
    }
    Ok(())
}

// A clause on each definition of a pair.
fn on_pair(pair: u16, signs: [bool; 2]) -> [Lit; 2] {
    let first = 2 * u32::from(pair);
    [def(first, signs[0]), def(first + 1, signs[1])]
}

// Exactly one definition of each pair is true.
fn push_pairs(alloc: Global, ground: &mut Ground, count: u16) -> Result<(), AllocError> {
    for pair in 0..count {
        push_two(alloc, ground, on_pair(pair, [true, true]))?;
        push_two(alloc, ground, on_pair(pair, [false, false]))?;
    }
    Ok(())
}

// Clauses on one pair.
fn push_signs(
    alloc: Global,
    ground: &mut Ground,
    pair: u16,
    rows: &[[bool; 2]],
) -> Result<(), AllocError> {
    for signs in rows {
        push_two(alloc, ground, on_pair(pair, *signs))?;
    }
    Ok(())
}

// No clause over the terms and definitions of a problem.
pub(crate) fn empty(alloc: Global, problem: Problem) -> Ground {
    let (terms, defs) = match problem {
        Problem::Named(defs, _) => (1, defs),
        Problem::Pigeons(..) => (1, 64),
        Problem::Pairs(count, _) => (1, 2 * u32::from(count) + 2),
        Problem::Terms => (2, 2),
    };
    let mut ground = Ground::new(alloc, terms, 1);
    for _number in 0..defs {
        if ground.defs() < 1000 {
            ground.define();
        }
    }
    ground
}

// Adds the clauses of a problem.
pub(crate) fn push_problem(
    alloc: Global,
    ground: &mut Ground,
    problem: Problem,
) -> Result<(), AllocError> {
    match problem {
        Problem::Named(_, rows) => push_named(alloc, ground, rows),
        Problem::Pigeons(count, holes) => push_pigeons(alloc, ground, count, holes),
        Problem::Pairs(count, rows) => {
            push_pairs(alloc, ground, count)?;
            push_signs(alloc, ground, count, rows)
        }
        Problem::Terms => Ok(()),
    }
}
