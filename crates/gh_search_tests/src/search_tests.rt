//! Searches over definitions, beside a theory that forbids the last two of them together.

use crate::lessons::Lesson;
use crate::outcomes::{Outcome, is_so};
use crate::problems::Problem;
use gh_base::atom::{Atom, Lit, Term};
use std::alloc::AllocError;

// How many definitions there are, clauses by name over them, and whether an assignment makes these true.
type Answer = (u32, &'static [&'static [i32]], bool);

const PROBLEMS: &[Answer] = &[
    (2, &[], true),
    (2, &[&[]], false),
    // chains of units
    (6, &[&[1], &[-1, 2], &[-2, 3], &[-3, 4]], true),
    (6, &[&[1], &[-1, 2], &[-2, 3], &[-3, -1]], false),
    // each choice of two signs
    (4, &[&[1, 2], &[1, -2], &[-1, 2]], true),
    (4, &[&[1, 2], &[1, -2], &[-1, 2], &[-1, -2]], false),
    // what the theory forbids
    (3, &[&[2], &[1, 3]], true),
    (3, &[&[2], &[3]], false),
    (3, &[&[1, 2], &[1, 3], &[-1, 2], &[-1, 3]], false),
];

#[test]
fn satisfiable(rt: HostRuntime) -> Result<(), AllocError> {
    for (defs, rows, wanted) in PROBLEMS {
        let outcome = Outcome::Satisfiable(*wanted);
        assert!(rt; is_so(rt.alloc(), Problem::Named(*defs, rows), outcome)?);
    }
    Ok(())
}

// Clauses by name over thirty definitions, and how many decisions come before each has a true literal.
type Needed = (&'static [&'static [i32]], u32);

// Atoms that stand in no clause are never decided: none of thirty, and of one clause none but its own.
const NEEDED: &[Needed] = &[(&[], 0), (&[&[1]], 0), (&[&[3, 4, 5]], 2)];

#[test]
fn needed(rt: HostRuntime) -> Result<(), AllocError> {
    for (rows, count) in NEEDED {
        let outcome = Outcome::Needed(*count);
        assert!(rt; is_so(rt.alloc(), Problem::Named(30, rows), outcome)?);
    }
    Ok(())
}

// How many pigeons and holes there are, and whether each pigeon has a hole.
type Housing = (u8, u8, bool);

const HOUSINGS: &[Housing] = &[(4, 4, true), (4, 3, false), (5, 5, true), (5, 4, false)];

#[test]
fn pigeonholes(rt: HostRuntime) -> Result<(), AllocError> {
    for (count, holes, wanted) in HOUSINGS {
        let outcome = Outcome::Satisfiable(*wanted);
        assert!(rt; is_so(rt.alloc(), Problem::Pigeons(*count, *holes), outcome)?);
    }
    Ok(())
}

// Problems, and how many clauses are in their refutations, if that is known. Three clauses refute each other; the unit
// before them isn't needed.
const REFUTATIONS: &[(Problem, Option<usize>)] = &[
    (Problem::Pigeons(5, 4), None),
    (
        Problem::Named(6, &[&[4], &[1], &[-1, 2], &[-2, -1]]),
        Some(3),
    ),
];

#[test]
fn refutations(rt: HostRuntime) -> Result<(), AllocError> {
    for (problem, count) in REFUTATIONS {
        let outcome = Outcome::Refuted(*count);
        assert!(rt; is_so(rt.alloc(), *problem, outcome)?);
    }
    Ok(())
}

// The signs of the last pair's clauses, and the answer.
type Pairs = (&'static [[bool; 2]], bool);

const PAIRS: &[Pairs] = &[
    (&[[true, true]], true),
    (&[[true, true], [true, false]], true),
    (&[[true, true], [true, false], [false, true]], false),
];

#[test]
fn many_pairs(rt: HostRuntime) -> Result<(), AllocError> {
    for (rows, wanted) in PAIRS {
        let outcome = Outcome::Satisfiable(*wanted);
        assert!(rt; is_so(rt.alloc(), Problem::Pairs(150, rows), outcome)?);
    }
    Ok(())
}

// Atoms are decided by number: the equality and the three atoms with a version first, at levels 1 to 4, then the
// definitions from the first on, each made false.
const LESSONS: &[Lesson] = &[
    Lesson {
        defs: 4,
        clauses: &[&[1, 2], &[1, -2]],
        learnt: &[1],
        level: 0,
        unit: 1,
    },
    // an example of several implication points: 1 is x9, 2 and 3 are the opposites of x12 and x13, 4 is
    // x10, 5 is x11, 6 is the opposite of x1, and 7 to 13 are x2 to x8
    Lesson {
        defs: 15,
        clauses: &[
            &[6, 7],
            &[6, 8, 1],
            &[-7, -8, 9],
            &[-9, 10, 4],
            &[-9, 11, 5],
            &[-10, -11],
            &[-6, 12, 2],
            &[-6, 13],
            &[-12, -13, 3],
        ],
        learnt: &[-9, 4, 5],
        level: 9,
        unit: -9,
    },
    // a conflict of the theory
    Lesson {
        defs: 3,
        clauses: &[&[1, 2], &[1, 3]],
        learnt: &[1],
        level: 0,
        unit: 1,
    },
];

#[test]
fn lessons(rt: HostRuntime) -> Result<(), AllocError> {
    for lesson in LESSONS {
        let outcome = Outcome::Learnt(lesson);
        assert!(rt;
            is_so(
                rt.alloc(),
                Problem::Named(lesson.defs, lesson.clauses),
                outcome
            )?
        );
    }
    Ok(())
}

const DECISIONS: &[(usize, Lit)] = &[
    (
        0,
        Lit {
            atom: Atom::Eq {
                a: Term(0),
                b: Term(0),
            },
            positive: false,
        },
    ),
    (
        1,
        Lit {
            atom: Atom::Eq {
                a: Term(0),
                b: Term(1),
            },
            positive: false,
        },
    ),
    (
        2,
        Lit {
            atom: Atom::Eq {
                a: Term(1),
                b: Term(1),
            },
            positive: false,
        },
    ),
    (
        3,
        Lit {
            atom: Atom::Btwn {
                version: 0,
                x: Term(0),
                y: Term(0),
                z: Term(0),
            },
            positive: false,
        },
    ),
    // after it seven more of segments, four atoms of contents and one of a cell
    (
        16,
        Lit {
            atom: Atom::Alloc {
                version: 0,
                x: Term(1),
            },
            positive: false,
        },
    ),
    (
        17,
        Lit {
            atom: Atom::Def { number: 0 },
            positive: false,
        },
    ),
    (
        18,
        Lit {
            atom: Atom::Def { number: 1 },
            positive: false,
        },
    ),
];

#[test]
fn decisions(rt: HostRuntime) -> Result<(), AllocError> {
    assert!(rt; is_so(rt.alloc(), Problem::Terms, Outcome::Trail(DECISIONS))?);
    Ok(())
}

// The names of a clause that is added, the level after it, and whether a clause is then false.
type Added = (&'static [i32], u32, bool);

const ADDED: &[Added] = &[
    (&[-1, 2], 8, false),
    (&[1, 2], 6, true),
    (&[3, 2], 7, true),
    (&[2], 6, true),
    (&[], 0, true),
];

#[test]
fn added(rt: HostRuntime) -> Result<(), AllocError> {
    for (names, level, is_false) in ADDED {
        let outcome = Outcome::Added(names, *level, *is_false);
        assert!(rt; is_so(rt.alloc(), Problem::Named(4, &[]), outcome)?);
    }
    Ok(())
}
