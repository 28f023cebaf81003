//! Ground clauses of programs, counted by hand.

use crate::encoded::{Expected, Row, Word, are};
use crate::symbolic_tests::{CASES, TWICE, WALK};
use gh_texts::{CONCAT, NOP, REUSE, REVERSE};
use std::alloc::AllocError;

const NOP_CLAUSES: &[&[Word]] = &[
    &[Word::NotA],
    &[Word::D(0), Word::A],
    &[Word::D(0), Word::NotH],
    &[Word::NotD(0), Word::NotA, Word::H],
    &[Word::D(0)],
    &[Word::D(1)],
    &[Word::NotD(2)],
    &[Word::NotD(3), Word::NotA, Word::D(2)],
    &[Word::NotD(3), Word::A, Word::NotD(2)],
    &[Word::D(3), Word::A, Word::D(2)],
    &[Word::D(3), Word::NotA, Word::NotD(2)],
    &[Word::NotD(4), Word::D(1)],
    &[Word::NotD(4), Word::D(3)],
    &[Word::D(4), Word::NotD(1), Word::NotD(3)],
    &[Word::D(4)],
    &[Word::D(5)],
    &[Word::NotD(6)],
    &[Word::NotD(7), Word::NotA, Word::D(6)],
    &[Word::NotD(7), Word::A, Word::NotD(6)],
    &[Word::D(7), Word::A, Word::D(6)],
    &[Word::D(7), Word::NotA, Word::NotD(6)],
    &[Word::NotD(8), Word::D(5)],
    &[Word::NotD(8), Word::D(7)],
    &[Word::D(8), Word::NotD(5), Word::NotD(7)],
    &[Word::NotD(8)],
];

// The definitions and clauses are counted from the shapes of the formulas. `And` or `Or` of k members
// makes 1 definition and k + 1 clauses, `Iff` 1 and 4, an atom none, and each formula that is stated
// 1 clause more. So with n terms a version makes n and 1 + n(n + 3), the next of a term in it 2 and 8;
// a write n + 2nn and 1 + 5n + 8nn; a new cell 2n + 2nn and 2 + 8n + 8nn; a free 2n + 2nn and
// 8n + 8nn; a step over a part 5n + 3nn and 2 + 18n + 11nn, beside what its two assertions make:
// 2n + nn times the footprint of the first, 2n times that of the second, and both structures.
const SIZES_OF_GROUNDS: &[Row] = &[
    (NOP, 1, Expected::Sizes((1, 1, 9, 25))),
    (REVERSE, 1, Expected::Sizes((2, 1, 14, 54))),
    (REVERSE, 2, Expected::Sizes((5, 2, 299, 1047))),
    (REVERSE, 3, Expected::Sizes((3, 1, 26, 99))),
    (REVERSE, 4, Expected::Sizes((4, 1, 36, 142))),
    (REVERSE, 5, Expected::Sizes((4, 2, 106, 422))),
    (CONCAT, 1, Expected::Sizes((3, 1, 33, 125))),
    (CONCAT, 2, Expected::Sizes((3, 1, 26, 99))),
    (CONCAT, 3, Expected::Sizes((4, 1, 49, 185))),
    (CONCAT, 4, Expected::Sizes((5, 2, 280, 984))),
    (CONCAT, 5, Expected::Sizes((6, 3, 470, 1741))),
    (REUSE, 1, Expected::Sizes((3, 1, 9, 46))),
    (REUSE, 2, Expected::Sizes((6, 3, 229, 979))),
    (NOP, 1, Expected::Clauses(NOP_CLAUSES)),
];

#[test]
fn sizes_of_grounds(rt: HostRuntime) -> Result<(), AllocError> {
    assert!(rt; are(rt.alloc(), SIZES_OF_GROUNDS)?);
    Ok(())
}

const SIZES_WITH_CALLS_LOOPS_AND_CASES: &[Row] = &[
    (TWICE, 3, Expected::Sizes((5, 1, 22, 96))),
    (TWICE, 4, Expected::Sizes((8, 2, 319, 1254))),
    (WALK, 2, Expected::Sizes((6, 2, 237, 888))),
    (WALK, 4, Expected::Sizes((4, 1, 24, 109))),
    (CASES, 1, Expected::Sizes((5, 1, 75, 275))),
    (CASES, 4, Expected::Sizes((6, 2, 402, 1389))),
];

#[test]
fn sizes_with_calls_loops_and_cases(rt: HostRuntime) -> Result<(), AllocError> {
    assert!(rt; are(rt.alloc(), SIZES_WITH_CALLS_LOOPS_AND_CASES)?);
    Ok(())
}
