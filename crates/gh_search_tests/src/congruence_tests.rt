// Consistent and inconsistent literals, and clauses that follow or don't.
use gh_base::atom::{Atom, Lit, Term};
use gh_base::clause::Clause;
use gh_cc::classes::Classes;
use gh_cc::lemma::is_lemma;
use std::alloc::{AllocError, Global};

const TERMS: u8 = 5;

// An atom by the numbers of its version and its terms, as the rows of tables write it.
#[derive(Clone, Copy)]
enum Plain {
    Eq(u8, u8),
    Btwn(u8, u8, u8, u8),
    Hop(u8, u8),
    Alloc(u8, u8),
    Def(u32),
}

use Plain::{Alloc, Btwn, Def, Eq, Hop};

// The atom, or where it is false its opposite.
type Signed = (Plain, bool);

fn atom_of(plain: Plain) -> Atom {
    match plain {
        Eq(a, b) => Atom::equal(Term(a), Term(b)),
        Btwn(version, x, y, z) => Atom::Btwn {
            version,
            x: Term(x),
            y: Term(y),
            z: Term(z),
        },
        Hop(x, v) => Atom::Hop {
            version: 0,
            x: Term(x),
            v: Term(v),
        },
        Alloc(version, x) => Atom::Alloc {
            version,
            x: Term(x),
        },
        Def(number) => Atom::Def { number },
    }
}

fn lit_of(signed: Signed) -> Lit {
    Lit {
        atom: atom_of(signed.0),
        positive: signed.1,
    }
}

// Asserts a literal, if its atom is in range and new.
fn try_assert(classes: &mut Classes, lit: Lit) -> bool {
    if !classes.sizes().has(lit.atom) {
        return false;
    }
    if classes.lits().iter().any(|l| l.atom.is_same(lit.atom)) {
        return false;
    }
    classes.assert(lit);
    true
}

// Whether all can be asserted.
fn assert_each(classes: &mut Classes, lits: &[Signed]) -> bool {
    let mut all = true;
    for signed in lits {
        all = try_assert(classes, lit_of(*signed)) && all;
    }
    all
}

// Takes back what was asserted after a mark.
fn undo(classes: &mut Classes, mark: u32) {
    if mark <= classes.mark() {
        classes.undo_to(mark);
    }
}

// How many literals a conflict has, or 0 where none stands.
fn conflict_size(global: Global, classes: &Classes) -> Result<usize, AllocError> {
    match classes.conflict(global)? {
        None => Ok(0),
        Some(clause) => Ok(clause.lits().len()),
    }
}

// Whether a conflict stands, which is a lemma.
fn is_contrary(global: Global, classes: &Classes) -> Result<bool, AllocError> {
    let sizes = classes.sizes();
    match classes.conflict(global)? {
        None => Ok(false),
        Some(clause) => is_lemma(global, &clause, sizes.terms, sizes.versions, sizes.defs),
    }
}

// What is done with asserted literals, or what is then to be so.
#[derive(Clone, Copy)]
enum Step {
    // all of these can be asserted
    Assert(&'static [Signed]),
    // only so many literals stay asserted
    Undo(u32),
    // whether a conflict stands, which is a lemma
    Contrary(bool),
    // a conflict of so many literals stands, or none with 0
    Size(usize),
    // whether two terms are equal
    Same(u8, u8, bool),
}

fn is_done(global: Global, classes: &mut Classes, step: Step) -> Result<bool, AllocError> {
    Ok(match step {
        Step::Assert(lits) => assert_each(classes, lits),
        Step::Undo(mark) => {
            undo(classes, mark);
            true
        }
        Step::Contrary(wanted) => is_contrary(global, classes)? == wanted,
        Step::Size(size) => conflict_size(global, classes)? == size,
        Step::Same(a, b, wanted) => classes.same(Term(a), Term(b)) == wanted,
    })
}

// Whether each step is as it says.
fn are_done(global: Global, classes: &mut Classes, steps: &[Step]) -> Result<bool, AllocError> {
    for step in steps {
        if !is_done(global, classes, *step)? {
            return Ok(false);
        }
    }
    Ok(true)
}

// Literals, and the size of their conflict.
type Conflict = (&'static [Signed], usize);

// Literals, and whether they are contrary to what stands.
type Merge = (&'static [Signed], bool);

// What is tried on asserted literals: what a row asserts is then taken back.
#[derive(Clone, Copy)]
enum Rows {
    Conflicts(&'static [Conflict]),
    Merges(&'static [Merge]),
    Steps(&'static [Step]),
}

fn have_conflicts(
    global: Global,
    classes: &mut Classes,
    rows: &[Conflict],
) -> Result<bool, AllocError> {
    let mark = classes.mark();
    for (lits, size) in rows {
        let steps = [Step::Assert(lits), Step::Size(*size), Step::Undo(mark)];
        if !are_done(global, classes, &steps)? {
            return Ok(false);
        }
    }
    Ok(true)
}

fn are_merged(global: Global, classes: &mut Classes, rows: &[Merge]) -> Result<bool, AllocError> {
    let mark = classes.mark();
    for (lits, expected) in rows {
        let steps = [
            Step::Assert(lits),
            Step::Contrary(*expected),
            Step::Undo(mark),
        ];
        if !are_done(global, classes, &steps)? {
            return Ok(false);
        }
    }
    Ok(true)
}

// What stands asserted before the rows of a test.
#[derive(Clone, Copy)]
enum Setting {
    Nothing,
    // each betweenness: true where the first term is below 3
    Betweenness,
    // of twenty terms each even one is allocated and no odd one is, each leads to the next, and those of one parity are
    // joined
    ManyTerms,
}

// The literal of an atom that stands asserted, if one does.
fn literal_of(setting: Setting, atom: Atom) -> Option<Lit> {
    let positive = match (setting, atom) {
        (Setting::Betweenness, Atom::Btwn { x, .. }) => x.0 < 3,
        (Setting::ManyTerms, Atom::Alloc { x, .. }) => x.0 % 2 == 0,
        (Setting::ManyTerms, Atom::Hop { x, v, .. }) if x.0 < v.0 && v.0 - x.0 == 1 => true,
        _ => return None,
    };
    Some(Lit { atom, positive })
}

fn assert_literals(classes: &mut Classes, setting: Setting) -> bool {
    let sizes = classes.sizes();
    let mut all = true;
    for number in 0..sizes.count() {
        if let Some(lit) = literal_of(setting, sizes.atom(number)) {
            all = try_assert(classes, lit) && all;
        }
    }
    all
}

// Joins the terms below 20 of one parity.
fn join(classes: &mut Classes, parity: u8) -> bool {
    let mut all = true;
    for x in 0..18 {
        if x % 2 == parity {
            all = try_assert(classes, lit_of((Eq(x, x + 2), true))) && all;
        }
    }
    all
}

// Asserts what stands before the rows, and says whether it is so many literals.
fn is_set(classes: &mut Classes, setting: Setting) -> bool {
    let all = assert_literals(classes, setting);
    match setting {
        Setting::Nothing => all,
        Setting::Betweenness => all && classes.mark() == 250,
        Setting::ManyTerms => {
            let even = join(classes, 0);
            let odd = join(classes, 1);
            all && even && odd && classes.mark() == 408
        }
    }
}

// No literal stands asserted.
fn new_classes(global: Global, setting: Setting) -> Result<Classes, AllocError> {
    match setting {
        Setting::ManyTerms => Classes::new(global, 20, 10, 0),
        _ => Classes::new(global, TERMS, 2, 2),
    }
}

// Whether each row is as it says.
fn are_rows(global: Global, classes: &mut Classes, rows: Rows) -> Result<bool, AllocError> {
    match rows {
        Rows::Conflicts(rows) => have_conflicts(global, classes, rows),
        Rows::Merges(rows) => are_merged(global, classes, rows),
        Rows::Steps(steps) => are_done(global, classes, steps),
    }
}

// The same after what stands before them.
fn are_rows_after(
    global: Global,
    classes: &mut Classes,
    setting: Setting,
    rows: Rows,
) -> Result<bool, AllocError> {
    if !is_set(classes, setting) {
        return Ok(false);
    }
    are_rows(global, classes, rows)
}

// The same in classes of their own.
fn hold(global: Global, setting: Setting, rows: Rows) -> Result<bool, AllocError> {
    let mut classes = new_classes(global, setting)?;
    are_rows_after(global, &mut classes, setting, rows)
}

const CONFLICTS: &[Conflict] = &[
    (&[], 0),
    (
        &[
            (Eq(0, 1), true),
            (Eq(1, 2), true),
            (Eq(3, 4), true),
            (Eq(0, 3), false),
        ],
        0,
    ),
    // a chain
    (
        &[
            (Eq(0, 1), true),
            (Eq(2, 3), true),
            (Eq(1, 2), true),
            (Eq(0, 3), false),
        ],
        4,
    ),
    (
        &[
            (Eq(0, 3), false),
            (Eq(0, 1), true),
            (Eq(2, 3), true),
            (Eq(1, 2), true),
        ],
        4,
    ),
    (&[(Eq(0, 0), false)], 1),
    // each place of each kind of atom
    (
        &[
            (Btwn(0, 1, 2, 3), true),
            (Btwn(0, 4, 2, 3), false),
            (Eq(1, 4), true),
        ],
        3,
    ),
    (
        &[
            (Btwn(1, 1, 2, 3), true),
            (Eq(2, 4), true),
            (Btwn(1, 1, 4, 3), false),
        ],
        3,
    ),
    (
        &[
            (Eq(3, 4), true),
            (Btwn(1, 1, 2, 3), true),
            (Btwn(1, 1, 2, 4), false),
        ],
        3,
    ),
    (
        &[
            (Btwn(0, 1, 2, 3), true),
            (Eq(3, 4), true),
            (Btwn(1, 1, 2, 4), false),
        ],
        0,
    ),
    (
        &[(Hop(1, 2), true), (Hop(3, 2), false), (Eq(1, 3), true)],
        3,
    ),
    (
        &[(Hop(1, 2), true), (Hop(1, 3), false), (Eq(2, 3), true)],
        3,
    ),
    (
        &[(Alloc(1, 1), false), (Alloc(1, 2), true), (Eq(1, 2), true)],
        3,
    ),
    (
        &[(Alloc(0, 1), false), (Alloc(1, 2), true), (Eq(1, 2), true)],
        0,
    ),
    (
        &[
            (Def(0), true),
            (Def(1), false),
            (Eq(0, 1), true),
            (Eq(1, 2), false),
        ],
        0,
    ),
];

#[test]
fn conflicts(rt: HostRuntime) -> Result<(), AllocError> {
    assert!(rt; hold(rt.alloc(), Setting::Nothing, Rows::Conflicts(CONFLICTS))?);
    Ok(())
}

// Two equalities make 1 and 3 one, with a conflict of four literals. They are undone, and one is asserted again. A term
// out of range is equal to itself alone.
const UNDONE: &[Step] = &[
    Step::Assert(&[(Hop(1, 2), true), (Hop(3, 2), false)]),
    Step::Size(0),
    Step::Assert(&[(Eq(1, 4), true), (Eq(3, 4), true)]),
    Step::Size(4),
    Step::Same(1, 3, true),
    Step::Undo(2),
    Step::Same(1, 3, false),
    Step::Assert(&[(Eq(3, 4), true)]),
    Step::Size(0),
    Step::Same(7, 7, true),
    Step::Same(7, 3, false),
];

#[test]
fn undone_and_asserted_again(rt: HostRuntime) -> Result<(), AllocError> {
    assert!(rt; hold(rt.alloc(), Setting::Nothing, Rows::Steps(UNDONE))?);
    Ok(())
}

const AMONG_MANY: &[Merge] = &[
    (&[(Eq(0, 1), true)], false),
    (&[(Eq(2, 3), true)], true),
    (
        &[(Eq(3, 4), true), (Eq(1, 2), true), (Eq(0, 2), true)],
        false,
    ),
    (
        &[(Eq(0, 1), true), (Eq(3, 4), true), (Eq(1, 4), true)],
        true,
    ),
    (
        &[(Eq(0, 1), true), (Hop(0, 3), true), (Hop(1, 3), false)],
        true,
    ),
    (
        &[(Hop(3, 1), false), (Hop(4, 1), true), (Eq(3, 4), true)],
        true,
    ),
    (
        &[(Hop(3, 1), false), (Hop(4, 2), true), (Eq(3, 4), true)],
        false,
    ),
];

#[test]
fn merges_among_many_literals(rt: HostRuntime) -> Result<(), AllocError> {
    assert!(rt; hold(rt.alloc(), Setting::Betweenness, Rows::Merges(AMONG_MANY))?);
    Ok(())
}

const OF_MANY_TERMS: &[Merge] = &[
    (&[], false),
    (&[(Eq(18, 19), true)], true),
    (&[(Hop(2, 5), false)], true),
    (&[(Hop(2, 4), false)], false),
    (&[(Hop(2, 4), true), (Hop(18, 6), false)], true),
];

#[test]
fn merges_of_many_terms(rt: HostRuntime) -> Result<(), AllocError> {
    assert!(rt; hold(rt.alloc(), Setting::ManyTerms, Rows::Merges(OF_MANY_TERMS))?);
    Ok(())
}

// A clause, and whether it is a lemma.
type Lemma = (&'static [Signed], bool);

const LEMMAS: &[Lemma] = &[
    (&[], false),
    (&[(Eq(2, 2), true)], true),
    (&[(Eq(1, 2), true)], false),
    (
        &[(Eq(1, 2), false), (Eq(2, 3), false), (Eq(1, 3), true)],
        true,
    ),
    (
        &[(Eq(1, 2), false), (Eq(2, 3), false), (Eq(1, 4), true)],
        false,
    ),
    (
        &[(Eq(1, 2), false), (Hop(1, 3), false), (Hop(2, 3), true)],
        true,
    ),
    (
        &[(Eq(1, 2), false), (Hop(1, 3), true), (Hop(2, 3), true)],
        false,
    ),
    (
        &[
            (Eq(1, 2), false),
            (Btwn(0, 1, 3, 1), true),
            (Btwn(0, 2, 3, 2), false),
        ],
        true,
    ),
    (
        &[(Eq(1, 2), false), (Alloc(0, 1), true), (Alloc(1, 2), false)],
        false,
    ),
    // a repeated literal, and one with its opposite
    (&[(Alloc(0, 1), true), (Alloc(0, 1), true)], false),
    (&[(Def(1), true), (Def(0), false), (Def(1), false)], true),
    // free definitions
    (&[(Def(0), true), (Def(1), false)], false),
    // out of range
    (&[(Eq(2, 2), true), (Eq(0, 5), true)], false),
    (&[(Def(1), true), (Def(1), false), (Def(2), true)], false),
    // chains
    (
        &[
            (Eq(1, 2), false),
            (Eq(3, 4), false),
            (Eq(2, 3), false),
            (Eq(0, 1), false),
            (Eq(0, 4), true),
        ],
        true,
    ),
    (
        &[
            (Eq(1, 2), false),
            (Eq(3, 4), false),
            (Hop(1, 0), false),
            (Hop(4, 0), true),
            (Eq(2, 3), false),
            (Alloc(1, 0), true),
        ],
        true,
    ),
    (
        &[
            (Eq(1, 2), false),
            (Eq(3, 4), false),
            (Hop(1, 0), false),
            (Hop(4, 0), true),
            (Eq(0, 3), false),
            (Alloc(1, 0), true),
        ],
        false,
    ),
    (
        &[
            (Def(0), true),
            (Alloc(0, 4), true),
            (Btwn(0, 0, 2, 4), false),
            (Eq(0, 1), false),
            (Btwn(0, 1, 3, 4), true),
            (Def(1), false),
            (Eq(2, 3), false),
        ],
        true,
    ),
    (
        &[
            (Def(0), true),
            (Alloc(0, 4), true),
            (Btwn(0, 0, 2, 4), false),
            (Eq(0, 1), false),
            (Btwn(1, 1, 3, 4), true),
            (Def(1), false),
            (Eq(2, 3), false),
        ],
        false,
    ),
];

// The clause of literals.
fn clause_of(global: Global, lits: &[Signed]) -> Result<Clause, AllocError> {
    let mut clause = Clause::new(global);
    for lit in lits {
        clause.push(lit_of(*lit))?;
    }
    Ok(clause)
}

// Whether the literals are a lemma.
fn are_lemma(global: Global, lits: &[Signed]) -> Result<bool, AllocError> {
    let clause = clause_of(global, lits)?;
    is_lemma(global, &clause, TERMS, 2, 2)
}

#[test]
fn lemmas(rt: HostRuntime) -> Result<(), AllocError> {
    for (lits, expected) in LEMMAS {
        assert!(rt; are_lemma(rt.alloc(), lits)? == *expected);
    }
    Ok(())
}
