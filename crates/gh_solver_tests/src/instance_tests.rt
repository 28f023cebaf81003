//! Each row at one tuple, names in order, and structures with a false instance.

ghost use Rattle.std.specs.Prelude.{◌≤◌};

use gh_base::atom::{Atom, Lit, Term};
use gh_base::structure::Structure;
use gh_inst::collecting::false_instances;
use gh_inst::instances::Instances;
use gh_inst::naming::{InstanceName, instance};
use gh_inst::violation::{violated, violated_plainly};
use std::alloc::{AllocError, Global};

const VERSION: u8 = 1;

// An atom in that version by the numbers of its terms, as the rows of tables write it.
#[derive(Clone, Copy)]
enum Plain {
    Eq(u8, u8),
    Btwn(u8, u8, u8),
    Hop(u8, u8),
    Alloc(u8),
}

use Plain::{Alloc, Btwn, Eq, Hop};

// The atom, or where it is false its opposite.
type Signed = (Plain, bool);

fn lit_of(signed: Signed) -> Lit {
    let atom = match signed.0 {
        Eq(a, b) => Atom::Eq {
            a: Term(a),
            b: Term(b),
        },
        Btwn(x, y, z) => Atom::Btwn {
            version: VERSION,
            x: Term(x),
            y: Term(y),
            z: Term(z),
        },
        Hop(x, v) => Atom::Hop {
            version: VERSION,
            x: Term(x),
            v: Term(v),
        },
        Alloc(x) => Atom::Alloc {
            version: VERSION,
            x: Term(x),
        },
    };
    Lit {
        atom,
        positive: signed.1,
    }
}

// A name: its row, its version, its arity and four terms.
type Named = (u8, u8, u8, [u8; 4]);

fn name(named: Named) -> InstanceName {
    let (row, version, arity, [a, b, c, d]) = named;
    InstanceName {
        row,
        version,
        terms: [Term(a), Term(b), Term(c), Term(d)],
        arity,
    }
}

// Whether an instance is that of a name, or there is none of either.
fn is_named(found: Option<InstanceName>, named: Option<Named>) -> bool {
    match (found, named) {
        (Some(found), Some(named)) => found == name(named),
        (None, None) => true,
        _ => false,
    }
}

// A name, and the clause of its instance.
type Row = (Named, &'static [Signed]);

// Whether the clause of an instance has these literals.
fn has_clause(global: Global, row: Row) -> bool {
    match instance(global, name(row.0), 6, 2) {
        None => false,
        Some(clause) => {
            clause.lits().len() == row.1.len()
                && clause
                    .lits()
                    .iter()
                    .zip(row.1)
                    .all(|(lit, signed)| *lit == lit_of(*signed))
        }
    }
}

// The first row with another clause.
fn wrong_row(global: Global, rows: &[Row]) -> Option<usize> {
    for (number, row) in rows.iter().enumerate() {
        if !has_clause(global, *row) {
            return Some(number);
        }
    }
    None
}

const ROWS: &[Row] = &[
    ((1, VERSION, 1, [5, 0, 0, 0]), &[(Btwn(5, 5, 5), true)]),
    (
        (2, VERSION, 2, [5, 4, 0, 0]),
        &[(Btwn(5, 4, 5), false), (Eq(4, 5), true)],
    ),
    (
        (3, VERSION, 3, [5, 4, 3, 0]),
        &[
            (Btwn(5, 4, 4), false),
            (Btwn(5, 3, 3), false),
            (Btwn(5, 4, 3), true),
            (Btwn(5, 3, 4), true),
        ],
    ),
    (
        (4, VERSION, 3, [5, 4, 3, 0]),
        &[(Btwn(5, 4, 3), false), (Btwn(5, 4, 4), true)],
    ),
    (
        (5, VERSION, 3, [5, 4, 3, 0]),
        &[(Btwn(5, 4, 3), false), (Btwn(4, 3, 3), true)],
    ),
    (
        (6, VERSION, 3, [5, 4, 3, 0]),
        &[
            (Btwn(5, 4, 4), false),
            (Btwn(4, 3, 3), false),
            (Btwn(5, 3, 3), true),
        ],
    ),
    (
        (7, VERSION, 4, [5, 4, 3, 2]),
        &[
            (Btwn(5, 4, 2), false),
            (Btwn(4, 3, 2), false),
            (Btwn(5, 4, 3), true),
        ],
    ),
    (
        (8, VERSION, 4, [5, 4, 3, 2]),
        &[
            (Btwn(5, 4, 2), false),
            (Btwn(4, 3, 2), false),
            (Btwn(5, 3, 2), true),
        ],
    ),
    (
        (9, VERSION, 4, [5, 4, 3, 2]),
        &[
            (Btwn(5, 4, 2), false),
            (Btwn(5, 3, 4), false),
            (Btwn(5, 3, 2), true),
        ],
    ),
    (
        (10, VERSION, 4, [5, 4, 3, 2]),
        &[
            (Btwn(5, 4, 2), false),
            (Btwn(5, 3, 4), false),
            (Btwn(3, 4, 2), true),
        ],
    ),
    (
        (11, VERSION, 2, [5, 4, 0, 0]),
        &[(Hop(5, 4), false), (Btwn(5, 4, 4), true)],
    ),
    (
        (12, VERSION, 3, [5, 4, 3, 0]),
        &[
            (Hop(5, 4), false),
            (Btwn(5, 3, 3), false),
            (Eq(3, 5), true),
            (Btwn(5, 4, 3), true),
        ],
    ),
    (
        (13, VERSION, 2, [5, 4, 0, 0]),
        &[(Alloc(5), true), (Btwn(5, 4, 4), false), (Eq(4, 5), true)],
    ),
    (
        (14, VERSION, 2, [5, 4, 0, 0]),
        &[(Hop(5, 5), false), (Btwn(5, 4, 4), false), (Eq(4, 5), true)],
    ),
    (
        (15, VERSION, 2, [5, 4, 0, 0]),
        &[(Hop(5, 4), false), (Alloc(5), true)],
    ),
];

#[test]
fn rows(rt: HostRuntime) {
    assert!(rt; wrong_row(rt.alloc(), ROWS) == None);
}

const EQUAL_TERMS: &[Row] = &[
    (
        (2, VERSION, 2, [3, 3, 0, 0]),
        &[(Btwn(3, 3, 3), false), (Eq(3, 3), true)],
    ),
    (
        (7, VERSION, 4, [2, 2, 4, 2]),
        &[
            (Btwn(2, 2, 2), false),
            (Btwn(2, 4, 2), false),
            (Btwn(2, 2, 4), true),
        ],
    ),
    (
        (12, VERSION, 3, [1, 1, 1, 0]),
        &[
            (Hop(1, 1), false),
            (Btwn(1, 1, 1), false),
            (Eq(1, 1), true),
            (Btwn(1, 1, 1), true),
        ],
    ),
];

#[test]
fn equal_terms(rt: HostRuntime) {
    assert!(rt; wrong_row(rt.alloc(), EQUAL_TERMS) == None);
}

const NONE: &[Named] = &[
    (0, 1, 1, [0, 0, 0, 0]),
    (16, 1, 2, [0, 0, 0, 0]),
    (1, 1, 2, [0, 0, 0, 0]),
    (7, 1, 3, [0, 0, 0, 0]),
    (7, 1, 5, [0, 0, 0, 0]),
    (1, 2, 1, [0, 0, 0, 0]),
    (2, 1, 2, [0, 6, 0, 0]),
    (7, 1, 4, [5, 5, 5, 6]),
    (1, 1, 1, [0, 1, 0, 0]),
    (6, 1, 3, [0, 0, 0, 2]),
];

#[test]
fn no_instances(rt: HostRuntime) {
    for named in NONE {
        assert!(rt; instance(rt.alloc(), name(*named), 6, 2).is_none());
    }
}

fn count_of(terms: u8, versions: u8) -> u64 {
    let mut count = 0u64;
    for _name in Instances::new(terms, versions) {
        count = count.wrapping_add(1);
    }
    count
}

// The numbers of terms, versions and instances.
const COUNTS: &[(u8, u8, u64)] = &[
    (0, 3, 0),
    (3, 0, 0),
    (1, 1, 15),
    (2, 1, 126),
    (2, 3, 378),
    (3, 2, 1014),
];

// Places in the order over two terms and two versions.
const PLACES: &[(usize, Option<Named>)] = &[
    (0, Some((1, 0, 1, [0, 0, 0, 0]))),
    (3, Some((1, 1, 1, [1, 0, 0, 0]))),
    (4, Some((2, 0, 2, [0, 0, 0, 0]))),
    (7, Some((2, 0, 2, [1, 1, 0, 0]))),
    (25, Some((3, 1, 3, [1, 0, 1, 0]))),
    (251, Some((15, 1, 2, [1, 1, 0, 0]))),
    (252, None),
];

#[test]
fn names_in_order(rt: HostRuntime) {
    for (terms, versions, count) in COUNTS {
        assert!(rt; count_of(*terms, *versions) == *count);
    }
    for (place, named) in PLACES {
        assert!(rt; is_named(Instances::new(2, 2).nth(*place), *named));
    }
}

// The structure of two terms in two classes and one version in which these atoms alone are true.
fn structure_of(global: Global, atoms: &[Atom]) -> Result<Structure, AllocError> {
    let mut structure = Structure::new(global, &[Term(0), Term(1)], 1, 0)?;
    for atom in atoms {
        let is_equality = matches!(atom, Atom::Eq { .. });
        if structure.sizes().has(*atom) && !is_equality {
            structure.set(*atom, true);
        }
    }
    Ok(structure)
}

// Each of the two terms reaches itself.
const ZERO: Atom = Atom::Btwn {
    version: 0,
    x: Term(0),
    y: Term(0),
    z: Term(0),
};

const ONE: Atom = Atom::Btwn {
    version: 0,
    x: Term(1),
    y: Term(1),
    z: Term(1),
};

// The second leads to the first.
const HOP: Atom = Atom::Hop {
    version: 0,
    x: Term(1),
    v: Term(0),
};

// The first reaches the second.
const REACHED: Atom = Atom::Btwn {
    version: 0,
    x: Term(0),
    y: Term(1),
    z: Term(1),
};

const VIOLATIONS: &[(&[Atom], Option<Named>)] = &[
    (&[ZERO, ONE], None),
    (&[ZERO], Some((1, 0, 1, [1, 0, 0, 0]))),
    (&[ZERO, ONE, HOP], Some((11, 0, 2, [1, 0, 0, 0]))),
    (&[], Some((1, 0, 1, [0, 0, 0, 0]))),
    // two terms are met from one, in no order
    (&[ZERO, ONE, REACHED], Some((3, 0, 3, [0, 0, 1, 0]))),
];

// Whether the first violation of a structure in which these atoms are true has this name.
fn violates(global: Global, atoms: &[Atom], named: Option<Named>) -> Result<bool, AllocError> {
    let structure = structure_of(global, atoms)?;
    Ok(is_named(violated(&structure), named))
}

#[test]
fn first_violations(rt: HostRuntime) -> Result<(), AllocError> {
    for (atoms, named) in VIOLATIONS {
        assert!(rt; violates(rt.alloc(), atoms, *named)?);
    }
    Ok(())
}

// Makes an atom true if it was false, and false if it was true.
fn turn(structure: &mut Structure, atom: Atom) {
    let is_equality = matches!(atom, Atom::Eq { .. });
    if structure.sizes().has(atom) && !is_equality {
        let truth = structure.holds(atom);
        structure.set(atom, !truth);
    }
}

fn is_ordered(atom: Atom) -> bool {
    matches!(atom, Atom::Btwn { x, y, z, .. } if x.0 <= y.0 && y.0 <= z.0)
}

// The structure of so many terms in one class and two versions in which betweenness is the order of the terms' numbers,
// but for one atom.
fn ordered_but<const N: usize>(global: Global, atom: Atom) -> Result<Structure, AllocError>
    requires some { 1 ≤ N }
    requires few { N ≤ 40 }
{
    let mut structure = Structure::new(global, &[Term(0); N], 2, 0)?;
    let sizes = structure.sizes();
    for number in 0..sizes.count() {
        let atom = sizes.atom(number);
        if is_ordered(atom) {
            turn(&mut structure, atom);
        }
    }
    turn(&mut structure, atom);
    Ok(structure)
}

// Whether both searches name this instance of the order but for one atom.
fn both_name<const N: usize>(
    global: Global,
    atom: Atom,
    named: Option<Named>,
) -> Result<bool, AllocError>
    requires some { 1 ≤ N }
    requires few { N ≤ 40 }
{
    let structure = ordered_but::<N>(global, atom)?;
    Ok(
        is_named(violated(&structure), named)
            && is_named(violated_plainly(global, &structure), named),
    )
}

const OF_THREE: &[(Atom, Option<Named>)] = &[
    (
        Atom::Eq {
            a: Term(0),
            b: Term(0),
        },
        None,
    ),
    (
        Atom::Btwn {
            version: 1,
            x: Term(0),
            y: Term(2),
            z: Term(2),
        },
        Some((5, 1, 3, [0, 0, 2, 0])),
    ),
    (
        Atom::Hop {
            version: 1,
            x: Term(2),
            v: Term(0),
        },
        Some((11, 1, 2, [2, 0, 0, 0])),
    ),
];

const OF_MANY: &[(Atom, Option<Named>)] = &[
    (
        Atom::Btwn {
            version: 1,
            x: Term(32),
            y: Term(32),
            z: Term(32),
        },
        Some((1, 1, 1, [32, 0, 0, 0])),
    ),
    (
        Atom::Btwn {
            version: 1,
            x: Term(5),
            y: Term(20),
            z: Term(32),
        },
        Some((3, 1, 3, [5, 20, 32, 0])),
    ),
];

#[test]
fn plain_walk(rt: HostRuntime) -> Result<(), AllocError> {
    for (atom, named) in OF_THREE {
        assert!(rt; both_name::<3>(rt.alloc(), *atom, *named)?);
    }
    for (atom, named) in OF_MANY {
        assert!(rt; both_name::<33>(rt.alloc(), *atom, *named)?);
    }
    Ok(())
}

// Atoms that are true, and the names of the false instances.
const FALSE: &[(&[Atom], &[Named])] = &[
    (&[ZERO], &[(1, 0, 1, [1, 0, 0, 0])]),
    (&[ZERO, ONE], &[]),
    (
        &[ZERO, ONE, HOP],
        &[(11, 0, 2, [1, 0, 0, 0]), (15, 0, 2, [1, 0, 0, 0])],
    ),
];

// Whether the false instances of a structure in which these atoms are true have these names.
fn are_false(global: Global, atoms: &[Atom], names: &[Named]) -> Result<bool, AllocError> {
    let structure = structure_of(global, atoms)?;
    let found = false_instances(global, &structure)?;
    Ok(
        found.len() == names.len()
            && found
                .iter()
                .zip(names)
                .all(|(one, named)| *one == name(*named)),
    )
}

#[test]
fn false_ones(rt: HostRuntime) -> Result<(), AllocError> {
    for (atoms, names) in FALSE {
        assert!(rt; are_false(rt.alloc(), atoms, names)?);
    }
    Ok(())
}
