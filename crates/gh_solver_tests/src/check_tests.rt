//! Worked sections over the clauses of one condition.

use crate::solve_tests::worked;
use gh_base::atom::{Atom, Lit, Term};
use gh_base::clause::Clause;
use gh_base::ground::Ground;
use gh_check::check::check_log;
use gh_check::fault::{CheckError, FaultKind, LogFault};
use gh_inst::naming::InstanceName;
use gh_log::lines::{Lines, LogLine, Section};
use std::alloc::{AllocError, Global};

// A clause in DIMACS form, its end filled with zeros: atoms 1 to 9 are definitions 0 to 8, 10 says that term 0 is
// allocated, 11 that it leads to itself, 12 that it equals itself, and 13 is no atom of the ground clauses.
type Dimacs = [i8; 3];

// A line of a section.
#[derive(Clone, Copy)]
enum Plain {
    Axiom { row: u8, term: u8 },
    Ground(u32),
    Lemma(Dimacs),
    Learnt(Dimacs),
    Hinted(Dimacs, &'static [u32]),
    Delete(&'static [u32]),
}

const NONE: Dimacs = [0, 0, 0];

const END: Plain = Plain::Learnt(NONE);

fn atom_of(code: u8) -> Atom {
    match code {
        10 => Atom::Alloc {
            version: 0,
            x: Term(0),
        },
        11 => Atom::Hop {
            version: 0,
            x: Term(0),
            v: Term(0),
        },
        12 => Atom::Eq {
            a: Term(0),
            b: Term(0),
        },
        _ => Atom::Def {
            number: code.wrapping_sub(1) as u32,
        },
    }
}

fn clause_of(alloc: Global, codes: Dimacs) -> Result<Clause, AllocError> {
    let mut clause = Clause::new(alloc);
    for code in codes {
        if code != 0 {
            clause.push(Lit {
                atom: atom_of(code.unsigned_abs()),
                positive: code > 0,
            })?;
        }
    }
    Ok(clause)
}

fn add(alloc: Global, lines: &mut Lines, plain: Plain) -> Result<(), AllocError> {
    match plain {
        Plain::Axiom { row, term } => lines.push(LogLine::Axiom(InstanceName {
            row,
            version: 0,
            terms: [Term(term), Term(0), Term(0), Term(0)],
            arity: 1,
        })),
        Plain::Ground(number) => lines.push(LogLine::Clause { number }),
        Plain::Lemma(codes) => {
            let clause = clause_of(alloc, codes)?;
            lines.push(LogLine::Lemma(clause.lits()))
        }
        Plain::Learnt(codes) => {
            let clause = clause_of(alloc, codes)?;
            lines.push(LogLine::Learnt(clause.lits()))
        }
        Plain::Hinted(codes, hints) => {
            let clause = clause_of(alloc, codes)?;
            lines.push(LogLine::Hinted {
                clause: clause.lits(),
                hints,
            })
        }
        Plain::Delete(positions) => lines.push(LogLine::Delete { positions }),
    }
}

// The number and the line of the fault of some lines and those after them, of which the first is line 3 of its file.
fn fault_of(
    alloc: Global,
    ground: &Ground,
    before: &[Plain],
    after: &[Plain],
) -> Result<Option<(u8, u32)>, CheckError> {
    let mut lines = Lines::new(alloc);
    for line in before.iter().chain(after) {
        add(alloc, &mut lines, *line)?;
    }
    if lines.len() > 100 {
        return Err(CheckError::OutOfMemory);
    }
    let section = Section { first: 3, lines };
    match check_log(alloc, ground, &section) {
        Ok(()) => Ok(None),
        Err(CheckError::Fault(fault)) => Ok(Some((fault.number, fault.line))),
        Err(CheckError::OutOfMemory) => Err(CheckError::OutOfMemory),
    }
}

// Lines, and the number and the line of their first fault.
#[derive(Clone, Copy)]
struct Row {
    lines: &'static [Plain],
    fault: Option<(u8, u32)>,
}

// The place of the first row whose lines have another fault after some lines, over the clauses of one condition.
fn wrong_row(alloc: Global, before: &[Plain], rows: &[Row]) -> Result<Option<usize>, CheckError> {
    let ground = worked(alloc)?;
    for (place, row) in rows.iter().enumerate() {
        if fault_of(alloc, &ground, before, row.lines)? != row.fault {
            return Ok(Some(place));
        }
    }
    Ok(None)
}

// Ground clauses that have a contradiction.
const REFUTED: &[Plain] = &[
    Plain::Ground(0),
    Plain::Ground(15),
    Plain::Ground(16),
    Plain::Ground(19),
    Plain::Ground(23),
    Plain::Ground(24),
];

// A valid section is these and the end. Here it has one change each.
const CHANGED: &[Row] = &[
    Row {
        lines: &[
            Plain::Ground(0),
            Plain::Ground(15),
            Plain::Ground(19),
            Plain::Ground(23),
            Plain::Ground(24),
            END,
        ],
        fault: Some((4, 8)),
    },
    Row {
        lines: REFUTED,
        fault: Some((5, 9)),
    },
    Row {
        lines: &[
            Plain::Ground(0),
            Plain::Ground(15),
            Plain::Ground(16),
            Plain::Ground(19),
            Plain::Ground(23),
            Plain::Ground(25),
            END,
        ],
        fault: Some((2, 8)),
    },
    Row {
        lines: &[
            Plain::Lemma([-10, 0, 0]),
            Plain::Ground(15),
            Plain::Ground(16),
            Plain::Ground(19),
            Plain::Ground(23),
            Plain::Ground(24),
            END,
        ],
        fault: Some((3, 3)),
    },
    Row {
        lines: &[
            Plain::Axiom { row: 1, term: 1 },
            Plain::Ground(15),
            Plain::Ground(16),
            Plain::Ground(19),
            Plain::Ground(23),
            Plain::Ground(24),
            END,
        ],
        fault: Some((1, 3)),
    },
];

#[test]
fn changed_sections(rt: HostRuntime) -> Result<(), CheckError> {
    assert!(rt; wrong_row(rt.alloc(), &[], CHANGED)? == None);
    Ok(())
}

// Sections with no end, lines of each kind, and clauses that propagation shows or doesn't.
const OTHERS: &[Row] = &[
    Row {
        lines: &[],
        fault: Some((5, 3)),
    },
    Row {
        lines: &[
            Plain::Axiom { row: 1, term: 0 },
            Plain::Lemma([12, 0, 0]),
            Plain::Learnt([1, -1, 0]),
        ],
        fault: Some((5, 6)),
    },
    // Repeated literals count once.
    Row {
        lines: &[
            Plain::Ground(0),
            Plain::Learnt([-10, -10, 3]),
            Plain::Learnt([1, 1, 0]),
        ],
        fault: Some((4, 5)),
    },
    Row {
        lines: &[Plain::Learnt([13, -13, 0])],
        fault: Some((4, 3)),
    },
    // Later lines don't count.
    Row {
        lines: &[Plain::Learnt([-10, 0, 0]), Plain::Ground(0), END],
        fault: Some((4, 3)),
    },
    // What was assumed for one line doesn't hold for the next.
    Row {
        lines: &[
            Plain::Ground(0),
            Plain::Ground(19),
            Plain::Learnt([7, 8, 0]),
            Plain::Learnt([8, 0, 0]),
        ],
        fault: Some((4, 6)),
    },
    // From a contradiction everything in range follows.
    Row {
        lines: &[
            Plain::Ground(14),
            Plain::Learnt([5, 1, 0]),
            Plain::Ground(11),
            Plain::Ground(12),
            Plain::Ground(4),
            Plain::Ground(6),
            Plain::Ground(16),
            Plain::Ground(15),
            Plain::Ground(24),
            Plain::Ground(23),
            Plain::Ground(0),
            Plain::Ground(19),
            Plain::Learnt([-1, 0, 0]),
            Plain::Learnt([13, 0, 0]),
        ],
        fault: Some((4, 16)),
    },
];

#[test]
fn other_sections(rt: HostRuntime) -> Result<(), CheckError> {
    assert!(rt; wrong_row(rt.alloc(), &[], OTHERS)? == None);
    Ok(())
}

// The valid section without hints, and with hints, which the last line needs in their order.
const HINTED: &[Row] = &[
    Row {
        lines: &[END],
        fault: None,
    },
    Row {
        lines: &[Plain::Hinted(NONE, &[1, 2, 3, 4, 5, 6])],
        fault: None,
    },
    Row {
        lines: &[Plain::Hinted(NONE, &[1, 2, 3, 4, 5])],
        fault: Some((4, 9)),
    },
    Row {
        lines: &[Plain::Hinted(NONE, &[1, 2, 4, 3, 5, 6])],
        fault: Some((4, 9)),
    },
    Row {
        lines: &[Plain::Hinted(NONE, &[1, 2, 3, 4, 5, 7])],
        fault: Some((6, 9)),
    },
    Row {
        lines: &[Plain::Hinted(NONE, &[0, 1, 2, 3, 4, 5, 6])],
        fault: Some((6, 9)),
    },
    // A hint that no line needs is a fault too, and comes before an atom out of range.
    Row {
        lines: &[Plain::Hinted([13, 0, 0], &[8])],
        fault: Some((6, 9)),
    },
    Row {
        lines: &[Plain::Hinted([13, -13, 0], &[])],
        fault: Some((4, 9)),
    },
    // Opposite literals need no hint. A true literal isn't false, and is the one that isn't.
    Row {
        lines: &[
            Plain::Hinted([1, -1, 0], &[]),
            Plain::Hinted([10, 0, 0], &[1, 1]),
        ],
        fault: Some((4, 10)),
    },
    // A line that hints show is a hint of later ones.
    Row {
        lines: &[
            Plain::Hinted([8, 8, 0], &[1, 3, 4]),
            Plain::Hinted(NONE, &[6, 7, 5]),
        ],
        fault: Some((4, 10)),
    },
    Row {
        lines: &[
            Plain::Hinted([8, 7, 0], &[1, 4]),
            Plain::Hinted([8, 0, 0], &[3, 7]),
            Plain::Hinted(NONE, &[2, 8, 5, 6]),
        ],
        fault: None,
    },
];

#[test]
fn hinted_sections(rt: HostRuntime) -> Result<(), CheckError> {
    assert!(rt; wrong_row(rt.alloc(), REFUTED, HINTED)? == None);
    Ok(())
}

// Deletions, and lines after them.
const DELETED: &[Row] = &[
    Row {
        lines: &[
            Plain::Delete(&[2]),
            Plain::Hinted(NONE, &[1, 2, 3, 4, 5, 6]),
        ],
        fault: Some((6, 10)),
    },
    Row {
        lines: &[
            Plain::Hinted(NONE, &[1, 2, 3, 4, 5, 6]),
            Plain::Delete(&[1]),
        ],
        fault: Some((5, 11)),
    },
    Row {
        lines: &[Plain::Delete(&[2, 2])],
        fault: Some((6, 9)),
    },
    Row {
        lines: &[Plain::Delete(&[7])],
        fault: Some((6, 9)),
    },
    Row {
        lines: &[Plain::Delete(&[0])],
        fault: Some((6, 9)),
    },
    Row {
        lines: &[Plain::Delete(&[2]), Plain::Delete(&[3, 2])],
        fault: Some((6, 10)),
    },
    // A deletion has a position, and no clause.
    Row {
        lines: &[Plain::Delete(&[]), Plain::Hinted(NONE, &[7])],
        fault: Some((6, 10)),
    },
    Row {
        lines: &[
            Plain::Ground(0),
            Plain::Delete(&[1]),
            Plain::Hinted(NONE, &[7, 2, 3, 4, 5, 6]),
        ],
        fault: None,
    },
    // Propagation from all lines has deleted ones too.
    Row {
        lines: &[Plain::Delete(&[1, 2, 3]), END],
        fault: None,
    },
];

#[test]
fn deleted_lines(rt: HostRuntime) -> Result<(), CheckError> {
    assert!(rt; wrong_row(rt.alloc(), REFUTED, DELETED)? == None);
    Ok(())
}

// Whether a kind has this number, both ways.
fn is_numbered(kind: FaultKind, number: u8) -> bool {
    let fault = LogFault { number, line: 3 };
    fault.kind() == kind && kind.number() == number
}

#[test]
fn kinds(rt: HostRuntime) {
    let kinds = [
        FaultKind::NotInstance,
        FaultKind::NotClause,
        FaultKind::NotLemma,
        FaultKind::NotImplied,
        FaultKind::NoEmptyClause,
        FaultKind::NoSuchLine,
    ];
    for (place, kind) in kinds.iter().enumerate() {
        assert!(rt; is_numbered(*kind, place as u8 + 1));
    }
}
