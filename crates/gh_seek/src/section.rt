//! The section of a refutation: a line for each clause that the refutation needs.

use crate::search::Searcher;
use gh_base::atom::Lit;
use gh_log::lines::{Lines, LogLine, Section};
use gh_trail::clauses::{Clauses, Origin};
use gh_trail::shape::Shape;
use gh_trail::table::{at, put, small};
use std::alloc::{AllocError, Global};

// Marks the clauses of some numbers.
fn mark_all(needed: &mut [bool], numbers: &[u32]) {
    for number in numbers {
        put(needed, *number as usize, true);
    }
}

/// Which clauses some need, by number: these, and those that show the learnt ones among them.
pub(crate) fn needed_for(
    alloc: Global,
    clauses: &Clauses,
    roots: &[u32],
) -> Result<Vec<bool>, AllocError> {
    let mut needed = vec![in alloc; false; clauses.count()]?;
    mark_all(needed.as_mut_slice(), roots);
    mark_hints(alloc, clauses, needed.as_mut_slice())?;
    Ok(needed)
}

// Marks the clauses that show marked ones, from the last one back.
fn mark_hints(alloc: Global, clauses: &Clauses, needed: &mut [bool]) -> Result<(), AllocError> {
    let mut hints = Vec::new(alloc);
    for back in 0..needed.len() {
        let number = needed.len() - 1 - back;
        if needed[number] {
            clauses.find_hints(small(number), &mut hints)?;
            mark_all(needed, hints.as_slice());
        }
    }
    Ok(())
}

// The literals of a clause.
fn lits_of(
    alloc: Global,
    shape: &Shape,
    clauses: &Clauses,
    number: u32,
) -> Result<Vec<Lit>, AllocError> {
    let codes = clauses.codes(number);
    let mut lits = Vec::with_capacity(alloc, codes.len())?;
    for code in codes {
        lits.push(shape.lit(*code))?;
    }
    Ok(lits)
}

/// The positions of some clauses.
pub(crate) fn moved(
    alloc: Global,
    positions: &[u32],
    hints: &[u32],
) -> Result<Vec<u32>, AllocError> {
    let mut moved = Vec::with_capacity(alloc, hints.len())?;
    for hint in hints {
        moved.push(at(positions, *hint as usize, 0))?;
    }
    Ok(moved)
}

// Adds the line of a clause that hints show.
fn push_hinted(
    searcher: &Searcher,
    lines: &mut Lines,
    positions: &[u32],
    number: u32,
) -> Result<(), AllocError> {
    let (shape, clauses) = (&searcher.state.shape, &searcher.state.clauses);
    let alloc = searcher.state.alloc;
    let lits = lits_of(alloc, shape, clauses, number)?;
    let mut found = Vec::new(alloc);
    clauses.find_hints(number, &mut found)?;
    let hints = moved(alloc, positions, found.as_slice())?;
    lines.push(LogLine::Hinted {
        clause: lits.as_slice(),
        hints: hints.as_slice(),
    })
}

// Adds the line of a clause.
fn push_line(
    searcher: &Searcher,
    lines: &mut Lines,
    positions: &[u32],
    number: u32,
) -> Result<(), AllocError> {
    let (shape, clauses) = (&searcher.state.shape, &searcher.state.clauses);
    match clauses.origin(number) {
        None => Ok(()),
        Some(Origin::Ground(number)) => lines.push(LogLine::Clause { number }),
        Some(Origin::Instance(name)) => lines.push(LogLine::Axiom(name)),
        Some(Origin::Lemma) => {
            let lits = lits_of(searcher.state.alloc, shape, clauses, number)?;
            lines.push(LogLine::Lemma(lits.as_slice()))
        }
        Some(_shown) => push_hinted(searcher, lines, positions, number),
    }
}

// Adds the lines of the clauses that are needed, and notes their positions.
fn push_lines(
    searcher: &Searcher,
    lines: &mut Lines,
    positions: &mut [u32],
    needed: &[bool],
) -> Result<(), AllocError> {
    for number in 0..needed.len() {
        if at(needed, number, false) {
            push_line(searcher, lines, positions, small(number))?;
            put(positions, number, small(lines.len()));
        }
    }
    Ok(())
}

// The lines of a refutation whose last clause, the empty one, has these hints.
fn lines_of(searcher: &Searcher, last: &[u32]) -> Result<Lines, AllocError> {
    let alloc = searcher.state.alloc;
    let needed = needed_for(alloc, &searcher.state.clauses, last)?;
    let mut positions = vec![in alloc; 0; needed.len()]?;
    let mut lines = Lines::new(alloc);
    push_lines(
        searcher,
        &mut lines,
        positions.as_mut_slice(),
        needed.as_slice(),
    )?;
    let hints = moved(alloc, positions.as_slice(), last)?;
    lines.push(LogLine::Hinted {
        clause: &[],
        hints: hints.as_slice(),
    })?;
    Ok(lines)
}

/// The section of a refutation by a clause that is false at level 0.
pub(crate) fn section_of(searcher: &mut Searcher, conflict: u32) -> Result<Section, AllocError> {
    let last = searcher.lessons.refutation(&searcher.state, conflict)?;
    let lines = lines_of(searcher, last.as_slice())?;
    Ok(Section { first: 1, lines })
}
