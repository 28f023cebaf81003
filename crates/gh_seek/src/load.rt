//! The ground clauses that a search needs. Those of a definition say it in both directions; one direction is left out
//! where the others don't ask for it: no clause has the opposite of what it tells.

use gh_base::clause::Clause;
use gh_base::ground::Ground;
use gh_trail::clauses::Origin;
use gh_trail::propagator::Propagator;
use gh_trail::shape::{Code, Shape};
use gh_trail::table::{at, put, small};
use std::alloc::{AllocError, Global};

// The clauses of a ground problem, one after the other, without repeats in one.
#[derive(Debug, Drop)]
struct Table {
    codes: Vec<Code>,
    // Where each clause ends, and its greatest atom: a clause that says what a definition stands for has that one.
    ends: Vec<u32>,
    greatest: Vec<u32>,
    // By literal: one more than the number of the last clause that has it.
    last: Vec<u32>,
}

impl Table {
    // No clause, with room for so many.
    fn new(alloc: Global, shape: &Shape, count: usize) -> Result<Table, AllocError> {
        Ok(Table {
            codes: Vec::with_capacity(alloc, count.wrapping_mul(3))?,
            ends: Vec::with_capacity(alloc, count)?,
            greatest: Vec::with_capacity(alloc, count)?,
            last: vec![in alloc; 0; shape.count.wrapping_mul(2)]?,
        })
    }

    // Adds all clauses. Notes the latest version of which each definition speaks.
    fn fill(&mut self, shape: &mut Shape, ground: &Ground) -> Result<(), AllocError> {
        for number in 0..ground.count() {
            let Some(clause) = ground.clause(number) else {
                break;
            };
            self.push(shape, clause)?;
            let defined = self.greatest(number as usize);
            if defined >= shape.defs {
                let codes = self.clause(number as usize);
                let version = latest(shape, codes, defined);
                shape.note_version(defined, version);
            }
        }
        Ok(())
    }

    // Adds a clause.
    fn push(&mut self, shape: &Shape, clause: &Clause) -> Result<(), AllocError> {
        let stamp = small(self.ends.len()).wrapping_add(1);
        let mut greatest = 0;
        for lit in clause.lits() {
            let code = shape.code(*lit);
            greatest = code.atom().max(greatest);
            if at(self.last.as_slice(), code.place(), 0) != stamp {
                put(self.last.as_mut_slice(), code.place(), stamp);
                self.codes.push(code)?;
            }
        }
        self.ends.push(small(self.codes.len()))?;
        self.greatest.push(small(greatest))?;
        Ok(())
    }

    // The greatest atom of a clause.
    fn greatest(&self, number: usize) -> usize {
        at(self.greatest.as_slice(), number, 0) as usize
    }

    // The literals of a clause.
    fn clause(&self, number: usize) -> &[Code] {
        let end = at(self.ends.as_slice(), number, 0) as usize;
        let start = if number == 0 {
            0
        } else {
            at(self.ends.as_slice(), number - 1, 0) as usize
        };
        if start <= end && end <= self.codes.len() {
            return &self.codes.as_slice()[start..end];
        }
        &[]
    }
}

// The latest version of which literals speak, but for that of a definition.
fn latest(shape: &Shape, codes: &[Code], defined: usize) -> u8 {
    let mut version = 0;
    for code in codes {
        if code.atom() != defined {
            version = shape.parts(code.atom()).version.max(version);
        }
    }
    version
}

// Whether a clause is asked for: it is unit or speaks of no definition, or it tells a literal of the definition whose
// opposite stands in a clause that is asked for and defines another one.
fn is_asked_for(shape: &Shape, codes: &[Code], defined: usize, asked: &[bool]) -> bool {
    if codes.len() < 2 || defined < shape.defs {
        return true;
    }
    codes.iter().any(|code| code.atom() == defined && at(asked, code.negated().place(), true))
}

// Notes what a clause that is asked for asks for.
fn ask(shape: &Shape, codes: &[Code], defined: usize, asked: &mut [bool]) {
    for code in codes {
        let atom = code.atom();
        if atom >= shape.defs && (atom != defined || codes.len() < 2) {
            put(asked, code.place(), true);
        }
    }
}

// Which clauses are asked for. A clause with a definition comes after those that define it.
fn asked_for(alloc: Global, shape: &Shape, table: &Table) -> Result<Vec<bool>, AllocError> {
    let mut asked = vec![in alloc; false; shape.count.wrapping_mul(2)]?;
    let count = table.ends.len();
    let mut kept = vec![in alloc; false; count]?;
    for back in 0..count {
        let number = count - 1 - back;
        let (codes, defined) = (table.clause(number), table.greatest(number));
        if is_asked_for(shape, codes, defined, asked.as_slice()) {
            ask(shape, codes, defined, asked.as_mut_slice());
            put(kept.as_mut_slice(), number, true);
        }
    }
    Ok(kept)
}

// The clauses of a ground problem. Notes the latest version of which each definition speaks.
fn table_of(alloc: Global, shape: &mut Shape, ground: &Ground) -> Result<Table, AllocError> {
    let mut table = Table::new(alloc, shape, ground.count() as usize)?;
    table.fill(shape, ground).and(Ok(table))
}

/// Takes the clauses that say what the definitions of a ground problem stand for into their keys.
pub(crate) fn note_keys(
    alloc: Global,
    shape: &mut Shape,
    ground: &Ground,
) -> Result<(), AllocError> {
    let table = table_of(alloc, shape, ground)?;
    for number in 0..table.ends.len() {
        let (codes, defined) = (table.clause(number), table.greatest(number));
        if defined >= shape.defs && (codes.len() > 1 || shape.key(defined) == 0) {
            shape.note_key(defined, codes);
        }
    }
    Ok(())
}

// Adds the clauses of a table that are kept, up to a number.
fn add_kept(
    state: &mut Propagator,
    table: &Table,
    kept: &[bool],
    most: u32,
) -> Result<(), AllocError> {
    for number in 0..kept.len().min(most as usize) {
        if at(kept, number, true) {
            add_clause(state, table.clause(number), small(number))?;
        }
    }
    Ok(())
}

// Adds the ground clause of a number.
fn add_clause(state: &mut Propagator, codes: &[Code], number: u32) -> Result<(), AllocError> {
    for code in codes {
        state.order.note(code.atom());
    }
    let added = state.clauses.push(codes, Origin::Ground(number))?;
    let _added = state.watch(added)?;
    Ok(())
}

/// Adds the clauses of a ground problem that are asked for, up to a number, and has their atoms decided.
pub(crate) fn load(
    alloc: Global,
    state: &mut Propagator,
    ground: &Ground,
    most: u32,
) -> Result<(), AllocError> {
    let table = table_of(alloc, &mut state.shape, ground)?;
    let kept = asked_for(alloc, &state.shape, &table)?;
    state.reserve(table.ends.len(), table.codes.len())?;
    add_kept(state, &table, kept.as_slice(), most)?;
    state.order.fill(&state.shape)
}
