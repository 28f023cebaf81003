//! The truths of definitions, by their clauses. Nothing is claimed of them, since a model is checked with them.

use crate::checked::are_in_range;
use crate::structures::structure_of;
use gh_base::atom::{Atom, Lit};
use gh_base::ground::Ground;
use gh_base::structure::Structure;
use std::alloc::{AllocError, Global};

// The structure of the other atoms, and whether each definition is true, as far as its clauses were read.
#[derive(Drop)]
struct Evaluation {
    structure: Structure,
    definitions: Vec<bool>,
}

// The later one of two definitions.
fn later(last: Option<u32>, number: u32) -> Option<u32> {
    match last {
        Some(before) if before > number => Some(before),
        _ => Some(number),
    }
}

// The last definition that a clause speaks of, if it speaks of any.
fn last_definition(clause: &[Lit]) -> Option<u32> {
    let mut last = None;
    for lit in clause {
        if let Atom::Def { number } = lit.atom {
            last = later(last, number);
        }
    }
    last
}

// The literals of some that are of no definition.
fn other_lits(alloc: Global, lits: &[Lit]) -> Result<Vec<Lit>, AllocError> {
    let mut others = Vec::new(alloc);
    for lit in lits {
        match lit.atom {
            Atom::Def { .. } => {}
            _ => others.push(*lit)?,
        }
    }
    Ok(others)
}

impl Evaluation {
    // Whether a literal is true.
    fn is_true(&self, lit: Lit) -> bool {
        let truth = match lit.atom {
            Atom::Def { number } => self.definitions.get(number as usize) == Some(&true),
            atom => {
                if !self.structure.sizes().has(atom) {
                    return false;
                }
                self.structure.holds(atom)
            }
        };
        truth == lit.positive
    }

    // The last definition of a clause, if that needs it to be true.
    fn forced(&self, clause: &[Lit]) -> Option<u32> {
        let number = last_definition(clause)?;
        for lit in clause {
            let is_last = lit.atom == Atom::Def { number };
            if is_last && !lit.positive {
                return None;
            }
            if !is_last && self.is_true(*lit) {
                return None;
            }
        }
        Some(number)
    }

    // Makes a definition true.
    fn set(&mut self, number: u32) {
        if (number as usize) < self.definitions.len() {
            self.definitions[number as usize] = true;
        }
    }

    // Evaluates the definitions. The clauses of each one stand after those of the definitions that it is made of, so
    // reading all clauses once will do.
    fn evaluate(&mut self, ground: &Ground) {
        for number in 0..ground.count() {
            if let Some(clause) = ground.clause(number) {
                if let Some(definition) = self.forced(clause.lits()) {
                    self.set(definition);
                }
            }
        }
    }

    // Adds the literals of true definitions.
    fn add_true(&self, lits: &mut Vec<Lit>) -> Result<(), AllocError> {
        for number in 0..self.structure.defs() {
            let lit = Lit {
                atom: Atom::Def { number },
                positive: true,
            };
            if self.is_true(lit) {
                lits.push(lit)?;
            }
        }
        Ok(())
    }
}

/// The literals of some that are of no definition, and those of the definitions that are true with them. A search may
/// leave definitions out, or have some true that it needs in one direction alone.
pub(crate) fn with_definitions(
    alloc: Global,
    ground: &Ground,
    lits: &[Lit],
) -> Result<Vec<Lit>, AllocError> {
    let sizes = ground.sizes();
    if !are_in_range(sizes, lits) {
        return Ok(Vec::new(alloc));
    }
    let mut evaluation = Evaluation {
        structure: structure_of(alloc, sizes, lits)?,
        definitions: vec![in alloc; false; sizes.defs as usize]?,
    };
    evaluation.evaluate(ground);
    let mut all = other_lits(alloc, lits)?;
    evaluation.add_true(&mut all)?;
    Ok(all)
}
