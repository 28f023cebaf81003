//! The structure of what the trail asserts, in the versions of the window, and the instances that it makes false.

use crate::early::Least;
use crate::rows::{Few, Plan, Plans, Row};
use gh_inst::naming::InstanceName;
use gh_trail::clauses::Origin;
use gh_trail::propagator::Propagator;
use gh_trail::shape::{Code, Kind, Parts, Shape};
use gh_trail::table::byte;
use gh_trail::words::Words;
use std::alloc::AllocError;

// So many false instances are added at once.
const MOST: usize = 200;

/// The positive atoms of a trail over least terms.
#[derive(Debug, Drop)]
pub(crate) struct Made {
    words: Words,
}

/// An instance with its literals.
#[derive(Clone, Copy, Debug)]
struct False {
    name: InstanceName,
    few: Few,
}

impl Made {
    /// The structure of a trail.
    pub fn new(state: &Propagator, least: &Least) -> Result<Made, AllocError> {
        let mut words = Words::new(state.alloc, state.layout)?;
        for code in state.trail.steps.as_slice() {
            let parts = state.shape.parts(code.atom());
            if code.is_positive() && parts.kind != Kind::Eq {
                let over = least.over(parts);
                if !words.has(over) {
                    words.turn(over);
                }
            }
        }
        Ok(Made { words })
    }

    /// Whether a literal is true that isn't of a definition.
    pub fn makes(&self, shape: &Shape, least: &Least, code: Code) -> bool {
        let over = least.over(shape.parts(code.atom()));
        self.holds(over, code.is_positive())
    }

    // Whether a literal of a row is true.
    fn holds(&self, parts: Parts, positive: bool) -> bool {
        let held = if parts.kind == Kind::Eq {
            parts.terms[0] == parts.terms[1]
        } else {
            self.words.has(parts)
        };
        held == positive
    }

    // The terms for a plan's free variable over which each other literal of the row may be false.
    fn open_terms(&self, plan: &Plan, mask: u32, version: u8, tuple: &[u8; 4]) -> u32 {
        let mut open = mask;
        for read in plan.reads.as_slice() {
            if read.kind != Kind::Eq {
                let word = self.words.word(read.reading.place(version, tuple));
                open &= if read.positive { !word } else { word };
            }
        }
        open
    }
}

// The literals of an instance that is false in the structure, if it is.
fn false_codes(
    state: &Propagator,
    made: &Made,
    row: &Row,
    version: u8,
    tuple: &[u8; 4],
) -> Option<Few> {
    let mut few = Few::new();
    for pattern in row.patterns.as_slice() {
        let parts = pattern.parts(version, tuple);
        if made.holds(parts, pattern.positive) {
            return None;
        }
        few.push(pattern.code(&state.shape, version, tuple));
    }
    Some(few)
}

// An instance's terms but for those of a free variable, which are bits of a word.
#[derive(Clone, Copy, Debug)]
struct Open {
    version: u8,
    tuple: [u8; 4],
    free: Option<u8>,
    terms: u32,
}

// Gathers the false instances of a row.
fn gather_row(
    state: &Propagator,
    made: &Made,
    row: &Row,
    open: Open,
    found: &mut Vec<False>,
) -> Result<(), AllocError> {
    let Open {
        version,
        mut tuple,
        free,
        mut terms,
    } = open;
    for _ in 0..32 {
        if terms == 0 || found.len() >= MOST {
            break;
        }
        if let Some(free) = free {
            tuple[(free & 3) as usize] = byte(terms.trailing_zeros() as usize);
        }
        terms &= terms.wrapping_sub(1);
        if let Some(few) = false_codes(state, made, row, version, &tuple) {
            let name = row.name(version, &tuple);
            found.push(False { name, few })?;
        }
    }
    Ok(())
}

// What is open of a plan's row where its trigger's atom is true.
fn open_of(made: &Made, plan: &Plan, mask: u32, parts: Parts) -> Option<Open> {
    let [x, y, z] = parts.terms;
    let tuple = plan.tuple(&[x, y, z, 0])?;
    let version = parts.version;
    let terms = match plan.free {
        None => 1,
        Some(_) => made.open_terms(plan, mask, version, &tuple),
    };
    Some(Open {
        version,
        tuple,
        free: plan.free,
        terms,
    })
}

// Gathers the false instances whose first negative literal is over an atom that is true.
fn gather_for(
    state: &Propagator,
    plans: &Plans,
    made: &Made,
    mask: u32,
    parts: Parts,
    found: &mut Vec<False>,
) -> Result<(), AllocError> {
    for plan in plans.of(parts.kind, true) {
        if !plan.is_first {
            continue;
        }
        if let (Some(row), Some(open)) = (
            plans.rows.get(plan.row),
            open_of(made, plan, mask, parts),
        ) {
            gather_row(state, made, row, open, found)?;
        }
    }
    Ok(())
}

// The instances that are false in the structure, up to so many.
fn false_instances(
    state: &Propagator,
    plans: &Plans,
    least: &Least,
    made: &Made,
) -> Result<Vec<False>, AllocError> {
    let mut found: Vec<False> = Vec::new(state.alloc);
    let (low, high) = state.order.window();
    for code in state.trail.steps.as_slice() {
        let parts = state.shape.parts(code.atom());
        let inside = low <= parts.version && parts.version <= high;
        let is_least = state.shape.number(least.over(parts)) == code.atom();
        let relation = code.is_positive() && parts.kind != Kind::Eq;
        if relation && inside && is_least && found.len() < MOST {
            gather_for(state, plans, made, least.mask, parts, &mut found)?;
        }
    }
    Ok(found)
}

/// What became of the instances that are false in a structure.
#[derive(Clone, Copy, Debug)]
pub(crate) enum Missing {
    /// There are none.
    None,
    /// Some were added, none of them false under the trail.
    Added,
    /// This one is false under the trail.
    False(u32),
}

/// Adds instances that are false in the structure, up to one that is false under the trail.
pub(crate) fn add_false(
    state: &mut Propagator,
    plans: &Plans,
    least: &Least,
    made: &Made,
) -> Result<Missing, AllocError> {
    let found = false_instances(state, plans, least, made)?;
    for instance in found.as_slice() {
        let added = state.add(instance.few.codes(), Origin::Instance(instance.name))?;
        if added.is_false {
            return Ok(Missing::False(added.number));
        }
    }
    Ok(if found.is_empty() {
        Missing::None
    } else {
        Missing::Added
    })
}
