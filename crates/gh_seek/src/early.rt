//! Instances of axiom rows that the trail makes unit or false, over least terms of classes. One that would only make an
//! atom false that stands in no clause is left out: such an atom is false in a structure anyway.

use crate::rows::{Plan, Plans, Row};
use gh_trail::clauses::Origin;
use gh_trail::propagator::Propagator;
use gh_trail::shape::{Code, Kind, Parts};
use gh_trail::table::{at, bit, byte, put};
use std::alloc::{AllocError, Global};

/// The least term of each term's class, and the word of the terms that are least.
#[derive(Debug, Drop)]
pub(crate) struct Least {
    terms: Vec<u8>,
    pub mask: u32,
    // The changes of classes when these were found.
    changes: u64,
}

impl Least {
    /// Each term alone.
    pub fn new(alloc: Global, terms: usize) -> Result<Least, AllocError> {
        let mut least = Least {
            terms: Vec::new(alloc),
            mask: 0,
            changes: 0,
        };
        for term in 0..terms {
            least.terms.push(byte(term))?;
            least.mask |= bit(byte(term));
        }
        Ok(least)
    }

    /// The least term of a term's class.
    pub fn of(&self, term: u8) -> u8 {
        at(self.terms.as_slice(), term as usize, term)
    }

    /// Finds the least terms anew. Answers the word of those terms whose least one is less than it was.
    pub fn find(&mut self, state: &Propagator) -> u32 {
        if self.changes == state.classes.changes() {
            return 0;
        }
        self.changes = state.classes.changes();
        let mut by_leader = [255; 32];
        let mut lessened = 0;
        self.mask = 0;
        for index in 0..self.terms.len() {
            let term = byte(index);
            let leader = state.classes.leader(term);
            let mut least = at(by_leader.as_slice(), leader as usize, term);
            if least == 255 {
                least = term;
                put(by_leader.as_mut_slice(), leader as usize, term);
                self.mask |= bit(term);
            }
            if least < self.of(term) {
                lessened |= bit(term);
            }
            self.terms[index] = least;
        }
        lessened
    }

    /// Whether the terms of an atom are least.
    pub fn are_least(&self, parts: Parts) -> bool {
        let [x, y, z] = parts.terms;
        let word = bit(x) | bit(y) | bit(z);
        self.mask & word == word
    }

    /// An atom over the least terms. Terms past its arity are 0, the least of all.
    pub fn over(&self, parts: Parts) -> Parts {
        let [x, y, z] = parts.terms;
        Parts {
            kind: parts.kind,
            version: parts.version,
            terms: [self.of(x), self.of(y), self.of(z)],
        }
    }
}

/// Adds the instances that the trail makes unit or false, up to a false one, and answers its number.
pub(crate) fn add_early(
    state: &mut Propagator,
    plans: &Plans,
    least: &mut Least,
) -> Result<Option<u32>, AllocError> {
    let lessened = least.find(state);
    for term in 0..state.shape.terms {
        if lessened & bit(byte(term)) != 0 {
            carry_anew(state, least, byte(term))?;
        }
    }
    for _ in 0..u32::MAX {
        if state.early >= state.trail.steps.len() {
            break;
        }
        let code = state.trail.step(state.early);
        if let Some(conflict) = add_for(state, plans, least, code)? {
            return Ok(Some(conflict));
        }
        state.early = state.early.wrapping_add(1);
    }
    Ok(None)
}

// Carries the literals that mention a term whose least one is less than it was.
fn carry_anew(state: &mut Propagator, least: &Least, term: u8) -> Result<(), AllocError> {
    let count = state.classes.mentions(term).len();
    for index in 0..count {
        let place = at(state.classes.mentions(term), index, u32::MAX) as usize;
        if place < state.early {
            let code = state.trail.step(place);
            carry(state, least, code)?;
        }
    }
    Ok(())
}

// Gives the atom over least terms the truth of a literal's atom, by a lemma, but for false where that one stands in no
// clause. Where it has the other truth, the classes find the clash.
fn carry(state: &mut Propagator, least: &Least, code: Code) -> Result<(), AllocError> {
    let parts = state.shape.parts(code.atom());
    if parts.kind == Kind::Def || parts.kind == Kind::Eq && code.is_positive() {
        return Ok(());
    }
    let over = least.over(parts);
    let carried = Code::new(state.shape.number(over), code.is_positive());
    if carried.0 == code.0 || !state.trail.is_open(carried) {
        return Ok(());
    }
    if !code.is_positive() && !state.order.is_needed(carried.atom()) {
        return Ok(());
    }
    let mut codes = Vec::new(state.alloc);
    codes.push(carried)?;
    codes.push(code.negated())?;
    state
        .classes
        .explain(&state.shape, parts, over, &mut codes)?;
    let _added = state.add_lemma(codes.as_slice())?;
    Ok(())
}

// Adds the instances that a literal of the trail makes unit or false.
fn add_for(
    state: &mut Propagator,
    plans: &Plans,
    least: &Least,
    code: Code,
) -> Result<Option<u32>, AllocError> {
    let parts = state.shape.parts(code.atom());
    if parts.kind == Kind::Def || parts.kind == Kind::Eq && code.is_positive() {
        return Ok(None);
    }
    if !least.are_least(parts) {
        carry(state, least, code)?;
        return Ok(None);
    }
    if parts.kind == Kind::Eq {
        return add_apart(state, plans, least, parts);
    }
    let (low, high) = state.order.window();
    if parts.version < low || parts.version > high {
        return Ok(None);
    }
    add_at(state, plans, least, parts, code.is_positive())
}

// Adds the instances that a negated equality makes unit or false, read both ways.
fn add_apart(
    state: &mut Propagator,
    plans: &Plans,
    least: &Least,
    parts: Parts,
) -> Result<Option<u32>, AllocError> {
    let [x, y, z] = parts.terms;
    for terms in [[x, y, z], [y, x, z]] {
        let apart = Parts {
            kind: parts.kind,
            version: 0,
            terms,
        };
        if let Some(conflict) = add_in_window(state, plans, least, apart)? {
            return Ok(Some(conflict));
        }
    }
    Ok(None)
}

// Adds the instances that a negated equality, read one way, makes unit or false, in each version of the window.
fn add_in_window(
    state: &mut Propagator,
    plans: &Plans,
    least: &Least,
    parts: Parts,
) -> Result<Option<u32>, AllocError> {
    let (low, high) = state.order.window();
    let end = (high as usize).wrapping_add(1).min(state.shape.versions);
    for version in (low as usize)..end {
        let mut here = parts;
        here.version = byte(version);
        if let Some(conflict) = add_at(state, plans, least, here, false)? {
            return Ok(Some(conflict));
        }
    }
    Ok(None)
}

// Adds the instances that an atom's truth makes unit or false in its version.
fn add_at(
    state: &mut Propagator,
    plans: &Plans,
    least: &Least,
    parts: Parts,
    positive: bool,
) -> Result<Option<u32>, AllocError> {
    let [x, y, z] = parts.terms;
    let terms = [x, y, z, 0];
    for plan in plans.of(parts.kind, positive) {
        let Some(tuple) = plan.tuple(&terms) else {
            continue;
        };
        if let Some(conflict) = add_planned(state, plans, plan, least.mask, parts.version, tuple)? {
            return Ok(Some(conflict));
        }
    }
    Ok(None)
}

// The terms for a plan's free variable over which at most one literal isn't false and none is true; a negative one that
// is open is of an atom that stands in a clause.
fn unit_terms(state: &Propagator, plan: &Plan, mask: u32, version: u8, tuple: &[u8; 4]) -> u32 {
    let (mut open, mut all_false, mut one_left) = (mask, u32::MAX, 0);
    for read in plan.reads.as_slice() {
        let place = read.reading.place(version, tuple);
        let (yes, no) = (state.yes.word(place), state.no.word(place));
        let gone = if read.positive { no } else { yes };
        open &= if read.positive {
            !yes
        } else {
            !no & (yes | state.order.needed_word(place))
        };
        one_left = one_left & gone | all_false & !gone;
        all_false &= gone;
        if open & (one_left | all_false) == 0 {
            return 0;
        }
    }
    open & (one_left | all_false)
}

// Adds the instances of a plan's row that are unit or false.
fn add_planned(
    state: &mut Propagator,
    plans: &Plans,
    plan: &Plan,
    mask: u32,
    version: u8,
    bound: [u8; 4],
) -> Result<Option<u32>, AllocError> {
    let mut tuple = bound;
    let Some(free) = plan.free else {
        return add_instance(state, plans, plan, version, &tuple);
    };
    let mut found = unit_terms(state, plan, mask, version, &tuple);
    for _ in 0..32 {
        if found == 0 {
            break;
        }
        tuple[(free & 3) as usize] = byte(found.trailing_zeros() as usize);
        found &= found.wrapping_sub(1);
        if let Some(conflict) = add_instance(state, plans, plan, version, &tuple)? {
            return Ok(Some(conflict));
        }
    }
    Ok(None)
}

// Whether an instance is unit or false where a plan's trigger is false: no other literal is true, and one at most is
// open.
fn is_due(state: &Propagator, row: &Row, trigger: usize, version: u8, tuple: &[u8; 4]) -> bool {
    let mut open = None;
    for place in 0..row.patterns.len() {
        let pattern = &row.patterns[place];
        if place == trigger {
            continue;
        }
        let code = pattern.code(&state.shape, version, tuple);
        if state.trail.is_false(code) {
            continue;
        }
        if state.trail.is_true(code) || pattern.is_reflexive(tuple) {
            return false;
        }
        if state.trail.is_open(code) {
            let is_idle = !code.is_positive() && !state.order.is_needed(code.atom());
            if is_idle || open.is_some_and(|other| other != code.0) {
                return false;
            }
            open = Some(code.0);
        }
    }
    true
}

// Adds an instance of a plan's row, if it is unit or false. The number of a false one is answered.
fn add_instance(
    state: &mut Propagator,
    plans: &Plans,
    plan: &Plan,
    version: u8,
    tuple: &[u8; 4],
) -> Result<Option<u32>, AllocError> {
    let Some(row) = plans.rows.get(plan.row) else {
        return Ok(None);
    };
    if !is_due(state, row, plan.trigger, version, tuple) {
        return Ok(None);
    }
    let (few, name) = (
        row.codes(&state.shape, version, tuple),
        row.name(version, tuple),
    );
    let added = state.add(few.codes(), Origin::Instance(name))?;
    Ok(if added.is_false {
        Some(added.number)
    } else {
        None
    })
}
