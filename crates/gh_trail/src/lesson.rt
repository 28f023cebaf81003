//! What is learnt from a conflict: the clause of the first unique implication point, with the hints that show it.

use crate::propagator::{Propagator, has};
use crate::shape::Code;
use crate::table::{at, put, small};
use crate::trail::NO_CLAUSE;
use std::alloc::{AllocError, Global};

/// Marks on atoms, and what a resolution has gathered.
#[derive(Debug, Drop)]
pub struct Lessons {
    alloc: Global,
    // By atom: the round in which it was marked.
    stamps: Vec<u32>,
    round: u32,
    // How many marked literals of the present level wait.
    waiting: u32,
    // The marked literals of lower levels, and the hints for those of level 0.
    lower: Vec<Code>,
    units: Vec<u32>,
    // The clauses that were resolved.
    reasons: Vec<u32>,
    // The atoms of literals that follow from others of the lesson, in the order of the trail.
    spared: Vec<u32>,
    /// What was learnt last, and the hints that show it.
    pub codes: Vec<Code>,
    pub hints: Vec<u32>,
    // So many literals of level 0 have clauses of their own.
    settled: usize,
}

impl Lessons {
    /// No atom is marked.
    pub fn new(alloc: Global, atoms: usize) -> Result<Lessons, AllocError> {
        Ok(Lessons {
            alloc,
            stamps: vec![in alloc; 0; atoms]?,
            round: 0,
            waiting: 0,
            lower: Vec::new(alloc),
            units: Vec::new(alloc),
            reasons: Vec::new(alloc),
            spared: Vec::new(alloc),
            codes: Vec::new(alloc),
            hints: Vec::new(alloc),
            settled: 0,
        })
    }

    // Gives each literal of level 0 a clause of its own, in their order.
    fn settle(&mut self, state: &mut Propagator) -> Result<(), AllocError> {
        let end = state.trail.start(1);
        for place in self.settled..end {
            let code = state.trail.step(place);
            self.settle_one(state, code)?;
        }
        self.settled = end;
        Ok(())
    }

    // Gives a literal of level 0 a clause of its own, shown by its reason and the clauses of that one's other literals.
    fn settle_one(&mut self, state: &mut Propagator, code: Code) -> Result<(), AllocError> {
        let reason = state.trail.reason(code.atom());
        if state.clauses.len(reason) <= 1 {
            return Ok(());
        }
        self.hints.clear();
        for other in state.clauses.codes(reason) {
            if other.0 != code.0 {
                self.hints.push(state.trail.reason(other.atom()))?;
            }
        }
        self.hints.push(reason)?;
        let number = state.clauses.learn(&[code], self.hints.as_slice())?;
        let _added = state.attach(number)?;
        state.trail.set_reason(code.atom(), number);
        Ok(())
    }

    // Marks the atoms of a clause.
    fn mark(&mut self, state: &mut Propagator, number: u32) -> Result<(), AllocError> {
        let level = state.trail.level();
        for index in 0..state.clauses.len(number) {
            let code = at(state.clauses.codes(number), index, Code(0));
            let atom = code.atom();
            if at(self.stamps.as_slice(), atom, self.round) == self.round {
                continue;
            }
            put(self.stamps.as_mut_slice(), atom, self.round);
            state.order.bump(&state.shape, atom);
            let own = state.trail.level_of(atom);
            let reason = state.trail.reason(atom);
            if own == 0 || own < level && state.clauses.len(reason) == 1 {
                self.units.push(reason)?;
            } else if own == level {
                self.waiting = self.waiting.saturating_add(1);
            } else {
                self.lower.push(code)?;
            }
        }
        Ok(())
    }

    // Whether an atom is marked.
    fn is_marked(&self, atom: usize) -> bool {
        at(self.stamps.as_slice(), atom, 0) == self.round
    }

    /// Learns from a false clause that has literals of the present level, which isn't 0. Answers the level at which the
    /// clause that is learnt is unit.
    pub fn resolve(&mut self, state: &mut Propagator, conflict: u32) -> Result<u32, AllocError> {
        self.settle(state)?;
        self.round = self.round.wrapping_add(1);
        self.waiting = 0;
        self.lower.clear();
        self.units.clear();
        self.reasons.clear();
        self.reasons.push(conflict)?;
        self.mark(state, conflict)?;
        let mut point = Code(0);
        let length = state.trail.steps.len();
        for back in 0..length {
            point = state.trail.step(length - 1 - back);
            if !self.is_marked(point.atom()) {
                continue;
            }
            let reason = state.trail.reason(point.atom());
            if self.waiting <= 1 || reason == NO_CLAUSE {
                break;
            }
            self.waiting = self.waiting.wrapping_sub(1);
            self.reasons.push(reason)?;
            self.mark(state, reason)?;
        }
        state.order.end_conflict();
        self.lesson(state, point)
    }

    // Whether a literal of the lesson follows from the others: its reason has no further ones but of level 0.
    fn is_spared(&self, state: &Propagator, code: Code) -> bool {
        let reason = state.trail.reason(code.atom());
        if reason == NO_CLAUSE {
            return false;
        }
        for other in state.clauses.codes(reason) {
            let atom = other.atom();
            if !self.is_marked(atom) && state.trail.level_of(atom) > 0 {
                return false;
            }
        }
        true
    }

    // Notes the clauses of a reason's literals of level 0.
    fn note_units(&mut self, state: &Propagator, reason: u32) -> Result<(), AllocError> {
        for other in state.clauses.codes(reason) {
            let atom = other.atom();
            if state.trail.level_of(atom) == 0 && !self.is_marked(atom) {
                put(self.stamps.as_mut_slice(), atom, self.round);
                self.units.push(state.trail.reason(atom))?;
            }
        }
        Ok(())
    }

    // Notes an atom that is spared, in the order of the trail.
    fn note_spared(&mut self, state: &Propagator, atom: u32) -> Result<(), AllocError> {
        let place = state.trail.place_of(atom as usize);
        let mut spot = self.spared.len();
        self.spared.push(atom)?;
        for _ in 0..self.spared.len() {
            let below = spot.saturating_sub(1);
            let before = at(self.spared.as_slice(), below, 0);
            if spot == 0 || state.trail.place_of(before as usize) <= place {
                break;
            }
            put(self.spared.as_mut_slice(), spot, before);
            spot = below;
        }
        put(self.spared.as_mut_slice(), spot, atom);
        Ok(())
    }

    // Makes the lesson at an implication point, from the clauses in the order in which they were resolved. Answers its
    // level.
    fn lesson(&mut self, state: &Propagator, point: Code) -> Result<u32, AllocError> {
        let mut level = 0;
        self.codes.clear();
        self.spared.clear();
        self.codes.push(point.negated())?;
        for index in 0..self.lower.len() {
            let code = at(self.lower.as_slice(), index, point);
            if self.is_spared(state, code) {
                self.note_units(state, state.trail.reason(code.atom()))?;
                self.note_spared(state, small(code.atom()))?;
            } else {
                level = state.trail.level_of(code.atom()).max(level);
                self.codes.push(code)?;
            }
        }
        self.hints.clear();
        self.hints.extend_from_slice(self.units.as_slice())?;
        for atom in self.spared.as_slice() {
            self.hints.push(state.trail.reason(*atom as usize))?;
        }
        for reason in self.reasons.iter().rev() {
            self.hints.push(*reason)?;
        }
        Ok(level)
    }

    /// Learns that one of some literals is true, where the opposites of others make one so. Answers the clause that says
    /// it, unless it is so at level 0.
    pub fn show(
        &mut self,
        state: &mut Propagator,
        wanted: &[Code],
    ) -> Result<Option<u32>, AllocError> {
        let Some(shown) = wanted.iter().find(|code| state.trail.is_true(**code)) else {
            return Ok(None);
        };
        let shown = *shown;
        if state.trail.level_of(shown.atom()) == 0 {
            return Ok(None);
        }
        let reason = state.trail.reason(shown.atom());
        let said = state.clauses.codes(reason);
        if said.iter().all(|code| has(wanted, *code)) {
            return Ok(Some(reason));
        }
        self.round = self.round.wrapping_add(1);
        put(self.stamps.as_mut_slice(), shown.atom(), self.round);
        self.trace(state)?;
        self.codes.clear();
        for code in wanted {
            if self.is_marked(code.atom()) {
                self.codes.push(*code)?;
            }
        }
        self.reasons.reverse();
        let number = state
            .clauses
            .learn(self.codes.as_slice(), self.reasons.as_slice())?;
        let _added = state.attach(number)?;
        Ok(Some(number))
    }

    // Gathers the reasons of all that marked literals are reached from, the latest first.
    fn trace(&mut self, state: &Propagator) -> Result<(), AllocError> {
        self.reasons.clear();
        let length = state.trail.steps.len();
        for back in 0..length {
            let code = state.trail.step(length - 1 - back);
            let reason = state.trail.reason(code.atom());
            if self.is_marked(code.atom()) && reason != NO_CLAUSE {
                self.reasons.push(reason)?;
                self.stamp(state, reason);
            }
        }
        Ok(())
    }

    // Marks the atoms of a clause whose literals all have truths.
    fn stamp(&mut self, state: &Propagator, number: u32) {
        for code in state.clauses.codes(number) {
            put(self.stamps.as_mut_slice(), code.atom(), self.round);
        }
    }

    /// The hints that show the empty clause, where a clause is false at level 0: the reasons of all that it is reached
    /// from, and itself.
    pub fn refutation(
        &mut self,
        state: &Propagator,
        conflict: u32,
    ) -> Result<Vec<u32>, AllocError> {
        self.round = self.round.wrapping_add(1);
        self.stamp(state, conflict);
        self.trace(state)?;
        self.reasons.reverse();
        let mut reasons = Vec::new(self.alloc);
        reasons.extend_from_slice(self.reasons.as_slice())?;
        reasons.push(conflict)?;
        Ok(reasons)
    }
}
