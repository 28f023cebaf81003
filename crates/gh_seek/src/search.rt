//! The search: decisions, propagation with instances, lessons.

use crate::early::{Least, add_early};
use crate::load::load;
use crate::rows::{Plans, Row};
use crate::structure::{Made, Missing, add_false};
use gh_base::ground::Ground;
use gh_trail::clauses::Origin;
use gh_trail::lesson::Lessons;
use gh_trail::propagator::{Added, Propagator, distinct};
use gh_trail::shape::{Code, Parts};
use gh_trail::table::byte;
use std::alloc::{AllocError, Global};

// A lesson is far if at least so many levels lie between its own and the present one.
const FAR: u32 = 8;

/// How a search ended.
#[derive(Debug, Drop)]
pub(crate) enum End {
    /// This clause is false at level 0.
    Refuted(u32),
    /// One of the wanted literals is true though the opposites of those before it were decided.
    Shown,
    /// The structure of the trail makes the clauses and the instances of the window true.
    Found(Made),
    /// It took too many conflicts.
    TooLong,
}

/// A cell in a version.
#[derive(Clone, Copy, Debug)]
pub(crate) struct CellAt {
    pub version: u8,
    pub term: u8,
}

/// A propagator with what searches over it.
#[derive(Debug, Drop)]
pub(crate) struct Searcher {
    pub state: Propagator,
    pub least: Least,
    pub lessons: Lessons,
    /// Literals whose opposites are decided after those of the wanted ones and the chain.
    pub cases: Vec<Code>,
    /// Clauses that say what was wanted, some more than once.
    pub shown: Vec<u32>,
    /// A segment: before the cases it is decided which terms are the contents along it, from its first cell on. So each
    /// way along it is met once, and what is learnt at its end serves all other ways that lead there.
    pub chain: Option<Parts>,
    plans: Plans,
    // A far lesson cuts so many levels and one more.
    stride: u32,
}

// The plans, least terms and lessons for a propagator without clauses.
fn parts_for(alloc: Global, state: &Propagator) -> Result<(Plans, Least, Lessons), AllocError> {
    let plans = Plans::new(alloc, &state.layout)?;
    let least = Least::new(alloc, state.shape.terms)?;
    let lessons = Lessons::new(alloc, state.shape.count)?;
    Ok((plans, least, lessons))
}

// The level to cut to after a lesson: its own, or where that is far `stride` and one below the present one.
fn cut_level(present: u32, level: u32, stride: u32) -> u32 {
    let least = present.saturating_sub(1).saturating_sub(level);
    if least < FAR {
        level
    } else {
        present.saturating_sub(1).saturating_sub(stride.min(least))
    }
}

impl Searcher {
    /// A search over the clauses of a ground problem up to a number, and the reflexive instances.
    pub fn new(alloc: Global, ground: &Ground, most: u32) -> Result<Searcher, AllocError> {
        let mut searcher = Searcher::over(alloc, Propagator::new(alloc, ground.sizes())?)?;
        searcher.fill(ground, most).and(Ok(searcher))
    }

    // A search with a propagator.
    fn over(alloc: Global, state: Propagator) -> Result<Searcher, AllocError> {
        let (plans, least, lessons) = parts_for(alloc, &state)?;
        Ok(Searcher {
            state,
            least,
            lessons,
            cases: Vec::new(alloc),
            shown: Vec::new(alloc),
            chain: None,
            plans,
            stride: 0,
        })
    }

    // Adds the clauses of a ground problem up to a number, and the reflexive instances.
    fn fill(&mut self, ground: &Ground, most: u32) -> Result<(), AllocError> {
        load(self.state.alloc, &mut self.state, ground, most)?;
        add_reflexive(&mut self.state, &self.plans)
    }

    /// A clause that is false at level 0 from the start, if there is one.
    pub fn false_clause(&self) -> Option<u32> {
        for number in 0..self.state.count() {
            let codes = self.state.clauses.codes(number);
            if codes.iter().all(|code| self.state.trail.is_false(*code)) {
                return Some(number);
            }
        }
        None
    }

    /// Adds the ground clause of a number at level 0, if it is there. Answers its number here, and whether it is false.
    pub fn add_ground(&mut self, ground: &Ground, number: u32) -> Result<Added, AllocError> {
        let Some(clause) = ground.clause(number) else {
            return Ok(Added {
                number,
                is_false: false,
            });
        };
        let mut codes = Vec::new(self.state.alloc);
        for lit in clause.lits() {
            codes.push(self.state.shape.code(*lit))?;
        }
        let codes = distinct(self.state.alloc, codes.as_slice())?;
        self.state.add(codes.as_slice(), Origin::Ground(number))
    }

    /// Adds what follows by units, congruence and instances. Answers a clause that is false then, if there is one.
    pub fn propagate(&mut self) -> Result<Option<u32>, AllocError> {
        for _ in 0..u32::MAX {
            if let Some(conflict) = self.state.propagate()? {
                return Ok(Some(conflict));
            }
            if let Some(conflict) = self.state.refute()? {
                return Ok(Some(conflict));
            }
            let before = self.state.trail.steps.len();
            let found = add_early(&mut self.state, &self.plans, &mut self.least)?;
            if found.is_some() {
                return Ok(found);
            }
            if self.state.trail.steps.len() == before {
                break;
            }
        }
        Ok(None)
    }

    /// Cuts the trail to a level, and finds the least terms that are left: all literals over these are carried.
    pub fn cut(&mut self, level: u32) -> Result<(), AllocError> {
        self.state.cut(level)?;
        let _lessened = self.least.find(&self.state);
        Ok(())
    }

    /// Learns from a false clause. Answers whether it is false at level 0.
    pub fn learn(&mut self, conflict: u32) -> Result<bool, AllocError> {
        self.state.conflicts = self.state.conflicts.saturating_add(1);
        let top = self.state.top(conflict);
        self.cut(top)?;
        let present = self.state.trail.level();
        if present == 0 {
            return Ok(true);
        }
        let level = self.lessons.resolve(&mut self.state, conflict)?;
        self.cut(cut_level(present, level, self.stride))?;
        self.stride = self.stride.saturating_mul(4).saturating_add(1);
        let number = self.state.clauses.learn(
            self.lessons.codes.as_slice(),
            self.lessons.hints.as_slice(),
        )?;
        let _added = self.state.attach(number)?;
        Ok(false)
    }

    // Decides the opposite of a wanted literal, the next content along the chain, or the opposite of a case, or else the
    // atom that goes first. Answers whether there was one.
    fn decide(&mut self, wanted: &[Code]) -> Result<bool, AllocError> {
        self.stride = 0;
        let mut next = self.first_open(wanted);
        if next.is_none() {
            next = self.next_hop().map(Code::negated);
        }
        if next.is_none() {
            next = self.first_open(self.cases.as_slice());
        }
        match next {
            Some(code) => {
                self.state.decide(code.negated())?;
                Ok(true)
            }
            None => self.decide_next(),
        }
    }

    // The first hop along the chain that has no truth, of the first cell whose content isn't known.
    fn next_hop(&self) -> Option<Code> {
        let chain = self.chain?;
        let version = chain.version;
        let end = self.least.of(chain.terms[2]);
        let mut cell = self.least.of(chain.terms[0]);
        for _ in 0..self.state.shape.terms {
            let to = self.state.yes.hops(version, cell) & self.least.mask;
            if cell == end {
                return None;
            }
            if to == 0 {
                return self.open_hop(version, cell);
            }
            cell = byte(to.trailing_zeros() as usize);
        }
        None
    }

    // The first hop of a cell that has no truth.
    fn open_hop(&self, version: u8, cell: u8) -> Option<Code> {
        for term in 0..self.state.shape.terms {
            let code = Code::new(self.state.shape.hop(version, cell, byte(term)), true);
            let is_least = self.least.of(byte(term)) == byte(term);
            if is_least
                && self.state.trail.is_open(code)
                && self.state.order.is_needed(code.atom())
            {
                return Some(code);
            }
        }
        None
    }

    /// Decides the opposite of a wanted literal, or else the first content of a cell that has none.
    /// Answers whether there was one.
    pub fn decide_for(
        &mut self,
        wanted: &[Code],
        cell: Option<CellAt>,
    ) -> Result<bool, AllocError> {
        self.stride = 0;
        if let Some(code) = self.first_open(wanted) {
            self.state.decide(code.negated())?;
            return Ok(true);
        }
        let Some(CellAt { version, term }) = cell else {
            return Ok(false);
        };
        let least = self.least.of(term);
        if self.state.yes.hops(version, least) != 0 {
            return Ok(false);
        }
        match self.open_hop(version, least) {
            Some(code) => {
                self.state.decide(code)?;
                Ok(true)
            }
            None => Ok(false),
        }
    }

    // The first of some literals that has no truth.
    fn first_open(&self, codes: &[Code]) -> Option<Code> {
        for code in codes {
            if self.state.trail.is_open(*code) {
                return Some(*code);
            }
        }
        None
    }

    /// Adds an atom as a case, if it stands in a clause.
    pub fn push_case(&mut self, atom: usize) -> Result<(), AllocError> {
        if self.state.order.is_needed(atom) {
            self.cases.push(Code::new(atom, true))?;
        }
        Ok(())
    }

    // Decides the atom that goes first. Answers whether there was one.
    fn decide_next(&mut self) -> Result<bool, AllocError> {
        for _ in 0..u32::MAX {
            let Some(atom) = self.state.order.take(&self.state.shape, &self.state.trail) else {
                break;
            };
            if self.state.trail.is_open(Code::new(atom, true)) {
                let positive = self.state.classes.holds(&self.state.shape, atom);
                self.state.decide(Code::new(atom, positive))?;
                return Ok(true);
            }
        }
        Ok(false)
    }

    /// Searches for what makes the clauses and the instances of the window true and the wanted literals false, with at
    /// most so many conflicts.
    pub fn run(&mut self, wanted: &[Code], most: u64) -> Result<End, AllocError> {
        let last = self.state.conflicts.saturating_add(most);
        for _ in 0..u64::MAX {
            if let Some(conflict) = self.propagate()? {
                if self.learn(conflict)? {
                    return Ok(End::Refuted(conflict));
                }
                if self.state.conflicts >= last {
                    break;
                }
                continue;
            }
            if wanted.iter().any(|code| self.state.trail.is_true(*code)) {
                self.show(wanted)?;
                return Ok(End::Shown);
            }
            if self.decide(wanted)? {
                continue;
            }
            let made = Made::new(&self.state, &self.least)?;
            let missing = add_false(&mut self.state, &self.plans, &self.least, &made)?;
            if let Missing::None = missing {
                return Ok(End::Found(made));
            }
            if let Missing::False(conflict) = missing {
                if self.learn(conflict)? {
                    return Ok(End::Refuted(conflict));
                }
            }
        }
        Ok(End::TooLong)
    }

    /// Learns what is wanted, and notes the clause that says it.
    pub fn show(&mut self, wanted: &[Code]) -> Result<(), AllocError> {
        if let Some(shown) = self.lessons.show(&mut self.state, wanted)? {
            self.shown.push(shown)?;
        }
        Ok(())
    }

    /// Goes back to level 0, and looks at some versions alone from now on: what speaks of others gets a truth at level 0
    /// alone.
    pub fn set_window(&mut self, low: u8, high: u8) -> Result<(), AllocError> {
        self.cut(0)?;
        self.state.early = 0;
        self.state.order.set_window(&self.state.shape, low, high)?;
        for atom in 0..self.state.shape.count {
            let is_inside = self.state.order.is_inside(&self.state.shape, atom);
            self.state.trail.set_idle(atom, !is_inside);
        }
        Ok(())
    }
}

// Adds the instances of rows with one variable, in all versions: nothing makes these unit.
fn add_reflexive(state: &mut Propagator, plans: &Plans) -> Result<(), AllocError> {
    for row in plans.rows.as_slice() {
        if row.arity == 1 {
            for version in 0..state.shape.versions {
                add_row_at(state, row, byte(version))?;
            }
        }
    }
    Ok(())
}

// Adds the instances of a row with one variable.
fn add_row_at(state: &mut Propagator, row: &Row, version: u8) -> Result<(), AllocError> {
    for term in 0..state.shape.terms {
        let tuple = [byte(term), 0, 0, 0];
        let (few, name) = (
            row.codes(&state.shape, version, &tuple),
            row.name(version, &tuple),
        );
        let _added = state.add(few.codes(), Origin::Instance(name))?;
    }
    Ok(())
}
