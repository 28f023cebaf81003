//! The clauses of a search in one table, with where each comes from.

use crate::shape::Code;
use crate::table::{at, put, small};
use crate::trail::Trail;
use gh_inst::naming::InstanceName;
use std::alloc::{AllocError, Global};
use std::mem::swap;

/// Where a clause comes from.
#[derive(Clone, Copy, Debug)]
pub enum Origin {
    /// The ground clause of a number.
    Ground(u32),
    Instance(InstanceName),
    Lemma,
    /// Unit propagation along these hints, of the table of hints, shows it.
    Learnt { from: u32, to: u32 },
    /// The same of a clause that is carried over from earlier clauses, along hints with the numbers of those.
    Carried { from: u32, to: u32 },
}

//// The number of a clause that helps to show another, in three bytes. One past these stands for another clause, and what
/// it would show isn't shown.
#[derive(Clone, Copy, Debug)]
pub struct Hint([u8; 3]);

impl Hint {
    /// The hint of a clause.
    pub fn new(clause: u32) -> Hint {
        let [low, middle, high, _] = clause.to_le_bytes();
        Hint([low, middle, high])
    }

    /// The number of the clause.
    pub fn clause(self) -> u32 {
        let Hint([low, middle, high]) = self;
        u32::from_le_bytes([low, middle, high, 0])
    }
}

/// How much of each table is filled.
#[derive(Clone, Copy, Debug)]
struct Filled {
    clauses: usize,
    codes: usize,
    hints: usize,
}

/// Clauses, numbered from 0, and the hints of those that were learnt or carried over. These are most of what a long
/// search holds, so the table of the latter is lent, and not copied.
#[derive(Debug, Drop)]
pub struct Clauses {
    origins: Vec<Origin>,
    // By clause: where its literals end in the table. They begin where those of the clause before it end.
    ends: Vec<u32>,
    codes: Vec<Code>,
    hints: Vec<Hint>,
    // By number of an earlier clause: one more than its number here, or 0.
    carried: Vec<u32>,
    // So many hints are lent.
    lent: usize,
}

impl Clauses {
    /// No clause.
    pub fn new(alloc: Global) -> Clauses {
        Clauses {
            origins: Vec::new(alloc),
            ends: Vec::new(alloc),
            codes: Vec::new(alloc),
            hints: Vec::new(alloc),
            carried: Vec::new(alloc),
            lent: 0,
        }
    }

    /// Makes room for so many more clauses, with so many literals in all.
    pub fn reserve(&mut self, clauses: usize, literals: usize) -> Result<(), AllocError> {
        self.origins.reserve(clauses)?;
        self.ends.reserve(clauses)?;
        self.codes.reserve(literals)
    }

    /// How many clauses there are.
    pub fn count(&self) -> usize {
        self.ends.len()
    }

    /// Adds a clause last, and answers its number.
    pub fn push(&mut self, codes: &[Code], origin: Origin) -> Result<u32, AllocError> {
        let number = small(self.ends.len());
        self.codes.extend_from_slice(codes)?;
        self.origins.push(origin)?;
        self.ends.push(small(self.codes.len()))?;
        Ok(number)
    }

    /// Adds a clause that unit propagation along hints shows, numbers of clauses in their order.
    pub fn learn(&mut self, codes: &[Code], hints: &[u32]) -> Result<u32, AllocError> {
        let from = small(self.hints.len());
        for hint in hints {
            self.hints.push(Hint::new(*hint))?;
        }
        let to = small(self.hints.len());
        self.push(codes, Origin::Learnt { from, to })
    }

    /// Where a clause comes from, if it is there.
    pub fn origin(&self, number: u32) -> Option<Origin> {
        match self.origins.get(number as usize) {
            Some(origin) => Some(*origin),
            None => None,
        }
    }

    /// Whether a clause is a ground clause.
    pub fn is_ground(&self, number: u32) -> bool {
        matches!(self.origin(number), Some(Origin::Ground(_)))
    }

    /// The hints from one place to another.
    pub fn hints(&self, from: u32, to: u32) -> &[Hint] {
        let (from, to) = (from as usize, to as usize);
        if from <= to && to <= self.hints.len() {
            return &self.hints.as_slice()[from..to];
        }
        &[]
    }

    // The clause of a hint, or the one here that was carried over from it.
    fn clause(&self, hint: Hint, is_carried: bool) -> u32 {
        if is_carried {
            at(self.carried.as_slice(), hint.clause() as usize, 0).wrapping_sub(1)
        } else {
            hint.clause()
        }
    }

    /// Puts the clauses that show one in a list, in place of what is there. Only one that was learnt or carried over has
    /// some.
    pub fn find_hints(&self, number: u32, found: &mut Vec<u32>) -> Result<(), AllocError> {
        found.clear();
        let (from, to, is_carried) = match self.origin(number) {
            Some(Origin::Learnt { from, to }) => (from, to, false),
            Some(Origin::Carried { from, to }) => (from, to, true),
            _ => return Ok(()),
        };
        for hint in self.hints(from, to) {
            found.push(self.clause(*hint, is_carried))?;
        }
        Ok(())
    }

    /// Has earlier clauses lend their hints to those that were carried over from them, before any is learnt. By number
    /// of an earlier clause there is one more than its number here, or 0.
    pub fn take_hints(&mut self, earlier: &mut Clauses, carried: Vec<u32>) {
        self.lent = earlier.hints.len();
        swap(&mut self.hints, &mut earlier.hints);
        self.carried = carried;
    }

    /// Gives the hints back that earlier clauses lent. What was learnt since then has none after that.
    pub fn give_hints(&mut self, earlier: &mut Clauses) {
        self.hints.truncate(self.lent);
        swap(&mut self.hints, &mut earlier.hints);
    }

    /// How many literals a clause has.
    pub fn len(&self, number: u32) -> usize {
        self.end(number).saturating_sub(self.start(number))
    }

    /// Where a clause's literals begin in the table.
    pub fn start(&self, number: u32) -> usize {
        at(self.ends.as_slice(), (number as usize).wrapping_sub(1), 0) as usize
    }

    // Where a clause's literals end in the table, and 0 where it isn't there.
    fn end(&self, number: u32) -> usize {
        at(self.ends.as_slice(), number as usize, 0) as usize
    }

    /// The literals of a clause.
    pub fn codes(&self, number: u32) -> &[Code] {
        let (start, end) = (self.start(number), self.end(number));
        if start <= end && end <= self.codes.len() {
            return &self.codes.as_slice()[start..end];
        }
        &[]
    }

    /// Puts a literal of a clause that isn't false, past its first two, in the place of its first or second one. Answers
    /// that literal, if there is one.
    pub fn replace(&mut self, number: u32, mine: usize, trail: &Trail) -> Option<Code> {
        let codes = self.codes_mut(number);
        for index in 2..codes.len() {
            let code = at(codes, index, Code(u32::MAX));
            if !trail.is_false(code) {
                let gone = at(codes, mine, code);
                put(codes, index, gone);
                put(codes, mine, code);
                return Some(code);
            }
        }
        None
    }

    // The literals of a clause, which may change their places.
    fn codes_mut(&mut self, number: u32) -> &mut [Code] {
        let (start, end) = (self.start(number), self.end(number));
        if start <= end && end <= self.codes.len() {
            return &mut self.codes.as_mut_slice()[start..end];
        }
        &mut []
    }

    /// The literal at a place of the table.
    pub fn code_at(&self, place: usize) -> Code {
        at(self.codes.as_slice(), place, Code(u32::MAX))
    }

    /// Changes the places of two literals.
    pub fn swap(&mut self, one: usize, other: usize) {
        let (first, second) = (self.code_at(one), self.code_at(other));
        put(self.codes.as_mut_slice(), one, second);
        put(self.codes.as_mut_slice(), other, first);
    }

    /// Keeps the clauses that are marked by their numbers, in their order and in the room that they have, and answers
    /// their new numbers by the old ones. The hints of a marked clause are of marked ones.
    pub fn retain(&mut self, alloc: Global, marks: &[bool]) -> Result<Vec<u32>, AllocError> {
        let mut numbers = vec![in alloc; 0; self.count()]?;
        let mut filled = Filled {
            clauses: 0,
            codes: 0,
            hints: 0,
        };
        for number in 0..self.count() {
            if at(marks, number, false) {
                put(numbers.as_mut_slice(), number, small(filled.clauses));
                filled = self.move_to(filled, number, numbers.as_slice());
            }
        }
        self.origins.truncate(filled.clauses);
        self.ends.truncate(filled.clauses);
        self.codes.truncate(filled.codes);
        self.hints.truncate(filled.hints);
        self.carried.clear();
        Ok(numbers)
    }

    // Moves a clause to the end of what is filled, which isn't past it. Its hints get new numbers.
    fn move_to(&mut self, filled: Filled, number: usize, numbers: &[u32]) -> Filled {
        let origin = self.origin(small(number)).unwrap_or(Origin::Lemma);
        let codes = self.move_codes(filled.codes, small(number));
        let (origin, hints) = self.move_hints(filled.hints, origin, numbers);
        put(self.origins.as_mut_slice(), filled.clauses, origin);
        put(self.ends.as_mut_slice(), filled.clauses, small(codes));
        Filled {
            clauses: filled.clauses.wrapping_add(1),
            codes,
            hints,
        }
    }

    // Moves the literals of a clause to a place of the table. Answers where they end.
    fn move_codes(&mut self, to: usize, number: u32) -> usize {
        let (start, length) = (self.start(number), self.len(number));
        for index in 0..length {
            let code = self.code_at(start.wrapping_add(index));
            put(self.codes.as_mut_slice(), to.wrapping_add(index), code);
        }
        to.wrapping_add(length)
    }

    // Moves the hints of an origin, with new numbers, to a place of the table. Answers the origin then, and where they
    // end.
    fn move_hints(&mut self, start: usize, origin: Origin, numbers: &[u32]) -> (Origin, usize) {
        let (from, to, is_carried) = match origin {
            Origin::Learnt { from, to } => (from, to, false),
            Origin::Carried { from, to } => (from, to, true),
            _ => return (origin, start),
        };
        let mut end = start;
        for place in from..to {
            let hint = at(self.hints.as_slice(), place as usize, Hint::new(0));
            let clause = self.clause(hint, is_carried);
            let moved = Hint::new(at(numbers, clause as usize, 0));
            put(self.hints.as_mut_slice(), end, moved);
            end = end.wrapping_add(1);
        }
        let moved = Origin::Learnt {
            from: small(start),
            to: small(end),
        };
        (moved, end)
    }
}
