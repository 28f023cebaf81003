//! The trail: literals that are true, in the order in which they became so, with their levels and reasons.

use crate::shape::Code;
use crate::table::{at, put, small};
use std::alloc::{AllocError, Global};

/// The number of no clause.
pub const NO_CLAUSE: u32 = u32::MAX;

/// The truth of a literal.
#[derive(Clone, Copy, Debug, PartialEq, Eq)]
pub enum Truth {
    Open,
    /// Open, but given a truth at level 0 alone.
    Idle,
    True,
    False,
}

/// The level at which an atom got its truth, and the clause by which it did.
#[derive(Clone, Copy, Debug)]
struct Fact {
    level: u32,
    reason: u32,
    place: u32,
}

const NO_FACT: Fact = Fact {
    level: 0,
    reason: NO_CLAUSE,
    place: 0,
};

/// The true literals in their order, and by atom what made them so.
#[derive(Debug, Drop)]
pub struct Trail {
    // By literal.
    truths: Vec<Truth>,
    // By atom.
    facts: Vec<Fact>,
    pub steps: Vec<Code>,
    // Where level 1, 2, .. begins.
    starts: Vec<u32>,
}

impl Trail {
    /// Nothing has a truth.
    pub fn new(alloc: Global, atoms: usize) -> Result<Trail, AllocError> {
        Ok(Trail {
            truths: vec![in alloc; Truth::Open; atoms.wrapping_mul(2)]?,
            facts: vec![in alloc; NO_FACT; atoms]?,
            steps: Vec::new(alloc),
            starts: Vec::new(alloc),
        })
    }

    /// The truth of a literal.
    pub fn truth(&self, code: Code) -> Truth {
        at(self.truths.as_slice(), code.place(), Truth::Open)
    }

    /// Whether a literal has no truth, and may get one at the present level.
    pub fn is_open(&self, code: Code) -> bool {
        match self.truth(code) {
            Truth::Open => true,
            Truth::Idle => self.starts.is_empty(),
            _ => false,
        }
    }

    /// Says whether an atom that has no truth gets one at level 0 alone.
    pub fn set_idle(&mut self, atom: usize, is_idle: bool) {
        let code = Code::new(atom, true);
        let present = self.truth(code);
        if present == Truth::Open || present == Truth::Idle {
            let truth = if is_idle { Truth::Idle } else { Truth::Open };
            put(self.truths.as_mut_slice(), code.place(), truth);
            put(self.truths.as_mut_slice(), code.negated().place(), truth);
        }
    }

    /// Whether a literal is true.
    pub fn is_true(&self, code: Code) -> bool {
        self.truth(code) == Truth::True
    }

    /// Whether a literal is false.
    pub fn is_false(&self, code: Code) -> bool {
        self.truth(code) == Truth::False
    }

    /// The present level.
    pub fn level(&self) -> u32 {
        small(self.starts.len())
    }

    /// The level at which an atom got its truth.
    pub fn level_of(&self, atom: usize) -> u32 {
        at(self.facts.as_slice(), atom, NO_FACT).level
    }

    /// The place of an atom's literal.
    pub fn place_of(&self, atom: usize) -> u32 {
        at(self.facts.as_slice(), atom, NO_FACT).place
    }

    /// The clause that made an atom's literal true, or `NO_CLAUSE`.
    pub fn reason(&self, atom: usize) -> u32 {
        at(self.facts.as_slice(), atom, NO_FACT).reason
    }

    /// Gives an atom's literal another reason.
    pub fn set_reason(&mut self, atom: usize, clause: u32) {
        if atom < self.facts.len() {
            self.facts[atom].reason = clause;
        }
    }

    /// The literal at a place.
    pub fn step(&self, place: usize) -> Code {
        at(self.steps.as_slice(), place, Code(u32::MAX))
    }

    /// Where a level begins; level 0 begins at 0, and a level that isn't there at the trail's end.
    pub fn start(&self, level: u32) -> usize {
        if level == 0 {
            return 0;
        }
        at(
            self.starts.as_slice(),
            level.wrapping_sub(1) as usize,
            small(self.steps.len()),
        ) as usize
    }

    /// Begins a level.
    pub fn open_level(&mut self) -> Result<(), AllocError> {
        self.starts.push(small(self.steps.len()))?;
        Ok(())
    }

    /// Makes a literal true.
    pub fn put(&mut self, code: Code, reason: u32) -> Result<(), AllocError> {
        let fact = Fact {
            level: small(self.starts.len()),
            reason,
            place: small(self.steps.len()),
        };
        put(self.truths.as_mut_slice(), code.place(), Truth::True);
        put(
            self.truths.as_mut_slice(),
            code.negated().place(),
            Truth::False,
        );
        put(self.facts.as_mut_slice(), code.atom(), fact);
        self.steps.push(code)?;
        Ok(())
    }

    /// Takes the last literal off.
    pub fn pop(&mut self) -> Option<Code> {
        let code = self.steps.pop()?;
        put(self.truths.as_mut_slice(), code.place(), Truth::Open);
        put(
            self.truths.as_mut_slice(),
            code.negated().place(),
            Truth::Open,
        );
        Some(code)
    }

    /// Forgets the levels above one.
    pub fn close_levels(&mut self, level: u32) {
        self.starts.truncate(level as usize);
    }
}
