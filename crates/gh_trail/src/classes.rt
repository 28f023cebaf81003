//! Equality and congruence over the trail: classes of terms, and the literals that stand against each other.

use crate::shape::{Code, Kind, Parts, Shape};
use crate::table::{at, bit, byte, cell, put, small};
use std::alloc::{AllocError, Global};

// No chain of merges takes more steps to explain.
const EXPLAINED: u32 = 100000;

/// How many merges and signs there were when a literal was told.
#[derive(Clone, Copy, Debug)]
struct Stage {
    links: u32,
    entries: u32,
}

/// Two literals that can't both be true, by the place of the later one; or a negated equality of one class.
#[derive(Clone, Copy, Debug)]
pub struct Clash {
    at: u32,
    pub first: Code,
    pub second: Option<Code>,
}

// A part of an explanation: two terms that were of one class after so many merges.
#[derive(Clone, Copy, Debug)]
struct Part {
    depth: usize,
    a: u8,
    b: u8,
}

/// The classes of terms by the literals that were told, and these by their atoms over classes.
#[derive(Debug, Drop)]
pub struct Classes {
    alloc: Global,
    terms: usize,
    // By term: the name of its class.
    leaders: Vec<u8>,
    // The leaders before each merge, and the two terms that it joined.
    saved: Vec<u8>,
    links: Vec<(u8, u8)>,
    told: Vec<Code>,
    stages: Vec<Stage>,
    // By an atom over leaders: one more than the place of the literal that gave its truth.
    signs: Vec<u32>,
    entries: Vec<u32>,
    // By term: the places of told literals that have it.
    mentions: Vec<Vec<u32>>,
    clash: Option<Clash>,
    // How often classes were joined, or parted again.
    changes: u64,
}

impl Classes {
    /// Each term alone, and nothing told.
    pub fn new(alloc: Global, shape: &Shape) -> Result<Classes, AllocError> {
        let mut classes = Classes {
            alloc,
            terms: shape.terms,
            leaders: Vec::new(alloc),
            saved: Vec::new(alloc),
            links: Vec::new(alloc),
            told: Vec::new(alloc),
            stages: Vec::new(alloc),
            signs: vec![in alloc; 0; shape.count]?,
            entries: Vec::new(alloc),
            mentions: Vec::new(alloc),
            clash: None,
            changes: 0,
        };
        for term in 0..shape.terms {
            classes.leaders.push(byte(term))?;
            classes.mentions.push(Vec::new(alloc))?;
        }
        Ok(classes)
    }

    /// How many literals were told.
    pub fn mark(&self) -> usize {
        self.told.len()
    }

    /// How often classes were joined, or parted again.
    pub fn changes(&self) -> u64 {
        self.changes
    }

    /// The literals that stand against each other, if there are some.
    pub fn clash(&self) -> Option<Clash> {
        self.clash
    }

    /// The name of a term's class.
    pub fn leader(&self, term: u8) -> u8 {
        at(self.leaders.as_slice(), term as usize, term)
    }

    /// The places of told literals that have a term.
    pub fn mentions(&self, term: u8) -> &[u32] {
        match self.mentions.get(term as usize) {
            Some(places) => places.as_slice(),
            None => &[],
        }
    }

    // The number of an atom over the leaders of its terms.
    fn key(&self, shape: &Shape, parts: Parts) -> usize {
        let [x, y, z] = parts.terms;
        let mut over = parts;
        over.terms = [self.leader(x), self.leader(y), self.leader(z)];
        shape.number(over)
    }

    /// Whether congruence makes an atom true.
    pub fn holds(&self, shape: &Shape, atom: usize) -> bool {
        let parts = shape.parts(atom);
        match parts.kind {
            Kind::Eq => return self.leader(parts.terms[0]) == self.leader(parts.terms[1]),
            Kind::Def => return false,
            _ => {}
        }
        let next = at(self.signs.as_slice(), self.key(shape, parts), 0);
        next > 0 && at(self.told.as_slice(), next.wrapping_sub(1) as usize, Code(0)).is_positive()
    }

    // Files a told literal, not of a definition, under its atom over leaders. Answers a clash with an earlier one.
    fn file(&mut self, shape: &Shape, place: u32) -> Result<Option<Clash>, AllocError> {
        let code = at(self.told.as_slice(), place as usize, Code(0));
        let parts = shape.parts(code.atom());
        if parts.kind == Kind::Eq {
            let one_class = self.leader(parts.terms[0]) == self.leader(parts.terms[1]);
            let clash = Clash {
                at: 0,
                first: code,
                second: None,
            };
            return Ok(if one_class && !code.is_positive() {
                Some(clash)
            } else {
                None
            });
        }
        let key = self.key(shape, parts);
        let next = at(self.signs.as_slice(), key, 0);
        if next == 0 {
            put(self.signs.as_mut_slice(), key, place.wrapping_add(1));
            self.entries.push(small(key))?;
            return Ok(None);
        }
        let other = at(self.told.as_slice(), next.wrapping_sub(1) as usize, code);
        if other.is_positive() == code.is_positive() {
            return Ok(None);
        }
        Ok(Some(Clash {
            at: 0,
            first: other,
            second: Some(code),
        }))
    }

    // How many literals mention the terms of a class.
    fn uses(&self, leader: u8) -> usize {
        let mut sum: usize = 0;
        for term in 0..self.terms {
            if self.leader(byte(term)) == leader {
                sum = sum.wrapping_add(self.mentions(byte(term)).len());
            }
        }
        sum
    }

    // Joins the classes of two terms: the one that fewer literals mention takes the other's name.
    fn merge(&mut self, shape: &Shape, a: u8, b: u8) -> Result<Option<Clash>, AllocError> {
        let (mut from, mut to) = (self.leader(a), self.leader(b));
        if self.uses(from) > self.uses(to) {
            (from, to) = (to, from);
        }
        self.saved.extend_from_slice(self.leaders.as_slice())?;
        self.links.push((a, b))?;
        self.changes = self.changes.wrapping_add(1);
        let mut moved: u32 = 0;
        for term in 0..self.terms {
            if at(self.leaders.as_slice(), term, to) == from {
                put(self.leaders.as_mut_slice(), term, to);
                moved |= bit(byte(term));
            }
        }
        for term in 0..self.terms {
            if moved & bit(byte(term)) != 0 {
                if let Some(clash) = self.file_anew(shape, term)? {
                    return Ok(Some(clash));
                }
            }
        }
        Ok(None)
    }

    // Files the literals that mention a term anew, the latest first.
    fn file_anew(&mut self, shape: &Shape, term: usize) -> Result<Option<Clash>, AllocError> {
        let count = self.mentions(byte(term)).len();
        for index in 0..count {
            let place = at(self.mentions(byte(term)), count - 1 - index, 0);
            if let Some(clash) = self.file(shape, place)? {
                return Ok(Some(clash));
            }
        }
        Ok(None)
    }

    /// Tells the next literal of the trail.
    pub fn tell(&mut self, shape: &Shape, code: Code) -> Result<(), AllocError> {
        let place = small(self.told.len());
        let parts = shape.parts(code.atom());
        self.stages.push(Stage {
            links: small(self.links.len()),
            entries: small(self.entries.len()),
        })?;
        self.told.push(code)?;
        for index in 0..parts.kind.arity() {
            let term = parts.term(index) as usize;
            if term < self.mentions.len() {
                self.mentions[term].push(place)?;
            }
        }
        let (a, b) = (parts.terms[0], parts.terms[1]);
        if parts.kind == Kind::Def || self.clash.is_some() {
            return Ok(());
        }
        let found = if parts.kind != Kind::Eq || !code.is_positive() {
            self.file(shape, place)?
        } else if self.leader(a) != self.leader(b) {
            self.merge(shape, a, b)?
        } else {
            None
        };
        if let Some(clash) = found {
            self.clash = Some(Clash { at: place, ..clash });
        }
        Ok(())
    }

    /// Forgets the literals told after a mark.
    pub fn undo_to(&mut self, shape: &Shape, mark: usize) {
        if mark >= self.told.len() {
            return;
        }
        if let Some(stage) = self.stages.get(mark) {
            let stage = *stage;
            self.part_from(stage.links as usize);
            self.unfile_from(stage.entries as usize);
        }
        for _ in mark..self.told.len() {
            self.forget_last(shape);
        }
        self.stages.truncate(mark);
        if let Some(clash) = self.clash {
            if clash.at as usize >= mark {
                self.clash = None;
            }
        }
    }

    // Undoes the merges from one on.
    fn part_from(&mut self, links: usize) {
        if links >= self.links.len() {
            return;
        }
        self.changes = self.changes.wrapping_add(1);
        let start = cell(links, self.terms, 0);
        for term in 0..self.terms {
            let leader = at(self.saved.as_slice(), start.wrapping_add(term), 0);
            put(self.leaders.as_mut_slice(), term, leader);
        }
        self.saved.truncate(start);
        self.links.truncate(links);
    }

    // Forgets the signs from an entry on.
    fn unfile_from(&mut self, entries: usize) {
        for index in entries..self.entries.len() {
            let key = at(self.entries.as_slice(), index, u32::MAX);
            put(self.signs.as_mut_slice(), key as usize, 0);
        }
        self.entries.truncate(entries);
    }

    // Forgets the literal told last.
    fn forget_last(&mut self, shape: &Shape) {
        let Some(code) = self.told.pop() else {
            return;
        };
        let parts = shape.parts(code.atom());
        for index in 0..parts.kind.arity() {
            let term = parts.term(index) as usize;
            if term < self.mentions.len() {
                let _place = self.mentions[term].pop();
            }
        }
    }

    /// Adds the negated equalities by which two atoms of one kind are congruent.
    pub fn explain(
        &self,
        shape: &Shape,
        one: Parts,
        other: Parts,
        codes: &mut Vec<Code>,
    ) -> Result<(), AllocError> {
        for index in 0..one.kind.arity() {
            self.explain_terms(shape, one.term(index), other.term(index), codes)?;
        }
        Ok(())
    }

    /// Adds the negated equalities by which two terms are of one class.
    pub fn explain_terms(
        &self,
        shape: &Shape,
        a: u8,
        b: u8,
        codes: &mut Vec<Code>,
    ) -> Result<(), AllocError> {
        let mut parts = Vec::new(self.alloc);
        parts.push(Part {
            depth: self.links.len(),
            a,
            b,
        })?;
        for _ in 0..EXPLAINED {
            let Some(part) = parts.pop() else {
                break;
            };
            if part.a != part.b && part.depth > 0 {
                self.explain_part(shape, part, &mut parts, codes)?;
            }
        }
        Ok(())
    }

    // Explains a part by the last of its merges, or by those before it.
    fn explain_part(
        &self,
        shape: &Shape,
        part: Part,
        parts: &mut Vec<Part>,
        codes: &mut Vec<Code>,
    ) -> Result<(), AllocError> {
        let depth = part.depth.wrapping_sub(1);
        let before = |term: u8| at(
            self.saved.as_slice(),
            cell(depth, self.terms, term as usize),
            0,
        );
        let (a, b) = (part.a, part.b);
        if before(a) == before(b) {
            parts.push(Part { depth, a, b })?;
            return Ok(());
        }
        let (from, to) = at(self.links.as_slice(), depth, (0, 0));
        codes.push(Code::new(shape.equality(from, to), false))?;
        let (near, far) = if before(a) == before(from) {
            (from, to)
        } else {
            (to, from)
        };
        parts.push(Part { depth, a, b: near })?;
        parts.push(Part { depth, a: far, b })?;
        Ok(())
    }
}
