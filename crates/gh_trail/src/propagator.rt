//! Propagation: clauses, the trail with what is kept of it, and what follows by units.

use crate::classes::Classes;
use crate::clauses::{Clauses, Origin};
use crate::order::Order;
use crate::shape::{Code, Shape};
use crate::table::{at, put, small};
use crate::trail::{NO_CLAUSE, Trail};
use crate::watching::{NO_NODE, Node, Visit, Watches};
use crate::words::{Layout, Words};
use gh_base::sizes::Sizes;
use std::alloc::{AllocError, Global};

/// A clause that made a literal true above the level at which it had become unit.
#[derive(Clone, Copy, Debug)]
struct Late {
    clause: u32,
    level: u32,
}

/// A clause that was added, and whether it is false.
#[derive(Clone, Copy, Debug)]
pub struct Added {
    pub number: u32,
    pub is_false: bool,
}

/// Clauses, the trail, and what is kept of it.
#[derive(Debug, Drop)]
pub struct Propagator {
    pub alloc: Global,
    pub shape: Shape,
    pub layout: Layout,
    pub clauses: Clauses,
    pub trail: Trail,
    pub order: Order,
    pub classes: Classes,
    /// The words of true atoms, and of false ones.
    pub yes: Words,
    pub no: Words,
    watches: Watches,
    late: Vec<Late>,
    // Up to here the trail is propagated, and instances were looked for.
    head: usize,
    pub early: usize,
    pub conflicts: u64,
}

impl Propagator {
    /// No clause, and nothing on the trail.
    pub fn new(alloc: Global, sizes: Sizes) -> Result<Propagator, AllocError> {
        let shape = Shape::new(alloc, sizes)?;
        let layout = Layout::new(shape.terms, shape.versions);
        let atoms = shape.count;
        let mut yes = Words::new(alloc, layout)?;
        yes.take_reflexive();
        Ok(Propagator {
            alloc,
            clauses: Clauses::new(alloc),
            trail: Trail::new(alloc, atoms)?,
            order: Order::new(alloc, atoms, layout)?,
            classes: Classes::new(alloc, &shape)?,
            yes,
            no: Words::new(alloc, layout)?,
            layout,
            watches: Watches::new(alloc, atoms)?,
            late: Vec::new(alloc),
            head: 0,
            early: 0,
            conflicts: 0,
            shape,
        })
    }

    /// Makes a literal true.
    pub fn put(&mut self, code: Code, reason: u32) -> Result<(), AllocError> {
        self.trail.put(code, reason)?;
        self.note(code);
        Ok(())
    }

    // Takes a literal into the words, or out of them.
    fn note(&mut self, code: Code) {
        let parts = self.shape.parts(code.atom());
        if code.is_positive() {
            self.yes.turn(parts);
        } else {
            self.no.turn(parts);
        }
    }

    /// Opens a level with a literal.
    pub fn decide(&mut self, code: Code) -> Result<(), AllocError> {
        self.trail.open_level()?;
        self.put(code, NO_CLAUSE)
    }

    /// Cuts the trail to a level.
    pub fn cut(&mut self, level: u32) -> Result<(), AllocError> {
        if level >= self.trail.level() {
            return Ok(());
        }
        let start = self.trail.start(level.wrapping_add(1));
        for _ in start..self.trail.steps.len() {
            if let Some(code) = self.trail.pop() {
                self.note(code);
                self.order.offer(&self.shape, code.atom())?;
            }
        }
        self.trail.close_levels(level);
        self.head = self.head.min(start);
        self.early = self.early.min(start);
        self.classes.undo_to(&self.shape, start);
        self.look_at_late()
    }

    // Looks again at clauses that were unit below the level at which they were added.
    fn look_at_late(&mut self) -> Result<(), AllocError> {
        let present = self.trail.level();
        let mut kept: usize = 0;
        for index in 0..self.late.len() {
            let Some(found) = self.late.get(index) else {
                break;
            };
            let late = *found;
            if late.level > present {
                continue;
            }
            self.look(late.clause)?;
            if late.level < present {
                put(self.late.as_mut_slice(), kept, late);
                kept = kept.wrapping_add(1);
            }
        }
        self.late.truncate(kept);
        Ok(())
    }

    // Makes a watched literal of a clause true, if the others are false.
    fn look(&mut self, number: u32) -> Result<(), AllocError> {
        let start = self.clauses.start(number);
        let mut code = self.clauses.code_at(start);
        if self.clauses.len(number) > 1 {
            let mut other = self.clauses.code_at(start.wrapping_add(1));
            if self.trail.is_open(other) {
                (code, other) = (other, code);
            }
            if !self.trail.is_false(other) {
                return Ok(());
            }
        }
        if self.trail.is_open(code) {
            self.put(code, number)?;
        }
        Ok(())
    }

    // The best literal of a clause to watch, from a place on: the first that isn't false, or else one of the greatest
    // level.
    fn best(&self, number: u32, place: usize) -> usize {
        let (mut best, mut greatest) = (place, 0);
        let codes = self.clauses.codes(number);
        for index in place..codes.len() {
            let code = codes[index];
            if !self.trail.is_false(code) {
                return index;
            }
            let level = self.trail.level_of(code.atom());
            if level > greatest {
                (best, greatest) = (index, level);
            }
        }
        best
    }

    // Moves the best literal of a clause from a place on to that place.
    fn bring(&mut self, number: u32, place: usize) {
        let start = self.clauses.start(number);
        let best = self.best(number, place);
        if best != place {
            self.clauses
                .swap(start.wrapping_add(place), start.wrapping_add(best));
        }
    }

    /// Makes room for so many more clauses, with so many literals in all.
    pub fn reserve(&mut self, clauses: usize, literals: usize) -> Result<(), AllocError> {
        self.clauses.reserve(clauses, literals)?;
        self.watches.reserve(clauses)
    }

    /// Adds a clause whose literals all differ. Where it is unit, its literal becomes true.
    pub fn add(&mut self, codes: &[Code], origin: Origin) -> Result<Added, AllocError> {
        let number = self.clauses.push(codes, origin)?;
        self.attach(number)
    }

    /// Has a clause watched that was added last.
    pub fn attach(&mut self, number: u32) -> Result<Added, AllocError> {
        self.keep(number)?;
        self.watch_kept(number)
    }

    /// Has a clause watched that was added last, and whose atoms are known to stand in a clause.
    pub fn watch(&mut self, number: u32) -> Result<Added, AllocError> {
        self.keep(number)?;
        self.link(number)
    }

    /// Keeps a clause that was added last, and that isn't watched.
    pub fn keep(&mut self, number: u32) -> Result<(), AllocError> {
        self.watches.enter(self.clauses.len(number))
    }

    /// Has a clause watched that was kept. Where it is unit, its literal becomes true.
    pub fn watch_kept(&mut self, number: u32) -> Result<Added, AllocError> {
        for index in 0..self.clauses.len(number) {
            let code = at(self.clauses.codes(number), index, Code(0));
            self.order.enter(&self.shape, code.atom())?;
        }
        self.link(number)
    }

    // Puts a clause that isn't watched into the lists of its best literals.
    fn link(&mut self, number: u32) -> Result<Added, AllocError> {
        self.bring(number, 0);
        self.bring(number, 1);
        let (start, length) = (self.clauses.start(number), self.clauses.len(number));
        let (first, second) = (
            self.clauses.code_at(start),
            self.clauses.code_at(start.wrapping_add(1)),
        );
        if length > 1 {
            let node = number.wrapping_mul(2);
            self.watches.link_with(first, node, second);
            self.watches.link_with(second, node.wrapping_add(1), first);
        }
        let is_false = length == 0 || self.trail.is_false(first);
        if !is_false {
            self.note_late(number, first, second)?;
        }
        Ok(Added { number, is_false })
    }

    // Where a new clause is unit, makes its literal true, and keeps it for later cuts where it was unit below this
    // level.
    fn note_late(&mut self, number: u32, first: Code, second: Code) -> Result<(), AllocError> {
        let alone = self.clauses.len(number) == 1;
        if !alone && !self.trail.is_false(second) {
            return Ok(());
        }
        let level = if alone {
            0
        } else {
            self.trail.level_of(second.atom())
        };
        let is_settled = self.trail.is_true(first) && self.trail.level_of(first.atom()) <= level;
        if level < self.trail.level() && !is_settled {
            self.late.push(Late {
                clause: number,
                level,
            })?;
        }
        self.look(number)
    }

    /// The greatest level of a false clause's literals.
    pub fn top(&self, number: u32) -> u32 {
        let mut top = 0;
        for code in self.clauses.codes(number) {
            top = self.trail.level_of(code.atom()).max(top);
        }
        top
    }

    /// Adds what follows by units, up to a clause that is false.
    pub fn propagate(&mut self) -> Result<Option<u32>, AllocError> {
        for _ in 0..u32::MAX {
            if self.head >= self.trail.steps.len() {
                break;
            }
            let gone = self.trail.step(self.head).negated();
            if let Some(conflict) = self.visit_all(gone)? {
                return Ok(Some(conflict));
            }
            self.head = self.head.wrapping_add(1);
        }
        Ok(None)
    }

    // Visits the clauses that watch a literal which became false.
    fn visit_all(&mut self, gone: Code) -> Result<Option<u32>, AllocError> {
        let mut before = NO_NODE;
        let mut number = self.watches.first(gone);
        for _ in 0..u32::MAX {
            if number == NO_NODE {
                break;
            }
            let node = self.watches.node(number);
            if self.trail.is_true(node.other) {
                before = number;
                number = node.next();
                continue;
            }
            match self.visit(number, node)? {
                Visit::Kept => before = number,
                Visit::Moved(code) => {
                    self.watches.unlink(gone, before, node.next());
                    self.watches.link(Code(code), number);
                }
                Visit::Conflict => return Ok(Some(number / 2)),
            }
            number = node.next();
        }
        Ok(None)
    }

    // Visits the clause of a node, one of whose watched literals became false, and whose noted literal isn't true.
    fn visit(&mut self, number: u32, node: Node) -> Result<Visit, AllocError> {
        let (clause, mine) = (number / 2, (number % 2) as usize);
        let mut other = node.other;
        if !node.is_pair() {
            other = self
                .clauses
                .code_at(self.clauses.start(clause).wrapping_add(1 - mine));
            self.watches.set_other(number, other);
            if self.trail.is_true(other) {
                return Ok(Visit::Kept);
            }
            if let Some(found) = self.clauses.replace(clause, mine, &self.trail) {
                return Ok(Visit::Moved(found.0));
            }
        }
        if self.trail.is_false(other) {
            return Ok(Visit::Conflict);
        }
        if self.trail.is_open(other) {
            self.put(other, clause)?;
        }
        Ok(Visit::Kept)
    }

    /// Tells the classes what the trail has, and adds the clause of a clash as a lemma.
    pub fn refute(&mut self) -> Result<Option<u32>, AllocError> {
        for place in self.classes.mark()..self.trail.steps.len() {
            self.classes.tell(&self.shape, self.trail.step(place))?;
        }
        let Some(clash) = self.classes.clash() else {
            return Ok(None);
        };
        let mut codes = Vec::new(self.alloc);
        let one = self.shape.parts(clash.first.atom());
        codes.push(clash.first.negated())?;
        match clash.second {
            None => {
                let (a, b) = (one.terms[0], one.terms[1]);
                self.classes.explain_terms(&self.shape, a, b, &mut codes)?;
            }
            Some(second) => {
                codes.push(second.negated())?;
                let other = self.shape.parts(second.atom());
                self.classes.explain(&self.shape, one, other, &mut codes)?;
            }
        }
        Ok(Some(self.add_lemma(codes.as_slice())?.number))
    }

    /// Adds a clause of equality and congruence.
    pub fn add_lemma(&mut self, codes: &[Code]) -> Result<Added, AllocError> {
        let lemma = distinct(self.alloc, codes)?;
        self.add(lemma.as_slice(), Origin::Lemma)
    }

    /// How many clauses there are.
    pub fn count(&self) -> u32 {
        small(self.clauses.count())
    }

    /// The clauses that made literals true at level 0.
    pub fn reasons(&self) -> Result<Vec<u32>, AllocError> {
        let mut reasons = Vec::new(self.alloc);
        for place in 0..self.trail.start(1) {
            reasons.push(self.trail.reason(self.trail.step(place).atom()))?;
        }
        Ok(reasons)
    }
}

/// The literals without repeats.
pub fn distinct(alloc: Global, codes: &[Code]) -> Result<Vec<Code>, AllocError> {
    let mut found: Vec<Code> = Vec::new(alloc);
    for code in codes {
        if !has(found.as_slice(), *code) {
            found.push(*code)?;
        }
    }
    Ok(found)
}

/// Whether a literal is among some.
pub fn has(codes: &[Code], code: Code) -> bool {
    for other in codes {
        if other.0 == code.0 {
            return true;
        }
    }
    false
}
