//! Which atom is decided next: of those in a window of versions the one that stood in most and latest conflicts.

use crate::shape::{Code, Kind, Shape};
use crate::table::{at, put, small};
use crate::trail::Trail;
use crate::words::{Layout, Words};
use std::alloc::{AllocError, Global};

// What a conflict adds to a score at first, and past which sum all scores are made smaller, by how many bits.
const FIRST_STEP: u64 = 1024;

const GREATEST_STEP: u64 = 288230376151711744;

const SMALLER_BY: u32 = 24;

// No heap is deeper.
const DEPTH: u32 = 40;

/// The atoms that stand in clauses, by their scores. Those of the window that stood in a clause from the start are a
/// row; a place goes along those of them that have no score. All others of the window that may have no truth are in a
/// heap.
#[derive(Debug, Drop)]
pub struct Order {
    // By atom: its score, one more than its spot in the heap, whether it stands in a clause, and one more than its
    // place in the row.
    scores: Vec<u64>,
    spots: Vec<u32>,
    needed: Vec<bool>,
    places: Vec<u32>,
    // The words of the atoms that stand in a clause.
    words: Words,
    // The atoms that stood in a clause from the start.
    noted: Vec<u32>,
    // Before the place `next` of the row no atom is open that has no score and isn't in the heap.
    row: Vec<u32>,
    next: usize,
    heap: Vec<u32>,
    entered: Vec<u32>,
    step: u64,
    low: u8,
    high: u8,
}

impl Order {
    /// No atom stands in a clause, and all versions are in the window.
    pub fn new(alloc: Global, atoms: usize, layout: Layout) -> Result<Order, AllocError> {
        Ok(Order {
            scores: vec![in alloc; 0; atoms]?,
            spots: vec![in alloc; 0; atoms]?,
            needed: vec![in alloc; false; atoms]?,
            places: vec![in alloc; 0; atoms]?,
            words: Words::new(alloc, layout)?,
            noted: Vec::new(alloc),
            row: Vec::new(alloc),
            next: 0,
            heap: Vec::new(alloc),
            entered: Vec::new(alloc),
            step: FIRST_STEP,
            low: 0,
            high: u8::MAX,
        })
    }

    /// The first and the last version of the window.
    pub fn window(&self) -> (u8, u8) {
        (self.low, self.high)
    }

    /// Whether an atom may be decided: equalities, and what speaks of the window's versions.
    pub fn is_inside(&self, shape: &Shape, atom: usize) -> bool {
        let parts = shape.parts(atom);
        parts.kind == Kind::Eq || self.low <= parts.version && parts.version <= self.high
    }

    /// Sets the window. All atoms in it are offered anew.
    pub fn set_window(&mut self, shape: &Shape, low: u8, high: u8) -> Result<(), AllocError> {
        self.low = low;
        self.high = high;
        for index in 0..self.heap.len() {
            let atom = at(self.heap.as_slice(), index, 0);
            put(self.spots.as_mut_slice(), atom as usize, 0);
        }
        self.heap.clear();
        self.set_row(shape)?;
        for index in 0..self.noted.len() {
            let atom = at(self.noted.as_slice(), index, 0);
            self.offer(shape, atom as usize)?;
        }
        for index in 0..self.entered.len() {
            let atom = at(self.entered.as_slice(), index, 0);
            self.offer(shape, atom as usize)?;
        }
        Ok(())
    }

    // Makes the row of the atoms that stood in clauses from the start and are in the window.
    fn set_row(&mut self, shape: &Shape) -> Result<(), AllocError> {
        self.row.clear();
        self.next = 0;
        for index in 0..self.noted.len() {
            let number = at(self.noted.as_slice(), index, 0);
            let mut place = 0;
            if self.is_inside(shape, number as usize) {
                self.row.push(number)?;
                place = small(self.row.len());
            }
            put(self.places.as_mut_slice(), number as usize, place);
        }
        Ok(())
    }

    /// Notes that an atom stands in a clause from the start.
    pub fn note(&mut self, atom: usize) {
        put(self.needed.as_mut_slice(), atom, true);
    }

    /// Gathers the atoms that stand in clauses from the start.
    pub fn fill(&mut self, shape: &Shape) -> Result<(), AllocError> {
        for rank in 0..shape.count {
            let atom = shape.rank(rank);
            if at(self.needed.as_slice(), atom, false) {
                self.words.turn(shape.parts(atom));
                self.noted.push(small(atom))?;
            }
        }
        self.set_row(shape)
    }

    /// Notes that an atom stands in a clause.
    pub fn enter(&mut self, shape: &Shape, atom: usize) -> Result<(), AllocError> {
        if at(self.needed.as_slice(), atom, true) {
            return Ok(());
        }
        put(self.needed.as_mut_slice(), atom, true);
        self.words.turn(shape.parts(atom));
        self.entered.push(small(atom))?;
        self.offer(shape, atom)
    }

    /// Whether an atom stands in a clause.
    pub fn is_needed(&self, atom: usize) -> bool {
        at(self.needed.as_slice(), atom, true)
    }

    /// The word of the atoms that stand in a clause, at a place.
    pub fn needed_word(&self, place: usize) -> u32 {
        self.words.word(place)
    }

    // The score of an atom.
    fn score(&self, atom: usize) -> u64 {
        at(self.scores.as_slice(), atom, 0)
    }

    /// Notes that an atom may have no truth.
    pub fn offer(&mut self, shape: &Shape, atom: usize) -> Result<(), AllocError> {
        let place = at(self.places.as_slice(), atom, 0) as usize;
        if place > 0 && self.score(atom) == 0 {
            self.next = self.next.min(place.wrapping_sub(1));
            return Ok(());
        }
        let waits = at(self.spots.as_slice(), atom, 1) > 0;
        if waits || !at(self.needed.as_slice(), atom, false) || !self.is_inside(shape, atom) {
            return Ok(());
        }
        let spot = self.heap.len();
        self.heap.push(small(atom))?;
        self.put(spot, small(atom));
        self.rise(shape, spot);
        Ok(())
    }

    // The next atom of the row that has no truth and no score.
    fn next_of_row(&mut self, trail: &Trail) -> Option<u32> {
        for _ in 0..u32::MAX {
            let number = *self.row.get(self.next)?;
            let atom = number as usize;
            let is_open = trail.is_open(Code::new(atom, true));
            if is_open && self.score(atom) == 0 {
                return Some(number);
            }
            self.next = self.next.wrapping_add(1);
        }
        None
    }

    /// Takes the atom that goes first.
    pub fn take(&mut self, shape: &Shape, trail: &Trail) -> Option<usize> {
        let first = at(self.heap.as_slice(), 0, u32::MAX);
        if let Some(atom) = self.next_of_row(trail) {
            if self.heap.is_empty() || self.is_before(shape, atom, first) {
                self.next = self.next.wrapping_add(1);
                return Some(atom as usize);
            }
        }
        let last = self.heap.pop()?;
        put(self.spots.as_mut_slice(), first as usize, 0);
        if !self.heap.is_empty() {
            self.put(0, last);
            self.sink(shape);
        }
        Some(first as usize)
    }

    /// Notes that an atom stood in a conflict.
    pub fn bump(&mut self, shape: &Shape, atom: usize) {
        let score = self.score(atom).saturating_add(self.step);
        put(self.scores.as_mut_slice(), atom, score);
        let spot = at(self.spots.as_slice(), atom, 0);
        if spot > 0 {
            self.rise(shape, spot.wrapping_sub(1) as usize);
        }
    }

    /// Ends a conflict: later ones add more.
    pub fn end_conflict(&mut self) {
        self.step = self.step.saturating_add(self.step / 19);
        if self.step > GREATEST_STEP {
            self.step >>= SMALLER_BY;
            for score in self.scores.iter_mut() {
                *score >>= SMALLER_BY;
            }
        }
    }

    // Whether an atom goes before another: by its score, and among equals by the order of atoms.
    fn is_before(&self, shape: &Shape, atom: u32, other: u32) -> bool {
        let (one, two) = (self.score(atom as usize), self.score(other as usize));
        one > two || one == two && shape.rank(atom as usize) < shape.rank(other as usize)
    }

    // Puts an atom at a spot.
    fn put(&mut self, spot: usize, atom: u32) {
        put(self.heap.as_mut_slice(), spot, atom);
        put(
            self.spots.as_mut_slice(),
            atom as usize,
            small(spot).wrapping_add(1),
        );
    }

    // Moves the atom at a spot up, past those that it goes before.
    fn rise(&mut self, shape: &Shape, from: usize) {
        let atom = at(self.heap.as_slice(), from, 0);
        let mut spot = from;
        for _ in 0..DEPTH {
            let above = spot.saturating_sub(1) / 2;
            let other = at(self.heap.as_slice(), above, 0);
            if spot == 0 || !self.is_before(shape, atom, other) {
                break;
            }
            self.put(spot, other);
            spot = above;
        }
        self.put(spot, atom);
    }

    // Moves the first atom down, below those that go before it.
    fn sink(&mut self, shape: &Shape) {
        let atom = at(self.heap.as_slice(), 0, 0);
        let mut spot = 0;
        for _ in 0..DEPTH {
            let below = self.first_below(shape, spot);
            let other = at(self.heap.as_slice(), below, atom);
            if !self.is_before(shape, other, atom) {
                break;
            }
            self.put(spot, other);
            spot = below;
        }
        self.put(spot, atom);
    }

    // The spot below one whose atom goes before that at the other spot below.
    fn first_below(&self, shape: &Shape, spot: usize) -> usize {
        let left = spot.wrapping_mul(2).wrapping_add(1);
        let right = left.wrapping_add(1);
        if right >= self.heap.len() {
            return left;
        }
        let (one, other) = (
            at(self.heap.as_slice(), left, 0),
            at(self.heap.as_slice(), right, 0),
        );
        if self.is_before(shape, other, one) {
            right
        } else {
            left
        }
    }
}
