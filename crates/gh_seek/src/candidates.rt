//! Clauses that may be lemmas, in one table.

use crate::early::Least;
use crate::spoken::Segment;
use crate::structure::Made;
use gh_trail::shape::{Code, Shape};
use gh_trail::table::{at, bit, byte, put, small};
use std::alloc::{AllocError, Global};

/// Clauses that are to be tried, the last one first. What is said of a segment has its number.
#[derive(Debug, Drop)]
pub(crate) struct Candidates {
    codes: Vec<Code>,
    // Where each clause ends, and of which segment it speaks.
    ends: Vec<u32>,
    segments: Vec<Option<u8>>,
    // That of the clause that was taken off last.
    tried: Option<u8>,
    // A bit for each segment of which a structure made a clause false.
    changed: u32,
}

// The bit of a segment.
fn mark(segment: Option<u8>) -> u32 {
    match segment {
        Some(number) => bit(number),
        None => 0,
    }
}

impl Candidates {
    /// None.
    pub fn new(alloc: Global) -> Candidates {
        Candidates {
            codes: Vec::new(alloc),
            ends: Vec::new(alloc),
            segments: Vec::new(alloc),
            tried: None,
            changed: 0,
        }
    }

    // Where a clause begins.
    fn start(&self, number: usize) -> usize {
        if number == 0 {
            0
        } else {
            at(self.ends.as_slice(), number - 1, 0) as usize
        }
    }

    // Where a clause ends.
    fn end(&self, number: usize) -> usize {
        at(self.ends.as_slice(), number, 0) as usize
    }

    // The literals of a clause.
    fn codes(&self, number: usize) -> &[Code] {
        let (start, end) = (self.start(number), self.end(number));
        if start <= end && end <= self.codes.len() {
            return &self.codes.as_slice()[start..end];
        }
        &[]
    }

    /// Takes the last clause off, and gives its literals. Answers whether there was one.
    pub fn pop(&mut self, taken: &mut Vec<Code>) -> Result<bool, AllocError> {
        taken.clear();
        let count = self.ends.len();
        if count == 0 {
            return Ok(false);
        }
        taken.extend_from_slice(self.codes(count - 1))?;
        let start = self.start(count - 1);
        self.codes.truncate(start);
        self.ends.truncate(count - 1);
        self.tried = self.segment(count - 1);
        self.segments.truncate(count - 1);
        Ok(true)
    }

    /// Whether there are none.
    pub fn is_empty(&self) -> bool {
        self.ends.is_empty()
    }

    // Notes the segments of which a structure makes a clause false, that of the clause that was tried among them.
    fn note_changed(&mut self, shape: &Shape, least: &Least, made: &Made) {
        self.changed |= mark(self.tried);
        let mut start = 0;
        for number in 0..self.ends.len() {
            let end = self.end(number);
            let segment = mark(self.segment(number));
            if segment & !self.changed != 0 && !self.is_true(start, end, shape, least, made) {
                self.changed |= segment;
            }
            start = end;
        }
    }

    // The number of the segment of which a clause speaks.
    fn segment(&self, number: usize) -> Option<u8> {
        at(self.segments.as_slice(), number, None)
    }

    /// Keeps the clauses that a structure makes true, but for those of a segment of which it makes another false: that
    /// segment isn't as it was.
    pub fn keep_true(&mut self, shape: &Shape, least: &Least, made: &Made) {
        self.note_changed(shape, least, made);
        let (mut kept, mut length, mut start): (usize, usize, usize) = (0, 0, 0);
        for number in 0..self.ends.len() {
            let end = self.end(number);
            let segment = self.segment(number);
            let is_changed = mark(segment) & self.changed != 0;
            if !is_changed && self.is_true(start, end, shape, least, made) {
                length = self.shift(start, end, length);
                put(self.segments.as_mut_slice(), kept, segment);
                put(self.ends.as_mut_slice(), kept, small(length));
                kept = kept.wrapping_add(1);
            }
            start = end;
        }
        self.ends.truncate(kept);
        self.segments.truncate(kept);
        self.codes.truncate(length);
    }

    // Whether a structure makes one of the literals from a place to another true.
    fn is_true(&self, start: usize, end: usize, shape: &Shape, least: &Least, made: &Made) -> bool {
        for place in start..end {
            let code = at(self.codes.as_slice(), place, Code(0));
            if made.makes(shape, least, code) {
                return true;
            }
        }
        false
    }

    // Moves the literals from a place to another down to a third, and answers where they end.
    fn shift(&mut self, start: usize, end: usize, to: usize) -> usize {
        let mut next = to;
        for place in start..end {
            let code = at(self.codes.as_slice(), place, Code(0));
            put(self.codes.as_mut_slice(), next, code);
            next = next.wrapping_add(1);
        }
        next
    }

    // Adds a clause.
    fn push(&mut self, codes: &[Code], segment: Option<u8>) -> Result<(), AllocError> {
        self.codes.extend_from_slice(codes)?;
        self.segments.push(segment)?;
        self.ends.push(small(self.codes.len()))?;
        Ok(())
    }

    /// Adds the lemmas that terms stand on a segment of a number in a version as in the one before. Those added last are
    /// tried first: that it is there, then that terms stay on it, then that others don't come to it.
    pub fn push_segment(
        &mut self,
        shape: &Shape,
        version: u8,
        segment: Segment,
        number: u8,
    ) -> Result<(), AllocError> {
        self.push_same(shape, version, segment, number, false)?;
        self.push_same(shape, version, segment, number, true)?;
        let Segment { x, z } = segment;
        let (here, before) = (
            shape.btwn(version, x, z, z),
            shape.btwn(version.wrapping_sub(1), x, z, z),
        );
        let codes = [Code::new(here, true), Code::new(before, false)];
        self.push(codes.as_slice(), Some(number))
    }

    // Adds the lemmas of each term on a segment, that it stays, or that it doesn't come.
    fn push_same(
        &mut self,
        shape: &Shape,
        version: u8,
        segment: Segment,
        number: u8,
        stays: bool,
    ) -> Result<(), AllocError> {
        let Segment { x, z } = segment;
        for term in 0..shape.terms {
            let y = byte(term);
            if y != x && y != z {
                let here = shape.btwn(version, x, y, z);
                let before = shape.btwn(version.wrapping_sub(1), x, y, z);
                let codes = [Code::new(here, stays), Code::new(before, !stays)];
                self.push(codes.as_slice(), Some(number))?;
            }
        }
        Ok(())
    }

    /// Adds the lemmas that a segment has no cell in common with others of its version.
    pub fn push_apart(
        &mut self,
        shape: &Shape,
        version: u8,
        segment: Segment,
        others: &[Segment],
    ) -> Result<(), AllocError> {
        for other in others {
            self.push_pair(shape, version, segment, *other)?;
        }
        Ok(())
    }

    // Adds the lemmas that two segments of a version have no cell in common.
    fn push_pair(
        &mut self,
        shape: &Shape,
        version: u8,
        segment: Segment,
        other: Segment,
    ) -> Result<(), AllocError> {
        for term in 0..shape.terms {
            let y = byte(term);
            if y != segment.z && y != other.z {
                let codes = [
                    Code::new(shape.btwn(version, segment.x, y, segment.z), false),
                    Code::new(shape.btwn(version, other.x, y, other.z), false),
                    Code::new(shape.equality(y, segment.z), true),
                    Code::new(shape.equality(y, other.z), true),
                ];
                let count = if segment.z == other.z { 3 } else { 4 };
                self.push(&codes[..count], None)?;
            }
        }
        Ok(())
    }

    /// Adds the lemma that a term that is allocated in a version stands on one of its segments.
    pub fn push_owned(
        &mut self,
        shape: &Shape,
        version: u8,
        y: u8,
        segments: &[Segment],
    ) -> Result<(), AllocError> {
        self.codes.push(Code::new(shape.alloc(version, y), false))?;
        for segment in segments {
            let within = shape.btwn(version, segment.x, y, segment.z);
            self.codes.push(Code::new(within, true))?;
        }
        self.ends.push(small(self.codes.len()))?;
        self.segments.push(None)?;
        Ok(())
    }
}
