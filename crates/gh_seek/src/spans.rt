//! Lemmas on a segment over several versions: what stands on it in the last of them stood on it in the first.
//!
//! A path of many calls leaves a list alone until a late one takes it. Which later results stand on the list, and in
//! which order, isn't known, so there are as many ways along it as there are orders of them. A lemma for each cell, and
//! for each set of terms that may come after it, takes no more than there are sets: the cell's content is a term of the
//! set, and after that one the cell itself may come no more, so a smaller set has the lemma that is needed then.

use crate::search::{CellAt, Searcher};
use crate::spoken::{Segment, Spoken};
use gh_trail::propagator::has;
use gh_trail::shape::Code;
use gh_trail::table::{bit, byte};
use std::alloc::AllocError;

// So many conflicts a lemma may take.
const MOST: u64 = 200;

// With fewer spans, or where fewer terms may stand on the first one, lemmas from one version to the next take less.
const LEAST_SPANS: usize = 5;

const LEAST_FREE: usize = 4;

// So many terms may stand on a segment at most.
const MOST_FREE: usize = 14;

/// What came of the lemmas on spans.
#[derive(Clone, Copy, Debug)]
pub(crate) enum Spanned {
    /// All were shown.
    Shown,
    /// One of them wasn't, or it isn't worth it.
    Open,
    /// This clause is false at level 0.
    Refuted(u32),
}

impl Spanned {
    // Whether all were shown.
    fn is_shown(self) -> bool {
        matches!(self, Spanned::Shown)
    }
}

/// A segment that is known in a version, and of which the clauses of a later one speak.
#[derive(Clone, Copy, Debug)]
struct Span {
    low: u8,
    high: u8,
    x: u8,
    z: u8,
}

// The last version before one in which a segment is known to be there, and spoken of.
fn known_before(searcher: &Searcher, spoken: &Spoken, segment: Segment, high: u8) -> Option<u8> {
    let Segment { x, z } = segment;
    for back in 0..high {
        let version = high - 1 - back;
        let whole = searcher.state.shape.btwn(version, x, z, z);
        let is_there = searcher.state.trail.is_true(Code::new(whole, true));
        if is_there && spoken.asks(version, x, z) {
            return Some(version);
        }
    }
    None
}

// The spans, in the order of the versions in which they end.
fn spans(searcher: &Searcher) -> Result<Vec<Span>, AllocError> {
    let spoken = Spoken::new(searcher)?;
    let segments = spoken.segments(searcher)?;
    let mut found = Vec::new(searcher.state.alloc);
    for high in 1..searcher.state.shape.versions {
        for segment in segments.as_slice() {
            let (high, Segment { x, z }) = (byte(high), *segment);
            if !spoken.asks(high, x, z) {
                continue;
            }
            if let Some(low) = known_before(searcher, &spoken, *segment, high) {
                found.push(Span { low, high, x, z })?;
            }
        }
    }
    Ok(found)
}

// That two terms are equal, or that they aren't.
fn equal(searcher: &Searcher, from: u8, y: u8, positive: bool) -> Code {
    Code::new(searcher.state.shape.equality(from, y), positive)
}

impl Span {
    // That a term stands between a cell and the segment's end in a version, or that it doesn't.
    fn stands(&self, searcher: &Searcher, version: u8, from: u8, y: u8, positive: bool) -> Code {
        Code::new(
            searcher.state.shape.btwn(version, from, y, self.z),
            positive,
        )
    }

    // The other terms of which it isn't known that they don't stand on the segment in the last version, or that they do
    // in the first.
    fn asked(&self, searcher: &Searcher) -> Result<Vec<u8>, AllocError> {
        let mut found = Vec::new(searcher.state.alloc);
        for term in 0..searcher.state.shape.terms {
            let y = byte(term);
            let before = self.stands(searcher, self.low, self.x, y, true);
            let after = self.stands(searcher, self.high, self.x, y, true);
            let is_known = searcher.state.trail.is_true(before)
                || searcher.state.trail.is_false(after);
            if y != self.x && y != self.z && !is_known {
                found.push(y)?;
            }
        }
        Ok(found)
    }

    // The literals of the lemma that a term stands on the segment in the first version if it does in the last one, said
    // of the part from a cell on, where of some terms only those of a set may come after the cell.
    fn lemma(
        &self,
        searcher: &Searcher,
        free: &[u8],
        from: u8,
        set: u32,
    ) -> Result<Vec<Code>, AllocError> {
        let mut wanted = Vec::new(searcher.state.alloc);
        if from != self.x {
            wanted.push(self.stands(searcher, self.low, self.x, from, false))?;
            for index in 0..free.len() {
                if set & bit(byte(index)) == 0 {
                    wanted.push(self.stands(searcher, self.low, from, free[index], true))?;
                }
            }
        }
        Ok(wanted)
    }
}

/// The lemmas on a span: the terms that may stand on it, and those of which it is asked.
#[derive(Debug, Drop)]
struct Lemmas {
    span: Span,
    free: Vec<u8>,
    asked: Vec<u8>,
}

// Tries a lemma, by the contents of a cell where one is given.
fn attempt(
    searcher: &mut Searcher,
    wanted: &[Code],
    cell: Option<CellAt>,
) -> Result<Spanned, AllocError> {
    let last = searcher.state.conflicts.saturating_add(MOST);
    for _ in 0..u32::MAX {
        if let Some(conflict) = searcher.propagate()? {
            if searcher.learn(conflict)? {
                return Ok(Spanned::Refuted(conflict));
            }
            if searcher.state.conflicts >= last {
                break;
            }
            continue;
        }
        if wanted
            .iter()
            .any(|code| searcher.state.trail.is_true(*code))
        {
            searcher.show(wanted)?;
            return Ok(Spanned::Shown);
        }
        if !searcher.decide_for(wanted, cell)? {
            break;
        }
    }
    Ok(Spanned::Open)
}

impl Lemmas {
    // Those on a span: terms that don't stand on the segment but at its end aren't free.
    fn new(searcher: &mut Searcher, span: Span) -> Result<Lemmas, AllocError> {
        let mut free = Vec::new(searcher.state.alloc);
        for term in 0..searcher.state.shape.terms {
            let y = byte(term);
            let stands = span.stands(searcher, span.low, span.x, y, false);
            if y == span.x || y == span.z || searcher.state.trail.is_true(stands) {
                continue;
            }
            searcher.cut(0)?;
            let wanted = [stands, equal(searcher, y, span.z, true)];
            if let Spanned::Open = attempt(searcher, wanted.as_slice(), None)? {
                free.push(y)?;
            }
        }
        searcher.cut(0)?;
        let asked = span.asked(searcher)?;
        Ok(Lemmas { span, free, asked })
    }

    // Tries what follows where a term equals another, or the end.
    fn try_equal(&self, searcher: &mut Searcher, from: u8, y: u8) -> Result<(), AllocError> {
        let span = self.span;
        searcher.cut(0)?;
        let ends = [
            equal(searcher, from, span.z, false),
            span.stands(searcher, span.high, from, y, false),
            span.stands(searcher, span.low, from, y, true),
        ];
        let _ended = attempt(searcher, ends.as_slice(), None)?;
        searcher.cut(0)?;
        let same = [
            equal(searcher, from, y, false),
            span.stands(searcher, span.low, from, y, true),
            span.stands(searcher, span.low, span.x, from, false),
        ];
        let count = if from == span.x { 2 } else { 3 };
        let _same = attempt(searcher, &same[..count], None)?;
        Ok(())
    }

    // Tries that a cell doesn't come after its content.
    fn try_apart(&self, searcher: &mut Searcher, from: u8, to: u8) -> Result<(), AllocError> {
        let span = self.span;
        let hop = searcher.state.shape.hop(span.low, from, to);
        searcher.cut(0)?;
        let apart = [
            Code::new(hop, false),
            equal(searcher, from, span.z, true),
            span.stands(searcher, span.low, span.x, from, false),
            span.stands(searcher, span.low, to, from, false),
        ];
        let _apart = attempt(searcher, apart.as_slice(), None)?;
        Ok(())
    }

    // Tries what the lemmas on a cell need.
    fn try_first(&self, searcher: &mut Searcher, from: u8) -> Result<(), AllocError> {
        for y in self.asked.as_slice() {
            if *y != from {
                self.try_equal(searcher, from, *y)?;
            }
        }
        for to in self.free.as_slice() {
            if *to != from {
                self.try_apart(searcher, from, *to)?;
            }
        }
        Ok(())
    }

    // Whether a term is in a set of those that are free.
    fn is_in(&self, set: u32, y: u8) -> bool {
        for index in 0..self.free.len() {
            if set & bit(byte(index)) != 0 && self.free[index] == y {
                return true;
            }
        }
        false
    }

    // Tries the lemmas on a cell and a set of terms that may come after it, for all terms that are asked.
    fn try_cell(&self, searcher: &mut Searcher, from: u8, set: u32) -> Result<Spanned, AllocError> {
        let span = self.span;
        let mut wanted = span.lemma(searcher, self.free.as_slice(), from, set)?;
        let count = wanted.len();
        let cell = CellAt {
            version: span.low,
            term: from,
        };
        searcher.cut(0)?;
        for y in self.asked.as_slice() {
            if self.is_in(set, *y) {
                continue;
            }
            wanted.truncate(count);
            let shared = shared_level(searcher, wanted.as_slice());
            searcher.cut(shared)?;
            wanted.push(span.stands(searcher, span.high, from, *y, false))?;
            wanted.push(span.stands(searcher, span.low, from, *y, true))?;
            let came = attempt(searcher, wanted.as_slice(), Some(cell))?;
            if !came.is_shown() {
                return Ok(came);
            }
        }
        Ok(Spanned::Shown)
    }

    // Tries the lemmas on all cells of a set, where the terms of that set may come after them.
    fn try_set(&self, searcher: &mut Searcher, set: u32) -> Result<Spanned, AllocError> {
        for index in 0..self.free.len() {
            if set & bit(byte(index)) != 0 {
                let came = self.try_cell(searcher, self.free[index], set)?;
                if !came.is_shown() {
                    return Ok(came);
                }
            }
        }
        Ok(Spanned::Shown)
    }

    // Tries what all of them need: what equals what, and that each cell is kept where no other term comes after it.
    // Where a cell isn't, that is soon found.
    fn try_alone(&self, searcher: &mut Searcher) -> Result<Spanned, AllocError> {
        self.try_first(searcher, self.span.x)?;
        for from in self.free.as_slice() {
            self.try_first(searcher, *from)?;
        }
        for index in 0..self.free.len() {
            let came = self.try_cell(searcher, self.free[index], bit(byte(index)))?;
            if !came.is_shown() {
                return Ok(came);
            }
        }
        Ok(Spanned::Shown)
    }

    // Tries all of them, from the smallest sets on.
    fn try_all(&self, searcher: &mut Searcher) -> Result<Spanned, AllocError> {
        if self.free.len() > MOST_FREE {
            return Ok(Spanned::Open);
        }
        let came = self.try_alone(searcher)?;
        if !came.is_shown() {
            return Ok(came);
        }
        for set in 1..bit(byte(self.free.len())) {
            let came = self.try_set(searcher, set)?;
            if !came.is_shown() {
                return Ok(came);
            }
        }
        self.try_cell(searcher, self.span.x, 0)
    }
}

// The last level up to which all decisions are opposites of some wanted literals.
fn shared_level(searcher: &Searcher, wanted: &[Code]) -> u32 {
    let trail = &searcher.state.trail;
    for below in 0..trail.level() {
        let decided = trail.step(trail.start(below.wrapping_add(1)));
        if !has(wanted, decided.negated()) {
            return below;
        }
    }
    trail.level()
}

// Tries the lemmas on a span. On the first one it isn't worth it where few terms may stand.
fn try_span(searcher: &mut Searcher, span: Span, is_first: bool) -> Result<Spanned, AllocError> {
    searcher.set_window(span.low, span.high)?;
    let lemmas = Lemmas::new(searcher, span)?;
    if is_first && lemmas.free.len() < LEAST_FREE {
        return Ok(Spanned::Open);
    }
    lemmas.try_all(searcher)
}

/// Tries the lemmas on all spans, in the order of the versions in which they end.
pub(crate) fn try_spans(searcher: &mut Searcher) -> Result<Spanned, AllocError> {
    let spans = spans(searcher)?;
    if spans.len() < LEAST_SPANS {
        return Ok(Spanned::Open);
    }
    for index in 0..spans.len() {
        let came = try_span(searcher, spans[index], index == 0)?;
        if !came.is_shown() {
            return Ok(came);
        }
    }
    searcher.cut(0)?;
    Ok(Spanned::Shown)
}
