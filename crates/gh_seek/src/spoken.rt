//! Which segments ground clauses speak of.

use crate::search::Searcher;
use gh_trail::clauses::Origin;
use gh_trail::shape::Kind;
use gh_trail::table::{at, bit, byte, cell, put};
use std::alloc::AllocError;

/// The two ends of a segment.
#[derive(Clone, Copy, Debug)]
pub(crate) struct Segment {
    pub x: u8,
    pub z: u8,
}

/// By version and ends: which terms ground clauses have between.
#[derive(Debug, Drop)]
pub(crate) struct Spoken {
    terms: usize,
    versions: usize,
    words: Vec<u32>,
}

// Whether a word has several bits.
fn has_several(word: u32) -> bool {
    word & word.wrapping_sub(1) != 0
}

impl Spoken {
    /// What the ground clauses of a search speak of.
    pub fn new(searcher: &Searcher) -> Result<Spoken, AllocError> {
        let state = &searcher.state;
        let (terms, versions) = (state.shape.terms, state.shape.versions);
        let count = cell(versions, cell(terms, terms, 0), 0);
        let mut spoken = Spoken {
            terms,
            versions,
            words: vec![in state.alloc; 0; count]?,
        };
        for number in 0..state.count() {
            if let Some(Origin::Ground(_)) = state.clauses.origin(number) {
                spoken.note(searcher, number);
            }
        }
        Ok(spoken)
    }

    // The place of a segment of a version.
    fn place(&self, version: u8, x: u8, z: u8) -> usize {
        let row = cell(version as usize, self.terms, x as usize);
        cell(row, self.terms, z as usize)
    }

    // Notes which terms a clause has between two others.
    fn note(&mut self, searcher: &Searcher, number: u32) {
        for code in searcher.state.clauses.codes(number) {
            let parts = searcher.state.shape.parts(code.atom());
            let [x, y, z] = parts.terms;
            if parts.kind == Kind::Btwn && x != z {
                let place = self.place(parts.version, x, z);
                let word = at(self.words.as_slice(), place, 0);
                put(self.words.as_mut_slice(), place, word | bit(y));
            }
        }
    }

    // The terms that clauses have between two ends in a version.
    fn word(&self, version: u8, x: u8, z: u8) -> u32 {
        at(self.words.as_slice(), self.place(version, x, z), 0)
    }

    /// Whether several terms are between two ends in a version.
    pub fn asks(&self, version: u8, x: u8, z: u8) -> bool {
        has_several(self.word(version, x, z))
    }

    // Whether several terms are between two ends, in one version or in several.
    fn asks_once(&self, x: u8, z: u8) -> bool {
        let mut word = 0;
        for version in 0..self.versions {
            word |= self.word(byte(version), x, z);
        }
        has_several(word)
    }

    /// The segments with several terms between their ends.
    pub fn segments(&self, searcher: &Searcher) -> Result<Vec<Segment>, AllocError> {
        let mut found = Vec::new(searcher.state.alloc);
        for x in 0..self.terms {
            for z in 0..self.terms {
                let (x, z) = (byte(x), byte(z));
                if self.asks_once(x, z) {
                    found.push(Segment { x, z })?;
                }
            }
        }
        Ok(found)
    }
}
