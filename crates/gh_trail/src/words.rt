//! The true and the false atoms as bits over one of their terms, all words in one table.

use crate::shape::{Kind, Parts};
use crate::table::{at, bit, byte, cell, put};
use std::alloc::{AllocError, Global};

/// Where the words of each kind of reading begin in the table. Those of betweenness with z left open stand first: bit t
/// of the word at a version, x and y stands for the atom over x, y and t.
#[derive(Clone, Copy, Debug)]
pub struct Layout {
    terms: usize,
    by_y: usize,
    by_x: usize,
    diagonal: usize,
    hop_to: usize,
    hop_from: usize,
    equal: usize,
    allocated: usize,
    count: usize,
}

impl Layout {
    /// The layout for so many terms and versions.
    pub fn new(terms: usize, versions: usize) -> Layout {
        let row = versions.wrapping_mul(terms);
        let by_y = row.wrapping_mul(terms);
        let by_x = by_y.wrapping_add(by_y);
        let diagonal = by_x.wrapping_add(by_y);
        let hop_to = diagonal.wrapping_add(row);
        let hop_from = hop_to.wrapping_add(row);
        let equal = hop_from.wrapping_add(row);
        let allocated = equal.wrapping_add(terms);
        Layout {
            terms,
            by_y,
            by_x,
            diagonal,
            hop_to,
            hop_from,
            equal,
            allocated,
            count: allocated.wrapping_add(versions),
        }
    }

    // The place of a version's term in a table with a word for each.
    fn row(&self, version: u8, x: u8) -> usize {
        cell(version as usize, self.terms, x as usize)
    }

    // The place of two terms of a version.
    fn pair(&self, version: u8, x: u8, y: u8) -> usize {
        cell(self.row(version, x), self.terms, y as usize)
    }

    // A reading of words with one for each term, which a variable of a row names, or with one for each term of a
    // version.
    fn by_term(&self, start: usize, of_version: usize, variable: u8) -> Reading {
        Reading {
            start,
            of_version,
            first: Step { variable, width: 1 },
            second: NO_STEP,
        }
    }

    // A reading of words with one for each two terms of a version.
    fn by_pair(&self, start: usize, first: u8, second: u8) -> Reading {
        Reading {
            start,
            of_version: self.terms.wrapping_mul(self.terms),
            first: Step {
                variable: first,
                width: self.terms,
            },
            second: Step {
                variable: second,
                width: 1,
            },
        }
    }

    /// The reading of a kind's atoms over places that have numbers of a row's variables, of which one is free.
    pub fn reading(&self, kind: Kind, places: [u8; 3], free: u8) -> Reading {
        let [x, y, z] = places;
        match kind {
            Kind::Btwn if y == free && z == free => self.by_term(self.diagonal, self.terms, x),
            Kind::Btwn if z == free => self.by_pair(0, x, y),
            Kind::Btwn if y == free => self.by_pair(self.by_y, x, z),
            Kind::Btwn if x == free => self.by_pair(self.by_x, y, z),
            Kind::Hop if y == free => self.by_term(self.hop_to, self.terms, x),
            Kind::Hop if x == free => self.by_term(self.hop_from, self.terms, y),
            Kind::Eq if x == free => self.by_term(self.equal, 0, y),
            Kind::Eq if y == free => self.by_term(self.equal, 0, x),
            Kind::Alloc if x == free => Reading {
                start: self.allocated,
                of_version: 1,
                first: NO_STEP,
                second: NO_STEP,
            },
            _ => Reading {
                start: usize::MAX,
                of_version: 0,
                first: NO_STEP,
                second: NO_STEP,
            },
        }
    }
}

/// Where a word stands: a start, and what each number of a version and of a row's terms adds. Past the table's end it
/// is empty.
#[derive(Clone, Copy, Debug)]
pub struct Reading {
    start: usize,
    of_version: usize,
    first: Step,
    second: Step,
}

/// What the term of a row's variable adds to a place: so many for each number.
#[derive(Clone, Copy, Debug)]
struct Step {
    variable: u8,
    width: usize,
}

// No term adds anything.
const NO_STEP: Step = Step {
    variable: 0,
    width: 0,
};

impl Step {
    // What the term of a tuple adds.
    fn of(&self, tuple: &[u8; 4]) -> usize {
        self.width
            .wrapping_mul(tuple[(self.variable & 3) as usize] as usize)
    }
}

impl Reading {
    /// The place of the word for a version and a tuple of terms for the variables.
    pub fn place(&self, version: u8, tuple: &[u8; 4]) -> usize {
        self.start
            .wrapping_add(self.of_version.wrapping_mul(version as usize))
            .wrapping_add(self.first.of(tuple))
            .wrapping_add(self.second.of(tuple))
    }
}

/// The words of atoms of one truth.
#[derive(Debug, Drop)]
pub struct Words {
    layout: Layout,
    table: Vec<u32>,
}

impl Words {
    /// All words are empty.
    pub fn new(alloc: Global, layout: Layout) -> Result<Words, AllocError> {
        Ok(Words {
            layout,
            table: vec![in alloc; 0; layout.count]?,
        })
    }

    /// Takes in that each term equals itself.
    pub fn take_reflexive(&mut self) {
        for term in 0..self.layout.terms {
            self.turn_bit(self.layout.equal.wrapping_add(term), byte(term));
        }
    }

    // Turns a bit of a word.
    fn turn_bit(&mut self, place: usize, term: u8) {
        if place < self.table.len() {
            self.table[place] ^= bit(term);
        }
    }

    /// Takes an atom in that isn't taken in, or out again.
    pub fn turn(&mut self, parts: Parts) {
        let [x, y, _] = parts.terms;
        let version = parts.version;
        match parts.kind {
            Kind::Eq => {
                self.turn_bit(self.layout.equal.wrapping_add(x as usize), y);
                self.turn_bit(self.layout.equal.wrapping_add(y as usize), x);
            }
            Kind::Btwn => self.turn_btwn(parts),
            Kind::Hop => {
                let (to, from) = (self.layout.row(version, x), self.layout.row(version, y));
                self.turn_bit(self.layout.hop_to.wrapping_add(to), y);
                self.turn_bit(self.layout.hop_from.wrapping_add(from), x);
            }
            Kind::Alloc => {
                self.turn_bit(self.layout.allocated.wrapping_add(version as usize), x);
            }
            Kind::Def => {}
        }
    }

    // Takes a `Btwn` atom in or out.
    fn turn_btwn(&mut self, parts: Parts) {
        let [x, y, z] = parts.terms;
        let terms = self.layout.terms;
        let of_x = self.layout.row(parts.version, x);
        let of_y = self.layout.row(parts.version, y);
        let (y_at, z_at) = (y as usize, z as usize);
        self.turn_bit(cell(of_x, terms, y_at), z);
        self.turn_bit(self.layout.by_y.wrapping_add(cell(of_x, terms, z_at)), y);
        self.turn_bit(self.layout.by_x.wrapping_add(cell(of_y, terms, z_at)), x);
        if y == z {
            self.turn_bit(self.layout.diagonal.wrapping_add(of_x), y);
        }
    }

    // The word at a place past the start of those of a kind.
    fn word_at(&self, start: usize, place: usize) -> u32 {
        at(self.table.as_slice(), start.wrapping_add(place), 0)
    }

    /// Whether an atom is taken in.
    pub fn has(&self, parts: Parts) -> bool {
        let [x, y, z] = parts.terms;
        let (layout, version) = (self.layout, parts.version);
        let word = match parts.kind {
            Kind::Eq => return x == y || self.word_at(layout.equal, x as usize) & bit(y) != 0,
            Kind::Btwn => self.word_at(0, layout.pair(version, x, y)) & bit(z),
            Kind::Hop => self.word_at(layout.hop_to, layout.row(version, x)) & bit(y),
            Kind::Alloc => self.word_at(layout.allocated, version as usize) & bit(x),
            Kind::Def => 0,
        };
        word != 0
    }

    /// The terms that a term's cell leads to in a version.
    pub fn hops(&self, version: u8, x: u8) -> u32 {
        self.word_at(self.layout.hop_to, self.layout.row(version, x))
    }

    /// The word at a place.
    pub fn word(&self, place: usize) -> u32 {
        at(self.table.as_slice(), place, 0)
    }
}
