//! Dense numbers of atoms and literals, and what stands behind them.

use crate::table::{at, cell, small};
use gh_base::atom::{Atom, Lit, Term};
use gh_base::sizes::Sizes;
use std::alloc::{AllocError, Global};

/// A literal: twice the number of its atom, and one more where it is positive.
#[derive(Clone, Copy, Debug)]
pub struct Code(pub u32);

impl Code {
    /// The literal of an atom.
    pub fn new(atom: usize, positive: bool) -> Code {
        let sign = if positive { 1 } else { 0 };
        Code(small(atom).wrapping_mul(2).wrapping_add(sign))
    }

    /// The number of the literal's atom.
    pub fn atom(self) -> usize {
        (self.0 / 2) as usize
    }

    /// Whether the literal is its atom.
    pub fn is_positive(self) -> bool {
        self.0 % 2 == 1
    }

    /// The opposite literal.
    pub fn negated(self) -> Code {
        Code(self.0 ^ 1)
    }

    /// The literal's place in tables by literals.
    pub fn place(self) -> usize {
        self.0 as usize
    }
}

/// The kinds of atoms, in the order of their numbers.
#[derive(Clone, Copy, Debug, PartialEq, Eq)]
pub enum Kind {
    Eq,
    Btwn,
    Hop,
    Alloc,
    Def,
}

impl Kind {
    /// How many terms an atom of the kind has.
    pub fn arity(self) -> usize {
        match self {
            Kind::Eq => 2,
            Kind::Btwn => 3,
            Kind::Hop => 2,
            Kind::Alloc => 1,
            Kind::Def => 0,
        }
    }
}

/// The parts of an atom. Terms past the kind's arity are 0; the version of a definition is the latest that it speaks
/// of.
#[derive(Clone, Copy, Debug)]
pub struct Parts {
    pub kind: Kind,
    pub version: u8,
    pub terms: [u8; 3],
}

// Those of a definition.
const NO_PARTS: Parts = Parts {
    kind: Kind::Def,
    version: 0,
    terms: [0; 3],
};

impl Parts {
    /// The term at a place, from 0.
    pub fn term(&self, place: usize) -> u8 {
        match place {
            0 => self.terms[0],
            1 => self.terms[1],
            _ => self.terms[2],
        }
    }
}

/// The atoms over some terms, versions and definitions: equalities first, a row for each term, then those of each kind.
#[derive(Debug, Drop)]
pub struct Shape {
    pub terms: usize,
    pub versions: usize,
    pub btwns: usize,
    hops: usize,
    allocs: usize,
    pub defs: usize,
    pub count: usize,
    parts: Vec<Parts>,
    // By definition: its key, or 0 where no clause is taken into it yet.
    keys: Vec<u64>,
}

/// A word whose bits all depend on those of another.
pub fn spread(word: u64) -> u64 {
    let first = (word ^ (word >> 30)).wrapping_mul(13787848793156543929);
    let second = (first ^ (first >> 27)).wrapping_mul(10723151780598845931);
    second ^ (second >> 31)
}

// The parts of all atoms, in the order of their numbers.
fn all_parts(alloc: Global, sizes: Sizes, count: usize) -> Result<Vec<Parts>, AllocError> {
    let mut all = Vec::with_capacity(alloc, count)?;
    push_pairs(&mut all, Kind::Eq, 0, sizes.terms)?;
    for version in 0..sizes.versions {
        for x in 0..sizes.terms {
            push_betweens(&mut all, version, x, sizes.terms)?;
        }
    }
    for version in 0..sizes.versions {
        push_pairs(&mut all, Kind::Hop, version, sizes.terms)?;
    }
    for version in 0..sizes.versions {
        for x in 0..sizes.terms {
            all.push(Parts {
                kind: Kind::Alloc,
                version,
                terms: [x, 0, 0],
            })?;
        }
    }
    for _ in 0..sizes.defs {
        all.push(NO_PARTS)?;
    }
    Ok(all)
}

// Adds the parts of the atoms of a kind over all pairs of terms.
fn push_pairs(all: &mut Vec<Parts>, kind: Kind, version: u8, terms: u8) -> Result<(), AllocError> {
    for x in 0..terms {
        for y in 0..terms {
            all.push(Parts {
                kind,
                version,
                terms: [x, y, 0],
            })?;
        }
    }
    Ok(())
}

// Adds the parts of the `Btwn` atoms that begin with a term.
fn push_betweens(all: &mut Vec<Parts>, version: u8, x: u8, terms: u8) -> Result<(), AllocError> {
    for y in 0..terms {
        for z in 0..terms {
            all.push(Parts {
                kind: Kind::Btwn,
                version,
                terms: [x, y, z],
            })?;
        }
    }
    Ok(())
}

impl Shape {
    /// The atoms over some sizes.
    pub fn new(alloc: Global, sizes: Sizes) -> Result<Shape, AllocError> {
        let (terms, versions) = (sizes.terms as usize, sizes.versions as usize);
        let btwns = cell(terms, terms, 0);
        let hops = cell(cell(cell(versions, terms, 0), terms, 0), terms, btwns);
        let allocs = cell(cell(versions, terms, 0), terms, hops);
        let defs = cell(versions, terms, allocs);
        let count = defs.wrapping_add(sizes.defs as usize);
        Ok(Shape {
            terms,
            versions,
            btwns,
            hops,
            allocs,
            defs,
            count,
            parts: all_parts(alloc, sizes, count)?,
            keys: vec![in alloc; 0; sizes.defs as usize]?,
        })
    }

    /// No atoms.
    pub fn empty(alloc: Global) -> Shape {
        Shape {
            terms: 0,
            versions: 0,
            btwns: 0,
            hops: 0,
            allocs: 0,
            defs: 0,
            count: 0,
            parts: Vec::new(alloc),
            keys: Vec::new(alloc),
        }
    }

    /// The parts of the atom of a number.
    pub fn parts(&self, number: usize) -> Parts {
        match self.parts.get(number) {
            Some(parts) => *parts,
            None => NO_PARTS,
        }
    }

    /// Notes that a definition speaks of a version.
    pub fn note_version(&mut self, number: usize, version: u8) {
        if number < self.parts.len() && self.parts[number].version < version {
            self.parts[number].version = version;
        }
    }

    /// The key of an atom, whatever the numbers of versions and definitions are: a word that no other atom has, or of a
    /// definition a word made from the clauses that say what it stands for, which definitions that say the same share.
    pub fn key(&self, atom: usize) -> u64 {
        if atom >= self.defs {
            return at(self.keys.as_slice(), atom.wrapping_sub(self.defs), 0);
        }
        let parts = self.parts(atom);
        let mut word = parts.kind as u64;
        for part in [
            parts.version,
            parts.terms[0],
            parts.terms[1],
            parts.terms[2],
        ] {
            word = word.wrapping_mul(256).wrapping_add(part as u64);
        }
        spread(word)
    }

    /// Takes a clause that says what a definition stands for into its key.
    pub fn note_key(&mut self, defined: usize, codes: &[Code]) {
        let mut sum: u64 = 0;
        for code in codes {
            let sign = if code.is_positive() { 1 } else { 0 };
            let key = if code.atom() == defined {
                1
            } else {
                self.key(code.atom())
            };
            sum = sum.wrapping_add(spread(key.wrapping_mul(2).wrapping_add(sign)));
        }
        let number = defined.wrapping_sub(self.defs);
        if number < self.keys.len() {
            self.keys[number] = self.keys[number].wrapping_add(spread(sum));
        }
    }

    /// The number of an atom.
    pub fn number(&self, parts: Parts) -> usize {
        let [x, y, z] = parts.terms;
        match parts.kind {
            Kind::Eq => self.equality(x, y),
            Kind::Btwn => self.btwn(parts.version, x, y, z),
            Kind::Hop => self.hop(parts.version, x, y),
            Kind::Alloc => self.alloc(parts.version, x),
            Kind::Def => self.defs,
        }
    }

    /// The number of an equality.
    pub fn equality(&self, x: u8, y: u8) -> usize {
        cell(x.min(y) as usize, self.terms, x.max(y) as usize)
    }

    /// The number of a `Btwn` atom.
    pub fn btwn(&self, version: u8, x: u8, y: u8, z: u8) -> usize {
        let row = cell(
            cell(version as usize, self.terms, x as usize),
            self.terms,
            y as usize,
        );
        self.btwns.wrapping_add(cell(row, self.terms, z as usize))
    }

    /// The number of a `Hop` atom.
    pub fn hop(&self, version: u8, x: u8, v: u8) -> usize {
        let row = cell(version as usize, self.terms, x as usize);
        self.hops.wrapping_add(cell(row, self.terms, v as usize))
    }

    /// The number of an `Alloc` atom.
    pub fn alloc(&self, version: u8, x: u8) -> usize {
        self.allocs
            .wrapping_add(cell(version as usize, self.terms, x as usize))
    }

    /// The literal of a code.
    pub fn lit(&self, code: Code) -> Lit {
        let parts = self.parts(code.atom());
        let [x, y, z] = parts.terms;
        let version = parts.version;
        let atom = match parts.kind {
            Kind::Eq => Atom::equal(Term(x), Term(y)),
            Kind::Btwn => Atom::Btwn {
                version,
                x: Term(x),
                y: Term(y),
                z: Term(z),
            },
            Kind::Hop => Atom::Hop {
                version,
                x: Term(x),
                v: Term(y),
            },
            Kind::Alloc => Atom::Alloc {
                version,
                x: Term(x),
            },
            Kind::Def => Atom::Def {
                number: small(code.atom().wrapping_sub(self.defs)),
            },
        };
        Lit {
            atom,
            positive: code.is_positive(),
        }
    }

    /// The code of a literal.
    pub fn code(&self, lit: Lit) -> Code {
        let number = match lit.atom {
            Atom::Eq { a, b } => self.equality(a.0, b.0),
            Atom::Btwn { version, x, y, z } => self.btwn(version, x.0, y.0, z.0),
            Atom::Hop { version, x, v } => self.hop(version, x.0, v.0),
            Atom::Alloc { version, x } => self.alloc(version, x.0),
            Atom::Def { number } => self.defs.wrapping_add(number as usize),
        };
        Code::new(number, lit.positive)
    }

    /// The atom's place in the order of decisions: equalities, then atoms with a version from the last down, then
    /// definitions.
    pub fn rank(&self, number: usize) -> usize {
        if number < self.btwns || number >= self.defs {
            return number;
        }
        self.btwns
            .wrapping_add(self.defs)
            .wrapping_sub(number)
            .wrapping_sub(1)
    }
}
