//! How many terms, versions and definitions there are, and the dense numbers of their atoms.

ghost use Rattle.std.specs.Prelude.{◌≡◌, ◌+◌, ◌*◌, ◌^◌, ◌<◌, ◌≤◌, ◌↔◌, IsTrue};
ghost use Rattle.gh_base.specs.Atoms.{IsInRange, pairs_below, btwn_start, hop_start, alloc_start, def_start, number_of};
ghost use Rattle.gh_base.specs.Atoms.{count_of, IsRow, AreNumbersApart};

use crate::atom::{Atom, Term};

/// Numbers of terms, versions and definitions.
#[derive(Clone, Copy, Debug, PartialEq, Eq)]
pub struct Sizes {
    pub terms: u8,
    pub versions: u8,
    pub defs: u32,
}

// How many pairs of terms have their greater one below `n`.
fn pairs(n: u8) -> usize
    ensures value { result ≡ pairs_below n }
    ensures bound { result < 2 ^ 16 }
{
    let n = n as usize;
    n * (n + 1) / 2
}

// The place of a term in a row of a table that has `terms` places in each row.
fn place_in(row: usize, term: Term, terms: usize) -> usize
    requires rows { row < 2 ^ 32 }
    requires terms { terms < 2 ^ 8 }
    ensures value { result ≡ row * terms + term.0 }
    ensures bound { result ≤ row * 255 + 255 }
{
    row * terms + term.0 as usize
}

// The row and the term of a place.
fn row_at(place: usize, terms: usize) -> (usize, Term)
    requires some { 0 < terms }
    requires terms { terms < 2 ^ 8 }
    ensures { IsRow place terms result.0 result.1 }
{
    (place / terms, Term((place % terms) as u8))
}

// The equality of a number.
fn equality_at(number: usize, terms: u8) -> Atom
    requires { number < pairs_below terms }
    ensures in_range { (s : Sizes) → s.terms ≡ terms → IsInRange s result }
    ensures number { (s : Sizes) → number_of s result ≡ number }
{
    let mut greater = 0;
    while pairs(greater + 1) <= number {
        greater += 1;
    }
    Atom::Eq {
        a: Term((number - pairs(greater)) as u8),
        b: Term(greater),
    }
}

impl Sizes {
    /// Whether an atom is in range: its terms, version and definition are there, and an equality has its smaller term
    /// first.
    pub fn has(self, atom: Atom) -> bool
        ensures { IsTrue result ↔ IsInRange self atom }
    {
        match atom {
            Atom::Eq { a, b } => a.0 <= b.0 && b.0 < self.terms,
            Atom::Btwn { version, x, y, z } => {
                version < self.versions && x.0 < self.terms && y.0 < self.terms && z.0 < self.terms
            }
            Atom::Hop { version, x, v } => {
                version < self.versions && x.0 < self.terms && v.0 < self.terms
            }
            Atom::Alloc { version, x } => version < self.versions && x.0 < self.terms,
            Atom::Def { number } => number < self.defs,
        }
    }

    // The first number of a `Btwn` atom.
    fn btwn_start(self) -> usize
        ensures value { result ≡ btwn_start self }
        ensures bound { result < 2 ^ 16 }
    {
        pairs(self.terms)
    }

    // The first number of a `Hop` atom.
    fn hop_start(self) -> usize
        ensures value { result ≡ hop_start self }
        ensures bound { result < 2 ^ 33 }
    {
        let terms = self.terms as usize;
        self.btwn_start() + self.versions as usize * terms * terms * terms
    }

    // The first number of an `Alloc` atom.
    fn alloc_start(self) -> usize
        ensures value { result ≡ alloc_start self }
        ensures bound { result < 2 ^ 34 }
    {
        let terms = self.terms as usize;
        self.hop_start() + self.versions as usize * terms * terms
    }

    // The number of the first definition.
    fn def_start(self) -> usize
        ensures value { result ≡ def_start self }
        ensures bound { result < 2 ^ 35 }
    {
        self.alloc_start() + self.versions as usize * self.terms as usize
    }

    /// How many atoms there are.
    pub fn count(self) -> usize
        ensures { result ≡ count_of self }
    {
        self.def_start() + self.defs as usize
    }

    /// The number of an atom, from 0. Each number below the count is that of one atom.
    pub fn number(self, atom: Atom) -> usize
        requires { IsInRange self atom }
        ensures number { result ≡ number_of self atom }
        ensures below { result < count_of self }
    {
        let terms = self.terms as usize;
        match atom {
            Atom::Eq { a, b } => pairs(b.0) + a.0 as usize,
            Atom::Btwn { version, x, y, z } => {
                let row = place_in(version as usize, x, terms);
                self.btwn_start() + place_in(place_in(row, y, terms), z, terms)
            }
            Atom::Hop { version, x, v } => {
                self.hop_start() + place_in(place_in(version as usize, x, terms), v, terms)
            }
            Atom::Alloc { version, x } => {
                self.alloc_start() + place_in(version as usize, x, terms)
            }
            Atom::Def { number } => self.def_start() + number as usize,
        }
    }

    // The `Btwn` atom at a place among all `Btwn` atoms.
    fn btwn_at(self, place: usize) -> Atom
        requires { place < self.versions * self.terms * self.terms * self.terms }
        ensures in_range { IsInRange self result }
        ensures number { number_of self result ≡ btwn_start self + place }
    {
        let terms = self.terms as usize;
        let (row, z) = row_at(place, terms);
        let (row, y) = row_at(row, terms);
        let (row, x) = row_at(row, terms);
        Atom::Btwn {
            version: row as u8,
            x,
            y,
            z,
        }
    }

    // The `Hop` atom at a place among all `Hop` atoms.
    fn hop_at(self, place: usize) -> Atom
        requires { place < self.versions * self.terms * self.terms }
        ensures in_range { IsInRange self result }
        ensures number { number_of self result ≡ hop_start self + place }
    {
        let terms = self.terms as usize;
        let (row, v) = row_at(place, terms);
        let (row, x) = row_at(row, terms);
        Atom::Hop {
            version: row as u8,
            x,
            v,
        }
    }

    // The `Alloc` atom at a place among all `Alloc` atoms.
    fn alloc_at(self, place: usize) -> Atom
        requires { place < self.versions * self.terms }
        ensures in_range { IsInRange self result }
        ensures number { number_of self result ≡ alloc_start self + place }
    {
        let (row, x) = row_at(place, self.terms as usize);
        Atom::Alloc {
            version: row as u8,
            x,
        }
    }

    /// The atom of a number.
    pub fn atom(self, number: usize) -> Atom
        requires { number < count_of self }
        ensures in_range { IsInRange self result }
        ensures number { number_of self result ≡ number }
    {
        if number < self.btwn_start() {
            equality_at(number, self.terms)
        } else if number < self.hop_start() {
            self.btwn_at(number - self.btwn_start())
        } else if number < self.alloc_start() {
            self.hop_at(number - self.hop_start())
        } else if number < self.def_start() {
            self.alloc_at(number - self.alloc_start())
        } else {
            Atom::Def {
                number: (number - self.def_start()) as u32,
            }
        }
    }
}

/// Two atoms in range that have one number are one.
pub fn numbers_are_apart()
    ensures { AreNumbersApart }
{}
