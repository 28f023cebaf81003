//! Terms, atoms and literals.

ghost use Rattle.std.specs.Prelude.{◌≡◌, ◌↔◌, IsTrue};
ghost use Rattle.gh_base.specs.Atoms.{opposite, equation};

/// A term of a condition, by its position. Term 0 is null.
#[derive(Clone, Copy, Debug, Default, PartialEq, Eq, Hash)]
pub struct Term(pub u8);

/// An atomic statement about terms in one version of the heap, or a defined one.
#[derive(Clone, Copy, Debug, PartialEq, Eq)]
pub enum Atom {
    /// Two terms are equal. The first isn't greater than the second.
    Eq {
        a: Term,
        b: Term,
    },
    /// Following successors from `x`, `z` is met, and `y` no later than the first `z`.
    Btwn {
        version: u8,
        x: Term,
        y: Term,
        z: Term,
    },
    /// The cell at `x` leads to `v`, the first named value after it.
    Hop {
        version: u8,
        x: Term,
        v: Term,
    },
    /// `x` is allocated.
    Alloc {
        version: u8,
        x: Term,
    },
    /// A defined statement, by its number.
    Def {
        number: u32,
    },
}

impl Default for Atom {
    fn default() -> Atom {
        Atom::Def { number: 0 }
    }
}

impl Atom {
    /// The equality of two terms, the smaller one first.
    pub fn equal(a: Term, b: Term) -> Atom
        ensures { result ≡ equation a b }
    {
        if a.0 <= b.0 {
            Atom::Eq { a, b }
        } else {
            Atom::Eq { a: b, b: a }
        }
    }

    /// Whether two atoms are one.
    pub fn is_same(self, other: Atom) -> bool
        ensures { IsTrue result ↔ (self ≡ other) }
    {
        self == other
    }
}

/// An atom or its negation.
#[derive(Clone, Copy, Debug, Default, PartialEq, Eq)]
pub struct Lit {
    pub atom: Atom,
    pub positive: bool,
}

impl Lit {
    /// The literal that is true exactly where this one is false.
    pub fn negated(self) -> Lit
        ensures { result ≡ opposite self }
    {
        Lit {
            atom: self.atom,
            positive: !self.positive,
        }
    }

    /// Whether two literals are one.
    pub fn is_same(self, other: Lit) -> bool
        ensures { IsTrue result ↔ (self ≡ other) }
    {
        self == other
    }
}
