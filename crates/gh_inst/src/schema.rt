//! Axiom rows over variables, and their clauses at some terms.

ghost use Rattle.std.specs.Prelude.{◌≡◌, ◌<◌, All, take};
ghost use Rattle.gh_inst.specs.Schemas.{IsSchema, places_of, term_at, lit_over, clause_over};

use gh_base::atom::{Atom, Lit, Term};
use gh_base::clause::Clause;
use std::alloc::Global;

/// The shapes of the atoms that rows speak of.
#[derive(Clone, Copy, Debug, Default, PartialEq, Eq)]
pub enum Shape {
    /// Two terms are equal.
    #[default]
    Equal,
    /// One term is met on the way from another to a third one.
    Btwn,
    /// A cell leads to a term.
    Hop,
    /// A term is allocated.
    Alloc,
}

/// A literal over variables, which are named by their positions from 0. `Equal` and `Hop` use two
/// places, `Btwn` three, `Alloc` one; the others are 0.
#[derive(Clone, Copy, Debug, PartialEq, Eq)]
pub struct Pattern {
    pub shape: Shape,
    pub positive: bool,
    pub places: [u8; 3],
}

/// An axiom row of `V` variables and `L` literals.
#[derive(Drop)]
pub struct Schema<const V: usize, const L: usize> {
    pub(crate) lits: [Pattern; L],
    ghost row: { IsSchema V lits },
}

impl<const V: usize, const L: usize> Schema<V, L> {
    /// The row of these literals.
    pub fn new(lits: [Pattern; L]) -> Schema<V, L>
        requires { IsSchema V lits }
        ensures { result.lits ≡ lits.entry }
    {
        Schema { lits }
    }
}

impl Pattern {
    // The term that the variable at a place stands for.
    fn term<const V: usize>(self, place: usize, terms: &[Term; V]) -> Term
        requires place { place < places_of self.shape }
        requires variables { All (λ x. x < V) (take (places_of self.shape) self.places) }
        ensures { result ≡ term_at terms.now self.places place }
    {
        terms[self.places[place] as usize]
    }

    /// The literal at some terms.
    pub(crate) fn lit<const V: usize>(self, version: u8, terms: &[Term; V]) -> Lit
        requires { All (λ x. x < V) (take (places_of self.shape) self.places) }
        ensures { result ≡ lit_over version terms.now self }
    {
        let atom = match self.shape {
            Shape::Equal => Atom::equal(self.term(0, terms), self.term(1, terms)),
            Shape::Btwn => Atom::Btwn {
                version,
                x: self.term(0, terms),
                y: self.term(1, terms),
                z: self.term(2, terms),
            },
            Shape::Hop => Atom::Hop {
                version,
                x: self.term(0, terms),
                v: self.term(1, terms),
            },
            Shape::Alloc => Atom::Alloc {
                version,
                x: self.term(0, terms),
            },
        };
        Lit {
            atom,
            positive: self.positive,
        }
    }
}

/// The clause of a row at some terms, in the order of its variables. It takes no memory.
pub fn clause_at<const V: usize, const L: usize>(
    alloc: Global,
    schema: &Schema<V, L>,
    version: u8,
    terms: [Term; V],
) -> Clause
    ensures { result ≡ clause_over version terms.entry schema.now.lits }
{
    let mut lits = [Lit::default(); L];
    for i in 0..L {
        lits[i] = schema.lits[i].lit(version, &terms);
    }
    Clause::from_array(alloc, lits)
}
