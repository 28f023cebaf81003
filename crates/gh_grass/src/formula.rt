//! Ground formulas: statements about the terms of a condition in its versions of the heap.

ghost use Rattle.std.specs.Prelude.{◌≡◌, ◌∷◌, [], IfOk};
ghost use Rattle.gh_grass.specs.Claims.{ground_formula_of, ground_formula_list, negation_of, equivalence_of, all_of};
ghost use Rattle.gh_grass.specs.Claims.{one_of, equality};

use gh_base::atom::{Atom, Term};
use std::alloc::{AllocError, Global};

/// A ground formula. `And` of no formulas is true, and `Or` of none is false.
#[derive(Debug, Drop)]
pub enum Formula {
    Atom(Atom),
    Not(Box<Formula>),
    And(Vec<Formula>),
    Or(Vec<Formula>),
    Iff(Box<Formula>, Box<Formula>),
}

// Two formulas.
fn pair(alloc: Global, first: Formula, second: Formula) -> Result<Vec<Formula>, AllocError>
    ensures { IfOk result (λ fs. ground_formula_list fs.items ≡ ground_formula_of first ∷ ground_formula_of second ∷ []) }
{
    let mut formulas = Vec::new(alloc);
    formulas.push(first)?;
    formulas.push(second)?;
    Ok(formulas)
}

impl Formula {
    /// Two terms are equal.
    pub fn equal(a: Term, b: Term) -> Formula
        ensures { ground_formula_of result ≡ equality a b }
    {
        Formula::Atom(Atom::equal(a, b))
    }

    /// The formula is false.
    pub fn negated(self, alloc: Global) -> Result<Formula, AllocError>
        ensures { IfOk result (λ f. ground_formula_of f ≡ negation_of (ground_formula_of self)) }
    {
        Ok(Formula::Not(Box::new(alloc, self)?))
    }

    /// Both formulas are true.
    pub fn and(self, alloc: Global, other: Formula) -> Result<Formula, AllocError>
        ensures { IfOk result (λ f. ground_formula_of f ≡ all_of (ground_formula_of self ∷ ground_formula_of other ∷ [])) }
    {
        Ok(Formula::And(pair(alloc, self, other)?))
    }

    /// One of the formulas is true.
    pub fn or(self, alloc: Global, other: Formula) -> Result<Formula, AllocError>
        ensures { IfOk result (λ f. ground_formula_of f ≡ one_of (ground_formula_of self ∷ ground_formula_of other ∷ [])) }
    {
        Ok(Formula::Or(pair(alloc, self, other)?))
    }

    /// Both formulas are true, or neither is.
    pub fn iff(self, alloc: Global, other: Formula) -> Result<Formula, AllocError>
        ensures { IfOk result (λ f. ground_formula_of f ≡ equivalence_of (ground_formula_of self) (ground_formula_of other)) }
    {
        let left = Box::new(alloc, self)?;
        let right = Box::new(alloc, other)?;
        Ok(Formula::Iff(left, right))
    }
}
