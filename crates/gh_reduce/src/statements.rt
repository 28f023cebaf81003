//! Formulas about cells, terms and parts of the heap.

ghost use Rattle.std.specs.Prelude.{◌≡◌, ◌∷◌, [], IfOk};
ghost use Rattle.gh_grass.specs.Claims.{ground_formula_of, negation_of, one_of, equality};
ghost use Rattle.gh_symb.specs.Formulas as formulas;
ghost use Rattle.gh_symb.specs.Inside.{under_of};
ghost use Rattle.gh_reduce.specs.Rows.{kinds_of, same_hops};
ghost use Rattle.gh_reduce.specs.Stated.{next_where_allocated, one_is_met};

use gh_base::atom::{Atom, Term};
use gh_grass::footprint::{footprint_at, structure_of};
use gh_grass::formula::Formula;
use gh_grass::terms::TermList;
use gh_symb::over_terms::BoundAssertion;
use std::alloc::{AllocError, Global};

/// A formula that is false.
pub fn never(alloc: Global) -> Formula
    ensures { ground_formula_of result ≡ one_of [] }
{
    Formula::Or(Vec::new(alloc))
}

/// A term is allocated.
pub fn allocated(version: u8, x: Term) -> Formula
    ensures { ground_formula_of result ≡ formulas.allocated version x }
{
    Formula::Atom(Atom::Alloc { version, x })
}

/// A term isn't allocated.
pub fn free(alloc: Global, version: u8, x: Term) -> Result<Formula, AllocError>
    ensures { IfOk result (λ f. ground_formula_of f ≡ negation_of (formulas.allocated version x)) }
{
    Ok(allocated(version, x).negated(alloc)?)
}

/// The cell at a term leads to another.
pub fn hops(version: u8, x: Term, v: Term) -> Formula
    ensures { ground_formula_of result ≡ formulas.hops version x v }
{
    Formula::Atom(Atom::Hop { version, x, v })
}

/// Where a term is allocated, it leads to the next term.
pub fn next_where_allocated(
    alloc: Global,
    version: u8,
    x: Term,
    next: Term,
) -> Result<Formula, AllocError>
    ensures { IfOk result (λ f. ground_formula_of f ≡ next_where_allocated version x next) }
{
    Ok(free(alloc, version, x)?.or(alloc, hops(version, x, next))?)
}

/// Where a term isn't allocated, it is the next term.
pub fn same_where_free(
    alloc: Global,
    version: u8,
    x: Term,
    next: Term,
) -> Result<Formula, AllocError>
    ensures { IfOk result (λ f. ground_formula_of f ≡ one_of (formulas.allocated version x ∷ equality x next ∷ [])) }
{
    Ok(allocated(version, x).or(alloc, Formula::equal(x, next))?)
}

/// The cell at a term leads to another in one version where it does in the other.
pub fn same_hops(alloc: Global, new: u8, old: u8, z: Term, v: Term) -> Result<Formula, AllocError>
    ensures { IfOk result (λ f. ground_formula_of f ≡ same_hops new old z v) }
{
    Ok(hops(new, z, v).iff(alloc, hops(old, z, v))?)
}

/// A term is in the footprint of an assertion.
pub fn within(alloc: Global, bound: &BoundAssertion, z: Term) -> Result<Formula, AllocError>
    ensures { IfOk result (λ f. ground_formula_of f ≡ formulas.within (under_of bound.now) z) }
{
    Ok(footprint_at(alloc, bound.assertion, &bound.binding, bound.version, z)?)
}

/// Some part of the heap meets an assertion.
pub fn meets(alloc: Global, bound: &BoundAssertion, terms: &TermList) -> Result<Formula, AllocError>
    ensures { IfOk result (λ f. ground_formula_of f ≡ formulas.meets (kinds_of terms.now) (under_of bound.now)) }
{
    Ok(structure_of(alloc, bound.assertion, &bound.binding, bound.version, terms)?)
}

/// A term is allocated, and isn't in the footprint of an assertion.
pub fn outside_footprint(
    alloc: Global,
    version: u8,
    bound: &BoundAssertion,
    z: Term,
) -> Result<Formula, AllocError>
    ensures { IfOk result (λ f. ground_formula_of f ≡ formulas.outside_footprint version (under_of bound.now) z) }
{
    let outside = within(alloc, bound, z)?.negated(alloc)?;
    Ok(allocated(version, z).and(alloc, outside)?)
}

/// What is allocated leads to one of some terms.
pub fn leads(alloc: Global, terms: u8, version: u8, x: Term) -> Result<Formula, AllocError>
    ensures { IfOk result (λ f. ground_formula_of f ≡ formulas.leads terms version x) }
{
    let mut members = Vec::new(alloc);
    members.push(allocated(version, x).negated(alloc)?)?;
    for v in 0..terms {
        members.push(hops(version, x, Term(v)))?;
    }
    Ok(Formula::Or(members))
}

// A term is allocated exactly where it is in the footprint of an assertion.
fn covers(alloc: Global, bound: &BoundAssertion, z: Term) -> Result<Formula, AllocError>
    ensures { IfOk result (λ f. ground_formula_of f ≡ formulas.covers (under_of bound.now) z) }
{
    let inside = within(alloc, bound, z)?;
    Ok(allocated(bound.version, z).iff(alloc, inside)?)
}

/// The whole heap meets an assertion.
pub fn meets_whole(
    alloc: Global,
    bound: &BoundAssertion,
    terms: &TermList,
) -> Result<Formula, AllocError>
    ensures { IfOk result (λ f. ground_formula_of f ≡ formulas.meets_whole (kinds_of terms.now) (under_of bound.now)) }
{
    let mut members = Vec::new(alloc);
    members.push(meets(alloc, bound, terms)?)?;
    for z in 0..terms.count() {
        members.push(covers(alloc, bound, Term(z))?)?;
    }
    Ok(Formula::And(members))
}

/// The whole heap meets one of some assertions.
pub fn meets_one(
    alloc: Global,
    bounds: &[BoundAssertion],
    terms: &TermList,
) -> Result<Formula, AllocError>
    ensures { IfOk result (λ f. ground_formula_of f ≡ one_is_met (kinds_of terms.now) bounds.now) }
{
    let mut members = Vec::new(alloc);
    for bound in bounds {
        members.push(meets_whole(alloc, bound, terms)?)?;
    }
    Ok(Formula::Or(members))
}
