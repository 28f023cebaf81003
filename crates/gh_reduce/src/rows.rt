//! What is stated of each term, or of each two terms.

ghost use Rattle.std.specs.Prelude.{◌≡◌, ◌<◌, IfOk, OnOk};
ghost use Rattle.gh_grass.specs.Claims.{ground_formula_of, ground_formula_list};
ghost use Rattle.gh_reduce.specs.Growth.{stated_in, IsCountable};
ghost use Rattle.gh_reduce.specs.Rows.{of_term, of_pair, said_of_each, said_of_pairs, with_each};
ghost use Rattle.gh_reduce.specs.Rows.{IsEachTermInside, IsEachPairInside};

use crate::clauses::{add_formula, counted};
use crate::statements::{allocated, leads, outside_footprint, same_hops, within};
use gh_base::atom::Term;
use gh_base::ground::Ground;
use gh_grass::formula::Formula;
use gh_symb::over_terms::BoundAssertion;
use std::alloc::{AllocError, Global};

/// A statement of each term, in an old and a new version: what is allocated leads to a term; what was
/// allocated is; the same, and a new cell; the same, but a freed cell; nothing is both kept and in the
/// new part; what is kept or in the new part is allocated.
#[derive(Debug, Drop)]
pub enum EachTerm<'s, 'a> {
    Leads {
        version: u8,
        terms: u8,
    },
    Same {
        old: u8,
        new: u8,
    },
    Made {
        old: u8,
        new: u8,
        location: Term,
    },
    Freed {
        old: u8,
        new: u8,
        x: Term,
    },
    Apart {
        old: u8,
        before: &'s BoundAssertion<'a>,
        after: &'s BoundAssertion<'a>,
    },
    Replaced {
        old: u8,
        new: u8,
        before: &'s BoundAssertion<'a>,
        after: &'s BoundAssertion<'a>,
    },
}

/// A statement of each two terms: each cell but one leads where it led; each kept cell does.
#[derive(Debug, Drop)]
pub enum EachPair<'s, 'a> {
    Others {
        old: u8,
        new: u8,
        x: Term,
    },
    Kept {
        old: u8,
        new: u8,
        before: &'s BoundAssertion<'a>,
    },
}

impl EachTerm<'_, '_> {
    // The statement of a term.
    fn formula(&self, alloc: Global, z: Term) -> Result<Formula, AllocError>
        ensures { IfOk result (λ f. ground_formula_of f ≡ of_term self.now z) }
    {
        match self {
            EachTerm::Leads { version, terms } => Ok(leads(alloc, *terms, *version, z)?),
            EachTerm::Same { old, new } => Ok(allocated(*new, z).iff(alloc, allocated(*old, z))?),
            EachTerm::Made { old, new, location } => {
                let before = allocated(*old, z).or(alloc, Formula::equal(z, *location))?;
                Ok(allocated(*new, z).iff(alloc, before)?)
            }
            EachTerm::Freed { old, new, x } => {
                let other = Formula::equal(z, *x).negated(alloc)?;
                let before = allocated(*old, z).and(alloc, other)?;
                Ok(allocated(*new, z).iff(alloc, before)?)
            }
            EachTerm::Apart { old, before, after } => {
                let inside = within(alloc, after, z)?;
                let both = outside_footprint(alloc, *old, before, z)?.and(alloc, inside)?;
                Ok(both.negated(alloc)?)
            }
            EachTerm::Replaced {
                old,
                new,
                before,
                after,
            } => {
                let inside = within(alloc, after, z)?;
                let either = outside_footprint(alloc, *old, before, z)?.or(alloc, inside)?;
                Ok(allocated(*new, z).iff(alloc, either)?)
            }
        }
    }
}

impl EachPair<'_, '_> {
    // The statement of two terms.
    fn formula(&self, alloc: Global, z: Term, v: Term) -> Result<Formula, AllocError>
        ensures { IfOk result (λ f. ground_formula_of f ≡ of_pair self.now z v) }
    {
        match self {
            EachPair::Others { old, new, x } => {
                let same = same_hops(alloc, *new, *old, z, v)?;
                Ok(Formula::equal(z, *x).or(alloc, same)?)
            }
            EachPair::Kept { old, new, before } => {
                let same = same_hops(alloc, *new, *old, z, v)?;
                let gone = outside_footprint(alloc, *old, before, z)?.negated(alloc)?;
                Ok(gone.or(alloc, same)?)
            }
        }
    }
}

/// Adds a statement of each term, for the first `terms` terms, to other formulas.
pub fn push_each_term(
    alloc: Global,
    members: &mut Vec<Formula>,
    each: &EachTerm,
    terms: u8,
) -> Result<(), AllocError>
    ensures { OnOk result (ground_formula_list members.new.items ≡ with_each members.old.items terms (of_term each.now)) }
{
    for z in 0..terms {
        members.push(each.formula(alloc, Term(z))?)?;
    }
    Ok(())
}

/// Adds a statement of each term to ground clauses.
pub fn add_each_term(alloc: Global, ground: &mut Ground, each: &EachTerm) -> Result<(), AllocError>
    requires { IsEachTermInside ground.old.sizes each.now }
    ensures stated { OnOk result (ground.new ≡ stated_in ground.old (said_of_each ground.old (of_term each.now))) }
    ensures few { OnOk result (IsCountable ground.new) }
{
    for z in 0..ground.terms() {
        let formula = each.formula(alloc, Term(z))?;
        add_formula(alloc, ground, &formula)?;
    }
    counted(ground);
    Ok(())
}

// Adds a statement of each two terms of which `z` is the first.
fn add_pairs_of(
    alloc: Global,
    ground: &mut Ground,
    each: &EachPair,
    z: Term,
) -> Result<(), AllocError>
    requires inside { IsEachPairInside ground.old.sizes each.now }
    requires term { z.0 < ground.old.sizes.terms }
    ensures { OnOk result (ground.new ≡ stated_in ground.old (said_of_each ground.old (of_pair each.now z))) }
{
    for v in 0..ground.terms() {
        let formula = each.formula(alloc, z, Term(v))?;
        add_formula(alloc, ground, &formula)?;
    }
    Ok(())
}

/// Adds a statement of each two terms to ground clauses.
pub fn add_each_pair(alloc: Global, ground: &mut Ground, each: &EachPair) -> Result<(), AllocError>
    requires { IsEachPairInside ground.old.sizes each.now }
    ensures stated { OnOk result (ground.new ≡ stated_in ground.old (said_of_pairs ground.old (of_pair each.now))) }
    ensures few { OnOk result (IsCountable ground.new) }
{
    for z in 0..ground.terms() {
        add_pairs_of(alloc, ground, each, Term(z))?;
    }
    counted(ground);
    Ok(())
}
