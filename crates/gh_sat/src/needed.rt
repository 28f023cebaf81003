//! The atom to decide next.

ghost use Rattle.std.specs.Prelude.{◌≡◌, ◌⊎◌, All, IsTrue, IfSome, IfNone};
ghost use Rattle.gh_base.specs.Atoms.{IsInRange, AreInRange};
ghost use Rattle.gh_sat.specs.Status.{HasAtom, IsSatisfied, IsSatisfiedOrFalse, OccursIn};
ghost use Rattle.gh_sat.specs.Trail.{IsFree, IsTrueIn};

use crate::status::first_open;
use crate::trail::Trail;
use gh_base::atom::{Atom, Lit};
use gh_base::clause::Clause;

// Whether a literal is true.
fn is_true(trail: &Trail, lit: Lit) -> bool
    requires { IsInRange trail.now.sizes lit.atom }
    ensures { IsTrue result → IsTrueIn trail.now.steps lit }
{
    match trail.value(lit) {
        None => false,
        Some(truth) => truth,
    }
}

// Whether a literal of a clause is true.
fn is_satisfied(trail: &Trail, clause: &[Lit]) -> bool
    requires { AreInRange trail.now.sizes clause.now }
    ensures { IsTrue result → IsSatisfied trail.now.steps clause.now }
{
    for lit in clause {
        if is_true(trail, *lit) {
            return true;
        }
    }
    false
}

// The first atom of a clause that has no truth, if no literal of it is true and there is one.
fn needed_in(trail: &Trail, clause: &[Lit]) -> Option<Atom>
    requires { AreInRange trail.now.sizes clause.now }
    ensures some { IfSome result (λ a. IsInRange trail.now.sizes a × IsFree trail.now.steps a) }
    ensures occurs { IfSome result (HasAtom clause.now) }
    ensures none { IfNone result (IsSatisfiedOrFalse trail.now.steps clause.now) }
{
    if is_satisfied(trail, clause) {
        return None;
    }
    let lit = first_open(trail, clause)?;
    match trail.value(lit) {
        None => Some(lit.atom),
        Some(_truth) => None,
    }
}

/// An atom with no truth of the first clause that has one and no true literal, if there is such a clause.
pub(crate) fn first_needed(trail: &Trail, clauses: &[Clause]) -> Option<Atom>
    requires { All (AreInRange trail.now.sizes) clauses.now }
    ensures some { IfSome result (λ a. IsInRange trail.now.sizes a × IsFree trail.now.steps a) }
    ensures occurs { IfSome result (OccursIn clauses.now) }
    ensures none { IfNone result (All (IsSatisfiedOrFalse trail.now.steps) clauses.now) }
{
    for clause in clauses {
        let found = needed_in(trail, clause.lits());
        if found.is_some() {
            return found;
        }
    }
    None
}
