//! What a clause is under a trail.

ghost use Rattle.std.specs.Prelude.{◌≡◌, ◌⊎◌, ◌↔◌, All, IsTrue, IfSome, IfNone};
ghost use Rattle.gh_base.specs.Atoms.{AreInRange, IsInRange};
ghost use Rattle.gh_sat.specs.Status.{IsStatus, GuardsOpen, IsOpenIn, HasOtherOpen};
ghost use Rattle.gh_sat.specs.Trail.{IsFalseIn, IsLitFalse};

use crate::trail::Trail;
use gh_base::atom::Lit;

/// What a clause is, taken as the set of its literals.
#[derive(Clone, Copy, Debug, PartialEq, Eq)]
pub enum Status {
    /// Each literal is false.
    False,
    /// One literal has no truth, and the others are false.
    Unit(Lit),
    /// Neither.
    Open,
}

// Whether a literal is false.
fn is_false(trail: &Trail, lit: Lit) -> bool
    requires { IsInRange trail.now.sizes lit.atom }
    ensures yes { IsTrue result → IsLitFalse trail.now.steps lit }
    ensures no { ¬ IsTrue result → ¬ IsLitFalse trail.now.steps lit }
{
    match trail.value(lit) {
        None => false,
        Some(truth) => !truth,
    }
}

// Whether two literals are one.
fn is_same(one: Lit, other: Lit) -> bool
    ensures { IsTrue result ↔ (one ≡ other) }
{
    one == other
}

/// The first literal of a clause that isn't false, if there is one.
pub(crate) fn first_open(trail: &Trail, clause: &[Lit]) -> Option<Lit>
    requires { AreInRange trail.now.sizes clause.now }
    ensures some { IfSome result (IsOpenIn trail.now.steps clause.now) }
    ensures none { IfNone result (IsFalseIn trail.now.steps clause.now) }
{
    for lit in clause {
        if !is_false(trail, *lit) {
            return Some(*lit);
        }
    }
    None
}

// Whether another literal of a clause isn't false.
fn has_other_open(trail: &Trail, clause: &[Lit], one: Lit) -> bool
    requires { AreInRange trail.now.sizes clause.now }
    ensures yes { IsTrue result → HasOtherOpen trail.now.steps clause.now one }
    ensures no { ¬ IsTrue result → All (λ l. (l ≡ one) ⊎ IsLitFalse trail.now.steps l) clause.now }
{
    for lit in clause {
        if !is_same(*lit, one) {
            if !is_false(trail, *lit) {
                return true;
            }
        }
    }
    false
}

/// The status of a clause. An open one has a literal that is true, or two that aren't false.
pub fn status_of(trail: &Trail, clause: &[Lit]) -> Status
    requires { AreInRange trail.now.sizes clause.now }
    ensures status { IsStatus trail.now.steps clause.now result }
    ensures guarded { GuardsOpen trail.now.steps clause.now result }
{
    let Some(lit) = first_open(trail, clause) else {
        return Status::False;
    };
    if has_other_open(trail, clause, lit) {
        return Status::Open;
    }
    match trail.value(lit) {
        None => Status::Unit(lit),
        Some(true) => Status::Open,
        Some(false) => Status::False,
    }
}
