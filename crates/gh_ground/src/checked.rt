//! Literals that a search proposes, and whether their structure is a model.

ghost use Rattle.std.specs.Prelude.{◌≡◌, ◌↔◌, All, IfNone, IfOk, IfSome, IsTrue, MatchBool};
ghost use Rattle.gh_base.specs.Atoms.{IsInRange, AreInRange};
ghost use Rattle.gh_inst.specs.Violations.{IsClauseTrueIn, IsLitTrueIn};
ghost use Rattle.gh_ground.specs.Solving.{IsModelOf, MakeModel};

use crate::structures::structure_of;
use gh_base::atom::Lit;
use gh_base::ground::Ground;
use gh_base::sizes::Sizes;
use gh_base::structure::Structure;
use gh_inst::violation::violated;
use std::alloc::{AllocError, Global};

/// Whether the atoms of literals are in range.
pub(crate) fn are_in_range(sizes: Sizes, lits: &[Lit]) -> bool
    ensures { IsTrue result ↔ AreInRange sizes lits.now }
{
    lits.iter().all(|lit| sizes.has(lit.atom))
}

// Whether a literal is true in a structure.
fn is_lit_true(structure: &Structure, lit: Lit) -> bool
    requires { IsInRange structure.now.sizes lit.atom }
    ensures { MatchBool result (IsLitTrueIn structure.now lit) (¬ IsLitTrueIn structure.now lit) }
{
    structure.holds(lit.atom) == lit.positive
}

// Whether a clause is true in a structure.
fn is_clause_true(structure: &Structure, clause: &[Lit]) -> bool
    requires { AreInRange structure.now.sizes clause.now }
    ensures { MatchBool result (IsClauseTrueIn structure.now clause.now) (¬ IsClauseTrueIn structure.now clause.now) }
{
    for lit in clause {
        if is_lit_true(structure, *lit) {
            return true;
        }
    }
    false
}

// Whether all clauses of a problem are true in a structure.
fn are_clauses_true(structure: &Structure, ground: &Ground) -> bool
    requires { structure.now.sizes ≡ ground.now.sizes }
    ensures yes { IsTrue result → All (IsClauseTrueIn structure.now) ground.now.clauses }
    ensures no { ¬ IsTrue result → ¬ All (IsClauseTrueIn structure.now) ground.now.clauses }
{
    for number in 0..ground.count() {
        let Some(clause) = ground.clause(number) else {
            return false;
        };
        if !is_clause_true(structure, clause.lits()) {
            return false;
        }
    }
    true
}

/// The structure of some literals, if it makes all clauses and all axiom instances true.
pub(crate) fn checked_model(
    alloc: Global,
    ground: &Ground,
    lits: &[Lit],
) -> Result<Option<Structure>, AllocError>
    ensures model { IfOk result (λ o. IfSome o (IsModelOf ground.now)) }
    ensures none { IfOk result (λ o. IfNone o (MakeModel ground.now lits.now → ⊥)) }
{
    let sizes = ground.sizes();
    if !are_in_range(sizes, lits) {
        return Ok(None);
    }
    let structure = structure_of(alloc, sizes, lits)?;
    if !are_clauses_true(&structure, ground) {
        return Ok(None);
    }
    match violated(&structure) {
        Some(_name) => Ok(None),
        None => Ok(Some(structure)),
    }
}
