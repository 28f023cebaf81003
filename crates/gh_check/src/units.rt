//! Reverse unit propagation by the trail of a search.

ghost use Rattle.std.specs.Prelude.{◌≡◌, ◌↔◌, ◌≤◌, ◌++◌, [], List, Option, None, IsTrue, IfOk, OnOk, MatchOption};
ghost use Rattle.std.specs.Prelude.{length, take};
ghost use Rattle.gh_base.specs.declared.atom.Lit.{Lit};
ghost use Rattle.gh_base.specs.declared.sizes.Sizes.{Sizes};
ghost use Rattle.gh_base.specs.Atoms.{IsInRange, AreInRange, opposite};
ghost use Rattle.gh_base.specs.Propagation.{FollowsByUnits};
ghost use Rattle.gh_sat.specs.Trail.{IsSound};
ghost use Rattle.gh_sat.specs.Status.{IsSettled};
ghost use Rattle.gh_check.specs.Assuming.{IsRefuting, IsAssumed, no_clauses, IsBehind};
ghost use Rattle.gh_check.specs.Kept.{AreWithin, present, present_at};

use crate::positions::Positions;
use gh_base::atom::Lit;
use gh_base::clause::Clause;
use gh_base::sizes::Sizes;
use gh_sat::clause_search::ClauseSearch;
use std::alloc::{AllocError, Global};

// Makes a literal false, and propagates. Answers whether that is a contradiction.
fn refutes(search: &mut ClauseSearch, lit: Lit) -> bool
    requires settled { IsSettled search.old }
    requires sound { IsSound search.old }
    requires range { IsInRange search.old.sizes lit.atom }
    ensures sizes { search.new.sizes ≡ search.old.sizes }
    ensures clauses { search.new.clauses ≡ search.old.clauses }
    ensures refuting { IsTrue result → IsRefuting search.old (opposite lit) }
    ensures assumed { (IsTrue result → ⊥) → IsAssumed search.old search.new (opposite lit) }
{
    match search.assignment().value(lit) {
        Some(true) => true,
        Some(false) => false,
        None => {
            search.assume(lit.negated());
            search.propagate().is_some()
        }
    }
}

// Makes some literals false, one after the other, and propagates. Answers whether that is a contradiction.
fn all_refute(search: &mut ClauseSearch, lits: &[Lit]) -> bool
    requires range { AreInRange search.old.sizes lits.now }
    requires level { search.old.starts ≡ [] }
    ensures sizes { search.new.sizes ≡ search.old.sizes }
    ensures clauses { search.new.clauses ≡ search.old.clauses }
    ensures exact { IsTrue result ↔ FollowsByUnits search.old.clauses lits.now }
{
    if search.propagate().is_some() {
        return true;
    }
    for lit in lits {
        if refutes(search, *lit) {
            return true;
        }
    }
    false
}

// Whether unit propagation shows the clause of these literals from those of the search, which is at level 0.
fn is_implied(search: &mut ClauseSearch, lits: &[Lit]) -> bool
    requires range { AreInRange search.old.sizes lits.now }
    requires level { search.old.starts ≡ [] }
    ensures exact { IsTrue result ↔ FollowsByUnits search.old.clauses lits.now }
    ensures sizes { search.new.sizes ≡ search.old.sizes }
    ensures clauses { search.new.clauses ≡ search.old.clauses }
    ensures level { search.new.starts ≡ [] }
{
    let implied = all_refute(search, lits);
    search.backjump(0);
    implied
}

/// The search by which clauses are shown from all lines before. It is made at the first such clause, and has the
/// clauses of the first `taken` positions.
#[derive(Drop)]
pub struct Units {
    search: Option<ClauseSearch>,
    taken: usize,
}

// A search that was made before, or one with no clause.
fn existing_or_new(
    alloc: Global,
    sizes: Sizes,
    old: Option<ClauseSearch>,
) -> Result<ClauseSearch, AllocError>
    ensures { IfOk result (λ s. MatchOption old (s ≡ no_clauses sizes) (λ made. s ≡ made)) }
{
    match old {
        Some(search) => Ok(search),
        None => Ok(ClauseSearch::empty(alloc, sizes)?),
    }
}

// Adds the clause of a position, if it has one.
fn insert_at(
    alloc: Global,
    search: &mut ClauseSearch,
    kept: &Positions<'_>,
    position: usize,
) -> Result<(), AllocError>
    requires level { search.old.starts ≡ [] }
    requires within { AreWithin search.old.sizes kept.now.clauses }
    ensures clauses { OnOk result (search.new.clauses ≡ search.old.clauses ++ present_at kept.now.clauses position) }
    ensures sizes { OnOk result (search.new.sizes ≡ search.old.sizes) }
    ensures level { OnOk result (search.new.starts ≡ []) }
{
    if !kept.has_clause(position) {
        return Ok(());
    }
    let clause = kept.clause(position);
    search.insert(Clause::from_lits(alloc, clause.lits())?)?;
    Ok(())
}

// Adds the clauses of the positions from one on.
fn insert_from(
    alloc: Global,
    search: &mut ClauseSearch,
    kept: &Positions<'_>,
    from: usize,
) -> Result<(), AllocError>
    requires short { from ≤ length kept.now.clauses }
    requires taken { search.old.clauses ≡ present (take from kept.now.clauses) }
    requires level { search.old.starts ≡ [] }
    requires within { AreWithin search.old.sizes kept.now.clauses }
    ensures clauses { OnOk result (search.new.clauses ≡ present kept.now.clauses) }
    ensures sizes { OnOk result (search.new.sizes ≡ search.old.sizes) }
    ensures level { OnOk result (search.new.starts ≡ []) }
{
    for position in from..kept.count() {
        insert_at(alloc, search, kept, position)?;
    }
    Ok(())
}

impl Units {
    /// No search yet.
    pub fn new() -> Units
        ensures { (sizes : Sizes) (entries : List (Option (List Lit))) → IsBehind sizes entries result }
    {
        Units {
            search: None,
            taken: 0,
        }
    }

    /// Whether unit propagation shows the clause of some literals from those of all positions.
    pub fn are_implied(
        &mut self,
        alloc: Global,
        sizes: Sizes,
        kept: &Positions<'_>,
        lits: &[Lit],
    ) -> Result<bool, AllocError>
        requires behind { IsBehind sizes kept.now.clauses self.old }
        requires range { AreInRange sizes lits.now }
        requires within { AreWithin sizes kept.now.clauses }
        ensures exact { IfOk result (λ b. IsTrue b ↔ FollowsByUnits (present kept.now.clauses) lits.now) }
        ensures behind { OnOk result (IsBehind sizes kept.now.clauses self.new) }
    {
        let mut search = existing_or_new(alloc, sizes, self.search.take())?;
        insert_from(alloc, &mut search, kept, self.taken)?;
        let implied = is_implied(&mut search, lits);
        self.taken = kept.count();
        self.search = Some(search);
        Ok(implied)
    }
}
