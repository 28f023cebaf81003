//! Units at the root level, literals that stand from line to line, and lines that are shown by them and by hints, or refused by literals that
//! make them false and to which unit propagation adds none.

ghost use Rattle.std.specs.Prelude.{◌≡◌, ◌↔◌, ◌++◌, [], List, map, All, Contains, IfOk, OnOk, IsTrue, Option};
ghost use Rattle.gh_base.specs.declared.atom.Lit.{Lit};
ghost use Rattle.gh_base.specs.declared.sizes.Sizes.{Sizes};
ghost use Rattle.gh_base.specs.Atoms.{opposite, AreInRange};
ghost use Rattle.gh_check.specs.Kept.{present, AreWithin};
ghost use Rattle.gh_check.specs.Truths.{IsConsistent, IsMetBy};
ghost use Rattle.gh_check.specs.RootUnits.{AreRootUnits, AreRootUnitsOf, IsAtRest, AreAtRest, IsClosedBy, IsJudged};
ghost use Rattle.gh_check.specs.RootUnits.{KeepsGiven, RestsAt, IsRefutedAt, KeepsRootUnits, IsConfirmedBy};
ghost use Rattle.gh_check.specs.RootUnits.{IsRefusedBy};

use crate::hints::{Layers, Look, Truths};
use crate::positions::Positions;
use crate::search::Search;
use gh_base::atom::Lit;
use gh_base::sizes::Sizes;
use std::alloc::{AllocError, Global};

// Makes literals false, where none is true but those that stand. Answers whether one of them is true.
fn falsify(fixed: &Truths, above: &mut Truths, lits: &[Lit]) -> Result<bool, AllocError>
    requires none { above.old.lits ≡ [] }
    requires sizes { above.old.sizes ≡ fixed.now.sizes }
    requires range { AreInRange fixed.now.sizes lits.now }
    ensures sizes { OnOk result (above.new.sizes ≡ above.old.sizes) }
    ensures clash { IfOk result (λ b. IsTrue b ↔ IsMetBy fixed.now.lits lits.now) }
    ensures set { IfOk result (λ b. (IsTrue b → ⊥) → above.new.lits ≡ map opposite lits.now) }
{
    for lit in lits {
        let negated = lit.negated();
        if Layers::both(fixed, above).is_false(negated) {
            return Ok(true);
        }
        above.add(negated)?;
    }
    Ok(false)
}

// Takes hints in order. Answers whether the clause of one of them comes to be false.
fn walk_hints(
    fixed: &Truths,
    above: &mut Truths,
    kept: &Positions<'_>,
    hints: &[u32],
) -> Result<bool, AllocError>
    requires sizes { above.old.sizes ≡ fixed.now.sizes }
    requires within { AreWithin fixed.now.sizes kept.now.clauses }
    ensures shown { IfOk result (λ b. IsTrue b ↔ IsRefutedAt kept.now hints.now (fixed.now.lits ++ above.old.lits)) }
    ensures sizes { OnOk result (above.new.sizes ≡ above.old.sizes) }
{
    for hint in hints {
        match Layers::both(fixed, above).look_at(kept, *hint) {
            Look::False => return Ok(true),
            Look::Unit(lit) => above.add(lit)?,
            Look::Open => return Ok(false),
        }
    }
    Ok(false)
}

// Whether hints that stand, taken in order, show the clause of some literals where what stands is given.
fn are_confirmed(
    fixed: &Truths,
    above: &mut Truths,
    kept: &Positions<'_>,
    lits: &[Lit],
    hints: &[u32],
) -> Result<bool, AllocError>
    requires sizes { above.old.sizes ≡ fixed.now.sizes }
    requires range { AreInRange fixed.now.sizes lits.now }
    requires within { AreWithin fixed.now.sizes kept.now.clauses }
    ensures exact { IfOk result (λ b. IsTrue b ↔ IsConfirmedBy kept.now hints.now fixed.now.lits lits.now) }
    ensures sizes { OnOk result (above.new.sizes ≡ above.old.sizes) }
{
    if !kept.are_standing(hints) {
        return Ok(false);
    }
    above.clear();
    if falsify(fixed, above, lits)? {
        return Ok(true);
    }
    Ok(walk_hints(fixed, above, kept, hints)?)
}

// Whether a clause isn't false and forces no literal that isn't true.
fn rests(told: &Layers<'_>, clause: &[Lit]) -> bool
    requires { AreInRange told.now.sizes clause.now }
    ensures { IsTrue result ↔ IsAtRest told.now.lits clause.now }
{
    match told.look(clause) {
        Look::False => false,
        Look::Unit(lit) => told.is_false(lit.negated()),
        Look::Open => true,
    }
}

// Whether the clause at a position, if there is one, isn't false and forces no literal that isn't true.
fn rests_at(told: &Layers<'_>, kept: &Positions<'_>, position: usize) -> bool
    requires { AreWithin told.now.sizes kept.now.clauses }
    ensures { IsTrue result ↔ RestsAt told.now.lits kept.now.clauses position }
{
    if !kept.has_clause(position) {
        return true;
    }
    let clause = kept.clause(position);
    rests(told, clause.lits())
}

// Whether no clause is false or forces a literal that isn't true.
fn all_rest(told: &Layers<'_>, kept: &Positions<'_>) -> bool
    requires { AreWithin told.now.sizes kept.now.clauses }
    ensures { IsTrue result ↔ AreAtRest told.now.lits kept.now.clauses }
{
    for position in 0..kept.count() {
        if !rests_at(told, kept, position) {
            return false;
        }
    }
    true
}

// Whether no literal is false.
fn none_false(told: &Layers<'_>, lits: &[Lit]) -> bool
    requires { AreInRange told.now.sizes lits.now }
    ensures { IsTrue result ↔ All (λ l. Contains told.now.lits (opposite l) → ⊥) lits.now }
{
    for lit in lits {
        if told.is_false(*lit) {
            return false;
        }
    }
    true
}

// Whether no literal is true and false.
fn are_apart(fixed: &Truths, above: &Truths) -> bool
    requires { above.now.sizes ≡ fixed.now.sizes }
    ensures { IsTrue result ↔ IsConsistent (fixed.now.lits ++ above.now.lits) }
{
    let told = Layers::both(fixed, above);
    if !none_false(&told, fixed.lits()) {
        return false;
    }
    none_false(&told, above.lits())
}

// Whether no literal is true and false, and unit propagation adds none.
fn is_closed(fixed: &Truths, above: &Truths, kept: &Positions<'_>) -> bool
    requires sizes { above.now.sizes ≡ fixed.now.sizes }
    requires within { AreWithin fixed.now.sizes kept.now.clauses }
    ensures { IsTrue result ↔ IsClosedBy kept.now.clauses (fixed.now.lits ++ above.now.lits) }
{
    if !are_apart(fixed, above) {
        return false;
    }
    all_rest(&Layers::both(fixed, above), kept)
}

// Whether literals are false by truths to which unit propagation adds none, and which are no contradiction.
fn are_refused(fixed: &Truths, above: &Truths, kept: &Positions<'_>, lits: &[Lit]) -> bool
    requires sizes { above.now.sizes ≡ fixed.now.sizes }
    requires range { AreInRange fixed.now.sizes lits.now }
    requires within { AreWithin fixed.now.sizes kept.now.clauses }
    ensures { IsTrue result ↔ IsRefusedBy kept.now.clauses (fixed.now.lits ++ above.now.lits) lits.now }
{
    match Layers::both(fixed, above).find_open(lits) {
        None => is_closed(fixed, above, kept),
        Some(_one) => false,
    }
}

// Adds the literal that the clause at a position forces, if it does.
fn fix(fixed: &mut Truths, kept: &Positions<'_>, position: u32) -> Result<(), AllocError>
    requires within { AreWithin fixed.old.sizes kept.now.clauses }
    ensures sizes { OnOk result (fixed.new.sizes ≡ fixed.old.sizes) }
    ensures given { OnOk result (KeepsGiven kept.now.clauses fixed.old.lits fixed.new.lits) }
{
    if !kept.stands(position) {
        return Ok(());
    }
    match fixed.look_at(kept, position) {
        Look::Unit(lit) => {
            fixed.add(lit)?;
            Ok(())
        }
        _ => Ok(()),
    }
}

// Adds the literals that the clauses at some positions force, in order.
fn fix_all(fixed: &mut Truths, kept: &Positions<'_>, positions: &[u32]) -> Result<(), AllocError>
    requires within { AreWithin fixed.old.sizes kept.now.clauses }
    ensures sizes { OnOk result (fixed.new.sizes ≡ fixed.old.sizes) }
    ensures given { OnOk result (KeepsGiven kept.now.clauses fixed.old.lits fixed.new.lits) }
{
    for position in positions {
        fix(fixed, kept, *position)?;
    }
    Ok(())
}

/// The literals that propagation gives from the clauses alone, those that it gives besides for a line, and the search
/// for the hints by which it does.
#[derive(Drop)]
pub struct RootUnits {
    fixed: Truths,
    above: Truths,
    search: Search,
}

impl RootUnits {
    /// Nothing stands.
    pub fn new(alloc: Global, sizes: Sizes) -> Result<RootUnits, AllocError>
        ensures { IfOk result (λ s. (entries : List (Option (List Lit))) → AreRootUnits sizes entries s) }
    {
        let fixed = Truths::new(alloc, sizes)?;
        let above = Truths::new(alloc, sizes)?;
        Ok(RootUnits {
            fixed,
            above,
            search: Search::new(alloc),
        })
    }

    /// Whether unit propagation shows the clause of some literals, if that is found.
    pub fn judge(
        &mut self,
        sizes: Sizes,
        kept: &Positions<'_>,
        lits: &[Lit],
    ) -> Result<Option<bool>, AllocError>
        requires root_units { AreRootUnits sizes kept.now.clauses self.old }
        requires range { AreInRange sizes lits.now }
        requires within { AreWithin sizes kept.now.clauses }
        ensures judged { IfOk result (IsJudged (present kept.now.clauses) lits.now) }
        ensures root_units { OnOk result (AreRootUnits sizes kept.now.clauses self.new) }
    {
        self.search.settle(sizes, kept)?;
        fix_all(&mut self.fixed, kept, self.search.hints())?;
        self.search.find(sizes, lits)?;
        let hints = self.search.hints();
        if are_confirmed(&self.fixed, &mut self.above, kept, lits, hints)? {
            return Ok(Some(true));
        }
        if are_refused(&self.fixed, &self.above, kept, lits) {
            return Ok(Some(false));
        }
        Ok(None)
    }
}

// What stands; nothing where that wasn't made.
fn existing_or_new(
    alloc: Global,
    sizes: Sizes,
    root_units: Option<RootUnits>,
) -> Result<RootUnits, AllocError>
    ensures { IfOk result (KeepsRootUnits sizes root_units) }
{
    match root_units {
        Some(root_units) => Ok(root_units),
        None => Ok(RootUnits::new(alloc, sizes)?),
    }
}

/// Whether unit propagation shows the clause of some literals, if that is found. What stands is made at the first such
/// clause.
pub fn judgement(
    alloc: Global,
    root_units: &mut Option<RootUnits>,
    sizes: Sizes,
    kept: &Positions<'_>,
    lits: &[Lit],
) -> Result<Option<bool>, AllocError>
    requires root_units { AreRootUnitsOf sizes kept.now.clauses root_units.old }
    requires range { AreInRange sizes lits.now }
    requires within { AreWithin sizes kept.now.clauses }
    ensures judged { IfOk result (IsJudged (present kept.now.clauses) lits.now) }
    ensures root_units { OnOk result (AreRootUnitsOf sizes kept.now.clauses root_units.new) }
{
    let mut found = existing_or_new(alloc, sizes, root_units.take())?;
    let answer = found.judge(sizes, kept, lits)?;
    *root_units = Some(found);
    Ok(answer)
}
