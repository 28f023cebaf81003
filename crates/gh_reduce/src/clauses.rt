//! The clauses of a formula: each conjunction, disjunction and equivalence in it is defined anew.

ghost use Rattle.std.specs.Prelude.{◌≡◌, ◌∷◌, [], IfOk, OnErr, OnOk, map};
ghost use Rattle.gh_base.specs.Atoms.{opposite, IsInRange, AreInRange};
ghost use Rattle.gh_grass.specs.Claims.{ground_formula_of, ground_formula_list, ground_formulas_view};
ghost use Rattle.gh_grass.specs.Clauses.{defined, made, all_made, conjunction_clauses, disjunction_clauses};
ghost use Rattle.gh_grass.specs.Clauses.{equivalence_clauses};
ghost use Rattle.gh_reduce.specs.Growth.{defined_in, all_defined_in, stated_in, IsCountable, IsWithin, AreWithin};
ghost use Rattle.gh_reduce.specs.Growth.{with_clauses, with_defined, with_definition, IsGrown};

use gh_base::atom::{Atom, Lit};
use gh_base::clause::Clause;
use gh_base::ground::Ground;
use gh_grass::formula::Formula;
use std::alloc::{AllocError, Global};

/// There are no more definitions and clauses than are counted.
pub(crate) fn counted(ground: &Ground)
    ensures { IsCountable ground.now }
{
    let _defs = ground.defs();
    let _count = ground.count();
}

// The next definition, unless all numbers are taken.
fn define(ground: &mut Ground) -> Result<Lit, AllocError>
    ensures number { IfOk result (λ l. l ≡ defined ground.old.sizes.defs) }
    ensures counted { OnOk result (ground.new ≡ with_definition ground.old) }
    ensures grown { OnErr result (IsGrown ground.old ground.new) }
{
    if ground.defs() == u32::MAX {
        return Err(AllocError);
    }
    let number = ground.define();
    Ok(Lit {
        atom: Atom::Def { number },
        positive: true,
    })
}

// Adds a clause last, unless there are as many as may be.
fn add(ground: &mut Ground, clause: Clause) -> Result<(), AllocError>
    requires { AreInRange ground.old.sizes clause }
    ensures added { OnOk result (ground.new ≡ with_clauses ground.old (clause ∷ [])) }
    ensures grown { OnErr result (IsGrown ground.old ground.new) }
{
    if ground.count() == 4_294_967_294 {
        return Err(AllocError);
    }
    ground.push(clause)?;
    Ok(())
}

// For each of some literals the clause of a first literal and that one.
fn add_pairs(alloc: Global, ground: &mut Ground, first: Lit, lits: &[Lit]) -> Result<(), AllocError>
    requires first { IsInRange ground.old.sizes first.atom }
    requires others { AreInRange ground.old.sizes lits.now }
    ensures added { OnOk result (ground.new ≡ with_clauses ground.old (map (λ l. first ∷ l ∷ []) lits.now)) }
    ensures grown { OnErr result (IsGrown ground.old ground.new) }
{
    for lit in lits {
        add(ground, Clause::from_array(alloc, [first, *lit]))?;
    }
    Ok(())
}

// The clause of a first literal and the others.
fn add_long(alloc: Global, ground: &mut Ground, first: Lit, lits: &[Lit]) -> Result<(), AllocError>
    requires first { IsInRange ground.old.sizes first.atom }
    requires others { AreInRange ground.old.sizes lits.now }
    ensures added { OnOk result (ground.new ≡ with_clauses ground.old ((first ∷ lits.now) ∷ [])) }
    ensures grown { OnErr result (IsGrown ground.old ground.new) }
{
    let mut clause = Clause::new(alloc);
    clause.push(first)?;
    for lit in lits {
        clause.push(*lit)?;
    }
    Ok(add(ground, clause)?)
}

// The opposites of some literals.
fn opposites(alloc: Global, lits: &[Lit]) -> Result<Vec<Lit>, AllocError>
    ensures { IfOk result (λ ls. ls.items ≡ map opposite lits.now) }
{
    let mut opposites = Vec::new(alloc);
    for lit in lits {
        opposites.push(lit.negated())?;
    }
    Ok(opposites)
}

// A definition that is true exactly where all literals are.
fn conjunction(alloc: Global, ground: &mut Ground, lits: &[Lit]) -> Result<Lit, AllocError>
    requires { AreInRange ground.old.sizes lits.now }
    ensures number { IfOk result (λ l. l ≡ defined ground.old.sizes.defs) }
    ensures state { OnOk result (ground.new ≡ with_defined ground.old (λ k. conjunction_clauses k lits.now)) }
    ensures grown { OnErr result (IsGrown ground.old ground.new) }
{
    let defined = define(ground)?;
    add_pairs(alloc, ground, defined.negated(), lits)?;
    let opposites = opposites(alloc, lits)?;
    add_long(alloc, ground, defined, opposites.as_slice())?;
    Ok(defined)
}

// A definition that is true exactly where one of the literals is.
fn disjunction(alloc: Global, ground: &mut Ground, lits: &[Lit]) -> Result<Lit, AllocError>
    requires { AreInRange ground.old.sizes lits.now }
    ensures number { IfOk result (λ l. l ≡ defined ground.old.sizes.defs) }
    ensures state { OnOk result (ground.new ≡ with_defined ground.old (λ k. disjunction_clauses k lits.now)) }
    ensures grown { OnErr result (IsGrown ground.old ground.new) }
{
    let defined = define(ground)?;
    let opposites = opposites(alloc, lits)?;
    add_pairs(alloc, ground, defined, opposites.as_slice())?;
    add_long(alloc, ground, defined.negated(), lits)?;
    Ok(defined)
}

// A definition that is true exactly where both literals are, or neither is.
fn equivalence(alloc: Global, ground: &mut Ground, left: Lit, right: Lit) -> Result<Lit, AllocError>
    requires left { IsInRange ground.old.sizes left.atom }
    requires right { IsInRange ground.old.sizes right.atom }
    ensures number { IfOk result (λ l. l ≡ defined ground.old.sizes.defs) }
    ensures state { OnOk result (ground.new ≡ with_defined ground.old (λ k. equivalence_clauses k left right)) }
    ensures grown { OnErr result (IsGrown ground.old ground.new) }
{
    let defined = define(ground)?;
    let fails = defined.negated();
    let (not_left, not_right) = (left.negated(), right.negated());
    add(ground, Clause::from_array(alloc, [fails, not_left, right]))?;
    add(ground, Clause::from_array(alloc, [fails, left, not_right]))?;
    add(ground, Clause::from_array(alloc, [defined, left, right]))?;
    add(
        ground,
        Clause::from_array(alloc, [defined, not_left, not_right]),
    )?;
    Ok(defined)
}

// Defines a formula, and gives its literal.
#[cycle(literal)]
fn literal(alloc: Global, ground: &mut Ground, formula: &Formula) -> Result<Lit, AllocError>
    requires { IsWithin ground.old.sizes (ground_formula_of formula.now) }
    ensures literal { IfOk result (λ l. l ≡ (made (ground_formula_of formula.now) ground.old.sizes.defs).lit) }
    ensures state { OnOk result (ground.new ≡ defined_in ground.old (ground_formula_of formula.now)) }
    ensures grown { OnErr result (IsGrown ground.old ground.new) }
{
    match formula {
        Formula::Atom(atom) => Ok(Lit {
            atom: *atom,
            positive: true,
        }),
        Formula::Not(inner) => Ok(literal(alloc, ground, inner)?.negated()),
        Formula::And(members) => {
            let lits = literals(alloc, ground, members.as_slice())?;
            Ok(conjunction(alloc, ground, lits.as_slice())?)
        }
        Formula::Or(members) => {
            let lits = literals(alloc, ground, members.as_slice())?;
            Ok(disjunction(alloc, ground, lits.as_slice())?)
        }
        Formula::Iff(left, right) => {
            let left = literal(alloc, ground, left)?;
            let right = literal(alloc, ground, right)?;
            Ok(equivalence(alloc, ground, left, right)?)
        }
    }
}

#[cycle(literal)]
fn literals(
    alloc: Global,
    ground: &mut Ground,
    formulas: &[Formula],
) -> Result<Vec<Lit>, AllocError>
    requires { AreWithin ground.old.sizes (ground_formulas_view formulas.now) }
    ensures literals { IfOk result (λ ls.
        ls.items ≡ (all_made (ground_formulas_view formulas.now) ground.old.sizes.defs).lits) }
    ensures state { OnOk result (ground.new ≡ all_defined_in ground.old (ground_formulas_view formulas.now)) }
    ensures grown { OnErr result (IsGrown ground.old ground.new) }
{
    let mut lits = Vec::new(alloc);
    for formula in formulas {
        lits.push(literal(alloc, ground, formula)?)?;
    }
    Ok(lits)
}

/// States a formula: its definitions, and the clause of its literal. A clause or a definition too many counts
/// as out of memory.
pub fn add_formula(alloc: Global, ground: &mut Ground, formula: &Formula) -> Result<(), AllocError>
    requires { IsWithin ground.old.sizes (ground_formula_of formula.now) }
    ensures stated { OnOk result (ground.new ≡ stated_in ground.old (ground_formula_of formula.now ∷ [])) }
    ensures grown { OnErr result (IsGrown ground.old ground.new) }
    ensures few { OnOk result (IsCountable ground.new) }
{
    let lit = literal(alloc, ground, formula)?;
    add(ground, Clause::from_array(alloc, [lit]))?;
    counted(ground);
    Ok(())
}

/// States some formulas, in order.
pub fn add_formulas(
    alloc: Global,
    ground: &mut Ground,
    formulas: &[Formula],
) -> Result<(), AllocError>
    requires { AreWithin ground.old.sizes (ground_formulas_view formulas.now) }
    ensures stated { OnOk result (ground.new ≡ stated_in ground.old (ground_formula_list formulas.now)) }
    ensures grown { OnErr result (IsGrown ground.old ground.new) }
    ensures few { OnOk result (IsCountable ground.new) }
{
    for formula in formulas {
        add_formula(alloc, ground, formula)?;
    }
    counted(ground);
    Ok(())
}
