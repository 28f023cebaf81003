//! The ground clauses of a condition.

ghost use Rattle.std.specs.Prelude.{◌≡◌, ◌+◌, ◌<◌, ◌≤◌, ◌∷◌, [], ℕ, IfOk, OnOk, length, map};
ghost use Rattle.gh_path.specs.Terms.{next};
ghost use Rattle.gh_symb.specs.Encodings.{plain_kind};
ghost use Rattle.gh_symb.specs.Encoded.{plain_of};
ghost use Rattle.gh_symb.specs.Inside.{under_of, step_of, check_of};
ghost use Rattle.gh_symb.specs.Inside.{AllAreInside, AreStepsInside, IsCheckInside, AreKinds, IsStepInside};
ghost use Rattle.gh_symb.specs.Formulas.{succeeds, successor_formulas, successors_from, version_formulas};
ghost use Rattle.gh_symb.specs.Formulas.{version_after, write_formulas, free_formulas, condition_formulas, problem};
ghost use Rattle.gh_grass.specs.Claims.{ground_formula_of, negation_of};
ghost use Rattle.gh_reduce.specs.Growth.{stated_in, IsCountable, IsWithin};
ghost use Rattle.gh_reduce.specs.Rows.{kinds_of};
ghost use Rattle.gh_reduce.specs.Stated.{all_versions, cell_made, check_fails, none_is_met, step_stated, steps_stated};
ghost use Rattle.gh_reduce.specs.Stated.{TellsProblem};

use crate::clauses::{add_formula, counted};
use crate::parts::{Change, add_part};
use crate::rows::{EachPair, EachTerm, add_each_pair, add_each_term};
use crate::statements::{
    allocated, free, hops, meets, meets_one, meets_whole, next_where_allocated, same_where_free,
};
use gh_base::atom::Term;
use gh_base::ground::Ground;
use gh_base::term::TermKind;
use gh_grass::formula::Formula;
use gh_grass::terms::TermList;
use gh_grass::tested::comparison;
use gh_symb::over_terms::{BoundAssertion, Symbolic, TermCheck, TermStep};
use std::alloc::{AllocError, Global};

// The term `t` is the successor of `x` in a version.
fn add_successor(
    alloc: Global,
    ground: &mut Ground,
    version: u8,
    x: Term,
    t: Term,
) -> Result<(), AllocError>
    requires version { version < ground.old.sizes.versions }
    requires of { x.0 < ground.old.sizes.terms }
    requires term { t.0 < ground.old.sizes.terms }
    ensures { OnOk result (ground.new ≡ stated_in ground.old (succeeds version x.0 t.0)) }
{
    let next = next_where_allocated(alloc, version, x, t)?;
    add_formula(alloc, ground, &next)?;
    let stays = same_where_free(alloc, version, x, t)?;
    Ok(add_formula(alloc, ground, &stays)?)
}

// What a kind says of its term in a version.
fn add_kind(
    alloc: Global,
    ground: &mut Ground,
    version: u8,
    t: Term,
    kind: TermKind,
) -> Result<(), AllocError>
    requires version { version < ground.old.sizes.versions }
    requires of { (i x : ℕ) → plain_kind kind ≡ next i x → x < ground.old.sizes.terms }
    requires term { t.0 < ground.old.sizes.terms }
    ensures { OnOk result (ground.new ≡ stated_in ground.old (successor_formulas version t.0 (plain_kind kind))) }
{
    match kind {
        TermKind::Null => Ok(()),
        TermKind::Value { .. } => Ok(()),
        TermKind::Next { version: since, of } => {
            if since == version {
                add_successor(alloc, ground, version, of, t)?;
            }
            Ok(())
        }
    }
}

// What the successors among the terms say in a version.
fn add_successors(
    alloc: Global,
    ground: &mut Ground,
    version: u8,
    terms: &TermList,
) -> Result<(), AllocError>
    requires version { version < ground.old.sizes.versions }
    requires ready { AreKinds ground.old.sizes.terms (kinds_of terms.now) }
    ensures { OnOk result (ground.new ≡ stated_in ground.old (successors_from version 0 (kinds_of terms.now))) }
{
    for t in 0..terms.count() {
        let Some(kind) = terms.kind(Term(t)) else {
            return Ok(());
        };
        add_kind(alloc, ground, version, Term(t), kind)?;
    }
    Ok(())
}

/// Adds what holds in a version.
pub fn add_version(
    alloc: Global,
    ground: &mut Ground,
    version: u8,
    terms: &TermList,
) -> Result<(), AllocError>
    requires version { version < ground.old.sizes.versions }
    requires ready { AreKinds ground.old.sizes.terms (kinds_of terms.now) }
    ensures stated { OnOk result (ground.new ≡ stated_in ground.old (version_formulas (kinds_of terms.now) version)) }
    ensures few { OnOk result (IsCountable ground.new) }
{
    let null = free(alloc, version, Term(0))?;
    add_formula(alloc, ground, &null)?;
    let leads = EachTerm::Leads {
        version,
        terms: terms.count(),
    };
    add_each_term(alloc, ground, &leads)?;
    add_successors(alloc, ground, version, terms)?;
    counted(ground);
    Ok(())
}

/// Adds what holds in each version, in order.
pub fn add_versions(alloc: Global, ground: &mut Ground, terms: &TermList) -> Result<(), AllocError>
    requires { AreKinds ground.old.sizes.terms (kinds_of terms.now) }
    ensures { OnOk result (ground.new ≡ stated_in ground.old (all_versions ground.old terms.now)) }
{
    for version in 0..ground.versions() {
        add_version(alloc, ground, version, terms)?;
    }
    Ok(())
}

// The cell at `x` gets the content `value`.
fn add_write(
    alloc: Global,
    ground: &mut Ground,
    old: u8,
    x: Term,
    value: Term,
) -> Result<(), AllocError>
    requires version { old + 1 < ground.old.sizes.versions }
    requires few { ground.old.sizes.versions < 256 }
    requires x { x.0 < ground.old.sizes.terms }
    requires value { value.0 < ground.old.sizes.terms }
    ensures { OnOk result (ground.new ≡ stated_in ground.old (write_formulas ground.old.sizes.terms old x value)) }
{
    let new = old + 1;
    let same = EachTerm::Same { old, new };
    add_each_term(alloc, ground, &same)?;
    let leads = hops(new, x, value);
    add_formula(alloc, ground, &leads)?;
    let others = EachPair::Others { old, new, x };
    Ok(add_each_pair(alloc, ground, &others)?)
}

// A cell is made.
fn add_new(
    alloc: Global,
    ground: &mut Ground,
    old: u8,
    location: Term,
    content: Term,
) -> Result<(), AllocError>
    requires version { old + 1 < ground.old.sizes.versions }
    requires few { ground.old.sizes.versions < 256 }
    requires location { location.0 < ground.old.sizes.terms }
    requires content { content.0 < ground.old.sizes.terms }
    ensures { OnOk result (ground.new ≡ stated_in ground.old (cell_made ground.old old location content)) }
{
    let new = old + 1;
    let unused = free(alloc, old, location)?;
    add_formula(alloc, ground, &unused)?;
    let made = EachTerm::Made { old, new, location };
    add_each_term(alloc, ground, &made)?;
    let leads = hops(new, location, content);
    add_formula(alloc, ground, &leads)?;
    let others = EachPair::Others {
        old,
        new,
        x: location,
    };
    Ok(add_each_pair(alloc, ground, &others)?)
}

// The cell at `x` is freed.
fn add_free(alloc: Global, ground: &mut Ground, old: u8, x: Term) -> Result<(), AllocError>
    requires version { old + 1 < ground.old.sizes.versions }
    requires few { ground.old.sizes.versions < 256 }
    requires x { x.0 < ground.old.sizes.terms }
    ensures { OnOk result (ground.new ≡ stated_in ground.old (free_formulas ground.old.sizes.terms old x)) }
{
    let new = old + 1;
    let freed = EachTerm::Freed { old, new, x };
    add_each_term(alloc, ground, &freed)?;
    let others = EachPair::Others { old, new, x };
    Ok(add_each_pair(alloc, ground, &others)?)
}

/// Adds what a step from a version says.
pub fn add_step(
    alloc: Global,
    ground: &mut Ground,
    version: u8,
    step: &TermStep,
    terms: &TermList,
) -> Result<(), AllocError>
    requires few { ground.old.sizes.versions < 256 }
    requires ready { AreKinds ground.old.sizes.terms (kinds_of terms.now) }
    requires inside { IsStepInside ground.old.sizes.terms ground.old.sizes.versions version (step_of step.now) }
    ensures { OnOk result (ground.new ≡ stated_in ground.old (step_stated (kinds_of terms.now) version step.now)) }
{
    match step {
        TermStep::Access { x } => {
            let there = allocated(version, *x);
            Ok(add_formula(alloc, ground, &there)?)
        }
        TermStep::Assume { left, equal, right } => {
            let compared = comparison(alloc, *left, *equal, *right)?;
            Ok(add_formula(alloc, ground, &compared)?)
        }
        TermStep::Same => Ok(()),
        TermStep::Write { x, value } => Ok(add_write(alloc, ground, version, *x, *value)?),
        TermStep::New { location, content } => {
            Ok(add_new(alloc, ground, version, *location, *content)?)
        }
        TermStep::Free { x } => Ok(add_free(alloc, ground, version, *x)?),
        TermStep::Part { before, after } => {
            let change = Change {
                old: version,
                before,
                after: after.as_slice(),
            };
            Ok(add_part(alloc, ground, change, terms)?)
        }
    }
}

/// How many versions a step begins: one where it changes the heap, else none.
pub fn versions_begun(step: &TermStep) -> u8
    ensures after { (i : ℕ) → version_after i (step_of step.now) ≡ i + result }
    ensures few { result ≤ 1 }
{
    match step {
        TermStep::Access { .. } => 0,
        TermStep::Assume { .. } => 0,
        TermStep::Same => 0,
        TermStep::Write { .. } => 1,
        TermStep::New { .. } => 1,
        TermStep::Free { .. } => 1,
        TermStep::Part { .. } => 1,
    }
}

fn add_steps(
    alloc: Global,
    ground: &mut Ground,
    steps: &[TermStep],
    terms: &TermList,
) -> Result<(), AllocError>
    requires few { ground.old.sizes.versions < 256 }
    requires ready { AreKinds ground.old.sizes.terms (kinds_of terms.now) }
    requires some { 1 ≤ ground.old.sizes.versions }
    requires inside { AreStepsInside ground.old.sizes.terms ground.old.sizes.versions 0 (map step_of steps.now) }
    ensures { OnOk result (ground.new ≡ stated_in ground.old (steps_stated (kinds_of terms.now) steps.now)) }
{
    let mut version = 0;
    for step in steps {
        add_step(alloc, ground, version, step, terms)?;
        version += versions_begun(step);
    }
    Ok(())
}

// A formula is false.
fn add_failing(alloc: Global, ground: &mut Ground, formula: Formula) -> Result<(), AllocError>
    requires { IsWithin ground.old.sizes (ground_formula_of formula) }
    ensures { OnOk result (ground.new ≡ stated_in ground.old (negation_of (ground_formula_of formula) ∷ [])) }
{
    let fails = formula.negated(alloc)?;
    Ok(add_formula(alloc, ground, &fails)?)
}

// The whole heap meets none of some alternatives.
fn add_not_whole(
    alloc: Global,
    ground: &mut Ground,
    bounds: &[BoundAssertion],
    terms: &TermList,
) -> Result<(), AllocError>
    requires ready { AreKinds ground.old.sizes.terms (kinds_of terms.now) }
    requires inside { AllAreInside ground.old.sizes.terms ground.old.sizes.versions (map under_of bounds.now) }
    ensures { OnOk result (ground.new ≡ stated_in ground.old (none_is_met (kinds_of terms.now) bounds.now)) }
{
    match bounds {
        [] => Ok(()),
        [only] => Ok(add_failing(alloc, ground, meets_whole(alloc, only, terms)?)?),
        _ => Ok(add_failing(alloc, ground, meets_one(alloc, bounds, terms)?)?),
    }
}

/// Adds that the check fails, in the last version.
pub fn add_check(
    alloc: Global,
    ground: &mut Ground,
    check: &TermCheck,
    terms: &TermList,
) -> Result<(), AllocError>
    requires ready { AreKinds ground.old.sizes.terms (kinds_of terms.now) }
    requires some { 1 ≤ ground.old.sizes.versions }
    requires inside { IsCheckInside ground.old.sizes.terms ground.old.sizes.versions (check_of check.now) }
    ensures { OnOk result (ground.new ≡ stated_in ground.old (check_fails ground.old terms.now check.now)) }
{
    match check {
        TermCheck::Access { x } => {
            let fails = free(alloc, ground.versions() - 1, *x)?;
            Ok(add_formula(alloc, ground, &fails)?)
        }
        TermCheck::Sub(bound) => {
            let fails = meets(alloc, bound, terms)?.negated(alloc)?;
            Ok(add_formula(alloc, ground, &fails)?)
        }
        TermCheck::Whole(bounds) => Ok(add_not_whole(alloc, ground, bounds.as_slice(), terms)?),
    }
}

// What a condition says, where it has as many terms and versions.
fn add_condition(alloc: Global, ground: &mut Ground, symbolic: &Symbolic) -> Result<(), AllocError>
    requires terms { ground.old.sizes.terms ≡ length symbolic.now.terms }
    requires versions { ground.old.sizes.versions ≡ symbolic.now.versions }
    requires few { ground.old.sizes.versions < 256 }
    ensures { OnOk result (ground.new ≡ stated_in ground.old (condition_formulas (plain_of symbolic.now))) }
{
    let terms = symbolic.terms();
    add_versions(alloc, ground, terms)?;
    let start = meets_whole(alloc, symbolic.start(), terms)?;
    add_formula(alloc, ground, &start)?;
    add_steps(alloc, ground, symbolic.steps(), terms)?;
    Ok(add_check(alloc, ground, symbolic.check(), terms)?)
}

/// The clauses of a condition, with the numbers of its terms, versions and definitions.
///
/// More than 4,294,967,294 clauses, or more definitions than 32 bits count, find no memory.
pub fn ground(alloc: Global, symbolic: &Symbolic) -> Result<Ground, AllocError>
    ensures is { IfOk result (λ g. g ≡ problem (plain_of symbolic.now)) }
    ensures told { TellsProblem symbolic.now result }
    ensures few { IfOk result IsCountable }
{
    let terms = symbolic.terms();
    let mut ground = Ground::new(alloc, terms.count(), symbolic.versions());
    add_condition(alloc, &mut ground, symbolic)?;
    counted(&ground);
    Ok(ground)
}
