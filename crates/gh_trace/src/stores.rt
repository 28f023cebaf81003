//! The values of variables before and after a step.

ghost use Rattle.std.specs.Prelude.{◌≡◌, ◌↔◌, ◌++◌, List, map, length, IfOk, IfNone, IfSome, IsTrue};
ghost use Rattle.gh_ast.specs.Plain.{procedure_of};
ghost use Rattle.gh_ast.specs.Programs.{Name, names, parameters_of, results_of, variable_names};
ghost use Rattle.gh_ast.specs.Occurrences.{locals_of};
ghost use Rattle.gh_assert.specs.Stores.{store_of, listed_names, AreDistinct};
ghost use Rattle.gh_assert.specs.Values.{Gets};
ghost use Rattle.gh_trace.specs.Kept.{state_of};
ghost use Rattle.gh_trace.specs.Settings.{HasDistinctNames, IsEnteredOr};
ghost use Rattle.gh_trace.specs.Targets.{KeepsOthers, entries_of};

use crate::state::State;
use crate::targets::{Targets, is_same};
use gh_assert::store::{Entry, Store};
use gh_assert::values::{value_of, values_of};
use gh_ast::{Expr, Occ, Procedure};
use gh_base::name::Name;
use std::alloc::{AllocError, Global};

// The entries after those of some names, which stand first; none where they don't.
fn after_names<'e>(entries: &'e [Entry], occurrences: &[Occ]) -> Option<&'e [Entry]>
    ensures some { IfSome result (λ rest.
        listed_names entries.now ≡ names occurrences.now ++ listed_names rest.now) }
    ensures none { IfNone result ((ns : List Name) →
        listed_names entries.now ≡ names occurrences.now ++ ns → ⊥) }
{
    let mut rest = entries;
    for occurrence in occurrences {
        let (entry, others) = rest.split_first()?;
        if !is_same(&entry.name, &occurrence.name) {
            return None;
        }
        rest = others;
    }
    Some(rest)
}

// The locals of a procedure.
fn locals(procedure: &Procedure) -> &[Occ]
    ensures { result.now ≡ locals_of (procedure_of procedure.now) }
{
    match &procedure.body {
        Some(body) => body.locals.as_slice(),
        None => &[],
    }
}

/// Whether a store lists the variables of a procedure, in their order.
pub(crate) fn is_over(store: &Store, procedure: &Procedure) -> bool
    ensures { IsTrue result ↔ (listed_names store.now ≡ variable_names (procedure_of procedure.now)) }
{
    let Some(rest) = after_names(store.entries(), procedure.parameters.as_slice()) else {
        return false;
    };
    let Some(rest) = after_names(rest, procedure.results.as_slice()) else {
        return false;
    };
    match after_names(rest, locals(procedure)) {
        Some(rest) => rest.is_empty(),
        None => false,
    }
}

/// The value of a name; 0 where it isn't listed.
pub(crate) fn value(store: &Store, name: &Name) -> u32
    ensures { result ≡ store_of store.now name.now }
{
    store.get(name).unwrap_or(0)
}

/// Whether all variables but the targets keep their values.
pub(crate) fn keeps(before: &Store, after: &Store, targets: Targets<'_>) -> bool
    requires { listed_names after.now ≡ listed_names before.now }
    ensures { IsTrue result ↔ KeepsOthers targets.entry before.now after.now }
{
    for entry in before.entries() {
        if value(after, &entry.name) != entry.value && !targets.has(&entry.name) {
            return false;
        }
    }
    true
}

/// The values of some variables.
pub(crate) fn values(
    alloc: Global,
    store: &Store,
    occurrences: &[Occ],
) -> Result<Vec<u32>, AllocError>
    ensures { IfOk result (λ vs. vs.items ≡ map (store_of store.now) (names occurrences.now)) }
{
    let mut values = Vec::new(alloc);
    for occurrence in occurrences {
        values.push(value_of(store, occurrence))?;
    }
    Ok(values)
}

/// Whether some variables get the values, all at once, and all others keep theirs.
pub(crate) fn gets(
    alloc: Global,
    before: &Store,
    after: &Store,
    targets: &[Occ],
    given: &[u32],
) -> Result<bool, AllocError>
    requires { listed_names after.now ≡ listed_names before.now }
    ensures { IfOk result (λ b.
        IsTrue b ↔ Gets (store_of before.now) (names targets.now) given.now (store_of after.now)) }
{
    let got = values(alloc, after, targets)?;
    Ok(got.as_slice() == given && keeps(before, after, Targets::Names(targets)))
}

/// Adds variables with values, as many as there are of both.
pub(crate) fn add_all(
    alloc: Global,
    store: &mut Store,
    occurrences: &[Occ],
    values: &[u32],
) -> Result<(), AllocError>
    requires distinct { AreDistinct (store.old ++ entries_of (names occurrences.now) values.now) }
    requires count { length values.now ≡ length occurrences.now }
    ensures { IfOk result (λ _. store.new ≡ store.old ++ entries_of (names occurrences.now) values.now) }
{
    for (i, occurrence) in occurrences.iter().enumerate() {
        store.add(alloc, &occurrence.name, values[i])?;
    }
    Ok(())
}

// The store of a callee whose parameters have these values.
fn with_parameters(alloc: Global, callee: &Procedure, given: &[u32]) -> Result<Store, AllocError>
    requires distinct { HasDistinctNames (procedure_of callee.now) }
    requires count { length given.now ≡ length (parameters_of (procedure_of callee.now)) }
    ensures { IfOk result (λ s. map (store_of s) (parameters_of (procedure_of callee.now)) ≡ given.now) }
{
    let mut store = Store::new(alloc);
    add_all(alloc, &mut store, callee.parameters.as_slice(), given)?;
    Ok(store)
}

/// The store of a callee whose parameters have the values of some arguments; none where an argument reads a
/// place that isn't allocated, or there are more or fewer of them than parameters.
pub fn entered(
    alloc: Global,
    callee: &Procedure,
    arguments: &[Expr],
    state: &State,
) -> Result<Option<Store>, AllocError>
    requires { HasDistinctNames (procedure_of callee.now) }
    ensures { IfOk result (IsEnteredOr (procedure_of callee.now) arguments.now (state_of state.now)) }
{
    let Some(given) = values_of(alloc, &state.store, &state.heap, arguments)? else {
        return Ok(None);
    };
    if given.as_slice().len() != callee.parameters.as_slice().len() {
        return Ok(None);
    }
    let inside = with_parameters(alloc, callee, given.as_slice())?;
    Ok(Some(inside))
}

/// The store of a callee whose parameters and results have these values.
pub(crate) fn inside(
    alloc: Global,
    callee: &Procedure,
    given: &[u32],
    results: &[u32],
) -> Result<Store, AllocError>
    requires distinct { HasDistinctNames (procedure_of callee.now) }
    requires given { length given.now ≡ length (parameters_of (procedure_of callee.now)) }
    requires results { length results.now ≡ length (results_of (procedure_of callee.now)) }
    ensures given { IfOk result (λ s. map (store_of s) (parameters_of (procedure_of callee.now)) ≡ given.now) }
    ensures results { IfOk result (λ s. map (store_of s) (results_of (procedure_of callee.now)) ≡ results.now) }
{
    let mut store = Store::new(alloc);
    add_all(alloc, &mut store, callee.parameters.as_slice(), given)?;
    add_all(alloc, &mut store, callee.results.as_slice(), results)?;
    Ok(store)
}
