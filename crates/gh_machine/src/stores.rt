//! Stores of procedures that begin, and values that are given.

ghost use Rattle.std.specs.Prelude.{◌≡◌, ◌≢◌, ◌↔◌, ◌++◌, IfOk, IsTrue, None, OnOk, OnSome, length, AllPairs, Contains};
ghost use Rattle.std.specs.FinMap as finite;
ghost use Rattle.gh_ast.specs.Plain.{procedure_of, statements_view};
ghost use Rattle.gh_ast.specs.Programs.{names, variable_names, body_statements};
ghost use Rattle.gh_ast.specs.Occurrences.{locals_of};
ghost use Rattle.gh_assert.specs.Stores.{listed_names, store_of};
ghost use Rattle.gh_assert.specs.Values.{Gets};
ghost use Rattle.gh_machine.specs.Configs.{GetsFrom, starts_of, beside, beginning};

use crate::config::Activation;
use crate::rest::Rest;
use gh_assert::heap::Heap;
use gh_assert::store::Store;
use gh_assert::values::value_of;
use gh_ast::{Occ, Procedure, Stmt};
use std::alloc::{AllocError, Global};

/// Adds variables with their values.
fn list(
    alloc: Global,
    store: &mut Store,
    variables: &[Occ],
    values: &[u32],
) -> Result<(), AllocError>
    requires count { length variables.now ≡ length values.now }
    requires distinct { AllPairs (λ x y. x ≢ y) (listed_names store.old ++ names variables.now) }
    ensures { OnOk result (store.new ≡ store.old ++ beside (names variables.now) values.now) }
{
    for (i, variable) in variables.iter().enumerate() {
        store.add(alloc, &variable.name, values[i])?;
    }
    Ok(())
}

/// Gives variables values, all at once.
pub fn assign(store: &mut Store, targets: &[Occ], values: &[u32])
    requires count { length targets.now ≡ length values.now }
    requires distinct { AllPairs (λ x y. x ≢ y) (names targets.now) }
    requires listed { (y : _) → Contains (names targets.now) y → Contains (listed_names store.old) y }
    ensures gets { Gets (store_of store.old) (names targets.now) values.now (store_of store.new) }
    ensures names { listed_names store.new ≡ listed_names store.old }
{
    for (i, target) in targets.iter().enumerate() {
        store.set(&target.name, values[i]);
    }
}

/// Gives variables the values of variables of another store, all at once.
pub fn assign_from(store: &mut Store, targets: &[Occ], from: &Store, results: &[Occ])
    requires count { length targets.now ≡ length results.now }
    requires distinct { AllPairs (λ x y. x ≢ y) (names targets.now) }
    requires listed { (y : _) → Contains (names targets.now) y → Contains (listed_names store.old) y }
    ensures gets { GetsFrom store.old targets.now from.now results.now store.new }
    ensures names { listed_names store.new ≡ listed_names store.old }
{
    for (i, target) in targets.iter().enumerate() {
        store.set(&target.name, value_of(from, &results[i]));
    }
}

fn locals(procedure: &Procedure) -> &[Occ]
    ensures { result.now ≡ locals_of (procedure_of procedure.now) }
{
    match &procedure.body {
        Some(body) => body.locals.as_slice(),
        None => &[],
    }
}

fn statements(procedure: &Procedure) -> &[Stmt]
    ensures { statements_view result.now ≡ body_statements (procedure_of procedure.now) }
{
    match &procedure.body {
        Some(body) => body.block.statements.as_slice(),
        None => &[],
    }
}

/// How many results and locals a procedure has.
pub fn count_starts(procedure: &Procedure) -> usize
    ensures { result ≡ length (starts_of (procedure_of procedure.now)) }
{
    procedure.results.len() + locals(procedure).len()
}

/// A procedure at its start, with the values of its parameters, and those of its results and locals.
pub fn enter<'p>(
    alloc: Global,
    procedure: &'p Procedure,
    arguments: &[u32],
    starts: &[u32],
) -> Result<Activation<'p>, AllocError>
    requires distinct { AllPairs (λ x y. x ≢ y) (variable_names (procedure_of procedure.now)) }
    requires arguments { length arguments.now ≡ length procedure.now.parameters.items }
    requires starts { length starts.now ≡ length (starts_of (procedure_of procedure.now)) }
    ensures procedure { IfOk result (λ a. a.procedure.now ≡ procedure.now) }
    ensures store { IfOk result (λ a. a.store ≡ beginning (procedure_of procedure.now) arguments.now starts.now) }
    ensures rest { IfOk result (λ a. statements_view a.rest ≡ body_statements (procedure_of procedure.now)) }
{
    let count = procedure.results.len();
    let mut store = Store::new(alloc);
    list(
        alloc,
        &mut store,
        procedure.parameters.as_slice(),
        arguments,
    )?;
    list(
        alloc,
        &mut store,
        procedure.results.as_slice(),
        &starts[..count],
    )?;
    list(alloc, &mut store, locals(procedure), &starts[count..])?;
    let mut rest = Rest::new(alloc);
    rest.push(statements(procedure))?;
    Ok(Activation {
        procedure,
        store,
        rest,
    })
}

/// Whether a new cell may stand at a place.
pub fn is_free(heap: &Heap, place: u32) -> bool
    ensures { IsTrue result ↔ ((place ≢ 0) × (finite.get heap.now place ≡ None)) }
{
    place != 0 && heap.get(place).is_none()
}

/// The content of a place, if it is allocated.
pub fn content(heap: &Heap, at: u32) -> Option<u32>
    ensures content { result ≡ finite.get heap.now at }
    ensures not_null { OnSome result (at ≢ 0) }
{
    let _cells = heap.cells();
    heap.get(at)
}
