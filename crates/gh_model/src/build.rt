//! Heaps and traces of structures.

ghost use Rattle.std.specs.Prelude.{◌≡◌, ◌≢◌, ◌<◌, ◌++◌, IfOk, OnOk, OnErr, AllPairs, length, drop};
ghost use Rattle.gh_base.specs.Structures.{interpretation_of};
ghost use Rattle.gh_ast.specs.Plain.{procedure_of, program_of};
ghost use Rattle.gh_path.specs.Kept.{IsOne, HoldsFor};
ghost use Rattle.gh_symb.specs.Encoded.{IsSymbolic};
ghost use Rattle.gh_symb.specs.Formulas.{version_after};
ghost use Rattle.gh_symb.specs.Inside.{step_of};
ghost use Rattle.gh_ast.specs.Programs.{names, variable_names};
ghost use Rattle.gh_ast.specs.Occurrences.{locals_of};
ghost use Rattle.gh_assert.specs.Stores.{listed_names};
ghost use Rattle.gh_model.specs.BuiltTraces.{stands_at, content_at, heap_in};
ghost use Rattle.gh_model.specs.KeptTraces.{store_in, values_of, state_at, states_of, after_first};
ghost use Rattle.gh_model.specs.KeptTraces.{AreBelow, HasAll, IsTraceOf};

use gh_assert::heap::Heap;
use gh_assert::store::Store;
use gh_ast::typed::Typed;
use gh_ast::{Occ, Procedure};
use gh_base::atom::{Atom, Term};
use gh_base::name::Name;
use gh_base::structure::Structure;
use gh_grass::binding::Binding;
use gh_path::condition::Condition;
use gh_symb::over_terms::{Symbolic, TermStep};
use gh_trace::state::{State, Trace};
use std::alloc::{AllocError, Global};

// Whether a cell stands at a term in a version.
fn stands(structure: &Structure, version: u8, x: Term) -> bool
    requires version { version < structure.now.sizes.versions }
    requires term { x.0 < structure.now.sizes.terms }
    ensures { result ≡ stands_at (interpretation_of structure.now) structure.now.sizes.terms version x.0 }
{
    let _sizes = structure.sizes();
    if x.0 == 0 {
        return false;
    }
    if structure.class(x).0 != x.0 {
        return false;
    }
    structure.holds(Atom::Alloc { version, x })
}

// The content of the cell at a term in a version.
fn content(structure: &Structure, version: u8, x: Term) -> u32
    requires version { version < structure.now.sizes.versions }
    requires term { x.0 < structure.now.sizes.terms }
    ensures { result ≡ content_at (interpretation_of structure.now) structure.now.sizes.terms version x.0 }
{
    let sizes = structure.sizes();
    for next in 0..sizes.terms {
        let v = Term(next);
        if structure.holds(Atom::Hop { version, x, v }) {
            return u32::from(structure.class(v).0);
        }
    }
    0
}

/// The heap of a version: a cell at each class other than null's whose least term is allocated, with
/// the class of the least term that it hops to.
pub fn heap_of(alloc: Global, structure: &Structure, version: u8) -> Result<Heap, AllocError>
    requires { version < structure.now.sizes.versions }
    ensures { IfOk result (λ h. h ≡ heap_in (interpretation_of structure.now) structure.now.sizes.terms version) }
{
    let mut heap = Heap::new(alloc);
    for at in 0..structure.terms() {
        let x = Term(at);
        if stands(structure, version, x) {
            heap.put(u32::from(at), content(structure, version, x))?;
        }
    }
    Ok(heap)
}

// The value of a variable: the class of its term, or 0 where it has none.
fn value(structure: &Structure, binding: &Binding, name: &Name) -> u32
    requires below { AreBelow structure.now.sizes.terms binding.now }
    ensures { result ≡ store_in structure.now binding.now name.now }
{
    let _sizes = structure.sizes();
    match binding.get(name) {
        Some(term) => u32::from(structure.class(term).0),
        None => 0,
    }
}

// Adds variables with their values in a structure.
fn add_each(
    alloc: Global,
    store: &mut Store,
    structure: &Structure,
    binding: &Binding,
    occurrences: &[Occ],
) -> Result<(), AllocError>
    requires below { AreBelow structure.now.sizes.terms binding.now }
    requires distinct { AllPairs (λ x y. x ≢ y) (listed_names store.old ++ names occurrences.now) }
    ensures { OnOk result (store.new ≡ store.old ++ values_of structure.now binding.now (names occurrences.now)) }
{
    for occurrence in occurrences {
        let value = value(structure, binding, &occurrence.name);
        store.add(alloc, &occurrence.name, value)?;
    }
    Ok(())
}

/// Adds variables with their values in a structure: all of them, or none where memory runs out.
pub fn add_all(
    alloc: Global,
    store: &mut Store,
    structure: &Structure,
    binding: &Binding,
    occurrences: &[Occ],
) -> Result<(), AllocError>
    requires below { AreBelow structure.now.sizes.terms binding.now }
    requires distinct { AllPairs (λ x y. x ≢ y) (listed_names store.old ++ names occurrences.now) }
    ensures ok { OnOk result (store.new ≡ store.old ++ values_of structure.now binding.now (names occurrences.now)) }
    ensures err { OnErr result (store.new ≡ store.old) }
{
    let mut all = store.copy(alloc)?;
    add_each(alloc, &mut all, structure, binding, occurrences)?;
    *store = all;
    Ok(())
}

// The locals of a procedure.
fn locals(procedure: &Procedure) -> &[Occ]
    ensures { result.now ≡ locals_of (procedure_of procedure.now) }
{
    match &procedure.body {
        Some(body) => body.locals.as_slice(),
        None => &[],
    }
}

// The variables of a procedure in order, with their values.
fn store(
    alloc: Global,
    structure: &Structure,
    binding: &Binding,
    procedure: &Procedure,
) -> Result<Store, AllocError>
    requires below { AreBelow structure.now.sizes.terms binding.now }
    requires distinct { AllPairs (λ x y. x ≢ y) (variable_names (procedure_of procedure.now)) }
    ensures { IfOk result (λ s. s ≡ values_of structure.now binding.now (variable_names (procedure_of procedure.now))) }
{
    let mut store = Store::new(alloc);
    add_each(
        alloc,
        &mut store,
        structure,
        binding,
        procedure.parameters.as_slice(),
    )?;
    add_each(
        alloc,
        &mut store,
        structure,
        binding,
        procedure.results.as_slice(),
    )?;
    add_each(alloc, &mut store, structure, binding, locals(procedure))?;
    Ok(store)
}

// The state of a version.
fn state(
    alloc: Global,
    structure: &Structure,
    binding: &Binding,
    procedure: &Procedure,
    version: u8,
) -> Result<State, AllocError>
    requires version { version < structure.now.sizes.versions }
    requires below { AreBelow structure.now.sizes.terms binding.now }
    requires distinct { AllPairs (λ x y. x ≢ y) (variable_names (procedure_of procedure.now)) }
    ensures { IfOk result (λ s. s ≡ state_at structure.now (procedure_of procedure.now) version binding.now) }
{
    Ok(State {
        store: store(alloc, structure, binding, procedure)?,
        heap: heap_of(alloc, structure, version)?,
    })
}

// The version after a step.
fn after(step: &TermStep<'_>, version: u8) -> u8
    requires { version < 255 }
    ensures { result ≡ version_after version (step_of step.now) }
{
    match step {
        TermStep::Access { .. } | TermStep::Assume { .. } | TermStep::Same => version,
        TermStep::Write { .. } => version + 1,
        TermStep::New { .. } => version + 1,
        TermStep::Free { .. } => version + 1,
        TermStep::Part { .. } => version + 1,
    }
}

// The version after the step of a number, if there is one.
fn next_version(steps: &[TermStep<'_>], number: usize, version: u8) -> u8
    requires { version < 255 }
    ensures { result ≡ after_first (drop number steps.now) version }
{
    match steps.get(number) {
        Some(step) => after(step, version),
        None => version,
    }
}

// A state for each binding.
fn states(
    alloc: Global,
    symbolic: &Symbolic<'_>,
    structure: &Structure,
    procedure: &Procedure,
) -> Result<Trace, AllocError>
    requires all { HasAll structure.now 0 symbolic.now.steps.items symbolic.now.bindings.items }
    requires distinct { AllPairs (λ x y. x ≢ y) (variable_names (procedure_of procedure.now)) }
    ensures { IfOk result (λ t. t.states.items ≡ states_of structure.now (procedure_of procedure.now) symbolic.now) }
{
    let _versions = structure.versions();
    let mut states = Vec::new(alloc);
    let mut version = 0;
    for (number, binding) in symbolic.bindings().iter().enumerate() {
        states.push(state(alloc, structure, binding, procedure, version)?)?;
        version = next_version(symbolic.steps(), number, version);
    }
    Ok(Trace { states })
}

/// The trace of a structure over the terms of a condition.
pub fn build(
    alloc: Global,
    typed: &Typed,
    condition: &Condition,
    symbolic: &Symbolic<'_>,
    structure: &Structure,
) -> Result<Trace, AllocError>
    requires of { IsOne (program_of typed.now) condition.now }
    requires told { HoldsFor (program_of typed.now) condition.now (λ P proc c. IsSymbolic P proc c symbolic.now) }
    requires terms { structure.now.sizes.terms ≡ length symbolic.now.terms }
    requires versions { structure.now.sizes.versions ≡ symbolic.now.versions }
    ensures { IfOk result (IsTraceOf (program_of typed.now) condition.now structure.now) }
{
    let program = typed.program();
    let procedure = &program.procedures[condition.procedure as usize];
    states(alloc, symbolic, structure, procedure)
}
