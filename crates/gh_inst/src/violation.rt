//! The first instance that is false in a structure.

ghost use Rattle.std.specs.Prelude.{◌≡◌, ◌<◌, ◌≤◌, ◌↔◌, Some, None, IfSome, MatchBool, take};
ghost use Rattle.gh_base.specs.Atoms.{IsInRange, AreInRange};
ghost use Rattle.gh_inst.specs.Table.{table, row_with, row_of};
ghost use Rattle.gh_inst.specs.Instances.{name_of, IsInstance, row_in};
ghost use Rattle.gh_inst.specs.Violations.{AreAllTrueIn, IsClauseTrueIn, IsFirstFalseIn, IsLitTrueIn, IsTrueIn};
ghost use Rattle.gh_inst.specs.Search.{IsFirstFalseOf, IsFirstFalseOfRow};

use crate::instances::{Instances, name_at};
use crate::naming::{InstanceName, first_terms, instance};
use crate::search::first_tuple;
use crate::table::{Row, row_numbered};
use gh_base::atom::{Lit, Term};
use gh_base::structure::Structure;
use std::alloc::Global;

/// The name of a row's instance at the first terms.
pub(crate) fn name_of_terms(
    number: u8,
    variables: u8,
    version: u8,
    terms: [Term; 4],
) -> InstanceName
    requires some { 1 ≤ variables }
    requires few { variables ≤ 4 }
    ensures { result ≡ name_of number version (take variables terms) }
{
    match variables {
        1 => name_at::<1>(number, version, first_terms(terms)),
        2 => name_at::<2>(number, version, first_terms(terms)),
        3 => name_at::<3>(number, version, first_terms(terms)),
        _ => name_at::<4>(number, version, first_terms(terms)),
    }
}

// The first instance of a row that is false in a version.
fn first_in_version(
    row: &Row,
    number: u8,
    structure: &Structure,
    version: u8,
) -> Option<InstanceName>
    requires row { row_with number table ≡ Some (row_of number row.now) }
    requires version { version < structure.now.sizes.versions }
    ensures { IsFirstFalseOf structure.now (row_in structure.now.sizes version (row_of number row.now)) result }
{
    let variables = row.variables();
    let terms = first_tuple(row.lits(), variables as usize, structure, version)?;
    Some(name_of_terms(number, variables, version, terms))
}

// The first instance of a row that is false.
fn first_in_row(number: u8, structure: &Structure) -> Option<InstanceName>
    ensures { IsFirstFalseOfRow structure.now number result }
{
    let row = row_numbered(number)?;
    for version in 0..structure.versions() {
        let found = first_in_version(&row, number, structure, version);
        if found.is_some() {
            return found;
        }
    }
    None
}

/// The first instance that is false in a structure, by the order of all instances. It takes no memory.
pub fn violated(structure: &Structure) -> Option<InstanceName>
    ensures first { IfSome result (λ name. IsFirstFalseIn structure.now name) }
    ensures none { result ≡ None ↔ AreAllTrueIn structure.now }
{
    for number in 1..16 {
        let found = first_in_row(number, structure);
        if found.is_some() {
            return found;
        }
    }
    None
}

// Whether a literal is true in a structure.
fn is_lit_true(structure: &Structure, lit: Lit) -> bool
    requires { IsInRange structure.now.sizes lit.atom }
    ensures { MatchBool result (IsLitTrueIn structure.now lit) (¬ IsLitTrueIn structure.now lit) }
{
    structure.holds(lit.atom) == lit.positive
}

// Whether a clause is true in a structure.
fn is_clause_true(structure: &Structure, clause: &[Lit]) -> bool
    requires { AreInRange structure.now.sizes clause.now }
    ensures { MatchBool result (IsClauseTrueIn structure.now clause.now) (¬ IsClauseTrueIn structure.now clause.now) }
{
    for lit in clause {
        if is_lit_true(structure, *lit) {
            return true;
        }
    }
    false
}

// Whether an instance is true in a structure.
fn is_instance_true(alloc: Global, structure: &Structure, name: InstanceName) -> bool
    requires { IsInstance structure.now.sizes.terms structure.now.sizes.versions name }
    ensures { MatchBool result (IsTrueIn structure.now name) (¬ IsTrueIn structure.now name) }
{
    match instance(alloc, name, structure.terms(), structure.versions()) {
        None => false,
        Some(clause) => is_clause_true(structure, clause.lits()),
    }
}

/// The first instance that is false in a structure, by a plain walk over all instances. It takes no memory,
/// and serves tests alone, which compare [`violated`] with it.
pub fn violated_plainly(alloc: Global, structure: &Structure) -> Option<InstanceName>
    ensures first { IfSome result (λ name. IsFirstFalseIn structure.now name) }
    ensures none { result ≡ None ↔ AreAllTrueIn structure.now }
{
    for name in Instances::new(structure.terms(), structure.versions()) {
        if !is_instance_true(alloc, structure, name) {
            return Some(name);
        }
    }
    None
}
