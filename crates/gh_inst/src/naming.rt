//! Names of instances, and their clauses.

ghost use Rattle.std.specs.Prelude.{◌≡◌, ◌<◌, ◌≤◌, ◌↔◌, IsTrue, IsSome, IfSome, All, take};
ghost use Rattle.gh_inst.specs.Schemas.{clause_over};
ghost use Rattle.gh_inst.specs.Table.{variables_of, lits_of};
ghost use Rattle.gh_inst.specs.Instances.{IsInstance, clause_of, AreInRangeOver};

use crate::schema::clause_at;
use crate::table::{Row, row_numbered};
use gh_base::atom::Term;
use gh_base::clause::Clause;
use std::alloc::Global;

/// The name of an instance: the number of its row, its version, and as many terms as the row has
/// variables. Terms past the arity are term 0.
#[derive(Clone, Copy, Debug, PartialEq, Eq)]
pub struct InstanceName {
    pub row: u8,
    pub version: u8,
    pub terms: [Term; 4],
    pub arity: u8,
}

// Whether all these terms are there.
fn are_below(all: &[Term], terms: u8) -> bool
    ensures { IsTrue result ↔ All (λ t. t.0 < terms) all.now }
{
    all.iter().all(|term| term.0 < terms)
}

// Whether all these terms are term 0.
fn are_zero(all: &[Term]) -> bool
    ensures { IsTrue result ↔ All (λ t. t.0 ≡ 0) all.now }
{
    all.iter().all(|term| term.0 == 0)
}

/// The first `V` terms.
pub(crate) fn first_terms<const V: usize>(terms: [Term; 4]) -> [Term; V]
    requires { V ≤ 4 }
    ensures { result ≡ take V terms }
{
    let mut tuple = [Term(0); V];
    for i in 0..V {
        tuple[i] = terms[i];
    }
    tuple
}

impl Row {
    // The clause of the row at the first terms.
    fn clause(&self, alloc: Global, version: u8, terms: [Term; 4]) -> Clause
        ensures { result ≡ clause_over version (take (variables_of self.now) terms) (lits_of self.now) }
    {
        match self {
            Row::OneOne(schema) => clause_at(alloc, schema, version, first_terms(terms)),
            Row::TwoTwo(schema) => clause_at(alloc, schema, version, first_terms(terms)),
            Row::TwoThree(schema) => clause_at(alloc, schema, version, first_terms(terms)),
            Row::ThreeTwo(schema) => clause_at(alloc, schema, version, first_terms(terms)),
            Row::ThreeThree(schema) => clause_at(alloc, schema, version, first_terms(terms)),
            Row::ThreeFour(schema) => clause_at(alloc, schema, version, first_terms(terms)),
            Row::FourThree(schema) => clause_at(alloc, schema, version, first_terms(terms)),
        }
    }
}

/// The clause of an instance over so many terms and versions. None exactly where the row isn't in the table, the arity
/// isn't the row's, the version isn't there, one of the terms isn't there, or one past the arity isn't term 0. It takes
/// no memory.
pub fn instance(alloc: Global, name: InstanceName, terms: u8, versions: u8) -> Option<Clause>
    ensures exact { IsSome result ↔ IsInstance terms versions name }
    ensures clause { IfSome result (λ clause. clause ≡ clause_of name) }
    ensures in_range { IfSome result (λ clause. AreInRangeOver terms versions clause) }
{
    let row = row_numbered(name.row)?;
    if name.arity != row.variables() || name.version >= versions {
        return None;
    }
    let arity = name.arity as usize;
    if !are_below(&name.terms[..arity], terms) || !are_zero(&name.terms[arity..]) {
        return None;
    }
    Some(row.clause(alloc, name.version, name.terms))
}
