//! What expressions and tests give in a store and a heap.

ghost use Rattle.std.specs.Prelude.{◌≡◌, ◌==◌, IfOk, IfNone, IfSome};
ghost use Rattle.gh_ast.specs.Plain.{cond_of, conds_view};
ghost use Rattle.gh_assert.specs.Meaning.{value, agrees};
ghost use Rattle.gh_assert.specs.Stores.{store_of};
ghost use Rattle.gh_assert.specs.Values as values;

use crate::heap::Heap;
use crate::store::Store;
use gh_ast::{Cond, Expr, Occ, Operand};
use std::alloc::{AllocError, Global};

/// The value of a variable; 0 where it isn't listed.
pub fn value_of(store: &Store, variable: &Occ) -> u32
    ensures { result ≡ store_of store.now variable.now.name }
{
    store.get(&variable.name).unwrap_or(0)
}

/// The value of an operand.
pub fn operand_value(store: &Store, operand: &Operand) -> u32
    ensures { result ≡ value (store_of store.now) operand.now }
{
    match operand {
        Operand::Null { .. } => 0,
        Operand::Var(variable) => value_of(store, variable),
    }
}

/// Whether a comparison of two values is true.
pub fn compares(left: u32, equal: bool, right: u32) -> bool
    ensures { result ≡ agrees equal (left == right) }
{
    (left == right) == equal
}

/// The value of an expression; none where it reads a place that isn't allocated.
pub fn expr_value(store: &Store, heap: &Heap, expr: &Expr) -> Option<u32>
    ensures { result ≡ values.result (store_of store.now) heap.now expr.now }
{
    match expr {
        Expr::Plain(operand) => Some(operand_value(store, operand)),
        Expr::Read(at) => heap.get(value_of(store, at)),
    }
}

/// The values of some expressions; none where one of them reads a place that isn't allocated.
pub fn values_of(
    alloc: Global,
    store: &Store,
    heap: &Heap,
    exprs: &[Expr],
) -> Result<Option<Vec<u32>>, AllocError>
    ensures all { IfOk result (λ o. IfSome o (λ vs. values.Give (store_of store.now) heap.now exprs.now vs.items)) }
    ensures unread { IfOk result (λ o. IfNone o (values.HasUnread (store_of store.now) heap.now exprs.now)) }
{
    let mut values = Vec::new(alloc);
    for expr in exprs {
        match expr_value(store, heap, expr) {
            Some(value) => values.push(value)?,
            None => return Ok(None),
        }
    }
    Ok(Some(values))
}

fn comparison(left: Option<u32>, equal: bool, right: Option<u32>) -> Option<bool>
    ensures { result ≡ values.compared equal left right }
{
    match (left, right) {
        (Some(left), Some(right)) => Some(compares(left, equal, right)),
        _ => None,
    }
}

/// What a test gives, read from left to right with early stop; none where it reads a place that isn't
/// allocated.
#[cycle(outcome)]
pub fn outcome(store: &Store, heap: &Heap, test: &Cond) -> Option<bool>
    ensures { result ≡ values.outcome (store_of store.now) heap.now (cond_of test.now) }
{
    match test {
        Cond::Compare { left, equal, right } => comparison(
            expr_value(store, heap, left),
            *equal,
            expr_value(store, heap, right),
        ),
        Cond::Not(inner) => match outcome(store, heap, inner) {
            Some(way) => Some(!way),
            None => None,
        },
        Cond::And(members) => outcome_of_all(store, heap, members.as_slice()),
        Cond::Or(members) => outcome_of_some(store, heap, members.as_slice()),
    }
}

#[cycle(outcome)]
fn outcome_of_all(store: &Store, heap: &Heap, tests: &[Cond]) -> Option<bool>
    ensures { result ≡ values.all_outcome (store_of store.now) heap.now (conds_view tests.now) }
{
    for test in tests {
        match outcome(store, heap, test) {
            Some(true) => {}
            stopped => return stopped,
        }
    }
    Some(true)
}

#[cycle(outcome)]
fn outcome_of_some(store: &Store, heap: &Heap, tests: &[Cond]) -> Option<bool>
    ensures { result ≡ values.some_outcome (store_of store.now) heap.now (conds_view tests.now) }
{
    for test in tests {
        match outcome(store, heap, test) {
            Some(false) => {}
            stopped => return stopped,
        }
    }
    Some(false)
}
