//! Whether a heap meets an assertion, and which part of it does.

ghost use Rattle.std.specs.Prelude.{◌≡◌, ◌↔◌, ℕ, IfOk, IfNone, IfSome, IsTrue};
ghost use Rattle.gh_ast.specs.Plain.{cond_of, conds_view};
ghost use Rattle.gh_assert.specs.Meaning.{plain_value, truth, all_true, some_true};
ghost use Rattle.gh_assert.specs.Stores.{store_of};
ghost use Rattle.gh_assert.specs.Heaps.{Segment};
ghost use Rattle.gh_assert.specs.Footprints.{Took, HasPartIn, IsFootprintIn, MeaningAllIn, MeaningIn, MeetsOneIn};

use crate::heap::Heap;
use crate::remaining::Remaining;
use crate::store::Store;
use crate::values::{compares, operand_value, value_of};
use gh_ast::{Assertion, Cond, Expr};
use std::alloc::{AllocError, Global};

// The value of an expression in a test of cases, which has no reads.
fn plain_expr_value(store: &Store, expr: &Expr) -> u32
    ensures { result ≡ plain_value (store_of store.now) expr.now }
{
    match expr {
        Expr::Plain(operand) => operand_value(store, operand),
        Expr::Read(_) => 0,
    }
}

// Whether a test of cases is true.
#[cycle(truth)]
fn is_true(store: &Store, test: &Cond) -> bool
    ensures { result ≡ truth (store_of store.now) (cond_of test.now) }
{
    match test {
        Cond::Compare { left, equal, right } => {
            compares(
                plain_expr_value(store, left),
                *equal,
                plain_expr_value(store, right),
            )
        }
        Cond::Not(inner) => !is_true(store, inner),
        Cond::And(members) => are_all_true(store, members.as_slice()),
        Cond::Or(members) => is_some_true(store, members.as_slice()),
    }
}

#[cycle(truth)]
fn are_all_true(store: &Store, tests: &[Cond]) -> bool
    ensures { result ≡ all_true (store_of store.now) (conds_view tests.now) }
{
    for test in tests {
        if !is_true(store, test) {
            return false;
        }
    }
    true
}

#[cycle(truth)]
fn is_some_true(store: &Store, tests: &[Cond]) -> bool
    ensures { result ≡ some_true (store_of store.now) (conds_view tests.now) }
{
    for test in tests {
        if is_true(store, test) {
            return true;
        }
    }
    false
}

// Takes the cells of a segment, or answers that no part of what is left is one.
fn take_segment(remaining: &mut Remaining, from: u32, to: u32) -> bool
    ensures whole { remaining.new.0 ≡ remaining.old.0 }
    ensures part { Took result (λ a. (n : ℕ) × Segment n from to a) remaining.old.1 remaining.new.1 }
{
    let mut at = from;
    while at != to {
        match remaining.take(at) {
            Some(next) => at = next,
            None => return false,
        }
    }
    true
}

// Takes the part that meets an assertion, or answers that no part of what is left does.
#[cycle(part)]
fn take_part(store: &Store, remaining: &mut Remaining, assertion: &Assertion) -> bool
    ensures whole { remaining.new.0 ≡ remaining.old.0 }
    ensures part { Took result (MeaningIn store.now assertion.now) remaining.old.1 remaining.new.1 }
{
    match assertion {
        Assertion::Emp => true,
        Assertion::Pure { left, equal, right } => {
            compares(
                operand_value(store, left),
                *equal,
                operand_value(store, right),
            )
        }
        Assertion::PointsTo { at, to } => {
            remaining.take(value_of(store, at)) == Some(operand_value(store, to))
        }
        Assertion::Acc { at } => remaining.take(value_of(store, at)).is_some(),
        Assertion::Lseg { from, to } => {
            take_segment(
                remaining,
                operand_value(store, from),
                operand_value(store, to),
            )
        }
        Assertion::Star(members) => take_parts(store, remaining, members.as_slice()),
        Assertion::Cases { test, yes, no } => {
            if is_true(store, test) {
                take_part(store, remaining, yes)
            } else {
                take_part(store, remaining, no)
            }
        }
    }
}

// Takes the parts of all members of a star, or answers that there are no such parts.
#[cycle(part)]
fn take_parts(store: &Store, remaining: &mut Remaining, members: &[Assertion]) -> bool
    ensures whole { remaining.new.0 ≡ remaining.old.0 }
    ensures part { Took result (MeaningAllIn store.now members.now) remaining.old.1 remaining.new.1 }
{
    for member in members {
        if !take_part(store, remaining, member) {
            return false;
        }
    }
    true
}

/// Whether a heap meets an assertion.
///
/// A name that the store doesn't list counts as null. The time is about the number of cells times the
/// logarithm of it, and the assertion's length.
pub fn holds(
    alloc: Global,
    store: &Store,
    heap: &Heap,
    assertion: &Assertion,
) -> Result<bool, AllocError>
    ensures { IfOk result (λ b. IsTrue b ↔ MeaningIn store.now assertion.now heap.now) }
{
    let mut remaining = Remaining::new(alloc, heap)?;
    if !take_part(store, &mut remaining, assertion) {
        return Ok(false);
    }
    Ok(remaining.is_empty())
}

/// Whether a heap meets one of some alternatives.
///
/// A name that the store doesn't list counts as null. The time is that of `holds`, for each alternative.
pub fn meets_one_of(
    alloc: Global,
    store: &Store,
    heap: &Heap,
    alternatives: &[Assertion],
) -> Result<bool, AllocError>
    ensures { IfOk result (λ b. IsTrue b ↔ MeetsOneIn store.now alternatives.now heap.now) }
{
    for alternative in alternatives {
        if holds(alloc, store, heap, alternative)? {
            return Ok(true);
        }
    }
    Ok(false)
}

/// The places of the one part of a heap that meets an assertion, ascending; none where no part does.
///
/// A name that the store doesn't list counts as null.
pub fn footprint(
    alloc: Global,
    store: &Store,
    heap: &Heap,
    assertion: &Assertion,
) -> Result<Option<Vec<u32>>, AllocError>
    ensures found { IfOk result (λ o. IfSome o (λ p. IsFootprintIn store.now assertion.now heap.now p.items)) }
    ensures none { IfOk result (λ o. IfNone o (HasPartIn store.now assertion.now heap.now → ⊥)) }
{
    let mut remaining = Remaining::new(alloc, heap)?;
    if !take_part(store, &mut remaining, assertion) {
        return Ok(None);
    }
    Ok(Some(remaining.places(alloc)?))
}
