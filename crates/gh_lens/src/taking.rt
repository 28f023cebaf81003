//! Where an assertion fails, and why.

ghost use Rattle.std.specs.Prelude.{◌≡◌, ℕ, IfOk, IfSome, IfNone};
ghost use Rattle.std.specs.FinMap as map;
ghost use Rattle.gh_ast.specs.Plain.{assertion_of, assertions_view};
ghost use Rattle.gh_assert.specs.Stores.{store_of};
ghost use Rattle.gh_lens.specs.Takings as told;

use crate::exchange::without;
use gh_assert::heap::Heap;
use gh_assert::meaning::footprint;
use gh_assert::store::Store;
use gh_assert::values::{operand_value, value_of};
use gh_ast::Assertion;
use std::alloc::{AllocError, Global};
use std::slice::from_ref;

/// How far the conjuncts of an assertion take their parts of a heap: up to one that no part of what is
/// left meets, or all of them. `rest` is what is left.
#[derive(Drop)]
pub enum Taking<'t> {
    Blocked { conjunct: &'t Assertion, rest: Heap },
    Whole { rest: Heap },
}

/// Why no part of what is left meets a conjunct: there is no cell at a place, or it was taken before, or
/// it has another content; or else the conjunct isn't true.
#[derive(Clone, Copy, Debug, PartialEq, Eq)]
pub enum Reason {
    Untrue,
    Missing { at: u32 },
    Shared { at: u32 },
    Content { at: u32, to: u32 },
}

/// The conjuncts of an assertion.
pub fn conjuncts(assertion: &Assertion) -> &[Assertion]
    ensures { assertions_view result.now ≡ told.conjuncts (assertion_of assertion.now) }
{
    match assertion {
        Assertion::Star(members) => members.as_slice(),
        Assertion::Emp => from_ref(assertion),
        Assertion::Pure { .. } => from_ref(assertion),
        Assertion::PointsTo { .. } => from_ref(assertion),
        Assertion::Acc { .. } => from_ref(assertion),
        Assertion::Lseg { .. } => from_ref(assertion),
        Assertion::Cases { .. } => from_ref(assertion),
    }
}

/// How far some conjuncts take their parts of a heap, in turn.
pub fn taken<'t>(
    alloc: Global,
    store: &Store,
    heap: &Heap,
    conjuncts: &'t [Assertion],
) -> Result<Taking<'t>, AllocError>
    ensures { IfOk result (told.IsTaking (assertions_view conjuncts.now) (store_of store.now) heap.now) }
{
    let mut rest = heap.copy(alloc)?;
    for conjunct in conjuncts {
        let Some(places) = footprint(alloc, store, &rest, conjunct)? else {
            return Ok(Taking::Blocked { conjunct, rest });
        };
        rest = without(alloc, &rest, places.as_slice())?;
    }
    Ok(Taking::Whole { rest })
}

// Why a cell isn't left.
fn gone(heap: &Heap, at: u32) -> Reason
    ensures { result ≡ told.gone_reason (map.get heap.now at) at }
{
    match heap.get(at) {
        None => Reason::Missing { at },
        Some(_) => Reason::Shared { at },
    }
}

// Why what is left has no cell with a content.
fn other_content(heap: &Heap, rest: &Heap, at: u32) -> Reason
    ensures { result ≡ told.content_reason (map.get rest.now at) (map.get heap.now at) at }
{
    match rest.get(at) {
        None => gone(heap, at),
        Some(to) => Reason::Content { at, to },
    }
}

// Where the way between two places comes to a place that has no cell left.
fn broken_at(alloc: Global, rest: &Heap, from: u32, to: u32) -> Result<Option<u32>, AllocError>
    ensures some { IfOk result (λ o. IfSome o (told.IsBrokenAt from to rest.now)) }
    ensures none { IfOk result (λ o. IfNone o ((v : ℕ) → told.IsBrokenAt from to rest.now v → ⊥)) }
{
    let mut left = rest.copy(alloc)?;
    let mut at = from;
    while at != to {
        match left.take(at) {
            Some(next) => at = next,
            None => return Ok(Some(at)),
        }
    }
    Ok(None)
}

// Why no part of what is left is a segment.
fn no_segment(
    alloc: Global,
    heap: &Heap,
    rest: &Heap,
    from: u32,
    to: u32,
) -> Result<Reason, AllocError>
    ensures { IfOk result (told.IsNoSegment from to heap.now rest.now) }
{
    match broken_at(alloc, rest, from, to)? {
        Some(at) => Ok(gone(heap, at)),
        None => Ok(Reason::Untrue),
    }
}

/// Why no part of what is left of a heap meets a conjunct.
pub fn reason_for(
    alloc: Global,
    store: &Store,
    heap: &Heap,
    rest: &Heap,
    conjunct: &Assertion,
) -> Result<Reason, AllocError>
    ensures { IfOk result (told.IsReason (assertion_of conjunct.now) (store_of store.now) heap.now rest.now) }
{
    match conjunct {
        Assertion::PointsTo { at, .. } => Ok(other_content(heap, rest, value_of(store, at))),
        Assertion::Acc { at } => Ok(gone(heap, value_of(store, at))),
        Assertion::Lseg { from, to } => no_segment(
            alloc,
            heap,
            rest,
            operand_value(store, from),
            operand_value(store, to),
        ),
        Assertion::Emp => Ok(Reason::Untrue),
        Assertion::Pure { .. } => Ok(Reason::Untrue),
        Assertion::Star(_) => Ok(Reason::Untrue),
        Assertion::Cases { .. } => Ok(Reason::Untrue),
    }
}
