//! A part of a heap that gives way to another.

ghost use Rattle.std.specs.Prelude.{◌↔◌, IfOk, IfSome, IfNone, IsTrue};
ghost use Rattle.gh_ast.specs.Plain.{procedure_of};
ghost use Rattle.gh_assert.specs.Heaps.{Heap};
ghost use Rattle.gh_assert.specs.Stores.{store_of};
ghost use Rattle.gh_trace.specs.Parts.{Meets, GivesWay, StandsInPlace, DecidesAnswer, HasMet};

use crate::heaps::outside_frame;
use gh_assert::heap::Heap;
use gh_assert::meaning::{footprint, holds, meets_one_of};
use gh_assert::store::Store;
use gh_ast::{Assertion, Procedure};
use std::alloc::{AllocError, Global};

/// An assertion on a part of a heap.
#[derive(Clone, Copy)]
pub struct Part<'t> {
    pub assertion: &'t Assertion,
    pub store: &'t Store,
    pub heap: &'t Heap,
}

/// Whether some part of the heap meets the assertion.
pub fn has_part(alloc: Global, part: Part<'_>) -> Result<bool, AllocError>
    ensures { IfOk result (λ b. IsTrue b ↔ HasMet part.entry) }
{
    let places = footprint(alloc, part.store, part.heap, part.assertion)?;
    Ok(places.is_some())
}

/// What stands in a heap in the place of the part of another that meets an assertion, where the rest stays.
///
/// At most one part meets the assertion, so what stays is one heap.
pub fn replacement(
    alloc: Global,
    before: Part<'_>,
    after: &Heap,
) -> Result<Option<Heap>, AllocError>
    ensures found { IfOk result (λ o. IfSome o (StandsInPlace before.entry after.now)) }
    ensures none { IfOk result (λ o. IfNone o ((other : Heap) → StandsInPlace before.entry after.now other → ⊥)) }
{
    let Some(places) = footprint(alloc, before.store, before.heap, before.assertion)? else {
        return Ok(None);
    };
    outside_frame(alloc, after, before.heap, places.as_slice())
}

/// Whether a part that meets an assertion gives way to one that meets another, and the rest stays.
pub fn is_replaced(alloc: Global, before: Part<'_>, after: Part<'_>) -> Result<bool, AllocError>
    ensures { IfOk result (λ b. IsTrue b ↔ GivesWay before.entry (Meets after.entry) after.entry.heap.now) }
{
    let Some(other) = replacement(alloc, before, after.heap)? else {
        return Ok(false);
    };
    holds(alloc, after.store, &other, after.assertion)
}

/// Whether a part that meets what a procedure needs gives way to one that meets an alternative of
/// what it gives, and the rest stays.
pub fn is_answered(
    alloc: Global,
    procedure: &Procedure,
    inside: &Store,
    before: &Heap,
    after: &Heap,
) -> Result<bool, AllocError>
    ensures { IfOk result (DecidesAnswer (procedure_of procedure.now) (store_of inside.now) before.now after.now) }
{
    let needed = Part {
        assertion: &procedure.needs,
        store: inside,
        heap: before,
    };
    let Some(other) = replacement(alloc, needed, after)? else {
        return Ok(false);
    };
    meets_one_of(alloc, inside, &other, procedure.gives.as_slice())
}
