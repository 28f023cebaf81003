//! What a call or a loop takes over of a heap, what it leaves aside, and what comes back.

ghost use Rattle.std.specs.Prelude.{◌≡◌, IfOk, IfSome, IfNone};
ghost use Rattle.gh_assert.specs.Heaps.{Heap as PlainHeap};
ghost use Rattle.gh_trace.specs.Left.{left};
ghost use Rattle.gh_trace.specs.Parts.{StandsInPlace};
ghost use Rattle.gh_lens.specs.Exchanges.{IsExchangeOf};

use gh_assert::heap::Heap;
use gh_assert::meaning::footprint;
use gh_trace::parts::{Part, replacement};
use std::alloc::{AllocError, Global};

/// The places of the cells that are handed over, the cells that are left aside, and those that came
/// back.
#[derive(Debug, Drop)]
pub struct Exchange {
    pub handed: Vec<u32>,
    pub frame: Heap,
    pub back: Heap,
}

/// A heap without the cells of some places.
pub fn without(alloc: Global, heap: &Heap, places: &[u32]) -> Result<Heap, AllocError>
    ensures { IfOk result (λ h. h ≡ left heap.now places.now) }
{
    let mut rest = heap.copy(alloc)?;
    for place in places {
        let _ = rest.take(*place);
    }
    Ok(rest)
}

/// What is handed over where a part of a heap that meets an assertion gives way to another part, up to the
/// heap after it.
pub fn exchanged(
    alloc: Global,
    before: Part<'_>,
    after: &Heap,
) -> Result<Option<Exchange>, AllocError>
    ensures some { IfOk result (λ o. IfSome o (IsExchangeOf before.entry after.now)) }
    ensures none { IfOk result (λ o. IfNone o ((other : PlainHeap) → StandsInPlace before.entry after.now other → ⊥)) }
{
    let Some(handed) = footprint(alloc, before.store, before.heap, before.assertion)? else {
        return Ok(None);
    };
    let Some(back) = replacement(alloc, before, after)? else {
        return Ok(None);
    };
    let frame = without(alloc, before.heap, handed.as_slice())?;
    Ok(Some(Exchange {
        handed,
        frame,
        back,
    }))
}
