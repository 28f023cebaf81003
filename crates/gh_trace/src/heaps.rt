//! Whether two heaps are one outside of some places, and what one heap has beside the rest of another.

ghost use Rattle.std.specs.Prelude.{◌≡◌, ◌↔◌, ℕ, IfOk, IfSome, IfNone, IsTrue, None};
ghost use Rattle.std.specs.Ordering.{nat_cmp};
ghost use Rattle.std.specs.FinMap as map;
ghost use Rattle.gh_assert.specs.Cells.{pairs};
ghost use Rattle.gh_assert.specs.Heaps.{Splits};
ghost use Rattle.gh_trace.specs.Left.{left};

use gh_assert::heap::{Cell, Heap};
use gh_assert::remaining::Remaining;
use std::alloc::{AllocError, Global};

// Takes the cells of some places.
fn take_all(remaining: &mut Remaining<'_>, places: &[u32])
    ensures { remaining.new.1 ≡ left remaining.old.1 places.now }
{
    for place in places {
        remaining.take(*place);
    }
}

// Whether the same cells are left of two heaps. All that are left of the first are among the given
// ones.
fn is_same_rest(cells: &[Cell], one: &mut Remaining<'_>, other: &mut Remaining<'_>) -> bool
    requires { (q : ℕ) → map.find nat_cmp q (pairs cells.now) ≡ None → map.get one.old.1 q ≡ None }
    ensures { IsTrue result ↔ (one.old.1 ≡ other.old.1) }
{
    for cell in cells {
        if one.take(cell.at) != other.take(cell.at) {
            return false;
        }
    }
    other.is_empty()
}

/// Whether one heap without the cells of some places is another without those of others.
pub fn is_same_outside(
    alloc: Global,
    one: &Heap,
    places: &[u32],
    other: &Heap,
    others: &[u32],
) -> Result<bool, AllocError>
    ensures { IfOk result (λ b. IsTrue b ↔ (left one.now places.now ≡ left other.now others.now)) }
{
    let mut rest = Remaining::new(alloc, one)?;
    let mut other_rest = Remaining::new(alloc, other)?;
    take_all(&mut rest, places);
    take_all(&mut other_rest, others);
    Ok(is_same_rest(one.cells(), &mut rest, &mut other_rest))
}

// The cells of a heap beside a frame; none where the frame is no part of the heap.
fn cells_beside(
    alloc: Global,
    heap: &Heap,
    frame: &mut Remaining<'_>,
) -> Result<Option<Heap>, AllocError>
    ensures found { IfOk result (λ o. IfSome o (λ other. Splits heap.now other frame.old.1)) }
    ensures none { IfOk result (λ o. IfNone o ((other : Heap) → Splits heap.now other frame.old.1 → ⊥)) }
{
    let mut other = Heap::new(alloc);
    for cell in heap.cells() {
        match frame.take(cell.at) {
            None => other.put(cell.at, cell.to)?,
            Some(to) if to != cell.to => return Ok(None),
            Some(_) => {}
        }
    }
    if !frame.is_empty() {
        return Ok(None);
    }
    Ok(Some(other))
}

/// The cells of a heap beside those that another has outside of some places; none where these do not
/// all stand in the heap.
pub fn outside_frame(
    alloc: Global,
    heap: &Heap,
    one: &Heap,
    places: &[u32],
) -> Result<Option<Heap>, AllocError>
    ensures found { IfOk result (λ o. IfSome o (λ other. Splits heap.now other (left one.now places.now))) }
    ensures none { IfOk result (λ o. IfNone o ((other : Heap) →
        Splits heap.now other (left one.now places.now) → ⊥)) }
{
    let mut frame = Remaining::new(alloc, one)?;
    take_all(&mut frame, places);
    cells_beside(alloc, heap, &mut frame)
}
