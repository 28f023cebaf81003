//! The least free place of a heap.

ghost use Rattle.std.specs.Prelude.{◌<◌};
ghost use Rattle.std.specs.FinMap.{len};
ghost use Rattle.gh_run.specs.Rule.{IsLeastFree};

use gh_assert::heap::Heap;

/// The least place that isn't null and isn't allocated.
///
/// The cell of number i, counted from 0, stands at a place of at least i + 1, and at i + 1 exactly for
/// the cells before the first gap: a binary search finds it.
pub fn least_free(heap: &Heap) -> u32
    requires { len heap.now < 4294967295 }
    ensures { IsLeastFree heap.now result }
{
    let cells = heap.cells();
    let mut low = 0;
    let mut high = cells.len();
    'search: while low < high {
        let middle = low + (high - low) / 2;
        if cells[middle].at as usize == middle + 1 {
            low = middle + 1;
        } else {
            high = middle;
        }
    }
    (low + 1) as u32
}
