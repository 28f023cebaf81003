//! What is left of a heap while an assertion takes its cells.

ghost use Rattle.std.specs.Prelude.{◌≡◌, ◌≢◌, ◌↔◌, OnSome, IfOk, IsTrue, All, true};
ghost use Rattle.std.specs.FinMap as map;
ghost use Rattle.gh_assert.specs.Cells.{unmarked};
ghost use Rattle.gh_assert.specs.Heaps.{IsEmpty};
ghost use Rattle.gh_assert.specs.Footprints.{AreTaken};

use crate::heap::{Cell, Heap, place};
use std::alloc::{AllocError, Global};
use std::marker::Model;

/// A heap, and what is left of it. Contracts see the two as a pair. Each cell is taken once, so all
/// that is taken costs no more than a search for each cell.
#[derive(Drop)]
pub struct Remaining<'h> {
    cells: &'h [Cell],
    taken: Vec<bool>,
}

impl<'h> Model for Remaining<'h> {
    ghost use Rattle.std.specs.Prelude.{ℕ, length, ◌≡◌};
    ghost use Rattle.std.specs.Ordering.{nat_cmp};
    ghost use Rattle.std.specs.FinMap as map;
    ghost use Rattle.std.specs.Coded.{coded_ℕ, coded×};
    ghost use Rattle.gh_assert.specs.Cells.{heap_of, unmarked, AreCells};

    ghost Value = { map.FinMap nat_cmp ℕ × map.FinMap nat_cmp ℕ };

    ghost coded = { coded× (map.code coded_ℕ coded_ℕ) (map.code coded_ℕ coded_ℕ) };

    ghost view = { λ r. (heap_of r.cells.now, unmarked r.cells.now r.taken.items) };

    ghost invariant = { λ r. AreCells r.cells.now × (length r.taken.items ≡ length r.cells.now) };
}

fn all_true(marks: &[bool]) -> bool
    ensures { IsTrue result ↔ All (λ m. m ≡ true) marks.now }
{
    marks.iter().all(|mark| *mark)
}

impl<'h> Remaining<'h> {
    /// A whole heap.
    pub fn new(alloc: Global, heap: &'h Heap) -> Result<Remaining<'h>, AllocError>
        ensures whole { IfOk result (λ r. r.0 ≡ heap.now) }
        ensures all { IfOk result (λ r. r.1 ≡ heap.now) }
    {
        let cells = heap.cells();
        let taken = vec![in alloc; false; cells.len()]?;
        Ok(Remaining { cells, taken })
    }

    /// Takes a cell, and gives its content, if the cell is left.
    pub fn take(&mut self, at: u32) -> Option<u32>
        ensures whole { self.new.0 ≡ self.old.0 }
        ensures content { result ≡ map.get self.old.1 at }
        ensures rest { self.new.1 ≡ map.remove self.old.1 at }
        ensures not_null { OnSome result (at ≢ 0) }
    {
        let Ok(i) = place(self.cells, at) else {
            return None;
        };
        if self.taken[i] {
            return None;
        }
        self.taken[i] = true;
        Some(self.cells[i].to)
    }

    /// Whether no cell is left.
    pub fn is_empty(&self) -> bool
        ensures { IsTrue result ↔ IsEmpty self.now.1 }
    {
        all_true(self.taken.as_slice())
    }

    /// The places of the cells that were taken, ascending.
    pub fn places(&self, alloc: Global) -> Result<Vec<u32>, AllocError>
        ensures { IfOk result (λ places. AreTaken self.now.0 self.now.1 places.items) }
    {
        let mut places = Vec::new(alloc);
        for (i, cell) in self.cells.iter().enumerate() {
            if self.taken[i] {
                places.push(cell.at)?;
            }
        }
        Ok(places)
    }
}
