//! Heaps: cells with distinct places.

ghost use Rattle.std.specs.Prelude.{◌≡◌, ◌≢◌, OnOk, OnErr, IfOk, MatchResult, T};
ghost use Rattle.std.specs.Ordering.{nat_cmp};
ghost use Rattle.std.specs.FinMap as map;
ghost use Rattle.gh_assert.specs.Cells.{pairs, AreCells, IsHere, IsGap};

use std::alloc::{AllocError, Global};
use std::marker::Model;

/// A place and its content.
#[derive(Clone, Copy, Debug, PartialEq, Eq)]
pub struct Cell {
    pub at: u32,
    pub to: u32,
}

/// Cells with distinct places, none of them null. Contracts see it as the finite map from places to
/// contents.
#[derive(Debug, Drop)]
pub struct Heap {
    cells: Vec<Cell>,
}

impl Model for Heap {
    ghost use Rattle.std.specs.Prelude.{ℕ};
    ghost use Rattle.std.specs.Ordering.{nat_cmp};
    ghost use Rattle.std.specs.FinMap as map;
    ghost use Rattle.std.specs.Coded.{coded_ℕ};
    ghost use Rattle.gh_assert.specs.Cells.{heap_of, AreCells};

    ghost Value = { map.FinMap nat_cmp ℕ };

    ghost coded = { map.code coded_ℕ coded_ℕ };

    ghost view = { λ h. heap_of h.cells.items };

    ghost invariant = { λ h. AreCells h.cells.items };
}

/// Where the cell of a place stands among ascending cells, or else where it would stand.
pub fn place(cells: &[Cell], at: u32) -> Result<usize, usize>
    requires { T (map.is_sorted nat_cmp (pairs cells.now)) }
    ensures { MatchResult result (IsHere cells.now at) (IsGap cells.now at) }
{
    cells.binary_search_by_key(&at, |cell| cell.at)
}

impl Heap {
    /// The empty heap.
    pub fn new(alloc: Global) -> Heap
        ensures { result ≡ map.empty }
    {
        Heap {
            cells: Vec::new(alloc),
        }
    }

    /// The content of a place, if it is allocated.
    pub fn get(&self, at: u32) -> Option<u32>
        ensures { result ≡ map.get self.now at }
    {
        match place(self.cells.as_slice(), at) {
            Ok(i) => Some(self.cells[i].to),
            Err(_) => None,
        }
    }

    /// Allocates or overwrites a place.
    pub fn put(&mut self, at: u32, to: u32) -> Result<(), AllocError>
        requires { at ≢ 0 }
        ensures ok { OnOk result (self.new ≡ map.insert self.old at to) }
        ensures err { OnErr result (self.new ≡ self.old) }
    {
        match place(self.cells.as_slice(), at) {
            Ok(i) => self.cells[i] = Cell { at, to },
            Err(i) => self.cells.insert(i, Cell { at, to })?,
        }
        Ok(())
    }

    /// Removes the cell of a place, and gives its content, if it is allocated.
    pub fn take(&mut self, at: u32) -> Option<u32>
        ensures content { result ≡ map.get self.old at }
        ensures rest { self.new ≡ map.remove self.old at }
    {
        match place(self.cells.as_slice(), at) {
            Ok(i) => Some(self.cells.remove(i).to),
            Err(_) => None,
        }
    }

    /// A copy of the heap.
    pub fn copy(&self, alloc: Global) -> Result<Heap, AllocError>
        ensures { IfOk result (λ h. h ≡ self.now) }
    {
        Ok(Heap {
            cells: Vec::from_slice(alloc, self.cells.as_slice())?,
        })
    }

    /// All cells, ascending.
    pub fn cells(&self) -> &[Cell]
        ensures entries { pairs result.now ≡ map.entries self.now }
        ensures cells { AreCells result.now }
    {
        self.cells.as_slice()
    }
}
