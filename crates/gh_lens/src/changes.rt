//! What differs between two states.

ghost use Rattle.std.specs.Prelude.{◌≡◌, ◌++◌, IfOk, OnOk};
ghost use Rattle.std.specs.FinMap as map;
ghost use Rattle.gh_assert.specs.Cells.{pairs};
ghost use Rattle.gh_assert.specs.Stores.{store_of};
ghost use Rattle.gh_lens.specs.Changes as told;

use gh_assert::heap::{Cell, Heap};
use gh_assert::store::Store;
use gh_base::name::Name;
use std::alloc::{AllocError, Global};

/// A variable whose value changes.
#[derive(Debug, Drop)]
pub struct VariableChange {
    pub name: Name,
    pub old: u32,
    pub new: u32,
}

/// A cell whose content changes, that comes or that goes.
#[derive(Clone, Copy, Debug, PartialEq, Eq)]
pub struct CellChange {
    pub at: u32,
    pub old: Option<u32>,
    pub new: Option<u32>,
}

/// The variables of a store whose value in another is a different one, in their order.
pub fn variable_changes(
    alloc: Global,
    old: &Store,
    new: &Store,
) -> Result<Vec<VariableChange>, AllocError>
    ensures { IfOk result (λ v. v.items ≡ told.variable_changes old.now (store_of new.now)) }
{
    let mut all = Vec::new(alloc);
    for entry in old.entries() {
        let value = new.get(&entry.name).unwrap_or(0);
        if value != entry.value {
            all.push(VariableChange {
                name: entry.name.copy(alloc)?,
                old: entry.value,
                new: value,
            })?;
        }
    }
    Ok(all)
}

/// Whether a place has this content.
pub fn is_content(content: Option<u32>, value: u32) -> bool
    ensures { result ≡ told.is_content content value }
{
    match content {
        Some(found) => found == value,
        None => false,
    }
}

// Adds the cells that are gone from a heap or have another content there.
fn push_old(all: &mut Vec<CellChange>, cells: &[Cell], new: &Heap) -> Result<(), AllocError>
    ensures { OnOk result (all.new.items ≡ all.old.items ++ told.old_changes new.now (pairs cells.now)) }
{
    for cell in cells {
        let content = new.get(cell.at);
        if !is_content(content, cell.to) {
            all.push(CellChange {
                at: cell.at,
                old: Some(cell.to),
                new: content,
            })?;
        }
    }
    Ok(())
}

// Adds the cells that a heap doesn't have.
fn push_new(all: &mut Vec<CellChange>, old: &Heap, cells: &[Cell]) -> Result<(), AllocError>
    ensures { OnOk result (all.new.items ≡ all.old.items ++ told.new_changes old.now (pairs cells.now)) }
{
    for cell in cells {
        if old.get(cell.at).is_none() {
            all.push(CellChange {
                at: cell.at,
                old: None,
                new: Some(cell.to),
            })?;
        }
    }
    Ok(())
}

/// The cells in which two heaps differ, each once: those that are gone or have another content,
/// ascending, then those that came, ascending.
pub fn cell_changes(alloc: Global, old: &Heap, new: &Heap) -> Result<Vec<CellChange>, AllocError>
    ensures { IfOk result (λ v. v.items ≡ told.cell_changes old.now new.now) }
{
    let mut all = Vec::new(alloc);
    push_old(&mut all, old.cells(), new)?;
    push_new(&mut all, old, new.cells())?;
    Ok(all)
}
