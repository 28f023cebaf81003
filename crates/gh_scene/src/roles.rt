//! How the cells and the variables of a state stand to the step that led to it.

ghost use Rattle.std.specs.Prelude.{◌≡◌, IfOk};
ghost use Rattle.gh_assert.specs.Cells.{pair_of};
ghost use Rattle.gh_assert.specs.Stores.{store_of};
ghost use Rattle.gh_scene.specs.Roles as told;

use gh_assert::heap::{Cell, Heap};
use gh_assert::store::Store;
use gh_lens::changes::is_content;
use gh_picture::scene::{Change, Role};
use std::alloc::{AllocError, Global};

fn role_by(is_spare: bool, is_aside: bool, is_same: bool) -> Role
    ensures { result ≡ told.role_by is_spare is_aside is_same }
{
    match (is_spare, is_aside, is_same) {
        (true, _, _) => Role::Leaked,
        (false, true, _) => Role::Framed,
        (false, false, true) => Role::Owned,
        (false, false, false) => Role::Changed,
    }
}

// The role of a cell, given the heap before, what was set aside, and what is left over.
fn role_of(old: &Heap, aside: &Heap, spare: &Heap, cell: &Cell) -> Role
    ensures { result ≡ told.role_of old.now aside.now spare.now (pair_of cell.now) }
{
    role_by(
        spare.get(cell.at).is_some(),
        aside.get(cell.at).is_some(),
        is_content(old.get(cell.at), cell.to),
    )
}

/// The roles of the cells of a heap, the places ascending, given the heap before, the cells that were set
/// aside, and those that are left over.
pub fn roles_of(
    alloc: Global,
    old: &Heap,
    aside: &Heap,
    spare: &Heap,
    new: &Heap,
) -> Result<Vec<Role>, AllocError>
    ensures { IfOk result (λ v. v.items ≡ told.roles_of old.now aside.now spare.now new.now) }
{
    let mut roles = Vec::new(alloc);
    for cell in new.cells() {
        roles.push(role_of(old, aside, spare, cell))?;
    }
    Ok(roles)
}

fn change_between(old: u32, new: u32) -> Change
    ensures { result ≡ told.change_between old new }
{
    if old == new {
        Change::Same
    } else {
        Change::Changed
    }
}

/// For each variable of a store, in their order, whether it has another value than in the store
/// before.
pub fn changes_of(alloc: Global, old: &Store, new: &Store) -> Result<Vec<Change>, AllocError>
    ensures { IfOk result (λ v. v.items ≡ told.changes_of (store_of old.now) new.now) }
{
    let mut changes = Vec::new(alloc);
    for entry in new.entries() {
        let value = old.get(&entry.name).unwrap_or(0);
        changes.push(change_between(value, entry.value))?;
    }
    Ok(changes)
}
