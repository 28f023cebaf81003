//! The panel of a row: its statement, its cells and its variables.

ghost use Rattle.std.specs.Prelude.{◌≡◌, ◌++◌, ◌<◌, IfOk, OnOk, T, length};
ghost use Rattle.std.specs.Ordering.{nat_cmp};
ghost use Rattle.std.specs.FinMap as map;
ghost use Rattle.gh_assert.specs.Cells.{pairs};
ghost use Rattle.gh_picture.specs.Rows as drawn;
ghost use Rattle.gh_picture.specs.Rows.{cells_of, IsPanelOf, IsPast};

use crate::layout::{Spot, number_of, spots_of};
use crate::scene::{Change, Role, Row};
use crate::shapes::{Link, Target, caption_group, cell_group, variable_group};
use crate::tree::{Attributes, Group, Items, Key, Panel};
use gh_assert::heap::Cell;
use gh_assert::store::Entry;
use gh_base::text::Text;
use itoa::Buffer;
use std::alloc::{AllocError, Global};

// Where the content of a cell leads, from one spot to another.
fn between(from: Spot, to: Spot) -> Link
    ensures { result ≡ drawn.link_between from to }
{
    if from.line != to.line {
        return Link::Jump { to };
    }
    if from.column < to.column && to.column - from.column == 1 {
        return Link::Beside;
    }
    Link::Back { to }
}

// Where the content of the cell of a number leads.
fn link_of(cells: &[Cell], spots: &[Spot], number: usize) -> Link
    requires ascending { T (map.is_sorted nat_cmp (pairs cells.now)) }
    requires one_each { length spots.now ≡ length cells.now }
    requires within { number < length cells.now }
    ensures { result ≡ drawn.link_of cells.now spots.now number }
{
    let to = cells[number].to;
    if to == 0 {
        return Link::Null;
    }
    match number_of(cells, to) {
        Some(other) => between(spots[number], spots[other]),
        None => Link::Lost,
    }
}

// How many of some variables have the value.
fn count_equal(entries: &[Entry], value: u32) -> usize
    ensures { result ≡ drawn.equal_count entries.now value }
{
    entries.iter().filter(|entry| entry.value == value).count()
}

// How many of some variables point to no cell.
fn count_apart(cells: &[Cell], entries: &[Entry]) -> usize
    requires { T (map.is_sorted nat_cmp (pairs cells.now)) }
    ensures { result ≡ drawn.apart_count cells.now entries.now }
{
    entries
        .iter()
        .filter(|entry| number_of(cells, entry.value).is_none())
        .count()
}

// Where the name of a variable stands, after those of others.
fn target_of(cells: &[Cell], spots: &[Spot], seen: &[Entry], value: u32) -> Target
    requires ascending { T (map.is_sorted nat_cmp (pairs cells.now)) }
    requires one_each { length spots.now ≡ length cells.now }
    ensures { result ≡ drawn.target_of cells.now spots.now seen.now value }
{
    match number_of(cells, value) {
        Some(other) => Target::Above {
            spot: spots[other],
            level: count_equal(seen, value),
        },
        None => Target::Apart {
            slot: count_apart(cells, seen),
        },
    }
}

// The role of the cell of a number.
fn role_at(roles: &[Role], number: usize) -> Role
    ensures { result ≡ drawn.role_at roles.now number }
{
    roles.get(number).copied().unwrap_or(Role::Owned)
}

// How the variable of a number has changed.
fn change_at(changes: &[Change], number: usize) -> Change
    ensures { result ≡ drawn.change_at changes.now number }
{
    changes.get(number).copied().unwrap_or(Change::Same)
}

fn push_cells(
    alloc: Global,
    groups: &mut Items<Group>,
    roles: &[Role],
    cells: &[Cell],
    spots: &[Spot],
) -> Result<(), AllocError>
    requires ascending { T (map.is_sorted nat_cmp (pairs cells.now)) }
    requires one_each { length spots.now ≡ length cells.now }
    ensures { OnOk result (groups.new ≡ groups.old ++ drawn.cell_groups roles.now cells.now spots.now 0 cells.now) }
{
    for (number, cell) in cells.iter().enumerate() {
        let role = role_at(roles, number);
        let link = link_of(cells, spots, number);
        groups.push(cell_group(alloc, *cell, role, spots[number], link)?)?;
    }
    Ok(())
}

fn push_variables(
    alloc: Global,
    groups: &mut Items<Group>,
    changes: &[Change],
    cells: &[Cell],
    spots: &[Spot],
    entries: &[Entry],
) -> Result<(), AllocError>
    requires ascending { T (map.is_sorted nat_cmp (pairs cells.now)) }
    requires one_each { length spots.now ≡ length cells.now }
    ensures { OnOk result (groups.new ≡ groups.old ++ drawn.store_groups changes.now cells.now spots.now entries.now) }
{
    for (number, entry) in entries.iter().enumerate() {
        let change = change_at(changes, number);
        let target = target_of(cells, spots, &entries[..number], entry.value);
        groups.push(variable_group(alloc, entry, change, target)?)?;
    }
    Ok(())
}

// The groups of a row, with the cells at their spots.
fn row_groups(alloc: Global, row: &Row, spots: &[Spot]) -> Result<Items<Group>, AllocError>
    requires { length spots.now ≡ length (cells_of row.now.state.heap) }
    ensures { IfOk result (λ g. g ≡ drawn.row_groups row.now spots.now) }
{
    let cells = row.state.heap.cells();
    let entries = row.state.store.entries();
    let mut groups = Items::new(alloc);
    groups.push(caption_group(alloc, row.statement.bytes(), row.note.bytes())?)?;
    push_cells(alloc, &mut groups, row.roles.as_slice(), cells, spots)?;
    push_variables(
        alloc,
        &mut groups,
        row.changes.as_slice(),
        cells,
        spots,
        entries,
    )?;
    Ok(groups)
}

// A row is moved down below so many lines.
fn row_attributes(alloc: Global, top: usize) -> Result<Attributes, AllocError>
    ensures { IfOk result (λ a. a ≡ drawn.row_attributes top) }
{
    let mut digits = Buffer::new();
    let mut place = Text::new(alloc);
    place.push(b"translate(10 ")?;
    place.push(digits.format(top).as_bytes())?;
    place.push(b"50)")?;
    Attributes::new(alloc)
        .with(alloc, Key::Class, b"row")?
        .with(alloc, Key::Transform, place.bytes())
}

/// A row with the number of the line after it, and of the columns that it takes.
#[derive(Debug, Drop)]
pub struct Drawn {
    pub panel: Panel,
    pub below: usize,
    pub columns: usize,
}

/// How many columns a text takes.
pub fn text_columns(text: &Text) -> usize
    ensures { result ≡ drawn.text_columns text.now }
{
    text.bytes().len() / 10 + 1
}

// How many columns cells take with their arrows.
fn cell_columns(spots: &[Spot]) -> usize
    ensures { result ≡ drawn.cell_columns spots.now }
{
    let mut columns = 2;
    for spot in spots {
        columns = columns.max(spot.column.saturating_add(2));
    }
    columns
}

// How many columns a row takes.
fn row_columns(row: &Row, spots: &[Spot]) -> usize
    ensures { result ≡ drawn.row_columns row.now spots.now }
{
    let words = text_columns(&row.statement).max(text_columns(&row.note));
    cell_columns(spots)
        .max(words)
        .max(row.state.store.entries().len())
}

// The number of a line past those of a row.
fn line_below(spots: &[Spot], top: usize) -> usize
    ensures { IsPast top spots.now result }
{
    let mut below = top.saturating_add(1);
    for spot in spots {
        below = below.max(top.saturating_add(spot.line).saturating_add(1));
    }
    below
}

/// Draws a row below so many lines.
pub fn draw_row(alloc: Global, row: &Row, top: usize) -> Result<Drawn, AllocError>
    ensures { IfOk result (λ d. IsPanelOf row.now top d.below d.columns d.panel) }
{
    let spots = spots_of(alloc, row.state.heap.cells(), row.state.store.entries())?;
    let groups = row_groups(alloc, row, spots.as_slice())?;
    let attributes = row_attributes(alloc, top)?;
    Ok(Drawn {
        panel: Panel { attributes, groups },
        below: line_below(spots.as_slice(), top),
        columns: row_columns(row, spots.as_slice()),
    })
}
