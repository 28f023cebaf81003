//! Where cells stand: each list in a line of its own, from left to right.

ghost use Rattle.std.specs.Prelude.{◌≡◌, ◌++◌, ◌+◌, ◌<◌, ◌≤◌, ◌^◌, None, IfOk, IfSome, IsSome, OnOk, T, length};
ghost use Rattle.std.specs.Prelude.{map as each};
ghost use Rattle.std.specs.Ordering.{nat_cmp};
ghost use Rattle.std.specs.FinMap as map;
ghost use Rattle.gh_assert.specs.Cells.{pairs};
ghost use Rattle.gh_picture.specs.Spots.{number_in, heads, pointed, numbers, order_of, AreSpots, AreInOrder, AreWithin};
ghost use Rattle.gh_picture.specs.Placing.{AllBegin, AllPlaced, AreFlags, EachStands, HasLines, MayBegin, StandsAt};
ghost use Rattle.gh_picture.specs.Placing.{StillStands, spot_on};

use gh_assert::heap::{Cell, place};
use gh_assert::store::Entry;
use std::alloc::{AllocError, Global};

/// Where a cell stands: the number of its line, from 1, and its number in it, from 0.
#[derive(Clone, Copy, Debug, PartialEq, Eq)]
pub struct Spot {
    pub line: usize,
    pub column: usize,
}

/// The number of the cell of a place, if there is one.
pub fn number_of(cells: &[Cell], at: u32) -> Option<usize>
    requires { T (map.is_sorted nat_cmp (pairs cells.now)) }
    ensures number { result ≡ number_in cells.now at }
    ensures within { IfSome result (λ i. i < length cells.now) }
{
    place(cells, at).ok()
}

// For each cell whether some cell leads to it.
fn led_to(alloc: Global, cells: &[Cell]) -> Result<Vec<bool>, AllocError>
    requires { T (map.is_sorted nat_cmp (pairs cells.now)) }
    ensures { IfOk result (λ flags. AreFlags cells.now cells.now flags.items) }
{
    let mut flags = vec![in alloc; false; cells.len()]?;
    for cell in cells {
        if let Some(to) = number_of(cells, cell.to) {
            flags[to] = true;
        }
    }
    Ok(flags)
}

// Adds the numbers of the cells to which none leads.
fn push_heads(order: &mut Vec<usize>, cells: &[Cell], flags: &[bool]) -> Result<(), AllocError>
    requires { AreFlags cells.now cells.now flags.now }
    ensures { OnOk result (order.new.items ≡ order.old.items ++ heads cells.now 0 cells.now) }
{
    for (number, _) in cells.iter().enumerate() {
        if !flags[number] {
            order.push(number)?;
        }
    }
    Ok(())
}

// Adds the numbers of the cells to which variables point.
fn push_pointed(order: &mut Vec<usize>, cells: &[Cell], entries: &[Entry]) -> Result<(), AllocError>
    requires { T (map.is_sorted nat_cmp (pairs cells.now)) }
    ensures { OnOk result (order.new.items ≡ order.old.items ++ pointed cells.now entries.now) }
{
    for entry in entries {
        if let Some(number) = number_of(cells, entry.value) {
            order.push(number)?;
        }
    }
    Ok(())
}

// Adds the numbers of all cells.
fn push_numbers(order: &mut Vec<usize>, cells: &[Cell]) -> Result<(), AllocError>
    ensures { OnOk result (order.new.items ≡ order.old.items ++ numbers 0 cells.now) }
{
    for (number, _) in cells.iter().enumerate() {
        order.push(number)?;
    }
    Ok(())
}

// The order in which cells begin lines.
fn order(alloc: Global, cells: &[Cell], entries: &[Entry]) -> Result<Vec<usize>, AllocError>
    requires { T (map.is_sorted nat_cmp (pairs cells.now)) }
    ensures { IfOk result (λ order. order.items ≡ order_of cells.now entries.now) }
{
    let flags = led_to(alloc, cells)?;
    let mut order = Vec::new(alloc);
    push_heads(&mut order, cells, flags.as_slice())?;
    push_pointed(&mut order, cells, entries)?;
    push_numbers(&mut order, cells)?;
    Ok(order)
}

// Places a cell and those to which it leads, up to one that stands already.
fn place_line(cells: &[Cell], spots: &mut [Option<Spot>], line: usize, from: usize)
    requires ascending { T (map.is_sorted nat_cmp (pairs cells.now)) }
    requires lines { HasLines cells.now spots.old line }
    requires within { from < length cells.now }
    ensures lines { HasLines cells.now spots.new (line + 1) }
    ensures kept { StillStands spots.old spots.new }
    ensures placed { IsSome (spot_on spots.new from) }
    ensures begins { spot_on spots.old from ≡ None → StandsAt spots.new from (record { line = line; column = 0 }) }
{
    let mut at = from;
    let mut column = 0;
    while spots[at].is_none() {
        spots[at] = Some(Spot { line, column });
        column += 1;
        match number_of(cells, cells[at].to) {
            Some(next) => at = next,
            None => return,
        }
    }
}

// Begins a line at a cell that does not stand already, and answers the number of the line to come.
fn begin_line(cells: &[Cell], spots: &mut [Option<Spot>], line: usize, from: usize) -> usize
    requires ascending { T (map.is_sorted nat_cmp (pairs cells.now)) }
    requires lines { HasLines cells.now spots.old line }
    requires within { from < length cells.now }
    requires room { line + 1 < 2 ^ 64 }
    ensures lines { HasLines cells.now spots.new result }
    ensures kept { StillStands spots.old spots.new }
    ensures placed { IsSome (spot_on spots.new from) }
    ensures few { result ≤ line + 1 }
    ensures begins { MayBegin spots.new line from result }
{
    if spots[from].is_some() {
        return line;
    }
    place_line(cells, spots, line, from);
    line + 1
}

// Begins a line at each cell that does not stand already, in an order, and answers the number of the
// line to come.
fn place_each(cells: &[Cell], spots: &mut [Option<Spot>], order: &[usize]) -> usize
    requires ascending { T (map.is_sorted nat_cmp (pairs cells.now)) }
    requires within { AreWithin cells.now order.now }
    requires lines { HasLines cells.now spots.old 1 }
    ensures lines { HasLines cells.now spots.new result }
    ensures begun { AllBegin order.now spots.new result }
    ensures all { EachStands spots.new order.now }
{
    let mut line = 1;
    for from in order {
        line = begin_line(cells, spots, line, *from);
    }
    line
}

// The spots of cells that all stand.
fn all_placed(alloc: Global, spots: &[Option<Spot>]) -> Result<Vec<Spot>, AllocError>
    requires { AllPlaced spots.now (length spots.now) }
    ensures { IfOk result (λ placed. each Some placed.items ≡ spots.now) }
{
    let mut placed = Vec::new(alloc);
    for spot in spots {
        match spot {
            Some(spot) => placed.push(*spot)?,
            None => unreachable!(),
        }
    }
    Ok(placed)
}

/// A spot for each cell.
///
/// Lines begin at cells to which none leads, then at cells to which variables point, then at the
/// others, each in their order. A search for each cell and variable.
pub fn spots_of(alloc: Global, cells: &[Cell], entries: &[Entry]) -> Result<Vec<Spot>, AllocError>
    requires { T (map.is_sorted nat_cmp (pairs cells.now)) }
    ensures lists { IfOk result (λ spots. AreSpots cells.now spots.items) }
    ensures order { IfOk result (λ spots. AreInOrder (order_of cells.now entries.now) spots.items) }
{
    let mut spots = vec![in alloc; None; cells.len()]?;
    let order = order(alloc, cells, entries)?;
    let _lines = place_each(cells, spots.as_mut_slice(), order.as_slice());
    all_placed(alloc, spots.as_slice())
}
