//! The lines that tell what changes, and what is handed over.

ghost use Rattle.std.specs.Prelude.{◌≡◌, ◌++◌, OnOk};
ghost use Rattle.std.specs.List.{flat_map};
ghost use Rattle.std.specs.Fmt.{decimal};
ghost use Rattle.std.specs.FinMap as map;
ghost use Rattle.gh_lens.specs.Lines as told;
ghost use Rattle.gh_assert.specs.Cells.{pairs};
ghost use Rattle.gh_draw.specs.Drawings.{line};
ghost use Rattle.gh_log.specs.Texts.{numbers_text};

use crate::changes::{CellChange, VariableChange, cell_changes, variable_changes};
use crate::exchange::Exchange;
use gh_assert::heap::{Cell, Heap};
use gh_base::text::Text;
use gh_trace::state::State;
use std::alloc::{AllocError, Global};

/// Adds a number in decimal digits.
pub fn push_number(alloc: Global, text: &mut Text, number: u32) -> Result<(), AllocError>
    ensures { OnOk result (text.new ≡ text.old ++ decimal number) }
{
    let written = format!(in alloc; "{number}")?;
    text.push(written.as_bytes())
}

fn push_variable(alloc: Global, text: &mut Text, change: &VariableChange) -> Result<(), AllocError>
    ensures { OnOk result (text.new ≡ text.old ++ told.variable_line change.now) }
{
    text.push(b"  ")?;
    text.push(change.name.bytes())?;
    text.push(b": ")?;
    push_number(alloc, text, change.old)?;
    text.push(b" -> ")?;
    push_number(alloc, text, change.new)?;
    text.push(b"\n")?;
    Ok(())
}

fn push_contents(
    alloc: Global,
    text: &mut Text,
    old: Option<u32>,
    new: Option<u32>,
) -> Result<(), AllocError>
    ensures { OnOk result (text.new ≡ text.old ++ told.contents_text old new) }
{
    match (old, new) {
        (Some(old), Some(new)) => {
            push_number(alloc, text, old)?;
            text.push(b" -> ")?;
            push_number(alloc, text, new)?;
            Ok(())
        }
        (Some(old), None) => {
            push_number(alloc, text, old)?;
            text.push(b", gone")?;
            Ok(())
        }
        (None, Some(new)) => {
            text.push(b"new, ")?;
            push_number(alloc, text, new)?;
            Ok(())
        }
        (None, None) => Ok(()),
    }
}

fn push_cell(alloc: Global, text: &mut Text, change: &CellChange) -> Result<(), AllocError>
    ensures { OnOk result (text.new ≡ text.old ++ told.cell_line change.now) }
{
    text.push(b"  ")?;
    push_number(alloc, text, change.at)?;
    text.push(b".next: ")?;
    push_contents(alloc, text, change.old, change.new)?;
    text.push(b"\n")?;
    Ok(())
}

fn push_variables(
    alloc: Global,
    text: &mut Text,
    changes: &[VariableChange],
) -> Result<(), AllocError>
    ensures { OnOk result (text.new ≡ text.old ++ flat_map told.variable_line changes.now) }
{
    for change in changes {
        push_variable(alloc, text, change)?;
    }
    Ok(())
}

fn push_cells(alloc: Global, text: &mut Text, changes: &[CellChange]) -> Result<(), AllocError>
    ensures { OnOk result (text.new ≡ text.old ++ flat_map told.cell_line changes.now) }
{
    for change in changes {
        push_cell(alloc, text, change)?;
    }
    Ok(())
}

/// Adds a line for each variable and each cell in which a state differs from an earlier one.
pub fn push_changes(
    alloc: Global,
    text: &mut Text,
    old: &State,
    new: &State,
) -> Result<(), AllocError>
    ensures { OnOk result (text.new ≡ text.old ++ told.changes_text old.now new.now) }
{
    let variables = variable_changes(alloc, &old.store, &new.store)?;
    let cells = cell_changes(alloc, &old.heap, &new.heap)?;
    push_variables(alloc, text, variables.as_slice())?;
    push_cells(alloc, text, cells.as_slice())?;
    Ok(())
}

/// Adds numbers, each after a space.
pub fn push_numbers(alloc: Global, text: &mut Text, numbers: &[u32]) -> Result<(), AllocError>
    ensures { OnOk result (text.new ≡ text.old ++ numbers_text numbers.now) }
{
    for number in numbers {
        text.push(b" ")?;
        push_number(alloc, text, *number)?;
    }
    Ok(())
}

// Adds the places of some cells.
fn push_places_of(alloc: Global, text: &mut Text, cells: &[Cell]) -> Result<(), AllocError>
    ensures { OnOk result (text.new ≡ text.old ++ told.places_text (pairs cells.now)) }
{
    for cell in cells {
        text.push(b" ")?;
        push_number(alloc, text, cell.at)?;
    }
    Ok(())
}

/// Adds the places of a heap, each after a space.
pub fn push_places(alloc: Global, text: &mut Text, heap: &Heap) -> Result<(), AllocError>
    ensures { OnOk result (text.new ≡ text.old ++ numbers_text (map.keys heap.now)) }
{
    push_places_of(alloc, text, heap.cells())
}

// Adds a line of some words and numbers.
fn push_numbers_line(
    alloc: Global,
    text: &mut Text,
    head: &[u8],
    numbers: &[u32],
) -> Result<(), AllocError>
    ensures { OnOk result (text.new ≡ text.old ++ line (head.now ++ numbers_text numbers.now)) }
{
    text.push(head)?;
    push_numbers(alloc, text, numbers)?;
    text.push(b"\n")?;
    Ok(())
}

/// Adds a line of some words and the places of a heap.
pub fn push_heap_line(
    alloc: Global,
    text: &mut Text,
    head: &[u8],
    heap: &Heap,
) -> Result<(), AllocError>
    ensures { OnOk result (text.new ≡ text.old ++ line (head.now ++ numbers_text (map.keys heap.now))) }
{
    text.push(head)?;
    push_places(alloc, text, heap)?;
    text.push(b"\n")?;
    Ok(())
}

/// Adds three lines: the places that are handed over, those that are left aside, those that came back.
pub fn push_exchange(alloc: Global, text: &mut Text, exchange: &Exchange) -> Result<(), AllocError>
    ensures { OnOk result (text.new ≡ text.old ++ told.exchange_text exchange.now) }
{
    push_numbers_line(alloc, text, b"  handed over:", exchange.handed.as_slice())?;
    push_heap_line(alloc, text, b"  left aside:", &exchange.frame)?;
    push_heap_line(alloc, text, b"  came back:", &exchange.back)?;
    Ok(())
}
