//! Drawings and their texts.

ghost use Rattle.std.specs.Prelude.{◌≡◌, ◌++◌, All, IfOk, OnOk};
ghost use Rattle.std.specs.List.{flat_map};
ghost use Rattle.std.specs.Fmt.{decimal};
ghost use Rattle.std.specs.FinMap.{entries};
ghost use Rattle.gh_assert.specs.Cells.{pair_of};
ghost use Rattle.gh_assert.specs.Stores.{listed_names};
ghost use Rattle.gh_trace.specs.Kept.{state_of};
ghost use Rattle.gh_draw.specs.Drawings.{cell_text, state_lines as lines_of};
ghost use Rattle.gh_draw.specs.Drawn.{entry_text, kept_lines, kept_text, kept_texts, drawing_text, IsValue};
ghost use Rattle.gh_draw.specs.Drawn.{IsDrawnCell, HasValues};

use gh_assert::heap::{Cell, Heap};
use gh_assert::store::{Entry, Store};
use gh_base::text::Text;
use gh_trace::state::{State, Trace};
use std::alloc::{AllocError, Global};
use std::fmt::Write;

/// A trace for the condition of a number.
#[derive(Debug, Drop)]
pub struct Drawing {
    pub condition: u32,
    pub trace: Trace,
}

// Writes a number in decimal digits.
fn push_number(out: &mut Text, digits: &mut String, number: usize) -> Result<(), AllocError>
    ensures { OnOk result (out.new ≡ out.old ++ decimal number) }
{
    digits.clear();
    write!(digits, "{number}")?;
    out.push(digits.as_bytes())
}

fn push_entry(out: &mut Text, digits: &mut String, entry: &Entry) -> Result<(), AllocError>
    ensures text { OnOk result (out.new ≡ out.old ++ entry_text entry.now) }
    ensures value { OnOk result (IsValue entry.now.value) }
{
    out.push(b" ")?;
    out.push(entry.name.bytes())?;
    out.push(b"=")?;
    push_number(out, digits, entry.value as usize)?;
    Ok(())
}

fn push_cell(out: &mut Text, digits: &mut String, cell: &Cell) -> Result<(), AllocError>
    ensures text { OnOk result (out.new ≡ out.old ++ cell_text (pair_of cell.now)) }
    ensures values { OnOk result (IsValue cell.now.at × IsValue cell.now.to) }
{
    out.push(b" ")?;
    push_number(out, digits, cell.at as usize)?;
    out.push(b"->")?;
    push_number(out, digits, cell.to as usize)?;
    Ok(())
}

fn push_store(out: &mut Text, digits: &mut String, store: &Store) -> Result<(), AllocError>
    ensures text { OnOk result (out.new ≡ out.old ++ flat_map entry_text store.now) }
    ensures values { OnOk result (All (λ e. IsValue e.value) store.now) }
{
    for entry in store.entries() {
        push_entry(out, digits, entry)?;
    }
    Ok(())
}

fn push_heap(out: &mut Text, digits: &mut String, heap: &Heap) -> Result<(), AllocError>
    ensures text { OnOk result (out.new ≡ out.old ++ flat_map cell_text (entries heap.now)) }
    ensures cells { OnOk result (All IsDrawnCell (entries heap.now)) }
{
    for cell in heap.cells() {
        push_cell(out, digits, cell)?;
    }
    Ok(())
}

fn push_lines(out: &mut Text, digits: &mut String, state: &State) -> Result<(), AllocError>
    ensures text { OnOk result (out.new ≡ out.old ++ kept_lines state.now) }
    ensures values { OnOk result (HasValues state.now) }
{
    out.push(b"store")?;
    push_store(out, digits, &state.store)?;
    out.push(b"\nheap")?;
    push_heap(out, digits, &state.heap)?;
    out.push(b"\n")?;
    Ok(())
}

fn push_state(
    out: &mut Text,
    digits: &mut String,
    number: usize,
    state: &State,
) -> Result<(), AllocError>
    ensures text { OnOk result (out.new ≡ out.old ++ kept_text number state.now) }
    ensures values { OnOk result (HasValues state.now) }
{
    out.push(b"state ")?;
    push_number(out, digits, number)?;
    out.push(b"\n")?;
    push_lines(out, digits, state)?;
    Ok(())
}

fn push_states(out: &mut Text, digits: &mut String, states: &[State]) -> Result<(), AllocError>
    ensures text { OnOk result (out.new ≡ out.old ++ kept_texts 0 states.now) }
    ensures values { OnOk result (All HasValues states.now) }
{
    for (number, state) in states.iter().enumerate() {
        push_state(out, digits, number, state)?;
    }
    Ok(())
}

/// The two lines of a drawing that tell a state: `store` with the variables in their order, and
/// `heap` with the cells in ascending order.
pub fn state_lines(alloc: Global, state: &State) -> Result<Text, AllocError>
    ensures { IfOk result (λ t. t ≡ lines_of (listed_names state.now.store) (state_of state.now)) }
{
    let mut text = Text::new(alloc);
    let mut digits = String::new(alloc);
    let _entries = state.store.entries();
    push_lines(&mut text, &mut digits, state)?;
    Ok(text)
}

/// The text of a drawing. Its values are within 32 bits and no cell stands at null, as their types say: so a drawing
/// over the variables of its condition is read back.
pub fn draw(alloc: Global, drawing: &Drawing) -> Result<Text, AllocError>
    ensures text { IfOk result (λ t. t ≡ drawing_text drawing.now.condition drawing.now.trace.states.items) }
    ensures values { OnOk result (All HasValues drawing.now.trace.states.items) }
{
    let mut text = Text::new(alloc);
    let mut digits = String::new(alloc);
    text.push(b"drawing\ncondition ")?;
    push_number(&mut text, &mut digits, drawing.condition as usize)?;
    text.push(b"\n")?;
    push_states(&mut text, &mut digits, drawing.trace.states.as_slice())?;
    text.push(b"end\n")?;
    Ok(text)
}
