//! Reading drawings back.

ghost use Rattle.std.specs.Prelude.{◌≡◌, ◌++◌, IfOk, OnOk, OnErr, IfNone};
ghost use Rattle.gh_ast.specs.Plain.{program_of, procedure_of};
ghost use Rattle.gh_ast.specs.Programs.{names, variable_names};
ghost use Rattle.gh_draw.specs.Reading.{IsFrontRead, ShowsWord, heading, ShowsEntries, ShowsCellAbove, ShowsState};
ghost use Rattle.gh_draw.specs.Reading.{AreStatesRead, ShowsHeap, ShowsCondition, IsTraceFound, IsSkipped};
ghost use Rattle.gh_draw.specs.Reading.{AreDistinctNames, IsDrawingIn};

use crate::cursor::Cursor;
use crate::drawing::Drawing;
use gh_assert::heap::Heap;
use gh_assert::store::Store;
use gh_ast::typed::Typed;
use gh_ast::{Occ, Procedure};
use gh_base::name::Name;
use gh_path::conditions::Conditions;
use gh_trace::state::{State, Trace};
use std::alloc::{AllocError, Global};

/// The longest drawing file that is taken, in bytes.
pub const MOST_DRAWN: usize = 4_194_304;

// Adds the names of some variables.
fn push_names(alloc: Global, all: &mut Vec<Name>, variables: &[Occ]) -> Result<(), AllocError>
    ensures { OnOk result (all.new.items ≡ all.old.items ++ names variables.now) }
{
    for variable in variables {
        all.push(variable.name.copy(alloc)?)?;
    }
    Ok(())
}

/// The names of the variables of a procedure, in their order.
pub fn variables(alloc: Global, procedure: &Procedure) -> Result<Vec<Name>, AllocError>
    ensures { IfOk result (λ v. v.items ≡ variable_names (procedure_of procedure.now)) }
{
    let mut all = Vec::new(alloc);
    push_names(alloc, &mut all, procedure.parameters.as_slice())?;
    push_names(alloc, &mut all, procedure.results.as_slice())?;
    if let Some(body) = &procedure.body {
        push_names(alloc, &mut all, body.locals.as_slice())?;
    }
    Ok(all)
}

// A store with a value for each name, in their order; none where the text shows no such values.
fn read_values(
    alloc: Global,
    cursor: &mut Cursor<'_>,
    names: &[Name],
) -> Result<Option<Store>, AllocError>
    requires { AreDistinctNames names.now }
    ensures { IfOk result (IsFrontRead (ShowsEntries names.now) cursor.old.text.now cursor.new.text.now) }
{
    let mut store = Store::new(alloc);
    for name in names {
        let Some(value) = cursor.value(name.bytes()) else {
            return Ok(None);
        };
        store.add(alloc, name, value)?;
    }
    Ok(Some(store))
}

/// A store with a value for each name, in their order; none where the text shows no such values. Then, and where
/// memory runs out, the text is left as it was.
pub fn read_store(
    alloc: Global,
    cursor: &mut Cursor<'_>,
    names: &[Name],
) -> Result<Option<Store>, AllocError>
    requires { AreDistinctNames names.now }
    ensures read { IfOk result (IsFrontRead (ShowsEntries names.now) cursor.old.text.now cursor.new.text.now) }
    ensures stays { IfOk result (λ o. IfNone o (cursor.new.text.now ≡ cursor.old.text.now)) }
    ensures err { OnErr result (cursor.new.text.now ≡ cursor.old.text.now) }
{
    let mut ahead = Cursor { text: cursor.text };
    let Some(store) = read_values(alloc, &mut ahead, names)? else {
        return Ok(None);
    };
    cursor.text = ahead.text;
    Ok(Some(store))
}

// The cells up to the end of the line, and that end; none where the text shows no ascending cells there.
fn read_cells(alloc: Global, cursor: &mut Cursor<'_>) -> Result<Option<Heap>, AllocError>
    ensures { IfOk result (IsFrontRead ShowsHeap cursor.old.text.now cursor.new.text.now) }
{
    let mut heap = Heap::new(alloc);
    let mut low = 0;
    'cells: while cursor.take(b"\n").is_none() {
        let Some((at, to)) = read_cell(cursor, low) else {
            return Ok(None);
        };
        heap.put(at, to)?;
        low = at;
    }
    Ok(Some(heap))
}

/// The cells up to the end of the line, and that end; none where the text shows no ascending cells there. Then, and
/// where memory runs out, the text is left as it was.
pub fn read_heap(alloc: Global, cursor: &mut Cursor<'_>) -> Result<Option<Heap>, AllocError>
    ensures read { IfOk result (IsFrontRead ShowsHeap cursor.old.text.now cursor.new.text.now) }
    ensures stays { IfOk result (λ o. IfNone o (cursor.new.text.now ≡ cursor.old.text.now)) }
    ensures err { OnErr result (cursor.new.text.now ≡ cursor.old.text.now) }
{
    let mut ahead = Cursor { text: cursor.text };
    let Some(heap) = read_cells(alloc, &mut ahead)? else {
        return Ok(None);
    };
    cursor.text = ahead.text;
    Ok(Some(heap))
}

// A cell above a place.
fn read_cell(cursor: &mut Cursor<'_>, low: u32) -> Option<(u32, u32)>
    ensures { IsFrontRead (ShowsCellAbove low) cursor.old.text.now cursor.new.text.now result }
{
    cursor.take(b" ")?;
    let (at, to) = cursor.cell()?;
    if at <= low {
        return None;
    }
    Some((at, to))
}

// The lines before the values of a state.
fn read_heading(
    alloc: Global,
    cursor: &mut Cursor<'_>,
    number: usize,
) -> Result<Option<()>, AllocError>
    ensures { IfOk result (IsFrontRead (ShowsWord (heading number)) cursor.old.text.now cursor.new.text.now) }
{
    let heading = format!(in alloc; "state {number}\nstore")?;
    Ok(cursor.take(heading.as_bytes()))
}

// The state of a number over some names.
fn read_state(
    alloc: Global,
    cursor: &mut Cursor<'_>,
    number: usize,
    names: &[Name],
) -> Result<Option<State>, AllocError>
    requires { AreDistinctNames names.now }
    ensures { IfOk result (IsFrontRead (ShowsState names.now number) cursor.old.text.now cursor.new.text.now) }
{
    if read_heading(alloc, cursor, number)?.is_none() {
        return Ok(None);
    }
    let Some(store) = read_store(alloc, cursor, names)? else {
        return Ok(None);
    };
    if cursor.take(b"\nheap").is_none() {
        return Ok(None);
    }
    let Some(heap) = read_heap(alloc, cursor)? else {
        return Ok(None);
    };
    Ok(Some(State { store, heap }))
}

// The states up to the end of the drawing.
fn read_states(
    alloc: Global,
    cursor: &mut Cursor<'_>,
    names: &[Name],
) -> Result<Option<Vec<State>>, AllocError>
    requires { AreDistinctNames names.now }
    ensures { IfOk result (AreStatesRead names.now cursor.old.text.now cursor.new.text.now) }
{
    let mut states = Vec::new(alloc);
    'states: while cursor.take(b"end\n").is_none() {
        let number = states.as_slice().len();
        let Some(state) = read_state(alloc, cursor, number, names)? else {
            return Ok(None);
        };
        states.push(state)?;
    }
    Ok(Some(states))
}

// Skips the lines before the first that is `drawing`, and that line.
fn skip(cursor: &mut Cursor<'_>) -> bool
    ensures { IsSkipped cursor.old.text.now cursor.new.text.now result }
{
    'lines: while cursor.take(b"drawing\n").is_none() {
        if !cursor.line() {
            return false;
        }
    }
    true
}

// The number of the condition.
fn read_number(cursor: &mut Cursor<'_>) -> Option<u32>
    ensures { IsFrontRead ShowsCondition cursor.old.text.now cursor.new.text.now result }
{
    cursor.take(b"condition ")?;
    let number = cursor.number()?;
    cursor.take(b"\n")?;
    Some(number)
}

// The states for the condition of a number, up to the end of the text.
fn read_trace(
    alloc: Global,
    typed: &Typed,
    conditions: &Conditions,
    cursor: &mut Cursor<'_>,
    number: u32,
) -> Result<Option<Trace>, AllocError>
    requires { program_of conditions.now ≡ program_of typed.now }
    ensures { IfOk result (IsTraceFound (program_of typed.now) number cursor.old.text.now) }
{
    let Some(condition) = conditions.condition(alloc, number)? else {
        return Ok(None);
    };
    let procedure = &typed.program().procedures[condition.procedure as usize];
    let names = variables(alloc, procedure)?;
    let Some(states) = read_states(alloc, cursor, names.as_slice())? else {
        return Ok(None);
    };
    if states.as_slice().is_empty() {
        return Ok(None);
    }
    if !cursor.text.is_empty() {
        return Ok(None);
    }
    Ok(Some(Trace { states }))
}

/// The drawing that a text has after lines that are skipped, if it has one of a condition of the
/// program.
pub fn read_drawing(
    alloc: Global,
    typed: &Typed,
    conditions: &Conditions,
    text: &[u8],
) -> Result<Option<Drawing>, AllocError>
    requires { program_of conditions.now ≡ program_of typed.now }
    ensures { IfOk result (IsDrawingIn (program_of typed.now) text.now) }
{
    let mut cursor = Cursor { text };
    if !skip(&mut cursor) {
        return Ok(None);
    }
    let Some(condition) = read_number(&mut cursor) else {
        return Ok(None);
    };
    let Some(trace) = read_trace(alloc, typed, conditions, &mut cursor, condition)? else {
        return Ok(None);
    };
    Ok(Some(Drawing { condition, trace }))
}
