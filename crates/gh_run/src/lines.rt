//! The lines of a state file, one after the other.

ghost use Rattle.std.specs.Prelude.{◌≤◌, length, IfOk};
ghost use Rattle.gh_ast.specs.Plain.{program_of};
ghost use Rattle.gh_draw.specs.Reading.{IsFrontRead, AreDistinctNames};
ghost use Rattle.gh_run.specs.Lines.{IsLineTaken, IsNumberFound, ShowsProcedure, ShowsStore, ShowsCellLine};

use gh_assert::heap::Heap;
use gh_assert::store::Store;
use gh_ast::Program;
use gh_ast::typed::Typed;
use gh_base::name::Name;
use gh_draw::cursor::{Cursor, line_end};
use gh_draw::reading::{read_heap, read_store};
use std::alloc::{AllocError, Global};

// Takes the first line, and gives it without its line feed; none where there is no line feed.
fn take_line<'t>(cursor: &mut Cursor<'t>) -> Option<&'t [u8]>
    ensures { IsLineTaken cursor.old.text.now cursor.new.text.now result }
{
    let text = cursor.text;
    let end = line_end(text)?;
    cursor.text = &text[end + 1..];
    Some(&text[..end])
}

// The number of the procedure of a name.
fn number_of(program: &Program, name: &[u8]) -> Option<u16>
    requires { length (program_of program.now).procedures ≤ 256 }
    ensures { IsNumberFound (program_of program.now) name.now result }
{
    for (i, procedure) in program.procedures.iter().enumerate() {
        if procedure.name.name.bytes() == name {
            return Some(i as u16);
        }
    }
    None
}

/// The number of the procedure that the first line names.
pub fn read_procedure(typed: &Typed, cursor: &mut Cursor<'_>) -> Option<u16>
    ensures { IsFrontRead (ShowsProcedure (program_of typed.now)) cursor.old.text.now cursor.new.text.now result }
{
    let line = take_line(cursor)?;
    let name = line.strip_prefix(b"procedure ")?;
    number_of(typed.program(), name)
}

/// The store that the first line tells, with a value for each name in their order.
pub fn read_store_line(
    alloc: Global,
    cursor: &mut Cursor<'_>,
    names: &[Name],
) -> Result<Option<Store>, AllocError>
    requires { AreDistinctNames names.now }
    ensures { IfOk result (IsFrontRead (ShowsStore names.now) cursor.old.text.now cursor.new.text.now) }
{
    let Some(line) = take_line(cursor) else {
        return Ok(None);
    };
    let mut inside = Cursor { text: line };
    if inside.take(b"store").is_none() {
        return Ok(None);
    }
    let Some(store) = read_store(alloc, &mut inside, names)? else {
        return Ok(None);
    };
    if !inside.text.is_empty() {
        return Ok(None);
    }
    Ok(Some(store))
}

/// The heap that the first line tells.
pub fn read_heap_line(alloc: Global, cursor: &mut Cursor<'_>) -> Result<Option<Heap>, AllocError>
    ensures { IfOk result (IsFrontRead ShowsCellLine cursor.old.text.now cursor.new.text.now) }
{
    if cursor.take(b"heap").is_none() {
        return Ok(None);
    }
    read_heap(alloc, cursor)
}
