//! State files: where a concrete run begins.

ghost use Rattle.std.specs.Prelude.{◌≡◌, ◌≤◌, IfErr, IfOk, length};
ghost use Rattle.std.specs.FinMap.{len};
ghost use Rattle.gh_ast.specs.Plain.{program_of};
ghost use Rattle.gh_run.specs.StateFiles.{IsStateFile, IsStateError, FitsProgram};

use crate::lines::{read_heap_line, read_procedure, read_store_line};
use gh_assert::heap::Heap;
use gh_assert::store::Store;
use gh_ast::typed::Typed;
use gh_draw::cursor::Cursor;
use gh_draw::reading::variables;
use std::alloc::{AllocError, Global};
use thiserror::Error;

/// The number of a procedure, the values of its variables in their order, and the cells.
#[derive(Debug, Drop)]
pub struct Begin {
    pub procedure: u16,
    pub store: Store,
    pub heap: Heap,
}

/// Why a text isn't a state file: the number of its first line that isn't as said, from 1. A line that
/// is missing counts, and bytes after the fourth line are line 5.
#[derive(Debug, Drop, Error)]
pub enum StateError {
    #[error("line {line}")]
    Line { line: u32 },
    #[error("out of memory")]
    OutOfMemory,
}

impl From<AllocError> for StateError {
    ghost use Rattle.gh_run.specs.declared.state_file.StateError.TheVariants.{OutOfMemory};

    ghost from_gives = { λ _ e. e ≡ OutOfMemory };

    fn from(_: AllocError) -> Self {
        StateError::OutOfMemory
    }
}

// The error of a line.
fn faulty(line: u32) -> StateError
    ensures { result ≡ StateError.Line line }
{
    StateError::Line { line }
}

/// Reads a state file for a program. Its lines are `procedure NAME`, `store` with ` NAME=VALUE` for each
/// variable of that procedure in order, `heap` with ` PLACE->CONTENT` for each cell, the places
/// ascending and none of them 0, and `end`.
pub fn read_state(alloc: Global, typed: &Typed, text: &[u8]) -> Result<Begin, StateError>
    ensures read { IfOk result (IsStateFile (program_of typed.now) text.now) }
    ensures refused { IfErr result (IsStateError (program_of typed.now) text.now) }
    ensures fits { IfOk result (FitsProgram (program_of typed.now)) }
    ensures few { IfOk result (λ b. len b.heap ≤ length text.now) }
{
    let mut cursor = Cursor { text };
    let Some(number) = read_procedure(typed, &mut cursor) else {
        return Err(faulty(1));
    };
    let procedure = &typed.program().procedures[usize::from(number)];
    let names = variables(alloc, procedure)?;
    let Some(store) = read_store_line(alloc, &mut cursor, names.as_slice())? else {
        return Err(faulty(2));
    };
    let Some(heap) = read_heap_line(alloc, &mut cursor)? else {
        return Err(faulty(3));
    };
    if cursor.take(b"end\n").is_none() {
        return Err(faulty(4));
    }
    if !cursor.text.is_empty() {
        return Err(faulty(5));
    }
    Ok(Begin {
        procedure: number,
        store,
        heap,
    })
}
