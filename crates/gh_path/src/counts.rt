//! How many conditions a procedure has, and how long their paths are.

ghost use Rattle.std.specs.Prelude.{◌≡◌, map, IfOk};
ghost use Rattle.gh_ast.specs.Plain.{procedure_of};
ghost use Rattle.gh_path.specs.Counting.{entry_ahead, loop_ahead, loops_ahead, procedure_ahead};
ghost use Rattle.gh_path.specs.Walking.{loop_of};

use crate::ahead::{PathCounts, before_block, before_cond};
use crate::loops::{While, loops_of, statements_of};
use gh_ast::Procedure;
use std::alloc::{AllocError, Global};

/// PathCounts of a procedure's entry.
pub fn entry_ahead(procedure: &Procedure) -> PathCounts
    ensures { result ≡ entry_ahead (procedure_of procedure.now) }
{
    before_block(statements_of(procedure), PathCounts::one_end())
}

/// PathCounts of a loop as a start.
pub fn loop_ahead(turn: &While<'_>) -> PathCounts
    ensures { result ≡ loop_ahead (loop_of turn.now) }
{
    let inside = before_block(turn.body.statements.as_slice(), PathCounts::one_end());
    before_cond(turn.test, inside, PathCounts::nothing())
}

/// PathCounts of some loops as starts.
fn loops_ahead(turns: &[While<'_>]) -> PathCounts
    ensures { result ≡ loops_ahead (map loop_of turns.now) }
{
    let mut ahead = PathCounts::nothing();
    let mut left = turns.len();
    while left > 0 {
        left -= 1;
        ahead = loop_ahead(&turns[left]).either(ahead);
    }
    ahead
}

/// PathCounts of all starts of a procedure.
pub fn procedure_ahead(alloc: Global, procedure: &Procedure) -> Result<PathCounts, AllocError>
    ensures { IfOk result (λ a. a ≡ procedure_ahead (procedure_of procedure.now)) }
{
    let turns = loops_of(alloc, procedure)?;
    Ok(entry_ahead(procedure).either(loops_ahead(turns.as_slice())))
}

/// PathCounts of all starts of each procedure.
pub fn all_ahead(alloc: Global, procedures: &[Procedure]) -> Result<Vec<PathCounts>, AllocError>
    ensures { IfOk result (λ v. v.items ≡ map procedure_ahead (map procedure_of procedures.now)) }
{
    let mut found = Vec::new(alloc);
    for procedure in procedures {
        found.push(procedure_ahead(alloc, procedure)?)?;
    }
    Ok(found)
}
