//! The loops of a body, in the order of their words.

ghost use Rattle.std.specs.Prelude.{◌≡◌, map, min, length, IfOk};
ghost use Rattle.gh_ast.specs.Plain.{statement_of, statements_view, procedure_of};
ghost use Rattle.gh_ast.specs.Programs.{body_statements};
ghost use Rattle.gh_path.specs.Graphs.{loops, all_loops, loops_of};
ghost use Rattle.gh_path.specs.Walking.{loop_of, AddsLoops};

use gh_ast::{Assertion, Block, Cond, Procedure, Stmt};
use gh_base::place::Span;
use std::alloc::{AllocError, Global};

/// A `while` of a text: the place of its word, and its parts.
#[derive(Clone, Copy, Debug)]
pub struct While<'t> {
    pub at: Span,
    pub test: &'t Cond,
    pub invariant: &'t Assertion,
    pub body: &'t Block,
}

/// Adds the loops of a statement.
#[cycle(loops)]
fn add_loops<'t>(statement: &'t Stmt, found: &mut Vec<While<'t>>) -> Result<(), AllocError>
    ensures { IfOk result (λ _. AddsLoops (loops (statement_of statement.now)) found.old.items found.new.items) }
{
    match statement {
        Stmt::If {
            taken,
            otherwise,
            ..
        } => {
            add_all_loops(taken.statements.as_slice(), found)?;
            add_all_loops(otherwise.statements.as_slice(), found)
        }
        Stmt::While {
            span,
            test,
            invariant,
            body,
        } => {
            found.push(While {
                at: *span,
                test,
                invariant,
                body,
            })?;
            add_all_loops(body.statements.as_slice(), found)
        }
        _ => Ok(()),
    }
}

/// Adds the loops of some statements.
#[cycle(loops)]
fn add_all_loops<'t>(statements: &'t [Stmt], found: &mut Vec<While<'t>>) -> Result<(), AllocError>
    ensures { IfOk result (λ _.
        AddsLoops (all_loops (statements_view statements.now)) found.old.items found.new.items) }
{
    for statement in statements {
        add_loops(statement, found)?;
    }
    Ok(())
}

/// The statements of a procedure's body.
pub fn statements_of(procedure: &Procedure) -> &[Stmt]
    ensures { statements_view result.now ≡ body_statements (procedure_of procedure.now) }
{
    match &procedure.body {
        Some(body) => body.block.statements.as_slice(),
        None => &[],
    }
}

/// The loops of a procedure.
pub fn loops_of(alloc: Global, procedure: &Procedure) -> Result<Vec<While<'_>>, AllocError>
    ensures { IfOk result (λ found. map loop_of found.items ≡ loops_of (procedure_of procedure.now)) }
{
    let mut found = Vec::new(alloc);
    add_all_loops(statements_of(procedure), &mut found)?;
    Ok(found)
}

/// How many loops a statement has, counted up to the greatest `u32`.
#[cycle(loop_count)]
pub fn count_loops(statement: &Stmt) -> u32
    ensures { result ≡ min (length (loops (statement_of statement.now))) 4294967295 }
{
    match statement {
        Stmt::If {
            taken,
            otherwise,
            ..
        } => count_all_loops(taken.statements.as_slice()).saturating_add(count_all_loops(
            otherwise.statements.as_slice(),
        )),
        Stmt::While { body, .. } => {
            count_all_loops(body.statements.as_slice()).saturating_add(1)
        }
        _ => 0,
    }
}

/// How many loops some statements have, counted up to the greatest `u32`.
#[cycle(loop_count)]
pub fn count_all_loops(statements: &[Stmt]) -> u32
    ensures { result ≡ min (length (all_loops (statements_view statements.now))) 4294967295 }
{
    let mut count = 0u32;
    for statement in statements {
        count = count.saturating_add(count_loops(statement));
    }
    count
}
