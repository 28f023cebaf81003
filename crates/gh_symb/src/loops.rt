//! The loops of a body by their numbers.

ghost use Rattle.gh_ast.specs.Plain.{statement_of, statements_view, procedure_of};
ghost use Rattle.gh_path.specs.Graphs.{loops, all_loops, HasLoop};
ghost use Rattle.gh_symb.specs.Loops.{IsAnswer, IsWhileOf};

use gh_ast::{Procedure, Stmt};
use gh_path::loops::While;

/// The loop of a number in a statement, or the number's place among the loops after it.
#[cycle(while_in)]
fn while_in<'a>(statement: &'a Stmt, number: usize) -> Result<While<'a>, usize>
    ensures { IsAnswer (loops (statement_of statement.now)) number result }
{
    match statement {
        Stmt::If {
            taken,
            otherwise,
            ..
        } => match while_among(taken.statements.as_slice(), number) {
            Ok(round) => Ok(round),
            Err(left) => while_among(otherwise.statements.as_slice(), left),
        },
        Stmt::While {
            span,
            test,
            invariant,
            body,
        } => {
            if number == 0 {
                return Ok(While {
                    at: *span,
                    test,
                    invariant,
                    body,
                });
            }
            while_among(body.statements.as_slice(), number - 1)
        }
        _ => Err(number),
    }
}

/// The loop of a number in some statements, or the number's place among the loops after them.
#[cycle(while_in)]
fn while_among<'a>(statements: &'a [Stmt], number: usize) -> Result<While<'a>, usize>
    ensures { IsAnswer (all_loops (statements_view statements.now)) number result }
{
    let mut left = number;
    for statement in statements {
        match while_in(statement, left) {
            Ok(round) => return Ok(round),
            Err(rest) => left = rest,
        }
    }
    Err(left)
}

/// The loop of a number in a procedure.
pub fn while_of(procedure: &Procedure, number: usize) -> While<'_>
    requires { HasLoop (procedure_of procedure.now) number }
    ensures { IsWhileOf (procedure_of procedure.now) number result }
{
    let Some(body) = &procedure.body else {
        unreachable!();
    };
    let Ok(round) = while_among(body.block.statements.as_slice(), number) else {
        unreachable!();
    };
    round
}
