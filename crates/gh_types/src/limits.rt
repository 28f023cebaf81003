// The limits on a text.

ghost use Rattle.std.specs.Prelude.{◌≡◌, ◌<◌, ◌≤◌, [], ◌∷◌, map, sum, MatchOption};
ghost use Rattle.gh_ast.specs.Plain.{assertion_of, procedure_of, program_of, statement_of, statements_view};
ghost use Rattle.gh_ast.specs.Limits.{atom_counts, atoms, most_atoms, invariants_in, all_invariants_in};
ghost use Rattle.gh_ast.specs.Limits.{invariants_in_body, IsLimit, KeepsLimits};
ghost use Rattle.gh_types.specs.LimitChecks.{IsProceduresLimit, IsVariablesLimit, IsAtomsLimit, FindsMany};

use crate::counts::{self, count_all_atoms, count_atoms, count_variables, reported};
use gh_ast::typed::Limit;
use gh_ast::{Assertion, Procedure, Program, Stmt};

/// A number of atoms, where it passes the limit.
fn over_limit(count: u32) -> Option<u32>
    ensures { MatchOption result (count ≤ most_atoms) (λ n. (n ≡ count) × (most_atoms < count)) }
{
    if count > counts::MOST_ATOMS {
        Some(count)
    } else {
        None
    }
}

/// The number of an assertion's atoms, where they are too many.
fn long(assertion: &Assertion) -> Option<u32>
    ensures { FindsMany (atoms (assertion_of assertion.now) ∷ []) result }
{
    over_limit(count_atoms(assertion))
}

/// The number of the atoms of all alternatives together, where they are too many.
fn long_together(alternatives: &[Assertion]) -> Option<u32>
    ensures { FindsMany (sum (map atoms (map assertion_of alternatives.now)) ∷ []) result }
{
    over_limit(count_all_atoms(alternatives))
}

/// The first too long invariant in a statement.
#[cycle(long)]
fn long_in_statement(statement: &Stmt) -> Option<u32>
    ensures { FindsMany (map atoms (invariants_in (statement_of statement.now))) result }
{
    match statement {
        Stmt::If {
            taken,
            otherwise,
            ..
        } => {
            if let Some(count) = long_in_statements(taken.statements.as_slice()) {
                return Some(count);
            }
            long_in_statements(otherwise.statements.as_slice())
        }
        Stmt::While {
            invariant,
            body,
            ..
        } => {
            if let Some(count) = long(invariant) {
                return Some(count);
            }
            long_in_statements(body.statements.as_slice())
        }
        _ => None,
    }
}

/// The first too long invariant in some statements.
#[cycle(long)]
fn long_in_statements(statements: &[Stmt]) -> Option<u32>
    ensures { FindsMany (map atoms (all_invariants_in (statements_view statements.now))) result }
{
    for statement in statements {
        if let Some(count) = long_in_statement(statement) {
            return Some(count);
        }
    }
    None
}

/// The first too long invariant of a procedure.
fn long_in_body(procedure: &Procedure) -> Option<u32>
    ensures { FindsMany (map atoms (invariants_in_body (procedure_of procedure.now).body)) result }
{
    match &procedure.body {
        Some(body) => long_in_statements(body.block.statements.as_slice()),
        None => None,
    }
}

/// The first too long part of a procedure: what it requires, what it ensures, or an invariant.
fn long_in_procedure(procedure: &Procedure) -> Option<u32>
    ensures { FindsMany (atom_counts (procedure_of procedure.now)) result }
{
    if let Some(count) = long(&procedure.needs) {
        return Some(count);
    }
    if let Some(count) = long_together(procedure.gives.as_slice()) {
        return Some(count);
    }
    long_in_body(procedure)
}

/// The limit on the number of procedures, where it is passed.
fn procedures_limit(procedures: &[Procedure]) -> Option<Limit>
    ensures { IsProceduresLimit (map procedure_of procedures.now) result }
{
    if procedures.len() <= counts::MOST_PROCEDURES {
        return None;
    }
    Some(Limit {
        kind: 1,
        span: procedures[counts::MOST_PROCEDURES].name.span,
        count: reported(procedures.len()),
    })
}

/// The limit on the variables of a procedure, where it is passed.
fn variables_limit(procedures: &[Procedure]) -> Option<Limit>
    ensures { IsVariablesLimit (map procedure_of procedures.now) result }
{
    for procedure in procedures {
        let count = count_variables(procedure);
        if count > counts::MOST_VARIABLES {
            return Some(Limit {
                kind: 2,
                span: procedure.name.span,
                count,
            });
        }
    }
    None
}

/// The limit on atoms, where it is passed.
fn atoms_limit(procedures: &[Procedure]) -> Option<Limit>
    ensures { IsAtomsLimit (map procedure_of procedures.now) result }
{
    for procedure in procedures {
        if let Some(count) = long_in_procedure(procedure) {
            return Some(Limit {
                kind: 3,
                span: procedure.name.span,
                count,
            });
        }
    }
    None
}

/// The first limit on a text that a program passes.
pub fn passed_limit(program: &Program) -> Option<Limit>
    ensures { MatchOption result (KeepsLimits (program_of program.now)) (IsLimit (program_of program.now)) }
{
    let procedures = program.procedures.as_slice();
    if let Some(limit) = procedures_limit(procedures) {
        return Some(limit);
    }
    if let Some(limit) = variables_limit(procedures) {
        return Some(limit);
    }
    atoms_limit(procedures)
}
