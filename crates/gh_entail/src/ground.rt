//! The ground clauses of a question.

ghost use Rattle.std.specs.Prelude.{◌≡◌, IfOk};
ghost use Rattle.gh_ast.specs.Questions.{question_of};
ghost use Rattle.gh_entail.specs.Formulas.{question_problem};

use crate::admit::Asked;
use crate::formula::formula_of_claim;
use gh_base::ground::Ground;
use gh_reduce::clauses::add_formula;
use gh_reduce::ground::add_version;
use std::alloc::{AllocError, Global};

/// The clauses of a question, with the numbers of its terms, versions and definitions.
pub fn question_ground(alloc: Global, asked: &Asked) -> Result<Ground, AllocError>
    ensures { IfOk result (λ g. g ≡ question_problem (question_of asked.now.question)) }
{
    let (question, over) = (&asked.question, &asked.over);
    let mut ground = Ground::new(alloc, over.terms.count(), 1);
    add_version(alloc, &mut ground, 0, &over.terms)?;
    let left = formula_of_claim(alloc, &question.left, &over.binding, &over.terms)?;
    add_formula(alloc, &mut ground, &left)?;
    let right = formula_of_claim(alloc, &question.right, &over.binding, &over.terms)?;
    let fails = right.negated(alloc)?;
    add_formula(alloc, &mut ground, &fails)?;
    Ok(ground)
}
