//! The smallest counterexample of a condition.

ghost use Rattle.std.specs.Prelude.{IfOk};
ghost use Rattle.gh_ast.specs.Plain.{program_of};
ghost use Rattle.gh_path.specs.Admitted.{IsAdmitted};
ghost use Rattle.gh_path.specs.Kept.{IsOne};
ghost use Rattle.gh_small.specs.Smallest.{IsSmallestFound};

use crate::descent::descend;
use crate::found::Smallest;
use gh_ast::typed::Typed;
use gh_decide::decide::over_terms;
use gh_ground::solve::{Answer, solve};
use gh_model::build::build;
use gh_path::condition::Condition;
use gh_reduce::ground::ground;
use std::alloc::{AllocError, Global};

/// A counterexample of a condition with the fewest cells in its first heap; none where the condition is
/// valid.
pub fn smallest(
    alloc: Global,
    typed: &Typed,
    condition: &Condition,
) -> Result<Option<Smallest>, AllocError>
    requires admitted { IsAdmitted (program_of typed.now) }
    requires one { IsOne (program_of typed.now) condition.now }
    ensures { IfOk result (λ found. IsSmallestFound (program_of typed.now) condition.now found) }
{
    let symbolic = over_terms(alloc, typed, condition)?;
    let ground = ground(alloc, &symbolic)?;
    let _sizes = ground.sizes();
    let answer = solve(alloc, &ground)?;
    match answer {
        Answer::Refutation(_) => Ok(None),
        Answer::Model(first) => {
            let fewest = descend(alloc, &ground, first)?;
            let trace = build(alloc, typed, condition, &symbolic, &fewest.structure)?;
            Ok(Some(Smallest {
                trace,
                cells: fewest.cells,
                section: fewest.section,
            }))
        }
    }
}
