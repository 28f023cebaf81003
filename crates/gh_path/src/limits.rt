//! The limits on the number of conditions and on the steps of their paths.

ghost use Rattle.std.specs.Prelude.{◌≡◌, map, min};
ghost use Rattle.gh_ast.specs.Plain.{Program, procedure_of};
ghost use Rattle.gh_path.specs.Counting.{procedure_ahead, all_counts};
ghost use Rattle.gh_path.specs.Refusals.{IsPathsLimit, IsStepsLimit};

use crate::ahead::{MOST_CONDITIONS, MOST_STEPS, PathCounts};
use gh_ast::Procedure;
use gh_ast::typed::Limit;

/// The limit on the conditions of a procedure, where it is passed.
pub fn paths_limit(procedures: &[Procedure], aheads: &[PathCounts]) -> Option<Limit>
    requires { aheads.now ≡ map procedure_ahead (map procedure_of procedures.now) }
    ensures { (P : Program) → IsPathsLimit P (map procedure_of procedures.now) result }
{
    for (place, ahead) in aheads.iter().enumerate() {
        if ahead.count > MOST_CONDITIONS {
            return Some(Limit {
                kind: 4,
                span: procedures[place].name.span,
                count: MOST_CONDITIONS + 1,
            });
        }
    }
    None
}

/// The limit on the steps of a condition, where it is passed.
pub fn steps_limit(procedures: &[Procedure], aheads: &[PathCounts]) -> Option<Limit>
    requires { aheads.now ≡ map procedure_ahead (map procedure_of procedures.now) }
    ensures { (P : Program) → IsStepsLimit P (map procedure_of procedures.now) result }
{
    for (place, ahead) in aheads.iter().enumerate() {
        if ahead.reach > MOST_STEPS + 1 {
            return Some(Limit {
                kind: 5,
                span: procedures[place].name.span,
                count: MOST_STEPS + 1,
            });
        }
    }
    None
}

/// How many conditions there are together, counted up to the greatest `u32`.
pub fn count_all(aheads: &[PathCounts]) -> u32
    ensures { result ≡ min (all_counts aheads.now) 4294967295 }
{
    let mut count = 0u32;
    for ahead in aheads {
        count = count.saturating_add(ahead.count);
    }
    count
}
