//! The counterexample of a condition that is told or drawn.

ghost use Rattle.std.specs.Prelude.{◌≡◌, IfOk};
ghost use Rattle.gh_ast.specs.Plain.{program_of};
ghost use Rattle.gh_path.specs.Admitted.{IsAdmitted};
ghost use Rattle.gh_lens.specs.Overviews.{of_rank};
ghost use Rattle.gh_scene.specs.Sought.{IsSought, IsNamedFirst, first_number};

use gh_ast::typed::Typed;
use gh_draw::drawing::Drawing;
use gh_lens::judged::{Judged, verdicts};
use gh_lens::overview::rank;
use gh_lens::progress::Silent;
use gh_path::conditions::Conditions;
use gh_small::smallest::smallest;
use std::alloc::{AllocError, Global};

/// A counterexample with the fewest cells in its first heap; or the condition is valid; or the program has no
/// condition of the number.
#[derive(Debug, Drop)]
pub enum Sought {
    Found(Drawing),
    Valid,
    Unnumbered,
}

/// The smallest counterexample of the condition of a number.
pub fn smallest_of(
    alloc: Global,
    typed: &Typed,
    conditions: &Conditions,
    number: u32,
) -> Result<Sought, AllocError>
    requires same { program_of conditions.now ≡ program_of typed.now }
    requires admitted { IsAdmitted (program_of typed.now) }
    ensures { IfOk result (IsSought (program_of typed.now) number) }
{
    let Some(condition) = conditions.condition(alloc, number)? else {
        return Ok(Sought::Unnumbered);
    };
    match smallest(alloc, typed, &condition)? {
        Some(found) => Ok(Sought::Found(Drawing {
            condition: number,
            trace: found.trace,
        })),
        None => Ok(Sought::Valid),
    }
}

// The number of the first condition of a rank.
fn first_of_rank(judged: &[Judged], wanted: u8) -> Option<u32>
    ensures { result ≡ first_number (of_rank wanted judged.now) }
{
    for one in judged {
        if rank(one) == wanted {
            return Some(one.number);
        }
    }
    None
}

/// The number of the condition that an overview names first, if it is refuted.
pub fn named_first(
    alloc: Global,
    typed: &Typed,
    conditions: &Conditions,
) -> Result<Option<u32>, AllocError>
    requires same { program_of conditions.now ≡ program_of typed.now }
    requires admitted { IsAdmitted (program_of typed.now) }
    ensures { IfOk result (IsNamedFirst (program_of typed.now)) }
{
    let judged = verdicts(alloc, typed, conditions, &mut Silent)?;
    let ground_work = first_of_rank(judged.as_slice(), 0);
    Ok(ground_work.or(first_of_rank(judged.as_slice(), 1)))
}
