//! The first refuted condition of a program.

ghost use Rattle.std.specs.Prelude.{◌≡◌, IfOk, IfNone, IfSome};
ghost use Rattle.gh_ast.specs.Plain.{program_of};
ghost use Rattle.gh_path.specs.Admitted.{IsAdmitted};
ghost use Rattle.gh_trace.specs.Refuted.{ShowsFirst};
ghost use Rattle.gh_trace.specs.Validity.{ListedAreValid};

use crate::decide::{Verdict, decide_with};
use gh_ast::typed::Typed;
use gh_path::conditions::Conditions;
use gh_seek::known::Known;
use gh_trace::refutation::Refutation;
use std::alloc::{AllocError, Global};

/// The first condition of an admitted program that isn't valid, by number; none where all are valid. It holds one
/// condition at a time, and keeps nothing of those that are valid.
pub fn first_refuted(
    alloc: Global,
    typed: &Typed,
    conditions: &Conditions,
) -> Result<Option<Refutation>, AllocError>
    requires same { program_of conditions.now ≡ program_of typed.now }
    requires admitted { IsAdmitted (program_of typed.now) }
    ensures none { IfOk result (λ found. IfNone found (ListedAreValid (program_of typed.now))) }
    ensures first { IfOk result (λ found. IfSome found (λ f. ShowsFirst (program_of typed.now) f.number f.trace)) }
{
    let mut known = Known::new();
    let mut walk = conditions.walk(alloc);
    for place in 0..conditions.count() {
        let number = place + 1;
        let more = walk.advance()?;
        if !more {
            unreachable!();
        }
        match decide_with(alloc, typed, walk.condition(), &mut known)? {
            Verdict::Valid(_) => {}
            Verdict::Refuted(trace) => return Ok(Some(Refutation { number, trace })),
        }
    }
    Ok(None)
}
