//! The decision of all conditions of a program.

ghost use Rattle.std.specs.Prelude.{◌≡◌, IfOk};
ghost use Rattle.gh_ast.specs.Plain.{program_of};
ghost use Rattle.gh_path.specs.Admitted.{IsAdmitted};
ghost use Rattle.gh_decide.specs.Outcomes.{IsOutcome};

use crate::decide::{Verdict, decide_with};
use gh_ast::typed::Typed;
use gh_log::lines::Log;
use gh_path::conditions::Conditions;
use gh_seek::known::Known;
use gh_trace::state::Trace;
use std::alloc::{AllocError, Global};

/// What is decided of a program: all conditions are valid, with a log of version 2 that has a section for
/// each; or the trace is a counterexample of the condition of this number, and those before it are valid.
#[derive(Debug, Drop)]
pub enum Outcome {
    Verified { log: Log },
    Refuted { number: u32, trace: Trace },
}

/// Decides the conditions of an admitted program in order, one at a time, up to the first that is
/// refuted.
pub fn decide_all(
    alloc: Global,
    typed: &Typed,
    conditions: &Conditions,
) -> Result<Outcome, AllocError>
    requires same { program_of conditions.now ≡ program_of typed.now }
    requires admitted { IsAdmitted (program_of typed.now) }
    ensures { IfOk result (IsOutcome (program_of typed.now)) }
{
    let mut sections = Vec::new(alloc);
    let mut known = Known::new();
    let mut walk = conditions.walk(alloc);
    for place in 0..conditions.count() {
        let number = place + 1;
        let more = walk.advance()?;
        if !more {
            unreachable!();
        }
        match decide_with(alloc, typed, walk.condition(), &mut known)? {
            Verdict::Valid(section) => sections.push(section)?,
            Verdict::Refuted(trace) => return Ok(Outcome::Refuted { number, trace }),
        }
    }
    Ok(Outcome::Verified {
        log: Log {
            version: 2,
            sections,
        },
    })
}
