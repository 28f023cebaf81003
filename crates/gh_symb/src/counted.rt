//! A walk that counts the terms and versions of a condition.

ghost use Rattle.std.specs.Prelude.{IfOk};
ghost use Rattle.gh_ast.specs.Plain.{program_of};
ghost use Rattle.gh_path.specs.Kept.{IsScoped, HoldsFor};
ghost use Rattle.gh_symb.specs.Steps.{IsCount};

use crate::context::context_of;
use crate::count::{Counted, MOST_TERMS};
use crate::walker::Walker;
use gh_ast::typed::Typed;
use gh_path::condition::Condition;
use std::alloc::{AllocError, Global};

/// Counts the terms and versions of a condition of a program.
pub fn counted(alloc: Global, typed: &Typed, condition: &Condition) -> Result<Counted, AllocError>
    requires { IsScoped (program_of typed.now) condition.now }
    ensures { IfOk result (λ n. HoldsFor (program_of typed.now) condition.now (λ P proc c. IsCount P proc c n)) }
{
    let context = context_of(typed, condition);
    let mut walker = Walker::new(alloc)?;
    walker.ask_start(alloc, context, condition.start)?;
    for step in condition.steps.as_slice() {
        walker.walk_step(alloc, context, step)?;
        if walker.kinds.count() > MOST_TERMS {
            return Ok(Counted::ManyTerms);
        }
    }
    walker.ask_check(alloc, context, &condition.check.kind)?;
    Ok(Counted::new(walker.kinds.count(), walker.version + 1))
}
