//! The limits on the terms and the versions of a condition.

ghost use Rattle.std.specs.Prelude.{◌≡◌, ◌+◌};
ghost use Rattle.gh_ast.specs.Plain.{procedure_of, program_of};
ghost use Rattle.gh_path.specs.Admitted.{most_terms};
ghost use Rattle.gh_path.specs.Kept.{IsScoped, HoldsFor};
ghost use Rattle.gh_symb.specs.Limits.{IsLimitOf, Passes};
ghost use Rattle.gh_symb.specs.Steps.{IsCount};

use crate::count::{Counted, MOST_TERMS, MOST_VERSIONS};
use gh_ast::Procedure;
use gh_ast::typed::{Limit, Typed};
use gh_path::condition::Condition;
use std::alloc::AllocError;
use thiserror::Error;

/// Why a condition isn't given over terms, or a program isn't admitted: a condition has more than
/// `MOST_TERMS` terms (kind 6) or more than `MOST_VERSIONS` versions of the heap (kind 7).
#[derive(Debug, Drop, Error)]
pub enum SymbolicError {
    #[error("a limit is passed")]
    Limit(Limit),
    #[error("out of memory")]
    OutOfMemory,
}

impl From<AllocError> for SymbolicError {
    ghost use Rattle.gh_symb.specs.declared.limits.SymbolicError.TheVariants.{OutOfMemory};

    ghost from_gives = { λ _ e. e ≡ OutOfMemory };

    fn from(_: AllocError) -> Self {
        SymbolicError::OutOfMemory
    }
}

/// A limit that a condition of a procedure passes.
fn limit_at(procedure: &Procedure, kind: u8, count: u32) -> Limit
    ensures { IsLimitOf (procedure_of procedure.now) kind count result }
{
    Limit {
        kind,
        span: procedure.name.span,
        count,
    }
}

/// The limit on terms, as a condition of a program passes it.
pub(crate) fn terms_limit(typed: &Typed, condition: &Condition) -> Limit
    requires { IsScoped (program_of typed.now) condition.now }
    ensures { HoldsFor (program_of typed.now) condition.now (λ P proc c. IsLimitOf proc 6 (most_terms + 1) result) }
{
    let procedure = &typed.program().procedures[condition.procedure as usize];
    limit_at(procedure, 6, MOST_TERMS as u32 + 1)
}

/// The limit that a condition of a program with these counts passes, if it passes one: kind 6 before
/// kind 7.
pub(crate) fn limit_of(typed: &Typed, condition: &Condition, counts: Counted) -> Option<Limit>
    requires { IsScoped (program_of typed.now) condition.now }
    ensures { HoldsFor (program_of typed.now) condition.now (λ P proc c.
        IsCount P proc c counts → Passes P proc c result) }
{
    match counts {
        Counted::ManyTerms => Some(terms_limit(typed, condition)),
        Counted::Within { versions, .. } => {
            if versions > MOST_VERSIONS {
                let procedure = &typed.program().procedures[condition.procedure as usize];
                return Some(limit_at(procedure, 7, MOST_VERSIONS as u32 + 1));
            }
            None
        }
    }
}
