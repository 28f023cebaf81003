//! The list of the conditions of a program.

ghost use Rattle.std.specs.Prelude.{◌≡◌, IfErr, IfOk, OnOk};
ghost use Rattle.gh_ast.specs.Plain.{program_of};
ghost use Rattle.gh_path.specs.Admitted.{HasManyPaths, HasManySteps, NoneHas};
ghost use Rattle.gh_path.specs.Refusals.{IsConditionsRefusal};

use crate::conditions::Conditions;
use crate::counts::all_ahead;
use crate::limits::{paths_limit, steps_limit};
use crate::starts::starts_of;
use gh_ast::typed::{Limit, Typed};
use std::alloc::{AllocError, Global};
use thiserror::Error;

/// Why the conditions of a program aren't given: a procedure has more than `MOST_CONDITIONS`
/// of them (kind 4), or the path of one has more than `MOST_STEPS` steps (kind 5).
#[derive(Debug, Drop, Error)]
pub enum ConditionsError {
    #[error("a limit is passed")]
    Limit(Limit),
    #[error("out of memory")]
    OutOfMemory,
}

impl From<AllocError> for ConditionsError {
    ghost use Rattle.gh_path.specs.declared.listing.ConditionsError.TheVariants.{OutOfMemory};

    ghost from_gives = { λ _ e. e ≡ OutOfMemory };

    fn from(_: AllocError) -> Self {
        ConditionsError::OutOfMemory
    }
}

/// The conditions of a program, in order: by procedure, then by start, and from one start a path
/// before those that go on from it, and the way of a true comparison before that of its opposite.
pub fn conditions(alloc: Global, typed: &Typed) -> Result<Conditions<'_>, ConditionsError>
    ensures same { IfOk result (λ c. c ≡ typed.now) }
    ensures paths { OnOk result (NoneHas (program_of typed.now) (HasManyPaths (program_of typed.now))) }
    ensures steps { OnOk result (NoneHas (program_of typed.now) (HasManySteps (program_of typed.now))) }
    ensures refused { IfErr result (IsConditionsRefusal (program_of typed.now)) }
{
    let procedures = typed.program().procedures.as_slice();
    let aheads = all_ahead(alloc, procedures)?;
    if let Some(limit) = paths_limit(procedures, aheads.as_slice()) {
        return Err(ConditionsError::Limit(limit));
    }
    if let Some(limit) = steps_limit(procedures, aheads.as_slice()) {
        return Err(ConditionsError::Limit(limit));
    }
    let starts = starts_of(alloc, typed.program())?;
    Ok(Conditions::new(typed, aheads.as_slice(), starts))
}
