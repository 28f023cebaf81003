//! The type check, and the limits on a text.

ghost use Rattle.std.specs.Prelude.{◌≡◌, IfErr, IfOk, OnOk};
ghost use Rattle.gh_ast.specs.Plain.{program_of};
ghost use Rattle.gh_ast.specs.Limits.{KeepsLimits};
ghost use Rattle.gh_ast.specs.Rules.{IsTyped};
ghost use Rattle.gh_ast.specs.WellFormed.{IsWellFormed};
ghost use Rattle.gh_types.specs.Checking.{IsCheckRefusal};
ghost use Rattle.gh_types.specs.Checks.{ProgramErrors};
ghost use Rattle.gh_types.specs.Faults.{IsFirstOf};

use crate::fault::{Fault, earlier};
use crate::fields::in_struct;
use crate::limits::passed_limit;
use crate::procedures::in_procedures;
use gh_ast::Program;
use gh_ast::typed::{Limit, Typed};
use gh_base::place::Span;
use std::alloc::{AllocError, Global};
use thiserror::Error;

/// Why a program isn't admitted.
///
/// The rules by number: 1 an unknown name, 2 a duplicate name, 3 an assignment to a parameter,
/// 4 a wrong count of arguments, targets or values, 5 a return in a loop, 6 an unknown procedure,
/// 7 a second link, 8 a data field, 9 a name that may not stand in a contract, 10 a repeated
/// result, 11 no body, 12 no link.
#[derive(Debug, Drop, Error)]
pub enum CheckError {
    #[error("a type rule is broken")]
    TypeError { number: u8, span: Span },
    #[error("a limit is passed")]
    Limit(Limit),
    #[error("out of memory")]
    OutOfMemory,
}

impl From<AllocError> for CheckError {
    ghost use Rattle.gh_types.specs.declared.check.CheckError.TheVariants.{OutOfMemory};

    ghost from_gives = { λ _ e. e ≡ OutOfMemory };

    fn from(_: AllocError) -> Self {
        CheckError::OutOfMemory
    }
}

/// The first broken rule of a program.
fn first_fault(alloc: Global, program: &Program) -> Result<Option<Fault>, AllocError>
    ensures { IfOk result (IsFirstOf (ProgramErrors (program_of program.now))) }
{
    let in_fields = in_struct(program.fields.as_slice(), program.close);
    let in_rest = in_procedures(alloc, program.procedures.as_slice())?;
    Ok(earlier(in_fields, in_rest))
}

/// Checks the type rules of a well-formed program and the limits on its text.
pub fn check(alloc: Global, program: Program) -> Result<Typed, CheckError>
    requires formed { IsWellFormed (program_of program) }
    ensures ok { IfOk result (λ typed. typed ≡ program) }
    ensures rules { OnOk result (IsTyped (program_of program)) }
    ensures limits { OnOk result (KeepsLimits (program_of program)) }
    ensures err { IfErr result (IsCheckRefusal (program_of program)) }
{
    if let Some(fault) = first_fault(alloc, &program)? {
        return Err(CheckError::TypeError {
            number: fault.number,
            span: fault.span,
        });
    }
    if let Some(limit) = passed_limit(&program) {
        return Err(CheckError::Limit(limit));
    }
    Ok(Typed::new(program))
}
