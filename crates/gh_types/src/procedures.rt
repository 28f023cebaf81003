// The procedures of a program.

ghost use Rattle.std.specs.Prelude.{map, IfOk};
ghost use Rattle.gh_ast.specs.Plain.{procedure_of};
ghost use Rattle.gh_types.specs.Checks.{ProceduresErrors};
ghost use Rattle.gh_types.specs.Scopes.{ProcedureErrorsIn, IsFirstInEach};
ghost use Rattle.gh_types.specs.Faults.{IsFirstOf};
ghost use Rattle.gh_types.specs.Tables.{IsTableOf};

use crate::fault::{Fault, earlier};
use crate::names::{Names, names_of, procedure_names, repeated, variables};
use crate::scope::{Scope, Setting};
use gh_ast::Procedure;
use std::alloc::{AllocError, Global};

impl<'a, 'n> Scope<'a, 'n> {
    /// The first error of the procedure.
    fn in_procedure(&self, alloc: Global) -> Result<Option<Fault>, AllocError>
        ensures { IfOk result (IsFirstOf (ProcedureErrorsIn self.now)) }
    {
        let names = variables(alloc, self.own)?;
        let again = repeated(alloc, 2, names.as_slice())?;
        let contract = earlier(
            self.in_assertion(Setting::Requires, &self.own.needs),
            self.in_assertions(Setting::Ensures, self.own.gives.as_slice()),
        );
        let missing = Fault::unless(self.own.body.is_some(), 11, self.own.close);
        let body = earlier(self.in_body(alloc)?, missing);
        Ok(earlier(again, earlier(contract, body)))
    }
}

/// The first error in each of some procedures.
fn in_each<'a, 'n>(
    alloc: Global,
    procedures: &'a [Procedure],
    firsts: &'n Names<'a>,
) -> Result<Option<Fault>, AllocError>
    requires { IsTableOf (map (λ p. p.name.name) procedures.now) firsts.now.places }
    ensures { IfOk result (IsFirstInEach (map procedure_of procedures.now)) }
{
    let mut first = None;
    for own in procedures {
        let scope = Scope::new(alloc, procedures, firsts, own)?;
        let found = scope.in_procedure(alloc)?;
        first = earlier(first, found);
    }
    Ok(first)
}

/// The first error in the procedures of a program.
pub fn in_procedures(alloc: Global, procedures: &[Procedure]) -> Result<Option<Fault>, AllocError>
    ensures { IfOk result (IsFirstOf (ProceduresErrors (map procedure_of procedures.now))) }
{
    let names = procedure_names(alloc, procedures)?;
    let again = repeated(alloc, 2, names.as_slice())?;
    let firsts = names_of(alloc, names.as_slice())?;
    let inside = in_each(alloc, procedures, &firsts)?;
    Ok(earlier(again, inside))
}
