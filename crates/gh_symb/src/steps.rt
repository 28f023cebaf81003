//! New values for variables that statements assign.

ghost use Rattle.std.specs.Prelude.{◌≡◌, [], ◌∷◌, OnOk};
ghost use Rattle.gh_ast.specs.Plain.{procedure_of};
ghost use Rattle.gh_ast.specs.Occurrences.{locals_of};
ghost use Rattle.gh_path.specs.Terms.{renewed};
ghost use Rattle.gh_symb.specs.Tables.{WalksAlways};
ghost use Rattle.gh_symb.specs.Steps.{all_renewed, renewed_in};

use crate::kinds::Kinds;
use crate::scope::Scope;
use gh_ast::{Occ, Procedure, Stmt};
use gh_base::name::Name;
use gh_path::assigned::some_assigns;
use std::alloc::AllocError;

impl<'a> Scope<'a> {
    /// A variable gets a new value.
    fn renew_one(&mut self, kinds: &mut Kinds, name: &'a Name) -> Result<(), AllocError>
        ensures { OnOk result (WalksAlways (renewed (name.now ∷ [])) kinds.old self.old kinds.new self.new) }
    {
        let term = kinds.add_value()?;
        self.bind(name, term)
    }

    /// Each of some variables that statements assign gets a new value.
    fn renew_assigned(
        &mut self,
        kinds: &mut Kinds,
        occs: &'a [Occ],
        body: &[Stmt],
    ) -> Result<(), AllocError>
        ensures { OnOk result (WalksAlways (renewed_in occs.now body.now) kinds.old self.old kinds.new self.new) }
    {
        for occ in occs {
            if !some_assigns(body, occ.name.bytes()) {
                continue;
            }
            self.renew_one(kinds, &occ.name)?;
        }
        Ok(())
    }

    /// Each variable of a procedure that statements assign gets a new value.
    pub fn renew_all(
        &mut self,
        kinds: &mut Kinds,
        procedure: &'a Procedure,
        body: &[Stmt],
    ) -> Result<(), AllocError>
        ensures { OnOk result (WalksAlways (all_renewed procedure.now body.now) kinds.old self.old kinds.new self.new) }
    {
        self.renew_assigned(kinds, procedure.parameters.as_slice(), body)?;
        self.renew_assigned(kinds, procedure.results.as_slice(), body)?;
        self.renew_assigned(kinds, locals_of(procedure), body)?;
        Ok(())
    }
}

/// The locals of a procedure.
fn locals_of(procedure: &Procedure) -> &[Occ]
    ensures { result.now ≡ locals_of (procedure_of procedure.now) }
{
    match &procedure.body {
        Some(body) => body.locals.as_slice(),
        None => &[],
    }
}
