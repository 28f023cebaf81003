// The names that the text of a procedure may use.

ghost use Rattle.std.specs.Prelude.{◌≡◌, ◌↔◌, map, IsTrue};
ghost use Rattle.gh_ast.specs.Plain.{procedure_of};
ghost use Rattle.gh_ast.specs.Occurrences.{locals_of, variables_of};
ghost use Rattle.gh_ast.specs.Rules.{HasName};
ghost use Rattle.gh_types.specs.Checks.{Forbidden, IsMeant, OccurrenceErrors};
ghost use Rattle.gh_types.specs.Tables.{IsTableOf};
ghost use Rattle.gh_types.specs.Faults.{IsFirstOf};

use crate::fault::{Fault, earlier};
use crate::names::{Names, each, locals, names_of};
use gh_ast::{Occ, Procedure};
use std::alloc::{AllocError, Global};

/// Where an occurrence of a variable stands.
#[derive(Clone, Copy, Debug)]
pub enum Setting {
    Requires,
    Ensures,
    Inside,
}

/// The procedures of a program, the one whose text is checked, and its variables.
#[derive(Drop)]
pub struct Scope<'a, 'n> {
    pub procedures: &'a [Procedure],
    pub own: &'a Procedure,
    firsts: &'n Names<'a>,
    parameters: Names<'a>,
    results: Names<'a>,
    locals: Names<'a>,
    ghost firsts_are: { IsTableOf (map (λ p. p.name.name) procedures.now) firsts.now.places },
    ghost parameters_are: { IsTableOf (map (λ o. o.name) own.now.parameters.items) parameters.places },
    ghost results_are: { IsTableOf (map (λ o. o.name) own.now.results.items) results.places },
    ghost locals_are: { IsTableOf (map (λ o. o.name) (locals_of (procedure_of own.now))) locals.places },
}

impl<'a, 'n> Scope<'a, 'n> {
    ghost use Rattle.std.specs.Prelude.{IfOk};

    /// The scope of a procedure. `firsts` has the names of all procedures.
    pub fn new(
        alloc: Global,
        procedures: &'a [Procedure],
        firsts: &'n Names<'a>,
        own: &'a Procedure,
    ) -> Result<Scope<'a, 'n>, AllocError>
        requires { IsTableOf (map (λ p. p.name.name) procedures.now) firsts.now.places }
        ensures { IfOk result (λ s. (s.procedures.now ≡ procedures.now) × (s.own.now ≡ own.now)) }
    {
        let parameters = each(alloc, own.parameters.as_slice())?;
        let results = each(alloc, own.results.as_slice())?;
        let own_locals = each(alloc, locals(own))?;
        Ok(Scope {
            procedures,
            own,
            firsts,
            parameters: names_of(alloc, parameters.as_slice())?,
            results: names_of(alloc, results.as_slice())?,
            locals: names_of(alloc, own_locals.as_slice())?,
        })
    }

    /// Whether a name is a variable of the procedure.
    fn is_variable(&self, name: &Occ) -> bool
        ensures { IsTrue result ↔ HasName (variables_of (procedure_of self.now.own.now)) name.now.name }
    {
        self.is_parameter(name) || self.is_forbidden(Setting::Requires, name)
    }

    /// Whether a name may not stand in a setting.
    fn is_forbidden(&self, setting: Setting, name: &Occ) -> bool
        ensures { IsTrue result ↔ Forbidden (procedure_of self.now.own.now) setting name.now.name }
    {
        match setting {
            Setting::Requires => { self.results.has(name) || self.locals.has(name) }
            Setting::Ensures => self.locals.has(name),
            Setting::Inside => false,
        }
    }

    /// Whether a name is a parameter of the procedure.
    pub fn is_parameter(&self, name: &Occ) -> bool
        ensures { IsTrue result ↔ HasName (procedure_of self.now.own.now).parameters name.now.name }
    {
        self.parameters.has(name)
    }

    /// The procedure that a name means.
    pub fn callee_of(&self, name: &Occ) -> Option<&'a Procedure>
        ensures { IsMeant (map procedure_of self.now.procedures.now) name.now.name result }
    {
        let Some(place) = self.firsts.place(name.name.bytes()) else {
            return None;
        };
        self.procedures.get(place)
    }

    /// The error of an occurrence of a variable.
    pub fn in_occurrence(&self, setting: Setting, occurrence: &Occ) -> Option<Fault>
        ensures { IsFirstOf (OccurrenceErrors (procedure_of self.now.own.now) setting occurrence.now) result }
    {
        earlier(
            Fault::unless(self.is_variable(occurrence), 1, occurrence.span),
            Fault::unless(!self.is_forbidden(setting, occurrence), 9, occurrence.span),
        )
    }
}
