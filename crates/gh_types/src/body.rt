// The statements of a body.

ghost use Rattle.std.specs.Prelude.{[], ◌∷◌, IfOk, false};
ghost use Rattle.gh_ast.specs.Plain.{procedure_of, statement_of, statements_view, set, call};
ghost use Rattle.gh_ast.specs.Occurrences.{assigned, mentioned, called, returned, sites_in, all_sites_in};
ghost use Rattle.gh_ast.specs.Occurrences.{sites_in_body};
ghost use Rattle.gh_types.specs.Checks.{OccurrenceErrors, ParameterErrors, TargetErrors};
ghost use Rattle.gh_types.specs.Scopes.{SiteErrorsIn, IsFirstAt};
ghost use Rattle.gh_types.specs.declared.scope.Setting.TheVariants.{Inside};
ghost use Rattle.gh_types.specs.Faults.{IsFirstIn, IsFirstOf};

use crate::fault::{Fault, earlier};
use crate::names::{each, repeated};
use crate::scope::{Scope, Setting};
use gh_ast::{Expr, Occ, Stmt};
use gh_base::place::Span;
use std::alloc::{AllocError, Global};

impl<'a, 'n> Scope<'a, 'n> {
    /// The error of a target that is a parameter.
    fn in_target(&self, target: &Occ) -> Option<Fault>
        ensures { IsFirstOf (ParameterErrors (procedure_of self.now.own.now) target.now) result }
    {
        Fault::unless(!self.is_parameter(target), 3, target.span)
    }

    /// The first error of the targets of one statement.
    fn in_targets(&self, alloc: Global, targets: &[Occ]) -> Result<Option<Fault>, AllocError>
        ensures { IfOk result (IsFirstOf (TargetErrors (procedure_of self.now.own.now) targets.now)) }
    {
        let mut first = None;
        for target in targets {
            first = earlier(first, self.in_target(target));
        }
        let targets = each(alloc, targets)?;
        Ok(earlier(first, repeated(alloc, 10, targets.as_slice())?))
    }

    /// The first error of the one target of a statement.
    fn in_assigned(&self, target: &Occ) -> Option<Fault>
        ensures { IsFirstAt self.now (assigned (target.now ∷ []) ∷ mentioned target.now ∷ []) result }
    {
        earlier(
            self.in_target(target),
            self.in_occurrence(Setting::Inside, target),
        )
    }

    /// The first error of an assignment of a value.
    fn in_assignment(&self, target: &Occ, value: &Expr) -> Option<Fault>
        ensures { IsFirstAt self.now (sites_in false (set target.now value.now)) result }
    {
        earlier(
            self.in_assigned(target),
            self.in_expr(Setting::Inside, value),
        )
    }

    /// The first error in some occurrences in a body.
    fn in_occurrences(&self, occurrences: &[Occ]) -> Option<Fault>
        ensures { IsFirstIn (OccurrenceErrors (procedure_of self.now.own.now) Inside) occurrences.now result }
    {
        let mut first = None;
        for occurrence in occurrences {
            first = earlier(first, self.in_occurrence(Setting::Inside, occurrence));
        }
        first
    }

    /// The error of a call: an unknown callee, or a wrong count.
    fn in_call(&self, targets: &[Occ], callee: &Occ, arguments: &[Expr]) -> Option<Fault>
        ensures { IsFirstOf (SiteErrorsIn self.now
            (called targets.now callee.now arguments.now)) result }
    {
        match self.callee_of(callee) {
            Some(procedure) => {
                let counts = arguments.len() == procedure.parameters.len()
                    && targets.len() == procedure.results.len();
                Fault::unless(counts, 4, callee.span)
            }
            None => Fault::unless(false, 6, callee.span),
        }
    }

    /// The first error of a return.
    fn in_return(&self, in_loop: bool, span: Span, values: &[Expr]) -> Option<Fault>
        ensures { IsFirstOf (SiteErrorsIn self.now
            (returned in_loop span values.now)) result }
    {
        earlier(
            Fault::unless(values.len() == self.own.results.len(), 4, span),
            Fault::unless(!in_loop, 5, span),
        )
    }

    /// The first error in a statement, which stands in a loop's body or not.
    #[cycle(statement)]
    fn in_statement(
        &self,
        alloc: Global,
        in_loop: bool,
        statement: &Stmt,
    ) -> Result<Option<Fault>, AllocError>
        ensures { IfOk result (IsFirstIn (SiteErrorsIn self.now) (sites_in in_loop (statement_of statement.now))) }
    {
        match statement {
            Stmt::Set { target, value } => Ok(self.in_assignment(target, value)),
            Stmt::New { target } => Ok(self.in_assigned(target)),
            Stmt::Write { at, value } => Ok(earlier(
                self.in_occurrence(Setting::Inside, at),
                self.in_expr(Setting::Inside, value),
            )),
            Stmt::Free { at } => Ok(self.in_occurrence(Setting::Inside, at)),
            Stmt::Call {
                targets,
                callee,
                arguments,
            } => self.in_call_statement(alloc, targets.as_slice(), callee, arguments.as_slice()),
            Stmt::If {
                test,
                taken,
                otherwise,
            } => {
                let first = self.in_cond(Setting::Inside, test);
                let second = self.in_statements(alloc, in_loop, taken.statements.as_slice())?;
                let third = self.in_statements(alloc, in_loop, otherwise.statements.as_slice())?;
                Ok(earlier(earlier(first, second), third))
            }
            Stmt::While {
                test,
                invariant,
                body,
                ..
            } => {
                let first = self.in_cond(Setting::Inside, test);
                let second = self.in_assertion(Setting::Inside, invariant);
                let third = self.in_statements(alloc, true, body.statements.as_slice())?;
                Ok(earlier(earlier(first, second), third))
            }
            Stmt::Return { span, values } => Ok(earlier(
                self.in_return(in_loop, *span, values.as_slice()),
                self.in_exprs(Setting::Inside, values.as_slice()),
            )),
        }
    }

    /// The first error in some statements.
    #[cycle(statement)]
    fn in_statements(
        &self,
        alloc: Global,
        in_loop: bool,
        statements: &[Stmt],
    ) -> Result<Option<Fault>, AllocError>
        ensures { IfOk result (IsFirstAt self.now (all_sites_in in_loop (statements_view statements.now))) }
    {
        let mut first = None;
        for statement in statements {
            first = earlier(first, self.in_statement(alloc, in_loop, statement)?);
        }
        Ok(first)
    }

    /// The first error in a call with its targets.
    fn in_call_statement(
        &self,
        alloc: Global,
        targets: &[Occ],
        callee: &Occ,
        arguments: &[Expr],
    ) -> Result<Option<Fault>, AllocError>
        ensures { IfOk result (IsFirstAt self.now (sites_in false (call targets.now callee.now arguments.now))) }
    {
        let of_targets = self.in_targets(alloc, targets)?;
        let of_call = self.in_call(targets, callee, arguments);
        let inside = earlier(
            self.in_occurrences(targets),
            self.in_exprs(Setting::Inside, arguments),
        );
        Ok(earlier(of_targets, earlier(of_call, inside)))
    }

    /// The first error in the body, where there is one.
    pub fn in_body(&self, alloc: Global) -> Result<Option<Fault>, AllocError>
        ensures { IfOk result (IsFirstIn (SiteErrorsIn self.now) (sites_in_body (procedure_of self.now.own.now).body)) }
    {
        match &self.own.body {
            Some(body) => self.in_statements(alloc, false, body.block.statements.as_slice()),
            None => Ok(None),
        }
    }
}
