//! The steps of a condition, over terms.

ghost use Rattle.std.specs.Prelude.{◌≡◌, ◌+◌, ◌<◌, ◌≤◌, IfOk, OnOk};
ghost use Rattle.gh_path.specs.Terms.{expr_term, term_of};
ghost use Rattle.gh_path.specs.declared.condition.PathStep.TheVariants.{Loop as OnLoop};
ghost use Rattle.gh_symb.specs.Fitting.{EncodesStep, IsTermOf, JoinsParts};
ghost use Rattle.gh_path.specs.Graphs.{HasProcedure, HasLoop};
ghost use Rattle.gh_path.specs.Conditions.{StepIsThere};
ghost use Rattle.gh_path.specs.Kept.{step_of};
ghost use Rattle.gh_symb.specs.Contexts.{procedure_in, program_in};
ghost use Rattle.gh_symb.specs.Steps.{cell_made, value_set, ChangesCell, KeepsHeap};
ghost use Rattle.gh_symb.specs.Walkers.{call_done, call_read, cell_read, inside_done, inside_read};
ghost use Rattle.gh_symb.specs.Walkers.{terms_at, terms_inside, Goes};
ghost use Rattle.gh_symb.specs.Walkers.{DoesAnywhere, DoesCall, DoesLoop, DoesStep};
ghost use Rattle.gh_symb.specs.Walkers.{ReadsAnywhere, ReadsCall, ReadsLoop, ReadsStep, WalksStep};

use crate::context::Context;
use crate::loops::while_of;
use crate::numbers::term_of;
use crate::over_terms::{BoundAssertion, TermStep};
use crate::scope::Scope;
use crate::walker::Walker;
use gh_ast::{Expr, Occ, Procedure};
use gh_base::atom::Term;
use gh_base::name::Name;
use gh_path::condition::PathStep;
use gh_path::loops::While;
use std::alloc::{AllocError, Global};

/// One part of the heap in the place of another.
fn part<'a>(
    alloc: Global,
    before: BoundAssertion<'a>,
    after: BoundAssertion<'a>,
) -> Result<TermStep<'a>, AllocError>
    ensures { IfOk result (JoinsParts before.entry after.entry) }
{
    let mut ways = Vec::new(alloc);
    ways.push(after)?;
    Ok(TermStep::Part {
        before,
        after: ways,
    })
}

impl<'a> Walker<'a> {
    /// The term of a variable.
    fn encode_name(&self, name: &Name) -> Term
        ensures { IsTermOf result (term_of name.now (terms_at self.now)) }
    {
        term_of(self.scope.term(name))
    }

    /// The term of an expression.
    fn encode_expr(&self, expr: &Expr) -> Term
        ensures { IsTermOf result (expr_term expr.now (terms_at self.now)) }
    {
        term_of(self.scope.expr_term(&self.kinds, expr, self.version))
    }

    /// A variable gets the place of a new cell. The next version begins.
    fn encode_new(&mut self, name: &'a Name) -> Result<TermStep<'a>, AllocError>
        requires { self.old.version < 9223372036854775807 }
        ensures done { OnOk result (Goes (cell_made name.now) self.old self.new) }
        ensures read { IfOk result (λ step. EncodesStep step (cell_read (terms_at self.old))) }
    {
        let location = self.kinds.add_value()?;
        let content = self.kinds.add_value()?;
        self.scope.bind(name, location)?;
        self.version += 1;
        let location = term_of(location);
        let content = term_of(content);
        Ok(TermStep::New { location, content })
    }

    /// Does a step that writes, makes or frees a cell.
    fn encode_cell(&mut self, step: &'a PathStep) -> Result<TermStep<'a>, AllocError>
        requires { self.old.version < 9223372036854775807 }
        ensures done { OnOk result (ChangesCell step.now → DoesAnywhere step.now self.old self.new) }
        ensures read { IfOk result (λ encoded. ChangesCell step.now → ReadsAnywhere step.now self.old encoded) }
        ensures next { OnOk result (self.new.version ≤ self.old.version + 1) }
    {
        match step {
            PathStep::Write { at, value } => {
                let x = self.encode_name(&at.name);
                let value = self.encode_expr(value);
                self.version += 1;
                Ok(TermStep::Write { x, value })
            }
            PathStep::New { target } => {
                let step = self.encode_new(&target.name)?;
                Ok(step)
            }
            PathStep::Free { at } => {
                let x = self.encode_name(&at.name);
                self.version += 1;
                Ok(TermStep::Free { x })
            }
            _ => Ok(TermStep::Same),
        }
    }

    /// Does a loop whose invariant is walked. The next version begins.
    fn encode_loop(
        &mut self,
        alloc: Global,
        context: Context<'a>,
        round: &While<'a>,
    ) -> Result<TermStep<'a>, AllocError>
        requires { self.old.version < 9223372036854775807 }
        ensures done { OnOk result (DoesLoop context.entry round.now self.old self.new) }
        ensures read { IfOk result (λ step. ReadsLoop context.entry round.now self.old step) }
        ensures next { OnOk result (self.new.version ≤ self.old.version + 1) }
    {
        let before = self.scope.bound(alloc, round.invariant, self.version)?;
        let body = round.body.statements.as_slice();
        self.scope
            .renew_all(&mut self.kinds, context.procedure, body)?;
        self.version += 1;
        let after = self.walk_bound(alloc, round.invariant)?;
        let step = part(alloc, before, after)?;
        Ok(step)
    }

    /// Walks over what a callee needs, and in the next version over what it gives.
    fn walk_callee(
        &mut self,
        alloc: Global,
        callee: &'a Procedure,
        inside: &mut Scope<'a>,
    ) -> Result<TermStep<'a>, AllocError>
        requires { self.old.version < 9223372036854775807 }
        ensures done { OnOk result (
            terms_inside self.new inside.new ≡ inside_done callee.now (terms_inside self.old inside.old)) }
        ensures scope { OnOk result (self.new.scope ≡ self.old.scope) }
        ensures next { OnOk result (self.new.version ≤ self.old.version + 1) }
        ensures read { IfOk result (λ step.
            EncodesStep step (inside_read callee.now (terms_inside self.old inside.old))) }
    {
        let before = inside.walk_bound(alloc, &mut self.kinds, &callee.needs, self.version)?;
        self.version += 1;
        let after = inside.walk_gives(alloc, &mut self.kinds, callee, self.version)?;
        Ok(TermStep::Part { before, after })
    }

    /// Does a call whose arguments are used. The next version begins.
    fn encode_call(
        &mut self,
        alloc: Global,
        callee: &'a Procedure,
        targets: &'a [Occ],
        arguments: &'a [Expr],
    ) -> Result<TermStep<'a>, AllocError>
        requires { self.old.version < 9223372036854775807 }
        ensures done { OnOk result (Goes (call_done callee.now targets.now arguments.now) self.old self.new) }
        ensures read { IfOk result (λ step. EncodesStep step (call_read callee.now arguments.now (terms_at self.old))) }
        ensures next { OnOk result (self.new.version ≤ self.old.version + 1) }
    {
        let mut inside = self.inside(alloc, callee, arguments)?;
        let step = self.walk_callee(alloc, callee, &mut inside)?;
        self.scope
            .bind_from(alloc, targets, &inside, callee.results.as_slice())?;
        Ok(step)
    }

    /// Does a call of the procedure of a number.
    fn encode_called(
        &mut self,
        alloc: Global,
        context: Context<'a>,
        callee: u16,
        targets: &'a [Occ],
        arguments: &'a [Expr],
    ) -> Result<TermStep<'a>, AllocError>
        requires callee { HasProcedure (program_in context) callee }
        requires room { self.old.version < 9223372036854775807 }
        ensures done { OnOk result (DoesCall context.entry callee targets.now arguments.now self.old self.new) }
        ensures read { IfOk result (λ step. ReadsCall context.entry callee arguments.now self.old step) }
        ensures next { OnOk result (self.new.version ≤ self.old.version + 1) }
    {
        let callee = &context.program.procedures[callee as usize];
        let step = self.encode_call(alloc, callee, targets, arguments)?;
        Ok(step)
    }

    /// Does the loop of a number.
    fn encode_looped(
        &mut self,
        alloc: Global,
        context: Context<'a>,
        number: u16,
    ) -> Result<TermStep<'a>, AllocError>
        requires round { HasLoop (procedure_in context) number }
        requires room { self.old.version < 9223372036854775807 }
        ensures done { OnOk result (DoesStep context.entry (OnLoop number) self.old self.new) }
        ensures read { IfOk result (λ step. ReadsStep context.entry (OnLoop number) self.old step) }
        ensures next { OnOk result (self.new.version ≤ self.old.version + 1) }
    {
        let round = while_of(context.procedure, number as usize);
        let step = self.encode_loop(alloc, context, &round)?;
        Ok(step)
    }

    /// Does a step that keeps the heap.
    fn encode_steady(
        &mut self,
        alloc: Global,
        context: Context<'a>,
        step: &'a PathStep,
    ) -> Result<TermStep<'a>, AllocError>
        ensures done { OnOk result (KeepsHeap step.now → DoesStep context.entry step.now self.old self.new) }
        ensures read { IfOk result (λ encoded. KeepsHeap step.now → ReadsStep context.entry step.now self.old encoded) }
        ensures version { OnOk result (self.new.version ≡ self.old.version) }
    {
        let version = self.version;
        match step {
            PathStep::Access { at } => {
                let x = self.encode_name(&at.name);
                self.kinds.add_next(version, self.scope.term(&at.name))?;
                Ok(TermStep::Access { x })
            }
            PathStep::Assume { left, equal, right } => {
                let left = self.encode_expr(left);
                let right = self.encode_expr(right);
                let equal = *equal;
                Ok(TermStep::Assume { left, equal, right })
            }
            PathStep::Set { target, value } => {
                let term = self.scope.expr_term(&self.kinds, value, version);
                self.scope.bind(&target.name, term)?;
                Ok(TermStep::Same)
            }
            PathStep::Return { values } => {
                let terms = self
                    .scope
                    .exprs_terms(alloc, &self.kinds, values.as_slice(), version)?;
                let results = context.procedure.results.as_slice();
                self.scope.bind_all(results, terms.as_slice())?;
                Ok(TermStep::Same)
            }
            _ => Ok(TermStep::Same),
        }
    }

    /// Does a step whose variables are used.
    pub fn encode_step(
        &mut self,
        alloc: Global,
        context: Context<'a>,
        step: &'a PathStep,
    ) -> Result<TermStep<'a>, AllocError>
        requires step { StepIsThere (program_in context) (procedure_in context) (step_of step.now) }
        requires room { self.old.version < 9223372036854775807 }
        ensures done { OnOk result (DoesStep context.entry step.now self.old self.new) }
        ensures read { IfOk result (λ encoded. ReadsStep context.entry step.now self.old encoded) }
        ensures next { OnOk result (self.new.version ≤ self.old.version + 1) }
    {
        match step {
            PathStep::Call {
                targets,
                callee,
                arguments,
            } => {
                let targets = targets.as_slice();
                let arguments = arguments.as_slice();
                let encoded = self.encode_called(alloc, context, *callee, targets, arguments)?;
                Ok(encoded)
            }
            PathStep::Loop { number } => {
                let encoded = self.encode_looped(alloc, context, *number)?;
                Ok(encoded)
            }
            PathStep::Write { .. } | PathStep::New { .. } | PathStep::Free { .. } => {
                let encoded = self.encode_cell(step)?;
                Ok(encoded)
            }
            PathStep::Access { .. }
            | PathStep::Assume { .. }
            | PathStep::Set { .. }
            | PathStep::Return { .. } => {
                let encoded = self.encode_steady(alloc, context, step)?;
                Ok(encoded)
            }
        }
    }

    /// Walks over an assignment to a variable.
    fn walk_set(&mut self, name: &'a Name, value: &'a Expr) -> Result<(), AllocError>
        ensures set { OnOk result (Goes (value_set name.now value.now) self.old self.new) }
        ensures version { OnOk result (self.new.version ≡ self.old.version) }
    {
        let term = self.scope.used_expr(&mut self.kinds, value, self.version)?;
        self.scope.bind(name, term)
    }

    /// Walks over a step. Where that only sets a variable or compares values, nothing is encoded.
    pub fn walk_step(
        &mut self,
        alloc: Global,
        context: Context<'a>,
        step: &'a PathStep,
    ) -> Result<(), AllocError>
        requires step { StepIsThere (program_in context) (procedure_in context) (step_of step.now) }
        requires room { self.old.version < 9223372036854775807 }
        ensures walked { OnOk result (WalksStep context.entry step.now self.old self.new) }
        ensures next { OnOk result (self.new.version ≤ self.old.version + 1) }
    {
        match step {
            PathStep::Set { target, value } => self.walk_set(&target.name, value),
            PathStep::Assume { .. } => self.use_step(context, step),
            _ => {
                self.use_step(context, step)?;
                self.encode_step(alloc, context, step)?;
                Ok(())
            }
        }
    }
}
