//! A walk over a condition, step by step.

ghost use Rattle.std.specs.Prelude.{◌≡◌, OnOk, IfOk};
ghost use Rattle.gh_path.specs.Terms.{no_terms};
ghost use Rattle.gh_symb.specs.Reads.{each_walked_of, walked_of};
ghost use Rattle.gh_path.specs.Graphs.{HasLoop};
ghost use Rattle.gh_path.specs.Conditions.{StepIsThere};
ghost use Rattle.gh_path.specs.Kept.{step_of};
ghost use Rattle.gh_symb.specs.Contexts.{procedure_in, program_in};
ghost use Rattle.gh_symb.specs.Walkers.{terms_at, Goes, IsInsideCall, ReadsAssertion, ReadsWays, UsesStep};
ghost use Rattle.gh_symb.specs.Walkers.{WalksInvariant};

use crate::context::Context;
use crate::kinds::Kinds;
use crate::loops::while_of;
use crate::over_terms::BoundAssertion;
use crate::scope::Scope;
use gh_ast::{Assertion, Expr, Procedure};
use gh_path::condition::PathStep;
use std::alloc::{AllocError, Global};

/// How far a walk has come: the kinds of the terms, the variables that have terms, and the present version of the
/// heap.
#[derive(Debug, Drop)]
pub struct Walker<'a> {
    pub kinds: Kinds,
    pub scope: Scope<'a>,
    pub version: usize,
}

impl<'a> Walker<'a> {
    /// Null alone, no variable with a term, and the first version.
    pub fn new(alloc: Global) -> Result<Walker<'a>, AllocError>
        ensures terms { IfOk result (λ w. terms_at w ≡ no_terms) }
        ensures version { IfOk result (λ w. w.version ≡ 0) }
    {
        let kinds = Kinds::new(alloc)?;
        let scope = Scope::new(alloc);
        Ok(Walker {
            kinds,
            scope,
            version: 0,
        })
    }

    /// Walks over an assertion, and gives it.
    pub fn walk_bound(
        &mut self,
        alloc: Global,
        assertion: &'a Assertion,
    ) -> Result<BoundAssertion<'a>, AllocError>
        ensures made { OnOk result (Goes (walked_of assertion.now) self.old self.new) }
        ensures encodes { IfOk result (ReadsAssertion assertion.now self.old) }
        ensures version { OnOk result (self.new.version ≡ self.old.version) }
    {
        let version = self.version;
        let bound = self
            .scope
            .walk_bound(alloc, &mut self.kinds, assertion, version)?;
        Ok(bound)
    }

    /// Walks over alternatives in their order, and gives each once it is walked.
    pub fn walk_bounds(
        &mut self,
        alloc: Global,
        ways: &'a [Assertion],
    ) -> Result<Vec<BoundAssertion<'a>>, AllocError>
        ensures made { OnOk result (Goes (each_walked_of ways.now) self.old self.new) }
        ensures encode { IfOk result (λ bs. ReadsWays ways.now self.old bs.items) }
        ensures version { OnOk result (self.new.version ≡ self.old.version) }
    {
        let version = self.version;
        let bounds = self
            .scope
            .walk_bounds(alloc, &mut self.kinds, ways, version)?;
        Ok(bounds)
    }

    /// The scope inside a callee: its parameters have the terms of the arguments.
    pub fn inside(
        &self,
        alloc: Global,
        callee: &'a Procedure,
        arguments: &[Expr],
    ) -> Result<Scope<'a>, AllocError>
        ensures { IfOk result (λ inside. IsInsideCall callee.now arguments.now (terms_at self.now) inside) }
    {
        let terms = self
            .scope
            .exprs_terms(alloc, &self.kinds, arguments, self.version)?;
        let mut inside = Scope::new(alloc);
        inside.bind_all(callee.parameters.as_slice(), terms.as_slice())?;
        Ok(inside)
    }

    /// Walks over the invariant of a loop.
    fn walk_invariant(&mut self, context: Context<'a>, number: u16) -> Result<(), AllocError>
        requires { HasLoop (procedure_in context) number }
        ensures terms { OnOk result (WalksInvariant context.entry number self.old self.new) }
        ensures version { OnOk result (self.new.version ≡ self.old.version) }
    {
        let round = while_of(context.procedure, number as usize);
        self.scope
            .walk(&mut self.kinds, round.invariant, self.version)
    }

    /// The variables that a step uses get terms.
    pub fn use_step(&mut self, context: Context<'a>, step: &'a PathStep) -> Result<(), AllocError>
        requires { StepIsThere (program_in context) (procedure_in context) (step_of step.now) }
        ensures uses { OnOk result (UsesStep context.entry step.now self.old self.new) }
        ensures version { OnOk result (self.new.version ≡ self.old.version) }
    {
        let version = self.version;
        match step {
            PathStep::Access { at } => self.scope.use_name(&mut self.kinds, &at.name),
            PathStep::Assume { left, right, .. } => {
                self.scope.use_expr(&mut self.kinds, left, version)?;
                self.scope.use_expr(&mut self.kinds, right, version)
            }
            PathStep::Set { value, .. } => self.scope.use_expr(&mut self.kinds, value, version),
            PathStep::Write { at, value } => {
                self.scope.use_name(&mut self.kinds, &at.name)?;
                self.scope.use_expr(&mut self.kinds, value, version)
            }
            PathStep::New { .. } => Ok(()),
            PathStep::Free { at } => self.scope.use_name(&mut self.kinds, &at.name),
            PathStep::Call { arguments, .. } => {
                self.scope
                    .use_exprs(&mut self.kinds, arguments.as_slice(), version)
            }
            PathStep::Loop { number } => self.walk_invariant(context, *number),
            PathStep::Return { values } => {
                self.scope
                    .use_exprs(&mut self.kinds, values.as_slice(), version)
            }
        }
    }
}
