//! What a walk over a condition keeps of the part behind it.

ghost use Rattle.std.specs.Prelude.{◌≡◌, ◌+◌, ◌<◌, ◌≤◌, length, IfOk, OnOk};
ghost use Rattle.gh_base.specs.declared.place.Span.{Span};
ghost use Rattle.gh_path.specs.Conditions.{CheckIsThere, StartIsThere, StepIsThere};
ghost use Rattle.gh_path.specs.Kept.{asked_at, condition_of, start_of, step_of};
ghost use Rattle.gh_path.specs.Terms.{no_terms};
ghost use Rattle.gh_symb.specs.Contexts.{procedure_in, program_in, IsContextOf};
ghost use Rattle.gh_symb.specs.Passing.{HasPassed, MeetsState, PassesAll, PassesStep};
ghost use Rattle.gh_symb.specs.Walkers.{terms_at, EndsCheck, ReadsCheck, UsesCheck, UsesStep};

use crate::context::Context;
use crate::count::MOST_TERMS;
use crate::over_terms::{BoundAssertion, TermCheck, TermStep};
use crate::scope::Scope;
use crate::walker::Walker;
use gh_path::condition::{CheckKind, Condition, PathStep};
use std::alloc::{AllocError, Global};

/// The start assertion, the variables with the terms of their first uses, those with terms at each state, and the
/// steps over terms.
#[derive(Drop)]
pub struct PathSoFar<'a> {
    pub start: BoundAssertion<'a>,
    pub firsts: Scope<'a>,
    pub states: Vec<Scope<'a>>,
    pub steps: Vec<TermStep<'a>>,
}

impl<'a> PathSoFar<'a> {
    /// Walks over the start assertion of a condition.
    pub fn begin(
        alloc: Global,
        walker: &mut Walker<'a>,
        context: Context<'a>,
        condition: &'a Condition,
    ) -> Result<PathSoFar<'a>, AllocError>
        requires there { StartIsThere (procedure_in context) (start_of condition.now.start) }
        requires first { terms_at walker.old ≡ no_terms }
        ensures passed { IfOk result (λ k.
            HasPassed context.entry (condition_of condition.now).way.steps (condition_of condition.now) walker.new k) }
        ensures version { OnOk result (walker.new.version ≡ walker.old.version) }
    {
        let start = walker.ask_start(alloc, context, condition.start)?;
        Ok(PathSoFar {
            start,
            firsts: Scope::new(alloc),
            states: Vec::new(alloc),
            steps: Vec::new(alloc),
        })
    }

    /// Keeps a state. Variables that had no term at it and have one now are remembered with it.
    fn meet(&mut self, before: Scope<'a>, now: &Scope<'a>) -> Result<(), AllocError>
        ensures { OnOk result (MeetsState before.entry now.now self.old self.new) }
    {
        self.firsts.learn(&before, now)?;
        self.states.push(before)?;
        Ok(())
    }

    /// The variables that a step uses get terms. The state before it is kept.
    fn use_step(
        &mut self,
        alloc: Global,
        walker: &mut Walker<'a>,
        context: Context<'a>,
        step: &'a PathStep,
    ) -> Result<(), AllocError>
        requires { StepIsThere (program_in context) (procedure_in context) (step_of step.now) }
        ensures uses { OnOk result (UsesStep context.entry step.now walker.old walker.new) }
        ensures version { OnOk result (walker.new.version ≡ walker.old.version) }
        ensures met { OnOk result (MeetsState walker.old.scope walker.new.scope self.old self.new) }
    {
        let before = walker.scope.copy(alloc)?;
        walker.use_step(context, step)?;
        self.meet(before, &walker.scope)?;
        Ok(())
    }

    /// Walks over a step, and keeps it over terms.
    fn pass(
        &mut self,
        alloc: Global,
        walker: &mut Walker<'a>,
        context: Context<'a>,
        step: &'a PathStep,
    ) -> Result<(), AllocError>
        requires step { StepIsThere (program_in context) (procedure_in context) (step_of step.now) }
        requires room { walker.old.version < 9223372036854775807 }
        ensures passed { OnOk result (PassesStep context.entry step.now walker.old self.old walker.new self.new) }
        ensures next { OnOk result (walker.new.version ≤ walker.old.version + 1) }
    {
        self.use_step(alloc, walker, context, step)?;
        let encoded = walker.encode_step(alloc, context, step)?;
        self.steps.push(encoded)?;
        Ok(())
    }

    /// Walks over the steps of a condition, unless there come to be too many terms.
    pub fn pass_all(
        &mut self,
        alloc: Global,
        walker: &mut Walker<'a>,
        context: Context<'a>,
        condition: &'a Condition,
    ) -> Result<bool, AllocError>
        requires of { IsContextOf (program_in context) condition.now context }
        requires first { walker.old.version ≡ 0 }
        requires begun { HasPassed context (condition_of condition.now).way.steps (condition_of condition.now) walker.old self.old }
        ensures passed { IfOk result (PassesAll context.entry (condition_of condition.now) walker.new self.new) }
        ensures version { OnOk result (walker.new.version ≤ length condition.now.steps.items) }
    {
        for step in condition.steps.as_slice() {
            self.pass(alloc, walker, context, step)?;
            if walker.kinds.count() > MOST_TERMS {
                return Ok(false);
            }
        }
        Ok(true)
    }

    /// Walks over the check of a condition, and gives what it asks. The last state is kept.
    pub fn ask_check(
        &mut self,
        alloc: Global,
        walker: &mut Walker<'a>,
        context: Context<'a>,
        check: &'a CheckKind,
    ) -> Result<TermCheck<'a>, AllocError>
        requires { (at : Span) × CheckIsThere (program_in context) (procedure_in context) (asked_at check.now at) }
        ensures used { OnOk result (UsesCheck context.entry check.now walker.old walker.new) }
        ensures ended { OnOk result (EndsCheck context.entry check.now walker.old walker.new) }
        ensures read { IfOk result (ReadsCheck context.entry check.now walker.old) }
        ensures version { OnOk result (walker.new.version ≡ walker.old.version) }
        ensures met { OnOk result (MeetsState walker.old.scope walker.new.scope self.old self.new) }
    {
        let before = walker.scope.copy(alloc)?;
        let asked = walker.ask_check(alloc, context, check)?;
        self.meet(before, &walker.scope)?;
        Ok(asked)
    }
}
