//! The start and the check of a condition, over terms.

ghost use Rattle.std.specs.Prelude.{◌≡◌, IfOk, OnOk};
ghost use Rattle.gh_ast.specs.Plain.{assertion_of, procedure_of};
ghost use Rattle.gh_base.specs.declared.place.Span.{Span};
ghost use Rattle.gh_path.specs.Graphs.{meets_at, HasLoop, HasProcedure};
ghost use Rattle.gh_path.specs.Conditions.{CheckIsThere, StartIsThere};
ghost use Rattle.gh_path.specs.Kept.{asked_at, start_of};
ghost use Rattle.gh_symb.specs.Fitting.{AsksWhole};
ghost use Rattle.gh_symb.specs.Contexts.{procedure_in, program_in};
ghost use Rattle.gh_symb.specs.Walkers.{Begins, EndsCalled, EndsCheck, EndsEntry, ReadsCalled, ReadsCheck, ReadsEntry};
ghost use Rattle.gh_symb.specs.Walkers.{ReadsInvariant, UsesAll, UsesCheck, WalksInvariant};

use crate::context::Context;
use crate::loops::while_of;
use crate::numbers::term_of;
use crate::over_terms::{BoundAssertion, TermCheck};
use crate::walker::Walker;
use gh_ast::{Assertion, Expr, Procedure};
use gh_path::condition::{CheckKind, Start};
use std::alloc::{AllocError, Global};

/// The start assertion.
fn start_assertion(procedure: &Procedure, start: Start) -> &Assertion
    requires { StartIsThere (procedure_of procedure.now) (start_of start) }
    ensures { assertion_of result.now ≡ meets_at (procedure_of procedure.now) (start_of start) }
{
    match start {
        Start::Entry => &procedure.needs,
        Start::Loop { number } => while_of(procedure, number as usize).invariant,
    }
}

/// One assertion that the whole heap meets.
fn whole<'a>(alloc: Global, bound: BoundAssertion<'a>) -> Result<TermCheck<'a>, AllocError>
    ensures { IfOk result (AsksWhole bound.entry) }
{
    let mut ways = Vec::new(alloc);
    ways.push(bound)?;
    Ok(TermCheck::Whole(ways))
}

impl<'a> Walker<'a> {
    /// Walks over a start assertion, and gives it.
    pub fn ask_start(
        &mut self,
        alloc: Global,
        context: Context<'a>,
        start: Start,
    ) -> Result<BoundAssertion<'a>, AllocError>
        requires { StartIsThere (procedure_in context) (start_of start) }
        ensures begins { IfOk result (Begins context.entry start self.old self.new) }
        ensures version { OnOk result (self.new.version ≡ self.old.version) }
    {
        let assertion = start_assertion(context.procedure, start);
        let bound = self.walk_bound(alloc, assertion)?;
        Ok(bound)
    }

    /// Uses the arguments of a callee, and asks what it needs.
    fn ask_callee(
        &mut self,
        alloc: Global,
        callee: &'a Procedure,
        arguments: &'a [Expr],
    ) -> Result<TermCheck<'a>, AllocError>
        ensures used { OnOk result (UsesAll arguments.now self.old self.new) }
        ensures ended { OnOk result (EndsEntry callee.now arguments.now self.old self.new) }
        ensures read { IfOk result (ReadsEntry callee.now arguments.now self.old) }
        ensures version { OnOk result (self.new.version ≡ self.old.version) }
    {
        self.scope
            .use_exprs(&mut self.kinds, arguments, self.version)?;
        let mut inside = self.inside(alloc, callee, arguments)?;
        let bound = inside.walk_bound(alloc, &mut self.kinds, &callee.needs, self.version)?;
        Ok(TermCheck::Sub(bound))
    }

    /// Uses the arguments of a call, and asks what the procedure of a number needs.
    fn ask_called(
        &mut self,
        alloc: Global,
        context: Context<'a>,
        callee: u16,
        arguments: &'a [Expr],
    ) -> Result<TermCheck<'a>, AllocError>
        requires { HasProcedure (program_in context) callee }
        ensures used { OnOk result (UsesAll arguments.now self.old self.new) }
        ensures ended { OnOk result (EndsCalled context.entry callee arguments.now self.old self.new) }
        ensures read { IfOk result (ReadsCalled context.entry callee arguments.now self.old) }
        ensures version { OnOk result (self.new.version ≡ self.old.version) }
    {
        let callee = &context.program.procedures[callee as usize];
        let asked = self.ask_callee(alloc, callee, arguments)?;
        Ok(asked)
    }

    /// Walks over the invariant of a loop, and gives it.
    fn ask_invariant(
        &mut self,
        alloc: Global,
        context: Context<'a>,
        number: u16,
    ) -> Result<BoundAssertion<'a>, AllocError>
        requires { HasLoop (procedure_in context) number }
        ensures made { OnOk result (WalksInvariant context.entry number self.old self.new) }
        ensures read { IfOk result (ReadsInvariant context.entry number self.old) }
        ensures version { OnOk result (self.new.version ≡ self.old.version) }
    {
        let round = while_of(context.procedure, number as usize);
        let bound = self.walk_bound(alloc, round.invariant)?;
        Ok(bound)
    }

    /// Uses the variables of a check, and gives what it asks.
    pub fn ask_check(
        &mut self,
        alloc: Global,
        context: Context<'a>,
        check: &'a CheckKind,
    ) -> Result<TermCheck<'a>, AllocError>
        requires { (at : Span) × CheckIsThere (program_in context) (procedure_in context) (asked_at check.now at) }
        ensures used { OnOk result (UsesCheck context.entry check.now self.old self.new) }
        ensures ended { OnOk result (EndsCheck context.entry check.now self.old self.new) }
        ensures read { IfOk result (ReadsCheck context.entry check.now self.old) }
        ensures version { OnOk result (self.new.version ≡ self.old.version) }
    {
        match check {
            CheckKind::Access { at } => {
                self.scope.use_name(&mut self.kinds, at)?;
                let x = term_of(self.scope.term(at));
                Ok(TermCheck::Access { x })
            }
            CheckKind::CalleeEntry { callee, arguments } => {
                let asked = self.ask_called(alloc, context, *callee, arguments.as_slice())?;
                Ok(asked)
            }
            CheckKind::LoopEntry { number } => {
                let bound = self.ask_invariant(alloc, context, *number)?;
                Ok(TermCheck::Sub(bound))
            }
            CheckKind::Return => {
                let gives = context.procedure.gives.as_slice();
                let bounds = self.walk_bounds(alloc, gives)?;
                Ok(TermCheck::Whole(bounds))
            }
            CheckKind::LoopEnd { number } => {
                let bound = self.ask_invariant(alloc, context, *number)?;
                let asked = whole(alloc, bound)?;
                Ok(asked)
            }
        }
    }
}
