//! A condition over terms.

ghost use Rattle.std.specs.Prelude.{◌≤◌, [], IfOk, IfErr};
ghost use Rattle.gh_ast.specs.Plain.{Procedure, Program, program_of};
ghost use Rattle.gh_path.specs.Conditions as plain;
ghost use Rattle.gh_path.specs.Kept.{condition_of, IsScoped, HoldsFor};
ghost use Rattle.gh_symb.specs.Contexts.{procedure_in, program_in, IsContextOf};
ghost use Rattle.gh_symb.specs.Limits.{PassesNone, IsRefusedBy};
ghost use Rattle.gh_symb.specs.Encoded.{IsSymbolic};
ghost use Rattle.gh_symb.specs.Passing.{HasPassed};
ghost use Rattle.gh_symb.specs.Walked.{EncodesWalked, IsWalked, IsWalkedFar, IsWithinLimits};

use crate::bindings::all_bindings;
use crate::context::{Context, context_of};
use crate::count::Counted;
use crate::kinds::Kinds;
use crate::limits::{SymbolicError, limit_of, terms_limit};
use crate::over_terms::{BoundAssertion, Symbolic, TermCheck, TermStep};
use crate::passed::PathSoFar;
use crate::walker::Walker;
use gh_ast::typed::Typed;
use gh_grass::binding::Binding;
use gh_path::condition::Condition;
use std::alloc::{AllocError, Global};

/// A condition that is walked to its end: the kinds of its terms, its last version, how many there are of both, and
/// its parts over terms.
#[derive(Debug, Drop)]
pub struct Walked<'a> {
    pub kinds: Kinds,
    pub version: usize,
    pub counts: Counted,
    pub start: BoundAssertion<'a>,
    pub steps: Vec<TermStep<'a>>,
    pub check: TermCheck<'a>,
    pub bindings: Vec<Binding>,
}

/// Walks over the check of a condition whose steps are passed.
fn end<'a>(
    alloc: Global,
    context: Context<'a>,
    condition: &'a Condition,
    walker: Walker<'a>,
    passed: PathSoFar<'a>,
) -> Result<Walked<'a>, AllocError>
    requires of { IsContextOf (program_in context) condition.now context }
    requires room { walker.version ≤ 9223372036854775807 }
    requires passed { HasPassed context [] (condition_of condition.now) walker passed }
    ensures { IfOk result (IsWalked (program_in context.entry) (procedure_in context.entry) (condition_of condition.now)) }
{
    let mut walker = walker;
    let mut passed = passed;
    let check = passed.ask_check(alloc, &mut walker, context, &condition.check.kind)?;
    let bindings = all_bindings(alloc, passed.states.as_slice(), &passed.firsts)?;
    let counts = Counted::new(walker.kinds.count(), walker.version + 1);
    Ok(Walked {
        kinds: walker.kinds,
        version: walker.version,
        counts,
        start: passed.start,
        steps: passed.steps,
        check,
        bindings,
    })
}

/// Walks over a condition. There is none where it has too many terms before its check.
fn walk<'a>(
    alloc: Global,
    typed: &'a Typed,
    condition: &'a Condition,
) -> Result<Option<Walked<'a>>, AllocError>
    requires { IsScoped (program_of typed.now) condition.now }
    ensures { IfOk result (λ o. HoldsFor (program_of typed.now) condition.now (λ P proc c. IsWalkedFar P proc c o)) }
{
    let context = context_of(typed, condition);
    let mut walker = Walker::new(alloc)?;
    let mut passed = PathSoFar::begin(alloc, &mut walker, context, condition)?;
    if !passed.pass_all(alloc, &mut walker, context, condition)? {
        return Ok(None);
    }
    let walked = end(alloc, context, condition, walker, passed)?;
    Ok(Some(walked))
}

/// The condition over terms of a condition that passes no limit.
fn encode<'a>(alloc: Global, walked: Walked<'a>) -> Result<Symbolic<'a>, AllocError>
    requires { (P : Program) × (proc : Procedure) × (c : plain.Condition) × IsWithinLimits P proc c walked }
    ensures { IfOk result (EncodesWalked walked.entry) }
{
    let terms = walked.kinds.encode(alloc)?;
    let versions = (walked.version + 1) as u8;
    Ok(Symbolic {
        terms,
        versions,
        start: walked.start,
        bindings: walked.bindings,
        steps: walked.steps,
        check: walked.check,
    })
}

/// The condition over terms that a condition of a program is, unless it passes a limit.
pub fn symbolic<'a>(
    alloc: Global,
    typed: &'a Typed,
    condition: &'a Condition,
) -> Result<Symbolic<'a>, SymbolicError>
    requires { IsScoped (program_of typed.now) condition.now }
    ensures encoded { IfOk result (λ s.
        HoldsFor (program_of typed.now) condition.now (λ P proc c. IsSymbolic P proc c s)) }
    ensures few { IfOk result (λ _. HoldsFor (program_of typed.now) condition.now PassesNone) }
    ensures refused { IfErr result (λ e. HoldsFor (program_of typed.now) condition.now (IsRefusedBy e)) }
{
    let Some(walked) = walk(alloc, typed, condition)? else {
        return Err(SymbolicError::Limit(terms_limit(typed, condition)));
    };
    match limit_of(typed, condition, walked.counts) {
        Some(limit) => Err(SymbolicError::Limit(limit)),
        None => {
            let symbolic = encode(alloc, walked)?;
            Ok(symbolic)
        }
    }
}
