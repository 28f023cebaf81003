//! The decision of one condition.

ghost use Rattle.std.specs.Prelude.{IfOk};
ghost use Rattle.gh_ast.specs.Plain.{program_of};
ghost use Rattle.gh_path.specs.Admitted.{IsAdmitted};
ghost use Rattle.gh_path.specs.Kept.{IsOne, HoldsFor};
ghost use Rattle.gh_symb.specs.Encoded.{IsSymbolic};
ghost use Rattle.gh_decide.specs.Verdicts.{IsVerdict};

use gh_ast::typed::Typed;
use gh_ground::solve::{Answer, solve_with};
use gh_log::lines::Section;
use gh_model::build::build;
use gh_path::condition::Condition;
use gh_reduce::ground::ground;
use gh_seek::known::Known;
use gh_symb::limits::SymbolicError;
use gh_symb::over_terms::Symbolic;
use gh_symb::symbolic::symbolic;
use gh_trace::state::Trace;
use std::alloc::{AllocError, Global};

/// What is decided of a condition: it is valid, which a section for its clauses shows, or a trace
/// is a counterexample.
#[derive(Debug, Drop)]
pub enum Verdict {
    Valid(Section),
    Refuted(Trace),
}

/// A condition of an admitted program, which passes no limit, over terms.
pub fn over_terms<'a>(
    alloc: Global,
    typed: &'a Typed,
    condition: &'a Condition,
) -> Result<Symbolic<'a>, AllocError>
    requires admitted { IsAdmitted (program_of typed.now) }
    requires one { IsOne (program_of typed.now) condition.now }
    ensures { IfOk result (λ s. HoldsFor (program_of typed.now) condition.now (λ P proc c. IsSymbolic P proc c s)) }
{
    match symbolic(alloc, typed, condition) {
        Ok(symbolic) => Ok(symbolic),
        Err(SymbolicError::Limit(_)) => unreachable!(),
        Err(SymbolicError::OutOfMemory) => Err(AllocError),
    }
}

/// Decides a condition of an admitted program.
pub fn decide(alloc: Global, typed: &Typed, condition: &Condition) -> Result<Verdict, AllocError>
    requires admitted { IsAdmitted (program_of typed.now) }
    requires one { IsOne (program_of typed.now) condition.now }
    ensures { IfOk result (λ v. IsVerdict (program_of typed.now) condition.now v) }
{
    decide_with(alloc, typed, condition, &mut Known::new())
}

/// Decides a condition of an admitted program as [`decide`] does. What is known from conditions that were decided
/// before may shorten the search, and what the search finds is known to later ones. Where memory runs out, more or less
/// may be known than before.
pub fn decide_with(
    alloc: Global,
    typed: &Typed,
    condition: &Condition,
    known: &mut Known,
) -> Result<Verdict, AllocError>
    requires admitted { IsAdmitted (program_of typed.now) }
    requires one { IsOne (program_of typed.now) condition.now }
    ensures { IfOk result (λ v. IsVerdict (program_of typed.now) condition.now v) }
{
    let symbolic = over_terms(alloc, typed, condition)?;
    let ground = ground(alloc, &symbolic)?;
    match solve_with(alloc, &ground, known)? {
        Answer::Refutation(section) => Ok(Verdict::Valid(section)),
        Answer::Model(structure) => {
            let trace = build(alloc, typed, condition, &symbolic, &structure)?;
            Ok(Verdict::Refuted(trace))
        }
    }
}
