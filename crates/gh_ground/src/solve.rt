//! The decision of ground clauses.

ghost use Rattle.std.specs.Prelude.{◌≤◌, IfOk, IfSome, OnOk};
ghost use Rattle.gh_cc.specs.Fields.{most_filed};
ghost use Rattle.gh_base.specs.Atoms.{count_of};
ghost use Rattle.gh_ground.specs.Kept.{HasLineEach, IsFalseAtLevelZero};
ghost use Rattle.gh_ground.specs.Solving.{IsAnswer, IsModelOf, IsRefutationOf};

use crate::checked::checked_model;
use crate::definitions::with_definitions;
use crate::proposal::refutes;
use crate::solver::{Outcome, Solver};
use crate::trim::trim;
use gh_base::atom::Lit;
use gh_base::ground::Ground;
use gh_base::structure::Structure;
use gh_cc::classes::MOST_FILED;
use gh_log::lines::Section;
use gh_seek::known::Known;
use gh_seek::seek::{Found, seek};
use std::alloc::{AllocError, Global};

/// A structure that makes all clauses and all axiom instances true, or a section that refutes them.
#[derive(Debug, Drop)]
pub enum Answer {
    Model(Structure),
    Refutation(Section),
}

// The section of a search that came to a conflict at level 0.
fn refutation(
    alloc: Global,
    ground: &Ground,
    solver: &mut Solver,
    conflict: u32,
) -> Result<Section, AllocError>
    requires kept { HasLineEach ground.now solver.old.search solver.old.lines }
    requires conflict { IsFalseAtLevelZero solver.old.search conflict }
    ensures { IfOk result (IsRefutationOf ground.now) }
{
    solver.refute(alloc, conflict)?;
    trim(alloc, ground, solver.take_section(alloc))
}

// What a search comes to.
fn answer_of(alloc: Global, ground: &Ground, solver: &mut Solver) -> Result<Answer, AllocError>
    requires { HasLineEach ground.now solver.old.search solver.old.lines }
    ensures { IfOk result (λ answer. IsAnswer ground.now answer) }
{
    match solver.outcome(alloc)? {
        Outcome::Model(structure) => Ok(Answer::Model(structure)),
        Outcome::Conflict(conflict) => {
            let section = refutation(alloc, ground, solver, conflict)?;
            Ok(Answer::Refutation(section))
        }
    }
}

/// Decides ground clauses together with all axiom instances by this crate's own search alone.
///
/// More atoms than `MOST_FILED`, and more clauses than `MOST_CLAUSES` with those that are learnt, are answered as out
/// of memory.
pub fn solve_alone(alloc: Global, ground: &Ground) -> Result<Answer, AllocError>
    ensures answer { IfOk result (λ answer. IsAnswer ground.now answer) }
    ensures few { OnOk result (count_of ground.now.sizes ≤ most_filed) }
{
    let mut solver = Solver::new(alloc, ground)?;
    answer_of(alloc, ground, &mut solver)
}

// The structure of truths that a search without contracts proposes, if it is a model.
fn proposed_model(
    alloc: Global,
    ground: &Ground,
    truths: &[Lit],
) -> Result<Option<Structure>, AllocError>
    ensures { IfOk result (λ o. IfSome o (IsModelOf ground.now)) }
{
    let lits = with_definitions(alloc, ground, truths)?;
    Ok(checked_model(alloc, ground, lits.as_slice())?)
}

// The answer that a search without contracts proposes, if it holds.
fn proposed_answer(
    alloc: Global,
    ground: &Ground,
    found: Found,
) -> Result<Option<Answer>, AllocError>
    ensures { IfOk result (λ o. IfSome o (IsAnswer ground.now)) }
{
    match found {
        Found::Refutation(section) => {
            if refutes(alloc, ground, &section)? {
                return Ok(Some(Answer::Refutation(trim(alloc, ground, section)?)));
            }
            Ok(None)
        }
        Found::Truths(truths) => match proposed_model(alloc, ground, truths.as_slice())? {
            Some(structure) => Ok(Some(Answer::Model(structure))),
            None => Ok(None),
        },
        Found::Nothing => Ok(None),
    }
}

// What a search without contracts finds; nothing where it has too little memory.
fn proposal(alloc: Global, ground: &Ground, known: &mut Known) -> Found {
    match seek(alloc, ground, known) {
        Ok(found) => found,
        Err(_error) => Found::Nothing,
    }
}

/// Decides ground clauses together with all axiom instances. A search without contracts (`gh_seek`) is asked first: a
/// section that it finds is the answer where it refutes them, without the lines that nothing needs, and the structure of
/// truths that it finds where it is a model. Else this crate's own search decides, as [`solve_alone`] does.
///
/// More atoms than `MOST_FILED`, and more clauses than `MOST_CLAUSES` with those that are learnt, are answered as out
/// of memory.
pub fn solve(alloc: Global, ground: &Ground) -> Result<Answer, AllocError>
    ensures answer { IfOk result (λ answer. IsAnswer ground.now answer) }
    ensures few { OnOk result (count_of ground.now.sizes ≤ most_filed) }
{
    solve_with(alloc, ground, &mut Known::new())
}

/// Decides ground clauses as [`solve`] does. What is known from clauses that were decided before may shorten the search,
/// and what it finds is known to later ones. Where memory runs out, more or less may be known than before.
pub fn solve_with(alloc: Global, ground: &Ground, known: &mut Known) -> Result<Answer, AllocError>
    ensures answer { IfOk result (λ answer. IsAnswer ground.now answer) }
    ensures few { OnOk result (count_of ground.now.sizes ≤ most_filed) }
{
    if ground.sizes().count() > MOST_FILED {
        return Err(AllocError);
    }
    let found = proposal(alloc, ground, known);
    match proposed_answer(alloc, ground, found)? {
        Some(answer) => Ok(answer),
        None => Ok(solve_alone(alloc, ground)?),
    }
}
