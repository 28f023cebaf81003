//! What a search over the clauses of a problem comes to.

use crate::apart::Apart;
use crate::lessons::{Lesson, is_learnt, is_shown};
use crate::problems::{Problem, are_in_range, clause_of, empty, push_problem};
use crate::turns::{decided, is_satisfiable, next_conflict};
use gh_base::atom::Lit;
use gh_base::clause::Clause;
use gh_base::ground::Ground;
use gh_sat::search::Search;
use gh_sat::trail::Step;
use std::alloc::{AllocError, Global};

// How many clauses are in a refutation, if there is one that shows the empty clause.
fn refuting(alloc: Global, search: &mut Search<Apart>) -> Result<Option<usize>, AllocError> {
    if is_satisfiable(alloc, search)? {
        return Ok(None);
    }
    let Some(k) = next_conflict(alloc, search)? else {
        return Ok(None);
    };
    if search.level() > 0 {
        return Ok(None);
    }
    let reasons = search.refutation(alloc, k)?;
    let is_shown = is_shown(alloc, search, reasons.as_slice(), &[])?;
    Ok(if is_shown { Some(reasons.len()) } else { None })
}

// A refutation has so many clauses, if it says how many.
fn is_refuted(
    alloc: Global,
    search: &mut Search<Apart>,
    wanted: Option<usize>,
) -> Result<bool, AllocError> {
    let found = refuting(alloc, search)?;
    Ok(found.is_some() && (wanted.is_none() || found == wanted))
}

// Whether literals stand at their places of the trail.
fn stand(steps: &[Step], wanted: &[(usize, Lit)]) -> bool {
    for (place, lit) in wanted {
        match steps.get(*place) {
            None => return false,
            Some(step) => {
                if !step.lit.is_same(*lit) {
                    return false;
                }
            }
        }
    }
    true
}

// The same after all is decided.
fn are_decided(
    alloc: Global,
    search: &mut Search<Apart>,
    wanted: &[(usize, Lit)],
) -> Result<bool, AllocError> {
    next_conflict(alloc, search)?;
    Ok(stand(search.steps(), wanted))
}

// Adds a clause, if its atoms are in range, and says whether they are.
fn add(search: &mut Search<Apart>, clause: Clause) -> Result<bool, AllocError> {
    let is_in_range = are_in_range(search.assignment().sizes(), clause.lits());
    if is_in_range {
        search.add(clause)?;
    }
    Ok(is_in_range)
}

// The level after all is decided, a clause is added and the search propagates, and whether a clause is then false.
fn level_with(
    alloc: Global,
    search: &mut Search<Apart>,
    names: &[i32],
) -> Result<Option<(u32, bool)>, AllocError> {
    next_conflict(alloc, search)?;
    if !add(search, clause_of(alloc, names)?)? {
        return Ok(None);
    }
    let conflict = search.propagate(alloc)?;
    Ok(Some((search.level(), conflict.is_some())))
}

// What a search comes to.
#[derive(Clone, Copy)]
pub(crate) enum Outcome {
    // whether some assignment makes each clause true
    Satisfiable(bool),
    // so many decisions before each clause has a true literal
    Needed(u32),
    // a refutation, maybe of so many clauses
    Refuted(Option<usize>),
    // the first lesson
    Learnt(&'static Lesson),
    // literals at places of the trail
    Trail(&'static [(usize, Lit)]),
    // after a clause by name is added, the level and whether a clause is false
    Added(&'static [i32], u32, bool),
}

fn comes_to(
    alloc: Global,
    search: &mut Search<Apart>,
    outcome: Outcome,
) -> Result<bool, AllocError> {
    match outcome {
        Outcome::Satisfiable(wanted) => Ok(is_satisfiable(alloc, search)? == wanted),
        Outcome::Needed(count) => Ok(decided(alloc, search)? == Some(count)),
        Outcome::Refuted(count) => is_refuted(alloc, search, count),
        Outcome::Learnt(lesson) => is_learnt(alloc, search, lesson),
        Outcome::Trail(wanted) => are_decided(alloc, search, wanted),
        Outcome::Added(names, level, is_false) => {
            Ok(level_with(alloc, search, names)? == Some((level, is_false)))
        }
    }
}

// Whether a search over the clauses comes to this, if the theory has its definitions.
fn search_comes_to(alloc: Global, ground: &Ground, outcome: Outcome) -> Result<bool, AllocError> {
    if ground.defs() < 2 {
        return Ok(false);
    }
    let theory = Apart::new(alloc, ground.sizes())?;
    let mut search = Search::new(alloc, ground, theory)?;
    comes_to(alloc, &mut search, outcome)
}

// Whether a search over the clauses of a problem comes to this.
pub(crate) fn is_so(alloc: Global, problem: Problem, outcome: Outcome) -> Result<bool, AllocError> {
    let mut ground = empty(alloc, problem);
    push_problem(alloc, &mut ground, problem)?;
    search_comes_to(alloc, &ground, outcome)
}
