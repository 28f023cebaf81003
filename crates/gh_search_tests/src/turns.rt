//! Searches that go on to a conflict, to a lesson, or to their end.

ghost use Rattle.std.specs.Prelude.{IfOk, IfSome, IfNone};
ghost use Rattle.gh_sat.specs.Learn.{IsConflictAt};
ghost use Rattle.gh_sat.specs.Measure.{LeavesLess};
ghost use Rattle.gh_sat.specs.Status.{IsSettled};
ghost use Rattle.gh_sat.specs.Theory.{IsConsistentWith};
ghost use Rattle.gh_sat.specs.Trail.{IsSound};

use crate::apart::Apart;
use gh_sat::clause_search::Learnt;
use gh_sat::search::Search;
use gh_sat::theory::Theory;
use std::alloc::{AllocError, Global};

// Decides until a clause is false, if one comes to be.
pub(crate) fn next_conflict(
    alloc: Global,
    search: &mut Search<Apart>,
) -> Result<Option<u32>, AllocError>
    ensures { IfOk result (λ o. IfSome o (λ k. IsConflictAt search.new k)) }
{
    for _round in 0..100000 {
        let conflict = search.propagate(alloc)?;
        if conflict.is_some() {
            return Ok(conflict);
        }
        if search.decide().is_none() {
            return Ok(None);
        }
    }
    Ok(None)
}

// Learns from the next conflict above level 0 and jumps back.
pub(crate) fn next_lesson(
    alloc: Global,
    search: &mut Search<Apart>,
) -> Result<Option<Learnt>, AllocError> {
    let Some(k) = next_conflict(alloc, search)? else {
        return Ok(None);
    };
    if search.level() == 0 {
        return Ok(None);
    }
    let learnt = search.learn(alloc, k)?;
    search.backjump(learnt.level);
    Ok(Some(learnt))
}

// A turn of a search after an answer of `propagate`: a decision, or a jump back after a lesson, and the next answer.
// None where all is decided, and where the conflict stands at level 0.
fn turn<T: Theory>(
    alloc: Global,
    search: &mut Search<T>,
    answer: Option<u32>,
) -> Result<Option<Option<u32>>, AllocError>
    requires sound { IsSound search.old }
    requires conflict { IfSome answer (λ k. IsConflictAt search.old k) }
    requires settled { IfNone answer (IsSettled search.old) }
    requires consistent { IfNone answer (IsConsistentWith T.valid search.old) }
    ensures less { IfOk result (λ o. IfSome o (λ _. LeavesLess search.old search.new)) }
    ensures sound { IfOk result (λ o. IfSome o (λ _. IsSound search.new)) }
    ensures conflict { IfOk result (λ o. IfSome o (λ next. IfSome next (λ k. IsConflictAt search.new k))) }
    ensures settled { IfOk result (λ o. IfSome o (λ next. IfNone next (IsSettled search.new))) }
    ensures consistent { IfOk result (λ o. IfSome o (λ next. IfNone next (IsConsistentWith T.valid search.new))) }
{
    match answer {
        None => {
            let Some(_lit) = search.decide() else {
                return Ok(None);
            };
            Ok(Some(search.propagate(alloc)?))
        }
        Some(k) => {
            if search.level() == 0 {
                return Ok(None);
            }
            let learnt = search.learn(alloc, k)?;
            search.backjump(learnt.level);
            Ok(Some(search.propagate(alloc)?))
        }
    }
}

// Whether some assignment makes each clause and those of the theory true: a search that ends by its measure.
pub(crate) fn is_satisfiable<T: Theory>(
    alloc: Global,
    search: &mut Search<T>,
) -> Result<bool, AllocError> {
    let mut answer = search.propagate(alloc)?;
    while let Some(next) = turn(alloc, search, answer)? {
        answer = next;
    }
    Ok(answer.is_none())
}

// How many decisions come before each clause has a true literal, where no clause is false on the way.
pub(crate) fn decided(
    alloc: Global,
    search: &mut Search<Apart>,
) -> Result<Option<u32>, AllocError> {
    for count in 0..1000 {
        if search.propagate(alloc)?.is_some() {
            return Ok(None);
        }
        if search.decide_needed().is_none() {
            return Ok(Some(count));
        }
    }
    Ok(None)
}
