//! Clauses that, as hints, show what is learnt from a false clause: the reasons of the marked steps, in the order of
//! the trail, and the false clause last.

ghost use Rattle.std.specs.Prelude.{◌≡◌, ◌<◌, ◌≤◌, ◌∷◌, ◌++◌, [], length, All, OnOk, IfOk};
ghost use Rattle.gh_base.specs.Atoms.{AreInRange};
ghost use Rattle.gh_sat.specs.Status.{IsFalseClause};
ghost use Rattle.gh_sat.specs.Trail.{IsFalseIn, AreSteps, IsSound};
ghost use Rattle.gh_sat.specs.Learn.{marks_of, AllMarked, IsBounded, AreMarks, AllHaveReasons, ResolvedFrom};
ghost use Rattle.gh_sat.specs.Learn.{marked_reasons, IsMarkedReason, AreReasons};

use crate::marks::{Marks, begin, last_marked, mark_all};
use crate::trail::Trail;
use gh_base::atom::Lit;
use gh_base::clause::Clause;
use std::alloc::{AllocError, Global};

/// Marks the places of all that is reached from a false clause, where each step has a reason.
pub fn mark_reached(
    marks: &mut Marks,
    trail: &Trail,
    clauses: &[Clause],
    conflict: &[Lit],
) -> Result<(), AllocError>
    requires marks { AreMarks trail.now.steps (marks_of marks.old) }
    requires bounded { IsBounded (marks_of marks.old) }
    requires start { marks.old.start ≡ 0 }
    requires end { marks.old.end ≡ length trail.now.steps }
    requires range { All (AreInRange trail.now.sizes) clauses.now }
    requires conflict_range { AreInRange trail.now.sizes conflict.now }
    requires reasons { AllHaveReasons clauses.now trail.now.steps }
    requires all_false { IsFalseIn trail.now.steps conflict.now }
    requires valid { AreSteps trail.now }
    ensures all { OnOk result (AllMarked trail.now.steps (marks_of marks.new) conflict.now) }
    ensures resolved { OnOk result (ResolvedFrom clauses.now trail.now.steps (marks_of marks.new) 0) }
    ensures bounded { IsBounded (marks_of marks.new) }
    ensures long { length marks.new.stamps.items ≡ length marks.old.stamps.items }
{
    mark_all(marks, trail, conflict)?;
    while marks.waiting > 0 {
        let place = last_marked(marks);
        marks.end = place;
        marks.waiting -= 1;
        let Some(k) = trail.steps()[place].reason else {
            unreachable!()
        };
        mark_all(marks, trail, clauses[k as usize].lits())?;
    }
    Ok(())
}

// The reason of the step at a place, if that is marked.
fn marked_reason(marks: &Marks, trail: &Trail, place: usize) -> Option<u32>
    requires within { place < length trail.now.steps }
    requires long { length trail.now.steps ≤ length marks.now.stamps.items }
    ensures { IsMarkedReason marks.now trail.now.steps place result }
{
    if marks.stamps[place] == marks.round {
        trail.steps()[place].reason
    } else {
        None
    }
}

/// The reasons of the marked steps from a place on, in the order of the trail, and the false clause last.
pub fn reasons_from(
    alloc: Global,
    marks: &Marks,
    trail: &Trail,
    from: usize,
    conflict: u32,
) -> Result<Vec<u32>, AllocError>
    requires { length trail.now.steps ≤ length marks.now.stamps.items }
    ensures { IfOk result (λ v. v.items ≡ marked_reasons marks.now trail.now.steps from ++ conflict ∷ []) }
{
    let mut reasons = Vec::new(alloc);
    for place in from..trail.steps().len() {
        if let Some(reason) = marked_reason(marks, trail, place) {
            reasons.push(reason)?;
        }
    }
    reasons.push(conflict)?;
    Ok(reasons)
}

/// Clauses that, as hints in this order, show the empty clause, where a clause is false and no level is open.
pub fn all_reasons(
    alloc: Global,
    marks: &mut Marks,
    trail: &Trail,
    clauses: &[Clause],
    conflict: u32,
) -> Result<Vec<u32>, AllocError>
    requires sound { IsSound (record {
      sizes = trail.now.sizes;
      clauses = clauses.now;
      trail = trail.now.steps;
      starts = [];
    }) }
    requires conflict { IsFalseClause clauses.now trail.now.steps conflict }
    requires bounded { IsBounded (marks_of marks.old) }
    requires long { length trail.now.steps ≤ length marks.old.stamps.items }
    ensures reasons { IfOk result (λ v. AreReasons clauses.now v.items []) }
    ensures bounded { IsBounded (marks_of marks.new) }
    ensures long { length marks.new.stamps.items ≡ length marks.old.stamps.items }
{
    begin(marks, 0, trail.steps().len());
    mark_reached(marks, trail, clauses, clauses[conflict as usize].lits())?;
    let reasons = reasons_from(alloc, marks, trail, 0, conflict)?;
    Ok(reasons)
}
