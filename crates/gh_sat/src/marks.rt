//! Marks on the trail, from a false clause back to its first unique implication point.

ghost use Rattle.std.specs.Prelude.{◌≡◌, ℕ, ◌+◌, ◌<◌, ◌≤◌, [], ◌∷◌, length, All, OnOk, IfOk};
ghost use Rattle.gh_base.specs.Atoms.{AreInRange, IsInRange};
ghost use Rattle.gh_sat.specs.Trail.{IsFalseIn, AreSteps};
ghost use Rattle.gh_sat.specs.Learn.{marks_of, HasRound, HasMark, AllMarked, IsBounded, AreMarks, MarksMore};
ghost use Rattle.gh_sat.specs.Learn.{HaveReasons, IsLastMarked, AreMarksWithin, IsMarkedOrFalse, IsPresent};
ghost use Rattle.gh_sat.specs.Learn.{marked_before};

use crate::trail::Trail;
use gh_base::atom::Lit;
use gh_base::clause::Clause;
use std::alloc::{AllocError, Global};

/// Marks by place: a place is marked where its stamp is the round.
#[derive(Drop)]
pub struct Marks {
    pub stamps: Vec<u32>,
    pub round: u32,
    /// The marked literals that became false before the present level, and their greatest level.
    pub lower: Vec<Lit>,
    pub level: u32,
    /// How many marks stand from `start`, where the present level begins, to `end`.
    pub start: usize,
    pub end: usize,
    pub waiting: usize,
}

/// No mark, with a stamp for each of so many places.
pub fn no_marks(alloc: Global, places: usize) -> Result<Marks, AllocError>
    ensures bounded { IfOk result (λ m. IsBounded (marks_of m)) }
    ensures long { IfOk result (λ m. length m.stamps.items ≡ places) }
{
    Ok(Marks {
        stamps: vec![in alloc; 0; places]?,
        round: 0,
        lower: Vec::new(alloc),
        level: 0,
        start: 0,
        end: 0,
        waiting: 0,
    })
}

// No stamp is of a round.
fn wipe(stamps: &mut Vec<u32>)
    ensures zero { All (λ s. s ≤ 0) stamps.new.items }
    ensures long { length stamps.new.items ≡ length stamps.old.items }
{
    for i in 0..stamps.len() {
        stamps[i] = 0;
    }
}

/// Begins a round: nothing is marked.
pub fn begin(marks: &mut Marks, start: usize, end: usize)
    requires { IsBounded (marks_of marks.old) }
    ensures bounded { IsBounded (marks_of marks.new) }
    ensures none { AreMarksWithin start end (length marks.old.stamps.items) (marks_of marks.new) }
    ensures unmarked { (j : ℕ) → HasRound (marks_of marks.new) j → ⊥ }
    ensures long { length marks.new.stamps.items ≡ length marks.old.stamps.items }
    ensures start { marks.new.start ≡ start }
    ensures end { marks.new.end ≡ end }
{
    if marks.round == u32::MAX {
        wipe(&mut marks.stamps);
        marks.round = 0;
    }
    marks.round += 1;
    marks.lower.clear();
    marks.level = 0;
    marks.start = start;
    marks.end = end;
    marks.waiting = 0;
}

/// Marks the place of a false literal.
pub fn mark(marks: &mut Marks, trail: &Trail, lit: Lit) -> Result<(), AllocError>
    requires marks { AreMarks trail.now.steps (marks_of marks.old) }
    requires bounded { IsBounded (marks_of marks.old) }
    requires range { IsInRange trail.now.sizes lit.atom }
    requires stands { IsMarkedOrFalse trail.now.steps (marks_of marks.old) lit }
    ensures marks { OnOk result (AreMarks trail.now.steps (marks_of marks.new)) }
    ensures is { OnOk result (HasMark trail.now.steps (marks_of marks.new) lit) }
    ensures more { MarksMore trail.now.steps (lit ∷ []) (marks_of marks.old) (marks_of marks.new) }
{
    let place = trail.place(lit.atom) as usize;
    if marks.stamps[place] == marks.round {
        return Ok(());
    }
    marks.stamps[place] = marks.round;
    if place >= marks.start {
        marks.waiting += 1;
    } else {
        marks.lower.push(lit)?;
        marks.level = marks.level.max(trail.steps()[place].level);
    }
    Ok(())
}

/// Marks the places of a clause's literals, which are false or marked.
pub fn mark_all(marks: &mut Marks, trail: &Trail, clause: &[Lit]) -> Result<(), AllocError>
    requires marks { AreMarks trail.now.steps (marks_of marks.old) }
    requires bounded { IsBounded (marks_of marks.old) }
    requires range { AreInRange trail.now.sizes clause.now }
    requires stands { All (IsMarkedOrFalse trail.now.steps (marks_of marks.old)) clause.now }
    ensures marks { OnOk result (AreMarks trail.now.steps (marks_of marks.new)) }
    ensures all { OnOk result (AllMarked trail.now.steps (marks_of marks.new) clause.now) }
    ensures more { MarksMore trail.now.steps clause.now (marks_of marks.old) (marks_of marks.new) }
{
    for lit in clause {
        mark(marks, trail, *lit)?;
    }
    Ok(())
}

/// The last marked place below the end.
pub fn last_marked(marks: &Marks) -> usize
    requires some { 0 < marks.now.waiting }
    requires end { marks.now.end ≤ length marks.now.stamps.items }
    requires waiting { marks.now.waiting ≡ marked_before (marks_of marks.now) marks.now.end }
    ensures within { result < marks.now.end }
    ensures start { marks.now.start ≤ result }
    ensures is { HasRound (marks_of marks.now) result }
    ensures between { (j : ℕ) → result < j → j < marks.now.end → HasRound (marks_of marks.now) j → ⊥ }
    ensures fewer { marks.now.waiting ≡ marked_before (marks_of marks.now) result + 1 }
{
    let mut i = marks.end;
    while i > marks.start {
        i -= 1;
        if marks.stamps[i] == marks.round {
            return i;
        }
    }
    unreachable!()
}

/// Resolves the conflict with the reasons of the steps of the present level, the last first, until one of them is left.
pub fn resolve(
    marks: &mut Marks,
    trail: &Trail,
    clauses: &[Clause],
    conflict: &[Lit],
) -> Result<usize, AllocError>
    requires marks { AreMarks trail.now.steps (marks_of marks.old) }
    requires unmarked { (j : ℕ) → HasRound (marks_of marks.old) j → ⊥ }
    requires bounded { IsBounded (marks_of marks.old) }
    requires end { marks.old.end ≡ length trail.now.steps }
    requires range { All (AreInRange trail.now.sizes) clauses.now }
    requires conflict_range { AreInRange trail.now.sizes conflict.now }
    requires reasons { HaveReasons clauses.now trail.now.steps marks.old.start }
    requires all_false { IsFalseIn trail.now.steps conflict.now }
    requires present { IsPresent trail.now.steps marks.old.start conflict.now }
    requires valid { AreSteps trail.now }
    ensures point { IfOk result (λ place.
        IsLastMarked clauses.now trail.now.steps conflict.now (marks_of marks.new) place) }
    ensures round { marks.new.round ≡ marks.old.round }
    ensures bounded { IsBounded (marks_of marks.new) }
    ensures long { length marks.new.stamps.items ≡ length marks.old.stamps.items }
    ensures start { marks.new.start ≡ marks.old.start }
{
    mark_all(marks, trail, conflict)?;
    loop {
        let place = last_marked(marks);
        marks.end = place;
        marks.waiting -= 1;
        if marks.waiting == 0 {
            return Ok(place);
        }
        match trail.steps()[place].reason {
            None => return Ok(place),
            Some(k) => mark_all(marks, trail, clauses[k as usize].lits())?,
        }
    }
}
